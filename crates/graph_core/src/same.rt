//! Whether two graphs are the same by names.
ghost use Rattle.std.specs.Prelude.{◌≡◌, ◌≢◌, ◌↔◌, ◌≤◌, ℕ, IsTrue, MatchOption, Some};
ghost use Rattle.std.specs.FinMap as finite;
ghost use Rattle.components.specs.Node.{NodeOk, body_of};
ghost use Rattle.graph_core.specs.GraphValue.{Denotes, name_by, port_of};
ghost use Rattle.graph_core.specs.Open.{port_at};
ghost use Rattle.graph_core.specs.Within.{IdStandsIn, IsFedIn, IsWithin};

use crate::graph::Graph;
use crate::place::{NodeId, PortAt};
use components::{Node, inputs, same_body};

/// Whether two graphs have equal names, kinds, kept attributes and wires, whatever the ids of their nodes and the order of kept attributes. Takes no memory.
pub fn same_graph(a: &Graph, b: &Graph) -> bool
    ensures { IsTrue result ↔ (a.now.graph ≡ b.now.graph) }
{
    is_within(a, b) && is_within(b, a)
}

/// Whether each node and each wire of `a` stands in `b`.
fn is_within(a: &Graph, b: &Graph) -> bool
    ensures { IsTrue result ↔ IsWithin a.now.graph b.now.graph }
{
    a.is_graph();
    for index in 0..a.slots() {
        if !stands_in(a, NodeId::new(index), b) {
            return false;
        }
    }
    true
}

/// Whether the live node of this id, if any, stands in `b` with what feeds its inputs.
fn stands_in(a: &Graph, id: NodeId, b: &Graph) -> bool
    ensures { IsTrue result ↔ IdStandsIn a.now id b.now.graph }
{
    let Some(node) = a.node(id) else {
        return true;
    };
    match find_node(b, node) {
        Some(twin) => are_fed_in(a, id, b, twin, inputs(&node.kind)),
        None => false,
    }
}

/// The id of an equal node, kept attributes in any order.
fn find_node(g: &Graph, node: &Node) -> Option<NodeId>
    requires { NodeOk node.now }
    ensures { MatchOption result
        (finite.get g.now.graph.nodes node.now.name ≢ Some (body_of node.now))
        (λ id. Denotes g.now id node.now.name × (finite.get g.now.graph.nodes node.now.name ≡ Some (body_of node.now))) }
{
    let id = g.find(node.name.bytes())?;
    let found = g.node(id)?;
    if same_body(found, node) {
        Some(id)
    } else {
        None
    }
}

/// Whether what feeds each of the first `count` inputs of a node of `a` feeds the same input of a node of `b`.
fn are_fed_in(a: &Graph, node: NodeId, b: &Graph, twin: NodeId, count: u8) -> bool
    ensures { IsTrue result ↔ ((k : ℕ) → 1 ≤ k → k ≤ count →
        IsFedIn a.now.graph (port_of a.now (port_at node k)) b.now.graph (port_of b.now (port_at twin k))) }
{
    for port in 1..=count {
        if !is_fed_in(a, PortAt { node, port }, b, PortAt { node: twin, port }) {
            return false;
        }
    }
    true
}

/// Whether what feeds an input of `a` feeds an input of `b`.
fn is_fed_in(a: &Graph, p: PortAt, b: &Graph, q: PortAt) -> bool
    ensures { IsTrue result ↔ IsFedIn a.now.graph (port_of a.now p) b.now.graph (port_of b.now q) }
{
    match (a.wire_into(p), b.wire_into(q)) {
        (Some(from), Some(other)) => same_port(a, from, b, other),
        (Some(_), None) => false,
        (None, _) => true,
    }
}

/// Whether two ports have one number, and their nodes one name.
fn same_port(a: &Graph, p: PortAt, b: &Graph, q: PortAt) -> bool
    ensures { IsTrue result ↔ (port_of a.now p ≡ port_of b.now q) }
{
    p.port == q.port && name_of(a, p.node) == name_of(b, q.node)
}

/// The name of the node of this id, and the empty one where none is live.
fn name_of(g: &Graph, id: NodeId) -> &[u8]
    ensures { result.now ≡ name_by g.now.ids id }
{
    match g.node(id) {
        Some(node) => node.name.bytes(),
        None => b"".as_slice(),
    }
}
