//! Whether a rule can be applied to a graph.
ghost use Rattle.std.specs.Prelude.{◌≡◌, ◌≢◌, ◌↔◌, ◌≤◌, ℕ, Some, true, IsTrue, MatchOption};
ghost use Rattle.std.specs.Option.{option_map};
ghost use Rattle.std.specs.FinMap as finite;
ghost use Rattle.circuits.specs.Circuit.{circuit_of};
ghost use Rattle.circuits.specs.Replacing.{is_inner, IsNew};
ghost use Rattle.circuits.specs.ReplacedGraph.{Matches};
ghost use Rattle.graph_core.specs.GraphValue.{Denotes, IsNodeAt, port_of};
ghost use Rattle.graph_core.specs.Open.{port_at};
ghost use Rattle.graph_core.specs.Place.{id_of};
ghost use Rattle.subst_engine.specs.Matching.{AreFedAlike, HasRoom, IdHasRoom, IdMatches, NodeMatches, StandsIn, inner_source};

use crate::named::{has_inner, is_inner, kind_at, name_of, same_port};
use crate::rule::Rule;
use components::{Node, inputs, same_kind};
use graph_core::{Graph, NodeId, PortAt};

/// Whether the rule can be applied: the graph has each inner node of its left graph, with the same name and kind and the same wires
/// between them, and no inner node of its right graph has the name of a node that stays. Takes no memory.
pub fn matches<R: Rule>(g: &Graph, rule: &R) -> bool
    ensures { IsTrue result ↔ Matches g.now.graph (R.named rule.now).left (R.named rule.now).right }
{
    graphs_match(g, rule.left(), rule.right())
}

/// Whether the inner nodes of `left` stand in the graph, and those of `right` have room there.
pub(crate) fn graphs_match(g: &Graph, left: &Graph, right: &Graph) -> bool
    ensures { IsTrue result ↔ Matches g.now.graph left.now.graph right.now.graph }
{
    stands_in(left, g) && has_room(g, left, right)
}

/// Whether each inner node of `left` stands in the graph, with the wires between them.
fn stands_in(left: &Graph, g: &Graph) -> bool
    ensures { IsTrue result ↔ StandsIn left.now.graph g.now.graph }
{
    left.is_graph();
    for index in 0..left.slots() {
        if !index_matches(g, left, index) {
            return false;
        }
    }
    true
}

/// Whether the live node of this index, if it is an inner one, stands in the graph.
fn index_matches(g: &Graph, left: &Graph, index: usize) -> bool
    ensures { IsTrue result ↔ IdMatches g.now.graph left.now (id_of index) }
{
    let Some(id) = left.id_at(index) else {
        return true;
    };
    match left.node(id) {
        Some(node) if is_inner(&node.kind) => node_matches(g, left, id, node),
        _ => true,
    }
}

/// Whether the node has the same kind in the graph, and the same wires from inner nodes of `left`.
fn node_matches(g: &Graph, left: &Graph, id: NodeId, node: &Node) -> bool
    requires { IsNodeAt left.now id node.now }
    ensures { IsTrue result ↔ NodeMatches g.now.graph left.now.graph node.now.name }
{
    g.is_graph();
    left.is_graph();
    match find_alike(g, node) {
        Some(twin) => inputs_match(g, twin, left, id, inputs(&node.kind)),
        None => false,
    }
}

/// The id of the node with this name and kind.
fn find_alike(g: &Graph, node: &Node) -> Option<NodeId>
    ensures { MatchOption result
        ((circuit_of g.now.graph).kind_at node.now.name ≢ Some node.now.kind)
        (λ id. Denotes g.now id node.now.name × ((circuit_of g.now.graph).kind_at node.now.name ≡ Some node.now.kind)) }
{
    let id = g.find(node.name.bytes())?;
    if same_kind(&g.node(id)?.kind, &node.kind) {
        Some(id)
    } else {
        None
    }
}

/// Whether each of the first `count` inputs of two nodes of one name has the same wire from an inner node of `left`, or none.
fn inputs_match(g: &Graph, twin: NodeId, left: &Graph, node: NodeId, count: u8) -> bool
    ensures { IsTrue result ↔ ((k : ℕ) → 1 ≤ k → k ≤ count →
        AreFedAlike g.now.graph left.now.graph (port_of g.now (port_at twin k)) (port_of left.now (port_at node k))) }
{
    for port in 1..=count {
        if !input_matches(g, PortAt { node: twin, port }, left, PortAt { node, port }) {
            return false;
        }
    }
    true
}

/// Whether the same output of an inner node of `left` feeds two inputs, or none feeds either.
fn input_matches(g: &Graph, p: PortAt, left: &Graph, q: PortAt) -> bool
    ensures { IsTrue result ↔ AreFedAlike g.now.graph left.now.graph (port_of g.now p) (port_of left.now q) }
{
    match (inner_source(g, left, p), inner_source(left, left, q)) {
        (Some(source), Some(other)) => same_port(g, source, left, other),
        (None, None) => true,
        _ => false,
    }
}

/// What feeds an input of the graph, where it is of an inner node of `left`.
fn inner_source(g: &Graph, left: &Graph, target: PortAt) -> Option<PortAt>
    ensures { option_map (port_of g.now) result ≡ inner_source left.now.graph (finite.get g.now.graph.feeders (port_of g.now target)) }
{
    let source = g.wire_into(target)?;
    if has_inner(left, name_of(g, source.node)) {
        Some(source)
    } else {
        None
    }
}

/// Whether no inner node of `right` has the name of a node that stays.
fn has_room(g: &Graph, left: &Graph, right: &Graph) -> bool
    ensures { IsTrue result ↔ IsNew (circuit_of g.now.graph) (circuit_of left.now.graph) (circuit_of right.now.graph) }
{
    right.is_graph();
    for index in 0..right.slots() {
        if !index_has_room(g, left, right, index) {
            return false;
        }
    }
    true
}

/// Whether the live node of this index, if it is an inner one, has not the name of a node that stays.
fn index_has_room(g: &Graph, left: &Graph, right: &Graph, index: usize) -> bool
    ensures { IsTrue result ↔ IdHasRoom g.now.graph left.now.graph right.now (id_of index) }
{
    let Some(id) = right.id_at(index) else {
        return true;
    };
    match right.node(id) {
        Some(node) if is_inner(&node.kind) => name_has_room(g, left, node.name.bytes()),
        _ => true,
    }
}

/// Whether the name is not that of a node that stays.
fn name_has_room(g: &Graph, left: &Graph, name: &[u8]) -> bool
    ensures { IsTrue result ↔ HasRoom g.now.graph left.now.graph name.now }
{
    match kind_at(g, name) {
        Some(_) => has_inner(left, name),
        None => true,
    }
}
