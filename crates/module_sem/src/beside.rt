//! Two graphs side by side.
ghost use Rattle.std.specs.Prelude.{◌≡◌, Some, None, IfOk, OnOk};
ghost use Rattle.std.specs.FinMap as finite;
ghost use Rattle.components.specs.Name.{Name};
ghost use Rattle.components.specs.NamedGraph.{IsTyped, with_node};
ghost use Rattle.components.specs.Node.{Body, NodeOk};
ghost use Rattle.circuits.specs.PluggedGraph.{beside_graph};
ghost use Rattle.graph_core.specs.GraphValue.{Denotes, with_id};
ghost use Rattle.graph_core.specs.Place.{id_of};
ghost use Rattle.module_sem.specs.Beside.{AreApart, CanFeed, HasNoWireAt, HasNodesOf, IsFedAs, IsToFeed, with_nodes_of, with_wires_of};

use crate::standing::{node_at, twin};
use components::{Node, inputs};
use graph_core::{Graph, NodeId, PortAt};
use port_types::NoMemory;
use std::alloc::Global;

/// The graph of all nodes and wires of both. The only error is want of memory.
pub(crate) fn beside(alloc: Global, c: &Graph, g: &Graph) -> Result<Graph, NoMemory>
    requires typed { IsTyped g.now.graph }
    requires apart { AreApart c.now.graph g.now.graph }
    ensures { IfOk result (λ both. both.graph ≡ beside_graph c.now.graph g.now.graph) }
{
    let mut both = c.copy(alloc)?;
    both.is_graph();
    add_nodes(&mut both, g)?;
    add_wires(&mut both, g);
    Ok(both)
}

/// Adds a node for each of `g`, equal to it. The only error is want of memory.
fn add_nodes(h: &mut Graph, g: &Graph) -> Result<(), NoMemory>
    requires { AreApart h.old.graph g.now.graph }
    ensures { OnOk result (h.new.graph ≡ with_nodes_of h.old.graph g.now.graph) }
{
    g.is_graph();
    for index in 0..g.slots() {
        add_twin(h, g, index)?;
    }
    Ok(())
}

/// Adds a node that is equal to that of this index of `g`, if there is one. The only error is want of memory.
fn add_twin(h: &mut Graph, g: &Graph, index: usize) -> Result<(), NoMemory>
    requires { (name : Name) → Denotes g.now (id_of index) name → finite.get h.old.graph.nodes name ≡ None }
    ensures live { OnOk result ((name : Name) (body : Body) → Denotes g.now (id_of index) name → finite.get g.now.graph.nodes name ≡ Some body →
        h.new.graph ≡ with_node h.old.graph name body) }
    ensures dead { OnOk result (finite.get g.now.ids (id_of index) ≡ None → h.new.graph ≡ h.old.graph) }
{
    if let Some(node) = node_at(g, index) {
        add(h, copy(node)?)?;
    }
    Ok(())
}

/// An equal node of its own. The only error is want of memory.
fn copy(node: &Node) -> Result<Node, NoMemory>
    ensures { IfOk result (λ copy. copy ≡ node.now) }
{
    Ok(node.clone()?)
}

/// Adds the node, whose name is free. The only error is want of memory.
pub(crate) fn add(h: &mut Graph, node: Node) -> Result<NodeId, NoMemory>
    requires node { NodeOk node }
    requires free { finite.get h.old.graph.nodes node.name ≡ None }
    ensures ok { IfOk result (λ id. h.new ≡ with_id h.old id node) }
    ensures fresh { IfOk result (λ id. finite.get h.old.ids id ≡ None) }
{
    match h.add_node(node) {
        Ok(id) => Ok(id),
        Err(_) => Err(NoMemory),
    }
}

/// Adds a wire for each of `g`, between the nodes of the same names. Takes no memory.
fn add_wires(h: &mut Graph, g: &Graph)
    requires typed { IsTyped g.now.graph }
    requires nodes { HasNodesOf h.old.graph g.now.graph }
    requires wires { HasNoWireAt h.old.graph g.now.graph }
    ensures { h.new.graph ≡ with_wires_of h.old.graph g.now.graph }
{
    g.is_graph();
    for index in 0..g.slots() {
        feed_twin(h, g, index);
    }
}

/// Feeds the inputs of the node of `h` with the name of the node of this index of `g`, if there is one, as those of the latter. Takes no memory.
fn feed_twin(h: &mut Graph, g: &Graph, index: usize)
    requires typed { IsTyped g.now.graph }
    requires nodes { HasNodesOf h.old.graph g.now.graph }
    requires can { (name : Name) → Denotes g.now (id_of index) name → CanFeed h.old.graph g.now.graph name }
    ensures live { (name : Name) → Denotes g.now (id_of index) name → IsFedAs h.old.graph g.now.graph name h.new.graph }
    ensures dead { finite.get g.now.ids (id_of index) ≡ None → h.new.graph ≡ h.old.graph }
{
    let Some(id) = g.id_at(index) else {
        return;
    };
    let Some(node) = g.node(id) else {
        return;
    };
    feed_inputs(h, g, id, inputs(&node.kind));
}

/// Feeds the inputs, of which there are so many, of the node of `h` with the name of a node of `g` as those of the latter. Takes no memory.
fn feed_inputs(h: &mut Graph, g: &Graph, id: NodeId, count: u8)
    requires typed { IsTyped g.now.graph }
    requires nodes { HasNodesOf h.old.graph g.now.graph }
    requires can { IsToFeed h.old.graph g.now id count }
    ensures { (name : Name) → Denotes g.now id name → IsFedAs h.old.graph g.now.graph name h.new.graph }
{
    let target = twin(h, g, id);
    for port in 1..=count {
        let source = g.source_of(PortAt { node: id, port });
        let from = twin(h, g, source.node);
        h.join(
            PortAt {
                node: from,
                port: source.port,
            },
            PortAt { node: target, port },
        );
    }
}
