//! The document of a graph: its nodes in the byte order of their names, and then its wires in the byte order of the target's name and by its port.
//! The only error of each call is want of memory.

ghost use Rattle.std.specs.Prelude.{◌≡◌, ◌++◌, OnOk, IfOk, map};
ghost use Rattle.std.specs.List.{flat_map};
ghost use Rattle.std.specs.FinMap as map_of;
ghost use Rattle.components.specs.Node.{named};
ghost use Rattle.graph_core.specs.GraphValue.{IsNodeAt, port_of};
ghost use Rattle.graph_print.specs.CanonicalText.{canonical_document, edge_entry};
ghost use Rattle.graph_print.specs.PrintedWires.{wire_of, wires_into};
ghost use Rattle.graph_print.specs.DocumentParts.{node_entries_at, edge_entries_at};

use crate::edge_entry::edge_entry;
use crate::node_entry::node_entry;
use components::{Node, inputs};
use dot_text::{Doc, DocEdge, DocNode};
use graph_core::{Graph, NodeId, PortAt};
use port_types::{Items, NoMemory};
use std::alloc::Global;

/// The document of a graph.
pub(crate) fn document_of(alloc: Global, g: &Graph) -> Result<Doc, NoMemory>
    ensures { IfOk result (λ document. document ≡ canonical_document g.now.graph) }
{
    g.is_graph();
    let ids = g.by_name(alloc)?;
    let nodes = node_entries(alloc, g, &ids)?;
    let edges = edge_entries(alloc, g, &ids)?;
    Ok(Doc { nodes, edges })
}

/// The statement of each node.
fn node_entries(alloc: Global, g: &Graph, ids: &[NodeId]) -> Result<Items<DocNode>, NoMemory>
    ensures { IfOk result (λ nodes. nodes ≡ flat_map (node_entries_at g.now) ids.now) }
{
    let mut nodes = Vec::new(alloc);
    for id in ids {
        push_node(alloc, &mut nodes, g, *id)?;
    }
    Ok(Items::new(nodes))
}

/// Appends the statement of a node.
fn push_node(alloc: Global, nodes: &mut Vec<DocNode>, g: &Graph, id: NodeId) -> Result<(), NoMemory>
    ensures { OnOk result (nodes.new.items ≡ nodes.old.items ++ node_entries_at g.now id) }
{
    if let Some(node) = g.node(id) {
        nodes.push(node_entry(alloc, node)?)?;
    }
    Ok(())
}

/// The statements of the wires into each node.
fn edge_entries(alloc: Global, g: &Graph, ids: &[NodeId]) -> Result<Items<DocEdge>, NoMemory>
    ensures { IfOk result (λ edges. edges ≡ flat_map (edge_entries_at g.now) ids.now) }
{
    let mut edges = Vec::new(alloc);
    for id in ids {
        push_edges_at(alloc, &mut edges, g, *id)?;
    }
    Ok(Items::new(edges))
}

/// Appends the statements of the wires into a node.
fn push_edges_at(
    alloc: Global,
    edges: &mut Vec<DocEdge>,
    g: &Graph,
    id: NodeId,
) -> Result<(), NoMemory>
    ensures { OnOk result (edges.new.items ≡ edges.old.items ++ edge_entries_at g.now id) }
{
    if let Some(node) = g.node(id) {
        push_edges_into(alloc, edges, g, id, node)?;
    }
    Ok(())
}

/// Appends the statements of the wires into a live node, by the numbers of its inputs.
fn push_edges_into(
    alloc: Global,
    edges: &mut Vec<DocEdge>,
    g: &Graph,
    id: NodeId,
    node: &Node,
) -> Result<(), NoMemory>
    requires { IsNodeAt g.now id node.now }
    ensures { OnOk result (edges.new.items ≡ edges.old.items ++ map edge_entry (wires_into g.now.graph (named node.now))) }
{
    for port in 1..=inputs(&node.kind) {
        push_edge_into(alloc, edges, g, PortAt { node: id, port }, node)?;
    }
    Ok(())
}

/// Appends the statement of the wire into an input of a live node, where it stands on one.
fn push_edge_into(
    alloc: Global,
    edges: &mut Vec<DocEdge>,
    g: &Graph,
    target: PortAt,
    node: &Node,
) -> Result<(), NoMemory>
    requires { IsNodeAt g.now target.node node.now }
    ensures { let port = port_of g.now target in
        OnOk result (edges.new.items ≡ edges.old.items ++ map edge_entry (wire_of port (map_of.get g.now.graph.feeders port))) }
{
    g.is_graph();
    if let Some(source) = g.wire_into(target) {
        if let Some(feeder) = g.node(source.node) {
            edges.push(edge_entry(alloc, &feeder.name, source.port, &node.name, target.port)?)?;
        }
    }
    Ok(())
}
