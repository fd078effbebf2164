//! Small graphs, by their nodes and wires.
ghost use Rattle.std.specs.Prelude.{IfOk};
ghost use Rattle.components.specs.NamedGraph.{IsTyped};
ghost use Rattle.components.specs.Node.{NodeOk};

use components::{Kind, Node, is_name, kind_ok};
use graph_core::{Graph, PortAt, check_typed};
use port_types::{Items, Shape, Text};
use std::alloc::Global;
use std::test::Fail;

/// Nodes with their components, and wires: each from an output, by its node and number, to the only input of a node.
#[derive(Clone, Copy)]
pub(crate) struct Row<'a> {
    pub(crate) nodes: &'a [(&'a str, &'a str)],
    pub(crate) wires: &'a [(&'a str, u8, &'a str)],
}

pub(crate) fn row_of<'a>(
    nodes: &'a [(&'a str, &'a str)],
    wires: &'a [(&'a str, u8, &'a str)],
) -> Row<'a> {
    Row { nodes, wires }
}

fn byte(alloc: Global) -> Result<Shape, Fail> {
    Ok(Shape::new(vec![in alloc; 8]?).ok_or("no shape")?)
}

fn kind(shape: Shape, word: &str) -> Kind {
    match word {
        "Entry" => Kind::Entry(shape),
        "Exit" => Kind::Exit(shape),
        "Fork" => Kind::Fork(shape, 1),
        "Fork2" => Kind::Fork(shape, 2),
        "Sink" => Kind::Sink0(shape),
        _ => Kind::Buffer(shape),
    }
}

/// A node without kept attributes.
fn node(alloc: Global, name: &str, word: &str) -> Result<Node, Fail>
    ensures { IfOk result NodeOk }
{
    let name = Text::from_string(String::from_str(alloc, name)?);
    let kind = kind(byte(alloc)?, word);
    if !is_name(&name) || !kind_ok(&kind) {
        return Err("no node".into());
    }
    let kept = Items::new(Vec::new(alloc));
    Ok(Node { name, kind, kept })
}

fn port(g: &Graph, name: &str, port: u8) -> Result<PortAt, Fail> {
    let node = g.find(name.as_bytes()).ok_or("no such node")?;
    Ok(PortAt { node, port })
}

fn join(g: &mut Graph, source: PortAt, target: PortAt) -> Result<(), Fail> {
    g.add_wire(source, target).ok().ok_or("not joined")?;
    Ok(())
}

pub(crate) fn graph(alloc: Global, row: Row<'_>) -> Result<Graph, Fail> {
    let mut g = Graph::new(alloc);
    for (name, word) in row.nodes {
        g.add_node(node(alloc, name, word)?)
            .ok()
            .ok_or("not added")?;
    }
    for (source, number, target) in row.wires {
        let (source, target) = (port(&g, source, *number)?, port(&g, target, 1)?);
        join(&mut g, source, target)?;
    }
    Ok(g)
}

/// The graph of the row, which has no open port.
pub(crate) fn typed(alloc: Global, row: Row<'_>) -> Result<Graph, Fail>
    ensures { IfOk result (λ g. IsTyped g.graph) }
{
    let g = graph(alloc, row)?;
    if check_typed(&g).is_err() {
        return Err("an open port".into());
    }
    Ok(g)
}

/// Whether the one output of the first node feeds the one input of the second.
pub(crate) fn feeds(g: &Graph, source: &str, target: &str) -> bool {
    match (g.find(source.as_bytes()), g.find(target.as_bytes())) {
        (Some(source), Some(target)) => {
            g.wire_into(PortAt {
                node: target,
                port: 1,
            }) == Some(PortAt {
                node: source,
                port: 1,
            })
        }
        _ => false,
    }
}
