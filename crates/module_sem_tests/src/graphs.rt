//! Small graphs by names.
ghost use Rattle.std.specs.Prelude.{IfOk};
ghost use Rattle.components.specs.Node.{KeptOk};

use components::{Kind, Node, is_name, kept_by_key, kind_ok};
use graph_core::{Graph, NodeId, PortAt};
use port_types::{Items, Shape, Text};
use std::alloc::Global;
use std::test::Fail;

/// What a node is, with the width of its ports.
#[derive(Clone, Copy)]
pub(crate) enum Part {
    Entry(u8),
    Exit(u8),
    Buffer(u8),
}

/// A graph: its nodes, and its wires, each from the only output of a node to the only input of one.
#[derive(Clone, Copy)]
pub(crate) struct Net<'a> {
    pub nodes: &'a [(&'a str, Part)],
    pub wires: &'a [(&'a str, &'a str)],
}

fn shape(alloc: Global, width: u8) -> Result<Shape, Fail> {
    Ok(Shape::new(vec![in alloc; width]?).ok_or("no shape")?)
}

fn kind(alloc: Global, part: Part) -> Result<Kind, Fail> {
    Ok(match part {
        Part::Entry(width) => Kind::Entry(shape(alloc, width)?),
        Part::Exit(width) => Kind::Exit(shape(alloc, width)?),
        Part::Buffer(width) => Kind::Buffer(shape(alloc, width)?),
    })
}

/// Each node keeps its own name as an attribute.
fn kept(alloc: Global, name: &str, kind: &Kind) -> Result<Items<(Text, Text)>, Fail>
    ensures { IfOk result (KeptOk kind.now) }
{
    let key = Text::from_string(String::from_str(alloc, "at")?);
    let value = Text::from_string(String::from_str(alloc, name)?);
    let mut pairs = Vec::new(alloc);
    pairs.push((key, value))?;
    let mut kept = Vec::new(alloc);
    for pair in &kept_by_key(alloc, kind, &pairs)? {
        kept.push((*pair).clone()?)?;
    }
    Ok(Items::new(kept))
}

fn add(g: &mut Graph, alloc: Global, name: &str, part: Part) -> Result<(), Fail> {
    let kind = kind(alloc, part)?;
    let kept = kept(alloc, name, &kind)?;
    let name = Text::from_string(String::from_str(alloc, name)?);
    if !is_name(&name) || !kind_ok(&kind) {
        return Err("no node".into());
    }
    g.add_node(Node { name, kind, kept })
        .ok()
        .ok_or("not added")?;
    Ok(())
}

pub(crate) fn named(g: &Graph, name: &str) -> Result<NodeId, Fail> {
    Ok(g.find(name.as_bytes()).ok_or("no node")?)
}

fn join(g: &mut Graph, source: &str, target: &str) -> Result<(), Fail> {
    let source = PortAt {
        node: named(g, source)?,
        port: 1,
    };
    let target = PortAt {
        node: named(g, target)?,
        port: 1,
    };
    g.add_wire(source, target).ok().ok_or("not joined")?;
    Ok(())
}

pub(crate) fn graph(alloc: Global, net: Net<'_>) -> Result<Graph, Fail> {
    let mut g = Graph::new(alloc);
    for (name, part) in net.nodes {
        add(&mut g, alloc, name, *part)?;
    }
    for (source, target) in net.wires {
        join(&mut g, source, target)?;
    }
    Ok(g)
}
