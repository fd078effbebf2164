//! Small graphs and their stripped graphs.
ghost use Rattle.std.specs.Prelude.{IfOk};
ghost use Rattle.components.specs.Node.{KeptOk};

use components::{Kind, Node, is_name, kept_by_key, kind_ok};
use graph_core::{Graph, NodeId, PortAt, check_typed, same_graph};
use port_types::{Items, Shape, Text};
use rewrite::strip;
use std::alloc::Global;
use std::process::Abort;
use std::test::Fail;

/// An Entry, an Exit, a Fork of two outputs or a Buffer, by the first letter of the name.
fn kind(alloc: Global, name: &str) -> Result<Kind, Fail> {
    let shape = Shape::new(vec![in alloc; 8]?).ok_or("no shape")?;
    Ok(match name.as_bytes().first() {
        Some(b'e') => Kind::Entry(shape),
        Some(b'x') => Kind::Exit(shape),
        Some(b'f') => Kind::Fork(shape, 2),
        _ => Kind::Buffer(shape),
    })
}

/// Each node keeps its own name as an attribute.
fn kept(alloc: Global, name: &str, kind: &Kind) -> Result<Items<(Text, Text)>, Fail>
    ensures { IfOk result (KeptOk kind.now) }
{
    let key = Text::from_string(String::from_str(alloc, "at")?);
    let value = Text::from_string(String::from_str(alloc, name)?);
    let mut pairs = Vec::new(alloc);
    pairs.push((key, value))?;
    let mut kept = Vec::new(alloc);
    for pair in &kept_by_key(alloc, kind, &pairs)? {
        kept.push((*pair).clone()?)?;
    }
    Ok(Items::new(kept))
}

fn add(g: &mut Graph, alloc: Global, name: &str) -> Result<(), Fail> {
    let kind = kind(alloc, name)?;
    let kept = kept(alloc, name, &kind)?;
    let name = Text::from_string(String::from_str(alloc, name)?);
    if !is_name(&name) || !kind_ok(&kind) {
        return Err("no node".into());
    }
    g.add_node(Node { name, kind, kept })
        .ok()
        .ok_or("not added")?;
    Ok(())
}

fn named(g: &Graph, name: &str) -> Result<NodeId, Fail> {
    Ok(g.find(name.as_bytes()).ok_or("no node")?)
}

/// Nodes by name, and wires: each from an output, by its node and number, to the only input of a node.
#[derive(Clone, Copy)]
struct Row<'a> {
    names: &'a [&'a str],
    wires: &'a [(&'a str, u8, &'a str)],
}

fn graph(alloc: Global, row: Row<'_>) -> Result<Graph, Fail> {
    let mut g = Graph::new(alloc);
    for name in row.names {
        add(&mut g, alloc, name)?;
    }
    for (source, port, target) in row.wires {
        let (source, target) = (
            PortAt {
                node: named(&g, source)?,
                port: *port,
            },
            PortAt {
                node: named(&g, target)?,
                port: 1,
            },
        );
        g.add_wire(source, target).ok().ok_or("not joined")?;
    }
    Ok(g)
}

/// Checks that the stripped graph of the first row is the second.
fn check_strip(rt: &(impl Abort + AllocGlobal), row: Row<'_>, left: Row<'_>) -> Result<(), Fail> {
    let g = graph(rt.alloc(), row)?;
    if check_typed(&g).is_err() {
        return Err("an open port".into());
    }
    let stripped = strip(rt.alloc(), g)?;
    let left = graph(rt.alloc(), left)?;
    assert!(rt; same_graph(&stripped, &left));
    Ok(())
}

#[test]
fn a_chain_goes(rt: HostRuntime) -> Result<(), Fail> {
    let row = Row {
        names: &["x2", "b1", "f", "b3", "e", "b2", "x1"],
        wires: &[
            ("e", 1, "b2"),
            ("b2", 1, "f"),
            ("f", 1, "x1"),
            ("f", 2, "b3"),
            ("b3", 1, "b1"),
            ("b1", 1, "x2"),
        ],
    };
    let left = Row {
        names: &["e", "f", "x1", "x2"],
        wires: &[("e", 1, "f"), ("f", 1, "x1"), ("f", 2, "x2")],
    };
    check_strip(&rt, row, left)
}

#[test]
fn the_greatest_of_a_ring_stays(rt: HostRuntime) -> Result<(), Fail> {
    let row = Row {
        names: &["v", "b", "u", "e", "x", "w"],
        wires: &[
            ("e", 1, "b"),
            ("b", 1, "x"),
            ("u", 1, "v"),
            ("v", 1, "u"),
            ("w", 1, "w"),
        ],
    };
    let left = Row {
        names: &["e", "v", "w", "x"],
        wires: &[("e", 1, "x"), ("v", 1, "v"), ("w", 1, "w")],
    };
    check_strip(&rt, row, left)
}
