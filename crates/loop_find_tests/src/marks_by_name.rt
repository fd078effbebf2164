//! The marks of small graphs, by name.
ghost use Rattle.std.specs.Prelude.{IfOk};
ghost use Rattle.components.specs.Node.{NodeOk};

use components::{Kind, Node, is_name, kind_ok};
use graph_core::{Graph, NodeId};
use loop_find::marks;
use port_types::{Items, Text};
use std::alloc::Global;
use std::process::Abort;
use std::test::Fail;

/// Inits by name, each with its bit and the tags that it asks for.
const INITS: [(&str, u8, u16); 5] = [
    ("m", 0, 4),
    ("plain", 0, 0),
    ("Z", 1, 1),
    ("a", 1, 256),
    ("aa", 0, 2),
];

/// The names of those that ask for tags, in byte order.
const MARKS: [&str; 4] = ["Z", "a", "aa", "m"];

/// An Init without kept attributes.
fn init(alloc: Global, name: &str, value: u8, tags: u16) -> Result<Node, Fail>
    ensures { IfOk result NodeOk }
{
    let name = Text::from_string(String::from_str(alloc, name)?);
    let kind = Kind::Init(value, tags);
    if !is_name(&name) || !kind_ok(&kind) {
        return Err("no node".into());
    }
    let kept = Items::new(Vec::new(alloc));
    Ok(Node { name, kind, kept })
}

fn graph(alloc: Global) -> Result<Graph, Fail> {
    let mut g = Graph::new(alloc);
    for (name, value, tags) in INITS.iter() {
        g.add_node(init(alloc, name, *value, *tags)?)
            .ok()
            .ok_or("not added")?;
    }
    Ok(g)
}

fn is_named(g: &Graph, id: NodeId, name: &str) -> bool {
    match g.node(id) {
        Some(node) => node.name.bytes() == name.as_bytes(),
        None => false,
    }
}

fn are_named(g: &Graph, ids: &[NodeId], names: &[&str]) -> bool {
    ids.len() == names.len()
        && ids
            .iter()
            .zip(names.iter())
            .all(|(id, name)| is_named(g, *id, name))
}

#[test]
fn marks_come_in_byte_order(rt: HostRuntime) -> Result<(), Fail> {
    let alloc = rt.alloc();
    let g = graph(alloc)?;
    let found = marks(alloc, &g)?;
    assert!(rt; are_named(&g, &found, MARKS.as_slice()));
    Ok(())
}
