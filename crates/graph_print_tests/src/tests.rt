//! The texts of graphs.
ghost use Rattle.std.specs.Prelude.{IfOk};
ghost use Rattle.components.specs.Node.{KeptOk, NodeOk};

use components::{Kind, Node, is_name, kept_by_key, kind_ok};
use fun_expr::Fun;
use graph_core::{Graph, PortAt};
use graph_print::text_of;
use op_table::Op;
use port_types::{Items, Shape, Text};
use std::alloc::Global;
use std::test::Fail;

/// The pairs of a node of each kind.
const KINDS: [&str; 17] = [
    r#"type = "Entry", out = "out1:8""#,
    r#"type = "Exit", in = "in1:8""#,
    r#"type = "Buffer", in = "in1:8", out = "out1:8""#,
    r#"type = "Fork", in = "in1:8", out = "out1:8 out2:8""#,
    r#"type = "Join", in = "in1:8", out = "out1:8""#,
    r#"type = "Split", in = "in1:8", out = "out1:8""#,
    r#"type = "Operator", in = "in1?:1 in2+:8 in3-:8", out = "out1:8", op = "select_op""#,
    r#"type = "Constant", in = "in1:8", out = "out1:0", value = "0xffffffffffffffff""#,
    r#"type = "Source", out = "out1:8""#,
    r#"type = "Sink", in = "in1:8""#,
    r#"type = "Pure", in = "in1:8", out = "out1:8.8", fun = "-> #0 #0""#,
    r#"type = "Mux", in = "in1?:1 in2:8 in3:8", out = "out1:8""#,
    r#"type = "Branch", in = "in1:8 in2?:1", out = "out1+:8 out2-:8""#,
    r#"type = "Merge", in = "in1:8 in2:8", out = "out1:8""#,
    r#"type = "CntrlMerge", in = "in1:8 in2:8", out = "out1:8 out2?:1""#,
    r#"type = "Init", in = "in1:1", out = "out1:1", value = "0x1", ooo = "1""#,
    r#"type = "Tagger", in = "in1:8 in2:8.8", out = "out1:8.8 out2:8", tags = "256""#,
];

/// A Pure that gives its one field twice.
fn pure(alloc: Global, shape: Shape) -> Result<Kind, Fail> {
    let out = Shape::new(vec![in alloc; 8, 8]?).ok_or("no shape")?;
    let (binds, outs) = (Vec::new(alloc), vec![in alloc; 0, 0]?);
    let fun = Fun::new(shape, Items::new(binds), Items::new(outs)).ok_or("no function")?;
    Ok(Kind::Pure(fun, out))
}

fn kind(alloc: Global, number: usize) -> Result<Kind, Fail> {
    let shape = Shape::new(vec![in alloc; 8]?).ok_or("no shape")?;
    Ok(match number {
        0 => Kind::Entry(shape),
        1 => Kind::Exit(shape),
        2 => Kind::Buffer(shape),
        3 => Kind::Fork(shape, 2),
        4 => Kind::Join(Items::new(vec![in alloc; shape]?)),
        5 => Kind::Split(Items::new(vec![in alloc; shape]?)),
        6 => Kind::Operator(Op::Select, Items::new(vec![in alloc; 1, 8, 8]?), 8),
        7 => Kind::Constant(shape, 0, u64::MAX),
        8 => Kind::Source0(shape),
        9 => Kind::Sink0(shape),
        10 => pure(alloc, shape)?,
        11 => Kind::Mux(shape),
        12 => Kind::Branch(shape),
        13 => Kind::Merge(shape, 2),
        14 => Kind::CtrlMerge(shape, 2, 1),
        15 => Kind::Init(1, 1),
        _ => Kind::Tagger(shape, 256),
    })
}

fn text(alloc: Global, value: &str) -> Result<Text, Fail> {
    Ok(Text::from_string(String::from_str(alloc, value)?))
}

/// What a node of this kind keeps of these pairs.
fn kept(alloc: Global, kind: &Kind, pairs: &[(&str, &str)]) -> Result<Items<(Text, Text)>, Fail>
    ensures { IfOk result (KeptOk kind.now) }
{
    let mut texts = Vec::new(alloc);
    for (key, value) in pairs {
        texts.push((text(alloc, key)?, text(alloc, value)?))?;
    }
    let mut kept = Vec::new(alloc);
    for pair in &kept_by_key(alloc, kind, &texts)? {
        kept.push((*pair).clone()?)?;
    }
    Ok(Items::new(kept))
}

fn node(alloc: Global, name: &str, number: usize, pairs: &[(&str, &str)]) -> Result<Node, Fail>
    ensures { IfOk result NodeOk }
{
    let name = text(alloc, name)?;
    let kind = kind(alloc, number)?;
    let kept = kept(alloc, &kind, pairs)?;
    if is_name(&name) && kind_ok(&kind) {
        Ok(Node { name, kind, kept })
    } else {
        Err("no node".into())
    }
}

fn add(
    g: &mut Graph,
    alloc: Global,
    name: &str,
    number: usize,
    pairs: &[(&str, &str)],
) -> Result<(), Fail> {
    let node = node(alloc, name, number, pairs)?;
    g.add_node(node).ok().ok_or("not added")?;
    Ok(())
}

fn join(g: &mut Graph, source: &str, port: u8, target: &str) -> Result<(), Fail> {
    let source = g.find(source.as_bytes()).ok_or("no source")?;
    let target = g.find(target.as_bytes()).ok_or("no target")?;
    let (source, target) = (
        PortAt { node: source, port },
        PortAt {
            node: target,
            port: 1,
        },
    );
    Ok(g.add_wire(source, target).ok().ok_or("not joined")?)
}

fn printed(alloc: Global, g: &Graph) -> Result<String, Fail> {
    Ok(String::from_utf8(text_of(alloc, g)?).ok().ok_or("no text")?)
}

/// The graph of one node of a kind, printed.
fn alone(alloc: Global, number: usize) -> Result<String, Fail> {
    let mut g = Graph::new(alloc);
    add(&mut g, alloc, "n", number, &[])?;
    printed(alloc, &g)
}

#[test]
fn kinds(rt: HostRuntime) -> Result<(), Fail> {
    for (number, pairs) in KINDS.iter().enumerate() {
        let want = format!(in rt.alloc(); "digraph G {{\n  \"n\" [{pairs}];\n}}\n")?;
        assert_eq!(rt; alone(rt.alloc(), number)?.as_str(), want.as_str());
    }
    Ok(())
}

/// What a node keeps, in another order than it is printed in.
const KEPT: [(&str, &str); 5] = [
    ("z", ""),
    ("x2", "a\\b"),
    ("Node", "n"),
    ("a\"b", "\"c\""),
    ("", "1"),
];

/// Names, numbers of kinds, and what is kept, in another order than it is printed in.
const NODES: [(&str, usize, &[(&str, &str)]); 5] = [
    ("ü", 9, &[]),
    ("a2", 2, &[]),
    ("Z", 9, &KEPT),
    ("a10", 3, &[]),
    ("a", 3, &[]),
];

/// Wires, each from an output to the first input of a node.
const WIRES: [(&str, u8, &str); 3] = [("a10", 2, "ü"), ("a", 1, "a10"), ("a2", 1, "Z")];

/// Nodes of which not all ports are on a wire.
const GRAPH: &str = r#"digraph G {
  "Z" [type = "Sink", in = "in1:8", "" = "1", "Node" = "n", "a\"b" = "\"c\"", x2 = "a\b", z = ""];
  "a" [type = "Fork", in = "in1:8", out = "out1:8 out2:8"];
  "a10" [type = "Fork", in = "in1:8", out = "out1:8 out2:8"];
  "a2" [type = "Buffer", in = "in1:8", out = "out1:8"];
  "ü" [type = "Sink", in = "in1:8"];
  "a2" -> "Z" [from = "out1", to = "in1"];
  "a" -> "a10" [from = "out1", to = "in1"];
  "a10" -> "ü" [from = "out2", to = "in1"];
}
"#;

fn built(alloc: Global) -> Result<Graph, Fail> {
    let mut g = Graph::new(alloc);
    for (name, number, pairs) in &NODES {
        add(&mut g, alloc, name, *number, pairs)?;
    }
    for (source, port, target) in &WIRES {
        join(&mut g, source, *port, target)?;
    }
    Ok(g)
}

#[test]
fn a_graph(rt: HostRuntime) -> Result<(), Fail> {
    let g = built(rt.alloc())?;
    assert_eq!(rt; printed(rt.alloc(), &g)?.as_str(), GRAPH);
    Ok(())
}
