//! Statements, and what graphs of them are refused for.
use dot_text::{Doc, read_doc};
use graph_core::{Graph, PortAt};
use graph_read::{GraphFault, GraphRefusal, graph_of};
use std::alloc::Global;
use std::fmt::Write;
use std::process::Abort;
use std::test::Fail;

/// The pairs of a node `n` => what the graph of it alone is refused for, as in `REFUSALS`. A node that is read has an open port. Where
/// two refusals hold, the one that comes first is wanted.
const NODE_REFUSALS: [&str; 36] = [
    r#"type=Exit, in="in1:8", out="out1:8" => PortOpen 1 n Ins 1"#,
    r#"type=x, in="*", type=Buffer, in=" in1?:0", out="out1:0" => PortOpen 1 n Ins 1"#,
    r#"type=CntrlMerge, in="in1:8", out="out1:8 out2:0" => PortOpen 1 n Ins 1"#,
    r#"type=CtrlMerge, in="in1:8", out="out1:8 out2:1" => PortOpen 1 n Ins 1"#,
    r##"type=Pure, in="in1:8.4", out="out1:4", fun="-> #1" => PortOpen 1 n Ins 1"##,
    r#"type=Source, out="out1:8", tags=z => PortOpen 1 n Outs 1"#,
    r#"type=Init, in="in1:1", out="out1:1" => PortOpen 1 n Ins 1"#,
    r#"type=Init, in="in1:1", out="out1:1", value=01, ooo=256 => PortOpen 1 n Ins 1"#,
    r#"type=Tagger, in="in1:8 in2:1.8", out="out1:1.8 out2:8", tags=2 => PortOpen 1 n Ins 1"#,
    r#"type=Constant, in="in1:0", out="out1:8", value="0018446744073709551615" => PortOpen 1 n Ins 1"#,
    r#"type=Constant, in="in1:0", out="out1:8", value="0x00FFFFffffFFFFffff" => PortOpen 1 n Ins 1"#,
    r#"in="*" => NoKind 1 n"#,
    r#"type=Source0, in="*" => UnknownKind 1 n"#,
    r#"type=MC, in="*" => MemoryNode 1 n"#,
    r#"type=LSQ => MemoryNode 1 n"#,
    r#"type=Sink, in="x in1*:8" => MemoryPort 1 n"#,
    r#"type=Sink, in="in1:8", out="*" => MemoryPort 1 n"#,
    r#"type=Buffer, in="in1:65", out="out1:65" => BadPorts 1 n"#,
    r#"type=CtrlMerge, in="in1:8 in2:8", out="out1:8 out2:0" => BadPorts 1 n"#,
    r#"type=Operator, in="in1:8.8", out="out1:8", op=x => BadPorts 1 n"#,
    r#"type=Operator, in="in1:8 in2:9", out="out1:8", op=add_op => BadOp 1 n"#,
    r#"type=Constant, in="in1:0", out="out1:8" => BadValue 1 n"#,
    r#"type=Constant, in="in1:0", out="out1:8", value="18446744073709551616" => BadValue 1 n"#,
    r#"type=Constant, in="in1:0", out="out1:8", value="0x10000000000000000" => BadValue 1 n"#,
    r#"type=Constant, in="in1:0", out="out1:8", value="0X1" => BadValue 1 n"#,
    r#"type=Constant, in="in1:0", out="out1:8", value="1a" => BadValue 1 n"#,
    r##"type=Pure, in="in1:8", out="out1:8 out2:8", fun="-> #0" => BadPorts 1 n"##,
    r#"type=Pure, in="in1:8", out="out1:8" => BadFun 1 n"#,
    r##"type=Pure, in="in1:8", out="out1:8", fun="-> #0 " => BadFun 1 n"##,
    r##"type=Pure, in="in1:8", out="out1:8", fun="-> #1" => BadFun 1 n"##,
    r##"type=Pure, in="in1:8", out="out1:9", fun="-> #0" => BadFun 1 n"##,
    r#"type=Init, in="in1:1", out="out1:1", value=2, ooo=0 => BadValue 1 n"#,
    r#"type=Init, in="in1:1", out="out1:1", ooo=0 => BadTags 1 n"#,
    r#"type=Init, in="in1:1", out="out1:1", ooo=257 => BadTags 1 n"#,
    r#"type=Tagger, in="in1:8 in2:8", out="out1:8 out2:8", tags=x => BadPorts 1 n"#,
    r#"type=Tagger, in="in1:8 in2:2.8", out="out1:2.8 out2:8", tags=2 => BadTags 1 n"#,
];

/// An Entry, a Fork, an Exit, and an Exit of another shape.
const NODES: &str = r#"a [type=Entry, out="out1:8"] f [type=Fork, in="in1:8", out="out1:8 out2:8"]
    y [type=Exit, in="in1:8"] z [type=Exit, in="in1:4"]"#;

/// Statements behind `NODES` => what is refused: why, the place, the name, and the port if one is open. Where two
/// refusals hold, the one that comes first is wanted.
const REFUSALS: [&str; 14] = [
    r#""a b" [x=y] "a b" [x=y] => BadName 5 a b"#,
    "a [x=y] q [x=y] => NameTaken 5 a",
    "q [x=y] a [x=y] a -> p => NoKind 5 q",
    "a -> q => UnknownNode 1 q",
    "q -> f => UnknownNode 1 f",
    "a -> f [to=in1] => UnknownPort 1 f",
    "a -> f [from=out2, to=in1] => UnknownPort 1 f",
    "a -> f [from=out01, to=in1] => UnknownPort 1 f",
    "a -> f [from=x, from=out1, to=in1] a -> y [from=out1, to=in2] => UnknownPort 2 y",
    "a -> f [from=out1, to=in1] a -> z [from=out1, to=in1] => PortTaken 2 z",
    "f -> f [from=out1, to=in1] a -> f [from=out1, to=in1] => PortTaken 2 f",
    "a -> z [from=out1, to=in1] a -> q => ShapeDiffers 1 z",
    "a -> y [from=out1, to=in1] => PortOpen 2 f Ins 1",
    "a -> f [from=out1, to=in1] f -> y [from=out1, to=in1] => PortOpen 2 f Outs 2",
];

fn doc_of(alloc: Global, statements: &str) -> Result<Doc, Fail> {
    let text = format!(in alloc; "digraph {{ {statements} }}")?;
    let (doc, _) = read_doc(alloc, text.as_bytes(), 0)?;
    Ok(doc)
}

fn refusal_of(alloc: Global, statements: &str) -> Result<String, Fail> {
    let doc = doc_of(alloc, statements)?;
    match graph_of(alloc, &doc) {
        Err(GraphFault::Refused(refusal)) => written(alloc, &refusal),
        _ => Err("not refused".into()),
    }
}

fn written(alloc: Global, refusal: &GraphRefusal) -> Result<String, Fail> {
    let (kind, place, name) = (refusal.kind, refusal.place, refusal.name.as_str());
    match refusal.port_open {
        Some((side, port)) => Ok(format!(in alloc; "{kind:?} {place} {name} {side:?} {port}")?),
        None => Ok(format!(in alloc; "{kind:?} {place} {name}")?),
    }
}

fn check(rt: &(impl Abort + AllocGlobal), statements: &str, want: &str) -> Result<(), Fail> {
    let told = refusal_of(rt.alloc(), statements)?;
    assert_eq!(rt; told.as_str(), want, "{statements}");
    Ok(())
}

fn check_node(rt: &(impl Abort + AllocGlobal), row: &str) -> Result<(), Fail> {
    let (pairs, want) = row.split_once(" => ").ok_or("no row")?;
    let statement = format!(in rt.alloc(); "n [{pairs}]")?;
    check(rt, statement.as_str(), want)
}

fn check_statements(rt: &(impl Abort + AllocGlobal), row: &str) -> Result<(), Fail> {
    let (statements, want) = row.split_once(" => ").ok_or("no row")?;
    let statements = format!(in rt.alloc(); "{NODES} {statements}")?;
    check(rt, statements.as_str(), want)
}

#[test]
fn refusals_of_one_node(rt: HostRuntime) -> Result<(), Fail> {
    for row in NODE_REFUSALS {
        check_node(&rt, row)?;
    }
    Ok(())
}

#[test]
fn refusals(rt: HostRuntime) -> Result<(), Fail> {
    for row in REFUSALS {
        check_statements(&rt, row)?;
    }
    Ok(())
}

fn graph(alloc: Global, statements: &str) -> Result<Graph, Fail> {
    let doc = doc_of(alloc, statements)?;
    Ok(graph_of(alloc, &doc).ok().ok_or("refused")?)
}

/// A Source with so many pairs more, of one key or of different keys, before a Sink.
fn many_pairs(alloc: Global, one_key: bool) -> Result<Graph, Fail> {
    let mut pairs = String::new(alloc);
    for number in 0..2000 {
        let key = if one_key { 0 } else { number };
        write!(pairs, ", k{key}={number}")?;
    }
    let pairs = pairs.as_str();
    let statements = format!(in alloc;
        "n [type=Source, out=\"out1:8\"{pairs}] z [type=Sink, in=\"in1:8\"] n -> z [from=out1, to=in1]"
    )?;
    graph(alloc, statements.as_str())
}

/// How many attributes the node `n` keeps, and the value of the last.
fn kept_of(g: &Graph) -> Option<(usize, &str)> {
    let node = g.node(g.find(b"n")?)?;
    let kept = node.kept.as_slice();
    Some((kept.len(), kept.last()?.1.as_str()))
}

#[test]
fn attributes_are_kept(rt: HostRuntime) -> Result<(), Fail> {
    let one = many_pairs(rt.alloc(), true)?;
    assert!(rt; kept_of(&one) == Some((1, "1999")));
    let all = many_pairs(rt.alloc(), false)?;
    assert!(rt; kept_of(&all) == Some((2000, "999")));
    Ok(())
}

/// So many nodes, named by their numbers from 1 on, of which no port is on a wire.
fn check_nodes(rt: &(impl Abort + AllocGlobal), count: usize) -> Result<(), Fail> {
    let mut statements = String::new(rt.alloc());
    for number in 1..=count {
        write!(statements, " {number} [type=Source, out=\"out1:1\"]")?;
    }
    check(rt, statements.as_str(), "PortOpen 1 1 Outs 1")
}

#[test]
fn many_nodes(rt: HostRuntime) -> Result<(), Fail> {
    check_nodes(&rt, 4096)?;
    check_nodes(&rt, 16384)
}

#[test]
fn nodes_have_indices_in_order(rt: HostRuntime) -> Result<(), Fail> {
    let statements =
        r#"z [type=Entry, out="out1:4"] z -> b [from=out1, to=in1] b [type=Exit, in="in1:4"]"#;
    let g = graph(rt.alloc(), statements)?;
    let node = g.find(b"b").ok_or("no b")?;
    let source = g.wire_into(PortAt { node, port: 1 }).ok_or("no wire")?;
    assert_eq!(rt; (g.slots(), node.index()), (2, 1));
    assert_eq!(rt; (source.node.index(), source.port), (0, 1));
    Ok(())
}
