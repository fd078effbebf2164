//! Inputs that are refused: the number and the line of each.
use super::{check_refused, parts_of};
use std::process::Abort;
use std::test::Fail;

/// Checks rows `STATEMENTS => NUMBER LINE`: the input is the statements between the front and the back.
fn check_refusals(
    rt: &(impl Abort + AllocGlobal),
    front: &str,
    back: &str,
    rows: &str,
) -> Result<(), Fail> {
    for row in rows.lines() {
        let (statements, refusal) = parts_of(row)?;
        let (number, text) = refusal.split_once(' ').ok_or("a refusal without a line")?;
        let input = format!(in rt.alloc(); "{front}{statements}{back}")?;
        let line = format!(in rt.alloc(); "graphiti: {text}\n")?;
        check_refused(rt, input.as_bytes(), number.parse()?, line.as_str())?;
    }
    Ok(())
}

/// The same of documents of these statements.
fn check_documents(rt: &(impl Abort + AllocGlobal), rows: &str) -> Result<(), Fail> {
    check_refusals(rt, "digraph G { ", " }", rows)
}

#[test]
fn names_that_are_refused(rt: HostRuntime) -> Result<(), Fail> {
    check_documents(
        &rt,
        r#""a b" [type=Sink, in="in1:8"] => 3 BadName "a b"
"" [type=Sink, in="in1:8"] => 3 BadName ""
"a\"b" [type=Sink, in="in1:8"] => 3 BadName "a"b"
"a\b" [type=Sink, in="in1:8"] => 3 BadName "a\b"
"a b" [type=Sink] "a b" [type=Sink] => 3 BadName "a b"
a [type=Source, out="out1:8"] a [type=Sink, in="in1:8"] => 3 NameTaken "a"
"ü" [type=Sink, in="in1:8"] "ü" [x=y] => 3 NameTaken "ü""#,
    )
}

#[test]
fn kinds_and_ports_that_are_refused(rt: HostRuntime) -> Result<(), Fail> {
    check_documents(
        &rt,
        r#"a [in="in1:8"] => 3 NoKind "a"
a [type=sink, in="in1:8"] => 3 UnknownKind "a"
a [type=pure] => 3 UnknownKind "a"
a [type=Frob, in="in1*:8"] => 3 UnknownKind "a"
a [type=LSQ] => 3 MemoryNode "a"
a [type=MC, in="in1*:8"] => 3 MemoryNode "a"
a [type=Operator, op=add_op, in="in1:32 in3*l0d:32", out="out1:32"] => 3 MemoryPort "a"
a [type=Sink, in="frob in2*:8"] => 3 MemoryPort "a"
a [type=Sink, in="frob", out="out1*:8"] => 3 MemoryPort "a"
a [type=Sink, in="in1:65"] => 3 BadPorts "a"
a [type=Sink, in="in1:8", out="out1:8"] => 3 BadPorts "a"
a [type=Operator, in="in1:8", op=frob] => 3 BadPorts "a""#,
    )
}

#[test]
fn attributes_that_are_refused(rt: HostRuntime) -> Result<(), Fail> {
    check_documents(
        &rt,
        r#"a [type=Operator, in="in1:8 in2:8", out="out1:8"] => 3 BadOp "a"
a [type=Operator, in="in1:8 in2:8", out="out1:9", op=add_op] => 3 BadOp "a"
a [type=Constant, in="in1:0", out="out1:8", value="-1"] => 3 BadValue "a"
a [type=Constant, in="in1:0", out="out1:64", value=18446744073709551616] => 3 BadValue "a"
a [type=Init, in="in1:1", out="out1:1", value=2, ooo=0] => 3 BadValue "a"
a [type=Init, in="in1:1", out="out1:1", ooo=0] => 3 BadTags "a"
a [type=Init, in="in1:1", out="out1:1", ooo=257] => 3 BadTags "a"
a [type=Init, in="in1:1", out="out1:1", ooo=04] => 3 BadTags "a"
a [type=Init, in="in1:1", out="out1:1", ooo=""] => 3 BadTags "a"
a [type=Tagger, in="in1:8 in2:2.8", out="out1:2.8 out2:8"] => 3 BadTags "a"
a [type=Tagger, tags=5, in="in1:8 in2:2.8", out="out1:2.8 out2:8"] => 3 BadTags "a"
a [type=Pure, in="in1:8", out="out1:8"] => 3 BadFun "a"
a [type=Pure, in="in1:8", out="out1:8", fun="-> 0"] => 3 BadFun "a"
a [type=Pure, in="in1:8.8", out="out1:8", fun="-> #0 #1"] => 3 BadFun "a""#,
    )
}

#[test]
fn edges_that_are_refused(rt: HostRuntime) -> Result<(), Fail> {
    check_refusals(
        &rt,
        r#"digraph G { z [type=Source, out="out1:8"] a [type=Source, out="out1:8"]
b [type=Sink, in="in1:8"] c [type=Sink, in="in1:16"] a -> b [from=out1, to=in1] "#,
        " }",
        "z -> q => 3 edge 2: UnknownNode
q -> b [from=out9, to=in9] => 3 edge 2: UnknownNode
z -> c [from=out1] => 3 edge 2: UnknownPort
z -> c [from=out2, to=in1] => 3 edge 2: UnknownPort
a -> b [from=out1, to=in9] => 3 edge 2: UnknownPort
a -> c [from=out1, to=in1] => 3 edge 2: PortTaken
z -> b [from=out1, to=in1] => 3 edge 2: PortTaken
z -> c [from=out1, to=in1] z -> q => 3 edge 2: ShapeDiffers",
    )
}

#[test]
fn the_first_refusal_is_told(rt: HostRuntime) -> Result<(), Fail> {
    // in the order of the file: nodes, wherever the edges stand, then edges, then open ports, inputs before outputs
    check_documents(
        &rt,
        r#"a [x=y] "" [x=y] => 3 NoKind "a"
"" [x=y] a [x=y] => 3 BadName ""
a [type=Sink, in="in1:8"] a [x=y] "" [x=y] => 3 NameTaken "a"
a -> q [from=out1, to=in1] a [x=y] => 3 NoKind "a"
z [type=Sink, in="in1:8"] a [x=y] => 3 NoKind "a"
z [type=Sink, in="in1:8"] z -> q => 3 edge 1: UnknownNode
z [type=Sink, in="in1:8"] a [type=Source, out="out1:8"] => 3 PortOpen "z" in1
b [type=Buffer, in="in1:8", out="out1:8"] => 3 PortOpen "b" in1
j [type=Join, in="in1:8 in2:8", out="out1:8.8"] a [type=Source, out="out1:8"] a -> j [from=out1, to=in1] => 3 PortOpen "j" in2
f [type=Fork, in="in1:8", out="out1:8 out2:8"] f -> f [from=out1, to=in1] => 3 PortOpen "f" out2
p [type=Pure, type=Sink, in="in1:8"] => 3 PortOpen "p" in1"#,
    )
}

#[test]
fn inputs_that_are_refused(rt: HostRuntime) -> Result<(), Fail> {
    // no document, with the byte where this shows; a document that is no graph, whatever stands behind it;
    // and something behind a graph
    check_refusals(
        &rt,
        "",
        "",
        r#" => 2 syntax at byte 0
digraph G { "a" [type = "Sou => 2 syntax at byte 24
digraph G { => 2 syntax at byte 11
graph G {} => 2 syntax at byte 0
digraph G { a -> b -> c } => 2 syntax at byte 19
digraph G { p [type=Pure] => 2 syntax at byte 25
digraph G { p [type=Pure] a -> b -> c } => 2 syntax at byte 33
digraph G { a [x=y] } x => 3 NoKind "a"
digraph G { a [x=y] } /* => 3 NoKind "a"
digraph G { a [type=Source, out="out1:8"] } digraph G {} => 3 PortOpen "a" out1
digraph G { p [type=Sink, type="Pure", in="in1:8"] } => 3 BadPorts "p"
digraph G { subgraph s { { p [type=Pure, in="in1*:8"] } } } /* => 3 MemoryPort "p"
digraph G {} digraph H {} => 2 syntax at byte 13
digraph G {}x => 2 syntax at byte 12
digraph G {}; => 2 syntax at byte 12
digraph G {}" => 2 syntax at byte 12
digraph G {} #a => 2 syntax at byte 13
digraph G {} /*/ => 2 syntax at byte 13
digraph G {} /**/ /* /* => 2 syntax at byte 18"#,
    )
}

#[test]
fn inputs_of_other_bytes_that_are_refused(rt: HostRuntime) -> Result<(), Fail> {
    let rows: [(&[u8], usize); 5] = [
        (b"\n\ndigraph G {\n]", 14),
        // a name that is not UTF-8
        (b"digraph G {\n  \"s\xff\" [type = \"Entry\"];\n}\n", 14),
        (b"digraph G {}\n/", 13),
        (b"digraph G {} /*\xff*/ // \xff\n\xff", 24),
        (b"\xff", 0),
    ];
    for (input, at) in rows {
        let line = format!(in rt.alloc(); "graphiti: syntax at byte {at}\n")?;
        check_refused(&rt, input, 2, line.as_str())?;
    }
    let input = b"digraph G { \"a\t\" [x=y] }".as_slice();
    check_refused(&rt, input, 3, "graphiti: BadName \"a\t\"\n")?;
    let input = b"digraph G { p [type=Pure] } \xff".as_slice();
    check_refused(&rt, input, 3, "graphiti: BadPorts \"p\"\n")
}
