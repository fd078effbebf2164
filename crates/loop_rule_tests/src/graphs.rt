//! The graphs of the tests.
ghost use Rattle.std.specs.Prelude.{IfOk};
ghost use Rattle.components.specs.NamedGraph.{IsTyped};

use dot_text::read_doc;
use graph_core::{Graph, check_typed};
use graph_read::graph_of;
use std::alloc::Global;
use std::test::Fail;

/// The greatest common divisor as an in-order loop.
pub(crate) const GATHERED: &str = r#"digraph G {
  "g" [type = "Exit", in = "in1:32"];
  "i" [type = "Init", in = "in1:1", out = "out1:1", value = "0x0", ooo = "4"];
  "k" [type = "Sink", in = "in1:32"];
  "b" [type = "Branch", in = "in1:32.32 in2?:1", out = "out1+:32.32 out2-:32.32"];
  "c" [type = "Fork", in = "in1:1", out = "out1:1 out2:1"];
  "in" [type = "Join", in = "in1:32 in2:32", out = "out1:32.32"];
  "m" [type = "Mux", in = "in1?:1 in2:32.32 in3:32.32", out = "out1:32.32"];
  "out" [type = "Split", in = "in1:32.32", out = "out1:32 out2:32"];
  "p" [type = "Split", in = "in1:32.32.1", out = "out1:32.32 out2:1"];
  "f" [type = "Pure", in = "in1:32.32", out = "out1:32.32.1", fun = "urem:32(#0,#1);ne:1(#2,32'0) -> #1 #2 #3"];
  "x" [type = "Entry", out = "out1:32"];
  "y" [type = "Entry", out = "out1:32"];
  "out" -> "g" [from = "out1", to = "in1"];
  "c" -> "i" [from = "out2", to = "in1"];
  "out" -> "k" [from = "out2", to = "in1"];
  "p" -> "b" [from = "out1", to = "in1"];
  "c" -> "b" [from = "out1", to = "in2"];
  "p" -> "c" [from = "out2", to = "in1"];
  "x" -> "in" [from = "out1", to = "in1"];
  "y" -> "in" [from = "out1", to = "in2"];
  "i" -> "m" [from = "out1", to = "in1"];
  "in" -> "m" [from = "out1", to = "in2"];
  "b" -> "m" [from = "out1", to = "in3"];
  "b" -> "out" [from = "out2", to = "in1"];
  "f" -> "p" [from = "out1", to = "in1"];
  "m" -> "f" [from = "out1", to = "in1"];
}"#;

/// The same with a loop of four tags in its place.
pub(crate) const TAGGED: &str = r#"digraph G {
  "g" [type = "Exit", in = "in1:32"];
  "k" [type = "Sink", in = "in1:32"];
  "in" [type = "Join", in = "in1:32 in2:32", out = "out1:32.32"];
  "out" [type = "Split", in = "in1:32.32", out = "out1:32 out2:32"];
  "ooo_0_branch" [type = "Branch", in = "in1:2.32.32 in2?:1", out = "out1+:2.32.32 out2-:2.32.32"];
  "ooo_0_merge" [type = "Merge", in = "in1:2.32.32 in2:2.32.32", out = "out1:2.32.32"];
  "ooo_0_pair" [type = "Split", in = "in1:32.32.1", out = "out1:32.32 out2:1"];
  "ooo_0_pure" [type = "Pure", in = "in1:32.32", out = "out1:32.32.1", fun = "urem:32(#0,#1);ne:1(#2,32'0) -> #1 #2 #3"];
  "ooo_0_retag" [type = "Join", in = "in1:2 in2:32.32", out = "out1:2.32.32"];
  "ooo_0_tag" [type = "Split", in = "in1:2.32.32", out = "out1:2 out2:32.32"];
  "ooo_0_tagger" [type = "Tagger", in = "in1:32.32 in2:2.32.32", out = "out1:2.32.32 out2:32.32", tags = "4"];
  "x" [type = "Entry", out = "out1:32"];
  "y" [type = "Entry", out = "out1:32"];
  "out" -> "g" [from = "out1", to = "in1"];
  "out" -> "k" [from = "out2", to = "in1"];
  "x" -> "in" [from = "out1", to = "in1"];
  "y" -> "in" [from = "out1", to = "in2"];
  "in" -> "ooo_0_tagger" [from = "out1", to = "in1"];
  "ooo_0_tagger" -> "ooo_0_merge" [from = "out1", to = "in1"];
  "ooo_0_merge" -> "ooo_0_tag" [from = "out1", to = "in1"];
  "ooo_0_tag" -> "ooo_0_retag" [from = "out1", to = "in1"];
  "ooo_0_tag" -> "ooo_0_pure" [from = "out2", to = "in1"];
  "ooo_0_pure" -> "ooo_0_pair" [from = "out1", to = "in1"];
  "ooo_0_pair" -> "ooo_0_retag" [from = "out1", to = "in2"];
  "ooo_0_pair" -> "ooo_0_branch" [from = "out2", to = "in2"];
  "ooo_0_retag" -> "ooo_0_branch" [from = "out1", to = "in1"];
  "ooo_0_branch" -> "ooo_0_merge" [from = "out1", to = "in2"];
  "ooo_0_branch" -> "ooo_0_tagger" [from = "out2", to = "in2"];
  "ooo_0_tagger" -> "out" [from = "out2", to = "in1"];
}"#;

/// A loop that goes back on condition 0. A node has the name of a new node of prefix 1.
pub(crate) const OTHER_WAY: &str = r#"digraph G {
  "ooo_1_retag" [type = "Entry", out = "out1:8"];
  "i" [type = "Init", in = "in1:1", out = "out1:1", value = "0x1", ooo = "2"];
  "m" [type = "Mux", in = "in1?:1 in2:8 in3:8", out = "out1:8"];
  "f" [type = "Pure", in = "in1:8", out = "out1:8.1", fun = "sub:8(#0,8'1);eq:1(#1,8'0) -> #1 #2"];
  "p" [type = "Split", in = "in1:8.1", out = "out1:8 out2:1"];
  "c" [type = "Fork", in = "in1:1", out = "out1:1 out2:1"];
  "b" [type = "Branch", in = "in1:8 in2?:1", out = "out1+:8 out2-:8"];
  "z" [type = "Exit", in = "in1:8"];
  "i" -> "m" [from = "out1", to = "in1"];
  "b" -> "m" [from = "out2", to = "in2"];
  "ooo_1_retag" -> "m" [from = "out1", to = "in3"];
  "m" -> "f" [from = "out1", to = "in1"];
  "f" -> "p" [from = "out1", to = "in1"];
  "p" -> "b" [from = "out1", to = "in1"];
  "p" -> "c" [from = "out2", to = "in1"];
  "c" -> "b" [from = "out1", to = "in2"];
  "c" -> "i" [from = "out2", to = "in1"];
  "b" -> "z" [from = "out1", to = "in1"];
}"#;

/// The same with a Buffer on the wire into the Init: no in-order loop, though it has the six nodes.
pub(crate) const WITH_BUFFER: &str = r#"digraph G {
  "e" [type = "Entry", out = "out1:8"];
  "i" [type = "Init", in = "in1:1", out = "out1:1", value = "0x1", ooo = "2"];
  "m" [type = "Mux", in = "in1?:1 in2:8 in3:8", out = "out1:8"];
  "f" [type = "Pure", in = "in1:8", out = "out1:8.1", fun = "sub:8(#0,8'1);eq:1(#1,8'0) -> #1 #2"];
  "p" [type = "Split", in = "in1:8.1", out = "out1:8 out2:1"];
  "c" [type = "Fork", in = "in1:1", out = "out1:1 out2:1"];
  "b" [type = "Branch", in = "in1:8 in2?:1", out = "out1+:8 out2-:8"];
  "w" [type = "Buffer", in = "in1:1", out = "out1:1"];
  "z" [type = "Exit", in = "in1:8"];
  "i" -> "m" [from = "out1", to = "in1"];
  "b" -> "m" [from = "out2", to = "in2"];
  "e" -> "m" [from = "out1", to = "in3"];
  "m" -> "f" [from = "out1", to = "in1"];
  "f" -> "p" [from = "out1", to = "in1"];
  "p" -> "b" [from = "out1", to = "in1"];
  "p" -> "c" [from = "out2", to = "in1"];
  "c" -> "b" [from = "out1", to = "in2"];
  "c" -> "w" [from = "out2", to = "in1"];
  "w" -> "i" [from = "out1", to = "in1"];
  "b" -> "z" [from = "out1", to = "in1"];
}"#;

/// The typed graph of a text.
pub(crate) fn graph(alloc: Global, text: &str) -> Result<Graph, Fail>
    ensures { IfOk result (λ g. IsTyped g.graph) }
{
    let (doc, _) = read_doc(alloc, text.as_bytes(), 0)
        .ok()
        .ok_or("no document")?;
    let g = graph_of(alloc, &doc).ok().ok_or("no graph")?;
    if check_typed(&g).is_err() {
        return Err("an open port".into());
    }
    Ok(g)
}
