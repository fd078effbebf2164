//! Documents, and what is printed of them. Each stands in a function of its own, so that a test that uses it need not look into it.

/// The greatest common divisor of `x` and `y`: the loop replaces the pair by the lesser and the remainder, until that is 0.
pub(super) fn gcd() -> &'static str {
    r#"digraph G {
  "ba" [type = "Branch", in = "in1:32 in2?:1", out = "out1+:32 out2-:32"];
  "bb" [type = "Branch", in = "in1:32 in2?:1", out = "out1+:32 out2-:32"];
  "fb" [type = "Fork", in = "in1:32", out = "out1:32 out2:32"];
  "fc" [type = "Fork", in = "in1:1", out = "out1:1 out2:1 out3:1"];
  "fr" [type = "Fork", in = "in1:32", out = "out1:32 out2:32 out3:32"];
  "fs" [type = "Fork", in = "in1:1", out = "out1:1 out2:1"];
  "g" [type = "Exit", in = "in1:32"];
  "i" [type = "Init", in = "in1:1", out = "out1:1", value = "0x0", ooo = "4"];
  "k" [type = "Sink", in = "in1:32"];
  "ma" [type = "Mux", in = "in1?:1 in2:32 in3:32", out = "out1:32"];
  "mb" [type = "Mux", in = "in1?:1 in2:32 in3:32", out = "out1:32"];
  "ne" [type = "Operator", in = "in1:32 in2:32", out = "out1:1", op = "icmp_ne_op"];
  "rem" [type = "Operator", in = "in1:32 in2:32", out = "out1:32", op = "urem_op"];
  "x" [type = "Entry", out = "out1:32"];
  "y" [type = "Entry", out = "out1:32"];
  "z" [type = "Constant", in = "in1:32", out = "out1:32", value = "0x0"];
  "fb" -> "ba" [from = "out1", to = "in1"];
  "fc" -> "ba" [from = "out1", to = "in2"];
  "fr" -> "bb" [from = "out1", to = "in1"];
  "fc" -> "bb" [from = "out2", to = "in2"];
  "mb" -> "fb" [from = "out1", to = "in1"];
  "ne" -> "fc" [from = "out1", to = "in1"];
  "rem" -> "fr" [from = "out1", to = "in1"];
  "i" -> "fs" [from = "out1", to = "in1"];
  "ba" -> "g" [from = "out2", to = "in1"];
  "fc" -> "i" [from = "out3", to = "in1"];
  "bb" -> "k" [from = "out2", to = "in1"];
  "fs" -> "ma" [from = "out1", to = "in1"];
  "x" -> "ma" [from = "out1", to = "in2"];
  "ba" -> "ma" [from = "out1", to = "in3"];
  "fs" -> "mb" [from = "out2", to = "in1"];
  "y" -> "mb" [from = "out1", to = "in2"];
  "bb" -> "mb" [from = "out1", to = "in3"];
  "fr" -> "ne" [from = "out2", to = "in1"];
  "z" -> "ne" [from = "out1", to = "in2"];
  "ma" -> "rem" [from = "out1", to = "in1"];
  "fb" -> "rem" [from = "out2", to = "in2"];
  "fr" -> "z" [from = "out3", to = "in1"];
}
"#
}

/// The greatest common divisor with its loop tagged: four pairs run at once.
pub(super) fn tagged_gcd() -> &'static str {
    r#"digraph G {
  "fb" [type = "Fork", in = "in1:32", out = "out1:32 out2:32"];
  "fc" [type = "Fork", in = "in1:1", out = "out1:1 out2:1 out3:1"];
  "fr" [type = "Fork", in = "in1:32", out = "out1:32 out2:32 out3:32"];
  "g" [type = "Exit", in = "in1:32"];
  "k" [type = "Sink", in = "in1:32"];
  "ne" [type = "Operator", in = "in1:32 in2:32", out = "out1:1", op = "icmp_ne_op"];
  "ooo_0_branch" [type = "Branch", in = "in1:2.32.32 in2?:1", out = "out1+:2.32.32 out2-:2.32.32"];
  "ooo_0_in" [type = "Join", in = "in1:32 in2:32", out = "out1:32.32"];
  "ooo_0_merge" [type = "Merge", in = "in1:2.32.32 in2:2.32.32", out = "out1:2.32.32"];
  "ooo_0_next" [type = "Join", in = "in1:32 in2:32", out = "out1:32.32"];
  "ooo_0_out" [type = "Split", in = "in1:32.32", out = "out1:32 out2:32"];
  "ooo_0_retag" [type = "Join", in = "in1:2 in2:32.32", out = "out1:2.32.32"];
  "ooo_0_s1" [type = "Sink", in = "in1:1"];
  "ooo_0_s2" [type = "Sink", in = "in1:1"];
  "ooo_0_tag" [type = "Split", in = "in1:2.32.32", out = "out1:2 out2:32.32"];
  "ooo_0_tagger" [type = "Tagger", in = "in1:32.32 in2:2.32.32", out = "out1:2.32.32 out2:32.32", tags = "4"];
  "ooo_0_vars" [type = "Split", in = "in1:32.32", out = "out1:32 out2:32"];
  "rem" [type = "Operator", in = "in1:32 in2:32", out = "out1:32", op = "urem_op"];
  "x" [type = "Entry", out = "out1:32"];
  "y" [type = "Entry", out = "out1:32"];
  "z" [type = "Constant", in = "in1:32", out = "out1:32", value = "0x0"];
  "ooo_0_vars" -> "fb" [from = "out2", to = "in1"];
  "ne" -> "fc" [from = "out1", to = "in1"];
  "rem" -> "fr" [from = "out1", to = "in1"];
  "ooo_0_out" -> "g" [from = "out1", to = "in1"];
  "ooo_0_out" -> "k" [from = "out2", to = "in1"];
  "fr" -> "ne" [from = "out2", to = "in1"];
  "z" -> "ne" [from = "out1", to = "in2"];
  "ooo_0_retag" -> "ooo_0_branch" [from = "out1", to = "in1"];
  "fc" -> "ooo_0_branch" [from = "out1", to = "in2"];
  "x" -> "ooo_0_in" [from = "out1", to = "in1"];
  "y" -> "ooo_0_in" [from = "out1", to = "in2"];
  "ooo_0_tagger" -> "ooo_0_merge" [from = "out1", to = "in1"];
  "ooo_0_branch" -> "ooo_0_merge" [from = "out1", to = "in2"];
  "fb" -> "ooo_0_next" [from = "out1", to = "in1"];
  "fr" -> "ooo_0_next" [from = "out1", to = "in2"];
  "ooo_0_tagger" -> "ooo_0_out" [from = "out2", to = "in1"];
  "ooo_0_tag" -> "ooo_0_retag" [from = "out1", to = "in1"];
  "ooo_0_next" -> "ooo_0_retag" [from = "out1", to = "in2"];
  "fc" -> "ooo_0_s1" [from = "out2", to = "in1"];
  "fc" -> "ooo_0_s2" [from = "out3", to = "in1"];
  "ooo_0_merge" -> "ooo_0_tag" [from = "out1", to = "in1"];
  "ooo_0_in" -> "ooo_0_tagger" [from = "out1", to = "in1"];
  "ooo_0_branch" -> "ooo_0_tagger" [from = "out2", to = "in2"];
  "ooo_0_tag" -> "ooo_0_vars" [from = "out2", to = "in1"];
  "ooo_0_vars" -> "rem" [from = "out1", to = "in1"];
  "fb" -> "rem" [from = "out2", to = "in2"];
  "fr" -> "z" [from = "out3", to = "in1"];
}
"#
}

/// A loop with a lane that passes its value on and a lane that is the condition.
pub(super) fn two_lanes() -> &'static str {
    r#"digraph G {
  "bc" [type = "Branch", in = "in1:1 in2?:1", out = "out1+:1 out2-:1"];
  "bp" [type = "Branch", in = "in1:8 in2?:1", out = "out1+:8 out2-:8"];
  "c" [type = "Entry", out = "out1:1"];
  "f" [type = "Fork", in = "in1:1", out = "out1:1 out2:1 out3:1 out4:1"];
  "i" [type = "Init", in = "in1:1", out = "out1:1", value = "0x0", ooo = "2"];
  "mc" [type = "Mux", in = "in1?:1 in2:1 in3:1", out = "out1:1"];
  "mp" [type = "Mux", in = "in1?:1 in2:8 in3:8", out = "out1:8"];
  "p" [type = "Entry", out = "out1:8"];
  "q" [type = "Exit", in = "in1:8"];
  "r" [type = "Exit", in = "in1:1"];
  "s" [type = "Fork", in = "in1:1", out = "out1:1 out2:1"];
  "f" -> "bc" [from = "out1", to = "in1"];
  "f" -> "bc" [from = "out2", to = "in2"];
  "mp" -> "bp" [from = "out1", to = "in1"];
  "f" -> "bp" [from = "out3", to = "in2"];
  "mc" -> "f" [from = "out1", to = "in1"];
  "f" -> "i" [from = "out4", to = "in1"];
  "s" -> "mc" [from = "out1", to = "in1"];
  "c" -> "mc" [from = "out1", to = "in2"];
  "bc" -> "mc" [from = "out1", to = "in3"];
  "s" -> "mp" [from = "out2", to = "in1"];
  "p" -> "mp" [from = "out1", to = "in2"];
  "bp" -> "mp" [from = "out1", to = "in3"];
  "bp" -> "q" [from = "out2", to = "in1"];
  "bc" -> "r" [from = "out2", to = "in1"];
  "i" -> "s" [from = "out1", to = "in1"];
}
"#
}

/// A constant between two ports, with a layout and a cluster, as a maker of such graphs may write it.
pub(super) fn with_layout() -> &'static str {
    r#"Digraph G {
  splines=spline;
  // block view
  "n" [type = "Entry", bbID= 1, in = "in1:32 ", out = "out1:32 ", delay=0.000, latency=0];
  subgraph cluster_0 {
    color = "darkgreen"; label = "block1";
    "cst_0" [type = "Constant", bbID= 1, in = "in1:32 ", out = "out1:32 ", value = "0x00000001"];
    "ret_0" [type = "Operator", bbID= 1, op = "ret_op", in = "in1:32 ", out = "out1:32 "];
  }
  "end_0" [type = "Exit", bbID= 0, in = "in1:32 ", out = "out1:32"];
  "n" -> "cst_0" [color = "red", minlen = 3, from = "out1", to = "in1"];
  "cst_0" -> "ret_0" [from = "out1", to = "in1"];
  "ret_0" -> "end_0" [from = "out1", to = "in1"];
}
"#
}

pub(super) fn without_layout() -> &'static str {
    r#"digraph G {
  "cst_0" [type = "Constant", in = "in1:32", out = "out1:32", value = "0x1", bbID = "1"];
  "end_0" [type = "Exit", in = "in1:32", bbID = "0"];
  "n" [type = "Entry", out = "out1:32", bbID = "1", delay = "0.000", latency = "0"];
  "ret_0" [type = "Operator", in = "in1:32", out = "out1:32", op = "ret_op", bbID = "1"];
  "n" -> "cst_0" [from = "out1", to = "in1"];
  "ret_0" -> "end_0" [from = "out1", to = "in1"];
  "cst_0" -> "ret_0" [from = "out1", to = "in1"];
}
"#
}

/// The kinds that the loops do not have.
pub(super) fn kinds() -> &'static str {
    r#"digraph G {
    t [type=Tagger, tags=4, in="in1:8 in2:2.8", out="out1:2.8 out2:8"]
    m [type=Merge, in="in1:8", out="out1:8"]
    c [type=CtrlMerge, out="out1:2.8 out2:1", in="in1:2.8 in2:2.8"]
    j [type=Join, in="in1:2.8 in2:1", out="out1:2.8.1"]
    s [type=Split, in="in1:2.8.1", out="out1:2.8 out2:1"]
    e [type=Source, out="out1:2.8"]
    k [type=Sink, in="in1:1"]
    m -> t [from=out1, to=in1] t -> c [from=out1, to=in1] e -> c [from=out1, to=in2]
    c -> j [from=out1, to=in1] c -> j [from=out2, to=in2] j -> s [from=out1, to=in1]
    s -> t [from=out1, to=in2] s -> k [from=out2, to=in1] t -> m [from=out2, to=in1]
}"#
}

pub(super) fn kinds_printed() -> &'static str {
    r#"digraph G {
  "c" [type = "CntrlMerge", in = "in1:2.8 in2:2.8", out = "out1:2.8 out2?:1"];
  "e" [type = "Source", out = "out1:2.8"];
  "j" [type = "Join", in = "in1:2.8 in2:1", out = "out1:2.8.1"];
  "k" [type = "Sink", in = "in1:1"];
  "m" [type = "Merge", in = "in1:8", out = "out1:8"];
  "s" [type = "Split", in = "in1:2.8.1", out = "out1:2.8 out2:1"];
  "t" [type = "Tagger", in = "in1:8 in2:2.8", out = "out1:2.8 out2:8", tags = "4"];
  "t" -> "c" [from = "out1", to = "in1"];
  "e" -> "c" [from = "out1", to = "in2"];
  "c" -> "j" [from = "out1", to = "in1"];
  "c" -> "j" [from = "out2", to = "in2"];
  "s" -> "k" [from = "out2", to = "in1"];
  "t" -> "m" [from = "out2", to = "in1"];
  "j" -> "s" [from = "out1", to = "in1"];
  "m" -> "t" [from = "out1", to = "in1"];
  "s" -> "t" [from = "out1", to = "in2"];
}
"#
}

/// A function of pairs: their sum, and their first number.
pub(super) fn applied() -> &'static str {
    r#"digraph G {
  "f" [type = "Pure", in = "in1:8.8", out = "out1:8.8", fun = "add:8(#0,#1) -> #2 #0"];
  "x" [type = "Entry", out = "out1:8.8"];
  "y" [type = "Exit", in = "in1:8.8"];
  "x" -> "f" [from = "out1", to = "in1"];
  "f" -> "y" [from = "out1", to = "in1"];
}
"#
}

/// A document in an odd spelling.
pub(super) fn loose() -> &'static str {
    r#"Digraph { // c
"b" [type=Buffer in="in1:8"; out="out1:8" delay=0.5,]
a [type="Entry", out="out1:8"] ; z[type=Exit,in="in1:8"]
a->"b"[to=in1 from=out1 color=red]; "b"->z [from=out1][to=in1]
}
"#
}

pub(super) fn loose_printed() -> &'static str {
    r#"digraph G {
  "a" [type = "Entry", out = "out1:8"];
  "b" [type = "Buffer", in = "in1:8", out = "out1:8", delay = "0.5"];
  "z" [type = "Exit", in = "in1:8"];
  "a" -> "b" [from = "out1", to = "in1"];
  "b" -> "z" [from = "out1", to = "in1"];
}
"#
}

pub(super) fn loose_stripped() -> &'static str {
    r#"digraph G {
  "a" [type = "Entry", out = "out1:8"];
  "z" [type = "Exit", in = "in1:8"];
  "a" -> "z" [from = "out1", to = "in1"];
}
"#
}

/// The last pair of a key counts, a subgraph's nodes are the document's, and a default is dropped.
pub(super) fn spread() -> &'static str {
    r#"# a line
digraph "x" { node [in = "in9:9"]
subgraph s { ü [type=Entry, type=Exit, in="in1:8" k=1 k=2]; { a [type=Entry out="out1:8"] } } rank = same
a -> ü [from=out2 from=out1 to=in1] }
/* behind */ // it"#
}

pub(super) fn spread_printed() -> &'static str {
    r#"digraph G {
  "a" [type = "Entry", out = "out1:8"];
  "ü" [type = "Exit", in = "in1:8", k = "2"];
  "a" -> "ü" [from = "out1", to = "in1"];
}
"#
}

/// A chain of Buffers, and one that feeds itself.
pub(super) fn chain() -> &'static str {
    r#"digraph G {
  "a" [type = "Entry", out = "out1:8"];
  "b1" [type = "Buffer", in = "in1:8", out = "out1:8"];
  "b2" [type = "Buffer", in = "in1:8", out = "out1:8"];
  "b3" [type = "Buffer", in = "in1:8", out = "out1:8"];
  "s" [type = "Buffer", in = "in1:8", out = "out1:8"];
  "z" [type = "Exit", in = "in1:8"];
  "a" -> "b1" [from = "out1", to = "in1"];
  "b1" -> "b2" [from = "out1", to = "in1"];
  "b2" -> "b3" [from = "out1", to = "in1"];
  "s" -> "s" [from = "out1", to = "in1"];
  "b3" -> "z" [from = "out1", to = "in1"];
}
"#
}

pub(super) fn chain_stripped() -> &'static str {
    r#"digraph G {
  "a" [type = "Entry", out = "out1:8"];
  "s" [type = "Buffer", in = "in1:8", out = "out1:8"];
  "z" [type = "Exit", in = "in1:8"];
  "s" -> "s" [from = "out1", to = "in1"];
  "a" -> "z" [from = "out1", to = "in1"];
}
"#
}

/// Two Buffers that feed each other.
pub(super) fn ring() -> &'static str {
    r#"digraph G {
  "u" [type = "Buffer", in = "in1:8", out = "out1:8"];
  "v" [type = "Buffer", in = "in1:8", out = "out1:8"];
  "v" -> "u" [from = "out1", to = "in1"];
  "u" -> "v" [from = "out1", to = "in1"];
}
"#
}

pub(super) fn ring_stripped() -> &'static str {
    r#"digraph G {
  "v" [type = "Buffer", in = "in1:8", out = "out1:8"];
  "v" -> "v" [from = "out1", to = "in1"];
}
"#
}
