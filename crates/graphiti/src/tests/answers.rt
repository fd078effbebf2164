//! Graphs that are printed and stripped.
use super::texts::{
    applied, chain, chain_stripped, gcd, kinds, kinds_printed, loose, loose_printed,
    loose_stripped, ring, ring_stripped, spread, spread_printed, tagged_gcd, two_lanes,
    with_layout, without_layout,
};
use super::{CALM, Wanted, check_answer, check_run, parts_of};
use std::test::Fail;

const EMPTY: &str = "digraph G {\n}\n";

#[test]
fn documents_are_printed(rt: HostRuntime) -> Result<(), Fail> {
    let rows = [
        (with_layout(), without_layout()),
        (kinds(), kinds_printed()),
        (loose(), loose_printed()),
        (spread(), spread_printed()),
        ("digraph G {}", EMPTY),
        ("digraph G { node [type=Pure] }", EMPTY),
    ];
    for (input, answer) in rows {
        check_answer(&rt, "print", input, answer)?;
        check_answer(&rt, "print", answer, answer)?;
    }
    for text in [gcd(), tagged_gcd(), two_lanes(), chain(), ring(), applied()] {
        check_answer(&rt, "print", text, text)?;
    }
    Ok(())
}

#[test]
fn documents_are_stripped(rt: HostRuntime) -> Result<(), Fail> {
    let rows = [
        (chain(), chain_stripped()),
        (ring(), ring_stripped()),
        (loose(), loose_stripped()),
        (spread(), spread_printed()),
        (kinds(), kinds_printed()),
        ("digraph G {\n}\n\n", EMPTY),
    ];
    for (input, answer) in rows {
        check_answer(&rt, "strip", input, answer)?;
    }
    for text in [
        gcd(),
        tagged_gcd(),
        two_lanes(),
        without_layout(),
        applied(),
    ] {
        check_answer(&rt, "strip", text, text)?;
    }
    Ok(())
}

#[test]
fn comments_behind_a_document_hold_any_bytes(rt: HostRuntime) -> Result<(), Fail> {
    let input = b"digraph G {} /*\xff*/ // \xff\n#\xff";
    check_run(&rt, CALM, &["print"], input, Wanted::done(EMPTY))
}

/// The pairs of a node that feeds itself, and what is printed of them.
fn limits() -> &'static str {
    r#"type=Init, in="in1:1", out="out1:1", ooo=1 => type = "Init", in = "in1:1", out = "out1:1", value = "0x0", ooo = "1"
type=Init, in="in1:1", out="out1:1", value=01, ooo=256 => type = "Init", in = "in1:1", out = "out1:1", value = "0x1", ooo = "256"
type=Init, in="in1?:1", out="out1:1", value="0x01" => type = "Init", in = "in1:1", out = "out1:1", value = "0x1"
type=Constant, in="in1:64", out="out1:64", value=18446744073709551615 => type = "Constant", in = "in1:64", out = "out1:64", value = "0xffffffffffffffff"
type=Constant, in="in1:0", out="out1:0", value="0x00" => type = "Constant", in = "in1:0", out = "out1:0", value = "0x0"
type=Pure, fun="select:64(ne:1(#0,64'0),64'18446744073709551615,#0);#1 -> #2", in="in1:64", out="out1:64" => type = "Pure", in = "in1:64", out = "out1:64", fun = "select:64(ne:1(#0,64'0),64'18446744073709551615,#0);#1 -> #2"
type=Pure, in="in1:8", out="out1:8", op=x, fun="", fun="-> #0" => type = "Pure", in = "in1:8", out = "out1:8", fun = "-> #0", op = "x"
type=Operator, op=ret_op, in="in1:64", out="out1:64" => type = "Operator", in = "in1:64", out = "out1:64", op = "ret_op"
type=Merge, in=" in1:0.64  ", out="out1:0.64", tags=3 => type = "Merge", in = "in1:0.64", out = "out1:0.64", tags = "3""#
}

#[test]
fn kinds_at_their_limits_are_printed(rt: HostRuntime) -> Result<(), Fail> {
    let alloc = rt.alloc();
    for row in limits().lines() {
        let (pairs, printed) = parts_of(row)?;
        let input = format!(in alloc; "digraph {{ n [{pairs}] n -> n [from=out1, to=in1] }}")?;
        let answer = format!(in alloc;
            "digraph G {{\n  \"n\" [{printed}];\n  \"n\" -> \"n\" [from = \"out1\", to = \"in1\"];\n}}\n"
        )?;
        check_answer(&rt, "print", input.as_str(), answer.as_str())?;
    }
    Ok(())
}
