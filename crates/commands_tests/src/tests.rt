//! Rulings and lines of small inputs.
use commands::{Status, rule, write_line};
use gx_base::{CleanSource, MemSink};
use std::alloc::Global;
use std::process::Abort;
use std::test::Fail;

/// The room of a sink: more than any answer here takes.
const ROOM: usize = 1 << 10;

fn new_sink(alloc: Global) -> Result<MemSink, Fail> {
    Ok(MemSink::new(alloc, 7, ROOM, Vec::new(alloc))?)
}

/// Checks the number, the answer and the line of one ruling.
fn check_rule(
    rt: &(impl Abort + AllocGlobal),
    words: &str,
    input: &str,
    wanted: (u8, &str, &str),
) -> Result<(), Fail> {
    let alloc = rt.alloc();
    let mut owned = Vec::new(alloc);
    for word in words.split(' ') {
        owned.push(String::from_str(alloc, word)?)?;
    }
    let mut source = CleanSource::new(Vec::from_slice(alloc, input.as_bytes())?, 7);
    let mut out = new_sink(alloc)?;
    let mut err = new_sink(alloc)?;
    let status = rule(alloc, &owned, &mut source, &mut out);
    write_line(&mut err, &status);
    assert_eq!(rt; status.number(), wanted.0, "{words} {input}");
    assert_eq!(rt; out.taken(), wanted.1.as_bytes(), "{words} {input}");
    assert_eq!(rt; err.taken(), wanted.2.as_bytes(), "{words} {input}");
    Ok(())
}

/// An Entry, a Buffer and an Exit in a row.
const ROW: &str =
    "digraph { a [type=Entry, out=\"out1:8\"] b [type=Buffer, in=\"in1:8\", out=\"out1:8\"]
z [type=Exit, in=\"in1:8\"] a -> b [from=out1, to=in1] b -> z [from=out1, to=in1] }";

const STRIPPED: &str = "digraph G {
  \"a\" [type = \"Entry\", out = \"out1:8\"];
  \"z\" [type = \"Exit\", in = \"in1:8\"];
  \"a\" -> \"z\" [from = \"out1\", to = \"in1\"];
}
";

#[test]
fn answers_and_refusals(rt: HostRuntime) -> Result<(), Fail> {
    check_rule(&rt, "print", STRIPPED, (0, STRIPPED, ""))?;
    check_rule(&rt, "strip", ROW, (0, STRIPPED, ""))?;
    check_rule(&rt, "gen 5", ROW, (10, "", "graphiti: not yet\n"))?;
    check_rule(
        &rt,
        "print",
        "digraph { ] }",
        (2, "", "graphiti: syntax at byte 10\n"),
    )?;
    check_rule(
        &rt,
        "strip",
        "digraph { } x",
        (2, "", "graphiti: syntax at byte 12\n"),
    )?;
    check_rule(
        &rt,
        "strip",
        "digraph { a -> b [from=out1, to=in1] } x",
        (3, "", "graphiti: edge 1: UnknownNode\n"),
    )?;
    check_rule(
        &rt,
        "print",
        "digraph { \"\" [type=Entry] }",
        (3, "", "graphiti: BadName \"\"\n"),
    )?;
    check_rule(
        &rt,
        "print",
        "digraph { a [type=Pure, in=\"in1:8\", out=\"out1:8\"] }",
        (3, "", "graphiti: BadFun \"a\"\n"),
    )
}

#[test]
fn lines_of_statuses(rt: HostRuntime) -> Result<(), Fail> {
    let mut err = new_sink(rt.alloc())?;
    for status in [
        Status::Done,
        Status::TooLong,
        Status::ReadFault,
        Status::WriteFault,
    ] {
        write_line(&mut err, &status);
    }
    assert_eq!(rt;
        err.taken(),
        b"graphiti: input longer than 16777216 bytes\ngraphiti: read failed\ngraphiti: write failed\n".as_slice()
    );
    Ok(())
}
