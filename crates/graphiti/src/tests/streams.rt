//! Streams whose calls fail in turn.
use super::texts::{chain, chain_stripped};
use super::{CALM, Setting, Wanted, check_run, new_sink};
use crate::run::end_without_words;
use std::process::Abort;
use std::test::Fail;

#[test]
fn a_failing_read_is_a_read_fault(rt: HostRuntime) -> Result<(), Fail> {
    let input = chain().as_bytes();
    // pieces of 7 bytes, and a read that finds the end
    for failing_read in 1..=input.len() as u64 / 7 + 2 {
        let setting = Setting {
            piece: 7,
            failing_read,
            ..CALM
        };
        let wanted = Wanted::refused(6, "graphiti: read failed\n");
        check_run(&rt, setting, &["strip"], input, wanted)?;
    }
    Ok(())
}

/// Checks that where a write fails the answer is there up to it.
fn check_fronts(
    rt: &(impl Abort + AllocGlobal),
    command: &str,
    input: &str,
    answer: &str,
) -> Result<(), Fail> {
    for length in 0..answer.len() {
        let setting = Setting {
            piece: 1,
            failing_write: length as u64 + 1,
            ..CALM
        };
        let front = &answer.as_bytes()[..length];
        let wanted = Wanted {
            number: 7,
            out: front,
            err: b"graphiti: write failed\n",
        };
        check_run(rt, setting, &[command], input.as_bytes(), wanted)?;
    }
    Ok(())
}

#[test]
fn a_failing_write_leaves_a_front_of_the_answer(rt: HostRuntime) -> Result<(), Fail> {
    check_fronts(&rt, "strip", "digraph {}", "digraph G {\n}\n")?;
    check_fronts(&rt, "print", chain(), chain())?;
    check_fronts(&rt, "strip", chain(), chain_stripped())
}

#[test]
fn a_fault_of_the_error_stream_changes_no_status(rt: HostRuntime) -> Result<(), Fail> {
    let line = b"graphiti: PortOpen \"a\" out1\n".as_slice();
    for length in 0..line.len() {
        let setting = Setting {
            piece: 1,
            failing_line: length as u64 + 1,
            ..CALM
        };
        let input = b"digraph { a [type=Source, out=\"out1:8\"] }";
        let wanted = Wanted {
            number: 3,
            out: &[],
            err: &line[..length],
        };
        check_run(&rt, setting, &["strip"], input, wanted)?;
    }
    Ok(())
}

#[test]
fn without_words_there_is_no_memory(rt: HostRuntime) -> Result<(), Fail> {
    let mut err = new_sink(rt.alloc(), 7, 0)?;
    let status = end_without_words(&mut err);
    assert_eq!(rt; status.number(), 8);
    assert_eq!(rt; err.taken(), b"graphiti: no memory\n".as_slice());
    Ok(())
}
