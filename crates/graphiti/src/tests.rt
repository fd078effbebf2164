//! Whole runs over sources and sinks in memory.
mod answers;
mod limits;
mod refusals;
mod streams;
mod texts;
mod words;

use crate::run::run;
use gx_base::{MemSink, MemSource};
use std::alloc::Global;
use std::process::Abort;
use std::test::Fail;

/// The room of a sink: more than any answer here takes.
const ROOM: usize = 1 << 23;

/// In what pieces the streams give and take, and which call of each fails, counted from 1; none where this is 0.
#[derive(Clone, Copy)]
struct Setting {
    piece: usize,
    failing_read: u64,
    failing_write: u64,
    failing_line: u64,
}

const CALM: Setting = Setting {
    piece: 4096,
    failing_read: 0,
    failing_write: 0,
    failing_line: 0,
};

/// What a run has to give: the number of its status, and what it writes.
#[derive(Clone, Copy)]
struct Wanted<'a> {
    number: u8,
    out: &'a [u8],
    err: &'a [u8],
}

impl<'a> Wanted<'a> {
    fn done(answer: &'a str) -> Wanted<'a> {
        Wanted {
            number: 0,
            out: answer.as_bytes(),
            err: &[],
        }
    }

    fn refused(number: u8, line: &'a str) -> Wanted<'a> {
        Wanted {
            number,
            out: &[],
            err: line.as_bytes(),
        }
    }
}

fn owned_words(alloc: Global, words: &[&str]) -> Result<Vec<String>, Fail> {
    let mut owned = Vec::new(alloc);
    for word in words {
        owned.push(String::from_str(alloc, word)?)?;
    }
    Ok(owned)
}

fn new_sink(alloc: Global, piece: usize, failing: u64) -> Result<MemSink, Fail> {
    let failing = Vec::from_slice(alloc, &[failing])?;
    Ok(MemSink::new(alloc, piece.max(1), ROOM, failing)?)
}

fn check_run(
    rt: &(impl Abort + AllocGlobal),
    setting: Setting,
    words: &[&str],
    input: &[u8],
    wanted: Wanted<'_>,
) -> Result<(), Fail> {
    let alloc = rt.alloc();
    let shown = &input[..input.len().min(200)];
    let words = owned_words(alloc, words)?;
    let failing = Vec::from_slice(alloc, &[setting.failing_read])?;
    let mut source = MemSource::new(
        Vec::from_slice(alloc, input)?,
        setting.piece.max(1),
        failing,
    );
    let mut out = new_sink(alloc, setting.piece, setting.failing_write)?;
    let mut err = new_sink(alloc, setting.piece, setting.failing_line)?;
    let status = run(alloc, &words, &mut source, &mut out, &mut err);
    assert_eq!(rt; err.taken(), wanted.err, "{words:?} {shown:?}");
    assert_eq!(rt; status.number(), wanted.number, "{words:?} {shown:?}");
    assert_eq!(rt; out.taken(), wanted.out, "{words:?} {shown:?}");
    Ok(())
}

/// Checks that the command answers the input with this text, in whatever pieces.
fn check_answer(
    rt: &(impl Abort + AllocGlobal),
    command: &str,
    input: &str,
    answer: &str,
) -> Result<(), Fail> {
    for piece in [1, 7, 64, 4096] {
        let setting = Setting { piece, ..CALM };
        check_run(
            rt,
            setting,
            &[command],
            input.as_bytes(),
            Wanted::done(answer),
        )?;
    }
    Ok(())
}

/// Checks that each command that reads refuses the input with this number and line, and writes nothing else.
fn check_refused(
    rt: &(impl Abort + AllocGlobal),
    input: &[u8],
    number: u8,
    line: &str,
) -> Result<(), Fail> {
    for command in ["print", "strip"] {
        check_run(rt, CALM, &[command], input, Wanted::refused(number, line))?;
    }
    Ok(())
}

/// The parts of a row of a table.
fn parts_of(row: &str) -> Result<(&str, &str), Fail> {
    Ok(row.split_once(" => ").ok_or("a row without =>")?)
}
