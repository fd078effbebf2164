//! From the words of the command line and the streams to a status.
ghost use Rattle.std.specs.Prelude.{◌≡◌, IsTrue};
ghost use Rattle.gx_base.specs.Stream.{NeverFell};
ghost use Rattle.commands.specs.Words.{command_in, runs};
ghost use Rattle.commands.specs.Ruling.{Outcome, Ran, Writes};

use crate::answers::judge;
use crate::input::Input;
use crate::laws::{answers_keep_behaviour, answers_read_back, one_verdict};
use crate::refusal::Stop;
use crate::status::Status;
use crate::words::{Command, command_of, runs};
use gx_base::{ReadAllFault, Sink, Source, read_all, write_all};
use std::alloc::Global;

/// The most bytes of an input.
const MAX_INPUT: usize = 16_777_216;

/// Rules what the words ask for: reads the input from `src` to its end, judges it, and writes the answer to `out`. Nothing goes to `out`
/// before the whole answer is made. The words are the command line without the program's name.
pub fn rule<S: Source, O: Sink>(alloc: Global, words: &[String], src: &mut S, out: &mut O) -> Status
    ensures { Ran S.told O.told (command_in words.now) result src.old src.new out.old out.new }
{
    one_verdict();
    answers_read_back();
    answers_keep_behaviour();
    match command_of(words) {
        None => Status::Usage,
        Some(command) if runs(command) => run_command(alloc, command, src, out),
        Some(_) => Status::NotYet,
    }
}

fn run_command<S: Source, O: Sink>(
    alloc: Global,
    command: Command,
    src: &mut S,
    out: &mut O,
) -> Status
    requires { IsTrue (runs command) }
    ensures outcome { Outcome O.told command (S.told src.old) (S.told src.new) out.old out.new result }
    ensures counts { NeverFell (S.told src.old) (S.told src.new) × NeverFell (O.told out.old) (O.told out.new) }
{
    match read_all(alloc, src, MAX_INPUT) {
        Ok(bytes) => match judge(alloc, command, Input::new(bytes)) {
            Ok(text) => write_answer(out, &text),
            Err(Stop::Refused(refusal)) => Status::Refused(refusal),
            Err(Stop::NoMemory) => Status::NoMemory,
        },
        Err(ReadAllFault::ReadFault) => Status::ReadFault,
        Err(ReadAllFault::TooLong) => Status::TooLong,
        Err(ReadAllFault::NoMemory) => Status::NoMemory,
    }
}

fn write_answer<O: Sink>(out: &mut O, text: &[u8]) -> Status
    ensures writes { Writes text.now (O.told out.old) (O.told out.new) result }
    ensures never_falls { NeverFell (O.told out.old) (O.told out.new) }
{
    match write_all(out, text) {
        Ok(()) => Status::Done,
        Err(_) => Status::WriteFault,
    }
}
