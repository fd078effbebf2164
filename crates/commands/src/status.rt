//! How a run of the program ends.
ghost use Rattle.std.specs.Prelude.{◌≡◌};
ghost use Rattle.gx_base.specs.Stream.{NeverFell, CountRose, Took};
ghost use Rattle.commands.specs.Status.{TookFront, bytes_of, line_of, name_of, number_of};

use crate::line::{PIECES, Piece, text_line, write_pieces};
use crate::refusal::Refusal;
use gx_base::Sink;

/// How a run of the program ended.
#[derive(Debug, Drop)]
pub enum Status {
    /// The answer was written.
    Done,
    /// The words are not of the grammar.
    Usage,
    /// The command does not run yet.
    NotYet,
    /// The input is refused.
    Refused(Refusal),
    /// The input is longer than 16,777,216 bytes.
    TooLong,
    /// A read of the input failed.
    ReadFault,
    /// A write of the answer failed.
    WriteFault,
    /// There was no memory for the answer.
    NoMemory,
}

impl Status {
    /// The exit status of the program.
    pub fn number(&self) -> u8
        ensures { result ≡ number_of self.now }
    {
        match self {
            Status::Done => 0,
            Status::Usage => 1,
            Status::NotYet => 10,
            Status::Refused(refusal) => refusal.number(),
            Status::TooLong => 2,
            Status::ReadFault => 6,
            Status::WriteFault => 7,
            Status::NoMemory => 8,
        }
    }

    /// The line on the error stream, in pieces.
    fn line(&self) -> [Piece; PIECES]
        ensures { bytes_of (name_of self.now) result ≡ line_of self.now }
    {
        match self {
            Status::Done => text_line(""),
            Status::Usage => text_line(
                "graphiti: usage: print, strip, gather, unfold, rewrite, trace, loops, sim [LIMIT], check, gen N\n",
            ),
            Status::NotYet => text_line("graphiti: not yet\n"),
            Status::Refused(refusal) => refusal.line(),
            Status::TooLong => text_line("graphiti: input longer than 16777216 bytes\n"),
            Status::ReadFault => text_line("graphiti: read failed\n"),
            Status::WriteFault => text_line("graphiti: write failed\n"),
            Status::NoMemory => text_line("graphiti: no memory\n"),
        }
    }

    /// The name in the line; an empty one where there is none.
    fn name(&self) -> &[u8]
        ensures { result.now ≡ name_of self.now }
    {
        match self {
            Status::Refused(refusal) => refusal.name(),
            Status::Done
            | Status::Usage
            | Status::NotYet
            | Status::TooLong
            | Status::ReadFault
            | Status::WriteFault
            | Status::NoMemory => &[],
        }
    }
}

/// Writes the line of the status, with its LF; nothing for `Done`. After a write that fails nothing more is written.
pub fn write_line<E: Sink>(err: &mut E, status: &Status)
    ensures front { TookFront (line_of status.now) (E.told err.old) (E.told err.new) }
    ensures whole { ¬ (CountRose (E.told err.old) (E.told err.new)) → Took (line_of status.now) (E.told err.old) (E.told err.new) }
    ensures never_falls { NeverFell (E.told err.old) (E.told err.new) }
{
    let _ = write_pieces(err, &status.line(), status.name());
}
