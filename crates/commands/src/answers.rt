//! The answers of the commands that run.
ghost use Rattle.std.specs.Prelude.{◌≡◌, IsTrue};
ghost use Rattle.commands.specs.Words.{runs};
ghost use Rattle.commands.specs.Judged.{Found, Judged};

mod print;
mod strip;

use crate::input::Input;
use crate::refusal::Stop;
use crate::words::Command;
use std::alloc::Global;

/// The text of a command's answer to an input.
pub(crate) fn judge(alloc: Global, command: Command, input: Input) -> Result<Vec<u8>, Stop>
    requires runs { IsTrue (runs command) }
    requires begins { input.place ≡ 0 }
    ensures { Found (λ text. text.items) (Judged command input.bytes) result }
{
    match command {
        Command::Print => print::print(alloc, input),
        Command::Strip => strip::strip_input(alloc, input),
        Command::Gather
        | Command::Unfold
        | Command::Rewrite
        | Command::Trace
        | Command::Loops
        | Command::Sim(_)
        | Command::Check
        | Command::Gen(_) => unreachable!(),
    }
}
