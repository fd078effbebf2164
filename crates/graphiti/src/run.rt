//! From the words of the command line and the streams to a status and its line.
ghost use Rattle.std.specs.Prelude.{◌≡◌, ◌≢◌, ◌↔◌, ◌+◌, ◌≤◌, None, IfSome};
ghost use Rattle.gx_base.specs.Stream.{NeverFell, CountRose, GaveSome, Took};
ghost use Rattle.commands.specs.Words.{command_in, IsLater, Reads};
ghost use Rattle.commands.specs.Judged.{HasForm};
ghost use Rattle.commands.specs.Status.{TookFront, line_of};
ghost use Rattle.commands.specs.Ruling.{max_input, Completes, IfPrints, Judges, OfCommand, PrintCanBeRead, PrintDrains, PrintRefines, Printed, TellsAnswer, TellsVerdict};
ghost use Rattle.commands.specs.declared.status.Status.TheVariants as Status;

use commands::{Status, rule, write_line};
use gx_base::{Sink, Source};
use std::alloc::Global;

/// All that the program does. The words are the command line without the program's name. A command that reads takes its input from `src`,
/// to the end, and writes its answer to `out`; nothing goes to `out` before the whole answer is made. The line of the status goes to `err`;
/// a fault there changes nothing.
pub fn run<S: Source, O: Sink, E: Sink>(
    alloc: Global,
    words: &[String],
    src: &mut S,
    out: &mut O,
    err: &mut E,
) -> Status
    // Wrong words are told before anything is read, and so are commands that do not run yet.
    ensures usage { (result ≡ Status.Usage) ↔ (command_in words.now ≡ None) }
    ensures later { (result ≡ Status.NotYet) ↔ IsLater (command_in words.now) }
    ensures unread { ¬ (Reads (command_in words.now)) → src.new ≡ src.old }

    // Where the status tells a verdict, the input was read to its end, and this is the command's verdict on it: `out` took the answer, all of it
    // and nothing else, or a front of it where a write failed; or the input is refused, and this is why.
    ensures judged { TellsVerdict result → OfCommand (λ command. Judges command result (S.told src.old) (S.told src.new) (O.told out.old) (O.told out.new)) (command_in words.now) }

    // Where no read fails each input leads to its verdict, or is too long, unless memory runs out; an answer is written unless a write fails.
    ensures complete { Reads (command_in words.now) → ¬ (CountRose (S.told src.old) (S.told src.new)) →
        IfSome (S.told src.old).bytes (λ input. OfCommand (λ command. Completes command input result) (command_in words.now)) }

    // A read fails only where the source counts it, and one byte past the limit is taken only for this answer.
    ensures read_fault { result ≡ Status.ReadFault → CountRose (S.told src.old) (S.told src.new) }
    ensures too_long { result ≡ Status.TooLong → GaveSome (λ count. count ≡ max_input + 1) (S.told src.old) (S.told src.new) }
    ensures within { result ≢ Status.TooLong → GaveSome (λ count. count ≤ max_input) (S.told src.old) (S.told src.new) }

    // A write fails only where the sink counts it.
    ensures write_fault { result ≡ Status.WriteFault → CountRose (O.told out.old) (O.told out.new) }
    ensures nothing_written { result ≢ Status.Done → result ≢ Status.WriteFault → out.new ≡ out.old }

    // What `err` took is a front of the line, and all of it where no write there failed.
    ensures line { TookFront (line_of result) (E.told err.old) (E.told err.new) }
    ensures whole_line { ¬ (CountRose (E.told err.old) (E.told err.new)) → Took (line_of result) (E.told err.old) (E.told err.new) }

    // The counts never fall.
    ensures counts { NeverFell (S.told src.old) (S.told src.new) × NeverFell (O.told out.old) (O.told out.new) × NeverFell (E.told err.old) (E.told err.new) }

    // Where the words name a command that prints a graph, and the status tells an answer, the answer is the text of a graph that can be read:
    // an input of this graph and of no other.
    ensures reads_back { TellsAnswer result → IfPrints (λ command. Printed PrintCanBeRead command result (S.told src.old) (S.told src.new) (O.told out.old) (O.told out.new))
        (command_in words.now) }

    // This graph refines the one that was read: in every surrounding circuit it shows nothing that the other does not.
    ensures refines { TellsAnswer result → IfPrints (λ command. Printed PrintRefines command result (S.told src.old) (S.told src.new) (O.told out.old) (O.told out.new))
        (command_in words.now) }

    // It drains, by itself, what the graph that was read drains, to the same outputs.
    ensures drains { TellsAnswer result → IfPrints (λ command. Printed PrintDrains command result (S.told src.old) (S.told src.new) (O.told out.old) (O.told out.new))
        (command_in words.now) }

    // It has the form that the command gives.
    ensures form { TellsAnswer result → IfPrints (λ command. Printed (HasForm command) command result (S.told src.old) (S.told src.new) (O.told out.old) (O.told out.new))
        (command_in words.now) }
{
    let status = rule(alloc, words, src, out);
    write_line(err, &status);
    status
}

/// What the program does where there is no memory for the words of the command line: it reads nothing, writes no answer, and writes the
/// line of `NoMemory` to `err`; a fault there changes nothing.
pub fn end_without_words<E: Sink>(err: &mut E) -> Status
    ensures status { result ≡ Status.NoMemory }
    ensures line { TookFront (line_of Status.NoMemory) (E.told err.old) (E.told err.new) }
    ensures whole_line { ¬ (CountRose (E.told err.old) (E.told err.new)) → Took (line_of Status.NoMemory) (E.told err.old) (E.told err.new) }
    ensures counts { NeverFell (E.told err.old) (E.told err.new) }
{
    let status = Status::NoMemory;
    write_line(err, &status);
    status
}
