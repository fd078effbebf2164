//! The commands of the program: what the words of the command line ask for, and what is answered to an input.
//!
//! - `rule`: from the words and the streams to a `Status`: the input is read to its end, judged, and its answer written.
//! - `Command`, `command_of`, `runs`: the commands of the grammar, the one that the words name, and which of them run today.
//! - `Status`, `Refusal`: how a run ends, and why an input is refused; `Status::number` is the exit status, and `write_line` writes the line
//!   on the error stream.
//! - `one_verdict`, `graphs_are_typed`, `graph_inputs`, `stripped_can_be_read`, `answers_read_back`, `answers_keep_behaviour`, `tells_numbers`: laws.
//!
//! What a command answers to an input is its verdict, an answer or a refusal: `specs/Judged.antt` has a case for each command, over the parts of
//! an input in `specs/Parts.antt`. A command that runs is a file in `answers/`. `specs/Ruling.antt` says what a run does.
//!
//! The words `print` and the input `digraph {}` give the answer `digraph G {\n}\n` and the status `Done`; behind `digraph {} x` the verdict is
//! `Syntax` at byte 11, where the `x` stands.
#![tactic(auto)]

mod answers;
mod input;
mod laws;
mod line;
mod refusal;
mod ruling;
mod status;
mod words;

pub use laws::{
    answers_keep_behaviour, answers_read_back, graph_inputs, graphs_are_typed, one_verdict,
    stripped_can_be_read,
};
pub use refusal::Refusal;
pub use ruling::rule;
pub use status::{Status, write_line};
pub use words::{Command, command_of, runs, tells_numbers};
