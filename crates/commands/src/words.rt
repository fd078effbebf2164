//! The commands that the words of the command line name.
ghost use Rattle.std.specs.Prelude.{◌≡◌, ◌≤◌, [], ◌∷◌, IfSome, bytes_eq, codes};
ghost use Rattle.std.specs.Option.{option_map};
ghost use Rattle.commands.specs.declared.words.Command.TheVariants.{Sim, Gen};
ghost use Rattle.commands.specs.Words.{number_in, one_word, with_number, command_of, command_in, runs, TellsNumbers};

use port_types::{numerals_tell_numbers, read_numeral};

/// A command of the grammar.
#[derive(Clone, Copy, Debug, PartialEq, Eq)]
pub enum Command {
    Print,
    Strip,
    Gather,
    Unfold,
    Rewrite,
    Trace,
    Loops,
    /// With the most firings of a simulation.
    Sim(u64),
    Check,
    /// With the number of the components to be generated.
    Gen(u32),
}

/// The most firings of `sim`, which stands where no number is given.
const MAX_LIMIT: u64 = 10_000_000;

/// The greatest number of `gen`.
const MAX_GENERATED: u64 = 2_000;

/// The number of a word is found exactly where the word is written in decimal for a number of the range.
pub fn tells_numbers()
    ensures { TellsNumbers }
{
    numerals_tell_numbers();
}

/// Whether the command runs today.
pub fn runs(command: Command) -> bool
    ensures { result ≡ runs command }
{
    match command {
        Command::Print | Command::Strip => true,
        Command::Gather
        | Command::Unfold
        | Command::Rewrite
        | Command::Trace
        | Command::Loops
        | Command::Sim(_)
        | Command::Check
        | Command::Gen(_) => false,
    }
}

/// The command that the words of the command line name, without the program's name; `None` exactly where they are not of the grammar.
pub fn command_of(words: &[String]) -> Option<Command>
    ensures { result ≡ command_in words.now }
{
    match words {
        [word] => one_word(word.as_str()),
        [first, second] => two_words(first.as_str(), second.as_str()),
        [first, second, third] => three_words(first.as_str(), second.as_str(), third.as_str()),
        _ => None,
    }
}

#[tactic(auto, unfolding(crate::specs::Words::one_word))]
fn one_word(word: &str) -> Option<Command>
    ensures { result ≡ one_word word.now }
{
    match word {
        "print" => Some(Command::Print),
        "strip" => Some(Command::Strip),
        "gather" => Some(Command::Gather),
        "unfold" => Some(Command::Unfold),
        "rewrite" => Some(Command::Rewrite),
        "trace" => Some(Command::Trace),
        "loops" => Some(Command::Loops),
        "sim" => Some(Command::Sim(MAX_LIMIT)),
        "check" => Some(Command::Check),
        _ => None,
    }
}

fn two_words(first: &str, second: &str) -> Option<Command>
    ensures { result ≡ command_of (first.now ∷ second.now ∷ []) }
{
    if is_dashes(first) {
        one_word(second)
    } else if is_dashes(second) {
        one_word(first)
    } else {
        with_number(first, second)
    }
}

fn three_words(first: &str, second: &str, third: &str) -> Option<Command>
    ensures { result ≡ command_of (first.now ∷ second.now ∷ third.now ∷ []) }
{
    if is_dashes(first) {
        with_number(second, third)
    } else if is_dashes(second) {
        with_number(first, third)
    } else if is_dashes(third) {
        with_number(first, second)
    } else {
        None
    }
}

fn is_dashes(word: &str) -> bool
    ensures { result ≡ bytes_eq word.now (codes "--") }
{
    word == "--"
}

/// The command of a word and the number behind it.
#[tactic(auto, unfolding(crate::specs::Words::with_number))]
fn with_number(word: &str, number: &str) -> Option<Command>
    ensures { result ≡ with_number word.now number.now }
{
    if word == "sim" {
        sim(number)
    } else if word == "gen" {
        generate(number)
    } else {
        None
    }
}

fn sim(number: &str) -> Option<Command>
    ensures { result ≡ option_map Sim (number_in 0 10000000 number.now) }
{
    Some(Command::Sim(number_in(number, 0, MAX_LIMIT)?))
}

fn generate(number: &str) -> Option<Command>
    ensures { result ≡ option_map Gen (number_in 1 2000 number.now) }
{
    Some(Command::Gen(number_in(number, 1, MAX_GENERATED)? as u32))
}

/// The number from the least to the most that the word is a decimal numeral of.
#[tactic(auto, unfolding(crate::specs::Words::number_in))]
fn number_in(word: &str, least: u64, most: u64) -> Option<u64>
    ensures number { result ≡ number_in least most word.now }
    ensures within { IfSome result (λ number. number ≤ most) }
{
    match read_numeral(word.as_bytes()) {
        Some(number) if least <= number && number <= most => Some(number),
        _ => None,
    }
}
