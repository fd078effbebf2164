//! Inputs that are refused.
ghost use Rattle.std.specs.Prelude.{◌≡◌, ℕ, List, ◌++◌, codes};
ghost use Rattle.std.specs.Fmt.{decimal};
ghost use Rattle.dot_text.specs.Printing.{in_quotes};
ghost use Rattle.port_types.specs.PortText.{port_name};
ghost use Rattle.commands.specs.declared.refusal.Refusal.TheVariants.{Graph};
ghost use Rattle.commands.specs.Status.{bytes_of, fault_word, is_of_edge, refusal_line, refusal_name, refusal_number};

use crate::line::{PIECES, Piece, number_line};
use graph_read::{GraphFaultKind, GraphRefusal};
use port_types::{NoMemory, Side};

/// Why an input is refused: its verdict, where it has no answer.
#[derive(Debug, Drop)]
pub enum Refusal {
    /// It is not of the form that the command takes; the number is that of the byte where this shows.
    Syntax(usize),
    /// A document in it is no graph; this is the first thing that is wrong with it.
    Graph(GraphRefusal),
}

/// Why the judging of an input ends without an answer.
#[derive(Debug, Drop)]
pub(crate) enum Stop {
    Refused(Refusal),
    NoMemory,
}

impl From<NoMemory> for Stop {
    ghost use Rattle.std.specs.Prelude.{◌≡◌};
    ghost use Rattle.commands.specs.declared.refusal.Stop.TheVariants as stop;

    ghost from_gives = { λ _ end. end ≡ stop.NoMemory };

    fn from(_: NoMemory) -> Stop {
        Stop::NoMemory
    }
}

impl Refusal {
    /// The exit status of the program.
    pub fn number(&self) -> u8
        ensures { result ≡ refusal_number self.now }
    {
        match self {
            Refusal::Syntax(_) => 2,
            Refusal::Graph(_) => 3,
        }
    }

    /// The line on the error stream, in pieces.
    pub(crate) fn line(&self) -> [Piece; PIECES]
        ensures { bytes_of (refusal_name self.now) result ≡ refusal_line self.now }
    {
        match self {
            Refusal::Syntax(at) => number_line("graphiti: syntax at byte ", *at, "\n"),
            Refusal::Graph(refusal) => graph_line(refusal),
        }
    }

    /// The name in the line; an empty one where there is none.
    pub(crate) fn name(&self) -> &[u8]
        ensures { result.now ≡ refusal_name self.now }
    {
        match self {
            Refusal::Graph(refusal) => refusal.name.bytes(),
            Refusal::Syntax(_) => &[],
        }
    }
}

fn graph_line(refusal: &GraphRefusal) -> [Piece; PIECES]
    ensures { bytes_of refusal.now.name result ≡ refusal_line (Graph refusal.now) }
{
    let word = fault_word(refusal.kind);
    match refusal.port_open {
        Some((side, number)) => port_line(word, side, number),
        None if is_of_edge(refusal.kind) => edge_line(refusal.place, word),
        None => node_line(word),
    }
}

fn port_line(word: &'static str, side: Side, number: u8) -> [Piece; PIECES]
    ensures { (name : List ℕ) → bytes_of name result ≡ codes "graphiti: " ++ (word.now ++ codes " " ++ in_quotes name ++ codes " " ++ port_name side number) ++ codes "\n" }
{
    [
        Piece::Text("graphiti: "),
        Piece::Text(word),
        Piece::Text(" \""),
        Piece::Name,
        Piece::Text("\" "),
        Piece::Text(side.word()),
        Piece::Number(number as usize),
        Piece::Text("\n"),
    ]
}

fn edge_line(place: usize, word: &'static str) -> [Piece; PIECES]
    ensures { (name : List ℕ) → bytes_of name result ≡ codes "graphiti: " ++ (codes "edge " ++ decimal place ++ codes ": " ++ word.now) ++ codes "\n" }
{
    let end = Piece::Text("");
    [
        Piece::Text("graphiti: edge "),
        Piece::Number(place),
        Piece::Text(": "),
        Piece::Text(word),
        Piece::Text("\n"),
        end,
        end,
        end,
    ]
}

fn node_line(word: &'static str) -> [Piece; PIECES]
    ensures { (name : List ℕ) → bytes_of name result ≡ codes "graphiti: " ++ (word.now ++ codes " " ++ in_quotes name) ++ codes "\n" }
{
    let end = Piece::Text("");
    [
        Piece::Text("graphiti: "),
        Piece::Text(word),
        Piece::Text(" \""),
        Piece::Name,
        Piece::Text("\"\n"),
        end,
        end,
        end,
    ]
}

/// The word of a fault.
fn fault_word(kind: GraphFaultKind) -> &'static str
    ensures { result.now ≡ fault_word kind }
{
    match kind {
        GraphFaultKind::BadName => "BadName",
        GraphFaultKind::NameTaken => "NameTaken",
        GraphFaultKind::NoKind => "NoKind",
        GraphFaultKind::UnknownKind => "UnknownKind",
        GraphFaultKind::MemoryNode => "MemoryNode",
        GraphFaultKind::MemoryPort => "MemoryPort",
        GraphFaultKind::BadPorts => "BadPorts",
        GraphFaultKind::BadOp => "BadOp",
        GraphFaultKind::BadValue => "BadValue",
        GraphFaultKind::BadFun => "BadFun",
        GraphFaultKind::BadTags => "BadTags",
        GraphFaultKind::TooMany => "TooMany",
        GraphFaultKind::UnknownNode => "UnknownNode",
        GraphFaultKind::UnknownPort => "UnknownPort",
        GraphFaultKind::PortTaken => "PortTaken",
        GraphFaultKind::ShapeDiffers => "ShapeDiffers",
        GraphFaultKind::PortOpen => "PortOpen",
    }
}

/// Whether it is told of an edge.
fn is_of_edge(kind: GraphFaultKind) -> bool
    ensures { result ≡ is_of_edge kind }
{
    match kind {
        GraphFaultKind::UnknownNode
        | GraphFaultKind::UnknownPort
        | GraphFaultKind::PortTaken
        | GraphFaultKind::ShapeDiffers => true,
        GraphFaultKind::BadName
        | GraphFaultKind::NameTaken
        | GraphFaultKind::NoKind
        | GraphFaultKind::UnknownKind
        | GraphFaultKind::MemoryNode
        | GraphFaultKind::MemoryPort
        | GraphFaultKind::BadPorts
        | GraphFaultKind::BadOp
        | GraphFaultKind::BadValue
        | GraphFaultKind::BadFun
        | GraphFaultKind::BadTags
        | GraphFaultKind::TooMany
        | GraphFaultKind::PortOpen => false,
    }
}
