//! Worked examples of circuits: the definitions of the crate `circuits` are met where they should be, and refuse where they
//! should refuse.
//!
//! - `specs/LoneWire.antt`: an Entry wired to an Exit. It shows a token that is fed and then taken, and drains tokens to
//!   themselves.
//! - `specs/LoneTagger.antt`: a Tagger with an Entry or an Exit at each port. It gives results in the order of the tokens.
//! - `specs/LoneInit.antt`: an Init with a Buffer behind it. Its value has passed the Buffer at rest, and leaves before what is
//!   put in.
//! - `specs/BufferLeftOut.antt`: a Buffer between an Entry and an Exit, and a rule that leaves it out. The rule matches, and what
//!   comes of it is the Entry wired to the Exit; with another shape, or a name that is taken, it does not match.
//! - `specs/Listed.antt`: the graph of a list of nodes and a list of wires. The modules `Listed`, which shows such a graph
//!   typed node by node and wire by wire, and `Deeds`, for runs that are written down, are public for further examples.
//! - `specs/Laws.antt`: what the functions below prove.
//!
//! An example is two lists:
//!
//! ```text
//! nodes = record { name = codes "in"; kind = Entry shape } ∷ record { name = codes "out"; kind = Exit shape } ∷ []
//! wires = record { source = first_port (codes "in"); target = first_port (codes "out") } ∷ []
//! ```
//!
//! and `listed nodes wires` is its graph. No other crate stands on this one.
#![tactic(auto)]

ghost use Rattle.circuit_examples.specs.Laws.{WireIsTyped, WireShowsToken, WireShowsNoOther, WireDrains, TaggerIsTyped, TaggerShowsInOrder, TaggerShowsNoOther, InitIsTyped, InitRests, InitDrains, LeavingOutIsRule, LeavingOutMatches, OldPartIsPart, LeavingOutGives, LeavingOutRefines, OtherShapeRefused, OtherShapeIsNoPart, TakenNameRefused};

use circuits::{
    dropped_is_replaced, graph_buffer_shows_nothing, graph_replacement_refines,
    graph_typed_as_circuit, one_rest, replaced_graph_as_circuit,
};

/// A wire from an Entry to an Exit shows a token that is fed and then taken, and none that is taken first.
pub fn wire_shows_tokens()
    ensures typed { WireIsTyped }
    ensures token { WireShowsToken }
    ensures no_other { WireShowsNoOther }
{
    graph_typed_as_circuit();
}

/// A wire from an Entry to an Exit drains tokens that fit to themselves, and to nothing else.
pub fn wire_drains_tokens()
    ensures { WireDrains }
{
    one_rest();
}

/// A Tagger gives out two tokens with two tags, and the results leave in their order although the second comes back first.
/// While the first is not back, none leaves.
pub fn tagger_shows_results()
    ensures typed { TaggerIsTyped }
    ensures in_order { TaggerShowsInOrder }
    ensures no_other { TaggerShowsNoOther }
{
    graph_typed_as_circuit();
}

/// The value of an Init passes the Buffer behind it at rest, and bits drain to the value followed by them, and to nothing else.
pub fn init_drains_bits()
    ensures typed { InitIsTyped }
    ensures rests { InitRests }
    ensures drains { InitDrains }
{
    graph_typed_as_circuit();
    one_rest();
}

/// The rule that leaves a Buffer out matches a Buffer between an Entry and an Exit of other names, and gives the Entry wired to the
/// Exit, which refines what was there.
pub fn rule_leaves_buffer_out()
    ensures rule { LeavingOutIsRule }
    ensures matches { LeavingOutMatches }
    ensures part { OldPartIsPart }
    ensures gives { LeavingOutGives }
    ensures refines { LeavingOutRefines }
{
    graph_typed_as_circuit();
    replaced_graph_as_circuit();
    graph_replacement_refines();
    dropped_is_replaced();
    graph_buffer_shows_nothing();
}

/// It does not match a Buffer of another shape, nor where a new node would have the name of one that stays.
pub fn rule_is_refused()
    ensures shape { OtherShapeRefused }
    ensures part { OtherShapeIsNoPart }
    ensures name { TakenNameRefused }
{}
