//! Laws of stripped graphs: what they are, and what they do.
ghost use Rattle.rewrite.specs.Stripped.{HasStripped, IsOneStripped, StrippedLeavesRings};
ghost use Rattle.rewrite.specs.Strips.{TurnsEnd, TurnsStrip};
ghost use Rattle.rewrite.specs.Behaviour.{StrippedDrains, StrippedIsRefined, StrippedRefines, StrippedTyped};

use circuits::{
    buffer_keeps_drains, graph_buffer_shows_nothing, graph_typed_as_circuit, refines_in_steps,
    refines_itself,
};

/// A typed graph has one stripped graph.
pub fn one_stripped_graph()
    ensures some { HasStripped }
    ensures one { IsOneStripped }
{}

/// The stripped graph of a graph has no Buffer but those wired to themselves.
pub fn only_rings_are_left()
    ensures { StrippedLeavesRings }
{}

/// Each node of a typed graph can have its turn, and the turns of all in the order of their names strip it.
pub fn turns_strip()
    ensures end { TurnsEnd }
    ensures strip { TurnsStrip }
{}

/// The stripped graph of a typed graph is typed, and in each surrounding circuit shows what the graph shows, no more and no less.
pub fn stripped_refines()
    ensures typed { StrippedTyped }
    ensures refines { StrippedRefines }
    ensures refined { StrippedIsRefined }
{
    refines_itself();
    refines_in_steps();
    graph_typed_as_circuit();
    graph_buffer_shows_nothing();
}

/// What a typed graph drains, by itself, its stripped graph drains to the same outputs.
pub fn stripped_drains()
    ensures { StrippedDrains }
{
    buffer_keeps_drains();
}
