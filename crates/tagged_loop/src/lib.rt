//! The in-order loop, the tagged loop in its place, and the ring of a tagged loop: definitions and laws, and no calls.
//!
//! The definitions, in `specs/`:
//!
//! - `LoopFunction`: the functions that a loop may have.
//! - `InOrderLoop`, `TaggedLoop`: the graphs of the two loops between an Entry and an Exit, as a table of kinds and a table of wires.
//! - `Ring`: the five nodes of a tagged loop that tuples with tags go through, in any circuit; that their tags are apart, and that
//!   tuples overlap.
//! - `Laws`: what the functions below prove.
//!
//! Each function is a law: its contract cites `Laws`, and its body is empty or names the laws of lower crates that the proof needs.
//! `docs/MODEL.md` tells why results leave a tagged loop in order.
#![tactic(auto)]

ghost use Rattle.tagged_loop.specs.Laws.{InOrderDrainsAreLoops, JoinedRingOverlaps, LoopsAreInOrderDrains, LoopsAreTaggedDrains, PluggedHasRing, RingOverlaps, RingTagsApart, TaggedLoopHasRing, TaggedLoopRefines, TaggingIsRule, TaggingKeepsDrains};

use circuits::graph_typed_as_circuit;
use fun_expr::fun_value_fits;
use op_table::value_fits;

/// For every function of a loop, every number of tags from 1 to 256 and whichever condition leads back, the tagged loop may come in the
/// place of the in-order loop, and shows nothing that the in-order loop does not show, in no surrounding circuit.
pub fn tagged_loop_refines()
    ensures rule { TaggingIsRule }
    ensures refines { TaggedLoopRefines }
{
    value_fits();
    fun_value_fits();
    graph_typed_as_circuit();
}

/// What the in-order loop drains are lists of tuples and of what its function loops to, one after another, and it drains all of them.
pub fn in_order_loop_drains()
    ensures only { InOrderDrainsAreLoops }
    ensures all { LoopsAreInOrderDrains }
{
    fun_value_fits();
}

/// The tagged loop drains each list of tuples to what its function loops to, so it drains what the in-order loop drains.
pub fn tagged_loop_drains()
    ensures all { LoopsAreTaggedDrains }
    ensures kept { TaggingKeepsDrains }
{
    fun_value_fits();
}

/// A tagged loop has a ring, and a circuit with a ring keeps it in each surrounding circuit.
pub fn ring_stands()
    ensures alone { TaggedLoopHasRing }
    ensures plugged { PluggedHasRing }
{}

/// In each state that a circuit reaches, the tokens on the five wires of a ring have different tags, each that of a slot without a
/// result, and are at most as many as there are tags.
pub fn ring_tags_are_apart()
    ensures { RingTagsApart }
{
    value_fits();
    fun_value_fits();
}

/// Where no slot is taken and so many tokens wait before the Tagger, or at each input of a Join that feeds it, some firings lead to as
/// many slots without results, up to the number of tags.
pub fn ring_overlaps()
    ensures alone { RingOverlaps }
    ensures behind_join { JoinedRingOverlaps }
{}
