//! Loops with lanes: what they drain by themselves. Definitions and laws, and no calls.
//!
//! The definitions, in `specs/`:
//!
//! - `LaneLoop`: a loop with lanes and a body of nodes, in a circuit of its own, and what its turns make of tuples.
//! - `LaneEnds`: that a circuit has no other ends than the lanes.
//! - `LoopCut`: the loop at a mark, cut out of its graph.
//! - `TurnFunction`: a function that computes the turns, and what its loop makes of whole tuples.
//! - `Laws`: what the functions below prove.
//!
//! Each function is a law: its contract cites `Laws`, and its body is empty or names the laws of lower crates that the proof needs.
#![tactic(auto)]

ghost use Rattle.lane_drains.specs.Laws.{CutLoopDrainsAreLoops, CutLoopHasLanes, CutLoopOffCycle, DrainsAreFunctionLoops, DrainsAreLoops, LaneLoopHoldsRest, LoopReplacedKeepsDrains, MarkedLoopReplacedKeepsDrains};

use fun_expr::fun_value_fits;
use loop_laws::loops_are_apart;
use op_table::value_fits;
use part_drains::replacement_keeps_drains;

/// What a loop with lanes drains by itself are the columns of tuples, one at each lane's Entry, and of what its turns make of each tuple,
/// one at each lane's Exit; and so of what the loop of a function makes of each tuple, where the function computes the turns.
pub fn lane_loop_drains()
    ensures turns { DrainsAreLoops }
    ensures function { DrainsAreFunctionLoops }
{
    value_fits();
    fun_value_fits();
}

/// The loop at a mark, cut out of its graph, is a loop with lanes.
pub fn cut_loop_has_lanes()
    ensures { CutLoopHasLanes }
{}

/// What the loop at a mark, cut out of its graph, drains are the columns of tuples and of what its turns make of each.
pub fn cut_loop_drains()
    ensures { CutLoopDrainsAreLoops }
{
    value_fits();
    fun_value_fits();
}

/// Tokens at rest run through no loop with lanes. In the place of one that lies off cycles may come each part with its ends through which
/// none run either, and which drains every list of tuples to what the loop of a function makes of them, where the function computes the
/// loop's turns: the circuit drains what it drained.
pub fn replaced_loop_keeps_drains()
    ensures rest { LaneLoopHoldsRest }
    ensures drains { LoopReplacedKeepsDrains }
{
    value_fits();
    fun_value_fits();
    replacement_keeps_drains();
}

/// A part that has the nodes of the loop at a mark lies off cycles where the loop does; so each part as above may come in the place of the
/// loop at a mark.
pub fn replaced_marked_loop_keeps_drains()
    ensures off_cycle { CutLoopOffCycle }
    ensures drains { MarkedLoopReplacedKeepsDrains }
{
    value_fits();
    fun_value_fits();
    loops_are_apart();
    replacement_keeps_drains();
}
