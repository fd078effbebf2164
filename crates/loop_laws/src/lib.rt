//! The loop at a mark, as definitions, and laws about it. There are no calls here.
//!
//! A mark is an Init that asks for tags. It leads its bit through a tree of Forks and Buffers to the selects of Muxes, which are
//! the lanes of its loop; behind them lies a body of nodes without choice, which leads to a Branch for each lane, and from each
//! Branch a back path of Buffers leads to the lane's Mux. The body also has the nodes that feed it constants, and nothing else.
//!
//! The definitions, in `specs/`:
//!
//! - `Polarity`: marks, the bit on which a loop goes on with another turn, and the ports of Muxes and Branches that follow from it.
//! - `Reached`, `BackPath`, `Feeders`: what is reached from a mark, the Branch of a lane, and the nodes that feed a loop constants.
//! - `BodyOrder`, `Weight`: the order of a body, and its weight.
//! - `Loop`: the loop at a mark, its nodes, its fresh inputs and its exits.
//! - `Faults`: the table of what keeps a mark from having a loop, row by row, each row with its node; and the first that holds.
//! - `OffCycle`: loops that no walk leads from their exits back to their fresh inputs.
//! - `Laws`: the laws that the functions below prove.
//!
//! Sets of nodes are relations, and the loop is a value of lists that are tied to them, so that the value is determined.
//! A function that finds loops answers a loop of which `LoopAt` holds, or a kind and a node of which `Fault` holds; the laws then
//! say that it could not have answered anything else.
#![tactic(auto)]

ghost use Rattle.loop_laws.specs.Laws.{LoopIsOne, LoopsShareNone, LoopHasNoRow, LoopHasNoFault, FaultIsOne};

use circuits::one_root;

mod fault;

pub use fault::LoopFaultKind;

/// A mark has at most one loop, and loops of different marks share no node.
pub fn loops_are_apart()
    ensures one { LoopIsOne }
    ensures apart { LoopsShareNone }
{}

/// A mark with a loop has no fault of the table, and a mark has at most one fault, at one node.
pub fn faults_are_exact()
    ensures row { LoopHasNoRow }
    ensures none { LoopHasNoFault }
    ensures one { FaultIsOne }
{
    one_root();
}
