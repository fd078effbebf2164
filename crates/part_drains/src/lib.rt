//! What a circuit drains, with a part of it replaced: definitions and laws, and no calls.
//!
//! The definitions, in `specs/`:
//!
//! - `Part`: what lies behind a part of a circuit, and what it means to keep drains. `Order`: nodes that may fire late.
//! - `Passing`: what a part passes by itself, and in any state of a circuit in which nothing stands inside it.
//! - `SingleNodes`: parts that are one node, or a Pure and the Split behind it.
//! - `Laws`: what the functions below prove.
//!
//! Each function is a law: its contract cites `Laws`, and its body names the laws of lower crates that the proof needs.
#![tactic(auto)]

ghost use Rattle.part_drains.specs.Laws.{GraphListsNodes, NodeReplacementKeepsDrains, OffCycleFiresLast, PairReplacementKeepsDrains, PartPassesAnywhere, ReplacedHasPorts, ReplacementKeepsDrains};

use fun_expr::fun_value_fits;
use op_table::value_fits;

/// The nodes of a graph by names can be listed; and where no walk outside a part leads from an output of it back to an input, and the
/// circuit's nodes can be listed, it can be told which nodes may fire after the part.
pub fn off_cycle_fires_last()
    ensures lists { GraphListsNodes }
    ensures tells { OffCycleFiresLast }
{}

/// A circuit with a part replaced has the Entries and Exits that it had; and where the part lies off cycles and the new one drains what
/// the part drains, the circuit drains what it drained.
pub fn replacement_keeps_drains()
    ensures ports { ReplacedHasPorts }
    ensures drains { ReplacementKeepsDrains }
{
    value_fits();
    fun_value_fits();
}

/// On cycles too: a node without slots, or a Pure and the Split behind it, may be replaced by a part that drains what it drains.
pub fn node_replacement_keeps_drains()
    ensures one { NodeReplacementKeepsDrains }
    ensures pair { PairReplacementKeepsDrains }
{
    value_fits();
    fun_value_fits();
}

/// What a part without an Init passes by itself it passes in any circuit that has it, in each state in which nothing stands inside it.
pub fn part_passes_anywhere()
    ensures { PartPassesAnywhere }
{}
