//! Loops and faults by the ids of nodes.
ghost use Rattle.std.specs.Prelude.{◌≡◌};

use graph_core::NodeId;
use loop_laws::LoopFaultKind;
use port_types::{Items, NoMemory};

/// A lane of a loop.
#[derive(Debug, Drop, PartialEq, Eq)]
pub struct Lane {
    pub mux: NodeId,
    pub branch: NodeId,
    /// The Buffers from the Branch back to the Mux, from the Branch forward.
    pub back: Items<NodeId>,
}

/// The loop at a mark.
#[derive(Debug, Drop, PartialEq, Eq)]
pub struct LoopShape {
    pub mark: NodeId,
    /// How many tags the mark asks for, from 1 to 256.
    pub tags: u16,
    /// The bit, 0 or 1, on which the loop goes on with another turn.
    pub back_bit: u8,
    /// The Forks and Buffers that lead the mark's bit to the lanes, by name.
    pub tree: Items<NodeId>,
    /// By the names of the Muxes.
    pub lanes: Items<Lane>,
    /// Again and again the least by name whose inputs from the body are all placed.
    pub body: Items<NodeId>,
}

/// What keeps a mark from having a loop, and at which node.
#[derive(Clone, Copy, Debug, PartialEq, Eq)]
pub struct LoopFault {
    pub mark: NodeId,
    pub kind: LoopFaultKind,
    pub node: NodeId,
}

/// Why no loop was found.
#[derive(Clone, Copy, Debug, PartialEq, Eq)]
pub enum FindFault {
    Loop(LoopFault),
    NoMemory,
}
