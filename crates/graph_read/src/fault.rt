//! Why a document has no graph, and why one of its statements gives no node or no wire.
ghost use Rattle.std.specs.Prelude.{◌≡◌};
ghost use Rattle.graph_read.specs.GraphSteps.{IsFaultAt};
ghost use Rattle.graph_read.specs.declared.fault.StatementFault.TheVariants.{NoMemory};

use port_types::{NoMemory, Side, Text};
use std::alloc::{AllocError, AllocFailed, Global};

/// Why a document is no graph. For each node in the order of the file the first that holds counts, up to `TooMany`; then for each edge, up to `ShapeDiffers`; then `PortOpen`.
#[derive(Clone, Copy, Debug, PartialEq, Eq)]
pub enum GraphFaultKind {
    /// The name is empty, longer than 255 bytes, or holds a byte below 33, a double quote or a backslash.
    BadName,
    /// An earlier node has the name.
    NameTaken,
    /// There is no `type`.
    NoKind,
    /// The `type` is no word of the table of components.
    UnknownKind,
    /// The `type` is `MC` or `LSQ`: a node of a memory.
    MemoryNode,
    /// A word of `in` or `out` holds `*`: a port to a memory.
    MemoryPort,
    /// A text of ports is none, or the ports are not those of the kind's row.
    BadPorts,
    /// The `op` of an Operator is absent or no operator, or takes or gives other widths.
    BadOp,
    /// The `value` of a Constant is absent or no number below 2^64, or that of an Init is no number or above 1.
    BadValue,
    /// The `fun` of a Pure is absent, no function, or gives another shape.
    BadFun,
    /// The `ooo` of an Init or the `tags` of a Tagger is no number from 1 to 256, `tags` is absent, or its tags want another width.
    BadTags,
    /// It is the 65,537th node.
    TooMany,
    /// An end of the edge is no node.
    UnknownNode,
    /// `from` or `to` is absent or names no port.
    UnknownPort,
    /// One of the ports is on a wire already.
    PortTaken,
    /// The shapes of the ports differ.
    ShapeDiffers,
    /// A port is on no wire.
    PortOpen,
}

/// What is refused first.
#[derive(Debug, Drop)]
pub struct GraphRefusal {
    pub kind: GraphFaultKind,
    /// The place of the node or edge among those of the document, counted from 1.
    pub place: usize,
    /// The name of the node, or of the edge's target.
    pub name: Text,
    /// The port, exactly for `PortOpen`.
    pub port_open: Option<(Side, u8)>,
}

/// Why a document has no graph.
#[derive(Debug, Drop)]
pub enum GraphFault {
    Refused(GraphRefusal),
    NoMemory,
}

/// Why a statement gives no node or no wire.
#[derive(Clone, Copy, Debug, PartialEq, Eq)]
pub(crate) enum StatementFault {
    Refused(GraphFaultKind),
    NoMemory,
}

impl From<NoMemory> for StatementFault {
    ghost from_gives = { λ _ fault. fault ≡ NoMemory };

    fn from(_: NoMemory) -> StatementFault {
        StatementFault::NoMemory
    }
}

impl From<AllocError> for StatementFault {
    ghost from_gives = { λ _ fault. fault ≡ NoMemory };

    fn from(_: AllocError) -> StatementFault {
        StatementFault::NoMemory
    }
}

impl<T: Drop> From<AllocFailed<T>> for StatementFault {
    ghost from_gives = { λ _ fault. fault ≡ NoMemory };

    fn from(_: AllocFailed<T>) -> StatementFault {
        StatementFault::NoMemory
    }
}

/// The fault of the node or edge at this place, counted from 1; the name is that of the node, or of the edge's target.
pub(crate) fn refusal_at(
    alloc: Global,
    fault: StatementFault,
    place: usize,
    name: &Text,
) -> GraphFault
    ensures { IsFaultAt fault place name.now result }
{
    let StatementFault::Refused(kind) = fault else {
        return GraphFault::NoMemory;
    };
    match name.clone() {
        Ok(name) => GraphFault::Refused(GraphRefusal {
            kind,
            place,
            name,
            port_open: None,
        }),
        Err(_) => GraphFault::NoMemory,
    }
}
