use graph_core::NodeId;

/// Joins an Exit of one graph to an Entry of another.
#[derive(Clone, Copy, Debug, PartialEq, Eq)]
pub struct Link {
    /// Whether the Exit is one of the surrounding graph, and the Entry one of the other; else it is the other way round.
    pub outer_exit: bool,
    pub exit: NodeId,
    pub entry: NodeId,
}
