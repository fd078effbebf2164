//! What keeps a mark from having a loop.

/// The rows of the table of faults, in its order; the last is judged after the table, over all marks.
#[derive(Clone, Copy, Debug, PartialEq, Eq)]
pub enum LoopFaultKind {
    /// A wire from the mark or its tree enters something other than a tree node or the select of a Mux.
    SelectLeaf,
    /// What is reached from the lanes is no Buffer, Fork, Join, Split, Operator, Constant, Pure or Sink.
    NotPure,
    /// A body node has an input that comes neither from a lane nor from the body.
    ForeignInput,
    /// A body node lies on a cycle of the body.
    BodyCycle,
    /// The body has more than 4,096 nodes, or a weight above 16,384.
    BodyTooBig,
    /// A lane's back input comes, through Buffers alone, from something other than the back output of a Branch.
    BackPath,
    /// A wire from a lane or the body enters a Branch that is no lane's, or a lane's Branch has an input that comes neither from a lane nor from the body.
    LanesUneven,
    /// The conditions of the lanes' Branches and what feeds the mark do not have one root.
    ConditionRoot,
    /// The condition comes from a feeder.
    FreeCondition,
    /// The data of every lane comes from a feeder.
    FreeData,
    /// There are more than 62 lanes.
    TooManyLanes,
    /// The lanes have more than 127 fields together.
    TooWide,
    /// A walk leads from an exit of the loop back to a fresh input of it.
    OnCycle,
}
