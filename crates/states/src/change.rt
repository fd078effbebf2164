use port_types::Token;

/// What a firing does to the slots of its node.
#[derive(Debug, Drop)]
pub(crate) enum Change {
    /// The slots stay.
    Keep,
    /// The oldest slot goes.
    DropOldest,
    /// The slot of this tag gets its result.
    Finish(u64, Token),
    /// A newest slot with this tag is added.
    Add(u64),
}
