//! Where a reader of the text of a function stands.
use op_table::Op;

/// A numeral of a text, by what it says.
#[derive(Clone, Copy, Debug, PartialEq, Eq)]
pub(crate) enum Number {
    /// The place of a field.
    Place,
    /// The width of a literal.
    LiteralWidth,
    /// The number of a literal of this width.
    Literal(u8),
    /// The width of what an operator gives.
    OperatorWidth(Op),
    /// The place of an out.
    Out,
}

/// Where a reader stands, by what it read last.
#[derive(Clone, Copy, Debug, PartialEq, Eq)]
pub(crate) enum Spot {
    /// Nothing.
    Start,
    /// The `;`, `(` or `,` before an expression.
    Expression,
    /// So many letters of the name of an operator, which are the first of this one's.
    Name(Op, usize),
    /// What stands before a numeral.
    Numeral(Number),
    /// Digits of a numeral; `None` for a number of 2^64 or more.
    Digits(Number, Option<u64>),
    /// The `)` of an operator.
    Closed,
    /// The space behind the binds.
    Spaced,
    /// The `-` of the arrow.
    Dash,
    /// The arrow.
    Arrow,
    /// The space before an out.
    Gap,
}

/// Where a reader stands, and how many operators are open there.
#[derive(Clone, Copy, Debug, PartialEq, Eq)]
pub(crate) struct State {
    pub(crate) spot: Spot,
    pub(crate) nesting: usize,
}
