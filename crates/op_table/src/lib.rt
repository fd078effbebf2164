//! The operators of the format: their names, the widths that they take and give, and what they compute.
//!
//! - `Op`: the 28 operators.
//! - `op_name`, `short_name`: the names in a graph and in a function; `op_of`, `op_of_short`: the operator of a name.
//! - `MAX_WIDTH`: the greatest width of a field, in bits.
//! - `typed_op`: whether an operator takes and gives these widths.
//! - `apply`: what an operator computes, exactly the table of `specs/Value.antt`.
//! - The other functions do nothing: their contracts are laws of the table, for callers whose proofs need them.
//!
//! No call takes memory, and none fails.
#![tactic(auto)]

mod arithmetic;
mod bitwise;
mod laws;
mod op;
mod shift;
mod typing;
mod value;
mod word;

pub use laws::{
    digits_by_place, names_differ, readings_come_back, shifts_round_down, signed_division,
    sums_come_back, tests_are_the_table, typed_widths_are_few, unsigned_division, value_fits,
    widths_come_back,
};
pub use op::{Op, op_name, op_of, op_of_short, short_name};
pub use typing::{MAX_WIDTH, typed_op};
pub use value::apply;
