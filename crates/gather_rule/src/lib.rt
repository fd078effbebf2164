//! The rule `gather` of local rewriting: one Pure, with the function of a body, comes in the place of the Split and the nodes of the body
//! of a loop.
//!
//! - `Gather`: the rule, made of a Split's name and a body by `Gather::of`; `Gather::body` is the body that it takes the place of.
//! - `gather_is_sound`, `gather_matches`: laws of its definition. The rule is not made at nodes of a graph yet.
//!
//! `docs/RULES.md` draws the rule.
#![tactic(auto)]

mod gather;
mod lanes;
mod laws;
mod lists;
mod sides;

pub use gather::Gather;
pub use laws::{gather_is_sound, gather_matches};
