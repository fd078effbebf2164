//! The rule `tag_loop` of local rewriting: a tagged loop comes in the place of an in-order loop.
//!
//! - `TagLoop`: the rule, made by `TagLoop::at` at the six nodes of an in-order loop, with a number of tags.
//! - `tag_loop_matches`: a law of its definition: where the rule was made it matches.
//!
//! What the two loops are, and that the tagged one shows nothing that the in-order one does not, stands in the crate `tagged_loop`;
//! `docs/RULES.md` draws the rule, and `docs/MODEL.md` tells why results leave in order.
#![tactic(auto)]

mod listed;
mod sides;
mod tag_loop;

pub use subst_engine::AtFault;
pub use tag_loop::{TagLoop, tag_loop_matches};
