//! Rules of local rewriting: small parts of a graph that give way to less.
//!
//! - `DropBuffer`: the rule `drop_buffer`, made by `DropBuffer::at`: a Buffer, or a Fork of one output, is left out, and what fed it feeds
//!   what it fed.
//! - `drop_buffer_is_sound`, `drop_buffer_leaves_out`: laws of its definition. The rule meets what a rule owes; where it was made it
//!   matches, and what comes of it is the graph without the node.
//! - `TrimFork`: the rule `trim_fork`, made by `TrimFork::at`: a Fork of the other outputs comes in the place of a Fork and a Sink that one
//!   of its outputs feeds. `trim_fork_is_sound`, `trim_fork_matches`: laws of its definition.
//! - `SplitJoin`: the rule `split_join`, made by `SplitJoin::at`: a Split whose outputs are joined again in their order gives way to a wire.
//!   `split_join_is_sound`, `split_join_matches`: laws of its definition.
//! - `AtFault`, of `subst_engine`: why a constructor has no rule.
//!
//! Each rule has its code, one file of definitions in `specs/`, and one folder of proofs. `docs/RULES.md` says what the rules do, and how
//! to add one.
//!
//! Where an Entry `a` feeds a Buffer `b` that feeds an Exit `z`, `DropBuffer::at(alloc, &g, 0, b"b")` is the rule that puts an Entry `in`
//! wired to an Exit `out` in the place of `in`, `b` and `out` in a row; `replace` of `subst_engine` with it leaves `a` wired to `z`.
#![tactic(auto)]

mod drop_buffer;
mod split_join;
mod split_join_sides;
mod trim_fork;
mod trim_fork_sides;

pub use drop_buffer::{DropBuffer, drop_buffer_is_sound, drop_buffer_leaves_out};
pub use split_join::{SplitJoin, split_join_is_sound, split_join_matches};
pub use subst_engine::AtFault;
pub use trim_fork::{TrimFork, trim_fork_is_sound, trim_fork_matches};
