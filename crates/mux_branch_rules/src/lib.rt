//! Rules of local rewriting by which the nodes of several lanes give way to one node between a Join and Splits.
//!
//! - `BranchCombine`: the rule `branch_combine`, made by `BranchCombine::at`: one Branch comes in the place of the Branches of several lanes
//!   and the Fork that leads one condition to them. `BranchCombine0`: the same for loops that go back on condition 0; of its two new
//!   Splits each has the name that the other has there.
//! - `branch_combine_is_sound`, `branch_combine_matches`: laws of their definition.
//! - `mux_combine_is_sound`, `mux_combine_matches`: laws of the definition of the rules `mux_combine` and `mux_combine0`, by which one Mux
//!   comes in the place of the Muxes of several lanes and the tree that leads one select to them. They are not made at nodes of a graph yet.
//!
//! That what comes shows nothing that what goes does not is a law of the crate `lane_laws`; `docs/RULES.md` draws the rules.
#![tactic(auto)]

mod branch_combine;
mod branch_lists;
mod branch_sides;
mod combined;
mod lanes;
mod mux_combine;
mod mux_listed;
mod mux_lists;
mod mux_sides;
mod mux_tree;

pub use branch_combine::{
    BranchCombine, BranchCombine0, branch_combine_is_sound, branch_combine_matches,
};
pub use mux_combine::{mux_combine_is_sound, mux_combine_matches};
pub use subst_engine::AtFault;
