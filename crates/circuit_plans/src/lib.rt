//! The proof method for parts whose nodes are the values of a type: definitions and lemmas, and no calls.
//!
//! - `specs/Plans`: a plan is a circuit over a type of nodes: the kind of each, and what feeds each input. Under names it stands for a
//!   circuit (`built`). `specs/Drawing`: the graph by names of a list of nodes and a list of wires (`drawn`).
//! - `proofs/`, whose modules are public: steps of plans, and what the author of a rule shows of two of them (`Plans`, `PlanAfter`);
//!   when a plan is typed, and when two have the same ports (`PlanTyped`); names that name a plan (`Namings`); that the graph which draws
//!   a plan has the plan's circuit (`Drawn`).
//!
//! `docs/PROOFS.md` tells how a rule is proved by plans; the crate `tagged_loop` is one that is.
#![tactic(auto)]
