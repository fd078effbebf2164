//! States of graphs in memory: the tokens on each wire of a graph, and the slots of its Taggers.
//!
//! - `start`: the state in which each Init has its value behind it, and no other token is there and no slot.
//! - `State`: `queued`, `token` and `slot_count` read a state, and `enabled` tells whether a node can fire with a choice; `fire` fires it, `feed` puts a token in at an Entry, and `take` takes one out at an Exit.
//!
//! Contracts see a `State` by the indices of nodes; `state_of` of `specs/GraphState.antt` is the state by names that it stands for, of which the definitions of `circuits` speak.
//! `IsStateIn` says that it is a state of the graph: the calls ask for it and keep it.
#![tactic(auto)]

mod change;
mod firing;
mod giving;
mod kind;
mod laws;
mod place;
mod queue;
mod ready;
mod slot;
mod starting;
mod state;
mod taking;

pub use starting::start;
pub use state::State;
