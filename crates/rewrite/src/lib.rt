//! Rewriting of whole graphs. Today: stripping, which drops the Buffers.
//!
//! - `strip`: the stripped graph of a typed graph. The Buffers are dropped one after the other in byte order of their names,
//!   each unless it is wired to itself at its turn: so a ring made of Buffers alone leaves the one with the greatest name.
//! - `one_stripped_graph`, `only_rings_are_left`, `turns_strip`: laws of the definition. A typed graph has one stripped graph,
//!   its only Buffers are wired to themselves, and the turns of all nodes in order lead to it.
//! - `stripped_refines`, `stripped_drains`: laws of what it does. A stripped graph is typed, shows in each surrounding circuit
//!   what the graph shows, no more and no less, and drains to the same outputs what the graph drains.
//!
//! What the stripped graph is says `specs/Stripped.antt`, by names and wires alone; `specs/Strips.antt` has the turns, and
//! `specs/Behaviour.antt` what it does as a circuit.
//!
//! Of an Entry that feeds a Buffer that feeds an Exit the stripped graph is the Entry wired to the Exit.
#![tactic(auto)]

mod laws;
mod stripping;

pub use laws::{
    one_stripped_graph, only_rings_are_left, stripped_drains, stripped_refines, turns_strip,
};
pub use stripping::strip;
