//! Finding loops. Today: the marks of a graph, what a loop and a fault are by the ids of nodes, and which loops lie on cycles.
//!
//! - `marks`: the Inits that ask for tags, in byte order of their names.
//! - `on_cycles`: of the loops of all marks, which lie on cycles.
//!
//! What the loop at a mark is, and what keeps a mark from having one, says the crate `loop_laws`, which also proves that a mark has
//! one answer.
#![tactic(auto)]

mod back;
mod body_cycle;
mod body_size;
mod by_name;
mod candidates;
mod choose;
mod condition;
mod cycles;
mod ends;
mod feeders;
mod fields;
mod first_condition;
mod lane_branch;
mod lanes;
mod least;
mod limits;
mod mark;
mod named;
mod node_set;
mod order;
mod root;
mod rows;
mod shape;
mod spots;
mod spread;
mod tree;
mod tree_names;
mod uneven;
mod walk;
mod weight;

pub use cycles::on_cycles;
pub use loop_laws::LoopFaultKind;
pub use mark::marks;
pub use shape::{FindFault, Lane, LoopFault, LoopShape};
