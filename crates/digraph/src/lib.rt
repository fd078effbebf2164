//! Finite directed graphs whose vertices are numbers, and which of their vertices lie on cycles.
//!
//! - `Digraph`: vertices from 0 on, with edges that are added one by one.
//! - `on_cycles`: for each vertex whether it lies on a cycle, in time linear in vertices and edges.
//!
//! The way is that of Kosaraju and Sharir: a walk in depth puts the vertices in the order in which it leaves them; then, from the
//! last of these to the first, all vertices that lead to one of them, and are in no group yet, make a group. Two vertices lead to one
//! another exactly where they are in one group. (M. Sharir, A strong-connectivity algorithm and its applications in data flow analysis,
//! Computers and Mathematics with Applications 7, 1981.)
#![tactic(auto)]

mod graph;
mod grouping;
mod leaving;

pub use graph::Digraph;
pub use grouping::on_cycles;
