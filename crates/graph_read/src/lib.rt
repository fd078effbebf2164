//! Graphs of documents: the graph that the statements of a document say, or the first thing that is wrong with it.
//!
//! - `graph_of`: the graph of a document, or its first refusal.
//! - `GraphRefusal`: what is refused and where; `GraphFaultKind`: why.
//! - `rows_are_met`, `rows_read_back`, `numbers_read_back`, `read_graphs_are_typed`: laws of what is read.
//!
//! Of `digraph { a [type=Entry, out="out1:8"] z [type=Exit, in="in1:8"] a -> z [from=out1, to=in1] }` the graph has two
//! nodes and a wire; without its edge it is refused: `PortOpen` at place 1, for the first output of `a`.
#![tactic(auto)]

mod attribute_rows;
mod attributes;
mod edges;
mod fault;
mod graph;
mod kept;
mod laws;
mod node;
mod nodes;
mod open;
mod plain_rows;
mod rows;
mod shapes;

pub use fault::{GraphFault, GraphFaultKind, GraphRefusal};
pub use graph::graph_of;
pub use laws::{numbers_read_back, read_graphs_are_typed, rows_are_met, rows_read_back};
