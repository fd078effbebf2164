//! The canonical text of a graph: its nodes in the byte order of their names, and then its wires.
//!
//! - `text_of`: the canonical text.
//!
//! A node stands on a line, as `"a" [type = "Entry", out = "out1:8"];`, and so does a wire, as
//! `"a" -> "z" [from = "out1", to = "in1"];`.
#![tactic(auto)]

mod document;
mod edge_entry;
mod kept;
mod kinds;
mod node_entry;
mod ports;
mod printer;
mod texts;

pub use printer::text_of;
