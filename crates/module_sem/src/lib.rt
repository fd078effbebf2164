//! What graphs in memory mean. Today: plugging, which puts a graph into a surrounding one.
//!
//! - `Link`: joins an Exit of one of two graphs to an Entry of the other, by their ids.
//! - `can_plug`: whether links can plug a graph into a surrounding one. It takes no memory.
//! - `plug`: the plugged graph. All nodes and wires of both are in it; each linked Exit is a Buffer of its name and shape, with the
//!   attributes that it kept, and feeds what the linked Entry fed, and the Entry is gone.
//! - `circuits_can_plug`: a law. Where graphs can be plugged, their circuits can, so that the laws of plugged circuits speak of them.
//!
//! When links can plug graphs says `specs/GraphLinks.antt`; what the plugged graph is says `specs/PluggedGraph.antt` of `circuits`, by names:
//! its circuit is the plugged circuit (`plugged_graph_as_circuit` there).
//!
//! Of an Entry `u` wired to an Exit `v`, with an Entry `a` wired to an Exit `z` plugged in by a link from `v` to `a`, the plugged graph is
//! `u`, a Buffer `v` and `z`, wired in this order.
#![tactic(auto)]

mod beside;
mod conditions;
mod laws;
mod link;
mod linking;
mod plugging;
mod standing;

pub use conditions::can_plug;
pub use laws::circuits_can_plug;
pub use link::Link;
pub use plugging::plug;
