//! Bodies of loops: what they compute at a tuple, and the function that computes it at once.
//!
//! - `Body`: a Split of the lanes, nodes in an order in which each takes from the Split or from earlier ones, the producers of the data
//!   wires, and those of the condition wires, which have one root. `Body::new` makes one, or says that the lists are none.
//!   `BodyPort`: an output in a body, as its node and port.
//! - `body_fun`: the function of a body. It takes the fields of the lanes, and gives those of the data wires and the condition.
//! - The other functions do nothing: their contracts are laws, for callers whose proofs need them. `one_turn`: what a body computes;
//!   `function_computes_turn`: that its function computes the same, is typed, and is no larger than the weight of the body;
//!   `function_loops`: that a loop with the body and the loop of its function make the same; `gcd_has_its_function`: a worked example.
#![tactic(auto)]

mod binds;
mod body;
mod body_port;
mod different;
mod fitting;
mod function;
mod judging;
mod kinds;
mod laws;
mod marks;
mod named;
mod node_row;
mod roots;
mod row;
mod table;
mod wired;

pub use body::{Body, BodyFault};
pub use body_port::BodyPort;
pub use function::body_fun;
pub use laws::{function_computes_turn, function_loops, gcd_has_its_function, one_turn};
