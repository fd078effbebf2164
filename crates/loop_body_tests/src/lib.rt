//! The tests of `loop_body`, in a crate of their own: they are proved over its contracts, and it need not be proved again with them.
#![tactic(auto)]

#[cfg(test)]
mod functions;
#[cfg(test)]
mod limits;
#[cfg(test)]
mod lists;
#[cfg(test)]
mod refused;
#[cfg(test)]
mod wires;
