//! The tests of `pure_extract`, in a crate of their own: they are proved over its contracts, and it need not be proved again with them.
#![tactic(auto)]

#[cfg(test)]
mod drop_buffer;
#[cfg(test)]
mod graphs;
#[cfg(test)]
mod other_graphs;
#[cfg(test)]
mod trim_fork;
