//! Local rewriting: one part of a graph in the place of another.
//!
//! - `fresh_prefix`: the least number `k` such that no node has a name that begins with `ooo_k_`, as the front of the names of new nodes.
//! - `Rule`: what a rule of local rewriting is: its word, the graph that it looks for, the graph that comes in its place, and what it owes.
//!   Contracts see a rule by names (`specs/Rule.antt`). `RuleWord` has the words.
//! - `matches`: whether a rule can be applied to a graph: the inner nodes of its left graph stand there, with the same names, kinds and
//!   wires between them, and those of its right graph find no node of their names.
//! - `replace`: applies a rule that matches: the inner nodes of its left graph go, those of its right graph come, and each input of the
//!   right graph gives one wire. The graph stays typed and refines what it was.
//! - `AtFault`, `bare_node`, `bare_copy`, `rule_graph`: what the constructors of rules share: why one has no answer, nodes without kept
//!   attributes, and the graph of a list of nodes and wires, for the two sides of a rule.
//!
//! Where nodes are named `ooo_0_in`, `ooo_1_in` and `ooo_3_in`, the least number is 2.
#![tactic(auto)]

mod fresh;
mod gone;
mod making;
mod matching;
mod named;
mod prefix;
mod replacing;
mod rule;
mod wires;
mod word;

pub use making::{AtFault, bare_copy, bare_node, rule_graph};
pub use matching::matches;
pub use prefix::fresh_prefix;
pub use replacing::{ReplaceFault, replace};
pub use rule::Rule;
pub use word::RuleWord;
