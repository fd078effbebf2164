//! The table of components: what a node is, what it has at its ports, and how its kind is called.
//!
//! - `Kind`: the components with the shapes of their ports; `kind_ok`, `inputs`, `outputs`, `port_count`, `has_port`, `have_one_shape`
//!   and `port_shape` read the table of their ports, and `owns` tells the attributes of each.
//! - `Component`: the rows of the table; `component_at` is that of a kind, `word_of` its word, and `component_of` finds it by its word.
//! - `Node`: a name, a kind, and the attributes that are kept as texts; `is_name` tells what a name is, `kept_by_key` gives the attributes
//!   that a node keeps of pairs, in the order of keys, and `same_kind` and `same_body` compare kinds, and nodes apart from their names.
//! - `specs/NamedGraph.antt`: graphs by names, which the contracts of graphs in memory speak of: one map from names to nodes, one from
//!   input ports to the outputs that feed them.
//! - `specs/Orders.antt`, `Lookups.antt`, `Wired.antt`: laws of names, of finite maps by names and by ports, and of wires.
#![tactic(auto)]

mod component;
mod fields;
mod kept;
mod kind;
mod laws;
mod name;
mod node;
mod owned;
mod port_shapes;
mod same;

pub use component::{Component, component_at, component_of, word_of};
pub use kept::kept_by_key;
pub use kind::{Kind, inputs, kind_ok, outputs, port_count};
pub use laws::{ports_are_shapes, words_read_back};
pub use name::is_name;
pub use node::Node;
pub use owned::owns;
pub use port_shapes::{has_port, have_one_shape, port_shape};
pub use same::{same_body, same_kind};
