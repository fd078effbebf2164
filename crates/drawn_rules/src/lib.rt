//! What rules whose sides are drawn share: the parts of a rule are drawings of the crate `circuit_plans`, a list of nodes and a list of
//! wires, and this is how they come to be graphs in memory.
//!
//! - `entry_name`, `exit_name`: names for the Entry and the Exit of a rule, which none of its listed nodes has.
//! - `are_nodes`, `node_at`, `kind_at`: listed nodes of a graph. `copies`: one shape several times; `joined_shape`: shapes joined to one;
//!   `bit_shape`: that of a bit.
//! - `new_name`: the name of a new node, a prefix and a word. `push_listed`, `push_new`, `push_end`, `push_ends`, `push_wires`: the nodes and
//!   wires of a side, one behind the other or in rows.
//! - `specs/Placed`: where the nodes of one drawing stand in a graph, so that another can come in their place (`IsPlaced`), in the words in
//!   which rules say what an instance is. `specs/Sides`: nodes and wires of a drawing as `rule_graph` of `subst_engine` takes them.
//! - `proofs/`, whose modules are public, as those of `circuit_plans`: a drawing matches exactly where its nodes stand (`Drawings`); the
//!   graph of a drawing can be made, and is the drawing (`DrawnMade`), also by labels (`Labelled`); the places of families of nodes
//!   (`Places`); nodes of typed graphs (`GraphNodes`); names that are allowed
//!   and differ (`NewNames`, `NamesApart`).
#![tactic(auto)]

mod end_names;
mod listed;
mod new_names;
mod nodes;
mod row_ends;
mod rows;
mod shapes;

pub use end_names::{entry_name, exit_name};
pub use listed::{are_nodes, kind_at, node_at};
pub use new_names::new_name;
pub use nodes::{push_end, push_listed, push_new};
pub use row_ends::{EndKind, end_node, push_ends};
pub use rows::{Row, push_wires};
pub use shapes::{bit_shape, copies, joined_shape};
