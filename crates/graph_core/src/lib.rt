//! Graphs in memory: nodes with different names, and wires from outputs to inputs of equal shape.
//!
//! Contracts see a `Graph` by names (`specs/GraphValue.antt`): one finite map from names to nodes, one from input ports to the outputs
//! that feed them, one from the ids of live nodes to their names, and how many slots for nodes there are. An id says only which node it
//! denotes, and stays with this node; `port_of` is a port by the name of its node, also where the id is of no live node.
//!
//! - `Graph`: `new`, `add_node`, `add_wire`, `remove_node` and `copy`; `exchange` puts nodes in the places of others, with their wires, in
//!   one call, and leaves the graph as it was where memory is wanting. `node`, `find`, `wire_into`, `wire_from`, `slots`, `id_at` and
//!   `by_name` read it. Each clause is exact: what a call answers, when each error comes, and what the graph is afterwards.
//! - `source_of` and `target_of` tell the other end of a wire in a typed graph, and `join` adds a wire that can be added: these cannot fail.
//! - `is_graph` is the law of what every graph is. `specs/Ids.antt` and `Denoting.antt` have laws of ids, and of ports by names.
//! - `check_typed`: whether each port stands on a wire, and else the first that does not. `same_graph`: whether two graphs are the same
//!   by names, whatever their ids and the order of kept attributes.
//!
//! Inside, the nodes stand in slots, each with what stands at the other end of each of its ports (`cells`, `ends`). Free slots are a
//! chain through the slots, and the next node takes the first of them: there are never more slots than nodes were live at once. Names
//! lead to ids through a table (`names`).
//!
//! Of three nodes that were added in turn the second is removed: a fourth then has index 1, and there are three slots.
#![tactic(auto)]

mod arena;
mod by_name;
mod cells;
mod ends;
mod exchange;
mod graph;
mod names;
mod open;
mod place;
mod same;
mod steps;
mod typed;

pub use exchange::End;
pub use graph::{AddNode, AddWire, Graph, PortOpen};
pub use open::check_typed;
pub use place::{NodeId, PortAt};
pub use same::same_graph;
