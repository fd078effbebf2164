//! What the constructors of rules share: why one has no answer, and graphs of a few nodes and wires.
ghost use Rattle.std.specs.Prelude.{◌≡◌, IfOk};
ghost use Rattle.subst_engine.specs.Making.{CanMake, bare_node, rule_graph};

use crate::fresh::copy_kind;
use components::{Kind, Node};
use graph_core::{End, Graph, NodeId};
use port_types::{Items, NoMemory, Text};
use std::alloc::Global;

/// Why there is no rule at some nodes of a graph.
#[derive(Clone, Copy, Debug, PartialEq, Eq)]
pub enum AtFault {
    /// The nodes are no instance of the rule.
    NoInstance,
    NoMemory,
}

impl From<NoMemory> for AtFault {
    ghost use Rattle.std.specs.Prelude.{◌≡◌};
    ghost use Rattle.subst_engine.specs.declared.making.AtFault.TheVariants as fault;

    ghost from_gives = { λ _ given. given ≡ fault.NoMemory };

    fn from(_: NoMemory) -> AtFault {
        AtFault::NoMemory
    }
}

/// The node without kept attributes. Takes no memory.
pub fn bare_node(alloc: Global, name: Text, kind: Kind) -> Node
    ensures { result ≡ bare_node name kind }
{
    let kept = Items::new(Vec::new(alloc));
    Node { name, kind, kept }
}

/// A node of the same name and kind without kept attributes. The only error is want of memory.
pub fn bare_copy(alloc: Global, node: &Node) -> Result<Node, NoMemory>
    ensures { IfOk result (λ copy. copy ≡ bare_node node.now.name node.now.kind) }
{
    let name = node.name.clone()?;
    let kind = copy_kind(&node.kind)?;
    Ok(bare_node(alloc, name, kind))
}

/// The graph of these nodes and wires, for the sides of a rule: an end `End::Fresh(i, port)` is the port of the node at place `i`.
/// The only error is want of memory.
pub fn rule_graph(alloc: Global, nodes: Vec<Node>, wires: &[(End, End)]) -> Result<Graph, NoMemory>
    requires { CanMake nodes.items wires.now }
    ensures { IfOk result (λ made. made.graph ≡ rule_graph nodes.items wires.now) }
{
    let none: [NodeId; 0] = [];
    let mut made = Graph::new(alloc);
    made.exchange(none.as_slice(), nodes, wires)?;
    Ok(made)
}
