//! The nodes that come into a graph where a rule is applied.
ghost use Rattle.std.specs.Prelude.{◌≡◌, ◌<◌, Some, true, IfOk, MatchOption, length};
ghost use Rattle.circuits.specs.ReplacedGraph.{has_inner};
ghost use Rattle.components.specs.Name.{Name};
ghost use Rattle.graph_core.specs.Exchange.{end_port};
ghost use Rattle.graph_core.specs.GraphValue.{IsNodeAt, name_by, port_of};
ghost use Rattle.graph_core.specs.Place.{id_of};
ghost use Rattle.subst_engine.specs.PartLists.{ArePlaced, FreshBelow, IsAtPlace, IsInnerAt};

use crate::named::is_inner;
use components::{Kind, Node};
use graph_core::{End, Graph, PortAt};
use port_types::{Items, NoMemory, Text};
use std::alloc::Global;

/// The new nodes, and under each index of the right graph the place of its node among them.
#[derive(Drop)]
pub(crate) struct Fresh {
    pub(crate) nodes: Vec<Node>,
    pub(crate) places: Vec<usize>,
}

/// Nodes equal to the inner nodes of `right`. The only error is want of memory.
pub(crate) fn fresh_nodes(alloc: Global, right: &Graph) -> Result<Fresh, NoMemory>
    ensures nodes { IfOk result (λ fresh. FreshBelow right.now right.now.slots fresh.nodes.items) }
    ensures places { IfOk result (λ fresh. ArePlaced right.now right.now.slots fresh.nodes.items fresh.places.items) }
{
    right.is_graph();
    let mut nodes = Vec::new(alloc);
    let mut places = Vec::new(alloc);
    for index in 0..right.slots() {
        places.push(nodes.len())?;
        if let Some(node) = inner_node(right, index) {
            nodes.push(copy_node(node)?)?;
        }
    }
    Ok(Fresh { nodes, places })
}

/// The inner node of this index.
fn inner_node(right: &Graph, index: usize) -> Option<&Node>
    ensures { MatchOption result
        ((name : Name) → ¬ (IsInnerAt right.now index name))
        (λ node. IsNodeAt right.now (id_of index) node.now × IsInnerAt right.now index node.now.name) }
{
    right.is_graph();
    let node = right.node(right.id_at(index)?)?;
    if is_inner(&node.kind) {
        Some(node)
    } else {
        None
    }
}

/// An equal node of its own. The only error is want of memory.
fn copy_node(node: &Node) -> Result<Node, NoMemory>
    ensures { IfOk result (λ copy. copy ≡ node.now) }
{
    let name = node.name.clone()?;
    let kind = copy_kind(&node.kind)?;
    let kept = copy_kept(&node.kept)?;
    Ok(Node { name, kind, kept })
}

pub(crate) fn copy_kind(kind: &Kind) -> Result<Kind, NoMemory>
    ensures { IfOk result (λ copy. copy ≡ kind.now) }
{
    Ok(kind.clone()?)
}

fn copy_kept(kept: &Items<(Text, Text)>) -> Result<Items<(Text, Text)>, NoMemory>
    ensures { IfOk result (λ copy. copy ≡ kept.now) }
{
    Ok(kept.clone()?)
}

/// The port of a new node that stands for a port of an inner node of `right`.
pub(crate) fn fresh_end(right: &Graph, fresh: &Fresh, port: PortAt) -> End
    requires inner { has_inner right.now.graph (name_by right.now.ids port.node) ≡ true }
    requires placed { ArePlaced right.now right.now.slots fresh.now.nodes.items fresh.now.places.items }
    ensures port { (g : _) → end_port g fresh.now.nodes.items result ≡ port_of right.now port }
    ensures place { (g left : _) → IsAtPlace g left fresh.now.nodes.items result }
{
    right.is_graph();
    End::Fresh(fresh.places[port.node.index()], port.port)
}
