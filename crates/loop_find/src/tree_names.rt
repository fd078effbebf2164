//! The tree of a mark in the byte order of the names of its nodes.
ghost use Rattle.std.specs.Prelude.{◌≡◌, ◌≤◌, IfOk};
ghost use Rattle.circuits.specs.Circuit.{circuit_of};
ghost use Rattle.graph_core.specs.GraphValue.{Denotes, name_by};
ghost use Rattle.loop_laws.specs.Reached.{OnTree};
ghost use Rattle.loop_find.specs.TreeNames.{IsTreeBy};
ghost use Rattle.loop_find.specs.Walks.{AreAll};

use crate::by_name::by_name;
use crate::choose::{Test, choose};
use crate::node_set::NodeSet;
use graph_core::{Graph, NodeId};
use port_types::NoMemory;
use std::alloc::Global;

/// The Forks and Buffers of the mark's tree in byte order of their names, of the mark and its tree. The only error is want of memory.
pub(crate) fn tree_by_name(
    alloc: Global,
    g: &Graph,
    mark: NodeId,
    tree: &NodeSet,
    alone: &mut NodeSet,
    found: &mut NodeSet,
) -> Result<Vec<NodeId>, NoMemory>
    requires mark { Denotes g.now mark (name_by g.now.ids mark) }
    requires tree { AreAll g.now (OnTree (circuit_of g.now.graph) (name_by g.now.ids mark)) tree.now.ids }
    requires room_alone { g.now.slots ≤ alone.old.room }
    requires room_found { g.now.slots ≤ found.old.room }
    ensures tree { IfOk result (λ ids. IsTreeBy g.now (name_by g.now.ids mark) ids.items) }
    ensures room_alone { alone.new.room ≡ alone.old.room }
    ensures room_found { found.new.room ≡ found.old.room }
{
    g.is_graph();
    alone.clear();
    alone.insert(mark)?;
    choose(g, Test::Apart, alone, tree, found)?;
    by_name(alloc, g, found)
}
