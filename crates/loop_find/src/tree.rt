//! What is reached from a mark: its tree, its lanes, and what lies behind them.
ghost use Rattle.std.specs.Prelude.{◌≡◌, ◌≤◌, OnOk};
ghost use Rattle.circuits.specs.Circuit.{circuit_of};
ghost use Rattle.graph_core.specs.GraphValue.{Denotes, name_by};
ghost use Rattle.loop_laws.specs.Reached.{IsLane, OnTree, Reached};
ghost use Rattle.loop_laws.specs.Faults.{Row};
ghost use Rattle.loop_laws.specs.declared.fault.LoopFaultKind.TheVariants.{SelectLeaf};
ghost use Rattle.std.specs.Prelude.{Bool};
ghost use Rattle.loop_find.specs.Walks.{AreAll};

use crate::node_set::NodeSet;
use crate::walk::{Way, step, walk};
use graph_core::{Graph, NodeId};
use port_types::NoMemory;

/// Makes the set that of the mark and its tree. The only error is want of memory.
pub(crate) fn find_tree(g: &Graph, mark: NodeId, tree: &mut NodeSet) -> Result<(), NoMemory>
    requires live { Denotes g.now mark (name_by g.now.ids mark) }
    requires room { g.now.slots ≤ tree.old.room }
    ensures all { OnOk result (AreAll g.now (OnTree (circuit_of g.now.graph) (name_by g.now.ids mark)) tree.new.ids) }
    ensures room { tree.new.room ≡ tree.old.room }
{
    g.is_graph();
    tree.clear();
    tree.insert(mark)?;
    walk(g, Way::Tree, tree)
}

/// Makes the set that of the lanes of the mark with this tree. The only error is want of memory.
pub(crate) fn find_lanes(
    g: &Graph,
    mark: NodeId,
    tree: &NodeSet,
    lanes: &mut NodeSet,
) -> Result<(), NoMemory>
    requires tree { AreAll g.now (OnTree (circuit_of g.now.graph) (name_by g.now.ids mark)) tree.now.ids }
    requires room { g.now.slots ≤ lanes.old.room }
    ensures all { OnOk result (AreAll g.now (IsLane (circuit_of g.now.graph) (name_by g.now.ids mark)) lanes.new.ids) }
    ensures room { lanes.new.room ≡ lanes.old.room }
{
    g.is_graph();
    let _ = mark;
    step(g, Way::Selects, tree, lanes)
}

/// Makes the set that of the nodes that a wire from the mark or its tree enters and should not. The only error is want of memory.
pub(crate) fn find_leaves(
    g: &Graph,
    mark: NodeId,
    tree: &NodeSet,
    leaves: &mut NodeSet,
) -> Result<(), NoMemory>
    requires tree { AreAll g.now (OnTree (circuit_of g.now.graph) (name_by g.now.ids mark)) tree.now.ids }
    requires room { g.now.slots ≤ leaves.old.room }
    ensures all { (goes_back : Bool) → OnOk result (AreAll g.now (Row (circuit_of g.now.graph) (name_by g.now.ids mark) goes_back SelectLeaf) leaves.new.ids) }
    ensures room { leaves.new.room ≡ leaves.old.room }
{
    g.is_graph();
    let _ = mark;
    step(g, Way::Leaves, tree, leaves)
}

/// Makes the set that of the nodes that are reached from these lanes of the mark. The only error is want of memory.
pub(crate) fn find_reached(
    g: &Graph,
    mark: NodeId,
    lanes: &NodeSet,
    reached: &mut NodeSet,
) -> Result<(), NoMemory>
    requires lanes { AreAll g.now (IsLane (circuit_of g.now.graph) (name_by g.now.ids mark)) lanes.now.ids }
    requires room { g.now.slots ≤ reached.old.room }
    ensures all { OnOk result (AreAll g.now (Reached (circuit_of g.now.graph) (name_by g.now.ids mark)) reached.new.ids) }
    ensures room { reached.new.room ≡ reached.old.room }
{
    g.is_graph();
    step(g, Way::Body(mark), lanes, reached)?;
    walk(g, Way::Body(mark), reached)
}
