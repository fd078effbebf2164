//! Where the back paths of all lanes of a mark come from.
ghost use Rattle.std.specs.Prelude.{◌≡◌, ◌≤◌, OnOk};
ghost use Rattle.circuits.specs.Circuit.{Typed, circuit_of};
ghost use Rattle.graph_core.specs.GraphValue.{name_by};
ghost use Rattle.loop_laws.specs.Reached.{IsLane};
ghost use Rattle.loop_laws.specs.BackPath.{IsLaneBranch};
ghost use Rattle.loop_laws.specs.Faults.{Row};
ghost use Rattle.loop_laws.specs.declared.fault.LoopFaultKind.TheVariants.{BackPath};
ghost use Rattle.loop_find.specs.Ends.{IsEndPut};
ghost use Rattle.loop_find.specs.Walks.{AreAll};

use crate::lane_branch::lane_branch;
use crate::node_set::NodeSet;
use graph_core::{Graph, NodeId};
use port_types::NoMemory;

/// Makes `branches` the set of the Branches of these lanes of the mark, and `faulty` that of the lanes whose back input comes, through
/// Buffers alone, from something other than the back output of a Branch. The only error is want of memory.
pub(crate) fn find_branches(
    g: &Graph,
    mark: NodeId,
    goes_back: bool,
    lanes: &NodeSet,
    back: &mut NodeSet,
    branches: &mut NodeSet,
    faulty: &mut NodeSet,
) -> Result<(), NoMemory>
    requires typed { Typed (circuit_of g.now.graph) }
    requires lanes { AreAll g.now (IsLane (circuit_of g.now.graph) (name_by g.now.ids mark)) lanes.now.ids }
    requires back_room { g.now.slots ≤ back.old.room }
    requires branches_room { g.now.slots ≤ branches.old.room }
    requires faulty_room { g.now.slots ≤ faulty.old.room }
    ensures branches { OnOk result (AreAll g.now (IsLaneBranch (circuit_of g.now.graph) (name_by g.now.ids mark) goes_back) branches.new.ids) }
    ensures faulty { OnOk result (AreAll g.now (Row (circuit_of g.now.graph) (name_by g.now.ids mark) goes_back BackPath) faulty.new.ids) }
    ensures back_room { back.new.room ≡ back.old.room }
    ensures branches_room { branches.new.room ≡ branches.old.room }
    ensures faulty_room { faulty.new.room ≡ faulty.old.room }
{
    g.is_graph();
    branches.clear();
    faulty.clear();
    let mut next = 0;
    while next < lanes.len() {
        lanes.fits();
        let lane = lanes.at(next);
        put_end(g, mark, goes_back, lane, back, branches, faulty)?;
        next += 1;
    }
    Ok(())
}

/// Puts the lane's Branch to the Branches, or the lane to those with no Branch. The only error is want of memory.
fn put_end(
    g: &Graph,
    mark: NodeId,
    goes_back: bool,
    lane: NodeId,
    back: &mut NodeSet,
    branches: &mut NodeSet,
    faulty: &mut NodeSet,
) -> Result<(), NoMemory>
    requires typed { Typed (circuit_of g.now.graph) }
    requires lane { IsLane (circuit_of g.now.graph) (name_by g.now.ids mark) (name_by g.now.ids lane) }
    requires back_room { g.now.slots ≤ back.old.room }
    requires branches_room { g.now.slots ≤ branches.old.room }
    requires faulty_room { g.now.slots ≤ faulty.old.room }
    ensures put { OnOk result (IsEndPut g.now (name_by g.now.ids mark) goes_back lane branches.old.ids branches.new.ids faulty.old.ids faulty.new.ids) }
    ensures back_room { back.new.room ≡ back.old.room }
    ensures branches_room { branches.new.room ≡ branches.old.room }
    ensures faulty_room { faulty.new.room ≡ faulty.old.room }
{
    g.is_graph();
    match lane_branch(g, mark, goes_back, lane, back)? {
        Some(branch) => branches.insert(branch),
        None => faulty.insert(lane),
    }
}
