//! The lanes of a mark in the byte order of the names of their Muxes.
ghost use Rattle.std.specs.Prelude.{◌≡◌, ◌≤◌, IfOk, reverse};
ghost use Rattle.circuits.specs.Circuit.{Typed, circuit_of};
ghost use Rattle.components.specs.Name.{Name};
ghost use Rattle.graph_core.specs.GraphValue.{Denotes, name_by};
ghost use Rattle.loop_laws.specs.Reached.{IsLane};
ghost use Rattle.loop_laws.specs.Faults.{Row};
ghost use Rattle.loop_laws.specs.declared.fault.LoopFaultKind.TheVariants.{BackPath};
ghost use Rattle.loop_find.specs.Lanes.{AreLanes, IsLaneBy};
ghost use Rattle.loop_find.specs.Walks.{AreAll};

use crate::by_name::by_name;
use crate::lane_branch::lane_branch;
use crate::node_set::NodeSet;
use crate::shape::Lane;
use graph_core::{Graph, NodeId};
use port_types::{Items, NoMemory};
use std::alloc::Global;

/// The lanes of the mark in byte order of the names of their Muxes, each with its Branch and the Buffers from the Branch forward, where
/// each back input comes from a Branch. The only error is want of memory.
pub(crate) fn lanes_by_name(
    alloc: Global,
    g: &Graph,
    mark: NodeId,
    goes_back: bool,
    lanes: &NodeSet,
    back: &mut NodeSet,
) -> Result<Vec<Lane>, NoMemory>
    requires typed { Typed (circuit_of g.now.graph) }
    requires lanes { AreAll g.now (IsLane (circuit_of g.now.graph) (name_by g.now.ids mark)) lanes.now.ids }
    requires whole { (n : Name) → ¬ (Row (circuit_of g.now.graph) (name_by g.now.ids mark) goes_back BackPath n) }
    requires room { g.now.slots ≤ back.old.room }
    ensures lanes { IfOk result (λ found. AreLanes g.now (name_by g.now.ids mark) goes_back found.items) }
    ensures room { back.new.room ≡ back.old.room }
{
    g.is_graph();
    let ids = by_name(alloc, g, lanes)?;
    let mut found = Vec::new(alloc);
    for id in &ids {
        found.push(lane_of(alloc, g, mark, goes_back, *id, back)?)?;
    }
    Ok(found)
}

/// The lane with its Branch and the Buffers between the two. The only error is want of memory.
fn lane_of(
    alloc: Global,
    g: &Graph,
    mark: NodeId,
    goes_back: bool,
    lane: NodeId,
    back: &mut NodeSet,
) -> Result<Lane, NoMemory>
    requires typed { Typed (circuit_of g.now.graph) }
    requires lane { IsLane (circuit_of g.now.graph) (name_by g.now.ids mark) (name_by g.now.ids lane) }
    requires live { Denotes g.now lane (name_by g.now.ids lane) }
    requires whole { (n : Name) → ¬ (Row (circuit_of g.now.graph) (name_by g.now.ids mark) goes_back BackPath n) }
    requires room { g.now.slots ≤ back.old.room }
    ensures lane { IfOk result (IsLaneBy g.now (name_by g.now.ids mark) goes_back) }
    ensures mux { IfOk result (λ found. found.mux ≡ lane) }
    ensures room { back.new.room ≡ back.old.room }
{
    let Some(branch) = lane_branch(g, mark, goes_back, lane, back)? else {
        unreachable!();
    };
    Ok(Lane {
        mux: lane,
        branch,
        back: forward(alloc, back)?,
    })
}

/// The nodes of the set, the last first. The only error is want of memory.
fn forward(alloc: Global, back: &NodeSet) -> Result<Items<NodeId>, NoMemory>
    ensures { IfOk result (λ ids. ids ≡ reverse back.now.ids) }
{
    Ok(Items::new(back.as_slice().iter().rev().copied().collect(alloc)?))
}
