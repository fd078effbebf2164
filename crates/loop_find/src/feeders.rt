//! The feeders of a loop, its body, and what is inside it.
ghost use Rattle.std.specs.Prelude.{◌≡◌, ◌≤◌, OnOk};
ghost use Rattle.circuits.specs.Circuit.{Typed, circuit_of};
ghost use Rattle.graph_core.specs.GraphValue.{Denotes, name_by};
ghost use Rattle.loop_laws.specs.Polarity.{IsMark};
ghost use Rattle.loop_laws.specs.Reached.{IsLane, Reached};
ghost use Rattle.loop_laws.specs.BackPath.{IsLaneBranch};
ghost use Rattle.loop_laws.specs.Feeders.{Feeder, TakesConstants};
ghost use Rattle.loop_laws.specs.Faults.{InBody, Inside};
ghost use Rattle.loop_find.specs.Feeding.{HasBoth};
ghost use Rattle.loop_find.specs.Walks.{AreAll, AreLive};

use crate::candidates::find_candidates;
use crate::choose::{Test, choose};
use crate::node_set::NodeSet;
use crate::spread::spread;
use graph_core::{Graph, NodeId};
use port_types::NoMemory;

/// Makes the set that of the nodes that a feeder of the mark may feed beside other feeders: the mark, the Branches of its lanes, and
/// what is reached. The only error is want of memory.
pub(crate) fn find_takers(
    g: &Graph,
    mark: NodeId,
    goes_back: bool,
    reached: &NodeSet,
    branches: &NodeSet,
    takers: &mut NodeSet,
) -> Result<(), NoMemory>
    requires live { Denotes g.now mark (name_by g.now.ids mark) }
    requires reached { AreAll g.now (Reached (circuit_of g.now.graph) (name_by g.now.ids mark)) reached.now.ids }
    requires branches { AreAll g.now (IsLaneBranch (circuit_of g.now.graph) (name_by g.now.ids mark) goes_back) branches.now.ids }
    requires room { g.now.slots ≤ takers.old.room }
    ensures all { OnOk result (AreAll g.now (TakesConstants (circuit_of g.now.graph) (name_by g.now.ids mark) goes_back) takers.new.ids) }
    ensures room { takers.new.room ≡ takers.old.room }
{
    g.is_graph();
    let _ = goes_back;
    unite(g, reached, branches, takers)?;
    takers.insert(mark)
}

/// Makes the set that of the feeders of the mark, with these takers. What lies behind them is not walked: each node that is looked at
/// is one of the takers, or feeds them and one another alone, or feeds one of these. The only error is want of memory.
pub(crate) fn find_feeders(
    g: &Graph,
    mark: NodeId,
    goes_back: bool,
    takers: &NodeSet,
    candidates: &mut NodeSet,
    spoilt: &mut NodeSet,
    feeders: &mut NodeSet,
) -> Result<(), NoMemory>
    requires typed { Typed (circuit_of g.now.graph) }
    requires mark { IsMark (circuit_of g.now.graph) (name_by g.now.ids mark) }
    requires takers { AreAll g.now (TakesConstants (circuit_of g.now.graph) (name_by g.now.ids mark) goes_back) takers.now.ids }
    requires candidates_room { g.now.slots ≤ candidates.old.room }
    requires spoilt_room { g.now.slots ≤ spoilt.old.room }
    requires feeders_room { g.now.slots ≤ feeders.old.room }
    ensures all { OnOk result (AreAll g.now (Feeder (circuit_of g.now.graph) (name_by g.now.ids mark) goes_back) feeders.new.ids) }
    ensures candidates_room { candidates.new.room ≡ candidates.old.room }
    ensures spoilt_room { spoilt.new.room ≡ spoilt.old.room }
    ensures feeders_room { feeders.new.room ≡ feeders.old.room }
{
    g.is_graph();
    let _ = (mark, goes_back);
    find_candidates(g, takers, candidates)?;
    choose(g, Test::Foreign, candidates, candidates, spoilt)?;
    spread(g, candidates, spoilt)?;
    choose(g, Test::Apart, spoilt, candidates, feeders)
}

/// Makes the set that of the body of the mark. The only error is want of memory.
pub(crate) fn find_body(
    g: &Graph,
    mark: NodeId,
    goes_back: bool,
    reached: &NodeSet,
    feeders: &NodeSet,
    body: &mut NodeSet,
) -> Result<(), NoMemory>
    requires reached { AreAll g.now (Reached (circuit_of g.now.graph) (name_by g.now.ids mark)) reached.now.ids }
    requires feeders { AreAll g.now (Feeder (circuit_of g.now.graph) (name_by g.now.ids mark) goes_back) feeders.now.ids }
    requires room { g.now.slots ≤ body.old.room }
    ensures all { OnOk result (AreAll g.now (InBody (circuit_of g.now.graph) (name_by g.now.ids mark) goes_back) body.new.ids) }
    ensures room { body.new.room ≡ body.old.room }
{
    let _ = (mark, goes_back);
    unite(g, reached, feeders, body)
}

/// Makes the set that of the lanes and the body of the mark. The only error is want of memory.
pub(crate) fn find_inside(
    g: &Graph,
    mark: NodeId,
    goes_back: bool,
    lanes: &NodeSet,
    body: &NodeSet,
    inside: &mut NodeSet,
) -> Result<(), NoMemory>
    requires lanes { AreAll g.now (IsLane (circuit_of g.now.graph) (name_by g.now.ids mark)) lanes.now.ids }
    requires body { AreAll g.now (InBody (circuit_of g.now.graph) (name_by g.now.ids mark) goes_back) body.now.ids }
    requires room { g.now.slots ≤ inside.old.room }
    ensures all { OnOk result (AreAll g.now (Inside (circuit_of g.now.graph) (name_by g.now.ids mark) goes_back) inside.new.ids) }
    ensures room { inside.new.room ≡ inside.old.room }
{
    let _ = (mark, goes_back);
    unite(g, lanes, body, inside)
}

/// Makes the set that of the nodes of both others. The only error is want of memory.
fn unite(g: &Graph, one: &NodeSet, other: &NodeSet, both: &mut NodeSet) -> Result<(), NoMemory>
    requires one { AreLive g.now one.now.ids }
    requires other { AreLive g.now other.now.ids }
    requires room { g.now.slots ≤ both.old.room }
    ensures both { OnOk result (HasBoth one.now.ids other.now.ids both.new.ids) }
    ensures room { both.new.room ≡ both.old.room }
{
    both.clear();
    insert_all(g, one, both)?;
    insert_all(g, other, both)
}

/// Puts all nodes of a set in. The only error is want of memory.
fn insert_all(g: &Graph, from: &NodeSet, seen: &mut NodeSet) -> Result<(), NoMemory>
    requires live { AreLive g.now from.now.ids }
    requires room { g.now.slots ≤ seen.old.room }
    ensures both { OnOk result (HasBoth seen.old.ids from.now.ids seen.new.ids) }
    ensures room { seen.new.room ≡ seen.old.room }
{
    g.is_graph();
    let mut next = 0;
    while next < from.len() {
        from.fits();
        seen.insert(from.at(next))?;
        next += 1;
    }
    Ok(())
}
