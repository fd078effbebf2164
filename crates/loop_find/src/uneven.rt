//! Branches that do not fit the lanes of a mark.
ghost use Rattle.std.specs.Prelude.{◌≤◌, ◌≡◌, IfOk};
ghost use Rattle.circuits.specs.Circuit.{circuit_of};
ghost use Rattle.graph_core.specs.GraphValue.{name_by};
ghost use Rattle.loop_laws.specs.BackPath.{IsLaneBranch};
ghost use Rattle.loop_laws.specs.Faults.{Inside, Row};
ghost use Rattle.loop_laws.specs.declared.fault.LoopFaultKind.TheVariants.{LanesUneven};
ghost use Rattle.loop_find.specs.Judging.{IsJudged};
ghost use Rattle.loop_find.specs.Walks.{AreAll};

use crate::choose::{Test, choose};
use crate::least::{earlier, least};
use crate::node_set::NodeSet;
use crate::walk::{Way, step};
use graph_core::{Graph, NodeId};
use port_types::NoMemory;

/// The least node by name that is a Branch which a wire from a lane or the body enters and which is no lane's, or a lane's Branch with
/// an input that comes neither from a lane nor from the body. `None` exactly where there is none. The only error is want of memory.
pub(crate) fn lanes_uneven(
    g: &Graph,
    mark: NodeId,
    goes_back: bool,
    inside: &NodeSet,
    branches: &NodeSet,
    entered: &mut NodeSet,
    found: &mut NodeSet,
) -> Result<Option<NodeId>, NoMemory>
    requires inside { AreAll g.now (Inside (circuit_of g.now.graph) (name_by g.now.ids mark) goes_back) inside.now.ids }
    requires branches { AreAll g.now (IsLaneBranch (circuit_of g.now.graph) (name_by g.now.ids mark) goes_back) branches.now.ids }
    requires entered_room { g.now.slots ≤ entered.old.room }
    requires found_room { g.now.slots ≤ found.old.room }
    ensures node { IfOk result (IsJudged g.now (Row (circuit_of g.now.graph) (name_by g.now.ids mark) goes_back LanesUneven)) }
    ensures entered_room { entered.new.room ≡ entered.old.room }
    ensures found_room { found.new.room ≡ found.old.room }
{
    g.is_graph();
    let _ = (mark, goes_back);
    step(g, Way::Branches, inside, entered)?;
    choose(g, Test::Apart, branches, entered, found)?;
    let apart = least(g, found);
    choose(g, Test::Foreign, inside, branches, found)?;
    let foreign = least(g, found);
    Ok(earlier(g, apart, foreign))
}
