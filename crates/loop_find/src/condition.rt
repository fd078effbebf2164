//! The condition of a loop: one root for the second inputs of all Branches and for the mark, and not made of constants alone.
ghost use Rattle.std.specs.Prelude.{◌≡◌, Some};
ghost use Rattle.circuits.specs.Circuit.{Typed, circuit_of};
ghost use Rattle.graph_core.specs.GraphValue.{name_by, port_of};
ghost use Rattle.loop_laws.specs.Polarity.{IsMark};
ghost use Rattle.loop_laws.specs.Feeders.{Feeder};
ghost use Rattle.loop_laws.specs.Faults.{Row};
ghost use Rattle.loop_laws.specs.declared.fault.LoopFaultKind.TheVariants.{ConditionRoot, FreeCondition, FreeData};
ghost use Rattle.loop_find.specs.Judging.{IsJudged};
ghost use Rattle.loop_find.specs.Lanes.{AreLanes, IsCondition};
ghost use Rattle.loop_find.specs.Roots.{IsRooted};
ghost use Rattle.loop_find.specs.Walks.{AreAll};

use crate::back::source_of;
use crate::node_set::NodeSet;
use crate::root::has_root;
use crate::shape::Lane;
use graph_core::{Graph, NodeId, PortAt};

/// The Branch of the first lane whose condition does not have the root of the first lane's, or else the mark if its input does not have
/// that root; `rooted` are the Buffers and Forks that have it. `None` exactly where there is none.
pub(crate) fn condition_root(
    g: &Graph,
    mark: NodeId,
    goes_back: bool,
    lanes: &[Lane],
    root: PortAt,
    rooted: &NodeSet,
) -> Option<NodeId>
    requires typed { Typed (circuit_of g.now.graph) }
    requires mark { IsMark (circuit_of g.now.graph) (name_by g.now.ids mark) }
    requires lanes { AreLanes g.now (name_by g.now.ids mark) goes_back lanes.now }
    requires root { IsCondition g.now lanes.now root }
    requires rooted { AreAll g.now (IsRooted (circuit_of g.now.graph) (port_of g.now root)) rooted.now.ids }
    ensures { IsJudged g.now (Row (circuit_of g.now.graph) (name_by g.now.ids mark) goes_back ConditionRoot) result }
{
    g.is_graph();
    let _ = goes_back;
    for lane in lanes {
        let decides = PortAt {
            node: lane.branch,
            port: 2,
        };
        if !has_root(g, decides, root, rooted) {
            return Some(lane.branch);
        }
    }
    let input = PortAt {
        node: mark,
        port: 1,
    };
    if has_root(g, input, root, rooted) {
        return None;
    }
    Some(mark)
}

/// The node of this root of the condition, if it is one of these feeders. `None` exactly where it is not.
pub(crate) fn free_condition(
    g: &Graph,
    mark: NodeId,
    goes_back: bool,
    lanes: &[Lane],
    root: PortAt,
    feeders: &NodeSet,
) -> Option<NodeId>
    requires lanes { AreLanes g.now (name_by g.now.ids mark) goes_back lanes.now }
    requires root { IsCondition g.now lanes.now root }
    requires feeders { AreAll g.now (Feeder (circuit_of g.now.graph) (name_by g.now.ids mark) goes_back) feeders.now.ids }
    ensures { IsJudged g.now (Row (circuit_of g.now.graph) (name_by g.now.ids mark) goes_back FreeCondition) result }
{
    g.is_graph();
    let _ = (mark, goes_back);
    let _ = lanes;
    if feeders.contains(root.node) {
        return Some(root.node);
    }
    None
}

/// The Branch of the first lane, if the data of each lane comes from one of these feeders. `None` exactly where that of some does not.
pub(crate) fn free_data(
    g: &Graph,
    mark: NodeId,
    goes_back: bool,
    lanes: &[Lane],
    feeders: &NodeSet,
) -> Option<NodeId>
    requires typed { Typed (circuit_of g.now.graph) }
    requires lanes { AreLanes g.now (name_by g.now.ids mark) goes_back lanes.now }
    requires feeders { AreAll g.now (Feeder (circuit_of g.now.graph) (name_by g.now.ids mark) goes_back) feeders.now.ids }
    ensures { IsJudged g.now (Row (circuit_of g.now.graph) (name_by g.now.ids mark) goes_back FreeData) result }
{
    g.is_graph();
    let _ = (mark, goes_back);
    for lane in lanes {
        let data = PortAt {
            node: lane.branch,
            port: 1,
        };
        let source = source_of(g, data);
        if !feeders.contains(source.node) {
            return None;
        }
    }
    match lanes.first() {
        Some(lane) => Some(lane.branch),
        None => None,
    }
}
