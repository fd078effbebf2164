//! Limits of loops.
ghost use Rattle.std.specs.Prelude.{◌↔◌, Bool, IsTrue};
ghost use Rattle.circuits.specs.Circuit.{circuit_of};
ghost use Rattle.graph_core.specs.GraphValue.{name_by};
ghost use Rattle.loop_laws.specs.Reached.{IsLane};
ghost use Rattle.loop_laws.specs.Faults.{Row};
ghost use Rattle.loop_laws.specs.declared.fault.LoopFaultKind.TheVariants.{TooManyLanes};
ghost use Rattle.loop_find.specs.Walks.{AreAll};

use crate::node_set::NodeSet;
use graph_core::{Graph, NodeId};

/// The greatest number of lanes of a loop.
const MAX_LANES: usize = 62;

/// Whether the mark has more lanes than a loop may have.
pub(crate) fn has_too_many_lanes(g: &Graph, mark: NodeId, lanes: &NodeSet) -> bool
    requires { AreAll g.now (IsLane (circuit_of g.now.graph) (name_by g.now.ids mark)) lanes.now.ids }
    ensures { (goes_back : Bool) → IsTrue result ↔ Row (circuit_of g.now.graph) (name_by g.now.ids mark) goes_back TooManyLanes (name_by g.now.ids mark) }
{
    g.is_graph();
    let _ = mark;
    lanes.differ();
    if lanes.len() > MAX_LANES {
        return true;
    }
    false
}
