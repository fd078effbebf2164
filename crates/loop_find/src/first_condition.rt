//! The root of the condition of the first lane.
ghost use Rattle.std.specs.Prelude.{◌≡◌, ◌≤◌, IfOk, MatchOption};
ghost use Rattle.circuits.specs.Circuit.{Typed, circuit_of};
ghost use Rattle.graph_core.specs.declared.place.PortAt.{PortAt};
ghost use Rattle.graph_core.specs.GraphValue.{name_by};
ghost use Rattle.loop_find.specs.Lanes.{AreLanes, IsCondition};

use crate::node_set::NodeSet;
use crate::root::find_root;
use crate::shape::Lane;
use graph_core::{Graph, NodeId, PortAt};
use port_types::NoMemory;

/// The root of input 2 of the first lane's Branch. `None` exactly where it has none, or there is no lane. The only error is want of
/// memory.
pub(crate) fn first_condition(
    g: &Graph,
    mark: NodeId,
    goes_back: bool,
    lanes: &[Lane],
    trail: &mut NodeSet,
) -> Result<Option<PortAt>, NoMemory>
    requires typed { Typed (circuit_of g.now.graph) }
    requires lanes { AreLanes g.now (name_by g.now.ids mark) goes_back lanes.now }
    requires room { g.now.slots ≤ trail.old.room }
    ensures root { IfOk result (λ found. MatchOption found ((root : PortAt) → ¬ (IsCondition g.now lanes.now root)) (IsCondition g.now lanes.now)) }
    ensures room { trail.new.room ≡ trail.old.room }
{
    g.is_graph();
    let _ = (mark, goes_back);
    match lanes.first() {
        Some(first) => {
            let decides = PortAt {
                node: first.branch,
                port: 2,
            };
            find_root(g, decides, trail)
        }
        None => Ok(None),
    }
}
