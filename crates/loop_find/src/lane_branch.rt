//! The Branch of a lane.
ghost use Rattle.std.specs.Prelude.{◌≡◌, ◌≤◌, IfOk};
ghost use Rattle.circuits.specs.Circuit.{Typed, circuit_of};
ghost use Rattle.graph_core.specs.GraphValue.{name_by};
ghost use Rattle.loop_laws.specs.Polarity.{back_in, back_out};
ghost use Rattle.loop_laws.specs.Reached.{IsLane};
ghost use Rattle.loop_find.specs.Backs.{IsLaneEnd};

use crate::back::find_back;
use crate::node_set::NodeSet;
use crate::walk::is_branch;
use graph_core::{Graph, NodeId, PortAt};
use port_types::NoMemory;

/// The Branch of a lane of the mark. Makes the set that of the Buffers between the two, from the lane backwards. `None` exactly
/// where the lane's back input comes, through Buffers alone, from something other than the back output of a Branch. The only error
/// is want of memory.
pub(crate) fn lane_branch(
    g: &Graph,
    mark: NodeId,
    goes_back: bool,
    lane: NodeId,
    back: &mut NodeSet,
) -> Result<Option<NodeId>, NoMemory>
    requires typed { Typed (circuit_of g.now.graph) }
    requires lane { IsLane (circuit_of g.now.graph) (name_by g.now.ids mark) (name_by g.now.ids lane) }
    requires room { g.now.slots ≤ back.old.room }
    ensures branch { IfOk result (IsLaneEnd g.now (name_by g.now.ids mark) goes_back lane back.new.ids) }
    ensures room { back.new.room ≡ back.old.room }
{
    let _ = mark;
    let target = PortAt {
        node: lane,
        port: back_in(goes_back),
    };
    let source = find_back(g, target, back)?;
    if source.port == back_out(goes_back) && is_branch(g, source.node) {
        return Ok(Some(source.node));
    }
    Ok(None)
}

/// The input of a Mux that takes the tuples that go on with another turn.
fn back_in(goes_back: bool) -> u8
    ensures { result ≡ back_in goes_back }
{
    if goes_back { 3 } else { 2 }
}

/// The output of a Branch that leads back.
fn back_out(goes_back: bool) -> u8
    ensures { result ≡ back_out goes_back }
{
    if goes_back { 1 } else { 2 }
}
