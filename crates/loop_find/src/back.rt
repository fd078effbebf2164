//! Back paths of lanes: backwards from an input, through Buffers.
ghost use Rattle.std.specs.Prelude.{◌≡◌, ◌≤◌, IfOk};
ghost use Rattle.circuits.specs.Circuit.{Typed, circuit_of};
ghost use Rattle.graph_core.specs.GraphValue.{port_of};
ghost use Rattle.loop_find.specs.Backs.{IsBackOf, IsFed, is_buffer};
ghost use Rattle.loop_find.specs.Walks.{is_mux};
ghost use Rattle.graph_core.specs.GraphValue.{Denotes, name_by};
ghost use Rattle.std.specs.Prelude.{Some, true};

use crate::named::kind_of;
use crate::node_set::NodeSet;
use components::Kind;
use graph_core::{Graph, NodeId, PortAt};
use port_types::NoMemory;

/// The output of something other than a Buffer from which an input of a Mux comes through Buffers alone. Makes the set that of
/// these Buffers, from the Mux backwards. The only error is want of memory.
pub(crate) fn find_back(g: &Graph, target: PortAt, back: &mut NodeSet) -> Result<PortAt, NoMemory>
    requires typed { Typed (circuit_of g.now.graph) }
    requires fed { IsFed g.now target }
    requires mux { is_mux ((circuit_of g.now.graph).kind_at (name_by g.now.ids target.node)) ≡ true }
    requires room { g.now.slots ≤ back.old.room }
    ensures back { IfOk result (IsBackOf g.now target back.new.ids) }
    ensures room { back.new.room ≡ back.old.room }
{
    g.is_graph();
    back.clear();
    let mut source = source_of(g, target);
    while is_buffer(g, source.node) {
        back.insert(source.node)?;
        back.fits();
        source = source_of(
            g,
            PortAt {
                node: source.node,
                port: 1,
            },
        );
    }
    Ok(source)
}

/// The output that feeds the input.
pub(crate) fn source_of(g: &Graph, target: PortAt) -> PortAt
    requires { IsFed g.now target }
    ensures fed { (circuit_of g.now.graph).feeder (port_of g.now target) ≡ Some (port_of g.now result) }
    ensures live { Denotes g.now result.node (name_by g.now.ids result.node) }
{
    g.is_graph();
    match g.wire_into(target) {
        Some(source) => source,
        None => unreachable!(),
    }
}

/// Whether the node is a Buffer.
fn is_buffer(g: &Graph, id: NodeId) -> bool
    ensures { result ≡ is_buffer ((circuit_of g.now.graph).kind_at (name_by g.now.ids id)) }
{
    matches!(kind_of(g, id), Some(Kind::Buffer(_)))
}
