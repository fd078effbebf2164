//! The first port on no wire.
ghost use Rattle.std.specs.Prelude.{◌≡◌, ◌≤◌, List, None, IfOk, IfErr};
ghost use Rattle.components.specs.Name.{Name};
ghost use Rattle.components.specs.Node.{Body};
ghost use Rattle.graph_read.specs.GraphReading.{first_open};
ghost use Rattle.graph_read.specs.GraphSteps.{AreNodesOf};
ghost use Rattle.graph_read.specs.Refusals.{IsFoundRefusal};

use crate::fault::GraphFaultKind::PortOpen;
use crate::fault::{GraphFault, GraphRefusal};
use graph_core::{Graph, check_typed};

/// Whether each port of the graph of these nodes is on a wire. If not, the error is the first that is on none, in the order of
/// the nodes, inputs before outputs, by number, with the place of its node, counted from 1.
pub(crate) fn check_open(g: &Graph) -> Result<(), GraphFault>
    requires few { g.now.slots ≤ 65536 }
    ensures ok { IfOk result (λ _. (nodes : List (Name × Body)) → AreNodesOf nodes g.now → first_open g.now.graph 1 nodes ≡ None) }
    ensures refused { IfErr result (λ fault. (nodes : List (Name × Body)) → AreNodesOf nodes g.now → IsFoundRefusal (first_open g.now.graph 1 nodes) fault) }
{
    g.is_graph();
    let Err(open) = check_typed(g) else {
        return Ok(());
    };
    let Some(node) = g.node(open.node) else {
        unreachable!()
    };
    let Ok(name) = node.name.clone() else {
        return Err(GraphFault::NoMemory);
    };
    Err(GraphFault::Refused(GraphRefusal {
        kind: PortOpen,
        place: open.node.index() + 1,
        name,
        port_open: Some((open.side, open.port)),
    }))
}
