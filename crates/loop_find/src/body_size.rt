//! The size of a body.
ghost use Rattle.std.specs.Prelude.{◌↔◌, IsTrue};
ghost use Rattle.circuits.specs.Circuit.{circuit_of};
ghost use Rattle.graph_core.specs.GraphValue.{name_by};
ghost use Rattle.loop_laws.specs.Faults.{InBody, Row};
ghost use Rattle.loop_laws.specs.declared.fault.LoopFaultKind.TheVariants.{BodyTooBig};
ghost use Rattle.loop_find.specs.Walks.{AreAll};

use crate::node_set::NodeSet;
use crate::weight::are_light;
use graph_core::{Graph, NodeId};

/// The greatest number of nodes of a body.
const MAX_NODES: usize = 4_096;

/// Whether the body of the mark has more nodes, or weighs more, than a body may.
pub(crate) fn is_too_big(g: &Graph, mark: NodeId, goes_back: bool, body: &NodeSet) -> bool
    requires { AreAll g.now (InBody (circuit_of g.now.graph) (name_by g.now.ids mark) goes_back) body.now.ids }
    ensures { IsTrue result ↔ Row (circuit_of g.now.graph) (name_by g.now.ids mark) goes_back BodyTooBig (name_by g.now.ids mark) }
{
    g.is_graph();
    let _ = (mark, goes_back);
    body.differ();
    if body.len() > MAX_NODES {
        return true;
    }
    !are_light(g, body)
}
