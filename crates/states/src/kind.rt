ghost use Rattle.std.specs.Prelude.{◌≡◌, Some, IsSome};
ghost use Rattle.std.specs.FinMap as finite;
ghost use Rattle.circuits.specs.Circuit.{circuit_of};
ghost use Rattle.graph_core.specs.GraphValue.{name_by};

use components::Kind;
use graph_core::{Graph, NodeId};

/// The kind of a node of the graph.
pub(crate) fn kind_at(g: &Graph, node: NodeId) -> &Kind
    requires { IsSome (finite.get g.now.ids node) }
    ensures { (circuit_of g.now.graph).kind_at (name_by g.now.ids node) ≡ Some result.now }
{
    match g.node(node) {
        Some(node) => &node.kind,
        None => unreachable!(),
    }
}
