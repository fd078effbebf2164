//! Nodes of graphs by their ids.
ghost use Rattle.std.specs.Prelude.{◌≡◌};
ghost use Rattle.std.specs.Option.{option_copied};
ghost use Rattle.circuits.specs.Circuit.{circuit_of};
ghost use Rattle.graph_core.specs.GraphValue.{name_by};

use components::Kind;
use graph_core::{Graph, NodeId};

/// The kind of the node of this id.
pub(crate) fn kind_of(g: &Graph, id: NodeId) -> Option<&Kind>
    ensures { option_copied result ≡ (circuit_of g.now.graph).kind_at (name_by g.now.ids id) }
{
    g.is_graph();
    Some(&g.node(id)?.kind)
}
