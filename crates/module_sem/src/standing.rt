//! What stands in a graph: nodes by index, and nodes by the ids of another graph.
ghost use Rattle.std.specs.Prelude.{◌≡◌, None, IsSome, MatchOption};
ghost use Rattle.std.specs.FinMap as finite;
ghost use Rattle.std.specs.Option.{option_copied};
ghost use Rattle.graph_core.specs.GraphValue.{Denotes, IsNodeAt, name_by};
ghost use Rattle.graph_core.specs.Place.{id_of};

use components::Node;
use graph_core::{Graph, NodeId, PortAt};

/// The live node of this index. `None` exactly where there is none.
pub(crate) fn node_at(g: &Graph, index: usize) -> Option<&Node>
    ensures { MatchOption (option_copied result) (finite.get g.now.ids (id_of index) ≡ None) (IsNodeAt g.now (id_of index)) }
{
    g.node(g.id_at(index)?)
}

/// The node of `h` that has the name of a node of `g`.
pub(crate) fn twin(h: &Graph, g: &Graph, id: NodeId) -> NodeId
    requires { IsSome (finite.get h.now.graph.nodes (name_by g.now.ids id)) }
    ensures { Denotes h.now result (name_by g.now.ids id) }
{
    match h.find(name_of(g, id)) {
        Some(twin) => twin,
        None => unreachable!(),
    }
}

/// The name of the node of this id, and the empty one where none is live.
fn name_of(g: &Graph, id: NodeId) -> &[u8]
    ensures { result.now ≡ name_by g.now.ids id }
{
    match g.node(id) {
        Some(node) => node.name.bytes(),
        None => b"".as_slice(),
    }
}

/// The only port of an Entry or an Exit, and the first on each side of a Buffer.
pub(crate) fn first_port(node: NodeId) -> PortAt
    ensures { result ≡ record { node = node; port = 1 } }
{
    PortAt { node, port: 1 }
}
