//! Nodes and ports of graphs by their names.
ghost use Rattle.std.specs.Prelude.{◌≡◌, ◌↔◌, Some, IsTrue};
ghost use Rattle.std.specs.Option.{option_copied};
ghost use Rattle.circuits.specs.Circuit.{circuit_of};
ghost use Rattle.circuits.specs.Replacing.{is_inner};
ghost use Rattle.circuits.specs.ReplacedGraph.{has_inner};
ghost use Rattle.graph_core.specs.GraphValue.{name_by, port_of};

use components::Kind;
use graph_core::{Graph, NodeId, PortAt};

/// Whether a node of this kind is neither an Entry nor an Exit.
pub(crate) fn is_inner(kind: &Kind) -> bool
    ensures { result ≡ is_inner (Some kind.now) }
{
    !matches!(kind, Kind::Entry(_) | Kind::Exit(_))
}

/// Whether the graph has an inner node of this name.
pub(crate) fn has_inner(g: &Graph, name: &[u8]) -> bool
    ensures { result ≡ has_inner g.now.graph name.now }
{
    match kind_at(g, name) {
        Some(kind) => is_inner(kind),
        None => false,
    }
}

/// The kind of the node with this name.
pub(crate) fn kind_at<'a>(g: &'a Graph, name: &[u8]) -> Option<&'a Kind>
    ensures { option_copied result ≡ (circuit_of g.now.graph).kind_at name.now }
{
    Some(&g.node(g.find(name)?)?.kind)
}

/// The kind of the node of this id.
pub(crate) fn kind_of(g: &Graph, id: NodeId) -> Option<&Kind>
    ensures { option_copied result ≡ (circuit_of g.now.graph).kind_at (name_by g.now.ids id) }
{
    g.is_graph();
    Some(&g.node(id)?.kind)
}

/// The name of the node of this id, and the empty one where none is live.
pub(crate) fn name_of(g: &Graph, id: NodeId) -> &[u8]
    ensures { result.now ≡ name_by g.now.ids id }
{
    match g.node(id) {
        Some(node) => node.name.bytes(),
        None => b"".as_slice(),
    }
}

/// Whether two ports have one number, and their nodes one name.
pub(crate) fn same_port(a: &Graph, p: PortAt, b: &Graph, q: PortAt) -> bool
    ensures { IsTrue result ↔ (port_of a.now p ≡ port_of b.now q) }
{
    p.port == q.port && name_of(a, p.node) == name_of(b, q.node)
}
