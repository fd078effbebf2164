//! A link within one graph: an Exit that becomes a Buffer, and feeds what an Entry fed.
ghost use Rattle.std.specs.Prelude.{◌≡◌, Some, IfOk, OnOk};
ghost use Rattle.std.specs.FinMap as finite;
ghost use Rattle.components.specs.Name.{Port};
ghost use Rattle.components.specs.NamedGraph.{IsTyped, with_wire, without_node};
ghost use Rattle.circuits.specs.Buffers.{first_port};
ghost use Rattle.circuits.specs.PluggedGraph.{buffer_kind, link_graph};
ghost use Rattle.graph_core.specs.GraphValue.{name_by};
ghost use Rattle.module_sem.specs.Linking.{CanHandOn, CanJoin, IsBuffered, IsExit, buffer_node, ends_named};

use crate::beside::add;
use crate::standing::first_port;
use components::{Kind, Node};
use graph_core::{Graph, NodeId};
use port_types::NoMemory;

/// Puts a Buffer in the place of the Exit, which feeds what the Entry fed, and takes the Entry out. The only error is want of memory; the
/// graph is then in between.
pub(crate) fn link(h: &mut Graph, exit: NodeId, entry: NodeId) -> Result<(), NoMemory>
    requires typed { IsTyped h.old.graph }
    requires can { CanJoin h.old.graph (ends_named h.old exit entry) }
    ensures { OnOk result (h.new.graph ≡ link_graph (ends_named h.old exit entry) h.old.graph) }
{
    h.is_graph();
    let buffer = put_buffer(h, exit)?;
    feed_from(h, buffer, entry);
    Ok(())
}

/// Puts a Buffer in the place of the Exit, and answers its id. The only error is want of memory.
fn put_buffer(h: &mut Graph, exit: NodeId) -> Result<NodeId, NoMemory>
    requires typed { IsTyped h.old.graph }
    requires exit { IsExit h.old.graph (name_by h.old.ids exit) }
    ensures { IfOk result (λ buffer. IsBuffered h.old (name_by h.old.ids exit) buffer h.new) }
{
    h.is_graph();
    let source = h.source_of(first_port(exit));
    let Some(node) = h.remove_node(exit) else {
        unreachable!()
    };
    let buffer = add(h, as_buffer(node))?;
    h.join(source, first_port(buffer));
    Ok(buffer)
}

/// For an Exit, the Buffer of its name and shape, with its kept attributes.
fn as_buffer(node: Node) -> Node
    ensures { result ≡ buffer_node node }
{
    Node {
        name: node.name,
        kind: buffer_kind(node.kind),
        kept: node.kept,
    }
}

/// For an Exit, the Buffer of its shape.
fn buffer_kind(kind: Kind) -> Kind
    ensures { result ≡ buffer_kind kind }
{
    match kind {
        Kind::Exit(shape) => Kind::Buffer(shape),
        kind => kind,
    }
}

/// Joins a node's output to what the Entry fed, and takes the Entry out. Takes no memory.
fn feed_from(h: &mut Graph, buffer: NodeId, entry: NodeId)
    requires { CanHandOn h.old.graph (first_port (name_by h.old.ids entry)) (first_port (name_by h.old.ids buffer)) }
    ensures { (target : Port) → finite.get h.old.graph.feeders target ≡ Some (first_port (name_by h.old.ids entry)) →
        h.new.graph ≡ with_wire (without_node h.old.graph (name_by h.old.ids entry)) (first_port (name_by h.old.ids buffer)) target }
{
    h.is_graph();
    let Some(target) = h.wire_from(first_port(entry)) else {
        unreachable!()
    };
    let _ = h.remove_node(entry);
    h.join(first_port(buffer), target);
}
