//! The node of a statement.
//!
//! For the layer above, in the order of the refusals: `has_allowed_name` tells `BadName`, the graph tells `NameTaken`, `read_node`
//! gives the node or the kind's first refusal, and the place of the node tells `TooMany`.
ghost use Rattle.std.specs.Prelude.{◌≡◌, ◌≤◌, length, map, All, IsTrue, IfOk, MatchResult};
ghost use Rattle.components.specs.Kind.{KindOk};
ghost use Rattle.components.specs.Name.{IsName};
ghost use Rattle.components.specs.Node.{NodeOk, body_of};
ghost use Rattle.port_types.specs.PortGrammar.{reading};
ghost use Rattle.port_types.specs.PortText.{side_word};
ghost use Rattle.port_types.specs.Shape.{IsShape};
ghost use Rattle.graph_read.specs.Answers.{IsRead, IsNodeRead};
ghost use Rattle.graph_read.specs.Attributes.{last_value};
ghost use Rattle.graph_read.specs.NodeReading.{is_memory, has_star, shapes_in, side_reading, component_reading, kind_reading, body_reading, is_name};

use crate::attributes::last_value;
use crate::fault::GraphFaultKind::{BadPorts, MemoryNode, MemoryPort, NoKind, UnknownKind};
use crate::fault::StatementFault::{self, Refused};
use crate::kept::kept_of;
use crate::laws::rows_are_met;
use crate::rows::kind_at;
use components::{Component, Kind, Node, component_of, is_name};
use dot_text::DocNode;
use port_types::{Items, Port, PortFault, Shape, Side, Text, read_ports, reads_ports};
use std::alloc::Global;

/// Whether a node may have the name of the statement: 1 to 255 bytes, none of them below 33, a double quote or a backslash.
pub(crate) fn has_allowed_name(statement: &DocNode) -> bool
    ensures same { result ≡ is_name statement.now.name }
    ensures name { IsTrue result → IsName statement.now.name }
{
    // A proof knows that a `Text` is UTF-8 once its bytes are read.
    let _ = statement.name.bytes();
    is_name(&statement.name)
}

/// The node that the statement says, with its last pairs, or the first refusal that its pairs give, from `NoKind` to `BadTags`.
pub(crate) fn read_node(alloc: Global, statement: &DocNode) -> Result<Node, StatementFault>
    requires { IsName statement.now.name }
    ensures { IsNodeRead statement.now.name (body_reading statement.now.pairs) result }
{
    let pairs = statement.pairs.as_slice();
    let kind = read_kind(alloc, pairs)?;
    let name = statement.name.clone()?;
    let kept = kept_of(alloc, &kind, pairs)?;
    Ok(Node { name, kind, kept })
}

/// The kind that the pairs of a node say.
fn read_kind(alloc: Global, pairs: &[(Text, Text)]) -> Result<Kind, StatementFault>
    ensures reading { IsRead (kind_reading pairs.now) result }
    ensures ok { IfOk result KindOk }
{
    let Some(word) = last_value(b"type", pairs) else {
        return Err(Refused(NoKind));
    };
    match component_of(word) {
        Some(component) => read_component(alloc, component, pairs),
        None if is_memory(word) => Err(Refused(MemoryNode)),
        None => Err(Refused(UnknownKind)),
    }
}

/// Whether it is the word of a node of a memory.
fn is_memory(word: &[u8]) -> bool
    ensures { result ≡ is_memory word.now }
{
    word == b"MC".as_slice() || word == b"LSQ".as_slice()
}

/// The kind of a component with the ports that the pairs say.
fn read_component(
    alloc: Global,
    component: Component,
    pairs: &[(Text, Text)],
) -> Result<Kind, StatementFault>
    ensures reading { IsRead (component_reading component pairs.now) result }
    ensures ok { IfOk result KindOk }
{
    if has_star(pairs, Side::Ins) || has_star(pairs, Side::Outs) {
        return Err(Refused(MemoryPort));
    }
    let ins = read_side(alloc, pairs, Side::Ins)?;
    let outs = read_side(alloc, pairs, Side::Outs)?;
    rows_are_met();
    let kind = kind_at(alloc, component, ins.as_slice(), outs.as_slice(), pairs)?;
    Ok(kind)
}

/// Whether the text of the side holds `*`, as a word for a port to a memory does.
fn has_star(pairs: &[(Text, Text)], side: Side) -> bool
    ensures { result ≡ has_star (last_value (side_word side) pairs.now) }
{
    match last_value(side.word().as_bytes(), pairs) {
        Some(text) => text.contains(&b'*'),
        None => false,
    }
}

/// The shapes of the ports of a side, none where there is no text.
fn read_side(
    alloc: Global,
    pairs: &[(Text, Text)],
    side: Side,
) -> Result<Items<Shape>, StatementFault>
    ensures reading { IsRead (side_reading side pairs.now) result }
    ensures few { IfOk result (λ shapes. length shapes ≤ 64) }
    ensures shapes { IfOk result (λ shapes. All IsShape shapes) }
{
    match last_value(side.word().as_bytes(), pairs) {
        Some(text) => read_text(alloc, text, side),
        None => Ok(Items::new(Vec::new(alloc))),
    }
}

/// The shapes of the ports that a text says.
fn read_text(alloc: Global, text: &[u8], side: Side) -> Result<Items<Shape>, StatementFault>
    ensures reading { IsRead (shapes_in (reading side text.now)) result }
    ensures few { IfOk result (λ shapes. length shapes ≤ 64) }
    ensures shapes { IfOk result (λ shapes. All IsShape shapes) }
{
    reads_ports();
    match read_ports(alloc, text, side) {
        Ok(ports) => Ok(shapes_of(alloc, ports)?),
        Err(PortFault::NoMemory) => Err(StatementFault::NoMemory),
        Err(_) => Err(Refused(BadPorts)),
    }
}

/// The shapes of the ports. The only error is want of memory.
fn shapes_of(alloc: Global, ports: Items<Port>) -> Result<Items<Shape>, StatementFault>
    ensures { MatchResult result (λ shapes. shapes ≡ map (λ port. port.shape) ports) (λ fault. fault ≡ StatementFault.NoMemory) }
{
    let mut shapes = Vec::new(alloc);
    for port in ports.into_vec() {
        shapes.push(port.shape)?;
    }
    Ok(Items::new(shapes))
}
