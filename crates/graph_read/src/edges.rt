//! The wires of edges.
ghost use Rattle.std.specs.Prelude.{◌≡◌, None, Some, codes, IfOk, IfErr, MatchOption};
ghost use Rattle.std.specs.FinMap as map_of;
ghost use Rattle.components.specs.Kind.{Shape, KindOk, ports};
ghost use Rattle.components.specs.Name.{Name};
ghost use Rattle.components.specs.Node.{Body};
ghost use Rattle.graph_core.specs.GraphValue.{Denotes, port_of};
ghost use Rattle.graph_core.specs.Wiring.{HasShape};
ghost use Rattle.graph_read.specs.Refusals.{IsRefusal};
ghost use Rattle.graph_read.specs.Attributes.{last_value};
ghost use Rattle.graph_read.specs.GraphReading.{named_in, port_there, wire_between, edge_reading, edges_reading};
ghost use Rattle.graph_read.specs.GraphSteps.{IsPortThere, IsEnd, AreEnds, IsJoined};

use crate::attributes::last_value;
use crate::fault::GraphFaultKind::{PortTaken, ShapeDiffers, UnknownNode, UnknownPort};
use crate::fault::StatementFault::{self, Refused};
use crate::fault::{GraphFault, refusal_at};
use components::{Kind, port_count};
use dot_text::DocEdge;
use graph_core::{AddWire, Graph, NodeId, PortAt};
use port_types::{Side, Text, read_port_name};
use std::alloc::Global;

/// The number of the port of this kind that the text names.
fn port_number(kind: &Kind, side: Side, text: &[u8]) -> Option<u8>
    requires { KindOk kind.now }
    ensures { MatchOption result (named_in side text.now 1 (ports kind.now side) ≡ None) (IsPortThere side text.now (ports kind.now side)) }
{
    let count = port_count(kind, side);
    let number = read_port_name(text, side)?;
    if number <= count { Some(number) } else { None }
}

/// The port of a node that the last pair of this key names.
fn end_at(g: &Graph, id: NodeId, side: Side, key: &[u8], pairs: &[(Text, Text)]) -> Option<PortAt>
    ensures { (name : Name) (body : Body) → Denotes g.now id name → map_of.get g.now.graph.nodes name ≡ Some body
        → MatchOption result (port_there side name body (last_value key.now pairs.now) ≡ None) (IsEnd side name body (last_value key.now pairs.now) id) }
{
    let node = g.node(id)?;
    let text = last_value(key, pairs)?;
    let port = port_number(&node.kind, side, text)?;
    Some(PortAt { node: id, port })
}

/// The output and the input that an edge names.
fn ends_of(g: &Graph, edge: &DocEdge) -> Result<(PortAt, PortAt), StatementFault>
    ensures { AreEnds g.now edge.now result }
{
    g.is_graph();
    let Some(from) = g.find(edge.source.bytes()) else {
        return Err(Refused(UnknownNode));
    };
    let Some(to) = g.find(edge.target.bytes()) else {
        return Err(Refused(UnknownNode));
    };
    let pairs = edge.pairs.as_slice();
    let Some(source) = end_at(g, from, Side::Outs, b"from", pairs) else {
        return Err(Refused(UnknownPort));
    };
    let Some(target) = end_at(g, to, Side::Ins, b"to", pairs) else {
        return Err(Refused(UnknownPort));
    };
    Ok((source, target))
}

/// Joins an output to an input, which are there.
fn join(g: &mut Graph, source: PortAt, target: PortAt) -> Result<(), StatementFault>
    ensures joined { (a b : Shape) → HasShape g.old.graph Side.Outs (port_of g.old source) a → HasShape g.old.graph Side.Ins (port_of g.old target) b
        → IsJoined (wire_between g.old.graph (Some (port_of g.old source, a)) (Some (port_of g.old target, b))) g.old.graph g.new.graph result }
    ensures ids { g.new.ids ≡ g.old.ids }
    ensures slots { g.new.slots ≡ g.old.slots }
{
    match g.add_wire(source, target) {
        Ok(()) => Ok(()),
        Err(AddWire::UnknownPort) => Err(Refused(UnknownPort)),
        Err(AddWire::PortTaken) => Err(Refused(PortTaken)),
        Err(AddWire::ShapeDiffers) => Err(Refused(ShapeDiffers)),
        Err(AddWire::NoMemory) => Err(StatementFault::NoMemory),
    }
}

/// Adds the wire of an edge.
fn add_edge(g: &mut Graph, edge: &DocEdge) -> Result<(), StatementFault>
    ensures joined { IsJoined (edge_reading g.old.graph edge.now) g.old.graph g.new.graph result }
    ensures ids { g.new.ids ≡ g.old.ids }
    ensures slots { g.new.slots ≡ g.old.slots }
{
    let (source, target) = ends_of(g, edge)?;
    join(g, source, target)
}

/// Adds the wires of edges, or answers the first refusal, with the place of the edge among them, counted from 1, and the name of its target.
pub(crate) fn add_edges(alloc: Global, g: &mut Graph, edges: &[DocEdge]) -> Result<(), GraphFault>
    ensures ok { IfOk result (λ _. edges_reading g.old.graph 1 edges.now ≡ Ok g.new.graph) }
    ensures refused { IfErr result (IsRefusal (edges_reading g.old.graph 1 edges.now)) }
    ensures ids { g.new.ids ≡ g.old.ids }
    ensures slots { g.new.slots ≡ g.old.slots }
{
    for (index, edge) in edges.iter().enumerate() {
        if let Err(fault) = add_edge(g, edge) {
            return Err(refusal_at(alloc, fault, index + 1, &edge.target));
        }
    }
    Ok(())
}
