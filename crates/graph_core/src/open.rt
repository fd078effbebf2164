//! Whether a graph is typed, and else its first open port.
ghost use Rattle.std.specs.Prelude.{◌↔◌, IsOk, IfErr, MatchBool, MatchOption, MatchResult};
ghost use Rattle.components.specs.NamedGraph.{IsTyped};
ghost use Rattle.graph_core.specs.GraphValue.{port_of};
ghost use Rattle.graph_core.specs.Open.{AreWired, IsClosed, IsFirstFree, IsFirstOpen, IsFirstOpenAt};
ghost use Rattle.graph_core.specs.Wiring.{IsWired};

use crate::graph::{Graph, PortOpen};
use crate::place::{NodeId, PortAt};
use components::{inputs, outputs};
use port_types::Side;

/// Whether each port of each node stands on a wire. If not, the error is the first that stands on none, in the order of ids, inputs before outputs, by number.
pub fn check_typed(g: &Graph) -> Result<(), PortOpen>
    ensures typed { IsOk result ↔ IsTyped g.now.graph }
    ensures first { IfErr result (IsFirstOpen g.now) }
{
    g.is_graph();
    for index in 0..g.slots() {
        check_node(g, NodeId::new(index))?;
    }
    Ok(())
}

/// Whether each port of the node stands on a wire. If not, the error is the first that stands on none, inputs before outputs, by number.
fn check_node(g: &Graph, id: NodeId) -> Result<(), PortOpen>
    ensures { MatchResult result (λ _. IsClosed g.now id) (IsFirstOpenAt g.now id) }
{
    g.is_graph();
    let Some(node) = g.node(id) else {
        return Ok(());
    };
    if let Some(port) = open_port(g, id, Side::Ins, inputs(&node.kind)) {
        return Err(PortOpen {
            node: id,
            side: Side::Ins,
            port,
        });
    }
    if let Some(port) = open_port(g, id, Side::Outs, outputs(&node.kind)) {
        return Err(PortOpen {
            node: id,
            side: Side::Outs,
            port,
        });
    }
    Ok(())
}

/// The first port that stands on no wire, among the first `count` of one side of a node.
fn open_port(g: &Graph, node: NodeId, side: Side, count: u8) -> Option<u8>
    ensures { MatchOption result (AreWired g.now side node count) (IsFirstFree g.now side node count) }
{
    for port in 1..=count {
        if !is_wired(g, side, PortAt { node, port }) {
            return Some(port);
        }
    }
    None
}

/// Whether the port stands on a wire.
fn is_wired(g: &Graph, side: Side, port: PortAt) -> bool
    ensures { MatchBool result (IsWired g.now.graph side (port_of g.now port)) (¬ (IsWired g.now.graph side (port_of g.now port))) }
{
    match side {
        Side::Ins => g.wire_into(port).is_some(),
        Side::Outs => g.wire_from(port).is_some(),
    }
}
