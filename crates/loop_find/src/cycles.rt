//! Which loops of a graph lie on cycles.
ghost use Rattle.std.specs.Prelude.{◌≡◌, ◌<◌, ℕ, IfOk, OnOk, length, Some, slice_get};
ghost use Rattle.circuits.specs.Circuit.{Typed, circuit_of};
ghost use Rattle.graph_core.specs.GraphValue.{Denotes, name_by};
ghost use Rattle.graph_core.specs.Place.{id_of};
ghost use Rattle.loop_find.specs.Crossings.{Adds, Crosses, CrossesNode, IsGraphOfPlaces};
ghost use Rattle.loop_find.specs.OnCycle.{AreLoops, AreToldOf, TellsOnCycle};
ghost use Rattle.loop_find.specs.Spots.{AreSpots};

use crate::shape::LoopShape;
use crate::spots::{Spot, find_spots, leaves, vertex};
use components::inputs;
use digraph::Digraph;
use graph_core::{Graph, NodeId, PortAt};
use port_types::NoMemory;
use std::alloc::Global;

/// For each loop of the marks of a typed graph whether it lies on a cycle: whether a walk leads from one of its exits to one of its
/// fresh inputs. A walk takes each loop as one place, which it enters by any wire and leaves by any exit. The loops are those of all
/// marks. The time is linear in the graph. The only error is want of memory.
pub fn on_cycles(alloc: Global, g: &Graph, loops: &[LoopShape]) -> Result<Vec<bool>, NoMemory>
    requires typed { Typed (circuit_of g.now.graph) }
    requires loops { AreLoops g.now loops.now }
    ensures { IfOk result (λ told. TellsOnCycle g.now loops.now told.items) }
{
    g.is_graph();
    let spots = find_spots(alloc, g, loops)?;
    let graph = graph_of_places(alloc, g, loops, &spots)?;
    let on = digraph::on_cycles(alloc, &graph)?;
    told_of_marks(alloc, g, loops, &on)
}

/// The graph of numbers that has an edge for each wire that a walk may go by. The only error is want of memory.
fn graph_of_places(
    alloc: Global,
    g: &Graph,
    loops: &[LoopShape],
    spots: &[Spot],
) -> Result<Digraph, NoMemory>
    requires typed { Typed (circuit_of g.now.graph) }
    requires loops { AreLoops g.now loops.now }
    requires spots { AreSpots g.now loops.now spots.now }
    ensures { IfOk result (λ graph. IsGraphOfPlaces g.now spots.now graph) }
{
    g.is_graph();
    let mut graph = Digraph::new(alloc, g.slots())?;
    for index in 0..g.slots() {
        add_at(g, loops, spots, index, &mut graph)?;
    }
    Ok(graph)
}

/// Adds an edge for each wire into the node of an index, if there is one, that a walk may go by. The only error is want of memory.
fn add_at(
    g: &Graph,
    loops: &[LoopShape],
    spots: &[Spot],
    index: usize,
    graph: &mut Digraph,
) -> Result<(), NoMemory>
    requires typed { Typed (circuit_of g.now.graph) }
    requires loops { AreLoops g.now loops.now }
    requires spots { AreSpots g.now loops.now spots.now }
    requires size { length graph.old ≡ g.now.slots }
    ensures { OnOk result (Adds (CrossesNode g.now spots.now (id_of index)) graph.old graph.new) }
{
    g.is_graph();
    match g.id_at(index) {
        Some(id) => add_wires(g, loops, spots, id, graph),
        None => Ok(()),
    }
}

/// Adds an edge for each wire into a node that a walk may go by. The only error is want of memory.
fn add_wires(
    g: &Graph,
    loops: &[LoopShape],
    spots: &[Spot],
    id: NodeId,
    graph: &mut Digraph,
) -> Result<(), NoMemory>
    requires typed { Typed (circuit_of g.now.graph) }
    requires loops { AreLoops g.now loops.now }
    requires spots { AreSpots g.now loops.now spots.now }
    requires live { Denotes g.now id (name_by g.now.ids id) }
    requires size { length graph.old ≡ g.now.slots }
    ensures { OnOk result (Adds (CrossesNode g.now spots.now id) graph.old graph.new) }
{
    g.is_graph();
    let Some(node) = g.node(id) else {
        unreachable!();
    };
    for port in 1..=inputs(&node.kind) {
        add_wire(g, loops, spots, PortAt { node: id, port }, graph)?;
    }
    Ok(())
}

/// Adds an edge for the wire into an input, if there is one and a walk may go by it. The only error is want of memory.
fn add_wire(
    g: &Graph,
    loops: &[LoopShape],
    spots: &[Spot],
    target: PortAt,
    graph: &mut Digraph,
) -> Result<(), NoMemory>
    requires typed { Typed (circuit_of g.now.graph) }
    requires loops { AreLoops g.now loops.now }
    requires spots { AreSpots g.now loops.now spots.now }
    requires size { length graph.old ≡ g.now.slots }
    ensures { OnOk result (Adds (Crosses g.now spots.now target) graph.old graph.new) }
{
    g.is_graph();
    let _ = loops;
    let Some(source) = g.wire_into(target) else {
        return Ok(());
    };
    if !leaves(spots, source.node, source.port) {
        return Ok(());
    }
    graph.add_edge(vertex(spots, source.node), vertex(spots, target.node))
}

/// What is told of the marks of these loops. The only error is want of memory.
fn told_of_marks(
    alloc: Global,
    g: &Graph,
    loops: &[LoopShape],
    on: &[bool],
) -> Result<Vec<bool>, NoMemory>
    requires typed { Typed (circuit_of g.now.graph) }
    requires loops { AreLoops g.now loops.now }
    requires size { length on.now ≡ g.now.slots }
    ensures { IfOk result (λ told. AreToldOf on.now loops.now told.items) }
{
    g.is_graph();
    let mut told = Vec::new(alloc);
    for shape in loops {
        told.push(on[shape.mark.index()])?;
    }
    Ok(told)
}
