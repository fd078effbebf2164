//! In which loop each node of a graph is.
ghost use Rattle.std.specs.Prelude.{◌≡◌, ◌∷◌, [], IfOk, slice_get, slice_set};
ghost use Rattle.circuits.specs.Circuit.{Typed, circuit_of};
ghost use Rattle.graph_core.specs.Place.{index_of};
ghost use Rattle.loop_find.specs.OnCycle.{AreLoops};
ghost use Rattle.loop_find.specs.Spots.{AreSpots, exit_port, all_lane_writes, all_writes, lane_writes, leaves_at, loop_writes, vertex_at, writes_to, written};

use crate::shape::{Lane, LoopShape};
use graph_core::{Graph, NodeId};
use port_types::NoMemory;
use std::alloc::Global;

/// In which loop a node is.
#[derive(Clone, Copy, Debug, PartialEq, Eq)]
pub(crate) enum Spot {
    /// In none.
    Alone,
    /// In the loop whose mark has this index, and no Branch of it.
    Inside(usize),
    /// A Branch of the loop whose mark has this index, with the output that leads out.
    Branch(usize, u8),
}

/// For each index the spot of its node, where the loops are those of all marks. The only error is want of memory.
pub(crate) fn find_spots(
    alloc: Global,
    g: &Graph,
    loops: &[LoopShape],
) -> Result<Vec<Spot>, NoMemory>
    requires typed { Typed (circuit_of g.now.graph) }
    requires loops { AreLoops g.now loops.now }
    ensures { IfOk result (λ spots. AreSpots g.now loops.now spots.items) }
{
    g.is_graph();
    let mut spots = vec![in alloc; Spot::Alone; g.slots()]?;
    write_loops(&mut spots, loops);
    Ok(spots)
}

/// The number at which a node stands: that of the mark of its loop, or its own.
pub(crate) fn vertex(spots: &[Spot], id: NodeId) -> usize
    ensures { result ≡ vertex_at spots.now id }
{
    match spots.get(id.index()) {
        Some(Spot::Inside(at) | Spot::Branch(at, _)) => *at,
        _ => id.index(),
    }
}

/// Whether a walk may go by a wire from an output: one that leads out of a loop, or one of a node that is in none.
pub(crate) fn leaves(spots: &[Spot], id: NodeId, port: u8) -> bool
    ensures { result ≡ leaves_at spots.now id port }
{
    match spots.get(id.index()) {
        Some(Spot::Alone) => true,
        Some(Spot::Branch(_, exit)) => port == *exit,
        _ => false,
    }
}

/// Writes the spots of the nodes of all loops.
fn write_loops(spots: &mut Vec<Spot>, loops: &[LoopShape])
    ensures { spots.new.items ≡ written (all_writes loops.now) spots.old.items }
{
    for shape in loops {
        write_loop(spots, shape);
    }
}

/// Writes the spots of the nodes of a loop.
fn write_loop(spots: &mut Vec<Spot>, shape: &LoopShape)
    ensures { spots.new.items ≡ written (loop_writes shape.now) spots.old.items }
{
    let at = shape.mark.index();
    write_all(spots, shape.tree.as_slice(), Spot::Inside(at));
    write_all(spots, shape.body.as_slice(), Spot::Inside(at));
    write_lanes(spots, at, exit(shape.back_bit), shape.lanes.as_slice());
    write(spots, shape.mark, Spot::Inside(at));
}

/// The output of a Branch that leads out of a loop which goes back on this bit.
fn exit(back_bit: u8) -> u8
    ensures { result ≡ exit_port back_bit }
{
    if back_bit == 1 { 2 } else { 1 }
}

/// Writes the spots of the nodes of lanes.
fn write_lanes(spots: &mut Vec<Spot>, at: usize, exit: u8, lanes: &[Lane])
    ensures { spots.new.items ≡ written (all_lane_writes at exit lanes.now) spots.old.items }
{
    for lane in lanes {
        write_lane(spots, at, exit, lane);
    }
}

/// Writes the spots of the nodes of a lane.
fn write_lane(spots: &mut Vec<Spot>, at: usize, exit: u8, lane: &Lane)
    ensures { spots.new.items ≡ written (lane_writes at exit lane.now) spots.old.items }
{
    write_all(spots, lane.back.as_slice(), Spot::Inside(at));
    write(spots, lane.mux, Spot::Inside(at));
    write(spots, lane.branch, Spot::Branch(at, exit));
}

/// Writes one spot for all of these nodes.
fn write_all(spots: &mut Vec<Spot>, ids: &[NodeId], spot: Spot)
    ensures { spots.new.items ≡ written (writes_to spot ids.now) spots.old.items }
{
    for id in ids {
        write(spots, *id, spot);
    }
}

/// Writes the spot of a node.
fn write(spots: &mut Vec<Spot>, id: NodeId, spot: Spot)
    ensures { spots.new.items ≡ slice_set spots.old.items (index_of id) spot }
{
    if let Some(place) = spots.get_mut(id.index()) {
        *place = spot;
    }
}
