//! The nodes of a body that lie on cycles of it.
ghost use Rattle.std.specs.Prelude.{◌≡◌, ◌<◌, ◌≤◌, IfOk, OnOk, Some, length, slice_get};
ghost use Rattle.circuits.specs.Circuit.{circuit_of};
ghost use Rattle.graph_core.specs.GraphValue.{Denotes, name_by, port_of};
ghost use Rattle.loop_laws.specs.Faults.{InBody, Row};
ghost use Rattle.loop_laws.specs.declared.fault.LoopFaultKind.TheVariants.{BodyCycle};
ghost use Rattle.loop_find.specs.BodyGraphs.{AreTold, InputEdge, IsGraphOfSet, IsTold, NodeEdge};
ghost use Rattle.loop_find.specs.Crossings.{Adds};
ghost use Rattle.loop_find.specs.Judging.{IsJudged};
ghost use Rattle.loop_find.specs.Walks.{AreAll, AreLive};

use crate::least::least;
use crate::node_set::NodeSet;
use components::inputs;
use digraph::Digraph;
use graph_core::{Graph, NodeId, PortAt};
use port_types::NoMemory;
use std::alloc::Global;

/// The least body node by name that lies on a cycle of the body. `None` exactly where there is none. The time is linear in the body.
/// The only error is want of memory.
pub(crate) fn body_cycle(
    alloc: Global,
    g: &Graph,
    mark: NodeId,
    goes_back: bool,
    body: &NodeSet,
    found: &mut NodeSet,
) -> Result<Option<NodeId>, NoMemory>
    requires body { AreAll g.now (InBody (circuit_of g.now.graph) (name_by g.now.ids mark) goes_back) body.now.ids }
    requires room { g.now.slots ≤ found.old.room }
    ensures node { IfOk result (IsJudged g.now (Row (circuit_of g.now.graph) (name_by g.now.ids mark) goes_back BodyCycle)) }
    ensures room { found.new.room ≡ found.old.room }
{
    g.is_graph();
    body.differ();
    let _ = (mark, goes_back);
    let graph = graph_of(alloc, g, body)?;
    let on = digraph::on_cycles(alloc, &graph)?;
    choose_told(g, body, &on, found)?;
    Ok(least(g, found))
}

/// The graph of the places of the nodes, with an edge for each wire between them. The only error is want of memory.
fn graph_of(alloc: Global, g: &Graph, set: &NodeSet) -> Result<Digraph, NoMemory>
    requires { AreLive g.now set.now.ids }
    ensures { IfOk result (IsGraphOfSet g.now set.now.ids) }
{
    g.is_graph();
    let mut graph = Digraph::new(alloc, set.len())?;
    let mut place = 0;
    while place < set.len() {
        set.fits();
        add_inputs(g, set, set.at(place), place, &mut graph)?;
        place += 1;
    }
    Ok(graph)
}

/// Adds an edge for each wire from a node of the set into the node at a place of it. The only error is want of memory.
fn add_inputs(
    g: &Graph,
    set: &NodeSet,
    id: NodeId,
    place: usize,
    graph: &mut Digraph,
) -> Result<(), NoMemory>
    requires live { Denotes g.now id (name_by g.now.ids id) }
    requires within { place < length set.now.ids }
    requires size { length graph.old ≡ length set.now.ids }
    ensures { OnOk result (Adds (NodeEdge g.now set.now.ids (name_by g.now.ids id) place) graph.old graph.new) }
{
    g.is_graph();
    let Some(node) = g.node(id) else {
        unreachable!();
    };
    for port in 1..=inputs(&node.kind) {
        add_input(g, set, PortAt { node: id, port }, place, graph)?;
    }
    Ok(())
}

/// Adds an edge for the wire from a node of the set into an input of the node at a place of it, if there is one. The only error is
/// want of memory.
fn add_input(
    g: &Graph,
    set: &NodeSet,
    target: PortAt,
    place: usize,
    graph: &mut Digraph,
) -> Result<(), NoMemory>
    requires within { place < length set.now.ids }
    requires size { length graph.old ≡ length set.now.ids }
    ensures { OnOk result (Adds (InputEdge g.now set.now.ids (port_of g.now target) place) graph.old graph.new) }
{
    g.is_graph();
    set.differ();
    let Some(source) = g.wire_into(target) else {
        return Ok(());
    };
    let Some(from) = set.place(source.node) else {
        return Ok(());
    };
    graph.add_edge(from, place)
}

/// Makes `found` the set of the nodes at the places of which this is told. The only error is want of memory.
fn choose_told(g: &Graph, set: &NodeSet, on: &[bool], found: &mut NodeSet) -> Result<(), NoMemory>
    requires live { AreLive g.now set.now.ids }
    requires size { length on.now ≡ length set.now.ids }
    requires room { g.now.slots ≤ found.old.room }
    ensures told { OnOk result (AreTold set.now.ids on.now found.new.ids) }
    ensures room { found.new.room ≡ found.old.room }
{
    g.is_graph();
    found.clear();
    let mut place = 0;
    while place < set.len() {
        set.fits();
        enter_told(g, set.at(place), on, place, found)?;
        place += 1;
    }
    Ok(())
}

/// Puts the node in if this is told of the place. The only error is want of memory.
fn enter_told(
    g: &Graph,
    id: NodeId,
    on: &[bool],
    place: usize,
    found: &mut NodeSet,
) -> Result<(), NoMemory>
    requires live { Denotes g.now id (name_by g.now.ids id) }
    requires within { place < length on.now }
    requires room { g.now.slots ≤ found.old.room }
    ensures told { OnOk result (IsTold on.now place id found.old.ids found.new.ids) }
    ensures room { found.new.room ≡ found.old.room }
{
    g.is_graph();
    if on[place] {
        return found.insert(id);
    }
    Ok(())
}
