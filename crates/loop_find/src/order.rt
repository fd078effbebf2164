//! The order of a body.
ghost use Rattle.std.specs.Prelude.{◌≡◌, ◌↔◌, ◌≤◌, [], IsTrue, OnOk};
ghost use Rattle.circuits.specs.Circuit.{circuit_of};
ghost use Rattle.components.specs.Name.{Name};
ghost use Rattle.graph_core.specs.GraphValue.{Denotes, name_by, port_of};
ghost use Rattle.loop_laws.specs.BodyOrder.{InBodyOrder};
ghost use Rattle.loop_laws.specs.Faults.{InBody, Row};
ghost use Rattle.loop_laws.specs.declared.fault.LoopFaultKind.TheVariants.{BodyCycle};
ghost use Rattle.loop_find.specs.BodyOrders.{IsFed, IsFedAt, IsFedBy, IsFedFrom, IsNext, Queues};
ghost use Rattle.loop_find.specs.Marks.{names_by};
ghost use Rattle.loop_find.specs.Walks.{AreAll, AreLive, Has};

use crate::least::name_of;
use crate::node_set::NodeSet;
use components::{inputs, outputs};
use graph_core::{Graph, NodeId, PortAt};
use port_types::NoMemory;
use std::alloc::Global;
use std::collections::BTreeMap;

/// Makes `placed` the set of the nodes of a body without a cycle in its order: again and again the least by name whose inputs from the
/// body are all placed. The only error is want of memory.
pub(crate) fn order_body(
    alloc: Global,
    g: &Graph,
    mark: NodeId,
    goes_back: bool,
    body: &NodeSet,
    placed: &mut NodeSet,
) -> Result<(), NoMemory>
    requires body { AreAll g.now (InBody (circuit_of g.now.graph) (name_by g.now.ids mark) goes_back) body.now.ids }
    requires acyclic { (n : Name) → ¬ (Row (circuit_of g.now.graph) (name_by g.now.ids mark) goes_back BodyCycle n) }
    requires room { g.now.slots ≤ placed.old.room }
    ensures all { OnOk result (AreAll g.now (InBody (circuit_of g.now.graph) (name_by g.now.ids mark) goes_back) placed.new.ids) }
    ensures in_order { OnOk result (InBodyOrder (circuit_of g.now.graph) (names_by g.now placed.new.ids) [] (names_by g.now placed.new.ids)) }
    ensures room { placed.new.room ≡ placed.old.room }
{
    g.is_graph();
    let _ = (mark, goes_back);
    placed.clear();
    let mut ready = BTreeMap::new(alloc);
    enter_all(g, body, placed, &mut ready)?;
    while let Some((_, id)) = ready.pop_first() {
        placed.insert(id)?;
        placed.fits();
        enter_targets(g, body, placed, id, &mut ready)?;
    }
    Ok(())
}

/// Puts in all nodes that are next. The only error is want of memory.
fn enter_all<'a>(
    g: &'a Graph,
    body: &NodeSet,
    placed: &NodeSet,
    ready: &mut BTreeMap<&'a [u8], NodeId>,
) -> Result<(), NoMemory>
    requires { AreLive g.now body.now.ids }
    ensures { OnOk result (Queues g.now body.now.ids placed.now.ids (Has g.now body.now.ids) ready.old.entries ready.new.entries) }
{
    g.is_graph();
    let mut next = 0;
    while next < body.len() {
        body.fits();
        enter(g, body, placed, body.at(next), ready)?;
        next += 1;
    }
    Ok(())
}

/// Puts in the nodes that are next and that the node feeds. The only error is want of memory.
fn enter_targets<'a>(
    g: &'a Graph,
    body: &NodeSet,
    placed: &NodeSet,
    id: NodeId,
    ready: &mut BTreeMap<&'a [u8], NodeId>,
) -> Result<(), NoMemory>
    requires { Denotes g.now id (name_by g.now.ids id) }
    ensures { OnOk result (Queues g.now body.now.ids placed.now.ids (IsFedBy g.now (name_by g.now.ids id)) ready.old.entries ready.new.entries) }
{
    g.is_graph();
    let Some(node) = g.node(id) else {
        unreachable!();
    };
    for port in 1..=outputs(&node.kind) {
        enter_target(g, body, placed, PortAt { node: id, port }, ready)?;
    }
    Ok(())
}

/// Puts in the node that the output feeds, if it is next. The only error is want of memory.
fn enter_target<'a>(
    g: &'a Graph,
    body: &NodeSet,
    placed: &NodeSet,
    source: PortAt,
    ready: &mut BTreeMap<&'a [u8], NodeId>,
) -> Result<(), NoMemory>
    ensures { OnOk result (Queues g.now body.now.ids placed.now.ids (IsFedFrom g.now (port_of g.now source)) ready.old.entries ready.new.entries) }
{
    g.is_graph();
    match g.wire_from(source) {
        Some(target) => enter(g, body, placed, target.node, ready),
        None => Ok(()),
    }
}

/// Puts the node in, if it is next. The only error is want of memory.
fn enter<'a>(
    g: &'a Graph,
    body: &NodeSet,
    placed: &NodeSet,
    id: NodeId,
    ready: &mut BTreeMap<&'a [u8], NodeId>,
) -> Result<(), NoMemory>
    requires { Denotes g.now id (name_by g.now.ids id) }
    ensures { OnOk result (Queues g.now body.now.ids placed.now.ids (λ n. n ≡ name_by g.now.ids id) ready.old.entries ready.new.entries) }
{
    g.is_graph();
    if !is_next(g, body, placed, id) {
        return Ok(());
    }
    ready.insert(name_of(g, id), id)?;
    Ok(())
}

/// Whether the node is one of the body that is not placed, while what feeds it from the body is.
fn is_next(g: &Graph, body: &NodeSet, placed: &NodeSet, id: NodeId) -> bool
    requires { Denotes g.now id (name_by g.now.ids id) }
    ensures { IsTrue result ↔ IsNext g.now body.now.ids placed.now.ids (name_by g.now.ids id) }
{
    g.is_graph();
    body.contains(id) && !placed.contains(id) && is_fed(g, body, placed, id)
}

/// Whether what feeds the node from the body is placed.
fn is_fed(g: &Graph, body: &NodeSet, placed: &NodeSet, id: NodeId) -> bool
    requires { Denotes g.now id (name_by g.now.ids id) }
    ensures { IsTrue result ↔ IsFed g.now body.now.ids placed.now.ids (name_by g.now.ids id) }
{
    g.is_graph();
    let Some(node) = g.node(id) else {
        unreachable!();
    };
    for port in 1..=inputs(&node.kind) {
        if !is_fed_at(g, body, placed, PortAt { node: id, port }) {
            return false;
        }
    }
    true
}

/// Whether what feeds the input, if it comes from the body, is placed.
fn is_fed_at(g: &Graph, body: &NodeSet, placed: &NodeSet, target: PortAt) -> bool
    ensures { IsTrue result ↔ IsFedAt g.now body.now.ids placed.now.ids (port_of g.now target) }
{
    g.is_graph();
    match g.wire_into(target) {
        Some(source) => !body.contains(source.node) || placed.contains(source.node),
        None => true,
    }
}
