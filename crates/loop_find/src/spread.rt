//! Walks along wires, either way, within a set.
ghost use Rattle.std.specs.Prelude.{◌≡◌, ◌≤◌, OnOk};
ghost use Rattle.graph_core.specs.GraphValue.{Denotes, name_by, port_of};
ghost use Rattle.loop_find.specs.Spreading.{Brings, IsJoined, IsSource, IsTarget, JoinedTo, SourceOf, TargetOf};
ghost use Rattle.loop_find.specs.Walks.{AreAll, AreLive};

use crate::node_set::NodeSet;
use components::{inputs, outputs};
use graph_core::{Graph, NodeId, PortAt};
use port_types::NoMemory;

/// Puts in all nodes to which wires lead, either way, from those of the set, within another set. The only error is want of memory.
pub(crate) fn spread(g: &Graph, within: &NodeSet, seen: &mut NodeSet) -> Result<(), NoMemory>
    requires live { AreLive g.now seen.old.ids }
    requires room { g.now.slots ≤ seen.old.room }
    ensures all { OnOk result (AreAll g.now (JoinedTo g.now within.now.ids seen.old.ids) seen.new.ids) }
    ensures room { seen.new.room ≡ seen.old.room }
{
    g.is_graph();
    let mut next = 0;
    while next < seen.len() {
        seen.fits();
        let id = seen.at(next);
        enter_joined(g, within, id, seen)?;
        next += 1;
    }
    Ok(())
}

/// Puts in the nodes of a set that a wire joins with the node. The only error is want of memory.
fn enter_joined(g: &Graph, within: &NodeSet, id: NodeId, seen: &mut NodeSet) -> Result<(), NoMemory>
    requires live { Denotes g.now id (name_by g.now.ids id) }
    requires room { g.now.slots ≤ seen.old.room }
    ensures brings { OnOk result (Brings g.now (IsJoined g.now within.now.ids (name_by g.now.ids id)) seen.old.ids seen.new.ids) }
    ensures room { seen.new.room ≡ seen.old.room }
{
    g.is_graph();
    enter_targets(g, within, id, seen)?;
    enter_sources(g, within, id, seen)
}

/// Puts in the nodes of a set that the node feeds. The only error is want of memory.
pub(crate) fn enter_targets(
    g: &Graph,
    within: &NodeSet,
    id: NodeId,
    seen: &mut NodeSet,
) -> Result<(), NoMemory>
    requires live { Denotes g.now id (name_by g.now.ids id) }
    requires room { g.now.slots ≤ seen.old.room }
    ensures brings { OnOk result (Brings g.now (IsTarget g.now within.now.ids (name_by g.now.ids id)) seen.old.ids seen.new.ids) }
    ensures room { seen.new.room ≡ seen.old.room }
{
    g.is_graph();
    let Some(node) = g.node(id) else {
        unreachable!();
    };
    for port in 1..=outputs(&node.kind) {
        enter_target(g, within, PortAt { node: id, port }, seen)?;
    }
    Ok(())
}

/// Puts in the node of a set that the output feeds. The only error is want of memory.
fn enter_target(
    g: &Graph,
    within: &NodeSet,
    source: PortAt,
    seen: &mut NodeSet,
) -> Result<(), NoMemory>
    requires room { g.now.slots ≤ seen.old.room }
    ensures brings { OnOk result (Brings g.now (TargetOf g.now within.now.ids (port_of g.now source)) seen.old.ids seen.new.ids) }
    ensures room { seen.new.room ≡ seen.old.room }
{
    g.is_graph();
    let Some(target) = g.wire_from(source) else {
        return Ok(());
    };
    if !within.contains(target.node) {
        return Ok(());
    }
    seen.insert(target.node)
}

/// Puts in the nodes of a set that feed the node. The only error is want of memory.
fn enter_sources(
    g: &Graph,
    within: &NodeSet,
    id: NodeId,
    seen: &mut NodeSet,
) -> Result<(), NoMemory>
    requires live { Denotes g.now id (name_by g.now.ids id) }
    requires room { g.now.slots ≤ seen.old.room }
    ensures brings { OnOk result (Brings g.now (IsSource g.now within.now.ids (name_by g.now.ids id)) seen.old.ids seen.new.ids) }
    ensures room { seen.new.room ≡ seen.old.room }
{
    g.is_graph();
    let Some(node) = g.node(id) else {
        unreachable!();
    };
    for port in 1..=inputs(&node.kind) {
        enter_source(g, within, PortAt { node: id, port }, seen)?;
    }
    Ok(())
}

/// Puts in the node of a set that feeds the input. The only error is want of memory.
fn enter_source(
    g: &Graph,
    within: &NodeSet,
    target: PortAt,
    seen: &mut NodeSet,
) -> Result<(), NoMemory>
    requires room { g.now.slots ≤ seen.old.room }
    ensures brings { OnOk result (Brings g.now (SourceOf g.now within.now.ids (port_of g.now target)) seen.old.ids seen.new.ids) }
    ensures room { seen.new.room ≡ seen.old.room }
{
    g.is_graph();
    let Some(source) = g.wire_into(target) else {
        return Ok(());
    };
    if !within.contains(source.node) {
        return Ok(());
    }
    seen.insert(source.node)
}
