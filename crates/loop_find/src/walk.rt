//! Walks along wires, forward.
ghost use Rattle.std.specs.Prelude.{◌≡◌, ◌↔◌, ◌<◌, ◌≤◌, IsTrue, OnOk};
ghost use Rattle.circuits.specs.Circuit.{circuit_of};
ghost use Rattle.graph_core.specs.GraphValue.{Denotes, name_by, port_of};
ghost use Rattle.loop_find.specs.NodeSets.{IsPut};
ghost use Rattle.loop_find.specs.Walks.{AreAll, AreLive, Enters, Follows, Grows, HasBehind, HasFollowers, IsSelect, SteppedTo, WalkedTo, is_branch, is_mux, passes_through};

use crate::named::kind_of;
use crate::node_set::NodeSet;
use components::{Kind, outputs};
use graph_core::{Graph, NodeId, PortAt};
use port_types::NoMemory;

/// Which nodes a walk goes into.
#[derive(Clone, Copy, Debug, PartialEq, Eq)]
pub(crate) enum Way {
    /// Forks and Buffers.
    Tree,
    /// All but Branches and this mark.
    Body(NodeId),
    /// Muxes, by their selects.
    Selects,
    /// All but Forks and Buffers, and Muxes by their selects.
    Leaves,
    /// Branches.
    Branches,
}

/// Puts in all nodes to which walks lead from those of the set. The only error is want of memory.
pub(crate) fn walk(g: &Graph, way: Way, seen: &mut NodeSet) -> Result<(), NoMemory>
    requires live { AreLive g.now seen.old.ids }
    requires room { g.now.slots ≤ seen.old.room }
    ensures all { OnOk result (AreAll g.now (WalkedTo g.now way seen.old.ids) seen.new.ids) }
    ensures room { seen.new.room ≡ seen.old.room }
{
    g.is_graph();
    let mut next = 0;
    while next < seen.len() {
        seen.fits();
        let id = seen.at(next);
        enter_followers(g, way, id, seen)?;
        next += 1;
    }
    Ok(())
}

/// Makes the set that of the nodes to which one step leads from those of the other. The only error is want of memory.
pub(crate) fn step(g: &Graph, way: Way, from: &NodeSet, seen: &mut NodeSet) -> Result<(), NoMemory>
    requires live { AreLive g.now from.now.ids }
    requires room { g.now.slots ≤ seen.old.room }
    ensures all { OnOk result (AreAll g.now (SteppedTo g.now way from.now.ids) seen.new.ids) }
    ensures room { seen.new.room ≡ seen.old.room }
{
    g.is_graph();
    seen.clear();
    let mut next = 0;
    while next < from.len() {
        from.fits();
        let id = from.at(next);
        enter_followers(g, way, id, seen)?;
        next += 1;
    }
    Ok(())
}

/// Puts in the nodes into which a walk goes on from this node. The only error is want of memory.
pub(crate) fn enter_followers(
    g: &Graph,
    way: Way,
    id: NodeId,
    seen: &mut NodeSet,
) -> Result<(), NoMemory>
    requires live { Denotes g.now id (name_by g.now.ids id) }
    requires room { g.now.slots ≤ seen.old.room }
    ensures grows { OnOk result (Grows g.now (Follows g.now way (name_by g.now.ids id)) seen.old.ids seen.new.ids) }
    ensures has { OnOk result (HasFollowers g.now way (name_by g.now.ids id) seen.new.ids) }
    ensures room { seen.new.room ≡ seen.old.room }
{
    g.is_graph();
    let Some(node) = g.node(id) else {
        unreachable!();
    };
    for port in 1..=outputs(&node.kind) {
        enter_follower(g, way, PortAt { node: id, port }, seen)?;
    }
    Ok(())
}

/// Puts in the node that this output feeds, if a walk goes on into it. The only error is want of memory.
fn enter_follower(g: &Graph, way: Way, source: PortAt, seen: &mut NodeSet) -> Result<(), NoMemory>
    requires room { g.now.slots ≤ seen.old.room }
    ensures grows { OnOk result (Grows g.now (Follows g.now way (name_by g.now.ids source.node)) seen.old.ids seen.new.ids) }
    ensures has { OnOk result (HasBehind g.now way (port_of g.now source) seen.new.ids) }
    ensures room { seen.new.room ≡ seen.old.room }
{
    g.is_graph();
    match g.wire_from(source) {
        Some(target) => enter(g, way, target, seen),
        None => Ok(()),
    }
}

/// Puts the node of this input in if a walk goes into it. The only error is want of memory.
fn enter(g: &Graph, way: Way, target: PortAt, seen: &mut NodeSet) -> Result<(), NoMemory>
    requires live { Denotes g.now target.node (name_by g.now.ids target.node) }
    requires room { g.now.slots ≤ seen.old.room }
    ensures put { OnOk result (Enters g.now way (port_of g.now target) → IsPut seen.old.ids target.node seen.new.ids) }
    ensures left { OnOk result (¬ (Enters g.now way (port_of g.now target)) → seen.new.ids ≡ seen.old.ids) }
    ensures room { seen.new.room ≡ seen.old.room }
{
    g.is_graph();
    if enters(g, way, target) {
        return seen.insert(target.node);
    }
    Ok(())
}

/// Whether a walk goes into the node of this input.
fn enters(g: &Graph, way: Way, target: PortAt) -> bool
    requires { Denotes g.now target.node (name_by g.now.ids target.node) }
    ensures { IsTrue result ↔ Enters g.now way (port_of g.now target) }
{
    g.is_graph();
    match way {
        Way::Tree => passes_through(g, target.node),
        Way::Body(mark) => target.node != mark && !is_branch(g, target.node),
        Way::Selects => is_select(g, target),
        Way::Leaves => !passes_through(g, target.node) && !is_select(g, target),
        Way::Branches => is_branch(g, target.node),
    }
}

/// Whether the input is the select of a Mux.
fn is_select(g: &Graph, target: PortAt) -> bool
    ensures { IsTrue result ↔ IsSelect (circuit_of g.now.graph) (port_of g.now target) }
{
    target.port == 1 && is_mux(g, target.node)
}

/// Whether the node is a Fork or a Buffer.
pub(crate) fn passes_through(g: &Graph, id: NodeId) -> bool
    ensures { result ≡ passes_through ((circuit_of g.now.graph).kind_at (name_by g.now.ids id)) }
{
    matches!(kind_of(g, id), Some(Kind::Buffer(_) | Kind::Fork(_, _)))
}

/// Whether the node is a Branch.
pub(crate) fn is_branch(g: &Graph, id: NodeId) -> bool
    ensures { result ≡ is_branch ((circuit_of g.now.graph).kind_at (name_by g.now.ids id)) }
{
    matches!(kind_of(g, id), Some(Kind::Branch(_)))
}

/// Whether the node is a Mux.
pub(crate) fn is_mux(g: &Graph, id: NodeId) -> bool
    ensures { result ≡ is_mux ((circuit_of g.now.graph).kind_at (name_by g.now.ids id)) }
{
    matches!(kind_of(g, id), Some(Kind::Mux(_)))
}
