//! Nodes that may feed a loop constants, by what they feed.
ghost use Rattle.std.specs.Prelude.{◌≡◌, ◌↔◌, ◌≤◌, IsTrue, OnOk};
ghost use Rattle.circuits.specs.Circuit.{circuit_of};
ghost use Rattle.components.specs.Name.{Port};
ghost use Rattle.graph_core.specs.GraphValue.{Denotes, name_by, port_of};
ghost use Rattle.loop_find.specs.Feeding.{AreCandidates, Considers, FeedsAt, FeedsOnly, IsConsidered, MayFeed, is_constant};
ghost use Rattle.loop_find.specs.Walks.{AreLive};

use crate::named::kind_of;
use crate::node_set::NodeSet;
use components::{Kind, inputs, outputs};
use graph_core::{Graph, NodeId, PortAt};
use port_types::NoMemory;

/// Makes the set that of the constant nodes that are none of the takers, and feed the takers and one another alone, each before
/// those that feed it. Each node that feeds one of these is looked at once for each wire to them. The only error is want of memory.
pub(crate) fn find_candidates(
    g: &Graph,
    takers: &NodeSet,
    seen: &mut NodeSet,
) -> Result<(), NoMemory>
    requires live { AreLive g.now takers.now.ids }
    requires room { g.now.slots ≤ seen.old.room }
    ensures all { OnOk result (AreCandidates g.now takers.now.ids seen.new.ids) }
    ensures room { seen.new.room ≡ seen.old.room }
{
    g.is_graph();
    seen.clear();
    let mut next = 0;
    while next < takers.len() {
        takers.fits();
        let id = takers.at(next);
        enter_sources(g, takers, id, seen)?;
        next += 1;
    }
    let mut place = 0;
    while place < seen.len() {
        seen.fits();
        let id = seen.at(place);
        enter_sources(g, takers, id, seen)?;
        place += 1;
    }
    Ok(())
}

/// Puts in the nodes that feed the node, if they may. The only error is want of memory.
fn enter_sources(
    g: &Graph,
    takers: &NodeSet,
    id: NodeId,
    seen: &mut NodeSet,
) -> Result<(), NoMemory>
    requires live { Denotes g.now id (name_by g.now.ids id) }
    requires room { g.now.slots ≤ seen.old.room }
    ensures considers { OnOk result (Considers g.now takers.now.ids (λ (p : Port). p.node ≡ name_by g.now.ids id) seen.old.ids seen.new.ids) }
    ensures room { seen.new.room ≡ seen.old.room }
{
    g.is_graph();
    let Some(node) = g.node(id) else {
        unreachable!();
    };
    for port in 1..=inputs(&node.kind) {
        enter_source(g, takers, PortAt { node: id, port }, seen)?;
    }
    Ok(())
}

/// Puts in the node that feeds the input, if it may. The only error is want of memory.
fn enter_source(
    g: &Graph,
    takers: &NodeSet,
    target: PortAt,
    seen: &mut NodeSet,
) -> Result<(), NoMemory>
    requires room { g.now.slots ≤ seen.old.room }
    ensures considers { OnOk result (Considers g.now takers.now.ids (λ (p : Port). p ≡ port_of g.now target) seen.old.ids seen.new.ids) }
    ensures room { seen.new.room ≡ seen.old.room }
{
    g.is_graph();
    match g.wire_into(target) {
        Some(source) => consider(g, takers, source.node, seen),
        None => Ok(()),
    }
}

/// Puts the node in, if it may feed the set. The only error is want of memory.
fn consider(g: &Graph, takers: &NodeSet, id: NodeId, seen: &mut NodeSet) -> Result<(), NoMemory>
    requires live { Denotes g.now id (name_by g.now.ids id) }
    requires room { g.now.slots ≤ seen.old.room }
    ensures considered { OnOk result (IsConsidered g.now takers.now.ids id seen.old.ids seen.new.ids) }
    ensures room { seen.new.room ≡ seen.old.room }
{
    g.is_graph();
    if may_feed(g, takers, seen, id) {
        return seen.insert(id);
    }
    Ok(())
}

/// Whether the node is constant, is none of the takers, and feeds the two sets alone.
fn may_feed(g: &Graph, takers: &NodeSet, seen: &NodeSet, id: NodeId) -> bool
    requires { Denotes g.now id (name_by g.now.ids id) }
    ensures { IsTrue result ↔ MayFeed g.now takers.now.ids seen.now.ids (name_by g.now.ids id) }
{
    g.is_graph();
    is_constant(g, id) && !takers.contains(id) && feeds_only(g, takers, seen, id)
}

/// Whether each wire from the node enters a node of one of the two sets.
fn feeds_only(g: &Graph, takers: &NodeSet, seen: &NodeSet, id: NodeId) -> bool
    requires { Denotes g.now id (name_by g.now.ids id) }
    ensures { IsTrue result ↔ FeedsOnly g.now takers.now.ids seen.now.ids (name_by g.now.ids id) }
{
    g.is_graph();
    let Some(node) = g.node(id) else {
        unreachable!();
    };
    for port in 1..=outputs(&node.kind) {
        if !feeds_at(g, takers, seen, PortAt { node: id, port }) {
            return false;
        }
    }
    true
}

/// Whether what the output feeds, if anything, is a node of one of the two sets.
fn feeds_at(g: &Graph, takers: &NodeSet, seen: &NodeSet, source: PortAt) -> bool
    ensures { IsTrue result ↔ FeedsAt g.now takers.now.ids seen.now.ids (port_of g.now source) }
{
    g.is_graph();
    match g.wire_from(source) {
        Some(target) => takers.contains(target.node) || seen.contains(target.node),
        None => true,
    }
}

/// Whether the node is of a constant kind.
fn is_constant(g: &Graph, id: NodeId) -> bool
    ensures { result ≡ is_constant ((circuit_of g.now.graph).kind_at (name_by g.now.ids id)) }
{
    matches!(
        kind_of(g, id),
        Some(
            Kind::Source0(_)
                | Kind::Buffer(_)
                | Kind::Fork(_, _)
                | Kind::Join(_)
                | Kind::Split(_)
                | Kind::Operator(_, _, _)
                | Kind::Constant(_, _, _)
                | Kind::Pure(_, _)
        )
    )
}
