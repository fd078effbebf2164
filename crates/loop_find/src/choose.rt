//! Nodes of a set that fail a test.
ghost use Rattle.std.specs.Prelude.{◌≡◌, ◌↔◌, ◌≤◌, IsTrue, OnOk};
ghost use Rattle.circuits.specs.Circuit.{circuit_of};
ghost use Rattle.components.specs.Name.{Port};
ghost use Rattle.graph_core.specs.GraphValue.{Denotes, name_by, port_of};
ghost use Rattle.loop_laws.specs.Reached.{FedBy};
ghost use Rattle.std.specs.Prelude.{Some};
ghost use Rattle.loop_find.specs.Judging.{Chosen, Fails, IsSorted};
ghost use Rattle.loop_find.specs.Walks.{AreAll, AreLive, Has, is_pure};

use crate::named::kind_of;
use crate::node_set::NodeSet;
use components::{Kind, inputs};
use graph_core::{Graph, NodeId, PortAt};
use port_types::NoMemory;

/// What is asked of a node.
#[derive(Clone, Copy, Debug, PartialEq, Eq)]
pub(crate) enum Test {
    /// Its kind is not pure.
    Impure,
    /// An input of it is fed by a node that is not in the set.
    Foreign,
    /// It is not in the set.
    Apart,
}

/// Makes `chosen` the set of those nodes of `from` that fail the test. The only error is want of memory.
pub(crate) fn choose(
    g: &Graph,
    test: Test,
    set: &NodeSet,
    from: &NodeSet,
    chosen: &mut NodeSet,
) -> Result<(), NoMemory>
    requires live { AreLive g.now from.now.ids }
    requires room { g.now.slots ≤ chosen.old.room }
    ensures all { OnOk result (AreAll g.now (Chosen g.now test set.now.ids from.now.ids) chosen.new.ids) }
    ensures room { chosen.new.room ≡ chosen.old.room }
{
    g.is_graph();
    chosen.clear();
    let mut next = 0;
    while next < from.len() {
        from.fits();
        let id = from.at(next);
        sort(g, test, set, id, chosen)?;
        next += 1;
    }
    Ok(())
}

/// Puts the node in if it fails the test. The only error is want of memory.
fn sort(
    g: &Graph,
    test: Test,
    set: &NodeSet,
    id: NodeId,
    chosen: &mut NodeSet,
) -> Result<(), NoMemory>
    requires live { Denotes g.now id (name_by g.now.ids id) }
    requires room { g.now.slots ≤ chosen.old.room }
    ensures put { OnOk result (IsSorted g.now test set.now.ids id chosen.old.ids chosen.new.ids) }
    ensures room { chosen.new.room ≡ chosen.old.room }
{
    g.is_graph();
    if fails(g, test, set, id) {
        return chosen.insert(id);
    }
    Ok(())
}

/// Whether the node fails the test.
fn fails(g: &Graph, test: Test, set: &NodeSet, id: NodeId) -> bool
    requires { Denotes g.now id (name_by g.now.ids id) }
    ensures { IsTrue result ↔ Fails g.now test set.now.ids (name_by g.now.ids id) }
{
    g.is_graph();
    match test {
        Test::Impure => !is_pure(g, id),
        Test::Foreign => !fed_by(g, id, set),
        Test::Apart => !set.contains(id),
    }
}

/// Whether each input of the node that is fed is fed by a node of the set.
pub(crate) fn fed_by(g: &Graph, id: NodeId, set: &NodeSet) -> bool
    requires { Denotes g.now id (name_by g.now.ids id) }
    ensures { IsTrue result ↔ FedBy (circuit_of g.now.graph) (Has g.now set.now.ids) (name_by g.now.ids id) }
{
    g.is_graph();
    let Some(node) = g.node(id) else {
        unreachable!();
    };
    for port in 1..=inputs(&node.kind) {
        if !is_fed_by(g, PortAt { node: id, port }, set) {
            return false;
        }
    }
    true
}

/// Whether the input is fed by a node of the set, if it is fed.
fn is_fed_by(g: &Graph, target: PortAt, set: &NodeSet) -> bool
    ensures { IsTrue result ↔ ((q : Port) → (circuit_of g.now.graph).feeder (port_of g.now target) ≡ Some q → Has g.now set.now.ids q.node) }
{
    g.is_graph();
    match g.wire_into(target) {
        Some(source) => set.contains(source.node),
        None => true,
    }
}

/// Whether the node is of a kind that may be reached.
fn is_pure(g: &Graph, id: NodeId) -> bool
    ensures { result ≡ is_pure ((circuit_of g.now.graph).kind_at (name_by g.now.ids id)) }
{
    matches!(
        kind_of(g, id),
        Some(
            Kind::Buffer(_)
                | Kind::Fork(_, _)
                | Kind::Join(_)
                | Kind::Split(_)
                | Kind::Operator(_, _, _)
                | Kind::Constant(_, _, _)
                | Kind::Pure(_, _)
                | Kind::Sink0(_)
        )
    )
}
