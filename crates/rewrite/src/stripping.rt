//! Dropping the Buffers of a graph.
ghost use Rattle.std.specs.Prelude.{◌≡◌, IfOk, OnOk, MatchOption};
ghost use Rattle.std.specs.FinMap as map_of;
ghost use Rattle.components.specs.Name.{Name};
ghost use Rattle.components.specs.NamedGraph.{IsTyped};
ghost use Rattle.graph_core.specs.GraphValue.{AreInOrder};
ghost use Rattle.circuits.specs.Circuit.{circuit_of};
ghost use Rattle.circuits.specs.Refines.{Refines};
ghost use Rattle.subst_engine.specs.Replaced.{IsExchangedPart};
ghost use Rattle.pure_extract.specs.DropBuffer.{IsDropBuffer};
ghost use Rattle.rewrite.specs.Behaviour.{KeepsDrains};
ghost use Rattle.rewrite.specs.Stripped.{IsStripped, OnlyRingsAreLeft};
ghost use Rattle.rewrite.specs.Strips.{Turns};
ghost use Rattle.rewrite.specs.TurnById.{HadTurn, IsDropAt, StaysById};

use crate::laws::{only_rings_are_left, stripped_drains, stripped_refines};
use components::Kind;
use graph_core::{Graph, NodeId};
use port_types::NoMemory;
use pure_extract::{AtFault, DropBuffer, drop_buffer_leaves_out};
use std::alloc::Global;
use subst_engine::{ReplaceFault, replace};

/// The stripped graph: without Buffers, but that each ring made of Buffers alone leaves the one with the greatest name, wired to
/// itself. In no surrounding circuit does it show anything that the graph does not. The Buffers are dropped in byte order of their
/// names, each unless it is wired to itself at its turn. The only error is want of memory; the graph is then given up.
pub fn strip(alloc: Global, mut g: Graph) -> Result<Graph, NoMemory>
    requires { IsTyped g.graph }
    ensures stripped { IfOk result (λ stripped. IsStripped g.graph stripped.graph) }
    ensures rings { IfOk result (λ stripped. OnlyRingsAreLeft stripped.graph) }
    ensures typed { IfOk result (λ stripped. IsTyped stripped.graph) }
    ensures refines { IfOk result (λ stripped. Refines (circuit_of stripped.graph) (circuit_of g.graph)) }
    ensures drains { IfOk result (λ stripped. KeepsDrains stripped.graph g.graph) }
{
    only_rings_are_left();
    stripped_refines();
    stripped_drains();
    let ids = g.by_name(alloc)?;
    drop_buffers(alloc, &mut g, &ids)?;
    Ok(g)
}

/// Gives each node its turn, in the order of the ids. The only error is want of memory.
fn drop_buffers(alloc: Global, g: &mut Graph, ids: &[NodeId]) -> Result<(), NoMemory>
    requires typed { IsTyped g.old.graph }
    requires order { AreInOrder g.old ids.now }
    ensures { OnOk result (Turns g.old.graph (map_of.keys g.old.graph.nodes) g.new.graph) }
{
    for id in ids {
        drop_buffer(alloc, g, *id)?;
    }
    Ok(())
}

/// Drops the node if it is a Buffer that is not wired to itself: what fed it then feeds what it fed. The only error is want of memory.
fn drop_buffer(alloc: Global, g: &mut Graph, id: NodeId) -> Result<(), NoMemory>
    requires { IsTyped g.old.graph }
    ensures { OnOk result (HadTurn g.old id g.new) }
{
    g.is_graph();
    drop_buffer_leaves_out();
    match drop_at(alloc, g, id)? {
        Some(rule) => apply(alloc, g, &rule),
        None => Ok(()),
    }
}

/// The rule that drops the node, where it is a Buffer that is not wired to itself. The only error is want of memory.
fn drop_at(alloc: Global, g: &Graph, id: NodeId) -> Result<Option<DropBuffer>, NoMemory>
    requires { IsTyped g.now.graph }
    ensures { IfOk result (λ found. MatchOption found (StaysById g.now id) (IsDropAt g.now id)) }
{
    let Some(node) = g.node(id) else {
        return Ok(None);
    };
    let Kind::Buffer(_) = node.kind else {
        return Ok(None);
    };
    match DropBuffer::at(alloc, g, 0, node.name.bytes()) {
        Ok(rule) => Ok(Some(rule)),
        Err(AtFault::NoInstance) => Ok(None),
        Err(AtFault::NoMemory) => Err(NoMemory),
    }
}

/// Applies the rule where it was made. The only error is want of memory.
fn apply(alloc: Global, g: &mut Graph, rule: &DropBuffer) -> Result<(), NoMemory>
    requires typed { IsTyped g.old.graph }
    requires made { (name : Name) × IsDropBuffer g.old.graph name rule.now }
    ensures { OnOk result (IsExchangedPart g.old rule.now.left rule.now.right g.new) }
{
    drop_buffer_leaves_out();
    match replace(alloc, g, rule) {
        Ok(()) => Ok(()),
        Err(ReplaceFault::NoMemory) => Err(NoMemory),
        // A rule matches where it was made.
        Err(ReplaceFault::NoMatch) => unreachable!(),
    }
}
