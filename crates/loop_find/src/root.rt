//! Roots of inputs: backwards through Buffers and Forks.
ghost use Rattle.std.specs.Prelude.{◌≡◌, ◌↔◌, ◌≤◌, [], IfOk, IsTrue, OnOk};
ghost use Rattle.circuits.specs.Circuit.{Typed, circuit_of};
ghost use Rattle.circuits.specs.Root.{PassesThrough, Root};
ghost use Rattle.graph_core.specs.GraphValue.{Denotes, name_by, port_of};
ghost use Rattle.loop_laws.specs.Reached.{HasKind};
ghost use Rattle.loop_find.specs.Backs.{IsFed};
ghost use Rattle.loop_find.specs.Roots.{IsBehind, IsRootOf, IsRooted};
ghost use Rattle.loop_find.specs.Walks.{AreAll};

use crate::back::source_of;
use crate::node_set::NodeSet;
use crate::walk::{Way, passes_through, walk};
use graph_core::{Graph, PortAt};
use port_types::NoMemory;

/// The root of an input, which is the first output of another kind on the way backwards through Buffers and Forks. `None` exactly where
/// that way never ends. The only error is want of memory.
pub(crate) fn find_root(
    g: &Graph,
    target: PortAt,
    trail: &mut NodeSet,
) -> Result<Option<PortAt>, NoMemory>
    requires typed { Typed (circuit_of g.now.graph) }
    requires fed { IsFed g.now target }
    requires room { g.now.slots ≤ trail.old.room }
    ensures root { IfOk result (IsRootOf g.now target) }
    ensures room { trail.new.room ≡ trail.old.room }
{
    g.is_graph();
    trail.clear();
    let mut source = source_of(g, target);
    while passes_through(g, source.node) {
        if trail.contains(source.node) {
            return Ok(None);
        }
        trail.insert(source.node)?;
        trail.fits();
        source = source_of(
            g,
            PortAt {
                node: source.node,
                port: 1,
            },
        );
    }
    Ok(Some(source))
}

/// Makes `rooted` the set of the Buffers and Forks whose inputs have this root. The only error is want of memory.
pub(crate) fn find_rooted(g: &Graph, root: PortAt, rooted: &mut NodeSet) -> Result<(), NoMemory>
    requires typed { Typed (circuit_of g.now.graph) }
    requires ends { ¬ (HasKind (circuit_of g.now.graph) PassesThrough (name_by g.now.ids root.node)) }
    requires room { g.now.slots ≤ rooted.old.room }
    ensures all { OnOk result (AreAll g.now (IsRooted (circuit_of g.now.graph) (port_of g.now root)) rooted.new.ids) }
    ensures room { rooted.new.room ≡ rooted.old.room }
{
    g.is_graph();
    rooted.clear();
    enter_behind(g, root, rooted)?;
    walk(g, Way::Tree, rooted)
}

/// Puts the Buffer or Fork that this output feeds into the empty set, if it feeds one. The only error is want of memory.
fn enter_behind(g: &Graph, source: PortAt, behind: &mut NodeSet) -> Result<(), NoMemory>
    requires none { behind.old.ids ≡ [] }
    requires room { g.now.slots ≤ behind.old.room }
    ensures all { OnOk result (AreAll g.now (IsBehind (circuit_of g.now.graph) (port_of g.now source)) behind.new.ids) }
    ensures room { behind.new.room ≡ behind.old.room }
{
    g.is_graph();
    let Some(target) = g.wire_from(source) else {
        return Ok(());
    };
    if passes_through(g, target.node) {
        return behind.insert(target.node);
    }
    Ok(())
}

/// Whether the input has this root, where the nodes are the Buffers and Forks that have it.
pub(crate) fn has_root(g: &Graph, target: PortAt, root: PortAt, rooted: &NodeSet) -> bool
    requires fed { IsFed g.now target }
    requires ends { ¬ (HasKind (circuit_of g.now.graph) PassesThrough (name_by g.now.ids root.node)) }
    requires live { Denotes g.now root.node (name_by g.now.ids root.node) }
    requires rooted { AreAll g.now (IsRooted (circuit_of g.now.graph) (port_of g.now root)) rooted.now.ids }
    ensures { IsTrue result ↔ Root (circuit_of g.now.graph) (port_of g.now target) (port_of g.now root) }
{
    g.is_graph();
    let source = source_of(g, target);
    source == root || rooted.contains(source.node)
}
