//! How many fields the lanes of a mark have together.
ghost use Rattle.std.specs.Prelude.{◌≡◌, ◌+◌, ◌<◌, ◌≤◌, ◌↔◌, Bool, Some, IsTrue, MatchOption};
ghost use Rattle.circuits.specs.Circuit.{circuit_of};
ghost use Rattle.graph_core.specs.GraphValue.{name_by};
ghost use Rattle.loop_laws.specs.Reached.{IsLane};
ghost use Rattle.loop_laws.specs.Faults.{Row};
ghost use Rattle.loop_laws.specs.declared.fault.LoopFaultKind.TheVariants.{TooWide};
ghost use Rattle.loop_laws.specs.Weight.{fields_at, fields_of};
ghost use Rattle.loop_find.specs.Marks.{names_by};
ghost use Rattle.loop_find.specs.Walks.{AreAll};

use crate::named::kind_of;
use crate::node_set::NodeSet;
use components::Kind;
use graph_core::{Graph, NodeId};

/// The greatest number of fields of all lanes of a loop together.
const MAX_FIELDS: usize = 127;

/// Whether the lanes of the mark have more fields together than those of a loop may have.
pub(crate) fn has_too_many_fields(g: &Graph, mark: NodeId, lanes: &NodeSet) -> bool
    requires { AreAll g.now (IsLane (circuit_of g.now.graph) (name_by g.now.ids mark)) lanes.now.ids }
    ensures { (goes_back : Bool) → IsTrue result ↔ Row (circuit_of g.now.graph) (name_by g.now.ids mark) goes_back TooWide (name_by g.now.ids mark) }
{
    g.is_graph();
    let _ = mark;
    lanes.differ();
    !are_narrow(g, lanes)
}

/// Whether the Muxes have at most 127 fields together.
fn are_narrow(g: &Graph, set: &NodeSet) -> bool
    ensures { IsTrue result ↔ (fields_of (circuit_of g.now.graph) (names_by g.now set.now.ids) ≤ 127) }
{
    let mut left = MAX_FIELDS;
    for id in set.as_slice() {
        match left_behind_node(g, *id, left) {
            Some(rest) => left = rest,
            None => return false,
        }
    }
    true
}

/// What is left of a number of fields behind the node, or `None` where it has more than that.
fn left_behind_node(g: &Graph, id: NodeId, left: usize) -> Option<usize>
    ensures { MatchOption result (left < fields_at ((circuit_of g.now.graph).kind_at (name_by g.now.ids id))) (λ rest. rest + fields_at ((circuit_of g.now.graph).kind_at (name_by g.now.ids id)) ≡ left) }
{
    match kind_of(g, id) {
        Some(kind) => left_behind(kind, left),
        None => Some(left),
    }
}

/// What is left of a number of fields behind the component, or `None` where it has more than that.
fn left_behind(kind: &Kind, left: usize) -> Option<usize>
    ensures { MatchOption result (left < fields_at (Some kind.now)) (λ rest. rest + fields_at (Some kind.now) ≡ left) }
{
    match kind {
        Kind::Mux(shape) => left.checked_sub(shape.widths().len()),
        Kind::Operator(..)
        | Kind::Constant(..)
        | Kind::Source0(_)
        | Kind::Pure(..)
        | Kind::Buffer(_)
        | Kind::Fork(..)
        | Kind::Join(_)
        | Kind::Split(_)
        | Kind::Sink0(_)
        | Kind::Entry(_)
        | Kind::Exit(_)
        | Kind::Branch(_)
        | Kind::Merge(..)
        | Kind::CtrlMerge(..)
        | Kind::Init(..)
        | Kind::Tagger(..) => Some(left),
    }
}
