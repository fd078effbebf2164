//! How much the nodes of a body weigh.
ghost use Rattle.std.specs.Prelude.{◌≡◌, ◌+◌, ◌<◌, ◌≤◌, ◌↔◌, Some, IsTrue, MatchOption};
ghost use Rattle.fun_expr.specs.Each.{total};
ghost use Rattle.fun_expr.specs.Expr.{expr_size};
ghost use Rattle.circuits.specs.Circuit.{circuit_of};
ghost use Rattle.graph_core.specs.GraphValue.{name_by};
ghost use Rattle.loop_laws.specs.Weight.{weight, weight_of};
ghost use Rattle.loop_find.specs.Marks.{names_by};

use crate::named::kind_of;
use crate::node_set::NodeSet;
use components::Kind;
use fun_expr::Expr;
use graph_core::{Graph, NodeId};

/// The greatest weight of a body.
const MAX_WEIGHT: usize = 16_384;

/// Whether the nodes weigh at most 16,384 together.
pub(crate) fn are_light(g: &Graph, set: &NodeSet) -> bool
    ensures { IsTrue result ↔ (weight_of (circuit_of g.now.graph) (names_by g.now set.now.ids) ≤ 16384) }
{
    let mut left = MAX_WEIGHT;
    for id in set.as_slice() {
        match left_behind_node(g, *id, left) {
            Some(rest) => left = rest,
            None => return false,
        }
    }
    true
}

/// What is left of a weight behind the node, or `None` where it weighs more than that.
fn left_behind_node(g: &Graph, id: NodeId, left: usize) -> Option<usize>
    ensures { MatchOption result (left < weight ((circuit_of g.now.graph).kind_at (name_by g.now.ids id))) (λ rest. rest + weight ((circuit_of g.now.graph).kind_at (name_by g.now.ids id)) ≡ left) }
{
    match kind_of(g, id) {
        Some(kind) => left_behind(kind, left),
        None => Some(left),
    }
}

/// What is left of a weight behind the component, or `None` where it weighs more than that.
fn left_behind(kind: &Kind, left: usize) -> Option<usize>
    ensures { MatchOption result (left < weight (Some kind.now)) (λ rest. rest + weight (Some kind.now) ≡ left) }
{
    match kind {
        Kind::Operator(..) => left.checked_sub(4),
        Kind::Constant(..) => left.checked_sub(1),
        Kind::Source0(shape) => left.checked_sub(shape.widths().len()),
        Kind::Pure(fun, _) => left_behind_binds(fun.binds.as_slice(), left),
        Kind::Buffer(_)
        | Kind::Fork(..)
        | Kind::Join(_)
        | Kind::Split(_)
        | Kind::Sink0(_)
        | Kind::Entry(_)
        | Kind::Exit(_)
        | Kind::Mux(_)
        | Kind::Branch(_)
        | Kind::Merge(..)
        | Kind::CtrlMerge(..)
        | Kind::Init(..)
        | Kind::Tagger(..) => Some(left),
    }
}

/// What is left of a size behind the expressions, or `None` where they are larger than that.
fn left_behind_binds(binds: &[Expr], size: usize) -> Option<usize>
    ensures { MatchOption result (size < total expr_size binds.now) (λ rest. rest + total expr_size binds.now ≡ size) }
{
    let mut left = size;
    for bind in binds {
        left = left_behind_expr(bind, left)?;
    }
    Some(left)
}

/// What is left of a size behind the expression, or `None` where it is larger than that.
fn left_behind_expr(e: &Expr, size: usize) -> Option<usize>
    ensures { MatchOption result (size < expr_size e.now) (λ rest. rest + expr_size e.now ≡ size) }
{
    if size == 0 {
        return None;
    }
    match e {
        Expr::Field(_) => Some(size - 1),
        Expr::Lit(_, _) => Some(size - 1),
        Expr::Apply(_, _, args) => {
            let mut left = size - 1;
            for arg in args.as_slice() {
                left = left_behind_expr(arg, left)?;
            }
            Some(left)
        }
    }
}
