//! Which components may stand in a body, and how much its nodes weigh.
ghost use Rattle.std.specs.Prelude.{◌≡◌, ◌+◌, ◌<◌, ◌≤◌, ◌↔◌, map, length, IsTrue, MatchOption};
ghost use Rattle.fun_expr.specs.Each.{total};
ghost use Rattle.fun_expr.specs.Expr.{expr_size};
ghost use Rattle.loop_body.specs.BodyKind.{IsBodyKind, MayStand, weight};
ghost use Rattle.loop_body.specs.Judging.{kinds_of};

use components::{Kind, Node, kind_ok};
use fun_expr::Expr;

/// The greatest weight of a body.
const MAX_WEIGHT: usize = 16_384;

/// The greatest number of nodes of a body.
pub(crate) const MAX_NODES: usize = 4_096;

/// Whether the component may stand in a body and meets its row of the table.
pub(crate) fn may_stand(kind: &Kind) -> bool
    ensures { IsTrue result ↔ MayStand kind.now }
{
    is_body_kind(kind) && kind_ok(kind)
}

/// Whether the component may stand in a body.
fn is_body_kind(kind: &Kind) -> bool
    ensures { IsTrue result ↔ IsBodyKind kind.now }
{
    match kind {
        Kind::Buffer(_)
        | Kind::Fork(..)
        | Kind::Join(_)
        | Kind::Split(_)
        | Kind::Operator(..)
        | Kind::Constant(..)
        | Kind::Source0(_)
        | Kind::Sink0(_)
        | Kind::Pure(..) => true,
        Kind::Entry(_)
        | Kind::Exit(_)
        | Kind::Mux(_)
        | Kind::Branch(_)
        | Kind::Merge(..)
        | Kind::CtrlMerge(..)
        | Kind::Init(..)
        | Kind::Tagger(..) => false,
    }
}

/// Whether the nodes weigh at most 16,384 together.
pub(crate) fn are_light(nodes: &[Node]) -> bool
    ensures { IsTrue result ↔ (total weight (kinds_of nodes.now) ≤ 16384) }
{
    let mut left = MAX_WEIGHT;
    for node in nodes {
        match left_behind(&node.kind, left) {
            Some(rest) => left = rest,
            None => return false,
        }
    }
    true
}

/// What is left of a weight behind the component, or `None` where it weighs more than that.
fn left_behind(kind: &Kind, left: usize) -> Option<usize>
    ensures { MatchOption result (left < weight kind.now) (λ rest. rest + weight kind.now ≡ left) }
{
    match kind {
        Kind::Operator(..) => left.checked_sub(4),
        Kind::Constant(..) => left.checked_sub(1),
        Kind::Source0(shape) => left.checked_sub(shape.widths().len()),
        Kind::Pure(fun, _) => left_behind_binds(fun.binds.as_slice(), left),
        Kind::Buffer(_)
        | Kind::Fork(..)
        | Kind::Join(_)
        | Kind::Split(_)
        | Kind::Sink0(_)
        | Kind::Entry(_)
        | Kind::Exit(_)
        | Kind::Mux(_)
        | Kind::Branch(_)
        | Kind::Merge(..)
        | Kind::CtrlMerge(..)
        | Kind::Init(..)
        | Kind::Tagger(..) => Some(left),
    }
}

/// What is left of a size behind the expressions, or `None` where they are larger than that.
fn left_behind_binds(binds: &[Expr], size: usize) -> Option<usize>
    ensures { MatchOption result (size < total expr_size binds.now) (λ rest. rest + total expr_size binds.now ≡ size) }
{
    let mut left = size;
    for bind in binds {
        left = left_behind_expr(bind, left)?;
    }
    Some(left)
}

/// What is left of a size behind the expression, or `None` where it is larger than that.
fn left_behind_expr(e: &Expr, size: usize) -> Option<usize>
    ensures { MatchOption result (size < expr_size e.now) (λ rest. rest + expr_size e.now ≡ size) }
{
    if size == 0 {
        return None;
    }
    match e {
        Expr::Field(_) => Some(size - 1),
        Expr::Lit(_, _) => Some(size - 1),
        Expr::Apply(_, _, args) => {
            let mut left = size - 1;
            for arg in args.as_slice() {
                left = left_behind_expr(arg, left)?;
            }
            Some(left)
        }
    }
}
