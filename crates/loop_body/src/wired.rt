//! Expressions that may stand on wires.
ghost use Rattle.std.specs.Prelude.{◌≡◌, ◌≤◌, ◌<◌, IfOk};
ghost use Rattle.fun_expr.specs.declared.expr.Expr.TheVariants.{Field, Lit, Apply};
ghost use Rattle.fun_expr.specs.Expr.{expr_depth, place_of};
ghost use Rattle.loop_body.specs.Applied.{IsApplied};

use fun_expr::Expr;
use op_table::Op;
use port_types::NoMemory;
use sqlite_items::Items as Arguments;
use std::alloc::Global;
use std::marker::Model;

/// The greatest number of levels of an expression on a wire.
const MAX_LEVELS: u8 = 63;

/// An expression that may stand for a field of a wire: it has at most 63 levels, so that an operator on it has at most 64.
/// Contracts see the expression.
#[derive(Debug, Drop)]
pub(crate) struct Wired {
    expr: Expr,
    levels: u8,
}

impl Model for Wired {
    ghost use Rattle.std.specs.Prelude.{◌≡◌, ◌≤◌};
    ghost use Rattle.fun_expr.specs.declared.expr.Expr.{Expr};
    ghost use Rattle.fun_expr.specs.contracts.expr.Expr as e;
    ghost use Rattle.fun_expr.specs.Expr.{expr_depth};

    ghost Value = { Expr };

    ghost coded = { e.the_row.coded };

    ghost view = { λ w. w.expr };

    ghost invariant = { λ w. (w.levels ≡ expr_depth w.expr) × (w.levels ≤ 63) };
}

impl Wired {
    /// The field at a place.
    pub(crate) fn field(place: usize) -> Wired
        ensures { result ≡ Field place }
    {
        Wired {
            expr: Expr::Field(place),
            levels: 1,
        }
    }

    /// A number of a width.
    pub(crate) fn literal(width: u8, number: u64) -> Wired
        ensures { result ≡ Lit width number }
    {
        Wired {
            expr: Expr::Lit(width, number),
            levels: 1,
        }
    }

    /// The place, where it is a field.
    pub(crate) fn place(&self) -> Option<usize>
        ensures { result ≡ place_of self.now }
    {
        match &self.expr {
            Expr::Field(place) => Some(*place),
            Expr::Lit(..) => None,
            Expr::Apply(..) => None,
        }
    }

    /// The expression.
    pub(crate) fn into_expr(self) -> Expr
        ensures same { result ≡ self }
    {
        self.expr
    }

    /// The number of levels.
    fn levels(&self) -> u8
        ensures levels { result ≡ expr_depth self.now }
        ensures few { result ≤ 63 }
    {
        self.levels
    }
}

/// What an operator makes of its arguments.
#[derive(Debug, Drop)]
pub(crate) enum Applied {
    /// An expression that may stand on a wire.
    Shallow(Wired),
    /// One of 64 levels, which is to be bound.
    Deep(Expr),
}

/// An operator with the width of its output, applied to arguments.
pub(crate) fn apply_to(
    alloc: Global,
    op: Op,
    width: u8,
    args: Vec<Wired>,
) -> Result<Applied, NoMemory>
    ensures { IfOk result (IsApplied (Apply op width args.items)) }
{
    let mut exprs = Arguments::new(alloc);
    let mut levels = 0;
    for arg in args {
        levels = u8::max(levels, arg.levels());
        exprs.push(arg.into_expr())?;
    }
    let expr = Expr::Apply(op, width, exprs);
    if levels < MAX_LEVELS {
        Ok(Applied::Shallow(Wired {
            expr,
            levels: levels + 1,
        }))
    } else {
        Ok(Applied::Deep(expr))
    }
}
