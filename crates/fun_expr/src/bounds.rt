//! Whether the places of a function are there.
ghost use Rattle.std.specs.Prelude.{◌↔◌, ◌≤◌, ◌<◌, ◌+◌, ◌^◌, IsTrue, length};
ghost use Rattle.fun_expr.specs.Each.{Each};
ghost use Rattle.fun_expr.specs.FunReading.{places_bound, PlacesThere};

use crate::expr::Expr;

/// Whether each place of the expression is below a number of fields.
fn has_places_below(e: &Expr, fields: usize) -> bool
    ensures { IsTrue result ↔ (places_bound e.now ≤ fields) }
{
    match e {
        Expr::Field(place) => *place < fields,
        Expr::Lit(_, _) => true,
        Expr::Apply(_, _, args) => {
            for arg in args.as_slice() {
                if !has_places_below(arg, fields) {
                    return false;
                }
            }
            true
        }
    }
}

/// Whether each out is below a number of fields.
fn are_below(outs: &[usize], fields: usize) -> bool
    ensures { IsTrue result ↔ Each (λ out. out < fields) outs.now }
{
    outs.iter().all(|out| *out < fields)
}

/// Whether each place is below the length of its environment, which has so many fields before the first bind.
pub(crate) fn are_places_there(fields: usize, binds: &[Expr], outs: &[usize]) -> bool
    requires { fields + length binds.now < 2 ^ 64 }
    ensures { IsTrue result ↔ PlacesThere fields binds.now outs.now }
{
    let mut there = fields;
    for bind in binds {
        if !has_places_below(bind, there) {
            return false;
        }
        there += 1;
    }
    are_below(outs, there)
}
