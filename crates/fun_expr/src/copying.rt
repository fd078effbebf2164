//! Functions anew, and whether two are the same.
ghost use Rattle.std.specs.Prelude.{◌≡◌, ◌↔◌, IsTrue, IfOk};

use crate::expr::Expr;
use crate::fun::Fun;
use port_types::{Items, same_shape};
use sqlite_items::Items as Arguments;
use std::alloc::{AllocError, Global};

/// The same expression anew.
fn copy_expr(alloc: Global, e: &Expr) -> Result<Expr, AllocError>
    ensures { IfOk result (λ copy. copy ≡ e.now) }
{
    match e {
        Expr::Field(place) => Ok(Expr::Field(*place)),
        Expr::Lit(width, number) => Ok(Expr::Lit(*width, *number)),
        Expr::Apply(op, width, args) => {
            let mut copies = Arguments::new(alloc);
            for arg in args.as_slice() {
                let copy = copy_expr(alloc, arg)?;
                copies.push(copy)?;
            }
            Ok(Expr::Apply(*op, *width, copies))
        }
    }
}

/// The same binds anew.
fn copy_binds(alloc: Global, binds: &[Expr]) -> Result<Vec<Expr>, AllocError>
    ensures { IfOk result (λ copies. copies.items ≡ binds.now) }
{
    let mut copies = Vec::new(alloc);
    for bind in binds {
        let copy = copy_expr(alloc, bind)?;
        copies.push(copy)?;
    }
    Ok(copies)
}

impl Clone for Fun {
    ghost is_clone = { λ fun copy. copy ≡ fun };

    fn clone(&self) -> Result<Fun, AllocError> {
        let outs = self.outs.clone()?.into_vec();
        let binds = copy_binds(*outs.allocator(), self.binds.as_slice())?;
        let input = self.input.clone()?;
        Ok(Fun {
            input,
            binds: Items::new(binds),
            outs: Items::new(outs),
        })
    }
}

/// Whether two expressions are the same.
fn same_expr(a: &Expr, b: &Expr) -> bool
    ensures { IsTrue result ↔ (a.now ≡ b.now) }
{
    match (a, b) {
        (Expr::Field(place), Expr::Field(other)) => place == other,
        (Expr::Lit(width, number), Expr::Lit(other, second)) => width == other && number == second,
        (Expr::Apply(op, width, args), Expr::Apply(other, second, others)) => {
            let args = args.as_slice();
            let others = others.as_slice();
            if op != other || width != second || args.len() != others.len() {
                return false;
            }
            for (i, arg) in args.iter().enumerate() {
                if !same_expr(arg, &others[i]) {
                    return false;
                }
            }
            true
        }
        _ => false,
    }
}

/// Whether two lists of binds are the same.
fn same_binds(binds: &[Expr], others: &[Expr]) -> bool
    ensures { IsTrue result ↔ (binds.now ≡ others.now) }
{
    if binds.len() != others.len() {
        return false;
    }
    for (i, bind) in binds.iter().enumerate() {
        if !same_expr(bind, &others[i]) {
            return false;
        }
    }
    true
}

/// Whether two functions have the same input, the same binds and the same outs.
pub fn same_fun(fun: &Fun, other: &Fun) -> bool
    ensures { IsTrue result ↔ (fun.now ≡ other.now) }
{
    same_shape(&fun.input, &other.input)
        && same_binds(fun.binds.as_slice(), other.binds.as_slice())
        && fun.outs.as_slice() == other.outs.as_slice()
}
