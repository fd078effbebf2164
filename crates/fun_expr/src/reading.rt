//! Reading functions.
ghost use Rattle.std.specs.Prelude.{IfOk};
ghost use Rattle.port_types.specs.Shape.{IsShape};
ghost use Rattle.fun_expr.specs.Function.{FunOk};
ghost use Rattle.fun_expr.specs.FunReading.{Reads};
ghost use Rattle.fun_expr.specs.Judging.{Judged};

use crate::bounds::are_places_there;
use crate::builder::{Builder, build};
use crate::expr::Expr;
use crate::fault::FunFault;
use crate::fun::Fun;
use crate::scan::scan;
use op_table::{tests_are_the_table, typed_widths_are_few};
use port_types::{Items, Shape};
use std::alloc::Global;

/// The function with these parts, or what is wrong with it: a place that is not there, or else its types.
fn judged(input: &Shape, binds: Vec<Expr>, outs: Vec<usize>) -> Result<Fun, FunFault>
    ensures shape { IsShape input.now }
    ensures verdict { Judged input.now binds.items outs.items result }
{
    if !are_places_there(input.widths().len(), &binds, &outs) {
        return Err(FunFault::FunIndex);
    }
    let Ok(input) = input.clone() else {
        return Err(FunFault::NoMemory);
    };
    Fun::new(input, Items::new(binds), Items::new(outs)).ok_or(FunFault::FunTypes)
}

/// The function that a text says, for tokens of a shape. What is wrong with a text is judged in this order, each over the whole text:
///
/// - `FunSyntax`: the text is none of the grammar; with the length of its longest front with which some text of the grammar begins.
/// - `FunTooBig`: the function has more than 16,384 fields, literals and operators, or a bind has more than 64 levels.
/// - `FunIndex`: a place is not below the length of its environment.
/// - `FunTypes`: widths are not typed, a literal is not below its bound, or there are not 1 to 128 outs.
///
/// The other answer is want of memory.
pub fn read_fun(alloc: Global, text: &[u8], input: &Shape) -> Result<Fun, FunFault>
    ensures reads { Reads text.now input.now result }
    ensures proper { IfOk result FunOk }
{
    tests_are_the_table();
    typed_widths_are_few();
    let extent = match scan(text) {
        Ok(extent) => extent,
        Err(byte) => return Err(FunFault::FunSyntax(byte)),
    };
    if !extent.is_within() {
        return Err(FunFault::FunTooBig);
    }
    match build(alloc, text) {
        Ok(Builder { binds, outs, .. }) => judged(input, binds, outs),
        Err(_) => Err(FunFault::NoMemory),
    }
}
