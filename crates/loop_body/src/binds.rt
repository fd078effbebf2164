//! Binding the expressions of wires.
ghost use Rattle.std.specs.Prelude.{◌≡◌, ◌≤◌, map, take, drop, replicate, IfOk, OnOk};
ghost use Rattle.std.specs.Vec.Iter.{into_iter_items};
ghost use Rattle.fun_expr.specs.declared.expr.Expr.TheVariants.{Field, Lit};
ghost use Rattle.fun_expr.specs.Expr.{renumbered};
ghost use Rattle.loop_body.specs.BodyFunction.{settled, appended, cut};
ghost use Rattle.loop_body.specs.Binding.{IsBound};

use crate::row::Row;
use crate::wired::Wired;
use fun_expr::Expr;
use port_types::{NoMemory, Shape};
use sqlite_items::Items as Arguments;
use std::alloc::Global;
use std::vec::IntoIter;

/// The place of an expression, which is bound unless it is a field.
fn bind(fields: usize, wired: Wired, binds: &mut Vec<Expr>) -> Result<usize, NoMemory>
    requires { fields ≤ 128 }
    ensures { IfOk result (λ place. IsBound fields wired binds.old.items place binds.new.items) }
{
    match wired.place() {
        Some(place) => Ok(place),
        None => {
            let place = fields + binds.len();
            binds.push(wired.into_expr())?;
            Ok(place)
        }
    }
}

/// The places of the expressions, each of which is bound in order unless it is a field.
pub(crate) fn settle(
    alloc: Global,
    fields: usize,
    wire: Vec<Wired>,
    binds: &mut Vec<Expr>,
) -> Result<Vec<usize>, NoMemory>
    requires { fields ≤ 128 }
    ensures { IfOk result (λ places. record { binds = binds.new.items; places = places.items } ≡ settled fields wire.items binds.old.items) }
{
    let mut places = Vec::new(alloc);
    for wired in wire {
        let place = bind(fields, wired, binds)?;
        places.push(place)?;
    }
    Ok(places)
}

/// The fields at these places.
pub(crate) fn fields_at(alloc: Global, places: &[usize]) -> Result<Vec<Wired>, NoMemory>
    ensures { IfOk result (λ wire. wire.items ≡ map Field places.now) }
{
    Ok(
        places
            .iter()
            .map(|place| Wired::field(*place))
            .collect(alloc)?,
    )
}

/// A zero for each field of a shape.
pub(crate) fn zeros(alloc: Global, widths: &[u8]) -> Result<Vec<Wired>, NoMemory>
    ensures { IfOk result (λ wire. wire.items ≡ map (λ width. Lit width 0) widths.now) }
{
    Ok(
        widths
            .iter()
            .map(|width| Wired::literal(*width, 0))
            .collect(alloc)?,
    )
}

/// So many wires of the fields at these places.
pub(crate) fn copies(alloc: Global, count: u8, places: &[usize]) -> Result<Row, NoMemory>
    ensures { IfOk result (λ row. row ≡ replicate count (map Field places.now)) }
{
    let mut row = Row::new(alloc);
    for _copy in 0..count {
        row.push(fields_at(alloc, places)?)?;
    }
    Ok(row)
}

/// The next expressions of a wire, so many of them.
fn next_part(
    alloc: Global,
    rest: &mut IntoIter<Wired>,
    count: usize,
) -> Result<Vec<Wired>, NoMemory>
    ensures part { IfOk result (λ part. part.items ≡ take count (into_iter_items rest.old)) }
    ensures rest { OnOk result (into_iter_items rest.new ≡ drop count (into_iter_items rest.old)) }
{
    let mut part = Vec::new(alloc);
    for _field in 0..count {
        match rest.next() {
            Some(wired) => part.push(wired)?,
            None => return Ok(part),
        }
    }
    Ok(part)
}

/// The parts of a wire by their shapes.
pub(crate) fn parts(alloc: Global, shapes: &[Shape], wire: Vec<Wired>) -> Result<Row, NoMemory>
    ensures { IfOk result (λ row. row ≡ cut shapes.now wire.items) }
{
    let mut row = Row::new(alloc);
    let mut rest = wire.into_iter();
    for shape in shapes {
        let part = next_part(alloc, &mut rest, shape.widths().len())?;
        row.push(part)?;
    }
    Ok(row)
}

/// The place that stands for a place.
fn place_at(places: &[usize], place: usize) -> usize
    ensures { Field result ≡ renumbered places.now (Field place) }
{
    match places.get(place) {
        Some(at) => *at,
        None => 0,
    }
}

/// The expression with these places in place of 0, 1, 2 and so on.
fn renumber(alloc: Global, places: &[usize], e: &Expr) -> Result<Expr, NoMemory>
    ensures { IfOk result (λ made. made ≡ renumbered places.now e.now) }
{
    match e {
        Expr::Field(place) => Ok(Expr::Field(place_at(places, *place))),
        Expr::Lit(width, number) => Ok(Expr::Lit(*width, *number)),
        Expr::Apply(op, width, args) => {
            let mut made = Arguments::new(alloc);
            for arg in args.as_slice() {
                let arg = renumber(alloc, places, arg)?;
                made.push(arg)?;
            }
            Ok(Expr::Apply(*op, *width, made))
        }
    }
}

/// Appends the binds of a function, where the fields of its environment stand at these places; the places of its binds are added to them.
pub(crate) fn append_binds(
    alloc: Global,
    fields: usize,
    added: &[Expr],
    places: &mut Vec<usize>,
    binds: &mut Vec<Expr>,
) -> Result<(), NoMemory>
    requires { fields ≤ 128 }
    ensures { OnOk result (record { binds = binds.new.items; places = places.new.items } ≡ appended fields added.now places.old.items binds.old.items) }
{
    for bind in added {
        let place = fields + binds.len();
        let expr = renumber(alloc, places, bind)?;
        binds.push(expr)?;
        places.push(place)?;
    }
    Ok(())
}

/// The fields that a function gives, where the fields of its environment stand at these places.
pub(crate) fn given(alloc: Global, places: &[usize], outs: &[usize]) -> Result<Vec<Wired>, NoMemory>
    ensures { IfOk result (λ wire. wire.items ≡ map (λ out. renumbered places.now (Field out)) outs.now) }
{
    Ok(
        outs.iter()
            .map(|out| Wired::field(place_at(places, *out)))
            .collect(alloc)?,
    )
}
