//! What the outputs of a node stand for in the function of a body.
ghost use Rattle.std.specs.Prelude.{◌≡◌, ◌≤◌, ◌^◌, ◌%◌, [], ◌∷◌, IfOk};
ghost use Rattle.fun_expr.specs.declared.expr.Expr.TheVariants.{Apply};
ghost use Rattle.loop_body.specs.BodyFunction.{settled, appended, outs_wire, fork_wires, operator_wire, pure_wire, node_wires};

use crate::binds::{append_binds, copies, given, parts, settle, zeros};
use crate::row::Row;
use crate::wired::{Applied, Wired, apply_to};
use components::Kind;
use fun_expr::{Expr, Fun};
use op_table::{MAX_WIDTH, Op};
use port_types::NoMemory;
use std::alloc::Global;

/// The number modulo 2 to the power of the width.
fn low_bits(number: u64, width: u8) -> u64
    ensures { result ≡ number % 2 ^ width }
{
    if width >= MAX_WIDTH {
        number
    } else {
        number % (1 << width)
    }
}

/// One wire.
fn one_wire(alloc: Global, wire: Vec<Wired>) -> Result<Row, NoMemory>
    ensures { IfOk result (λ row. row ≡ wire.items ∷ []) }
{
    let mut row = Row::new(alloc);
    row.push(wire)?;
    Ok(row)
}

/// One wire of one field.
fn one_field(alloc: Global, wired: Wired) -> Result<Row, NoMemory>
    ensures { IfOk result (λ row. row ≡ (wired ∷ []) ∷ []) }
{
    let mut wire = Vec::new(alloc);
    wire.push(wired)?;
    one_wire(alloc, wire)
}

/// The wire of an Operator.
fn operator_row(
    alloc: Global,
    fields: usize,
    op: Op,
    width: u8,
    wires: Vec<Wired>,
    binds: &mut Vec<Expr>,
) -> Result<Row, NoMemory>
    requires { fields ≤ 128 }
    ensures { IfOk result (λ row. record { binds = binds.new.items; wires = row } ≡ operator_wire fields (Apply op width wires.items) binds.old.items) }
{
    match apply_to(alloc, op, width, wires)? {
        Applied::Shallow(wired) => one_field(alloc, wired),
        Applied::Deep(expr) => {
            let place = fields + binds.len();
            binds.push(expr)?;
            one_field(alloc, Wired::field(place))
        }
    }
}

/// What a function gives, where the fields of its input stand at these places; its binds are appended.
fn given_row(
    alloc: Global,
    fields: usize,
    fun: &Fun,
    mut places: Vec<usize>,
    binds: &mut Vec<Expr>,
) -> Result<Row, NoMemory>
    requires { fields ≤ 128 }
    ensures { IfOk result (λ row. record { binds = binds.new.items; wires = row } ≡ outs_wire fun.now.outs (appended fields fun.now.binds places.items binds.old.items)) }
{
    append_binds(alloc, fields, fun.binds.as_slice(), &mut places, binds)?;
    let wire = given(alloc, &places, fun.outs.as_slice())?;
    Ok(one_wire(alloc, wire)?)
}

/// The wire of a Pure.
fn pure_row(
    alloc: Global,
    fields: usize,
    fun: &Fun,
    wires: Vec<Wired>,
    binds: &mut Vec<Expr>,
) -> Result<Row, NoMemory>
    requires { fields ≤ 128 }
    ensures { IfOk result (λ row. record { binds = binds.new.items; wires = row } ≡ pure_wire fields fun.now (settled fields wires.items binds.old.items)) }
{
    let places = settle(alloc, fields, wires, binds)?;
    given_row(alloc, fields, fun, places, binds)
}

/// The wires of a Fork.
fn fork_row(
    alloc: Global,
    fields: usize,
    count: u8,
    wires: Vec<Wired>,
    binds: &mut Vec<Expr>,
) -> Result<Row, NoMemory>
    requires { fields ≤ 128 }
    ensures { IfOk result (λ row. record { binds = binds.new.items; wires = row } ≡ fork_wires count (settled fields wires.items binds.old.items)) }
{
    let places = settle(alloc, fields, wires, binds)?;
    copies(alloc, count, &places)
}

/// The wires of a node, by the expressions that its inputs stand for, in order.
pub(crate) fn node_row(
    alloc: Global,
    fields: usize,
    kind: &Kind,
    wires: Vec<Wired>,
    binds: &mut Vec<Expr>,
) -> Result<Row, NoMemory>
    requires { fields ≤ 128 }
    ensures { IfOk result (λ row. record { binds = binds.new.items; wires = row } ≡ node_wires fields kind.now wires.items binds.old.items) }
{
    match kind {
        Kind::Buffer(_) | Kind::Join(_) => one_wire(alloc, wires),
        Kind::Fork(_, count) => fork_row(alloc, fields, *count, wires, binds),
        Kind::Split(shapes) => parts(alloc, shapes.as_slice(), wires),
        Kind::Operator(op, _, width) => operator_row(alloc, fields, *op, *width, wires, binds),
        Kind::Constant(_, width, value) => {
            one_field(alloc, Wired::literal(*width, low_bits(*value, *width)))
        }
        Kind::Source0(shape) => one_wire(alloc, zeros(alloc, shape.widths())?),
        Kind::Pure(fun, _) => pure_row(alloc, fields, fun, wires, binds),
        Kind::Sink0(_)
        | Kind::Entry(_)
        | Kind::Exit(_)
        | Kind::Mux(_)
        | Kind::Branch(_)
        | Kind::Merge(..)
        | Kind::CtrlMerge(..)
        | Kind::Init(..)
        | Kind::Tagger(..) => Ok(Row::new(alloc)),
    }
}
