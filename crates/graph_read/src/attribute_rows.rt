//! The rows of the components with attributes of their own: the kind that ports of these shapes and the pairs of a node say.
ghost use Rattle.std.specs.Prelude.{◌≡◌, Some, codes, MatchResult};
ghost use Rattle.components.specs.Kind.{Shape};
ghost use Rattle.fun_expr.specs.Said.{fun_said};
ghost use Rattle.graph_read.specs.Answers.{IsRead};
ghost use Rattle.graph_read.specs.Attributes.{last_value};
ghost use Rattle.graph_read.specs.Rows.{operator_at, operator_named, constant_at, constant_of, pure_at, pure_of, init_at, init_with, start_of, mark_of, tagger_at, tagger_of};

use crate::attributes::{last_value, tags_of, value_of};
use crate::fault::GraphFaultKind::{BadFun, BadOp, BadPorts, BadTags, BadValue};
use crate::fault::StatementFault::{self, Refused};
use crate::shapes::{are_fields, copy_of, is_bit, is_same, joined};
use components::Kind;
use fun_expr::{Fun, FunFault, check_fun, read_fun, said_by_grammar};
use op_table::{op_of, typed_op};
use port_types::{Items, Shape, Text, tag_width};
use std::alloc::Global;

/// Each port has one field, and there is one output.
pub(crate) fn operator_at(
    alloc: Global,
    ins: &[Shape],
    outs: &[Shape],
    pairs: &[(Text, Text)],
) -> Result<Kind, StatementFault>
    ensures { IsRead (operator_at ins.now outs.now (last_value (codes "op") pairs.now)) result }
{
    let [out] = outs else {
        return Err(Refused(BadPorts));
    };
    match out.widths() {
        [width] if are_fields(ins) => operator_of(joined(alloc, ins)?, *width, pairs),
        _ => Err(Refused(BadPorts)),
    }
}

/// The operator that the pairs name, where it takes and gives these widths.
fn operator_of(widths: Vec<u8>, width: u8, pairs: &[(Text, Text)]) -> Result<Kind, StatementFault>
    ensures { IsRead (operator_named widths.items width (last_value (codes "op") pairs.now)) result }
{
    let Some(word) = last_value(b"op", pairs) else {
        return Err(Refused(BadOp));
    };
    match op_of(word) {
        Some(op) if typed_op(op, widths.as_slice(), width) => {
            Ok(Kind::Operator(op, Items::new(widths), width))
        }
        _ => Err(Refused(BadOp)),
    }
}

/// A Constant needs a `value`.
pub(crate) fn constant_at(
    alloc: Global,
    ins: &[Shape],
    outs: &[Shape],
    pairs: &[(Text, Text)],
) -> Result<Kind, StatementFault>
    ensures { IsRead (constant_at ins.now outs.now (last_value (codes "value") pairs.now)) result }
{
    let ([shape], [out]) = (ins, outs) else {
        return Err(Refused(BadPorts));
    };
    match out.widths() {
        [width] => constant_of(alloc, shape, *width, pairs),
        _ => Err(Refused(BadPorts)),
    }
}

fn constant_of(
    alloc: Global,
    shape: &Shape,
    width: u8,
    pairs: &[(Text, Text)],
) -> Result<Kind, StatementFault>
    ensures { IsRead (constant_of shape.now width (last_value (codes "value") pairs.now)) result }
{
    let Some(text) = last_value(b"value", pairs) else {
        return Err(Refused(BadValue));
    };
    match value_of(text) {
        Some(value) => Ok(Kind::Constant(copy_of(shape)?, width, value)),
        None => Err(Refused(BadValue)),
    }
}

/// A Pure needs a `fun` that takes its input and gives its output.
pub(crate) fn pure_at(
    alloc: Global,
    ins: &[Shape],
    outs: &[Shape],
    pairs: &[(Text, Text)],
) -> Result<Kind, StatementFault>
    ensures { IsRead (pure_at ins.now outs.now (last_value (codes "fun") pairs.now)) result }
{
    match (ins, outs) {
        ([shape], [out]) => pure_of(alloc, shape, out, pairs),
        _ => Err(Refused(BadPorts)),
    }
}

fn pure_of(
    alloc: Global,
    shape: &Shape,
    out: &Shape,
    pairs: &[(Text, Text)],
) -> Result<Kind, StatementFault>
    ensures { IsRead (pure_of shape.now out.now (last_value (codes "fun") pairs.now)) result }
{
    let Some(text) = last_value(b"fun", pairs) else {
        return Err(Refused(BadFun));
    };
    match fun_in(alloc, text, shape)? {
        Some(fun) if check_fun(&fun, out) => Ok(Kind::Pure(fun, copy_of(out)?)),
        _ => Err(Refused(BadFun)),
    }
}

/// The function that the text says for this input, if it says one. The only error is want of memory.
fn fun_in(alloc: Global, text: &[u8], input: &Shape) -> Result<Option<Fun>, StatementFault>
    ensures { MatchResult result (λ fun. fun ≡ fun_said text.now input.now) (λ fault. fault ≡ StatementFault.NoMemory) }
{
    said_by_grammar();
    match read_fun(alloc, text, input) {
        Ok(fun) => Ok(Some(fun)),
        Err(FunFault::NoMemory) => Err(StatementFault::NoMemory),
        Err(_) => Ok(None),
    }
}

/// The `value` of an Init is 0 or 1, and 0 where it is absent; an Init without `ooo` has no mark.
pub(crate) fn init_at(
    ins: &[Shape],
    outs: &[Shape],
    pairs: &[(Text, Text)],
) -> Result<Kind, StatementFault>
    ensures { IsRead (init_at ins.now outs.now (last_value (codes "value") pairs.now) (last_value (codes "ooo") pairs.now)) result }
{
    match (ins, outs) {
        ([shape], [out]) if is_bit(shape) && is_bit(out) => init_of(pairs),
        _ => Err(Refused(BadPorts)),
    }
}

fn init_of(pairs: &[(Text, Text)]) -> Result<Kind, StatementFault>
    ensures { IsRead (init_with (start_of (last_value (codes "value") pairs.now)) (last_value (codes "ooo") pairs.now)) result }
{
    match start_of(pairs) {
        Some(value) if value <= 1 => match mark_of(pairs) {
            Some(mark) => Ok(Kind::Init(value as u8, mark)),
            None => Err(Refused(BadTags)),
        },
        _ => Err(Refused(BadValue)),
    }
}

/// The number that `value` says, 0 where it is absent.
fn start_of(pairs: &[(Text, Text)]) -> Option<u64>
    ensures { result ≡ start_of (last_value (codes "value") pairs.now) }
{
    match last_value(b"value", pairs) {
        Some(text) => value_of(text),
        None => Some(0),
    }
}

/// The number of tags that `ooo` says, 0 where it is absent.
fn mark_of(pairs: &[(Text, Text)]) -> Option<u16>
    ensures { result ≡ mark_of (last_value (codes "ooo") pairs.now) }
{
    match last_value(b"ooo", pairs) {
        Some(text) => tags_of(text),
        None => Some(0),
    }
}

/// One field for the tag stands before the fields of the shape.
pub(crate) fn tagger_at(
    alloc: Global,
    ins: &[Shape],
    outs: &[Shape],
    pairs: &[(Text, Text)],
) -> Result<Kind, StatementFault>
    ensures { IsRead (tagger_at ins.now outs.now (last_value (codes "tags") pairs.now)) result }
{
    let ([shape, back], [tagged, out]) = (ins, outs) else {
        return Err(Refused(BadPorts));
    };
    match tagged.widths() {
        [width, fields @ ..]
            if fields == shape.widths() && is_same(out, shape) && is_same(back, tagged) => {
            tagger_of(alloc, shape, *width, pairs)
        }
        _ => Err(Refused(BadPorts)),
    }
}

/// The tag has the width of the number of tags.
fn tagger_of(
    alloc: Global,
    shape: &Shape,
    width: u8,
    pairs: &[(Text, Text)],
) -> Result<Kind, StatementFault>
    ensures { IsRead (tagger_of shape.now width (last_value (codes "tags") pairs.now)) result }
{
    let Some(text) = last_value(b"tags", pairs) else {
        return Err(Refused(BadTags));
    };
    match tags_of(text) {
        Some(tags) if width == tag_width(tags) => { Ok(Kind::Tagger(copy_of(shape)?, tags)) }
        _ => Err(Refused(BadTags)),
    }
}
