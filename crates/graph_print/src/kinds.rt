//! How kinds are written: the markers of ports, and the attributes that a kind alone owns.

ghost use Rattle.std.specs.Prelude.{◌≡◌, ◌++◌, ◌==◌, OnOk, IfOk, Some, None, if◌then◌else◌};
ghost use Rattle.std.specs.Fmt.{decimal};
ghost use Rattle.graph_print.specs.CanonicalText.{own_pairs, marker, operand_marker, hexadecimal, mark_pairs};

use crate::texts::{push_pair, text_from};
use components::Kind;
use fun_expr::print_fun;
use op_table::{Op, op_name};
use port_types::{NoMemory, Side, Text};
use std::alloc::Global;
use std::fmt::Write;

/// The marker of the port of this number: `?` where a condition or a choice is, `+` and `-` at what it chooses between.
pub(crate) fn marker(kind: &Kind, side: Side, number: u8) -> Option<u8>
    ensures { result ≡ marker kind.now side number }
{
    match (kind, side) {
        (Kind::Operator(op, ..), Side::Ins) => operand_marker(*op, number),
        (Kind::Mux(_), Side::Ins) => mark_at(number, 1, b'?'),
        (Kind::Branch(_), Side::Ins) => mark_at(number, 2, b'?'),
        (Kind::Branch(_), Side::Outs) => Some(if number == 1 { b'+' } else { b'-' }),
        (Kind::CtrlMerge(..), Side::Outs) => mark_at(number, 2, b'?'),
        (Kind::Operator(..) | Kind::Mux(_), Side::Outs)
        | (Kind::CtrlMerge(..), Side::Ins)
        | (
            Kind::Entry(_)
            | Kind::Exit(_)
            | Kind::Buffer(_)
            | Kind::Fork(..)
            | Kind::Join(_)
            | Kind::Split(_)
            | Kind::Constant(..)
            | Kind::Source0(_)
            | Kind::Sink0(_)
            | Kind::Pure(..)
            | Kind::Merge(..)
            | Kind::Init(..)
            | Kind::Tagger(..),
            Side::Ins | Side::Outs,
        ) => None,
    }
}

/// The marker of one port alone.
fn mark_at(number: u8, marked: u8, mark: u8) -> Option<u8>
    ensures { result ≡ (if number == marked then Some mark else None) }
{
    if number == marked { Some(mark) } else { None }
}

/// The marker of an operator's input.
fn operand_marker(op: Op, number: u8) -> Option<u8>
    ensures { result ≡ operand_marker op number }
{
    match (op, number) {
        (Op::Select, 1) => Some(b'?'),
        (Op::Select, 2) => Some(b'+'),
        (Op::Select, _) => Some(b'-'),
        _ => None,
    }
}

/// Appends the attributes that the kind alone owns. After `NoMemory` a part of them may have been appended.
pub(crate) fn push_own(
    alloc: Global,
    pairs: &mut Vec<(Text, Text)>,
    kind: &Kind,
) -> Result<(), NoMemory>
    ensures { OnOk result (pairs.new.items ≡ pairs.old.items ++ own_pairs kind.now) }
{
    match kind {
        Kind::Operator(op, ..) => push_pair(alloc, pairs, "op", text_from(alloc, op_name(*op))?),
        Kind::Constant(_, _, value) => push_pair(
            alloc,
            pairs,
            "value",
            hexadecimal(alloc, *value)?,
        ),
        Kind::Pure(fun, _) => push_pair(alloc, pairs, "fun", print_fun(alloc, fun)?),
        Kind::Init(value, mark) => {
            push_pair(
                alloc,
                pairs,
                "value",
                hexadecimal(alloc, u64::from(*value))?,
            )?;
            push_mark(alloc, pairs, *mark)
        }
        Kind::Tagger(_, tags) => push_pair(alloc, pairs, "tags", decimal(alloc, *tags)?),
        Kind::Entry(_)
        | Kind::Exit(_)
        | Kind::Buffer(_)
        | Kind::Fork(..)
        | Kind::Join(_)
        | Kind::Split(_)
        | Kind::Source0(_)
        | Kind::Sink0(_)
        | Kind::Mux(_)
        | Kind::Branch(_)
        | Kind::Merge(..)
        | Kind::CtrlMerge(..) => Ok(()),
    }
}

/// Appends the mark of an Init, and nothing where it has none.
fn push_mark(alloc: Global, pairs: &mut Vec<(Text, Text)>, mark: u16) -> Result<(), NoMemory>
    ensures { OnOk result (pairs.new.items ≡ pairs.old.items ++ mark_pairs mark) }
{
    if mark == 0 {
        return Ok(());
    }
    push_pair(alloc, pairs, "ooo", decimal(alloc, mark)?)
}

/// A number in decimal.
fn decimal(alloc: Global, number: u16) -> Result<Text, NoMemory>
    ensures { IfOk result (λ text. text ≡ decimal number) }
{
    let mut text = String::new(alloc);
    write!(text, "{number}")?;
    Ok(Text::from_string(text))
}

/// A value in hexadecimal, as `0x1f`.
fn hexadecimal(alloc: Global, value: u64) -> Result<Text, NoMemory>
    ensures { IfOk result (λ text. text ≡ hexadecimal value) }
{
    let mut text = String::new(alloc);
    write!(text, "0x{value:x}")?;
    Ok(Text::from_string(text))
}
