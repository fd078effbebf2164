//! The value of an operator.
ghost use Rattle.std.specs.Prelude.{◌≡◌, ◌^◌, ◌<◌, ◌==◌, if◌then◌else◌, [], ◌∷◌};
ghost use Rattle.op_table.specs.Operator.{IsTypedOp};
ghost use Rattle.op_table.specs.Value.{widths_of, InputsFit, op_value};

use crate::arithmetic::{add, mul, sdiv, srem, sub, udiv, urem};
use crate::bitwise::{and, or, xor};
use crate::op::Op;
use crate::shift::{ashr, lshr, shl};
use crate::word::{low_bits, modulo, signed};

/// What an operator computes of its inputs, each with its width, for an output of the width `out`. Widths are in bits.
///
/// The widths have to be typed (`typed_op`), and each number has to be below 2 to the power of its width. So is the result.
pub fn apply(op: Op, args: &[(u8, u64)], out: u8) -> u64
    requires typed { IsTypedOp op (widths_of args.now) out }
    requires fit { InputsFit args.now }
    ensures value { result ≡ op_value op args.now out }
    ensures fits { result < 2 ^ out }
{
    of_all(op, args, out)
}

/// What an operator computes, by the number of its inputs.
#[tactic(auto, unfolding(crate::specs::Value::op_value))]
fn of_all(op: Op, args: &[(u8, u64)], out: u8) -> u64
    requires typed { IsTypedOp op (widths_of args.now) out }
    requires fit { InputsFit args.now }
    ensures { result ≡ op_value op args.now out }
{
    match args {
        [(width, number)] => of_one(op, *width, *number, out),
        [(width, a), (_, b)] => of_two(op, *width, *a, *b, out),
        [(_, choice), (_, a), (_, b)] => select(*choice, *a, *b),
        _ => unreachable!(),
    }
}

/// What an operator of one input computes.
#[tactic(auto, unfolding(crate::specs::Value::op_value))]
fn of_one(op: Op, width: u8, number: u64, out: u8) -> u64
    requires typed { IsTypedOp op (width ∷ []) out }
    requires fits { number < 2 ^ width }
    ensures { result ≡ op_value op ((width, number) ∷ []) out }
{
    match op {
        Op::Zext | Op::Ret => number,
        Op::Sext => modulo(out, signed(width, number)),
        Op::Trunc => low_bits(out, number),
        _ => unreachable!(),
    }
}

/// What an operator of two inputs of one width computes.
#[tactic(auto, unfolding(crate::specs::Value::op_value))]
fn of_two(op: Op, width: u8, a: u64, b: u64, out: u8) -> u64
    requires typed { IsTypedOp op (width ∷ width ∷ []) out }
    requires first { a < 2 ^ width }
    requires second { b < 2 ^ width }
    ensures { result ≡ op_value op ((width, a) ∷ (width, b) ∷ []) out }
{
    match op {
        Op::Add => add(width, a, b),
        Op::Sub => sub(width, a, b),
        Op::Mul => mul(width, a, b),
        Op::Udiv => udiv(width, a, b),
        Op::Urem => urem(a, b),
        Op::Sdiv => sdiv(width, a, b),
        Op::Srem => srem(width, a, b),
        Op::And => and(width, a, b),
        Op::Or => or(width, a, b),
        Op::Xor => xor(width, a, b),
        Op::Shl => shl(width, a, b),
        Op::Lshr => lshr(width, a, b),
        Op::Ashr => ashr(width, a, b),
        Op::Eq => u64::from(a == b),
        Op::Ne => u64::from(a != b),
        Op::Ult => u64::from(a < b),
        Op::Ule => u64::from(a <= b),
        Op::Ugt => u64::from(a > b),
        Op::Uge => u64::from(a >= b),
        Op::Slt => u64::from(signed(width, a) < signed(width, b)),
        Op::Sle => u64::from(signed(width, a) <= signed(width, b)),
        Op::Sgt => u64::from(signed(width, a) > signed(width, b)),
        Op::Sge => u64::from(signed(width, a) >= signed(width, b)),
        Op::Select | Op::Zext | Op::Sext | Op::Trunc | Op::Ret => unreachable!(),
    }
}

/// The second where the first is 1, else the third.
fn select(choice: u64, a: u64, b: u64) -> u64
    ensures { result ≡ (if choice == 1 then a else b) }
{
    if choice == 1 { a } else { b }
}
