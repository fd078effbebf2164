//! The examples of docs/OPERATORS.md, row for row.
ghost use Rattle.std.specs.Prelude.{◌^◌, ◌<◌, IsTrue};
ghost use Rattle.op_table.specs.Operator.{IsTypedOp};
ghost use Rattle.op_table.specs.Value.{widths_of, InputsFit};

use op_table::{Op, apply, op_name, op_of, op_of_short, short_name, typed_op};
use std::process::Abort;

/// An operator's names; inputs, each with its width; the width of the output, and the output.
const EXAMPLES: [(&str, &str, &[(u8, u64)], u8, u64); 28] = [
    ("add_op", "add", &[(8, 200), (8, 100)], 8, 44),
    ("sub_op", "sub", &[(8, 3), (8, 5)], 8, 254),
    ("mul_op", "mul", &[(8, 20), (8, 13)], 8, 4),
    ("udiv_op", "udiv", &[(8, 200), (8, 7)], 8, 28),
    ("urem_op", "urem", &[(8, 200), (8, 7)], 8, 4),
    ("sdiv_op", "sdiv", &[(8, 249), (8, 2)], 8, 253),
    ("srem_op", "srem", &[(8, 249), (8, 2)], 8, 255),
    ("and_op", "and", &[(8, 204), (8, 170)], 8, 136),
    ("or_op", "or", &[(8, 204), (8, 170)], 8, 238),
    ("xor_op", "xor", &[(8, 204), (8, 170)], 8, 102),
    ("shl_op", "shl", &[(8, 129), (8, 1)], 8, 2),
    ("lshr_op", "lshr", &[(8, 129), (8, 1)], 8, 64),
    ("ashr_op", "ashr", &[(8, 129), (8, 1)], 8, 192),
    ("icmp_eq_op", "eq", &[(8, 128), (8, 127)], 1, 0),
    ("icmp_ne_op", "ne", &[(8, 128), (8, 127)], 1, 1),
    ("icmp_ult_op", "ult", &[(8, 128), (8, 127)], 1, 0),
    ("icmp_ule_op", "ule", &[(8, 128), (8, 127)], 1, 0),
    ("icmp_ugt_op", "ugt", &[(8, 128), (8, 127)], 1, 1),
    ("icmp_uge_op", "uge", &[(8, 128), (8, 127)], 1, 1),
    ("icmp_slt_op", "slt", &[(8, 128), (8, 127)], 1, 1),
    ("icmp_sle_op", "sle", &[(8, 128), (8, 127)], 1, 1),
    ("icmp_sgt_op", "sgt", &[(8, 128), (8, 127)], 1, 0),
    ("icmp_sge_op", "sge", &[(8, 128), (8, 127)], 1, 0),
    ("select_op", "select", &[(1, 1), (8, 5), (8, 9)], 8, 5),
    ("zext_op", "zext", &[(8, 248)], 16, 248),
    ("sext_op", "sext", &[(8, 248)], 16, 65528),
    ("trunc_op", "trunc", &[(16, 300)], 8, 44),
    ("ret_op", "ret", &[(8, 7)], 8, 7),
];

/// Whether the operator has these names, and each is its own.
fn has_names(op: Op, name: &str, short: &str) -> bool {
    op_name(op) == name
        && short_name(op) == short
        && op_of(name.as_bytes()) == Some(op)
        && op_of_short(short.as_bytes()) == Some(op)
}

/// Whether the inputs have typed widths.
fn is_typed(op: Op, args: &[(u8, u64)], out: u8) -> bool
    ensures { IsTrue result → IsTypedOp op (widths_of args.now) out }
{
    match args {
        [(a, _)] => typed_op(op, &[*a], out),
        [(a, _), (b, _)] => typed_op(op, &[*a, *b], out),
        [(a, _), (b, _), (c, _)] => typed_op(op, &[*a, *b, *c], out),
        _ => false,
    }
}

/// Whether the number is one of this width.
fn fits(width: u8, number: u64) -> bool
    ensures { IsTrue result → number < 2 ^ width }
{
    width == 64 || width < 64 && number < 1 << width
}

/// Whether each number is one of its width.
fn all_fit(args: &[(u8, u64)]) -> bool
    ensures { IsTrue result → InputsFit args.now }
{
    args.iter().all(|(width, number)| fits(*width, *number))
}

/// The value of an operator, or `None` where the widths are refused.
fn value(op: Op, args: &[(u8, u64)], out: u8) -> Option<u64> {
    if is_typed(op, args, out) && all_fit(args) {
        Some(apply(op, args, out))
    } else {
        None
    }
}

fn assert_examples(rt: &impl Abort, rows: &[(&str, &str, &[(u8, u64)], u8, u64)]) {
    for (name, short, args, out, want) in rows {
        let op = op_of(name.as_bytes()).unwrap_or(Op::Ret);
        assert!(rt; has_names(op, name, short), "{name}");
        assert_eq!(rt; value(op, args, *out), Some(*want), "{name}");
    }
}

#[test]
fn examples(rt: HostRuntime) {
    assert_examples(&rt, &EXAMPLES);
}

/// Corners, and widths that are refused.
const CORNERS: [(Op, &[(u8, u64)], u8, Option<u64>); 43] = [
    (Op::Udiv, &[(8, 7), (8, 0)], 8, Some(255)),
    (Op::Urem, &[(8, 7), (8, 0)], 8, Some(7)),
    (Op::Sdiv, &[(8, 128), (8, 0)], 8, Some(255)),
    (Op::Srem, &[(8, 128), (8, 0)], 8, Some(128)),
    (Op::Sdiv, &[(8, 128), (8, 255)], 8, Some(128)),
    (Op::Srem, &[(8, 128), (8, 255)], 8, Some(0)),
    (Op::Sdiv, &[(8, 7), (8, 254)], 8, Some(253)),
    (Op::Srem, &[(8, 7), (8, 254)], 8, Some(1)),
    (Op::Sdiv, &[(1, 1), (1, 1)], 1, Some(1)),
    (Op::Mul, &[(64, u64::MAX), (64, u64::MAX)], 64, Some(1)),
    (Op::Shl, &[(8, 129), (8, 8)], 8, Some(0)),
    (Op::Lshr, &[(8, 128), (8, 8)], 8, Some(0)),
    (Op::Ashr, &[(8, 128), (8, 9)], 8, Some(255)),
    (Op::Ashr, &[(8, 127), (8, 255)], 8, Some(0)),
    (Op::Ashr, &[(64, 1 << 63), (64, 65)], 64, Some(u64::MAX)),
    (Op::Eq, &[(8, 128), (8, 128)], 1, Some(1)),
    (Op::Ne, &[(8, 128), (8, 128)], 1, Some(0)),
    (Op::Ult, &[(8, 128), (8, 128)], 1, Some(0)),
    (Op::Ule, &[(8, 128), (8, 128)], 1, Some(1)),
    (Op::Ugt, &[(8, 128), (8, 128)], 1, Some(0)),
    (Op::Uge, &[(8, 128), (8, 128)], 1, Some(1)),
    (Op::Slt, &[(8, 128), (8, 128)], 1, Some(0)),
    (Op::Sle, &[(8, 128), (8, 128)], 1, Some(1)),
    (Op::Sgt, &[(8, 128), (8, 128)], 1, Some(0)),
    (Op::Sge, &[(8, 128), (8, 128)], 1, Some(1)),
    (Op::Select, &[(1, 0), (8, 5), (8, 9)], 8, Some(9)),
    (Op::Sext, &[(4, 8)], 8, Some(248)),
    (Op::Sext, &[(4, 7)], 8, Some(7)),
    (Op::Sext, &[(1, 1)], 64, Some(u64::MAX)),
    (Op::Zext, &[(8, 200)], 8, Some(200)),
    (Op::Trunc, &[(8, 254)], 1, Some(0)),
    (Op::Ret, &[(0, 0)], 0, Some(0)),
    (Op::Add, &[(0, 0), (0, 0)], 0, None),
    (Op::Add, &[(8, 0), (8, 0)], 9, None),
    (Op::Ashr, &[(32, 0), (5, 0)], 32, None),
    (Op::Eq, &[(32, 0), (32, 0)], 32, None),
    (Op::Select, &[(8, 0), (8, 0), (8, 0)], 8, None),
    (Op::Select, &[(1, 0), (0, 0), (0, 0)], 0, None),
    (Op::Zext, &[(8, 0)], 7, None),
    (Op::Sext, &[(8, 0)], 65, None),
    (Op::Trunc, &[(8, 0)], 9, None),
    (Op::Trunc, &[(8, 0)], 0, None),
    (Op::Ret, &[(8, 0)], 9, None),
];

fn assert_corners(rt: &impl Abort, rows: &[(Op, &[(u8, u64)], u8, Option<u64>)]) {
    for (op, args, out, want) in rows {
        assert_eq!(rt; value(*op, args, *out), *want, "{op:?} {args:?}");
    }
}

#[test]
fn corners(rt: HostRuntime) {
    assert_corners(&rt, &CORNERS);
}
