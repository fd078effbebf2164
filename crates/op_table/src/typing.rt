ghost use Rattle.std.specs.Prelude.{◌≡◌, ◌↔◌, IsTrue};
ghost use Rattle.op_table.specs.Operator.{IsWidth, KeepsWidth, Compares, Chooses, Widens, Narrows, Passes, IsTypedOp};
ghost use Rattle.op_table.specs.Table.{is_width, keeps_width, compares, chooses, widens, narrows, passes, is_typed_op};

use crate::op::Op;

/// The greatest width of a field, in bits.
pub const MAX_WIDTH: u8 = 64;

/// Whether an operator takes inputs of these widths and gives an output of this width, in bits.
/// Every width is from 1 to 64, except that `ret` also takes 0.
#[tactic(auto, unfolding(crate::specs::Table::is_typed_op))]
pub fn typed_op(op: Op, ins: &[u8], out: u8) -> bool
    ensures typed { IsTrue result ↔ IsTypedOp op ins.now out }
    ensures table { result ≡ is_typed_op op ins.now out }
{
    match op {
        Op::Add
        | Op::Sub
        | Op::Mul
        | Op::Udiv
        | Op::Urem
        | Op::Sdiv
        | Op::Srem
        | Op::And
        | Op::Or
        | Op::Xor
        | Op::Shl
        | Op::Lshr
        | Op::Ashr => keeps_width(ins, out),
        Op::Eq
        | Op::Ne
        | Op::Ult
        | Op::Ule
        | Op::Ugt
        | Op::Uge
        | Op::Slt
        | Op::Sle
        | Op::Sgt
        | Op::Sge => compares(ins, out),
        Op::Select => chooses(ins, out),
        Op::Zext | Op::Sext => widens(ins, out),
        Op::Trunc => narrows(ins, out),
        Op::Ret => passes(ins, out),
    }
}

/// Whether every operator takes the width.
fn is_width(width: u8) -> bool
    ensures typed { IsTrue result ↔ IsWidth width }
    ensures table { result ≡ is_width width }
{
    1 <= width && width <= MAX_WIDTH
}

/// `w w` gives `w`.
fn keeps_width(ins: &[u8], out: u8) -> bool
    ensures typed { IsTrue result ↔ KeepsWidth ins.now out }
    ensures table { result ≡ keeps_width ins.now out }
{
    match ins {
        [first, second] => *first == out && *second == out && is_width(out),
        _ => false,
    }
}

/// `w w` gives 1.
fn compares(ins: &[u8], out: u8) -> bool
    ensures typed { IsTrue result ↔ Compares ins.now out }
    ensures table { result ≡ compares ins.now out }
{
    match ins {
        [first, second] => first == second && is_width(*first) && out == 1,
        _ => false,
    }
}

/// `1 w w` gives `w`.
fn chooses(ins: &[u8], out: u8) -> bool
    ensures typed { IsTrue result ↔ Chooses ins.now out }
    ensures table { result ≡ chooses ins.now out }
{
    match ins {
        [choice, first, second] => {
            *choice == 1 && *first == out && *second == out && is_width(out)
        }
        _ => false,
    }
}

/// `w` gives at least `w`.
fn widens(ins: &[u8], out: u8) -> bool
    ensures typed { IsTrue result ↔ Widens ins.now out }
    ensures table { result ≡ widens ins.now out }
{
    match ins {
        [width] => is_width(*width) && is_width(out) && *width <= out,
        _ => false,
    }
}

/// `w` gives at most `w`.
fn narrows(ins: &[u8], out: u8) -> bool
    ensures typed { IsTrue result ↔ Narrows ins.now out }
    ensures table { result ≡ narrows ins.now out }
{
    match ins {
        [width] => is_width(*width) && is_width(out) && out <= *width,
        _ => false,
    }
}

/// `w` gives `w`, which may be 0.
fn passes(ins: &[u8], out: u8) -> bool
    ensures typed { IsTrue result ↔ Passes ins.now out }
    ensures table { result ≡ passes ins.now out }
{
    match ins {
        [width] => *width == out && out <= MAX_WIDTH,
        _ => false,
    }
}
