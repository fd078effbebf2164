//! Shifts of a number by another one of the same width.
ghost use Rattle.std.specs.Prelude.{◌≡◌, ◌*◌, ◌/◌, ◌%◌, ◌^◌, ◌<◌, pos};
ghost use Rattle.std.specs.Int.{int_div_euclid};
ghost use Rattle.op_table.specs.Operator.{IsWidth};
ghost use Rattle.op_table.specs.Value.{signed, modulo};

use crate::word::{low_bits, modulo, signed};

/// The low bits of the first shifted to the left by the second.
pub(crate) fn shl(width: u8, a: u64, b: u64) -> u64
    requires { IsWidth width }
    ensures { result ≡ (a * 2 ^ b) % 2 ^ width }
{
    if b < u64::from(width) {
        low_bits(width, a << b)
    } else {
        0
    }
}

/// The first shifted to the right by the second, filled with zeros.
pub(crate) fn lshr(width: u8, a: u64, b: u64) -> u64
    requires width { IsWidth width }
    requires fits { a < 2 ^ width }
    ensures { result ≡ a / 2 ^ b }
{
    if b < u64::from(width) { a >> b } else { 0 }
}

/// The first shifted to the right by the second, filled with copies of the sign.
pub(crate) fn ashr(width: u8, a: u64, b: u64) -> u64
    requires width { IsWidth width }
    requires fits { a < 2 ^ width }
    ensures { result ≡ modulo width (int_div_euclid (signed width a) (pos (2 ^ b))) }
{
    modulo(width, signed(width, a) >> b.min(63))
}
