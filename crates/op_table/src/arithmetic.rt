//! Sums, products and quotients of two numbers of one width.
ghost use Rattle.std.specs.Prelude.{◌≡◌, ◌+◌, ◌-◌, ◌*◌, ◌/◌, ◌%◌, ◌^◌, ◌<◌, ◌==◌, if◌then◌else◌, pos, ◌-ℤ◌, int_div, int_rem};
ghost use Rattle.op_table.specs.Operator.{IsWidth};
ghost use Rattle.op_table.specs.Value.{signed, modulo};

use crate::word::{all_ones, low_bits, modulo, signed};

/// The sum modulo 2 to the power of the width.
pub(crate) fn add(width: u8, a: u64, b: u64) -> u64
    requires { IsWidth width }
    ensures { result ≡ (a + b) % 2 ^ width }
{
    low_bits(width, a.wrapping_add(b))
}

/// The difference modulo 2 to the power of the width.
pub(crate) fn sub(width: u8, a: u64, b: u64) -> u64
    requires { IsWidth width }
    ensures { result ≡ modulo width (pos a -ℤ pos b) }
{
    low_bits(width, a.wrapping_sub(b))
}

/// The product modulo 2 to the power of the width.
pub(crate) fn mul(width: u8, a: u64, b: u64) -> u64
    requires { IsWidth width }
    ensures { result ≡ (a * b) % 2 ^ width }
{
    low_bits(width, a.wrapping_mul(b))
}

/// The unsigned quotient; all ones where the divisor is 0.
pub(crate) fn udiv(width: u8, a: u64, b: u64) -> u64
    requires { IsWidth width }
    ensures { result ≡ (if b == 0 then 2 ^ width - 1 else a / b) }
{
    if b == 0 { all_ones(width) } else { a / b }
}

/// The unsigned remainder; the dividend where the divisor is 0.
pub(crate) fn urem(a: u64, b: u64) -> u64
    ensures { result ≡ (if b == 0 then a else a % b) }
{
    if b == 0 { a } else { a % b }
}

/// The signed quotient, cut towards zero; all ones where the divisor is 0.
pub(crate) fn sdiv(width: u8, a: u64, b: u64) -> u64
    requires width { IsWidth width }
    requires first { a < 2 ^ width }
    requires second { b < 2 ^ width }
    ensures { result ≡ (if b == 0 then 2 ^ width - 1 else modulo width (int_div (signed width a) (signed width b))) }
{
    if b == 0 {
        all_ones(width)
    } else {
        modulo(width, signed(width, a).wrapping_div(signed(width, b)))
    }
}

/// The signed remainder, with the dividend's sign; the dividend where the divisor is 0.
pub(crate) fn srem(width: u8, a: u64, b: u64) -> u64
    requires width { IsWidth width }
    requires first { a < 2 ^ width }
    requires second { b < 2 ^ width }
    ensures { result ≡ (if b == 0 then a else modulo width (int_rem (signed width a) (signed width b))) }
{
    if b == 0 {
        a
    } else {
        modulo(width, signed(width, a).wrapping_rem(signed(width, b)))
    }
}
