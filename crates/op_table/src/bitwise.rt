//! Combinations of two numbers of one width, bit by bit.
ghost use Rattle.std.specs.Prelude.{◌≡◌, ◌^◌, ◌<◌, min, max};
ghost use Rattle.op_table.specs.Value.{bit_by_bit, sum_digit};

/// Bit by bit, 1 where both are 1.
pub(crate) fn and(width: u8, a: u64, b: u64) -> u64
    requires first { a < 2 ^ width }
    requires second { b < 2 ^ width }
    ensures { result ≡ bit_by_bit min width a b }
{
    a & b
}

/// Bit by bit, 1 where one is 1.
pub(crate) fn or(width: u8, a: u64, b: u64) -> u64
    requires first { a < 2 ^ width }
    requires second { b < 2 ^ width }
    ensures { result ≡ bit_by_bit max width a b }
{
    a | b
}

/// Bit by bit, 1 where they differ.
pub(crate) fn xor(width: u8, a: u64, b: u64) -> u64
    requires first { a < 2 ^ width }
    requires second { b < 2 ^ width }
    ensures { result ≡ bit_by_bit sum_digit width a b }
{
    a ^ b
}
