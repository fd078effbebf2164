ghost use Rattle.std.specs.Prelude.{◌≡◌, ◌-◌, ◌%◌, ◌^◌, ◌<◌};
ghost use Rattle.op_table.specs.Operator.{IsWidth};
ghost use Rattle.op_table.specs.Value.{signed, modulo};

/// The greatest number of this width.
pub(crate) fn all_ones(width: u8) -> u64
    requires { IsWidth width }
    ensures { result ≡ 2 ^ width - 1 }
{
    u64::MAX >> (64 - width)
}

/// The low bits of a word.
pub(crate) fn low_bits(width: u8, word: u64) -> u64
    requires { IsWidth width }
    ensures { result ≡ word % 2 ^ width }
{
    word & all_ones(width)
}

/// The signed reading of a number of this width.
pub(crate) fn signed(width: u8, number: u64) -> i64
    requires width { IsWidth width }
    requires fits { number < 2 ^ width }
    ensures { result ≡ signed width number }
{
    if number < 1 << (width - 1) {
        number as i64
    } else {
        -1 - (all_ones(width) - number) as i64
    }
}

/// The number of this width that differs from a whole number by a multiple of 2 to the power of the width.
pub(crate) fn modulo(width: u8, whole: i64) -> u64
    requires { IsWidth width }
    ensures { result ≡ modulo width whole }
{
    low_bits(width, whole.cast_unsigned())
}
