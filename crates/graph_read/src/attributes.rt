//! The attributes of a statement: the last pair of a key counts.
ghost use Rattle.std.specs.Prelude.{◌≡◌};
ghost use Rattle.std.specs.Option.{option_map};
ghost use Rattle.graph_read.specs.Attributes.{last_value, value_of, tags_of};

use port_types::{Text, read_decimal, read_hexadecimal, read_numeral, text_behind};

/// The greatest number of tags.
const MAX_TAGS: u64 = 256;

/// The value of the last pair with this key.
pub(crate) fn last_value<'a>(key: &[u8], pairs: &'a [(Text, Text)]) -> Option<&'a [u8]>
    ensures { option_map (λ value. value.now) result ≡ last_value key.now pairs.now }
{
    let mut found = None;
    for pair in pairs {
        if pair.0.bytes() == key {
            found = Some(pair.1.bytes());
        }
    }
    found
}

/// The number of a `value`: decimal digits, or `0x` and hexadecimal digits of either case, below 2^64, with leading zeros or without.
pub(crate) fn value_of(text: &[u8]) -> Option<u64>
    ensures { result ≡ value_of text.now }
{
    match text_behind(b"0x", text) {
        Some(digits) => read_hexadecimal(digits),
        None => read_decimal(text),
    }
}

/// A number of tags: decimal from 1 to 256, without leading zeros.
pub(crate) fn tags_of(text: &[u8]) -> Option<u16>
    ensures { result ≡ tags_of text.now }
{
    match read_numeral(text) {
        Some(tags) if 1 <= tags && tags <= MAX_TAGS => Some(tags as u16),
        _ => None,
    }
}
