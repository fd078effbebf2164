//! Numbers that digits write.
ghost use Rattle.std.specs.Prelude.{◌≡◌, ◌≢◌, ℕ, ◌^◌, ◌+◌, ◌*◌, ◌<◌, ◌≤◌, true, MatchOption};
ghost use Rattle.std.specs.Char.{digit_value, is_ascii_digit, is_ascii_hexdigit};
ghost use Rattle.std.specs.List.{list_all};
ghost use Rattle.std.specs.Str.Parse.{digits_value};
ghost use Rattle.std.specs.Fmt.{decimal};
ghost use Rattle.port_types.specs.Numeral.{is_numeral, in_word, digits_of, numeral_value};

/// The number that decimal digits write, with leading zeros or without; `None` exactly where there is no digit, another
/// byte, or a number of 2^64 or more. Takes no memory.
pub fn read_decimal(digits: &[u8]) -> Option<u64>
    ensures { result ≡ digits_of is_ascii_digit 10 digits.now }
{
    if digits.is_empty() || !are_digits(digits) {
        return None;
    }
    number_of(10, digits)
}

/// The same of hexadecimal digits, with letters of either case.
pub fn read_hexadecimal(digits: &[u8]) -> Option<u64>
    ensures { result ≡ digits_of is_ascii_hexdigit 16 digits.now }
{
    if digits.is_empty() || !are_hexadecimal_digits(digits) {
        return None;
    }
    number_of(16, digits)
}

/// The number that a decimal numeral writes: digits alone, and no zero before another digit. `None` exactly where the text
/// is no numeral, or that of a number of 2^64 or more. Takes no memory.
pub fn read_numeral(text: &[u8]) -> Option<u64>
    ensures { result ≡ numeral_value text.now }
{
    if is_numeral(text) {
        number_of(10, text)
    } else {
        None
    }
}

/// Whether the bytes are a decimal numeral: digits alone, and no zero before another digit.
#[tactic(auto, using(crate::proofs::Numerals::numeral_of_more))]
pub(crate) fn is_numeral(text: &[u8]) -> bool
    ensures { result ≡ is_numeral text.now }
{
    match text {
        [] => false,
        [digit] => digit.is_ascii_digit(),
        [first, ..] => *first != b'0' && are_digits(text),
    }
}

/// The number of a numeral, where it is below 256.
pub(crate) fn small_value(numeral: &[u8]) -> Option<u8>
    requires { is_numeral numeral.now ≡ true }
    ensures { MatchOption result (2 ^ 8 ≤ digits_value 10 numeral.now) (λ number. number ≡ digits_value 10 numeral.now) }
{
    match number_of(10, numeral) {
        Some(number) if number < 256 => Some(number as u8),
        _ => None,
    }
}

/// The number from 1 to 255 that is written here in decimal, if one is.
pub(crate) fn small_number(text: &[u8]) -> Option<u8>
    ensures { MatchOption result ((number : ℕ) → 1 ≤ number → number < 2 ^ 8 → text.now ≢ decimal number)
        (λ number. (1 ≤ number) × (text.now ≡ decimal number)) }
{
    if !is_numeral(text) {
        return None;
    }
    match small_value(text) {
        Some(number) if number != 0 => Some(number),
        _ => None,
    }
}

fn are_digits(text: &[u8]) -> bool
    ensures { result ≡ list_all is_ascii_digit text.now }
{
    text.iter().all(|byte| byte.is_ascii_digit())
}

fn are_hexadecimal_digits(text: &[u8]) -> bool
    ensures { result ≡ list_all is_ascii_hexdigit text.now }
{
    text.iter().all(|byte| byte.is_ascii_hexdigit())
}

/// The number that the digits write in this base, where it is below 2^64.
fn number_of(base: u64, digits: &[u8]) -> Option<u64>
    requires { 1 ≤ base }
    ensures { result ≡ in_word (digits_value base digits.now) }
{
    let mut number = 0;
    for byte in digits {
        number = with_digit(number, base, digit_value(*byte))?;
    }
    Some(number)
}

/// The number with one more digit, where it is below 2^64.
fn with_digit(number: u64, base: u64, digit: u64) -> Option<u64>
    ensures { result ≡ in_word (number * base + digit) }
{
    number.checked_mul(base)?.checked_add(digit)
}

/// The value of a digit, where letters of either case are digits from 10 on, or 36 for any other byte.
fn digit_value(byte: u8) -> u64
    ensures { result ≡ digit_value byte }
{
    match byte {
        b'0'..=b'9' => u64::from(byte - b'0'),
        b'A'..=b'Z' => u64::from(byte - b'A') + 10,
        b'a'..=b'z' => u64::from(byte - b'a') + 10,
        _ => 36,
    }
}
