//! Tests of bytes and of words, and the tokens that they are.

ghost use Rattle.std.specs.Prelude.{◌≡◌, ◌≤◌, false, bytes_eq, length};
ghost use Rattle.std.specs.List.{list_all, prefix_len};
ghost use Rattle.std.specs.Char.{is_ascii_digit};
ghost use Rattle.std.specs.Str.{is_utf8, str_to_ascii_lowercase};
ghost use Rattle.dot_text.specs.Lexical.{begins_line, is_blank, begins_name, is_in_name, is_by_numeral, is_in_line, is_name, is_unsigned, is_numeral, mark_token};
ghost use Rattle.dot_text.specs.Scanner.{begins_number};
ghost use Rattle.dot_text.specs.Tokens.{keyword};

use crate::token::Token;

/// Whether a line begins at the place: at byte 0 and behind each LF.
pub(crate) fn begins_line(bytes: &[u8], place: usize) -> bool
    requires { place ≤ length bytes.now }
    ensures { result ≡ begins_line bytes.now place }
{
    place == 0 || bytes[place - 1] == b'\n'
}

pub(crate) fn is_blank(byte: u8) -> bool
    ensures { result ≡ is_blank byte }
{
    byte == b' ' || byte == b'\t' || byte == b'\r' || byte == b'\n'
}

pub(crate) fn begins_name(byte: u8) -> bool
    ensures { result ≡ begins_name byte }
{
    byte.is_ascii_alphabetic() || byte == b'_' || byte >= 128
}

pub(crate) fn is_in_name(byte: u8) -> bool
    ensures { result ≡ is_in_name byte }
{
    begins_name(byte) || byte.is_ascii_digit()
}

pub(crate) fn begins_number(byte: u8) -> bool
    ensures { result ≡ begins_number byte }
{
    byte.is_ascii_digit() || byte == b'.'
}

pub(crate) fn is_by_numeral(byte: u8) -> bool
    ensures { result ≡ is_by_numeral byte }
{
    byte.is_ascii_digit() || byte.is_ascii_alphabetic() || byte == b'_' || byte == b'.'
}

pub(crate) fn is_in_line(byte: u8) -> bool
    ensures { result ≡ is_in_line byte }
{
    byte != b'\n'
}

/// How many bytes stand before the first LF, or how many there are.
pub(crate) fn line_len(bytes: &[u8]) -> usize
    ensures { result ≡ prefix_len is_in_line bytes.now }
{
    bytes.iter().take_while(|byte| is_in_line(**byte)).count()
}

/// Whether the bytes are a name: letters, `_`, digits and bytes from 128 on, with no digit first.
pub(crate) fn is_name(bytes: &[u8]) -> bool
    ensures { result ≡ is_name bytes.now }
{
    match bytes {
        [first, rest @ ..] => begins_name(*first) && all_in_name(rest),
        [] => false,
    }
}

fn all_in_name(bytes: &[u8]) -> bool
    ensures { result ≡ list_all is_in_name bytes.now }
{
    bytes.iter().all(|byte| is_in_name(*byte))
}

fn all_digits(bytes: &[u8]) -> bool
    ensures { result ≡ list_all is_ascii_digit bytes.now }
{
    bytes.iter().all(|byte| byte.is_ascii_digit())
}

/// Whether the bytes are `.` and digits, or digits with an optional `.` and further digits.
fn is_unsigned(bytes: &[u8]) -> bool
    ensures { result ≡ is_unsigned false bytes.now }
{
    let mut some = false;
    for (at, byte) in bytes.iter().enumerate() {
        if *byte == b'.' {
            let rest = &bytes[at + 1..];
            return all_digits(rest) && (some || !rest.is_empty());
        }
        if !byte.is_ascii_digit() {
            return false;
        }
        some = true;
    }
    some
}

pub(crate) fn is_numeral(bytes: &[u8]) -> bool
    ensures { result ≡ is_numeral bytes.now }
{
    match bytes {
        [b'-', digits @ ..] => is_unsigned(digits),
        _ => is_unsigned(bytes),
    }
}

fn is_word(bytes: &[u8], word: &[u8]) -> bool
    requires { str_to_ascii_lowercase word.now ≡ word.now }
    ensures { result ≡ bytes_eq (str_to_ascii_lowercase bytes.now) word.now }
{
    bytes.eq_ignore_ascii_case(word)
}

/// The keyword that the bytes are, in any case.
pub(crate) fn keyword(bytes: &[u8]) -> Option<Token>
    ensures { result ≡ keyword bytes.now }
{
    if is_word(bytes, b"digraph") {
        Some(Token::Digraph)
    } else if is_word(bytes, b"subgraph") {
        Some(Token::Subgraph)
    } else if is_word(bytes, b"graph") {
        Some(Token::Default)
    } else if is_word(bytes, b"node") {
        Some(Token::Default)
    } else if is_word(bytes, b"edge") {
        Some(Token::Default)
    } else if is_word(bytes, b"strict") {
        Some(Token::Strict)
    } else {
        None
    }
}

pub(crate) fn mark_token(byte: u8) -> Option<Token>
    ensures { result ≡ mark_token byte }
{
    match byte {
        b'{' => Some(Token::Open),
        b'}' => Some(Token::Close),
        b'[' => Some(Token::OpenList),
        b']' => Some(Token::CloseList),
        b';' => Some(Token::Semicolon),
        b',' => Some(Token::Comma),
        b'=' => Some(Token::Equals),
        _ => None,
    }
}

pub(crate) fn is_utf8(bytes: &[u8]) -> bool
    ensures { result ≡ is_utf8 bytes.now }
{
    match str::from_utf8(bytes) {
        Ok(_) => true,
        Err(_) => false,
    }
}
