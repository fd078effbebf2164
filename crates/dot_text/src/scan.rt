//! The machine over bytes, within a blank, a comment or a token.

ghost use Rattle.std.specs.Prelude.{◌≡◌, ℕ, List, [], true, false, IfOk, IfSome};
ghost use Rattle.std.specs.Option.{option_map};
ghost use Rattle.dot_text.specs.Lexical.{mark_token};
ghost use Rattle.dot_text.specs.Stream as stream;
ghost use Rattle.dot_text.specs.Tokens.{word_token};
ghost use Rattle.dot_text.specs.Scans.{Keeps, KeepsItem, KeepsStart, KeepsTaken, mode_of, item_of, start_of, taken_of};

use crate::lexical::{
    begins_name, begins_number, is_blank, is_by_numeral, is_in_line, is_in_name, is_numeral,
    keyword, mark_token,
};
use crate::token::Token;
use port_types::NoMemory;
use std::alloc::Global;

/// Within what the next byte stands. Within quotes: whether a backslash stands before it, and what the bytes so far stand for.
#[derive(Drop)]
pub(crate) enum Mode {
    InName,
    InNumber,
    Minus,
    InQuotes(bool, Vec<u8>),
    Slash,
    InLine,
    InBlock(bool),
}

/// A blank or a comment, the bytes of an ID, or another token.
#[derive(Drop)]
pub(crate) enum Item {
    Blank,
    Id(Vec<u8>),
    Fixed(Token),
}

/// What a byte does: it goes on with something, ends it, or is a fault.
#[derive(Drop)]
pub(crate) enum Start {
    More(Mode),
    With(Item),
    Bad,
}

/// Or the item ended before it.
#[derive(Drop)]
pub(crate) enum Taken {
    Now(Start),
    Before(Item),
}

/// What a byte between items begins; `line` says that a line begins at it.
pub(crate) fn starts(alloc: Global, line: bool, byte: u8) -> Start
    ensures same { start_of result ≡ stream.starts line byte }
    ensures keeps { KeepsStart [] byte result }
{
    if begins_name(byte) {
        Start::More(Mode::InName)
    } else if begins_number(byte) {
        Start::More(Mode::InNumber)
    } else if is_blank(byte) {
        Start::With(Item::Blank)
    } else if byte == b'"' {
        Start::More(Mode::InQuotes(false, Vec::new(alloc)))
    } else if byte == b'-' {
        Start::More(Mode::Minus)
    } else if byte == b'/' {
        Start::More(Mode::Slash)
    } else if byte == b'#' && line {
        Start::More(Mode::InLine)
    } else {
        mark_start(byte)
    }
}

fn mark_start(byte: u8) -> Start
    ensures same { start_of result ≡ stream.with_mark (mark_token byte) }
    ensures keeps { KeepsStart [] byte result }
{
    match mark_token(byte) {
        Some(token) => Start::With(Item::Fixed(token)),
        None => Start::Bad,
    }
}

/// The ID of these bytes.
fn id_of(alloc: Global, text: &[u8]) -> Result<Item, NoMemory>
    ensures same { IfOk result (λ item. item_of item ≡ stream.Lexeme (Token.Id text.now)) }
    ensures keeps { IfOk result (λ item. KeepsItem text.now item) }
{
    let id = Vec::from_slice(alloc, text)?;
    Ok(Item::Id(id))
}

/// The token of a bare word.
fn word(alloc: Global, text: &[u8]) -> Result<Item, NoMemory>
    ensures same { IfOk result (λ item. item_of item ≡ stream.Lexeme (word_token text.now)) }
    ensures keeps { IfOk result (λ item. KeepsItem text.now item) }
{
    match keyword(text) {
        Some(token) => Ok(Item::Fixed(token)),
        None => id_of(alloc, text),
    }
}

fn number_taken(alloc: Global, text: &[u8], byte: u8) -> Result<Taken, NoMemory>
    ensures same { IfOk result (λ t. taken_of t ≡ stream.number_taken text.now byte) }
    ensures keeps { IfOk result (λ t. KeepsTaken text.now byte t) }
{
    if is_by_numeral(byte) {
        Ok(Taken::Now(Start::More(Mode::InNumber)))
    } else if is_numeral(text) {
        Ok(Taken::Before(id_of(alloc, text)?))
    } else {
        Ok(Taken::Now(Start::Bad))
    }
}

fn minus_taken(alloc: Global, text: &[u8], byte: u8) -> Result<Taken, NoMemory>
    ensures same { IfOk result (λ t. taken_of t ≡ stream.taken stream.Minus text.now byte) }
    ensures keeps { IfOk result (λ t. KeepsTaken text.now byte t) }
{
    if byte == b'>' {
        return Ok(Taken::Now(Start::With(Item::Fixed(Token::Arrow))));
    }
    number_taken(alloc, text, byte)
}

fn name_taken(alloc: Global, text: &[u8], byte: u8) -> Result<Taken, NoMemory>
    ensures same { IfOk result (λ t. taken_of t ≡ stream.taken stream.InName text.now byte) }
    ensures keeps { IfOk result (λ t. KeepsTaken text.now byte t) }
{
    if is_in_name(byte) {
        return Ok(Taken::Now(Start::More(Mode::InName)));
    }
    Ok(Taken::Before(word(alloc, text)?))
}

/// A byte within quotes behind a backslash.
fn escaped_taken(mut value: Vec<u8>, byte: u8) -> Result<Start, NoMemory>
    ensures same { (text : List ℕ) → IfOk result (λ t. stream.Now (start_of t) ≡ stream.taken (stream.InQuotes true value.items) text byte) }
    ensures keeps { (text : List ℕ) → Keeps text (Mode.InQuotes true value) → IfOk result (λ t. KeepsStart text byte t) }
{
    if byte == b'\n' || byte == b'\r' {
        return Ok(Start::Bad);
    }
    if byte == b'"' {
        value.push(byte)?;
        return Ok(Start::More(Mode::InQuotes(false, value)));
    }
    value.push(b'\\')?;
    value.push(byte)?;
    Ok(Start::More(Mode::InQuotes(false, value)))
}

/// A byte within quotes behind another than a backslash.
fn quoted_taken(mut value: Vec<u8>, byte: u8) -> Result<Start, NoMemory>
    ensures same { (text : List ℕ) → IfOk result (λ t. stream.Now (start_of t) ≡ stream.taken (stream.InQuotes false value.items) text byte) }
    ensures keeps { (text : List ℕ) → Keeps text (Mode.InQuotes false value) → IfOk result (λ t. KeepsStart text byte t) }
{
    if byte == b'"' {
        return Ok(Start::With(Item::Id(value)));
    }
    if byte == b'\\' {
        return Ok(Start::More(Mode::InQuotes(true, value)));
    }
    value.push(byte)?;
    Ok(Start::More(Mode::InQuotes(false, value)))
}

fn quotes_taken(passed: bool, value: Vec<u8>, byte: u8) -> Result<Start, NoMemory>
    ensures same { (text : List ℕ) → IfOk result (λ t. stream.Now (start_of t) ≡ stream.taken (stream.InQuotes passed value.items) text byte) }
    ensures keeps { (text : List ℕ) → Keeps text (Mode.InQuotes passed value) → IfOk result (λ t. KeepsStart text byte t) }
{
    if passed {
        escaped_taken(value, byte)
    } else {
        quoted_taken(value, byte)
    }
}

fn slash_taken(byte: u8) -> Start
    ensures same { (text : List ℕ) → stream.Now (start_of result) ≡ stream.taken stream.Slash text byte }
    ensures keeps { (text : List ℕ) → KeepsStart text byte result }
{
    match byte {
        b'/' => Start::More(Mode::InLine),
        b'*' => Start::More(Mode::InBlock(false)),
        _ => Start::Bad,
    }
}

fn line_taken(byte: u8) -> Taken
    ensures same { (text : List ℕ) → taken_of result ≡ stream.taken stream.InLine text byte }
    ensures keeps { (text : List ℕ) → KeepsTaken text byte result }
{
    if is_in_line(byte) {
        Taken::Now(Start::More(Mode::InLine))
    } else {
        Taken::Before(Item::Blank)
    }
}

fn block_taken(star: bool, byte: u8) -> Start
    ensures same { (text : List ℕ) → stream.Now (start_of result) ≡ stream.taken (stream.InBlock star) text byte }
    ensures keeps { (text : List ℕ) → KeepsStart text byte result }
{
    if star && byte == b'/' {
        Start::With(Item::Blank)
    } else {
        Start::More(Mode::InBlock(byte == b'*'))
    }
}

/// What a byte does within an item; `text` is the bytes of the item so far.
pub(crate) fn take_byte(alloc: Global, mode: Mode, text: &[u8], byte: u8) -> Result<Taken, NoMemory>
    requires { Keeps text.now mode }
    ensures same { IfOk result (λ t. taken_of t ≡ stream.taken (mode_of mode) text.now byte) }
    ensures keeps { IfOk result (λ t. KeepsTaken text.now byte t) }
{
    match mode {
        Mode::InName => name_taken(alloc, text, byte),
        Mode::InNumber => number_taken(alloc, text, byte),
        Mode::Minus => minus_taken(alloc, text, byte),
        Mode::InQuotes(passed, value) => Ok(Taken::Now(quotes_taken(passed, value, byte)?)),
        Mode::Slash => Ok(Taken::Now(slash_taken(byte))),
        Mode::InLine => Ok(line_taken(byte)),
        Mode::InBlock(star) => Ok(Taken::Now(block_taken(star, byte))),
    }
}

/// The item that ends where the bytes end.
pub(crate) fn last_item(alloc: Global, mode: Mode, text: &[u8]) -> Result<Option<Item>, NoMemory>
    ensures same { IfOk result (λ last. option_map item_of last ≡ stream.last_item (mode_of mode) text.now) }
    ensures keeps { IfOk result (λ last. IfSome last (λ item. KeepsItem text.now item)) }
{
    match mode {
        Mode::InName => Ok(Some(word(alloc, text)?)),
        Mode::InNumber if is_numeral(text) => Ok(Some(id_of(alloc, text)?)),
        Mode::InLine => Ok(Some(Item::Blank)),
        _ => Ok(None),
    }
}
