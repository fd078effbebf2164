//! Reading documents, item by item.

ghost use Rattle.std.specs.Prelude.{◌≡◌, ◌<◌, ◌≤◌, ◌+◌, ℕ, length, drop, slice_range, Err, IfOk, IfSome, IsUtf8};
ghost use Rattle.std.specs.Option.{option_map};
ghost use Rattle.dot_text.specs.Documents.{Stands, Place};
ghost use Rattle.dot_text.specs.Scanner.{front_at};
ghost use Rattle.dot_text.specs.Reading.{IsAnswer, behind_token};
ghost use Rattle.dot_text.specs.Stream as stream;
ghost use Rattle.dot_text.specs.Rests.{rest_front};
ghost use Rattle.dot_text.specs.States.{state_of};
ghost use Rattle.dot_text.specs.Scans.{Keeps, KeepsItem, mode_of, item_of};
ghost use Rattle.dot_text.specs.Readers.{front_of, turn_of, answer_of, Fits};

use crate::doc::{Doc, DocFault};
use crate::lexical::{begins_line, is_utf8};
use crate::machine::step;
use crate::runs::run_on;
use crate::scan::{Item, Mode, Start, Taken, last_item, starts, take_byte};
use crate::state::State;
use crate::token::Token;
use port_types::{NoMemory, Text};
use std::alloc::Global;

/// A document and where it ends, or the place of the fault.
#[derive(Drop)]
pub(crate) enum Answer {
    Found(Doc, usize),
    Fault(usize),
}

/// What an item does: reading fails at its first byte, goes on, or ends behind it.
#[derive(Drop)]
pub(crate) enum Turn {
    Fails,
    Goes(State),
    Finds(Doc),
}

fn token_turn(next: Option<State>) -> Turn
    ensures { (p q : ℕ) → turn_of p q result ≡ behind_token p q (option_map state_of next) }
{
    match next {
        None => Turn::Fails,
        Some(State::Whole(doc)) => Turn::Finds(doc),
        Some(state) => Turn::Goes(state),
    }
}

fn text_of(bytes: Vec<u8>) -> Text
    requires { IsUtf8 bytes.items }
    ensures { result ≡ bytes.items }
{
    match Text::new(bytes) {
        Some(text) => text,
        None => unreachable!(),
    }
}

/// Reads the item whose bytes stand from `start` to `end`.
fn read_item(
    alloc: Global,
    bytes: &[u8],
    start: usize,
    end: usize,
    state: State,
    item: Item,
) -> Result<Turn, NoMemory>
    requires order { start ≤ end }
    requires within { end ≤ length bytes.now }
    requires keeps { KeepsItem (slice_range bytes.now start end) item }
    ensures { IfOk result (λ turn. turn_of start end turn ≡ stream.item_turn start (state_of state) (item_of item) (slice_range bytes.now start end)) }
{
    if !is_utf8(&bytes[start..end]) {
        return Ok(Turn::Fails);
    }
    match item {
        Item::Blank => Ok(Turn::Goes(state)),
        Item::Fixed(token) => Ok(token_turn(step(alloc, state, token)?)),
        Item::Id(id) => {
            let id = text_of(id);
            Ok(token_turn(step(alloc, state, Token::Id(id))?))
        }
    }
}

/// The item that begins at `start`, and the place behind it; `None` where none begins there.
fn item_at(alloc: Global, bytes: &[u8], start: usize) -> Result<Option<(Item, usize)>, NoMemory>
    requires { start < length bytes.now }
    ensures same { IfOk result (λ found. front_of bytes.now start found ≡ front_at bytes.now start) }
    ensures fits { IfOk result (λ found. IfSome found (λ item. Fits bytes.now start item)) }
{
    match starts(alloc, begins_line(bytes, start), bytes[start]) {
        Start::More(mode) => rest_of_item(alloc, bytes, start, mode),
        Start::With(item) => Ok(Some((item, start + 1))),
        Start::Bad => Ok(None),
    }
}

/// The same where the first byte of the item leads into a mode.
fn rest_of_item(
    alloc: Global,
    bytes: &[u8],
    start: usize,
    mut mode: Mode,
) -> Result<Option<(Item, usize)>, NoMemory>
    requires within { start < length bytes.now }
    requires keeps { Keeps (slice_range bytes.now start (start + 1)) mode }
    ensures same { IfOk result (λ found. front_of bytes.now start found ≡ rest_front (mode_of mode) (slice_range bytes.now start (start + 1)) (drop (start + 1) bytes.now)) }
    ensures fits { IfOk result (λ found. IfSome found (λ item. Fits bytes.now start item)) }
{
    let mut at = start + 1;
    loop {
        (mode, at) = run_on(mode, bytes, at)?;
        if at == bytes.len() {
            let Some(item) = last_item(alloc, mode, &bytes[start..at])? else {
                return Ok(None);
            };
            return Ok(Some((item, at)));
        }
        match take_byte(alloc, mode, &bytes[start..at], bytes[at])? {
            Taken::Now(Start::More(next)) => mode = next,
            Taken::Now(Start::With(item)) => return Ok(Some((item, at + 1))),
            Taken::Now(Start::Bad) => return Ok(None),
            Taken::Before(item) => return Ok(Some((item, at))),
        }
        at += 1;
    }
}

fn read(alloc: Global, bytes: &[u8], from: usize) -> Result<Answer, NoMemory>
    requires { from ≤ length bytes.now }
    ensures { IfOk result (λ answer. IsAnswer bytes.now from (answer_of answer)) }
{
    let mut state = State::Begin;
    let mut at = from;
    while at < bytes.len() {
        let Some((item, to)) = item_at(alloc, bytes, at)? else {
            return Ok(Answer::Fault(at));
        };
        match read_item(alloc, bytes, at, to, state, item)? {
            Turn::Fails => return Ok(Answer::Fault(at)),
            Turn::Goes(next) => state = next,
            Turn::Finds(doc) => return Ok(Answer::Found(doc, to)),
        }
        at = to;
    }
    Ok(Answer::Fault(at))
}

/// The document that stands in the bytes at a place, behind blanks and comments, with the place behind its last `}`.
///
/// `Syntax` exactly where no document stands there, with the byte at which that shows; `NoMemory` for want of memory.
pub fn read_doc(alloc: Global, bytes: &[u8], from: usize) -> Result<(Doc, usize), DocFault>
    requires { from ≤ length bytes.now }
    ensures found { IfOk result (λ found. Stands bytes.now from found.0 found.1) }
    ensures within { IfOk result (λ found. found.1 ≤ length bytes.now) }
    ensures fault { (place : ℕ) → result ≡ Err (DocFault.Syntax place) → Place bytes.now from place }
{
    match read(alloc, bytes, from) {
        Ok(Answer::Found(doc, to)) => Ok((doc, to)),
        Ok(Answer::Fault(place)) => Err(DocFault::Syntax(place)),
        Err(NoMemory) => Err(DocFault::NoMemory),
    }
}
