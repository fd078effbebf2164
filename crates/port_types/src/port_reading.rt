//! Reading the ports of a side.
ghost use Rattle.std.specs.Prelude.{◌≡◌, ◌≢◌, ◌==◌, ℕ, ◌+◌, ◌^◌, ◌≤◌, ◌<◌, true, length, map, IsTrue, IfOk, MatchOption};
ghost use Rattle.std.specs.List.{list_all, list_any};
ghost use Rattle.std.specs.Option.{option_map};
ghost use Rattle.std.specs.Str.Parse.{digits_value};
ghost use Rattle.std.specs.Fmt.{decimal};
ghost use Rattle.port_types.specs.PortText.{port_name};
ghost use Rattle.port_types.specs.Numeral.{is_numeral};
ghost use Rattle.port_types.specs.PortGrammar.{is_blank, are_marked, is_marker, fields_of, shape_within, shape_reading, with_marker, behind_marker, behind_name, text_behind, port_reading, word_reading, reading, IsReading};

use crate::items::Items;
use crate::numeral::{is_numeral, small_number, small_value};
use crate::port::{Port, PortFault};
use crate::shape::Shape;
use crate::side::Side;
use std::alloc::Global;

/// The greatest number of ports of a side.
const MAX_PORTS: usize = 64;

/// What stands behind these bytes, where the text begins with them; `None` exactly where it does not. Takes no memory.
#[tactic(auto, unfolding(crate::specs::PortGrammar::text_behind))]
pub fn text_behind<'a>(front: &[u8], text: &'a [u8]) -> Option<&'a [u8]>
    ensures { option_map (λ rest. rest.now) result ≡ text_behind front.now text.now }
{
    text.strip_prefix(front)
}

/// The number of the port that a text names, as 2 for `out2`, or `None` exactly where it is no name of a port of
/// this side with a number from 1 to 255. Takes no memory.
pub fn read_port_name(text: &[u8], side: Side) -> Option<u8>
    ensures { MatchOption result ((number : ℕ) → 1 ≤ number → number ≤ 255 → text.now ≢ port_name side number)
        (λ number. (1 ≤ number) × (text.now ≡ port_name side number)) }
{
    let Some(digits) = text_behind(side.word().as_bytes(), text) else {
        return None;
    };
    small_number(digits)
}

/// What stands behind a number in decimal, where the text begins with it.
fn behind_number(number: u8, text: &[u8]) -> Option<&[u8]>
    requires { number < 100 }
    ensures { option_map (λ rest. rest.now) result ≡ text_behind (decimal number) text.now }
{
    if number < 10 {
        text_behind(&[b'0' + number], text)
    } else {
        text_behind(&[b'0' + number / 10, b'0' + number % 10], text)
    }
}

/// What stands behind the name of a port, where the text begins with it.
fn behind_port_name(side: Side, number: u8, text: &[u8]) -> Option<&[u8]>
    requires { number < 100 }
    ensures { option_map (λ rest. rest.now) result ≡ text_behind (port_name side number) text.now }
{
    let Some(rest) = text_behind(side.word().as_bytes(), text) else {
        return None;
    };
    behind_number(number, rest)
}

/// Whether each field of the text of a shape is a numeral.
fn are_numerals(text: &[u8]) -> bool
    ensures { result ≡ list_all is_numeral (fields_of text.now) }
{
    text.split(|byte| *byte == b'.').all(is_numeral)
}

/// The shape of these numerals.
fn shape_of(alloc: Global, text: &[u8]) -> Result<Shape, PortFault>
    requires { list_all is_numeral (fields_of text.now) ≡ true }
    ensures { IsReading (shape_within (map (digits_value 10) (fields_of text.now))) result }
{
    let mut widths = Vec::new(alloc);
    for field in text.split(|byte| *byte == b'.') {
        let Some(width) = small_value(field) else {
            return Err(PortFault::TooWide);
        };
        widths.push(width).map_err(|_| PortFault::NoMemory)?;
    }
    Shape::new(widths).ok_or(PortFault::TooWide)
}

#[tactic(auto, unfolding(crate::specs::PortGrammar::shape_reading))]
fn read_shape(alloc: Global, text: &[u8]) -> Result<Shape, PortFault>
    ensures { IsReading (shape_reading text.now) result }
{
    if are_numerals(text) {
        shape_of(alloc, text)
    } else {
        Err(PortFault::BadPort)
    }
}

/// The port with this marker whose shape stands behind a colon.
fn read_behind_marker(alloc: Global, marker: Option<u8>, text: &[u8]) -> Result<Port, PortFault>
    ensures { IsReading (behind_marker marker text.now) result }
{
    match text {
        [b':', text @ ..] => {
            let shape = read_shape(alloc, text)?;
            Ok(Port { marker, shape })
        }
        _ => Err(PortFault::BadPort),
    }
}

fn is_marker(byte: u8) -> bool
    ensures { result ≡ is_marker byte }
{
    byte == b'?' || byte == b'+' || byte == b'-'
}

/// The port whose marker, if any, and shape stand behind its name.
#[tactic(auto, unfolding(crate::specs::PortGrammar::behind_name))]
fn read_behind_name(alloc: Global, text: &[u8]) -> Result<Port, PortFault>
    ensures { IsReading (behind_name text.now) result }
{
    match text {
        [marker, rest @ ..] if is_marker(*marker) => {
            read_behind_marker(alloc, Some(*marker), rest)
        }
        _ => read_behind_marker(alloc, None, text),
    }
}

#[tactic(auto, unfolding(crate::specs::PortGrammar::port_reading))]
fn read_port(alloc: Global, word: &[u8], side: Side, number: u8) -> Result<Port, PortFault>
    requires { number ≤ 64 }
    ensures { IsReading (port_reading side number word.now) result }
{
    match behind_port_name(side, number, word) {
        Some(text) => read_behind_name(alloc, text),
        None => Err(PortFault::BadPort),
    }
}

/// Whether the word holds `*`, as that of a memory port.
fn is_memory_port(word: &[u8]) -> bool
    ensures { result ≡ list_any (λ byte. byte == 42) word.now }
{
    word.contains(&b'*')
}

fn is_blank(byte: u8) -> bool
    ensures { result ≡ is_blank byte }
{
    byte == b' ' || byte == b'\t'
}

/// The port of the word at an index.
#[tactic(auto, unfolding(crate::specs::PortGrammar::word_reading))]
fn read_word(alloc: Global, word: &[u8], side: Side, index: usize) -> Result<Port, PortFault>
    requires { index ≤ 64 }
    ensures { IsReading (word_reading side (index + 1) word.now) result }
{
    if is_memory_port(word) {
        Err(PortFault::MemoryPort)
    } else if index == MAX_PORTS {
        Err(PortFault::TooManyPorts)
    } else {
        read_port(alloc, word, side, index as u8 + 1)
    }
}

/// The ports that a text says: words separated by spaces and tabs, each `in` or `out` by the side, its number
/// counted from 1, a marker `?`, `+` or `-` or none, `:` and 1 to 128 widths from 0 to 64 joined by dots. A text
/// without a word says no ports. The fault is that of the first faulty word, in the order in which `PortFault` lists them.
pub fn read_ports(alloc: Global, text: &[u8], side: Side) -> Result<Items<Port>, PortFault>
    ensures reading { IsReading (reading side text.now) result }
    ensures few { IfOk result (λ ports. length ports ≤ 64) }
    ensures marked { IfOk result (λ ports. IsTrue (are_marked ports)) }
{
    let mut ports = Vec::new(alloc);
    for part in text.split(|byte| is_blank(*byte)) {
        if !part.is_empty() {
            let port = read_word(alloc, part, side, ports.len())?;
            ports.push(port).map_err(|_| PortFault::NoMemory)?;
        }
    }
    Ok(Items::new(ports))
}
