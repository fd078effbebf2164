ghost use Rattle.std.specs.Prelude.{◌≡◌, ◌==◌, ◌≤◌, ◌<◌, [], ◌∷◌, ◌++◌, if◌then◌else◌, true, IsTrue, OnOk, IfOk, length, string_bytes};
ghost use Rattle.std.specs.Fmt.{decimal};
ghost use Rattle.port_types.specs.Shape.{IsShape};
ghost use Rattle.port_types.specs.PortText.{port_name, shape_text, marker_text, marked_text, marked_ports_text};
ghost use Rattle.port_types.specs.PortGrammar.{is_marker_or_none, are_marked, reading};

use crate::memory::NoMemory;
use crate::port::Port;
use crate::shape::Shape;
use crate::side::Side;
use crate::text::Text;
use std::alloc::Global;
use std::fmt::Write;

/// The name of a port: the word of its side and its number, as `out2`. The only error is want of memory.
pub fn print_port_name(alloc: Global, side: Side, number: u8) -> Result<Text, NoMemory>
    ensures { IfOk result (λ text. text ≡ port_name side number) }
{
    let mut text = String::new(alloc);
    push_name(&mut text, side, usize::from(number))?;
    Ok(Text::from_string(text))
}

/// Appends the name of a port.
fn push_name(text: &mut String, side: Side, number: usize) -> Result<(), NoMemory>
    ensures { OnOk result (string_bytes text.new ≡ string_bytes text.old ++ port_name side number) }
{
    text.push_str(side.word())?;
    push_decimal(text, number)
}

/// Appends a number in decimal.
fn push_decimal(text: &mut String, number: usize) -> Result<(), NoMemory>
    ensures { OnOk result (string_bytes text.new ≡ string_bytes text.old ++ decimal number) }
{
    write!(text, "{number}")?;
    Ok(())
}

/// Appends the separator, but nothing before the first piece.
fn push_separator(text: &mut String, index: usize, separator: char) -> Result<(), NoMemory>
    requires { separator < 128 }
    ensures { OnOk result (string_bytes text.new
        ≡ string_bytes text.old ++ (if index == 0 then [] else separator ∷ [])) }
{
    if index > 0 {
        text.push(separator)?;
    }
    Ok(())
}

/// Appends the text of a shape: its widths in decimal, joined by dots.
fn push_shape(text: &mut String, widths: &[u8]) -> Result<(), NoMemory>
    ensures { OnOk result (string_bytes text.new ≡ string_bytes text.old ++ shape_text widths.now) }
{
    for (index, width) in widths.iter().enumerate() {
        push_separator(text, index, '.')?;
        push_decimal(text, usize::from(*width))?;
    }
    Ok(())
}

/// Appends the marker, if there is one.
fn push_marker(text: &mut String, marker: Option<u8>) -> Result<(), NoMemory>
    requires { is_marker_or_none marker ≡ true }
    ensures { OnOk result (string_bytes text.new ≡ string_bytes text.old ++ marker_text marker) }
{
    if let Some(marker) = marker {
        text.push(char::from(marker))?;
    }
    Ok(())
}

/// Appends the text of a port with its marker and shape, as `in1?:1`.
fn push_marked_port(
    text: &mut String,
    side: Side,
    number: usize,
    port: &Port,
) -> Result<(), NoMemory>
    requires { is_marker_or_none port.now.marker ≡ true }
    ensures text { OnOk result (string_bytes text.new ≡ string_bytes text.old ++ marked_text side number port.now) }
    ensures shape { OnOk result (IsShape port.now.shape) }
{
    push_name(text, side, number)?;
    push_marker(text, port.marker)?;
    text.push(':')?;
    push_shape(text, port.shape.widths())
}

/// The text of the ports of a side, numbered from 1 and joined by spaces, as `in1?:1 in2+:8 in3-:4.32`. `read_ports`
/// of it gives the ports, where there are at most 64.
pub fn print_ports(alloc: Global, ports: &[Port], side: Side) -> Result<Text, NoMemory>
    requires { IsTrue (are_marked ports.now) }
    ensures text { IfOk result (λ text. text ≡ marked_ports_text side ports.now) }
    ensures reads_back { length ports.now ≤ 64 → IfOk result (λ text. reading side text ≡ Ok ports.now) }
{
    let mut text = String::new(alloc);
    for (index, port) in ports.iter().enumerate() {
        push_separator(&mut text, index, ' ')?;
        push_marked_port(&mut text, side, index + 1, port)?;
    }
    Ok(Text::from_string(text))
}
