//! What a port carries, and how it is written: shapes, tokens, names, and the texts of ports, which are read and printed.
//!
//! - `Text`: bytes that are UTF-8.
//! - `Shape`: 1 to 128 widths of fields, each from 0 to 64 bits.
//! - `Token`: a list of numbers, one for each field of the shape that it fits.
//! - `Items`: a list in a public type, which contracts see as the list of what it holds.
//! - `Port`: a marker, if any, and a shape. `read_ports` gives the ports that a text as `in1?:1 in2:4.32` says, or the
//!   `PortFault` of its first faulty word; `print_ports` gives their text; `read_port_name` and `print_port_name` are for the name of one, as `out1`.
//! - `read_numeral`, `read_decimal`, `read_hexadecimal`: numbers below 2^64 from their digits.
//! - `text_behind`: what stands behind given bytes at the front of a text.
//! - `tag_width`: the number of bits of a tag.
//! - `reads_ports`, `reads_back`, `too_wide_is_unbounded`: laws of port texts; `numerals_tell_numbers`: a law of numerals.
//! - `NoMemory`: the answer of a call for which there was no memory.
#![tactic(auto)]

mod items;
mod laws;
mod memory;
mod numeral;
mod port;
mod port_reading;
mod port_text;
mod shape;
mod side;
mod tag;
mod text;
mod token;

pub use items::Items;
pub use laws::{numerals_tell_numbers, reads_back, reads_ports, too_wide_is_unbounded};
pub use memory::NoMemory;
pub use numeral::{read_decimal, read_hexadecimal, read_numeral};
pub use port::{Port, PortFault};
pub use port_reading::{read_port_name, read_ports, text_behind};
pub use port_text::{print_port_name, print_ports};
pub use shape::{MAX_FIELDS, Shape, is_shape, same_shape};
pub use side::Side;
pub use tag::tag_width;
pub use text::Text;
pub use token::{Token, fits};
