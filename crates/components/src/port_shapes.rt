//! The shapes of ports: whether two are one, and a shape of its own.
ghost use Rattle.std.specs.Prelude.{◌≡◌, ◌↔◌, IsTrue, IsSome, IfOk, Some};
ghost use Rattle.components.specs.Kind.{ins, outs, ports, KindOk};
ghost use Rattle.components.specs.Name.{port_get};

use crate::fields::field_at;
use crate::kind::{Kind, port_count};
use port_types::{MAX_FIELDS, NoMemory, Shape, Side};
use std::alloc::Global;

/// Whether the kind has this port.
pub fn has_port(kind: &Kind, side: Side, port: u8) -> bool
    requires { KindOk kind.now }
    ensures { IsTrue result ↔ IsSome (port_get (ports kind.now side) port) }
{
    1 <= port && port <= port_count(kind, side)
}

/// Whether an output and an input that are there have one shape. Takes no memory.
pub fn have_one_shape(source: &Kind, output: u8, target: &Kind, input: u8) -> bool
    requires source_ok { KindOk source.now }
    requires target_ok { KindOk target.now }
    requires leaves { IsSome (port_get (outs source.now) output) }
    requires enters { IsSome (port_get (ins target.now) input) }
    ensures { IsTrue result ↔ (port_get (outs source.now) output ≡ port_get (ins target.now) input) }
{
    for index in 0..MAX_FIELDS {
        let leaving = field_at(source, Side::Outs, output, index);
        let entering = field_at(target, Side::Ins, input, index);
        if leaving != entering {
            return false;
        }
    }
    true
}

/// The shape of a port that the kind has. The only error is want of memory.
pub fn port_shape(alloc: Global, kind: &Kind, side: Side, port: u8) -> Result<Shape, NoMemory>
    requires ok { KindOk kind.now }
    requires there { IsSome (port_get (ports kind.now side) port) }
    ensures { IfOk result (λ shape. port_get (ports kind.now side) port ≡ Some shape) }
{
    match Shape::new(port_widths(alloc, kind, side, port)?) {
        Some(shape) => Ok(shape),
        None => unreachable!(),
    }
}

fn port_widths(alloc: Global, kind: &Kind, side: Side, port: u8) -> Result<Vec<u8>, NoMemory>
    requires ok { KindOk kind.now }
    requires there { IsSome (port_get (ports kind.now side) port) }
    ensures { IfOk result (λ widths. port_get (ports kind.now side) port ≡ Some widths.items) }
{
    let mut widths = Vec::new(alloc);
    for index in 0..MAX_FIELDS {
        match field_at(kind, side, port, index) {
            Some(width) => widths.push(width)?,
            None => return Ok(widths),
        }
    }
    Ok(widths)
}
