//! The fields of each port, by the table of components.
ghost use Rattle.std.specs.Prelude.{◌≡◌, ◌≤◌, IsSome, map, slice_get};
ghost use Rattle.std.specs.List.{concat};
ghost use Rattle.components.specs.Kind.{field, tagged, ins, outs, ports, KindOk};
ghost use Rattle.components.specs.Name.{port_get};
ghost use Rattle.components.specs.Fields.{field_of};

use crate::kind::Kind;
use port_types::{Shape, Side, tag_width};

/// The width in bits of the field with this index, counted from 0, of a port that the kind has. `None` exactly where the port has no such field.
pub(crate) fn field_at(kind: &Kind, side: Side, port: u8, index: usize) -> Option<u8>
    requires ok { KindOk kind.now }
    requires there { IsSome (port_get (ports kind.now side) port) }
    ensures { result ≡ field_of (port_get (ports kind.now side) port) index }
{
    match side {
        Side::Ins => input_field(kind, port, index),
        Side::Outs => output_field(kind, port, index),
    }
}

fn input_field(kind: &Kind, port: u8, index: usize) -> Option<u8>
    requires ok { KindOk kind.now }
    requires there { IsSome (port_get (ins kind.now) port) }
    ensures { result ≡ field_of (port_get (ins kind.now) port) index }
{
    match kind {
        Kind::Exit(shape)
        | Kind::Buffer(shape)
        | Kind::Fork(shape, _)
        | Kind::Constant(shape, ..)
        | Kind::Sink0(shape) => field_in(shape, index),
        Kind::Pure(fun, _) => field_in(&fun.input, index),
        Kind::Merge(shape, _) => field_in(shape, index),
        Kind::CtrlMerge(shape, ..) => field_in(shape, index),
        Kind::Join(shapes) => field_among(shapes.as_slice(), port, index),
        Kind::Split(shapes) => joined_field(shapes.as_slice(), index),
        Kind::Operator(_, widths, _) => operand_field(widths.as_slice(), port, index),
        Kind::Init(..) => single_field(1, index),
        Kind::Mux(shape) => {
            if port == 1 {
                single_field(1, index)
            } else {
                field_in(shape, index)
            }
        }
        Kind::Branch(shape) => {
            if port == 1 {
                field_in(shape, index)
            } else {
                single_field(1, index)
            }
        }
        Kind::Tagger(shape, tags) => {
            if port == 1 {
                field_in(shape, index)
            } else {
                tagged_field(*tags, shape, index)
            }
        }
        Kind::Entry(_) | Kind::Source0(_) => unreachable!(),
    }
}

fn output_field(kind: &Kind, port: u8, index: usize) -> Option<u8>
    requires ok { KindOk kind.now }
    requires there { IsSome (port_get (outs kind.now) port) }
    ensures { result ≡ field_of (port_get (outs kind.now) port) index }
{
    match kind {
        Kind::Fork(shape, _) => field_in(shape, index),
        Kind::Pure(_, shape) => field_in(shape, index),
        Kind::Entry(shape)
        | Kind::Buffer(shape)
        | Kind::Source0(shape)
        | Kind::Mux(shape)
        | Kind::Branch(shape)
        | Kind::Merge(shape, _) => field_in(shape, index),
        Kind::Split(shapes) => field_among(shapes.as_slice(), port, index),
        Kind::Join(shapes) => joined_field(shapes.as_slice(), index),
        Kind::Operator(_, _, width) | Kind::Constant(_, width, _) => single_field(*width, index),
        Kind::Init(..) => single_field(1, index),
        Kind::CtrlMerge(shape, _, width) => {
            if port == 1 {
                field_in(shape, index)
            } else {
                single_field(*width, index)
            }
        }
        Kind::Tagger(shape, tags) => {
            if port == 1 {
                tagged_field(*tags, shape, index)
            } else {
                field_in(shape, index)
            }
        }
        Kind::Exit(_) | Kind::Sink0(_) => unreachable!(),
    }
}

/// The field of a shape.
fn field_in(shape: &Shape, index: usize) -> Option<u8>
    ensures { result ≡ slice_get shape.now index }
{
    shape.widths().get(index).copied()
}

/// The field of a shape of one field.
fn single_field(width: u8, index: usize) -> Option<u8>
    ensures { result ≡ slice_get (field width) index }
{
    if index == 0 { Some(width) } else { None }
}

/// The field of a shape with a tag before it, for so many tags.
fn tagged_field(tags: u16, shape: &Shape, index: usize) -> Option<u8>
    requires some { 1 ≤ tags }
    requires few { tags ≤ 256 }
    ensures { result ≡ slice_get (tagged tags shape.now) index }
{
    if index == 0 {
        Some(tag_width(tags))
    } else {
        field_in(shape, index - 1)
    }
}

/// The field of the port, where the ports have these shapes.
fn field_among(shapes: &[Shape], port: u8, index: usize) -> Option<u8>
    requires { IsSome (port_get shapes.now port) }
    ensures { result ≡ field_of (port_get shapes.now port) index }
{
    field_in(&shapes[port as usize - 1], index)
}

/// The field of the port, where the ports have one field each, of these widths.
fn operand_field(widths: &[u8], port: u8, index: usize) -> Option<u8>
    requires { IsSome (port_get (map field widths.now) port) }
    ensures { result ≡ field_of (port_get (map field widths.now) port) index }
{
    single_field(widths[port as usize - 1], index)
}

/// The field of the shape that has the fields of all these shapes, one after another.
fn joined_field(shapes: &[Shape], index: usize) -> Option<u8>
    ensures { result ≡ slice_get (concat shapes.now) index }
{
    let mut left = index;
    for shape in shapes {
        let count = shape.widths().len();
        if left < count {
            return field_in(shape, left);
        }
        left -= count;
    }
    None
}
