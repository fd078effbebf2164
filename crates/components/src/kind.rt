ghost use Rattle.std.specs.Prelude.{◌≡◌, ◌↔◌, ◌≤◌, ◌^◌, IsTrue, All, length};
ghost use Rattle.std.specs.List.{concat};
ghost use Rattle.port_types.specs.Shape.{IsShape};
ghost use Rattle.components.specs.Kind.{ins, outs, ports, KindOk, AreParts, IsCount};

use fun_expr::{Fun, check_fun};
use op_table::{MAX_WIDTH, Op, typed_op};
use port_types::{Items, MAX_FIELDS, Shape, Side, is_shape};

/// The greatest number of ports of a side.
const MAX_PORTS: u8 = 64;

/// The greatest number of tags.
const MAX_TAGS: u16 = 256;

/// What a node is, with the shapes of its ports.
#[derive(Clone, Debug, Drop)]
pub enum Kind {
    /// Tokens come in here: one output.
    Entry(Shape),
    /// Tokens leave here: one input.
    Exit(Shape),
    /// Passes each token on: one input, one output.
    Buffer(Shape),
    /// Gives each token to all of its outputs, 1 to 64 of them: one input.
    Fork(Shape, u8),
    /// Takes one token of each input, of these shapes, and gives them as one.
    Join(Items<Shape>),
    /// Cuts each token into one for each output, of these shapes.
    Split(Items<Shape>),
    /// Applies the operator to one field from each input: the widths of the inputs and that of the output, in bits.
    Operator(Op, Items<u8>, u8),
    /// Gives a value for each token that it takes: the shape of the input, the width of the output in bits, the value.
    Constant(Shape, u8, u64),
    /// Gives zeros at any time: one output.
    Source0(Shape),
    /// Drops each token: one input.
    Sink0(Shape),
    /// Gives what the function gives for each token that it takes: the function, whose input is that of the node, and the shape of the output.
    Pure(Fun, Shape),
    /// Takes the token of its second or of its third input, as the bit at the first input selects.
    Mux(Shape),
    /// Gives the token of its first input to one of two outputs, as the bit at the second input selects.
    Branch(Shape),
    /// Passes on the tokens of its inputs, 1 to 64 of them, in any order.
    Merge(Shape, u8),
    /// As a Merge, and tells at a second output, of this width in bits, which input it took: the number of inputs, the width.
    CtrlMerge(Shape, u8, u8),
    /// Passes each bit on, and its output holds a bit at the start: that bit, and with how many tags its loop is to be tagged, 0 for a loop without a mark.
    Init(u8, u16),
    /// Gives tags to tokens, and gives their results in the order in which they came: the shape without the tag, the number of tags, 1 to 256.
    Tagger(Shape, u16),
}

/// Whether the kind meets its row of the table: its counts of ports, fields and tags are within the limits, an Operator's widths are those of its operator, and a Pure has the output of its function.
pub fn kind_ok(kind: &Kind) -> bool
    ensures { IsTrue result ↔ KindOk kind.now }
{
    match kind {
        Kind::Entry(shape)
        | Kind::Exit(shape)
        | Kind::Buffer(shape)
        | Kind::Source0(shape)
        | Kind::Sink0(shape)
        | Kind::Mux(shape)
        | Kind::Branch(shape) => is_shape(shape.widths()),
        Kind::Fork(shape, count) | Kind::Merge(shape, count) => {
            is_shape(shape.widths()) && is_count(*count)
        }
        Kind::Join(shapes) | Kind::Split(shapes) => are_parts(shapes.as_slice()),
        Kind::Operator(op, widths, width) => typed_op(*op, widths.as_slice(), *width),
        Kind::Constant(shape, width, _) => is_shape(shape.widths()) && *width <= MAX_WIDTH,
        Kind::Pure(fun, shape) => is_shape(shape.widths()) && check_fun(fun, shape),
        Kind::CtrlMerge(shape, count, width) => {
            is_shape(shape.widths()) && is_count(*count) && tells_apart(*width, *count)
        }
        Kind::Init(value, mark) => *value <= 1 && *mark <= MAX_TAGS,
        Kind::Tagger(shape, tags) => {
            shape.widths().len() < MAX_FIELDS && 1 <= *tags && *tags <= MAX_TAGS
        }
    }
}

/// Whether a side may have so many ports.
fn is_count(count: u8) -> bool
    ensures { IsTrue result ↔ IsCount count }
{
    1 <= count && count <= MAX_PORTS
}

/// Whether these may be the shapes of one side whose other side has them all in one: 1 to 64, with at most 128 fields together.
fn are_parts(shapes: &[Shape]) -> bool
    ensures { IsTrue result ↔ AreParts shapes.now }
{
    !shapes.is_empty()
        && shapes.len() <= MAX_PORTS as usize
        && are_shapes(shapes)
        && has_fields_within(shapes, MAX_FIELDS)
}

/// Whether each of them is a shape.
fn are_shapes(shapes: &[Shape]) -> bool
    ensures { IsTrue result ↔ All IsShape shapes.now }
{
    shapes.iter().all(|shape| is_shape(shape.widths()))
}

/// Whether the shapes have at most so many fields together.
fn has_fields_within(shapes: &[Shape], most: usize) -> bool
    ensures { IsTrue result ↔ (length (concat shapes.now) ≤ most) }
{
    let mut left = most;
    for shape in shapes {
        let fields = shape.widths().len();
        if fields > left {
            return false;
        }
        left -= fields;
    }
    true
}

/// Whether numbers below the count fit a field of this width.
fn tells_apart(width: u8, count: u8) -> bool
    ensures { IsTrue result ↔ (width ≤ 64) × (count ≤ 2 ^ width) }
{
    width <= MAX_WIDTH && (width >= 8 || u16::from(count) <= 1 << width)
}

/// How many inputs a node of this kind has.
pub fn inputs(kind: &Kind) -> u8
    requires { KindOk kind.now }
    ensures { result ≡ length (ins kind.now) }
{
    match kind {
        Kind::Entry(_) | Kind::Source0(_) => 0,
        Kind::Exit(_)
        | Kind::Buffer(_)
        | Kind::Fork(..)
        | Kind::Split(_)
        | Kind::Constant(..)
        | Kind::Sink0(_)
        | Kind::Pure(..)
        | Kind::Init(..) => 1,
        Kind::Branch(_) | Kind::Tagger(..) => 2,
        Kind::Mux(_) => 3,
        Kind::Merge(_, count) | Kind::CtrlMerge(_, count, _) => *count,
        Kind::Join(shapes) => shapes.as_slice().len() as u8,
        Kind::Operator(_, widths, _) => widths.as_slice().len() as u8,
    }
}

/// How many outputs a node of this kind has.
pub fn outputs(kind: &Kind) -> u8
    requires { KindOk kind.now }
    ensures { result ≡ length (outs kind.now) }
{
    match kind {
        Kind::Exit(_) | Kind::Sink0(_) => 0,
        Kind::Entry(_)
        | Kind::Buffer(_)
        | Kind::Join(_)
        | Kind::Operator(..)
        | Kind::Constant(..)
        | Kind::Source0(_)
        | Kind::Pure(..)
        | Kind::Mux(_)
        | Kind::Merge(..)
        | Kind::Init(..) => 1,
        Kind::Branch(_) | Kind::CtrlMerge(..) | Kind::Tagger(..) => 2,
        Kind::Fork(_, count) => *count,
        Kind::Split(shapes) => shapes.as_slice().len() as u8,
    }
}

/// How many ports a node of this kind has on a side.
pub fn port_count(kind: &Kind, side: Side) -> u8
    requires { KindOk kind.now }
    ensures { result ≡ length (ports kind.now side) }
{
    match side {
        Side::Ins => inputs(kind),
        Side::Outs => outputs(kind),
    }
}
