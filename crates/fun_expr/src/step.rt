//! Where a byte leads a reader.
ghost use Rattle.std.specs.Prelude.{◌≡◌, ◌==◌, ◌+◌, ◌^◌, ◌<◌, ◌≤◌, ℕ, [], if◌then◌else◌, find, IfSome};
ghost use Rattle.std.specs.Option.{option_map};
ghost use Rattle.op_table.specs.Operator.{op_word};
ghost use Rattle.port_types.specs.PortGrammar.{text_behind};
ghost use Rattle.fun_expr.specs.Machine.{goes_on, first_named, op_named, named, operator, in_name, expression, behind, held_width, only_at, ended, with_digit, is_zero, numeral_on, step, is_whole, begin};

use crate::state::{Number, Spot, State};
use op_table::{Op, op_of_short, short_name};
use port_types::text_behind;

/// All operators, in the order of their table.
const OPS: [Op; 28] = [
    Op::Add,
    Op::Sub,
    Op::Mul,
    Op::Udiv,
    Op::Urem,
    Op::Sdiv,
    Op::Srem,
    Op::And,
    Op::Or,
    Op::Xor,
    Op::Shl,
    Op::Lshr,
    Op::Ashr,
    Op::Eq,
    Op::Ne,
    Op::Ult,
    Op::Ule,
    Op::Ugt,
    Op::Uge,
    Op::Slt,
    Op::Sle,
    Op::Sgt,
    Op::Sge,
    Op::Select,
    Op::Zext,
    Op::Sext,
    Op::Trunc,
    Op::Ret,
];

impl State {
    /// Where nothing is read.
    pub(crate) fn start() -> State
        ensures { result ≡ begin }
    {
        State {
            spot: Spot::Start,
            nesting: 0,
        }
    }
}

/// The digit that a byte writes.
pub(crate) fn digit(byte: u8) -> u64
    requires { 48 ≤ byte }
    ensures { result + 48 ≡ byte }
{
    u64::from(byte - b'0')
}

/// Whether a word goes on with the byte.
fn goes_on(rest: Option<&[u8]>, byte: u8) -> bool
    ensures { result ≡ goes_on byte (option_map (λ rest. rest.now) rest.entry) }
{
    match rest {
        Some([next, ..]) => *next == byte,
        _ => false,
    }
}

/// Whether the name of an operator begins with the front and then the byte.
fn begins_so(op: Op, front: &[u8], byte: u8) -> bool
    ensures { result ≡ goes_on byte (text_behind front.now (op_word op)) }
{
    goes_on(text_behind(front, short_name(op).as_bytes()), byte)
}

/// The first operator whose name begins with the front and then the byte.
#[tactic(auto, unfolding(crate::specs::Machine::first_named))]
fn first_named(front: &[u8], byte: u8) -> Option<Op>
    ensures { result ≡ first_named front.now byte }
{
    OPS.iter().copied().find(|op| begins_so(*op, front, byte))
}

/// The operator of a name.
fn op_named(word: &[u8]) -> Option<Op>
    ensures { result ≡ op_named word.now }
{
    op_of_short(word)
}

/// Where a byte in the name of an operator leads, behind its first letters.
fn in_name(front: &[u8], nesting: usize, byte: u8) -> Option<State>
    ensures { result ≡ in_name front.now nesting byte }
{
    let spot = if byte == b':' {
        Spot::Numeral(Number::OperatorWidth(op_named(front)?))
    } else {
        Spot::Name(first_named(front, byte)?, front.len() + 1)
    };
    Some(State { spot, nesting })
}

/// Where a byte leads that an expression begins with.
fn expression(nesting: usize, byte: u8) -> Option<State>
    ensures { result ≡ expression nesting byte }
{
    let spot = if byte == b'#' {
        Spot::Numeral(Number::Place)
    } else if byte.is_ascii_digit() {
        Spot::Digits(Number::LiteralWidth, Some(digit(byte)))
    } else {
        Spot::Name(first_named(&[], byte)?, 1)
    };
    Some(State { spot, nesting })
}

/// Where a byte behind an expression leads.
fn behind(nesting: usize, byte: u8) -> Option<State>
    ensures { result ≡ behind nesting byte }
{
    match (nesting, byte) {
        (0, b';') => Some(State {
            spot: Spot::Expression,
            nesting,
        }),
        (0, b' ') => Some(State {
            spot: Spot::Spaced,
            nesting,
        }),
        (0, _) => None,
        (_, b',') => Some(State {
            spot: Spot::Expression,
            nesting,
        }),
        (_, b')') => Some(State {
            spot: Spot::Closed,
            nesting: nesting - 1,
        }),
        _ => None,
    }
}

/// The width that a numeral says; one of 256 or more, which no function has, as 255.
pub(crate) fn held_width(value: Option<u64>) -> u8
    ensures { result ≡ held_width value }
{
    match value {
        Some(number) if number < 256 => number as u8,
        _ => u8::MAX,
    }
}

/// The spot behind the one byte that may stand here.
fn only_at(wanted: u8, byte: u8, spot: Spot, nesting: usize) -> Option<State>
    ensures { result ≡ only_at wanted byte spot nesting }
{
    if byte == wanted {
        Some(State { spot, nesting })
    } else {
        None
    }
}

/// Where a byte behind a numeral leads.
fn ended(number: Number, value: Option<u64>, nesting: usize, byte: u8) -> Option<State>
    requires { nesting + 1 < 2 ^ 64 }
    ensures { result ≡ ended number value nesting byte }
{
    match number {
        Number::Place | Number::Literal(_) => behind(nesting, byte),
        Number::LiteralWidth => only_at(
            b'\'',
            byte,
            Spot::Numeral(Number::Literal(held_width(value))),
            nesting,
        ),
        Number::OperatorWidth(_) => only_at(b'(', byte, Spot::Expression, nesting + 1),
        Number::Out => only_at(b' ', byte, Spot::Gap, nesting),
    }
}

/// The number with one more digit; `None` for 2^64 or more.
fn with_digit(value: Option<u64>, byte: u8) -> Option<u64>
    requires { 48 ≤ byte }
    ensures { result ≡ with_digit value byte }
{
    value?.checked_mul(10)?.checked_add(digit(byte))
}

/// Where a further digit of a numeral leads.
fn numeral_on(number: Number, value: Option<u64>, nesting: usize, byte: u8) -> Option<State>
    requires { 48 ≤ byte }
    ensures { result ≡ numeral_on number value nesting byte }
{
    if value == Some(0) {
        return None;
    }
    Some(State {
        spot: Spot::Digits(number, with_digit(value, byte)),
        nesting,
    })
}

/// Where a byte leads; `None` exactly where it cannot follow.
pub(crate) fn step(state: State, byte: u8) -> Option<State>
    requires { state.nesting + 1 < 2 ^ 64 }
    ensures same { result ≡ step state byte }
    ensures nesting { IfSome result (λ next. next.nesting ≤ state.nesting + 1) }
{
    let State { spot, nesting } = state;
    match spot {
        Spot::Start if byte == b'-' => Some(State {
            spot: Spot::Dash,
            nesting,
        }),
        Spot::Start | Spot::Expression => expression(nesting, byte),
        Spot::Name(op, letters) => {
            let word = short_name(op).as_bytes();
            in_name(&word[..letters.min(word.len())], nesting, byte)
        }
        Spot::Numeral(number) if byte.is_ascii_digit() => Some(State {
            spot: Spot::Digits(number, Some(digit(byte))),
            nesting,
        }),
        Spot::Numeral(_) => None,
        Spot::Digits(number, value) if byte.is_ascii_digit() => {
            numeral_on(number, value, nesting, byte)
        }
        Spot::Digits(number, value) => ended(number, value, nesting, byte),
        Spot::Closed => behind(nesting, byte),
        Spot::Spaced => only_at(b'-', byte, Spot::Dash, nesting),
        Spot::Dash => only_at(b'>', byte, Spot::Arrow, nesting),
        Spot::Arrow => only_at(b' ', byte, Spot::Gap, nesting),
        Spot::Gap => only_at(b'#', byte, Spot::Numeral(Number::Out), nesting),
    }
}

/// Whether a text may end here.
pub(crate) fn is_whole(spot: Spot) -> bool
    ensures { result ≡ is_whole spot }
{
    match spot {
        Spot::Arrow => true,
        Spot::Digits(number, _) => number == Number::Out,
        _ => false,
    }
}
