//! The expressions and outs of a text.
ghost use Rattle.std.specs.Prelude.{◌≡◌, ◌^◌, ◌-◌, [], ◌∷◌, ◌++◌, OnOk, IfOk};
ghost use Rattle.fun_expr.specs.Machine.{begin};
ghost use Rattle.fun_expr.specs.Building.{parts_of, no_parts, held_place, literal, add, closed, closing, opened, number_built, byte_built, end_built, built};

use crate::expr::Expr;
use crate::state::{Number, Spot, State};
use crate::step::{held_width, step};
use op_table::Op;
use port_types::NoMemory;
use sqlite_items::Items;
use std::alloc::Global;

/// An operator with the width of its output, whose arguments are being read.
#[derive(Debug, Drop)]
pub(crate) struct Frame {
    pub(crate) op: Op,
    pub(crate) width: u8,
    pub(crate) args: Items<Expr>,
}

/// What is built of a text: the operators that are open, the innermost last, the binds, and the outs.
#[derive(Debug, Drop)]
pub(crate) struct Builder {
    pub(crate) frames: Vec<Frame>,
    pub(crate) binds: Vec<Expr>,
    pub(crate) outs: Vec<usize>,
}

/// The place that a numeral says; one of 2^64 or more, which no environment has, as the greatest.
fn held_place(value: Option<u64>) -> usize
    ensures { result ≡ held_place value }
{
    value.unwrap_or(u64::MAX) as usize
}

/// The literal of a width and a number; one of a number of 2^64 or more, which has no type, as another one without a type.
fn literal(width: u8, value: Option<u64>) -> Expr
    ensures { result ≡ literal width value }
{
    match value {
        Some(number) => Expr::Lit(width, number),
        None => Expr::Lit(u8::MAX, 0),
    }
}

impl Builder {
    fn new(alloc: Global) -> Builder
        ensures { parts_of result ≡ no_parts }
    {
        Builder {
            frames: Vec::new(alloc),
            binds: Vec::new(alloc),
            outs: Vec::new(alloc),
        }
    }

    /// Adds an expression, as an argument of the innermost operator or else as a bind.
    fn add(&mut self, e: Expr) -> Result<(), NoMemory>
        ensures { OnOk result (parts_of self.new ≡ add e (parts_of self.old)) }
    {
        match self.frames.pop() {
            Some(mut frame) => {
                frame.args.push(e)?;
                self.frames.push(frame)?;
            }
            None => self.binds.push(e)?,
        }
        Ok(())
    }

    /// Adds the innermost operator, which has all its arguments.
    fn close(&mut self) -> Result<(), NoMemory>
        ensures { OnOk result (parts_of self.new ≡ closed (parts_of self.old).frames (parts_of self.old).binds (parts_of self.old).outs) }
    {
        match self.frames.pop() {
            Some(Frame { op, width, args }) => self.add(Expr::Apply(op, width, args)),
            None => Ok(()),
        }
    }

    /// Takes a byte behind an expression.
    fn closing(&mut self, byte: u8) -> Result<(), NoMemory>
        ensures { OnOk result (parts_of self.new ≡ closing byte (parts_of self.old)) }
    {
        if byte == b')' { self.close() } else { Ok(()) }
    }

    /// Takes a byte behind an expression, which is added first.
    fn add_closing(&mut self, e: Expr, byte: u8) -> Result<(), NoMemory>
        ensures { OnOk result (parts_of self.new ≡ closing byte (add e (parts_of self.old))) }
    {
        self.add(e)?;
        self.closing(byte)
    }

    /// Opens an operator.
    fn open(&mut self, alloc: Global, op: Op, width: u8) -> Result<(), NoMemory>
        ensures { OnOk result (parts_of self.new ≡ opened op width (parts_of self.old)) }
    {
        self.frames.push(Frame {
            op,
            width,
            args: Items::new(alloc),
        })?;
        Ok(())
    }

    /// Takes a byte behind a numeral.
    fn take_number(
        &mut self,
        alloc: Global,
        number: Number,
        value: Option<u64>,
        byte: u8,
    ) -> Result<(), NoMemory>
        ensures { OnOk result (parts_of self.new ≡ number_built number value byte (parts_of self.old)) }
    {
        match number {
            Number::Place => self.add_closing(Expr::Field(held_place(value)), byte),
            Number::LiteralWidth => Ok(()),
            Number::Literal(width) => self.add_closing(literal(width, value), byte),
            Number::OperatorWidth(op) => self.open(alloc, op, held_width(value)),
            Number::Out => {
                self.outs.push(held_place(value))?;
                Ok(())
            }
        }
    }

    /// Takes the byte behind a spot.
    fn take(&mut self, alloc: Global, spot: Spot, byte: u8) -> Result<(), NoMemory>
        ensures { OnOk result (parts_of self.new ≡ byte_built spot byte (parts_of self.old)) }
    {
        match spot {
            Spot::Digits(number, value) if !byte.is_ascii_digit() => {
                self.take_number(alloc, number, value, byte)
            }
            Spot::Closed => self.closing(byte),
            _ => Ok(()),
        }
    }

    /// Takes the end of the text.
    fn finish(&mut self, alloc: Global, spot: Spot) -> Result<(), NoMemory>
        ensures { OnOk result (parts_of self.new ≡ end_built spot (parts_of self.old)) }
    {
        match spot {
            Spot::Digits(number, value) => self.take_number(alloc, number, value, 0),
            _ => Ok(()),
        }
    }
}

/// What a text says; of a text that is none of the grammar, what stands before its fault.
pub(crate) fn build(alloc: Global, text: &[u8]) -> Result<Builder, NoMemory>
    ensures { IfOk result (λ builder. parts_of builder ≡ built begin no_parts text.now) }
{
    let mut builder = Builder::new(alloc);
    let mut state = State::start();
    for byte in text {
        let Some(next) = step(state, *byte) else {
            return Ok(builder);
        };
        builder.take(alloc, state.spot, *byte)?;
        state = next;
    }
    builder.finish(alloc, state.spot)?;
    Ok(builder)
}
