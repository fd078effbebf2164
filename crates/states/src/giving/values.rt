//! Tokens that are computed.
ghost use Rattle.std.specs.Prelude.{◌≡◌, ◌∷◌, [], ◌^◌, ◌%◌, ◌≤◌, length, map, IfOk};
ghost use Rattle.std.specs.List.{zip};
ghost use Rattle.op_table.specs.Operator.{IsTypedOp};
ghost use Rattle.op_table.specs.Value.{op_value};
ghost use Rattle.components.specs.Kind.{field};
ghost use Rattle.circuits.specs.PortTokens.{single};
ghost use Rattle.states.specs.Place.{queue_at};
ghost use Rattle.states.specs.Giving.{applied, head_numbers, number_of};
ghost use Rattle.states.specs.Ready.{FitQueues};

use crate::queue::Queue;
use fun_expr::{Fun, eval};
use op_table::{Op, apply};
use port_types::{NoMemory, Shape, Token};
use std::alloc::Global;

/// The operator's value of the numbers at the heads of its inputs. The only error is want of memory.
pub(crate) fn operated(
    alloc: Global,
    op: Op,
    widths: &[u8],
    width: u8,
    queues: &[Queue<Token>],
) -> Result<Token, NoMemory>
    requires typed { IsTypedOp op widths.now width }
    requires fit { FitQueues (map field widths.now) queues.now }
    ensures { IfOk result (λ token. token ≡ single (op_value op (zip widths.now (head_numbers queues.now)) width)) }
{
    let args = args(alloc, widths, queues)?;
    Ok(Token::new(vec![in alloc; apply(op, &args, width)]?))
}

/// The numbers at the heads of the inputs, each with its width. The only error is want of memory.
fn args(alloc: Global, widths: &[u8], queues: &[Queue<Token>]) -> Result<Vec<(u8, u64)>, NoMemory>
    requires { length queues.now ≡ length widths.now }
    ensures { IfOk result (λ args. args.items ≡ zip widths.now (head_numbers queues.now)) }
{
    let mut args = Vec::new(alloc);
    for index in 0..widths.len() {
        args.push((widths[index], number_of(&queues[index])))?;
    }
    Ok(args)
}

/// The first number of the token at the head of a queue; 0 where there is none.
fn number_of(queue: &Queue<Token>) -> u64
    ensures { result ≡ number_of queue.now }
{
    match queue.get(0) {
        Some(token) => match token.fields() {
            [number, ..] => *number,
            [] => 0,
        },
        None => 0,
    }
}

/// The value of a Constant, within its width. The only error is want of memory.
pub(crate) fn constant(alloc: Global, width: u8, value: u64) -> Result<Token, NoMemory>
    requires { width ≤ 64 }
    ensures { IfOk result (λ token. token ≡ single (value % 2 ^ width)) }
{
    let number = if width == 64 {
        value
    } else {
        value % (1 << width)
    };
    Ok(Token::new(vec![in alloc; number]?))
}

/// A 0 for each field. The only error is want of memory.
pub(crate) fn zeros(alloc: Global, shape: &Shape) -> Result<Token, NoMemory>
    ensures { IfOk result (λ token. token ≡ map (λ width. 0) shape.now) }
{
    Ok(Token::new(shape.widths().iter().map(|_width| 0).collect(alloc)?))
}

/// The function's value of the token at the head of the first input. The only error is want of memory.
pub(crate) fn applied(alloc: Global, fun: &Fun, queues: &[Queue<Token>]) -> Result<Token, NoMemory>
    requires { FitQueues (fun.now.input ∷ []) queues.now }
    ensures { IfOk result (λ token. token ≡ applied fun.now (queue_at queues.now 0)) }
{
    let token = match queues.first() {
        Some(queue) => queue.get(0),
        None => None,
    };
    match token {
        Some(token) => eval(alloc, fun, token),
        None => Ok(Token::new(Vec::new(alloc))),
    }
}
