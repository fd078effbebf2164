//! Tokens that are passed on as they are.
ghost use Rattle.std.specs.Prelude.{◌≡◌, ◌∷◌, [], Some, None, replicate, IfOk};
ghost use Rattle.circuits.specs.PortTokens.{single};
ghost use Rattle.states.specs.Place.{queue_at};
ghost use Rattle.states.specs.Giving.{branch_given, head_of};

use crate::queue::Queue;
use port_types::{NoMemory, Token};
use std::alloc::Global;

/// The token at the head of an input; the token without fields where there is none. The only error is want of memory.
pub(crate) fn head(alloc: Global, queues: &[Queue<Token>], input: usize) -> Result<Token, NoMemory>
    ensures { IfOk result (λ token. token ≡ head_of (queue_at queues.now input)) }
{
    match queues.get(input) {
        Some(queue) => first(alloc, queue),
        None => Ok(Token::new(Vec::new(alloc))),
    }
}

/// The token at the head of a queue; the token without fields where there is none. The only error is want of memory.
pub(crate) fn first(alloc: Global, queue: &Queue<Token>) -> Result<Token, NoMemory>
    ensures { IfOk result (λ token. token ≡ head_of queue.now) }
{
    match queue.get(0) {
        Some(token) => Ok(Token::new(token.fields().to_vec(alloc)?)),
        None => Ok(Token::new(Vec::new(alloc))),
    }
}

/// The head of the first input so many times. The only error is want of memory.
pub(crate) fn copies(
    alloc: Global,
    queues: &[Queue<Token>],
    count: u8,
) -> Result<Vec<Option<Token>>, NoMemory>
    ensures { IfOk result (λ given. given.items ≡ replicate count (Some (head_of (queue_at queues.now 0)))) }
{
    let mut given = Vec::new(alloc);
    for _output in 0..count {
        given.push(Some(head(alloc, queues, 0)?))?;
    }
    Ok(given)
}

/// The head of the first input of a Branch, at the first output, or at the second where 0 is at the head of the second input. The only error
/// is want of memory.
pub(crate) fn branch(alloc: Global, queues: &[Queue<Token>]) -> Result<Vec<Option<Token>>, NoMemory>
    ensures { IfOk result (λ given. given.items ≡ branch_given queues.now) }
{
    let token = head(alloc, queues, 0)?;
    match head(alloc, queues, 1)?.fields() {
        [0, ..] => Ok(vec![in alloc; None, Some(token)]?),
        _ => Ok(vec![in alloc; Some(token)]?),
    }
}

/// The head of the input that is chosen, and the choice. The only error is want of memory.
pub(crate) fn told(
    alloc: Global,
    queues: &[Queue<Token>],
    choice: u32,
) -> Result<Vec<Option<Token>>, NoMemory>
    ensures { IfOk result (λ given. given.items ≡ Some (head_of (queue_at queues.now choice)) ∷ Some (single choice) ∷ []) }
{
    let token = head(alloc, queues, choice as usize)?;
    let number = Token::new(vec![in alloc; u64::from(choice)]?);
    Ok(vec![in alloc; Some(token), Some(number)]?)
}
