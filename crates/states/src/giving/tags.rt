//! What a Tagger gives, and the result that comes to a slot.
ghost use Rattle.std.specs.Prelude.{◌≡◌, ◌∷◌, IfOk};
ghost use Rattle.states.specs.Place.{queue_at};
ghost use Rattle.states.specs.Giving.{finish_of, head_of, oldest_given};

use crate::change::Change;
use crate::queue::Queue;
use crate::slot::TagSlot;
use port_types::{NoMemory, Token};
use std::alloc::Global;

/// The result of the oldest slot, at the second output. The only error is want of memory.
pub(crate) fn oldest_result(
    alloc: Global,
    slots: &[TagSlot],
) -> Result<Vec<Option<Token>>, NoMemory>
    ensures { IfOk result (λ given. given.items ≡ oldest_given slots.now) }
{
    let result = match slots.first() {
        Some(slot) => slot.result.as_ref(),
        None => None,
    };
    match result {
        Some(token) => {
            let token = Token::new(token.fields().to_vec(alloc)?);
            Ok(vec![in alloc; None, Some(token)]?)
        }
        None => Ok(Vec::new(alloc)),
    }
}

/// The head of the first input behind a tag. The only error is want of memory.
pub(crate) fn tagged(alloc: Global, tag: u64, queues: &[Queue<Token>]) -> Result<Token, NoMemory>
    ensures { IfOk result (λ token. token ≡ tag ∷ head_of (queue_at queues.now 0)) }
{
    let mut fields = vec![in alloc; tag]?;
    if let Some(queue) = queues.first() {
        if let Some(token) = queue.get(0) {
            fields.extend_from_slice(token.fields())?;
        }
    }
    Ok(Token::new(fields))
}

/// The head of the second input without its tag comes to the slot of this tag. The only error is want of memory.
pub(crate) fn finish(alloc: Global, queues: &[Queue<Token>]) -> Result<Change, NoMemory>
    ensures { IfOk result (λ change. change ≡ finish_of (queue_at queues.now 1)) }
{
    let token = match queues.get(1) {
        Some(queue) => queue.get(0),
        None => None,
    };
    match token {
        Some(token) => match token.fields() {
            [tag, rest @ ..] => Ok(Change::Finish(*tag, Token::new(rest.to_vec(alloc)?))),
            [] => Ok(Change::Keep),
        },
        None => Ok(Change::Keep),
    }
}
