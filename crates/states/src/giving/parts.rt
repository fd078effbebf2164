//! Tokens that are joined or cut.
ghost use Rattle.std.specs.Prelude.{◌≡◌, ◌++◌, map, Some, IfOk, OnOk};
ghost use Rattle.std.specs.List.{concat};
ghost use Rattle.states.specs.Place.{queue_at};
ghost use Rattle.states.specs.Giving.{cut_parts, head_of, heads};

use crate::giving::copies::head;
use crate::queue::Queue;
use port_types::{NoMemory, Shape, Token};
use std::alloc::Global;

/// The heads of all inputs, one behind the other. The only error is want of memory.
pub(crate) fn joined(alloc: Global, queues: &[Queue<Token>]) -> Result<Token, NoMemory>
    ensures { IfOk result (λ token. token ≡ concat (heads queues.now)) }
{
    let mut fields = Vec::new(alloc);
    for queue in queues {
        append_head(&mut fields, queue)?;
    }
    Ok(Token::new(fields))
}

/// Puts the fields of the token at the head of a queue behind others. The only error is want of memory.
fn append_head(fields: &mut Vec<u64>, queue: &Queue<Token>) -> Result<(), NoMemory>
    ensures { OnOk result (fields.new.items ≡ fields.old.items ++ head_of queue.now) }
{
    if let Some(token) = queue.get(0) {
        fields.extend_from_slice(token.fields())?;
    }
    Ok(())
}

/// The head of the first input, cut into a token for each shape. The only error is want of memory.
pub(crate) fn cut(
    alloc: Global,
    shapes: &[Shape],
    queues: &[Queue<Token>],
) -> Result<Vec<Option<Token>>, NoMemory>
    ensures { IfOk result (λ given. given.items ≡ map (λ v. Some v) (cut_parts shapes.now (head_of (queue_at queues.now 0)))) }
{
    let token = head(alloc, queues, 0)?;
    let mut rest = token.fields();
    let mut parts = Vec::new(alloc);
    for shape in shapes {
        let count = shape.widths().len().min(rest.len());
        let (front, back) = rest.split_at(count);
        parts.push(Some(Token::new(front.to_vec(alloc)?)))?;
        rest = back;
    }
    Ok(parts)
}
