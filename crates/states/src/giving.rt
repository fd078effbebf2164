//! What a node gives when it fires, and what becomes of its slots.
ghost use Rattle.std.specs.Prelude.{◌≡◌, ◌∷◌, [], IfOk};
ghost use Rattle.states.specs.Place.{queue_at};
ghost use Rattle.states.specs.Giving.{change_of, given_of, lone, mux_input, tagger_given};
ghost use Rattle.states.specs.Ready.{IsPlaceOf};

mod copies;
mod parts;
mod tags;
mod values;

use crate::change::Change;
use crate::place::Place;
use components::Kind;
use copies::{branch, copies, head, told};
use parts::{cut, joined};
use port_types::{NoMemory, Token};
use std::alloc::Global;
use tags::{finish, oldest_result, tagged};
use values::{applied, constant, operated, zeros};

/// What a node of this kind gives when it fires with the choice: a token or none for each output, in order; the outputs behind them get none.
/// The only error is want of memory.
pub(crate) fn given(
    alloc: Global,
    kind: &Kind,
    place: &Place,
    choice: u32,
) -> Result<Vec<Option<Token>>, NoMemory>
    requires { IsPlaceOf kind.now place.now }
    ensures { IfOk result (λ given. given.items ≡ given_of kind.now choice place.now) }
{
    let queues = place.queues();
    match kind {
        Kind::Entry(_) | Kind::Exit(_) | Kind::Sink0(_) => Ok(Vec::new(alloc)),
        Kind::Buffer(_) | Kind::Init(..) => lone(alloc, head(alloc, queues, 0)?),
        Kind::Fork(_, count) => copies(alloc, queues, *count),
        Kind::Join(_) => lone(alloc, joined(alloc, queues)?),
        Kind::Split(shapes) => cut(alloc, shapes.as_slice(), queues),
        Kind::Operator(op, widths, width) => {
            lone(
                alloc,
                operated(alloc, *op, widths.as_slice(), *width, queues)?,
            )
        }
        Kind::Constant(_, width, value) => lone(alloc, constant(alloc, *width, *value)?),
        Kind::Source0(shape) => lone(alloc, zeros(alloc, shape)?),
        Kind::Pure(fun, _) => lone(alloc, applied(alloc, fun, queues)?),
        Kind::Mux(_) => lone(alloc, head(alloc, queues, selected(place))?),
        Kind::Branch(_) => branch(alloc, queues),
        Kind::Merge(..) => lone(alloc, head(alloc, queues, choice as usize)?),
        Kind::CtrlMerge(..) => told(alloc, queues, choice),
        Kind::Tagger(..) => tagger(alloc, place, choice),
    }
}

/// What a firing of a node of this kind with the choice does to its slots. The only error is want of memory.
pub(crate) fn change(
    alloc: Global,
    kind: &Kind,
    place: &Place,
    choice: u32,
) -> Result<Change, NoMemory>
    ensures { IfOk result (λ change. change ≡ change_of kind.now choice place.now) }
{
    match kind {
        Kind::Tagger(..) => match choice {
            0 => Ok(Change::DropOldest),
            1 => finish(alloc, place.queues()),
            _ => Ok(Change::Add(u64::from(choice) - 2)),
        },
        _ => Ok(Change::Keep),
    }
}

/// One token, at the first output.
fn lone(alloc: Global, token: Token) -> Result<Vec<Option<Token>>, NoMemory>
    ensures { IfOk result (λ given. given.items ≡ lone token) }
{
    Ok(vec![in alloc; Some(token)]?)
}

/// The input that the head of a Mux's first input selects.
fn selected(place: &Place) -> usize
    ensures { result ≡ mux_input place.now.queues }
{
    match place.head_number(0) {
        Some(0) => 1,
        _ => 2,
    }
}

/// What a Tagger gives.
fn tagger(alloc: Global, place: &Place, choice: u32) -> Result<Vec<Option<Token>>, NoMemory>
    ensures { IfOk result (λ given. given.items ≡ tagger_given choice place.now) }
{
    match choice {
        0 => oldest_result(alloc, place.slots()),
        1 => Ok(Vec::new(alloc)),
        _ => lone(alloc, tagged(alloc, u64::from(choice) - 2, place.queues())?),
    }
}
