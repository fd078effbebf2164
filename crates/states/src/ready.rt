//! Whether a node can fire with a choice, and what it then takes.
ghost use Rattle.std.specs.Prelude.{◌≡◌, MatchOption};
ghost use Rattle.states.specs.Ready.{CanFire, IsPlaceOf, IsReady, each_taking, gives_tag, head_number, is_finished, merge_taking, mux_taking, only_if, tagger_taking, taking_of, waits_for};
ghost use Rattle.states.specs.Place.{queue_at};

use crate::place::Place;
use crate::taking::Taking;
use components::Kind;

/// What a node of this kind takes when it fires with the choice. `None` exactly where it cannot. Takes no memory.
pub(crate) fn ready(kind: &Kind, place: &Place, choice: u32) -> Option<Taking>
    requires { IsPlaceOf kind.now place.now }
    ensures { MatchOption result (¬ (CanFire kind.now choice place.now)) (λ taking. IsReady kind.now choice place.now taking) }
{
    taking(kind, place, choice)
}

/// The same, by the families of kinds.
fn taking(kind: &Kind, place: &Place, choice: u32) -> Option<Taking>
    ensures { result ≡ taking_of kind.now choice place.now }
{
    match kind {
        Kind::Entry(_) | Kind::Exit(_) => None,
        Kind::Buffer(_)
        | Kind::Fork(..)
        | Kind::Join(_)
        | Kind::Split(_)
        | Kind::Operator(..)
        | Kind::Constant(..)
        | Kind::Source0(_)
        | Kind::Sink0(_)
        | Kind::Pure(..)
        | Kind::Branch(_)
        | Kind::Init(..) => each(place, choice),
        Kind::Mux(_) => mux(place, choice),
        Kind::Merge(_, count) | Kind::CtrlMerge(_, count, _) => merge(place, *count, choice),
        Kind::Tagger(_, tags) => tagger(place, *tags, choice),
    }
}

/// A node that takes one token from each input.
fn each(place: &Place, choice: u32) -> Option<Taking>
    ensures { result ≡ each_taking choice place.now.queues }
{
    if choice == 0 && place.are_full() {
        Some(Taking::Each)
    } else {
        None
    }
}

/// A Mux: 0 at its first input selects the second, and else the third is selected.
fn mux(place: &Place, choice: u32) -> Option<Taking>
    ensures { result ≡ mux_taking choice place.now.queues }
{
    if choice != 0 {
        return None;
    }
    let input = match place.head_number(0)? {
        0 => 1,
        _ => 2,
    };
    if place.is_full(input) {
        Some(Taking::Both(0, input))
    } else {
        None
    }
}

/// A Merge of so many inputs: the choice is one of them.
fn merge(place: &Place, count: u8, choice: u32) -> Option<Taking>
    ensures { result ≡ merge_taking count choice place.now.queues }
{
    let input = choice as usize;
    if input < count as usize && place.is_full(input) {
        Some(Taking::One(input))
    } else {
        None
    }
}

/// A Tagger: it gives the result of the oldest slot, takes a result, or gives a tag.
fn tagger(place: &Place, tags: u16, choice: u32) -> Option<Taking>
    ensures { result ≡ tagger_taking tags choice place.now }
{
    match choice {
        0 => gives_result(place),
        1 => takes_result(place),
        _ => gives_tag(place, tags, u64::from(choice) - 2),
    }
}

/// The oldest slot goes, where it has its result.
fn gives_result(place: &Place) -> Option<Taking>
    ensures { result ≡ only_if (is_finished place.now.slots) Taking.Nothing }
{
    if place.is_finished() {
        Some(Taking::Nothing)
    } else {
        None
    }
}

/// A result comes to the slot of its tag, which waits for it.
fn takes_result(place: &Place) -> Option<Taking>
    ensures { result ≡ waits_for place.now.slots (head_number (queue_at place.now.queues 1)) }
{
    let tag = place.head_number(1)?;
    if place.waits(tag) {
        Some(Taking::One(1))
    } else {
        None
    }
}

/// A tag that is not in use is given to a token.
fn gives_tag(place: &Place, tags: u16, tag: u64) -> Option<Taking>
    ensures { result ≡ gives_tag tags tag place.now }
{
    if tag < u64::from(tags) && !place.has_tag(tag) && place.is_full(0) {
        Some(Taking::One(0))
    } else {
        None
    }
}
