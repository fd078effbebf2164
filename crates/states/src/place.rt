//! What stands at one node in a state.
ghost use Rattle.std.specs.Prelude.{◌≡◌, ◌++◌, ◌∷◌, [], ◌<◌, ℕ, map, replicate, length, slice_get, slice_set, drop, is_ok, IfOk, IfErr, OnOk, OnErr, IsTrue};
ghost use Rattle.std.specs.Option.{option_copied};
ghost use Rattle.states.specs.Giving.{changed_slots};
ghost use Rattle.states.specs.Place.{but_last, queue_at};
ghost use Rattle.states.specs.Taking.{IsWithin, taken_queues};
ghost use Rattle.states.specs.Ready.{are_full, has_tag, head_number, is_finished, is_full, waits};

use crate::change::Change;
use crate::queue::Queue;
use crate::slot::{TagSlot, finish_slot};
use crate::taking::Taking;
use port_types::{NoMemory, Token};
use std::alloc::Global;
use std::marker::Model;

/// The tokens of the wires into the inputs of a node, and the slots of a Tagger, oldest first. Inputs are counted from 0 here.
#[derive(Debug, Drop)]
pub(crate) struct Place {
    queues: Vec<Queue<Token>>,
    slots: Vec<TagSlot>,
}

impl Model for Place {
    ghost use Rattle.states.specs.Place.{PlaceValue, place_code};

    ghost Value = { PlaceValue };

    ghost coded = { place_code };

    ghost view = { λ p. record { queues = p.queues.items; slots = p.slots.items } };
}

impl Place {
    /// With these tokens at the inputs, and with no slot. Takes no memory.
    pub(crate) fn with_queues(alloc: Global, queues: Vec<Queue<Token>>) -> Place
        ensures { result ≡ record { queues = queues.items; slots = [] } }
    {
        Place {
            queues,
            slots: Vec::new(alloc),
        }
    }

    /// How many tokens stand at the input.
    pub(crate) fn count(&self, input: usize) -> usize
        ensures { result ≡ length (queue_at self.now.queues input) }
    {
        match self.queues.get(input) {
            Some(queue) => queue.len(),
            None => 0,
        }
    }

    /// The token at this place of the input's wire, counted from 0 at the head.
    pub(crate) fn token(&self, input: usize, index: usize) -> Option<&Token>
        ensures { option_copied result ≡ slice_get (queue_at self.now.queues input) index }
    {
        self.queues.get(input)?.get(index)
    }

    /// Puts a token in behind the others at an input. Want of memory hands it back, and leaves all as it was.
    pub(crate) fn push(&mut self, input: usize, token: Token) -> Result<(), Token>
        requires { input < length self.old.queues }
        ensures ok { OnOk result (self.new ≡ record self.old { queues = slice_set self.old.queues input (queue_at self.old.queues input ++ token ∷ []) }) }
        ensures back { IfErr result (λ back. back ≡ token) }
        ensures err { OnErr result (self.new ≡ self.old) }
    {
        self.queues[input].push(token)
    }

    /// Takes the token at the head of an input. `None` exactly where no token stands there. Takes no memory.
    pub(crate) fn pop(&mut self, input: usize) -> Option<Token>
        requires { input < length self.old.queues }
        ensures result { result ≡ slice_get (queue_at self.old.queues input) 0 }
        ensures rest { self.new ≡ record self.old { queues = slice_set self.old.queues input (drop 1 (queue_at self.old.queues input)) } }
    {
        self.queues[input].pop()
    }

    /// Whether a token stands at the input.
    pub(crate) fn is_full(&self, input: usize) -> bool
        ensures { result ≡ is_full (queue_at self.now.queues input) }
    {
        self.token(input, 0).is_some()
    }

    /// Whether a token stands at each input.
    pub(crate) fn are_full(&self) -> bool
        ensures { result ≡ are_full self.now.queues }
    {
        self.queues.iter().all(|queue| queue.get(0).is_some())
    }

    /// The first number of the token at the head of an input.
    pub(crate) fn head_number(&self, input: usize) -> Option<u64>
        ensures { result ≡ head_number (queue_at self.now.queues input) }
    {
        self.token(input, 0)?.fields().first().copied()
    }

    /// Whether the oldest slot has its result.
    pub(crate) fn is_finished(&self) -> bool
        ensures { result ≡ is_finished self.now.slots }
    {
        match self.slots.first() {
            Some(slot) => slot.result.is_some(),
            None => false,
        }
    }

    /// Whether a slot with this tag has no result yet.
    pub(crate) fn waits(&self, tag: u64) -> bool
        ensures { result ≡ waits tag self.now.slots }
    {
        self.slots
            .iter()
            .any(|slot| slot.tag == tag && slot.result.is_none())
    }

    /// Whether a slot has this tag.
    pub(crate) fn has_tag(&self, tag: u64) -> bool
        ensures { result ≡ has_tag tag self.now.slots }
    {
        self.slots.iter().any(|slot| slot.tag == tag)
    }

    /// The slots, oldest first.
    pub(crate) fn slots(&self) -> &[TagSlot]
        ensures { result.now ≡ self.now.slots }
    {
        self.slots.as_slice()
    }

    /// The tokens at the inputs.
    pub(crate) fn queues(&self) -> &[Queue<Token>]
        ensures { result.now ≡ self.now.queues }
    {
        self.queues.as_slice()
    }

    /// Takes the last token of an input out again. Takes no memory.
    pub(crate) fn take_back(&mut self, input: usize)
        requires { input < length self.old.queues }
        ensures { self.new ≡ record self.old { queues = slice_set self.old.queues input (but_last (queue_at self.old.queues input)) } }
    {
        let _ = self.queues[input].pop_back();
    }

    /// Takes tokens from the heads of the inputs. Takes no memory.
    pub(crate) fn take(&mut self, taking: Taking)
        requires { IsWithin taking (length self.old.queues) }
        ensures { self.new ≡ record self.old { queues = taken_queues taking self.old.queues } }
    {
        match taking {
            Taking::Nothing => {}
            Taking::Each => self.take_each(),
            Taking::One(input) => {
                let _ = self.pop(input);
            }
            Taking::Both(first, second) => {
                let _ = self.pop(first);
                let _ = self.pop(second);
            }
        }
    }

    /// How many inputs there are.
    fn inputs(&self) -> usize
        ensures { result ≡ length self.now.queues }
    {
        self.queues.len()
    }

    /// Takes the token at the head of each input. Takes no memory.
    fn take_each(&mut self)
        ensures { self.new ≡ record self.old { queues = map (drop 1) self.old.queues } }
    {
        for input in 0..self.inputs() {
            let _ = self.pop(input);
        }
    }

    /// Changes the slots. The only error is want of memory, and leaves all as it was.
    pub(crate) fn change(&mut self, change: Change) -> Result<(), NoMemory>
        ensures ok { OnOk result (self.new ≡ record self.old { slots = changed_slots change self.old.slots }) }
        ensures err { OnErr result (self.new ≡ self.old) }
    {
        match change {
            Change::Keep => {}
            Change::DropOldest => self.drop_oldest(),
            Change::Finish(tag, token) => finish_slot(&mut self.slots, tag, token),
            Change::Add(tag) => self.slots.push(TagSlot { tag, result: None })?,
        }
        Ok(())
    }

    /// Drops the oldest slot, if there is one.
    fn drop_oldest(&mut self)
        ensures { self.new ≡ record self.old { slots = drop 1 self.old.slots } }
    {
        if !self.slots.is_empty() {
            let _ = self.slots.remove(0);
        }
    }
}
