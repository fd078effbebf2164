ghost use Rattle.std.specs.Prelude.{◌≡◌};
ghost use Rattle.states.specs.Giving.{finish_slot};

use port_types::Token;
use std::marker::Model;

/// A slot of a Tagger: a tag that is in use, with its result or with none yet.
#[derive(Debug, Drop)]
pub(crate) struct TagSlot {
    pub tag: u64,
    pub result: Option<Token>,
}

impl Model for TagSlot {
    ghost use Rattle.circuits.specs.CircuitState.{Slot};
    ghost use Rattle.states.specs.Place.{slot_code};

    ghost Value = { Slot };

    ghost coded = { slot_code };

    ghost view = { λ s. record { tag = s.tag; result = s.result } };
}

/// Puts the result into the first slot of this tag, if there is one.
pub(crate) fn finish_slot(slots: &mut [TagSlot], tag: u64, token: Token)
    ensures { slots.new ≡ finish_slot tag token slots.old }
{
    for index in 0..slots.len() {
        let slot = &mut slots[index];
        if slot.tag == tag {
            slot.result = Some(token);
            return;
        }
    }
}
