//! The attributes that a node keeps.
ghost use Rattle.std.specs.Prelude.{◌≡◌, IfOk};
ghost use Rattle.std.specs.FinMap.{from_entries};
ghost use Rattle.components.specs.Node.{KeptOk, kept_of};

use components::{Kind, kept_by_key};
use port_types::{Items, NoMemory, Text};
use std::alloc::Global;

/// The pairs that a node of this kind keeps, as texts of their own: of each key that the kind does not own, the last. The only error is want of memory.
pub(crate) fn kept_of(
    alloc: Global,
    kind: &Kind,
    pairs: &[(Text, Text)],
) -> Result<Items<(Text, Text)>, NoMemory>
    ensures kept { IfOk result (λ kept. from_entries kept ≡ kept_of kind.now pairs.now) }
    ensures ok { IfOk result (KeptOk kind.now) }
{
    let mut kept = Vec::new(alloc);
    for pair in &kept_by_key(alloc, kind, pairs)? {
        kept.push((*pair).clone()?)?;
    }
    Ok(Items::new(kept))
}
