//! The attributes that a node keeps, among the pairs of a statement.
ghost use Rattle.std.specs.Prelude.{◌≡◌, map, IfOk};
ghost use Rattle.std.specs.FinMap.{entries, from_entries};
ghost use Rattle.components.specs.Name.{name_cmp};
ghost use Rattle.components.specs.Node.{KeptOk, kept_of};

use crate::kind::Kind;
use crate::owned::owns;
use port_types::{NoMemory, Text};
use std::alloc::Global;
use std::collections::BTreeMap;

/// The pairs that a node of this kind keeps, in the byte order of their keys: of each key that the kind does not own, the last. The only error is want of memory.
pub fn kept_by_key<'a>(
    alloc: Global,
    kind: &Kind,
    pairs: &'a [(Text, Text)],
) -> Result<Vec<&'a (Text, Text)>, NoMemory>
    ensures order { IfOk result (λ kept. map (λ pair. pair.now) kept.items ≡ entries (kept_of kind.now pairs.now)) }

    // A node of this kind may keep them, and keeps by them what it is to keep.
    ensures right { IfOk result (λ kept. KeptOk kind.now (map (λ pair. pair.now) kept.items)) }
    ensures whole { IfOk result (λ kept. from_entries {R = name_cmp} (map (λ pair. pair.now) kept.items) ≡ kept_of kind.now pairs.now) }

    // Of pairs that such a node may keep, whatever their order, these are all.
    ensures all { KeptOk kind.now pairs.now → IfOk result (λ kept. map (λ pair. pair.now) kept.items ≡ entries (from_entries {R = name_cmp} pairs.now)) }
{
    let mut kept = BTreeMap::new(alloc);
    for pair in pairs {
        let key = pair.0.bytes();
        if !owns(kind, key) {
            kept.insert(key, pair)?;
        }
    }
    Ok(kept.into_values().collect(alloc)?)
}
