//! The kept attributes of a node.

ghost use Rattle.std.specs.Prelude.{◌≡◌, ◌++◌, OnOk};
ghost use Rattle.std.specs.FinMap.{entries, from_entries};
ghost use Rattle.components.specs.Name.{name_cmp};
ghost use Rattle.components.specs.Node.{KeptOk};

use components::{Kind, kept_by_key};
use port_types::{NoMemory, Text};
use std::alloc::Global;

/// Appends copies of what a node of this kind keeps, in the byte order of the keys. The only error is want of memory; then a part of them may have been appended.
pub(crate) fn push_kept(
    alloc: Global,
    pairs: &mut Vec<(Text, Text)>,
    kind: &Kind,
    kept: &[(Text, Text)],
) -> Result<(), NoMemory>
    requires { KeptOk kind.now kept.now }
    ensures { OnOk result (pairs.new.items ≡ pairs.old.items ++ entries (from_entries {R = name_cmp} kept.now)) }
{
    let kept = kept_by_key(alloc, kind, kept)?;
    for pair in &kept {
        pairs.push((*pair).clone()?)?;
    }
    Ok(())
}
