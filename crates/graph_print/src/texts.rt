//! Texts, and pairs of texts.

ghost use Rattle.std.specs.Prelude.{◌≡◌, [], ◌∷◌, ◌++◌, IfOk, OnOk};

use port_types::{NoMemory, Text};
use std::alloc::Global;

/// A text of its own with these characters. The only error is want of memory.
pub(crate) fn text_from(alloc: Global, characters: &str) -> Result<Text, NoMemory>
    ensures { IfOk result (λ text. text ≡ characters.now) }
{
    Ok(Text::from_string(String::from_str(alloc, characters)?))
}

/// Appends the pair of a key and a value. After `NoMemory` the pairs are as they were.
pub(crate) fn push_pair(
    alloc: Global,
    pairs: &mut Vec<(Text, Text)>,
    key: &str,
    value: Text,
) -> Result<(), NoMemory>
    ensures { OnOk result (pairs.new.items ≡ pairs.old.items ++ (key.now, value) ∷ []) }
{
    let key = text_from(alloc, key)?;
    pairs.push((key, value))?;
    Ok(())
}
