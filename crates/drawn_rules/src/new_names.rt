//! Names of new nodes.
ghost use Rattle.std.specs.Prelude.{◌≡◌, ◌++◌, IfOk};
ghost use Rattle.subst_engine.specs.Prefix.{prefix_text};

use port_types::{NoMemory, Text};
use std::alloc::Global;

/// The prefix of this number, and a word. The only error is want of memory.
pub fn new_name(alloc: Global, prefix: u64, word: &str) -> Result<Text, NoMemory>
    ensures { IfOk result (λ name. name ≡ prefix_text prefix ++ word.now) }
{
    Ok(Text::from_string(format!(in alloc; "ooo_{prefix}_{word}")?))
}
