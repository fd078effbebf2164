//! Whether names and keys differ.
ghost use Rattle.std.specs.Prelude.{◌≡◌, ◌≢◌, ◌↔◌, IsTrue, IfOk, AllPairs, map};
ghost use Rattle.loop_body.specs.Judging.{AllDiffer};

use components::Node;
use port_types::{NoMemory, Text};
use std::alloc::Global;
use std::collections::HashSet;

/// Whether no two of the texts are equal.
fn all_differ(alloc: Global, texts: &[&[u8]]) -> Result<bool, NoMemory>
    ensures { IfOk result (λ differ. IsTrue differ ↔ AllDiffer (map (λ text. text.now) texts.now)) }
{
    let mut seen = HashSet::new(alloc);
    for text in texts {
        if !seen.insert(*text)? {
            return Ok(false);
        }
    }
    Ok(true)
}

/// The names of the nodes.
fn names<'a>(alloc: Global, nodes: &'a [Node]) -> Result<Vec<&'a [u8]>, NoMemory>
    ensures { IfOk result (λ names. map (λ name. name.now) names.items ≡ map (λ node. node.name) nodes.now) }
{
    let mut names = Vec::new(alloc);
    for node in nodes {
        names.push(node.name.bytes())?;
    }
    Ok(names)
}

/// The keys of the pairs.
fn keys<'a>(alloc: Global, pairs: &'a [(Text, Text)]) -> Result<Vec<&'a [u8]>, NoMemory>
    ensures { IfOk result (λ keys. map (λ key. key.now) keys.items ≡ map (λ pair. pair.0) pairs.now) }
{
    let mut keys = Vec::new(alloc);
    for pair in pairs {
        keys.push(pair.0.bytes())?;
    }
    Ok(keys)
}

/// Whether no two of the nodes have one name.
pub(crate) fn have_different_names(alloc: Global, nodes: &[Node]) -> Result<bool, NoMemory>
    ensures { IfOk result (λ differ. IsTrue differ ↔ AllPairs (λ a c. a.name ≢ c.name) nodes.now) }
{
    all_differ(alloc, &names(alloc, nodes)?)
}

/// Whether no two of the pairs have one key.
pub(crate) fn have_different_keys(alloc: Global, pairs: &[(Text, Text)]) -> Result<bool, NoMemory>
    ensures { IfOk result (λ differ. IsTrue differ ↔ AllPairs (λ a b. a.0 ≢ b.0) pairs.now) }
{
    all_differ(alloc, &keys(alloc, pairs)?)
}
