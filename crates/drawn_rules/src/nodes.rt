//! Nodes of the sides of rules, one behind the other.
ghost use Rattle.std.specs.Prelude.{◌≡◌, ◌++◌, ◌∷◌, [], OnOk};
ghost use Rattle.subst_engine.specs.Making.{bare_node};
ghost use Rattle.subst_engine.specs.Prefix.{prefix_text};
ghost use Rattle.drawn_rules.specs.RowEnds.{end_node};

use crate::new_names::new_name;
use crate::row_ends::{EndKind, end_node};
use components::{Kind, Node};
use port_types::{NoMemory, Shape, Text};
use std::alloc::Global;
use subst_engine::bare_node;

/// Appends a node of this name and kind. The only error is want of memory.
pub fn push_listed(
    nodes: &mut Vec<Node>,
    alloc: Global,
    name: &Text,
    kind: Kind,
) -> Result<(), NoMemory>
    ensures { OnOk result (nodes.new.items ≡ nodes.old.items ++ bare_node name.now kind ∷ []) }
{
    let name = name.clone()?;
    nodes.push(bare_node(alloc, name, kind))?;
    Ok(())
}

/// Appends a node of this kind whose name is the prefix of this number and a word. The only error is want of memory.
pub fn push_new(
    nodes: &mut Vec<Node>,
    alloc: Global,
    prefix: u64,
    word: &str,
    kind: Kind,
) -> Result<(), NoMemory>
    ensures { OnOk result (nodes.new.items ≡ nodes.old.items ++ bare_node (prefix_text prefix ++ word.now) kind ∷ []) }
{
    let name = new_name(alloc, prefix, word)?;
    nodes.push(bare_node(alloc, name, kind))?;
    Ok(())
}

/// Appends an Entry or an Exit whose name is the prefix of this number, a letter and a 0. The only error is want of memory.
pub fn push_end(
    nodes: &mut Vec<Node>,
    alloc: Global,
    ends: u64,
    letter: &str,
    end: EndKind,
    shape: &Shape,
) -> Result<(), NoMemory>
    ensures { OnOk result (nodes.new.items ≡ nodes.old.items ++ end_node end ends letter.now 0 shape.now ∷ []) }
{
    nodes.push(end_node(alloc, ends, letter, 0, end, shape)?)?;
    Ok(())
}
