//! Entries and Exits that come in rows, one for each lane.
ghost use Rattle.std.specs.Prelude.{◌≡◌, ◌++◌, ◌∷◌, [], IfOk, OnOk};
ghost use Rattle.std.specs.Fmt.{decimal};
ghost use Rattle.subst_engine.specs.Making.{bare_node};
ghost use Rattle.subst_engine.specs.Prefix.{prefix_text};
ghost use Rattle.drawn_rules.specs.RowEnds.{end_kind, end_node, end_nodes};

use components::{Kind, Node};
use port_types::{NoMemory, Shape, Text};
use std::alloc::Global;
use subst_engine::bare_node;

/// Where tokens come in, or where they leave.
#[derive(Clone, Copy, Debug)]
pub enum EndKind {
    Entry,
    Exit,
}

impl EndKind {
    /// The kind of such a node, at this shape.
    fn of(self, shape: Shape) -> Kind
        ensures { result ≡ end_kind self shape }
    {
        match self {
            EndKind::Entry => Kind::Entry(shape),
            EndKind::Exit => Kind::Exit(shape),
        }
    }
}

/// An Entry or an Exit whose name is the prefix of this number, a letter and a number. The only error is want of memory.
pub fn end_node(
    alloc: Global,
    ends: u64,
    letter: &str,
    number: usize,
    end: EndKind,
    shape: &Shape,
) -> Result<Node, NoMemory>
    ensures { IfOk result (λ node. node ≡ end_node end ends letter.now number shape.now) }
{
    let name = end_name(alloc, ends, letter, number)?;
    let shape = shape.clone()?;
    Ok(bare_node(alloc, name, end.of(shape)))
}

fn end_name(alloc: Global, ends: u64, letter: &str, number: usize) -> Result<Text, NoMemory>
    ensures { IfOk result (λ name. name ≡ prefix_text ends ++ (letter.now ++ decimal number)) }
{
    Ok(Text::from_string(format!(in alloc; "ooo_{ends}_{letter}{number}")?))
}

/// Appends an Entry or an Exit for each of these shapes, numbered from 1. The only error is want of memory.
pub fn push_ends(
    nodes: &mut Vec<Node>,
    alloc: Global,
    ends: u64,
    letter: &str,
    end: EndKind,
    shapes: &[Shape],
) -> Result<(), NoMemory>
    ensures { OnOk result (nodes.new.items ≡ nodes.old.items ++ end_nodes end ends letter.now 1 shapes.now) }
{
    for index in 0..shapes.len() {
        nodes.push(end_node(alloc, ends, letter, index + 1, end, &shapes[index])?)?;
    }
    Ok(())
}
