//! The two graphs of the rule `split_join`.
ghost use Rattle.std.specs.Prelude.{◌≡◌, ◌≤◌, ◌||◌, IfOk, bytes_eq, length};
ghost use Rattle.std.specs.List.{concat};
ghost use Rattle.port_types.specs.Shape.{IsShape};
ghost use Rattle.components.specs.declared.kind.Kind.TheVariants.{Entry, Exit, Join, Split};
ghost use Rattle.circuits.specs.BufferRule.{straight};
ghost use Rattle.lane_laws.specs.SplitJoin.{entry, exit, split_joined_graph};
ghost use Rattle.subst_engine.specs.Making.{bare_node};
ghost use Rattle.pure_extract.specs.SplitJoin.{other_text, side_name};
ghost use Rattle.pure_extract.specs.SplitJoinSides.{CanSplitSides, split_ends, split_nodes, straight_nodes};

use components::{Kind, Node};
use drawn_rules::{Row, joined_shape, push_wires};
use graph_core::{End, Graph};
use lane_laws::split_join_refines;
use port_types::{Items, NoMemory, Shape, Text};
use std::alloc::Global;
use subst_engine::{bare_node, rule_graph};

/// A Split and a Join: their names, and the shapes of the outputs of the one.
#[derive(Clone, Copy)]
pub(crate) struct SplitAndJoin<'a> {
    pub(crate) split: &'a Text,
    pub(crate) join: &'a Text,
    pub(crate) parts: &'a Items<Shape>,
}

/// The Split and the Join. The only error is want of memory.
pub(crate) fn left_graph(alloc: Global, found: SplitAndJoin<'_>) -> Result<Graph, NoMemory>
    requires { CanSplitSides found.split.now found.join.now found.parts.now }
    ensures { IfOk result (λ left. left.graph ≡ split_joined_graph found.entry.parts.now (side_name found.entry.split.now found.entry.join.now)) }
{
    split_join_refines();
    let nodes = left_nodes(alloc, found)?;
    let wires = left_wires(alloc, found.parts.as_slice())?;
    let made = rule_graph(alloc, nodes, wires.as_slice())?;
    Ok(made)
}

/// The wire in their place. The only error is want of memory.
pub(crate) fn right_graph(alloc: Global, found: SplitAndJoin<'_>) -> Result<Graph, NoMemory>
    requires { CanSplitSides found.split.now found.join.now found.parts.now }
    ensures { IfOk result (λ right. right.graph ≡ straight (side_name found.entry.split.now found.entry.join.now entry) (side_name found.entry.split.now found.entry.join.now exit) (concat found.entry.parts.now)) }
{
    let nodes = right_nodes(alloc, found)?;
    let wires = [(End::Fresh(1, 1), End::Fresh(0, 1))];
    let made = rule_graph(alloc, nodes, wires.as_slice())?;
    Ok(made)
}

/// The Entry, the Split, the Join and the Exit, in this order.
fn left_nodes(alloc: Global, found: SplitAndJoin<'_>) -> Result<Vec<Node>, NoMemory>
    requires { IsShape (concat found.parts.now) }
    ensures { IfOk result (λ nodes. nodes.items ≡ split_nodes found.entry.split.now found.entry.join.now found.entry.parts.now) }
{
    let SplitAndJoin { split, join, parts } = found;
    let nodes = vec![in alloc;
        entry_beside(alloc, split, join, parts.as_slice())?,
        split_node(alloc, split, parts)?,
        join_node(alloc, join, parts)?,
        exit_beside(alloc, split, join, parts.as_slice())?,
    ]?;
    Ok(nodes)
}

/// The Exit and the Entry, in this order.
fn right_nodes(alloc: Global, found: SplitAndJoin<'_>) -> Result<Vec<Node>, NoMemory>
    requires { IsShape (concat found.parts.now) }
    ensures { IfOk result (λ nodes. nodes.items ≡ straight_nodes found.entry.split.now found.entry.join.now found.entry.parts.now) }
{
    let SplitAndJoin { split, join, parts } = found;
    let nodes = vec![in alloc;
        exit_beside(alloc, split, join, parts.as_slice())?,
        entry_beside(alloc, split, join, parts.as_slice())?,
    ]?;
    Ok(nodes)
}

/// The Entry feeds the Split, whose outputs feed the inputs of the Join of the same numbers, and that the Exit.
fn left_wires(alloc: Global, parts: &[Shape]) -> Result<Vec<(End, End)>, NoMemory>
    requires { length parts.now ≤ 64 }
    ensures { IfOk result (λ wires. wires.items ≡ split_ends parts.now) }
{
    let mut wires = vec![in alloc;
        (End::Fresh(0, 1), End::Fresh(1, 1)),
        (End::Fresh(2, 1), End::Fresh(3, 1)),
    ]?;
    push_wires(&mut wires, parts.len(), Row::Ports(1), Row::Ports(2))?;
    Ok(wires)
}

fn split_node(alloc: Global, name: &Text, parts: &Items<Shape>) -> Result<Node, NoMemory>
    ensures { IfOk result (λ node. node ≡ bare_node name.now (Split parts.now)) }
{
    let name = name.clone()?;
    let kind = Kind::Split(copy_parts(parts)?);
    Ok(bare_node(alloc, name, kind))
}

fn join_node(alloc: Global, name: &Text, parts: &Items<Shape>) -> Result<Node, NoMemory>
    ensures { IfOk result (λ node. node ≡ bare_node name.now (Join parts.now)) }
{
    let name = name.clone()?;
    let kind = Kind::Join(copy_parts(parts)?);
    Ok(bare_node(alloc, name, kind))
}

fn copy_parts(parts: &Items<Shape>) -> Result<Items<Shape>, NoMemory>
    ensures { IfOk result (λ copy. copy ≡ parts.now) }
{
    Ok(parts.clone()?)
}

/// The Entry beside nodes of these names.
fn entry_beside(alloc: Global, split: &Text, join: &Text, parts: &[Shape]) -> Result<Node, NoMemory>
    requires { IsShape (concat parts.now) }
    ensures { IfOk result (λ node. node ≡ bare_node (side_name split.now join.now entry) (Entry (concat parts.now))) }
{
    let name = text_of(alloc, other_text(split, join, "in", "from", "a"))?;
    let shape = joined_shape(alloc, parts)?;
    Ok(bare_node(alloc, name, Kind::Entry(shape)))
}

/// The Exit beside nodes of these names.
fn exit_beside(alloc: Global, split: &Text, join: &Text, parts: &[Shape]) -> Result<Node, NoMemory>
    requires { IsShape (concat parts.now) }
    ensures { IfOk result (λ node. node ≡ bare_node (side_name split.now join.now exit) (Exit (concat parts.now))) }
{
    let name = text_of(alloc, other_text(split, join, "out", "to", "z"))?;
    let shape = joined_shape(alloc, parts)?;
    Ok(bare_node(alloc, name, Kind::Exit(shape)))
}

fn text_of(alloc: Global, text: &str) -> Result<Text, NoMemory>
    ensures { IfOk result (λ copy. copy ≡ text.now) }
{
    Ok(Text::from_string(String::from_str(alloc, text)?))
}

/// The first of three texts that is neither of two names.
fn other_text<'a>(
    split: &Text,
    join: &Text,
    first: &'a str,
    second: &'a str,
    third: &'a str,
) -> &'a str
    ensures { result.now ≡ other_text split.now join.now first.now second.now third.now }
{
    if !is_either(split, join, first) {
        first
    } else if !is_either(split, join, second) {
        second
    } else {
        third
    }
}

/// Whether the text is one of two names.
fn is_either(split: &Text, join: &Text, text: &str) -> bool
    ensures { result ≡ (bytes_eq split.now text.now || bytes_eq join.now text.now) }
{
    split.bytes() == text.as_bytes() || join.bytes() == text.as_bytes()
}
