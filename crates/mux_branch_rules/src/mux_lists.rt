//! The nodes and the wires of the two graphs of `mux_combine` and `mux_combine0`.
ghost use Rattle.std.specs.Prelude.{◌≡◌, ◌≤◌, ◌<◌, ◌+◌, ◌*◌, ◌^◌, ◌++◌, IfOk, OnOk, codes, drop, length, take, if◌then◌else◌};
ghost use Rattle.std.specs.List.{AllByRecursion, concat};
ghost use Rattle.components.specs.declared.kind.Kind.TheVariants.{Mux};
ghost use Rattle.port_types.specs.Shape.{IsShape};
ghost use Rattle.mux_branch_rules.specs.MuxSides.{IsNear, mux_new_ends, mux_new_list, mux_nodes, mux_old_ends, mux_old_list, source_end, source_wires, tree_nodes};

use crate::branch_lists::{join_kind, split_kind};
use crate::mux_tree::Source;
use components::{Kind, Node};
use drawn_rules::{
    EndKind, Row, bit_shape, joined_shape, push_end, push_ends, push_listed, push_new, push_wires,
};
use graph_core::End;
use port_types::{Items, NoMemory, Shape, Text};
use std::alloc::Global;

/// Nodes of a tree and Muxes behind them, by their names in one list, with the kinds of the ones and the lanes of the others, and what
/// feeds the first input of each.
#[derive(Clone, Copy)]
pub(crate) struct MuxTree<'a> {
    pub(crate) names: &'a [Text],
    pub(crate) kinds: &'a [Kind],
    pub(crate) lanes: &'a Items<Shape>,
    pub(crate) sources: &'a [Source],
}

/// The Entry of the select and the nodes of the tree; the Entries, the Muxes and the Exits of the lanes.
pub(crate) fn left_nodes(alloc: Global, ends: u64, tree: MuxTree<'_>) -> Result<Vec<Node>, NoMemory>
    requires { length tree.names.now ≡ length tree.kinds.now + length tree.lanes.now }
    ensures { IfOk result (λ nodes. nodes.items ≡ mux_old_list ends tree.entry.names.now tree.entry.kinds.now tree.entry.lanes.now) }
{
    let shapes = tree.lanes.as_slice();
    let muxes = &tree.names[tree.kinds.len()..];
    let mut nodes = Vec::new(alloc);
    push_end(
        &mut nodes,
        alloc,
        ends,
        "e",
        EndKind::Entry,
        &bit_shape(alloc)?,
    )?;
    push_tree(&mut nodes, alloc, tree.names, tree.kinds)?;
    push_ends(&mut nodes, alloc, ends, "p", EndKind::Entry, shapes)?;
    push_ends(&mut nodes, alloc, ends, "q", EndKind::Entry, shapes)?;
    push_muxes(&mut nodes, alloc, muxes, shapes)?;
    push_ends(&mut nodes, alloc, ends, "x", EndKind::Exit, shapes)?;
    Ok(nodes)
}

/// The Entry of the select, the two Joins, the Mux and the Split; the Entries and the Exits of the lanes.
pub(crate) fn right_nodes(
    alloc: Global,
    prefix: u64,
    ends: u64,
    lanes: &Items<Shape>,
    goes_back: bool,
) -> Result<Vec<Node>, NoMemory>
    requires { IsShape (concat lanes.now) }
    ensures { IfOk result (λ nodes. nodes.items ≡ mux_new_list prefix ends goes_back lanes.now) }
{
    let shapes = lanes.as_slice();
    let mut nodes = Vec::new(alloc);
    push_end(
        &mut nodes,
        alloc,
        ends,
        "e",
        EndKind::Entry,
        &bit_shape(alloc)?,
    )?;
    push_new(
        &mut nodes,
        alloc,
        prefix,
        first_join(goes_back),
        join_kind(lanes)?,
    )?;
    push_new(
        &mut nodes,
        alloc,
        prefix,
        second_join(goes_back),
        join_kind(lanes)?,
    )?;
    push_new(&mut nodes, alloc, prefix, "mux", mux_kind(alloc, shapes)?)?;
    push_new(&mut nodes, alloc, prefix, "vars", split_kind(lanes)?)?;
    push_ends(&mut nodes, alloc, ends, "p", EndKind::Entry, shapes)?;
    push_ends(&mut nodes, alloc, ends, "q", EndKind::Entry, shapes)?;
    push_ends(&mut nodes, alloc, ends, "x", EndKind::Exit, shapes)?;
    Ok(nodes)
}

/// The word of the Join before the second input.
fn first_join(goes_back: bool) -> &'static str
    ensures { result.now ≡ (if goes_back then codes "in" else codes "back") }
{
    if goes_back { "in" } else { "back" }
}

/// The word of the Join before the third input.
fn second_join(goes_back: bool) -> &'static str
    ensures { result.now ≡ (if goes_back then codes "back" else codes "in") }
{
    if goes_back { "back" } else { "in" }
}

/// Appends the nodes of the tree, whose names stand at the front.
fn push_tree(
    nodes: &mut Vec<Node>,
    alloc: Global,
    names: &[Text],
    kinds: &[Kind],
) -> Result<(), NoMemory>
    requires { length kinds.now ≤ length names.now }
    ensures { OnOk result (nodes.new.items ≡ nodes.old.items ++ tree_nodes names.now kinds.now) }
{
    for index in 0..kinds.len() {
        push_listed(nodes, alloc, &names[index], copy_kind(&kinds[index])?)?;
    }
    Ok(())
}

/// A copy. The only error is want of memory.
pub(crate) fn copy_kind(kind: &Kind) -> Result<Kind, NoMemory>
    ensures { IfOk result (λ copy. copy ≡ kind.now) }
{
    Ok(kind.clone()?)
}

/// Appends the Muxes.
fn push_muxes(
    nodes: &mut Vec<Node>,
    alloc: Global,
    muxes: &[Text],
    lanes: &[Shape],
) -> Result<(), NoMemory>
    requires { length muxes.now ≡ length lanes.now }
    ensures { OnOk result (nodes.new.items ≡ nodes.old.items ++ mux_nodes muxes.now lanes.now) }
{
    for index in 0..lanes.len() {
        push_listed(nodes, alloc, &muxes[index], lane_mux(&lanes[index])?)?;
    }
    Ok(())
}

fn lane_mux(shape: &Shape) -> Result<Kind, NoMemory>
    ensures { IfOk result (λ kind. kind ≡ Mux shape.now) }
{
    let shape = shape.clone()?;
    Ok(Kind::Mux(shape))
}

/// A Mux of the lanes' values joined.
fn mux_kind(alloc: Global, lanes: &[Shape]) -> Result<Kind, NoMemory>
    requires { IsShape (concat lanes.now) }
    ensures { IfOk result (λ kind. kind ≡ Mux (concat lanes.now)) }
{
    Ok(Kind::Mux(joined_shape(alloc, lanes)?))
}

/// The wires of the tree and the Muxes, for so many nodes of the tree and so many lanes.
pub(crate) fn left_wires(
    alloc: Global,
    kinds: usize,
    lanes: usize,
    sources: &[Source],
) -> Result<Vec<(End, End)>, NoMemory>
    requires few { lanes ≤ 64 }
    requires long { length sources.now ≡ kinds + lanes }
    requires near { AllByRecursion IsNear sources.now }
    ensures { IfOk result (λ wires. wires.items ≡ mux_old_ends kinds lanes sources.now) }
{
    let (values2, values3) = (1 + kinds, 1 + kinds + lanes);
    let (muxes, outs) = (1 + kinds + 2 * lanes, 1 + kinds + 3 * lanes);
    let mut wires = Vec::new(alloc);
    push_sources(&mut wires, &sources[..kinds], 1)?;
    push_sources(&mut wires, &sources[kinds..], muxes)?;
    push_wires(
        &mut wires,
        lanes,
        Row::Nodes(values2, 1),
        Row::Nodes(muxes, 2),
    )?;
    push_wires(
        &mut wires,
        lanes,
        Row::Nodes(values3, 1),
        Row::Nodes(muxes, 3),
    )?;
    push_wires(&mut wires, lanes, Row::Nodes(muxes, 1), Row::Nodes(outs, 1))?;
    Ok(wires)
}

/// Appends a wire into the first input of each node from this place on.
fn push_sources(
    wires: &mut Vec<(End, End)>,
    sources: &[Source],
    place: usize,
) -> Result<(), NoMemory>
    requires within { place + length sources.now < 2 ^ 64 }
    requires near { AllByRecursion IsNear sources.now }
    ensures { OnOk result (wires.new.items ≡ wires.old.items ++ source_wires place sources.now) }
{
    for index in 0..sources.len() {
        wires.push((source_end(sources[index]), End::Fresh(place + index, 1)))?;
    }
    Ok(())
}

fn source_end(source: Source) -> End
    requires { IsNear source }
    ensures { result ≡ source_end source }
{
    match source {
        Source::Outside => End::Fresh(0, 1),
        Source::Output(place, port) => End::Fresh(place + 1, port),
    }
}

/// The wires of the one Mux, for so many lanes.
pub(crate) fn right_wires(alloc: Global, lanes: usize) -> Result<Vec<(End, End)>, NoMemory>
    requires { lanes ≤ 64 }
    ensures { IfOk result (λ wires. wires.items ≡ mux_new_ends lanes) }
{
    let mut wires = vec![in alloc;
        (End::Fresh(0, 1), End::Fresh(3, 1)),
        (End::Fresh(1, 1), End::Fresh(3, 2)),
        (End::Fresh(2, 1), End::Fresh(3, 3)),
        (End::Fresh(3, 1), End::Fresh(4, 1)),
    ]?;
    push_wires(&mut wires, lanes, Row::Nodes(5, 1), Row::Ports(1))?;
    push_wires(&mut wires, lanes, Row::Nodes(5 + lanes, 1), Row::Ports(2))?;
    push_wires(
        &mut wires,
        lanes,
        Row::Ports(4),
        Row::Nodes(5 + 2 * lanes, 1),
    )?;
    Ok(wires)
}
