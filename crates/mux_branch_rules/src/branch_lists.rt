//! The nodes and the wires of the two graphs of `branch_combine` and `branch_combine0`.
ghost use Rattle.std.specs.Prelude.{◌≡◌, ◌≤◌, ◌++◌, IfOk, OnOk, length, if◌then◌else◌, codes};
ghost use Rattle.std.specs.List.{concat};
ghost use Rattle.components.specs.declared.kind.Kind.TheVariants.{Branch, Fork, Join, Split};
ghost use Rattle.components.specs.Kind.{field};
ghost use Rattle.port_types.specs.Shape.{IsShape};
ghost use Rattle.mux_branch_rules.specs.BranchSides.{branch_nodes, new_ends, new_list, old_ends, old_list};

use components::{Kind, Node};
use drawn_rules::{
    EndKind, Row, bit_shape, joined_shape, push_end, push_ends, push_listed, push_new, push_wires,
};
use graph_core::End;
use port_types::{Items, NoMemory, Shape, Text};
use std::alloc::Global;

/// The Entry of the condition, the Fork and the Exit of the condition; the Entries, the Branches and the Exits of the lanes.
pub(crate) fn left_nodes(
    alloc: Global,
    ends: u64,
    fork: &Text,
    branches: &[Text],
    lanes: &Items<Shape>,
) -> Result<Vec<Node>, NoMemory>
    requires few { length lanes.now ≤ 63 }
    requires long { length branches.now ≡ length lanes.now }
    ensures { IfOk result (λ nodes. nodes.items ≡ old_list ends fork.now branches.now lanes.now) }
{
    let shapes = lanes.as_slice();
    let bit = bit_shape(alloc)?;
    let mut nodes = Vec::new(alloc);
    push_end(&mut nodes, alloc, ends, "e", EndKind::Entry, &bit)?;
    push_listed(
        &mut nodes,
        alloc,
        fork,
        bit_fork(alloc, shapes.len() as u8 + 1)?,
    )?;
    push_end(&mut nodes, alloc, ends, "x", EndKind::Exit, &bit)?;
    push_ends(&mut nodes, alloc, ends, "p", EndKind::Entry, shapes)?;
    push_branches(&mut nodes, alloc, branches, shapes)?;
    push_ends(&mut nodes, alloc, ends, "y", EndKind::Exit, shapes)?;
    push_ends(&mut nodes, alloc, ends, "z", EndKind::Exit, shapes)?;
    Ok(nodes)
}

/// The Entry of the condition, the Fork and the Exit of the condition, the Join, the Branch and the two Splits; the Entries and the
/// Exits of the lanes.
pub(crate) fn right_nodes(
    alloc: Global,
    prefix: u64,
    ends: u64,
    lanes: &Items<Shape>,
    goes_back: bool,
) -> Result<Vec<Node>, NoMemory>
    requires { IsShape (concat lanes.now) }
    ensures { IfOk result (λ nodes. nodes.items ≡ new_list prefix ends goes_back lanes.now) }
{
    let shapes = lanes.as_slice();
    let bit = bit_shape(alloc)?;
    let mut nodes = Vec::new(alloc);
    push_end(&mut nodes, alloc, ends, "e", EndKind::Entry, &bit)?;
    push_new(&mut nodes, alloc, prefix, "cond", bit_fork(alloc, 2)?)?;
    push_end(&mut nodes, alloc, ends, "x", EndKind::Exit, &bit)?;
    push_new(&mut nodes, alloc, prefix, "data", join_kind(lanes)?)?;
    push_new(
        &mut nodes,
        alloc,
        prefix,
        "branch",
        branch_kind(alloc, shapes)?,
    )?;
    push_new(
        &mut nodes,
        alloc,
        prefix,
        first_split(goes_back),
        split_kind(lanes)?,
    )?;
    push_new(
        &mut nodes,
        alloc,
        prefix,
        second_split(goes_back),
        split_kind(lanes)?,
    )?;
    push_ends(&mut nodes, alloc, ends, "p", EndKind::Entry, shapes)?;
    push_ends(&mut nodes, alloc, ends, "y", EndKind::Exit, shapes)?;
    push_ends(&mut nodes, alloc, ends, "z", EndKind::Exit, shapes)?;
    Ok(nodes)
}

/// The word of the Split behind the first output.
fn first_split(goes_back: bool) -> &'static str
    ensures { result.now ≡ (if goes_back then codes "again" else codes "out") }
{
    if goes_back { "again" } else { "out" }
}

/// The word of the Split behind the second output.
fn second_split(goes_back: bool) -> &'static str
    ensures { result.now ≡ (if goes_back then codes "out" else codes "again") }
{
    if goes_back { "out" } else { "again" }
}

/// Appends the Branches.
fn push_branches(
    nodes: &mut Vec<Node>,
    alloc: Global,
    branches: &[Text],
    lanes: &[Shape],
) -> Result<(), NoMemory>
    requires { length branches.now ≡ length lanes.now }
    ensures { OnOk result (nodes.new.items ≡ nodes.old.items ++ branch_nodes branches.now lanes.now) }
{
    for index in 0..lanes.len() {
        push_listed(nodes, alloc, &branches[index], lane_branch(&lanes[index])?)?;
    }
    Ok(())
}

fn lane_branch(shape: &Shape) -> Result<Kind, NoMemory>
    ensures { IfOk result (λ kind. kind ≡ Branch shape.now) }
{
    let shape = shape.clone()?;
    Ok(Kind::Branch(shape))
}

/// A Fork of a bit.
fn bit_fork(alloc: Global, count: u8) -> Result<Kind, NoMemory>
    ensures { IfOk result (λ kind. kind ≡ Fork (field 1) count) }
{
    Ok(Kind::Fork(bit_shape(alloc)?, count))
}

pub(crate) fn join_kind(lanes: &Items<Shape>) -> Result<Kind, NoMemory>
    ensures { IfOk result (λ kind. kind ≡ Join lanes.now) }
{
    Ok(Kind::Join(lanes.clone()?))
}

pub(crate) fn split_kind(lanes: &Items<Shape>) -> Result<Kind, NoMemory>
    ensures { IfOk result (λ kind. kind ≡ Split lanes.now) }
{
    Ok(Kind::Split(lanes.clone()?))
}

/// A Branch of the lanes' values joined.
fn branch_kind(alloc: Global, lanes: &[Shape]) -> Result<Kind, NoMemory>
    requires { IsShape (concat lanes.now) }
    ensures { IfOk result (λ kind. kind ≡ Branch (concat lanes.now)) }
{
    Ok(Kind::Branch(joined_shape(alloc, lanes)?))
}

/// The wires of the Fork and the Branches, for so many lanes.
pub(crate) fn left_wires(alloc: Global, lanes: usize) -> Result<Vec<(End, End)>, NoMemory>
    requires { lanes ≤ 63 }
    ensures { IfOk result (λ wires. wires.items ≡ old_ends lanes) }
{
    let mut wires = vec![in alloc;
        (End::Fresh(0, 1), End::Fresh(1, 1)),
        (End::Fresh(1, lanes as u8 + 1), End::Fresh(2, 1)),
    ]?;
    let (branches, first, second) = (3 + lanes, 3 + 2 * lanes, 3 + 3 * lanes);
    push_wires(&mut wires, lanes, Row::Nodes(3, 1), Row::Nodes(branches, 1))?;
    push_wires(&mut wires, lanes, Row::Ports(1), Row::Nodes(branches, 2))?;
    push_wires(
        &mut wires,
        lanes,
        Row::Nodes(branches, 1),
        Row::Nodes(first, 1),
    )?;
    push_wires(
        &mut wires,
        lanes,
        Row::Nodes(branches, 2),
        Row::Nodes(second, 1),
    )?;
    Ok(wires)
}

/// The wires of the one Branch, for so many lanes.
pub(crate) fn right_wires(alloc: Global, lanes: usize) -> Result<Vec<(End, End)>, NoMemory>
    requires { lanes ≤ 63 }
    ensures { IfOk result (λ wires. wires.items ≡ new_ends lanes) }
{
    let mut wires = vec![in alloc;
        (End::Fresh(0, 1), End::Fresh(1, 1)),
        (End::Fresh(1, 2), End::Fresh(2, 1)),
        (End::Fresh(3, 1), End::Fresh(4, 1)),
        (End::Fresh(1, 1), End::Fresh(4, 2)),
        (End::Fresh(4, 1), End::Fresh(5, 1)),
        (End::Fresh(4, 2), End::Fresh(6, 1)),
    ]?;
    push_wires(&mut wires, lanes, Row::Nodes(7, 1), Row::Ports(3))?;
    push_wires(&mut wires, lanes, Row::Ports(5), Row::Nodes(7 + lanes, 1))?;
    push_wires(
        &mut wires,
        lanes,
        Row::Ports(6),
        Row::Nodes(7 + 2 * lanes, 1),
    )?;
    Ok(wires)
}
