//! The two graphs of the rule `trim_fork`.
ghost use Rattle.std.specs.Prelude.{◌≡◌, ◌≤◌, suc, IfOk, replicate};
ghost use Rattle.components.specs.declared.kind.Kind.TheVariants.{Fork, Sink0};
ghost use Rattle.circuit_plans.specs.Places.{number};
ghost use Rattle.lane_laws.specs.TrimFork.{Output, trimmed_graph, untrimmed_graph};
ghost use Rattle.pure_extract.specs.TrimFork.{new_name, old_name};
ghost use Rattle.pure_extract.specs.TrimForkSides.{CanTrimSides, new_ends, new_list, old_ends, old_list};

use components::{Kind, Node};
use drawn_rules::{EndKind, Row, copies, push_end, push_ends, push_listed, push_new, push_wires};
use graph_core::{End, Graph};
use lane_laws::trim_fork_refines;
use port_types::{NoMemory, Shape, Text};
use std::alloc::Global;
use subst_engine::rule_graph;

/// A Fork and a Sink: their names, the shape of their tokens, the number of the other outputs, and which output feeds the Sink.
#[derive(Clone, Copy)]
pub(crate) struct Sunk<'a> {
    pub(crate) fork: &'a Text,
    pub(crate) sink: &'a Text,
    pub(crate) shape: &'a Shape,
    pub(crate) others: u8,
    pub(crate) port: u8,
}

/// The Fork and the Sink. The only error is want of memory.
pub(crate) fn left_graph(
    alloc: Global,
    prefix: u64,
    ends: u64,
    sunk: Sunk<'_>,
) -> Result<Graph, NoMemory>
    requires { CanTrimSides prefix ends sunk.fork.now sunk.sink.now sunk.shape.now sunk.others sunk.port }
    ensures { IfOk result (λ left. (output : Output sunk.entry.shape.now (suc sunk.entry.others)) →
        number (replicate (suc sunk.entry.others) sunk.entry.shape.now) output ≡ sunk.entry.port →
        left.graph ≡ untrimmed_graph sunk.entry.shape.now sunk.entry.others output (old_name prefix ends sunk.entry.fork.now sunk.entry.sink.now sunk.entry.shape.now sunk.entry.others)) }
{
    trim_fork_refines();
    let nodes = left_nodes(alloc, ends, sunk)?;
    let wires = left_wires(alloc, sunk.others, sunk.port)?;
    let made = rule_graph(alloc, nodes, wires.as_slice())?;
    Ok(made)
}

/// The Fork in their place. The only error is want of memory.
pub(crate) fn right_graph(
    alloc: Global,
    prefix: u64,
    ends: u64,
    sunk: Sunk<'_>,
) -> Result<Graph, NoMemory>
    requires { CanTrimSides prefix ends sunk.fork.now sunk.sink.now sunk.shape.now sunk.others sunk.port }
    ensures { IfOk result (λ right. right.graph ≡ trimmed_graph sunk.entry.shape.now sunk.entry.others (new_name prefix ends sunk.entry.fork.now sunk.entry.sink.now sunk.entry.shape.now sunk.entry.others)) }
{
    trim_fork_refines();
    let nodes = right_nodes(alloc, prefix, ends, sunk)?;
    let wires = right_wires(alloc, sunk.others)?;
    let made = rule_graph(alloc, nodes, wires.as_slice())?;
    Ok(made)
}

/// The Entry, the Fork, the Sink and the Exits, in this order.
fn left_nodes(alloc: Global, ends: u64, sunk: Sunk<'_>) -> Result<Vec<Node>, NoMemory>
    requires { sunk.others ≤ 63 }
    ensures { IfOk result (λ nodes. nodes.items ≡ old_list ends sunk.entry.fork.now sunk.entry.sink.now sunk.entry.shape.now sunk.entry.others) }
{
    let Sunk {
        fork,
        sink,
        shape,
        others,
        ..
    } = sunk;
    let exits = copies(alloc, shape, others as usize)?;
    let mut nodes = Vec::new(alloc);
    push_end(&mut nodes, alloc, ends, "e", EndKind::Entry, shape)?;
    push_listed(&mut nodes, alloc, fork, fork_kind(shape, others + 1)?)?;
    push_listed(&mut nodes, alloc, sink, sink_kind(shape)?)?;
    push_ends(
        &mut nodes,
        alloc,
        ends,
        "x",
        EndKind::Exit,
        exits.as_slice(),
    )?;
    Ok(nodes)
}

/// The Entry, the Fork and the Exits, in this order.
fn right_nodes(alloc: Global, prefix: u64, ends: u64, sunk: Sunk<'_>) -> Result<Vec<Node>, NoMemory>
    ensures { IfOk result (λ nodes. nodes.items ≡ new_list prefix ends sunk.entry.shape.now sunk.entry.others) }
{
    let Sunk { shape, others, .. } = sunk;
    let exits = copies(alloc, shape, others as usize)?;
    let mut nodes = Vec::new(alloc);
    push_end(&mut nodes, alloc, ends, "e", EndKind::Entry, shape)?;
    push_new(&mut nodes, alloc, prefix, "trim", fork_kind(shape, others)?)?;
    push_ends(
        &mut nodes,
        alloc,
        ends,
        "x",
        EndKind::Exit,
        exits.as_slice(),
    )?;
    Ok(nodes)
}

/// The Entry feeds the Fork, whose output of this number feeds the Sink, and its others the Exits.
fn left_wires(alloc: Global, others: u8, port: u8) -> Result<Vec<(End, End)>, NoMemory>
    requires { others ≤ 63 }
    ensures { IfOk result (λ wires. wires.items ≡ old_ends others port) }
{
    let mut wires = vec![in alloc;
        (End::Fresh(0, 1), End::Fresh(1, 1)),
        (End::Fresh(1, port), End::Fresh(2, 1)),
    ]?;
    let lanes = others as usize;
    push_wires(&mut wires, lanes, Row::PortsBut(1, port), Row::Nodes(3, 1))?;
    Ok(wires)
}

/// The Entry feeds the Fork, which feeds the Exits.
fn right_wires(alloc: Global, others: u8) -> Result<Vec<(End, End)>, NoMemory>
    requires { others ≤ 63 }
    ensures { IfOk result (λ wires. wires.items ≡ new_ends others) }
{
    let mut wires = vec![in alloc; (End::Fresh(0, 1), End::Fresh(1, 1))]?;
    push_wires(&mut wires, others as usize, Row::Ports(1), Row::Nodes(2, 1))?;
    Ok(wires)
}

fn fork_kind(shape: &Shape, count: u8) -> Result<Kind, NoMemory>
    ensures { IfOk result (λ kind. kind ≡ Fork shape.now count) }
{
    let shape = shape.clone()?;
    Ok(Kind::Fork(shape, count))
}

fn sink_kind(shape: &Shape) -> Result<Kind, NoMemory>
    ensures { IfOk result (λ kind. kind ≡ Sink0 shape.now) }
{
    let shape = shape.clone()?;
    Ok(Kind::Sink0(shape))
}
