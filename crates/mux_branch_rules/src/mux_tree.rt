//! The tree of Forks and Buffers that leads one select to Muxes, by what feeds the first input of each listed node.
ghost use Rattle.std.specs.Prelude.{◌≡◌, ◌≢◌, ◌↔◌, ◌<◌, ◌≤◌, ◌+◌, ◌^◌, ℕ, List, suc, length, IsTrue, IfOk, Some, None, MatchOption};
ghost use Rattle.std.specs.FinMap as finite;
ghost use Rattle.std.specs.List.{AllByRecursion};
ghost use Rattle.std.specs.Option.{option_map};
ghost use Rattle.circuits.specs.Buffers.{first_port};
ghost use Rattle.circuits.specs.Replacing.{NoneTwice};
ghost use Rattle.drawn_rules.specs.Labels.{nth};
ghost use Rattle.mux_branch_rules.specs.MuxTree.{AreSources, IsSource, IsTable, all_fed, ends, fed, is_output, none_outside, one_outside, outputs_fed, outputs_of, port_at};

use components::Kind;
use graph_core::{Graph, PortAt};
use port_types::{NoMemory, Text};
use std::alloc::Global;

/// What feeds the first input of a listed node.
#[derive(Clone, Copy, Debug)]
pub(crate) enum Source {
    /// No output of the tree.
    Outside,
    /// An output of the tree: the place of its node in the list, and its number.
    Output(usize, u8),
}

/// What feeds the first input of each of the listed nodes, of which so many at the front are the tree's. The only error is want of memory.
pub(crate) fn sources_at(
    alloc: Global,
    g: &Graph,
    names: &[Text],
    tree: usize,
) -> Result<Vec<Source>, NoMemory>
    requires { tree ≤ length names.now }
    ensures { IfOk result (λ sources. AreSources g.now.graph names.now tree names.now sources.items) }
{
    let mut sources = Vec::new(alloc);
    for index in 0..names.len() {
        sources.push(source_at(g, names, tree, &names[index]))?;
    }
    Ok(sources)
}

fn source_at(g: &Graph, names: &[Text], tree: usize, name: &Text) -> Source
    requires { tree ≤ length names.now }
    ensures { IsSource g.now.graph names.now tree name.now result }
{
    let Some((node, port)) = feeder(g, name) else {
        return Source::Outside;
    };
    match position(names, tree, node) {
        Some(place) => Source::Output(place, port),
        None => Source::Outside,
    }
}

/// The output that feeds the first input of the node of this name, by the name of its node and its number.
fn feeder<'a>(g: &'a Graph, name: &Text) -> Option<(&'a Text, u8)>
    ensures { MatchOption result
        (finite.get g.now.graph.feeders (first_port name.now) ≡ None)
        (λ found. finite.get g.now.graph.feeders (first_port name.now) ≡ Some (port_at found.0.now found.1)) }
{
    g.is_graph();
    let Some(node) = g.find(name.bytes()) else {
        return None;
    };
    let Some(source) = g.wire_into(PortAt { node, port: 1 }) else {
        return None;
    };
    let Some(from) = g.node(source.node) else {
        return None;
    };
    Some((&from.name, source.port))
}

/// The place of the name among so many at the front.
fn position(names: &[Text], tree: usize, name: &Text) -> Option<usize>
    requires { tree ≤ length names.now }
    ensures { MatchOption result
        ((place : ℕ) → place < tree → nth names.now place ≢ name.now)
        (λ place. (place < tree) × (nth names.now place ≡ name.now)) }
{
    for index in 0..tree {
        if same_name(&names[index], name) {
            return Some(index);
        }
    }
    None
}

fn same_name(a: &Text, b: &Text) -> bool
    ensures { IsTrue result ↔ (a.now ≡ b.now) }
{
    a.bytes() == b.bytes()
}

/// Whether the nodes of these kinds, and the Muxes listed behind them, are a tree: one input alone is fed from outside, each output of
/// the tree feeds an input, and each input comes from outside.
pub(crate) fn is_tree(kinds: &[Kind], sources: &[Source]) -> bool
    ensures { IsTrue result ↔ IsTable kinds.now sources.now }
{
    one_outside(sources) && outputs_fed(0, kinds, sources) && all_end(sources)
}

fn one_outside(sources: &[Source]) -> bool
    ensures { result ≡ one_outside sources.now }
{
    match sources {
        [] => false,
        [Source::Outside, rest @ ..] => none_outside(rest),
        [Source::Output(..), rest @ ..] => one_outside(rest),
    }
}

fn none_outside(sources: &[Source]) -> bool
    ensures { result ≡ none_outside sources.now }
{
    match sources {
        [] => true,
        [Source::Outside, ..] => false,
        [Source::Output(..), rest @ ..] => none_outside(rest),
    }
}

/// Whether each output of the nodes from this place on feeds an input.
fn outputs_fed(node: usize, kinds: &[Kind], sources: &[Source]) -> bool
    requires { node + length kinds.now < 2 ^ 64 }
    ensures { result ≡ outputs_fed node kinds.now sources.now }
{
    match kinds {
        [] => true,
        [kind, rest @ ..] => {
            all_fed(node, outputs_of(kind), sources) && outputs_fed(node + 1, rest, sources)
        }
    }
}

fn outputs_of(kind: &Kind) -> u8
    ensures { result ≡ outputs_of kind.now }
{
    match kind {
        Kind::Fork(_, count) => *count,
        _ => 1,
    }
}

fn all_fed(node: usize, ports: u8, sources: &[Source]) -> bool
    ensures { result ≡ all_fed node ports sources.now }
{
    ports == 0 || (feeds(node, ports, sources) && all_fed(node, ports - 1, sources))
}

fn feeds(node: usize, port: u8, sources: &[Source]) -> bool
    ensures { result ≡ fed node port sources.now }
{
    match sources {
        [] => false,
        [first, rest @ ..] => is_output(node, port, *first) || feeds(node, port, rest),
    }
}

fn is_output(node: usize, port: u8, source: Source) -> bool
    ensures { result ≡ is_output node port source }
{
    match source {
        Source::Outside => false,
        Source::Output(place, number) => place == node && number == port,
    }
}

/// Whether each input comes from outside, followed back through the tree.
fn all_end(sources: &[Source]) -> bool
    ensures { IsTrue result ↔ AllByRecursion (λ source. IsTrue (ends (length sources.now) sources.now (Some source))) sources.now }
{
    sources
        .iter()
        .all(|source| comes_from_outside(sources, *source))
}

fn comes_from_outside(sources: &[Source], source: Source) -> bool
    ensures { result ≡ ends (length sources.now) sources.now (Some source) }
{
    let mut at = source;
    for _ in 0..sources.len() {
        let Source::Output(node, _) = at else {
            return true;
        };
        let Some(next) = sources.get(node) else {
            return false;
        };
        at = *next;
    }
    false
}
