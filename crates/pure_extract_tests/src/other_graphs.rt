//! A rule that was made in one graph, in other graphs: where it matches, and what comes of it.
ghost use Rattle.components.specs.NamedGraph.{IsTyped};

use crate::graphs::{Row, feeds, graph, typed};
use graph_core::{Graph, same_graph};
use pure_extract::DropBuffer;
use std::alloc::Global;
use std::process::Abort;
use std::test::Fail;
use subst_engine::{ReplaceFault, matches, replace};

/// A Buffer between an Entry and an Exit, at which the rule is made.
const FIRST: Row<'static> = Row {
    nodes: &[("e", "Entry"), ("b", "Buffer"), ("x", "Exit")],
    wires: &[("e", 1, "b"), ("b", 1, "x")],
};

/// Graphs in which the rule does not match: no node has the name, a node has it and is another, or the Buffer of the name is wired to
/// itself, which it is not in the rule.
const NO_MATCHES: [Row<'static>; 3] = [
    Row {
        nodes: &[("e", "Entry"), ("c", "Buffer"), ("x", "Exit")],
        wires: &[("e", 1, "c"), ("c", 1, "x")],
    },
    Row {
        nodes: &[("e", "Entry"), ("b", "Fork"), ("x", "Exit")],
        wires: &[("e", 1, "b"), ("b", 1, "x")],
    },
    Row {
        nodes: &[("e", "Entry"), ("b", "Buffer"), ("x", "Exit")],
        wires: &[("e", 1, "x"), ("b", 1, "b")],
    },
];

/// A ring of two Buffers: each wire of the other is a cut wire of the rule.
const RING: Row<'static> = Row {
    nodes: &[("b", "Buffer"), ("c", "Buffer")],
    wires: &[("b", 1, "c"), ("c", 1, "b")],
};

/// A Buffer between two Forks, with names that the sides of the rule have.
const AMONG_ENDS: Row<'static> = Row {
    nodes: &[
        ("e", "Entry"),
        ("out", "Fork"),
        ("b", "Buffer"),
        ("in", "Fork"),
        ("x", "Exit"),
    ],
    wires: &[
        ("e", 1, "out"),
        ("out", 1, "b"),
        ("b", 1, "in"),
        ("in", 1, "x"),
    ],
};

fn rule(alloc: Global) -> Result<DropBuffer, Fail> {
    let g = typed(alloc, FIRST)?;
    Ok(
        DropBuffer::at(alloc, &g, 0, b"b")
            .ok()
            .ok_or("no instance")?,
    )
}

/// Whether the rule is refused where it does not match.
fn is_refused(alloc: Global, g: &mut Graph, rule: &DropBuffer) -> bool
    requires { IsTyped g.old.graph }
{
    !matches(g, rule) && replace(alloc, g, rule) == Err(ReplaceFault::NoMatch)
}

fn check_refused(
    rt: &(impl Abort + AllocGlobal),
    rule: &DropBuffer,
    row: Row<'_>,
) -> Result<(), Fail> {
    let mut g = typed(rt.alloc(), row)?;
    assert!(rt; is_refused(rt.alloc(), &mut g, rule));
    assert!(rt; same_graph(&g, &graph(rt.alloc(), row)?));
    Ok(())
}

#[test]
fn where_it_does_not_match_nothing_changes(rt: HostRuntime) -> Result<(), Fail> {
    let rule = rule(rt.alloc())?;
    for row in NO_MATCHES {
        check_refused(&rt, &rule, row)?;
    }
    Ok(())
}

/// The graph of the row after the rule, where it matches.
fn replaced(alloc: Global, row: Row<'_>) -> Result<Graph, Fail> {
    let mut g = typed(alloc, row)?;
    let rule = rule(alloc)?;
    if !matches(&g, &rule) {
        return Err("no match".into());
    }
    replace(alloc, &mut g, &rule).ok().ok_or("refused")?;
    Ok(g)
}

#[test]
fn both_cut_wires_become_one(rt: HostRuntime) -> Result<(), Fail> {
    let first = replaced(rt.alloc(), FIRST)?;
    assert!(rt; feeds(&first, "e", "x") && first.find(b"b").is_none());
    let among = replaced(rt.alloc(), AMONG_ENDS)?;
    assert!(rt; feeds(&among, "out", "in") && feeds(&among, "e", "out"));
    Ok(())
}

#[test]
fn a_node_with_all_its_wires_into_the_part(rt: HostRuntime) -> Result<(), Fail> {
    let ring = replaced(rt.alloc(), RING)?;
    assert!(rt; feeds(&ring, "c", "c"));
    Ok(())
}
