//! The rule `drop_buffer` at the nodes of one graph.
ghost use Rattle.std.specs.Prelude.{IfOk};
ghost use Rattle.components.specs.NamedGraph.{IsTyped};

use crate::graphs::{Row, feeds, graph, row_of, typed};
use graph_core::{Graph, same_graph};
use pure_extract::{AtFault, DropBuffer};
use std::alloc::Global;
use std::process::Abort;
use std::test::Fail;
use subst_engine::{Rule, RuleWord, matches, replace};

/// A Buffer, a Fork of one output and a Buffer `in` in a row, before a Fork of two outputs; and a Buffer that is wired to itself.
const GRAPH: Row<'static> = Row {
    nodes: &[
        ("e", "Entry"),
        ("b", "Buffer"),
        ("out", "Fork"),
        ("in", "Buffer"),
        ("f", "Fork2"),
        ("s", "Sink"),
        ("x", "Exit"),
        ("r", "Buffer"),
    ],
    wires: &[
        ("e", 1, "b"),
        ("b", 1, "out"),
        ("out", 1, "in"),
        ("in", 1, "f"),
        ("f", 1, "s"),
        ("f", 2, "x"),
        ("r", 1, "r"),
    ],
};

/// The graph of all tests.
fn typed_graph(alloc: Global) -> Result<Graph, Fail>
    ensures { IfOk result (λ g. IsTyped g.graph) }
{
    typed(alloc, GRAPH)
}

fn rule_at(alloc: Global, g: &Graph, name: &str) -> Result<DropBuffer, Fail>
    requires { IsTyped g.now.graph }
{
    Ok(
        DropBuffer::at(alloc, g, 0, name.as_bytes())
            .ok()
            .ok_or("no instance")?,
    )
}

/// Whether the graph is the one of the row.
fn is_graph(alloc: Global, g: &Graph, row: Row<'_>) -> Result<bool, Fail> {
    Ok(same_graph(g, &graph(alloc, row)?))
}

/// Whether the rule looks for the row of these three nodes, and gives the row without the second.
fn has_sides(alloc: Global, rule: &DropBuffer, nodes: [(&str, &str); 3]) -> Result<bool, Fail> {
    let [entry, middle, exit] = nodes;
    let ends = [entry, exit];
    let through = [(entry.0, 1, middle.0), (middle.0, 1, exit.0)];
    let straight = [(entry.0, 1, exit.0)];
    Ok(
        is_graph(alloc, rule.left(), row_of(&nodes, &through))?
            && is_graph(alloc, rule.right(), row_of(&ends, &straight))?,
    )
}

/// Checks the sides of the rule at the second of three nodes, and that it can be applied.
fn check(rt: &(impl Abort + AllocGlobal), nodes: [(&str, &str); 3]) -> Result<(), Fail> {
    let g = typed_graph(rt.alloc())?;
    let rule = rule_at(rt.alloc(), &g, nodes[1].0)?;
    assert!(rt; has_sides(rt.alloc(), &rule, nodes)? && matches(&g, &rule));
    assert_eq!(rt; rule.word(), RuleWord::DropBuffer);
    Ok(())
}

#[test]
fn a_buffer_is_left_out(rt: HostRuntime) -> Result<(), Fail> {
    check(&rt, [("in", "Entry"), ("b", "Buffer"), ("out", "Exit")])
}

#[test]
fn names_beside_the_node_are_others(rt: HostRuntime) -> Result<(), Fail> {
    check(&rt, [("in", "Entry"), ("out", "Fork"), ("to", "Exit")])?;
    check(&rt, [("from", "Entry"), ("in", "Buffer"), ("out", "Exit")])
}

/// Whether the rule at the Fork of one output, when it is used, joins the nodes beside it.
fn joins_neighbours(alloc: Global, g: &mut Graph, rule: &DropBuffer) -> bool
    requires { IsTyped g.old.graph }
{
    replace(alloc, g, rule).is_ok() && feeds(g, "b", "in")
}

#[test]
fn what_fed_it_feeds_what_it_fed(rt: HostRuntime) -> Result<(), Fail> {
    let mut g = typed_graph(rt.alloc())?;
    let rule = rule_at(rt.alloc(), &g, "out")?;
    assert!(rt; joins_neighbours(rt.alloc(), &mut g, &rule));
    Ok(())
}

/// Whether the graph has no instance at the node.
fn is_refused(alloc: Global, name: &str) -> Result<bool, Fail> {
    let g = typed_graph(alloc)?;
    let refused = DropBuffer::at(alloc, &g, 0, name.as_bytes()).err();
    Ok(refused == Some(AtFault::NoInstance))
}

#[test]
fn other_nodes_stay(rt: HostRuntime) -> Result<(), Fail> {
    for name in ["", "c", "e", "f", "s", "r"] {
        assert!(rt; is_refused(rt.alloc(), name)?);
    }
    Ok(())
}
