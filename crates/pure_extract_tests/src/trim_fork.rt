//! The rule `trim_fork` at the nodes of one graph.
ghost use Rattle.components.specs.NamedGraph.{IsTyped};

use crate::graphs::{Row, graph, typed};
use graph_core::{Graph, same_graph};
use pure_extract::{AtFault, TrimFork};
use std::alloc::Global;
use std::test::Fail;
use subst_engine::replace;

/// A Fork whose first output feeds a Sink, and its second an Exit.
const GRAPH: Row<'static> = Row {
    nodes: &[("e", "Entry"), ("f", "Fork2"), ("s", "Sink"), ("x", "Exit")],
    wires: &[("e", 1, "f"), ("f", 1, "s"), ("f", 2, "x")],
};

/// The same with a Fork of the second output alone.
const TRIMMED: Row<'static> = Row {
    nodes: &[("e", "Entry"), ("ooo_7_trim", "Fork"), ("x", "Exit")],
    wires: &[("e", 1, "ooo_7_trim"), ("ooo_7_trim", 1, "x")],
};

/// The rule at a Fork and a Sink, which it is made of in the graph.
fn rule_at(alloc: Global, g: &Graph) -> Result<TrimFork, Fail>
    requires { IsTyped g.now.graph }
{
    Ok(
        TrimFork::at(alloc, g, 7, b"f", b"s")
            .ok()
            .ok_or("no instance")?,
    )
}

/// The graph after the rule.
fn trimmed(alloc: Global) -> Result<Graph, Fail> {
    let mut g = typed(alloc, GRAPH)?;
    let rule = rule_at(alloc, &g)?;
    replace(alloc, &mut g, &rule).ok().ok_or("not replaced")?;
    Ok(g)
}

#[test]
fn an_output_into_a_sink_is_left_out(rt: HostRuntime) -> Result<(), Fail> {
    let g = trimmed(rt.alloc())?;
    let wanted = graph(rt.alloc(), TRIMMED)?;
    assert!(rt; same_graph(&g, &wanted));
    Ok(())
}

/// Whether the graph has no instance at nodes of these names.
fn is_refused(alloc: Global, fork: &str, sink: &str) -> Result<bool, Fail> {
    let g = typed(alloc, GRAPH)?;
    let refused = TrimFork::at(alloc, &g, 7, fork.as_bytes(), sink.as_bytes()).err();
    Ok(refused == Some(AtFault::NoInstance))
}

#[test]
fn other_nodes_are_not_trimmed(rt: HostRuntime) -> Result<(), Fail> {
    for (fork, sink) in [("f", "x"), ("e", "s"), ("s", "f"), ("f", "f"), ("f", "c")] {
        assert!(rt; is_refused(rt.alloc(), fork, sink)?);
    }
    Ok(())
}
