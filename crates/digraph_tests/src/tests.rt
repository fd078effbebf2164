//! Graphs whose cycles can be seen at a glance.
use digraph::{Digraph, on_cycles};
use port_types::NoMemory;
use std::alloc::Global;

/// Adds an edge between vertices that are there.
fn join(graph: &mut Digraph, from: usize, to: usize) -> Result<(), NoMemory> {
    if from < graph.len() && to < graph.len() {
        graph.add_edge(from, to)?;
    }
    Ok(())
}

/// Whether these are the vertices on cycles of the graph with these edges.
fn finds(alloc: Global, edges: &[(usize, usize)], on: &[bool]) -> Result<bool, NoMemory> {
    let mut graph = Digraph::new(alloc, on.len())?;
    for (from, to) in edges {
        join(&mut graph, *from, *to)?;
    }
    let told = on_cycles(alloc, &graph)?;
    Ok(told.as_slice() == on)
}

#[test]
fn cycles_are_found(rt: HostRuntime) -> Result<(), NoMemory> {
    let rows: [(&[(usize, usize)], &[bool]); 7] = [
        (&[], &[]),
        (&[], &[false]),
        (&[(0, 0)], &[true]),
        (&[(0, 1), (1, 2), (0, 2)], &[false, false, false]),
        (&[(2, 0), (0, 1), (1, 2)], &[true, true, true]),
        // a vertex between two cycles, on none of them
        (
            &[(0, 1), (1, 0), (1, 2), (2, 3), (3, 4), (4, 3)],
            &[true, true, false, true, true],
        ),
        // two cycles that share a vertex, one entered late, and an edge that stands twice
        (
            &[(3, 1), (1, 0), (0, 3), (3, 2), (2, 3), (4, 2), (4, 2)],
            &[true, true, true, true, false],
        ),
    ];
    for (edges, on) in rows {
        assert!(rt; finds(rt.alloc(), edges, on)?);
    }
    Ok(())
}

/// A line of so many vertices.
fn line(alloc: Global, count: usize) -> Result<Digraph, NoMemory> {
    let mut graph = Digraph::new(alloc, count)?;
    for to in 1..count {
        join(&mut graph, to - 1, to)?;
    }
    Ok(graph)
}

#[test]
fn long_lines_and_circles(rt: HostRuntime) -> Result<(), NoMemory> {
    let mut graph = line(rt.alloc(), 100_000)?;
    assert!(rt; on_cycles(rt.alloc(), &graph)?.iter().all(|on| !*on));
    join(&mut graph, 99_999, 0)?;
    assert!(rt; on_cycles(rt.alloc(), &graph)?.iter().all(|on| *on));
    Ok(())
}
