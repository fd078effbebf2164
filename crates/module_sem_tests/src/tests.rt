//! Graphs that can be plugged into others, and graphs that cannot.
use crate::graphs::{Net, Part, graph, named};
use graph_core::{Graph, NodeId, same_graph};
use module_sem::{Link, can_plug, plug};
use std::alloc::Global;
use std::process::Abort;
use std::test::Fail;

/// Two graphs, and links from an Exit to an Entry, by names: the first word of a link says whether the Exit is one of the surrounding graph.
#[derive(Clone, Copy)]
struct Row<'a> {
    outer: Net<'a>,
    inner: Net<'a>,
    links: &'a [(bool, &'a str, &'a str)],
}

/// An Entry `u` wired to an Exit `v`.
fn outer<'a>() -> Net<'a> {
    Net {
        nodes: &[("u", Part::Entry(8)), ("v", Part::Exit(8))],
        wires: &[("u", "v")],
    }
}

/// An Entry `a` wired to an Exit `z`.
fn inner<'a>() -> Net<'a> {
    Net {
        nodes: &[("a", Part::Entry(8)), ("z", Part::Exit(8))],
        wires: &[("a", "z")],
    }
}

/// An id that no graph of fewer than five nodes has.
fn dead(alloc: Global) -> Result<NodeId, Fail> {
    let net = Net {
        nodes: &[
            ("1", Part::Entry(8)),
            ("2", Part::Entry(8)),
            ("3", Part::Entry(8)),
            ("4", Part::Entry(8)),
            ("5", Part::Entry(8)),
        ],
        wires: &[],
    };
    named(&graph(alloc, net)?, "5")
}

/// The links by ids; a name that stands in no node is that of a dead id.
fn links(alloc: Global, c: &Graph, row: Row<'_>, g: &Graph) -> Result<Vec<Link>, Fail> {
    let dead = dead(alloc)?;
    let mut links = Vec::new(alloc);
    for (outer_exit, exit, entry) in row.links {
        let (from, to) = if *outer_exit { (c, g) } else { (g, c) };
        links.push(Link {
            outer_exit: *outer_exit,
            exit: from.find(exit.as_bytes()).unwrap_or(dead),
            entry: to.find(entry.as_bytes()).unwrap_or(dead),
        })?;
    }
    Ok(links)
}

/// The plugged graph, and none where the links cannot plug the one into the other.
fn plugged(alloc: Global, row: Row<'_>) -> Result<Option<Graph>, Fail> {
    let c = graph(alloc, row.outer)?;
    let g = graph(alloc, row.inner)?;
    let links = links(alloc, &c, row, &g)?;
    if can_plug(&c, &links, &g) {
        Ok(Some(plug(alloc, &c, &links, &g)?))
    } else {
        Ok(None)
    }
}

/// Whether the plugged graph is this one.
fn plugs_to(alloc: Global, row: Row<'_>, expected: Net<'_>) -> Result<bool, Fail> {
    let expected = graph(alloc, expected)?;
    Ok(match plugged(alloc, row)? {
        Some(plugged) => same_graph(&plugged, &expected),
        None => false,
    })
}

/// Checks that the links plug the wire from `a` to `z` into that from `u` to `v` so that this graph comes out.
fn check_plug(
    rt: &(impl Abort + AllocGlobal),
    links: &[(bool, &str, &str)],
    expected: Net<'_>,
) -> Result<(), Fail> {
    let row = Row {
        outer: outer(),
        inner: inner(),
        links,
    };
    assert!(rt; plugs_to(rt.alloc(), row, expected)?);
    Ok(())
}

#[test]
fn an_exit_becomes_a_buffer(rt: HostRuntime) -> Result<(), Fail> {
    let inwards = Net {
        nodes: &[
            ("u", Part::Entry(8)),
            ("v", Part::Buffer(8)),
            ("z", Part::Exit(8)),
        ],
        wires: &[("u", "v"), ("v", "z")],
    };
    check_plug(&rt, &[(true, "v", "a")], inwards)?;
    let outwards = Net {
        nodes: &[
            ("a", Part::Entry(8)),
            ("z", Part::Buffer(8)),
            ("v", Part::Exit(8)),
        ],
        wires: &[("a", "z"), ("z", "v")],
    };
    check_plug(&rt, &[(false, "z", "u")], outwards)
}

#[test]
fn links_may_make_a_ring(rt: HostRuntime) -> Result<(), Fail> {
    let ring = Net {
        nodes: &[("v", Part::Buffer(8)), ("z", Part::Buffer(8))],
        wires: &[("v", "z"), ("z", "v")],
    };
    check_plug(&rt, &[(true, "v", "a"), (false, "z", "u")], ring)?;
    check_plug(&rt, &[(false, "z", "u"), (true, "v", "a")], ring)
}

/// Checks that the links cannot plug the graph into the wire from `u` to `v`.
fn check_refused(
    rt: &(impl Abort + AllocGlobal),
    inner: Net<'_>,
    links: &[(bool, &str, &str)],
) -> Result<(), Fail> {
    let row = Row {
        outer: outer(),
        inner,
        links,
    };
    assert!(rt; plugged(rt.alloc(), row)?.is_none());
    Ok(())
}

#[test]
fn ends_that_are_none(rt: HostRuntime) -> Result<(), Fail> {
    check_refused(&rt, inner(), &[(true, "u", "a")])?;
    check_refused(&rt, inner(), &[(true, "v", "z")])?;
    check_refused(&rt, inner(), &[(true, "no such node", "a")])?;
    check_refused(&rt, inner(), &[(true, "v", "no such node")])
}

#[test]
fn graphs_that_do_not_fit(rt: HostRuntime) -> Result<(), Fail> {
    let open = Net {
        nodes: &[("a", Part::Entry(8))],
        wires: &[],
    };
    let narrow = Net {
        nodes: &[("a", Part::Entry(4)), ("z", Part::Exit(4))],
        wires: &[("a", "z")],
    };
    check_refused(&rt, open, &[])?;
    check_refused(&rt, outer(), &[])?;
    check_refused(&rt, narrow, &[(true, "v", "a")])
}

#[test]
fn ends_that_are_used_twice(rt: HostRuntime) -> Result<(), Fail> {
    let two = Net {
        nodes: &[
            ("a", Part::Entry(8)),
            ("b", Part::Entry(8)),
            ("y", Part::Exit(8)),
            ("z", Part::Exit(8)),
        ],
        wires: &[("a", "y"), ("b", "z")],
    };
    check_refused(&rt, two, &[(true, "v", "a"), (true, "v", "b")])?;
    check_refused(&rt, two, &[(false, "y", "u"), (false, "z", "u")])
}
