//! Whether links can plug a graph into a surrounding one.
ghost use Rattle.std.specs.Prelude.{◌≡◌, ◌↔◌, IsTrue, All, AllPairs, is_some};
ghost use Rattle.std.specs.Option.{option_copied};
ghost use Rattle.std.specs.FinMap as finite;
ghost use Rattle.circuits.specs.Circuit.{circuit_of};
ghost use Rattle.circuits.specs.Plug.{Apart, Joins};
ghost use Rattle.graph_core.specs.GraphValue.{name_by};
ghost use Rattle.graph_core.specs.Place.{id_of};
ghost use Rattle.module_sem.specs.EndShapes.{entry_shape, exit_shape};
ghost use Rattle.module_sem.specs.GraphLinks.{AreOfDifferentEnds, CanPlugGraphs, IsJoin};

use crate::link::Link;
use crate::standing::node_at;
use components::Kind;
use graph_core::{Graph, NodeId, check_typed};
use port_types::Shape;

/// Whether the links can plug `g` into the surrounding graph `c`: both are typed, no name is in both, each link joins an Exit of the one
/// to an Entry of the other, both live and of one shape, and no Exit and no Entry is an end of two links. Takes no memory.
pub fn can_plug(c: &Graph, links: &[Link], g: &Graph) -> bool
    ensures { IsTrue result ↔ CanPlugGraphs c.now links.now g.now }
{
    if check_typed(c).is_err() || check_typed(g).is_err() || !are_apart(c, g) {
        return false;
    }
    all_join(c, links, g) && none_twice(links)
}

/// Whether no name is in both graphs.
fn are_apart(c: &Graph, g: &Graph) -> bool
    ensures { IsTrue result ↔ Apart (circuit_of c.now.graph) (circuit_of g.now.graph) }
{
    c.is_graph();
    g.is_graph();
    for index in 0..c.slots() {
        if has_name_at(c, index, g) {
            return false;
        }
    }
    true
}

/// Whether a node of `g` has the name of the live node of this index of `c`.
fn has_name_at(c: &Graph, index: usize, g: &Graph) -> bool
    ensures { result ≡ is_some (finite.get g.now.graph.nodes (name_by c.now.ids (id_of index))) }
{
    g.is_graph();
    match node_at(c, index) {
        Some(node) => g.find(node.name.bytes()).is_some(),
        None => false,
    }
}

/// Whether each link joins an Exit of the one graph to an Entry of the other, of one shape.
fn all_join(c: &Graph, links: &[Link], g: &Graph) -> bool
    ensures { IsTrue result ↔ All (IsJoin c.now g.now) links.now }
{
    links.iter().all(|link| joins(c, link, g))
}

/// Whether the link joins an Exit of the one graph to an Entry of the other, of one shape.
fn joins(c: &Graph, link: &Link, g: &Graph) -> bool
    ensures { IsTrue result ↔ IsJoin c.now g.now link.now }
{
    if link.outer_exit {
        is_join(c, link.exit, g, link.entry)
    } else {
        is_join(g, link.exit, c, link.entry)
    }
}

/// Whether these are an Exit of the first graph and an Entry of the second, of one shape.
fn is_join(from: &Graph, exit: NodeId, to: &Graph, entry: NodeId) -> bool
    ensures { IsTrue result ↔ Joins (record { exit = name_by from.now.ids exit; entry = name_by to.now.ids entry }) (circuit_of from.now.graph) (circuit_of to.now.graph) }
{
    match (exit_shape(from, exit), entry_shape(to, entry)) {
        (Some(leaves), Some(enters)) => leaves == enters,
        _ => false,
    }
}

/// The shape of the Exit of this id. `None` exactly where no live Exit has it.
fn exit_shape(g: &Graph, id: NodeId) -> Option<&Shape>
    ensures { option_copied result ≡ exit_shape ((circuit_of g.now.graph).kind_at (name_by g.now.ids id)) }
{
    g.is_graph();
    match &g.node(id)?.kind {
        Kind::Exit(shape) => Some(shape),
        _ => None,
    }
}

/// The shape of the Entry of this id. `None` exactly where no live Entry has it.
fn entry_shape(g: &Graph, id: NodeId) -> Option<&Shape>
    ensures { option_copied result ≡ entry_shape ((circuit_of g.now.graph).kind_at (name_by g.now.ids id)) }
{
    g.is_graph();
    match &g.node(id)?.kind {
        Kind::Entry(shape) => Some(shape),
        _ => None,
    }
}

/// Whether no Exit and no Entry is an end of two links.
fn none_twice(links: &[Link]) -> bool
    ensures { IsTrue result ↔ AllPairs AreOfDifferentEnds links.now }
{
    for (index, link) in links.iter().enumerate() {
        if !differs_from_all(link, &links[index + 1..]) {
            return false;
        }
    }
    true
}

/// Whether the link has neither an Exit nor an Entry in common with any of the others.
fn differs_from_all(link: &Link, others: &[Link]) -> bool
    ensures { IsTrue result ↔ All (AreOfDifferentEnds link.now) others.now }
{
    others.iter().all(|other| have_different_ends(link, other))
}

/// Whether two links have neither an Exit nor an Entry in common.
fn have_different_ends(a: &Link, b: &Link) -> bool
    ensures { IsTrue result ↔ AreOfDifferentEnds a.now b.now }
{
    a.outer_exit != b.outer_exit || (a.exit != b.exit && a.entry != b.entry)
}
