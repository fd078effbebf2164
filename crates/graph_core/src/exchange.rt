//! Some nodes of a graph in the places of others. All memory is taken before the first change.
ghost use Rattle.std.specs.Prelude.{◌≡◌, ◌+◌, ◌<◌, ◌≤◌, ◌++◌, ◌∷◌, [], length, map, IfOk, OnOk, OnErr, All, vec_len, vec_capacity};
ghost use Rattle.std.specs.FinMap as finite;
ghost use Rattle.components.specs.Kind.{KindOk};
ghost use Rattle.graph_core.specs.Exchange.{CanExchange, IsExchanged};
ghost use Rattle.graph_core.specs.Inside.{IsArena, value_of};
ghost use Rattle.graph_core.specs.Made.{IsMade, node_of};
ghost use Rattle.graph_core.specs.Names.{IdsByName};
ghost use Rattle.graph_core.specs.Steps.{ArePut, AreJoined, AreDenoted, CanAdd, IsEndWithin, place_of, without_ids};

use crate::arena::link;
use crate::cells::Cells;
use crate::names::Names;
use crate::place::{NodeId, PortAt};
use crate::steps::{Made, enter, leave, make};
use components::Node;
use port_types::NoMemory;
use std::alloc::Global;

/// A port at an end of a new wire.
#[derive(Clone, Copy, Debug, PartialEq, Eq)]
pub enum End {
    /// A port of a node that stays.
    Old(PortAt),
    /// A port of a new node: the node's place among the new ones, counted from 0, and the number of the port.
    Fresh(usize, u8),
}

/// Puts some nodes into the places of others. The only error is want of memory, and leaves the graph as it was.
pub(crate) fn exchange(
    cells: &mut Cells,
    names: &mut Names,
    gone: &[NodeId],
    fresh: Vec<Node>,
    wires: &[(End, End)],
) -> Result<(), NoMemory>
    requires arena { IsArena cells.old names.old.ids }
    requires can { CanExchange (value_of cells.old names.old.ids) gone.now fresh.items wires.now }
    ensures arena { IsArena cells.new names.new.ids }
    ensures ok { OnOk result (IsExchanged (value_of cells.old names.old.ids) gone.now fresh.items wires.now (value_of cells.new names.new.ids)) }
    ensures err { OnErr result (value_of cells.new names.new.ids ≡ value_of cells.old names.old.ids) }
{
    cells.within();
    let alloc = names.allocator();
    let made = make_all(alloc, fresh)?;
    let mut ids = Vec::with_capacity(alloc, made.len())?;
    names.reserve(made.len())?;
    cells.make_free(made.len().saturating_sub(gone.len()))?;
    take_all(cells, names, gone);
    put_all(cells, names, made, &mut ids);
    link_all(cells, &ids, wires);
    cells.within();
    Ok(())
}

/// The nodes in their cells. The only error is want of memory.
fn make_all(alloc: Global, nodes: Vec<Node>) -> Result<Vec<Made>, NoMemory>
    requires { All (λ node. KindOk node.kind) nodes.items }
    ensures made { IfOk result (λ made. All IsMade made.items) }
    ensures nodes { IfOk result (λ made. map node_of made.items ≡ nodes.items) }
{
    let mut all = Vec::new(alloc);
    for node in nodes {
        all.push(make(alloc, node)?)?;
    }
    Ok(all)
}

/// Takes nodes out. Takes no memory.
fn take_all(cells: &mut Cells, names: &mut Names, gone: &[NodeId])
    requires arena { IsArena cells.old names.old.ids }
    requires denoted { AreDenoted (value_of cells.old names.old.ids).ids (value_of cells.old names.old.ids) gone.now }
    ensures arena { IsArena cells.new names.new.ids }
    ensures gone { value_of cells.new names.new.ids ≡ without_ids (value_of cells.old names.old.ids).ids (value_of cells.old names.old.ids) gone.now }
    ensures room { names.old.room ≤ names.new.room }
{
    for id in gone {
        leave(cells, names, *id);
    }
}

/// Puts new nodes into free slots and into the table, which have room for them, and their ids in order into a list that has too.
fn put_all(cells: &mut Cells, names: &mut Names, made: Vec<Made>, ids: &mut Vec<NodeId>)
    requires arena { IsArena cells.old names.old.ids }
    requires made { All IsMade made.items }
    requires can { CanAdd (value_of cells.old names.old.ids).graph (map node_of made.items) }
    requires room { length made.items ≤ names.old.room }
    requires slots { finite.len cells.old.cells + length made.items ≤ cells.old.slots }
    requires none { ids.old.items ≡ [] }
    requires list { vec_len ids.old + length made.items ≤ vec_capacity ids.old }
    ensures arena { IsArena cells.new names.new.ids }
    ensures put { ArePut (value_of cells.old names.old.ids) (map node_of made.items) ids.new.items (value_of cells.new names.new.ids) }
{
    for one in made {
        let id = enter(cells, names, one);
        push(ids, id);
    }
}

/// Puts an id behind a list that has room for it.
fn push(ids: &mut Vec<NodeId>, id: NodeId)
    requires { vec_len ids.old < vec_capacity ids.old }
    ensures items { ids.new.items ≡ ids.old.items ++ id ∷ [] }
    ensures len { vec_len ids.new ≡ vec_len ids.old + 1 }
    ensures room { vec_capacity ids.old ≤ vec_capacity ids.new }
{
    let Ok(()) = ids.push(id) else { unreachable!() };
}

/// Joins the ends of new wires, where the new nodes have these ids. Takes no memory.
fn link_all(cells: &mut Cells, ids: &[NodeId], wires: &[(End, End)])
    requires { All (λ w. IsEndWithin (length ids.now) w.0 × IsEndWithin (length ids.now) w.1) wires.now }
    ensures { (table : IdsByName) → AreJoined cells.old table ids.now wires.now cells.new }
{
    for wire in wires {
        link(cells, place(ids, &wire.0), place(ids, &wire.1));
    }
}

/// The port at an end, where the new nodes have these ids.
fn place(ids: &[NodeId], end: &End) -> PortAt
    requires { IsEndWithin (length ids.now) end.now }
    ensures { result ≡ place_of ids.now end.now }
{
    match end {
        End::Old(port) => *port,
        End::Fresh(index, port) => PortAt {
            node: ids[*index],
            port: *port,
        },
    }
}
