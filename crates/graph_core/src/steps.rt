//! Changes of a graph, one at a time, whose memory is there.
ghost use Rattle.std.specs.Prelude.{◌≡◌, ◌+◌, ◌<◌, ◌≤◌, max, None, IfOk};
ghost use Rattle.std.specs.FinMap as finite;
ghost use Rattle.components.specs.Kind.{KindOk};
ghost use Rattle.components.specs.Name.{Name};
ghost use Rattle.components.specs.Node.{NodeOk};
ghost use Rattle.graph_core.specs.Cells.{IsNext};
ghost use Rattle.graph_core.specs.GraphValue.{Denotes, with_id, without_id};
ghost use Rattle.graph_core.specs.Inside.{IsArena, value_of};
ghost use Rattle.graph_core.specs.Made.{IsMade};

use crate::arena::take;
use crate::cells::{Cell, Cells};
use crate::names::Names;
use crate::place::NodeId;
use components::Node;
use port_types::NoMemory;
use std::alloc::Global;

/// A new node in its cell, and its name for the table.
#[derive(Debug, Drop)]
pub(crate) struct Made {
    pub name: Vec<u8>,
    pub cell: Cell,
}

/// The node in its cell, with its name. The only error is want of memory.
pub(crate) fn make(alloc: Global, node: Node) -> Result<Made, NoMemory>
    requires { KindOk node.kind }
    ensures made { IfOk result IsMade }
    ensures node { IfOk result (λ made. made.cell.node ≡ node) }
{
    let name = Vec::from_slice(alloc, node.name.bytes())?;
    let cell = Cell::new(alloc, node)?;
    Ok(Made { name, cell })
}

/// Takes a node out, with the wires at its ports. Takes no memory.
pub(crate) fn leave(cells: &mut Cells, names: &mut Names, id: NodeId)
    requires { IsArena cells.old names.old.ids }
    ensures arena { IsArena cells.new names.new.ids }
    ensures gone { (name : Name) → Denotes (value_of cells.old names.old.ids) id name →
        value_of cells.new names.new.ids ≡ without_id (value_of cells.old names.old.ids) id name }
    ensures room { names.old.room ≤ names.new.room }
{
    let _ = take(cells, names, id);
}

/// Puts a new node into a free slot and into the table, which has room for it, and answers its id. Takes no memory.
pub(crate) fn enter(cells: &mut Cells, names: &mut Names, made: Made) -> NodeId
    requires arena { IsArena cells.old names.old.ids }
    requires made { IsMade made }
    requires node { NodeOk made.cell.node }
    requires name { finite.get (value_of cells.old names.old.ids).graph.nodes made.cell.node.name ≡ None }
    requires slot { finite.len cells.old.cells < cells.old.slots }
    requires room { 1 ≤ names.old.room }
    ensures arena { IsArena cells.new names.new.ids }
    ensures value { value_of cells.new names.new.ids ≡ with_id (value_of cells.old names.old.ids) result made.cell.node }
    ensures vacant { finite.get (value_of cells.old names.old.ids).ids result ≡ None }
    ensures count { finite.len cells.new.cells ≡ finite.len cells.old.cells + 1 }
    ensures slots { cells.new.slots ≡ cells.old.slots }
    ensures room { names.old.room ≤ names.new.room + 1 }
{
    let id = fill(cells, made.cell);
    list(names, made.name, id);
    id
}

/// Puts a cell into a free slot, and answers its id.
fn fill(cells: &mut Cells, cell: Cell) -> NodeId
    requires { finite.len cells.old.cells < cells.old.slots }
    ensures vacant { finite.get cells.old.cells result ≡ None }
    ensures next { IsNext cells.old result }
    ensures cells { cells.new.cells ≡ finite.insert cells.old.cells result cell }
    ensures slots { cells.new.slots ≡ max cells.old.slots (finite.len cells.new.cells) }
{
    let Ok(id) = cells.insert(cell) else {
        unreachable!()
    };
    id
}

/// Puts an id under a name into the table, which has room for it.
fn list(names: &mut Names, name: Vec<u8>, id: NodeId)
    requires { 1 ≤ names.old.room }
    ensures ids { names.new.ids ≡ finite.insert names.old.ids name.items id }
    ensures room { names.old.room ≤ names.new.room + 1 }
{
    let Ok(()) = names.put(name, id) else {
        unreachable!()
    };
}
