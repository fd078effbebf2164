//! Changes of cells together with the names of their nodes.
ghost use Rattle.std.specs.Prelude.{◌≡◌, ◌≤◌, None, IfOk, OnErr, MatchOption, MatchResult};
ghost use Rattle.std.specs.FinMap as finite;
ghost use Rattle.components.specs.Kind.{KindOk};
ghost use Rattle.graph_core.specs.Arena.{CanLink, IsPut, KindsOk, ListsAt, Owns, RefusesLink, cut_ends, listed_at, linked, unlisted, without_wired};
ghost use Rattle.graph_core.specs.Inside.{end_at, node_at, shape_at};
ghost use Rattle.std.specs.Option.{option_copied};

use crate::cells::{Cell, Cells};
use crate::graph::AddWire;
use crate::names::Names;
use crate::place::{NodeId, PortAt};
use components::{Node, has_port, have_one_shape};
use port_types::{NoMemory, Side};

/// Puts a node into a new cell, and its name into the table. The only error is want of memory, and leaves both as they were.
pub(crate) fn put(cells: &mut Cells, names: &mut Names, node: Node) -> Result<NodeId, NoMemory>
    requires kind { KindOk node.kind }
    requires fresh { finite.get names.old.ids node.name ≡ None }
    ensures ok { IfOk result (λ id. IsPut cells.old names.old.ids id node cells.new names.new.ids) }
    ensures cells { OnErr result (cells.new ≡ cells.old) }
    ensures names { OnErr result (names.new.ids ≡ names.old.ids) }
{
    let cell = Cell::new(names.allocator(), node)?;

    // The table takes its memory before the cell's id is known.
    names.insert(cell.node.name.bytes(), NodeId::new(0))?;
    match cells.insert(cell) {
        Ok(id) => {
            list(cells, names, id);
            Ok(id)
        }
        Err(cell) => {
            names.remove(cell.node.name.bytes());
            Err(NoMemory)
        }
    }
}

/// Puts the id under the name of its node, which the table has.
fn list(cells: &Cells, names: &mut Names, id: NodeId)
    requires { ListsAt names.old.ids (finite.get cells.now.cells id) }
    ensures { names.new.ids ≡ listed_at names.old.ids id (finite.get cells.now.cells id) }
{
    if let Some(cell) = cells.get(id) {
        names.set(cell.node.name.bytes(), id);
    }
}

/// The port at the other end of the wire at a port.
pub(crate) fn end(cells: &Cells, side: Side, port: PortAt) -> Option<PortAt>
    ensures { result ≡ end_at cells.now side port }
{
    cells.get(port.node)?.end(side, port.port)
}

/// Puts two ports at the ends of each other.
pub(crate) fn link(cells: &mut Cells, source: PortAt, target: PortAt)
    ensures { cells.new ≡ linked cells.old source target }
{
    cells.set_end(Side::Outs, source, Some(target));
    cells.set_end(Side::Ins, target, Some(source));
}

/// Whether an output and an input are there, on no wire, and of one shape.
pub(crate) fn try_link(cells: &Cells, source: PortAt, target: PortAt) -> Result<(), AddWire>
    requires { KindsOk cells.now }
    ensures { MatchResult result (λ _. CanLink cells.now source target) (RefusesLink cells.now source target) }
{
    let from = owner(cells, Side::Outs, source).ok_or(AddWire::UnknownPort)?;
    let to = owner(cells, Side::Ins, target).ok_or(AddWire::UnknownPort)?;
    if end(cells, Side::Ins, target).is_some() || end(cells, Side::Outs, source).is_some() {
        return Err(AddWire::PortTaken);
    }
    if have_one_shape(&from.kind, source.port, &to.kind, target.port) {
        Ok(())
    } else {
        Err(AddWire::ShapeDiffers)
    }
}

/// The node that has this port, or `None` where there is no such port.
fn owner(cells: &Cells, side: Side, port: PortAt) -> Option<&Node>
    requires { KindsOk cells.now }
    ensures { MatchOption (option_copied result) (shape_at cells.now side port ≡ None) (Owns cells.now side port) }
{
    let node = &cells.get(port.node)?.node;
    if has_port(&node.kind, side, port.port) {
        Some(node)
    } else {
        None
    }
}

/// Takes the node of this id out, with its name and the wires at its ports. Takes no memory.
pub(crate) fn take(cells: &mut Cells, names: &mut Names, id: NodeId) -> Option<Node>
    ensures node { result ≡ node_at cells.old id }
    ensures cells { cells.new ≡ without_wired cells.old id (finite.get cells.old.cells id) }
    ensures names { names.new.ids ≡ unlisted names.old.ids (finite.get cells.old.cells id) }
    ensures room { names.old.room ≤ names.new.room }
{
    let Cell { node, ins, outs } = cells.remove(id)?;
    names.remove(node.name.bytes());
    cut_all(cells, Side::Outs, ins.as_slice());
    cut_all(cells, Side::Ins, outs.as_slice());
    Some(node)
}

/// Takes away what stands at the other ends of these ports.
fn cut_all(cells: &mut Cells, side: Side, ends: &[Option<PortAt>])
    ensures { cells.new ≡ cut_ends cells.old side ends.now }
{
    for end in ends {
        if let Some(port) = end {
            cells.set_end(side, *port, None);
        }
    }
}
