//! Nodes by id, in slots.
ghost use Rattle.std.specs.Prelude.{◌≡◌, ℕ, None, Some, IsOk, IfOk, IfErr, OnOk, OnErr, ◌<◌, ◌≤◌, ◌+◌, ◌++◌, ◌∷◌, [], length, max, min, vec_len, vec_capacity, slice_get, slice_set};
ghost use Rattle.std.specs.Option.{option_copied};
ghost use Rattle.std.specs.FinMap as map_of;
ghost use Rattle.graph_core.specs.declared.place.NodeId.{NodeId};
ghost use Rattle.graph_core.specs.declared.cells.Cell.{Cell};
ghost use Rattle.graph_core.specs.Cells.{IsNext, bare, cell_with, ends, with_end, without_cell};
ghost use Rattle.components.specs.Kind.{KindOk};
ghost use Rattle.graph_core.specs.Ends.{end_of};
ghost use Rattle.graph_core.specs.Place.{id_of, index_of};
ghost use Rattle.graph_core.specs.Slots.{IsChain, IsChained, cell_in, next_in, shown, slot_with, with_end_in};

use crate::ends::Ends;
use crate::place::{NodeId, PortAt};
use components::{Kind, Node, inputs, outputs};
use port_types::{Items, NoMemory, Side, Text};
use std::alloc::Global;
use std::marker::Model;
use std::mem;

/// A node, and by its ports what stands at the other ends of their wires.
#[derive(Debug, Drop)]
pub(crate) struct Cell {
    pub node: Node,
    pub ins: Ends,
    pub outs: Ends,
}

/// A place for a cell, or, where it is free, the next free one.
#[derive(Debug, Drop)]
pub(crate) enum Slot {
    Live(Cell),
    Free(Option<usize>),
}

impl Cell {
    /// The node with no wire at its ports. The only error is want of memory.
    pub(crate) fn new(alloc: Global, node: Node) -> Result<Cell, NoMemory>
        requires { KindOk node.kind }
        ensures { IfOk result (λ cell. cell ≡ bare node) }
    {
        let ins = Ends::new(alloc, inputs(&node.kind))?;
        let outs = Ends::new(alloc, outputs(&node.kind))?;
        Ok(Cell { node, ins, outs })
    }

    /// An equal cell of its own. The only error is want of memory.
    fn copy(&self) -> Result<Cell, NoMemory>
        ensures { IfOk result (λ copy. copy ≡ self.now) }
    {
        let node = copy_node(&self.node)?;
        let ins = self.ins.copy()?;
        let outs = self.outs.copy()?;
        Ok(Cell { node, ins, outs })
    }

    /// The port at the other end of the wire at a port.
    pub(crate) fn end(&self, side: Side, port: u8) -> Option<PortAt>
        ensures { result ≡ end_of (ends self.now side) port }
    {
        match side {
            Side::Ins => self.ins.get(port),
            Side::Outs => self.outs.get(port),
        }
    }

    /// Puts a port at the other end of a port, or none.
    fn set_end(&mut self, side: Side, port: u8, end: Option<PortAt>)
        ensures { self.new ≡ cell_with self.old side port end }
    {
        match side {
            Side::Ins => self.ins.set(port, end),
            Side::Outs => self.outs.set(port, end),
        }
    }
}

impl Slot {
    /// An equal slot of its own. The only error is want of memory.
    fn copy(&self) -> Result<Slot, NoMemory>
        ensures { IfOk result (λ copy. copy ≡ self.now) }
    {
        Ok(match self {
            Slot::Live(cell) => Slot::Live(cell.copy()?),
            Slot::Free(next) => Slot::Free(*next),
        })
    }

    /// Puts a port at the other end of a port, or none.
    fn set_end(&mut self, side: Side, port: u8, end: Option<PortAt>)
        ensures { self.new ≡ slot_with self.old side port end }
    {
        if let Slot::Live(cell) = self {
            cell.set_end(side, port, end);
        }
    }
}

/// Cells by id. The free slots are a chain from `free` on.
#[derive(Debug, Drop)]
pub(crate) struct Cells {
    slots: Vec<Slot>,
    free: Option<usize>,
}

impl Model for Cells {
    ghost use Rattle.graph_core.specs.Cells.{CellsValue, cells_code};
    ghost use Rattle.graph_core.specs.Slots.{shown, IsChained};

    ghost Value = { CellsValue };

    ghost coded = { cells_code };

    ghost view = { λ c. shown c.slots.items };

    ghost invariant = { λ c. IsChained c.slots.items c.free };
}

impl Cells {
    /// No slots. It keeps the allocator and takes no memory.
    pub(crate) fn new(alloc: Global) -> Cells
        ensures cells { result.cells ≡ map_of.empty }
        ensures slots { result.slots ≡ 0 }
    {
        Cells {
            slots: Vec::new(alloc),
            free: None,
        }
    }

    /// The cell of this id.
    pub(crate) fn get(&self, id: NodeId) -> Option<&Cell>
        ensures { option_copied result ≡ map_of.get self.now.cells id }
    {
        cell_at(&self.slots, id.index())
    }

    /// The same cells again, under the same ids. The only error is want of memory.
    pub(crate) fn copy(&self, alloc: Global) -> Result<Cells, NoMemory>
        ensures { IfOk result (λ copy. copy ≡ self.now) }
    {
        let slots = copy_slots(alloc, &self.slots)?;
        Ok(Cells {
            slots,
            free: self.free,
        })
    }

    /// Each cell stands in a slot.
    pub(crate) fn within(&self)
        ensures within { (id : NodeId) (cell : Cell) → map_of.get self.now.cells id ≡ Some cell → index_of id < self.now.slots }
        ensures room { map_of.len self.now.cells ≤ self.now.slots }
    {
        let _ = &self.slots;
    }

    /// How many slots there are.
    pub(crate) fn slots(&self) -> usize
        ensures { result ≡ self.now.slots }
    {
        self.slots.len()
    }

    /// Puts the cell under a new id: into a free slot, or into a new one where none is free. Want of memory gives the cell back, and leaves all as it was.
    pub(crate) fn insert(&mut self, cell: Cell) -> Result<NodeId, Cell>
        ensures back { IfErr result (λ back. back ≡ cell) }
        ensures vacant { IfOk result (λ id. map_of.get self.old.cells id ≡ None) }
        ensures next { IfOk result (IsNext self.old) }
        ensures cells { IfOk result (λ id. self.new.cells ≡ map_of.insert self.old.cells id cell) }
        ensures slots { OnOk result (self.new.slots ≡ max self.old.slots (map_of.len self.new.cells)) }
        ensures err { OnErr result (self.new ≡ self.old) }
        ensures sure { map_of.len self.old.cells < self.old.slots → IsOk result }
    {
        match self.free {
            None => {
                let index = self.slots.len();
                push_cell(&mut self.slots, cell)?;
                Ok(NodeId::new(index))
            }
            Some(index) => {
                self.free = next_at(&self.slots, index);
                put_at(&mut self.slots, index, Slot::Live(cell));
                Ok(NodeId::new(index))
            }
        }
    }

    /// Makes new slots until so many are free. The only error is want of memory, and leaves all as it was.
    pub(crate) fn make_free(&mut self, count: usize) -> Result<(), NoMemory>
        ensures cells { OnOk result (self.new.cells ≡ self.old.cells) }
        ensures slots { OnOk result (self.new.slots ≡ max self.old.slots (map_of.len self.old.cells + count)) }
        ensures err { OnErr result (self.new ≡ self.old) }
    {
        let more = count - free_within(&self.slots, self.free, count);
        self.slots.reserve(more)?;
        self.free = grow(&mut self.slots, self.free, more);
        Ok(())
    }

    /// Takes out the cell of this id; its slot is then the first free one. Takes no memory.
    pub(crate) fn remove(&mut self, id: NodeId) -> Option<Cell>
        ensures cell { result ≡ map_of.get self.old.cells id }
        ensures gone { self.new ≡ without_cell self.old id }
    {
        self.get(id)?;
        let taken = put_at(&mut self.slots, id.index(), Slot::Free(self.free));
        self.free = Some(id.index());
        cell_of(taken)
    }

    /// Puts a port at the other end of a port, or none.
    pub(crate) fn set_end(&mut self, side: Side, port: PortAt, end: Option<PortAt>)
        ensures { self.new ≡ with_end self.old side port end }
    {
        set_end_in(&mut self.slots, side, port, end);
    }
}

/// The cell in this slot.
fn cell_at(slots: &[Slot], index: usize) -> Option<&Cell>
    ensures { option_copied result ≡ cell_in (slice_get slots.now index) }
{
    match slots.get(index) {
        Some(Slot::Live(cell)) => Some(cell),
        _ => None,
    }
}

/// The free slot that this free slot names.
fn next_at(slots: &[Slot], index: usize) -> Option<usize>
    ensures { result ≡ next_in (slice_get slots.now index) }
{
    match slots.get(index) {
        Some(Slot::Free(next)) => *next,
        _ => None,
    }
}

/// The cell that stood in a slot.
fn cell_of(slot: Option<Slot>) -> Option<Cell>
    ensures { result ≡ cell_in slot }
{
    match slot {
        Some(Slot::Live(cell)) => Some(cell),
        _ => None,
    }
}

/// How many free slots there are on the chain, where they are no more than `most`.
fn free_within(slots: &[Slot], free: Option<usize>, most: usize) -> usize
    ensures { (n : ℕ) → IsChain slots.now n free → result ≡ min most n }
{
    let mut at = free;
    for count in 0..most {
        let Some(index) = at else {
            return count;
        };
        at = next_at(slots, index);
    }
    most
}

/// Puts so many new slots before the free ones, for which there is room. Takes no memory.
fn grow(slots: &mut Vec<Slot>, free: Option<usize>, more: usize) -> Option<usize>
    requires chained { IsChained slots.old.items free }
    requires room { vec_len slots.old + more ≤ vec_capacity slots.old }
    ensures chained { IsChained slots.new.items result }
    ensures cells { (shown slots.new.items).cells ≡ (shown slots.old.items).cells }
    ensures count { length slots.new.items ≡ length slots.old.items + more }
{
    let mut first = free;
    for done in 0..more {
        let index = slots.len();
        let Ok(()) = slots.push(Slot::Free(first)) else {
            unreachable!()
        };
        first = Some(index);
    }
    first
}

/// Puts a cell into a new slot.
fn push_cell(slots: &mut Vec<Slot>, cell: Cell) -> Result<(), Cell>
    ensures back { IfErr result (λ back. back ≡ cell) }
    ensures ok { OnOk result (slots.new.items ≡ slots.old.items ++ Slot.Live cell ∷ []) }
    ensures err { OnErr result (slots.new.items ≡ slots.old.items) }
{
    match slots.push(Slot::Live(cell)) {
        Ok(()) => Ok(()),
        Err(failed) => match failed.value {
            Slot::Live(cell) => Err(cell),
            Slot::Free(_) => unreachable!(),
        },
    }
}

/// Puts something into a slot, and answers what stood there.
fn put_at(slots: &mut Vec<Slot>, index: usize, slot: Slot) -> Option<Slot>
    ensures old { result ≡ slice_get slots.old.items index }
    ensures new { slots.new.items ≡ slice_set slots.old.items index slot }
{
    Some(mem::replace(slots.get_mut(index)?, slot))
}

/// Puts a port at the other end of a port, or none.
fn set_end_in(slots: &mut Vec<Slot>, side: Side, port: PortAt, end: Option<PortAt>)
    ensures { slots.new.items ≡ with_end_in slots.old.items side port end }
{
    if let Some(slot) = slots.get_mut(port.node.index()) {
        slot.set_end(side, port.port, end);
    }
}

/// Equal slots of their own.
fn copy_slots(alloc: Global, slots: &[Slot]) -> Result<Vec<Slot>, NoMemory>
    ensures { IfOk result (λ copies. copies.items ≡ slots.now) }
{
    let mut copies = Vec::new(alloc);
    for slot in slots {
        copies.push(slot.copy()?)?;
    }
    Ok(copies)
}

/// An equal node of its own. The only error is want of memory.
fn copy_node(node: &Node) -> Result<Node, NoMemory>
    ensures { IfOk result (λ copy. copy ≡ node.now) }
{
    let name = node.name.clone()?;
    let kind = copy_kind(&node.kind)?;
    let kept = copy_kept(&node.kept)?;
    Ok(Node { name, kind, kept })
}

fn copy_kind(kind: &Kind) -> Result<Kind, NoMemory>
    ensures { IfOk result (λ copy. copy ≡ kind.now) }
{
    Ok(kind.clone()?)
}

fn copy_kept(kept: &Items<(Text, Text)>) -> Result<Items<(Text, Text)>, NoMemory>
    ensures { IfOk result (λ copy. copy ≡ kept.now) }
{
    Ok(kept.clone()?)
}
