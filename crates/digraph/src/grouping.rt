//! Which vertices lie on cycles, told group by group of vertices that lead to one another.
ghost use Rattle.std.specs.Prelude.{◌≡◌, ◌↔◌, ◌<◌, ◌+◌, IsTrue, ℕ, Some, false, length, slice_get, IfOk, OnOk};
ghost use Rattle.digraph.specs.Cycles.{TellsCycles};
ghost use Rattle.digraph.specs.Edges.{HasEdge, IsReversed};
ghost use Rattle.digraph.specs.Grouping.{AreNone, Gathering, Gathers, GathersOne, Grouping, IsCyclic, Stands, Tells};
ghost use Rattle.digraph.specs.Leaving.{IsLeaveOrder};

use crate::graph::Digraph;
use crate::leaving::leave_order;
use port_types::NoMemory;
use std::alloc::Global;

/// For each vertex whether it lies on a cycle: whether edges, at least one, lead from it back to it. The time is linear in the number
/// of vertices and edges. The only error is want of memory.
pub fn on_cycles(alloc: Global, graph: &Digraph) -> Result<Vec<bool>, NoMemory>
    ensures { IfOk result (λ told. TellsCycles graph.now told.items) }
{
    let order = leave_order(alloc, graph)?;
    let back = graph.reversed(alloc)?;
    let mut groups = Groups::new(alloc, graph.len())?;
    let mut place = order.len();
    while place > 0 {
        place -= 1;
        groups.add(alloc, graph, &back, &order, place)?;
    }
    Ok(groups.told)
}

/// Which vertices are in groups, and which of these lie on cycles.
#[derive(Debug, Drop)]
struct Groups {
    grouped: Vec<bool>,
    told: Vec<bool>,
}

impl Groups {
    /// So many vertices, none in a group. The only error is want of memory.
    fn new(alloc: Global, count: usize) -> Result<Groups, NoMemory>
        ensures { IfOk result (λ groups. AreNone count groups.grouped.items groups.told.items) }
    {
        Ok(Groups {
            grouped: vec![in alloc; false; count]?,
            told: vec![in alloc; false; count]?,
        })
    }

    /// Adds the group of the vertex at this place of the order, unless it is in one. The only error is want of memory.
    fn add(
        &mut self,
        alloc: Global,
        graph: &Digraph,
        back: &Digraph,
        order: &[usize],
        place: usize,
    ) -> Result<(), NoMemory>
        requires order { IsLeaveOrder graph.now order.now }
        requires back { IsReversed graph.now back.now }
        requires place { place < length order.now }
        requires so_far { Grouping graph.now order.now (place + 1) self.old.grouped.items self.old.told.items }
        ensures { OnOk result (Grouping graph.now order.now place self.new.grouped.items self.new.told.items) }
    {
        let root = order[place];
        if self.grouped[root] {
            return Ok(());
        }
        let group = gather(alloc, back, root, &mut self.grouped)?;
        let cyclic = is_cyclic(graph, root, &group);
        tell(&mut self.told, &group, cyclic);
        Ok(())
    }
}

/// Marks the vertices to which edges lead from a root, of those that have no mark. Answers them, the root first. The only error is
/// want of memory.
fn gather(
    alloc: Global,
    back: &Digraph,
    root: usize,
    grouped: &mut Vec<bool>,
) -> Result<Vec<usize>, NoMemory>
    requires root { slice_get grouped.old.items root ≡ Some false }
    requires size { length grouped.old.items ≡ length back.now }
    ensures { IfOk result (λ group. Gathering back.now root grouped.old.items grouped.new.items group.items (length group.items)) }
{
    back.is_within();
    let mut group = Vec::new(alloc);
    grouped[root] = true;
    group.push(root)?;
    let mut next = 0;
    while next < group.len() {
        let row = back.row(group[next]);
        gather_row(row, grouped, &mut group)?;
        next += 1;
    }
    Ok(group)
}

/// Marks the vertices of a row, and puts those that had no mark behind the others. The only error is want of memory.
fn gather_row(
    row: &[usize],
    grouped: &mut Vec<bool>,
    group: &mut Vec<usize>,
) -> Result<(), NoMemory>
    requires { (k v : ℕ) → slice_get row.now k ≡ Some v → v < length grouped.old.items }
    ensures { OnOk result (Gathers row.now (length row.now) grouped.old.items group.old.items grouped.new.items group.new.items) }
{
    for vertex in row {
        gather_one(*vertex, grouped, group)?;
    }
    Ok(())
}

/// Marks a vertex, and puts it behind the others if it had no mark. The only error is want of memory.
fn gather_one(
    vertex: usize,
    grouped: &mut Vec<bool>,
    group: &mut Vec<usize>,
) -> Result<(), NoMemory>
    requires { vertex < length grouped.old.items }
    ensures { OnOk result (GathersOne vertex grouped.old.items group.old.items grouped.new.items group.new.items) }
{
    if !grouped[vertex] {
        grouped[vertex] = true;
        group.push(vertex)?;
    }
    Ok(())
}

/// Whether a group lies on cycles: it has two vertices, or an edge leads from its root to its root.
fn is_cyclic(graph: &Digraph, root: usize, group: &[usize]) -> bool
    requires { root < length graph.now }
    ensures { IsTrue result ↔ IsCyclic graph.now root group.now }
{
    group.len() > 1 || has_edge(graph, root, root)
}

/// Whether an edge leads from one vertex to another.
fn has_edge(graph: &Digraph, from: usize, to: usize) -> bool
    requires { from < length graph.now }
    ensures { IsTrue result ↔ HasEdge graph.now from to }
{
    for target in graph.row(from) {
        if *target == to {
            return true;
        }
    }
    false
}

/// Tells of each vertex of a group whether it lies on a cycle.
fn tell(told: &mut Vec<bool>, group: &[usize], cyclic: bool)
    requires { (v : ℕ) → Stands group.now v → v < length told.old.items }
    ensures { Tells group.now cyclic told.old.items told.new.items }
{
    for vertex in group {
        told[*vertex] = cyclic;
    }
}
