//! The order in which a walk in depth leaves the vertices.
ghost use Rattle.std.specs.Prelude.{◌≡◌, ◌<◌, ◌++◌, ◌∷◌, [], map, length, slice_get, Some, IfOk, OnOk};
ghost use Rattle.digraph.specs.declared.leaving.Task.TheVariants.{Enter, Leave};
ghost use Rattle.digraph.specs.Leaving.{IsBegun, IsLeaveOrder, Walking, to_do};

use crate::graph::Digraph;
use port_types::NoMemory;
use std::alloc::Global;

/// What is to be done on a walk in depth.
#[derive(Clone, Copy, Debug, PartialEq, Eq)]
enum Task {
    /// Go into a vertex, unless it was entered.
    Enter(usize),
    /// Leave a vertex that was entered, behind all that edges lead to from it.
    Leave(usize),
}

/// A walk in depth: which vertices were entered, what is to be done, the next last, and which vertices were left, in this order.
#[derive(Debug, Drop)]
struct Walk {
    entered: Vec<bool>,
    tasks: Vec<Task>,
    left: Vec<usize>,
}

/// All vertices in the order in which a walk in depth leaves them. The only error is want of memory.
pub(crate) fn leave_order(alloc: Global, graph: &Digraph) -> Result<Vec<usize>, NoMemory>
    ensures { IfOk result (λ order. IsLeaveOrder graph.now order.items) }
{
    let mut walk = Walk::new(alloc, graph.len())?;
    while let Some(task) = walk.tasks.pop() {
        walk.go_on(graph, task)?;
    }
    Ok(walk.left)
}

impl Walk {
    /// A walk that is to enter each of so many vertices. The only error is want of memory.
    fn new(alloc: Global, count: usize) -> Result<Walk, NoMemory>
        ensures { IfOk result (λ walk. IsBegun count walk.entered.items walk.tasks.items walk.left.items) }
    {
        let mut tasks = Vec::new(alloc);
        for vertex in 0..count {
            tasks.push(Task::Enter(vertex))?;
        }
        Ok(Walk {
            entered: vec![in alloc; false; count]?,
            tasks,
            left: Vec::new(alloc),
        })
    }

    /// Does a task that was the last. The only error is want of memory.
    fn go_on(&mut self, graph: &Digraph, task: Task) -> Result<(), NoMemory>
        requires { Walking graph.now self.old.entered.items (self.old.tasks.items ++ task ∷ []) self.old.left.items }
        ensures walking { OnOk result (Walking graph.now self.new.entered.items self.new.tasks.items self.new.left.items) }
        ensures less { OnOk result (to_do graph.now self.new.entered.items self.new.tasks.items < to_do graph.now self.old.entered.items (self.old.tasks.items ++ task ∷ [])) }
    {
        match task {
            Task::Enter(vertex) => self.enter(graph, vertex),
            Task::Leave(vertex) => self.leave(graph, vertex),
        }
    }

    /// Enters a vertex, unless it was entered. The only error is want of memory.
    fn enter(&mut self, graph: &Digraph, vertex: usize) -> Result<(), NoMemory>
        requires { Walking graph.now self.old.entered.items (self.old.tasks.items ++ Enter vertex ∷ []) self.old.left.items }
        ensures walking { OnOk result (Walking graph.now self.new.entered.items self.new.tasks.items self.new.left.items) }
        ensures less { OnOk result (to_do graph.now self.new.entered.items self.new.tasks.items < to_do graph.now self.old.entered.items (self.old.tasks.items ++ Enter vertex ∷ [])) }
    {
        graph.is_within();
        if self.entered[vertex] {
            return Ok(());
        }
        self.entered[vertex] = true;
        self.tasks.push(Task::Leave(vertex))?;
        enter_all(&mut self.tasks, graph.row(vertex))
    }

    /// Leaves a vertex. The only error is want of memory.
    fn leave(&mut self, graph: &Digraph, vertex: usize) -> Result<(), NoMemory>
        requires { Walking graph.now self.old.entered.items (self.old.tasks.items ++ Leave vertex ∷ []) self.old.left.items }
        ensures walking { OnOk result (Walking graph.now self.new.entered.items self.new.tasks.items self.new.left.items) }
        ensures less { OnOk result (to_do graph.now self.new.entered.items self.new.tasks.items < to_do graph.now self.old.entered.items (self.old.tasks.items ++ Leave vertex ∷ [])) }
    {
        let _ = graph;
        self.left.push(vertex)?;
        Ok(())
    }
}

/// Puts in that these vertices are to be entered. The only error is want of memory.
fn enter_all(tasks: &mut Vec<Task>, vertices: &[usize]) -> Result<(), NoMemory>
    ensures { OnOk result (tasks.new.items ≡ tasks.old.items ++ map Enter vertices.now) }
{
    for vertex in vertices {
        tasks.push(Task::Enter(*vertex))?;
    }
    Ok(())
}
