//! Finite directed graphs.
ghost use Rattle.std.specs.Prelude.{◌≡◌, ◌<◌, ◌++◌, ◌∷◌, [], Some, length, replicate, slice_get, IfOk, OnOk, OnErr};
ghost use Rattle.digraph.specs.Edges.{IsReversed, IsWithEdge, IsWithReversed, IsWithin};

use port_types::NoMemory;
use std::alloc::Global;
use std::marker::Model;

/// The vertices to which edges lead from one vertex. Contracts see the list of them.
#[derive(Debug, Drop)]
struct Row {
    targets: Vec<usize>,
}

impl Model for Row {
    ghost use Rattle.std.specs.Prelude.{List, ℕ};
    ghost use Rattle.std.specs.Coded.{codes};

    ghost Value = { List ℕ };

    ghost coded = { Prim.hlevel codes };

    ghost view = { λ row. row.targets.items };
}

impl Row {
    /// No vertices.
    fn new(alloc: Global) -> Row
        ensures { result ≡ [] }
    {
        Row {
            targets: Vec::new(alloc),
        }
    }

    /// Puts a vertex behind the others. The only error is want of memory, and leaves them as they were.
    fn push(&mut self, target: usize) -> Result<(), NoMemory>
        ensures ok { OnOk result (self.new ≡ self.old ++ target ∷ []) }
        ensures err { OnErr result (self.new ≡ self.old) }
    {
        self.targets.push(target)?;
        Ok(())
    }

    /// The vertices in the order in which they were put in.
    fn as_slice(&self) -> &[usize]
        ensures { result.now ≡ self.now }
    {
        self.targets.as_slice()
    }
}

/// A finite directed graph, whose vertices are the numbers below how many there are. There may be several edges from one vertex to
/// another, and edges from a vertex to itself. Contracts see for each vertex the list of those to which edges lead from it.
#[derive(Debug, Drop)]
pub struct Digraph {
    rows: Vec<Row>,
}

impl Model for Digraph {
    ghost use Rattle.std.specs.Prelude.{List, ℕ};
    ghost use Rattle.std.specs.Coded.{codes};
    ghost use Rattle.digraph.specs.Edges.{IsWithin};

    ghost Value = { List (List ℕ) };

    ghost view = { λ graph. graph.rows.items };

    ghost invariant = { λ graph. IsWithin graph.rows.items };
}

impl Digraph {
    /// So many vertices, and no edge. The only error is want of memory.
    pub fn new(alloc: Global, count: usize) -> Result<Digraph, NoMemory>
        ensures { IfOk result (λ graph. graph ≡ replicate count []) }
    {
        let mut rows = Vec::new(alloc);
        for _ in 0..count {
            rows.push(Row::new(alloc))?;
        }
        Ok(Digraph { rows })
    }

    /// How many vertices there are.
    pub fn len(&self) -> usize
        ensures { result ≡ length self.now }
    {
        self.rows.len()
    }

    /// Each edge leads to a vertex.
    pub(crate) fn is_within(&self)
        ensures { IsWithin self.now }
    {
        let _ = &self.rows;
    }

    /// Adds an edge. The only error is want of memory, and leaves the graph as it was.
    pub fn add_edge(&mut self, from: usize, to: usize) -> Result<(), NoMemory>
        requires from { from < length self.old }
        requires to { to < length self.old }
        ensures ok { OnOk result (IsWithEdge self.old from to self.new) }
        ensures err { OnErr result (self.new ≡ self.old) }
    {
        self.rows[from].push(to)
    }

    /// The vertices to which edges lead from a vertex.
    pub(crate) fn row(&self, vertex: usize) -> &[usize]
        requires { vertex < length self.now }
        ensures { slice_get self.now vertex ≡ Some result.now }
    {
        self.rows[vertex].as_slice()
    }

    /// The graph with each edge turned round. The only error is want of memory.
    pub(crate) fn reversed(&self, alloc: Global) -> Result<Digraph, NoMemory>
        ensures { IfOk result (λ back. IsReversed self.now back) }
    {
        let mut back = Digraph::new(alloc, self.len())?;
        for from in 0..self.len() {
            self.add_reversed(from, &mut back)?;
        }
        Ok(back)
    }

    /// Adds the edges from one vertex, turned round. The only error is want of memory.
    fn add_reversed(&self, from: usize, back: &mut Digraph) -> Result<(), NoMemory>
        requires from { from < length self.now }
        requires size { length back.old ≡ length self.now }
        ensures { OnOk result (IsWithReversed self.now from back.old back.new) }
    {
        let _ = &self.rows;
        for to in self.row(from) {
            back.add_edge(*to, from)?;
        }
        Ok(())
    }
}
