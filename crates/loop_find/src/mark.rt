//! The marks of a graph.
ghost use Rattle.std.specs.Prelude.{◌≡◌, IfOk, filter};
ghost use Rattle.loop_find.specs.Marks.{AreMarks, is_marked};

use crate::named::kind_of;
use components::Kind;
use graph_core::{Graph, NodeId};
use port_types::NoMemory;
use std::alloc::Global;

/// The marks of the graph, which are its Inits that ask for tags, in byte order of their names. The only error is want of memory.
pub fn marks(alloc: Global, g: &Graph) -> Result<Vec<NodeId>, NoMemory>
    ensures { IfOk result (λ marks. AreMarks g.now marks.items) }
{
    g.is_graph();
    let ids = g.by_name(alloc)?;
    marked(alloc, g, ids.as_slice())
}

/// Those of the nodes that are marks.
fn marked(alloc: Global, g: &Graph, ids: &[NodeId]) -> Result<Vec<NodeId>, NoMemory>
    ensures { IfOk result (λ marks. marks.items ≡ filter (is_marked g.now) ids.now) }
{
    Ok(
        ids.iter()
            .copied()
            .filter(|id| is_mark(g, *id))
            .collect(alloc)?,
    )
}

/// Whether the node is an Init that asks for tags.
fn is_mark(g: &Graph, id: NodeId) -> bool
    ensures { result ≡ is_marked g.now id }
{
    match kind_of(g, id) {
        Some(Kind::Init(_, tags)) => *tags >= 1,
        _ => false,
    }
}
