//! The nodes of a graph that go where a rule is applied.
ghost use Rattle.std.specs.Prelude.{◌≡◌, ◌≢◌, IfOk, MatchOption};
ghost use Rattle.subst_engine.specs.PartLists.{AreGone, HasNodesOf, IsInnerAt};
ghost use Rattle.components.specs.Name.{Name};
ghost use Rattle.graph_core.specs.GraphValue.{Denotes};

use crate::named::is_inner;
use graph_core::{Graph, NodeId};
use port_types::NoMemory;
use std::alloc::Global;

/// The ids in the graph of the inner nodes of `left`. The only error is want of memory.
pub(crate) fn gone_ids(alloc: Global, g: &Graph, left: &Graph) -> Result<Vec<NodeId>, NoMemory>
    requires { HasNodesOf g.now.graph left.now.graph }
    ensures { IfOk result (λ gone. AreGone g.now left.now.graph gone.items) }
{
    g.is_graph();
    left.is_graph();
    let mut gone = Vec::new(alloc);
    for index in 0..left.slots() {
        if let Some(id) = gone_id(g, left, index) {
            gone.push(id)?;
        }
    }
    Ok(gone)
}

/// The id in the graph of the inner node of `left` with this index.
fn gone_id(g: &Graph, left: &Graph, index: usize) -> Option<NodeId>
    requires { HasNodesOf g.now.graph left.now.graph }
    ensures { MatchOption result
        ((name : Name) → ¬ (IsInnerAt left.now index name))
        (λ id. (name : Name) × IsInnerAt left.now index name × Denotes g.now id name) }
{
    left.is_graph();
    let node = left.node(left.id_at(index)?)?;
    if is_inner(&node.kind) {
        g.find(node.name.bytes())
    } else {
        None
    }
}
