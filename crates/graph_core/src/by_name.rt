//! The ids of nodes in the order of their names.
ghost use Rattle.std.specs.Prelude.{IfOk};
ghost use Rattle.graph_core.specs.GraphValue.{AreInOrder};

use crate::graph::Graph;
use crate::place::NodeId;
use port_types::NoMemory;
use std::alloc::Global;
use std::collections::BTreeMap;

/// The ids of the live nodes in the byte order of their names. The only error is want of memory.
pub(crate) fn ids_by_name(alloc: Global, g: &Graph) -> Result<Vec<NodeId>, NoMemory>
    ensures { IfOk result (λ ids. AreInOrder g.now ids.items) }
{
    g.is_graph();
    let mut ids = BTreeMap::new(alloc);
    for index in 0..g.slots() {
        let id = NodeId::new(index);
        if let Some(node) = g.node(id) {
            ids.insert(node.name.bytes(), id)?;
        }
    }
    Ok(ids.into_values().collect(alloc)?)
}
