//! Nodes of sets in the byte order of their names.
ghost use Rattle.std.specs.Prelude.{IfOk};
ghost use Rattle.loop_find.specs.NameOrders.{AreByName};
ghost use Rattle.loop_find.specs.Walks.{AreLive};

use crate::least::name_of;
use crate::node_set::NodeSet;
use graph_core::{Graph, NodeId};
use port_types::NoMemory;
use std::alloc::Global;
use std::collections::BTreeMap;

/// The nodes of the set in byte order of their names. The only error is want of memory.
pub(crate) fn by_name(alloc: Global, g: &Graph, set: &NodeSet) -> Result<Vec<NodeId>, NoMemory>
    requires { AreLive g.now set.now.ids }
    ensures { IfOk result (λ ids. AreByName g.now set.now.ids ids.items) }
{
    g.is_graph();
    let mut names = BTreeMap::new(alloc);
    let mut next = 0;
    while next < set.len() {
        set.fits();
        let id = set.at(next);
        names.insert(name_of(g, id), id)?;
        next += 1;
    }
    Ok(names.into_values().collect(alloc)?)
}
