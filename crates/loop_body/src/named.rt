//! Whether the names and the kept attributes of nodes are right.
ghost use Rattle.std.specs.Prelude.{◌↔◌, IsTrue, IfOk, All};
ghost use Rattle.components.specs.Name.{IsName};
ghost use Rattle.components.specs.Node.{IsOwned, KeptOk};

use crate::different::have_different_keys;
use components::{Kind, Node, is_name, owns};
use port_types::{NoMemory, Text};
use std::alloc::Global;

/// Whether nodes of the kind own none of the keys.
fn owns_none(kind: &Kind, pairs: &[(Text, Text)]) -> bool
    ensures { IsTrue result ↔ All (λ pair. ¬ (IsOwned kind.now pair.0)) pairs.now }
{
    pairs.iter().all(|pair| !owns(kind, pair.0.bytes()))
}

/// Whether a node of the kind may keep the pairs.
fn may_keep(alloc: Global, kind: &Kind, pairs: &[(Text, Text)]) -> Result<bool, NoMemory>
    ensures { IfOk result (λ may. IsTrue may ↔ KeptOk kind.now pairs.now) }
{
    Ok(owns_none(kind, pairs) && have_different_keys(alloc, pairs)?)
}

/// Whether the node has a name, and may keep what it keeps.
fn is_named(alloc: Global, node: &Node) -> Result<bool, NoMemory>
    ensures { IfOk result (λ is. IsTrue is ↔ IsName node.now.name × KeptOk node.now.kind node.now.kept) }
{
    Ok(is_name(&node.name) && may_keep(alloc, &node.kind, node.kept.as_slice())?)
}

/// Whether each node has a name, and may keep what it keeps.
pub(crate) fn are_named(alloc: Global, nodes: &[Node]) -> Result<bool, NoMemory>
    ensures { IfOk result (λ are. IsTrue are ↔ All (λ node. IsName node.name × KeptOk node.kind node.kept) nodes.now) }
{
    for node in nodes {
        if !is_named(alloc, node)? {
            return Ok(false);
        }
    }
    Ok(true)
}
