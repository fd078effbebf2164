//! The least node by name.
ghost use Rattle.std.specs.Prelude.{◌≡◌, ◌↔◌, IfSome, IsTrue};
ghost use Rattle.graph_core.specs.GraphValue.{Denotes, name_by};
ghost use Rattle.loop_laws.specs.BodyOrder.{IsBefore};
ghost use Rattle.loop_find.specs.Judging.{IsEarlier, IsJudged, IsLesser};
ghost use Rattle.loop_find.specs.Walks.{AreLive, Has};

use crate::node_set::NodeSet;
use graph_core::{Graph, NodeId};

/// The node of the set whose name is the least in byte order. `None` exactly where the set is empty.
pub(crate) fn least(g: &Graph, set: &NodeSet) -> Option<NodeId>
    requires { AreLive g.now set.now.ids }
    ensures { IsJudged g.now (Has g.now set.now.ids) result }
{
    g.is_graph();
    let mut found = set.get(0)?;
    let mut next = 1;
    while next < set.len() {
        set.fits();
        found = lesser(g, found, set.at(next));
        next += 1;
    }
    Some(found)
}

/// The one of the two nodes, where there are two, whose name is before that of the other, and else the one that there is.
pub(crate) fn earlier(g: &Graph, one: Option<NodeId>, other: Option<NodeId>) -> Option<NodeId>
    requires one { IfSome one (λ id. Denotes g.now id (name_by g.now.ids id)) }
    requires other { IfSome other (λ id. Denotes g.now id (name_by g.now.ids id)) }
    ensures { IsEarlier g.now one other result }
{
    match (one, other) {
        (Some(one), Some(other)) => Some(lesser(g, one, other)),
        (Some(one), None) => Some(one),
        (None, other) => other,
    }
}

/// The one of the two whose name is before that of the other.
fn lesser(g: &Graph, one: NodeId, other: NodeId) -> NodeId
    requires one { Denotes g.now one (name_by g.now.ids one) }
    requires other { Denotes g.now other (name_by g.now.ids other) }
    ensures { IsLesser g.now one other result }
{
    g.is_graph();
    if is_before(g, other, one) { other } else { one }
}

/// Whether the name of the one node is before that of the other.
pub(crate) fn is_before(g: &Graph, one: NodeId, other: NodeId) -> bool
    requires one { Denotes g.now one (name_by g.now.ids one) }
    requires other { Denotes g.now other (name_by g.now.ids other) }
    ensures { IsTrue result ↔ IsBefore (name_by g.now.ids one) (name_by g.now.ids other) }
{
    precedes(name_of(g, one), name_of(g, other))
}

/// The name of the node.
pub(crate) fn name_of(g: &Graph, id: NodeId) -> &[u8]
    requires { Denotes g.now id (name_by g.now.ids id) }
    ensures { result.now ≡ name_by g.now.ids id }
{
    g.is_graph();
    match g.node(id) {
        Some(node) => node.name.bytes(),
        None => unreachable!(),
    }
}

/// Whether the one name is before the other.
fn precedes(one: &[u8], other: &[u8]) -> bool
    ensures { IsTrue result ↔ IsBefore one.now other.now }
{
    one.cmp(other).is_lt()
}
