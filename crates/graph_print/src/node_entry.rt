//! The statement of a node. The only error of each call is want of memory.

ghost use Rattle.std.specs.Prelude.{◌≡◌, IfOk};
ghost use Rattle.components.specs.Node.{NodeOk, body_of, named};
ghost use Rattle.graph_print.specs.CanonicalText.{pairs_of, node_entry};

use crate::kept::push_kept;
use crate::kinds::push_own;
use crate::ports::push_side;
use crate::texts::{push_pair, text_from};
use components::{Node, component_at, word_of};
use dot_text::DocNode;
use port_types::{Items, NoMemory, Side, Text};
use std::alloc::Global;

/// The statement of a node: its name and its pairs.
pub(crate) fn node_entry(alloc: Global, node: &Node) -> Result<DocNode, NoMemory>
    requires { NodeOk node.now }
    ensures { IfOk result (λ entry. entry ≡ node_entry (named node.now)) }
{
    let name = node.name.clone()?;
    let pairs = pairs_of(alloc, node)?;
    Ok(DocNode { name, pairs })
}

/// The pairs of a node: its type, its ports, the attributes that its kind alone owns, and what is kept.
fn pairs_of(alloc: Global, node: &Node) -> Result<Items<(Text, Text)>, NoMemory>
    requires { NodeOk node.now }
    ensures { IfOk result (λ pairs. pairs ≡ pairs_of (body_of node.now)) }
{
    let mut pairs = Vec::new(alloc);
    let word = text_from(alloc, word_of(component_at(&node.kind)))?;
    push_pair(alloc, &mut pairs, "type", word)?;
    push_side(alloc, &mut pairs, &node.kind, Side::Ins)?;
    push_side(alloc, &mut pairs, &node.kind, Side::Outs)?;
    push_own(alloc, &mut pairs, &node.kind)?;
    push_kept(alloc, &mut pairs, &node.kind, node.kept.as_slice())?;
    Ok(Items::new(pairs))
}
