//! The statement of a wire.

ghost use Rattle.std.specs.Prelude.{◌≡◌, IfOk};
ghost use Rattle.graph_print.specs.CanonicalText.{edge_entry};

use crate::texts::push_pair;
use dot_text::DocEdge;
use port_types::{Items, NoMemory, Side, Text, print_port_name};
use std::alloc::Global;

/// The statement of the wire from an output of the node named `source` to an input of the node named `target`. The only error is want of memory.
pub(crate) fn edge_entry(
    alloc: Global,
    source: &Text,
    output: u8,
    target: &Text,
    input: u8,
) -> Result<DocEdge, NoMemory>
    ensures { IfOk result (λ entry. entry ≡ edge_entry (record { node = target.now; port = input }, record { node = source.now; port = output })) }
{
    let source = source.clone()?;
    let target = target.clone()?;
    let from = print_port_name(alloc, Side::Outs, output)?;
    let to = print_port_name(alloc, Side::Ins, input)?;
    let mut pairs = Vec::new(alloc);
    push_pair(alloc, &mut pairs, "from", from)?;
    push_pair(alloc, &mut pairs, "to", to)?;
    Ok(DocEdge {
        source,
        target,
        pairs: Items::new(pairs),
    })
}
