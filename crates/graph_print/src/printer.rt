//! The canonical text of a graph.

ghost use Rattle.std.specs.Prelude.{◌≡◌, IfOk};
ghost use Rattle.graph_print.specs.CanonicalText.{text_of};

use crate::document::document_of;
use dot_text::print_doc;
use graph_core::Graph;
use port_types::NoMemory;
use std::alloc::Global;

/// The canonical text of a graph. The only error is want of memory.
pub fn text_of(alloc: Global, g: &Graph) -> Result<Vec<u8>, NoMemory>
    ensures { IfOk result (λ text. text.items ≡ text_of g.now.graph) }
{
    let document = document_of(alloc, g)?;
    print_doc(alloc, &document)
}
