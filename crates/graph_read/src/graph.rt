//! The graph of a document.
ghost use Rattle.std.specs.Prelude.{◌≡◌, IfOk, IfErr, Ok};
ghost use Rattle.graph_read.specs.Refusals.{IsRefusal};
ghost use Rattle.graph_read.specs.GraphReading.{graph_reading};
ghost use Rattle.graph_read.specs.GraphSteps.{StandInOrder};

use crate::edges::add_edges;
use crate::fault::GraphFault;
use crate::nodes::read_nodes;
use crate::open::check_open;
use dot_text::Doc;
use graph_core::Graph;
use std::alloc::Global;

/// The graph that a document says: a node for each node statement, with ids in their order, and a wire for each edge; each port is on exactly one wire.
/// Else the first refusal, in the order of `GraphFaultKind`: those of the nodes in the order of the file, then those of the
/// edges, then the first port on no wire; or `NoMemory`.
pub fn graph_of(alloc: Global, doc: &Doc) -> Result<Graph, GraphFault>
    ensures graph { IfOk result (λ g. graph_reading doc.now ≡ Ok g.graph) }
    ensures refused { IfErr result (IsRefusal (graph_reading doc.now)) }
    ensures order { IfOk result (λ g. StandInOrder g doc.now.nodes) }
{
    let mut g = read_nodes(alloc, doc.nodes.as_slice())?;
    add_edges(alloc, &mut g, doc.edges.as_slice())?;
    check_open(&g)?;
    Ok(g)
}
