use crate::depth::Depth;
use crate::doc::{Doc, DocEdge, DocNode};
use port_types::Text;

/// Whose attribute lists they are: a node's, an edge's by the names at its ends, or a default's, which are not kept.
#[derive(Drop)]
pub(crate) enum Owner {
    OfNode(Text),
    OfEdge(Text, Text),
    OfDefault,
}

/// An owner and the pairs of its attribute lists so far.
#[derive(Drop)]
pub(crate) struct Lists {
    pub(crate) owner: Owner,
    pub(crate) pairs: Vec<(Text, Text)>,
}

/// What was read last within a document.
#[derive(Drop)]
pub(crate) enum Spot {
    /// `digraph` or `subgraph`.
    Headed,
    /// The name of the graph or subgraph.
    Named,
    /// `{`, or the `;` behind a statement.
    Ready,
    /// A statement that takes no attribute list.
    Ended,
    /// The ID that begins a statement.
    Identified(Text),
    /// That ID and `->`.
    Pointed(Text),
    /// That ID and `=`.
    Setting,
    /// `graph`, `node` or `edge`.
    Defaulted,
    /// An attribute list, or what may be followed by the first one.
    Listed(Lists),
    /// `[`, or the `,` or `;` behind a pair.
    Inside(Lists),
    /// A key.
    Keyed(Lists, Text),
    /// A key and `=`.
    Equated(Lists, Text),
    /// A pair.
    Paired(Lists),
}

/// The subgraphs that are open, and what the document keeps so far.
#[derive(Drop)]
pub(crate) struct Body {
    pub(crate) depth: Depth,
    pub(crate) nodes: Vec<DocNode>,
    pub(crate) edges: Vec<DocEdge>,
}

/// Where the reader stands: before the document, within it, or behind it.
#[derive(Drop)]
pub(crate) enum State {
    Begin,
    Within(Body, Spot),
    Whole(Doc),
}
