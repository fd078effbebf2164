use port_types::{Items, Text};
use thiserror::Error;

/// What a document says: its nodes with attributes and its edges, each in the order in which they stand.
#[derive(Debug, Drop)]
pub struct Doc {
    pub nodes: Items<DocNode>,
    pub edges: Items<DocEdge>,
}

/// A node statement: the name, and its pairs of key and value in order.
#[derive(Debug, Drop)]
pub struct DocNode {
    pub name: Text,
    pub pairs: Items<(Text, Text)>,
}

/// An edge statement: the names at its ends, and its pairs of key and value in order.
#[derive(Debug, Drop)]
pub struct DocEdge {
    pub source: Text,
    pub target: Text,
    pub pairs: Items<(Text, Text)>,
}

/// Why no document was read.
#[derive(Debug, Drop, Error)]
pub enum DocFault {
    /// No document stands there: the byte at which that shows, counted from 0.
    #[error("syntax at byte {0}")]
    Syntax(usize),
    /// There was no memory for the document.
    #[error("no memory")]
    NoMemory,
}
