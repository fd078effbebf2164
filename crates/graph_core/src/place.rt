ghost use Rattle.std.specs.Prelude.{◌≡◌};
ghost use Rattle.graph_core.specs.Place.{index_of, id_of};

/// Which node of a graph: its index.
#[derive(Clone, Copy, Debug, PartialEq, Eq, PartialOrd, Ord, Hash)]
pub struct NodeId {
    index: usize,
}

impl NodeId {
    pub(crate) fn new(index: usize) -> NodeId
        ensures { result ≡ id_of index }
    {
        NodeId { index }
    }

    /// The index, counted from 0. Different live nodes of a graph have different indices.
    pub fn index(self) -> usize
        ensures { result ≡ index_of self }
    {
        self.index
    }
}

/// Which port of which node, on one side. The ports of a side are counted from 1.
#[derive(Clone, Copy, Debug, PartialEq, Eq, PartialOrd, Ord, Hash)]
pub struct PortAt {
    pub node: NodeId,
    pub port: u8,
}
