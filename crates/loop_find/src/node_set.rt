//! Sets of nodes that are emptied in constant time.
ghost use Rattle.std.specs.Prelude.{◌≡◌, ◌↔◌, ◌<◌, ◌≤◌, [], Some, length, slice_get, IsTrue, IfOk, MatchOption, OnOk, OnErr, ◌++◌, ◌∷◌};
ghost use Rattle.circuits.specs.Replacing.{In};
ghost use Rattle.graph_core.specs.Place.{index_of};
ghost use Rattle.loop_find.specs.NodeSets.{AreDifferent, IsPut};

use graph_core::NodeId;
use port_types::NoMemory;
use std::alloc::Global;
use std::marker::Model;

/// A set of nodes, in the order in which they were put in. Contracts see the list of them, and for how many indices there is room.
///
/// Under the index of each node that was put in stands its place in the list. What stands under the index of another node means
/// nothing, so to empty the set it is enough to empty the list.
#[derive(Debug, Drop)]
pub(crate) struct NodeSet {
    ids: Vec<NodeId>,
    places: Vec<usize>,
}

impl Model for NodeSet {
    ghost use Rattle.std.specs.Prelude.{length};
    ghost use Rattle.loop_find.specs.NodeSets.{NodeSetValue, HavePlaces};

    ghost Value = { NodeSetValue };

    ghost view = { λ s. record { ids = s.ids.items; room = length s.places.items } };

    ghost invariant = { λ s. HavePlaces s.ids.items s.places.items };
}

impl NodeSet {
    /// The empty set, with room for so many indices. The only error is want of memory.
    pub(crate) fn new(alloc: Global, room: usize) -> Result<NodeSet, NoMemory>
        ensures { IfOk result (λ set. set ≡ record { ids = []; room = room }) }
    {
        let places = vec![in alloc; 0; room]?;
        Ok(NodeSet {
            ids: Vec::new(alloc),
            places,
        })
    }

    /// How many nodes there are.
    pub(crate) fn len(&self) -> usize
        ensures { result ≡ length self.now.ids }
    {
        self.ids.len()
    }

    /// The node at this place.
    pub(crate) fn get(&self, place: usize) -> Option<NodeId>
        ensures { result ≡ slice_get self.now.ids place }
    {
        self.ids.get(place).copied()
    }

    /// The node at a place that one stands at.
    pub(crate) fn at(&self, place: usize) -> NodeId
        requires { place < length self.now.ids }
        ensures { slice_get self.now.ids place ≡ Some result }
    {
        self.ids[place]
    }

    /// The nodes in the order in which they were put in.
    pub(crate) fn as_slice(&self) -> &[NodeId]
        ensures { result.now ≡ self.now.ids }
    {
        self.ids.as_slice()
    }

    /// Whether the node is in the set.
    pub(crate) fn contains(&self, id: NodeId) -> bool
        ensures { IsTrue result ↔ In id self.now.ids }
    {
        match place_at(&self.places, id.index()) {
            Some(place) => self.stands_at(place, id),
            None => false,
        }
    }

    /// The place of the node. `None` exactly where it is not in the set.
    pub(crate) fn place(&self, id: NodeId) -> Option<usize>
        ensures { MatchOption result (¬ (In id self.now.ids)) (λ place. slice_get self.now.ids place ≡ Some id) }
    {
        match place_at(&self.places, id.index()) {
            Some(place) if self.stands_at(place, id) => Some(place),
            _ => None,
        }
    }

    /// Whether the node stands at this place.
    fn stands_at(&self, place: usize, id: NodeId) -> bool
        ensures { IsTrue result ↔ slice_get self.now.ids place ≡ Some id }
    {
        self.get(place) == Some(id)
    }

    /// Puts the node in, behind the others, if it is not there. The only error is want of memory, and leaves the set as it was.
    pub(crate) fn insert(&mut self, id: NodeId) -> Result<(), NoMemory>
        requires { index_of id < self.old.room }
        ensures put { OnOk result (IsPut self.old.ids id self.new.ids) }
        ensures room { self.new.room ≡ self.old.room }
    {
        if self.contains(id) {
            return Ok(());
        }
        self.places[id.index()] = self.ids.len();
        push(&mut self.ids, id)
    }

    /// Takes all nodes out. Takes no memory.
    pub(crate) fn clear(&mut self)
        ensures { self.new ≡ record { ids = []; room = self.old.room } }
    {
        self.ids.clear();
    }

    /// There are no more nodes than indices.
    pub(crate) fn fits(&self)
        ensures { length self.now.ids ≤ self.now.room }
    {
        let _ = &self.ids;
    }

    /// No node stands at two places.
    pub(crate) fn differ(&self)
        ensures { AreDifferent self.now.ids }
    {
        let _ = &self.ids;
    }
}

/// The place that stands under an index.
fn place_at(places: &[usize], index: usize) -> Option<usize>
    ensures { result ≡ slice_get places.now index }
{
    places.get(index).copied()
}

/// Puts the node behind the others. The only error is want of memory, and leaves them as they were.
fn push(ids: &mut Vec<NodeId>, id: NodeId) -> Result<(), NoMemory>
    ensures ok { OnOk result (ids.new.items ≡ ids.old.items ++ id ∷ []) }
    ensures err { OnErr result (ids.new.items ≡ ids.old.items) }
{
    ids.push(id)?;
    Ok(())
}
