//! The ids of nodes by their names.
ghost use Rattle.std.specs.Prelude.{◌≡◌, ◌+◌, ◌≤◌, None, Some, bytes_eq, IsOk, IsSome, IfOk, OnOk, OnErr};
ghost use Rattle.std.specs.FinMap as finite;
ghost use Rattle.indexmap.specs.IndexMap.{get_by, UpdatesBy};

use crate::place::NodeId;
use indexmap::IndexMap;
use port_types::NoMemory;
use std::alloc::Global;
use std::marker::Model;

/// A table from names to ids. Contracts see it as a finite map, and how many more names it has room for.
#[derive(Debug, Drop)]
pub(crate) struct Names {
    ids: IndexMap<Vec<u8>, NodeId>,
}

impl Model for Names {
    ghost use Rattle.std.specs.Prelude.{map};
    ghost use Rattle.std.specs.FinMap as finite;
    ghost use Rattle.indexmap.specs.IndexMap.{spare};
    ghost use Rattle.graph_core.specs.Names.{NamesValue, names_code};

    ghost Value = { NamesValue };

    ghost coded = { names_code };

    ghost view = { λ t. record { ids = finite.from_entries (map (λ e. (e.0.items, e.1)) t.ids.entries); room = spare t.ids } };
}

impl Names {
    /// The table without names. It keeps the allocator and takes no memory.
    pub(crate) fn new(alloc: Global) -> Names
        ensures { result.ids ≡ finite.empty }
    {
        Names {
            ids: IndexMap::new(alloc),
        }
    }

    /// The id under the name.
    pub(crate) fn get(&self, name: &[u8]) -> Option<NodeId>
        ensures { result ≡ finite.get self.now.ids name.now }
    {
        self.ids.get(name).copied()
    }

    /// Puts the id under the name. The only error is want of memory, and leaves the table as it was.
    pub(crate) fn insert(&mut self, name: &[u8], id: NodeId) -> Result<(), NoMemory>
        ensures ok { OnOk result (self.new.ids ≡ finite.insert self.old.ids name.now id) }
        ensures err { OnErr result (self.new.ids ≡ self.old.ids) }
    {
        let name = Vec::from_slice(*self.ids.allocator(), name)?;
        self.put(name, id)
    }

    /// Puts the id under the name. The only error is want of memory where the table has no room, and leaves it as it was.
    pub(crate) fn put(&mut self, name: Vec<u8>, id: NodeId) -> Result<(), NoMemory>
        ensures ok { OnOk result (self.new.ids ≡ finite.insert self.old.ids name.items id) }
        ensures err { OnErr result (self.new.ids ≡ self.old.ids) }
        ensures sure { 1 ≤ self.old.room → IsOk result }
        ensures room { self.old.room ≤ self.new.room + 1 }
    {
        self.ids.insert(name, id)?;
        Ok(())
    }

    /// Makes room for so many more names. The only error is want of memory.
    pub(crate) fn reserve(&mut self, count: usize) -> Result<(), NoMemory>
        ensures ids { self.new.ids ≡ self.old.ids }
        ensures room { OnOk result (count ≤ self.new.room) }
    {
        self.ids.reserve(count)?;
        Ok(())
    }

    /// An equal table of its own. The only error is want of memory.
    pub(crate) fn copy(&self) -> Result<Names, NoMemory>
        ensures { IfOk result (λ copy. copy.ids ≡ self.now.ids) }
    {
        let ids = self.ids.clone()?;
        Ok(Names { ids })
    }

    /// Changes the id under a name of the table. Takes no memory.
    pub(crate) fn set(&mut self, name: &[u8], id: NodeId)
        requires { IsSome (finite.get self.old.ids name.now) }
        ensures { self.new.ids ≡ finite.insert self.old.ids name.now id }
    {
        put_in(&mut self.ids, name, id);
    }

    /// The allocator that the table keeps.
    pub(crate) fn allocator(&self) -> Global {
        *self.ids.allocator()
    }

    /// Takes the name out of the table. Takes no memory.
    pub(crate) fn remove(&mut self, name: &[u8])
        ensures room { self.old.room ≤ self.new.room }
        ensures ids { self.new.ids ≡ finite.remove self.old.ids name.now }
    {
        self.ids.swap_remove(name);
    }
}

/// Changes the id under a name of the table.
fn put_in(ids: &mut IndexMap<Vec<u8>, NodeId>, name: &[u8], id: NodeId)
    requires { IsSome (get_by (λ key. bytes_eq name.now key.items) ids.old) }
    ensures { UpdatesBy (λ a b. bytes_eq a.items b.items) (λ key. bytes_eq name.now key.items) ids.old ids.new (Some id) }
{
    let Some(here) = ids.get_mut(name) else {
        unreachable!()
    };
    *here = id;
}
