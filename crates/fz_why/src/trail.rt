//! The objects to which a search came, in the order in which it did.

ghost use Rattle.std.specs.Prelude.{◌≡◌, ◌^◌, ◌<◌, [], slice_get, false, IsSome, MatchOption, OnOk};
ghost use Rattle.fz_why.specs.Trail.{added, has, IsAt};

use crate::origin::Origin;
use crate::room::{NoMemory, insert};
use fz_model::Addr;
use fz_table::AddressHasher;
use indexmap::IndexMap;
use std::alloc::Global;
use std::marker::Model;

/// The objects to which a search came, each once, with the way in which it did. Its model is their list.
#[derive(Drop)]
pub(crate) struct Trail {
    entries: IndexMap<Addr, Origin, AddressHasher>,
}

impl Model for Trail {
    ghost use Rattle.fz_why.specs.Trail as trails;

    ghost Value = { trails.Trail };

    ghost view = { λ t. t.entries.entries };
}

impl Trail {
    /// No objects.
    pub(crate) fn new(alloc: Global) -> Trail
        ensures { result ≡ [] }
    {
        Trail {
            entries: IndexMap::with_hasher(alloc, AddressHasher::new()),
        }
    }

    /// Whether the search came to the object.
    pub(crate) fn contains(&self, object: Addr) -> bool
        ensures { result ≡ has self.now object }
    {
        self.entries.contains_key(&object)
    }

    /// Adds an object at the end, unless it is there.
    #[tactic(auto, using(crate::proofs::Trails::added_new, crate::proofs::Trails::added_known))]
    pub(crate) fn add(&mut self, object: Addr, origin: Origin) -> Result<(), NoMemory>
        ensures added { OnOk result (self.new ≡ added self.old object origin) }
    {
        if self.entries.contains_key(&object) {
            return Ok(());
        }
        insert(&mut self.entries, object, origin)?;
        Ok(())
    }

    /// The object at an index, and how the search came to it.
    pub(crate) fn at(&self, place: usize) -> Option<(Addr, Origin)>
        ensures here { result ≡ slice_get self.now place }
        ensures few { IsSome result → place < 2 ^ 63 }
    {
        let count = self.entries.len();
        let (object, origin) = self.entries.get_index(place)?;
        prove!(place < count);
        Some((*object, *origin))
    }

    /// The index of an object.
    pub(crate) fn place_of(&self, object: Addr) -> Option<usize>
        ensures { MatchOption result (has self.now object ≡ false) (λ place. IsAt self.now place object) }
    {
        match self.entries.get_full(&object) {
            Some(found) => Some(found.0),
            None => None,
        }
    }
}
