//! The table of cleanups.

ghost use Rattle.std.specs.Prelude.{◌≡◌, ◌≤◌, ◌<◌, ◌+◌, length, nat_eq, IfSome, IfErr, OnOk, OnErr};
ghost use Rattle.std.specs.FinMap.{get, insert, remove, len, empty, from_entries};
ghost use Rattle.std.specs.List.{IsDistinct};
ghost use Rattle.std.specs.Map.{keys_of};
ghost use Rattle.fz_table.specs.declared.limits.TheConstants.{MOST_ENTRIES};
ghost use Rattle.fz_finalizers.specs.Cleanups.{is_when};

use crate::refused::Refused;
use fz_model::{Addr, LinkKind};
use fz_table::{AddressHasher, Pairs};
use indexmap::IndexMap;
use std::alloc::Global;
use std::marker::Model;

/// A cleanup, as the host passes it to `add_cleanup`: a procedure that runs without the object when the object is lost.
#[derive(Clone, Copy, Debug, PartialEq, Eq)]
pub struct Cleanup {
    /// When it is due: if it is short, in a pass that finds its object unreachable; if it is long, in a pass after which nothing retains its object.
    pub when: LinkKind,
    /// The procedure to call: any number, which is returned in the entry.
    pub procedure: u64,
    /// The argument for the procedure, which may be any number. If the host marks from it (`Root::RegisteredData`), it must not lead to the object: then the
    /// cleanup would never be queued.
    pub client_data: u64,
    /// Among the short cleanups that one pass queues, and among the long ones, lower ranks come first.
    pub rank: u8,
}

impl Cleanup {
    /// Whether it is due at this point of a pass: a short one at the beginning, a long one at the end.
    pub fn is_when(self, when: LinkKind) -> bool
        ensures { result ≡ is_when when self.when }
    {
        match (when, self.when) {
            (LinkKind::Short, LinkKind::Short) | (LinkKind::Long, LinkKind::Long) => true,
            (LinkKind::Short, LinkKind::Long) | (LinkKind::Long, LinkKind::Short) => false,
        }
    }
}

/// A cleanup with its object.
#[derive(Clone, Copy, Debug, PartialEq, Eq)]
pub struct Attached {
    /// The object.
    pub object: Addr,
    /// Its cleanup.
    pub cleanup: Cleanup,
}

/// The cleanups by number, at most 2^32 at one time.
pub(crate) struct Cleanups {
    entries: IndexMap<u64, Attached, AddressHasher>,
}

// Written by hand, so that the owner drops it by one proved call, not field by field at each exit of a function.
impl Drop for Cleanups {
    fn drop(self) {
        let Cleanups { entries: _ } = self;
    }
}

impl Model for Cleanups {
    ghost use Rattle.std.specs.Ordering.{nat_cmp};
    ghost use Rattle.std.specs.FinMap.{from_entries};
    ghost use Rattle.indexmap.specs.IndexMap.{spare};
    ghost use Rattle.fz_finalizers.specs.Cleanups.{Cleanups, cleanups_code, AreFew};

    ghost Value = { Cleanups };

    ghost coded = { cleanups_code };

    ghost view = { λ t. record { cleanups = from_entries t.entries.entries; room = spare t.entries; order = t.entries.entries } };

    ghost invariant = { λ t. AreFew (from_entries {R = nat_cmp} t.entries.entries) };
}

impl Cleanups {
    /// No cleanups.
    pub(crate) fn new(alloc: Global) -> Cleanups
        ensures { result.cleanups ≡ empty }
    {
        Cleanups {
            entries: IndexMap::with_hasher(alloc, AddressHasher::new()),
        }
    }

    /// Adds a cleanup under a number.
    pub(crate) fn add(&mut self, number: u64, attached: Attached) -> Result<(), Refused>
        requires place { len self.old.cleanups < MOST_ENTRIES }
        ensures refused { IfErr result (λ r. r ≡ Refused.NoMemory) }
        ensures wanting { OnErr result (self.old.room ≡ 0) }
        ensures unchanged { OnErr result (self.new.cleanups ≡ self.old.cleanups) }
        ensures added { OnOk result (self.new.cleanups ≡ insert self.old.cleanups number attached) }
        ensures room { self.old.room ≤ self.new.room + 1 }
    {
        let Ok(_) = self.entries.insert(number, attached) else {
            return Err(Refused::NoMemory);
        };
        Ok(())
    }

    /// Removes a cleanup and returns it.
    pub(crate) fn remove(&mut self, number: u64) -> Option<Attached>
        ensures answer { result ≡ get self.old.cleanups number }
        ensures removed { self.new.cleanups ≡ remove self.old.cleanups number }
        ensures count { IfSome result (λ _. len self.new.cleanups + 1 ≡ len self.old.cleanups) }
        ensures room { self.old.room ≤ self.new.room }
    {
        self.entries.swap_remove(&number)
    }

    /// The cleanup under a number.
    pub(crate) fn get(&self, number: u64) -> Option<Attached>
        ensures { result ≡ get self.now.cleanups number }
    {
        self.entries.get(&number).copied()
    }

    /// The number of cleanups.
    pub(crate) fn len(&self) -> usize
        ensures count { result ≡ len self.now.cleanups }
        ensures limit { result ≤ MOST_ENTRIES }
    {
        self.entries.len()
    }

    /// All cleanups with their numbers, each once. The order stays the same until the table changes.
    pub(crate) fn iter(&self) -> Pairs<'_, u64, Attached>
        ensures all { from_entries result ≡ self.now.cleanups }
        ensures once { IsDistinct nat_eq (keys_of result) }
        ensures count { length result ≡ len self.now.cleanups }
        ensures limit { length result ≤ MOST_ENTRIES }
        ensures order { result ≡ self.now.order }
    {
        Pairs::of(self.entries.iter())
    }

    /// Frees memory that the cleanups don't need. If a smaller table can't be allocated, the old one stays.
    pub(crate) fn shrink(&mut self)
        ensures same { self.new.cleanups ≡ self.old.cleanups }
        ensures order { self.new.order ≡ self.old.order }
    {
        self.entries.shrink_to_fit();
    }
}
