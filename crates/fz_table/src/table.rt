//! The table of registrations.

ghost use Rattle.std.specs.Prelude.{◌≡◌, ◌+◌, ◌≤◌, ◌<◌, ◌↔◌, cond, nat_eq, nat_lt, length, map, option_map, false, All, IsTrue, IsFalse, IfSome, IfErr, OnOk, OnErr};
ghost use Rattle.std.specs.FinMap.{get, remove, len, empty, from_entries};
ghost use Rattle.std.specs.FinSet as sets;
ghost use Rattle.std.specs.FinSet.{contains};
ghost use Rattle.std.specs.List.{IsDistinct};
ghost use Rattle.std.specs.Map.{keys_of};
ghost use Rattle.std.specs.Option.{option_map_or};
ghost use Rattle.fz_model.specs.declared.limits.TheConstants.{TABLE_LIMIT, COUNT_LIMIT};
ghost use Rattle.fz_model.specs.declared.refusal.Refusal.TheVariants.{NoMemory};
ghost use Rattle.fz_model.specs.Causes.{IsJudgedBy, full, register_causes};
ghost use Rattle.fz_model.specs.Steps.{old_of};
ghost use Rattle.fz_table.specs.declared.limits.TheConstants.{MOST_ENTRIES};
ghost use Rattle.fz_table.specs.Places.{lacks_place};
ghost use Rattle.fz_table.specs.Registers.{Registers, RegistersOrLacks};
ghost use Rattle.fz_table.specs.Tabled.{plain, shown, with_flag};

use crate::hasher::AddressHasher;
use crate::limits::MOST_ENTRIES;
use crate::pairs::Pairs;
use crate::registrations::Registrations;
use crate::stored::{Stored, counted};
use fz_model::{Addr, COUNT_LIMIT, Finalizer, Old, Refusal, Registration, TABLE_LIMIT};
use indexmap::IndexMap;
use std::alloc::Global;
use std::marker::Model;

/// The registrations by the addresses of their objects, at most 2^32 at one time. Each gets a number, counted from 0.
pub struct Table {
    entries: IndexMap<Addr, Stored, AddressHasher>,
    next_number: u64,
    /// How many of the registrations are of the kind unreachable.
    flags: u64,
}

// Written by hand, so that the owner drops it by one proved call, not field by field at each exit of a function.
impl Drop for Table {
    fn drop(self) {
        let Table {
            entries: _,
            next_number: _,
            flags: _,
        } = self;
    }
}

impl Model for Table {
    ghost use Rattle.indexmap.specs.IndexMap.{spare};
    ghost use Rattle.fz_table.specs.Tabled.{Tabled, IsTable, content_of, tabled_code};

    ghost Value = { Tabled };

    ghost coded = { tabled_code };

    ghost view = { λ t. record { content = content_of t.entries.entries t.next_number; room = spare t.entries; order = t.entries.entries } };

    ghost invariant = { λ t. IsTable t.entries.entries t.next_number t.flags };
}

impl Table {
    /// An empty table.
    pub fn new(alloc: Global) -> Table
        ensures registered { result.registered ≡ record { registrations = empty; next_number = 0 } }
        ensures late { result.late ≡ sets.empty }
    {
        Table::with_hasher(alloc, AddressHasher::new())
    }

    /// An empty table that hashes the addresses of objects by this hasher.
    pub fn with_hasher(alloc: Global, hasher: AddressHasher) -> Table
        ensures registered { result.registered ≡ record { registrations = empty; next_number = 0 } }
        ensures late { result.late ≡ sets.empty }
    {
        Table {
            entries: IndexMap::with_hasher(alloc, hasher),
            next_number: 0,
            flags: 0,
        }
    }

    /// Reserves room for `more` further registrations. Fails with `NoMemory` if there is less room, and memory for it can't be allocated.
    pub fn reserve(&mut self, more: usize) -> Result<(), Refusal>
        ensures refused { IfErr result (λ r. r ≡ NoMemory) }
        ensures wanting { OnErr result (self.old.room < more) }
        ensures same { self.new.registered ≡ self.old.registered }
        ensures late { self.new.late ≡ self.old.late }
        ensures kept { self.old.room ≤ self.new.room }
        ensures room { OnOk result (more ≤ self.new.room) }
    {
        self.entries.reserve(more)?;
        Ok(())
    }

    /// Frees memory that the registrations don't need. If a smaller table can't be allocated, the old one stays.
    pub fn shrink(&mut self)
        ensures same { self.new.registered ≡ self.old.registered }
        ensures late { self.new.late ≡ self.old.late }
        ensures order { self.new.order ≡ self.old.order }
    {
        self.entries.shrink_to_fit();
    }

    /// Checks that `register` would accept the object, apart from memory.
    ///
    /// Fails with, in this order: `Exhausted` after 2^48 numbers, `TableFull` if 65,536 other objects are registered.
    #[tactic(auto, using(crate::proofs::Entries::place_within))]
    pub fn check(&self, object: Addr) -> Result<(), Refusal>
        ensures judged { IsJudgedBy (register_causes self.now.registrations self.now.next_number object) result }
        ensures few { OnOk result (self.now.next_number < COUNT_LIMIT) }
        ensures room { OnOk result (IsFalse (full self.now.registrations object).0) }
        ensures place { OnOk result (IsFalse (lacks_place self.now.registrations object)) }
    {
        if self.next_number >= COUNT_LIMIT {
            return Err(Refusal::Exhausted);
        }
        if self.is_full_for(object) {
            return Err(Refusal::TableFull);
        }
        Ok(())
    }

    /// Registers the object's finalizer under a new number. Returns the number and what was replaced.
    ///
    /// Fails with, in this order: `Exhausted` after 2^48 numbers, `TableFull` if 65,536 other objects are registered, `NoMemory` if a new object needs room
    /// that can't be allocated. A replacement takes no memory.
    pub fn register(
        &mut self,
        object: Addr,
        finalizer: Finalizer,
    ) -> Result<(u64, Option<Old>), Refusal>
        ensures registers { Registers self.old.registered object finalizer result self.new.registered }
        ensures late { OnOk result (self.new.late ≡ with_flag self.old.late object false) }
        ensures same { OnErr result (self.new.late ≡ self.old.late) }
        // Only a call without reserved room can run out of memory.
        ensures wanting { IfErr result (λ r. r ≡ NoMemory → self.old.room ≡ 0) }
        ensures room { self.old.room ≤ self.new.room + 1 }
        ensures kept { OnErr result (self.old.room ≤ self.new.room) }
    {
        self.check(object)?;
        self.register_checked(object, finalizer, false)
    }

    /// Registers the object's finalizer, as `register` does, but up to 2^32 objects, and with the flag of the kind unreachable or without it.
    ///
    /// Fails with `NoMemory` if a new object needs room that can't be allocated.
    pub fn register_checked(
        &mut self,
        object: Addr,
        finalizer: Finalizer,
        unreachable: bool,
    ) -> Result<(u64, Option<Old>), Refusal>
        requires few { self.old.next_number < COUNT_LIMIT }
        requires place { IsFalse (lacks_place self.old.registrations object) }
        ensures registers { RegistersOrLacks self.old.registered object finalizer result self.new.registered }
        ensures late { OnOk result (self.new.late ≡ with_flag self.old.late object unreachable) }
        ensures same { OnErr result (self.new.late ≡ self.old.late) }
        // If fewer than 65,536 other objects are registered, this is what `register` does.
        ensures within { IsFalse (full self.old.registrations object).0 → Registers self.old.registered object finalizer result self.new.registered }
        // Only a call without reserved room can run out of memory.
        ensures wanting { IfErr result (λ r. r ≡ NoMemory → self.old.room ≡ 0) }
        ensures room { self.old.room ≤ self.new.room + 1 }
        ensures kept { OnErr result (self.old.room ≤ self.new.room) }
    {
        let number = self.next_number;
        let stored = Stored::of(number, finalizer, unreachable);
        // A failed insertion leaves the entries unchanged.
        let replaced = self.entries.insert(object, stored)?;
        self.flags = counted(self.flags, is_flagged(replaced), unreachable);
        self.next_number = number + 1;
        Ok((number, registration_in(replaced).map(pair_of)))
    }

    /// Removes the object's registration and returns it.
    #[inline(always)]
    pub fn take(&mut self, object: Addr) -> Option<Registration>
        ensures answer { result ≡ get self.old.registrations object }
        ensures removed { self.new.registered ≡ record self.old.registered { registrations = remove self.old.registrations object } }
        ensures late { self.new.late ≡ sets.remove self.old.late object }
        ensures room { self.old.room ≤ self.new.room }
        ensures count { IfSome result (λ _. len self.new.registrations + 1 ≡ len self.old.registrations) }
    {
        let removed = self.entries.swap_remove(&object);
        self.flags = counted(self.flags, is_flagged(removed), false);
        registration_in(removed)
    }

    /// Removes the object's registration. Returns its procedure and client data, if it was registered.
    #[inline(always)]
    pub fn remove(&mut self, object: Addr) -> Option<Old>
        ensures answer { result ≡ old_of self.old.registrations object }
        ensures removed { self.new.registered ≡ record self.old.registered { registrations = remove self.old.registrations object } }
        ensures late { self.new.late ≡ sets.remove self.old.late object }
        ensures room { self.old.room ≤ self.new.room }
    {
        self.take(object).map(pair_of)
    }

    /// The number of registered objects.
    pub fn len(&self) -> usize
        ensures count { result ≡ len self.now.registrations }
        ensures limit { result ≤ MOST_ENTRIES }
    {
        self.entries.len()
    }

    /// Whether no object is registered.
    pub fn is_empty(&self) -> bool
        ensures { IsTrue result ↔ (self.now.registrations ≡ empty) }
    {
        self.entries.is_empty()
    }

    /// All registrations with their objects, each once. The order stays the same until the table changes.
    pub fn iter(&self) -> Registrations<'_>
        ensures all { from_entries result ≡ self.now.registrations }
        ensures once { IsDistinct nat_eq (keys_of result) }
        ensures count { length result ≡ len self.now.registrations }
        ensures limit { length result ≤ MOST_ENTRIES }
        ensures order { result ≡ map plain self.now.order }
    {
        Registrations::of(self.iter_stored())
    }

    /// All registrations as `iter` yields them, each with the flag of the kind unreachable.
    pub fn iter_stored(&self) -> Pairs<'_, Addr, Stored>
        ensures all { from_entries (map plain result) ≡ self.now.registrations }
        ensures flags { All (λ e. e.1.unreachable ≡ contains self.now.late e.0) result }
        ensures once { IsDistinct nat_eq (keys_of result) }
        ensures count { length result ≡ len self.now.registrations }
        ensures limit { length result ≤ MOST_ENTRIES }
        ensures order { result ≡ self.now.order }
    {
        Pairs::of(self.entries.iter())
    }

    /// The object's registration.
    pub fn get(&self, object: Addr) -> Option<Registration>
        ensures { result ≡ get self.now.registrations object }
    {
        registration_in(self.entries.get(&object).copied())
    }

    /// Whether the object is registered with the kind unreachable.
    pub fn is_unreachable(&self, object: Addr) -> bool
        ensures { result ≡ contains self.now.late object }
    {
        if self.flags == 0 {
            return false;
        }
        is_flagged(self.entries.get(&object).copied())
    }

    /// Whether any object is registered with the kind unreachable.
    pub fn has_unreachable(&self) -> bool
        ensures { result ≡ nat_lt 0 (sets.len self.now.late) }
    {
        self.flags > 0
    }

    /// The number that the next registration gets.
    pub fn next_number(&self) -> u64
        ensures { result ≡ self.now.next_number }
    {
        self.next_number
    }

    /// Returns the number that the next registration would get, and uses it up, so that a cleanup can have it.
    pub fn take_number(&mut self) -> u64
        requires few { self.old.next_number < COUNT_LIMIT }
        ensures number { result ≡ self.old.next_number }
        ensures taken { self.new.registered ≡ record self.old.registered { next_number = self.old.next_number + 1 } }
        ensures late { self.new.late ≡ self.old.late }
        ensures order { self.new.order ≡ self.old.order }
        ensures room { self.new.room ≡ self.old.room }
    {
        let taken = self.next_number;
        self.next_number = taken + 1;
        taken
    }

    /// Whether the table has as many registrations as it can have, and none for the object.
    pub fn lacks_place(&self, object: Addr) -> bool
        ensures { result ≡ lacks_place self.now.registrations object }
    {
        self.len() as u64 >= MOST_ENTRIES && self.get(object).is_none()
    }

    /// Whether 65,536 other objects are registered.
    fn is_full_for(&self, object: Addr) -> bool
        ensures { result ≡ (full self.now.registrations object).0 }
    {
        self.len() as u64 >= TABLE_LIMIT && self.get(object).is_none()
    }
}

/// The registration that is stored, if one is.
fn registration_in(stored: Option<Stored>) -> Option<Registration>
    ensures { result ≡ option_map shown stored }
{
    Some(stored?.registration())
}

/// Whether a registration is stored, and has the flag.
fn is_flagged(stored: Option<Stored>) -> bool
    ensures { result ≡ option_map_or (λ s. s.unreachable) stored false }
{
    match stored {
        Some(stored) => stored.unreachable,
        None => false,
    }
}

/// What is returned of a registration that is replaced or removed.
fn pair_of(registration: Registration) -> Old
    ensures { result ≡ record { proc = registration.proc; cd = registration.cd } }
{
    Old {
        proc: registration.proc,
        cd: registration.cd,
    }
}
