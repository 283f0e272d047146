//! The disappearing links of one kind.

ghost use Rattle.std.specs.Prelude.{◌≡◌, ◌≤◌, ◌<◌, ◌+◌, ◌*◌, ◌↔◌, ℕ, Bool, [], ◌∷◌, nat_eq, if◌then◌else◌, length, vec_capacity, min, ◌^◌, IsTrue, IsFalse, IsSome, None, IfOk, IfErr, OnOk, OnErr};
ghost use Rattle.std.specs.FinMap.{get, insert, remove, len, empty, contains_key, from_entries};
ghost use Rattle.std.specs.List.{IsDistinct};
ghost use Rattle.std.specs.Ordering.{nat_cmp};
ghost use Rattle.std.specs.Map.{keys_of};
ghost use Rattle.fz_model.specs.Causes.{IsJudgedOrLacks, full};
ghost use Rattle.fz_model.specs.Steps.{move_answer, moved_to};
ghost use Rattle.fz_table.specs.declared.limits.TheConstants.{MOST_ENTRIES};
ghost use Rattle.fz_table.specs.Places.{lacks_place};
ghost use Rattle.indexmap.specs.IndexMap.{spare, IsUnique};
ghost use Rattle.fz_links.specs.Dropped.{ComputesTest, without};

use crate::anew::{insert_but, list_from, put_last};
use fz_model::{Addr, LinkAnswer, MoveAnswer, Refusal, TABLE_LIMIT};
use fz_table::{AddressHasher, MOST_ENTRIES, Pairs};
use indexmap::IndexMap;
use indexmap::map::Entry;
use std::alloc::{AllocError, Global};
use std::marker::Model;

/// Disappearing links by the addresses of their words, each with the address of its target, at most 2^32 at one time.
///
/// A value contains either short or long links; the pass that clears their words decides which (gc.h).
///
/// Removing a link from a group of the table that has overflowed frees no place until the table is rebuilt. So a sixteenth of the table is reserved for
/// moves, and isn't counted as room for new links.
pub struct Links {
    entries: IndexMap<Addr, Addr, AddressHasher>,
    room: usize,
}

// Written by hand, so that the owner drops it by one proved call, not field by field at each exit of a function.
impl Drop for Links {
    fn drop(self) {
        let Links {
            entries: _,
            room: _,
        } = self;
    }
}

impl Model for Links {
    ghost use Rattle.std.specs.Ordering.{nat_cmp};
    ghost use Rattle.std.specs.FinMap.{from_entries};
    ghost use Rattle.indexmap.specs.IndexMap.{spare};
    ghost use Rattle.fz_links.specs.Linked.{Linked, linked_code, IsWithin};

    ghost Value = { Linked };

    ghost coded = { linked_code };

    ghost view = { λ l. record { links = from_entries l.entries.entries; room = l.room; order = l.entries.entries } };

    ghost invariant = { λ l. IsWithin (from_entries {R = nat_cmp} l.entries.entries) l.room (spare l.entries) };
}

impl Links {
    /// No links.
    pub fn new(alloc: Global) -> Links
        ensures { result.links ≡ empty }
    {
        Links::with_hasher(alloc, AddressHasher::new())
    }

    /// No links. Their words are hashed by this hasher.
    pub fn with_hasher(alloc: Global, hasher: AddressHasher) -> Links
        ensures { result.links ≡ empty }
    {
        Links {
            entries: IndexMap::with_hasher(alloc, hasher),
            room: 0,
        }
    }

    /// Reserves room for `more` further links. Fails with `NoMemory` if there is less room, and memory for it can't be allocated.
    pub fn reserve(&mut self, more: usize) -> Result<(), Refusal>
        ensures refused { IfErr result (λ r. r ≡ Refusal.NoMemory) }
        ensures wanting { OnErr result (self.old.room < more) }
        ensures same { self.new.links ≡ self.old.links }
        ensures kept { self.old.room ≤ self.new.room }
        ensures room { OnOk result (more ≤ self.new.room) }
    {
        if more <= self.room {
            return Ok(());
        }
        let kept = spare_for(self.entries.len().saturating_add(more));
        self.entries.reserve(more.saturating_add(kept))?;
        self.room = room_in(&self.entries, more);
        Ok(())
    }

    /// Frees memory that the links and their moves don't need. If a smaller table can't be allocated, the old one stays.
    pub fn shrink(&mut self)
        ensures same { self.new.links ≡ self.old.links }
        ensures order { self.new.order ≡ self.old.order }
    {
        let len = self.entries.len();
        self.entries.shrink_to(len + spare_for(len));
        self.room = room_in(&self.entries, 0);
    }

    /// Registers a link, or replaces the target of an existing one.
    ///
    /// Only a new link can fail: with `TableFull` if 65,536 others are registered, then with `NoMemory` if it needs room that can't be allocated.
    #[tactic(auto, using(fz_table::proofs::Entries::place_within))]
    pub fn register(&mut self, link: Addr, target: Addr) -> Result<LinkAnswer, Refusal>
        ensures judged { IsJudgedOrLacks (full self.old.links link ∷ []) result }
        ensures fresh { OnErr result (get self.old.links link ≡ None) }
        ensures wanting { IfErr result (λ r. r ≡ Refusal.NoMemory → self.old.room ≡ 0) }
        ensures unchanged { OnErr result (self.new.links ≡ self.old.links) }
        ensures answer { IfOk result (λ answer. answer ≡ (if contains_key self.old.links link then LinkAnswer.Duplicate else LinkAnswer.Success)) }
        ensures registered { OnOk result (self.new.links ≡ insert self.old.links link target) }
        ensures room { self.old.room ≤ self.new.room + 1 }
        ensures kept { OnErr result (self.old.room ≤ self.new.room) }
    {
        if self.is_full_for(link) {
            return Err(Refusal::TableFull);
        }
        self.register_checked(link, target)
    }

    /// Registers a link, as `register` does, but up to 2^32.
    ///
    /// Fails with `NoMemory` if a new link needs room that can't be allocated.
    pub fn register_checked(&mut self, link: Addr, target: Addr) -> Result<LinkAnswer, Refusal>
        requires place { IsFalse (lacks_place self.old.links link) }
        ensures refused { IfErr result (λ r. r ≡ Refusal.NoMemory) }
        ensures fresh { OnErr result (get self.old.links link ≡ None) }
        ensures wanting { OnErr result (self.old.room ≡ 0) }
        ensures unchanged { OnErr result (self.new.links ≡ self.old.links) }
        ensures answer { IfOk result (λ answer. answer ≡ (if contains_key self.old.links link then LinkAnswer.Duplicate else LinkAnswer.Success)) }
        ensures registered { OnOk result (self.new.links ≡ insert self.old.links link target) }
        ensures room { self.old.room ≤ self.new.room + 1 }
        ensures used { get self.old.links link ≡ None → 0 < self.old.room → self.old.room ≡ self.new.room + 1 }
        ensures kept { OnErr result (self.old.room ≤ self.new.room) }
    {
        if self.room == 0 && self.get(link).is_none() {
            self.reserve(1)?;
        }
        self.put(link, target)
    }

    /// Registers a link. A new link requires reserved room.
    fn put(&mut self, link: Addr, target: Addr) -> Result<LinkAnswer, Refusal>
        requires place { IsFalse (lacks_place self.old.links link) }
        ensures refused { IfErr result (λ r. r ≡ Refusal.NoMemory) }
        ensures fresh { OnErr result (get self.old.links link ≡ None) }
        ensures wanting { OnErr result (self.old.room ≡ 0) }
        ensures unchanged { OnErr result (self.new.links ≡ self.old.links) }
        ensures answer { IfOk result (λ answer. answer ≡ (if contains_key self.old.links link then LinkAnswer.Duplicate else LinkAnswer.Success)) }
        ensures registered { OnOk result (self.new.links ≡ insert self.old.links link target) }
        ensures room { self.old.room ≤ self.new.room + 1 }
        ensures used { get self.old.links link ≡ None → 0 < self.old.room → self.old.room ≡ self.new.room + 1 }
        ensures kept { OnErr result (self.old.room ≤ self.new.room) }
    {
        let replaced = self.entries.insert(link, target)?;
        let used = replaced.is_none() as usize;
        self.room = room_within(&self.entries, self.room.saturating_sub(used));
        Ok(answer_of(replaced.is_some()))
    }

    /// Removes a link, and returns whether it was registered.
    #[inline(always)]
    pub fn unregister(&mut self, link: Addr) -> bool
        ensures answer { result ≡ contains_key self.old.links link }
        ensures removed { self.new.links ≡ remove self.old.links link }
        ensures room { self.old.room ≤ self.new.room }
    {
        // `reserve` counts the place as room as soon as there is no other.
        self.entries.swap_remove(&link).is_some()
    }

    /// Moves a link to another word; its target stays the same. Fails with `NoMemory` if the new word needs room that can't be allocated.
    ///
    /// The results are tested in this order: `NotFound`, `Success` if the words are the same, `Duplicate`, `Success` after the move.
    pub fn move_link(&mut self, link: Addr, new: Addr) -> Result<MoveAnswer, Refusal>
        ensures refused { IfErr result (λ r. r ≡ Refusal.NoMemory) }
        ensures fresh { OnErr result (IsSome (get self.old.links link) × (get self.old.links new ≡ None)) }
        ensures wanting { OnErr result (self.old.room ≡ 0) }
        ensures unchanged { OnErr result (self.new.links ≡ self.old.links) }
        ensures answer { IfOk result (λ answer. answer ≡ move_answer self.old.links link new) }
        ensures moved { OnOk result (self.new.links ≡ moved_to self.old.links link new (get self.old.links link)) }
        ensures room { self.old.room ≤ self.new.room + 1 }
        ensures kept { OnErr result (self.old.room ≤ self.new.room) }
    {
        let answer = move_entry(&mut self.entries, link, new)?;
        self.room = room_within(&self.entries, self.room);
        Ok(answer)
    }

    /// Moves a link to another word, as `move_link` does, but takes no memory.
    ///
    /// The list is empty before and after, and has room for half of the links. If the places reserved for moves are used up, half of the links are moved to
    /// the list, and the table is rebuilt in the memory that it has. This frees the places again, so n moves of n links take time proportional to n.
    pub fn move_within(&mut self, link: Addr, new: Addr, list: &mut Vec<(Addr, Addr)>) -> MoveAnswer
        requires empty { list.old.items ≡ [] }
        requires list { len self.old.links ≤ 2 * vec_capacity list.old }
        ensures answer { result ≡ move_answer self.old.links link new }
        ensures moved { self.new.links ≡ moved_to self.old.links link new (get self.old.links link) }
        // Only a new link uses reserved room.
        ensures room { self.new.room ≡ self.old.room }
        ensures empty { list.new.items ≡ [] }
        ensures list { vec_capacity list.old ≤ vec_capacity list.new }
    {
        if spare_of(&self.entries) > self.room
            || self.entries.contains_key(&new)
            || !self.entries.contains_key(&link)
        {
            return move_entry(&mut self.entries, link, new).unwrap();
        }
        let target = self.entries[&link];
        self.rebuild_without(link, list);
        let _ = self.register_checked(new, target);
        MoveAnswer::Success
    }

    /// Removes a registered link, and rebuilds the table in the memory that it has, so that there is room for another.
    fn rebuild_without(&mut self, link: Addr, list: &mut Vec<(Addr, Addr)>)
        requires known { IsSome (get self.old.links link) }
        requires empty { list.old.items ≡ [] }
        requires list { len self.old.links ≤ 2 * vec_capacity list.old }
        ensures removed { self.new.links ≡ remove self.old.links link }
        ensures room { self.new.room ≡ self.old.room + 1 }
        ensures place { (other : ℕ) → IsFalse (lacks_place self.new.links other) }
        ensures empty { list.new.items ≡ [] }
        ensures list { vec_capacity list.old ≤ vec_capacity list.new }
    {
        // A table that loses half of its links at once has all places again, also those that removed links left behind.
        let half = self.entries.len() / 2;
        put_last(&mut self.entries, link);
        list_from(&self.entries, half, list);
        self.entries.truncate(half);
        insert_but(&mut self.entries, list, link);
        self.room = room_within(&self.entries, self.room.saturating_add(1));
    }

    /// The target of a link.
    pub fn get(&self, link: Addr) -> Option<Addr>
        ensures { result ≡ get self.now.links link }
    {
        self.entries.get(&link).copied()
    }

    /// The number of links.
    pub fn len(&self) -> usize
        ensures count { result ≡ len self.now.links }
        ensures limit { result ≤ MOST_ENTRIES }
    {
        self.entries.len()
    }

    /// Whether no link is registered.
    pub fn is_empty(&self) -> bool
        ensures { IsTrue result ↔ (self.now.links ≡ empty) }
    {
        self.entries.is_empty()
    }

    /// All links with their targets, each once. The order stays the same until the links change.
    pub fn iter(&self) -> Pairs<'_, Addr, Addr>
        ensures all { from_entries result ≡ self.now.links }
        ensures once { IsDistinct nat_eq (keys_of result) }
        ensures count { length result ≡ len self.now.links }
        ensures limit { length result ≤ MOST_ENTRIES }
        ensures order { result ≡ self.now.order }
    {
        Pairs::of(self.entries.iter())
    }

    /// Removes the links for which the test returns true. The test is called once for each link.
    pub fn drop_where<F: Fn(Addr, Addr) -> bool>(&mut self, f: F)
        requires { F.IsAlwaysCallable f }
        ensures dropped { (test : ℕ → ℕ → Bool) → ComputesTest (F.post f) test → self.new.links ≡ without test self.old.links }
        ensures room { self.old.room ≤ self.new.room }
    {
        // From the back, since the last link moves to the place of a removed one; by index, so that nothing is hashed.
        let mut place = self.entries.len();
        while place > 0 {
            place -= 1;
            if let Some((link, target)) = self.entries.get_index(place) {
                if f(*link, *target) {
                    self.entries.swap_remove_index(place);
                }
            }
        }
        self.room = room_in(&self.entries, self.room);
    }

    /// Whether there are as many links as there can be, and the link isn't one of them.
    pub fn lacks_place(&self, link: Addr) -> bool
        ensures { result ≡ lacks_place self.now.links link }
    {
        self.len() as u64 >= MOST_ENTRIES && self.get(link).is_none()
    }

    /// Whether 65,536 other links are registered.
    fn is_full_for(&self, link: Addr) -> bool
        ensures { result ≡ (full self.now.links link).0 }
    {
        self.len() as u64 >= TABLE_LIMIT && self.get(link).is_none()
    }
}

/// Moves an entry to another key; its value stays the same. Takes no memory if the map has a free place.
fn move_entry(
    entries: &mut IndexMap<Addr, Addr, AddressHasher>,
    link: Addr,
    new: Addr,
) -> Result<MoveAnswer, AllocError>
    ensures fresh { OnErr result (IsSome (get (from_entries {R = nat_cmp} entries.old.entries) link) × (get (from_entries {R = nat_cmp} entries.old.entries) new ≡ None)) }
    ensures wanting { OnErr result (spare entries.old ≡ 0) }
    ensures unchanged { OnErr result (from_entries {R = nat_cmp} entries.new.entries ≡ from_entries entries.old.entries) }
    ensures answer { IfOk result (λ answer. answer ≡ move_answer (from_entries entries.old.entries) link new) }
    ensures moved { OnOk result (from_entries {R = nat_cmp} entries.new.entries ≡ moved_to (from_entries entries.old.entries) link new (get (from_entries {R = nat_cmp} entries.old.entries) link)) }
    ensures room { spare entries.old ≤ spare entries.new + 1 }
    // Only a link that moves uses a place.
    ensures kept { (IsSome (get (from_entries {R = nat_cmp} entries.old.entries) link) → IsSome (get (from_entries {R = nat_cmp} entries.old.entries) new)) → spare entries.old ≤ spare entries.new }
{
    let Some((old_place, _, target)) = entries.get_full(&link) else {
        return Ok(MoveAnswer::NotFound);
    };
    let target = *target;
    if link == new {
        return Ok(MoveAnswer::Success);
    }
    // Room is reserved first, so that a failed move leaves the link where it was. The new link is inserted last, so that the reserved place stays valid.
    let Entry::Vacant(room) = entries.entry(new)? else {
        return Ok(MoveAnswer::Duplicate);
    };
    room.insert(target);
    entries.swap_remove_index(old_place);
    Ok(MoveAnswer::Success)
}

/// How many places a table with this many links keeps free for moves: a sixteenth of all.
fn spare_for(links: usize) -> usize
    ensures few { result ≤ links }
    ensures some { 0 < links → 0 < result }
{
    links.div_ceil(15)
}

/// How many more entries fit into a map without allocating.
fn spare_of(entries: &IndexMap<Addr, Addr, AddressHasher>) -> usize
    ensures spare { result ≡ spare entries.now }
    ensures unique { IsUnique nat_eq entries.now }
{
    entries.capacity() - entries.len()
}

/// The room of a table for new links: its free places except a sixteenth of all, but at least what was reserved.
fn room_in(entries: &IndexMap<Addr, Addr, AddressHasher>, promised: usize) -> usize
    requires { promised ≤ spare entries.now }
    ensures kept { promised ≤ result }
    ensures within { result ≤ spare entries.now }
{
    let kept = entries.capacity().div_ceil(16);
    spare_of(entries).saturating_sub(kept).max(promised)
}

/// This much room, but at most the free places.
fn room_within(entries: &IndexMap<Addr, Addr, AddressHasher>, room: usize) -> usize
    ensures least { result ≡ min room (spare entries.now) }
    ensures within { result ≤ spare entries.now }
    ensures all { room ≤ spare entries.now → result ≡ room }
    ensures small { spare entries.now < 2 ^ 64 }
{
    room.min(spare_of(entries))
}

/// The result of registering a link.
fn answer_of(known: bool) -> LinkAnswer
    ensures { result ≡ (if known then LinkAnswer.Duplicate else LinkAnswer.Success) }
{
    if known {
        LinkAnswer::Duplicate
    } else {
        LinkAnswer::Success
    }
}
