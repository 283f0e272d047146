//! Readers of a world. They change nothing and allocate nothing.
//!
//! Objects, registrations and links can be read by address, or iterated in address order: `next_object`, `next_registration` and `next_link` return the first
//! one at or after an address. A caller that continues after each result sees each of them once. So no list is built, nothing is sorted, and each result is
//! exact by itself.

ghost use Rattle.std.specs.Prelude.{◌≡◌, ◌<◌, ◌≤◌, ◌+◌, ◌*◌, ◌^◌, ℕ, Some, IsFalse, IfOk, IfSome, MatchOption, length, option_map, slice_get};
ghost use Rattle.std.specs.List.{list_any};
ghost use Rattle.std.specs.FinMap.{get, keys, contains_key, len};
ghost use Rattle.fz_model.specs.declared.answers.Entry.{Entry};
ghost use Rattle.fz_model.specs.declared.limits.TheConstants.{COUNT_LIMIT};
ghost use Rattle.fz_model.specs.Places.{slot_at};
ghost use Rattle.fz_model.specs.Memory.{slot_word, word_at, points};
ghost use Rattle.fz_model.specs.Causes.{IsJudgedBy, slot_causes, place_causes};
ghost use Rattle.fz_model.specs.Events.{links_of, same_entry};
ghost use Rattle.fz_model.specs.Extents.{IsInHeap};
ghost use Rattle.fz_model.specs.declared.limits.TheConstants.{BLOCK_WORDS};
ghost use Rattle.fz_heap.specs.Contents.{words_of};
ghost use Rattle.fz_world.specs.declared.shown.Object.{Object};
ghost use Rattle.fz_finalizers.specs.Queue.{IsFirstHeldFrom};
ghost use Rattle.fz_world.specs.Shown.{shown_object, has_row, HasNoneFrom, IsFirstFrom};

use crate::world::World;
use fz_heap::Starts;
use fz_model::{
    Addr, BLOCK_WORDS, Entry, HEAP_START, LinkKind, ObjKind, Refusal, Registration, Slot, Word,
};

/// An object of the heap.
#[derive(Clone, Copy, Debug, PartialEq, Eq)]
pub struct Object {
    /// The address of its first word.
    pub start: Addr,
    /// In words.
    pub size: u64,
    pub kind: ObjKind,
    /// No other object of the world has this birth.
    pub birth: u64,
}

/// The tables that can be iterated by address.
#[derive(Clone, Copy)]
pub(crate) enum Table {
    Objects,
    Registrations,
    Links(LinkKind),
}

impl World {
    /// The word of a slot.
    ///
    /// Fails with `BadSlot` if the slot doesn't exist.
    pub fn slot(&self, frame: u64, slot: u64) -> Result<Word, Refusal>
        ensures judged { IsJudgedBy (slot_causes self.now.frames (slot_at frame slot)) result }
        ensures word { IfOk result (λ word. word ≡ slot_word self.now.frames (slot_at frame slot)) }
    {
        self.frames.get(Slot { frame, slot })
    }

    /// The word at `offset` words after `word`, in the object to which `word` points. Unlike `load` this stores the word nowhere, so it retains nothing.
    ///
    /// Fails with, in this order: `NotPointer`, `OutsideObject` if `word` plus the offset lies outside the object.
    pub fn read(&self, word: Word, offset: u64) -> Result<Word, Refusal>
        ensures judged { IsJudgedBy (place_causes self.now.objects word offset) result }
        ensures read { IfOk result (λ read. read ≡ word_at self.now.objects (word + offset)) }
    {
        self.marked.heap.read(word, offset)
    }

    /// The number of objects.
    pub fn live(&self) -> u64
        ensures { result ≡ len self.now.objects }
    {
        self.marked.heap.live()
    }

    /// The number of words that the objects have together. A program may use it to collect before an allocation fails.
    pub fn used_words(&self) -> u64
        ensures { result ≡ words_of self.now.objects }
    {
        self.marked.heap.used()
    }

    /// The number of words of the heap that belong to no object. A new object may find no room in spite of them, if they aren't adjacent or lie in blocks of
    /// another size.
    pub fn free_words(&self) -> u64
        ensures { words_of self.now.objects + result ≡ BLOCK_WORDS * self.now.blocks }
    {
        let heap = &self.marked.heap;
        BLOCK_WORDS * heap.blocks() - heap.used()
    }

    /// The addresses of all objects, in ascending order.
    pub fn starts(&self) -> Starts<'_>
        ensures { result ≡ keys self.now.objects }
    {
        self.marked.heap.objects()
    }

    /// The object with this address, if there is one.
    pub fn object(&self, start: Addr) -> Option<Object>
        ensures { result ≡ option_map (shown_object start) (get self.now.objects start) }
    {
        let (size, kind, birth) = self.marked.heap.facts(start)?;
        Some(Object {
            start,
            size,
            kind,
            birth,
        })
    }

    /// The object to which the word points, if there is one; interior pointers count. This is `GC_base` and `GC_size`.
    pub fn object_of(&self, word: Word) -> Option<Object>
        ensures start { option_map (λ (o : Object). o.start) result ≡ points self.now.objects word }
        ensures object { IfSome result (λ object. option_map (shown_object object.start) (get self.now.objects object.start) ≡ Some object) }
    {
        let start = self.marked.heap.resolve(word)?;
        self.object(start)
    }

    /// The registration of the object with this address, if it is registered.
    pub fn registration(&self, object: Addr) -> Option<Registration>
        ensures { result ≡ get self.now.registrations object }
    {
        self.finalizers.registration(object)
    }

    /// The address of the target of the link of this kind at this word, if there is one.
    pub fn target(&self, which: LinkKind, place: Addr) -> Option<Addr>
        ensures { result ≡ get (links_of self.now.core which) place }
    {
        self.finalizers.target(which, place)
    }

    /// Whether a held entry equals this one in all fields.
    pub fn is_held(&self, entry: &Entry) -> bool
        ensures { result ≡ list_any (same_entry entry.now) self.now.held }
    {
        self.finalizers.is_held(entry)
    }

    /// The first held entry with a number of at least `from`. `queue` also has the finished ones.
    #[inline(always)]
    pub fn next_held(&self, from: u64) -> Option<Entry>
        ensures next { IsFirstHeldFrom self.now.held from result }
        ensures queued { IfSome result (λ e. slice_get self.now.queue e.seq ≡ Some e) }
        ensures passed { (k : ℕ) (e : Entry) → from ≤ k → IfSome result (λ next. k < next.seq) → slice_get self.now.queue k ≡ Some e → IsFalse (list_any (same_entry e) self.now.held) }
        ensures few { length self.now.queue ≤ COUNT_LIMIT }
    {
        self.finalizers.next_unfinished(from)
    }

    /// The first object with an address of at least `from`. Takes time proportional to the blocks that it passes.
    pub fn next_object(&self, from: Addr) -> Option<Object>
        ensures first { MatchOption result (HasNoneFrom self.now.blocks (contains_key self.now.objects) from) (λ object. IsFirstFrom self.now.blocks (contains_key self.now.objects) from object.start) }
        ensures object { IfSome result (λ object. option_map (shown_object object.start) (get self.now.objects object.start) ≡ Some object) }
    {
        let start = self.first_from(Table::Objects, from)?;
        self.object(start)
    }

    /// The first registered object with an address of at least `from`, and its registration. Takes time proportional to the blocks and objects that it
    /// passes.
    pub fn next_registration(&self, from: Addr) -> Option<(Addr, Registration)>
        ensures first { MatchOption result (HasNoneFrom self.now.blocks (contains_key self.now.registrations) from) (λ row. IsFirstFrom self.now.blocks (contains_key self.now.registrations) from row.0) }
        ensures registration { IfSome result (λ row. get self.now.registrations row.0 ≡ Some row.1) }
    {
        let object = self.first_from(Table::Registrations, from)?;
        let registration = self.registration(object)?;
        Some((object, registration))
    }

    /// The first link of this kind whose word has an address of at least `from`: the address of its word, and the address of its target. Takes time
    /// proportional to the addresses that it passes.
    pub fn next_link(&self, which: LinkKind, from: Addr) -> Option<(Addr, Addr)>
        ensures first { MatchOption result (HasNoneFrom self.now.blocks (contains_key (links_of self.now.core which)) from) (λ row. IsFirstFrom self.now.blocks (contains_key (links_of self.now.core which)) from row.0) }
        ensures target { IfSome result (λ row. get (links_of self.now.core which) row.0 ≡ Some row.1) }
    {
        let place = self.first_from(Table::Links(which), from)?;
        let target = self.target(which, place)?;
        Some((place, target))
    }

    /// Whether the table has an entry at the address.
    fn has_row(&self, table: Table, address: Addr) -> bool
        ensures { result ≡ has_row self.now.core table address }
    {
        match table {
            Table::Objects => self.object(address).is_some(),
            Table::Registrations => self.registration(address).is_some(),
            Table::Links(which) => self.target(which, address).is_some(),
        }
    }

    /// The next address at which an object may start. If no object starts in the rest of the block, this skips the rest in one step.
    fn next_start(&self, address: Addr) -> Addr
        requires heap { IsInHeap self.now.blocks address }
        requires fits { address + BLOCK_WORDS < 2 ^ 64 }
        ensures behind { address < result }
        ensures objects { (a : ℕ) → address < a → a < result → IsFalse (contains_key self.now.objects a) }
        ensures registrations { (a : ℕ) → address < a → a < result → IsFalse (contains_key self.now.registrations a) }
    {
        let offset = address - HEAP_START;
        let place = offset % BLOCK_WORDS;
        let starts = self.marked.heap.starts_in(offset / BLOCK_WORDS);
        let behind = starts >> place >> 1;
        address + 1 + u64::from(behind.trailing_zeros()).min(BLOCK_WORDS - 1 - place)
    }

    /// The next address at which the table may have an entry.
    fn next_place(&self, table: Table, address: Addr) -> Addr
        requires heap { IsInHeap self.now.blocks address }
        requires fits { address + BLOCK_WORDS < 2 ^ 64 }
        ensures behind { address < result }
        ensures none { (a : ℕ) → address < a → a < result → IsFalse (has_row self.now.core table a) }
    {
        match table {
            Table::Objects | Table::Registrations => self.next_start(address),
            Table::Links(_) => address + 1,
        }
    }

    /// The first address at or after `from` at which the table has an entry.
    fn first_from(&self, table: Table, from: Addr) -> Option<Addr>
        ensures { MatchOption result (HasNoneFrom self.now.blocks (has_row self.now.core table) from) (IsFirstFrom self.now.blocks (has_row self.now.core table) from) }
    {
        let end = HEAP_START + BLOCK_WORDS * self.marked.heap.blocks();
        let mut address = from.max(HEAP_START);
        while address < end {
            if self.has_row(table, address) {
                return Some(address);
            }
            address = self.next_place(table, address);
        }
        None
    }
}
