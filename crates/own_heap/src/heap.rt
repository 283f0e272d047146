//! A heap of records.

ghost use Rattle.std.specs.Prelude.{◌≡◌, ◌^◌, ◌<◌, ◌≤◌, [], ℕ, false, if◌then◌else◌, is_some, length, replicate, IfOk, IfSome, IsTrue, MatchOption, None, Some};
ghost use Rattle.std.specs.FinMap.{get, retain_keys};
ghost use Rattle.std.specs.Option.{option_copied};
ghost use Rattle.fz_pass.specs.Marks.{IsClosed, Marks as MarksOf};
ghost use Rattle.own_heap.specs.Records.{address_of, objects_of, slot, with_field_at, IsFull, IsFullTo, IsLedByRoot, IsLedByWord, IsMade};
ghost use Rattle.own_heap.specs.Marking.{is_marked};

use crate::marks::Marks;
use crate::record::{FIELDS, Field, Record, RecordId, place_of};
use crate::records::Records;
use fz_model::Addr;
use std::alloc::{AllocError, Global};

/// Records, the marks of a collection, and the roots. Only `new` allocates.
#[derive(Drop)]
pub struct Heap {
    pub(crate) records: Records,
    pub(crate) marks: Marks,
    /// The roots of a collection.
    pub roots: Vec<RecordId>,
    /// No index before this one is free.
    pub(crate) cursor: usize,
    pub(crate) ghost few: { length records.slots.items ≤ 2 ^ 32 },
    pub(crate) ghost size: { length marks.marked.items ≡ length records.slots.items },
    pub(crate) ghost idle: { marks.waiting.items ≡ [] },
    pub(crate) ghost full: { IsFullTo records.slots.items cursor },
}

impl Heap {
    /// An empty heap with room for `size` records.
    pub fn new(alloc: Global, size: u32) -> Result<Heap, AllocError>
        ensures records { IfOk result (λ h. h.records.slots.items ≡ replicate size None) }
        ensures roots { IfOk result (λ h. h.roots.items ≡ []) }
        ensures fresh { IfOk result (λ h. h.cursor ≡ 0) }
    {
        Ok(Heap {
            records: Records {
                slots: vec![in alloc; None; size as usize]?,
            },
            marks: Marks {
                marked: vec![in alloc; false; size as usize]?,
                waiting: Vec::with_capacity(alloc, size as usize)?,
            },
            roots: Vec::new(alloc),
            cursor: 0,
        })
    }

    /// Makes a record at a free index. Returns `None` if no index is free.
    pub fn make(&mut self, fields: [Field; FIELDS]) -> Option<RecordId>
        ensures made { MatchOption result (self.new ≡ self.old) (λ id. IsMade self.old.records.slots.items self.new.records.slots.items id (record { fields = fields })) }
        ensures full { result ≡ None → IsFull self.old.records.slots.items 0 }
        ensures rest { (self.new.marks ≡ self.old.marks) × (self.new.roots ≡ self.old.roots) }
    {
        let place = self.records.free_from(self.cursor)?;
        self.records.slots[place] = Some(Record { fields });
        self.cursor = place + 1;
        Some(RecordId {
            place: place as u32,
        })
    }

    /// The record at this index, or `None` if there is none. If the record with this id was swept, it may be a later one.
    pub fn get(&self, id: RecordId) -> Option<&Record>
        ensures { option_copied result ≡ slot self.now.records.slots.items id.place }
    {
        self.records.slots.get(id.place as usize)?.as_ref()
    }

    /// Whether the record exists.
    pub fn contains(&self, id: RecordId) -> bool
        ensures { result ≡ is_some (slot self.now.records.slots.items id.place) }
    {
        self.get(id).is_some()
    }

    /// The record at an address, which an entry or a link has, or `None` if none is there.
    pub fn find(&self, address: Addr) -> Option<RecordId>
        ensures none { result ≡ None → get (objects_of self.now.records.slots.items) address ≡ None }
        ensures found { IfSome result (λ id. (address_of id.place ≡ address) × IsTrue (is_some (slot self.now.records.slots.items id.place))) }
    {
        let at = place_of(address)?;
        if at >= self.records.slots.len() {
            return None;
        }
        if self.records.slots[at].is_none() {
            return None;
        }
        Some(RecordId { place: at as u32 })
    }

    /// Writes a field of the record at this index. Does nothing if there is none. If the record with this id was swept, it may be a later one.
    pub fn set(&mut self, id: RecordId, field: usize, value: Field)
        requires { field < FIELDS }
        ensures set { self.new.records.slots.items ≡ with_field_at id.place field value self.old.records.slots.items }
        ensures rest { (self.new.marks ≡ self.old.marks) × (self.new.roots ≡ self.old.roots) × (self.new.cursor ≡ self.old.cursor) }
    {
        self.records.set(id.place as usize, field, value);
    }

    /// Marks everything that a word reaches. The word is the address of a record or of one of its fields.
    pub fn mark_word(&mut self, word: Addr)
        requires closed { IsClosed (objects_of self.old.records.slots.items) (is_marked self.old.marks) }
        ensures rest { (self.new.records ≡ self.old.records) × (self.new.roots ≡ self.old.roots) }
        ensures marked { MarksOf (Unit {0}) (objects_of self.old.records.slots.items) (is_marked self.old.marks) (is_marked self.new.marks) (IsLedByWord (objects_of self.old.records.slots.items) word) }
    {
        if let Some(object) = self.records.holder(word) {
            self.marks.add(object);
            self.records.close(&mut self.marks);
        }
    }

    /// Begins a collection: clears all marks, then marks everything that the roots reach.
    pub fn mark_roots(&mut self)
        ensures rest { (self.new.records ≡ self.old.records) × (self.new.roots ≡ self.old.roots) }
        ensures marked { MarksOf (Unit {0}) (objects_of self.old.records.slots.items) (λ a. false) (is_marked self.new.marks) (IsLedByRoot (objects_of self.old.records.slots.items) self.old.roots.items) }
    {
        self.marks.marked.fill(false);
        for index in 0..self.roots.len() {
            let root = self.roots[index];
            self.mark_word(root.address());
        }
    }

    /// Ends a collection: frees the unmarked records, whose indices can be used again.
    pub fn sweep(&mut self)
        ensures objects { objects_of self.new.records.slots.items ≡ retain_keys (objects_of self.old.records.slots.items) (is_marked self.old.marks) }
        // The marked records are unchanged, also numbers in their fields, which the model's objects don't have.
        ensures records { (place : ℕ) → slot self.new.records.slots.items place ≡ (if is_marked self.old.marks (address_of place) then slot self.old.records.slots.items place else None) }
        ensures size { length self.new.records.slots.items ≡ length self.old.records.slots.items }
        ensures cursor { self.new.cursor ≡ 0 }
        ensures rest { self.new.roots ≡ self.old.roots }
    {
        self.cursor = 0;
        for place in 0..self.records.slots.len() {
            if !self.marks.marked[place] {
                self.records.slots[place] = None;
            }
        }
    }
}
