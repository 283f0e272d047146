//! The records, by index.

ghost use Rattle.std.specs.Prelude.{◌≡◌, ◌≢◌, ◌<◌, ◌≤◌, ℕ, None, Some, option_map, length, IfSome, MatchOption};
ghost use Rattle.std.specs.FinMap.{get};
ghost use Rattle.fz_model.specs.Memory.{points, written};
ghost use Rattle.own_heap.specs.Records.{object_of, objects_of, slot, value_of, with_cleared_at, with_field_at, AreFieldsKept, IsFull};

use crate::record::{FIELDS, Field, Record, place_of};
use fz_model::{Addr, Word};

/// The records of a heap by index; some indices are free.
#[derive(Drop)]
pub(crate) struct Records {
    pub(crate) slots: Vec<Option<Record>>,
}

impl Records {
    /// The first free index that is at least `from`.
    pub(crate) fn free_from(&self, from: usize) -> Option<usize>
        ensures found { MatchOption result (IsFull self.now.slots.items from) (λ place. (place < length self.now.slots.items) × (slot self.now.slots.items place ≡ None)) }
        ensures first { IfSome result (λ place. (k : ℕ) → from ≤ k → k < place → slot self.now.slots.items k ≢ None) }
    {
        for place in from..self.slots.len() {
            if self.slots[place].is_none() {
                return Some(place);
            }
        }
        None
    }

    /// The record with this address, if there is one.
    pub(crate) fn at(&self, address: Addr) -> Option<&Record>
        ensures { get (objects_of self.now.slots.items) address ≡ option_map (λ r. object_of r.now) result }
    {
        self.slots.get(place_of(address)?)?.as_ref()
    }

    /// The record that contains this field address.
    pub(crate) fn holder(&self, word: Addr) -> Option<Addr>
        ensures { result ≡ points (objects_of self.now.slots.items) word }
    {
        let start = word - word % FIELDS as u64;
        self.at(start).is_some().then_some(start)
    }

    /// The value of an ephemeron: the record that the field with this address hides.
    pub(crate) fn value(&self, word: Addr) -> Option<Addr>
        ensures { result ≡ value_of (objects_of self.now.slots.items) word }
    {
        let Some(start) = self.holder(word) else {
            return None;
        };
        let Some(read) = self.at(start) else {
            return None;
        };
        let field = read.fields[(word % FIELDS as u64) as usize];
        self.holder(field.word().saturating_sub(FIELDS as u64))
    }

    /// Writes a field of the record at an index, if there is one.
    pub(crate) fn set(&mut self, place: usize, field: usize, value: Field)
        requires { field < FIELDS }
        ensures { self.new.slots.items ≡ with_field_at place field value self.old.slots.items }
    {
        let Some(slot) = self.slots.get_mut(place) else {
            return;
        };
        if let Some(read) = slot {
            read.fields[field] = value;
        }
    }

    /// Clears a field of the record at an index, if there is one.
    fn empty(&mut self, place: usize, field: usize)
        requires { field < FIELDS }
        ensures { self.new.slots.items ≡ with_cleared_at place field self.old.slots.items }
    {
        let Some(slot) = self.slots.get_mut(place) else {
            return;
        };
        if let Some(read) = slot {
            read.fields[field] = read.fields[field].cleared();
        }
    }

    /// Clears the field with this address, unless it is a number.
    pub(crate) fn clear(&mut self, word: Addr)
        ensures objects { objects_of self.new.slots.items ≡ written word 0 (objects_of self.old.slots.items) }
        ensures fields { AreFieldsKept self.old.slots.items self.new.slots.items }
        ensures size { length self.new.slots.items ≡ length self.old.slots.items }
    {
        let start = word - word % FIELDS as u64;
        if let Some(place) = place_of(start) {
            self.empty(place, (word % FIELDS as u64) as usize);
        }
    }
}
