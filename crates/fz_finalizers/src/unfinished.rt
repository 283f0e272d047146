//! Iterating over the entries that aren't finished.

ghost use Rattle.std.specs.Prelude.{◌≡◌, ◌≤◌, ◌<◌, ◌+◌, ℕ, List, drop, length, Some, IsTrue};
ghost use Rattle.std.specs.FinSet.{contains};
ghost use Rattle.std.specs.Iterator.{YieldsFirst, UpTo, at_most, item_count};
ghost use Rattle.fz_model.specs.declared.answers.Entry.{Entry};
ghost use Rattle.fz_finalizers.specs.Queue.{shown_in};
ghost use Rattle.fz_finalizers.specs.Walks.{Steps, somes};

use fz_bits::SparseFlags;
use fz_model::Entry;
use std::marker::Model;

/// An iterator over the entries that wait or are held, in queue order. Its model is the list of the remaining places, each with its entry, or with none if
/// the entry is finished.
#[derive(Drop)]
pub struct Entries<'a> {
    entries: &'a [Entry],
    unfinished: &'a SparseFlags,
    place: usize,
}

impl<'a> Model for Entries<'a> {
    ghost use Rattle.std.specs.Prelude.{ℕ, ◌<◌, List, Option, drop, length, IsTrue};
    ghost use Rattle.std.specs.FinSet.{contains};
    ghost use Rattle.fz_model.specs.declared.answers.Entry.{Entry};
    ghost use Rattle.fz_finalizers.specs.Queue.{shown_in};

    ghost Value = { List (Option Entry) };

    ghost view = { λ e. drop e.place (shown_in e.unfinished.now.members 0 e.entries.now) };

    ghost invariant = { λ e. (n : ℕ) → IsTrue (contains e.unfinished.now.members n) → n < length e.entries.now };
}

impl<'a> Iterator for Entries<'a> {
    type Item = Entry;

    ghost next_gives = { YieldsFirst somes };

    ghost remaining = { item_count somes };

    fn next(&mut self) -> Option<Entry> {
        self.step()
    }
}

impl<'a> Entries<'a> {
    /// The entries whose indices are in the set.
    pub(crate) fn of(entries: &'a [Entry], unfinished: &'a SparseFlags) -> Entries<'a>
        requires { (n : ℕ) → IsTrue (contains unfinished.now.members n) → n < length entries.now }
        ensures { result ≡ shown_in unfinished.now.members 0 entries.now }
    {
        Entries {
            entries,
            unfinished,
            place: 0,
        }
    }

    /// The entries from an index on. Takes constant time.
    pub fn from_place(self, place: usize) -> Entries<'a>
        ensures { result ≡ drop place self.entry }
    {
        let left = self.places().saturating_sub(place);
        Entries {
            entries: self.entries,
            unfinished: self.unfinished,
            place: self.entries.len() - left,
        }
    }

    /// How many places remain.
    pub fn places(&self) -> usize
        ensures { result ≡ length self.now }
    {
        self.entries.len().saturating_sub(self.place)
    }

    /// The next entry. Afterwards the iterator is at the place after it.
    pub(crate) fn step(&mut self) -> Option<Entry>
        ensures { Steps result self.old self.new }
    {
        let place = self.unfinished.next(self.place as u64)? as usize;
        self.place = place + 1;
        Some(self.entries[place])
    }
}
