//! Iterating over the roots for a host's marker.

ghost use Rattle.std.specs.Prelude.{◌≡◌, ◌≤◌, ◌<◌, ◌+◌, ◌++◌, ℕ, List, min, map, take, drop, length, Some, IfSome};
ghost use Rattle.std.specs.FinMap.{get, from_entries};
ghost use Rattle.std.specs.Iterator.{YieldsFirst, UpTo, at_most, item_count};
ghost use Rattle.fz_model.specs.declared.answers.Entry.{Entry};
ghost use Rattle.fz_model.specs.declared.answers.Registration.{Registration};
ghost use Rattle.fz_finalizers.specs.Walks.{IsRest, Steps, YieldsRoots, roots_of, somes};

use crate::data::Data;
use crate::finalizers::Finalizers;
use crate::unfinished::Entries;
use std::marker::Model;

/// A kind of roots.
#[derive(Clone, Copy, Debug, PartialEq, Eq)]
pub enum Root {
    /// The objects of entries that wait or are held. These objects themselves are roots. The entry of a cleanup has no object, and yields 0.
    HeldObject,
    /// The client data of entries that wait or are held. It is a root if it points to an object.
    HeldData,
    /// The client data of registrations and of cleanups, for hosts that treat it as a root: in bdwgc this is a build option.
    RegisteredData,
}

/// An iterator over the roots of one kind. Its model is the list of the remaining places, each with its word, or with none if the entry is finished.
#[derive(Drop)]
pub struct Roots<'a> {
    root: Root,
    entries: Entries<'a>,
    registered: Data<'a>,
}

impl<'a> Model for Roots<'a> {
    ghost use Rattle.std.specs.Prelude.{ℕ, List, Option};
    ghost use Rattle.fz_finalizers.specs.Walks.{words_left};

    ghost Value = { List (Option ℕ) };

    ghost view = { λ r. words_left r.root r.entries r.registered };
}

impl<'a> Iterator for Roots<'a> {
    type Item = u64;

    ghost next_gives = { YieldsFirst somes };

    ghost remaining = { item_count somes };

    fn next(&mut self) -> Option<u64> {
        self.step()
    }
}

impl<'a> Roots<'a> {
    /// The roots from an index on. Takes constant time.
    pub fn from_place(self, place: usize) -> Roots<'a>
        ensures { result ≡ drop place self.entry }
    {
        Roots {
            root: self.root,
            entries: self.entries.from_place(place),
            registered: self.registered.from_place(place),
        }
    }

    /// How many places remain. The number at the start minus this one is how many were passed.
    pub fn places(&self) -> usize
        ensures { result ≡ length self.now }
    {
        match self.root {
            Root::HeldObject | Root::HeldData => self.entries.places(),
            Root::RegisteredData => self.registered.places(),
        }
    }

    /// The next word. Afterwards the iterator is at the place after it.
    fn step(&mut self) -> Option<u64>
        ensures { Steps result self.old self.new }
    {
        match self.root {
            Root::HeldObject => Some(self.entries.step()?.obj),
            Root::HeldData => Some(self.entries.step()?.cd),
            Root::RegisteredData => Some(self.registered.step()?),
        }
    }

    /// Writes the next words into the buffer, as many as fit or remain, but at most `most`. Returns their number.
    pub fn fill(&mut self, buffer: &mut [u64], most: usize) -> usize
        ensures count { result ≡ min (min (length buffer.old) most) (length (somes self.old)) }
        ensures filled { take result buffer.new ≡ take result (somes self.old) }
        ensures beyond { drop result buffer.new ≡ drop result buffer.old }
        ensures left { somes self.new ≡ drop result (somes self.old) }
        ensures rest { IsRest self.old self.new }
    {
        let mut filled = 0;
        for place in buffer.iter_mut() {
            if filled == most {
                return filled;
            }
            let Some(word) = self.step() else {
                return filled;
            };
            *place = word;
            filled += 1;
        }
        filled
    }
}

impl Finalizers {
    /// An iterator over the roots of one kind. A host marks from the held objects and their data before each pass, so the arguments of a finalizer are
    /// retained until it is finished. The iterator stays the same until the next call that takes `&mut self`, even one that fails. So an iteration can
    /// continue later from an index.
    pub fn roots(&self, root: Root) -> Roots<'_>
        ensures sort { YieldsRoots root self.now.state (somes result) }
        ensures order { result ≡ roots_of root self.now }
    {
        Roots {
            root,
            entries: self.entries(),
            registered: Data::of(self.iter(), self.iter_cleanups()),
        }
    }
}
