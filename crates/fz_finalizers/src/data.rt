//! Iterating over the client data of registrations and cleanups.

ghost use Rattle.std.specs.Prelude.{◌≡◌, ◌≤◌, ◌+◌, ◌-◌, [], ◌∷◌, ℕ, List, drop, length, MatchOption};
ghost use Rattle.fz_table.specs.declared.limits.TheConstants.{MOST_ENTRIES};
ghost use Rattle.fz_finalizers.specs.Walks.{data_of};

use crate::cleanups::Attached;
use fz_table::{Pairs, Registrations};
use std::marker::Model;

/// An iterator over the client data of the registrations, and then of the cleanups. Its model is the list of the remaining words.
#[derive(Drop)]
pub(crate) struct Data<'a> {
    registrations: Registrations<'a>,
    cleanups: Pairs<'a, u64, Attached>,
}

impl<'a> Model for Data<'a> {
    ghost use Rattle.std.specs.Prelude.{ℕ, List};
    ghost use Rattle.fz_finalizers.specs.Walks.{AreShort, data_of};

    ghost Value = { List ℕ };

    ghost view = { λ d. data_of d.registrations d.cleanups };

    ghost invariant = { λ d. AreShort d.registrations d.cleanups };
}

impl<'a> Data<'a> {
    /// The data of these registrations and cleanups.
    pub(crate) fn of(
        registrations: Registrations<'a>,
        cleanups: Pairs<'a, u64, Attached>,
    ) -> Data<'a>
        requires registered { length registrations ≤ MOST_ENTRIES }
        requires attached { length cleanups ≤ MOST_ENTRIES }
        ensures { result ≡ data_of registrations.entry cleanups.entry }
    {
        Data {
            registrations,
            cleanups,
        }
    }

    /// The words from an index on. Takes constant time.
    pub(crate) fn from_place(self, place: usize) -> Data<'a>
        ensures { result ≡ drop place self.entry }
    {
        let passed = place.min(self.registrations.len());
        Data {
            registrations: self.registrations.from_place(passed),
            cleanups: self.cleanups.from_place(place - passed),
        }
    }

    /// How many words remain.
    pub(crate) fn places(&self) -> usize
        ensures { result ≡ length self.now }
    {
        self.registrations.len() + self.cleanups.len()
    }

    /// The next word.
    pub(crate) fn step(&mut self) -> Option<u64>
        ensures { MatchOption result ((self.old ≡ []) × (self.new ≡ self.old)) (λ word. self.old ≡ word ∷ self.new) }
    {
        if let Some((_, registration)) = self.registrations.next() {
            return Some(registration.cd);
        }
        Some(self.cleanups.next()?.1.cleanup.client_data)
    }
}
