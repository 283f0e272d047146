//! Iterating over registrations.

ghost use Rattle.std.specs.Prelude.{◌≡◌, drop, length, map, Some, IfSome};
ghost use Rattle.std.specs.Iterator.{YieldsFirst, UpTo, at_most, item_count};
ghost use Rattle.std.specs.Iterator.SizeHint.{IsWithinCount};
ghost use Rattle.fz_table.specs.Tabled.{plain};

use crate::pairs::Pairs;
use crate::stored::Stored;
use fz_model::{Addr, Registration};
use std::marker::Model;

/// An iterator over registrations with their objects. Its model is the list of the remaining ones.
#[derive(Drop)]
pub struct Registrations<'a> {
    stored: Pairs<'a, Addr, Stored>,
}

impl<'a> Model for Registrations<'a> {
    ghost use Rattle.std.specs.Prelude.{ℕ, List, map};
    ghost use Rattle.fz_model.specs.declared.answers.Registration.{Registration};
    ghost use Rattle.fz_table.specs.Tabled.{plain};

    ghost Value = { List (ℕ × Registration) };

    ghost view = { λ r. map plain r.stored };
}

impl<'a> Registrations<'a> {
    /// The registrations without their flags.
    pub(crate) fn of(stored: Pairs<'a, Addr, Stored>) -> Registrations<'a>
        ensures { result ≡ map plain stored.entry }
    {
        Registrations { stored }
    }

    /// The registrations from an index on. Takes constant time.
    pub fn from_place(self, place: usize) -> Registrations<'a>
        ensures { result ≡ drop place self.entry }
    {
        Registrations {
            stored: self.stored.from_place(place),
        }
    }
}

impl<'a> Iterator for Registrations<'a> {
    type Item = (Addr, Registration);

    ghost next_gives = { YieldsFirst (λ rest. rest) };

    ghost remaining = { item_count (λ rest. rest) };

    fn next(&mut self) -> Option<(Addr, Registration)> {
        let (object, stored) = self.stored.next()?;
        Some((object, stored.registration()))
    }

    fn size_hint(&self) -> (usize, Option<usize>)
        ensures lower { IsWithinCount result.0 (at_most (length self.now)) }
        ensures upper { IfSome result.1 (UpTo (at_most (length self.now))) }
        ensures exact { result ≡ (length self.now, Some (length self.now)) }
    {
        let left = self.stored.len();
        (left, Some(left))
    }
}

impl<'a> ExactSizeIterator for Registrations<'a> {
    fn len(&self) -> usize {
        self.stored.len()
    }
}
