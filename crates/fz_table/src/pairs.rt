//! An iterator over the entries of an ordered map, as pairs of values.

ghost use Rattle.std.specs.Prelude.{◌≡◌, drop, length, Some, IfSome};
ghost use Rattle.std.specs.Iterator.{YieldsFirst, UpTo, at_most, item_count};
ghost use Rattle.std.specs.Iterator.SizeHint.{IsWithinCount};

use indexmap::map::Iter;
use std::marker::Model;

/// An iterator over the keys of a map with their values. Its model is the list of the remaining pairs.
#[derive(Drop)]
pub struct Pairs<'a, K, V> {
    entries: Iter<'a, K, V>,
}

impl<'a, K, V> Model for Pairs<'a, K, V> {
    ghost use Rattle.std.specs.Prelude.{List};

    ghost Value = { List (K × V) };

    ghost view = { λ pairs. pairs.entries };
}

impl<'a, K, V> Pairs<'a, K, V> {
    /// The remaining pairs of an iterator over a map.
    pub fn of(entries: Iter<'a, K, V>) -> Pairs<'a, K, V>
        ensures { result ≡ entries.entry }
    {
        Pairs { entries }
    }

    /// The pairs from an index on. Takes constant time.
    pub fn from_place(self, place: usize) -> Pairs<'a, K, V>
        ensures { result ≡ drop place self.entry }
    {
        let entries = self.entries.as_slice();
        let passed = place.min(entries.len());
        let (_, left) = entries.split_at(passed);
        Pairs {
            entries: left.iter(),
        }
    }
}

impl<'a, K: Copy, V: Copy> Iterator for Pairs<'a, K, V> {
    type Item = (K, V);

    ghost next_gives = { YieldsFirst (λ rest. rest) };

    ghost remaining = { item_count (λ rest. rest) };

    fn next(&mut self) -> Option<(K, V)> {
        let (key, value) = self.entries.next()?;
        Some((*key, *value))
    }

    fn size_hint(&self) -> (usize, Option<usize>)
        ensures lower { IsWithinCount result.0 (at_most (length self.now)) }
        ensures upper { IfSome result.1 (UpTo (at_most (length self.now))) }
        ensures exact { result ≡ (length self.now, Some (length self.now)) }
    {
        let left = self.entries.len();
        (left, Some(left))
    }
}

impl<'a, K: Copy, V: Copy> ExactSizeIterator for Pairs<'a, K, V> {
    fn len(&self) -> usize {
        self.entries.len()
    }
}
