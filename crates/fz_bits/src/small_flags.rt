//! A sparse set of numbers below 4,096.

ghost use Rattle.std.specs.Prelude.{◌≡◌, ◌≤◌, ◌<◌, ◌+◌, ◌*◌, not, ℕ, IsTrue, IsFalse, IfOk, IfErr, IfSome, MatchOption};
ghost use Rattle.std.specs.FinSet.{contains, insert, remove, empty};
ghost use Rattle.fz_bits.specs.Flags.{IsNext};
ghost use Rattle.fz_model.specs.Bits.{has_bit};

use crate::flags::Flags;
use crate::word_flags::WordFlags;
use fz_model::Refusal;
use std::alloc::Global;
use std::marker::Model;

/// The number of bits of a word.
const BITS: u64 = 64;

/// A set of numbers from 0 to at most 4,095. Like `SparseFlags` it has two levels of bits, of which the second fits into one word.
///
/// Finding the next member reads at most three words. Only `new` allocates, once.
#[derive(Drop)]
pub struct SmallFlags {
    flags: Flags<0>,
    /// Which words of `flags` aren't zero.
    words: WordFlags,
}

impl Model for SmallFlags {
    ghost use Rattle.std.specs.Prelude.{◌≡◌};
    ghost use Rattle.fz_bits.specs.Flags.{Flagged, flagged_code, AreWordsOf};

    ghost Value = { Flagged };

    ghost coded = { flagged_code };

    ghost view = { λ s. s.flags };

    ghost invariant = { λ s. AreWordsOf s.flags s.words × (s.words.size ≡ 64) };
}

impl SmallFlags {
    /// The empty set, with room for 64 numbers per word. Fails with `NoMemory` if the words can't be allocated.
    pub fn new(alloc: Global, words: u64) -> Result<SmallFlags, Refusal>
        requires few { words ≤ 64 }
        ensures refused { IfErr result (λ r. r ≡ Refusal.NoMemory) }
        ensures made { IfOk result (λ s. s ≡ record { size = 64 * words; members = empty }) }
    {
        let flags = Flags::new(alloc, words)?;
        Ok(SmallFlags {
            flags,
            words: WordFlags::new(),
        })
    }

    /// The length of the first level, in words of 64 numbers. Every member lies within it.
    pub fn words(&self) -> u64
        ensures size { self.now.size ≡ 64 * result }
        ensures within { (n : ℕ) → IsTrue (contains self.now.members n) → n < self.now.size }
        ensures few { result ≤ 64 }
    {
        self.flags.words()
    }

    /// The members among the 64 numbers of a word, as bits; the lowest number has the lowest bit.
    pub fn word(&self, index: u64) -> u64
        ensures { (place : ℕ) → place < 64 → has_bit result place ≡ contains self.now.members (64 * index + place) }
    {
        self.flags.word(index)
    }

    /// Adds a number, and returns whether it is new.
    pub fn insert(&mut self, number: u64) -> bool
        requires { number < self.old.size }
        ensures new { result ≡ not (contains self.old.members number) }
        ensures inserted { self.new ≡ record self.old { members = insert self.old.members number } }
    {
        self.words.insert(number / BITS);
        self.flags.insert(number)
    }

    /// Removes a number, and returns whether it was a member.
    pub fn remove(&mut self, number: u64) -> bool
        ensures found { result ≡ contains self.old.members number }
        ensures removed { self.new ≡ record self.old { members = remove self.old.members number } }
    {
        if !self.flags.remove(number) {
            return false;
        }
        let word = number / BITS;
        if self.flags.next_in_word(BITS * word).is_none() {
            self.words.remove(word);
        }
        true
    }

    /// The lowest member that is at least `from`.
    pub fn next(&self, from: u64) -> Option<u64>
        ensures next { MatchOption result ((n : ℕ) → from ≤ n → IsFalse (contains self.now.members n)) (λ next. IsNext self.now.members from next) }
        ensures within { IfSome result (λ next. next < self.now.size) }
    {
        let near = self.flags.next_in_word(from);
        if near.is_some() {
            return near;
        }
        let word = self.words.next(from / BITS + 1)?;
        self.flags.next_in_word(BITS * word)
    }
}
