//! A sparse set of numbers, whose members may be far apart.

ghost use Rattle.std.specs.Prelude.{◌≡◌, ◌≤◌, ◌<◌, ◌+◌, ◌*◌, ◌^◌, not, min, ℕ, IsTrue, IsFalse, IfOk, IfErr, OnOk, OnErr, IfSome, MatchOption};
ghost use Rattle.std.specs.FinSet.{contains, insert, remove, empty};
ghost use Rattle.fz_bits.specs.Flags.{IsNext};

use crate::flags::Flags;
use fz_model::Refusal;
use std::alloc::Global;
use std::marker::Model;

/// The number of bits of a word.
const BITS: u64 = 64;

/// A set of numbers from 0 on, in two levels of bits: one bit for each number, and one for each word of the first level that isn't zero.
///
/// Finding the next member skips 4,096 numbers in each step. Only `new` and `extend_to` allocate.
#[derive(Drop)]
pub struct SparseFlags {
    flags: Flags<0>,
    /// Which words of `flags` aren't zero.
    words: Flags<0>,
}

impl Model for SparseFlags {
    ghost use Rattle.fz_bits.specs.Flags.{Flagged, flagged_code, AreWordsOf};

    ghost Value = { Flagged };

    ghost coded = { flagged_code };

    ghost view = { λ s. s.flags };

    ghost invariant = { λ s. AreWordsOf s.flags s.words };
}

impl SparseFlags {
    /// The empty set, with room for 64 numbers per word. Fails with `NoMemory` if the words can't be allocated.
    pub fn new(alloc: Global, words: u64) -> Result<SparseFlags, Refusal>
        requires fits { 64 * words ≤ 2 ^ 64 }
        ensures refused { IfErr result (λ r. r ≡ Refusal.NoMemory) }
        ensures made { IfOk result (λ s. s ≡ record { size = 64 * words; members = empty }) }
    {
        let flags = Flags::new(alloc, words)?;
        let words = Flags::new(alloc, words.div_ceil(BITS))?;
        Ok(SparseFlags { flags, words })
    }

    /// Makes room for 64 numbers per word, if there is less. If it fails with `NoMemory`, nothing has changed.
    pub fn extend_to(&mut self, words: u64) -> Result<(), Refusal>
        requires fits { 64 * words ≤ 2 ^ 64 }
        ensures refused { IfErr result (λ r. r ≡ Refusal.NoMemory) }
        ensures wanting { OnErr result (self.old.size + 64 ≤ 64 * words) }
        ensures unchanged { OnErr result (self.new ≡ self.old) }
        ensures members { self.new.members ≡ self.old.members }
        ensures room { OnOk result (64 * words ≤ self.new.size) }
        ensures kept { self.old.size ≤ self.new.size }
    {
        self.words.extend_to(words.div_ceil(BITS))?;
        self.flags.extend_to(words)
    }

    /// Gives back the memory for numbers beyond these words. None of them may be a member.
    pub fn shrink_to(&mut self, words: u64)
        requires { (n : ℕ) → IsTrue (contains self.old.members n) → n < 64 * words }
        ensures members { self.new.members ≡ self.old.members }
        ensures size { self.new.size ≡ min self.old.size (64 * words) }
    {
        self.words.shrink_to(words.div_ceil(BITS));
        self.flags.shrink_to(words);
    }

    /// Whether the number is in the set.
    pub fn contains(&self, number: u64) -> bool
        ensures { result ≡ contains self.now.members number }
    {
        self.flags.contains(number)
    }

    /// Adds a number, and returns whether it is new.
    pub fn insert(&mut self, number: u64) -> bool
        requires { number < self.old.size }
        ensures new { result ≡ not (contains self.old.members number) }
        ensures inserted { self.new ≡ record self.old { members = insert self.old.members number } }
    {
        self.words.insert(number / BITS);
        self.flags.insert(number)
    }

    /// Removes a number, and returns whether it was a member.
    pub fn remove(&mut self, number: u64) -> bool
        ensures found { result ≡ contains self.old.members number }
        ensures removed { self.new ≡ record self.old { members = remove self.old.members number } }
    {
        let is_member = self.flags.remove(number);
        let word = number / BITS;
        if self.flags.next_in_word(BITS * word).is_none() {
            self.words.remove(word);
        }
        is_member
    }

    /// The lowest member that is at least `from`.
    pub fn next(&self, from: u64) -> Option<u64>
        ensures next { MatchOption result ((n : ℕ) → from ≤ n → IsFalse (contains self.now.members n)) (λ next. IsNext self.now.members from next) }
        ensures within { IfSome result (λ next. next < self.now.size) }
        ensures fits { self.now.size ≤ 2 ^ 64 }
    {
        let near = self.flags.next_in_word(from);
        if near.is_some() {
            return near;
        }
        let word = self.words.next(from / BITS + 1)?;
        self.flags.next_in_word(BITS * word)
    }
}
