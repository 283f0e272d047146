//! A bitmap: a set of numbers with one bit for each.

ghost use Rattle.std.specs.Prelude.{◌≡◌, ◌≤◌, ◌<◌, ◌+◌, ◌*◌, ◌==◌, ◌&&◌, ◌^◌, not, max, min, slice_index, filter, ℕ, IsTrue, IsFalse, IfOk, IfErr, OnOk, OnErr, IfSome, MatchOption};
ghost use Rattle.std.specs.List.{range_with_len};
ghost use Rattle.std.specs.FinSet.{contains, insert, remove, empty, len};
ghost use Rattle.fz_bits.specs.Flags.{IsNext, IsRest, HasRoom, word_of};
ghost use Rattle.fz_model.specs.Bits.{has_bit};

use crate::members::Members;
use fz_model::Refusal;
use std::alloc::Global;
use std::marker::Model;

/// The bits of a word.
const BITS: u64 = 64;

/// A bitmap of numbers from `FIRST` on, 64 to a word. Only `new` and `extend_to` allocate.
///
/// If `FIRST` is the heap's first address, this is a set of addresses, and each word covers one block.
#[derive(Drop)]
pub struct Flags<const FIRST: u64> {
    words: Vec<u64>,
}

impl<const FIRST: u64> Model for Flags<FIRST> {
    ghost use Rattle.std.specs.Prelude.{◌+◌, ◌*◌, ◌≤◌, ◌^◌, length};
    ghost use Rattle.fz_bits.specs.Flags.{Flagged, flagged_code, flagged};

    ghost Value = { Flagged };

    ghost coded = { flagged_code };

    ghost view = { λ f. record { size = 64 * length f.words.items; members = flagged FIRST f.words.items } };

    ghost invariant = { λ f. FIRST + 64 * length f.words.items ≤ 2 ^ 64 };
}

impl<const FIRST: u64> Flags<FIRST> {
    /// The empty set, with room for 64 numbers per word. Fails with `NoMemory` if the words can't be allocated.
    pub fn new(alloc: Global, words: u64) -> Result<Flags<FIRST>, Refusal>
        requires fits { FIRST + 64 * words ≤ 2 ^ 64 }
        ensures refused { IfErr result (λ r. r ≡ Refusal.NoMemory) }
        ensures made { IfOk result (λ f. f ≡ record { size = 64 * words; members = empty }) }
    {
        let words = vec![in alloc; 0; words as usize]?;
        Ok(Flags { words })
    }

    /// Makes room for 64 numbers per word, if there is less. If it fails with `NoMemory`, nothing has changed.
    pub fn extend_to(&mut self, words: u64) -> Result<(), Refusal>
        requires fits { FIRST + 64 * words ≤ 2 ^ 64 }
        ensures refused { IfErr result (λ r. r ≡ Refusal.NoMemory) }
        ensures wanting { OnErr result (self.old.size + 64 ≤ 64 * words) }
        ensures unchanged { OnErr result (self.new ≡ self.old) }
        ensures members { self.new.members ≡ self.old.members }
        ensures room { OnOk result (64 * words ≤ self.new.size) }
        ensures kept { self.old.size ≤ self.new.size }
        ensures more { self.new.size ≤ max self.old.size (64 * words) }
    {
        if words > self.words.len() as u64 {
            self.words.resize(words as usize, 0)?;
        }
        Ok(())
    }

    /// Gives back the memory for numbers beyond these words. None of them may be a member.
    pub fn shrink_to(&mut self, words: u64)
        requires { (n : ℕ) → IsTrue (contains self.old.members n) → n < FIRST + 64 * words }
        ensures members { self.new.members ≡ self.old.members }
        ensures size { self.new.size ≡ min self.old.size (64 * words) }
    {
        self.words.truncate(words as usize);
        self.words.shrink_to_fit();
    }

    /// Whether the number is in the set.
    pub fn contains(&self, number: u64) -> bool
        ensures { result ≡ contains self.now.members number }
    {
        let place = number.saturating_sub(FIRST);
        let word = word_at(&self.words, place / BITS);
        number >= FIRST && word >> (place % BITS) & 1 == 1
    }

    /// Adds a number, and returns whether it is new.
    pub fn insert(&mut self, number: u64) -> bool
        requires { (FIRST ≤ number) × (number < FIRST + self.old.size) }
        ensures new { result ≡ not (contains self.old.members number) }
        ensures inserted { self.new ≡ record self.old { members = insert self.old.members number } }
        ensures room { len self.new.members ≤ self.new.size }
    {
        let place = number - FIRST;
        let bit = 1 << (place % BITS);
        let word = &mut self.words[(place / BITS) as usize];
        let is_new = *word & bit == 0;
        *word |= bit;
        is_new
    }

    /// Removes a number, and returns whether it was a member.
    pub fn remove(&mut self, number: u64) -> bool
        ensures found { result ≡ contains self.old.members number }
        ensures removed { self.new ≡ record self.old { members = remove self.old.members number } }
    {
        if !self.contains(number) {
            return false;
        }
        // `FIRST` is the lowest number that can be a member.
        let place = number.saturating_sub(FIRST);
        self.words[(place / BITS) as usize] &= !(1 << (place % BITS));
        true
    }

    /// The lowest member that is at least `from`.
    pub fn next(&self, from: u64) -> Option<u64>
        ensures next { MatchOption result ((n : ℕ) → from ≤ n → IsFalse (contains self.now.members n)) (λ next. IsNext self.now.members from next) }
        ensures within { IfSome result (λ next. next < FIRST + self.now.size) }
        ensures low { IfSome result (λ next. FIRST ≤ next) }
        ensures fits { FIRST + self.now.size ≤ 2 ^ 64 }
    {
        let mut index = from.saturating_sub(FIRST) / BITS;
        let mut rest = self.word_from(from);
        while rest == 0 {
            index += 1;
            rest = *self.words.get(index as usize)?;
        }
        Some(FIRST + BITS * index + u64::from(rest.trailing_zeros()))
    }

    /// The lowest member that is at least `from`, among the 64 numbers of the same word.
    pub fn next_in_word(&self, from: u64) -> Option<u64>
        ensures next { MatchOption result ((n : ℕ) → from ≤ n → word_of FIRST n ≡ word_of FIRST from → IsFalse (contains self.now.members n)) (λ next. IsNext self.now.members from next) }
        ensures within { IfSome result (λ next. next < FIRST + self.now.size) }
        ensures low { IfSome result (λ next. FIRST ≤ next) }
        ensures near { IfSome result (λ next. word_of FIRST next ≡ word_of FIRST from) }
    {
        let index = from.saturating_sub(FIRST) / BITS;
        let rest = self.word_from(from);
        if rest == 0 {
            return None;
        }
        Some(FIRST + BITS * index + u64::from(rest.trailing_zeros()))
    }

    /// An iterator over the members, in ascending order.
    pub fn iter(&self) -> Members<'_, FIRST>
        ensures { result ≡ filter (contains self.now.members) (range_with_len FIRST self.now.size) }
    {
        Members::of(self)
    }

    /// The members among the 64 numbers of a word, as bits; the lowest number has the lowest bit.
    pub fn word(&self, index: u64) -> u64
        ensures { (place : ℕ) → place < 64 → has_bit result place ≡ contains self.now.members (FIRST + 64 * index + place) }
    {
        word_at(&self.words, index)
    }

    /// The length of the bitmap, in words.
    pub fn words(&self) -> u64
        ensures size { self.now.size ≡ 64 * result }
    {
        self.words.len() as u64
    }

    /// Removes all 64 numbers of a word.
    pub fn clear_word(&mut self, index: u64)
        requires { 64 * index < self.old.size }
        ensures size { self.new.size ≡ self.old.size }
        ensures cleared { (n : ℕ) → contains self.new.members n ≡ (contains self.old.members n && not (word_of FIRST n == index)) }
        ensures room { len self.new.members ≤ self.new.size }
    {
        self.words[index as usize] = 0;
    }

    /// Makes it equal to another set with the same room.
    pub fn copy_from(&mut self, other: &Flags<FIRST>)
        requires { self.old.size ≡ other.now.size }
        ensures copied { self.new ≡ other.now }
        ensures room { len self.new.members ≤ self.new.size }
    {
        self.words.copy_from_slice(&other.words);
    }

    /// Empties the set.
    pub fn clear(&mut self)
        ensures { self.new ≡ record self.old { members = empty } }
    {
        self.words.fill(0);
    }

    /// The word that contains the number's bit, without the bits of lower numbers.
    fn word_from(&self, number: u64) -> u64
        ensures rest { IsRest FIRST self.now.members number (word_of FIRST number) result }
        ensures room { HasRoom FIRST self.now }
    {
        let place = number.saturating_sub(FIRST);
        let smaller = place % BITS;
        word_at(&self.words, place / BITS) >> smaller << smaller
    }
}

/// The word at an index; 0 past the end.
fn word_at(words: &[u64], index: u64) -> u64
    ensures { result ≡ slice_index words.now index }
{
    words.get(index as usize).copied().unwrap_or(0)
}
