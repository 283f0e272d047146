//! Where the objects and the words of items may lie, and what was told about them.

ghost use Rattle.std.specs.Prelude.{◌≡◌, ◌≤◌, ◌<◌, ◌+◌, ◌*◌, ◌^◌, ◌++◌, ℕ, [], ◌∷◌, nat_eq, min, drop, take, length, zip, slice_get, is_some, All, Some, IsOk, IsTrue, IsFalse, IfSome, OnOk, OnSome};
ghost use Rattle.std.specs.Map.{keys_of, lookup};
ghost use Rattle.fz_machine.specs.declared.question.TheConstants.{BATCH};
ghost use Rattle.fz_machine.specs.Regions.{place_in, region_of, is_marked, is_unmarked, begun, stopped, IsNoted, IsLooked, IsUntold, IsWhole, KeepsTable};

use crate::question::BATCH;
use fz_model::Addr;
use fz_table::AddressHasher;
use indexmap::IndexMap;
use std::alloc::{AllocError, Global};
use std::marker::Model;

/// The number of bytes from one place of a region to the next.
const STEP: u64 = 16;

/// The number of places of a region: one for each bit of a word.
pub(crate) const PLACES: u64 = 64;

/// The place of an object or a word in its region.
pub(crate) fn place_in(n: Addr) -> u64
    ensures { result ≡ place_in n }
{
    n / STEP % PLACES
}

/// The first address of the region of an object or a word.
pub(crate) fn region_of(n: Addr) -> Addr
    ensures { result ≡ region_of n }
{
    n - STEP * place_in(n)
}

/// 1 if a region begins at an odd number of words, otherwise 0.
#[inline(always)]
fn parity_of(region: Addr) -> usize
    ensures { result < 2 }
{
    (region / 8 % 2) as usize
}

/// The address of a place of a region.
pub(crate) fn address_of(region: Addr, place: u64) -> Addr
    requires { region + 16 * place < 2 ^ 64 }
    ensures { result ≡ region + 16 * place }
{
    region + STEP * place
}

/// A word with the bit of one place.
pub(crate) fn bit(place: u64) -> u64
    requires { place < 64 }
    ensures { result ≡ 2 ^ place }
{
    1 << place
}

/// A region: the bits of its noted places, and the word that was told of it.
#[derive(Clone, Copy, Debug, PartialEq, Eq)]
pub struct Noted {
    pub places: u64,
    pub told: u64,
}

/// The regions that a sweep asks about, each with a bit for each place where an object, or a word, may lie.
pub(crate) struct Regions {
    noted: IndexMap<Addr, Noted, AddressHasher>,
    /// The indices at which regions were found last: one for regions that begin at an even number of words, and one for the others. The next note is often in
    /// the same region. Successive words alternate between two regions.
    last: [usize; 2],
    /// Whether all is noted that the sweep is about. If not, it asks about no regions.
    complete: bool,
    /// In an open sweep: how many regions it asks about, the first ones, and of how many of them it was told.
    end: usize,
    heard: usize,
    /// How many the last question was about.
    asked: usize,
}

// Written by hand, so that the owner drops it by one proved call, not field by field at each exit of a function.
impl Drop for Regions {
    fn drop(self) {
        let Regions {
            noted: _,
            last: _,
            complete: _,
            end: _,
            heard: _,
            asked: _,
        } = self;
    }
}

impl Model for Regions {
    ghost use Rattle.std.specs.Prelude.{◌≤◌, drop, length, map, take};
    ghost use Rattle.std.specs.Map.{keys_of};
    ghost use Rattle.fz_machine.specs.Regions.{Regions, regions_code, placed, worded, AreRegions};

    ghost Value = { Regions };

    ghost coded = { regions_code };

    ghost view = { λ r. record {
      order = map placed r.noted.entries;
      told = map worded (take r.heard r.noted.entries);
      left = keys_of (drop r.heard (take r.end r.noted.entries));
      asked = r.asked;
      complete = r.complete;
    } };

    ghost invariant = { λ r. (r.heard ≤ r.end) × (r.end ≤ length r.noted.entries) × AreRegions r.noted.entries };
}

impl Regions {
    /// No regions. Something is noted only if `complete`.
    pub(crate) fn new(alloc: Global, complete: bool) -> Regions
        ensures { result ≡ record { order = []; told = []; left = []; asked = 0; complete = complete } }
    {
        Regions {
            noted: IndexMap::with_hasher(alloc, AddressHasher::of_words()),
            last: [0; 2],
            complete,
            end: 0,
            heard: 0,
            asked: 0,
        }
    }

    /// The allocator of the regions.
    pub(crate) fn allocator(&self) -> Global {
        *self.noted.allocator()
    }

    /// Whether all is noted.
    pub(crate) fn is_complete(&self) -> bool
        ensures { result ≡ self.now.complete }
    {
        self.complete
    }

    /// Whether a region is the one at an index.
    #[inline(always)]
    fn is_at(&self, index: usize, region: Addr) -> bool
        ensures { IsTrue result → slice_get (keys_of self.now.order) index ≡ Some region }
    {
        match self.noted.get_index(index) {
            Some((found, _)) => *found == region,
            None => false,
        }
    }

    /// The index of a region, if it is there. The one that was found last is looked at first.
    #[inline(always)]
    fn index_of(&self, region: Addr) -> Option<usize>
        ensures found { IfSome result (λ index. slice_get (keys_of self.now.order) index ≡ Some region) }
        ensures there { is_some result ≡ is_some (lookup (nat_eq region) self.now.order) }
    {
        let last = self.last[parity_of(region)];
        if self.is_at(last, region) {
            return Some(last);
        }
        self.noted.get_index_of(&region)
    }

    /// Sets the bit of an object or a word, if its region is there, and returns the word that was told of the region.
    #[inline(always)]
    fn place(&mut self, n: Addr) -> Option<u64>
        ensures same { self.new ≡ record self.old { order = self.new.order } }
        ensures keys { keys_of self.new.order ≡ keys_of self.old.order }
        ensures kept { (other : ℕ) → IsNoted self.old.order other → IsNoted self.new.order other }
        ensures noted { OnSome result (IsNoted self.new.order n) }
        ensures there { is_some result ≡ is_some (lookup (nat_eq (region_of n)) self.old.order) }
        ensures told { keys_of self.old.told ≡ keys_of self.old.order → result ≡ lookup (nat_eq (region_of n)) self.old.told }
    {
        let region = region_of(n);
        let place = bit(place_in(n));
        let Some(index) = self.index_of(region) else {
            return None;
        };
        self.last[parity_of(region)] = index;
        let noted = self.noted[index];
        let told = noted.told;
        self.noted[index] = Noted {
            places: noted.places | place,
            told,
        };
        Some(told)
    }

    /// Notes an object or a word in its region.
    fn note_there(&mut self, n: Addr) -> Result<(), AllocError>
        ensures same { self.new ≡ record self.old { order = self.new.order } }
        ensures noted { OnOk result (IsNoted self.new.order n) }
        ensures stays { IsNoted self.old.order n → IsOk result }
        ensures kept { (other : ℕ) → IsNoted self.old.order other → IsNoted self.new.order other }
        ensures tabled { length self.new.order ≤ length self.old.order + 1 }
    {
        if self.place(n).is_some() {
            return Ok(());
        }
        let noted = Noted {
            places: bit(place_in(n)),
            told: 0,
        };
        match self.noted.insert(region_of(n), noted) {
            Ok(_) => Ok(()),
            Err(_) => Err(AllocError),
        }
    }

    /// Notes an object or a word. Without memory for its region the table isn't complete any more.
    pub(crate) fn note(&mut self, n: Addr)
        ensures keeps { KeepsTable self.old self.new }
        ensures noted { IsTrue self.new.complete → IsNoted self.new.order n }
        ensures stays { IsNoted self.old.order n → self.new.complete ≡ self.old.complete }
        ensures tabled { length self.new.order ≤ length self.old.order + 1 }
    {
        if self.complete && self.note_there(n).is_err() {
            self.complete = false;
        }
    }

    /// Opens a sweep over all regions, if the table is complete.
    pub(crate) fn begin(&mut self)
        ensures { self.new ≡ begun self.old }
    {
        self.heard = 0;
        self.end = 0;
        self.asked = 0;
        if self.complete {
            self.end = self.noted.len();
        }
    }

    /// Ends a sweep early.
    pub(crate) fn stop(&mut self)
        ensures { self.new ≡ stopped self.old }
    {
        self.heard = 0;
        self.end = 0;
        self.asked = 0;
    }

    /// Whether it isn't told yet of some region.
    pub(crate) fn has_left(&self) -> bool
        ensures { result ≡ is_some (slice_get self.now.left 0) }
    {
        self.heard < self.end
    }

    /// How many regions the last question was about.
    pub(crate) fn asked(&self) -> usize
        ensures { result ≡ self.now.asked }
    {
        self.asked
    }

    /// Writes the first addresses of the next regions, as many as fit, and returns their number.
    pub(crate) fn ask(&mut self, about: &mut [Addr; BATCH]) -> usize
        ensures count { result ≡ min BATCH (length self.old.left) }
        ensures asked { self.new ≡ record self.old { asked = result } }
        ensures about { take result about.new ≡ take result self.old.left }
        ensures begin { All (λ region. place_in region ≡ 0) (take result self.old.left) }
    {
        let mut count = 0;
        while count < BATCH && count < self.end - self.heard {
            let Some((region, _)) = self.noted.get_index(self.heard + count) else {
                break;
            };
            about[count] = *region;
            count += 1;
        }
        self.asked = count;
        count
    }

    /// Is told of the next region, if there is one.
    fn hear_one(&mut self, word: u64)
        ensures { self.new ≡ record self.old { told = self.old.told ++ zip self.old.left (word ∷ []); left = drop 1 self.old.left } }
    {
        if self.heard < self.end {
            let places = self.noted[self.heard].places;
            self.noted[self.heard] = Noted { places, told: word };
            self.heard += 1;
        }
    }

    /// Is told of the regions that the last question was about.
    pub(crate) fn hear(&mut self, words: &[u64; BATCH])
        ensures told { self.new.told ≡ self.old.told ++ zip (take self.old.asked self.old.left) words.now }
        ensures left { self.new.left ≡ drop (min self.old.asked BATCH) self.old.left }
        ensures same { self.new ≡ record self.old { told = self.new.told; left = self.new.left } }
    {
        for word in &words[..self.asked.min(BATCH)] {
            self.hear_one(*word);
        }
    }

    /// Whether each noted place was told marked.
    fn is_all_marked(&self) -> bool
        requires whole { keys_of self.now.told ≡ keys_of self.now.order }
        ensures { IsTrue result → (n : ℕ) → IsNoted self.now.order n → IsTrue (is_marked self.now.told n) }
    {
        let mut index = 0;
        while index < self.noted.len() {
            let noted = self.noted[index];
            if noted.places & noted.told != noted.places {
                return false;
            }
            index += 1;
        }
        true
    }

    /// Forgets which places are noted.
    fn forget(&mut self)
        ensures same { self.new ≡ record self.old { order = self.new.order } }
        ensures keys { keys_of self.new.order ≡ keys_of self.old.order }
    {
        let mut index = 0;
        while index < self.noted.len() {
            let told = self.noted[index].told;
            self.noted[index] = Noted { places: 0, told };
            index += 1;
        }
    }

    /// Whether the phase behind a sweep has anything to list: not if all that is noted was told marked. If so, forgets which places are noted: `look` notes
    /// them again.
    pub(crate) fn lists(&mut self) -> bool
        requires whole { IsTrue self.old.complete → keys_of self.old.told ≡ keys_of self.old.order }
        ensures none { IsFalse result → IsTrue self.old.complete × ((n : ℕ) → IsNoted self.old.order n → IsTrue (is_marked self.old.told n)) × (self.new ≡ self.old) }
        ensures same { self.new ≡ record self.old { order = self.new.order } }
        ensures keys { keys_of self.new.order ≡ keys_of self.old.order }
    {
        if !self.complete {
            return true;
        }
        if self.is_all_marked() {
            return false;
        }
        self.forget();
        true
    }

    /// Notes an object or a word that a table holds, and returns whether it was told marked, and whether it was told unmarked.
    pub(crate) fn look(&mut self, n: Addr) -> (bool, bool)
        requires { IsWhole self.old }
        ensures marked { result.0 ≡ is_marked self.old.told n }
        ensures unmarked { result.1 ≡ is_unmarked self.old.told n }
        ensures looked { IsLooked n self.old self.new }
    {
        if !self.complete {
            return (false, false);
        }
        let Some(word) = self.place(n) else {
            return (false, false);
        };
        let marked = word & bit(place_in(n)) != 0;
        (marked, !marked)
    }

    /// Ends a sweep. Regions without noted places go.
    pub(crate) fn end(&mut self)
        ensures untold { IsUntold self.new }
        ensures same { self.new.complete ≡ self.old.complete }
        ensures noted { (n : ℕ) → IsNoted self.old.order n → IsNoted self.new.order n }
        ensures fewer { length self.new.order ≤ length self.old.order }
    {
        self.stop();
        let mut index = self.noted.len();
        while index > 0 {
            index -= 1;
            if self.noted[index].places == 0 {
                self.noted.swap_remove_index(index);
            }
        }
    }

    /// Frees memory that isn't needed.
    pub(crate) fn shrink(&mut self)
        ensures { self.new ≡ self.old }
    {
        self.noted.shrink_to_fit();
    }
}
