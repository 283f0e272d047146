//! The dirty pages of a heap: those written since the set was last cleared.
#![tactic(auto)]

ghost use Rattle.std.specs.Prelude.{◌≡◌, ◌≤◌, ◌<◌, filter, ℕ, IsFalse, IfOk, IfErr, IfSome, MatchOption};
ghost use Rattle.std.specs.List.{range_with_len};
ghost use Rattle.std.specs.FinSet.{contains, insert, empty, len};
ghost use Rattle.fz_bits.specs.Flags.{IsNext};

use fz_bits::{Flags, Members};
use fz_model::Refusal;
use std::alloc::Global;
use std::marker::Model;

/// The set of dirty pages, each by its index from 0 (Boehm, Demers and Shenker 1991). Only `new` allocates.
pub struct Dirty {
    noted: Flags<0>,
    pages: u64,
    count: u64,
}

// Written by hand, so that the owner drops it by one proved call, not field by field at each exit of a function.
impl Drop for Dirty {
    fn drop(self) {
        let Dirty {
            noted: _,
            pages: _,
            count: _,
        } = self;
    }
}

impl Model for Dirty {
    ghost use Rattle.fz_dirty.specs.Pages.{Pages, pages_code, ArePages};

    ghost Value = { Pages };

    ghost coded = { pages_code };

    ghost view = { λ d. record { pages = d.pages; noted = d.noted.members } };

    ghost invariant = { λ d. ArePages d.noted d.pages d.count };
}

impl Dirty {
    /// A set for this many pages, none of them dirty. Fails with `NoMemory` if its bits can't be allocated.
    pub fn new(alloc: Global, pages: u64) -> Result<Dirty, Refusal>
        ensures refused { IfErr result (λ r. r ≡ Refusal.NoMemory) }
        ensures made { IfOk result (λ d. d ≡ record { pages = pages; noted = empty }) }
    {
        let noted = Flags::new(alloc, pages / 64 + 1)?;
        Ok(Dirty {
            noted,
            pages,
            count: 0,
        })
    }

    /// Marks a page as dirty.
    pub fn mark(&mut self, page: u64)
        requires { page < self.old.pages }
        ensures { self.new ≡ record self.old { noted = insert self.old.noted page } }
    {
        if self.noted.insert(page) {
            self.count += 1;
        }
    }

    /// Whether the page is dirty.
    pub fn is(&self, page: u64) -> bool
        ensures { result ≡ contains self.now.noted page }
    {
        self.noted.contains(page)
    }

    /// How many pages are dirty.
    pub fn count(&self) -> u64
        ensures { result ≡ len self.now.noted }
    {
        self.count
    }

    /// The lowest dirty page that is at least `from`.
    pub fn next(&self, from: u64) -> Option<u64>
        ensures next { MatchOption result ((n : ℕ) → from ≤ n → IsFalse (contains self.now.noted n)) (λ next. IsNext self.now.noted from next) }
        ensures within { IfSome result (λ page. page < self.now.pages) }
    {
        self.noted.next(from)
    }

    /// The dirty pages, in ascending order.
    pub fn iter(&self) -> Members<'_, 0>
        ensures { result ≡ filter (contains self.now.noted) (range_with_len 0 self.now.pages) }
    {
        self.noted.iter()
    }

    /// Makes all pages clean.
    pub fn take_all(&mut self)
        ensures { self.new ≡ record self.old { noted = empty } }
    {
        self.noted.clear();
        self.count = 0;
    }
}
