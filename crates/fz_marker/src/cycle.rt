//! The marks of a collection cycle, and how scanning changes them.

ghost use Rattle.std.specs.Prelude.{◌⊎◌, [], ◌≡◌, ◌≤◌, ◌<◌, ◌+◌, ◌*◌, ◌&&◌, not, cond, ℕ, IsTrue, IsFalse};
ghost use Rattle.std.specs.FinSet.{contains, len};
ghost use Rattle.fz_model.specs.declared.limits.TheConstants.{BLOCK_WORDS, MAX_BLOCKS};
ghost use Rattle.fz_model.specs.Allocation.{block_start};
ghost use Rattle.fz_model.specs.Extents.{extents, AreApart};
ghost use Rattle.fz_model.specs.Reachability.{Child};
ghost use Rattle.fz_bits.specs.Flags.{Set};
ghost use Rattle.fz_marker.specs.Frontiers.{Gains, IsAmong};
ghost use Rattle.fz_marker.specs.Marking.{IsLeft, is_on_noted, is_readable};
ghost use Rattle.fz_marker.specs.Cycles.{IsCycle, AllWait, WaitsOr, Visits, Proceeds, has_pointers};
ghost use Rattle.fz_marker.specs.Standing.{HasWordOn, StandsOn, IsOnNotedFrom, IsAhead};

use crate::frontier::Frontier;
use fz_bits::Flags;
use fz_dirty::Dirty;
use fz_heap::Heap;
use fz_model::{Addr, BLOCK_WORDS, HEAP_START, Progress};

/// Which objects are marked, which of them were scanned, and the number of scans.
#[derive(Drop)]
pub(crate) struct Cycle {
    pub(crate) marks: Frontier,
    pub(crate) scanned: Flags<HEAP_START>,
    pub(crate) scans: u64,
}

impl Cycle {
    /// Whether the object has words to scan and wasn't scanned.
    fn is_unread(&self, heap: &Heap, start: Addr) -> bool
        ensures { result ≡ (not (contains self.now.scanned.members start) && has_pointers heap.now.objects start) }
    {
        !self.scanned.contains(start) && !heap.pointers(start).is_empty()
    }

    /// Marks the children of an object. This counts as a scan if the object has words to scan.
    // Inlined as `visit` is: the loop of `step` runs this for each object, and a call would cost as much as scanning a few words.
    #[inline(always)]
    fn read(&mut self, heap: &Heap, start: Addr)
        requires size { self.old.marks.size ≡ BLOCK_WORDS * heap.now.blocks }
        requires room { len self.old.marks.members ≤ self.old.marks.size }
        requires few { self.old.scans ≤ 3 * self.old.marks.size }
        requires small { self.old.marks.size ≤ BLOCK_WORDS * MAX_BLOCKS }
        ensures marks { Gains self.old.marks self.new.marks (Child heap.now.objects start) }
        ensures scans { self.new.scans ≡ self.old.scans + cond (has_pointers heap.now.objects start) 1 0 }
        ensures scanned { self.new.scanned ≡ self.old.scanned }
    {
        let words = heap.pointers(start);
        self.scans += u64::from(!words.is_empty());
        self.marks.add_targets(heap, words);
    }

    /// Scans a marked object unless it was scanned already. Returns whether it is scanned now: it isn't if that would take more than `limit` scans.
    #[inline(always)]
    fn visit(&mut self, heap: &Heap, start: Addr, limit: u64) -> bool
        requires size { self.old.marks.size ≡ BLOCK_WORDS * heap.now.blocks }
        requires cycle { IsCycle self.old }
        requires few { self.old.scans ≤ 3 * self.old.marks.size }
        requires among { IsAmong self.old.marks.size start }
        ensures visited { IsTrue result → Visits heap.now.objects start self.old self.new }
        ensures refused { IsFalse result → (self.new ≡ self.old) × (limit ≤ self.old.scans) × IsFalse (contains self.old.scanned.members start) × IsTrue (is_readable heap.now.objects start) }
        ensures limited { self.old.scans ≤ limit → self.new.scans ≤ limit }
    {
        if self.scans >= limit && self.is_unread(heap, start) {
            return false;
        }
        if self.scanned.insert(start) {
            self.read(heap, start);
        }
        true
    }

    /// Scans waiting objects until none waits, or until another scan would exceed `budget`.
    pub(crate) fn step(&mut self, heap: &Heap, budget: u64) -> Progress
        requires size { self.old.marks.size ≡ BLOCK_WORDS * heap.now.blocks }
        requires cycle { IsCycle self.old }
        requires waits { AllWait self.old }
        requires few { self.old.scans ≤ 2 * self.old.marks.size }
        ensures proceeds { Proceeds heap.now.objects self.old self.new }
        ensures waits { AllWait self.new }
        ensures done { result ≡ Progress.Done → self.new.marks.waiting ≡ [] }
        ensures more { result ≡ Progress.More → (self.new.scans ≡ self.old.scans + budget) × IsLeft heap.now.objects self.new.marks.members self.new.scanned.members }
        ensures limited { self.new.scans ≤ self.old.scans + budget }
    {
        let limit = self.scans.saturating_add(budget);
        while let Some(start) = self.marks.pop() {
            if !self.visit(heap, start, limit) {
                self.marks.put_back(start);
                return Progress::More;
            }
        }
        Progress::Done
    }

    /// Makes the objects on a page unscanned.
    fn forget_page(&mut self, heap: &Heap, page: u64)
        requires within { BLOCK_WORDS * page < self.old.scanned.size }
        requires small { self.old.scanned.size ≤ BLOCK_WORDS * MAX_BLOCKS }
        ensures marks { self.new.marks ≡ self.old.marks }
        ensures scans { self.new.scans ≡ self.old.scans }
        ensures size { self.new.scanned.size ≡ self.old.scanned.size }
        ensures few { len self.new.scanned.members ≤ self.new.scanned.size }
        ensures gone { (a : ℕ) → IsTrue (contains self.new.scanned.members a) → IsTrue (contains self.old.scanned.members a) × (HasWordOn heap.now.objects page a → ⊥) }
        ensures others { (a : ℕ) → IsTrue (contains self.old.scanned.members a) → IsTrue (contains self.new.scanned.members a) ⊎ StandsOn heap.now.objects page a }
        ensures apart { AreApart (extents heap.now.objects) }
    {
        self.scanned.clear_word(page);
        // An object of several pages may start on an earlier page.
        if let Some(start) = heap.resolve(HEAP_START + BLOCK_WORDS * page) {
            self.scanned.remove(start);
        }
    }

    /// Makes the objects on dirty pages unscanned.
    pub(crate) fn forget(&mut self, heap: &Heap, dirty: &Dirty)
        requires size { self.old.scanned.size ≡ BLOCK_WORDS * dirty.now.pages }
        requires few { len self.old.scanned.members ≤ self.old.scanned.size }
        requires small { self.old.scanned.size ≤ BLOCK_WORDS * MAX_BLOCKS }
        ensures marks { self.new.marks ≡ self.old.marks }
        ensures scans { self.new.scans ≡ self.old.scans }
        ensures size { self.new.scanned.size ≡ self.old.scanned.size }
        ensures few { len self.new.scanned.members ≤ self.new.scanned.size }
        ensures gone { (a : ℕ) → IsTrue (contains self.new.scanned.members a) → IsTrue (contains self.old.scanned.members a) × IsFalse (is_on_noted heap.now.objects dirty.now.noted a) }
        ensures others { (a : ℕ) → IsTrue (contains self.old.scanned.members a) → IsTrue (contains self.new.scanned.members a) ⊎ IsOnNotedFrom heap.now.objects dirty.now.noted 0 a }
        // Only the loop over dirty pages uses the heap.
        ensures apart { (page : ℕ) → IsTrue (contains dirty.now.noted page) → AreApart (extents heap.now.objects) }
    {
        let mut from = 0;
        while let Some(page) = dirty.next(from) {
            self.forget_page(heap, page);
            from = page + 1;
        }
    }

    /// Scans the object that contains a page's first word, if it is marked and wasn't scanned.
    fn rescan_first(&mut self, heap: &Heap, page: u64)
        requires size { self.old.marks.size ≡ BLOCK_WORDS * heap.now.blocks }
        requires cycle { IsCycle self.old }
        requires few { self.old.scans ≤ 2 * self.old.marks.size }
        requires within { BLOCK_WORDS * page < self.old.marks.size }
        ensures proceeds { Proceeds heap.now.objects self.old self.new }
        ensures waits { (noted : Set) → WaitsOr (IsOnNotedFrom heap.now.objects noted page) self.old → WaitsOr (IsAhead heap.now.objects noted page (block_start page)) self.new }
    {
        if let Some(start) = heap.resolve(HEAP_START + BLOCK_WORDS * page) {
            if self.marks.contains(start) {
                self.visit(heap, start, u64::MAX);
            }
        }
    }

    /// Scans the marked objects that start on a page and weren't scanned.
    fn rescan_starts(&mut self, heap: &Heap, page: u64)
        requires size { self.old.marks.size ≡ BLOCK_WORDS * heap.now.blocks }
        requires cycle { IsCycle self.old }
        requires few { self.old.scans ≤ 2 * self.old.marks.size }
        requires within { BLOCK_WORDS * page < self.old.marks.size }
        ensures proceeds { Proceeds heap.now.objects self.old self.new }
        ensures waits { (noted : Set) → WaitsOr (IsAhead heap.now.objects noted page (block_start page)) self.old → WaitsOr (IsOnNotedFrom heap.now.objects noted (page + 1)) self.new }
    {
        let end = HEAP_START + BLOCK_WORDS * (page + 1);
        let mut from = end - BLOCK_WORDS;
        while from < end {
            let Some(start) = self.marks.next_in_block(from) else {
                return;
            };
            self.visit(heap, start, u64::MAX);
            from = start + 1;
        }
    }

    /// Scans the marked objects on dirty pages that weren't scanned.
    pub(crate) fn rescan(&mut self, heap: &Heap, dirty: &Dirty)
        requires size { self.old.marks.size ≡ BLOCK_WORDS * heap.now.blocks }
        requires pages { dirty.now.pages ≡ heap.now.blocks }
        requires cycle { IsCycle self.old }
        requires few { self.old.scans ≤ self.old.marks.size }
        requires waits { WaitsOr (IsOnNotedFrom heap.now.objects dirty.now.noted 0) self.old }
        ensures proceeds { Proceeds heap.now.objects self.old self.new }
        ensures waits { AllWait self.new }
    {
        let mut from = 0;
        while let Some(page) = dirty.next(from) {
            self.rescan_first(heap, page);
            self.rescan_starts(heap, page);
            from = page + 1;
        }
    }
}
