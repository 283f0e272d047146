//! The marker of a heap.

ghost use Rattle.std.specs.Prelude.{◌≡◌, ◌≤◌, ◌<◌, ◌+◌, ◌*◌, ◌↔◌, ◌⊎◌, ℕ, IsTrue, IsFalse, IfOk, IfErr, IfSome, MatchOption};
ghost use Rattle.std.specs.FinSet.{contains, insert, empty, len};
ghost use Rattle.std.specs.FinMap.{contains_key};
ghost use Rattle.fz_model.specs.declared.limits.TheConstants.{HEAP_START, BLOCK_WORDS, MAX_BLOCKS};
ghost use Rattle.fz_model.specs.Extents.{IsInHeap};
ghost use Rattle.fz_model.specs.Memory.{points};
ghost use Rattle.fz_model.specs.Reachability.{Leads};
ghost use Rattle.fz_bits.specs.Flags.{IsNext, IsWithin};
ghost use Rattle.fz_marker.specs.Marking.{IsLedFrom, IsLeft, HasChildrenIn, IsClosed, AllScanned, CleanAreClosed, is_newly_in, is_to_scan, readable_count, with_target};

use crate::cycle::Cycle;
use crate::frontier::Frontier;
use fz_bits::Flags;
use fz_dirty::Dirty;
use fz_heap::Heap;
use fz_model::{Addr, HEAP_START, Progress, Refusal, Word};
use std::alloc::Global;
use std::marker::Model;

/// The mark bits of a collection cycle and a second set of marks, by the addresses of one heap's objects.
///
/// Calls that take a heap require one with as many blocks as at `new`. Only `new` allocates: for each word of the heap 16 bytes for two mark stacks, and
/// three bits. The unit of marking is one object, so the work of a cycle can be spread over many steps of the program (Boehm, Demers and Shenker, "Mostly
/// parallel garbage collection", 1991).
pub struct Marker {
    cycle: Cycle,
    traces: Frontier,
}

// Written by hand, so that the owner drops it by one proved call, not field by field at each exit of a function.
impl Drop for Marker {
    fn drop(self) {
        let Marker {
            cycle: _,
            traces: _,
        } = self;
    }
}

impl Model for Marker {
    ghost use Rattle.fz_marker.specs.Marking.{Marking, marking_code};

    ghost Value = { Marking };

    ghost coded = { marking_code };

    ghost use Rattle.fz_marker.specs.Markers.{IsMarker};

    ghost view = { λ m. record { size = m.cycle.marks.size; marked = m.cycle.marks.members; scanned = m.cycle.scanned.members; traced = m.traces.members; scans = m.cycle.scans } };

    ghost invariant = { λ m. IsMarker m.cycle m.traces };
}

impl Marker {
    /// A marker for a heap of `blocks` blocks, without marks. Fails with `NoMemory` if an allocation fails.
    pub fn new(alloc: Global, blocks: u64) -> Result<Marker, Refusal>
        requires { blocks ≤ MAX_BLOCKS }
        ensures refused { IfErr result (λ r. r ≡ Refusal.NoMemory) }
        ensures made { IfOk result (λ m. m ≡ record { size = BLOCK_WORDS * blocks; marked = empty; scanned = empty; traced = empty; scans = 0 }) }
    {
        let marks = Frontier::new(alloc, blocks)?;
        let scanned = Flags::new(alloc, blocks)?;
        let traces = Frontier::new(alloc, blocks)?;
        let cycle = Cycle {
            marks,
            scanned,
            scans: 0,
        };
        Ok(Marker { cycle, traces })
    }

    /// Begins a cycle: no object is marked, scanned or in the second set.
    pub fn begin(&mut self)
        ensures { self.new ≡ record self.old { marked = empty; scanned = empty; traced = empty; scans = 0 } }
    {
        self.cycle.marks.clear();
        self.cycle.scanned.clear();
        self.cycle.scans = 0;
        self.traces.clear();
    }

    /// Marks the object to which the word points, if there is one.
    pub fn root(&mut self, heap: &Heap, word: Word)
        requires { self.old.size ≡ BLOCK_WORDS * heap.now.blocks }
        ensures marked { self.new ≡ record self.old { marked = with_target self.old.marked (points heap.now.objects word) } }
        // The address of an object points to that object.
        ensures itself { IsTrue (contains_key heap.now.objects word) → points heap.now.objects word ≡ Some word }
    {
        if let Some(start) = heap.resolve(word) {
            self.born(start);
        }
    }

    /// Marks a newly allocated object.
    pub fn born(&mut self, start: Addr)
        requires { (HEAP_START ≤ start) × (start < HEAP_START + self.old.size) }
        ensures { self.new ≡ record self.old { marked = insert self.old.marked start } }
    {
        self.cycle.marks.add(start);
    }

    /// Scans marked objects that weren't scanned in this cycle, at most `budget` of them. A pointer-free object needs no scan.
    ///
    /// Returns `Done` if every marked object is scanned, and `More` if some remain after `budget` scans. Requires an open cycle in which no object was
    /// scanned twice; `finish` may scan objects again.
    pub fn step(&mut self, heap: &Heap, budget: u64) -> Progress
        requires size { self.old.size ≡ BLOCK_WORDS * heap.now.blocks }
        requires unfinished { self.old.scans ≤ len self.old.scanned }
        // It only adds marks, and only for objects that marked objects reach.
        ensures kept { IsWithin self.old.marked self.new.marked }
        ensures led { (a : ℕ) → IsTrue (contains self.new.marked a) → IsLedFrom heap.now.objects self.old.marked a }
        // The children of each scanned object are marked.
        ensures still { IsWithin self.old.scanned self.new.scanned }
        ensures closed { (a : ℕ) → IsTrue (is_newly_in self.old.scanned self.new.scanned a) → HasChildrenIn heap.now.objects self.new.marked a }
        // What it returns, and how many scans it makes.
        ensures done { result ≡ Progress.Done ↔ AllScanned heap.now.objects self.new }
        ensures more { result ≡ Progress.More → self.new.scans ≡ self.old.scans + budget }
        ensures left { result ≡ Progress.More → IsLeft heap.now.objects self.new.marked self.new.scanned }
        ensures budgeted { (self.old.scans ≤ self.new.scans) × (self.new.scans ≤ self.old.scans + budget) }
        ensures each_once { self.new.scans ≤ self.old.scans + readable_count heap.now.objects (is_newly_in self.old.scanned self.new.scanned) }
        ensures unfinished { self.new.scans ≤ len self.new.scanned }
        ensures same { (self.new.size ≡ self.old.size) × (self.new.traced ≡ self.old.traced) }
    {
        self.cycle.step(heap, budget)
    }

    /// Completes marking (the remark): it scans the marked objects that weren't scanned in this cycle, and scans again those on a dirty page. An object is on
    /// each page that contains one of its words. Called once per cycle. Empties the second set.
    pub fn finish(&mut self, heap: &Heap, dirty: &Dirty)
        requires size { self.old.size ≡ BLOCK_WORDS * heap.now.blocks }
        requires pages { dirty.now.pages ≡ heap.now.blocks }
        requires unfinished { self.old.scans ≤ len self.old.scanned }
        ensures kept { IsWithin self.old.marked self.new.marked }
        ensures led { (a : ℕ) → IsTrue (contains self.new.marked a) → IsLedFrom heap.now.objects self.old.marked a }
        ensures closed { CleanAreClosed heap.now.objects self.old dirty.now.noted → IsClosed heap.now.objects self.new.marked }
        ensures few { (self.old.scans ≤ self.new.scans) × (self.new.scans ≤ self.old.scans + readable_count heap.now.objects (is_to_scan heap.now.objects self.old dirty.now.noted self.new.marked)) }
        // Each scan is of an object that wasn't scanned, or is due to a dirty page: a page has no more objects than words.
        ensures again { self.new.scans ≤ self.old.scans + readable_count heap.now.objects (is_newly_in self.old.scanned self.new.marked) + BLOCK_WORDS * len dirty.now.noted }
        ensures size { self.new.size ≡ self.old.size }
        ensures emptied { self.new.traced ≡ empty }
    {
        self.cycle.forget(heap, dirty);
        self.cycle.rescan(heap, dirty);
        self.cycle.step(heap, u64::MAX);
        self.traces.clear();
    }

    /// Whether the object is marked.
    pub fn is_marked(&self, start: Addr) -> bool
        ensures { result ≡ contains self.now.marked start }
    {
        self.cycle.marks.contains(start)
    }

    /// The number of scans in this cycle. A scan reads the words of one object, in `step` or `finish`.
    pub fn scans(&self) -> u64
        ensures { result ≡ self.now.scans }
    {
        self.cycle.scans
    }

    /// The marked objects.
    pub fn found(&self) -> &Flags<HEAP_START>
        ensures { result.now ≡ record { size = self.now.size; members = self.now.marked } }
    {
        self.cycle.marks.members()
    }

    /// Makes the second set equal to the marks, so that `trace` stops at marked objects.
    pub fn trace_found(&mut self)
        ensures { self.new ≡ record self.old { traced = self.old.marked } }
    {
        self.traces.copy(&self.cycle.marks);
    }

    /// Adds the object and everything that it reaches to the second set. This doesn't count as a scan. Requires that the second set is closed under children.
    pub fn trace(&mut self, heap: &Heap, start: Addr)
        requires size { self.old.size ≡ BLOCK_WORDS * heap.now.blocks }
        requires in_heap { IsInHeap heap.now.blocks start }
        requires closed { IsClosed heap.now.objects self.old.traced }
        ensures same { self.new ≡ record self.old { traced = self.new.traced } }
        ensures traced { (a : ℕ) → IsTrue (contains self.new.traced a) ↔ (IsTrue (contains self.old.traced a) ⊎ Leads heap.now.objects start a) }
    {
        self.traces.add_closed(heap, start);
    }

    /// Adds only this object to the second set, without what it reaches.
    pub fn trace_alone(&mut self, start: Addr)
        requires { (HEAP_START ≤ start) × (start < HEAP_START + self.old.size) }
        ensures { self.new ≡ record self.old { traced = insert self.old.traced start } }
    {
        self.traces.enter(start);
    }

    /// Whether the object is in the second set.
    pub fn traced(&self, start: Addr) -> bool
        ensures { result ≡ contains self.now.traced start }
    {
        self.traces.contains(start)
    }

    /// The objects in the second set.
    pub fn kept(&self) -> &Flags<HEAP_START>
        ensures { result.now ≡ record { size = self.now.size; members = self.now.traced } }
    {
        self.traces.members()
    }
}
