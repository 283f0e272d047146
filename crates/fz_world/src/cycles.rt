//! Collection cycles: incremental marking interleaved with mutators, and the remark and pass that end it.

ghost use Rattle.std.specs.Prelude.{◌≡◌, ◌≤◌, ◌<◌, ◌+◌, ◌*◌, ◌↔◌, ℕ, false, IsTrue, IsFalse, IfOk, OnOk, OnErr};
ghost use Rattle.std.specs.FinSet.{contains};
ghost use Rattle.std.specs.FinSet as sets;
ghost use Rattle.std.specs.FinMap.{len};
ghost use Rattle.fz_model.specs.declared.limits.TheConstants.{BLOCK_WORDS, COUNT_LIMIT};
ghost use Rattle.fz_model.specs.Reachability.{IsRoot};
ghost use Rattle.fz_model.specs.Pass.{Passes};
ghost use Rattle.fz_model.specs.Causes.{IsJudgedBy};
ghost use Rattle.fz_model.specs.declared.call.Call.TheVariants as calls;
ghost use Rattle.fz_model.specs.Events.{Make, causes};
ghost use Rattle.fz_bits.specs.Flags.{IsWithin};
ghost use Rattle.fz_marker.specs.Marking.{IsClosed};
ghost use Rattle.fz_world.specs.World.{KeepsMarks};
ghost use Rattle.fz_world.specs.Cycles.{IsBegun, AreScanned, IsLedFromMarks};
ghost use Rattle.fz_world.specs.Does.{Does};

use crate::roots::mark_roots;
use crate::world::World;
use fz_model::{COUNT_LIMIT, Passed, Progress, Refusal};

#[tactic(auto, using(crate::proofs::Does::does_refused))]
impl World {
    /// Opens a collection cycle: marks what the roots point to (the initial mark), and tracks dirty pages from now on. Takes time proportional to the blocks,
    /// the registrations and the unfinished entries.
    ///
    /// Fails with, in this order: `CycleOpen`, `Exhausted` at the 2^48th pass.
    pub fn begin(&mut self) -> Result<(), Refusal>
        ensures step { Does self.old (Make calls.Begin) result self.new }
        ensures caused { IsJudgedBy (causes self.old.core (Make calls.Begin)) result }
        ensures refused { OnErr result (self.new ≡ self.old) }
        ensures begun { OnOk result (IsBegun self.old self.new) }
    {
        self.check_begin()?;
        self.mark_anew(true);
        Ok(())
    }

    /// Scans at most `budget` marked objects that weren't scanned in this cycle, and returns `Done` if none is left. Takes time proportional to the words
    /// that it scans.
    ///
    /// Fails with, in this order: `BadCount` if the budget is 0, `NoCycle`.
    pub fn mark(&mut self, budget: u64) -> Result<Progress, Refusal>
        ensures step { Does self.old (Make (calls.Mark budget)) result self.new }
        ensures caused { IsJudgedBy (causes self.old.core (Make (calls.Mark budget))) result }
        ensures refused { OnErr result (self.new ≡ self.old) }
        ensures same { self.new ≡ record self.old { marked = self.new.marked; scanned = self.new.scanned; scans = self.new.scans } }
        ensures kept { IsWithin self.old.marked self.new.marked }
        ensures done { IfOk result (λ progress. progress ≡ Progress.Done ↔ AreScanned self.new) }
        ensures more { IfOk result (λ progress. progress ≡ Progress.More → self.new.scans ≡ self.old.scans + budget) }
        ensures budgeted { (self.old.scans ≤ self.new.scans) × (self.new.scans ≤ self.old.scans + budget) }
    {
        if budget == 0 {
            return Err(Refusal::BadCount);
        }
        if !self.cycle {
            return Err(Refusal::NoCycle);
        }
        Ok(self.marked.marker.step(&self.marked.heap, budget))
    }

    /// Ends the cycle: marks from the current roots and from marked objects on dirty pages (the remark), and carries out a pass. Takes time proportional to
    /// the blocks, the registrations, the links and the unfinished entries, and to the words that it scans: those of marked objects that `mark` didn't scan or
    /// that are on dirty pages, and of objects that only finalizers retain.
    ///
    /// Fails with `NoCycle` if no cycle is open.
    pub fn pause(&mut self) -> Result<Passed, Refusal>
        ensures step { Does self.old (Make calls.Pause) result self.new }
        ensures caused { IsJudgedBy (causes self.old.core (Make calls.Pause)) result }
        ensures refused { OnErr result (self.new ≡ self.old) }
        ensures scans { self.old.scans ≤ self.new.scans }
        // Over the whole cycle each object is scanned at most once, and those on dirty pages once more at the end. A page has no more objects than words.
        ensures few { OnOk result (self.new.scans ≤ len self.old.objects + BLOCK_WORDS * sets.len self.old.noted) }
        ensures noted { self.new.noted ≡ self.old.noted }
    {
        if !self.cycle {
            return Err(Refusal::NoCycle);
        }
        self.mark_rest();
        Ok(self.pass())
    }

    /// A whole collection in one step, as `GC_gcollect`: marks what is reachable, and carries out a pass. Takes time proportional to the blocks, the
    /// registrations, the links and the unfinished entries, and to the words of the objects that stay.
    ///
    /// Fails with, in this order: `CycleOpen`, `Exhausted` at the 2^48th pass.
    pub fn collect(&mut self) -> Result<Passed, Refusal>
        ensures step { Does self.old (Make calls.Collect) result self.new }
        ensures caused { IsJudgedBy (causes self.old.core (Make calls.Collect)) result }
        ensures refused { OnErr result (self.new ≡ self.old) }
        ensures few { OnOk result (self.new.scans ≤ len self.old.objects) }
        ensures noted { OnOk result (self.new.noted ≡ sets.empty) }
    {
        self.check_begin()?;
        self.mark_anew(false);
        self.marked.marker.finish(&self.marked.heap, &self.dirty);
        Ok(self.pass())
    }

    /// How many objects were scanned in the last cycle; 0 before the first.
    pub fn scans(&self) -> u64
        ensures { result ≡ self.now.scans }
    {
        self.marked.marker.scans()
    }

    /// How many pages were dirty in the last cycle; 0 before the first.
    pub fn noted(&self) -> u64
        ensures { result ≡ sets.len self.now.noted }
    {
        self.dirty.count()
    }

    /// Checks that a cycle may be opened. Fails with `CycleOpen` if one is open, and with `Exhausted` if pass numbers are used up.
    fn check_begin(&self) -> Result<(), Refusal>
        ensures judged { IsJudgedBy (causes self.now.core (Make calls.Begin)) result }
        ensures idle { OnOk result (IsFalse self.now.cycle) }
        ensures few { OnOk result (self.now.passes + 1 < COUNT_LIMIT) }
    {
        if self.cycle {
            return Err(Refusal::CycleOpen);
        }
        if self.finalizers.passes() >= COUNT_LIMIT - 1 {
            return Err(Refusal::Exhausted);
        }
        Ok(())
    }

    /// Sweeps all dead cells, clears marks and dirty pages, and marks what the roots point to. Opens a cycle if `opens` is set. Requires that no cycle is
    /// open and that another pass has a number.
    fn mark_anew(&mut self, opens: bool)
        requires idle { IsFalse self.old.cycle }
        requires few { self.old.passes + 1 < COUNT_LIMIT }
        ensures core { self.new.core ≡ record self.old.core { cycle = opens } }
        ensures begun { IsBegun self.old self.new }
        ensures forgotten { self.new.forgotten ≡ self.old.forgotten }
    {
        self.marked.heap.sweep_all();
        self.marked.marker.begin();
        self.dirty.take_all();
        mark_roots(
            &mut self.marked.marker,
            &self.marked.heap,
            &self.frames,
            &self.finalizers,
            self.closed,
        );
        self.cycle = opens;
    }

    /// Completes marking from the roots and from objects on dirty pages, and closes the cycle. Requires an open cycle.
    fn mark_rest(&mut self)
        requires { IsTrue self.old.cycle }
        ensures core { self.new.core ≡ record self.old.core { cycle = false } }
        ensures roots { (a : ℕ) → IsRoot self.old.core a → IsTrue (contains self.new.marked a) }
        ensures closed { IsClosed self.old.objects self.new.marked }
        ensures led { (a : ℕ) → IsTrue (contains self.new.marked a) → IsLedFromMarks self.old a }
        ensures scans { self.old.scans ≤ self.new.scans }
        ensures few { self.new.scans ≤ len self.old.objects + BLOCK_WORDS * sets.len self.old.noted }
        ensures noted { self.new.noted ≡ self.old.noted }
        ensures forgotten { self.new.forgotten ≡ self.old.forgotten }
        ensures passes { self.old.passes + 1 < COUNT_LIMIT }
    {
        mark_roots(
            &mut self.marked.marker,
            &self.marked.heap,
            &self.frames,
            &self.finalizers,
            self.closed,
        );
        self.marked.marker.finish(&self.marked.heap, &self.dirty);
        self.cycle = false;
    }

    /// A pass whose found set is the marked objects. It takes no memory: `register` reserved the room.
    fn pass(&mut self) -> Passed
        requires idle { IsFalse self.old.cycle }
        requires roots { (a : ℕ) → IsRoot self.old.core a → IsTrue (contains self.old.marked a) }
        requires closed { IsClosed self.old.objects self.old.marked }
        requires passes { self.old.passes + 1 < COUNT_LIMIT }
        ensures passes { Passes self.old.core (contains self.old.marked) result self.new.core }
        ensures marks { KeepsMarks self.old self.new }
    {
        self.marked.trace_found();
        let passed = self.finalizers.pass_without_cleanups(&mut self.marked);
        self.finalizers.take_all();
        Passed {
            pass: passed.pass,
            picked: passed.picked,
            reclaimed: self.marked.reclaim(),
        }
    }
}
