//! The calls of a world, under the lock.

ghost use Rattle.std.specs.Prelude.{◌≡◌, ◌<◌, ◌≤◌, ◌⊎◌, ◌+◌, ◌*◌, ◌↔◌, ℕ, IsTrue, IsFalse, IfOk, IfErr, OnOk, OnErr, drop, length};
ghost use Rattle.std.specs.Option.{IsNone};
ghost use Rattle.std.specs.FinMap.{len};
ghost use Rattle.std.specs.FinSet.{contains};
ghost use Rattle.std.specs.FinSet as sets;
ghost use Rattle.std.specs.declared.result.Result.TheVariants.{Ok};
ghost use Rattle.fz_model.specs.declared.limits.TheConstants.{BLOCK_WORDS};
ghost use Rattle.fz_model.specs.State.{State};
ghost use Rattle.fz_model.specs.Memory.{address_of};
ghost use Rattle.fz_model.specs.Causes.{IsJudgedBy, IsJudgedOrLacks};
ghost use Rattle.fz_model.specs.declared.call.Call.TheVariants.{Alloc, Load, Store, Set, Copy, Unregister, Link, Unlink, Move, Begin, Mark, Pause, Collect, Close, Outstanding};
ghost use Rattle.fz_model.specs.Places.{slot_at, place_at, finalizer_of};
ghost use Rattle.fz_model.specs.Events.{Make, Hold, Queue, causes};
ghost use Rattle.fz_model.specs.Calls.{result_of};
ghost use Rattle.fz_world.specs.Cycles.{IsBegun, AreScanned};
ghost use Rattle.fz_world.specs.Does.{Does, StandsFor};
ghost use Rattle.fz_world.specs.Links.{link_at};
ghost use Rattle.fz_world.specs.Registering.{RegistersFinalizer};
ghost use Rattle.fz_world.specs.Replies.{Replies};
ghost use Rattle.fz_world.specs.Retried.{TriesTwice};
ghost use Rattle.fz_world.specs.World.{KeepsMarks, MarksMade, NotesWritten};
ghost use Rattle.fz_service.specs.States.{ends_cycle, KeepsLine, SendsMore, RepliesAndSends};

use crate::locked::Locked;
use crate::opening::Opening;
use fz_model::{
    Addr, Call, Entry, LinkAnswer, LinkKind, MoveAnswer, ObjKind, Old, Passed, Progress, Refusal,
    RegAnswer, RegKind, Reply, Word,
};

/// Whether the call ends a cycle, so that what it queued has to be sent.
fn ends_cycle(call: Call) -> bool
    ensures { result ≡ ends_cycle call }
{
    match call {
        Call::Pause | Call::Collect => true,
        _ => false,
    }
}

/// Each method is the world's method of the same name. It leaves the line unchanged, except that `pause` and `collect` send what they queued.
impl<O: Opening> Locked<O> {
    /// Makes the call and returns its reply. `pause` and `collect` send what they queued. Takes time as the method of its name does.
    ///
    /// Fails as the method of the call's name does.
    pub fn make(&mut self, call: Call) -> Result<Reply, Refusal>
        ensures step { Replies self.old.world call result self.new.world }
        ensures line { IsFalse (ends_cycle call) → KeepsLine self.old self.new }
        ensures sent { IsTrue (ends_cycle call) → OnOk result (SendsMore O.origin self.old self.new) }
        ensures refused { OnErr result (self.new ≡ self.old) }
    {
        let reply = self.world.make(call)?;
        if ends_cycle(call) {
            self.publish();
        }
        Ok(reply)
    }

    /// Allocates an object of `size` words, all of them zero, stores its address in the slot, and returns its address and birth. Takes time proportional to
    /// the object's words.
    ///
    /// Fails with, in this order: `BadSlot`, `BadSize`, `Exhausted`, `NoSpace`.
    pub fn alloc(
        &mut self,
        frame: u64,
        slot: u64,
        size: u64,
        kind: ObjKind,
    ) -> Result<(Addr, u64), Refusal>
        ensures step { Does self.old.world (Make (Alloc (slot_at frame slot) size kind)) result self.new.world }
        ensures line { KeepsLine self.old self.new }
        ensures caused { IsJudgedBy (causes self.old.world.core (Make (Alloc (slot_at frame slot) size kind))) result }
        ensures refused { OnErr result (self.new ≡ self.old) }
        ensures marks { IfOk result (λ made. MarksMade self.old.world made.0 self.new.world) }
    {
        self.world.alloc(frame, slot, size, kind)
    }

    /// Allocates an object as `alloc` does; if there is no room it collects, which sends what it queued, and tries once more. Objects that it queued are
    /// reclaimed by a later collection, after workers have finished their entries. If there is still no room, call `outstanding` before releasing the lock:
    /// if it returns 0 the heap is full, and otherwise another try may succeed. Takes time proportional to the heap if it collects.
    ///
    /// Fails with, in this order: `BadSlot`, `BadSize`, `Exhausted`; then, if there is no room, `CycleOpen` in an open cycle and `Exhausted` at the 2^48th
    /// pass. In these cases nothing has changed. After the collection, the second try fails with `NoSpace` or `Exhausted`; the collection isn't undone.
    pub fn alloc_or_collect(
        &mut self,
        frame: u64,
        slot: u64,
        size: u64,
        kind: ObjKind,
    ) -> Result<(Addr, u64), Refusal>
        ensures tried { TriesTwice (RepliesAndSends O.origin) (λ collected same. same ≡ collected) (Alloc (slot_at frame slot) size kind) self.old (result_of (Alloc (slot_at frame slot) size kind) result) self.new }
    {
        match self.alloc(frame, slot, size, kind) {
            Err(Refusal::NoSpace) => {}
            answer => return answer,
        }
        if let Err(refusal) = self.collect() {
            return Err(refusal);
        }
        self.alloc(frame, slot, size, kind)
    }

    /// Loads the word at `offset` words after the slot's word, in the object to which that points, stores it in the second slot, and returns it.
    ///
    /// Fails with, in this order: `BadSlot` for either slot, `NotPointer`, `OutsideObject`.
    pub fn load(
        &mut self,
        frame: u64,
        slot: u64,
        offset: u64,
        to_frame: u64,
        to_slot: u64,
    ) -> Result<Word, Refusal>
        ensures step { Does self.old.world (Make (Load (place_at frame slot offset) (slot_at to_frame to_slot))) result self.new.world }
        ensures line { KeepsLine self.old self.new }
        ensures caused { IsJudgedBy (causes self.old.world.core (Make (Load (place_at frame slot offset) (slot_at to_frame to_slot)))) result }
        ensures refused { OnErr result (self.new ≡ self.old) }
        ensures marks { KeepsMarks self.old.world self.new.world }
    {
        self.world.load(frame, slot, offset, to_frame, to_slot)
    }

    /// Stores the second slot's word at `offset` words after the first slot's word, in the object to which that points.
    ///
    /// Fails with, in this order: `BadSlot` for either slot, `NotPointer`, `OutsideObject`.
    pub fn store(
        &mut self,
        frame: u64,
        slot: u64,
        offset: u64,
        from_frame: u64,
        from_slot: u64,
    ) -> Result<(), Refusal>
        ensures step { Does self.old.world (Make (Store (place_at frame slot offset) (slot_at from_frame from_slot))) result self.new.world }
        ensures line { KeepsLine self.old self.new }
        ensures caused { IsJudgedBy (causes self.old.world.core (Make (Store (place_at frame slot offset) (slot_at from_frame from_slot)))) result }
        ensures refused { OnErr result (self.new ≡ self.old) }
        ensures marks { OnOk result (NotesWritten self.old.world (address_of self.old.world.frames (place_at frame slot offset)) self.new.world) }
    {
        self.world.store(frame, slot, offset, from_frame, from_slot)
    }

    /// Stores the word in the slot.
    ///
    /// Fails with `BadSlot` if the slot doesn't exist.
    pub fn set(&mut self, frame: u64, slot: u64, word: Word) -> Result<(), Refusal>
        ensures step { Does self.old.world (Make (Set (slot_at frame slot) word)) result self.new.world }
        ensures line { KeepsLine self.old self.new }
        ensures caused { IsJudgedBy (causes self.old.world.core (Make (Set (slot_at frame slot) word))) result }
        ensures refused { OnErr result (self.new ≡ self.old) }
        ensures marks { KeepsMarks self.old.world self.new.world }
    {
        self.world.set(frame, slot, word)
    }

    /// Copies the slot's word into the second slot.
    ///
    /// Fails with `BadSlot` if either slot doesn't exist.
    pub fn copy(
        &mut self,
        frame: u64,
        slot: u64,
        to_frame: u64,
        to_slot: u64,
    ) -> Result<(), Refusal>
        ensures step { Does self.old.world (Make (Copy (slot_at frame slot) (slot_at to_frame to_slot))) result self.new.world }
        ensures line { KeepsLine self.old self.new }
        ensures caused { IsJudgedBy (causes self.old.world.core (Make (Copy (slot_at frame slot) (slot_at to_frame to_slot)))) result }
        ensures refused { OnErr result (self.new ≡ self.old) }
        ensures marks { KeepsMarks self.old.world self.new.world }
    {
        self.world.copy(frame, slot, to_frame, to_slot)
    }

    /// Registers a finalizer for the object at the slot's word, in place of the registration that it may have, and returns the registration number and what was
    /// replaced. A word that is zero or outside the heap is no error: nothing changes, and the result is `Outside`. Takes time proportional to the heap for the
    /// first registration in a world.
    ///
    /// Fails with, in this order: `BadSlot`, `NotPointer`, `NotStart`, `Exhausted`, `TableFull`, `NoMemory`.
    pub fn register(
        &mut self,
        frame: u64,
        slot: u64,
        kind: RegKind,
        proc: u64,
        cd: Word,
        rank: u8,
    ) -> Result<RegAnswer, Refusal>
        ensures registers { RegistersFinalizer self.old.world (slot_at frame slot) (finalizer_of kind proc cd rank) result self.new.world }
        ensures line { KeepsLine self.old self.new }
    {
        self.world.register(frame, slot, kind, proc, cd, rank)
    }

    /// Removes the registration of the object at the slot's word, and returns its procedure and client data, if it was registered.
    ///
    /// Fails with, in this order: `BadSlot`, `NotPointer`, `NotStart`.
    pub fn unregister(&mut self, frame: u64, slot: u64) -> Result<Option<Old>, Refusal>
        ensures step { Does self.old.world (Make (Unregister (slot_at frame slot))) result self.new.world }
        ensures line { KeepsLine self.old self.new }
        ensures caused { IsJudgedBy (causes self.old.world.core (Make (Unregister (slot_at frame slot)))) result }
        ensures refused { OnErr result (self.new ≡ self.old) }
        ensures marks { KeepsMarks self.old.world self.new.world }
    {
        self.world.unregister(frame, slot)
    }

    /// Registers a disappearing link at `offset` words after the slot's word, whose target is the object at the target slot's word. If the place has a link
    /// already, only its target changes.
    ///
    /// Fails with, in this order: `BadSlot` for either slot, `NotPointer` and `OutsideObject` for the place, `NotPointer` and `NotStart` for the target,
    /// `TableFull`, `NoMemory`.
    pub fn link(
        &mut self,
        which: LinkKind,
        frame: u64,
        slot: u64,
        offset: u64,
        target_frame: u64,
        target_slot: u64,
    ) -> Result<LinkAnswer, Refusal>
        ensures step { Does self.old.world (Make (Link which (place_at frame slot offset) (slot_at target_frame target_slot))) result self.new.world }
        ensures line { KeepsLine self.old self.new }
        ensures caused { IsJudgedOrLacks (causes self.old.world.core (Make (Link which (place_at frame slot offset) (slot_at target_frame target_slot)))) result }
        ensures refused { OnErr result (self.new ≡ self.old) }
        ensures growth { IfErr result (λ r. r ≡ Refusal.NoMemory → IsNone (link_at self.old.world.core which (place_at frame slot offset))) }
        ensures marks { KeepsMarks self.old.world self.new.world }
    {
        self.world
            .link(which, frame, slot, offset, target_frame, target_slot)
    }

    /// Removes the link at `offset` words after the slot's word, and returns whether there was one.
    ///
    /// Fails with, in this order: `BadSlot`, `NotPointer`, `OutsideObject`.
    pub fn unlink(
        &mut self,
        which: LinkKind,
        frame: u64,
        slot: u64,
        offset: u64,
    ) -> Result<bool, Refusal>
        ensures step { Does self.old.world (Make (Unlink which (place_at frame slot offset))) result self.new.world }
        ensures line { KeepsLine self.old self.new }
        ensures caused { IsJudgedBy (causes self.old.world.core (Make (Unlink which (place_at frame slot offset)))) result }
        ensures refused { OnErr result (self.new ≡ self.old) }
        ensures marks { KeepsMarks self.old.world self.new.world }
    {
        self.world.unlink(which, frame, slot, offset)
    }

    /// Moves a link from one place to another; its target stays the same, and no word changes. Takes no memory. Takes time as `World::move_link` does.
    ///
    /// Fails with, in this order: `BadSlot` for either slot, `NotPointer` and `OutsideObject` for the old place, the same for the new one.
    pub fn move_link(
        &mut self,
        which: LinkKind,
        frame: u64,
        slot: u64,
        offset: u64,
        to_frame: u64,
        to_slot: u64,
        to_offset: u64,
    ) -> Result<MoveAnswer, Refusal>
        ensures step { Does self.old.world (Make (Move which (place_at frame slot offset) (place_at to_frame to_slot to_offset))) result self.new.world }
        ensures line { KeepsLine self.old self.new }
        ensures caused { IsJudgedBy (causes self.old.world.core (Make (Move which (place_at frame slot offset) (place_at to_frame to_slot to_offset)))) result }
        ensures refused { OnErr result (self.new ≡ self.old) }
        ensures marks { KeepsMarks self.old.world self.new.world }
    {
        self.world
            .move_link(which, frame, slot, offset, to_frame, to_slot, to_offset)
    }

    /// Opens a collection cycle. Takes time as `World::begin` does.
    ///
    /// Fails with, in this order: `CycleOpen`, `Exhausted` at the 2^48th pass.
    pub fn begin(&mut self) -> Result<(), Refusal>
        ensures step { Does self.old.world (Make Begin) result self.new.world }
        ensures caused { IsJudgedBy (causes self.old.world.core (Make Begin)) result }
        ensures line { KeepsLine self.old self.new }
        ensures refused { OnErr result (self.new ≡ self.old) }
        ensures begun { OnOk result (IsBegun self.old.world self.new.world) }
    {
        self.world.begin()
    }

    /// Scans at most `budget` marked objects that weren't scanned in this cycle, and returns `Done` if none is left. Takes time proportional to the words
    /// that it scans.
    ///
    /// Fails with, in this order: `BadCount` if the budget is 0, `NoCycle`.
    pub fn mark(&mut self, budget: u64) -> Result<Progress, Refusal>
        ensures step { Does self.old.world (Make (Mark budget)) result self.new.world }
        ensures caused { IsJudgedBy (causes self.old.world.core (Make (Mark budget))) result }
        ensures line { KeepsLine self.old self.new }
        ensures refused { OnErr result (self.new ≡ self.old) }
        ensures same { self.new.world ≡ record self.old.world { marked = self.new.world.marked; scanned = self.new.world.scanned; scans = self.new.world.scans } }
        ensures kept { (a : ℕ) → IsTrue (contains self.old.world.marked a) → IsTrue (contains self.new.world.marked a) }
        ensures done { IfOk result (λ progress. progress ≡ Progress.Done ↔ AreScanned self.new.world) }
        ensures more { IfOk result (λ progress. progress ≡ Progress.More → self.new.world.scans ≡ self.old.world.scans + budget) }
        ensures budgeted { (self.old.world.scans ≤ self.new.world.scans) × (self.new.world.scans ≤ self.old.world.scans + budget) }
    {
        self.world.mark(budget)
    }

    /// Stores the address of a held entry's object in the slot. If the slot stays reachable, this resurrects the object.
    ///
    /// Fails with, in this order: `BadSlot`, `NotHeld` if no held entry equals this one in all fields.
    pub fn hold(&mut self, frame: u64, slot: u64, entry: &Entry) -> Result<(), Refusal>
        ensures step { Does self.old.world (Hold (slot_at frame slot) entry.now) result self.new.world }
        ensures line { KeepsLine self.old self.new }
        ensures caused { IsJudgedBy (causes self.old.world.core (Hold (slot_at frame slot) entry.now)) result }
        ensures refused { OnErr result (self.new ≡ self.old) }
        ensures marks { KeepsMarks self.old.world self.new.world }
    {
        self.world.hold(frame, slot, entry)
    }

    /// Closes the world: from now on every registered object is a root, so no pass queues anything. Objects that are unreachable but not queued yet are
    /// retained for ever; to avoid that, first collect until a collection queues nothing while `outstanding` is 0.
    ///
    /// Fails with `Closed` if the world is closed already.
    pub fn close(&mut self) -> Result<(), Refusal>
        ensures step { Does self.old.world (Make Close) result self.new.world }
        ensures line { KeepsLine self.old self.new }
        ensures caused { IsJudgedBy (causes self.old.world.core (Make Close)) result }
        ensures refused { OnErr result (self.new ≡ self.old) }
        ensures marks { KeepsMarks self.old.world self.new.world }
    {
        self.world.close()
    }

    /// Ends the cycle with a remark and a pass, and sends what it queued. Takes time as `World::pause` does.
    ///
    /// Fails with `NoCycle` if no cycle is open.
    pub fn pause(&mut self) -> Result<Passed, Refusal>
        ensures step { Does self.old.world (Make Pause) result self.new.world }
        ensures caused { IsJudgedBy (causes self.old.world.core (Make Pause)) result }
        ensures sent { OnOk result (SendsMore O.origin self.old self.new) }
        ensures refused { OnErr result (self.new ≡ self.old) }
        ensures scans { self.old.world.scans ≤ self.new.world.scans }
        ensures few { OnOk result (self.new.world.scans ≤ len self.old.world.objects + BLOCK_WORDS * sets.len self.old.world.noted) }
        ensures noted { self.new.world.noted ≡ self.old.world.noted }
    {
        let passed = self.world.pause()?;
        self.publish();
        Ok(passed)
    }

    /// A whole collection in one step, which sends what it queued. Takes time as `World::collect` does.
    ///
    /// Fails with, in this order: `CycleOpen`, `Exhausted` at the 2^48th pass.
    pub fn collect(&mut self) -> Result<Passed, Refusal>
        ensures step { Does self.old.world (Make Collect) result self.new.world }
        ensures caused { IsJudgedBy (causes self.old.world.core (Make Collect)) result }
        ensures sent { OnOk result (SendsMore O.origin self.old self.new) }
        ensures refused { OnErr result (self.new ≡ self.old) }
        ensures few { OnOk result (self.new.world.scans ≤ len self.old.world.objects) }
        ensures noted { OnOk result (self.new.world.noted ≡ sets.empty) }
    {
        let passed = self.world.collect()?;
        self.publish();
        Ok(passed)
    }

    /// The number of held entries: those that were queued and aren't finished, taken or not.
    pub fn outstanding(&self) -> u64
        ensures step { Does self.now.world (Make Outstanding) (Ok result) self.now.world }
        ensures count { result ≡ length self.now.world.held }
    {
        self.world.outstanding()
    }

    /// The entries from number `forgotten` on, in order: all entries ever queued, or the rest after a `forget` that freed some.
    pub fn queue(&self) -> &[Entry]
        ensures queue { result.now ≡ drop self.now.world.forgotten self.now.world.queue }
        ensures step { self.now.world.forgotten ≡ 0 → Does self.now.world Queue (Ok result.now) self.now.world }
    {
        self.world.queue()
    }

    /// How many entries were ever queued.
    pub fn queued(&self) -> u64
        ensures { result ≡ length self.now.world.queue }
    {
        self.world.queued()
    }

    /// The number of the first entry that `queue` returns.
    pub fn forgotten(&self) -> u64
        ensures { result ≡ self.now.world.forgotten }
    {
        self.world.forgotten()
    }

    /// Frees the memory of finished entries, as the world's `forget` does, if all entries were sent, and else nothing; returns how many were forgotten. Takes
    /// time proportional to the entries in memory.
    pub fn forget(&mut self) -> u64
        ensures line { KeepsLine self.old self.new }
        ensures same { self.new.world ≡ record self.old.world { forgotten = self.new.world.forgotten; remembered = self.new.world.remembered } }
        ensures stands { (s : State) → StandsFor self.old.world s → StandsFor self.new.world s }
        ensures forgotten { (self.new.world.forgotten ≡ self.old.world.forgotten) ⊎ (self.new.world.forgotten ≡ length self.old.world.queue) }
        ensures few { self.old.published ≡ length self.old.world.queue → 16 * self.new.world.remembered ≤ 17 * length self.new.world.held }
        ensures waiting { self.old.published < length self.old.world.queue → (result ≡ 0) × (self.new ≡ self.old) }
        ensures freed { result + self.new.world.remembered ≡ self.old.world.remembered }
    {
        if (self.rung.entries as u64) < self.world.queued() {
            return 0;
        }
        self.world.forget()
    }

    /// How many objects were scanned in the last cycle; 0 before the first.
    pub fn scans(&self) -> u64
        ensures { result ≡ self.now.world.scans }
    {
        self.world.scans()
    }

    /// How many pages were dirty in the last cycle; 0 before the first.
    pub fn noted(&self) -> u64
        ensures { result ≡ sets.len self.now.world.noted }
    {
        self.world.noted()
    }
}
