//! Entries of the queue, and closing a world.

ghost use Rattle.std.specs.Prelude.{◌≡◌, ◌≤◌, ◌<◌, ◌+◌, ◌-◌, ◌*◌, ◌⊎◌, drop, length, slice_get, Some, IsFalse, MatchOption, OnErr};
ghost use Rattle.std.specs.List.{list_any};
ghost use Rattle.std.specs.FinMap.{len};
ghost use Rattle.std.specs.declared.result.Result.TheVariants.{Ok};
ghost use Rattle.fz_model.specs.declared.limits.TheConstants.{COUNT_LIMIT};
ghost use Rattle.fz_model.specs.Causes.{IsJudgedBy};
ghost use Rattle.fz_model.specs.declared.answers.Entry.{Entry};
ghost use Rattle.fz_model.specs.declared.call.Call.TheVariants as calls;
ghost use Rattle.fz_model.specs.Places.{slot_at};
ghost use Rattle.fz_model.specs.State.{State};
ghost use Rattle.fz_model.specs.Events.{Make, Hold, Finish, Queue, causes, same_entry};
ghost use Rattle.fz_finalizers.specs.Queue.{IsFoundIn};
ghost use Rattle.fz_world.specs.World.{KeepsMarks};
ghost use Rattle.fz_world.specs.Does.{Does, StandsFor};

use crate::registrations::most_entries;
use crate::world::World;
use fz_model::{Entry, Refusal, Slot};

#[tactic(auto, using(fz_model::proofs::Judged::judged_more, fz_model::proofs::Judged::judged_err, crate::proofs::Does::does_refused, crate::proofs::Does::does_accepted))]
impl World {
    /// Stores the address of a held entry's object in the slot. If the slot stays reachable, this resurrects the object.
    ///
    /// Fails with, in this order: `BadSlot`, `NotHeld` if no held entry equals this one in all fields.
    pub fn hold(&mut self, frame: u64, slot: u64, entry: &Entry) -> Result<(), Refusal>
        ensures step { Does self.old (Hold (slot_at frame slot) entry.now) result self.new }
        ensures caused { IsJudgedBy (causes self.old.core (Hold (slot_at frame slot) entry.now)) result }
        ensures refused { OnErr result (self.new ≡ self.old) }
        ensures marks { KeepsMarks self.old self.new }
    {
        self.frames.check(Slot { frame, slot })?;
        if !self.finalizers.is_held(entry) {
            return Err(Refusal::NotHeld);
        }
        self.frames.set(Slot { frame, slot }, entry.obj);
        Ok(())
    }

    /// Finishes a held entry, which then no longer retains its object.
    ///
    /// Fails with `NotHeld` if no held entry equals this one in all fields.
    pub fn finish(&mut self, entry: &Entry) -> Result<(), Refusal>
        ensures step { Does self.old (Finish entry.now) result self.new }
        ensures caused { IsJudgedBy (causes self.old.core (Finish entry.now)) result }
        ensures refused { OnErr result (self.new ≡ self.old) }
        ensures marks { KeepsMarks self.old self.new }
    {
        self.finalizers.finish(entry).map_err(|_| Refusal::NotHeld)
    }

    /// Closes the world: from now on every registered object is a root, so no pass queues anything. Objects that are unreachable but not queued yet are
    /// retained for ever; to avoid that, collect and finish the entries first.
    ///
    /// Fails with `Closed` if the world is closed already.
    pub fn close(&mut self) -> Result<(), Refusal>
        ensures step { Does self.old (Make calls.Close) result self.new }
        ensures caused { IsJudgedBy (causes self.old.core (Make calls.Close)) result }
        ensures refused { OnErr result (self.new ≡ self.old) }
        ensures marks { KeepsMarks self.old self.new }
    {
        if self.closed {
            return Err(Refusal::Closed);
        }
        self.closed = true;
        Ok(())
    }

    /// The number of held entries: those that were queued and aren't finished, taken or not.
    pub fn outstanding(&self) -> u64
        ensures step { Does self.now (Make calls.Outstanding) (Ok result) self.now }
        ensures count { result ≡ length self.now.held }
    {
        self.finalizers.held()
    }

    /// The number of passes so far.
    pub fn passes(&self) -> u64
        ensures { result ≡ self.now.passes }
    {
        self.finalizers.passes()
    }

    /// The number of objects reclaimed so far.
    pub fn reclaimed(&self) -> u64
        ensures { result ≡ self.now.next_birth - len self.now.objects }
    {
        let heap = &self.marked.heap;
        heap.births().saturating_sub(heap.live())
    }

    /// The entries from number `forgotten` on, in order: all entries ever queued, if none was forgotten.
    pub fn queue(&self) -> &[Entry]
        ensures queue { result.now ≡ drop self.now.forgotten self.now.queue }
        ensures step { self.now.forgotten ≡ 0 → Does self.now Queue (Ok result.now) self.now }
        ensures few { length self.now.queue ≤ COUNT_LIMIT }
    {
        self.finalizers.window()
    }

    /// How many entries were ever queued.
    pub fn queued(&self) -> u64
        ensures { result ≡ length self.now.queue }
    {
        self.finalizers.queued()
    }

    /// The entry with this number, if it was queued and isn't both finished and forgotten. For a caller that took `taken` entries this is the next one.
    pub fn next(&self, taken: u64) -> Option<Entry>
        ensures shown { self.now.forgotten ≤ taken → result ≡ slice_get self.now.queue taken }
        ensures kept { taken < self.now.forgotten → IsFoundIn self.now.held taken result }
        ensures queued { MatchOption result ((e : Entry) → slice_get self.now.queue taken ≡ Some e → IsFalse (list_any (same_entry e) self.now.held)) (λ e. slice_get self.now.queue taken ≡ Some e) }
    {
        self.finalizers.entry(taken)
    }

    /// The number of the first entry that `queue` returns. Of earlier entries only the held ones are in memory.
    pub fn forgotten(&self) -> u64
        ensures { result ≡ self.now.forgotten }
    {
        self.finalizers.forgotten()
    }

    /// Frees the memory of finished entries, if there are more than 1 for each 16 unfinished ones, and returns how many were forgotten. Takes no memory.
    /// Takes time proportional to the entries in memory.
    ///
    /// If any were forgotten, `queue` then returns only entries queued later. `next` and `next_held` still return every unfinished entry, by its old number.
    pub fn forget(&mut self) -> u64
        ensures same { self.new ≡ record self.old { forgotten = self.new.forgotten; remembered = self.new.remembered } }
        ensures stands { (s : State) → StandsFor self.old s → StandsFor self.new s }
        ensures forgotten { (self.new.forgotten ≡ self.old.forgotten) ⊎ (self.new.forgotten ≡ length self.old.queue) }
        ensures few { 16 * self.new.remembered ≤ 17 * length self.new.held }
        ensures freed { result + self.new.remembered ≡ self.old.remembered }
    {
        self.finalizers.forget(most_entries(&self.marked.heap))
    }

    /// How many entries are in memory.
    pub fn remembered(&self) -> u64
        ensures { result ≡ self.now.remembered }
    {
        self.finalizers.remembered()
    }
}
