//! What a handle points to.

ghost use Rattle.std.specs.Prelude.{◌≡◌, ◌≤◌, length, nat_lt, slice_get, IfOk, OnErr};
ghost use Rattle.fz_model.specs.declared.limits.TheConstants.{COUNT_LIMIT};
ghost use Rattle.fz_model.specs.Events.{Finish};
ghost use Rattle.fz_world.specs.Does.{Does};
ghost use Rattle.fz_c.specs.Next.{IsNext, TakesNext};
ghost use Rattle.fz_c.specs.Shows.{IsCounted, IsQueuedEntry};
ghost use Rattle.fz_c.specs.Takes.{finished};

use crate::world::shown::Counts;
use fz_model::{Entry, Refusal};
use fz_world::World;

/// A world, and how many entries at the front of its queue were taken or were finished before they were taken.
#[derive(Drop)]
pub struct WorldSession {
    pub(crate) world: World,
    pub(crate) taken: usize,
}

impl WorldSession {
    /// Skips entries that were finished before they were taken. Returns the next entry.
    #[inline(always)]
    fn pass_finished(&mut self) -> Option<Entry>
        ensures world { self.new.world ≡ self.old.world }
        ensures next { IsNext self.old.world self.old.taken self.new.taken }
        ensures entry { result ≡ slice_get self.old.world.queue self.new.taken }
        ensures few { length self.old.world.queue ≤ COUNT_LIMIT }
    {
        let next = self.world.next_held(self.taken as u64);
        self.taken = match &next {
            Some(entry) => entry.seq as usize,
            None => self.taken.max(self.world.queued() as usize),
        };
        next
    }

    /// Takes the next entry of the queue that isn't finished, if there is one.
    pub(crate) fn next(&mut self) -> Option<Entry>
        ensures world { self.new.world ≡ self.old.world }
        ensures next { TakesNext self.old.world self.old.taken result self.new.taken }
    {
        let entry = self.pass_finished()?;
        self.taken += 1;
        Some(entry)
    }

    /// Finishes a held entry, and takes the next one, if there is one. Fails as `World::finish` does, and then takes none.
    pub(crate) fn finish_and_take(&mut self, entry: &Entry) -> Result<Option<Entry>, Refusal>
        ensures step { Does self.old.world (Finish entry.now) (finished result) self.new.world }
        ensures refused { OnErr result (self.new ≡ self.old) }
        ensures next { IfOk result (λ found. TakesNext self.new.world self.old.taken found self.new.taken) }
    {
        self.world.finish(entry)?;
        Ok(self.next())
    }

    /// Whether the queue has entries that are neither taken nor finished.
    pub(crate) fn is_waiting(&mut self) -> bool
        ensures world { self.new.world ≡ self.old.world }
        ensures next { IsNext self.old.world self.old.taken self.new.taken }
        ensures waiting { result ≡ nat_lt self.new.taken (length self.old.world.queue) }
    {
        self.pass_finished().is_some()
    }

    /// The entry of the queue with this number, unless it is both finished and forgotten.
    pub(crate) fn queued(&self, number: u64) -> Option<Entry>
        ensures { IsQueuedEntry self.now.world number result }
    {
        self.world.next(number)
    }

    /// All counters.
    pub(crate) fn counts(&self) -> Counts
        ensures { IsCounted self.now.world self.now.taken result }
    {
        Counts {
            passes: self.world.passes(),
            reclaimed: self.world.reclaimed(),
            queued: self.world.queued(),
            taken: self.taken as u64,
            outstanding: self.world.outstanding(),
            scans: self.world.scans(),
            noted: self.world.noted(),
        }
    }
}
