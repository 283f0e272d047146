//! Finalizers whose host takes all entries of a pass at once, and says when finished ones are forgotten.

ghost use Rattle.std.specs.Prelude.{◌≡◌, ◌≤◌, ◌<◌, ◌+◌, ◌-◌, ◌*◌, ◌⊎◌, true, drop, length, slice_get, IfOk, IfErr, IfSome};
ghost use Rattle.std.specs.FinMap.{len};
ghost use Rattle.fz_model.specs.declared.answers.Entry.{Entry};
ghost use Rattle.fz_model.specs.declared.limits.TheConstants.{COUNT_LIMIT};
ghost use Rattle.fz_finalizers.specs.Follows.{Follows, TakeAll};
ghost use Rattle.fz_finalizers.specs.Queue.{IsFoundIn, IsFirstHeldFrom};
ghost use Rattle.fz_finalizers.specs.States.{opening, unfinished, waiting, IsRoomier, KeepsEntries};

use crate::finalizers::Finalizers;
use crate::refused::Refused;
use fz_model::Entry;
use std::alloc::Global;

impl Finalizers {
    /// Finalizers without registrations, of which only `forget` forgets finished entries. Fails with `NoMemory` if an allocation fails.
    pub fn whole(alloc: Global) -> Result<Finalizers, Refused>
        ensures refused { IfErr result (λ r. r ≡ Refused.NoMemory) }
        ensures opened { IfOk result (λ f. f.state ≡ opening) }
        ensures memory { IfOk result (λ f. f.memory ≡ record { whole = true; forgotten = 0; remembered = 0 }) }
    {
        let mut finalizers = Finalizers::new(alloc)?;
        finalizers.ready.keep_all();
        Ok(finalizers)
    }

    /// Takes all entries that wait, and returns their number. They are held until they are finished.
    pub fn take_all(&mut self) -> u64
        ensures follows { Follows self.old.state (TakeAll (waiting self.old.state)) self.new.state }
        ensures count { result ≡ length (waiting self.old.state) }
        ensures memory { self.new.memory ≡ self.old.memory }
        ensures room { IsRoomier self.old.rooms self.new.rooms }
    {
        self.ready.take_all()
    }

    /// Forgets finished entries, if there are more than 1 for each 16 unfinished ones, and returns how many it forgot. Frees their memory, except the room for
    /// the entries of `room` registrations, and at least of the registrations and cleanups that there are. Takes no memory. Takes time proportional to the
    /// entries in memory.
    pub fn forget(&mut self, room: usize) -> u64
        ensures state { self.new.state ≡ self.old.state }
        ensures whole { self.new.memory.whole ≡ self.old.memory.whole }
        ensures forgotten { (self.new.memory.forgotten ≡ self.old.memory.forgotten) ⊎ (self.new.memory.forgotten ≡ self.old.taken) }
        ensures few { 16 * self.new.memory.remembered ≤ 17 * length (unfinished self.old.state) }
        ensures freed { result + self.new.memory.remembered ≡ self.old.memory.remembered }
        ensures room { KeepsEntries (room - (len self.old.registrations + len self.old.cleanups)) self.old.rooms self.new.rooms }
    {
        let wanted = self.table.len() + self.cleanups.len();
        self.ready.forget_to(room.max(wanted))
    }

    /// The entries from number `forgotten` on, in order: all entries ever queued, if none was forgotten.
    pub fn window(&self) -> &[Entry]
        ensures queue { result.now ≡ drop self.now.memory.forgotten self.now.queue }
        ensures few { length self.now.queue ≤ COUNT_LIMIT }
    {
        self.ready.window()
    }

    /// The entry with this number, if it was queued and isn't both finished and forgotten.
    pub fn entry(&self, number: u64) -> Option<Entry>
        ensures shown { self.now.memory.forgotten ≤ number → result ≡ slice_get self.now.queue number }
        ensures kept { number < self.now.memory.forgotten → IsFoundIn (unfinished self.now.state) number result }
    {
        self.ready.find(number)
    }

    /// The first unfinished entry with a number of at least `from`.
    #[inline(always)]
    pub fn next_unfinished(&self, from: u64) -> Option<Entry>
        ensures next { IsFirstHeldFrom (unfinished self.now.state) from result }
        ensures within { IfSome result (λ e. e.seq < length self.now.queue) }
        ensures few { length self.now.queue ≤ COUNT_LIMIT }
    {
        self.ready.next_unfinished(from)
    }

    /// The number of the next registration.
    pub fn next_number(&self) -> u64
        ensures { result ≡ self.now.next_number }
    {
        self.table.next_number()
    }

    /// The number of the first entry that `window` returns. Of earlier entries only the unfinished ones are in memory.
    pub fn forgotten(&self) -> u64
        ensures { result ≡ self.now.memory.forgotten }
    {
        self.ready.forgotten()
    }

    /// How many entries are in memory.
    pub fn remembered(&self) -> u64
        ensures { result ≡ self.now.memory.remembered }
    {
        self.ready.remembered()
    }
}
