//! Cleanups.

ghost use Rattle.std.specs.Prelude.{◌≡◌, ◌≤◌, ◌<◌, ◌+◌, length, IfOk, IfErr, OnOk, OnErr, IsTrue};
ghost use Rattle.std.specs.FinMap.{get, len};
ghost use Rattle.fz_finalizers.specs.Causes.{IsJudgedBy, IsJudgedOrLacks, add_causes};
ghost use Rattle.fz_finalizers.specs.Follows.{Follows, AddCleanup, Cancel};
ghost use Rattle.fz_table.specs.declared.limits.TheConstants.{MOST_ENTRIES};
ghost use Rattle.fz_finalizers.specs.States.{IsRoomier, Spends, UsesEntry};
ghost use Rattle.fz_finalizers.specs.Walks.{AreCleanups};

use crate::cleanups::{Attached, Cleanup, Cleanups};
use crate::finalizers::Finalizers;
use crate::refused::Refused;
use fz_model::{Addr, COUNT_LIMIT};
use fz_table::{MOST_ENTRIES, Pairs, Table};

/// Checks that a cleanup can be added to the object, apart from memory.
fn check(table: &Table, cleanups: &Cleanups, object: Addr) -> Result<(), Refused>
    ensures { IsJudgedBy (add_causes cleanups.now.cleanups table.now.next_number object) result }
{
    if object == 0 {
        return Err(Refused::Zero);
    }
    if table.next_number() >= COUNT_LIMIT {
        return Err(Refused::Exhausted);
    }
    if cleanups.len() as u64 >= MOST_ENTRIES {
        return Err(Refused::Full);
    }
    Ok(())
}

impl Finalizers {
    /// Adds a cleanup to an object, which may have others and a finalizer, and returns its number. A number belongs to one cleanup or one registration.
    ///
    /// When the object is lost, an entry without the object is queued: the entry's object and birth are 0, and its `reg` is this number. So the object's memory
    /// can be reclaimed after the same pass. Until then the client data is a root, and the object isn't. A new object at the same address would inherit the
    /// cleanup, so a host that reclaims objects at other times than after a pass has to cancel their cleanups.
    ///
    /// Fails with, in this order: `Zero` if the object is 0, `Exhausted` after 2^48 numbers, `Full` if there are 2^32 cleanups, `NoMemory`.
    pub fn add_cleanup(&mut self, object: Addr, cleanup: Cleanup) -> Result<u64, Refused>
        ensures judged { IsJudgedOrLacks (add_causes self.old.cleanups self.old.next_number object) result }
        // Only a call without reserved room can run out of memory.
        ensures wanting { IfErr result (λ r. r ≡ Refused.NoMemory → self.old.rooms.cleanups ≡ 0) }
        ensures refused { OnErr result (self.new.state ≡ self.old.state) }
        ensures number { IfOk result (λ number. number ≡ self.old.next_number) }
        ensures follows { OnOk result (Follows self.old.state (AddCleanup object cleanup) self.new.state) }
        ensures whole { self.new.memory.whole ≡ self.old.memory.whole }
        ensures memory { IsTrue self.old.memory.whole → self.new.memory ≡ self.old.memory }
        ensures room { Spends UsesEntry result self.old.rooms self.new.rooms }
    {
        check(&self.table, &self.cleanups, object)?;
        self.ready
            .reserve(self.table.len() + self.cleanups.len() + 1)?;
        let number = self.table.next_number();
        self.cleanups.add(number, Attached { object, cleanup })?;
        Ok(self.table.take_number())
    }

    /// Checks an object as `add_cleanup` does, apart from memory.
    pub fn check_cleanup(&self, object: Addr) -> Result<(), Refused>
        ensures judged { IsJudgedBy (add_causes self.now.cleanups self.now.next_number object) result }
    {
        let (table, cleanups) = (&self.table, &self.cleanups);
        check(table, cleanups, object)
    }

    /// Removes a cleanup, and returns it with its object. Returns none if it was queued or cancelled, or never added.
    pub fn cancel(&mut self, number: u64) -> Option<Attached>
        ensures answer { result ≡ get self.old.cleanups number }
        ensures follows { Follows self.old.state (Cancel number) self.new.state }
        ensures memory { self.new.memory ≡ self.old.memory }
        ensures room { IsRoomier self.old.rooms self.new.rooms }
    {
        self.cleanups.remove(number)
    }

    /// The cleanup with this number, with its object, unless it was queued or cancelled.
    pub fn cleanup(&self, number: u64) -> Option<Attached>
        ensures { result ≡ get self.now.cleanups number }
    {
        self.cleanups.get(number)
    }

    /// The number of cleanups.
    pub fn cleanups(&self) -> u64
        ensures { result ≡ len self.now.cleanups }
    {
        self.cleanups.len() as u64
    }

    /// All cleanups with their numbers, each once. The order stays the same until the next call that takes `&mut self`, so an iteration can continue later from
    /// an index.
    pub fn iter_cleanups(&self) -> Pairs<'_, u64, Attached>
        ensures all { AreCleanups self.now.state result }
        ensures count { length result ≡ len self.now.cleanups }
        ensures limit { length result ≤ MOST_ENTRIES }
        ensures order { result ≡ self.now.order.cleanups }
    {
        self.cleanups.iter()
    }
}
