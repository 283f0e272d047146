//! Registrations.

ghost use Rattle.std.specs.Prelude.{◌≡◌, ◌≤◌, ◌<◌, ◌+◌, None, if◌then◌else◌, IfOk, IfErr, OnOk, OnErr, IsTrue};
ghost use Rattle.std.specs.FinMap.{get, len};
ghost use Rattle.fz_model.specs.Steps.{old_of};
ghost use Rattle.fz_finalizers.specs.Causes.{IsJudgedBy, IsJudgedOrLacks, register_causes};
ghost use Rattle.fz_finalizers.specs.Follows.{Follows, Register, Unregister};
ghost use Rattle.fz_finalizers.specs.States.{kind_at, IsRoomier, Spends, UsesEntry};

use crate::finalizers::Finalizers;
use crate::kinds::{Finalizer, Kind};
use crate::refused::Refused;
use crate::registering;
use fz_model::{Addr, Old, Registration};

impl Finalizers {
    /// Registers a finalizer for an object, in place of the registration that it may have, and returns the registration number and what was replaced.
    ///
    /// Fails with, in this order: `Zero` if the object is 0, `Exhausted` after 2^48 numbers, `Full` if 2^32 others are registered, `NoMemory`. A replacement
    /// takes no memory and no room, also one by another kind. A new registration uses the room of one entry, as a cleanup does.
    pub fn register(
        &mut self,
        object: Addr,
        finalizer: Finalizer,
    ) -> Result<(u64, Option<Old>), Refused>
        ensures judged { IsJudgedOrLacks (register_causes self.old.registrations self.old.next_number object) result }
        // Only an object that isn't registered can run out of memory, and only if no room is reserved.
        ensures fresh { IfErr result (λ r. r ≡ Refused.NoMemory → get self.old.registrations object ≡ None) }
        ensures wanting { IfErr result (λ r. r ≡ Refused.NoMemory → self.old.rooms.registrations ≡ 0) }
        ensures refused { OnErr result (self.new.state ≡ self.old.state) }
        ensures number { IfOk result (λ answer. answer.0 ≡ self.old.next_number) }
        ensures replaced { IfOk result (λ answer. answer.1 ≡ old_of self.old.registrations object) }
        ensures follows { OnOk result (Follows self.old.state (Register object finalizer) self.new.state) }
        ensures whole { self.new.memory.whole ≡ self.old.memory.whole }
        ensures memory { IsTrue self.old.memory.whole → self.new.memory ≡ self.old.memory }
        ensures room { Spends UsesEntry result self.old.rooms self.new.rooms }
    {
        let cleanups = self.cleanups.len();
        registering::register(
            &mut self.table,
            cleanups,
            &mut self.ready,
            object,
            finalizer,
        )
    }

    /// Checks an object as `register` does, apart from memory.
    pub fn check(&self, object: Addr) -> Result<(), Refused>
        ensures judged { IsJudgedBy (register_causes self.now.registrations self.now.next_number object) result }
    {
        registering::check(&self.table, object)
    }

    /// Removes an object's registration, and returns its procedure and client data, if it was registered.
    pub fn unregister(&mut self, object: Addr) -> Option<Old>
        ensures answer { result ≡ old_of self.old.registrations object }
        ensures follows { Follows self.old.state (Unregister object) self.new.state }
        ensures memory { self.new.memory ≡ self.old.memory }
        ensures room { IsRoomier self.old.rooms self.new.rooms }
    {
        self.table.remove(object)
    }

    /// An object's registration. Its kind is the one in the table: `Normal` for one of kind `Unreachable`.
    pub fn registration(&self, object: Addr) -> Option<Registration>
        ensures { result ≡ get self.now.registrations object }
    {
        self.table.get(object)
    }

    /// The kind of an object's registration.
    pub fn kind(&self, object: Addr) -> Option<Kind>
        ensures { result ≡ kind_at self.now.state object }
    {
        let registration = self.table.get(object)?;
        Some(Kind::of_table(self.table.is_unreachable(object), registration.kind))
    }

    /// The number of registered objects.
    pub fn registrations(&self) -> u64
        ensures { result ≡ len self.now.registrations }
    {
        self.table.len() as u64
    }
}
