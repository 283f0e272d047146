//! Passes that are carried out by individual calls.

ghost use Rattle.std.specs.Prelude.{◌≡◌, ◌≤◌, ◌<◌, ◌+◌, is_some, IsTrue};
ghost use Rattle.std.specs.FinMap.{get};
ghost use Rattle.fz_pass.specs.All.{unknown};
ghost use Rattle.fz_pass.specs.Picking.{pick_of};
ghost use Rattle.fz_finalizers.specs.Follows.{Follows, Begin, Queue, QueueCleanup, next_pass};
ghost use Rattle.fz_finalizers.specs.States.{IsRoomier, KeepsWindow};

use crate::cleaning;
use crate::finalizers::Finalizers;
use fz_model::{Addr, Pick, Registration};

/// What the entry of an object's registration has.
fn pick_of(object: Addr, registration: Registration) -> Pick
    ensures { result ≡ pick_of registration object unknown }
{
    Pick {
        reg: registration.number,
        obj: object,
        birth: 0,
        proc: registration.proc,
        cd: registration.cd,
    }
}

impl Finalizers {
    /// Begins a pass whose decisions the caller makes, as `fz_machine` does; a host calls `pass`. Returns its number. From now on `queue` adds entries to it.
    pub fn begin_pass(&mut self) -> u64
        ensures number { result ≡ next_pass self.old.passes }
        ensures follows { Follows self.old.state Begin self.new.state }
        ensures whole { self.new.memory.whole ≡ self.old.memory.whole }
        ensures memory { IsTrue self.old.memory.whole → self.new.memory ≡ self.old.memory }
        ensures room { IsRoomier self.old.rooms self.new.rooms }
    {
        self.ready.reuse();
        self.passes = self.passes.saturating_add(1);
        self.passes
    }

    /// Appends an object's registration to the queue, as an entry of the last pass begun, with birth 0, and returns whether the object was registered. Takes
    /// no memory.
    pub fn queue(&mut self, object: Addr) -> bool
        ensures answer { result ≡ is_some (get self.old.registrations object) }
        ensures follows { Follows self.old.state (Queue object) self.new.state }
        ensures memory { KeepsWindow self.old.memory self.new.memory }
        ensures room { IsRoomier self.old.rooms self.new.rooms }
    {
        let Some(registration) = self.table.take(object) else {
            return false;
        };
        self.ready.push(self.passes, pick_of(object, registration));
        true
    }

    /// Removes a cleanup and appends its entry to the queue, as one of the last pass begun, and returns whether there was one. Takes no memory.
    pub fn queue_cleanup(&mut self, number: u64) -> bool
        ensures answer { result ≡ is_some (get self.old.cleanups number) }
        ensures follows { Follows self.old.state (QueueCleanup number) self.new.state }
        ensures memory { KeepsWindow self.old.memory self.new.memory }
        ensures room { IsRoomier self.old.rooms self.new.rooms }
    {
        let Some(attached) = self.cleanups.remove(number) else {
            return false;
        };
        self.ready
            .push(self.passes, cleaning::pick_of(number, attached));
        true
    }
}
