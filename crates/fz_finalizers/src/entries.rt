//! Taking and finishing entries.

ghost use Rattle.std.specs.Prelude.{◌≡◌, [], length, MatchOption, OnOk, OnErr, IsTrue, MatchResult};
ghost use Rattle.fz_finalizers.specs.Causes.{IsJudgedBy, finish_causes};
ghost use Rattle.fz_finalizers.specs.Follows.{Follows, Take, TakeFinished, Finish};
ghost use Rattle.fz_finalizers.specs.States.{is_held, waiting, IsRoomier};

use crate::finalizers::Finalizers;
use crate::refused::Refused;
use fz_model::Entry;

impl Finalizers {
    /// Takes the first waiting entry. It is held until it is finished: its object and its client data stay roots.
    pub fn take(&mut self) -> Option<Entry>
        ensures takes { MatchOption result ((waiting self.old.state ≡ []) × (self.new.state ≡ self.old.state)) (λ entry. Follows self.old.state (Take entry) self.new.state) }
        ensures memory { self.new.memory ≡ self.old.memory }
        ensures room { IsRoomier self.old.rooms self.new.rooms }
    {
        self.ready.take()
    }

    /// Finishes a held entry. Fails with `NotHeld` if no held entry equals this one in all fields.
    pub fn finish(&mut self, entry: &Entry) -> Result<(), Refused>
        ensures judged { IsJudgedBy (finish_causes self.old.held entry.now) result }
        ensures refused { OnErr result (self.new.state ≡ self.old.state) }
        ensures follows { OnOk result (Follows self.old.state (Finish entry.now) self.new.state) }
        ensures memory { self.new.memory ≡ self.old.memory }
        ensures room { IsRoomier self.old.rooms self.new.rooms }
    {
        if !self.ready.finish(entry) {
            return Err(Refused::NotHeld);
        }
        Ok(())
    }

    /// Takes the first waiting entry and finishes it at once, for a finalizer that may never return. Its object and its client data are no longer roots.
    pub fn take_finished(&mut self) -> Option<Entry>
        ensures takes { MatchOption result ((waiting self.old.state ≡ []) × (self.new.state ≡ self.old.state)) (λ entry. Follows self.old.state (TakeFinished entry) self.new.state) }
        ensures memory { self.new.memory ≡ self.old.memory }
        ensures room { IsRoomier self.old.rooms self.new.rooms }
    {
        self.ready.take_finished()
    }

    /// Whether a held entry equals this one in all fields.
    pub fn is_held(&self, entry: &Entry) -> bool
        ensures { result ≡ is_held self.now.held entry.now }
    {
        self.ready.is_held(entry)
    }

    /// How many entries wait to be taken.
    pub fn waiting(&self) -> u64
        ensures { result ≡ length (waiting self.now.state) }
    {
        self.ready.waiting()
    }

    /// How many entries are held.
    pub fn held(&self) -> u64
        ensures { result ≡ length self.now.held }
    {
        self.ready.held()
    }

    /// How many entries were ever queued.
    pub fn queued(&self) -> u64
        ensures { result ≡ length self.now.queue }
    {
        self.ready.queued()
    }

    /// The number of passes so far.
    pub fn passes(&self) -> u64
        ensures { result ≡ self.now.passes }
    {
        self.passes
    }
}
