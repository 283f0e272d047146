//! Keys that a host tells while it marks values.

ghost use Rattle.fz_machine.specs.Machines.{IsTold};

use crate::machine::Machine;
use crate::phase::Phase;
use fz_finalizers::Addr;

impl Machine {
    /// Tells that an object was marked, which may be the key of ephemerons. A host may call this for each object that it marks while it carries out
    /// `MarkValue`: then the ephemerons with this key are looked at before the others, so that a chain of them, each of whose values reaches the key of the
    /// next, takes time in proportion to its length, not to the square of it. If no pass is open, or the last question was another, nothing changes.
    ///
    /// What a pass queues, clears and marks doesn't depend on these calls: a key that isn't told, or is told twice, or isn't marked, changes the time alone.
    /// Takes time logarithmic in the ephemerons, but for the first call after they were looked at, which sorts them. Takes no memory.
    pub fn key_marked(&mut self, key: Addr)
        ensures { IsTold key self.old self.new }
    {
        if let Some(Phase::Values(_)) = self.phase {
            self.walk.tell(key);
        }
    }
}
