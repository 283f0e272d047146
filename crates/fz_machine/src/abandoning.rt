//! Ending a pass early.

ghost use Rattle.std.specs.Prelude.{◌≡◌, None, OnOk, OnErr, IfErr};
ghost use Rattle.fz_machine.specs.Machines.{IsAbandoned};
ghost use Rattle.fz_machine.specs.declared.refused.Refused.TheVariants.{NoPass};

use crate::machine::Machine;
use crate::refused::Refused;
use crate::tables::stop;

impl Machine {
    /// Ends an open pass early. What it has queued stays queued. An object that it hasn't queued stays registered, and so does a cleanup. A link or an
    /// ephemeron whose removal waits for an answer stays, too.
    ///
    /// The host may reclaim nothing before its next pass has ended: registered objects, targets of links and keys still have to exist. Fails with `NoPass` if
    /// no pass is open.
    pub fn abandon(&mut self) -> Result<(), Refused>
        ensures refused { OnErr result ((self.old.phase ≡ None) × (self.new ≡ self.old)) }
        ensures cause { IfErr result (λ r. r ≡ NoPass) }
        ensures abandoned { OnOk result (IsAbandoned self.old self.new) }
    {
        let Some(phase) = self.phase else {
            return Err(Refused::NoPass);
        };
        self.walk.stop(phase);
        stop(&mut self.tables, phase);
        self.phase = None;
        self.asked = 0;
        Ok(())
    }
}
