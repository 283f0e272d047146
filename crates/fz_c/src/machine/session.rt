//! What a handle points to.

use fz_machine::Machine;
use std::marker::Model;

/// Finalizers whose pass asks questions.
pub struct MachineSession {
    pub(crate) machine: Machine,
}

impl Model for MachineSession {
    ghost use Rattle.fz_machine.specs.Machines.{Machine, machine_code};

    ghost Value = { Machine };

    ghost coded = { machine_code };

    ghost view = { λ s. s.machine };
}

impl Drop for MachineSession {
    fn drop(self) {
        let MachineSession { machine: _ } = self;
    }
}
