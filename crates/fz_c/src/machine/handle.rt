//! What C holds of finalizers.

ghost use Rattle.std.specs.Prelude.{◌≡◌, Option};
ghost use Rattle.std.specs.Coded.{coded_option};
ghost use Rattle.fz_c.specs.Pointers.{maybe_owns};
ghost use Rattle.fz_c.specs.contracts.machine.session.MachineSession as Behind;

use crate::handle::{Handle, Pointer};
use crate::machine::session::MachineSession;
use std::alloc::Global;
use std::marker::Model;

/// A boxed session as a raw pointer, or null if there is none. C initializes it to null and never copies it.
#[repr(C)]
#[derive(Drop)]
pub struct MachineHandle {
    at: *mut u8,
    alloc: Global,
    pub ghost value: { Option Behind.the_row.Denot } by { coded_option Behind.the_row.coded },
}

impl Model for MachineHandle {
    ghost also_owns = { λ h. maybe_owns Behind.the_row h.alloc h.at h.value };
}

// What a handle owns may be sent to another thread: `proofs/machine/handle/MachineHandle/TheSendSync/Send.antt`.
unsafe impl Send for MachineHandle {}

impl Handle for MachineHandle {
    type Session = MachineSession;

    ghost held = { λ h. h.value };

    fn of(pointer: Pointer<MachineSession>) -> MachineHandle
        ensures { result.value ≡ pointer.value }
    {
        let Pointer { at, alloc } = pointer;
        MachineHandle {
            at: at as *mut u8,
            alloc,
        }
    }

    fn into_pointer(self) -> Pointer<MachineSession>
        ensures { result.value ≡ self.value }
    {
        let MachineHandle { at, alloc } = self;
        Pointer {
            at: at as *mut MachineSession,
            alloc,
        }
    }
}
