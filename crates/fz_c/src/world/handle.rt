//! What C holds of a world.

ghost use Rattle.std.specs.Prelude.{◌≡◌, Option};
ghost use Rattle.std.specs.Coded.{coded_option};
ghost use Rattle.fz_c.specs.Pointers.{maybe_owns};
ghost use Rattle.fz_c.specs.Owned.{Held};
ghost use Rattle.fz_c.specs.contracts.world.session.WorldSession as Behind;

use crate::handle::{Handle, Pointer};
use crate::world::session::WorldSession;
use std::alloc::Global;
use std::marker::Model;

/// A boxed session as a raw pointer, or null if there is none. C initializes it to null and never copies it.
#[repr(C)]
#[derive(Drop)]
pub struct WorldHandle {
    at: *mut u8,
    alloc: Global,
    pub ghost value: { Option Held } by { coded_option Behind.the_row.coded },
}

impl Model for WorldHandle {
    ghost also_owns = { λ h. maybe_owns Behind.the_row h.alloc h.at h.value };
}

// What a handle owns may be sent to another thread: `proofs/world/handle/WorldHandle/TheSendSync/Send.antt`.
unsafe impl Send for WorldHandle {}

impl Handle for WorldHandle {
    type Session = WorldSession;

    ghost held = { λ h. h.value };

    fn of(pointer: Pointer<WorldSession>) -> WorldHandle
        ensures { result.value ≡ pointer.value }
    {
        let Pointer { at, alloc } = pointer;
        WorldHandle {
            at: at as *mut u8,
            alloc,
        }
    }

    fn into_pointer(self) -> Pointer<WorldSession>
        ensures { result.value ≡ self.value }
    {
        let WorldHandle { at, alloc } = self;
        Pointer {
            at: at as *mut WorldSession,
            alloc,
        }
    }
}
