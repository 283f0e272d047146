//! What C holds of a line and of a seat.

ghost use Rattle.std.specs.Prelude.{◌≡◌, Option};
ghost use Rattle.std.specs.Coded.{coded_option};
ghost use Rattle.fz_c.specs.Pointers.{maybe_owns};
ghost use Rattle.fz_c.specs.contracts.line.line_session.LineSession as Line;
ghost use Rattle.fz_c.specs.contracts.line.seat_session.SeatSession as Seat;

use crate::handle::{Handle, Pointer};
use crate::line::line_session::LineSession;
use crate::line::seat_session::SeatSession;
use std::alloc::Global;
use std::marker::Model;

/// A boxed session of a line as a raw pointer, or null if there is none. C initializes it to null and never copies it.
#[repr(C)]
#[derive(Drop)]
pub struct LineHandle {
    at: *mut u8,
    alloc: Global,
    pub ghost value: { Option Line.the_row.Denot } by { coded_option Line.the_row.coded },
}

impl Model for LineHandle {
    ghost also_owns = { λ h. maybe_owns Line.the_row h.alloc h.at h.value };
}

// What a handle owns may be sent to another thread: `proofs/line/handle/LineHandle/TheSendSync/Send.antt`.
unsafe impl Send for LineHandle {}

impl Handle for LineHandle {
    type Session = LineSession;

    ghost held = { λ h. h.value };

    fn of(pointer: Pointer<LineSession>) -> LineHandle
        ensures { result.value ≡ pointer.value }
    {
        let Pointer { at, alloc } = pointer;
        LineHandle {
            at: at as *mut u8,
            alloc,
        }
    }

    fn into_pointer(self) -> Pointer<LineSession>
        ensures { result.value ≡ self.value }
    {
        let LineHandle { at, alloc } = self;
        Pointer {
            at: at as *mut LineSession,
            alloc,
        }
    }
}

/// A boxed session of a seat as a raw pointer, or null if there is none. C initializes it to null and never copies it.
#[repr(C)]
#[derive(Drop)]
pub struct SeatHandle {
    at: *mut u8,
    alloc: Global,
    pub ghost value: { Option Seat.the_row.Denot } by { coded_option Seat.the_row.coded },
}

impl Model for SeatHandle {
    ghost also_owns = { λ h. maybe_owns Seat.the_row h.alloc h.at h.value };
}

// What a handle owns may be sent to another thread: `proofs/line/handle/SeatHandle/TheSendSync/Send.antt`.
unsafe impl Send for SeatHandle {}

impl Handle for SeatHandle {
    type Session = SeatSession;

    ghost held = { λ h. h.value };

    fn of(pointer: Pointer<SeatSession>) -> SeatHandle
        ensures { result.value ≡ pointer.value }
    {
        let Pointer { at, alloc } = pointer;
        SeatHandle {
            at: at as *mut u8,
            alloc,
        }
    }

    fn into_pointer(self) -> Pointer<SeatSession>
        ensures { result.value ≡ self.value }
    {
        let SeatHandle { at, alloc } = self;
        Pointer {
            at: at as *mut SeatSession,
            alloc,
        }
    }
}
