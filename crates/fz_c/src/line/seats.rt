//! Seats: consumers that take entries.

ghost use Rattle.std.specs.Prelude.{◌≡◌, None};
ghost use Rattle.fz_line.specs.Takes.{Tells};
ghost use Rattle.fz_c.specs.Values.{entry_of};
ghost use Rattle.fz_c.specs.Seats.{TakesBehind, AsksBehind, FinishesBehind};

use crate::entry::Entry;
use crate::handle::{behind, take};
use crate::line::codes::{Code, NO_WORLD};
use crate::line::handle::SeatHandle;
use crate::line::seat_session::SeatSession;
use fz_line::{Deque, Front};
use std::alloc::Global;
use std::mem::replace;

/// A take from this front of the line.
pub(crate) fn take_from<F: Front>(
    alloc: Global,
    seat: &mut SeatHandle,
    front: &mut F,
    entry: &mut Entry,
) -> Code
    ensures asked { AsksBehind seat.old.value (Tells (λ stolen. F.replies front.old stolen front.new)) (front.new ≡ front.old) result }
    ensures taken { TakesBehind seat.old.value seat.new.value result (λ taken. entry_of entry.new ≡ taken) (entry.new ≡ entry.old) }
{
    behind!(alloc, seat, NO_WORLD, |it| {
        let (next, code) = replace(&mut *it, SeatSession::Away).take(front, entry);
        *it = next;
        code
    })
}

/// `Seat::take`: lock-free, and it doesn't wait.
#[unsafe(no_mangle)]
pub extern "C" fn fz_seat_take(alloc: Global, seat: &mut SeatHandle, entry: &mut Entry) -> Code
    ensures { TakesBehind seat.old.value seat.new.value result (λ taken. entry_of entry.new ≡ taken) (entry.new ≡ entry.old) }
{
    take_from(alloc, seat, &mut Deque, entry)
}

/// `Duty::done`.
#[unsafe(no_mangle)]
pub extern "C" fn fz_seat_done(alloc: Global, seat: &mut SeatHandle) -> Code
    ensures { FinishesBehind seat.old.value seat.new.value result }
{
    behind!(alloc, seat, NO_WORLD, |it| {
        let (next, code) = replace(&mut *it, SeatSession::Away).done();
        *it = next;
        code
    })
}

/// Frees the handle's seat, if it has one. An entry in flight is forfeited.
#[unsafe(no_mangle)]
pub extern "C" fn fz_seat_destroy(alloc: Global, seat: &mut SeatHandle)
    ensures { seat.new.value ≡ None }
{
    drop(take(seat, alloc));
}
