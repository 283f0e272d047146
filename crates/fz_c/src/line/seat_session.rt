//! What a seat's handle points to.

ghost use Rattle.std.specs.Prelude.{◌≡◌};
ghost use Rattle.fz_line.specs.Takes.{Tells};
ghost use Rattle.fz_c.specs.Values.{entry_of};
ghost use Rattle.fz_c.specs.Seats.{Takes, Asks, AnswersTake, Finishes};

use crate::entry::Entry;
use crate::line::codes::{BUSY, Code, EMPTY, IN_HAND, NO_WORLD, OK};
use fz_line::{Duty, Front, Seat, Take};

/// A seat, which may have an entry in flight. It is `Away` while a call uses it.
pub enum SeatSession {
    Idle(Seat),
    Working(Duty),
    Away,
}

impl Drop for SeatSession {
    fn drop(self) {
        match self {
            SeatSession::Idle(seat) => seat.retire(),
            SeatSession::Working(duty) => duty.forfeit().retire(),
            SeatSession::Away => {}
        }
    }
}

/// The session and the code after a take. An entry is stored in C's variable.
fn answer(taken: Take, entry: &mut Entry) -> (SeatSession, Code)
    ensures { AnswersTake taken result.0 result.1 (λ taken. entry_of entry.new ≡ taken) (entry.new ≡ entry.old) }
{
    match taken {
        Take::Taken(duty) => {
            *entry = Entry::of(duty.entry());
            (SeatSession::Working(duty), OK)
        }
        Take::Empty(seat) => (SeatSession::Idle(seat), EMPTY),
        Take::Busy(seat) => (SeatSession::Idle(seat), BUSY),
    }
}

impl SeatSession {
    /// Takes an entry from this front of the line, unless one is in flight, and stores it in C's variable.
    #[tactic(auto, using(crate::proofs::Answered::takes))]
    pub(crate) fn take<F: Front>(self, front: &mut F, entry: &mut Entry) -> (SeatSession, Code)
        ensures taken { Takes self result.0 result.1 (λ taken. entry_of entry.new ≡ taken) (entry.new ≡ entry.old) }
        ensures asked { Asks self (Tells (λ stolen. F.replies front.old stolen front.new)) (front.new ≡ front.old) result.1 }
    {
        match self {
            SeatSession::Working(duty) => (SeatSession::Working(duty), IN_HAND),
            SeatSession::Away => (SeatSession::Away, NO_WORLD),
            SeatSession::Idle(seat) => answer(seat.take_from(front), entry),
        }
    }

    /// Finishes the entry in flight.
    pub(crate) fn done(self) -> (SeatSession, Code)
        ensures { Finishes self result.0 result.1 }
    {
        match self {
            SeatSession::Working(duty) => (SeatSession::Idle(duty.done()), OK),
            SeatSession::Idle(seat) => (SeatSession::Idle(seat), EMPTY),
            SeatSession::Away => (SeatSession::Away, NO_WORLD),
        }
    }
}
