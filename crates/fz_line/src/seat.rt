//! Seats: consumers that take entries from the line.

ghost use Rattle.std.specs.Prelude.{◌≡◌, ◌+◌, length};
ghost use Rattle.fz_line.specs.Takes.{MatchTake, GainsEntry, Tells, FitsSteal, AnswersSteal};

use crate::duty::Duty;
use crate::taker::{Deque, Front, Taker};
use crossbeam_deque::Steal;
use fz_model::Entry;
use std::marker::Model;

/// A consumer of the line, with no entry in flight.
///
/// A seat can't be copied, cloned or dropped, so no entry that it took can be lost: only `retire` ends it. Its model is the list of all entries that it took,
/// each of which was finished or forfeited.
pub struct Seat {
    pub(crate) taker: Taker,
}

impl Model for Seat {
    ghost use Rattle.std.specs.Prelude.{◌≡◌, ◌+◌, length};
    ghost use Rattle.fz_line.specs.States.{SeatState};

    ghost Value = { SeatState };

    ghost view = { λ s. s.taker };

    ghost invariant = { λ s. length s.taker.took ≡ s.taker.finished + s.taker.forfeited };
}

/// What a take returns.
pub enum Take {
    /// The first entry of the line. The seat became a duty.
    Taken(Duty),
    /// The line was empty at some moment during the call.
    Empty(Seat),
    /// Another thread interfered. Try again.
    Busy(Seat),
}

/// What a take returns, given the result of the deque's steal.
fn answer(taker: Taker, stolen: Steal<Entry>) -> Take
    requires { FitsSteal stolen taker }
    ensures { AnswersSteal stolen taker result }
{
    match stolen {
        Steal::Success(entry) => Take::Taken(Duty { taker, entry }),
        Steal::Empty => Take::Empty(Seat { taker }),
        Steal::Retry => Take::Busy(Seat { taker }),
    }
}

impl Seat {
    /// Takes the first entry of the line by one steal. It is lock-free and doesn't wait.
    pub fn take(self) -> Take
        ensures { MatchTake result (GainsEntry self) (λ seat. seat ≡ self) }
    {
        self.take_from(&mut Deque)
    }

    /// Takes from this front of the line, by one steal.
    pub fn take_from<F: Front>(self, front: &mut F) -> Take
        ensures taken { MatchTake result (GainsEntry self) (λ seat. seat ≡ self) }
        ensures told { Tells (λ stolen. F.replies front.old stolen front.new) result }
    {
        let Seat { mut taker } = self;
        let stolen = front.steal(&mut taker);
        answer(taker, stolen)
    }

    /// Its index among the seats of its line, counted from 0.
    pub fn index(&self) -> usize
        ensures { result ≡ self.now.index }
    {
        self.taker.index
    }

    /// The number of entries that it took.
    pub fn taken(&self) -> u64
        ensures taken { result ≡ length self.now.took }
        ensures idle { result ≡ self.now.finished + self.now.forfeited }
    {
        self.taker.finished + self.taker.forfeited
    }

    /// The number of entries that it finished.
    pub fn finished(&self) -> u64
        ensures { result ≡ self.now.finished }
    {
        self.taker.finished
    }

    /// The number of entries that it forfeited.
    pub fn forfeited(&self) -> u64
        ensures { result ≡ self.now.forfeited }
    {
        self.taker.forfeited
    }

    /// Ends the seat for good. Afterwards its line can't be drained.
    pub fn retire(self) {
        let Seat { taker } = self;
        let Taker {
            stealer,
            pass,
            index: _,
            finished: _,
            forfeited: _,
        } = taker;
        drop(pass);
        drop(stealer);
    }
}
