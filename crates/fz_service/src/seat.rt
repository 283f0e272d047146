//! The seats (consumers) and duties of one opening.

ghost use Rattle.std.specs.Prelude.{◌≡◌, ◌+◌, length};
ghost use Rattle.fz_line.specs.Takes.{GainsEntry};
ghost use Rattle.fz_service.specs.Takes.{MatchTake, IsShareOf, IsSameTake};

use crate::opening::{Finishes, Opening};
use fz_model::Entry;
use std::marker::Model;
use std::sync::ledger::Share;

/// A worker's seat: a consumer of one opening's line, with no entry in flight.
///
/// A seat can't be copied, cloned or dropped: only a successful `end` or `shutdown`, or `retire`, ends it. Its model is the list of all entries that it took,
/// and how many it finished and forfeited.
pub struct Seat<O: Opening> {
    pub(crate) seat: fz_line::Seat,
    pub(crate) share: Share<Finishes<O>>,
}

impl<O: Opening> Model for Seat<O> {
    ghost use Rattle.std.specs.Prelude.{◌≡◌};
    ghost use Rattle.fz_line.specs.States.{SeatState};

    ghost Value = { SeatState };

    ghost view = { λ s. s.seat };

    ghost invariant = { λ s. (s.seat.line ≡ O.origin.line) × (s.share.parts ≡ 1) × (s.share.amount ≡ s.seat.finished) };
}

/// A seat with the entry that it took last, which is in flight.
///
/// It can't be copied, cloned or dropped: `Locked::finish` or `forfeit` turns it back into a seat.
pub struct Duty<O: Opening> {
    pub(crate) duty: fz_line::Duty,
    pub(crate) share: Share<Finishes<O>>,
}

impl<O: Opening> Model for Duty<O> {
    ghost use Rattle.std.specs.Prelude.{◌≡◌};
    ghost use Rattle.fz_line.specs.States.{DutyState};

    ghost Value = { DutyState };

    ghost view = { λ d. d.duty };

    ghost invariant = { λ d. (d.duty.seat.line ≡ O.origin.line) × (d.share.parts ≡ 1) × (d.share.amount ≡ d.duty.seat.finished) };
}

/// What a take returns.
pub enum Take<O: Opening> {
    /// The first entry of the line. The seat became a duty.
    Taken(Duty<O>),
    /// The line was empty at some moment during the call.
    Empty(Seat<O>),
    /// Another thread interfered. Try again.
    Busy(Seat<O>),
}

/// The line's result, with the share of its seat.
fn with_share<O: Opening>(answer: fz_line::Take, share: Share<Finishes<O>>) -> Take<O>
    requires share { (share.parts ≡ 1) × IsShareOf O.origin.line share.amount answer }
    ensures { IsSameTake answer result }
{
    match answer {
        fz_line::Take::Taken(duty) => Take::Taken(Duty { duty, share }),
        fz_line::Take::Empty(seat) => Take::Empty(Seat { seat, share }),
        fz_line::Take::Busy(seat) => Take::Busy(Seat { seat, share }),
    }
}

impl<O: Opening> Seat<O> {
    /// Takes the first entry of the line by one steal. It is lock-free and doesn't wait.
    #[inline(always)]
    pub fn take(self) -> Take<O>
        ensures { MatchTake result (GainsEntry self) (λ seat. seat ≡ self) }
    {
        let Seat { seat, share } = self;
        with_share(seat.take(), share)
    }

    /// Its index among the seats of its service, counted from 0.
    pub fn index(&self) -> usize
        ensures { result ≡ self.now.index }
    {
        self.seat.index()
    }

    /// The number of entries that it took.
    pub fn taken(&self) -> u64
        ensures taken { result ≡ length self.now.took }
        ensures idle { result ≡ self.now.finished + self.now.forfeited }
    {
        self.seat.taken()
    }

    /// The number of entries that it finished.
    pub fn finished(&self) -> u64
        ensures { result ≡ self.now.finished }
    {
        self.seat.finished()
    }

    /// The number of entries that it forfeited.
    pub fn forfeited(&self) -> u64
        ensures { result ≡ self.now.forfeited }
    {
        self.seat.forfeited()
    }

    /// Ends the seat for good. Afterwards its service can't be shut down.
    pub fn retire(self) {
        let Seat { seat, share } = self;
        drop(share);
        seat.retire();
    }
}

impl<O: Opening> Duty<O> {
    /// The entry in flight.
    pub fn entry(&self) -> &Entry
        ensures { result.now ≡ self.now.entry }
    {
        self.duty.entry()
    }

    /// Abandons the entry, which counts as forfeited: it is held for ever, and so its object is retained.
    pub fn forfeit(self) -> Seat<O>
        ensures { result ≡ record self.seat { forfeited = self.seat.forfeited + 1 } }
    {
        let Duty { duty, share } = self;
        Seat {
            seat: duty.forfeit(),
            share,
        }
    }
}

/// Ends these seats for good. Afterwards their service can't be shut down.
pub fn retire_all<O: Opening>(mut seats: Vec<Seat<O>>) {
    while let Some(seat) = seats.pop() {
        seat.retire();
    }
    seats.destroy_empty();
}
