//! Duties: consumers with an entry in flight.

ghost use Rattle.std.specs.Prelude.{◌≡◌, ◌+◌};

use crate::seat::Seat;
use crate::taker::Taker;
use fz_model::Entry;
use std::marker::Model;

/// A consumer with the entry that it took last.
///
/// A duty can't be copied, cloned or dropped, so its entry can't be lost: `done` or `forfeit` turns it back into a seat. Its model is the seat, whose list
/// ends with the entry, and the entry.
pub struct Duty {
    pub(crate) taker: Taker,
    pub(crate) entry: Entry,
}

impl Model for Duty {
    ghost use Rattle.std.specs.Prelude.{◌≡◌, ◌+◌, length};
    ghost use Rattle.fz_line.specs.States.{DutyState};

    ghost Value = { DutyState };

    ghost view = { λ d. record { seat = d.taker; entry = d.entry } };

    ghost invariant = { λ d. length d.taker.took ≡ d.taker.finished + d.taker.forfeited + 1 };
}

impl Duty {
    /// The entry in flight.
    pub fn entry(&self) -> &Entry
        ensures { result.now ≡ self.now.entry }
    {
        &self.entry
    }

    /// Abandons the entry, which counts as forfeited.
    pub fn forfeit(self) -> Seat
        ensures { result ≡ record self.seat { forfeited = self.seat.forfeited + 1 } }
    {
        let Duty {
            mut taker,
            entry: _,
        } = self;
        taker.forfeited += 1;
        Seat { taker }
    }

    /// Reports that the entry's work is done, which counts as finished.
    pub fn done(self) -> Seat
        ensures { result ≡ record self.seat { finished = self.seat.finished + 1 } }
    {
        let Duty {
            mut taker,
            entry: _,
        } = self;
        taker.finished += 1;
        Seat { taker }
    }
}
