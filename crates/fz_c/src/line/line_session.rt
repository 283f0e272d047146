//! What a line's handle points to.

ghost use Rattle.std.specs.Prelude.{◌≡◌, length};
ghost use Rattle.fz_c.specs.Lines.{Publishes};

use crate::line::codes::{Code, NOT_NEXT, OK};
use fz_line::{Owner, Seat, retire_all};
use fz_model::{Entry, Refusal};
use std::marker::Model;

/// For how many entries a line has room when it is opened.
pub(crate) const FIRST_ROOM: usize = 64;

/// The largest number of entries that a line is sent.
const MOST_SENT: u64 = 1 << 62;

/// A line's owner, the seats that C hasn't got yet, and how many entries were sent.
pub struct LineSession {
    pub(crate) owner: Owner,
    pub(crate) seats: Vec<Seat>,
    pub(crate) sent: u64,
}

impl Model for LineSession {
    ghost use Rattle.std.specs.Prelude.{◌≡◌, length};
    ghost use Rattle.fz_c.specs.Lines.{LineState};

    ghost Value = { LineState };

    ghost view = { λ s. record { owner = s.owner; seats = s.seats.items } };

    ghost invariant = { λ s. s.sent ≡ length s.owner.sent };
}

impl Drop for LineSession {
    fn drop(self) {
        let LineSession {
            owner,
            seats,
            sent: _,
        } = self;
        retire_all(seats);
        drop(owner);
    }
}

impl LineSession {
    /// Publishes one entry. It has to have the next number.
    pub(crate) fn publish(&mut self, entry: Entry) -> Code
        ensures { Publishes self.old entry self.new result }
    {
        if self.sent >= MOST_SENT {
            return Refusal::Exhausted.code();
        }
        if entry.seq != self.sent {
            return NOT_NEXT;
        }
        if self.owner.publish(&[entry]).0 == 0 {
            return Refusal::NoMemory.code();
        }
        self.sent += 1;
        OK
    }
}
