//! What a take returns if its steal gives `Retry`, which no test can force, `Empty` or an entry.

ghost use Rattle.std.specs.Prelude.{⊤};

use super::{counts, entry};
use crate::equal::must_be;
use fz_line::{Deque, Front, Seat, Steal, Take, Taker, line, retire_all};
use fz_model::Entry;
use std::test::*;

/// A front that returns these results, one for each take, and afterwards those of the line. A taken entry comes from the line, too.
#[derive(Drop)]
struct Told<'a> {
    answers: &'a [Steal<()>],
}

impl Front for Told<'_> {
    ghost replies = { λ _ _ _. ⊤ };

    fn steal(&mut self, taker: &mut Taker) -> Steal<Entry> {
        let Some((first, rest)) = self.answers.split_first() else {
            return Deque.steal(taker);
        };
        self.answers = rest;
        match *first {
            Steal::Empty => Steal::Empty,
            Steal::Success(()) => Deque.steal(taker),
            Steal::Retry => Steal::Retry,
        }
    }
}

/// What a take returned, with the number of its entry, and the seat, which forfeited the entry.
fn answered(taken: Take) -> (Steal<u64>, Seat) {
    match taken {
        Take::Empty(same) => (Steal::Empty, same),
        Take::Busy(same) => (Steal::Retry, same),
        Take::Taken(duty) => (Steal::Success(duty.entry().seq), duty.forfeit()),
    }
}

#[test]
fn a_retry_is_busy_and_the_entry_comes_later(rt: HostRuntime) {
    let (mut owner, mut seats) = line(rt.alloc(), 1, 64).expect(&rt, "a line");
    let mut seat = seats.pop().expect(&rt, "a seat");
    must_be(&rt, owner.publish(&[entry(0)]).0, 1, "an entry is sent");

    let mut front = Told {
        answers: &[Steal::Retry, Steal::Empty, Steal::Retry, Steal::Success(())],
    };
    for want in [Steal::Retry, Steal::Empty, Steal::Retry, Steal::Success(0)] {
        let (found, same) = answered(seat.take_from(&mut front));
        must_be(&rt, found, want, "the answer of the front");
        seat = same;
    }
    must_be(&rt, counts(&seat), (1, 0, 1), "the entry is given up");
    seat.retire();
    retire_all(seats);
}
