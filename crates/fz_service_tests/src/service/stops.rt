//! A service that stops after each possible number of takes and finishes.

ghost use Rattle.std.specs.Prelude.{◌≡◌};

use super::wanted::{accepted, count_seats, same};
use super::{ended, make_and_drop, must_finish, must_take, opened, prepared};
use fz_model::Entry;
use fz_service::{Duty, Final, Opening, Prepared, Seat, Service};
use std::marker::Brand;
use std::process::Abort;
use std::sync::Wait;
use std::test::*;

/// The number of queued entries.
const ENTRIES: u64 = 20;

/// A seat, or a duty.
enum Hand<O: Opening> {
    Idle(Seat<O>),
    Busy(Duty<O>),
}

impl<O: Opening> Hand<O> {
    /// Takes an entry, or finishes the one in flight.
    fn step<R: Abort + Wait>(self, rt: &R, service: &Service<O>) -> Hand<O> {
        match self {
            Hand::Idle(seat) => Hand::Busy(must_take(rt, seat)),
            Hand::Busy(duty) => Hand::Idle(must_finish(rt, service, duty)),
        }
    }

    /// The seat; an entry in flight is forfeited.
    fn stop(self) -> Seat<O> {
        match self {
            Hand::Idle(seat) => seat,
            Hand::Busy(duty) => duty.forfeit(),
        }
    }
}

/// Two seats alternately take and finish entries, for a number of steps. Entries in flight are then forfeited.
fn step_by_turns<O: Opening, R: Abort + Wait>(
    rt: &R,
    service: &Service<O>,
    mut seats: Vec<Seat<O>>,
    steps: u64,
) -> Vec<Seat<O>> {
    count_seats(rt, seats.as_slice(), 2);
    let mut other = Hand::Idle(seats.remove(1));
    let mut next = Hand::Idle(seats.remove(0));
    for _ in 0..steps {
        let stepped = next.step(rt, service);
        next = other;
        other = stepped;
    }
    seats.push_reserved(next.stop());
    seats.push_reserved(other.stop());
    seats
}

/// The counts of a service that ended after this many steps.
fn counts(rt: &impl Abort, steps: u64, end: &Final, taken: u64, finished: u64) {
    let forfeited = taken.wrapping_sub(finished);
    let got = (steps, end.enqueued, end.taken, end.finished, end.forfeited);
    let want = (steps, ENTRIES, taken, finished, forfeited);
    same(rt, "the steps and the end's counts", got, want);
}

/// All entries from this number on, in order.
fn lists_the_rest(rt: &impl Abort, steps: u64, left: &[Entry], taken: u64) {
    let mut seq = taken;
    for entry in left {
        same(
            rt,
            "the steps and an entry",
            (steps, entry.seq),
            (steps, seq),
        );
        seq = seq.wrapping_add(1);
    }
    same(
        rt,
        "the steps and the last entry",
        (steps, seq),
        (steps, ENTRIES),
    );
}

/// Of every four steps, the first two are takes and the last two are finishes, so the counts are known wherever the service stops.
fn stops_after<O: Opening, R: Abort + Wait>(rt: &R, prepared: Prepared, steps: u64)
    requires { prepared ≡ O.origin }
{
    let (service, seats) = opened::<O>(rt, prepared);
    for _ in 0..ENTRIES {
        make_and_drop(rt, &mut service.enter(rt));
    }
    accepted(rt, "collect", service.enter(rt).collect());
    let seats = step_by_turns(rt, &service, seats, steps);
    let end = ended(rt, service, seats);
    let taken = steps / 4 * 2 + (steps % 4).min(2);
    let finished = steps / 4 * 2 + (steps % 4).saturating_sub(2);
    counts(rt, steps, &end, taken, finished);
    lists_the_rest(rt, steps, end.left.as_slice(), end.taken);
    let room = (steps, end.left.capacity());
    same(rt, "the steps and the room", room, (steps, end.left.len()));
}

#[test]
fn counts_are_exact_after_each_step(rt: HostRuntime) {
    for steps in 0..2 * ENTRIES + 1 {
        let prepared = prepared(&rt, rt.alloc(), 2);
        stops_after::<Brand, HostRuntime>(&rt, prepared, steps);
    }
}
