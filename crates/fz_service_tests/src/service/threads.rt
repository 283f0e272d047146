//! Threads that take entries while another collects.

ghost use Rattle.std.specs.Prelude.{◌≡◌, length};

use super::wanted::{accepted, count_seats, same};
use super::{ended, make_and_drop, opened, prepared, prepared_with};
use fz_service::{OpenGate, Opening, Prepared, Seat, Service, Take};
use std::marker::Brand;
use std::process::Abort;
use std::sync::Wait;
use std::test::*;
use std::thread;
use std::thread::Threads;

/// In each of several rounds, allocates objects, drops them and collects.
fn collect_rounds<O: Opening, R: Abort + Wait>(
    rt: &R,
    service: &Service<O>,
    rounds: u64,
    objects: u64,
) {
    for _ in 0..rounds {
        for _ in 0..objects {
            make_and_drop(rt, &mut service.enter(rt));
        }
        accepted(rt, "collect", service.enter(rt).collect());
    }
}

/// A seat that is sent to a thread. If a closure that owns it is dropped, the seat is retired.
pub(super) struct Taker<O: Opening> {
    pub(super) seat: Seat<O>,
}

impl<O: Opening> Drop for Taker<O> {
    fn drop(self) {
        let Self { seat } = self;
        seat.retire();
    }
}

impl<O: Opening> Taker<O> {
    pub(super) fn seat(self) -> Seat<O> {
        let Self { seat } = self;
        seat
    }

    /// Takes this many times, and forfeits every entry.
    fn take(self, takes: u64) -> Taker<O> {
        let mut seat = self.seat();
        for _ in 0..takes {
            match seat.take() {
                Take::Taken(duty) => seat = duty.forfeit(),
                Take::Empty(same) | Take::Busy(same) => seat = same,
            }
        }
        Taker { seat }
    }
}

/// Two threads take entries while a third collects.
fn takes_beside_collects<O: Opening + Send + Sync, R: Abort + Wait + Threads + Sync>(
    rt: &R,
    prepared: Prepared,
)
    requires { prepared ≡ O.origin }
{
    let (service, mut seats) = opened::<O>(rt, prepared);
    count_seats(rt, seats.as_slice(), 2);
    let second = Taker {
        seat: seats.remove(1),
    };
    let first = Taker {
        seat: seats.remove(0),
    };
    let (first, (second, ())) = thread::join(
        rt,
        move || first.take(10_000),
        || thread::join(
            rt,
            move || second.take(10_000),
            || collect_rounds(rt, &service, 50, 1),
        ),
    );
    seats.push_reserved(first.seat());
    seats.push_reserved(second.seat());
    let end = ended(rt, service, seats);
    let counts = (end.enqueued, end.finished, end.passes);
    same(rt, "queued, finished and passes", counts, (50, 0, 50));
    same(rt, "taken and forfeited", end.taken, end.forfeited);
    let all = end.taken.checked_add(end.left.len() as u64);
    same(rt, "taken and left together", all, Some(50));
}

/// Eight workers serve thousands of entries while they are queued.
fn serves_thousands<O: Opening + Send + Sync, R: Abort + Wait + Threads + Sync>(
    rt: &R,
    prepared: Prepared,
)
    requires { prepared ≡ O.origin }
{
    let (service, seats) = opened::<O>(rt, prepared);
    let (seats, ()) = service.run_beside(seats, &mut [], &OpenGate, rt, || {
        collect_rounds(rt, &service, 30, 100)
    });
    let end = ended(rt, service, seats);
    let counts = (end.enqueued, end.taken, end.finished);
    same(rt, "the end's counts", counts, (3_000, 3_000, 3_000));
    let rest = (end.forfeited, end.left.len(), end.passes);
    same(rt, "forfeited, left and passes", rest, (0, 0, 30));
}

#[test]
fn counts_balance_beside_collects(rt: HostRuntime) {
    let prepared = prepared(&rt, rt.alloc(), 2);
    takes_beside_collects::<Brand, HostRuntime>(&rt, prepared);
}

#[test]
fn eight_workers_finish_all(rt: HostRuntime) {
    let prepared = prepared_with(&rt, rt.alloc(), 64, 8);
    serves_thousands::<Brand, HostRuntime>(&rt, prepared);
}
