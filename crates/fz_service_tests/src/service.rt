//! What no clause states: that memory is allocated only when it is needed, that takes need no lock and depend on the line's content, which procedures workers
//! call, that these run at the same time, and the results of whole services.

mod bell;
mod eight;
mod limits;
mod lists;
mod lock;
mod openings;
mod programs;
mod refused;
mod rows;
mod stops;
mod threads;
mod wanted;
mod workers;

ghost use Rattle.std.specs.Prelude.{◌≡◌};

use fz_model::ObjKind::Scanned;
use fz_model::Refusal;
use fz_model::RegKind::Normal;
use fz_service::{Duty, Final, Locked, Opening, Prepared, Seat, Service, Take};
use fz_world::Config;
use std::alloc::Global;
use std::marker::Brand;
use std::process::Abort;
use std::sync::Wait;
use std::test::*;
use wanted::{accepted, collects, count_seats, put_back, same};

/// The largest number of takes until a result other than Busy.
const TRIES: u32 = 1_000;

fn prepared(rt: &impl Abort, alloc: Global, workers: u64) -> Prepared {
    prepared_with(rt, alloc, 4, workers)
}

fn prepared_with(rt: &impl Abort, alloc: Global, blocks: u64, workers: u64) -> Prepared {
    let config = Config { blocks, frames: 1 };
    Service::prepare(alloc, config, workers).expect(rt, "memory")
}

/// Allocates an object of one word, registers it with this procedure, and drops it.
fn make_and_drop_with<O: Opening>(rt: &impl Abort, locked: &mut Locked<O>, proc: u64) {
    accepted(rt, "alloc", locked.alloc(0, 0, 1, Scanned));
    accepted(rt, "register", locked.register(0, 0, Normal, proc, 0, 0));
    accepted(rt, "set", locked.set(0, 0, 0));
}

/// The same with procedure 1.
fn make_and_drop<O: Opening>(rt: &impl Abort, locked: &mut Locked<O>) {
    make_and_drop_with(rt, locked, 1);
}

/// Queues and sends entries of these procedures.
fn queue_entries<O: Opening>(rt: &impl Abort, locked: &mut Locked<O>, procs: &[u64]) {
    for proc in procs {
        make_and_drop_with(rt, locked, *proc);
    }
    accepted(rt, "collect", locked.collect());
    same(rt, "queued", locked.queue().len(), procs.len());
    same(rt, "not sent", locked.outbox().len(), 0);
}

/// The first result other than Busy.
fn take_soon<O: Opening>(mut seat: Seat<O>) -> Take<O> {
    for _ in 0..TRIES {
        match seat.take() {
            Take::Busy(same) => seat = same,
            answer => return answer,
        }
    }
    Take::Busy(seat)
}

/// A take that has to return an entry.
fn must_take<O: Opening>(rt: &impl Abort, seat: Seat<O>) -> Duty<O> {
    match take_soon(seat) {
        Take::Taken(duty) => duty,
        Take::Empty(same) | Take::Busy(same) => {
            same.retire();
            panic!(rt; "no entry")
        }
    }
}

/// A finish that has to succeed.
fn must_finish<O: Opening, R: Abort + Wait>(
    rt: &R,
    service: &Service<O>,
    duty: Duty<O>,
) -> Seat<O> {
    match service.enter(rt).finish(duty) {
        Ok(seat) => seat,
        Err((_, duty)) => {
            duty.forfeit().retire();
            panic!(rt; "not held")
        }
    }
}

/// A take that has to return the entry with this number.
fn take_next<O: Opening>(rt: &impl Abort, seat: Seat<O>, seq: u64) -> Duty<O> {
    let duty = must_take(rt, seat);
    same(rt, "the entry's number", duty.entry().seq, seq);
    duty
}

/// Takes the entry with this number and forfeits it.
fn forfeit_next<O: Opening>(rt: &impl Abort, seat: Seat<O>, seq: u64) -> Seat<O> {
    take_next(rt, seat, seq).forfeit()
}

/// Takes the entry with this number and finishes it.
fn finish_next<O: Opening, R: Abort + Wait>(
    rt: &R,
    service: &Service<O>,
    seat: Seat<O>,
    seq: u64,
) -> Seat<O> {
    let duty = take_next(rt, seat, seq);
    must_finish(rt, service, duty)
}

/// A take that has to find the line empty.
fn find_nothing<O: Opening>(rt: &impl Abort, seat: Seat<O>) -> Seat<O> {
    match take_soon(seat) {
        Take::Empty(same) => same,
        Take::Taken(duty) => {
            duty.forfeit().retire();
            panic!(rt; "an entry")
        }
        Take::Busy(same) => {
            same.retire();
            panic!(rt; "busy")
        }
    }
}

fn opened<O: Opening>(rt: &impl Abort, prepared: Prepared) -> (Service<O>, Vec<Seat<O>>)
    requires { prepared ≡ O.origin }
{
    Service::<O>::open(prepared).expect(rt, "memory")
}

fn ended<O: Opening>(rt: &impl Abort, service: Service<O>, seats: Vec<Seat<O>>) -> Final {
    service.conclude(seats).expect(rt, "ended")
}

/// Two entries are taken and forfeited while the lock is held; then the line is empty, and the service ends with two forfeits.
fn takes_under_the_lock<O: Opening, R: Abort + Wait>(rt: &R, prepared: Prepared)
    requires { prepared ≡ O.origin }
{
    let (service, mut seats) = opened::<O>(rt, prepared);
    count_seats(rt, seats.as_slice(), 1);
    let seat = seats.remove(0);
    let mut locked = service.enter(rt);
    make_and_drop(rt, &mut locked);
    make_and_drop(rt, &mut locked);
    collects(rt, &mut locked, 1, 2, 0);
    let seat = forfeit_next(rt, seat, 0);
    let seat = forfeit_next(rt, seat, 1);
    let seat = find_nothing(rt, seat);
    let counts = (seat.taken(), seat.finished(), seat.forfeited());
    same(rt, "the seat's counts", counts, (2, 0, 2));
    same(rt, "outstanding", locked.outstanding(), 2);
    drop(locked);
    seats.push_reserved(seat);
    let end = ended(rt, service, seats);
    let counts = (end.enqueued, end.taken, end.forfeited);
    same(rt, "the end's counts", counts, (2, 2, 2));
}

/// A shutdown with all seats succeeds. A cycle that is still open doesn't count as a pass.
fn ends_with_the_second<O: Opening, R: Abort + Wait>(
    rt: &R,
    service: Service<O>,
    mut seats: Vec<Seat<O>>,
    second: Seat<O>,
) {
    let second = finish_next(rt, &service, second, 0);
    put_back(rt, &mut seats, second);
    let end = ended(rt, service, seats);
    let counts = (end.enqueued, end.taken, end.finished, end.forfeited);
    same(rt, "the end's counts", counts, (1, 1, 1, 0));
    let rest = (end.left.len(), end.passes, end.reclaimed);
    same(rt, "left, passes and reclaimed", rest, (0, 1, 0));
}

/// A shutdown without all seats fails and gives everything back.
fn ends_with_all_seats<O: Opening, R: Abort + Wait>(rt: &R, prepared: Prepared)
    requires { prepared ≡ O.origin }
{
    let (service, mut seats) = opened::<O>(rt, prepared);
    let mut locked = service.enter(rt);
    make_and_drop(rt, &mut locked);
    accepted(rt, "collect", locked.collect());
    make_and_drop(rt, &mut locked);
    accepted(rt, "begin", locked.begin());
    drop(locked);
    count_seats(rt, seats.as_slice(), 2);
    let second = seats.remove(1);
    match service.shutdown(seats) {
        Ok(_) => {
            second.retire();
            panic!(rt; "a seat is missing")
        }
        Err((error, service, seats)) => {
            same(rt, "the refusal", error.refusal(), Refusal::SeatsMissing);
            ends_with_the_second(rt, service, seats, second);
        }
    }
}

#[test]
fn takes_need_no_lock(rt: HostRuntime) {
    let prepared = prepared(&rt, rt.alloc(), 1);
    takes_under_the_lock::<Brand, HostRuntime>(&rt, prepared);
}

#[test]
fn a_missing_seat_is_refused(rt: HostRuntime) {
    let prepared = prepared(&rt, rt.alloc(), 2);
    ends_with_all_seats::<Brand, HostRuntime>(&rt, prepared);
}
