//! Each number of workers, all calls for an entry in one log, and thousands of entries queued at once.

ghost use Rattle.std.specs.Prelude.{◌≡◌};

use super::eight::Rounds;
use super::wanted::{accepted, collects, count_seats, put_back, same};
use super::workers::{Calls, Recorded, call};
use super::{
    ended, finish_next, forfeit_next, make_and_drop, make_and_drop_with, opened, prepared,
    prepared_with, queue_entries,
};
use fz_model::{Entry, MAX_WORKERS, Progress};
use fz_service::{Gate, Locked, OpenGate, Opening, Prepared, Proc};
use fz_world::World;
use std::alloc::Global;
use std::marker::Brand;
use std::process::Abort;
use std::sync::atomic::AtomicBool;
use std::sync::{Arc, Wait};
use std::test::*;
use std::thread::{Parker, Threads};
use std::time::Duration;

/// Serves one entry for each worker, with one thread per seat, after the workers were told to stop. No entry proceeds before each worker has one, and all
/// have to be finished.
fn serves_one_each<O: Opening + Send + Sync, R: Abort + Wait + Threads + Sync>(
    rt: &R,
    prepared: Prepared,
    workers: u64,
)
    requires { prepared ≡ O.origin }
{
    let (service, seats) = opened::<O>(rt, prepared);
    let numbers = [0; 8];
    let numbers = &numbers[..(workers as usize).min(8)];
    queue_entries(rt, &mut service.enter(rt), numbers);
    let stop = AtomicBool::new(true);
    let gate = Rounds::of(workers);
    let seats = service.run_workers(seats, &mut [], &gate, &stop, rt);
    let end = ended(rt, service, seats);
    let counts = (workers, end.taken, end.finished);
    same(
        rt,
        "workers, taken and finished",
        counts,
        (workers, workers, workers),
    );
    same(rt, "waited in vain", gate.missed(), false);
}

#[test]
fn each_number_of_workers_serves(rt: HostRuntime) {
    for workers in 1..=MAX_WORKERS {
        let prepared = prepared(&rt, rt.alloc(), workers);
        serves_one_each::<Brand, HostRuntime>(&rt, prepared, workers);
    }
}

/// A hook that records the entries for which it is called, as calls of part 0.
#[derive(Drop)]
struct Logged(Arc<Calls, Global>);

impl Gate for Logged {
    fn entered(&self, seq: u64) {
        self.0.add(call(0, seq, 0));
    }
}

/// Serves two entries of the first procedure.
fn serves_two<O: Opening, R: Abort + Wait>(
    rt: &R,
    prepared: Prepared,
    procs: &mut [Box<dyn Proc + Send>],
    gate: &Logged,
)
    requires { prepared ≡ O.origin }
{
    let (service, mut seats) = opened::<O>(rt, prepared);
    queue_entries(rt, &mut service.enter(rt), &[0, 0]);
    count_seats(rt, seats.as_slice(), 1);
    let (seat, served) = service.invoke_finalizers(seats.remove(0), procs, 2, gate, rt);
    same(rt, "finished", served, 2);
    seats.push_reserved(seat);
    let _ = ended(rt, service, seats);
}

/// For each entry the hook is called first, then `work`, and then `run`.
#[test]
fn the_gate_is_told_before_work_and_work_before_run(rt: HostRuntime) -> Result<(), Fail> {
    let calls = Arc::new(rt.alloc(), Calls::with_room(rt.alloc(), 6)?)?;
    let mut procs: Vec<Box<dyn Proc + Send>> = Vec::new(rt.alloc());
    let recorded = Recorded {
        number: 0,
        calls: Arc::try_clone(&calls)?,
    };
    procs.push(Box::new(rt.alloc(), recorded)?)?;
    let gate = Logged(Arc::try_clone(&calls)?);
    let prepared = prepared(&rt, rt.alloc(), 1);
    serves_two::<Brand, HostRuntime>(&rt, prepared, procs.as_mut_slice(), &gate);
    same(&rt, "calls", calls.count(), 6);
    for place in 0..6u64 {
        let wanted = call(0, place / 3, place % 3);
        same(&rt, "a call", calls.at(place as usize), wanted);
    }
    Ok(())
}

/// Allocates `count` objects, registers each, and drops them.
fn make_and_drop_all<O: Opening>(rt: &impl Abort, locked: &mut Locked<O>, count: u64) {
    for _object in 0..count {
        make_and_drop(rt, locked);
    }
}

/// A cycle in steps whose pass queues `picked` entries, after which every entry is sent.
fn pauses<O: Opening>(rt: &impl Abort, locked: &mut Locked<O>, picked: u64) {
    accepted(rt, "begin", locked.begin());
    same(rt, "mark", locked.mark(u64::MAX), Ok(Progress::Done));
    let answer = locked.pause();
    let queued = match answer {
        Ok(passed) => passed.picked,
        Err(_) => 0,
    };
    same(rt, "picked by a pause", queued, picked);
    same(rt, "not sent after a pause", locked.outbox().len(), 0);
}

/// Queues 64 entries, then 2,000 by a collection, and 2,100 by a pause. All are sent at once, and one worker finishes them.
fn sends_thousands<O: Opening, R: Abort + Wait>(rt: &R, prepared: Prepared)
    requires { prepared ≡ O.origin }
{
    let (service, mut seats) = opened::<O>(rt, prepared);
    {
        let mut locked = service.enter(rt);
        make_and_drop_all(rt, &mut locked, 64);
        collects(rt, &mut locked, 1, 64, 0);
        make_and_drop_all(rt, &mut locked, 2_000);
        collects(rt, &mut locked, 2, 2_000, 0);
        make_and_drop_all(rt, &mut locked, 2_100);
        pauses(rt, &mut locked, 2_100);
    }
    count_seats(rt, seats.as_slice(), 1);
    let (seat, served) = service.invoke_finalizers(seats.remove(0), &mut [], 5_000, &OpenGate, rt);
    same(rt, "finished", served, 4_164);
    seats.push_reserved(seat);
    let _ = ended(rt, service, seats);
}

#[test]
fn thousands_are_sent_at_once(rt: HostRuntime) {
    let prepared = prepared_with(&rt, rt.alloc(), 80, 1);
    sends_thousands::<Brand, HostRuntime>(&rt, prepared);
}

/// 70,000 entries, a thousand at a time, are sent at once and finished by one seat. Then the service ends.
fn serves_for_long<O: Opening, R: Abort + Wait>(rt: &R, prepared: Prepared)
    requires { prepared ≡ O.origin }
{
    let (service, mut seats) = opened::<O>(rt, prepared);
    count_seats(rt, seats.as_slice(), 1);
    let mut seat = seats.remove(0);
    for pass in 1..=70u64 {
        {
            let mut locked = service.enter(rt);
            make_and_drop_all(rt, &mut locked, 1_000);
            let reclaimed = if pass == 1 { 0 } else { 1_000 };
            collects(rt, &mut locked, pass, 1_000, reclaimed);
        }
        let (same_seat, served) = service.invoke_finalizers(seat, &mut [], 5_000, &OpenGate, rt);
        seat = same_seat;
        same(rt, "finished", served, 1_000);
    }
    seats.push_reserved(seat);
    let end = ended(rt, service, seats);
    let counts = (end.enqueued, end.taken, end.finished, end.forfeited);
    same(rt, "the end's counts", counts, (70_000, 70_000, 70_000, 0));
    let rest = (end.left.len(), end.passes, end.reclaimed);
    same(rt, "left, passes and reclaimed", rest, (0, 70, 69_000));
}

#[test]
fn seventy_thousand_go_through_a_service(rt: HostRuntime) {
    let prepared = prepared_with(&rt, rt.alloc(), 32, 1);
    serves_for_long::<Brand, HostRuntime>(&rt, prepared);
}

/// Each of eight seats takes an entry and forfeits it, and then takes another one and finishes it.
fn takes_again<O: Opening, R: Abort + Wait>(rt: &R, prepared: Prepared)
    requires { prepared ≡ O.origin }
{
    let (service, mut seats) = opened::<O>(rt, prepared);
    queue_entries(rt, &mut service.enter(rt), &[0; 16]);
    for seq in 0..8u64 {
        count_seats(rt, seats.as_slice(), 8);
        let seat = forfeit_next(rt, seats.remove(0), seq);
        put_back(rt, &mut seats, seat);
    }
    for seq in 8..16u64 {
        count_seats(rt, seats.as_slice(), 8);
        let seat = finish_next(rt, &service, seats.remove(0), seq);
        let counts = (seat.taken(), seat.finished(), seat.forfeited());
        same(rt, "the seat's counts", counts, (2, 1, 1));
        put_back(rt, &mut seats, seat);
    }
    same(rt, "outstanding", service.enter(rt).outstanding(), 8);
    let end = ended(rt, service, seats);
    let counts = (end.enqueued, end.taken, end.finished, end.forfeited);
    same(rt, "the end's counts", counts, (16, 16, 8, 8));
}

#[test]
fn each_of_eight_seats_takes_again(rt: HostRuntime) {
    let prepared = prepared(&rt, rt.alloc(), 8);
    takes_again::<Brand, HostRuntime>(&rt, prepared);
}

/// A service ends with 1,001 entries that nobody took. They are returned in order.
fn leaves_many<O: Opening, R: Abort + Wait>(rt: &R, prepared: Prepared)
    requires { prepared ≡ O.origin }
{
    let (service, seats) = opened::<O>(rt, prepared);
    {
        let mut locked = service.enter(rt);
        make_and_drop_all(rt, &mut locked, 1_001);
        collects(rt, &mut locked, 1, 1_001, 0);
    }
    let end = ended(rt, service, seats);
    same(
        rt,
        "taken and left",
        (end.taken, end.left.len()),
        (0, 1_001),
    );
    for (place, entry) in end.left.iter().enumerate() {
        same(rt, "an entry", entry.seq, place as u64);
    }
}

#[test]
fn a_thousand_and_one_are_left(rt: HostRuntime) {
    let prepared = prepared_with(&rt, rt.alloc(), 32, 2);
    leaves_many::<Brand, HostRuntime>(&rt, prepared);
}

/// A procedure that collects, and may have work to do before.
#[derive(Drop)]
struct Collects {
    has_work: bool,
}

impl Proc for Collects {
    fn has_work(&self) -> bool {
        self.has_work
    }

    #[tactic(auto, using(fz_service::proofs::Running::runs_calls))]
    fn run(&mut self, _entry: &Entry, world: &mut World) {
        let _ = world.collect();
    }
}

/// The first entry's procedure collects, and queues 2,000 entries, which the same seat takes.
fn takes_what_was_collected<O: Opening, R: Abort + Wait>(
    rt: &R,
    prepared: Prepared,
    procs: &mut [Box<dyn Proc + Send>],
)
    requires { prepared ≡ O.origin }
{
    let (service, mut seats) = opened::<O>(rt, prepared);
    {
        let mut locked = service.enter(rt);
        make_and_drop_with(rt, &mut locked, 0);
        collects(rt, &mut locked, 1, 1, 0);
        make_and_drop_all(rt, &mut locked, 2_000);
    }
    count_seats(rt, seats.as_slice(), 1);
    let (seat, served) = service.invoke_finalizers(seats.remove(0), procs, 5_000, &OpenGate, rt);
    same(rt, "finished", served, 2_001);
    seats.push_reserved(seat);
    let _ = ended(rt, service, seats);
}

/// First with all entries under one hold of the lock, then with a hold of its own.
#[test]
fn a_seat_takes_what_its_procedure_collected(rt: HostRuntime) -> Result<(), Fail> {
    for has_work in [false, true] {
        let mut procs: Vec<Box<dyn Proc + Send>> = Vec::new(rt.alloc());
        procs.push(Box::new(rt.alloc(), Collects { has_work })?)?;
        let prepared = prepared_with(&rt, rt.alloc(), 80, 1);
        takes_what_was_collected::<Brand, HostRuntime>(&rt, prepared, procs.as_mut_slice());
    }
    Ok(())
}

/// Two workers are idle for more than two seconds. Then an entry is queued, which one of them finishes.
fn serves_after_idling<O: Opening + Send + Sync, R: Abort + Wait + Threads + Sync>(
    rt: &R,
    prepared: Prepared,
)
    requires { prepared ≡ O.origin }
{
    let (service, seats) = opened::<O>(rt, prepared);
    let (seats, ()) = service.run_beside(seats, &mut [], &OpenGate, rt, || {
        Parker::new().park_timeout(rt, Duration::from_millis(2_100));
        queue_entries(rt, &mut service.enter(rt), &[1]);
    });
    let end = ended(rt, service, seats);
    same(rt, "taken and finished", (end.taken, end.finished), (1, 1));
}

#[test]
fn workers_serve_after_idling(rt: HostRuntime) {
    let prepared = prepared(&rt, rt.alloc(), 2);
    serves_after_idling::<Brand, HostRuntime>(&rt, prepared);
}
