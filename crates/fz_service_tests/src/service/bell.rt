//! Sleeping workers, and what wakes them. In these tests a sleep doesn't end by itself: a worker whose wake-up is lost sleeps for good, and the test exceeds
//! its time limit, whatever else the machine does. They wait for no time: each counts the workers that are asleep. One test has sleeps that end by themselves.

ghost use Rattle.std.specs.Prelude.{◌≡◌};

use super::wanted::{accepted, same};
use super::workers::{Arrivals, TURNS};
use super::{ended, make_and_drop, opened, prepared};
use fz_model::MAX_WORKERS;
use fz_service::{Gate, Locked, OpenGate, Opening, Prepared, Seat, Service, retire_all};
use std::alloc::Global;
use std::marker::Brand;
use std::process::Abort;
use std::sync::Wait;
use std::sync::atomic::{AtomicBool, AtomicU64, Ordering};
use std::test::*;
use std::thread::{Parker, Threads};
use std::time::Duration;
use std::{mem, thread};

/// The number of times that sleeping workers are woken in a test.
const RINGS: u64 = 200;

/// How often the program checks at most whether all entries were finished.
const LOOKS: u32 = 10_000_000;

/// A hook under which workers sleep until they are woken. It counts those that are asleep.
#[derive(Drop)]
struct Sleepers {
    asleep: AtomicU64,
    /// How many entries proceed only together; all proceed at once if this is 0.
    together: u64,
    arrivals: Arrivals,
}

impl Sleepers {
    fn none(together: u64) -> Sleepers {
        Sleepers {
            asleep: AtomicU64::new(0),
            together,
            arrivals: Arrivals::none(),
        }
    }

    /// Waits until this many workers are asleep. Returns whether that happened.
    fn are_soon(&self, workers: u64) -> bool {
        for _ in 0..TURNS {
            if self.asleep.load(Ordering::SeqCst) == workers {
                return true;
            }
            thread::yield_now();
        }
        false
    }
}

impl Gate for Sleepers {
    fn entered(&self, seq: u64) {
        let round = seq / self.together.max(1);
        self.arrivals
            .come(round.saturating_add(1).saturating_mul(self.together));
    }

    fn lets_all_through(&self) -> bool {
        self.together == 0
    }

    fn park<R: Wait>(&self, rings: &AtomicU64, heard: u32, rt: &R) {
        self.asleep.fetch_add(1, Ordering::SeqCst);
        rings.park(rt, heard);
        self.asleep.fetch_sub(1, Ordering::SeqCst);
    }
}

/// Waits until no entry is held. Returns whether that happened.
fn is_finished_soon<O: Opening, R: Wait>(rt: &R, service: &Service<O>) -> bool {
    for _ in 0..LOOKS {
        if service.enter(rt).outstanding() == 0 {
            return true;
        }
        thread::yield_now();
    }
    false
}

/// Queues and sends this number of entries.
fn queue_more<O: Opening>(rt: &impl Abort, locked: &mut Locked<O>, entries: u64) {
    for _ in 0..entries {
        make_and_drop(rt, locked);
    }
    accepted(rt, "collect", locked.collect());
}

/// Repeatedly queues entries while all workers sleep, and waits until they are finished. At the end all workers sleep.
fn wakes_for_entries<O: Opening + Send + Sync, R: Abort + Wait + Threads + Sync>(
    rt: &R,
    prepared: Prepared,
    workers: u64,
    entries: u64,
    gate: &Sleepers,
)
    requires { prepared ≡ O.origin }
{
    let (service, seats) = opened::<O>(rt, prepared);
    let (seats, ()) = service.run_beside(seats, &mut [], gate, rt, || {
        for _ in 0..RINGS {
            same(rt, "all are asleep", gate.are_soon(workers), true);
            queue_more(rt, &mut service.enter(rt), entries);
            let finished = is_finished_soon(rt, &service);
            same(rt, "the entries are finished", finished, true);
        }
        same(rt, "all are asleep", gate.are_soon(workers), true);
    });
    let end = ended(rt, service, seats);
    same(rt, "none is asleep", gate.are_soon(0), true);
    same(rt, "finished", end.finished, RINGS.saturating_mul(entries));
}

#[test]
fn an_entry_wakes_a_worker(rt: HostRuntime) {
    let prepared = prepared(&rt, rt.alloc(), 4);
    let gate = Sleepers::none(0);
    wakes_for_entries::<Brand, HostRuntime>(&rt, prepared, 4, 1, &gate);
}

/// No entry proceeds before each of the four workers has one, so each of them has to be woken.
#[test]
fn each_entry_wakes_a_worker(rt: HostRuntime) {
    let prepared = prepared(&rt, rt.alloc(), 4);
    let gate = Sleepers::none(4);
    wakes_for_entries::<Brand, HostRuntime>(&rt, prepared, 4, 4, &gate);
    same(&rt, "waited in vain", gate.arrivals.missed(), false);
}

/// Workers are idle until all of them sleep. Then the program ends.
fn wakes_at_the_end<O: Opening + Send + Sync, R: Abort + Wait + Threads + Sync>(
    rt: &R,
    prepared: Prepared,
    workers: u64,
)
    requires { prepared ≡ O.origin }
{
    let gate = Sleepers::none(0);
    let (service, seats) = opened::<O>(rt, prepared);
    let (seats, asleep) = service.run_beside(seats, &mut [], &gate, rt, || gate.are_soon(workers));
    same(rt, "all were asleep", asleep, true);
    let end = ended(rt, service, seats);
    same(rt, "taken", end.taken, 0);
}

#[test]
fn the_end_wakes_all(rt: HostRuntime) {
    for workers in 1..=MAX_WORKERS {
        let prepared = prepared(&rt, rt.alloc(), workers);
        wakes_at_the_end::<Brand, HostRuntime>(&rt, prepared, workers);
    }
}

/// Runs two workers. Stops them by a wake-up, when both of these sleepers are asleep; or after a millisecond, without one.
fn stops_once<O: Opening + Send + Sync, G: Gate + Sync, R: Abort + Wait + Threads + Sync>(
    rt: &R,
    alloc: Global,
    service: &Service<O>,
    seats: Vec<Seat<O>>,
    gate: &G,
    sleepers: Option<&Sleepers>,
) -> Vec<Seat<O>> {
    let stop = AtomicBool::new(false);
    let mut given = seats;
    let slot = &mut given;
    let (back, ()) = thread::join(
        rt,
        || {
            let seats = mem::replace(slot, Vec::new(alloc));
            service.run_workers(seats, &mut [], gate, &stop, rt)
        },
        || {
            match sleepers {
                Some(sleepers) => same(rt, "both are asleep", sleepers.are_soon(2), true),
                None => Parker::new().park_timeout(rt, Duration::from_millis(1)),
            }
            stop.store(true, Ordering::SeqCst);
            if sleepers.is_some() {
                service.wake();
            }
        },
    );
    retire_all(given);
    back
}

/// Repeatedly stops two sleeping workers by a wake-up.
fn stops_each_time<O: Opening + Send + Sync, R: Abort + Wait + Threads + Sync>(
    rt: &R,
    alloc: Global,
    prepared: Prepared,
)
    requires { prepared ≡ O.origin }
{
    let gate = Sleepers::none(0);
    let (service, mut seats) = opened::<O>(rt, prepared);
    for _ in 0..RINGS {
        seats = stops_once(rt, alloc, &service, seats, &gate, Some(&gate));
    }
    let end = ended(rt, service, seats);
    same(rt, "taken", end.taken, 0);
}

#[test]
fn wake_ends_a_sleep(rt: HostRuntime) {
    let prepared = prepared(&rt, rt.alloc(), 2);
    stops_each_time::<Brand, HostRuntime>(&rt, rt.alloc(), prepared);
}

/// Stops two workers without a wake-up, whose sleeps end by themselves.
fn stops_unwoken<O: Opening + Send + Sync, R: Abort + Wait + Threads + Sync>(
    rt: &R,
    alloc: Global,
    prepared: Prepared,
)
    requires { prepared ≡ O.origin }
{
    let (service, mut seats) = opened::<O>(rt, prepared);
    for _ in 0..5 {
        seats = stops_once(rt, alloc, &service, seats, &OpenGate, None);
    }
    let end = ended(rt, service, seats);
    same(rt, "taken", end.taken, 0);
}

#[test]
fn a_sleep_ends_by_itself(rt: HostRuntime) {
    let prepared = prepared(&rt, rt.alloc(), 2);
    stops_unwoken::<Brand, HostRuntime>(&rt, rt.alloc(), prepared);
}
