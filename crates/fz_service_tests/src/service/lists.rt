//! Lists of procedures with different lengths, and a worker without one.

ghost use Rattle.std.specs.Prelude.{◌≡◌};

use super::wanted::{count_seats, same};
use super::workers::{Arrivals, Calls, Recorded};
use super::{ended, opened, prepared, queue_entries};
use fz_model::Entry;
use fz_service::{Gate, Opening, Prepared, Proc, Program, Seat, Service, with_service};
use fz_world::Config;
use std::alloc::{AllocError, Global};
use std::marker::Brand;
use std::process::Abort;
use std::sync::atomic::AtomicBool;
use std::sync::{Arc, Wait};
use std::test::*;
use std::thread::Threads;

/// The procedures of ten entries.
const NUMBERS: [u64; 10] = [0, 0, 1, 1, 2, 0, 1, 1, 2, 2];

/// A hook that makes one of three workers take only entry 0, one take entries 2, 3 and 4, and one take all others.
#[derive(Drop)]
struct Shared(Arrivals);

impl Gate for Shared {
    fn entered(&self, seq: u64) {
        self.0.come(match seq {
            0 | 4 => 10,
            1 => 5,
            _ => 0,
        });
    }
}

/// How many entries of each procedure a worker gets, given how many entries it gets in all.
fn shares(rt: &impl Abort, finished: u64) -> [u64; 3] {
    match finished {
        1 => [1, 0, 0],
        3 => [0, 2, 1],
        6 => [2, 2, 2],
        _ => panic!(rt; "{finished} finished by a seat"),
    }
}

/// How workers are run.
#[derive(Clone, Copy, PartialEq, Eq)]
enum Way {
    /// After all entries are sent, and the workers are told to stop.
    Alone,
    /// Concurrently with the thread that queues the entries.
    Beside,
}

/// How many entries each of three seats finished.
fn finished_by_three<O: Opening>(rt: &impl Abort, seats: &[Seat<O>]) -> [u64; 3] {
    count_seats(rt, seats, 3);
    [
        seats[0].finished(),
        seats[1].finished(),
        seats[2].finished(),
    ]
}

/// Three workers serve all entries. Returns how many each seat finished.
fn serves<O: Opening + Send + Sync, R: Abort + Wait + Threads + Sync>(
    rt: &R,
    prepared: Prepared,
    procs: &mut [Vec<Box<dyn Proc + Send>>],
    way: Way,
) -> [u64; 3]
    requires { prepared ≡ O.origin }
{
    let gate = Shared(Arrivals::none());
    let (service, seats) = opened::<O>(rt, prepared);
    let seats = if way == Way::Alone {
        queue_entries(rt, &mut service.enter(rt), &NUMBERS);
        service.run_workers(seats, procs, &gate, &AtomicBool::new(true), rt)
    } else {
        let (seats, ()) = service.run_beside(seats, procs, &gate, rt, || {
            queue_entries(rt, &mut service.enter(rt), &NUMBERS)
        });
        seats
    };
    same(rt, "a worker waited in vain", gate.0.missed(), false);
    let finished = finished_by_three(rt, seats.as_slice());
    let end = ended(rt, service, seats);
    let counts = (end.enqueued, end.taken, end.finished);
    same(rt, "the end's counts", counts, (10, 10, 10));
    finished
}

/// A list of this many procedures, which record their calls.
fn list_of(
    alloc: Global,
    length: u64,
    calls: &Arc<Calls, Global>,
) -> Result<Vec<Box<dyn Proc + Send>>, AllocError> {
    let mut list: Vec<Box<dyn Proc + Send>> = Vec::new(alloc);
    for number in 0..length {
        let calls = Arc::try_clone(calls)?;
        list.push(Box::new(alloc, Recorded { number, calls })?)?;
    }
    Ok(list)
}

/// Two calls were made for each entry whose procedure is in the list.
fn calls_its_own(rt: &impl Abort, calls: &Calls, length: usize, finished: u64) {
    let mut wanted = shares(rt, finished);
    for (number, count) in wanted.iter_mut().enumerate() {
        *count = if number < length {
            count.saturating_mul(2)
        } else {
            0
        };
    }
    let mut got = [0u64; 3];
    for place in 0..calls.count().min(32) {
        let number = (calls.at(place as usize) / 100).min(2) as usize;
        got[number] = got[number].saturating_add(1);
    }
    same(rt, "calls of each procedure", got, wanted);
}

/// The first list has one procedure, the second three, and the third worker has none.
fn lists_are_of_their_places<R: Abort + Wait + Threads + Sync + Alloc<A = Global>>(
    rt: &R,
    way: Way,
) -> Result<(), AllocError> {
    let first = Arc::new(rt.alloc(), Calls::with_room(rt.alloc(), 32)?)?;
    let second = Arc::new(rt.alloc(), Calls::with_room(rt.alloc(), 32)?)?;
    let mut procs = Vec::new(rt.alloc());
    procs.push(list_of(rt.alloc(), 1, &first)?)?;
    procs.push(list_of(rt.alloc(), 3, &second)?)?;
    let prepared = prepared(rt, rt.alloc(), 3);
    let finished = serves::<Brand, R>(rt, prepared, procs.as_mut_slice(), way);
    calls_its_own(rt, &first, 1, finished[0]);
    calls_its_own(rt, &second, 3, finished[1]);
    let lengths = (procs.len(), procs[0].len(), procs[1].len());
    same(rt, "lists that came back", lengths, (2, 1, 3));
    Ok(())
}

#[test]
fn workers_alone_have_the_lists_of_their_places(rt: HostRuntime) -> Result<(), Fail> {
    lists_are_of_their_places(&rt, Way::Alone)?;
    Ok(())
}

#[test]
fn workers_beside_a_program_have_the_lists_of_their_places(rt: HostRuntime) -> Result<(), Fail> {
    lists_are_of_their_places(&rt, Way::Beside)?;
    Ok(())
}

/// A procedure that records its calls. With the first entry it waits until the work of three entries has begun.
#[derive(Drop)]
struct Waits {
    arrivals: Arc<Arrivals, Global>,
    calls: Arc<Calls, Global>,
}

impl Proc for Waits {
    fn work(&mut self, entry: &Entry) {
        self.calls.add(0);
        self.arrivals.come(if entry.seq == 0 { 3 } else { 0 });
    }
}

/// Queues five entries, alternating between the first procedure and the second.
#[derive(Drop)]
struct Queues;

impl<R: Abort + Wait> Program<R, ()> for Queues {
    fn run<O: Opening>(self, service: &Service<O>, rt: &R) {
        queue_entries(rt, &mut service.enter(rt), &[0, 1, 0, 1, 0]);
    }
}

/// Adds the waiting procedure to a list.
fn push_waits(
    alloc: Global,
    list: &mut Vec<Box<dyn Proc + Send>>,
    arrivals: &Arc<Arrivals, Global>,
    calls: &Arc<Calls, Global>,
) -> Result<(), AllocError> {
    let waits = Waits {
        arrivals: Arc::try_clone(arrivals)?,
        calls: Arc::try_clone(calls)?,
    };
    list.push(Box::new(alloc, waits)?)?;
    Ok(())
}

/// The first list has only the first procedure. One worker has the first entry, and the other the rest.
#[test]
fn a_program_has_lists_of_unequal_lengths(rt: HostRuntime) -> Result<(), Fail> {
    let alloc = rt.alloc();
    let arrivals = Arc::new(alloc, Arrivals::none())?;
    let first = Arc::new(alloc, Calls::with_room(alloc, 8)?)?;
    let second = Arc::new(alloc, Calls::with_room(alloc, 8)?)?;
    let mut procs = Vec::new(alloc);
    let mut list = Vec::new(alloc);
    push_waits(alloc, &mut list, &arrivals, &first)?;
    procs.push(list)?;
    let mut list = Vec::new(alloc);
    push_waits(alloc, &mut list, &arrivals, &second)?;
    let calls = Arc::try_clone(&second)?;
    list.push(Box::new(alloc, Recorded { number: 1, calls })?)?;
    procs.push(list)?;
    let config = Config {
        blocks: 4,
        frames: 1,
    };
    let ((), end) = with_service(alloc, config, 2, procs, &rt, Queues).expect(&rt, "memory");
    same(&rt, "finished", end.finished, 5);
    same(&rt, "waited in vain", arrivals.missed(), false);
    are_called(&rt, first.count(), second.count());
    Ok(())
}

/// The first worker has the first entry, and the second one the rest; or the other way round.
fn are_called(rt: &impl Abort, first: u64, second: u64) {
    let wanted = if first == 1 { (1, 6) } else { (2, 1) };
    same(rt, "calls", (first, second), wanted);
}
