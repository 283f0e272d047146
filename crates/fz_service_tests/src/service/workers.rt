//! Workers: which procedures they call, in which order, and that two of them run at the same time.

ghost use Rattle.std.specs.Prelude.{◌≡◌, ◌<◌, ◌^◌, length};

use super::wanted::{count_seats, same};
use super::{ended, opened, prepared, queue_entries};
use fz_model::Entry;
use fz_service::{Gate, OpenGate, Opening, Prepared, Proc, Seat, procedures};
use fz_world::World;
use std::alloc::{AllocError, Global};
use std::marker::Brand;
use std::process::Abort;
use std::sync::atomic::{AtomicBool, AtomicU64, Ordering};
use std::sync::{Arc, Wait};
use std::test::*;
use std::thread;
use std::thread::Threads;

/// How often a worker yields at most while it waits for another.
pub(super) const TURNS: u32 = 1_000_000;

/// A barrier for workers.
#[derive(Drop)]
pub(super) struct Arrivals {
    came: AtomicU64,
    missed: AtomicBool,
}

impl Arrivals {
    pub(super) fn none() -> Arrivals {
        Arrivals {
            came: AtomicU64::new(0),
            missed: AtomicBool::new(false),
        }
    }

    /// Arrives, and waits until this many workers have arrived.
    pub(super) fn come(&self, wanted: u64) {
        self.came.fetch_add(1, Ordering::SeqCst);
        self.wait(wanted);
    }

    /// Waits until this many workers have arrived.
    pub(super) fn wait(&self, wanted: u64) {
        for _ in 0..TURNS {
            if self.came.load(Ordering::SeqCst) >= wanted {
                return;
            }
            thread::yield_now();
        }
        self.missed.store(true, Ordering::SeqCst);
    }

    /// Whether a wait timed out.
    pub(super) fn missed(&self) -> bool {
        self.missed.load(Ordering::SeqCst)
    }
}

/// The calls of procedures, in order: for each the procedure, the entry, and whether it was `run`.
#[derive(Drop)]
pub(super) struct Calls {
    count: AtomicU64,
    calls: Vec<AtomicU64>,
}

impl Calls {
    pub(super) fn with_room(alloc: Global, room: usize) -> Result<Calls, AllocError> {
        let mut calls = Vec::new(alloc);
        for _ in 0..room {
            calls.push(AtomicU64::new(0))?;
        }
        let count = AtomicU64::new(0);
        Ok(Calls { count, calls })
    }

    pub(super) fn add(&self, call: u64) {
        let place = self.count.fetch_add(1, Ordering::SeqCst);
        if place < self.calls.len() as u64 {
            self.calls[place as usize].store(call, Ordering::SeqCst);
        }
    }

    pub(super) fn at(&self, place: usize) -> u64 {
        match self.calls.get(place) {
            Some(call) => call.load(Ordering::SeqCst),
            None => 0,
        }
    }

    pub(super) fn count(&self) -> u64 {
        self.count.load(Ordering::SeqCst)
    }
}

/// A call as one number of three digits, the last of which is 1 for `work` and 2 for `run`.
pub(super) fn call(proc: u64, seq: u64, part: u64) -> u64 {
    proc.wrapping_mul(100)
        .wrapping_add(seq.wrapping_mul(10))
        .wrapping_add(part)
}

/// A procedure that records its calls.
#[derive(Drop)]
pub(super) struct Recorded {
    pub(super) number: u64,
    pub(super) calls: Arc<Calls, Global>,
}

impl Proc for Recorded {
    fn work(&mut self, entry: &Entry) {
        self.calls.add(call(self.number, entry.seq, 1));
    }

    #[tactic(auto, using(fz_service::proofs::Running::runs_calls))]
    fn run(&mut self, entry: &Entry, _world: &mut World) {
        self.calls.add(call(self.number, entry.seq, 2));
    }
}

/// Where the workers of two entries meet: the first entry's worker waits until the last entry's worker has arrived.
#[derive(Drop)]
struct Meeting {
    first: u64,
    last: u64,
    last_came: AtomicBool,
    met: AtomicBool,
}

impl Meeting {
    fn new(first: u64, last: u64) -> Meeting {
        Meeting {
            first,
            last,
            last_came: AtomicBool::new(false),
            met: AtomicBool::new(false),
        }
    }

    fn come(&self, seq: u64) {
        if seq == self.last {
            self.last_came.store(true, Ordering::SeqCst);
        } else if seq == self.first {
            self.wait();
        }
    }

    fn wait(&self) {
        for _ in 0..TURNS {
            if self.last_came.load(Ordering::SeqCst) {
                self.met.store(true, Ordering::SeqCst);
                return;
            }
            thread::yield_now();
        }
    }

    fn met(&self) -> bool {
        self.met.load(Ordering::SeqCst)
    }
}

impl Gate for Meeting {
    fn entered(&self, seq: u64) {
        self.come(seq);
    }
}

/// A procedure whose work is to arrive at a meeting.
#[derive(Drop)]
struct Meets(Arc<Meeting, Global>);

impl Proc for Meets {
    fn work(&mut self, entry: &Entry) {
        self.0.come(entry.seq);
    }
}

/// How many entries each of two seats finished.
fn finished_by_two<O: Opening>(rt: &impl Abort, seats: &[Seat<O>]) -> [u64; 2] {
    count_seats(rt, seats, 2);
    [seats[0].finished(), seats[1].finished()]
}

/// Serves entries of these procedures with one thread per seat, after they were all sent and the workers were told to stop. All have to be finished. Returns
/// how many each seat finished.
fn serve_all<O: Opening + Send + Sync, G: Gate + Sync, R: Abort + Wait + Threads + Sync>(
    rt: &R,
    prepared: Prepared,
    numbers: &[u64],
    procs: &mut [Vec<Box<dyn Proc + Send>>],
    gate: &G,
) -> [u64; 2]
    requires { prepared ≡ O.origin }
{
    let (service, seats) = opened::<O>(rt, prepared);
    queue_entries(rt, &mut service.enter(rt), numbers);
    let stop = AtomicBool::new(true);
    let seats = service.run_workers(seats, procs, gate, &stop, rt);
    let finished = finished_by_two(rt, seats.as_slice());
    let end = ended(rt, service, seats);
    let count = numbers.len() as u64;
    let counts = (end.enqueued, end.taken, end.finished);
    same(rt, "the end's counts", counts, (count, count, count));
    finished
}

#[test]
fn one_worker_enters_while_another_is_at_the_gate(rt: HostRuntime) {
    let gate = Meeting::new(0, 1);
    let prepared = prepared(&rt, rt.alloc(), 2);
    let finished = serve_all::<Brand, Meeting, HostRuntime>(&rt, prepared, &[1, 1], &mut [], &gate);
    same(&rt, "the workers met", gate.met(), true);
    same(&rt, "finished by each seat", finished, [1, 1]);
}

#[test]
fn one_worker_enters_while_another_works(rt: HostRuntime) -> Result<(), Fail> {
    let meeting = Arc::new(rt.alloc(), Meeting::new(0, 1))?;
    let mut procs = procedures!(rt.alloc(); 2u64; Meets(Arc::try_clone(&meeting)?));
    let prepared = prepared(&rt, rt.alloc(), 2);
    let finished = serve_all::<Brand, OpenGate, HostRuntime>(
        &rt,
        prepared,
        &[0, 0],
        procs.as_mut_slice(),
        &OpenGate,
    );
    same(&rt, "the workers met", meeting.met(), true);
    same(&rt, "finished by each seat", finished, [1, 1]);
    Ok(())
}

/// One of two workers finished one entry of eight, and the other the rest, with two calls for each entry.
fn one_serves_one(rt: &impl Abort, finished: [u64; 2], calls: [u64; 2]) {
    let wanted = if finished[0] == 1 {
        ([1, 7], [2, 14])
    } else {
        ([7, 1], [14, 2])
    };
    same(rt, "finished and calls", (finished, calls), wanted);
}

/// Lists of one procedure each.
fn lists_of_one(rt: &impl Abort, procs: &[Vec<Box<dyn Proc + Send>>]) {
    assert!(rt; procs.iter().all(|list| list.len() == 1));
}

/// The worker of entry 0 waits until the other has begun all the rest, so one of them serves one entry. Each has the list at its own index, and gives it back
/// there.
#[test]
fn each_worker_has_its_own_list(rt: HostRuntime) -> Result<(), Fail> {
    let gate = Meeting::new(0, 7);
    let one = Arc::new(rt.alloc(), Calls::with_room(rt.alloc(), 0)?)?;
    let other = Arc::new(rt.alloc(), Calls::with_room(rt.alloc(), 0)?)?;
    let mut procs = Vec::new(rt.alloc());
    for calls in [&one, &other] {
        let mut list: Vec<Box<dyn Proc + Send>> = Vec::new(rt.alloc());
        let calls = Arc::try_clone(calls)?;
        list.push(Box::new(rt.alloc(), Recorded { number: 0, calls })?)?;
        procs.push(list)?;
    }
    let prepared = prepared(&rt, rt.alloc(), 2);
    let numbers = [0; 8];
    let finished = serve_all::<Brand, Meeting, HostRuntime>(
        &rt,
        prepared,
        &numbers,
        procs.as_mut_slice(),
        &gate,
    );
    same(&rt, "the workers met", gate.met(), true);
    one_serves_one(&rt, finished, [one.count(), other.count()]);
    lists_of_one(&rt, procs.as_slice());
    Ok(())
}

/// Five entries; one worker calls two procedures for them. The third entry's number is outside the list.
fn invokes_in_order<O: Opening, R: Abort + Wait>(
    rt: &R,
    prepared: Prepared,
    procs: &mut [Box<dyn Proc + Send>],
)
    requires { prepared ≡ O.origin }
{
    let (service, mut seats) = opened::<O>(rt, prepared);
    queue_entries(rt, &mut service.enter(rt), &[0, 1, 2, 1, 0]);
    count_seats(rt, seats.as_slice(), 1);
    let (seat, none) = service.invoke_finalizers(seats.remove(0), procs, 0, &OpenGate, rt);
    same(rt, "without a take", (none, seat.taken()), (0, 0));
    let (seat, two) = service.invoke_finalizers(seat, procs, 2, &OpenGate, rt);
    let (seat, rest) = service.invoke_finalizers(seat, procs, 10, &OpenGate, rt);
    same(rt, "two takes, and the rest", (two, rest), (2, 3));
    seats.push_reserved(seat);
    let end = ended(rt, service, seats);
    let counts = (end.enqueued, end.finished, end.left.len());
    same(rt, "queued, finished and left", counts, (5, 5, 0));
}

/// For each of these procedures and entries, `work` was called first and then `run`.
fn calls_each_twice(rt: &impl Abort, calls: &Calls, want: &[(u64, u64)])
    requires { length want.now < 2 ^ 8 }
{
    same(rt, "calls", calls.count(), 2 * want.len() as u64);
    for (place, (proc, seq)) in want.iter().enumerate() {
        let both = (calls.at(2 * place), calls.at(2 * place + 1));
        let wanted = (call(*proc, *seq, 1), call(*proc, *seq, 2));
        same(rt, "the calls of an entry", both, wanted);
    }
}

#[test]
fn procedures_run_in_order(rt: HostRuntime) -> Result<(), Fail> {
    let calls = Arc::new(rt.alloc(), Calls::with_room(rt.alloc(), 16)?)?;
    let mut procs: Vec<Box<dyn Proc + Send>> = Vec::new(rt.alloc());
    for number in 0..2u64 {
        let calls = Arc::try_clone(&calls)?;
        procs.push(Box::new(rt.alloc(), Recorded { number, calls })?)?;
    }
    let prepared = prepared(&rt, rt.alloc(), 1);
    invokes_in_order::<Brand, HostRuntime>(&rt, prepared, procs.as_mut_slice());
    calls_each_twice(&rt, &calls, &[(0, 0), (1, 1), (1, 3), (0, 4)]);
    Ok(())
}
