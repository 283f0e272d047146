//! When a worker holds the lock: not while a procedure works, and for at most 32 entries in a row.

ghost use Rattle.std.specs.Prelude.{◌≡◌};

use super::threads::Taker;
use super::wanted::{count_seats, put_back, same};
use super::workers::Arrivals;
use super::{ended, opened, prepared, prepared_with, queue_entries};
use fz_model::Entry;
use fz_service::{OpenGate, Opening, Prepared, Proc, Service, procedures, retire_all};
use fz_world::World;
use std::alloc::{AllocError, Global};
use std::marker::Brand;
use std::process::Abort;
use std::sync::atomic::{AtomicBool, AtomicU64, Ordering};
use std::sync::{Arc, Wait};
use std::test::*;
use std::thread;
use std::thread::Threads;

/// A thread that takes the lock on request.
#[derive(Drop)]
struct Visits {
    asked: Arrivals,
    entered: Arrivals,
}

impl Visits {
    fn none() -> Visits {
        Visits {
            asked: Arrivals::none(),
            entered: Arrivals::none(),
        }
    }

    /// Takes and releases the lock this many times, each time on request.
    fn visit<O: Opening, R: Wait>(&self, rt: &R, service: &Service<O>, times: u64) {
        for number in 0..times {
            self.asked.wait(number.saturating_add(1));
            drop(service.enter(rt));
            self.entered.come(0);
        }
    }

    fn missed(&self) -> bool {
        self.asked.missed() || self.entered.missed()
    }
}

/// How many entries have work; the same number have none.
const TIMES: u64 = 20;

/// A procedure that works until another thread has had the lock.
#[derive(Drop)]
struct Works {
    visits: Arc<Visits, Global>,
    times: u64,
}

impl Proc for Works {
    fn work(&mut self, _entry: &Entry) {
        self.times = self.times.saturating_add(1);
        self.visits.asked.come(0);
        self.visits.entered.wait(self.times);
    }
}

/// A procedure without work, which counts its calls.
#[derive(Drop)]
struct Runs {
    works: Arc<AtomicU64, Global>,
    runs: Arc<AtomicU64, Global>,
}

impl Proc for Runs {
    fn has_work(&self) -> bool {
        false
    }

    fn work(&mut self, _entry: &Entry) {
        self.works.fetch_add(1, Ordering::SeqCst);
    }

    #[tactic(auto, using(fz_service::proofs::Running::runs_calls))]
    fn run(&mut self, _entry: &Entry, _world: &mut World) {
        self.runs.fetch_add(1, Ordering::SeqCst);
    }
}

/// One worker serves entries alternately with and without work.
fn serves_in_turn<O: Opening + Send + Sync, R: Abort + Wait + Threads + Sync>(
    rt: &R,
    prepared: Prepared,
    procs: &mut [Vec<Box<dyn Proc + Send>>],
    visits: &Visits,
)
    requires { prepared ≡ O.origin }
{
    let (service, seats) = opened::<O>(rt, prepared);
    let mut numbers = [0; 40];
    for (place, number) in numbers.iter_mut().enumerate() {
        *number = place as u64 % 2;
    }
    let (seats, ()) = service.run_beside(seats, procs, &OpenGate, rt, || {
        queue_entries(rt, &mut service.enter(rt), &numbers);
        visits.visit(rt, &service, TIMES);
    });
    let end = ended(rt, service, seats);
    same(rt, "finished", end.finished, 2 * TIMES);
}

#[test]
fn the_lock_is_free_while_a_procedure_works(rt: HostRuntime) -> Result<(), Fail> {
    let visits = Arc::new(rt.alloc(), Visits::none())?;
    let works = Arc::new(rt.alloc(), AtomicU64::new(0))?;
    let runs = Arc::new(rt.alloc(), AtomicU64::new(0))?;
    let mut procs = procedures!(rt.alloc(); 1u64;
        Runs { works: Arc::try_clone(&works)?, runs: Arc::try_clone(&runs)? },
        Works { visits: Arc::try_clone(&visits)?, times: 0 }
    );
    let prepared = prepared(&rt, rt.alloc(), 1);
    serves_in_turn::<Brand, HostRuntime>(&rt, prepared, procs.as_mut_slice(), &visits);
    same(&rt, "waited in vain", visits.missed(), false);
    let calls = (works.load(Ordering::SeqCst), runs.load(Ordering::SeqCst));
    same(&rt, "calls without work", calls, (0, TIMES));
    Ok(())
}

/// The largest number of entries that one worker serves under one hold of the lock.
const ENTRIES_OF_A_HOLD: u64 = 32;

/// A procedure without work. Before each entry the worker asks whether it has work: at the second entry this calls for the other thread, and after as many
/// entries as one hold may serve it waits until that thread has had the lock.
#[derive(Drop)]
struct Waits {
    visits: Arc<Visits, Global>,
    entries: AtomicU64,
}

impl Proc for Waits {
    fn has_work(&self) -> bool {
        match self.entries.fetch_add(1, Ordering::SeqCst) {
            1 => self.visits.asked.come(0),
            ENTRIES_OF_A_HOLD => self.visits.entered.wait(1),
            _ => (),
        }
        false
    }
}

impl<O: Opening> Taker<O> {
    /// Serves up to 2,000 entries of this procedure.
    fn invoke<R: Abort + Wait>(
        self,
        rt: &R,
        alloc: Global,
        service: &Service<O>,
        waits: Waits,
    ) -> Taker<O> {
        let mut procs: Vec<Box<dyn Proc + Send>> = Vec::new(alloc);
        let waits = Box::new(alloc, waits).expect(rt, "memory");
        assert!(rt; procs.push(waits).is_ok());
        let procs = procs.as_mut_slice();
        let (seat, _) = service.invoke_finalizers(self.seat(), procs, 2_000, &OpenGate, rt);
        Taker { seat }
    }
}

/// One thread serves 1,000 entries, while another asks for the lock once.
fn serves_a_thousand<O: Opening + Send + Sync, R: Abort + Wait + Threads + Sync>(
    rt: &R,
    alloc: Global,
    prepared: Prepared,
    waits: Waits,
    visits: &Visits,
)
    requires { prepared ≡ O.origin }
{
    let (service, mut seats) = opened::<O>(rt, prepared);
    queue_entries(rt, &mut service.enter(rt), &[0; 1_000]);
    count_seats(rt, seats.as_slice(), 1);
    let taker = Taker {
        seat: seats.remove(0),
    };
    let (taker, ()) = thread::join(
        rt,
        || taker.invoke(rt, alloc, &service, waits),
        || visits.visit(rt, &service, 1),
    );
    seats.push_reserved(taker.seat());
    let end = ended(rt, service, seats);
    same(rt, "finished", end.finished, 1_000);
}

impl Waits {
    fn new(visits: &Arc<Visits, Global>) -> Result<Waits, AllocError> {
        Ok(Waits {
            visits: Arc::try_clone(visits)?,
            entries: AtomicU64::new(0),
        })
    }
}

#[test]
fn another_thread_has_the_lock_after_32_entries(rt: HostRuntime) -> Result<(), Fail> {
    let visits = Arc::new(rt.alloc(), Visits::none())?;
    let waits = Waits::new(&visits)?;
    let prepared = prepared_with(&rt, rt.alloc(), 32, 1);
    serves_a_thousand::<Brand, HostRuntime>(&rt, rt.alloc(), prepared, waits, &visits);
    same(&rt, "waited in vain", visits.missed(), false);
    Ok(())
}

/// A worker serves 1,000 entries beside the program, which asks for the lock once.
fn serves_a_thousand_beside<O: Opening + Send + Sync, R: Abort + Wait + Threads + Sync>(
    rt: &R,
    prepared: Prepared,
    procs: &mut [Vec<Box<dyn Proc + Send>>],
    visits: &Visits,
)
    requires { prepared ≡ O.origin }
{
    let (service, seats) = opened::<O>(rt, prepared);
    let (seats, ()) = service.run_beside(seats, procs, &OpenGate, rt, || {
        queue_entries(rt, &mut service.enter(rt), &[0; 1_000]);
        visits.visit(rt, &service, 1);
    });
    let end = ended(rt, service, seats);
    same(rt, "finished", end.finished, 1_000);
}

#[test]
fn the_program_has_the_lock_after_32_entries(rt: HostRuntime) -> Result<(), Fail> {
    let visits = Arc::new(rt.alloc(), Visits::none())?;
    let mut procs = procedures!(rt.alloc(); 1u64; Waits::new(&visits)?);
    let prepared = prepared_with(&rt, rt.alloc(), 32, 1);
    serves_a_thousand_beside::<Brand, HostRuntime>(&rt, prepared, procs.as_mut_slice(), &visits);
    same(&rt, "waited in vain", visits.missed(), false);
    Ok(())
}

impl<O: Opening + Send + Sync> Taker<O> {
    /// Serves what is left, as a worker that was told to stop.
    fn serve_the_rest<R: Abort + Wait + Threads + Sync>(
        self,
        rt: &R,
        alloc: Global,
        service: &Service<O>,
        waits: Waits,
    ) -> Taker<O> {
        let mut list: Vec<Box<dyn Proc + Send>> = Vec::new(alloc);
        let waits = Box::new(alloc, waits).expect(rt, "memory");
        assert!(rt; list.push(waits).is_ok());
        let mut procs = Vec::new(alloc);
        assert!(rt; procs.push(list).is_ok());
        let mut seats = Vec::new(alloc);
        assert!(rt; seats.reserve(1).is_ok());
        put_back(rt, &mut seats, self.seat());
        let stop = AtomicBool::new(true);
        let mut seats = service.run_workers(seats, procs.as_mut_slice(), &OpenGate, &stop, rt);
        count_seats(rt, seats.as_slice(), 1);
        let seat = seats.remove(0);
        retire_all(seats);
        Taker { seat }
    }
}

/// A worker that was told to stop serves 1,000 entries, while another thread asks for the lock once.
fn serves_the_last_thousand<O: Opening + Send + Sync, R: Abort + Wait + Threads + Sync>(
    rt: &R,
    alloc: Global,
    prepared: Prepared,
    waits: Waits,
    visits: &Visits,
)
    requires { prepared ≡ O.origin }
{
    let (service, mut seats) = opened::<O>(rt, prepared);
    queue_entries(rt, &mut service.enter(rt), &[0; 1_000]);
    count_seats(rt, seats.as_slice(), 1);
    let taker = Taker {
        seat: seats.remove(0),
    };
    let (taker, ()) = thread::join(
        rt,
        || taker.serve_the_rest(rt, alloc, &service, waits),
        || visits.visit(rt, &service, 1),
    );
    seats.push_reserved(taker.seat());
    let end = ended(rt, service, seats);
    same(rt, "finished", end.finished, 1_000);
}

#[test]
fn another_thread_has_the_lock_after_the_last_32_entries(rt: HostRuntime) -> Result<(), Fail> {
    let visits = Arc::new(rt.alloc(), Visits::none())?;
    let waits = Waits::new(&visits)?;
    let prepared = prepared_with(&rt, rt.alloc(), 32, 1);
    serves_the_last_thousand::<Brand, HostRuntime>(&rt, rt.alloc(), prepared, waits, &visits);
    same(&rt, "waited in vain", visits.missed(), false);
    Ok(())
}
