//! Eight workers at the same time, each with a list of six procedures.

ghost use Rattle.std.specs.Prelude.{◌≡◌};

use super::wanted::same;
use super::workers::{Arrivals, Calls};
use super::{ended, opened, prepared, queue_entries};
use fz_model::Entry;
use fz_service::{Gate, Opening, Prepared, Proc, Seat};
use fz_world::World;
use std::alloc::Global;
use std::marker::Brand;
use std::process::Abort;
use std::sync::atomic::AtomicBool;
use std::sync::{Arc, Wait};
use std::test::*;
use std::thread::Threads;

/// The number of workers, and of the entries in a round.
const WORKERS: u64 = 8;

/// The number of rounds. Each round's entries have a procedure of their own.
const ROUNDS: u64 = 6;

/// A hook that lets a round's entries proceed after all of them have arrived, one for each worker. So each worker has one entry of each round.
#[derive(Drop)]
pub(super) struct Rounds {
    workers: u64,
    arrivals: Arrivals,
}

impl Rounds {
    pub(super) fn of(workers: u64) -> Rounds {
        Rounds {
            workers,
            arrivals: Arrivals::none(),
        }
    }

    pub(super) fn missed(&self) -> bool {
        self.arrivals.missed()
    }
}

impl Gate for Rounds {
    fn entered(&self, seq: u64) {
        let round = seq / self.workers.max(1);
        self.arrivals
            .come(round.saturating_add(1).saturating_mul(self.workers));
    }
}

/// A round's procedure, which records its calls.
#[derive(Drop)]
struct OfRound {
    round: u64,
    calls: Arc<Calls, Global>,
}

impl Proc for OfRound {
    fn work(&mut self, _entry: &Entry) {
        self.calls.add(self.round.saturating_mul(2));
    }

    #[tactic(auto, using(fz_service::proofs::Running::runs_calls))]
    fn run(&mut self, _entry: &Entry, _world: &mut World) {
        self.calls
            .add(self.round.saturating_mul(2).saturating_add(1));
    }
}

/// Each seat finished one entry of each round.
fn finished_in_each_round<O: Opening>(rt: &impl Abort, seats: &[Seat<O>]) {
    for seat in seats {
        same(rt, "finished by a seat", seat.finished(), ROUNDS);
    }
}

/// How workers are run.
#[derive(Clone, Copy, PartialEq, Eq)]
enum Way {
    /// After all entries are sent, and the workers are told to stop.
    Alone,
    /// Concurrently with the thread that queues the entries.
    Beside,
}

/// Serves the entries of all rounds.
fn serves_rounds<O: Opening + Send + Sync, R: Abort + Wait + Threads + Sync>(
    rt: &R,
    prepared: Prepared,
    procs: &mut [Vec<Box<dyn Proc + Send>>],
    way: Way,
)
    requires { prepared ≡ O.origin }
{
    let gate = Rounds::of(WORKERS);
    let (service, seats) = opened::<O>(rt, prepared);
    let mut rounds = [0; 48];
    for (place, round) in rounds.iter_mut().enumerate() {
        *round = place as u64 / WORKERS;
    }
    let seats = if way == Way::Alone {
        queue_entries(rt, &mut service.enter(rt), &rounds);
        service.run_workers(seats, procs, &gate, &AtomicBool::new(true), rt)
    } else {
        let (seats, ()) = service.run_beside(seats, procs, &gate, rt, || {
            queue_entries(rt, &mut service.enter(rt), &rounds)
        });
        seats
    };
    same(rt, "a worker waited in vain", gate.missed(), false);
    finished_in_each_round(rt, seats.as_slice());
    let end = ended(rt, service, seats);
    same(rt, "finished", end.finished, WORKERS * ROUNDS);
}

/// A worker called `work` and then `run` of each round's procedure, each time that the rounds were served.
fn calls_in_each_round(rt: &impl Abort, calls: &Calls, times: u64) {
    let calls_at_once = 2 * ROUNDS;
    same(
        rt,
        "calls",
        calls.count(),
        calls_at_once.saturating_mul(times),
    );
    for place in 0..calls.count() {
        same(
            rt,
            "a call",
            calls.at(place as usize),
            place % calls_at_once,
        );
    }
}

/// The lists come back as they were: alone, beside a program, and alone again.
#[test]
fn eight_workers_have_lists_of_six(rt: HostRuntime) -> Result<(), Fail> {
    let mut all = Vec::new(rt.alloc());
    let mut procs = Vec::new(rt.alloc());
    for _worker in 0..WORKERS {
        let calls = Arc::new(rt.alloc(), Calls::with_room(rt.alloc(), 36)?)?;
        let mut list: Vec<Box<dyn Proc + Send>> = Vec::new(rt.alloc());
        for round in 0..ROUNDS {
            let calls = Arc::try_clone(&calls)?;
            list.push(Box::new(rt.alloc(), OfRound { round, calls })?)?;
        }
        all.push(calls)?;
        procs.push(list)?;
    }
    for (times, way) in [Way::Alone, Way::Beside, Way::Alone].iter().enumerate() {
        let prepared = prepared(&rt, rt.alloc(), WORKERS);
        serves_rounds::<Brand, HostRuntime>(&rt, prepared, procs.as_mut_slice(), *way);
        for calls in all.iter() {
            calls_in_each_round(&rt, calls, (times as u64).saturating_add(1));
        }
    }
    Ok(())
}
