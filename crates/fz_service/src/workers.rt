//! Workers, which take entries and run their procedures.

ghost use Rattle.std.specs.Prelude.{◌≡◌, ◌+◌, ◌≤◌, length};
ghost use Rattle.fz_service.specs.States.{RunsCalls};
ghost use Rattle.fz_service.specs.Workers.{Extends};
ghost use Rattle.fz_service.specs.Diary.{Gains, RunsEach};
ghost use Rattle.fz_service.specs.Turns.{UsesUp};

use crate::diary::Diary;
use crate::opening::Opening;
use crate::seat::Seat;
use crate::service::Service;
use crate::turn::{CameTo, Turn};
use fz_model::Entry;
use fz_world::World;
use std::sync::Wait;
use std::sync::atomic::AtomicU64;
use std::time::Duration;

/// A finalizer's procedure. Each part has an empty default.
pub trait Proc: Drop {
    /// The part that runs without the lock.
    fn work(&mut self, _entry: &Entry) {}

    /// Whether `work` does anything. If it doesn't, a worker that serves several such entries in a row need not release the lock in between, and doesn't call
    /// `work`.
    fn has_work(&self) -> bool {
        true
    }

    /// The part that runs under the lock and may change the world, by calls other than `open` and `finish`.
    #[tactic(auto, using(crate::proofs::Running::runs_calls))]
    fn run(&mut self, _entry: &Entry, _world: &mut World)
        ensures { RunsCalls _world.old _world.new }
    {}
}

/// Makes a list of procedures for each of a number of workers. Each list has one value of each expression, in order.
///
/// If memory runs out, or an expression fails by `?`, the calling function returns that error.
#[macro_export]
macro_rules! procedures {
    ($alloc:expr; $workers:expr; $($procedure:expr),+ $(,)?) => {{
        let alloc = $alloc;
        let mut lists = Vec::new(alloc);
        for _worker in 0..$workers {
            let mut list: Vec<Box<dyn $crate::Proc + Send>> = Vec::new(alloc);
            $(list.push(Box::new(alloc, $procedure)?)?;)+
            lists.push(list)?;
        }
        lists
    }};
}

/// The longest sleep of a worker, in milliseconds.
const MILLISECONDS_OF_SLEEP: u64 = 50;

/// A hook that is called for each entry before its procedure, and that puts an idle worker to sleep.
pub trait Gate {
    /// The entry with this sequence number was taken. Called without the lock.
    fn entered(&self, seq: u64);

    /// Whether it lets all entries through, so that it need not be called.
    fn lets_all_through(&self) -> bool {
        false
    }

    /// Puts a worker to sleep that has found nothing to do, until the low 32 bits of `rings` differ from `heard`. It may return earlier, for no reason. Called
    /// without the lock.
    ///
    /// A sleep ends after 50 milliseconds at the latest, which bounds the delay if a caller sets `stop` without waking the workers. A test substitutes sleeps
    /// that don't end by themselves, so that no wake-up may be lost.
    fn park<R: Wait>(&self, rings: &AtomicU64, heard: u32, rt: &R) {
        rings.park_timeout(rt, heard, Duration::from_millis(MILLISECONDS_OF_SLEEP));
    }
}

/// A hook that does nothing.
pub struct OpenGate;

impl Gate for OpenGate {
    fn entered(&self, _seq: u64) {}

    fn lets_all_through(&self) -> bool {
        true
    }
}

impl<O: Opening> Service<O> {
    /// Takes turns until it took `limit` entries or a turn took none. Returns the seat, how many entries it finished, and how its last turn ended, if that
    /// took no entry.
    fn serve_up_to<G: Gate, R: Wait>(
        &self,
        seat: Seat<O>,
        procs: &mut [Box<dyn Proc + Send>],
        diary: &mut Diary,
        limit: u64,
        gate: &G,
        rt: &R,
    ) -> (Seat<O>, u64, Option<CameTo>)
        ensures seat { Extends seat result.0 }
        ensures ran { Gains diary.old.events diary.new.events (RunsEach (length procs.old) seat result.0) }
        ensures count { result.0.finished ≡ seat.finished + result.1 }
        ensures limit { result.1 ≤ limit }
        ensures used { UsesUp limit seat result.2 result.0 }
    {
        let mut seat = seat;
        let mut finished = 0;
        let mut held = None;
        for _turn in 0..limit {
            let Turn {
                seat: same,
                came_to,
                held: locked,
            } = self.take_turn(seat, procs, diary, gate, rt, held);
            seat = same;
            held = locked;
            match came_to {
                CameTo::Served(is_finished) => finished += is_finished as u64,
                CameTo::Empty | CameTo::Busy => return (seat, finished, Some(came_to)),
            }
        }
        (seat, finished, None)
    }

    /// Takes entries and finishes them, until it took `limit` or a take returns none; returns the seat, and how many it finished. May block.
    ///
    /// For each entry the hook and then `work` of its procedure are called without the lock, and then `run` of its procedure under the lock. An entry's
    /// procedure number is an index into the list, counted from 0; if the list is shorter, there is no procedure. If finishing an entry is refused, it is
    /// forfeited.
    ///
    /// If the hook lets all entries through and the procedures have no work without the lock, up to 32 entries in a row are run and finished under one hold
    /// of the lock.
    pub fn invoke_finalizers<G: Gate, R: Wait>(
        &self,
        seat: Seat<O>,
        procs: &mut [Box<dyn Proc + Send>],
        limit: u64,
        gate: &G,
        rt: &R,
    ) -> (Seat<O>, u64)
        ensures seat { Extends seat result.0 }
        ensures count { result.0.finished ≡ seat.finished + result.1 }
        ensures limit { result.1 ≤ limit }
        ensures taken { length result.0.took ≤ length seat.took + limit }
    {
        let diary = &mut Diary::new();
        let (seat, finished, _) = self.serve_up_to(seat, procs, diary, limit, gate, rt);
        (seat, finished)
    }
}
