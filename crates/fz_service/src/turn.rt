//! A worker's turn: it takes an entry and serves it completely.

ghost use Rattle.std.specs.Prelude.{◌≡◌, ◌++◌, length};
ghost use Rattle.fz_service.specs.Diary.{Gains, taken_run};
ghost use Rattle.fz_service.specs.Turns.{IsAnswered, Turns};

use crate::diary::Diary;
use crate::held::{Done, Held};
use crate::opening::Opening;
use crate::seat::{Seat, Take};
use crate::service::Service;
use crate::workers::{Gate, Proc};
use fz_model::Entry;
use std::sync::Wait;

/// The result of a worker's turn.
pub(crate) struct Turn<'a, O: Opening> {
    pub(crate) seat: Seat<O>,
    pub(crate) came_to: CameTo,
    /// The lock, if it is still held.
    pub(crate) held: Option<Held<'a, O>>,
}

/// How a turn ended.
#[derive(Clone, Copy)]
pub(crate) enum CameTo {
    /// It took an entry and finished it; `false` if finishing was refused, so that the entry was forfeited.
    Served(bool),
    /// The line was empty.
    Empty,
    /// Another thread interfered. Try again.
    Busy,
}

/// Whether serving the entry involves steps without the lock: the hook has to be called, or the procedure has work.
fn has_outside_steps<G: Gate>(procs: &[Box<dyn Proc + Send>], gate: &G, entry: &Entry) -> bool {
    !gate.lets_all_through()
        || entry.proc < procs.len() as u64 && procs[entry.proc as usize].has_work()
}

/// Calls `work` of the entry's procedure, if the list contains it.
fn work(procs: &mut [Box<dyn Proc + Send>], entry: &Entry) {
    if entry.proc < procs.len() as u64 {
        procs[entry.proc as usize].work(entry);
    }
}

impl<O: Opening> Service<O> {
    /// Handles the result of a take, as `invoke_finalizers` documents. If serving the entry involves steps without the lock, the lock is released before
    /// these and again after `run`; otherwise the entry is served under the present hold.
    fn answer<'a, G: Gate, R: Wait>(
        &'a self,
        taken: Take<O>,
        procs: &mut [Box<dyn Proc + Send>],
        diary: &mut Diary,
        gate: &G,
        rt: &R,
        held: Option<Held<'a, O>>,
    ) -> Turn<'a, O>
        ensures seat { IsAnswered taken result.came_to result.seat }
        ensures ran { diary.new.events ≡ diary.old.events ++ taken_run (length procs.old) taken }
    {
        match taken {
            Take::Taken(duty) => {
                let goes_outside = has_outside_steps(procs, gate, duty.entry());
                let held = if goes_outside {
                    drop(held);
                    gate.entered(duty.entry().seq);
                    work(procs, duty.entry());
                    Held::new(self.enter(rt))
                } else {
                    held.unwrap_or_else(|| Held::new(self.enter(rt)))
                };
                let Done {
                    seat,
                    is_finished,
                    held,
                } = held.serve(duty, procs, diary);
                Turn {
                    seat,
                    came_to: CameTo::Served(is_finished),
                    held: if goes_outside { None } else { held },
                }
            }
            Take::Empty(seat) => Turn {
                seat,
                came_to: CameTo::Empty,
                held: None,
            },
            Take::Busy(seat) => Turn {
                seat,
                came_to: CameTo::Busy,
                held: None,
            },
        }
    }

    /// Takes an entry, if the line has one, and serves it as `invoke_finalizers` documents. The lock may still be held from the previous turn.
    pub(crate) fn take_turn<'a, G: Gate, R: Wait>(
        &'a self,
        seat: Seat<O>,
        procs: &mut [Box<dyn Proc + Send>],
        diary: &mut Diary,
        gate: &G,
        rt: &R,
        held: Option<Held<'a, O>>,
    ) -> Turn<'a, O>
        ensures { Gains diary.old.events diary.new.events (Turns (length procs.old) seat result.came_to result.seat) }
    {
        let taken = diary.take(seat);
        self.answer(taken, procs, diary, gate, rt, held)
    }
}
