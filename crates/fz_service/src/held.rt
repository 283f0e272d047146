//! The lock, as a worker keeps it from entry to entry.

ghost use Rattle.std.specs.Prelude.{◌≡◌, ◌<◌, ◌≤◌, ◌+◌, ◌++◌, Contains, IfSome, length};
ghost use Rattle.fz_service.specs.declared.held.TheConstants.{ENTRIES_IN_A_HOLD};
ghost use Rattle.fz_service.specs.States.{line_room, one_more, RunsCalls};
ghost use Rattle.fz_service.specs.Workers.{Serves};
ghost use Rattle.fz_service.specs.Diary.{run_of};

use crate::diary::Diary;
use crate::locked::Locked;
use crate::opening::Opening;
use crate::seat::{Duty, Seat};
use crate::service::Guard;
use crate::workers::Proc;
use fz_model::Entry;
use fz_world::World;

/// The largest number of entries in a row that a worker serves under one hold of the lock.
const ENTRIES_IN_A_HOLD: u64 = 32;

/// The lock while a worker has it, and how many entries were served under this hold. Only `Held::new` makes one of a lock.
#[derive(Drop)]
pub(crate) struct Held<'a, O: Opening> {
    guard: Guard<'a, O>,
    served: u64,
    ghost few: { served < ENTRIES_IN_A_HOLD },
}

/// What came of an entry: its seat, whether the entry was finished, and the lock, unless this hold has served as many entries as it may.
pub(crate) struct Done<'a, O: Opening> {
    pub(crate) seat: Seat<O>,
    pub(crate) is_finished: bool,
    pub(crate) held: Option<Held<'a, O>>,
}

impl<'a, O: Opening> Held<'a, O> {
    /// A hold under which nothing was served yet.
    pub(crate) fn new(guard: Guard<'a, O>) -> Held<'a, O>
        ensures { result.served ≡ 0 }
    {
        Held { guard, served: 0 }
    }

    /// Serves the duty under the lock. If the hold has then served its last entry, the lock is released, so that other threads can take it.
    pub(crate) fn serve(
        self,
        duty: Duty<O>,
        procs: &mut [Box<dyn Proc + Send>],
        diary: &mut Diary,
    ) -> Done<'a, O>
        ensures seat { Serves duty result.seat result.is_finished }
        ensures ran { diary.new.events ≡ diary.old.events ++ run_of (length procs.old) duty.entry }
        ensures counted { IfSome result.held (λ held. held.served ≡ self.entry.served + 1) }
    {
        let Held { mut guard, served } = self;
        let (seat, is_finished) = guard.serve_duty(duty, procs, diary);
        let served = served + 1;
        let held = if served < ENTRIES_IN_A_HOLD {
            Some(Held { guard, served })
        } else {
            None
        };
        Done {
            seat,
            is_finished,
            held,
        }
    }
}

/// Calls `run` of the entry's procedure, if the list contains it.
#[tactic(auto, using(crate::proofs::Running::runs_calls))]
fn run(procs: &mut [Box<dyn Proc + Send>], diary: &mut Diary, entry: &Entry, world: &mut World)
    ensures calls { RunsCalls world.old world.new }
    ensures ran { diary.new.events ≡ diary.old.events ++ run_of (length procs.old) entry.now }
{
    if entry.proc < procs.len() as u64 {
        diary.run(procs, entry.proc as usize, entry, world);
    }
}

impl<O: Opening> Locked<O> {
    /// Runs the procedure of the duty's entry, sends what it queued, and finishes the duty, or forfeits it if finishing is refused. Returns the seat, and
    /// whether the entry was finished.
    fn serve_duty(
        &mut self,
        duty: Duty<O>,
        procs: &mut [Box<dyn Proc + Send>],
        diary: &mut Diary,
    ) -> (Seat<O>, bool)
        ensures seat { Serves duty result.0 result.1 }
        ensures ran { diary.new.events ≡ diary.old.events ++ run_of (length procs.old) duty.entry }
        ensures answer { ¬ Contains self.new.world.held duty.entry }
        ensures sent { self.new.published < length self.new.world.queue → line_room O.origin.blocks ≤ self.new.published }
        ensures short { self.new.published < length self.new.world.queue → self.new.shortages ≡ one_more self.old.shortages }
    {
        run(procs, diary, duty.entry(), &mut self.world);
        self.publish();
        match self.finish(duty) {
            Ok(seat) => (seat, true),
            Err((_, duty)) => (duty.forfeit(), false),
        }
    }
}
