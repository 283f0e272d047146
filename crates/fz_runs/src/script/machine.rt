//! A world with its workers, which carries out the steps of a script.

ghost use Rattle.std.specs.Prelude.{◌≡◌, ◌-◌, true, false, None, Some, IfOk, IfErr, OnOk, ◌<◌, slice_get, is_some, count_by, length, replicate, ◌≤◌};
ghost use Rattle.fz_model.specs.declared.limits.TheConstants.{MAX_WORKERS};
ghost use Rattle.fz_model.specs.Causes.{first_cause, IsRefusedFor};
ghost use Rattle.fz_model.specs.Joint.{Take, HoldOwn, FinishOwn, Forfeit, joint_opening};
ghost use Rattle.fz_runs.specs.Report.{opening_causes};
ghost use Rattle.fz_runs.specs.Machines.{StandsForJoint, JointDoes, TakesStep};

use crate::script::reply::StepReply;
use arrayvec::ArrayVec;
use fz_line::PlainLine;
use fz_model::{Entry, MAX_WORKERS, Refusal, Slot};
use fz_script::Step;
use fz_world::{Config, World};
use std::alloc::Global;

/// One entry in hand for each worker that a world may have.
const HANDS: usize = MAX_WORKERS as usize;

/// A world, its ready queue, and the entry in each worker's hand.
#[derive(Drop)]
pub(crate) struct Machine {
    world: World,
    line: PlainLine,
    hands: ArrayVec<Option<Entry>, HANDS>,
}

impl Machine {
    /// Opens a world whose workers have no entries.
    #[inline(never)]
    pub(crate) fn open(
        alloc: Global,
        blocks: u64,
        frames: u64,
        workers: u64,
    ) -> Result<Machine, Refusal>
        ensures refused { IfErr result (λ refusal. IsRefusedFor (opening_causes blocks frames workers) true refusal) }
        ensures opened { IfOk result (λ machine. (first_cause (opening_causes blocks frames workers) ≡ None) × StandsForJoint machine (joint_opening blocks frames workers)) }
    {
        if workers < 1 || workers > MAX_WORKERS {
            return Err(Refusal::BadCount);
        }
        let world = World::open(alloc, Config { blocks, frames })?;
        Ok(Machine {
            world,
            line: PlainLine::new(),
            hands: empty_hands(workers as usize),
        })
    }

    /// The entry in the worker's hand, if there is one.
    fn hand(&self, worker: u64) -> Result<Option<Entry>, Refusal>
        ensures found { IfOk result (λ hand. slice_get self.now.hands.items worker ≡ Some hand) }
        ensures within { OnOk result (worker < length self.now.hands.items) }
        ensures missing { IfErr result (λ refusal. (length self.now.hands.items ≤ worker) × (refusal ≡ Refusal.SeatsMissing)) }
    {
        if worker < self.hands.len() as u64 {
            Ok(self.hands[worker as usize])
        } else {
            Err(Refusal::SeatsMissing)
        }
    }

    /// The worker takes the next entry of the queue, if there is one.
    fn take(&mut self, worker: u64) -> Result<Option<Entry>, Refusal>
        ensures { JointDoes self.old (Take worker) result self.new }
    {
        let hand = self.hand(worker)?;
        if hand.is_some() {
            return Err(Refusal::SeatsMissing);
        }
        let entry = self.line.take(self.world.queue());
        self.hands[worker as usize] = entry;
        Ok(entry)
    }

    /// Stores the address of the worker's object in the slot.
    fn hold(&mut self, worker: u64, slot: Slot) -> Result<(), Refusal>
        ensures { JointDoes self.old (HoldOwn worker slot) result self.new }
    {
        let Some(entry) = self.hand(worker)? else {
            return Err(Refusal::NotHeld);
        };
        self.world.hold(slot.frame, slot.slot, &entry)
    }

    /// The worker finishes its entry. If that is refused, it keeps the entry.
    fn finish(&mut self, worker: u64) -> Result<(), Refusal>
        ensures { JointDoes self.old (FinishOwn worker) result self.new }
    {
        let Some(entry) = self.hand(worker)? else {
            return Err(Refusal::NotHeld);
        };
        self.world.finish(&entry)?;
        self.hands[worker as usize] = None;
        Ok(())
    }

    /// The worker abandons its entry.
    fn forfeit(&mut self, worker: u64) -> Result<(), Refusal>
        ensures { JointDoes self.old (Forfeit worker) result self.new }
    {
        let Some(_) = self.hand(worker)? else {
            return Err(Refusal::NotHeld);
        };
        self.hands[worker as usize] = None;
        Ok(())
    }

    /// Carries out a step of an open world. Returns `None` for an opening, which may come only once.
    pub(crate) fn take_step(&mut self, step: Step) -> Result<Option<StepReply>, Refusal>
        ensures { TakesStep self.old step result self.new }
    {
        match step {
            Step::Open { .. } => Ok(None),
            Step::Call(call) => Ok(Some(StepReply::Called(self.world.make(call)?))),
            Step::Take { worker } => Ok(Some(StepReply::Taken(self.take(worker)?))),
            Step::Hold { worker, slot } => {
                self.hold(worker, slot)?;
                Ok(Some(StepReply::Held))
            }
            Step::Finish { worker } => {
                self.finish(worker)?;
                Ok(Some(StepReply::Finished))
            }
            Step::Forfeit { worker } => {
                self.forfeit(worker)?;
                Ok(Some(StepReply::Forfeited))
            }
        }
    }

    /// The number of entries in the queue.
    pub(crate) fn enqueued(&self) -> u64
        ensures { result ≡ length self.now.world.queue }
    {
        self.world.queued()
    }

    /// The number of entries that no worker has taken.
    pub(crate) fn left(&self) -> u64
        ensures { result ≡ length self.now.world.queue - self.now.line }
    {
        self.world.queued().saturating_sub(self.line.taken() as u64)
    }

    /// The number of entries in workers' hands.
    pub(crate) fn in_hand(&self) -> u64
        ensures { result ≡ count_by is_some self.now.hands.items }
    {
        self.hands.iter().filter(|hand| hand.is_some()).count() as u64
    }
}

fn empty_hands(workers: usize) -> ArrayVec<Option<Entry>, HANDS>
    requires { workers ≤ MAX_WORKERS }
    ensures { result.items ≡ replicate workers None }
{
    let mut hands = ArrayVec::new();
    while hands.len() < workers {
        hands.push(None);
    }
    hands
}
