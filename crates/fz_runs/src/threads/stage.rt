//! At which point of a threads file a job may come.

ghost use Rattle.std.specs.Prelude.{◌≡◌, true};
ghost use Rattle.fz_runs.specs.Jobs.{maker, is_call_of, may_come, stage_after, first_stage};

use crate::threads::limits::MAX_MUTATORS;
use fz_model::Call;
use fz_script::Job;

/// Whose section this is.
#[derive(Clone, Copy, Debug, PartialEq, Eq)]
pub(crate) enum Actor {
    /// No section has begun.
    Nobody,
    Mutator,
    Collector,
}

/// The actor of the current section, and the number of sections so far.
#[derive(Clone, Copy, Debug, PartialEq, Eq)]
pub(crate) struct Stage {
    pub(crate) actor: Actor,
    pub(crate) mutators: u64,
    pub(crate) collectors: u64,
}

/// Which actor may make the call. No section closes the world, which the run does at its end, or counts held entries, since no report is written meanwhile.
fn maker(call: Call) -> Actor
    ensures { result ≡ maker call }
{
    match call {
        Call::Alloc { .. }
        | Call::Copy { .. }
        | Call::Load { .. }
        | Call::Store { .. }
        | Call::Set { .. }
        | Call::Register { .. }
        | Call::Unregister(_)
        | Call::Link { .. }
        | Call::Unlink { .. }
        | Call::Move { .. } => Actor::Mutator,
        Call::Begin | Call::Mark(_) | Call::Pause | Call::Collect => Actor::Collector,
        Call::Close | Call::Outstanding => Actor::Nobody,
    }
}

fn is_call_of(actor: Actor, call: Call) -> bool
    ensures { result ≡ is_call_of actor call }
{
    match (actor, maker(call)) {
        (Actor::Mutator, Actor::Mutator) | (Actor::Collector, Actor::Collector) => true,
        _ => false,
    }
}

impl Stage {
    /// Before the first section.
    pub(crate) fn first() -> Stage
        ensures { result ≡ first_stage }
    {
        Stage {
            actor: Actor::Nobody,
            mutators: 0,
            collectors: 0,
        }
    }

    /// Whether the job may come next.
    pub(crate) fn admits(self, job: Job) -> bool
        ensures { result ≡ may_come self job }
    {
        match job {
            Job::Open { .. } | Job::Settle { .. } => false,
            Job::Mutator => self.mutators < MAX_MUTATORS,
            Job::Collector => self.collectors < 1,
            Job::Churn { .. } => match self.actor {
                Actor::Mutator => true,
                Actor::Nobody | Actor::Collector => false,
            },
            Job::Call(call) => is_call_of(self.actor, call),
        }
    }

    /// The stage after the job. Requires that the job may come next.
    pub(crate) fn after(self, job: Job) -> Stage
        requires { may_come self job ≡ true }
        ensures { result ≡ stage_after self job }
    {
        match job {
            Job::Mutator => Stage {
                actor: Actor::Mutator,
                mutators: self.mutators + 1,
                collectors: self.collectors,
            },
            Job::Collector => Stage {
                actor: Actor::Collector,
                mutators: self.mutators,
                collectors: self.collectors + 1,
            },
            Job::Open { .. } | Job::Settle { .. } | Job::Churn { .. } | Job::Call(_) => self,
        }
    }
}
