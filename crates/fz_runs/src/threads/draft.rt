//! The part of a threads file that was read so far.

ghost use Rattle.fz_runs.specs.Plans.{Adds};

use crate::threads::plan::{Plan, Size};
use fz_model::Refusal;
use fz_script::Job;
use std::alloc::Global;

/// The jobs of the lines read so far.
#[derive(Drop)]
pub(crate) enum Draft {
    Empty,
    Opened(Size),
    Settled(Plan),
}

impl Draft {
    /// Adds this line's job, if it may come next.
    pub(crate) fn add(&mut self, alloc: Global, line: u64, job: Job) -> Result<(), Refusal>
        ensures { Adds self.old line job result self.new }
    {
        match self {
            Draft::Empty => match job {
                Job::Open {
                    blocks,
                    frames,
                    workers,
                } => {
                    *self = Draft::Opened(Size {
                        blocks,
                        frames,
                        workers,
                        line,
                    });
                    Ok(())
                }
                _ => Err(Refusal::BadLine),
            },
            Draft::Opened(size) => match job {
                Job::Settle { collections } => {
                    *self = Draft::Settled(Plan::new(alloc, *size, collections));
                    Ok(())
                }
                _ => Err(Refusal::BadLine),
            },
            Draft::Settled(plan) => plan.add(job),
        }
    }
}
