//! The content of a threads file.

ghost use Rattle.std.specs.Prelude.{◌≡◌, [], ◌∷◌, ◌++◌, true, false, fold, IfErr, OnOk, ◌⊎◌};
ghost use Rattle.fz_runs.specs.Jobs.{may_come, stage_after, first_stage};

use crate::threads::stage::Stage;
use fz_model::Refusal;
use fz_script::Job;
use std::alloc::Global;

/// The size of a world, and the line of its opening.
#[derive(Clone, Copy)]
pub(crate) struct Size {
    pub(crate) blocks: u64,
    pub(crate) frames: u64,
    pub(crate) workers: u64,
    pub(crate) line: u64,
}

/// The content of a threads file.
#[derive(Drop)]
pub(crate) struct Plan {
    pub(crate) size: Size,
    /// How many collections follow at the end.
    pub(crate) collections: u64,
    /// The jobs of all sections, including the first line of each.
    pub(crate) jobs: Vec<Job>,
    pub(crate) stage: Stage,
    ghost staged: { stage ≡ fold stage_after first_stage jobs.items },
}

impl Plan {
    /// A plan without sections.
    pub(crate) fn new(alloc: Global, size: Size, collections: u64) -> Plan
        ensures { (result.size ≡ size) × (result.collections ≡ collections) × (result.jobs.items ≡ []) }
    {
        Plan {
            size,
            collections,
            jobs: Vec::new(alloc),
            stage: Stage::first(),
        }
    }

    /// Adds a job, if it may come next.
    pub(crate) fn add(&mut self, job: Job) -> Result<(), Refusal>
        ensures added { OnOk result ((self.new.size ≡ self.old.size) × (self.new.collections ≡ self.old.collections) × (self.new.jobs.items ≡ self.old.jobs.items ++ job ∷ [])) }
        ensures came { OnOk result (may_come (fold stage_after first_stage self.old.jobs.items) job ≡ true) }
        ensures refused { IfErr result (λ refusal. (refusal ≡ Refusal.NoMemory) ⊎ ((refusal ≡ Refusal.BadLine) × (may_come (fold stage_after first_stage self.old.jobs.items) job ≡ false))) }
    {
        if !self.stage.admits(job) {
            return Err(Refusal::BadLine);
        }
        self.jobs.push(job)?;
        self.stage = self.stage.after(job);
        Ok(())
    }
}
