//! The work of a section.

ghost use Rattle.std.specs.Prelude.{◌≡◌, ◌≤◌, ◌*◌, length};
ghost use Rattle.std.specs.List.{All};
ghost use Rattle.fz_model.specs.Events.{Make};
ghost use Rattle.fz_script.specs.declared.job.TheConstants.{MAX_TURNS};
ghost use Rattle.fz_runs.specs.declared.threads.limits.TheConstants.{MAX_LINES, MAX_REFUSED_OF_LINE, MAX_REFUSED};
ghost use Rattle.fz_runs.specs.Holds.{HasRefused, IsTurn, AreTurns, Carries, Works, own_jobs, begins_section, turns_of};
ghost use Rattle.std.specs.List.{count_by};

use crate::threads::holds::hold_for;
use fz_model::{Call, Finalizer};
use fz_script::Job;
use fz_service::{Opening, Service};
use std::sync::Wait;

/// One turn of `churn`. Returns how many of its calls were refused. A refused `new` skips the other two.
fn churn_once<O: Opening, R: Wait>(
    service: &Service<O>,
    new: Call,
    register: Call,
    let_go: Call,
    rt: &R,
) -> u64
    ensures refused { HasRefused O.origin (IsTurn (Make new) (Make register) (Make let_go)) result }
    ensures few { result ≤ 2 }
{
    if hold_for(service, new, rt) {
        return 1;
    }
    let registered = hold_for(service, register, rt);
    let dropped = hold_for(service, let_go, rt);
    registered as u64 + dropped as u64
}

/// Carries out `count` turns. Returns how many of their calls were refused.
fn churn<O: Opening, R: Wait>(
    service: &Service<O>,
    count: u64,
    new: Call,
    register: Call,
    let_go: Call,
    rt: &R,
) -> u64
    requires { count ≤ MAX_TURNS }
    ensures refused { HasRefused O.origin (AreTurns (Make new) (Make register) (Make let_go) count) result }
    ensures few { result ≤ MAX_REFUSED_OF_LINE }
{
    let mut refused = 0;
    for _turn in 0..count {
        refused += churn_once(service, new, register, let_go, rt);
    }
    refused
}

/// Carries out a job. Returns how many of its calls were refused.
fn carry<O: Opening, R: Wait>(service: &Service<O>, job: Job, rt: &R) -> u64
    requires { turns_of job ≤ MAX_TURNS }
    ensures refused { HasRefused O.origin (Carries job) result }
    ensures few { result ≤ MAX_REFUSED_OF_LINE }
{
    match job {
        Job::Call(call) => hold_for(service, call, rt) as u64,
        Job::Churn {
            count,
            slot,
            size,
            kind,
            finalizer_kind,
            procedure,
        } => churn(
            service,
            count,
            Call::Alloc { slot, size, kind },
            Call::Register {
                slot,
                finalizer: Finalizer {
                    kind: finalizer_kind,
                    procedure,
                    client_data: 0,
                    rank: None,
                },
            },
            Call::Set { slot, word: 0 },
            rt,
        ),
        Job::Open { .. } | Job::Settle { .. } | Job::Mutator | Job::Collector => 0,
    }
}

/// Whether the job is the first line of a section.
fn begins_section(job: Job) -> bool
    ensures { result ≡ begins_section job }
{
    match job {
        Job::Mutator | Job::Collector => true,
        Job::Open { .. } | Job::Settle { .. } | Job::Churn { .. } | Job::Call(_) => false,
    }
}

/// Carries out the jobs of the section with this number, counted from 1. Returns how many of its calls were refused.
fn work<O: Opening, R: Wait>(service: &Service<O>, jobs: &[Job], number: usize, rt: &R) -> u64
    requires stand { All (λ job. turns_of job ≤ MAX_TURNS) jobs.now }
    requires few { length jobs.now ≤ MAX_LINES }
    ensures refused { HasRefused O.origin (Works (own_jobs number jobs.now)) result }
    ensures few { result ≤ MAX_REFUSED_OF_LINE * length jobs.now }
{
    let mut begun = 0;
    let mut refused = 0;
    for job in jobs {
        if begins_section(*job) {
            begun += 1;
        } else if begun == number {
            refused += carry(service, *job, rt);
        }
    }
    refused
}

/// The jobs of all sections of a file, including the first line of each.
#[derive(Drop)]
pub(crate) struct Sections {
    pub(crate) jobs: Vec<Job>,
    ghost stand: { All (λ job. turns_of job ≤ MAX_TURNS) jobs.items },
    ghost few: { length jobs.items ≤ MAX_LINES },
}

impl Sections {
    pub(crate) fn of(jobs: Vec<Job>) -> Sections
        requires stand { All (λ job. turns_of job ≤ MAX_TURNS) jobs.items }
        requires few { length jobs.items ≤ MAX_LINES }
        ensures { result.jobs.items ≡ jobs.items }
    {
        Sections { jobs }
    }

    /// The number of sections.
    pub(crate) fn count(&self) -> usize
        ensures count { result ≡ count_by begins_section self.now.jobs.items }
        ensures few { result ≤ MAX_LINES }
    {
        self.jobs.iter().filter(|job| begins_section(**job)).count()
    }

    /// Carries out the section with this number, counted from 1. Returns how many of its calls were refused.
    pub(crate) fn work<O: Opening, R: Wait>(
        &self,
        service: &Service<O>,
        number: usize,
        rt: &R,
    ) -> u64
        ensures refused { HasRefused O.origin (Works (own_jobs number self.now.jobs.items)) result }
        ensures few { result ≤ MAX_REFUSED }
    {
        work(service, self.jobs.as_slice(), number, rt)
    }
}
