//! The actors of a threads file, running concurrently.

ghost use Rattle.std.specs.Prelude.{◌≡◌, ◌≤◌, ◌<◌, ◌+◌, sum, length, IfOk};
ghost use Rattle.std.specs.List.{All};
ghost use Rattle.fz_service.specs.Workers.{ExtendEach};
ghost use Rattle.fz_runs.specs.declared.threads.limits.TheConstants.{MAX_LINES, MAX_REFUSED};
ghost use Rattle.fz_runs.specs.Holds.{HasRefused, Works, own_jobs, SectionsRefused, Settles};

use crate::threads::holds::hold_for;
use crate::threads::section::Sections;
use fz_model::Call;
use fz_service::{OpenGate, Opening, Proc, Seat, Service};
use std::alloc::{AllocError, Global};
use std::sync::Wait;
use std::thread;
use std::thread::Threads;

/// The sum of these numbers.
fn total(counts: &[u64]) -> u64
    requires each { All (λ count. count ≤ MAX_REFUSED) counts.now }
    requires few { length counts.now ≤ MAX_LINES }
    ensures { result ≡ sum counts.now }
{
    let mut total = 0;
    for count in counts {
        total += *count;
    }
    total
}

/// Carries out all sections, each on a thread of its own. Returns how many of their calls were refused.
fn run_sections<O: Opening + Send + Sync, R: Threads + Wait + Sync>(
    alloc: Global,
    service: &Service<O>,
    sections: &Sections,
    rt: &R,
) -> Result<u64, AllocError>
    ensures { IfOk result (SectionsRefused O.origin sections.now.jobs.items) }
{
    let section = |index: usize| -> u64
        requires { index < MAX_LINES }
        ensures refused { HasRefused O.origin (Works (own_jobs (index + 1) sections.entry.now.jobs.items)) result }
        ensures few { result ≤ MAX_REFUSED }
    { sections.work(service, index + 1, rt) };
    let refused = thread::map_indices(rt, alloc, sections.count(), &section)?;
    Ok(total(refused.as_slice()))
}

/// Ends the cycle, if one is open, and then collects this many times.
fn settle<O: Opening, R: Wait>(service: &Service<O>, collections: u64, rt: &R)
    ensures { Settles O.origin collections }
{
    let _no_cycle = hold_for(service, Call::Pause, rt);
    for _turn in 0..collections {
        let _exhausted = hold_for(service, Call::Collect, rt);
    }
}

/// The main thread's work: all sections, and then the end of the run.
fn lead<O: Opening + Send + Sync, R: Threads + Wait + Sync>(
    alloc: Global,
    service: &Service<O>,
    sections: &Sections,
    collections: u64,
    rt: &R,
) -> Result<u64, AllocError>
    ensures refused { IfOk result (SectionsRefused O.origin sections.now.jobs.items) }
    ensures settled { Settles O.origin collections }
{
    let refused = run_sections(alloc, service, sections, rt);
    settle(service, collections, rt);
    refused
}

/// Carries out all sections while the workers run. Returns the seats, and how many of the sections' calls were refused.
pub(crate) fn side_by_side<O: Opening + Send + Sync, R: Threads + Wait + Sync>(
    alloc: Global,
    service: &Service<O>,
    seats: Vec<Seat<O>>,
    sections: &Sections,
    collections: u64,
    mut procs: Vec<Vec<Box<dyn Proc + Send>>>,
    rt: &R,
) -> (Vec<Seat<O>>, Result<u64, AllocError>)
    ensures seats { ExtendEach seats.items result.0.items }
    ensures refused { IfOk result.1 (SectionsRefused O.origin sections.now.jobs.items) }
    ensures settled { Settles O.origin collections }
{
    service.run_beside(
        seats,
        procs.as_mut_slice(),
        &OpenGate,
        rt,
        || lead(alloc, service, sections, collections, rt),
    )
}
