//! Running a whole threads file.

ghost use Rattle.std.specs.Prelude.{◌≡◌, ◌≤◌, None, IfErr, IfOk, length};
ghost use Rattle.std.specs.List.{All};
ghost use Rattle.fz_model.specs.Causes.{first_cause};
ghost use Rattle.fz_service.specs.Ends.{IsEachOnce};
ghost use Rattle.fz_service.specs.Workers.{ExtendEach};
ghost use Rattle.fz_runs.specs.Written.{text_line, refused_words};
ghost use Rattle.fz_script.specs.declared.job.TheConstants.{MAX_TURNS};
ghost use Rattle.fz_runs.specs.declared.threads.limits.TheConstants.{MAX_LINES};
ghost use Rattle.fz_runs.specs.Plans.{asked_by};
ghost use Rattle.fz_runs.specs.Holds.{turns_of, SectionsRefused, Settles};
ghost use Rattle.fz_runs.specs.Threads.{DrivesThreads, DrivesSections, tally_of, service_causes};
ghost use Rattle.fz_runs.specs.Telling.{lineless, TellsFault, text_for, opening_fault, asked_from, TellsEnd, TellsSummary, RunsPlan};

use crate::text::{DriveFault, Sink, Source, write_malformed, write_refused};
use crate::threads::actors::side_by_side;
use crate::threads::plan::Plan;
use crate::threads::reading::read_plan;
use crate::threads::section::Sections;
use crate::threads::summary::write_summary;
use crate::threads::tally::Tally;
use fz_model::Refusal;
use fz_service::{Final, Opening, Prepared, Proc, Seat, Service, retire_all};
use fz_world::Config;
use std::alloc::Global;
use std::marker::Brand;
use std::sync::Wait;
use std::thread;
use std::thread::Threads;

/// A fault without a line number.
fn lineless(refusal: Refusal) -> DriveFault
    ensures { result ≡ lineless refusal }
{
    DriveFault { refusal, line: 0 }
}

/// Writes why a file can't be carried out, if the report has to say so.
fn tell_unreadable<W: Sink>(writer: &mut W, fault: DriveFault) -> DriveFault
    ensures { TellsFault (text_for fault.refusal fault.line) fault (W.log writer.old) result (W.log writer.new) }
{
    match fault.refusal {
        Refusal::BadLine => match write_malformed(writer, fault.line) {
            Ok(()) => fault,
            Err(_) => lineless(Refusal::Output),
        },
        _ => fault,
    }
}

/// The fault of a refused opening. It has a line number only if the opening is outside its limits.
fn opening_fault(refusal: Refusal, line: u64) -> DriveFault
    ensures { result ≡ opening_fault refusal line }
{
    match refusal {
        Refusal::BadCount => DriveFault { refusal, line },
        _ => lineless(refusal),
    }
}

/// Writes that the opening in this line was refused.
fn tell_refused<W: Sink>(writer: &mut W, refusal: Refusal, line: u64) -> DriveFault
    ensures { TellsFault (text_line (refused_words refusal)) (opening_fault refusal line) (W.log writer.old) result (W.log writer.new) }
{
    match write_refused(writer, refusal) {
        Ok(()) => opening_fault(refusal, line),
        Err(_) => lineless(Refusal::Output),
    }
}

fn tally_of(end: &Final, refused: u64) -> Tally
    ensures { result ≡ tally_of end.now refused }
{
    Tally {
        enqueued: end.enqueued,
        finished: end.finished,
        forfeited: end.forfeited,
        left: end.left.len() as u64,
        passes: end.passes,
        reclaimed: end.reclaimed,
        refused,
    }
}

/// Ends the service with all its seats. Returns the totals of the run.
fn end_of<O: Opening>(
    service: Service<O>,
    seats: Vec<Seat<O>>,
    refused: u64,
) -> Result<Tally, Refusal>
    requires { IsEachOnce O.origin.workers seats.items }
    ensures ended { IfOk result (TellsEnd O.origin refused) }
    ensures refused { IfErr result (λ refusal. refusal ≡ Refusal.NoMemory) }
{
    let end = service.conclude(seats)?;
    Ok(tally_of(&end, refused))
}

/// Writes the summary of a run.
fn tell_summary<W: Sink>(writer: &mut W, tally: Tally) -> Result<(), DriveFault>
    ensures { TellsSummary tally (W.log writer.old) result (W.log writer.new) }
{
    match write_summary(writer, tally) {
        Ok(()) => Ok(()),
        Err(_) => Err(lineless(Refusal::Output)),
    }
}

/// Starts a thread that ends at once. Fails if no thread can be started.
fn start_thread<R: Threads>(rt: &R) -> Result<(), DriveFault>
    ensures { IfErr result (λ fault. fault ≡ lineless Refusal.NoMemory) }
{
    match thread::spawn(rt, || ()) {
        Ok(started) => {
            started.join(rt);
            Ok(())
        }
        Err(_) => Err(lineless(Refusal::NoMemory)),
    }
}

/// Runs the sections over a prepared service, and writes the summary. `line` is the line of the opening.
fn run_prepared<O: Opening + Send + Sync, W: Sink, R: Threads + Wait + Sync>(
    alloc: Global,
    writer: &mut W,
    line: u64,
    sections: &Sections,
    collections: u64,
    prepared: Prepared,
    procs: Vec<Vec<Box<dyn Proc + Send>>>,
    rt: &R,
) -> Result<(), DriveFault>
    requires named { prepared ≡ O.origin }
    requires within { first_cause (service_causes (asked_from O.origin collections sections.now.jobs.items)) ≡ None }
    ensures { RunsPlan (asked_from O.origin collections sections.now.jobs.items) line (W.log writer.old) result (W.log writer.new) }
{
    let (service, seats) = match Service::<O>::open(prepared) {
        Ok(opened) => opened,
        Err(error) => return Err(tell_refused(writer, error.refusal(), line)),
    };
    if let Err(fault) = start_thread(rt) {
        retire_all(seats);
        return Err(fault);
    }
    let (seats, refused) = side_by_side(alloc, &service, seats, sections, collections, procs, rt);
    let Ok(refused) = refused else {
        retire_all(seats);
        return Err(lineless(Refusal::NoMemory));
    };
    match end_of(service, seats, refused) {
        Ok(tally) => tell_summary(writer, tally),
        Err(refusal) => Err(lineless(refusal)),
    }
}

/// Opens a service of the plan's size, and carries the plan out.
fn run_plan<W: Sink, T: Threads + Wait + Sync>(
    alloc: Global,
    writer: &mut W,
    plan: Plan,
    procs: Vec<Vec<Box<dyn Proc + Send>>>,
    rt: &T,
) -> Result<(), DriveFault>
    requires stand { All (λ job. turns_of job ≤ MAX_TURNS) plan.jobs.items }
    requires few { length plan.jobs.items ≤ MAX_LINES }
    ensures { RunsPlan (asked_by plan) plan.size.line (W.log writer.old) result (W.log writer.new) }
{
    let Plan {
        size,
        collections,
        jobs,
        ..
    } = plan;
    let sections = Sections::of(jobs);
    let config = Config {
        blocks: size.blocks,
        frames: size.frames,
    };
    match Service::prepare(alloc, config, size.workers) {
        Ok(prepared) => run_prepared::<Brand, W, T>(
            alloc,
            writer,
            size.line,
            &sections,
            collections,
            prepared,
            procs,
            rt,
        ),
        Err(error) => Err(tell_refused(writer, error.refusal(), size.line)),
    }
}

/// Runs the threads file that the reader delivers, and writes its summary.
///
/// The whole file is read and checked before any thread starts. If no thread can be started, it fails with `NoMemory`. Otherwise each section runs on a
/// thread of its own, while the workers run. After all sections have ended, an open cycle is ended and the world is collected as often as the file says. Then
/// the workers finish the remaining entries. Each worker has the list of procedures at its index.
pub fn drive_threads<R: Source, W: Sink, T: Threads + Wait + Sync>(
    alloc: Global,
    reader: &mut R,
    writer: &mut W,
    procs: Vec<Vec<Box<dyn Proc + Send>>>,
    rt: &T,
) -> Result<(), DriveFault>
    ensures { DrivesThreads (R.feed reader.old) (W.log writer.old) result (R.feed reader.new) (W.log writer.new) }
{
    match read_plan(alloc, reader) {
        Ok(plan) => run_plan(alloc, writer, plan, procs, rt),
        Err(fault) => Err(tell_unreadable(writer, fault)),
    }
}

/// Carries out the sections of a plan over an open service, and then what the run ends with. Returns the seats, and how many of the sections' calls were
/// refused.
fn run_over<O: Opening + Send + Sync, R: Threads + Wait + Sync>(
    alloc: Global,
    service: &Service<O>,
    seats: Vec<Seat<O>>,
    plan: Plan,
    procs: Vec<Vec<Box<dyn Proc + Send>>>,
    rt: &R,
) -> (Vec<Seat<O>>, Result<u64, DriveFault>)
    requires stand { All (λ job. turns_of job ≤ MAX_TURNS) plan.jobs.items }
    requires few { length plan.jobs.items ≤ MAX_LINES }
    ensures seats { ExtendEach seats.items result.0.items }
    ensures refused { IfOk result.1 (SectionsRefused O.origin plan.jobs.items) }
    ensures fault { IfErr result.1 (λ fault. fault ≡ lineless Refusal.NoMemory) }
    ensures settled { Settles O.origin plan.collections }
{
    let Plan {
        collections,
        jobs,
        ..
    } = plan;
    let sections = Sections::of(jobs);
    let (seats, refused) = side_by_side(alloc, service, seats, &sections, collections, procs, rt);
    match refused {
        Ok(refused) => (seats, Ok(refused)),
        Err(_) => (seats, Err(lineless(Refusal::NoMemory))),
    }
}

/// The same over a service that is already open, whose size the file doesn't change. The workers of these seats run beside the sections; then an open cycle is
/// ended, and the world is collected as often as the file says. The service stays open. Returns the seats, and how many of the sections' calls were refused.
pub fn drive_sections<R: Source, O: Opening + Send + Sync, T: Threads + Wait + Sync>(
    alloc: Global,
    reader: &mut R,
    service: &Service<O>,
    seats: Vec<Seat<O>>,
    procs: Vec<Vec<Box<dyn Proc + Send>>>,
    rt: &T,
) -> (Vec<Seat<O>>, Result<u64, DriveFault>)
    ensures seats { ExtendEach seats.items result.0.items }
    ensures driven { DrivesSections O.origin (R.feed reader.old) result.1 (R.feed reader.new) }
{
    match read_plan(alloc, reader) {
        Ok(plan) => run_over(alloc, service, seats, plan, procs, rt),
        Err(fault) => (seats, Err(fault)),
    }
}
