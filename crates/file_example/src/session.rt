//! One service, from its opening to its end.

ghost use Rattle.std.specs.Prelude.{◌≡◌};

use crate::files::OpenFiles;
use crate::mutator::mutate;
use crate::owners;
use crate::owners::{CACHE, CLOSED};
use anyhow::Result;
use fz_service::{Final, OpenGate, Opening, Prepared, Proc, Service};
use std::fs::File;
use std::rt::Files;
use std::sync::{Mutex, Wait};
use std::thread::Threads;

/// A list of procedures for each worker.
type Procs = Vec<Vec<Box<dyn Proc + Send>>>;

/// Opens the service, runs the mutator and the workers concurrently, ends the service, and prints the totals.
pub(crate) fn run<O: Opening + Send + Sync, R: Files<File = File> + Print + Threads + Wait + Sync>(
    rt: &R,
    prepared: Prepared,
    mut procs: Procs,
    files: &Mutex<OpenFiles>,
    names: &[String],
) -> Result<()>
    requires { prepared ≡ O.origin }
{
    let (service, seats) = Service::<O>::open(prepared)?;
    let (seats, mutated) = service.run_beside(seats, procs.as_mut_slice(), &OpenGate, rt, || {
        mutate(rt, &service, files, names)
    });
    let printed = mutated.and_then(|()| print_files(rt, &service, files, names.len() as u64));
    let end = service.conclude(seats);
    printed?;
    print_end(rt, &end?)
}

/// Collects what the finished entries retained, and prints what became of the files.
fn print_files<O: Opening, R: Print + Wait>(
    rt: &R,
    service: &Service<O>,
    files: &Mutex<OpenFiles>,
    opened: u64,
) -> Result<()> {
    let mut locked = service.enter(rt);
    locked.collect()?;
    let cached = locked.with_world(|world| owners::count(world, CACHE, opened));
    let noted = locked.with_world(|world| owners::count(world, CLOSED, opened));
    drop(locked);
    let closed = files.lock(rt).removed();
    println!(rt;
        "opened {opened}, still cached {}, closed {closed}, noted {}",
        cached?, noted?
    )?;
    Ok(())
}

/// Prints the totals.
fn print_end<R: Print>(rt: &R, end: &Final) -> Result<()> {
    let (queued, finished, abandoned) = (end.enqueued, end.finished, end.forfeited);
    println!(rt; "queued {queued}, finished {finished}, abandoned {abandoned}")?;
    let (left, reclaimed) = (end.left.len(), end.reclaimed);
    println!(rt; "left {left}, reclaimed {reclaimed}")?;
    Ok(())
}
