//! service_bench TEST WORKERS COUNT: prints the nanoseconds that a test of the service takes.
//!
//! `mutex` takes a bare lock COUNT times and writes a word each time. `step` enters a service COUNT times and sets a slot each time. `workers` collects COUNT
//! unreachable registered objects while WORKERS workers run on threads of their own, and ends when they have finished all entries. `busy` is the same with a
//! procedure that works for about 2 microseconds. `mutex` and `step` use no workers. `bench/run` calls this program.
//!
//! `idle` leaves WORKERS workers idle for COUNT milliseconds. `wake` prints a median over COUNT entries: the nanoseconds from a collection that queues an
//! entry while all workers sleep, until one of them has taken it.
//!
//! `soak` finalizes COUNT objects in rounds, and forgets their entries after each round: with a service and WORKERS workers, or in a world alone if WORKERS
//! is 0. It abandons the first of each 100,000 entries, and then prints how many there were, so that `tests/soak-memory` can measure its memory.
#![tactic(auto)]

mod bare;
mod finalizers;
mod finishing;
mod idle;
mod session;
mod soak;
mod steps;

use bare::lock_bare;
use finalizers::Procedure;
use fz_service::Service;
use fz_world::Config;
use session::{Test, run};
use soak::{soak_service, soak_world};
use std::alloc::Global;
use std::marker::Brand;
use std::process::ExitCode;
use std::rt::Clock;
use std::sync::Wait;
use std::thread::Threads;
use std::{env, io};

fn main(rt: HostRuntime) -> io::Result<ExitCode> {
    let mut words = env::args(&rt)?.skip(1);
    let (Some(test), Some(workers), Some(count), None) = (
        words.next(),
        words.next(),
        words.next(),
        words.next(),
    ) else {
        return wrong(&rt);
    };
    let (Ok(workers), Ok(count)) = (workers.parse::<u64>(), count.parse::<u64>()) else {
        return wrong(&rt);
    };
    let nanoseconds = match test.as_str() {
        "mutex" => Some(lock_bare(&rt, count)?),
        "step" => of_service(&rt, rt.alloc(), Test::Steps, count, workers)?,
        "workers" => {
            let test = Test::Workers(Procedure::Nothing);
            of_service(&rt, rt.alloc(), test, count, workers)?
        }
        "busy" => {
            let test = Test::Workers(Procedure::Busy);
            of_service(&rt, rt.alloc(), test, count, workers)?
        }
        "idle" => of_service(&rt, rt.alloc(), Test::Idle, count, workers)?,
        "wake" => of_service(&rt, rt.alloc(), Test::Wake, count, workers)?,
        "soak" if workers == 0 => return soaked(soak_world(&rt, rt.alloc(), count)?),
        "soak" => return soaked(soak_by_workers(&rt, rt.alloc(), workers, count)?),
        _ => return wrong(&rt),
    };
    match nanoseconds {
        Some(nanoseconds) => println!(rt; "{nanoseconds}")?,
        None => println!(rt; "-")?,
    }
    Ok(ExitCode::from(0))
}

/// Whether a soak by a service succeeded. Its last seat belongs to the program itself.
fn soak_by_workers<R: Print + Threads + Wait + Sync>(
    rt: &R,
    alloc: Global,
    workers: u64,
    count: u64,
) -> io::Result<bool> {
    match Service::prepare(alloc, soak::CONFIG, workers.saturating_add(1)) {
        Ok(prepared) => soak_service::<Brand, R>(rt, alloc, prepared, workers, count),
        Err(_) => Ok(false),
    }
}

/// The exit status of a soak.
fn soaked(all: bool) -> io::Result<ExitCode> {
    Ok(ExitCode::from(u8::from(!all)))
}

fn wrong(rt: &impl Eprint) -> io::Result<ExitCode> {
    eprintln!(rt;
        "service_bench: want mutex, step, workers, busy, idle, wake or soak, WORKERS and COUNT"
    )?;
    Ok(ExitCode::from(2))
}

/// The nanoseconds of a test over a service; `None` if the test is too large.
fn of_service<R: Clock + Threads + Wait + Sync>(
    rt: &R,
    alloc: Global,
    test: Test,
    count: u64,
    workers: u64,
) -> io::Result<Option<u128>> {
    let config = Config {
        blocks: 1_024,
        frames: 1,
    };
    match Service::prepare(alloc, config, workers) {
        Ok(prepared) => run::<Brand, R>(rt, alloc, prepared, test, count),
        Err(_) => Ok(None),
    }
}
