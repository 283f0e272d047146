//! Running a program while workers serve.

ghost use Rattle.std.specs.Prelude.{◌≡◌, ◌++◌, ◌∷◌, [], length, None, IfErr, IfOk, IfSome, IsSomeAnd};
ghost use Rattle.std.specs.Thread.{IsSend, IsSync};
ghost use Rattle.fz_model.specs.Causes.{IsJudgedOrLacks, bad_count};
ghost use Rattle.fz_model.specs.declared.limits.TheConstants.{MAX_WORKERS};
ghost use Rattle.fz_model.specs.declared.refusal.Refusal.TheVariants.{NoMemory};
ghost use Rattle.fz_world.specs.Does.{open_causes};
ghost use Rattle.fz_service.specs.Ends.{IsEndOfSize};
ghost use Rattle.fz_service.specs.Workers.{ExtendEach, KeepSizes};

use crate::bell::Stop;
use crate::ending::Final;
use crate::opening::Opening;
use crate::prepared::Prepared;
use crate::room::ServiceError;
use crate::seat::{Seat, retire_all};
use crate::service::Service;
use crate::workers::{Gate, OpenGate, Proc};
use fz_world::Config;
use std::alloc::Global;
use std::marker::Brand;
use std::sync::Wait;
use std::thread::Threads;
use std::{mem, thread};

impl<O: Opening> Service<O> {
    /// Runs workers as `run_workers` does, and meanwhile `main` on the calling thread; returns the seats, in order, and what `main` returned. When `main` has
    /// ended, the workers take what was sent, and stop. May block.
    pub fn run_beside<T, F: FnOnce() -> T, G: Gate + Sync, R: Threads + Wait + Sync>(
        &self,
        seats: Vec<Seat<O>>,
        procs: &mut [Vec<Box<dyn Proc + Send>>],
        gate: &G,
        rt: &R,
        main: F,
    ) -> (Vec<Seat<O>>, T)
    where
        O: Send + Sync,
        requires { F.pre main }
        ensures seats { ExtendEach seats.items result.0.items }
        // Each list is where it was, with as many procedures.
        ensures lists { KeepSizes (λ list. length list.items) procs.old procs.new }
        ensures main { F.post main result.1 }
    {
        let stop = Stop::new(&self.bell);
        let alloc = *seats.allocator();
        let mut given = seats;
        let mut program = Some(main);
        let mut serve = || -> Vec<Seat<O>>
            requires { IsSync G.row × IsSync R.row × IsSend O.row × IsSync O.row }
            ensures { ExtendEach given.entry.items result.items × KeepSizes (λ list. length list.items) procs.entry.now procs.exit.now }
        {
            self.run_workers(
                mem::replace(&mut given, Vec::new(alloc)),
                procs,
                gate,
                stop.flag(),
                rt,
            )
        };
        let mut lead = || -> T
            requires { IsSomeAnd program (λ main. F.pre main) }
            ensures { IfSome program.entry (λ main. F.post main result) × (program.exit ≡ None) }
        {
            let Some(main) = mem::replace(&mut program, None) else {
                unreachable!()
            };
            let answer = main();
            stop.set();
            answer
        };
        // If no thread can be started, the first closure runs after the second. So the workers have to be the first one: in the other order they would wait
        // for ever.
        let (back, answer) = thread::join_mut(rt, &mut serve, &mut lead);
        let None = program else { unreachable!() };
        retire_all(given);
        (back, answer)
    }
}

/// A program that runs while the workers of a service serve, for `with_service`. `R` is its runtime, and it returns a `T`.
pub trait Program<R: Wait, T> {
    /// Runs on the calling thread while workers serve. When it has ended, the workers are stopped. It starts no threads of its own; use `run_beside` for
    /// that.
    fn run<O: Opening>(self, service: &Service<O>, rt: &R) -> T;
}

/// Opens a service of this size with this number of workers, runs the program while they serve, and ends the service. Returns what the program returned, and
/// the totals. May block.
///
/// The first worker has the first list of procedures, and so on; a worker without a list calls none. Fails with, in this order: `BadCount` if blocks or frames
/// are outside the limits of `Config`, or workers aren't from 1 to 8, `NoMemory` if an allocation fails. If ending the service fails, what the program returned
/// is dropped.
pub fn with_service<T: Drop, P: Program<R, T> + Drop, R: Threads + Wait + Sync>(
    alloc: Global,
    config: Config,
    workers: u64,
    mut procs: Vec<Vec<Box<dyn Proc + Send>>>,
    rt: &R,
    program: P,
) -> Result<(T, Final), ServiceError>
    ensures judged { IsJudgedOrLacks (open_causes config.blocks config.frames ++ bad_count MAX_WORKERS workers ∷ []) result }
    ensures ended { IfOk result (λ told. IsEndOfSize config.blocks config.frames workers told.1) }
{
    let prepared = Service::prepare(alloc, config, workers)?;
    open_and_run::<Brand, T, P, R>(prepared, procs.as_mut_slice(), rt, program)
}

/// Opens the service, runs the program while its workers serve, and ends it.
fn open_and_run<
    O: Opening + Send + Sync,
    T: Drop,
    P: Program<R, T> + Drop,
    R: Threads + Wait + Sync,
>(
    prepared: Prepared,
    procs: &mut [Vec<Box<dyn Proc + Send>>],
    rt: &R,
    program: P,
) -> Result<(T, Final), ServiceError>
    requires { prepared ≡ O.origin }
    ensures refused { IfErr result (λ refusal. refusal ≡ NoMemory) }
    ensures ended { IfOk result (λ told. IsEndOfSize O.origin.blocks O.origin.frames O.origin.workers told.1) }
{
    let (service, seats) = Service::<O>::open(prepared)?;
    let (seats, told) = service.run_beside(
        seats,
        procs,
        &OpenGate,
        rt,
        || program.run(&service, rt),
    );
    let end = service.conclude(seats)?;
    Ok((told, end))
}
