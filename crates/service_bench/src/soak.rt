//! Long-lived worlds: objects are finalized in rounds, and their entries are forgotten.

ghost use Rattle.std.specs.Prelude.{◌≡◌};

use crate::finalizers::Nothing;
use crate::finishing::make as make_registered;
use fz_model::{ObjKind, RegKind};
use fz_service::{OpenGate, Opening, Prepared, Proc, Seat, Service, Take, procedures, retire_all};
use fz_world::{Config, World};
use std::alloc::Global;
use std::sync::Wait;
use std::thread::Threads;
use std::{io, thread};

/// How many objects are allocated, dropped and finalized in a round.
const ROUND: u64 = 10_000;

/// The entries of a part. The first entry of a part is abandoned, and the number of entries is printed after it.
const PART: u64 = 100_000;

/// The size of a soak's world.
pub(crate) const CONFIG: Config = Config {
    blocks: 1_024,
    frames: 1,
};

/// Allocates a round's unreachable objects, each registered. Returns whether all calls succeeded.
fn make(world: &mut World) -> bool {
    for _ in 0..ROUND {
        let made = world.alloc(0, 0, 1, ObjKind::Atomic).is_ok()
            && world.register(0, 0, RegKind::Normal, 0, 0, 0).is_ok();
        if !made {
            return false;
        }
    }
    world.set(0, 0, 0).is_ok()
}

/// Finishes the entries from a number on, except for those that are abandoned, and forgets them. Returns how many were ever queued.
fn finish_from(world: &mut World, from: u64) -> u64 {
    let end = world.queued();
    for number in from..end {
        if number % PART != 0
            && let Some(entry) = world.next(number)
        {
            let _ = world.finish(&entry);
        }
    }
    world.forget();
    end
}

/// Prints the number of entries after each part.
fn report<R: Print>(rt: &R, queued: u64) -> io::Result<()> {
    if queued % PART == 0 {
        println!(rt; "{queued}")?;
    }
    Ok(())
}

/// Finalizes `count` objects in a world alone. Returns whether all calls succeeded.
pub(crate) fn soak_world<R: Print>(rt: &R, alloc: Global, count: u64) -> io::Result<bool> {
    let Ok(mut world) = World::open(alloc, CONFIG) else {
        return Ok(false);
    };
    let mut taken = 0;
    for _ in 0..count.div_ceil(ROUND) {
        if !make(&mut world) || world.collect().is_err() {
            return Ok(false);
        }
        taken = finish_from(&mut world, taken);
        report(rt, taken)?;
    }
    Ok(true)
}

/// Takes the first entry of the line, if there is one, and abandons it.
fn give_up<O: Opening>(seat: Seat<O>) -> Seat<O> {
    match seat.take() {
        Take::Taken(duty) => duty.forfeit(),
        Take::Empty(seat) | Take::Busy(seat) => seat,
    }
}

/// Allocates a round of objects and collects. Returns how many entries were ever queued, if all calls succeeded.
fn collect_round<O: Opening, R: Wait>(rt: &R, service: &Service<O>) -> Option<u64> {
    if !make_registered(rt, service, ROUND) {
        return None;
    }
    let mut locked = service.enter(rt);
    locked.collect().ok()?;
    Some(locked.queued())
}

/// Waits until the workers have finished all entries but the abandoned ones, and forgets them.
fn forget_round<O: Opening, R: Wait>(rt: &R, service: &Service<O>, given_up: u64) {
    for _ in rt.forever() {
        if service.enter(rt).outstanding() <= given_up {
            break;
        }
        thread::yield_now();
    }
    service.enter(rt).forget();
}

/// Finalizes the remaining objects of a part by the workers. Returns how many entries were ever queued, if all calls succeeded.
fn run_rounds<O: Opening, R: Wait>(rt: &R, service: &Service<O>, given_up: u64) -> Option<u64> {
    forget_round(rt, service, given_up);
    let mut queued = 0;
    for _ in 1..PART / ROUND {
        queued = collect_round(rt, service)?;
        forget_round(rt, service, given_up);
    }
    Some(queued)
}

/// Finalizes objects by workers until `count` entries were queued. Before each part it takes an entry by its own seat, and abandons it. Returns the seats,
/// its own last, and whether all calls succeeded.
fn run_parts<O: Opening + Send + Sync, R: Print + Threads + Wait + Sync>(
    rt: &R,
    service: &Service<O>,
    mut seats: Vec<Seat<O>>,
    mut own: Seat<O>,
    procs: &mut [Vec<Box<dyn Proc + Send>>],
    count: u64,
) -> (Vec<Seat<O>>, Seat<O>, io::Result<bool>) {
    for _ in 0..count.div_ceil(PART) {
        if collect_round(rt, service).is_none() {
            return (seats, own, Ok(false));
        }
        own = give_up(own);
        let given_up = own.forfeited();
        let (back, ran) = service.run_beside(
            seats,
            procs,
            &OpenGate,
            rt,
            || run_rounds(rt, service, given_up),
        );
        seats = back;
        let Some(queued) = ran else {
            return (seats, own, Ok(false));
        };
        if let Err(error) = report(rt, queued) {
            return (seats, own, Err(error));
        }
    }
    (seats, own, Ok(true))
}

/// Finalizes `count` objects by a service with workers, which leaves only the abandoned entries. Returns whether that succeeded.
pub(crate) fn soak_service<O: Opening + Send + Sync, R: Print + Threads + Wait + Sync>(
    rt: &R,
    alloc: Global,
    prepared: Prepared,
    workers: u64,
    count: u64,
) -> io::Result<bool>
    requires { prepared ≡ O.origin }
{
    let mut procs = procedures!(alloc; workers; Nothing);
    let Ok((service, mut seats)) = Service::<O>::open(prepared) else {
        return Ok(false);
    };
    let Some(own) = seats.pop() else {
        retire_all(seats);
        return Ok(false);
    };
    let (mut seats, own, ran) = run_parts(rt, &service, seats, own, procs.as_mut_slice(), count);
    let given_up = own.forfeited();
    if let Err(failed) = seats.push(own) {
        failed.value.retire();
    }
    match service.conclude(seats) {
        Ok(end) => Ok(ran? && end.forfeited == given_up && end.left.is_empty()),
        Err(_) => Ok(false),
    }
}
