//! From one collection to the last finished entry.

use crate::finalizers::{Busy, Nothing, Procedure};
use fz_model::{ObjKind, RegKind};
use fz_service::{OpenGate, Opening, Proc, Seat, Service, procedures, retire_all};
use std::alloc::Global;
use std::rt::Clock;
use std::sync::Wait;
use std::thread::Threads;
use std::time::Instant;
use std::{io, mem};

/// Allocates `count` unreachable objects of one word, each registered. Returns whether all calls succeeded.
pub(crate) fn make<O: Opening, R: Wait>(rt: &R, service: &Service<O>, count: u64) -> bool {
    let mut locked = service.enter(rt);
    for _ in 0..count {
        let made = locked.alloc(0, 0, 1, ObjKind::Atomic).is_ok()
            && locked.register(0, 0, RegKind::Normal, 0, 0, 0).is_ok();
        if !made {
            return false;
        }
    }
    locked.set(0, 0, 0).is_ok()
}

/// The nanoseconds from a collection until workers with these procedures have finished all entries that it queued; and the seats.
fn time<O: Opening + Send + Sync, R: Clock + Threads + Wait + Sync>(
    rt: &R,
    alloc: Global,
    service: &Service<O>,
    seats: &mut Vec<Seat<O>>,
    mut procs: Vec<Vec<Box<dyn Proc + Send>>>,
) -> io::Result<u128> {
    let start = Instant::now(rt)?;
    let given = mem::replace(seats, Vec::new(alloc));
    let (back, _) = service.run_beside(given, procs.as_mut_slice(), &OpenGate, rt, || {
        service.enter(rt).collect()
    });
    let elapsed = start.elapsed(rt);
    retire_all(mem::replace(seats, back));
    Ok(elapsed?.as_nanos())
}

/// The nanoseconds from a collection of `count` registered objects until workers with this procedure have finished all their entries; and the seats. `None`
/// if there is no room for the objects.
pub(crate) fn finish_all<O: Opening + Send + Sync, R: Clock + Threads + Wait + Sync>(
    rt: &R,
    alloc: Global,
    service: &Service<O>,
    seats: &mut Vec<Seat<O>>,
    procedure: Procedure,
    count: u64,
) -> io::Result<Option<u128>> {
    if !make(rt, service, count) {
        return Ok(None);
    }
    let workers = seats.len();
    let nanoseconds = match procedure {
        Procedure::Nothing => {
            let procs = procedures!(alloc; workers; Nothing);
            time(rt, alloc, service, seats, procs)?
        }
        Procedure::Busy => {
            let procs = procedures!(alloc; workers; Busy { word: 1 });
            time(rt, alloc, service, seats, procs)?
        }
    };
    Ok(Some(nanoseconds))
}
