//! Idle workers, and how soon a sleeping worker takes an entry.

use crate::finalizers::Nothing;
use crate::finishing::make;
use fz_service::{Gate, OpenGate, Opening, Proc, Seat, Service, procedures, retire_all};
use std::alloc::Global;
use std::rt::Clock;
use std::sync::Wait;
use std::sync::atomic::{AtomicU64, Ordering};
use std::thread::Threads;
use std::time::{Duration, Instant};
use std::{io, mem, thread};

/// How many milliseconds the workers are idle before an entry is queued, so that all of them sleep.
const PAUSE: u64 = 5;

/// A hook that records when it was called for an entry, in nanoseconds since its creation.
#[derive(Drop)]
struct Watch<'a, R> {
    rt: &'a R,
    start: Instant,
    taken: AtomicU64,
}

impl<R: Clock> Watch<'_, R> {
    fn now(&self) -> u64 {
        match self.start.elapsed(self.rt) {
            Ok(since) => u64::try_from(since.as_nanos()).unwrap_or(u64::MAX),
            Err(_) => u64::MAX,
        }
    }
}

impl<R: Clock> Gate for Watch<'_, R> {
    fn entered(&self, _seq: u64) {
        self.taken.store(self.now(), Ordering::SeqCst);
    }
}

/// The nanoseconds during which workers were idle for this number of milliseconds, including their start and end.
pub(crate) fn idle<O: Opening + Send + Sync, R: Clock + Threads + Wait + Sync>(
    rt: &R,
    alloc: Global,
    service: &Service<O>,
    seats: &mut Vec<Seat<O>>,
    milliseconds: u64,
) -> io::Result<u128> {
    let workers = seats.len();
    let mut procs = procedures!(alloc; workers; Nothing);
    let start = Instant::now(rt)?;
    let given = mem::replace(seats, Vec::new(alloc));
    let (back, _) = service.run_beside(given, procs.as_mut_slice(), &OpenGate, rt, || {
        thread::sleep(rt, Duration::from_millis(milliseconds))
    });
    let elapsed = start.elapsed(rt);
    retire_all(mem::replace(seats, back));
    Ok(elapsed?.as_nanos())
}

/// Collects one registered object while all workers sleep. Returns the nanoseconds until one of them took its entry.
fn wake_one<O: Opening, R: Clock + Wait>(rt: &R, service: &Service<O>, watch: &Watch<R>) -> u64 {
    make(rt, service, 1);
    thread::sleep(rt, Duration::from_millis(PAUSE));
    watch.taken.store(0, Ordering::SeqCst);
    let before = watch.now();
    let _ = service.enter(rt).collect();
    for _ in rt.forever() {
        let taken = watch.taken.load(Ordering::SeqCst);
        if taken > 0 {
            return taken.saturating_sub(before);
        }
        thread::sleep(rt, Duration::from_millis(PAUSE));
    }
    unreachable!()
}

/// The nanoseconds for this number of entries, each from its collection until a sleeping worker took it.
fn wake_each<O: Opening, R: Clock + Wait>(
    rt: &R,
    alloc: Global,
    service: &Service<O>,
    watch: &Watch<R>,
    count: u64,
) -> io::Result<Vec<u64>> {
    let mut delays = Vec::new(alloc);
    for _ in 0..count {
        delays.push(wake_one(rt, service, watch))?;
    }
    Ok(delays)
}

/// The median of these, for workers without other work. `None` if there are none.
pub(crate) fn wake<O: Opening + Send + Sync, R: Clock + Threads + Wait + Sync>(
    rt: &R,
    alloc: Global,
    service: &Service<O>,
    seats: &mut Vec<Seat<O>>,
    count: u64,
) -> io::Result<Option<u128>> {
    let workers = seats.len();
    let mut procs = procedures!(alloc; workers; Nothing);
    let watch = Watch {
        rt,
        start: Instant::now(rt)?,
        taken: AtomicU64::new(0),
    };
    let given = mem::replace(seats, Vec::new(alloc));
    let (back, delays) = service.run_beside(given, procs.as_mut_slice(), &watch, rt, || {
        wake_each(rt, alloc, service, &watch, count)
    });
    retire_all(mem::replace(seats, back));
    let mut delays = delays?;
    delays.sort_unstable();
    Ok(delays.get(delays.len() / 2).map(|delay| u128::from(*delay)))
}
