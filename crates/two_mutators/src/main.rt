//! two_mutators: two threads allocate objects, each in a frame of its own, while two workers run the finalizers of dropped objects.
#![tactic(auto)]

ghost use Rattle.std.specs.Prelude.{◌≡◌};

use anyhow::Result;
use fz_model::ObjKind::Scanned;
use fz_model::RegKind::Normal;
use fz_model::{Entry, Refusal};
use fz_service::{OpenGate, Opening, Prepared, Proc, Service, procedures};
use fz_world::Config;
use std::alloc::Global;
use std::marker::Brand;
use std::sync::atomic::{AtomicU64, Ordering};
use std::sync::{Arc, Wait};
use std::thread;
use std::thread::Threads;

/// A finalizer that counts its calls. It is procedure 0.
#[derive(Drop)]
struct Counts(Arc<AtomicU64, Global>);

impl Proc for Counts {
    fn work(&mut self, _entry: &Entry) {
        self.0.fetch_add(1, Ordering::SeqCst);
    }
}

/// Allocates an object into slot 0 of the frame, and registers it. While the heap is full of objects that wait for workers, it yields and tries again.
fn make<O: Opening, R: Wait>(
    rt: &R,
    service: &Service<O>,
    frame: u64,
    number: u64,
) -> Result<(), Refusal> {
    for _ in rt.forever() {
        let mut locked = service.enter(rt);
        match locked.alloc_or_collect(frame, 0, 4, Scanned) {
            Err(Refusal::NoSpace) if locked.outstanding() > 0 => {}
            Err(refusal) => return Err(refusal),
            Ok(_) => return locked.register(frame, 0, Normal, 0, number, 0).map(drop),
        }
        drop(locked);
        thread::yield_now();
    }
    unreachable!()
}

/// Allocates 100 objects, each of which replaces the one before, and drops the last.
fn mutate<O: Opening, R: Wait>(rt: &R, service: &Service<O>, frame: u64) -> Result<(), Refusal> {
    for number in 0..100 {
        make(rt, service, frame, number)?;
    }
    service.enter(rt).set(frame, 0, 0)
}

/// Collects until every entry is finished and nothing more is queued.
fn settle<O: Opening, R: Wait>(rt: &R, service: &Service<O>) -> Result<(), Refusal> {
    for _ in rt.forever() {
        let mut locked = service.enter(rt);
        locked.publish();
        if locked.outstanding() == 0 && locked.collect()?.picked == 0 {
            return Ok(());
        }
        drop(locked);
        thread::yield_now();
    }
    unreachable!()
}

/// Runs two mutators, and settles after both have ended.
fn run_both<O: Opening + Send + Sync, R: Threads + Wait + Sync>(
    rt: &R,
    service: &Service<O>,
) -> Result<(), Refusal> {
    let (first, second) = thread::join(rt, || mutate(rt, service, 0), || mutate(rt, service, 1));
    first?;
    second?;
    settle(rt, service)
}

fn run<O: Opening + Send + Sync, R: Print + Threads + Wait + Sync>(
    rt: &R,
    prepared: Prepared,
    mut procs: Vec<Vec<Box<dyn Proc + Send>>>,
) -> Result<()>
    requires { prepared ≡ O.origin }
{
    let (service, seats) = Service::<O>::open(prepared)?;
    let (seats, ran) = service.run_beside(seats, procs.as_mut_slice(), &OpenGate, rt, || {
        run_both(rt, &service)
    });
    let end = service.conclude(seats)?;
    ran?;
    println!(rt; "finished {}, left {}", end.finished, end.left.len())?;
    Ok(())
}

fn main(rt: HostRuntime) -> Result<()> {
    let count = Arc::new(rt.alloc(), AtomicU64::new(0))?;
    let procs = procedures!(rt.alloc(); 2u64; Counts(Arc::try_clone(&count)?));
    let config = Config {
        blocks: 2,
        frames: 2,
    };
    let prepared = Service::prepare(rt.alloc(), config, 2)?;
    run::<Brand, HostRuntime>(&rt, prepared, procs)?;
    println!(rt; "called {}", count.load(Ordering::SeqCst))?;
    Ok(())
}
