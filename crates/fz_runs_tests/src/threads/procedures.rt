//! The procedures of threads files: what they do, and which of them workers call.

use super::wanted::accepted;
use super::{Outcome, run_with};
use crate::equal::must_be;
use fz_model::Entry;
use fz_model::ObjKind::Scanned;
use fz_model::RegKind::Normal;
use fz_runs::{Keep, Nothing, WHOLE};
use fz_service::{Proc, procedures};
use fz_world::{Config, World};
use std::alloc::Global;
use std::process::Abort;
use std::sync::Arc;
use std::sync::atomic::{AtomicU64, Ordering};
use std::test::Fail;

/// The only entry of the queue.
fn only(rt: &impl Abort, queue: &[Entry]) -> Entry {
    must_be(rt, queue.len(), 1, "entries");
    queue.first().copied().expect(rt, "an entry")
}

/// Drops a registered object and collects, then runs the procedure with its entry and finishes it. Returns the world, and how many objects the next
/// collection reclaims.
fn after<P: Proc>(rt: &impl Abort, alloc: Global, mut procedure: P) -> (World, u64) {
    let config = Config {
        blocks: 1,
        frames: 1,
    };
    let mut world = World::open(alloc, config).expect(rt, "memory");
    accepted(rt, "alloc", world.alloc(0, 0, 1, Scanned));
    accepted(rt, "register", world.register(0, 0, Normal, 0, 0, 0));
    accepted(rt, "set", world.set(0, 0, 0));
    accepted(rt, "collect", world.collect());
    let entry = only(rt, world.queue());
    procedure.work(&entry);
    procedure.run(&entry, &mut world);
    accepted(rt, "finish", world.finish(&entry));
    let passed = world.collect().expect(rt, "a pass");
    (world, passed.reclaimed)
}

#[test]
fn procedure_0_does_nothing(rt: HostRuntime) {
    let (_world, reclaimed) = after(&rt, rt.alloc(), Nothing);
    must_be(&rt, reclaimed, 1, "reclaimed");
}

#[test]
fn procedure_1_keeps_the_object_in_the_last_slot_of_the_first_frame(rt: HostRuntime) {
    let (mut world, reclaimed) = after(&rt, rt.alloc(), Keep);
    must_be(&rt, reclaimed, 0, "reclaimed");
    accepted(&rt, "load", world.load(0, 15, 0, 0, 0));
}

/// How often a procedure was called.
#[derive(Drop)]
struct Calls {
    works: AtomicU64,
    runs: AtomicU64,
}

impl Calls {
    fn none() -> Calls {
        Calls {
            works: AtomicU64::new(0),
            runs: AtomicU64::new(0),
        }
    }

    fn counts(&self) -> (u64, u64) {
        (
            self.works.load(Ordering::SeqCst),
            self.runs.load(Ordering::SeqCst),
        )
    }
}

/// A procedure that counts its calls.
#[derive(Drop)]
struct Counted(Arc<Calls, Global>);

impl Proc for Counted {
    fn work(&mut self, _entry: &Entry) {
        self.0.works.fetch_add(1, Ordering::SeqCst);
    }

    #[tactic(auto, using(fz_service::proofs::Running::runs_calls))]
    fn run(&mut self, _entry: &Entry, _world: &mut World) {
        self.0.runs.fetch_add(1, Ordering::SeqCst);
    }
}

const THREE_PROCEDURES: &[u8] = b"open 8 2 2\n\
    settle 2\n\
    mutator\n\
    churn 30 0 0 1 scanned normal 0\n\
    churn 5 0 0 1 scanned normal 2\n\
    mutator\n\
    churn 20 1 0 1 scanned normal 1\n";

/// The beginning of the summary: all entries are finished, after two passes.
const ALL_FINISHED: &[u8] = b"enqueued 55\nfinished 55\nforfeited 0\nleft 0\npasses 2\n";

fn finishes_all(rt: &impl Abort, outcome: &Outcome) {
    let finished = outcome.text.as_slice().starts_with(ALL_FINISHED);
    must_be(rt, finished, true, "all entries are finished");
}

/// Both workers have the two procedures, so it doesn't matter which of them takes an entry.
#[test]
fn each_entry_has_its_procedure_called_once(rt: HostRuntime) -> Result<(), Fail> {
    let zero = Arc::new(rt.alloc(), Calls::none())?;
    let one = Arc::new(rt.alloc(), Calls::none())?;
    let procs =
        procedures!(rt.alloc(); 2u64; Counted(Arc::try_clone(&zero)?), Counted(Arc::try_clone(&one)?));
    let outcome = run_with(&rt, THREE_PROCEDURES, WHOLE, procs);
    finishes_all(&rt, &outcome);
    must_be(&rt, zero.counts(), (30, 30), "calls of procedure 0");
    must_be(&rt, one.counts(), (20, 20), "calls of procedure 1");
    Ok(())
}

/// Workers without lists of procedures finish all entries.
#[test]
fn workers_need_no_lists(rt: HostRuntime) -> Result<(), Fail> {
    let outcome = run_with(&rt, THREE_PROCEDURES, WHOLE, Vec::new(rt.alloc()));
    finishes_all(&rt, &outcome);
    Ok(())
}
