//! A program over a service, from its opening to its end.

ghost use Rattle.std.specs.Prelude.{◌≡◌};
ghost use Rattle.fz_service.specs.States.{RunsCalls};

use super::wanted::{accepted, count_seats, same};
use super::{make_and_drop, opened, prepared};
use fz_model::{Entry, Passed, Refusal};
use fz_service::{Opening, Prepared, Proc, Program, Service, procedures, with_service};
use fz_world::{Config, World};
use std::alloc::Global;
use std::marker::Brand;
use std::process::Abort;
use std::sync::atomic::{AtomicU64, Ordering};
use std::sync::{Arc, Wait};
use std::test::*;

/// A procedure that counts its entries.
#[derive(Drop)]
struct Counts(Arc<AtomicU64, Global>);

impl Proc for Counts {
    fn work(&mut self, _entry: &Entry) {
        self.0.fetch_add(1, Ordering::SeqCst);
    }
}

/// Queues this number of entries, and returns it.
#[derive(Drop)]
struct Queues(u64);

impl<R: Abort + Wait> Program<R, u64> for Queues {
    fn run<O: Opening>(self, service: &Service<O>, rt: &R) -> u64 {
        for _ in 0..self.0 {
            make_and_drop(rt, &mut service.enter(rt));
        }
        accepted(rt, "collect", service.enter(rt).collect());
        self.0
    }
}

#[test]
fn a_program_runs_beside_its_workers(rt: HostRuntime) -> Result<(), Fail> {
    let config = Config {
        blocks: 4,
        frames: 1,
    };
    let count = Arc::new(rt.alloc(), AtomicU64::new(0))?;
    let procs =
        procedures!(rt.alloc(); 2u64; Counts(Arc::try_clone(&count)?), Counts(Arc::try_clone(&count)?));
    let (told, end) = with_service(rt.alloc(), config, 2, procs, &rt, Queues(100)).expect(
        &rt, "memory",
    );
    same(&rt, "told", told, 100);
    same(&rt, "worked on", count.load(Ordering::SeqCst), 100);
    let counts = (end.enqueued, end.finished, end.left.len());
    same(&rt, "queued, finished and left", counts, (100, 100, 0));
    Ok(())
}

#[test]
fn nine_workers_are_refused(rt: HostRuntime) {
    let config = Config {
        blocks: 4,
        frames: 1,
    };
    let lists = Vec::new(rt.alloc());
    match with_service(rt.alloc(), config, 9, lists, &rt, Queues(1)) {
        Ok(_) => panic!(&rt; "nine workers"),
        Err(error) => same(&rt, "the refusal", error.refusal(), Refusal::BadCount),
    }
}

/// A collection, as a procedure may make it.
#[tactic(auto, using(fz_service::proofs::Running::runs_calls))]
fn collects_alone(world: &mut World) -> Result<Passed, Refusal>
    ensures { RunsCalls world.old world.new }
{
    world.collect()
}

/// Entries queued while the caller uses the world are sent; ending the service without all seats fails.
fn lends_the_world<O: Opening, R: Abort + Wait>(rt: &R, prepared: Prepared)
    requires { prepared ≡ O.origin }
{
    let (service, mut seats) = opened::<O>(rt, prepared);
    let mut locked = service.enter(rt);
    make_and_drop(rt, &mut locked);
    let passed = locked.with_world(|world| collects_alone(world));
    same(rt, "picked", passed.map(|passed| passed.picked), Ok(1));
    same(rt, "not sent", locked.outbox().len(), 0);
    drop(locked);
    count_seats(rt, seats.as_slice(), 2);
    let other = seats.remove(1);
    match service.conclude(seats) {
        Ok(_) => {
            other.retire();
            panic!(rt; "a seat is missing")
        }
        Err(error) => {
            other.retire();
            same(rt, "the refusal", error.refusal(), Refusal::SeatsMissing);
        }
    }
}

#[test]
fn a_lent_world_sends_what_it_queued(rt: HostRuntime) {
    let prepared = prepared(&rt, rt.alloc(), 2);
    lends_the_world::<Brand, HostRuntime>(&rt, prepared);
}
