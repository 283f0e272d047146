//! One service, from its opening to its end.

ghost use Rattle.std.specs.Prelude.{◌≡◌};

use crate::finalizers::Procedure;
use crate::finishing::finish_all;
use crate::idle::{idle, wake};
use crate::steps::enter_and_set;
use fz_service::{Opening, Prepared, Service};
use std::alloc::Global;
use std::io;
use std::rt::Clock;
use std::sync::Wait;
use std::thread::Threads;

/// What is timed over a service.
#[derive(Clone, Copy)]
pub(crate) enum Test {
    Steps,
    Workers(Procedure),
    Idle,
    Wake,
}

/// The nanoseconds of the test; `None` if it is too large, or if not all of its entries were finished.
pub(crate) fn run<O: Opening + Send + Sync, R: Clock + Threads + Wait + Sync>(
    rt: &R,
    alloc: Global,
    prepared: Prepared,
    test: Test,
    count: u64,
) -> io::Result<Option<u128>>
    requires { prepared ≡ O.origin }
{
    let Ok((service, mut seats)) = Service::<O>::open(prepared) else {
        return Ok(None);
    };
    let nanoseconds = match test {
        Test::Steps => enter_and_set(rt, &service, count).map(Some),
        Test::Workers(procedure) => {
            finish_all(rt, alloc, &service, &mut seats, procedure, count)
        }
        Test::Idle => idle(rt, alloc, &service, &mut seats, count).map(Some),
        Test::Wake => wake(rt, alloc, &service, &mut seats, count),
    };
    let due = match test {
        Test::Steps | Test::Idle => 0,
        Test::Workers(_) | Test::Wake => count,
    };
    match service.conclude(seats) {
        Ok(end) if end.finished == due => nanoseconds,
        _ => Ok(None),
    }
}
