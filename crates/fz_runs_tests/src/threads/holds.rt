//! How often a run takes the lock: once for each call in its file, and no more.

ghost use Rattle.std.specs.Prelude.{◌≡◌};

use crate::equal::must_be;
use fz_runs::{Failures, MemorySource, Pieces, drive_sections};
use fz_service::{Opening, Prepared, Service, retire_all};
use fz_world::Config;
use std::marker::Brand;
use std::process::Abort;
use std::sync::Wait;
use std::sync::ledger::{Blank, Ledger};
use std::thread::Threads;

/// Runs a file's sections with one worker, without procedures. Returns how often the lock was taken before this was asked.
fn holds_of<O: Opening + Send + Sync, I: Ledger, R: AllocGlobal + Abort + Threads + Wait + Sync>(
    rt: &R,
    prepared: Prepared,
    file: &[u8],
    input: Blank,
) -> u64
    requires named { prepared ≡ O.origin }
    requires input_name { input.name ≡ I.name }
    requires input_parts { (input.parts ≡ I.parts) × (I.parts ≡ 1) }
{
    let alloc = rt.alloc();
    let mut reader = MemorySource::new(file, Pieces::Whole, u64::MAX, Failures::<I>::none(input));
    let (service, seats) = Service::<O>::open(prepared).expect(rt, "memory");
    let (seats, refused) = drive_sections(alloc, &mut reader, &service, seats, Vec::new(alloc), rt);
    retire_all(seats);
    assert!(rt; refused.is_ok(), "the sections");
    service.enter(rt).holds().saturating_sub(1)
}

/// How often a run of a file over a world of this size takes the lock.
fn holds_over<R: AllocGlobal + Abort + Threads + Wait + Sync>(
    rt: &R,
    frames: u64,
    file: &[u8],
) -> u64 {
    let prepared = Service::prepare(rt.alloc(), Config { blocks: 1, frames }, 1);
    let prepared = prepared.expect(rt, "memory");
    holds_of::<Brand, Brand, R>(rt, prepared, file, Blank::new(1))
}

/// One of several runs of a file has to take the lock as often as is wanted, and none less often: on a busy machine a worker may take it once more.
fn takes<R: AllocGlobal + Abort + Threads + Wait + Sync>(
    rt: &R,
    frames: u64,
    file: &[u8],
    wanted: u64,
) {
    let mut holds = u64::MAX;
    for _ in 0..RUNS {
        if holds > wanted {
            holds = holds_over(rt, frames, file);
        }
    }
    must_be(rt, holds, wanted, "holds");
}

/// How many runs of a file there are at most.
const RUNS: u32 = 200;

/// Files over one block and frames, with how often their runs take the lock: once for each call, for the pause at the end and for each collection after it;
/// and for the worker once for up to 32 entries that a collection queued, since their procedures need no lock. The first ten files queue none.
const FILES: [(u64, &[u8], u64); 12] = [
    (1, b"open 1 1 1\nsettle 0\n", 1),
    (1, b"open 1 1 1\nsettle 3\n", 4),
    (1, b"open 1 1 1\nsettle 100\n", 101),
    (1, b"open 1 1 1\nsettle 0\nmutator\nset 0 0 1\n", 2),
    // refused calls take the lock too
    (
        1,
        b"open 1 1 1\nsettle 0\nmutator\nset 1 0 1\nnew 0 0 0 scanned\n",
        3,
    ),
    (
        1,
        b"open 1 1 1\nsettle 1\ncollector\ncollect\nbegin\nmark 1\npause\npause\n",
        7,
    ),
    // three calls for each turn
    (
        1,
        b"open 1 1 1\nsettle 0\nmutator\nchurn 20 0 0 1 scanned normal 0\n",
        61,
    ),
    // the last turns find no room; each of them makes one call
    (
        1,
        b"open 1 1 1\nsettle 0\nmutator\nchurn 100 0 0 1 scanned normal 0\n",
        229,
    ),
    (
        2,
        b"open 1 2 1\nsettle 0\nmutator\nset 0 0 1\nset 0 0 0\nmutator\ncopy 1 0 1 1\ncollector\nbegin\n",
        5,
    ),
    // a call of each other kind
    (
        1,
        b"open 1 1 1\nsettle 0\nmutator\nnew 0 0 2 scanned\nnew 0 1 2 scanned\nstore 0 0 0 0 1\nload 0 0 0 0 2\nlink short 0 0 1 0 1\nmove short 0 0 1 0 1 1\nunlink short 0 1 1\nregister 0 1 normal 0 0\nunregister 0 1\n",
        10,
    ),
    (
        1,
        b"open 1 1 1\nsettle 1\nmutator\nchurn 5 0 0 1 scanned normal 0\n",
        18,
    ),
    (
        1,
        b"open 1 1 1\nsettle 1\nmutator\nchurn 40 0 0 1 scanned normal 0\n",
        124,
    ),
];

#[test]
fn each_call_is_one_hold(rt: HostRuntime) {
    for (frames, file, wanted) in FILES {
        takes(&rt, frames, file, wanted);
    }
}
