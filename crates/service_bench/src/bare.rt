//! A bare lock, for comparison.

use std::io;
use std::rt::Clock;
use std::sync::{Mutex, Wait};
use std::time::Instant;

/// The nanoseconds for taking a lock `count` times, and writing a word under it each time.
pub(crate) fn lock_bare<R: Clock + Wait>(rt: &R, count: u64) -> io::Result<u128> {
    let lock = Mutex::new(0u64);
    let start = Instant::now(rt)?;
    for turn in 0..count {
        *lock.lock(rt) = turn;
    }
    Ok(start.elapsed(rt)?.as_nanos())
}
