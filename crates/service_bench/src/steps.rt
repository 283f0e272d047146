//! Steps, each under the lock by itself.

use fz_service::{Opening, Service};
use std::io;
use std::rt::Clock;
use std::sync::Wait;
use std::time::Instant;

/// The nanoseconds for entering a service `count` times, and setting a slot each time.
pub(crate) fn enter_and_set<O: Opening, R: Clock + Wait>(
    rt: &R,
    service: &Service<O>,
    count: u64,
) -> io::Result<u128> {
    let start = Instant::now(rt)?;
    for turn in 0..count {
        let _ = service.enter(rt).set(0, 0, turn);
    }
    Ok(start.elapsed(rt)?.as_nanos())
}
