//! Openings of all sizes: with each number of frames and of workers, and numbers of blocks around each power of two.

ghost use Rattle.std.specs.Prelude.{◌≡◌};

use super::wanted::same;
use super::{ended, opened};
use fz_model::ObjKind::Scanned;
use fz_model::{HEAP_START, MAX_BLOCKS, MAX_FRAMES, MAX_WORKERS, Refusal};
use fz_service::{Opening, Prepared, Program, Service, with_service};
use fz_world::Config;
use std::alloc::Global;
use std::marker::Brand;
use std::process::Abort;
use std::sync::Wait;
use std::test::*;
use std::thread::Threads;

/// The powers of two up to the largest number of blocks.
const POWERS: [u64; 13] = [1, 2, 4, 8, 16, 32, 64, 128, 256, 512, 1_024, 2_048, 4_096];

/// A service has as many seats as it was prepared with, and ends with all of them.
fn opens_with_seats<O: Opening>(rt: &impl Abort, prepared: Prepared, workers: u64)
    requires { prepared ≡ O.origin }
{
    let (service, seats) = opened::<O>(rt, prepared);
    same(rt, "seats", seats.len() as u64, workers);
    let end = ended(rt, service, seats);
    same(rt, "passes", end.passes, 0);
}

/// Opens and ends a service of this size. One outside of the limits is refused, by an error that prints as its refusal.
fn opens<R: Abort + Alloc<A = Global>>(rt: &R, config: Config, workers: u64) {
    match Service::prepare(rt.alloc(), config, workers) {
        Ok(prepared) => opens_with_seats::<Brand>(rt, prepared, workers),
        Err(error) => {
            let is_within = 0 < config.blocks && config.blocks <= MAX_BLOCKS;
            same(rt, "a size within the limits", is_within, false);
            same(rt, "the refusal", error.refusal(), Refusal::BadCount);
            let text = format!(in rt.alloc(); "{error}").expect(rt, "memory");
            same(
                rt,
                "its text",
                text.as_str(),
                "a count is outside its limits",
            );
        }
    }
}

#[test]
fn services_of_all_sizes_open(rt: HostRuntime) {
    for power in POWERS {
        for blocks in [power.saturating_sub(1), power, power.saturating_add(1)] {
            for frames in 1..=MAX_FRAMES {
                for workers in 1..=MAX_WORKERS {
                    opens(&rt, Config { blocks, frames }, workers);
                }
            }
        }
    }
}

/// Allocates an object in the last frame.
#[derive(Drop)]
struct Allocates {
    frames: u64,
}

impl<R: Abort + Wait> Program<R, Result<(u64, u64), Refusal>> for Allocates {
    fn run<O: Opening>(self, service: &Service<O>, rt: &R) -> Result<(u64, u64), Refusal> {
        let frame = self.frames.saturating_sub(1);
        service.enter(rt).alloc(frame, 0, 1, Scanned)
    }
}

/// Runs a program over a service of this size.
fn runs<R: Abort + Threads + Wait + Sync + Alloc<A = Global>>(
    rt: &R,
    config: Config,
    workers: u64,
) {
    let frames = config.frames;
    let lists = Vec::new(rt.alloc());
    let ran = with_service(rt.alloc(), config, workers, lists, rt, Allocates { frames });
    let (made, end) = ran.expect(rt, "a service");
    same(rt, "address and birth", made, Ok((HEAP_START, 0)));
    same(
        rt,
        "workers and passes",
        (workers, end.passes),
        (workers, 0),
    );
}

#[test]
fn programs_run_with_services_of_all_sizes(rt: HostRuntime) {
    for blocks in POWERS {
        for frames in 1..=MAX_FRAMES {
            for workers in 1..=MAX_WORKERS {
                runs(&rt, Config { blocks, frames }, workers);
            }
        }
    }
}
