//! The limits of a world's size, its slots, and a queue, which has none.

use super::steps::opened;
use crate::equal::must_be;
use fz_model::{MAX_BLOCKS, MAX_FRAMES, ObjKind, Refusal, RegKind, SLOTS};
use fz_world::World;
use std::alloc::Global;

const BAD_COUNTS: [(u64, u64); 4] = [(0, 1), (MAX_BLOCKS + 1, 1), (1, 0), (1, MAX_FRAMES + 1)];

/// The index of the first counts of blocks and frames with which a world can be opened.
fn first_opened(alloc: Global, counts: &[(u64, u64)]) -> Option<usize> {
    for (place, (blocks, frames)) in counts.iter().enumerate() {
        if opened(alloc, *blocks, *frames).err() != Some(Refusal::BadCount) {
            return Some(place);
        }
    }
    None
}

/// Worlds can be opened with 1 to 8 frames and 1 to 4,096 blocks.
#[test]
fn limits_of_an_opening(rt: HostRuntime) {
    must_be(
        &rt,
        first_opened(rt.alloc(), &BAD_COUNTS),
        None,
        "the first that opens",
    );
}

/// What calls on the last slot, and beyond it, return.
fn slots_are_limited(world: &mut World) -> bool {
    let (frame, slot) = (MAX_FRAMES - 1, SLOTS - 1);
    world.set(frame, slot, 1) == Ok(())
        && world.set(frame + 1, 0, 1) == Err(Refusal::BadSlot)
        && world.set(frame, slot + 1, 1) == Err(Refusal::BadSlot)
        && world.copy(frame, slot, 0, slot) == Ok(())
}

/// Whether the slots of a world with all frames behave in this way.
fn all_slots_are_limited(alloc: Global) -> Result<bool, Refusal> {
    let mut world = opened(alloc, 1, MAX_FRAMES)?;
    Ok(slots_are_limited(&mut world))
}

/// A world has at most 8 frames of 16 slots.
#[test]
fn limits_of_frames(rt: HostRuntime) {
    must_be(
        &rt,
        all_slots_are_limited(rt.alloc()),
        Ok(true),
        "the slots",
    );
}

/// How many objects are queued in a round.
const ROUND: u64 = 30_000;

/// Queues a round's objects by a collection.
fn queue_round(world: &mut World) -> Result<(), Refusal> {
    for _ in 0..ROUND {
        world.alloc(0, 0, 1, ObjKind::Atomic)?;
        world.register(0, 0, RegKind::Normal, 0, 0, 0)?;
    }
    world.set(0, 0, 0)?;
    world.collect()?;
    Ok(())
}

/// Finishes the entries from a number on.
fn finish_from(world: &mut World, from: u64) -> Result<(), Refusal> {
    for number in from..world.queued() {
        if let Some(entry) = world.next(number) {
            world.finish(&entry)?;
        }
    }
    Ok(())
}

/// How many entries a world has queued after this many rounds, how many of them are in memory, and how many aren't finished. It forgets none.
fn queued_in_rounds(alloc: Global, rounds: u64) -> Result<(u64, usize, u64), Refusal> {
    let mut world = opened(alloc, 1_024, 1)?;
    for _ in 0..rounds {
        let from = world.queued();
        queue_round(&mut world)?;
        finish_from(&mut world, from)?;
    }
    Ok((world.queued(), world.queue().len(), world.outstanding()))
}

/// A queue grows on past 2^18 entries, all in memory.
#[test]
fn a_long_queue_grows_with_ample_memory(rt: HostRuntime) {
    let queued = queued_in_rounds(rt.alloc(), 9);
    must_be(
        &rt,
        queued,
        Ok((270_000, 270_000, 0)),
        "queued, remembered and held",
    );
}
