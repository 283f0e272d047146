//! Allocations that collect if there is no room.

use super::steps::{opened, registered};
use crate::equal::must_be;
use fz_model::ObjKind::{Atomic, Scanned};
use fz_model::RegKind::Normal;
use fz_model::{Addr, BLOCK_WORDS, HEAP_START, Passed, Refusal};
use fz_world::World;
use std::alloc::Global;

/// A world of one block, which is filled by one unreachable object.
fn filled(alloc: Global, is_registered: bool) -> Result<World, Refusal> {
    let mut world = opened(alloc, 1, 1)?;
    world.alloc(0, 0, BLOCK_WORDS, Scanned)?;
    if is_registered {
        registered(&mut world, 0, Normal, 0)?;
    }
    world.set(0, 0, 0)?;
    Ok(world)
}

/// Whether an allocation finds no room, one that collects succeeds, and a further one fails because everything is reachable.
fn allocation_results(alloc: Global) -> Result<[bool; 3], Refusal> {
    let mut world = filled(alloc, false)?;
    let has_no_space = world.alloc(0, 0, 1, Atomic) == Err(Refusal::NoSpace);
    let is_made = world
        .alloc_or_collect(0, 0, BLOCK_WORDS, Scanned, |_world: &mut World| {})
        .is_ok();
    let is_full = world.alloc_or_collect(0, 1, 1, Atomic, |_world: &mut World| {})
        == Err(Refusal::NoSpace);
    Ok([has_no_space, is_made, is_full])
}

/// Whether an allocation without space is refused in an open cycle, leaves it open and made no pass; and what the pause of that cycle does then.
fn in_an_open_cycle(alloc: Global) -> Result<([bool; 3], Passed), Refusal> {
    let mut world = filled(alloc, false)?;
    world.begin()?;
    let made = world.alloc_or_collect(0, 0, 1, Atomic, |_world: &mut World| {});
    let is_refused = made == Err(Refusal::CycleOpen);
    let is_open = world.begin() == Err(Refusal::CycleOpen);
    let has_no_pass = world.passes() == 0;
    Ok(([is_refused, is_open, has_no_pass], world.pause()?))
}

#[test]
fn an_allocation_leaves_an_open_cycle(rt: HostRuntime) {
    let passed = Passed {
        pass: 1,
        picked: 0,
        reclaimed: 1,
    };
    must_be(
        &rt,
        in_an_open_cycle(rt.alloc()),
        Ok(([true; 3], passed)),
        "in an open cycle",
    );
}

#[test]
fn an_allocation_collects(rt: HostRuntime) {
    must_be(
        &rt,
        allocation_results(rt.alloc()),
        Ok([true; 3]),
        "allocations",
    );
}

/// Finishes all waiting entries, and forgets them.
fn run_ready(world: &mut World) -> Result<(), Refusal> {
    for _entry in 0..world.outstanding() {
        let Some(entry) = world.next_held(0) else {
            break;
        };
        world.finish(&entry)?;
    }
    world.forget();
    Ok(())
}

/// Allocates an object. If all unreachable objects are registered, a first collection only queues them, and a second one reclaims them.
fn make(world: &mut World) -> Result<(Addr, u64), Refusal> {
    let mut ran = Ok(());
    let made = world.alloc_or_collect(0, 0, BLOCK_WORDS, Scanned, |world| ran = run_ready(world));
    ran?;
    if made != Err(Refusal::NoSpace) {
        return made;
    }
    world.alloc_or_collect(0, 0, BLOCK_WORDS, Scanned, |_| {})
}

/// The object that is allocated in a world that was full.
fn made_where_all_is_registered(alloc: Global) -> Result<(Addr, u64), Refusal> {
    make(&mut filled(alloc, true)?)
}

#[test]
fn a_second_collection_reclaims_what_the_first_queued(rt: HostRuntime) {
    must_be(
        &rt,
        made_where_all_is_registered(rt.alloc()),
        Ok((HEAP_START, 1)),
        "the object",
    );
}
