//! Carrying out a plan in a world of its own.

use crate::links::{link, make_holders, move_links, unlink};
use crate::plan::{Outcome, Plan};
use crate::stores::store_and_load;
use fz_model::ObjKind::Scanned;
use fz_model::{HEAP_START, Refusal, RegAnswer, RegKind, Word};
use fz_world::{Config, World};
use std::alloc::Global;

/// The slot of frame 0 that points to a call's object, and to the root during a collection.
pub(crate) const OBJECT: u64 = 0;

/// The slot of frame 0 whose word is stored.
pub(crate) const STORED: u64 = 1;

/// Carries out the plan in a new world, which it drops at the end. The objects' words are set to `words`, from the heap's first word on. There are as many as
/// the plan's objects have, or none.
#[unsafe(no_mangle)]
pub extern "C" fn world_bench_run(alloc: Global, plan: &Plan, words: &[Word]) -> Outcome {
    match run(alloc, plan, words) {
        Ok(outcome) => outcome,
        Err(_) => Outcome {
            addresses: 0,
            numbers: 0,
            linked: 0,
            queued: 0,
            reclaimed: 0,
            moved: 0,
            unlinked: 0,
            loaded: 0,
            noted: 0,
            finished: 0,
            done: false,
        },
    }
}

fn run(alloc: Global, plan: &Plan, words: &[Word]) -> Result<Outcome, Refusal> {
    let mut world = World::open(
        alloc,
        Config {
            blocks: plan.blocks,
            frames: plan.frames,
        },
    )?;
    carry_out(&mut world, plan, words)
}

/// Carries out the plan in a newly opened world.
fn carry_out(world: &mut World, plan: &Plan, words: &[Word]) -> Result<Outcome, Refusal> {
    live(world, plan)?;
    let addresses = make(world, plan.objects, plan.size)?;
    write(world, words)?;
    let numbers = register(world, plan)?;
    make_holders(world, plan.holders)?;
    let linked = link(world, plan)?;
    world.set(0, OBJECT, plan.root)?;
    world.set(0, STORED, 0)?;
    let (queued, reclaimed) = collect(world, plan.collections)?;
    let moved = move_links(world, plan.moved)?;
    let unlinked = unlink(world, plan.unlinked)?;
    let loaded = store_and_load(world, plan)?;
    let finished = finish(world, plan.finished)?;
    Ok(Outcome {
        addresses,
        numbers,
        linked,
        queued,
        reclaimed,
        moved,
        unlinked,
        loaded,
        noted: world.noted(),
        finished,
        done: true,
    })
}

/// Carries out the plan's rounds.
fn live(world: &mut World, plan: &Plan) -> Result<(), Refusal> {
    for _ in 0..plan.rounds {
        make(world, plan.objects, plan.size)?;
        register(world, plan)?;
        world.set(0, OBJECT, 0)?;
        collect(world, 1)?;
        finish(world, plan.registered)?;
        world.forget();
        collect(world, 1)?;
    }
    Ok(())
}

/// Allocates `count` objects of this size. Returns the sum of their addresses.
fn make(world: &mut World, count: u64, size: u64) -> Result<u64, Refusal> {
    let mut sum = 0u64;
    for _ in 0..count {
        let (address, _) = world.alloc(0, OBJECT, size, Scanned)?;
        sum = sum.wrapping_add(address);
    }
    Ok(sum)
}

/// Stores the words, one after another, from the heap's first word on.
fn write(world: &mut World, words: &[Word]) -> Result<(), Refusal> {
    let mut place = HEAP_START;
    for word in words {
        world.set(0, OBJECT, place)?;
        world.set(0, STORED, *word)?;
        world.store(0, OBJECT, 0, 0, STORED)?;
        place = place.wrapping_add(1);
    }
    Ok(())
}

/// Registers the plan's first objects. Returns the sum of the registration numbers.
fn register(world: &mut World, plan: &Plan) -> Result<u64, Refusal> {
    let kind = if plan.no_order {
        RegKind::NoOrder
    } else {
        RegKind::Normal
    };
    let mut object = HEAP_START;
    let mut rank = 0u8;
    let mut sum = 0u64;
    for _ in 0..plan.registered {
        world.set(0, OBJECT, object)?;
        if let RegAnswer::Number(number, _) = world.register(0, OBJECT, kind, 1, 0, rank)? {
            sum = sum.wrapping_add(number);
        }
        object = object.wrapping_add(plan.size);
        rank = rank.wrapping_add(u8::from(plan.ranked));
    }
    Ok(sum)
}

/// Collects this many times. Returns how many entries were queued, and how many objects were reclaimed.
fn collect(world: &mut World, times: u64) -> Result<(u64, u64), Refusal> {
    let mut queued = 0u64;
    let mut reclaimed = 0u64;
    for _ in 0..times {
        let passed = world.collect()?;
        queued = queued.wrapping_add(passed.picked);
        reclaimed = reclaimed.wrapping_add(passed.reclaimed);
    }
    Ok((queued, reclaimed))
}

/// Finishes this many entries of the queue, each read by its index. Returns the sum of their objects' addresses.
fn finish(world: &mut World, count: u64) -> Result<u64, Refusal> {
    let mut sum = 0u64;
    for index in 0..count {
        let entry = *world.queue().get(index as usize).ok_or(Refusal::NotHeld)?;
        world.finish(&entry)?;
        sum = sum.wrapping_add(entry.obj);
    }
    Ok(sum)
}
