//! The stores of a run, inside or outside a cycle.

use crate::plan::Plan;
use crate::run::{OBJECT, STORED};
use fz_model::{HEAP_START, Refusal};
use fz_world::World;

/// The slot of frame 0 into which words are loaded.
const LOADED: u64 = 2;

/// Opens a cycle, if the plan says so; stores in the plan's objects, if it says so; then loads the last word of each. Returns the sum of the loaded words.
pub(crate) fn store_and_load(world: &mut World, plan: &Plan) -> Result<u64, Refusal> {
    if plan.begun {
        world.begin()?;
    }
    world.set(0, STORED, HEAP_START)?;
    let mut object = HEAP_START;
    let mut sum = 0u64;
    for _ in 0..plan.loaded {
        world.set(0, OBJECT, object)?;
        if plan.stored {
            store(world, plan.size)?;
        }
        sum = sum.wrapping_add(world.load(0, OBJECT, plan.size.wrapping_sub(1), 0, LOADED)?);
        object = object.wrapping_add(plan.size);
    }
    Ok(sum)
}

/// Stores in each word of a call's object.
fn store(world: &mut World, size: u64) -> Result<(), Refusal> {
    for offset in 0..size {
        world.store(0, OBJECT, offset, 0, STORED)?;
    }
    Ok(())
}
