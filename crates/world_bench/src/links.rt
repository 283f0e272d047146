//! The links of a run, all of them short.

use crate::plan::Plan;
use crate::run::OBJECT;
use fz_model::LinkKind::Short;
use fz_model::ObjKind::Atomic;
use fz_model::{HEAP_START, LinkAnswer, MAX_OBJECT_WORDS, MoveAnswer, Refusal, SLOTS};
use fz_world::World;

/// The frame and the slot of a holder.
fn slot_of(holder: u64) -> (u64, u64) {
    (1 + holder / SLOTS, holder % SLOTS)
}

/// The place of a word of the holders, numbered across all holders: the frame and the slot of its holder, and the offset within it.
fn place_of(word: u64) -> (u64, u64, u64) {
    let (frame, slot) = slot_of(word / MAX_OBJECT_WORDS);
    (frame, slot, word % MAX_OBJECT_WORDS)
}

/// Allocates the holders.
pub(crate) fn make_holders(world: &mut World, count: u64) -> Result<(), Refusal> {
    for holder in 0..count {
        let (frame, slot) = slot_of(holder);
        world.alloc(frame, slot, MAX_OBJECT_WORDS, Atomic)?;
    }
    Ok(())
}

/// Registers the plan's links. Returns how many of them were new.
pub(crate) fn link(world: &mut World, plan: &Plan) -> Result<u64, Refusal> {
    let mut object = HEAP_START;
    let mut count = 0u64;
    for word in 0..plan.linked {
        let (frame, slot, offset) = place_of(word);
        world.set(0, OBJECT, object)?;
        if world.link(Short, frame, slot, offset, 0, OBJECT)? == LinkAnswer::Success {
            count = count.wrapping_add(1);
        }
        object = object.wrapping_add(plan.size);
    }
    Ok(count)
}

/// Moves the links of the holders' first words, from the last on, each to the next word. Returns how many links existed and were moved.
pub(crate) fn move_links(world: &mut World, count: u64) -> Result<u64, Refusal> {
    let mut moved = 0u64;
    for word in (0..count).rev() {
        let (frame, slot, offset) = place_of(word);
        let (to_frame, to_slot, to_offset) = place_of(word + 1);
        if world.move_link(Short, frame, slot, offset, to_frame, to_slot, to_offset)?
            == MoveAnswer::Success
        {
            moved = moved.wrapping_add(1);
        }
    }
    Ok(moved)
}

/// Removes the links of the holders' first words. Returns how many existed.
pub(crate) fn unlink(world: &mut World, count: u64) -> Result<u64, Refusal> {
    let mut removed = 0u64;
    for word in 0..count {
        let (frame, slot, offset) = place_of(word);
        if world.unlink(Short, frame, slot, offset)? {
            removed = removed.wrapping_add(1);
        }
    }
    Ok(removed)
}
