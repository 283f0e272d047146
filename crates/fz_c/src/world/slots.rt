//! Slots: the roots that a program sets.

ghost use Rattle.std.specs.Prelude.{◌≡◌};
ghost use Rattle.fz_model.specs.declared.call.Call.TheVariants.{Set, Copy};
ghost use Rattle.fz_model.specs.Places.{slot_at};
ghost use Rattle.fz_model.specs.Events.{Make};
ghost use Rattle.fz_c.specs.Told.{Calls, Reads};
ghost use Rattle.fz_c.specs.Places.{TellsWord};
ghost use Rattle.fz_c.specs.Shows.{IsWordOfSlot};

use crate::handle::behind;
use crate::world::codes::{Code, NO_WORLD, tell, tell_word};
use crate::world::handle::WorldHandle;
use std::alloc::Global;

/// A slot of a frame; both indices count from 0. It is `fz_slot` of the header.
#[repr(C)]
#[derive(Clone, Copy)]
pub struct CSlot {
    pub frame: u64,
    pub slot: u64,
}

/// `World::set`.
#[tactic(auto, using(crate::proofs::Told::not_called, crate::proofs::Told::called, crate::proofs::Told::none_taken))]
#[unsafe(no_mangle)]
pub extern "C" fn fz_set(alloc: Global, world: &mut WorldHandle, slot: CSlot, word: u64) -> Code
    ensures { Calls world.old.value (Make (Set (slot_at slot.frame slot.slot) word)) world.new.value result (λ _. Unit {0}) (Unit {0}) }
{
    let reply = behind!(
        alloc,
        world,
        NO_WORLD,
        |it| it.world.set(slot.frame, slot.slot, word)
    );
    tell(reply)
}

/// `World::slot`.
#[tactic(auto, using(crate::proofs::Looking::not_read, crate::proofs::Looking::reads, crate::proofs::Told::none_taken))]
#[unsafe(no_mangle)]
pub extern "C" fn fz_get(
    alloc: Global,
    world: &mut WorldHandle,
    slot: CSlot,
    word: &mut u64,
) -> Code
    ensures { Reads world.old.value world.new.value result (λ session. IsWordOfSlot session.world slot.frame slot.slot) (TellsWord word.new) (word.new ≡ word.old) }
{
    let reply = behind!(
        alloc,
        world,
        NO_WORLD,
        |it| it.world.slot(slot.frame, slot.slot)
    );
    tell_word(reply, word)
}

/// `World::copy`.
#[tactic(auto, using(crate::proofs::Told::not_called, crate::proofs::Told::called, crate::proofs::Told::none_taken))]
#[unsafe(no_mangle)]
pub extern "C" fn fz_copy(alloc: Global, world: &mut WorldHandle, slot: CSlot, to: CSlot) -> Code
    ensures { Calls world.old.value (Make (Copy (slot_at slot.frame slot.slot) (slot_at to.frame to.slot))) world.new.value result (λ _. Unit {0}) (Unit {0}) }
{
    let reply = behind!(
        alloc,
        world,
        NO_WORLD,
        |it| it.world.copy(slot.frame, slot.slot, to.frame, to.slot)
    );
    tell(reply)
}
