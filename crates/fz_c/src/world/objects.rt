//! Objects and their words.

ghost use Rattle.std.specs.Prelude.{◌≡◌};
ghost use Rattle.fz_model.specs.declared.call.Call.TheVariants.{Alloc, Load, Store};
ghost use Rattle.fz_model.specs.Places.{slot_at, place_at};
ghost use Rattle.fz_model.specs.Events.{Make};
ghost use Rattle.fz_c.specs.Told.{Calls, IsTold, Reads};
ghost use Rattle.fz_c.specs.Places.{kind_of, TellsMade, TellsWord};
ghost use Rattle.fz_c.specs.Shows.{IsWordAt};

use crate::handle::behind;
use crate::world::codes::{Code, NO_WORLD, OK, tell, tell_word};
use crate::world::handle::WorldHandle;
use crate::world::slots::CSlot;
use fz_model::{Addr, ObjKind, Refusal};
use std::alloc::Global;

/// A new object.
#[repr(C)]
#[derive(Clone, Copy)]
pub struct Made {
    pub address: u64,
    pub birth: u64,
}

fn kind_for(atomic: bool) -> ObjKind
    ensures { result ≡ kind_of atomic }
{
    if atomic {
        ObjKind::Atomic
    } else {
        ObjKind::Scanned
    }
}

fn tell_made(reply: Result<(Addr, u64), Refusal>, made: &mut Made) -> Code
    ensures { IsTold reply result (TellsMade made.new) (made.new ≡ made.old) }
{
    match reply {
        Ok((address, birth)) => {
            *made = Made { address, birth };
            OK
        }
        Err(refusal) => refusal.code(),
    }
}

/// `World::alloc`.
#[tactic(auto, using(crate::proofs::Told::not_called, crate::proofs::Told::called, crate::proofs::Told::none_taken))]
#[unsafe(no_mangle)]
pub extern "C" fn fz_alloc(
    alloc: Global,
    world: &mut WorldHandle,
    slot: CSlot,
    size: u64,
    atomic: bool,
    made: &mut Made,
) -> Code
    ensures { Calls world.old.value (Make (Alloc (slot_at slot.frame slot.slot) size (kind_of atomic))) world.new.value result (TellsMade made.new) (made.new ≡ made.old) }
{
    let reply = behind!(
        alloc,
        world,
        NO_WORLD,
        |it| it
            .world
            .alloc(slot.frame, slot.slot, size, kind_for(atomic))
    );
    tell_made(reply, made)
}

/// `World::load`.
#[tactic(auto, using(crate::proofs::Told::not_called, crate::proofs::Told::called, crate::proofs::Told::none_taken))]
#[unsafe(no_mangle)]
pub extern "C" fn fz_load(
    alloc: Global,
    world: &mut WorldHandle,
    slot: CSlot,
    offset: u64,
    to: CSlot,
    word: &mut u64,
) -> Code
    ensures { Calls world.old.value (Make (Load (place_at slot.frame slot.slot offset) (slot_at to.frame to.slot))) world.new.value result (TellsWord word.new) (word.new ≡ word.old) }
{
    let reply = behind!(
        alloc,
        world,
        NO_WORLD,
        |it| it
            .world
            .load(slot.frame, slot.slot, offset, to.frame, to.slot)
    );
    tell_word(reply, word)
}

/// `World::store`.
#[tactic(auto, using(crate::proofs::Told::not_called, crate::proofs::Told::called, crate::proofs::Told::none_taken))]
#[unsafe(no_mangle)]
pub extern "C" fn fz_store(
    alloc: Global,
    world: &mut WorldHandle,
    slot: CSlot,
    offset: u64,
    from: CSlot,
) -> Code
    ensures { Calls world.old.value (Make (Store (place_at slot.frame slot.slot offset) (slot_at from.frame from.slot))) world.new.value result (λ _. Unit {0}) (Unit {0}) }
{
    let reply = behind!(
        alloc,
        world,
        NO_WORLD,
        |it| it
            .world
            .store(slot.frame, slot.slot, offset, from.frame, from.slot)
    );
    tell(reply)
}

/// `World::read`.
#[tactic(auto, using(crate::proofs::Looking::not_read, crate::proofs::Looking::reads, crate::proofs::Told::none_taken))]
#[unsafe(no_mangle)]
pub extern "C" fn fz_read(
    alloc: Global,
    world: &mut WorldHandle,
    word: u64,
    offset: u64,
    value: &mut u64,
) -> Code
    ensures { Reads world.old.value world.new.value result (λ session. IsWordAt session.world word offset) (TellsWord value.new) (value.new ≡ value.old) }
{
    let reply = behind!(alloc, world, NO_WORLD, |it| it.world.read(word, offset));
    tell_word(reply, value)
}
