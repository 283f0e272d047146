//! Disappearing links.

ghost use Rattle.std.specs.Prelude.{◌≡◌};
ghost use Rattle.fz_model.specs.declared.call.Call.TheVariants.{Link, Unlink, Move};
ghost use Rattle.fz_model.specs.Places.{slot_at, place_at};
ghost use Rattle.fz_model.specs.Events.{Make};
ghost use Rattle.fz_c.specs.Told.{Calls, IsTold};
ghost use Rattle.fz_c.specs.Places.{TellsLinkAnswer, TellsUnlinked, TellsMoved};
ghost use Rattle.fz_c.specs.Values.{link_kind_of};

use crate::handle::behind;
use crate::kinds::kind_for;
use crate::world::codes::{Code, NO_WORLD, OK};
use crate::world::handle::WorldHandle;
use crate::world::slots::CSlot;
use fz_model::{LinkAnswer, MoveAnswer, Refusal};
use std::alloc::Global;

/// `GC_SUCCESS`
const SUCCESS: u8 = 0;

/// `GC_DUPLICATE`
const DUPLICATE: u8 = 1;

/// `GC_NOT_FOUND`
const NOT_FOUND: u8 = 4;

pub(crate) fn tell_link_answer(reply: Result<LinkAnswer, Refusal>, answer: &mut u8) -> Code
    ensures { IsTold reply result (TellsLinkAnswer answer.new) (answer.new ≡ answer.old) }
{
    match reply {
        Ok(linked) => {
            *answer = match linked {
                LinkAnswer::Success => SUCCESS,
                LinkAnswer::Duplicate => DUPLICATE,
            };
            OK
        }
        Err(refusal) => refusal.code(),
    }
}

pub(crate) fn tell_unlinked(reply: Result<bool, Refusal>, was: &mut bool) -> Code
    ensures { IsTold reply result (TellsUnlinked was.new) (was.new ≡ was.old) }
{
    match reply {
        Ok(unlinked) => {
            *was = unlinked;
            OK
        }
        Err(refusal) => refusal.code(),
    }
}

pub(crate) fn tell_moved(reply: Result<MoveAnswer, Refusal>, answer: &mut u8) -> Code
    ensures { IsTold reply result (TellsMoved answer.new) (answer.new ≡ answer.old) }
{
    match reply {
        Ok(moved) => {
            *answer = match moved {
                MoveAnswer::Success => SUCCESS,
                MoveAnswer::Duplicate => DUPLICATE,
                MoveAnswer::NotFound => NOT_FOUND,
            };
            OK
        }
        Err(refusal) => refusal.code(),
    }
}

/// `World::link`.
#[tactic(auto, using(crate::proofs::Told::not_called, crate::proofs::Told::called, crate::proofs::Told::none_taken))]
#[unsafe(no_mangle)]
pub extern "C" fn fz_link(
    alloc: Global,
    world: &mut WorldHandle,
    is_long: bool,
    slot: CSlot,
    offset: u64,
    target: CSlot,
    answer: &mut u8,
) -> Code
    ensures { Calls world.old.value (Make (Link (link_kind_of is_long) (place_at slot.frame slot.slot offset) (slot_at target.frame target.slot))) world.new.value result (TellsLinkAnswer answer.new) (answer.new ≡ answer.old) }
{
    let reply = behind!(
        alloc,
        world,
        NO_WORLD,
        |it| it.world.link(
            kind_for(is_long),
            slot.frame,
            slot.slot,
            offset,
            target.frame,
            target.slot,
        )
    );
    tell_link_answer(reply, answer)
}

/// `World::unlink`.
#[tactic(auto, using(crate::proofs::Told::not_called, crate::proofs::Told::called, crate::proofs::Told::none_taken))]
#[unsafe(no_mangle)]
pub extern "C" fn fz_unlink(
    alloc: Global,
    world: &mut WorldHandle,
    is_long: bool,
    slot: CSlot,
    offset: u64,
    was: &mut bool,
) -> Code
    ensures { Calls world.old.value (Make (Unlink (link_kind_of is_long) (place_at slot.frame slot.slot offset))) world.new.value result (TellsUnlinked was.new) (was.new ≡ was.old) }
{
    let reply = behind!(
        alloc,
        world,
        NO_WORLD,
        |it| it
            .world
            .unlink(kind_for(is_long), slot.frame, slot.slot, offset)
    );
    tell_unlinked(reply, was)
}

/// `World::move_link`.
#[tactic(auto, using(crate::proofs::Told::not_called, crate::proofs::Told::called, crate::proofs::Told::none_taken))]
#[unsafe(no_mangle)]
pub extern "C" fn fz_move_link(
    alloc: Global,
    world: &mut WorldHandle,
    is_long: bool,
    slot: CSlot,
    offset: u64,
    to: CSlot,
    to_offset: u64,
    answer: &mut u8,
) -> Code
    ensures { Calls world.old.value (Make (Move (link_kind_of is_long) (place_at slot.frame slot.slot offset) (place_at to.frame to.slot to_offset))) world.new.value result (TellsMoved answer.new) (answer.new ≡ answer.old) }
{
    let reply = behind!(
        alloc,
        world,
        NO_WORLD,
        |it| it.world.move_link(
            kind_for(is_long),
            slot.frame,
            slot.slot,
            offset,
            to.frame,
            to.slot,
            to_offset,
        )
    );
    tell_moved(reply, answer)
}
