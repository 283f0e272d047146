//! Registrations of finalizers.

ghost use Rattle.std.specs.Prelude.{◌≡◌};
ghost use Rattle.fz_model.specs.declared.call.Call.TheVariants.{Register, Unregister};
ghost use Rattle.fz_model.specs.Places.{slot_at, finalizer_of};
ghost use Rattle.fz_model.specs.Events.{Make};
ghost use Rattle.fz_model.specs.declared.kinds.RegKind.TheVariants.{Normal, IgnoreSelf, NoOrder};
ghost use Rattle.fz_c.specs.Told.{Calls, IsTold};
ghost use Rattle.fz_c.specs.Places.{TellsRegistered};
ghost use Rattle.fz_c.specs.Values.{TellsOld};

use crate::handle::behind;
use crate::old::Old;
use crate::world::codes::{Code, NO_WORLD, OK};
use crate::world::handle::WorldHandle;
use crate::world::slots::CSlot;
use fz_model::{Refusal, RegAnswer, RegKind};
use std::alloc::Global;

/// A new registration, and the one that it replaced. If the word was zero or outside the heap, `made` is false.
#[repr(C)]
#[derive(Clone, Copy)]
pub struct Registered {
    pub number: u64,
    pub replaced: Old,
    pub made: bool,
}

/// `World::register`, of the kind `Normal`.
#[unsafe(no_mangle)]
pub extern "C" fn fz_register(
    alloc: Global,
    world: &mut WorldHandle,
    slot: CSlot,
    proc: u64,
    cd: u64,
    rank: u8,
    registered: &mut Registered,
) -> Code
    ensures { Calls world.old.value (Make (Register (slot_at slot.frame slot.slot) (finalizer_of Normal proc cd rank))) world.new.value result (TellsRegistered registered.new) (registered.new ≡ registered.old) }
{
    let kind = RegKind::Normal;
    register(alloc, world, slot, proc, cd, rank, registered, kind)
}

pub(crate) fn tell_registered(
    reply: Result<RegAnswer, Refusal>,
    registered: &mut Registered,
) -> Code
    ensures { IsTold reply result (TellsRegistered registered.new) (registered.new ≡ registered.old) }
{
    match reply {
        Ok(RegAnswer::Number(number, old)) => {
            *registered = Registered {
                number,
                replaced: Old::of(old),
                made: true,
            };
            OK
        }
        Ok(RegAnswer::Outside) => {
            *registered = Registered {
                number: 0,
                replaced: Old::of(None),
                made: false,
            };
            OK
        }
        Err(refusal) => refusal.code(),
    }
}

/// `World::register`, of the kind `IgnoreSelf`.
#[unsafe(no_mangle)]
pub extern "C" fn fz_register_ignore_self(
    alloc: Global,
    world: &mut WorldHandle,
    slot: CSlot,
    proc: u64,
    cd: u64,
    rank: u8,
    registered: &mut Registered,
) -> Code
    ensures { Calls world.old.value (Make (Register (slot_at slot.frame slot.slot) (finalizer_of IgnoreSelf proc cd rank))) world.new.value result (TellsRegistered registered.new) (registered.new ≡ registered.old) }
{
    let kind = RegKind::IgnoreSelf;
    register(alloc, world, slot, proc, cd, rank, registered, kind)
}

#[tactic(auto, using(crate::proofs::Told::not_called, crate::proofs::Told::called, crate::proofs::Told::registers, crate::proofs::Told::none_taken))]
fn register(
    alloc: Global,
    world: &mut WorldHandle,
    slot: CSlot,
    proc: u64,
    cd: u64,
    rank: u8,
    registered: &mut Registered,
    kind: RegKind,
) -> Code
    ensures { Calls world.old.value (Make (Register (slot_at slot.frame slot.slot) (finalizer_of kind proc cd rank))) world.new.value result (TellsRegistered registered.new) (registered.new ≡ registered.old) }
{
    let reply = behind!(
        alloc,
        world,
        NO_WORLD,
        |it| it
            .world
            .register(slot.frame, slot.slot, kind, proc, cd, rank)
    );
    tell_registered(reply, registered)
}

/// `World::register`, of the kind `NoOrder`.
#[unsafe(no_mangle)]
pub extern "C" fn fz_register_no_order(
    alloc: Global,
    world: &mut WorldHandle,
    slot: CSlot,
    proc: u64,
    cd: u64,
    rank: u8,
    registered: &mut Registered,
) -> Code
    ensures { Calls world.old.value (Make (Register (slot_at slot.frame slot.slot) (finalizer_of NoOrder proc cd rank))) world.new.value result (TellsRegistered registered.new) (registered.new ≡ registered.old) }
{
    let kind = RegKind::NoOrder;
    register(alloc, world, slot, proc, cd, rank, registered, kind)
}

pub(crate) fn tell_old(reply: Result<Option<fz_model::Old>, Refusal>, old: &mut Old) -> Code
    ensures { IsTold reply result (TellsOld old.new) (old.new ≡ old.old) }
{
    match reply {
        Ok(found) => {
            *old = Old::of(found);
            OK
        }
        Err(refusal) => refusal.code(),
    }
}

/// `World::unregister`.
#[tactic(auto, using(crate::proofs::Told::not_called, crate::proofs::Told::called, crate::proofs::Told::none_taken))]
#[unsafe(no_mangle)]
pub extern "C" fn fz_unregister(
    alloc: Global,
    world: &mut WorldHandle,
    slot: CSlot,
    old: &mut Old,
) -> Code
    ensures { Calls world.old.value (Make (Unregister (slot_at slot.frame slot.slot))) world.new.value result (TellsOld old.new) (old.new ≡ old.old) }
{
    let reply = behind!(
        alloc,
        world,
        NO_WORLD,
        |it| it.world.unregister(slot.frame, slot.slot)
    );
    tell_old(reply, old)
}
