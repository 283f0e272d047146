//! Calls by the addresses of objects and of their words.

ghost use Rattle.std.specs.Prelude.{◌≡◌};
ghost use Rattle.fz_model.specs.Places.{finalizer_of};
ghost use Rattle.fz_world.specs.Addresses.{Unregisters, Links, Unlinks, Moves};
ghost use Rattle.fz_world.specs.Registering.{RegistersFinalizer};
ghost use Rattle.fz_c.specs.Told.{Changes, by_one, by_two};
ghost use Rattle.fz_c.specs.Places.{TellsRegistered, TellsLinkAnswer, TellsUnlinked, TellsMoved};
ghost use Rattle.fz_c.specs.Values.{TellsOld, link_kind_of, reg_kind_of};

use crate::handle::behind;
use crate::kinds::{kind_for, reg_kind_for};
use crate::old::Old;
use crate::world::codes::{Code, NO_WORLD};
use crate::world::finalizers::{Registered, tell_old, tell_registered};
use crate::world::handle::WorldHandle;
use crate::world::links::{tell_link_answer, tell_moved, tell_unlinked};
use fz_model::Finalizer;
use std::alloc::Global;

/// `World::register_at`. The kind is 0 for `Normal`, 1 for `IgnoreSelf`, and otherwise `NoOrder`.
#[tactic(auto, using(crate::proofs::Told::not_changed, crate::proofs::Told::changed, crate::proofs::Told::none_taken))]
#[unsafe(no_mangle)]
pub extern "C" fn fz_register_at(
    alloc: Global,
    world: &mut WorldHandle,
    address: u64,
    kind: u8,
    proc: u64,
    cd: u64,
    rank: u8,
    registered: &mut Registered,
) -> Code
    ensures { Changes world.old.value (by_one address (λ reply old slot new. RegistersFinalizer old slot (finalizer_of (reg_kind_of kind) proc cd rank) reply new)) world.new.value result (TellsRegistered registered.new) (registered.new ≡ registered.old) }
{
    let finalizer = Finalizer::new(reg_kind_for(kind), proc, cd, rank);
    let reply = behind!(
        alloc,
        world,
        NO_WORLD,
        |it| it.world.register_at(address, finalizer)
    );
    tell_registered(reply, registered)
}

/// `World::unregister_at`.
#[tactic(auto, using(crate::proofs::Told::not_changed, crate::proofs::Told::changed, crate::proofs::Told::none_taken))]
#[unsafe(no_mangle)]
pub extern "C" fn fz_unregister_at(
    alloc: Global,
    world: &mut WorldHandle,
    address: u64,
    old: &mut Old,
) -> Code
    ensures { Changes world.old.value (by_one address Unregisters) world.new.value result (TellsOld old.new) (old.new ≡ old.old) }
{
    let reply = behind!(alloc, world, NO_WORLD, |it| it.world.unregister_at(address));
    tell_old(reply, old)
}

/// `World::link_at`.
#[tactic(auto, using(crate::proofs::Told::not_changed, crate::proofs::Told::changed, crate::proofs::Told::none_taken))]
#[unsafe(no_mangle)]
pub extern "C" fn fz_link_at(
    alloc: Global,
    world: &mut WorldHandle,
    is_long: bool,
    address: u64,
    offset: u64,
    target: u64,
    answer: &mut u8,
) -> Code
    ensures { Changes world.old.value (by_two address target (Links (link_kind_of is_long) offset)) world.new.value result (TellsLinkAnswer answer.new) (answer.new ≡ answer.old) }
{
    let reply = behind!(
        alloc,
        world,
        NO_WORLD,
        |it| it.world.link_at(kind_for(is_long), address, offset, target)
    );
    tell_link_answer(reply, answer)
}

/// `World::unlink_at`.
#[tactic(auto, using(crate::proofs::Told::not_changed, crate::proofs::Told::changed, crate::proofs::Told::none_taken))]
#[unsafe(no_mangle)]
pub extern "C" fn fz_unlink_at(
    alloc: Global,
    world: &mut WorldHandle,
    is_long: bool,
    address: u64,
    offset: u64,
    was: &mut bool,
) -> Code
    ensures { Changes world.old.value (by_one address (Unlinks (link_kind_of is_long) offset)) world.new.value result (TellsUnlinked was.new) (was.new ≡ was.old) }
{
    let reply = behind!(
        alloc,
        world,
        NO_WORLD,
        |it| it.world.unlink_at(kind_for(is_long), address, offset)
    );
    tell_unlinked(reply, was)
}

/// `World::move_link_at`.
#[tactic(auto, using(crate::proofs::Told::not_changed, crate::proofs::Told::changed, crate::proofs::Told::none_taken))]
#[unsafe(no_mangle)]
pub extern "C" fn fz_move_link_at(
    alloc: Global,
    world: &mut WorldHandle,
    is_long: bool,
    address: u64,
    offset: u64,
    to: u64,
    to_offset: u64,
    answer: &mut u8,
) -> Code
    ensures { Changes world.old.value (by_two address to (Moves (link_kind_of is_long) offset to_offset)) world.new.value result (TellsMoved answer.new) (answer.new ≡ answer.old) }
{
    let reply = behind!(
        alloc,
        world,
        NO_WORLD,
        |it| it
            .world
            .move_link_at(kind_for(is_long), address, offset, to, to_offset)
    );
    tell_moved(reply, answer)
}
