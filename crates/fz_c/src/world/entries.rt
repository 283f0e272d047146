//! Entries of the queue, which a program takes, runs and finishes.

ghost use Rattle.std.specs.Prelude.{◌≡◌};
ghost use Rattle.fz_model.specs.declared.call.Call.TheVariants.{Outstanding};
ghost use Rattle.fz_model.specs.Places.{slot_at};
ghost use Rattle.fz_model.specs.Events.{Make, Hold, Finish};
ghost use Rattle.fz_c.specs.Told.{Calls, IsFound};
ghost use Rattle.fz_c.specs.Values.{entry_of};
ghost use Rattle.fz_c.specs.Places.{TellsEntry, TellsWord};
ghost use Rattle.fz_c.specs.Takes.{FinishesAndTakes, Takes, Waits};
ghost use Rattle.fz_c.specs.Forgets.{Forgets};

use crate::entry::Entry;
use crate::handle::behind;
use crate::world::codes::{Code, EMPTY, NO_WORLD, OK, tell};
use crate::world::handle::WorldHandle;
use crate::world::slots::CSlot;
use std::alloc::Global;

pub(crate) fn tell_entry(found: Option<fz_model::Entry>, entry: &mut Entry) -> Code
    ensures { IsFound found result (TellsEntry entry.new) (entry.new ≡ entry.old) }
{
    match found {
        Some(next) => {
            *entry = Entry::of(&next);
            OK
        }
        None => EMPTY,
    }
}

/// Takes the next entry of the queue that isn't finished.
#[unsafe(no_mangle)]
pub extern "C" fn fz_take(alloc: Global, world: &mut WorldHandle, entry: &mut Entry) -> Code
    ensures { Takes world.old.value world.new.value result entry.new (entry.new ≡ entry.old) }
{
    let next = behind!(alloc, world, NO_WORLD, |it| it.next());
    tell_entry(next, entry)
}

/// Whether the queue has entries that are neither taken nor finished.
#[unsafe(no_mangle)]
pub extern "C" fn fz_waiting(alloc: Global, world: &mut WorldHandle, waiting: &mut bool) -> Code
    ensures { Waits world.old.value world.new.value result waiting.new (waiting.new ≡ waiting.old) }
{
    *waiting = behind!(alloc, world, NO_WORLD, |it| it.is_waiting());
    OK
}

/// `World::forget`.
#[unsafe(no_mangle)]
pub extern "C" fn fz_forget(alloc: Global, world: &mut WorldHandle, count: &mut u64) -> Code
    ensures { Forgets world.old.value world.new.value result count.new (count.new ≡ count.old) }
{
    *count = behind!(alloc, world, NO_WORLD, |it| it.world.forget());
    OK
}

/// `World::outstanding`.
#[tactic(auto, using(crate::proofs::Told::not_called, crate::proofs::Told::called, crate::proofs::Told::none_taken))]
#[unsafe(no_mangle)]
pub extern "C" fn fz_outstanding(alloc: Global, world: &mut WorldHandle, count: &mut u64) -> Code
    ensures { Calls world.old.value (Make Outstanding) world.new.value result (TellsWord count.new) (count.new ≡ count.old) }
{
    *count = behind!(alloc, world, NO_WORLD, |it| it.world.outstanding());
    OK
}

/// `World::hold`.
#[tactic(auto, using(crate::proofs::Told::not_called, crate::proofs::Told::called, crate::proofs::Told::none_taken))]
#[unsafe(no_mangle)]
pub extern "C" fn fz_hold(
    alloc: Global,
    world: &mut WorldHandle,
    slot: CSlot,
    entry: &Entry,
) -> Code
    ensures { Calls world.old.value (Hold (slot_at slot.frame slot.slot) (entry_of entry.now)) world.new.value result (λ _. Unit {0}) (Unit {0}) }
{
    let reply = behind!(
        alloc,
        world,
        NO_WORLD,
        |it| it.world.hold(slot.frame, slot.slot, &entry.read())
    );
    tell(reply)
}

/// `World::finish`.
#[tactic(auto, using(crate::proofs::Told::not_called, crate::proofs::Told::called, crate::proofs::Told::none_taken))]
#[unsafe(no_mangle)]
pub extern "C" fn fz_finish(alloc: Global, world: &mut WorldHandle, entry: &Entry) -> Code
    ensures { Calls world.old.value (Finish (entry_of entry.now)) world.new.value result (λ _. Unit {0}) (Unit {0}) }
{
    let reply = behind!(alloc, world, NO_WORLD, |it| it.world.finish(&entry.read()));
    tell(reply)
}

/// `World::finish`, and then the next entry of the queue that isn't finished, in place of the one that was given.
#[unsafe(no_mangle)]
pub extern "C" fn fz_finish_and_take(
    alloc: Global,
    world: &mut WorldHandle,
    entry: &mut Entry,
) -> Code
    ensures { FinishesAndTakes world.old.value (entry_of entry.old) world.new.value result entry.new (entry.new ≡ entry.old) }
{
    let reply = behind!(
        alloc,
        world,
        NO_WORLD,
        |it| it.finish_and_take(&entry.read())
    );
    match reply {
        Ok(next) => tell_entry(next, entry),
        Err(refusal) => refusal.code(),
    }
}
