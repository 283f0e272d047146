//! Opening, closing and freeing worlds.

ghost use Rattle.std.specs.Prelude.{◌≡◌, None, IfOk};
ghost use Rattle.fz_model.specs.declared.call.Call.TheVariants.{Close};
ghost use Rattle.fz_model.specs.Events.{Make};
ghost use Rattle.fz_model.specs.Causes.{IsJudgedOrLacks};
ghost use Rattle.fz_world.specs.Does.{open_causes};
ghost use Rattle.fz_c.specs.Told.{Calls};
ghost use Rattle.fz_c.specs.Opens.{IsOpening, Opened, Opens};

use crate::handle::{behind, put, take};
use crate::world::codes::{Code, HAS_WORLD, NO_WORLD, OK, tell};
use crate::world::handle::WorldHandle;
use crate::world::session::WorldSession;
use fz_model::Refusal;
use fz_world::{Config, World};
use std::alloc::Global;

fn new_session(
    alloc: Global,
    blocks: u64,
    frames: u64,
) -> Result<Box<WorldSession, Global>, Refusal>
    ensures judged { IsJudgedOrLacks (open_causes blocks frames) result }
    ensures opened { IfOk result (λ session. IsOpening session.value blocks frames) }
{
    let world = World::open(alloc, Config { blocks, frames })?;
    Ok(Box::new(alloc, WorldSession { world, taken: 0 })?)
}

fn open_into(alloc: Global, world: &mut WorldHandle, blocks: u64, frames: u64) -> Code
    requires { world.old.value ≡ None }
    ensures { Opened blocks frames world.new.value result }
{
    match new_session(alloc, blocks, frames) {
        Ok(session) => {
            put(world, session);
            OK
        }
        Err(refusal) => refusal.code(),
    }
}

/// Opens a world in a handle that has none.
#[unsafe(no_mangle)]
pub extern "C" fn fz_open(alloc: Global, world: &mut WorldHandle, blocks: u64, frames: u64) -> Code
    ensures { Opens world.old.value blocks frames world.new.value result }
{
    match take(world, alloc) {
        Some(session) => {
            put(world, session);
            HAS_WORLD
        }
        None => open_into(alloc, world, blocks, frames),
    }
}

/// Frees the handle's world, if it has one.
#[unsafe(no_mangle)]
pub extern "C" fn fz_destroy(alloc: Global, world: &mut WorldHandle)
    ensures { world.new.value ≡ None }
{
    drop(take(world, alloc));
}

/// `World::close`.
#[tactic(auto, using(crate::proofs::Told::not_called, crate::proofs::Told::called, crate::proofs::Told::none_taken))]
#[unsafe(no_mangle)]
pub extern "C" fn fz_close(alloc: Global, world: &mut WorldHandle) -> Code
    ensures { Calls world.old.value (Make Close) world.new.value result (λ _. Unit {0}) (Unit {0}) }
{
    let reply = behind!(alloc, world, NO_WORLD, |it| it.world.close());
    tell(reply)
}
