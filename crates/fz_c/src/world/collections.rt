//! Collection cycles and passes.

ghost use Rattle.std.specs.Prelude.{◌≡◌};
ghost use Rattle.fz_model.specs.declared.call.Call.TheVariants.{Begin, Mark, Pause, Collect};
ghost use Rattle.fz_model.specs.Events.{Make};
ghost use Rattle.fz_c.specs.Told.{Calls, IsTold};
ghost use Rattle.fz_c.specs.Places.{TellsDone, TellsPassed};

use crate::handle::behind;
use crate::world::codes::{Code, NO_WORLD, OK, tell};
use crate::world::handle::WorldHandle;
use fz_model::{Progress, Refusal};
use std::alloc::Global;

/// What a pass has done: its number, counted from 1, how many entries it queued, and how many objects it reclaimed.
#[repr(C)]
#[derive(Clone, Copy)]
pub struct Passed {
    pub pass: u64,
    pub picked: u64,
    pub reclaimed: u64,
}

fn tell_done(reply: Result<Progress, Refusal>, done: &mut bool) -> Code
    ensures { IsTold reply result (TellsDone done.new) (done.new ≡ done.old) }
{
    match reply {
        Ok(progress) => {
            *done = match progress {
                Progress::More => false,
                Progress::Done => true,
            };
            OK
        }
        Err(refusal) => refusal.code(),
    }
}

fn tell_passed(reply: Result<fz_model::Passed, Refusal>, passed: &mut Passed) -> Code
    ensures { IsTold reply result (TellsPassed passed.new) (passed.new ≡ passed.old) }
{
    match reply {
        Ok(did) => {
            *passed = Passed {
                pass: did.pass,
                picked: did.picked,
                reclaimed: did.reclaimed,
            };
            OK
        }
        Err(refusal) => refusal.code(),
    }
}

/// `World::begin`.
#[tactic(auto, using(crate::proofs::Told::not_called, crate::proofs::Told::called, crate::proofs::Told::none_taken))]
#[unsafe(no_mangle)]
pub extern "C" fn fz_begin(alloc: Global, world: &mut WorldHandle) -> Code
    ensures { Calls world.old.value (Make Begin) world.new.value result (λ _. Unit {0}) (Unit {0}) }
{
    let reply = behind!(alloc, world, NO_WORLD, |it| it.world.begin());
    tell(reply)
}

/// `World::mark`.
#[tactic(auto, using(crate::proofs::Told::not_called, crate::proofs::Told::called, crate::proofs::Told::none_taken))]
#[unsafe(no_mangle)]
pub extern "C" fn fz_mark(
    alloc: Global,
    world: &mut WorldHandle,
    budget: u64,
    done: &mut bool,
) -> Code
    ensures { Calls world.old.value (Make (Mark budget)) world.new.value result (TellsDone done.new) (done.new ≡ done.old) }
{
    let reply = behind!(alloc, world, NO_WORLD, |it| it.world.mark(budget));
    tell_done(reply, done)
}

/// `World::pause`.
#[tactic(auto, using(crate::proofs::Told::not_called, crate::proofs::Told::called, crate::proofs::Told::none_taken))]
#[unsafe(no_mangle)]
pub extern "C" fn fz_pause(alloc: Global, world: &mut WorldHandle, passed: &mut Passed) -> Code
    ensures { Calls world.old.value (Make Pause) world.new.value result (TellsPassed passed.new) (passed.new ≡ passed.old) }
{
    let reply = behind!(alloc, world, NO_WORLD, |it| it.world.pause());
    tell_passed(reply, passed)
}

/// `World::collect`.
#[tactic(auto, using(crate::proofs::Told::not_called, crate::proofs::Told::called, crate::proofs::Told::none_taken))]
#[unsafe(no_mangle)]
pub extern "C" fn fz_collect(alloc: Global, world: &mut WorldHandle, passed: &mut Passed) -> Code
    ensures { Calls world.old.value (Make Collect) world.new.value result (TellsPassed passed.new) (passed.new ≡ passed.old) }
{
    let reply = behind!(alloc, world, NO_WORLD, |it| it.world.collect());
    tell_passed(reply, passed)
}
