//! The content of the heap: objects that own files, and three lists with one word for each file.
//!
//! These functions only make calls to the world, so both a finalizer's procedure and a holder of the service's lock may call them.
#![tactic(auto, using(fz_service::proofs::Running::runs_calls))]

ghost use Rattle.std.specs.Prelude.{◌≤◌, IfOk};
ghost use Rattle.fz_service.specs.States.{RunsCalls};

use fz_model::LinkKind::Short;
use fz_model::ObjKind::{Atomic, Scanned};
use fz_model::Refusal;
use fz_model::RegKind::Normal;
use fz_world::World;

/// The index of `CloseFile` in each worker's list of procedures.
const CLOSE: u64 = 0;

/// The slot of the list that retains objects.
const KEPT: u64 = 0;

/// The slot of the weak cache. This list is pointer-free, so it retains nothing, and each of its words has a short link.
pub(crate) const CACHE: u64 = 1;

/// The slot of the list of closed files. A word is 1 if its file is closed.
pub(crate) const CLOSED: u64 = 2;

/// The slot with the word 1.
const ONE: u64 = 3;

/// The slot of the current object, which is zero between calls.
const HAND: u64 = 4;

/// Allocates the lists.
pub(crate) fn make_lists(world: &mut World, files: u64) -> Result<(), Refusal>
    ensures { RunsCalls world.old world.new }
{
    world.alloc(0, KEPT, files, Scanned)?;
    world.alloc(0, CACHE, files, Atomic)?;
    world.alloc(0, CLOSED, files, Atomic)?;
    world.set(0, ONE, 1)
}

/// Allocates an object that owns the file with this number, retains it, and caches it.
pub(crate) fn make_owner(world: &mut World, file: u64) -> Result<(), Refusal>
    ensures { RunsCalls world.old world.new }
{
    world.alloc(0, HAND, 1, Scanned)?;
    world.register(0, HAND, Normal, CLOSE, file, 0)?;
    world.store(0, KEPT, file, 0, HAND)?;
    cache(world, file)?;
    world.set(0, HAND, 0)
}

/// Caches the current object, which owns this file.
fn cache(world: &mut World, file: u64) -> Result<(), Refusal>
    ensures { RunsCalls world.old world.new }
{
    world.store(0, CACHE, file, 0, HAND)?;
    world.link(Short, 0, CACHE, file, 0, HAND)?;
    Ok(())
}

/// Drops the object that owns this file.
pub(crate) fn let_go(world: &mut World, file: u64) -> Result<(), Refusal>
    ensures { RunsCalls world.old world.new }
{
    world.store(0, KEPT, file, 0, HAND)
}

/// Whether the list in the slot has a nonzero word for the file.
pub(crate) fn has(world: &mut World, list: u64, file: u64) -> Result<bool, Refusal>
    ensures { RunsCalls world.old world.new }
{
    let word = world.load(0, list, file, 0, HAND)?;
    world.set(0, HAND, 0)?;
    Ok(word != 0)
}

/// For how many files the list in the slot has a nonzero word.
pub(crate) fn count(world: &mut World, list: u64, files: u64) -> Result<u64, Refusal>
    ensures calls { RunsCalls world.old world.new }
    ensures within { IfOk result (λ count. count ≤ files) }
{
    let mut count = 0;
    for file in 0..files {
        if has(world, list, file)? {
            count += 1;
        }
    }
    Ok(count)
}

/// Records that a file is closed.
pub(crate) fn note_closed(world: &mut World, file: u64)
    ensures { RunsCalls world.old world.new }
{
    let _ = world.store(0, CLOSED, file, 0, ONE);
}
