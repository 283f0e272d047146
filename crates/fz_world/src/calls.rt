//! Calls as values, each carried out by the method of its name.
#![tactic(auto, using(crate::proofs::Replying::replies, crate::proofs::Replying::refuses))]

ghost use Rattle.std.specs.Prelude.{◌≡◌, OnErr};
ghost use Rattle.fz_model.specs.declared.call.Call.TheVariants as calls;
ghost use Rattle.fz_world.specs.Replies.{Replies};

use crate::world::World;
use fz_model::{Call, Finalizer, LinkKind, ObjKind, Place, Refusal, Reply, Slot, Word};

impl World {
    /// Makes the call and returns its reply. Fails as the method of its name does; a failed call changes nothing. Takes time as the method of its name does.
    pub fn make(&mut self, call: Call) -> Result<Reply, Refusal>
        ensures told { Replies self.old call result self.new }
        ensures refused { OnErr result (self.new ≡ self.old) }
    {
        match call {
            Call::Alloc { slot, size, kind } => alloc(self, slot, size, kind),
            Call::Copy { slot, to } => copy(self, slot, to),
            Call::Load { place, to } => load(self, place, to),
            Call::Store { place, from } => store(self, place, from),
            Call::Set { slot, word } => set(self, slot, word),
            Call::Register { slot, finalizer } => register(self, slot, finalizer),
            Call::Unregister(slot) => unregister(self, slot),
            Call::Link {
                which,
                place,
                target,
            } => link(self, which, place, target),
            Call::Unlink { which, place } => unlink(self, which, place),
            Call::Move { which, place, to } => move_link(self, which, place, to),
            Call::Begin => begin(self),
            Call::Mark(budget) => mark(self, budget),
            Call::Pause => pause(self),
            Call::Collect => collect(self),
            Call::Close => close(self),
            Call::Outstanding => outstanding(self),
        }
    }
}

// Each method's result is passed on directly, so no call pays for the result types of others.

#[inline(never)]
fn alloc(world: &mut World, slot: Slot, size: u64, kind: ObjKind) -> Result<Reply, Refusal>
    ensures { Replies world.old (calls.Alloc slot size kind) result world.new }
{
    let (address, birth) = world.alloc(slot.frame, slot.slot, size, kind)?;
    Ok(Reply::Allocated { address, birth })
}

#[inline(never)]
fn copy(world: &mut World, slot: Slot, to: Slot) -> Result<Reply, Refusal>
    ensures { Replies world.old (calls.Copy slot to) result world.new }
{
    world.copy(slot.frame, slot.slot, to.frame, to.slot)?;
    Ok(Reply::Done)
}

#[inline(never)]
fn load(world: &mut World, place: Place, to: Slot) -> Result<Reply, Refusal>
    ensures { Replies world.old (calls.Load place to) result world.new }
{
    let Place { slot, offset } = place;
    Ok(Reply::Word(world.load(slot.frame, slot.slot, offset, to.frame, to.slot)?))
}

#[inline(never)]
fn store(world: &mut World, place: Place, from: Slot) -> Result<Reply, Refusal>
    ensures { Replies world.old (calls.Store place from) result world.new }
{
    let Place { slot, offset } = place;
    world.store(slot.frame, slot.slot, offset, from.frame, from.slot)?;
    Ok(Reply::Done)
}

#[inline(never)]
fn set(world: &mut World, slot: Slot, word: Word) -> Result<Reply, Refusal>
    ensures { Replies world.old (calls.Set slot word) result world.new }
{
    world.set(slot.frame, slot.slot, word)?;
    Ok(Reply::Done)
}

#[inline(never)]
fn register(world: &mut World, slot: Slot, finalizer: Finalizer) -> Result<Reply, Refusal>
    ensures { Replies world.old (calls.Register slot finalizer) result world.new }
{
    Ok(Reply::Registered(world.register_finalizer(slot, finalizer)?))
}

#[inline(never)]
fn unregister(world: &mut World, slot: Slot) -> Result<Reply, Refusal>
    ensures { Replies world.old (calls.Unregister slot) result world.new }
{
    Ok(Reply::Unregistered(world.unregister(slot.frame, slot.slot)?))
}

#[inline(never)]
fn link(world: &mut World, which: LinkKind, place: Place, target: Slot) -> Result<Reply, Refusal>
    ensures { Replies world.old (calls.Link which place target) result world.new }
{
    let Place { slot, offset } = place;
    Ok(Reply::Linked(world.link(
        which,
        slot.frame,
        slot.slot,
        offset,
        target.frame,
        target.slot,
    )?))
}

#[inline(never)]
fn unlink(world: &mut World, which: LinkKind, place: Place) -> Result<Reply, Refusal>
    ensures { Replies world.old (calls.Unlink which place) result world.new }
{
    let Place { slot, offset } = place;
    Ok(Reply::Unlinked(world.unlink(which, slot.frame, slot.slot, offset)?))
}

#[inline(never)]
fn move_link(world: &mut World, which: LinkKind, place: Place, to: Place) -> Result<Reply, Refusal>
    ensures { Replies world.old (calls.Move which place to) result world.new }
{
    let Place { slot, offset } = place;
    Ok(Reply::Moved(world.move_link(
        which,
        slot.frame,
        slot.slot,
        offset,
        to.slot.frame,
        to.slot.slot,
        to.offset,
    )?))
}

#[inline(never)]
fn begin(world: &mut World) -> Result<Reply, Refusal>
    ensures { Replies world.old calls.Begin result world.new }
{
    world.begin()?;
    Ok(Reply::Done)
}

#[inline(never)]
fn mark(world: &mut World, budget: u64) -> Result<Reply, Refusal>
    ensures { Replies world.old (calls.Mark budget) result world.new }
{
    Ok(Reply::Marked(world.mark(budget)?))
}

#[inline(never)]
fn pause(world: &mut World) -> Result<Reply, Refusal>
    ensures { Replies world.old calls.Pause result world.new }
{
    Ok(Reply::Passed(world.pause()?))
}

#[inline(never)]
fn collect(world: &mut World) -> Result<Reply, Refusal>
    ensures { Replies world.old calls.Collect result world.new }
{
    Ok(Reply::Passed(world.collect()?))
}

#[inline(never)]
fn close(world: &mut World) -> Result<Reply, Refusal>
    ensures { Replies world.old calls.Close result world.new }
{
    world.close()?;
    Ok(Reply::Done)
}

#[inline(never)]
fn outstanding(world: &mut World) -> Result<Reply, Refusal>
    ensures { Replies world.old calls.Outstanding result world.new }
{
    Ok(Reply::Outstanding(world.outstanding()))
}
