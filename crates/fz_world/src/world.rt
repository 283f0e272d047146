//! The world, and opening it.

ghost use Rattle.std.specs.Prelude.{◌≡◌, ◌≤◌, ◌*◌, true, IfOk, IfErr};
ghost use Rattle.std.specs.FinSet.{empty};
ghost use Rattle.fz_model.specs.declared.limits.TheConstants.{MAX_BLOCKS, BLOCK_WORDS};
ghost use Rattle.fz_model.specs.State.{opening};
ghost use Rattle.fz_model.specs.Causes.{IsJudgedOrLacks};
ghost use Rattle.fz_finalizers.specs.States as finalizers;
ghost use Rattle.fz_world.specs.Does.{StandsFor, open_causes};

use crate::frames::Frames;
use fz_dirty::Dirty;
use fz_finalizers::Finalizers;
use fz_heap::Heap;
use fz_marked::Marked;
use fz_marker::Marker;
use fz_model::{MAX_FRAMES, Refusal};
use std::alloc::Global;
use std::marker::Model;

/// The size of a world.
#[derive(Clone, Copy, Debug, PartialEq, Eq)]
pub struct Config {
    /// The heap's size in blocks of 64 words, from 1 to 4,096.
    pub blocks: u64,
    /// The number of root frames, each of 16 slots, from 1 to 8.
    pub frames: u64,
}

/// A world of objects, root frames, registrations, links and a queue of finalizers, modelled on `gc.h`, with a mostly parallel marker.
///
/// Its model is the state of the model without the history of an open cycle, and the marks of the last cycle. If several refusals of a call apply, it returns
/// the first in the documented order. A refused call changes nothing in the model. Only `open`, `register` and `link` allocate memory.
pub struct World {
    pub(crate) marked: Marked,
    pub(crate) frames: Frames,
    pub(crate) finalizers: Finalizers,
    pub(crate) dirty: Dirty,
    pub(crate) closed: bool,
    pub(crate) cycle: bool,
}

// Written by hand, so that the owner drops it by one proved call, not field by field at each exit of a function.
impl Drop for World {
    fn drop(self) {
        let World {
            marked: _,
            frames: _,
            finalizers: _,
            dirty: _,
            closed: _,
            cycle: _,
        } = self;
    }
}

impl Model for World {
    ghost use Rattle.std.specs.Prelude.{IsTrue};
    ghost use Rattle.fz_world.specs.World.{WorldView, world_code, core_of, view_of, IsWorld, HasNumber, HaveTargets};

    ghost Value = { WorldView };

    ghost coded = { world_code };

    ghost view = { λ w. view_of (core_of w.marked.heap w.frames w.finalizers.state w.closed w.cycle) w.marked.marker w.dirty w.finalizers.memory };

    ghost invariant = { λ w. IsWorld w.marked.heap w.finalizers.state w.marked.marker w.dirty w.cycle × HasNumber w.finalizers.passes w.cycle
        × HaveTargets w.marked.heap.objects w.finalizers.short × HaveTargets w.marked.heap.objects w.finalizers.long × IsTrue w.finalizers.memory.whole };
}

/// The marker and the dirty pages of a heap.
fn marks(alloc: Global, blocks: u64) -> Result<(Marker, Dirty), Refusal>
    requires { blocks ≤ MAX_BLOCKS }
    ensures refused { IfErr result (λ r. r ≡ Refusal.NoMemory) }
    ensures marker { IfOk result (λ made. made.0 ≡ record { size = BLOCK_WORDS * blocks; marked = empty; scanned = empty; traced = empty; scans = 0 }) }
    ensures pages { IfOk result (λ made. made.1 ≡ record { pages = blocks; noted = empty }) }
{
    let marker = Marker::new(alloc, blocks)?;
    let dirty = Dirty::new(alloc, blocks)?;
    Ok((marker, dirty))
}

/// Finalizers that forget nothing by themselves.
fn finalizers(alloc: Global) -> Result<Finalizers, Refusal>
    ensures refused { IfErr result (λ r. r ≡ Refusal.NoMemory) }
    ensures opened { IfOk result (λ f. f.state ≡ finalizers.opening) }
    ensures memory { IfOk result (λ f. f.memory ≡ record { whole = true; forgotten = 0; remembered = 0 }) }
{
    Finalizers::whole(alloc).map_err(|_| Refusal::NoMemory)
}

#[tactic(auto, using(crate::proofs::Whole::world_opening, crate::proofs::Targets::targets_opening))]
impl World {
    /// Opens a world without objects, with all slots zero. Allocates all memory for the heap, marks and dirty pages. Takes time proportional to the heap.
    ///
    /// Fails with, in this order: `BadCount` if blocks or frames are outside their limits, `NoMemory` if an allocation fails.
    pub fn open(alloc: Global, config: Config) -> Result<World, Refusal>
        ensures judged { IsJudgedOrLacks (open_causes config.blocks config.frames) result }
        ensures opened { IfOk result (λ world. StandsFor world (opening config.blocks config.frames)) }
        ensures unmarked { IfOk result (λ world. (world.scans ≡ 0) × (world.noted ≡ empty)) }
        ensures forgotten { IfOk result (λ world. world.forgotten ≡ 0) }
    {
        if config.frames < 1 || config.frames > MAX_FRAMES {
            return Err(Refusal::BadCount);
        }
        let heap = Heap::new(alloc, config.blocks)?;
        let frames = Frames::new(alloc, config.frames)?;
        let finalizers = finalizers(alloc)?;
        let (marker, dirty) = marks(alloc, heap.blocks())?;
        Ok(World {
            marked: Marked { heap, marker },
            frames,
            finalizers,
            dirty,
            closed: false,
            cycle: false,
        })
    }
}
