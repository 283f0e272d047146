//! Objects, their words, and the slots that point to them.

ghost use Rattle.std.specs.Prelude.{◌≡◌, ◌+◌, ◌*◌, IfOk, OnOk, OnErr};
ghost use Rattle.fz_model.specs.declared.limits.TheConstants.{BLOCK_WORDS};
ghost use Rattle.fz_model.specs.Extents.{IsInHeap};
ghost use Rattle.fz_model.specs.Memory.{address_of};
ghost use Rattle.fz_model.specs.Allocation.{block_of};
ghost use Rattle.fz_model.specs.Causes.{IsJudgedBy};
ghost use Rattle.fz_model.specs.declared.call.Call.TheVariants as calls;
ghost use Rattle.fz_model.specs.Places.{slot_at, place_at};
ghost use Rattle.fz_model.specs.Events.{Make, causes};
ghost use Rattle.fz_world.specs.World.{KeepsMarks, MarksMade, NotesWritten, with_in_cycle};
ghost use Rattle.fz_world.specs.Does.{Does};

use crate::world::World;
use fz_dirty::Dirty;
use fz_marker::Marker;
use fz_model::{Addr, BLOCK_WORDS, HEAP_START, ObjKind, Refusal, Slot, Word};

/// In an open cycle, makes the page of a written word dirty.
fn note_written(dirty: &mut Dirty, cycle: bool, address: Addr)
    requires { IsInHeap dirty.old.pages address }
    ensures { dirty.new ≡ record dirty.old { noted = with_in_cycle cycle dirty.old.noted (block_of address) } }
{
    if cycle {
        dirty.mark((address - HEAP_START) / BLOCK_WORDS);
    }
}

/// In an open cycle, marks a new object.
fn mark_new(marker: &mut Marker, cycle: bool, start: Addr, blocks: u64)
    requires size { marker.old.size ≡ BLOCK_WORDS * blocks }
    requires in_heap { IsInHeap blocks start }
    ensures { marker.new ≡ record marker.old { marked = with_in_cycle cycle marker.old.marked start } }
{
    if cycle {
        marker.born(start);
    }
}

#[tactic(auto, using(fz_model::proofs::Judged::judged_more, fz_model::proofs::Judged::judged_err, crate::proofs::Targets::targets_made, crate::proofs::Targets::targets_written, crate::proofs::Whole::world_pages, crate::proofs::Whole::world_made, crate::proofs::Whole::world_written, crate::proofs::Does::does_refused, crate::proofs::Does::does_accepted, crate::proofs::Does::does_alloc))]
impl World {
    /// Allocates an object of `size` words, all of them zero, stores its address in the slot, and returns its address and birth. An atomic object is
    /// pointer-free, as with `GC_malloc_atomic`. In an open cycle the object is marked and its page becomes dirty. Takes time proportional to the object's
    /// words.
    ///
    /// Fails with, in this order: `BadSlot`, `BadSize` if the size isn't from 1 to 1,024 words, `Exhausted` after 2^48 births, `NoSpace`.
    pub fn alloc(
        &mut self,
        frame: u64,
        slot: u64,
        size: u64,
        kind: ObjKind,
    ) -> Result<(Addr, u64), Refusal>
        ensures step { Does self.old (Make (calls.Alloc (slot_at frame slot) size kind)) result self.new }
        // It allocates no memory, since `open` reserved it. So each refusal has its cause.
        ensures caused { IsJudgedBy (causes self.old.core (Make (calls.Alloc (slot_at frame slot) size kind))) result }
        ensures refused { OnErr result (self.new ≡ self.old) }
        ensures marks { IfOk result (λ made. MarksMade self.old made.0 self.new) }
    {
        self.frames.check(Slot { frame, slot })?;
        let (address, birth) = self.marked.heap.alloc(size, kind)?;
        self.frames.set(Slot { frame, slot }, address);
        mark_new(
            &mut self.marked.marker,
            self.cycle,
            address,
            self.marked.heap.blocks(),
        );
        note_written(&mut self.dirty, self.cycle, address);
        Ok((address, birth))
    }

    /// Loads the word at `offset` words after the slot's word, in the object to which that points, stores it in the second slot, and returns it. The second
    /// slot may be the first one.
    ///
    /// Fails with, in this order: `BadSlot` for either slot, `NotPointer`, `OutsideObject` if the slot's word plus the offset lies outside the object.
    pub fn load(
        &mut self,
        frame: u64,
        slot: u64,
        offset: u64,
        to_frame: u64,
        to_slot: u64,
    ) -> Result<Word, Refusal>
        ensures step { Does self.old (Make (calls.Load (place_at frame slot offset) (slot_at to_frame to_slot))) result self.new }
        ensures caused { IsJudgedBy (causes self.old.core (Make (calls.Load (place_at frame slot offset) (slot_at to_frame to_slot)))) result }
        ensures refused { OnErr result (self.new ≡ self.old) }
        ensures marks { KeepsMarks self.old self.new }
    {
        let word = self.frames.get(Slot { frame, slot })?;
        let to = Slot {
            frame: to_frame,
            slot: to_slot,
        };
        self.frames.check(to)?;
        let read = self.marked.heap.read(word, offset)?;
        self.frames.set(to, read);
        Ok(read)
    }

    /// Stores the second slot's word at `offset` words after the first slot's word, in the object to which that points. In an open cycle the page of the
    /// written word becomes dirty (this is the write barrier). To store a number, `set` a slot to it first.
    ///
    /// Fails with, in this order: `BadSlot` for either slot, `NotPointer`, `OutsideObject` if the slot's word plus the offset lies outside the object.
    pub fn store(
        &mut self,
        frame: u64,
        slot: u64,
        offset: u64,
        from_frame: u64,
        from_slot: u64,
    ) -> Result<(), Refusal>
        ensures step { Does self.old (Make (calls.Store (place_at frame slot offset) (slot_at from_frame from_slot))) result self.new }
        ensures caused { IsJudgedBy (causes self.old.core (Make (calls.Store (place_at frame slot offset) (slot_at from_frame from_slot)))) result }
        ensures refused { OnErr result (self.new ≡ self.old) }
        ensures marks { OnOk result (NotesWritten self.old (address_of self.old.frames (place_at frame slot offset)) self.new) }
    {
        let word = self.frames.get(Slot { frame, slot })?;
        let value = self.frames.get(Slot {
            frame: from_frame,
            slot: from_slot,
        })?;
        self.marked.heap.write(word, offset, value)?;
        note_written(&mut self.dirty, self.cycle, word + offset);
        Ok(())
    }

    /// Stores the word in the slot.
    ///
    /// Fails with `BadSlot` if the slot doesn't exist.
    pub fn set(&mut self, frame: u64, slot: u64, word: Word) -> Result<(), Refusal>
        ensures step { Does self.old (Make (calls.Set (slot_at frame slot) word)) result self.new }
        ensures caused { IsJudgedBy (causes self.old.core (Make (calls.Set (slot_at frame slot) word))) result }
        ensures refused { OnErr result (self.new ≡ self.old) }
        ensures marks { KeepsMarks self.old self.new }
    {
        self.frames.check(Slot { frame, slot })?;
        self.frames.set(Slot { frame, slot }, word);
        Ok(())
    }

    /// Copies the slot's word into the second slot.
    ///
    /// Fails with `BadSlot` if either slot doesn't exist.
    pub fn copy(
        &mut self,
        frame: u64,
        slot: u64,
        to_frame: u64,
        to_slot: u64,
    ) -> Result<(), Refusal>
        ensures step { Does self.old (Make (calls.Copy (slot_at frame slot) (slot_at to_frame to_slot))) result self.new }
        ensures caused { IsJudgedBy (causes self.old.core (Make (calls.Copy (slot_at frame slot) (slot_at to_frame to_slot)))) result }
        ensures refused { OnErr result (self.new ≡ self.old) }
        ensures marks { KeepsMarks self.old self.new }
    {
        let word = self.frames.get(Slot { frame, slot })?;
        let to = Slot {
            frame: to_frame,
            slot: to_slot,
        };
        self.frames.check(to)?;
        self.frames.set(to, word);
        Ok(())
    }
}
