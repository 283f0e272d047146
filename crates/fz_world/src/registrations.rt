//! Registrations of finalizers.

ghost use Rattle.std.specs.Prelude.{◌≡◌, ◌≤◌, IsTrue, OnOk, OnErr};
ghost use Rattle.std.specs.FinMap.{contains_key};
ghost use Rattle.fz_model.specs.declared.limits.TheConstants.{HEAP_START, TABLE_LIMIT};
ghost use Rattle.fz_model.specs.Causes.{IsJudgedBy, register_causes, start_causes, is_off_heap};
ghost use Rattle.fz_model.specs.declared.call.Call.TheVariants as calls;
ghost use Rattle.fz_model.specs.Places.{slot_at, finalizer_of};
ghost use Rattle.fz_model.specs.Events.{Make, causes};
ghost use Rattle.fz_table.specs.Registers.{Registers};
ghost use Rattle.fz_world.specs.World.{HasNoUnreachable, KeepsMarks};
ghost use Rattle.fz_world.specs.Does.{Does};
ghost use Rattle.fz_world.specs.Registering.{RegistersFinalizer, entered, registered_in, with_registered};

use crate::world::World;
use fz_finalizers::{Finalizers, Kind};
use fz_heap::Heap;
use fz_model::{
    Addr, BLOCK_WORDS, COUNT_LIMIT, Finalizer, HEAP_START, Old, Refusal, RegAnswer, RegKind, Slot,
    TABLE_LIMIT, Word,
};

/// The least room that a table reserves at once, so that small tables don't grow repeatedly.
const LEAST_ROOM: u64 = 1024;

/// Whether the word is zero, or lies outside the heap.
pub(crate) fn is_off_heap(heap: &Heap, word: Word) -> bool
    ensures { result ≡ is_off_heap heap.now.blocks word }
{
    word < HEAP_START || word >= HEAP_START + BLOCK_WORDS * heap.blocks()
}

/// Checks that the word is the address of an object.
pub(crate) fn check_start(heap: &Heap, word: Word) -> Result<(), Refusal>
    ensures judged { IsJudgedBy (start_causes heap.now.objects word) result }
    ensures object { OnOk result (IsTrue (contains_key heap.now.objects word)) }
    ensures high { OnOk result (HEAP_START ≤ word) }
{
    let Some(start) = heap.resolve(word) else {
        return Err(Refusal::NotPointer);
    };
    // The address of an object points to that object.
    if start != word {
        return Err(Refusal::NotStart);
    }
    Ok(())
}

/// The largest number of registrations, or of links of one kind, at one time: one for each word of the heap, up to a table's limit.
pub(crate) fn most_entries(heap: &Heap) -> usize
    ensures { result ≤ TABLE_LIMIT }
{
    (BLOCK_WORDS * heap.blocks()).min(TABLE_LIMIT) as usize
}

/// How many registrations, or links of one kind, to reserve room for at first: before the first pass one for each object, and later a small number.
pub(crate) fn first_entries(heap: &Heap, passes: u64) -> usize
    ensures { result ≤ TABLE_LIMIT }
{
    let made = if passes == 0 { heap.births() } else { 0 };
    let wanted = made.clamp(LEAST_ROOM, TABLE_LIMIT) as usize;
    wanted.min(most_entries(heap))
}

/// Reserves room before the first registration, for registrations and their entries, so that table and queue seldom have to grow.
pub(crate) fn make_first_room(finalizers: &mut Finalizers, heap: &Heap)
    ensures state { finalizers.new.state ≡ finalizers.old.state }
    ensures memory { IsTrue finalizers.old.memory.whole → finalizers.new.memory ≡ finalizers.old.memory }
{
    if finalizers.registrations() == 0 {
        // If that much memory isn't available, each registration reserves its own.
        let _ = finalizers.reserve(first_entries(heap, finalizers.passes()), 0, 0);
    }
}

/// Checks a world's limits. Fails with, in this order: `Exhausted` after 2^48 numbers, `TableFull` for a 65,537th object.
fn check_limits(finalizers: &Finalizers, object: Addr) -> Result<(), Refusal>
    ensures { IsJudgedBy (register_causes finalizers.now.registrations finalizers.now.next_number object) result }
{
    if finalizers.next_number() >= COUNT_LIMIT {
        return Err(Refusal::Exhausted);
    }
    if finalizers.registrations() >= TABLE_LIMIT && finalizers.registration(object).is_none() {
        return Err(Refusal::TableFull);
    }
    Ok(())
}

/// The finalizer as a host registers it. Without a rank it has rank 0.
fn entered(finalizer: Finalizer) -> fz_finalizers::Finalizer
    ensures { result ≡ entered finalizer }
{
    fz_finalizers::Finalizer {
        kind: Kind::of_table(false, finalizer.kind),
        procedure: finalizer.procedure,
        client_data: finalizer.client_data,
        rank: finalizer.rank.unwrap_or(0),
    }
}

/// Registers an object's finalizer, and returns the number and what was replaced. Fails as `check_limits` does, and then with `NoMemory`. A failed call
/// leaves at most reserved room behind.
pub(crate) fn enroll(
    finalizers: &mut Finalizers,
    object: Addr,
    finalizer: Finalizer,
) -> Result<(u64, Option<Old>), Refusal>
    requires object { HEAP_START ≤ object }
    requires none { HasNoUnreachable finalizers.old.state }
    ensures registers { Registers (registered_in finalizers.old.state) object finalizer result (registered_in finalizers.new.state) }
    ensures same { finalizers.new.state ≡ with_registered finalizers.old.state (registered_in finalizers.new.state) }
    ensures memory { IsTrue finalizers.old.memory.whole → finalizers.new.memory ≡ finalizers.old.memory }
{
    check_limits(finalizers, object)?;
    // Within these limits a registration fails only if memory runs out.
    let Ok(answer) = finalizers.register(object, entered(finalizer)) else {
        return Err(Refusal::NoMemory);
    };
    Ok(answer)
}

#[tactic(auto, using(fz_model::proofs::Judged::judged_more, fz_model::proofs::Judged::judged_err, crate::proofs::Whole::world_registered, crate::proofs::Whole::world_removed, crate::proofs::Does::start_refused, crate::proofs::Does::does_refused, crate::proofs::Does::does_accepted))]
impl World {
    /// Registers a finalizer for the object at the slot's word, as `GC_register_finalizer` or its `_ignore_self` or `_no_order` variant does, in place of the
    /// registration that it may have. Returns the registration number and what was replaced. A word that is zero or outside the heap is no error: nothing
    /// changes, and the result is `Outside`. A pass queues ready finalizers by rank, then address. Takes time proportional to the heap for the first
    /// registration in a world.
    ///
    /// Fails with, in this order: `BadSlot`, `NotPointer`, `NotStart`, `Exhausted` after 2^48 numbers, `TableFull` for a 65,537th object, `NoMemory`.
    pub fn register(
        &mut self,
        frame: u64,
        slot: u64,
        kind: RegKind,
        proc: u64,
        cd: Word,
        rank: u8,
    ) -> Result<RegAnswer, Refusal>
        ensures { RegistersFinalizer self.old (slot_at frame slot) (finalizer_of kind proc cd rank) result self.new }
    {
        let finalizer = Finalizer::new(kind, proc, cd, rank);
        self.register_finalizer(Slot { frame, slot }, finalizer)
    }

    /// The same as `register`, with slot and finalizer as values. A finalizer without a rank has rank 0.
    pub fn register_finalizer(
        &mut self,
        slot: Slot,
        finalizer: Finalizer,
    ) -> Result<RegAnswer, Refusal>
        ensures { RegistersFinalizer self.old slot finalizer result self.new }
    {
        let word = self.frames.get(slot)?;
        self.register_at(word, finalizer)
    }

    /// Removes the registration of the object at the slot's word, and returns its procedure and client data, if it was registered. This is
    /// `GC_register_finalizer` without a procedure.
    ///
    /// Fails with, in this order: `BadSlot`, `NotPointer`, `NotStart`. A word that is zero or outside the heap has no registration.
    pub fn unregister(&mut self, frame: u64, slot: u64) -> Result<Option<Old>, Refusal>
        ensures step { Does self.old (Make (calls.Unregister (slot_at frame slot))) result self.new }
        ensures caused { IsJudgedBy (causes self.old.core (Make (calls.Unregister (slot_at frame slot)))) result }
        ensures refused { OnErr result (self.new ≡ self.old) }
        ensures marks { KeepsMarks self.old self.new }
    {
        let word = self.frames.get(Slot { frame, slot })?;
        self.unregister_at(word)
    }
}
