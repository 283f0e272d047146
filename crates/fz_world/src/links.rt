//! Disappearing links.

ghost use Rattle.std.specs.Prelude.{◌≡◌, ◌≤◌, ◌+◌, [], ◌∷◌, IfOk, IfErr, OnOk, OnErr, IsTrue};
ghost use Rattle.std.specs.Option.{IsNone};
ghost use Rattle.std.specs.FinMap.{get, contains_key};
ghost use Rattle.fz_model.specs.declared.limits.TheConstants.{HEAP_START};
ghost use Rattle.fz_model.specs.Causes.{IsJudgedBy, IsJudgedOrLacks, full};
ghost use Rattle.fz_model.specs.declared.call.Call.TheVariants as calls;
ghost use Rattle.fz_model.specs.Places.{slot_at, place_at};
ghost use Rattle.fz_model.specs.Events.{Make, causes};
ghost use Rattle.fz_model.specs.Steps.{move_answer, moved_to};
ghost use Rattle.fz_finalizers.specs.States.{links_of, with_links};
ghost use Rattle.fz_world.specs.World.{KeepsMarks};
ghost use Rattle.fz_world.specs.Does.{Does};
ghost use Rattle.fz_world.specs.Links.{LinksTo, link_at, two_place_causes, end_causes};

use crate::registrations::{check_start, first_entries};
use crate::world::World;
use fz_finalizers::Finalizers;
use fz_heap::Heap;
use fz_model::{Addr, LinkAnswer, LinkKind, MoveAnswer, Refusal, Slot, TABLE_LIMIT, Word};

/// The addresses of two places, each an offset after a word. Fails with, in this order: `NotPointer` and `OutsideObject` for the first place, then the same
/// for the second.
pub(crate) fn places(
    heap: &Heap,
    word: Word,
    offset: u64,
    to: Word,
    to_offset: u64,
) -> Result<(Addr, Addr), Refusal>
    ensures judged { IsJudgedBy (two_place_causes heap.now.objects word offset to to_offset) result }
    ensures first { IfOk result (λ places. places.0 ≡ word + offset) }
    ensures second { IfOk result (λ places. places.1 ≡ to + to_offset) }
    ensures high { IfOk result (λ places. HEAP_START ≤ places.1) }
{
    let first = heap.place(word, offset)?;
    let second = heap.place(to, to_offset)?;
    Ok((first, second))
}

/// The address of a link's place, which is an offset after a word. Fails with, in this order: `NotPointer` and `OutsideObject` for the place, then
/// `NotPointer` and `NotStart` for the target.
pub(crate) fn ends(heap: &Heap, word: Word, offset: u64, target: Word) -> Result<Addr, Refusal>
    ensures judged { IsJudgedBy (end_causes heap.now.objects word offset target) result }
    ensures place { IfOk result (λ link. link ≡ word + offset) }
    ensures object { OnOk result (IsTrue (contains_key heap.now.objects target)) }
    ensures high { IfOk result (λ link. (HEAP_START ≤ link) × (HEAP_START ≤ target)) }
{
    let link = heap.place(word, offset)?;
    check_start(heap, target)?;
    Ok(link)
}

/// Reserves room before the first link of a kind, so that the table seldom has to grow.
pub(crate) fn make_first_room(finalizers: &mut Finalizers, which: LinkKind, heap: &Heap)
    ensures state { finalizers.new.state ≡ finalizers.old.state }
    ensures memory { IsTrue finalizers.old.memory.whole → finalizers.new.memory ≡ finalizers.old.memory }
{
    if finalizers.links(which) > 0 {
        return;
    }
    let most = first_entries(heap, finalizers.passes());
    let (shorts, longs) = match which {
        LinkKind::Short => (most, 0),
        LinkKind::Long => (0, most),
    };
    // If that much memory isn't available, each link reserves its own.
    let _ = finalizers.reserve(0, shorts, longs);
}

/// Checks a world's limit. Fails with `TableFull` for a 65,537th link of its kind.
fn check_limit(finalizers: &Finalizers, which: LinkKind, word: Addr) -> Result<(), Refusal>
    ensures { IsJudgedBy (full (links_of finalizers.now.state which) word ∷ []) result }
{
    if finalizers.links(which) >= TABLE_LIMIT && finalizers.target(which, word).is_none() {
        return Err(Refusal::TableFull);
    }
    Ok(())
}

/// Links a word to a target. Fails as `check_limit` does, and then with `NoMemory`.
pub(crate) fn enroll(
    finalizers: &mut Finalizers,
    which: LinkKind,
    word: Addr,
    target: Addr,
) -> Result<LinkAnswer, Refusal>
    requires word { HEAP_START ≤ word }
    requires target { HEAP_START ≤ target }
    ensures links { LinksTo (links_of finalizers.old.state which) word target result (links_of finalizers.new.state which) }
    ensures same { finalizers.new.state ≡ with_links finalizers.old.state which (links_of finalizers.new.state which) }
    ensures memory { finalizers.new.memory ≡ finalizers.old.memory }
{
    check_limit(finalizers, which, word)?;
    finalizers
        .link(which, word, target)
        .map_err(|_| Refusal::NoMemory)
}

/// Moves a link to another word of the heap; its target stays the same. Takes no memory.
pub(crate) fn move_within(
    finalizers: &mut Finalizers,
    which: LinkKind,
    word: Addr,
    to: Addr,
) -> MoveAnswer
    requires { HEAP_START ≤ to }
    ensures answer { result ≡ move_answer (links_of finalizers.old.state which) word to }
    ensures moved { finalizers.new.state ≡ with_links finalizers.old.state which (moved_to (links_of finalizers.old.state which) word to (get (links_of finalizers.old.state which) word)) }
    ensures memory { finalizers.new.memory ≡ finalizers.old.memory }
{
    // Only zero is refused.
    finalizers
        .move_link(which, word, to)
        .unwrap_or(MoveAnswer::NotFound)
}

#[tactic(auto, using(fz_model::proofs::Judged::judged_more, fz_model::proofs::Judged::judged_err, crate::proofs::Does::link_refused, crate::proofs::Does::link_judged, crate::proofs::Does::does_refused, crate::proofs::Does::does_accepted))]
impl World {
    /// Registers a disappearing link at `offset` words after the slot's word, whose target is the object at the target slot's word. This is
    /// `GC_general_register_disappearing_link` or `GC_register_long_link`. If the place has a link already, only its target changes.
    ///
    /// Fails with, in this order: `BadSlot` for either slot, `NotPointer` and `OutsideObject` for the place, `NotPointer` and `NotStart` for the target,
    /// `TableFull` for a 65,537th link of its kind, `NoMemory`.
    pub fn link(
        &mut self,
        which: LinkKind,
        frame: u64,
        slot: u64,
        offset: u64,
        target_frame: u64,
        target_slot: u64,
    ) -> Result<LinkAnswer, Refusal>
        ensures step { Does self.old (Make (calls.Link which (place_at frame slot offset) (slot_at target_frame target_slot))) result self.new }
        ensures caused { IsJudgedOrLacks (causes self.old.core (Make (calls.Link which (place_at frame slot offset) (slot_at target_frame target_slot)))) result }
        ensures refused { OnErr result (self.new ≡ self.old) }
        // Only a new link can run out of memory.
        ensures growth { IfErr result (λ r. r ≡ Refusal.NoMemory → IsNone (link_at self.old.core which (place_at frame slot offset))) }
        ensures marks { KeepsMarks self.old self.new }
    {
        let word = self.frames.get(Slot { frame, slot })?;
        let target = self.frames.get(Slot {
            frame: target_frame,
            slot: target_slot,
        })?;
        self.link_at(which, word, offset, target)
    }

    /// Removes the link at `offset` words after the slot's word, and returns whether there was one. This is `GC_unregister_disappearing_link` or
    /// `GC_unregister_long_link`.
    ///
    /// Fails with, in this order: `BadSlot`, `NotPointer`, `OutsideObject`.
    pub fn unlink(
        &mut self,
        which: LinkKind,
        frame: u64,
        slot: u64,
        offset: u64,
    ) -> Result<bool, Refusal>
        ensures step { Does self.old (Make (calls.Unlink which (place_at frame slot offset))) result self.new }
        ensures caused { IsJudgedBy (causes self.old.core (Make (calls.Unlink which (place_at frame slot offset)))) result }
        ensures refused { OnErr result (self.new ≡ self.old) }
        ensures marks { KeepsMarks self.old self.new }
    {
        let word = self.frames.get(Slot { frame, slot })?;
        self.unlink_at(which, word, offset)
    }

    /// Moves a link from one place to another; its target stays the same, and no word changes. This is `GC_move_disappearing_link` or `GC_move_long_link`.
    ///
    /// Takes no memory. Takes time proportional to the links of its kind when it rebuilds their table, which happens only a few times in as many moves as there
    /// are links.
    ///
    /// Fails with, in this order: `BadSlot` for either slot, `NotPointer` and `OutsideObject` for the old place, the same for the new one.
    pub fn move_link(
        &mut self,
        which: LinkKind,
        frame: u64,
        slot: u64,
        offset: u64,
        to_frame: u64,
        to_slot: u64,
        to_offset: u64,
    ) -> Result<MoveAnswer, Refusal>
        ensures step { Does self.old (Make (calls.Move which (place_at frame slot offset) (place_at to_frame to_slot to_offset))) result self.new }
        ensures caused { IsJudgedBy (causes self.old.core (Make (calls.Move which (place_at frame slot offset) (place_at to_frame to_slot to_offset)))) result }
        ensures refused { OnErr result (self.new ≡ self.old) }
        ensures marks { KeepsMarks self.old self.new }
    {
        let word = self.frames.get(Slot { frame, slot })?;
        let to = self.frames.get(Slot {
            frame: to_frame,
            slot: to_slot,
        })?;
        self.move_link_at(which, word, offset, to, to_offset)
    }
}
