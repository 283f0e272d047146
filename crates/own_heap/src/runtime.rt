//! A heap with finalizers.

ghost use Rattle.std.specs.Prelude.{◌≡◌, ◌+◌, ◌++◌, ◌∷◌, [], ◌<◌, if◌then◌else◌, is_some, length, replicate, IfErr, IfOk, IsTrue, MatchOption, OnErr, OnOk, None};
ghost use Rattle.std.specs.FinMap.{contains_key, get};
ghost use Rattle.fz_model.specs.Steps.{move_answer, old_of};
ghost use Rattle.fz_pass.specs.Keyed.{ephemeron_at, has_ephemeron, of_kind};
ghost use Rattle.fz_pass.specs.Keyed as keyed;
ghost use Rattle.fz_finalizers.specs.Causes.{IsJudgedBy, IsJudgedOrLacks, add_causes, finish_causes, link_causes, move_causes, register_causes};
ghost use Rattle.fz_finalizers.specs.States.{HasRooms, IsRoomier, Spends, UsesEntry, UsesLink, links_of, opening, room_of, waiting};
ghost use Rattle.fz_finalizers.specs.Follows.{Follows, Register, Unregister, Link, Unlink, Move, Ephemeron, EndEphemeron, MoveEphemeron, AddCleanup, Cancel, Take, Finish, next_pass};
ghost use Rattle.own_heap.specs.Records.{address_of, objects_of, slot, with_field_at, AreFieldsLeft, IsFull, IsMade};
ghost use Rattle.fz_pass.specs.Marks.{IsClosed};
ghost use Rattle.fz_finalizers.specs.Walks.{registrations_in_order};
ghost use Rattle.own_heap.specs.Told.{AreStuckRecords, IsToldOfRecord};
ghost use Rattle.own_heap.specs.Sound.{HeldStand, IsSound};
ghost use Rattle.own_heap.specs.Marking.{is_marked};
ghost use Rattle.own_heap.specs.Collected.{Collects, MarksKept};

use crate::heap::Heap;
use crate::record::{FIELDS, Field, RecordId};
use fz_finalizers::{
    Attached, Cleanup, Entry, Finalizer, Finalizers, LinkAnswer, LinkKind, MoveAnswer, Old, Passed,
    Refused, Root,
};
use fz_model::Addr;
use fz_why::{NoMemory, Reason, stuck, why};
use std::alloc::{AllocError, Global};

/// Marks everything that one kind of the finalizers' roots reaches.
pub fn mark_kept(heap: &mut Heap, finalizers: &Finalizers, root: Root)
    requires { IsClosed (objects_of heap.old.records.slots.items) (is_marked heap.old.marks) }
    ensures rest { (heap.new.records ≡ heap.old.records) × (heap.new.roots ≡ heap.old.roots) }
    ensures marked { MarksKept (objects_of heap.old.records.slots.items) root finalizers.now.state (is_marked heap.old.marks) (is_marked heap.new.marks) }
{
    for word in finalizers.roots(root) {
        heap.mark_word(word);
    }
}

/// A heap, and the finalizers of its records.
#[derive(Drop)]
pub struct Runtime {
    pub(crate) heap: Heap,
    pub(crate) finalizers: Finalizers,
    pub(crate) ghost sound: { IsSound (objects_of heap.records.slots.items) finalizers.state },
}

impl Runtime {
    /// A heap with room for `size` records, and no registrations.
    pub fn new(alloc: Global, size: u32) -> Result<Runtime, AllocError>
        ensures records { IfOk result (λ r. r.heap.records.slots.items ≡ replicate size None) }
        ensures roots { IfOk result (λ r. r.heap.roots.items ≡ []) }
        ensures fresh { IfOk result (λ r. r.heap.cursor ≡ 0) }
        ensures finalizers { IfOk result (λ r. r.finalizers.state ≡ opening) }
    {
        let heap = Heap::new(alloc, size)?;
        let Ok(finalizers) = Finalizers::new(alloc) else {
            return Err(AllocError);
        };
        Ok(Runtime { heap, finalizers })
    }

    /// The heap.
    pub fn heap(&self) -> &Heap
        ensures { result.now ≡ self.now.heap }
    {
        &self.heap
    }

    /// Makes a record a root.
    pub fn add_root(&mut self, id: RecordId) -> Result<(), AllocError>
        ensures roots { IfOk result (λ _. self.new.heap.roots.items ≡ self.old.heap.roots.items ++ id ∷ []) }
        ensures refused { OnErr result (self.new.heap.roots.items ≡ self.old.heap.roots.items) }
        ensures rest { (self.new.heap.records ≡ self.old.heap.records) × (self.new.finalizers ≡ self.old.finalizers) }
    {
        self.heap.roots.push(id)?;
        Ok(())
    }

    /// Removes the root that was added last.
    pub fn pop_root(&mut self) -> Option<RecordId>
        ensures roots { MatchOption result ((self.old.heap.roots.items ≡ []) × (self.new.heap.roots.items ≡ [])) (λ id. self.old.heap.roots.items ≡ self.new.heap.roots.items ++ id ∷ []) }
        ensures rest { (self.new.heap.records ≡ self.old.heap.records) × (self.new.finalizers ≡ self.old.finalizers) }
    {
        self.heap.roots.pop()
    }

    /// Makes a record, as `Heap::make` does.
    pub fn make(&mut self, fields: [Field; FIELDS]) -> Option<RecordId>
        ensures full { result ≡ None → IsFull self.old.heap.records.slots.items 0 }
        ensures rest { (self.new.finalizers ≡ self.old.finalizers) × (self.new.heap.roots ≡ self.old.heap.roots) }
        ensures made { MatchOption result (self.new ≡ self.old) (λ id. IsMade self.old.heap.records.slots.items self.new.heap.records.slots.items id (record { fields = fields })) }
    {
        self.heap.make(fields)
    }

    /// Writes a field of a record, as `Heap::set` does.
    pub fn set(&mut self, id: RecordId, field: usize, value: Field)
        requires { field < FIELDS }
        ensures rest { (self.new.finalizers ≡ self.old.finalizers) × (self.new.heap.roots ≡ self.old.heap.roots) }
        ensures set { self.new.heap.records.slots.items ≡ with_field_at id.place field value self.old.heap.records.slots.items }
    {
        self.heap.set(id, field, value);
    }

    /// Reserves room for registrations and links, as `Finalizers::reserve` does.
    pub fn reserve(
        &mut self,
        registrations: usize,
        shorts: usize,
        longs: usize,
    ) -> Result<(), Refused>
        ensures heap { self.new.heap ≡ self.old.heap }
        ensures state { self.new.finalizers.state ≡ self.old.finalizers.state }
        ensures refused { IfErr result (λ r. r ≡ Refused.NoMemory) }
        ensures wanting { OnErr result (HasRooms self.old.finalizers.rooms registrations shorts longs → ⊥) }
        ensures kept { IsRoomier self.old.finalizers.rooms self.new.finalizers.rooms }
        ensures room { OnOk result (HasRooms self.new.finalizers.rooms registrations shorts longs) }
    {
        self.finalizers.reserve(registrations, shorts, longs)
    }

    /// Registers a finalizer for an existing record.
    pub fn register(
        &mut self,
        id: RecordId,
        finalizer: Finalizer,
    ) -> Result<(u64, Option<Old>), Refused>
        requires { IsTrue (is_some (slot self.old.heap.records.slots.items id.place)) }
        ensures heap { self.new.heap ≡ self.old.heap }
        ensures judged { IsJudgedOrLacks (register_causes self.old.finalizers.registrations self.old.finalizers.next_number (address_of id.place)) result }
        ensures fresh { IfErr result (λ r. r ≡ Refused.NoMemory → get self.old.finalizers.registrations (address_of id.place) ≡ None) }
        ensures wanting { IfErr result (λ r. r ≡ Refused.NoMemory → self.old.finalizers.rooms.registrations ≡ 0) }
        ensures refused { OnErr result (self.new.finalizers.state ≡ self.old.finalizers.state) }
        ensures number { IfOk result (λ answer. answer.0 ≡ self.old.finalizers.next_number) }
        ensures replaced { IfOk result (λ answer. answer.1 ≡ old_of self.old.finalizers.registrations (address_of id.place)) }
        ensures follows { OnOk result (Follows self.old.finalizers.state (Register (address_of id.place) finalizer) self.new.finalizers.state) }
        ensures room { Spends UsesEntry result self.old.finalizers.rooms self.new.finalizers.rooms }
    {
        self.finalizers.register(id.address(), finalizer)
    }

    /// Removes a record's registration, and returns its procedure and client data, if it was registered.
    pub fn unregister(&mut self, id: RecordId) -> Option<Old>
        ensures heap { self.new.heap ≡ self.old.heap }
        ensures answer { result ≡ old_of self.old.finalizers.registrations (address_of id.place) }
        ensures follows { Follows self.old.finalizers.state (Unregister (address_of id.place)) self.new.finalizers.state }
        ensures room { IsRoomier self.old.finalizers.rooms self.new.finalizers.rooms }
    {
        self.finalizers.unregister(id.address())
    }

    /// Makes a link to an existing record: from a field of a record (`RecordId::word`), or, with a number from `OUTSIDE` on, from outside of the heap.
    pub fn link(
        &mut self,
        kind: LinkKind,
        word: Addr,
        target: RecordId,
    ) -> Result<LinkAnswer, Refused>
        requires { IsTrue (is_some (slot self.old.heap.records.slots.items target.place)) }
        ensures heap { self.new.heap ≡ self.old.heap }
        ensures judged { IsJudgedOrLacks (link_causes (links_of self.old.finalizers.state kind) word (address_of target.place)) result }
        ensures fresh { IfErr result (λ r. r ≡ Refused.NoMemory → get (links_of self.old.finalizers.state kind) word ≡ None) }
        ensures answer { IfOk result (λ answer. answer ≡ (if contains_key (links_of self.old.finalizers.state kind) word then LinkAnswer.Duplicate else LinkAnswer.Success)) }
        ensures wanting { IfErr result (λ r. r ≡ Refused.NoMemory → room_of self.old.finalizers.rooms kind ≡ 0) }
        ensures refused { OnErr result (self.new.finalizers.state ≡ self.old.finalizers.state) }
        ensures follows { OnOk result (Follows self.old.finalizers.state (Link kind word (address_of target.place)) self.new.finalizers.state) }
        ensures room { Spends (UsesLink kind) result self.old.finalizers.rooms self.new.finalizers.rooms }
    {
        self.finalizers.link(kind, word, target.address())
    }

    /// Removes the link of a word, and returns whether there was one.
    pub fn unlink(&mut self, kind: LinkKind, word: Addr) -> bool
        ensures heap { self.new.heap ≡ self.old.heap }
        ensures answer { result ≡ contains_key (links_of self.old.finalizers.state kind) word }
        ensures follows { Follows self.old.finalizers.state (Unlink kind word) self.new.finalizers.state }
        ensures room { IsRoomier self.old.finalizers.rooms self.new.finalizers.rooms }
    {
        self.finalizers.unlink(kind, word)
    }

    /// Moves a link from one word to another; its target stays the same, and so do both fields. Fails with `Zero` if the other word is 0.
    pub fn move_link(&mut self, kind: LinkKind, word: Addr, to: Addr) -> Result<MoveAnswer, Refused>
        ensures heap { self.new.heap ≡ self.old.heap }
        ensures judged { IsJudgedBy (move_causes to) result }
        ensures refused { OnErr result (self.new.finalizers.state ≡ self.old.finalizers.state) }
        ensures answer { IfOk result (λ answer. answer ≡ move_answer (links_of self.old.finalizers.state kind) word to) }
        ensures follows { OnOk result (Follows self.old.finalizers.state (Move kind word to) self.new.finalizers.state) }
        ensures room { IsRoomier self.old.finalizers.rooms self.new.finalizers.rooms }
    {
        self.finalizers.move_link(kind, word, to)
    }

    /// Makes a word an ephemeron of an existing record, its key, in place of the one that it may be. What the field with this address hides (`Field::Hidden`)
    /// is retained by it only as long as the record in which the field lies and the key are.
    pub fn ephemeron(
        &mut self,
        kind: LinkKind,
        word: Addr,
        key: RecordId,
    ) -> Result<LinkAnswer, Refused>
        requires { IsTrue (is_some (slot self.old.heap.records.slots.items key.place)) }
        ensures heap { self.new.heap ≡ self.old.heap }
        ensures judged { IsJudgedOrLacks (link_causes (of_kind self.old.finalizers.ephemerons kind) word (address_of key.place)) result }
        ensures fresh { IfErr result (λ r. r ≡ Refused.NoMemory → get (of_kind self.old.finalizers.ephemerons kind) word ≡ None) }
        ensures answer { IfOk result (λ answer. answer ≡ (if has_ephemeron self.old.finalizers.ephemerons word then LinkAnswer.Duplicate else LinkAnswer.Success)) }
        ensures refused { OnErr result (self.new.finalizers.state ≡ self.old.finalizers.state) }
        ensures follows { OnOk result (Follows self.old.finalizers.state (Ephemeron kind word (address_of key.place)) self.new.finalizers.state) }
        ensures room { IsRoomier self.old.finalizers.rooms self.new.finalizers.rooms }
    {
        self.finalizers.ephemeron(kind, word, key.address())
    }

    /// Ends the ephemeron of a word, and returns its kind and the address of its key. The field stays the same, but nothing retains what it hides.
    pub fn end_ephemeron(&mut self, word: Addr) -> Option<(LinkKind, Addr)>
        ensures heap { self.new.heap ≡ self.old.heap }
        ensures answer { result ≡ ephemeron_at self.old.finalizers.ephemerons word }
        ensures follows { Follows self.old.finalizers.state (EndEphemeron word) self.new.finalizers.state }
        ensures room { IsRoomier self.old.finalizers.rooms self.new.finalizers.rooms }
    {
        self.finalizers.end_ephemeron(word)
    }

    /// Moves an ephemeron from one word to another; its kind and its key stay the same, and so do both fields. Fails with `Zero` if the other word is 0.
    pub fn move_ephemeron(&mut self, word: Addr, to: Addr) -> Result<MoveAnswer, Refused>
        ensures heap { self.new.heap ≡ self.old.heap }
        ensures judged { IsJudgedBy (move_causes to) result }
        ensures refused { OnErr result (self.new.finalizers.state ≡ self.old.finalizers.state) }
        ensures answer { IfOk result (λ answer. answer ≡ keyed.move_answer self.old.finalizers.ephemerons word to) }
        ensures follows { OnOk result (Follows self.old.finalizers.state (MoveEphemeron word to) self.new.finalizers.state) }
        ensures room { IsRoomier self.old.finalizers.rooms self.new.finalizers.rooms }
    {
        self.finalizers.move_ephemeron(word, to)
    }

    /// The kind of a word's ephemeron, and the address of its key.
    pub fn key(&self, word: Addr) -> Option<(LinkKind, Addr)>
        ensures { result ≡ ephemeron_at self.now.finalizers.ephemerons word }
    {
        self.finalizers.key(word)
    }

    /// Adds a cleanup to an existing record.
    pub fn add_cleanup(&mut self, id: RecordId, cleanup: Cleanup) -> Result<u64, Refused>
        requires { IsTrue (is_some (slot self.old.heap.records.slots.items id.place)) }
        ensures heap { self.new.heap ≡ self.old.heap }
        ensures judged { IsJudgedOrLacks (add_causes self.old.finalizers.cleanups self.old.finalizers.next_number (address_of id.place)) result }
        ensures wanting { IfErr result (λ r. r ≡ Refused.NoMemory → self.old.finalizers.rooms.cleanups ≡ 0) }
        ensures refused { OnErr result (self.new.finalizers.state ≡ self.old.finalizers.state) }
        ensures number { IfOk result (λ number. number ≡ self.old.finalizers.next_number) }
        ensures follows { OnOk result (Follows self.old.finalizers.state (AddCleanup (address_of id.place) cleanup) self.new.finalizers.state) }
        ensures room { Spends UsesEntry result self.old.finalizers.rooms self.new.finalizers.rooms }
    {
        self.finalizers.add_cleanup(id.address(), cleanup)
    }

    /// Removes a cleanup, and returns it, unless it was queued or cancelled, or never added.
    pub fn cancel(&mut self, number: u64) -> Option<Attached>
        ensures heap { self.new.heap ≡ self.old.heap }
        ensures answer { result ≡ get self.old.finalizers.cleanups number }
        ensures follows { Follows self.old.finalizers.state (Cancel number) self.new.finalizers.state }
        ensures room { IsRoomier self.old.finalizers.rooms self.new.finalizers.rooms }
    {
        self.finalizers.cancel(number)
    }

    /// The address of the record to which a link leads.
    pub fn target(&self, kind: LinkKind, word: Addr) -> Option<Addr>
        ensures { result ≡ get (links_of self.now.finalizers.state kind) word }
    {
        self.finalizers.target(kind, word)
    }

    /// Takes the first waiting entry. Its record is retained until the entry is finished.
    pub fn take(&mut self) -> Option<Entry>
        ensures heap { self.new.heap ≡ self.old.heap }
        ensures taken { MatchOption result ((waiting self.old.finalizers.state ≡ []) × (self.new.finalizers.state ≡ self.old.finalizers.state)) (λ entry. Follows self.old.finalizers.state (Take entry) self.new.finalizers.state) }
        ensures room { IsRoomier self.old.finalizers.rooms self.new.finalizers.rooms }
    {
        self.finalizers.take()
    }

    /// Finishes an entry, which then no longer retains its record.
    pub fn finish(&mut self, entry: &Entry) -> Result<(), Refused>
        ensures heap { self.new.heap ≡ self.old.heap }
        ensures judged { IsJudgedBy (finish_causes self.old.finalizers.held entry.now) result }
        ensures refused { OnErr result (self.new.finalizers.state ≡ self.old.finalizers.state) }
        ensures follows { OnOk result (Follows self.old.finalizers.state (Finish entry.now) self.new.finalizers.state) }
        ensures room { IsRoomier self.old.finalizers.rooms self.new.finalizers.rooms }
    {
        self.finalizers.finish(entry)
    }

    /// Why a record isn't finalized, as `fz_why::why` says.
    pub fn why(&self, alloc: Global, id: RecordId) -> Result<Reason, NoMemory>
        ensures told { IfOk result (λ reason. IsToldOfRecord self.now.heap.records.slots.items self.now.heap.roots.items self.now.finalizers.state reason id) }
    {
        why(alloc, &self.finalizers, &self.heap, id.address())
    }

    /// Which records wait for a ring, as `fz_why::stuck` says, by their addresses.
    pub fn stuck(&self, alloc: Global) -> Result<Vec<Addr>, NoMemory>
        ensures listed { IfOk result (λ objects. AreStuckRecords self.now.heap.records.slots.items self.now.heap.roots.items self.now.finalizers.state (registrations_in_order self.now.finalizers) objects.items) }
    {
        stuck(alloc, &self.finalizers, &self.heap)
    }

    /// A collection: marks what the roots, the unfinished entries and the client data reach, runs the finalizers' pass, with ephemerons, and frees all other
    /// records, those among them whose cleanups were queued.
    pub fn collect(&mut self) -> Passed
        ensures collected { Collects (objects_of self.old.heap.records.slots.items) self.old.heap.roots.items self.old.finalizers.state (objects_of self.new.heap.records.slots.items) self.new.finalizers.state }
        ensures pass { result.pass ≡ next_pass self.old.finalizers.passes }
        ensures picked { length self.new.finalizers.queue ≡ length self.old.finalizers.queue + result.picked }
        ensures cursor { self.new.heap.cursor ≡ 0 }
        // Records that remain are unchanged but for references that were cleared: `collected` says which. Numbers stay.
        ensures fields { AreFieldsLeft self.old.heap.records.slots.items self.new.heap.records.slots.items }
        ensures size { length self.new.heap.records.slots.items ≡ length self.old.heap.records.slots.items }
        ensures held { HeldStand (objects_of self.new.heap.records.slots.items) self.new.finalizers.state }
        ensures rest { self.new.heap.roots ≡ self.old.heap.roots }
    {
        self.heap.mark_roots();
        mark_kept(&mut self.heap, &self.finalizers, Root::HeldObject);
        mark_kept(&mut self.heap, &self.finalizers, Root::HeldData);
        mark_kept(&mut self.heap, &self.finalizers, Root::RegisteredData);
        let passed = self.finalizers.pass_with_ephemerons(&mut self.heap);
        self.heap.sweep();
        passed
    }
}
