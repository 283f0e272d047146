//! The calls that change finalizers. While a pass is open only entries are taken and finished.

ghost use Rattle.std.specs.Prelude.{◌≡◌, ◌≤◌, ◌+◌, ◌⊎◌, [], None, is_some, length, if◌then◌else◌, IfOk, IfErr, OnOk, OnErr, IsTrue};
ghost use Rattle.std.specs.FinMap.{get, len, contains_key, empty};
ghost use Rattle.std.specs.FinSet.{contains};
ghost use Rattle.fz_model.specs.Steps.{move_answer, old_of};
ghost use Rattle.fz_pass.specs.All.{QueuesAll};
ghost use Rattle.fz_pass.specs.Keyed as keyed;
ghost use Rattle.fz_pass.specs.Keyed.{ephemeron_at, has_ephemeron, of_kind};
ghost use Rattle.fz_finalizers.specs.Causes.{add_causes, finish_causes, link_causes, move_causes, register_causes};
ghost use Rattle.fz_finalizers.specs.Follows.{Follows, Register, Unregister, Link, Unlink, Move, Ephemeron, EndEphemeron, MoveEphemeron, AddCleanup, Cancel, QueueAll, Take, TakeFinished, Finish};
ghost use Rattle.fz_finalizers.specs.Passed.{CleansAll};
ghost use Rattle.fz_finalizers.specs.States.{HasRooms, IsRoomier, KeepsTables, links_of, room_of};
ghost use Rattle.fz_machine.specs.Causes.{IsJudgedBy, IsJudgedOrLacks};
ghost use Rattle.fz_machine.specs.Going.{HasRoomForMore};
ghost use Rattle.fz_machine.specs.Machines.{IsIdle, IsTaken, KeepsPass, KeepsRegions, NotesFor, RenewsRegions, is_noted, of_cleanups, of_links, of_objects, of_words};
ghost use Rattle.fz_finalizers.specs.declared.refused.Refused.TheVariants.{NoMemory};
ghost use Rattle.fz_machine.specs.declared.phase.Sweep.TheVariants as sweeps;

use crate::machine::Machine;
use crate::phase::Sweep;
use crate::refused::Refused;
use crate::reserving;
use crate::tables::{attached, holders, note, renew, targets};
use fz_finalizers::{
    Addr, Attached, Cleanup, Entry, Finalizer, LinkAnswer, LinkKind, MoveAnswer, Old,
};

impl Machine {
    /// Checks that no pass is open.
    fn check(&self) -> Result<(), Refused>
        ensures { IsJudgedBy self.now.phase [] result }
    {
        if self.phase.is_some() {
            return Err(Refused::PassOpen);
        }
        Ok(())
    }

    /// Reserves room for further registrations, and for further links of both kinds: for at most 2^32 of each. Registering and linking take no memory
    /// until this room is used up, and `shrink` frees what is left of it; only those in a new region of a machine with regions ask for memory then, too.
    /// Takes time proportional to the room.
    ///
    /// Fails with, in this order: `PassOpen`, `NoMemory` if an allocation fails.
    pub fn reserve(
        &mut self,
        registrations: usize,
        shorts: usize,
        longs: usize,
    ) -> Result<(), Refused>
        ensures judged { IsJudgedOrLacks self.old.phase [] result }
        ensures regions { KeepsRegions self.old self.new }
        ensures wanting { IfErr result (λ r. r ≡ Refused.Finalizers NoMemory → HasRooms self.old.finalizers.rooms registrations shorts longs → HasRoomForMore self.old.finalizers.state registrations shorts longs self.old.walk.room → ⊥) }
        ensures open { IsTrue (is_some self.old.phase) → self.new ≡ self.old }
        ensures same { (self.new.phase ≡ self.old.phase) × (self.new.finalizers.state ≡ self.old.finalizers.state) }
        ensures kept { IsRoomier self.old.finalizers.rooms self.new.finalizers.rooms × (self.old.walk.room ≤ self.new.walk.room) }
        ensures room { OnOk result (HasRooms self.new.finalizers.rooms registrations shorts longs × HasRoomForMore self.old.finalizers.state registrations shorts longs self.new.walk.room) }
    {
        self.check()?;
        match reserving::reserve(
            &mut self.finalizers,
            &mut self.walk,
            registrations,
            shorts,
            longs,
        ) {
            Ok(()) => Ok(()),
            Err(refused) => Err(Refused::Finalizers(refused)),
        }
    }

    /// Frees the memory that isn't needed, as `Finalizers::shrink` does, and that of the list that a pass processes. A machine with regions notes all again,
    /// which takes time for each registration, link and cleanup: regions without any go, and if one couldn't be noted for lack of memory, passes ask by regions
    /// again. If there isn't memory for that, the regions of this kind stay as they are. Fails with `PassOpen`.
    pub fn shrink(&mut self) -> Result<(), Refused>
        ensures judged { IsJudgedBy self.old.phase [] result }
        ensures regions { RenewsRegions self.old self.new }
        ensures refused { OnErr result (self.new ≡ self.old) }
        ensures idle { OnOk result (IsIdle self.new) }
        ensures state { self.new.finalizers.state ≡ self.old.finalizers.state }
        ensures order { KeepsTables self.old.finalizers.order self.new.finalizers.order }
    {
        self.check()?;
        reserving::shrink(&mut self.finalizers, &mut self.walk);
        renew(&self.finalizers, self.by, &mut self.tables);
        Ok(())
    }

    /// Registers a finalizer for an object, in place of the registration that it may have, and returns the registration number and what was replaced.
    ///
    /// Fails with `PassOpen`, and then as `Finalizers::register` does.
    pub fn register(
        &mut self,
        object: Addr,
        finalizer: Finalizer,
    ) -> Result<(u64, Option<Old>), Refused>
        ensures judged { IsJudgedOrLacks self.old.phase (register_causes self.old.finalizers.registrations self.old.finalizers.next_number object) result }
        ensures regions { NotesFor of_objects self.old self.new }
        // A registration that is replaced needs no memory for its region.
        ensures stays { IsTrue (contains_key self.old.finalizers.registrations object) → is_noted sweeps.Objects self.new ≡ is_noted sweeps.Objects self.old }
        // Only an object that isn't registered can run out of memory, and only if no room is reserved.
        ensures fresh { IfErr result (λ r. r ≡ Refused.Finalizers NoMemory → get self.old.finalizers.registrations object ≡ None) }
        ensures wanting { IfErr result (λ r. r ≡ Refused.Finalizers NoMemory → (self.old.finalizers.rooms.registrations ≡ 0) ⊎ (self.old.walk.room ≤ len self.old.finalizers.registrations)) }
        ensures open { IsTrue (is_some self.old.phase) → self.new ≡ self.old }
        ensures refused { OnErr result ((self.new.phase ≡ self.old.phase) × (self.new.finalizers.state ≡ self.old.finalizers.state)) }
        ensures number { IfOk result (λ answer. answer.0 ≡ self.old.finalizers.next_number) }
        ensures replaced { IfOk result (λ answer. answer.1 ≡ old_of self.old.finalizers.registrations object) }
        ensures follows { OnOk result (IsIdle self.new × Follows self.old.finalizers.state (Register object finalizer) self.new.finalizers.state) }
    {
        self.check()?;
        note(&mut self.tables, Sweep::Objects, object);
        match reserving::register(&mut self.finalizers, &mut self.walk, object, finalizer) {
            Ok(answer) => Ok(answer),
            Err(refused) => Err(Refused::Finalizers(refused)),
        }
    }

    /// Registers a disappearing link from the word to the target, an object. If the word has a link already, only its target changes.
    ///
    /// Fails with `PassOpen`, and then as `Finalizers::link` does.
    pub fn link(&mut self, kind: LinkKind, word: Addr, target: Addr) -> Result<LinkAnswer, Refused>
        ensures judged { IsJudgedOrLacks self.old.phase (link_causes (links_of self.old.finalizers.state kind) word target) result }
        ensures regions { NotesFor (of_links kind) self.old self.new }
        // Only a new link can run out of memory, and only if no room is reserved.
        ensures fresh { IfErr result (λ r. r ≡ Refused.Finalizers NoMemory → get (links_of self.old.finalizers.state kind) word ≡ None) }
        ensures wanting { IfErr result (λ r. r ≡ Refused.Finalizers NoMemory → (room_of self.old.finalizers.rooms kind ≡ 0) ⊎ (self.old.walk.room ≤ len (links_of self.old.finalizers.state kind))) }
        ensures open { IsTrue (is_some self.old.phase) → self.new ≡ self.old }
        ensures refused { OnErr result ((self.new.phase ≡ self.old.phase) × (self.new.finalizers.state ≡ self.old.finalizers.state)) }
        ensures answer { IfOk result (λ answer. answer ≡ (if contains_key (links_of self.old.finalizers.state kind) word then LinkAnswer.Duplicate else LinkAnswer.Success)) }
        ensures follows { OnOk result (IsIdle self.new × Follows self.old.finalizers.state (Link kind word target) self.new.finalizers.state) }
    {
        self.check()?;
        note(&mut self.tables, targets(kind), target);
        note(&mut self.tables, holders(kind), word);
        match reserving::link(&mut self.finalizers, &mut self.walk, kind, word, target) {
            Ok(answer) => Ok(answer),
            Err(refused) => Err(Refused::Finalizers(refused)),
        }
    }

    /// Makes a word an ephemeron of a key, in place of the one that it may be: what the word points to is retained by the word only as long as the object in
    /// which the word lies and the key are.
    ///
    /// The host has to ensure that the key is an object, and doesn't scan the word with the object in which it lies. Takes no room that `reserve` reserved.
    /// Fails with `PassOpen`, and then as `Finalizers::ephemeron` does.
    pub fn ephemeron(
        &mut self,
        kind: LinkKind,
        word: Addr,
        key: Addr,
    ) -> Result<LinkAnswer, Refused>
        ensures judged { IsJudgedOrLacks self.old.phase (link_causes (of_kind self.old.finalizers.ephemerons kind) word key) result }
        ensures regions { KeepsRegions self.old self.new }
        // Only a new ephemeron, or one that changes its kind, can run out of memory.
        ensures fresh { IfErr result (λ r. r ≡ Refused.Finalizers NoMemory → get (of_kind self.old.finalizers.ephemerons kind) word ≡ None) }
        ensures open { IsTrue (is_some self.old.phase) → self.new ≡ self.old }
        ensures refused { OnErr result ((self.new.phase ≡ self.old.phase) × (self.new.finalizers.state ≡ self.old.finalizers.state)) }
        ensures answer { IfOk result (λ answer. answer ≡ (if has_ephemeron self.old.finalizers.ephemerons word then LinkAnswer.Duplicate else LinkAnswer.Success)) }
        ensures follows { OnOk result (IsIdle self.new × Follows self.old.finalizers.state (Ephemeron kind word key) self.new.finalizers.state) }
    {
        self.check()?;
        match reserving::ephemeron(&mut self.finalizers, &mut self.walk, kind, word, key) {
            Ok(answer) => Ok(answer),
            Err(refused) => Err(Refused::Finalizers(refused)),
        }
    }

    /// Ends the ephemeron of a word, and returns its kind and its key. Fails with `PassOpen`.
    pub fn end_ephemeron(&mut self, word: Addr) -> Result<Option<(LinkKind, Addr)>, Refused>
        ensures judged { IsJudgedBy self.old.phase [] result }
        ensures regions { KeepsRegions self.old self.new }
        ensures refused { OnErr result (self.new ≡ self.old) }
        ensures answer { IfOk result (λ was. was ≡ ephemeron_at self.old.finalizers.ephemerons word) }
        ensures follows { OnOk result (IsIdle self.new × Follows self.old.finalizers.state (EndEphemeron word) self.new.finalizers.state) }
    {
        self.check()?;
        Ok(self.finalizers.end_ephemeron(word))
    }

    /// Moves an ephemeron from one word to another; its kind and its key stay the same. Fails with, in this order: `PassOpen`, `Zero` if the other word is 0.
    pub fn move_ephemeron(&mut self, word: Addr, to: Addr) -> Result<MoveAnswer, Refused>
        ensures judged { IsJudgedBy self.old.phase (move_causes to) result }
        ensures regions { KeepsRegions self.old self.new }
        ensures open { IsTrue (is_some self.old.phase) → self.new ≡ self.old }
        ensures refused { OnErr result ((self.new.phase ≡ self.old.phase) × (self.new.finalizers.state ≡ self.old.finalizers.state)) }
        ensures answer { IfOk result (λ answer. answer ≡ keyed.move_answer self.old.finalizers.ephemerons word to) }
        ensures follows { OnOk result (IsIdle self.new × Follows self.old.finalizers.state (MoveEphemeron word to) self.new.finalizers.state) }
    {
        self.check()?;
        match self.finalizers.move_ephemeron(word, to) {
            Ok(answer) => Ok(answer),
            Err(refused) => Err(Refused::Finalizers(refused)),
        }
    }

    /// Adds a cleanup to an object, which may have others and a finalizer, and returns its number. When the object is lost, an entry without it is queued.
    ///
    /// Fails with `PassOpen`, and then as `Finalizers::add_cleanup` does.
    pub fn add_cleanup(&mut self, object: Addr, cleanup: Cleanup) -> Result<u64, Refused>
        ensures judged { IsJudgedOrLacks self.old.phase (add_causes self.old.finalizers.cleanups self.old.finalizers.next_number object) result }
        ensures regions { NotesFor (of_cleanups cleanup.when) self.old self.new }
        // Only a call without reserved room can run out of memory.
        ensures wanting { IfErr result (λ r. r ≡ Refused.Finalizers NoMemory → (self.old.finalizers.rooms.cleanups ≡ 0) ⊎ (self.old.walk.room ≤ len self.old.finalizers.cleanups)) }
        ensures open { IsTrue (is_some self.old.phase) → self.new ≡ self.old }
        ensures refused { OnErr result ((self.new.phase ≡ self.old.phase) × (self.new.finalizers.state ≡ self.old.finalizers.state)) }
        ensures number { IfOk result (λ number. number ≡ self.old.finalizers.next_number) }
        ensures follows { OnOk result (IsIdle self.new × Follows self.old.finalizers.state (AddCleanup object cleanup) self.new.finalizers.state) }
    {
        self.check()?;
        note(&mut self.tables, attached(cleanup.when), object);
        match reserving::add_cleanup(&mut self.finalizers, &mut self.walk, object, cleanup) {
            Ok(number) => Ok(number),
            Err(refused) => Err(Refused::Finalizers(refused)),
        }
    }

    /// Removes a cleanup, and returns it with its object. Returns none if it was queued or cancelled, or never added. Fails with `PassOpen`.
    pub fn cancel(&mut self, number: u64) -> Result<Option<Attached>, Refused>
        ensures judged { IsJudgedBy self.old.phase [] result }
        ensures regions { KeepsRegions self.old self.new }
        ensures refused { OnErr result (self.new ≡ self.old) }
        ensures answer { IfOk result (λ attached. attached ≡ get self.old.finalizers.cleanups number) }
        ensures follows { OnOk result (IsIdle self.new × Follows self.old.finalizers.state (Cancel number) self.new.finalizers.state) }
    {
        self.check()?;
        Ok(self.finalizers.cancel(number))
    }

    /// Removes an object's registration, and returns its procedure and client data, if it was registered. Fails with `PassOpen`.
    pub fn unregister(&mut self, object: Addr) -> Result<Option<Old>, Refused>
        ensures judged { IsJudgedBy self.old.phase [] result }
        ensures regions { KeepsRegions self.old self.new }
        ensures refused { OnErr result (self.new ≡ self.old) }
        ensures answer { IfOk result (λ old. old ≡ old_of self.old.finalizers.registrations object) }
        ensures follows { OnOk result (IsIdle self.new × Follows self.old.finalizers.state (Unregister object) self.new.finalizers.state) }
    {
        self.check()?;
        Ok(self.finalizers.unregister(object))
    }

    /// Removes the link of a word, and returns whether there was one. Fails with `PassOpen`.
    pub fn unlink(&mut self, kind: LinkKind, word: Addr) -> Result<bool, Refused>
        ensures judged { IsJudgedBy self.old.phase [] result }
        ensures regions { KeepsRegions self.old self.new }
        ensures refused { OnErr result (self.new ≡ self.old) }
        ensures answer { IfOk result (λ was. was ≡ contains_key (links_of self.old.finalizers.state kind) word) }
        ensures follows { OnOk result (IsIdle self.new × Follows self.old.finalizers.state (Unlink kind word) self.new.finalizers.state) }
    {
        self.check()?;
        Ok(self.finalizers.unlink(kind, word))
    }

    /// Moves a link from one word to another; its target stays the same. May take memory for the word's region. Fails with, in this order: `PassOpen`, `Zero`
    /// if the other word is 0.
    pub fn move_link(&mut self, kind: LinkKind, word: Addr, to: Addr) -> Result<MoveAnswer, Refused>
        ensures judged { IsJudgedBy self.old.phase (move_causes to) result }
        ensures regions { NotesFor (of_words kind) self.old self.new }
        ensures open { IsTrue (is_some self.old.phase) → self.new ≡ self.old }
        ensures refused { OnErr result ((self.new.phase ≡ self.old.phase) × (self.new.finalizers.state ≡ self.old.finalizers.state)) }
        ensures answer { IfOk result (λ answer. answer ≡ move_answer (links_of self.old.finalizers.state kind) word to) }
        ensures follows { OnOk result (IsIdle self.new × Follows self.old.finalizers.state (Move kind word to) self.new.finalizers.state) }
        // Only a new link uses reserved room.
        ensures room { IsRoomier self.old.finalizers.rooms self.new.finalizers.rooms }
    {
        self.check()?;
        note(&mut self.tables, holders(kind), to);
        match self.finalizers.move_link(kind, word, to) {
            Ok(answer) => Ok(answer),
            Err(refused) => Err(Refused::Finalizers(refused)),
        }
    }

    /// Queues every registration, whatever is marked, and returns how many there were: `GC_finalize_all`. Links and cleanups are unchanged. Takes time
    /// proportional to the registrations. Fails with `PassOpen`.
    pub fn queue_all(&mut self) -> Result<u64, Refused>
        ensures judged { IsJudgedBy self.old.phase [] result }
        ensures regions { KeepsRegions self.old self.new }
        ensures refused { OnErr result (self.new ≡ self.old) }
        ensures queued { OnOk result (QueuesAll (length self.old.finalizers.queue) self.old.finalizers.registrations (contains self.old.finalizers.late) self.old.finalizers.queue self.new.finalizers.queue) }
        ensures follows { OnOk result (IsIdle self.new × Follows self.old.finalizers.state QueueAll self.new.finalizers.state) }
        ensures count { IfOk result (λ count. length self.new.finalizers.queue ≡ length self.old.finalizers.queue + count) }
    {
        self.check()?;
        Ok(self.finalizers.queue_all())
    }

    /// Queues every cleanup, whatever is marked, and returns how many there were: first the short ones, then the long ones, each by rank, then number. The
    /// entries' pass is 0. Takes time proportional to the cleanups. Fails with `PassOpen`.
    pub fn queue_cleanups(&mut self) -> Result<u64, Refused>
        ensures judged { IsJudgedBy self.old.phase [] result }
        ensures regions { KeepsRegions self.old self.new }
        ensures refused { OnErr result (self.new ≡ self.old) }
        ensures idle { OnOk result (IsIdle self.new) }
        ensures queued { OnOk result (CleansAll self.old.finalizers.state self.new.finalizers.state) }
        ensures none { OnOk result (self.new.finalizers.cleanups ≡ empty) }
        ensures count { IfOk result (λ count. length self.new.finalizers.queue ≡ length self.old.finalizers.queue + count) }
    {
        self.check()?;
        Ok(self.finalizers.queue_cleanups())
    }

    /// Takes the first waiting entry. It is held until it is finished: its object and its client data stay roots. An open pass allows it.
    pub fn take(&mut self) -> Option<Entry>
        ensures takes { IsTaken Take self.old self.new result }
        ensures keeps { KeepsPass self.old self.new }
    {
        self.finalizers.take()
    }

    /// Takes the first waiting entry and finishes it at once, for a finalizer that may never return. An open pass allows it.
    pub fn take_finished(&mut self) -> Option<Entry>
        ensures takes { IsTaken TakeFinished self.old self.new result }
        ensures keeps { KeepsPass self.old self.new }
    {
        self.finalizers.take_finished()
    }

    /// Finishes a held entry. An open pass allows it. Fails with `NotHeld` if no held entry equals this one in all fields.
    pub fn finish(&mut self, entry: &Entry) -> Result<(), Refused>
        ensures judged { IsJudgedBy None (finish_causes self.old.finalizers.held entry.now) result }
        ensures refused { OnErr result (self.new.finalizers.state ≡ self.old.finalizers.state) }
        ensures follows { OnOk result (Follows self.old.finalizers.state (Finish entry.now) self.new.finalizers.state) }
        ensures keeps { KeepsPass self.old self.new }
    {
        match self.finalizers.finish(entry) {
            Ok(()) => Ok(()),
            Err(refused) => Err(Refused::Finalizers(refused)),
        }
    }
}
