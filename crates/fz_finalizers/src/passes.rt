//! Passes, and reserving room for them.

ghost use Rattle.std.specs.Prelude.{◌≡◌, ◌≤◌, ◌+◌, ℕ, None, length, IfErr, OnOk, OnErr, IsTrue};
ghost use Rattle.fz_model.specs.Memory.{points};
ghost use Rattle.std.specs.FinSet.{contains};
ghost use Rattle.fz_pass.specs.All.{QueuesAll};
ghost use Rattle.fz_pass.specs.Holds.{IsOfKey, IsWhole, no_ephemerons};
ghost use Rattle.fz_pass.specs.Marks.{IsClosed, AreRegistered, AreTargets};
ghost use Rattle.std.specs.FinMap.{empty};
ghost use Rattle.fz_finalizers.specs.Cleanups.{is_due};
ghost use Rattle.fz_finalizers.specs.Follows.{Cleans, Follows, Pass, QueueAll, next_pass};
ghost use Rattle.fz_finalizers.specs.Passed.{CleansAll, DecidesFor, DecidesWholeFor, PassesFor, PassesFound, PassesWhole};
ghost use Rattle.fz_finalizers.specs.States.{AreFlags, HasRooms, IsRoomier, KeepsEntries, KeepsWindow, limited};

use crate::finalizers::Finalizers;
use crate::linking::reserve_moves;
use crate::refused::Refused;
use fz_model::LinkKind;
use fz_pass::{Ephemerons, Host, Nothing, Plain, Values};
use fz_table::MOST_ENTRIES;
use std::mem;

/// What a pass has done.
#[derive(Clone, Copy, Debug, PartialEq, Eq)]
pub struct Passed {
    /// The number of the pass, counted from 1.
    pub pass: u64,
    /// How many entries it queued.
    pub picked: u64,
}

/// This many entries, but at most as many as a table can have.
fn limited(entries: usize) -> usize
    ensures { result ≡ limited entries }
{
    entries.min(MOST_ENTRIES as usize)
}

impl Finalizers {
    /// Reserves room for further registrations, and for further links of both kinds: for at most 2^32 of each. A registration or a cleanup uses at most one
    /// place, of those that both share, and a link at most one of its kind. A refused call uses none, and neither does any other call. Only `shrink` and
    /// `forget` give room back. Takes time proportional to the room.
    ///
    /// Fails with `NoMemory` if an allocation fails.
    pub fn reserve(
        &mut self,
        registrations: usize,
        shorts: usize,
        longs: usize,
    ) -> Result<(), Refused>
        ensures refused { IfErr result (λ r. r ≡ Refused.NoMemory) }
        ensures wanting { OnErr result (HasRooms self.old.rooms registrations shorts longs → ⊥) }
        ensures same { self.new.state ≡ self.old.state }
        ensures whole { self.new.memory.whole ≡ self.old.memory.whole }
        ensures memory { IsTrue self.old.memory.whole → self.new.memory ≡ self.old.memory }
        ensures kept { IsRoomier self.old.rooms self.new.rooms }
        ensures room { OnOk result (HasRooms self.new.rooms registrations shorts longs) }
    {
        let more = limited(registrations);
        self.table.reserve(more).map_err(|_| Refused::NoMemory)?;
        self.ready
            .reserve(self.table.len() + self.cleanups.len() + more)?;
        let (more_short, more_long) = (limited(shorts), limited(longs));
        self.short
            .reserve(more_short)
            .map_err(|_| Refused::NoMemory)?;
        self.long.reserve(more_long).map_err(|_| Refused::NoMemory)?;
        reserve_moves(&mut self.moves, self.short.len() + more_short)?;
        reserve_moves(&mut self.moves, self.long.len() + more_long)
    }

    /// Carries out a pass over the host's heap, and queues the cleanups that are due. Requires that the host's marking is complete. The host may reclaim what
    /// is unmarked afterwards. Takes time proportional to the registrations, the links and the cleanups, and the time that the host takes.
    ///
    /// First the words of short links to unmarked objects are cleared. Then an unmarked registered object is queued if no path leads to it from an unmarked
    /// registered object, not even from the object itself; `Kind` says which paths count. If the host marks more than it is asked to mark, only some of these
    /// are queued. All that unmarked registered objects reach is marked, and they are too. Then the words of long links to objects that are still unmarked are
    /// cleared. Links that were cleared, and links that denote a word which doesn't lie in a marked object, are removed.
    ///
    /// Before anything else the short cleanups whose objects aren't marked are queued, and after everything else the long ones: each by rank, then number.
    /// Cleanups change nothing else in a pass, and ask for the marks of their objects alone.
    ///
    /// Ephemerons are unchanged, and their words are like any others: a host that has some calls `pass_with_ephemerons`.
    ///
    /// The host has to ensure that registered objects and the targets of links are its objects.
    pub fn pass<H: Host>(&mut self, host: &mut H) -> Passed
        requires registered { AreRegistered (H.objects host.old) self.old.registrations }
        requires short { AreTargets (H.objects host.old) self.old.short }
        requires long { AreTargets (H.objects host.old) self.old.long }
        // A cleared word points to nothing.
        requires zero { points (H.objects host.old) 0 ≡ None }
        requires closed { IsClosed (H.objects host.old) (H.marked host.old) }
        ensures passes { PassesFor H.is_exact H.place self.old.state (H.objects host.old) (H.marked host.old) self.new.state (H.objects host.new) (H.marked host.new) }
        ensures ephemerons { self.new.ephemerons ≡ self.old.ephemerons }
        ensures pass { result.pass ≡ next_pass self.old.passes }
        ensures picked { length self.new.queue ≡ length self.old.queue + result.picked }
        ensures whole { self.new.memory.whole ≡ self.old.memory.whole }
        ensures memory { IsTrue self.old.memory.whole → KeepsWindow self.old.memory self.new.memory }
        // Marked objects stay marked, and everything that they reach is marked.
        ensures marks { (a : ℕ) → IsTrue (H.marked host.old a) → IsTrue (H.marked host.new a) }
        ensures closed { IsClosed (H.objects host.new) (H.marked host.new) }
        // Everything else in the host is unchanged.
        ensures same { H.is_same host.old host.new }
    {
        let ephemerons = self.take_ephemerons();
        let passed = self.pass_found(&mut Plain::of(host));
        self.put_ephemerons(ephemerons);
        passed
    }

    /// Carries out a pass over a heap with ephemerons. What it finds, queues and retains depends on what sets of objects hold. A set holds the objects that its
    /// members reach, and the value of each ephemeron whose key and whose holder it holds; the holder is the object in which the ephemeron's word lies.
    /// Everything else is as `pass` says.
    ///
    /// First the pass marks the value of each ephemeron whose key and holder are marked, with everything that the value reaches, until no more values follow.
    /// What is marked then is found. A short ephemeron whose key isn't found is cleared and removed with the short links, and a long one whose key isn't
    /// retained with the long links. An ephemeron whose word lies in an object that isn't retained is removed too. So an ephemeron never retains its own key.
    ///
    /// Takes no memory. Takes the time of `pass`, and marks values at four points of the pass. At each point it asks for the marks of the keys and holders of
    /// all ephemerons, and asks again about the waiting ones only as long as values are marked. The host has to ensure that keys are its objects too.
    pub fn pass_with_ephemerons<H: Values>(&mut self, host: &mut H) -> Passed
        requires registered { AreRegistered (H.objects host.old) self.old.registrations }
        requires short { AreTargets (H.objects host.old) self.old.short }
        requires long { AreTargets (H.objects host.old) self.old.long }
        requires short_keys { AreTargets (H.objects host.old) self.old.ephemerons.short }
        requires long_keys { AreTargets (H.objects host.old) self.old.ephemerons.long }
        // A cleared word points to nothing.
        requires zero { points (H.objects host.old) 0 ≡ None }
        requires closed { IsClosed (H.objects host.old) (H.marked host.old) }
        ensures passes { PassesWhole H.is_exact H.place H.value self.old.state (H.objects host.old) (H.marked host.old) self.new.state (H.objects host.new) (H.marked host.new) }
        ensures pass { result.pass ≡ next_pass self.old.passes }
        ensures picked { length self.new.queue ≡ length self.old.queue + result.picked }
        ensures whole { self.new.memory.whole ≡ self.old.memory.whole }
        ensures memory { IsTrue self.old.memory.whole → KeepsWindow self.old.memory self.new.memory }
        // Marked objects stay marked, and everything that they reach is marked.
        ensures marks { (a : ℕ) → IsTrue (H.marked host.old a) → IsTrue (H.marked host.new a) }
        ensures closed { IsClosed (H.objects host.new) (H.marked host.new) }
        // Everything else in the host is unchanged.
        ensures same { H.is_same host.old host.new }
    {
        self.ephemerons.settle(host);
        self.pass_found(host)
    }

    /// Carries out a pass whose found set is the marked objects: what they hold is marked.
    fn pass_found<H: Values>(&mut self, host: &mut H) -> Passed
        requires registered { AreRegistered (H.objects host.old) self.old.registrations }
        requires short { AreTargets (H.objects host.old) self.old.short }
        requires long { AreTargets (H.objects host.old) self.old.long }
        requires short_keys { AreTargets (H.objects host.old) self.old.ephemerons.short }
        requires long_keys { AreTargets (H.objects host.old) self.old.ephemerons.long }
        requires zero { points (H.objects host.old) 0 ≡ None }
        requires whole { IsWhole H.place H.value (H.objects host.old) (IsOfKey self.old.ephemerons) (H.marked host.old) }
        ensures passes { PassesFound H.is_exact H.place H.value self.old.state (H.objects host.old) (H.marked host.old) self.new.state (H.objects host.new) (H.marked host.new) }
        ensures pass { result.pass ≡ next_pass self.old.passes }
        ensures picked { length self.new.queue ≡ length self.old.queue + result.picked }
        ensures whole { self.new.memory.whole ≡ self.old.memory.whole }
        ensures memory { IsTrue self.old.memory.whole → KeepsWindow self.old.memory self.new.memory }
        ensures marks { (a : ℕ) → IsTrue (H.marked host.old a) → IsTrue (H.marked host.new a) }
        ensures closed { IsClosed (H.objects host.new) (H.marked host.new) }
        ensures same { H.is_same host.old host.new }
    {
        let before = self.ready.queued();
        let pass = self.passes.saturating_add(1);
        self.clean(pass, LinkKind::Short, host);
        self.decide(host);
        self.clean(pass, LinkKind::Long, host);
        Passed {
            pass,
            picked: self.ready.queued() - before,
        }
    }

    /// Takes out the ephemerons. None are left.
    fn take_ephemerons(&mut self) -> Ephemerons
        ensures taken { result.ephemerons ≡ self.old.ephemerons }
        ensures left { self.new.state ≡ record self.old.state { ephemerons = no_ephemerons } }
        ensures flags { AreFlags self.old.registrations self.old.late }
        ensures memory { self.new.memory ≡ self.old.memory }
    {
        let none = Ephemerons::new(*self.moves.allocator());
        mem::replace(&mut self.ephemerons, none)
    }

    /// Puts ephemerons in place of those that there are.
    fn put_ephemerons(&mut self, ephemerons: Ephemerons)
        ensures put { self.new.state ≡ record self.old.state { ephemerons = ephemerons.ephemerons } }
        ensures memory { self.new.memory ≡ self.old.memory }
    {
        self.ephemerons = ephemerons;
    }

    /// Queues the cleanups of this moment whose objects aren't marked, with this pass.
    fn clean<H: Host>(&mut self, pass: u64, when: LinkKind, host: &H)
        ensures cleaned { Cleans pass (is_due when (H.marked host.now)) self.old.state self.new.state }
        ensures memory { KeepsWindow self.old.memory self.new.memory }
        ensures room { IsRoomier self.old.rooms self.new.rooms }
    {
        self.ready.clean(pass, when, host, &mut self.cleanups);
    }

    /// Carries out a pass as `pass` does, but leaves all cleanups as they are: for a host that adds none.
    pub fn pass_without_cleanups<H: Host>(&mut self, host: &mut H) -> Passed
        requires registered { AreRegistered (H.objects host.old) self.old.registrations }
        requires short { AreTargets (H.objects host.old) self.old.short }
        requires long { AreTargets (H.objects host.old) self.old.long }
        // A cleared word points to nothing.
        requires zero { points (H.objects host.old) 0 ≡ None }
        requires closed { IsClosed (H.objects host.old) (H.marked host.old) }
        ensures decided { DecidesFor H.is_exact H.place (next_pass self.old.passes) self.old.state (H.objects host.old) (H.marked host.old) self.new.state (H.objects host.new) (H.marked host.new) }
        ensures follows { Follows self.old.state Pass self.new.state }
        ensures ephemerons { self.new.ephemerons ≡ self.old.ephemerons }
        ensures pass { result.pass ≡ next_pass self.old.passes }
        ensures picked { length self.new.queue ≡ length self.old.queue + result.picked }
        ensures whole { self.new.memory.whole ≡ self.old.memory.whole }
        ensures memory { IsTrue self.old.memory.whole → KeepsWindow self.old.memory self.new.memory }
        // Marked objects stay marked, and everything that they reach is marked.
        ensures marks { (a : ℕ) → IsTrue (H.marked host.old a) → IsTrue (H.marked host.new a) }
        ensures closed { IsClosed (H.objects host.new) (H.marked host.new) }
        // Everything else in the host is unchanged.
        ensures same { H.is_same host.old host.new }
    {
        let aside = self.take_ephemerons();
        let passed = self.decide(&mut Plain::of(host));
        self.put_ephemerons(aside);
        passed
    }

    /// Carries out the pass itself, without cleanups. What the marked objects hold is marked.
    fn decide<H: Values>(&mut self, host: &mut H) -> Passed
        requires registered { AreRegistered (H.objects host.old) self.old.registrations }
        requires short { AreTargets (H.objects host.old) self.old.short }
        requires long { AreTargets (H.objects host.old) self.old.long }
        requires short_keys { AreTargets (H.objects host.old) self.old.ephemerons.short }
        requires long_keys { AreTargets (H.objects host.old) self.old.ephemerons.long }
        requires zero { points (H.objects host.old) 0 ≡ None }
        requires whole { IsWhole H.place H.value (H.objects host.old) (IsOfKey self.old.ephemerons) (H.marked host.old) }
        ensures decided { DecidesWholeFor H.is_exact H.place H.value (next_pass self.old.passes) self.old.state (H.objects host.old) (H.marked host.old) self.new.state (H.objects host.new) (H.marked host.new) }
        ensures follows { Follows self.old.state Pass self.new.state }
        ensures pass { result.pass ≡ next_pass self.old.passes }
        ensures picked { length self.new.queue ≡ length self.old.queue + result.picked }
        ensures whole { self.new.memory.whole ≡ self.old.memory.whole }
        ensures memory { IsTrue self.old.memory.whole → KeepsWindow self.old.memory self.new.memory }
        ensures marks { (a : ℕ) → IsTrue (H.marked host.old a) → IsTrue (H.marked host.new a) }
        ensures closed { IsClosed (H.objects host.new) (H.marked host.new) }
        ensures same { H.is_same host.old host.new }
    {
        self.ready.reuse();
        let before = self.ready.queued();
        let pass = self.passes.saturating_add(1);
        let (short, long) = (&mut self.short, &mut self.long);
        let (table, ephemerons) = (&mut self.table, &mut self.ephemerons);
        self.ready.pass(pass, host, table, short, long, ephemerons);
        self.passes = pass;
        Passed {
            pass,
            picked: self.ready.queued() - before,
        }
    }

    /// Queues every registration, whatever is marked, and returns how many there were: `GC_finalize_all`. The order is by rank, then address, with those of
    /// kind `Unreachable` after the others. The entries' pass is 0, and so are their births. Links, ephemerons and cleanups are unchanged. Takes time
    /// proportional to the registrations.
    pub fn queue_all(&mut self) -> u64
        ensures queued { QueuesAll (length self.old.queue) self.old.registrations (contains self.old.late) self.old.queue self.new.queue }
        ensures follows { Follows self.old.state QueueAll self.new.state }
        ensures count { length self.new.queue ≡ length self.old.queue + result }
        ensures memory { KeepsWindow self.old.memory self.new.memory }
        ensures room { KeepsEntries 0 self.old.rooms self.new.rooms }
    {
        let before = self.ready.queued();
        self.ready.queue_all(&mut self.table);
        self.ready.queued() - before
    }

    /// Queues every cleanup, whatever is marked, and returns how many there were: first the short ones, then the long ones, each by rank, then number. The
    /// entries' pass is 0. Takes time proportional to the cleanups.
    pub fn queue_cleanups(&mut self) -> u64
        ensures queued { CleansAll self.old.state self.new.state }
        ensures none { self.new.cleanups ≡ empty }
        ensures count { length self.new.queue ≡ length self.old.queue + result }
        ensures memory { KeepsWindow self.old.memory self.new.memory }
        ensures room { IsRoomier self.old.rooms self.new.rooms }
    {
        let before = self.ready.queued();
        self.clean(0, LinkKind::Short, &Nothing);
        self.clean(0, LinkKind::Long, &Nothing);
        self.ready.queued() - before
    }
}
