//! The entries, and the room reserved for further ones.

ghost use Rattle.std.specs.Prelude.{◌≡◌, ◌≤◌, ◌<◌, ◌+◌, ◌*◌, ◌^◌, ◌⊎◌, [], ◌∷◌, ◌++◌, ℕ, None, true, false, length, drop, filter, slice_get, min, not, IfOk, IfErr, IfSome, OnOk, OnErr, IsTrue};
ghost use Rattle.std.specs.FinMap.{len, empty};
ghost use Rattle.std.specs.FinSet.{contains};
ghost use Rattle.fz_model.specs.Events.{same_entry};
ghost use Rattle.fz_model.specs.Memory.{points};
ghost use Rattle.fz_model.specs.Pass.{entry_of};
ghost use Rattle.fz_pass.specs.Holds.{IsOfKey, IsWhole};
ghost use Rattle.fz_pass.specs.Marks.{IsClosed, AreRegistered, AreTargets};
ghost use Rattle.fz_pass.specs.Decides.{parts_of, parts_left};
ghost use Rattle.fz_finalizers.specs.Ready.{DecidesKeyed, HasSameEntries, QueuesTable, Takes, TakesFinished};
ghost use Rattle.fz_finalizers.specs.Cleanups.{is_due};
ghost use Rattle.fz_finalizers.specs.Queue.{CleansOut, IsFoundIn, IsFirstHeldFrom};
ghost use Rattle.fz_finalizers.specs.States.{KeepsWindow, is_held};
ghost use Rattle.fz_model.specs.declared.answers.Entry.{Entry};
ghost use Rattle.fz_finalizers.specs.Walks.{somes};

use crate::cleaning::{queue_listed, rank_due};
use crate::cleanups::Cleanups;
use crate::queue::Queue;
use crate::refused::Refused;
use crate::unfinished::Entries;
use fz_links::Links;
use fz_model::{Entry, LinkKind, Pick};
use fz_pass::{Ephemerons, Host, ReadyList, Values};
use fz_table::Table;
use std::alloc::Global;
use std::marker::Model;

/// The queue, how many of its entries were taken, and room for those that a pass may queue.
#[derive(Drop)]
pub(crate) struct Ready {
    list: ReadyList,
    queue: Queue,
    /// How many entries were taken, which is the number of the next one to be taken.
    taken: u64,
    /// Whether only `forget` and `forget_to` forget finished entries.
    whole: bool,
}

impl Model for Ready {
    ghost use Rattle.std.specs.Prelude.{min};
    ghost use Rattle.fz_finalizers.specs.Ready.{Ready, ready_code, held_of, IsTaken};

    ghost Value = { Ready };

    ghost coded = { ready_code };

    ghost view = { λ r. record {
      queue = r.queue.queue;
      taken = r.taken;
      held = held_of r.queue r.taken;
      room = min r.list.room r.queue.room;
      memory = record { whole = r.whole; forgotten = r.queue.forgotten; remembered = r.queue.remembered };
      places = r.queue.places;
    } };

    ghost invariant = { λ r. IsTaken r.queue r.taken };
}

impl Ready {
    /// No entries, without reserved room.
    pub(crate) fn new(alloc: Global) -> Result<Ready, Refused>
        ensures refused { IfErr result (λ r. r ≡ Refused.NoMemory) }
        ensures queue { IfOk result (λ ready. ready.queue ≡ []) }
        ensures taken { IfOk result (λ ready. (ready.taken ≡ 0) × (ready.held ≡ [])) }
        ensures memory { IfOk result (λ ready. ready.memory ≡ record { whole = false; forgotten = 0; remembered = 0 }) }
    {
        let queue = Queue::new(alloc)?;
        Ok(Ready {
            list: ReadyList::new(alloc),
            queue,
            taken: 0,
            whole: false,
        })
    }

    /// How many entries were ever queued.
    pub(crate) fn queued(&self) -> u64
        ensures { result ≡ length self.now.queue }
    {
        self.queue.queued()
    }

    /// How many entries wait.
    pub(crate) fn waiting(&self) -> u64
        ensures { result ≡ length (drop self.now.taken self.now.queue) }
    {
        self.queue.queued() - self.taken
    }

    /// How many entries are held.
    pub(crate) fn held(&self) -> u64
        ensures { result ≡ length self.now.held }
    {
        self.queue.outstanding() - (self.queue.queued() - self.taken)
    }

    /// The unfinished entries, in queue order, with their indices.
    pub(crate) fn unfinished(&self) -> Entries<'_>
        ensures places { result ≡ self.now.places }
        ensures all { somes result ≡ self.now.held ++ drop self.now.taken self.now.queue }
    {
        self.queue.unfinished()
    }

    /// Reserves room for `most` further entries. Before it allocates, it reuses the memory of finished entries.
    #[inline(always)]
    pub(crate) fn reserve(&mut self, most: usize) -> Result<(), Refused>
        requires { most ≤ 2 ^ 50 }
        ensures refused { IfErr result (λ r. r ≡ Refused.NoMemory) }
        ensures wanting { OnErr result (self.old.room < most) }
        ensures same { HasSameEntries self.old self.new }
        ensures whole { self.new.memory.whole ≡ self.old.memory.whole }
        ensures memory { IsTrue self.old.memory.whole → self.new.memory ≡ self.old.memory }
        ensures kept { self.old.room ≤ self.new.room }
        ensures room { OnOk result (most ≤ self.new.room) }
    {
        self.forget_for(most);
        self.list.reserve(most)?;
        if most == 0 {
            return Ok(());
        }
        self.queue.reserve(most)
    }

    /// Reuses the memory of finished entries, if there is no room for `most` further ones.
    fn forget_for(&mut self, most: usize)
        ensures same { HasSameEntries self.old self.new }
        ensures whole { self.new.memory.whole ≡ self.old.memory.whole }
        ensures memory { IsTrue self.old.memory.whole → self.new.memory ≡ self.old.memory }
        ensures room { self.old.room ≤ self.new.room }
    {
        if self.queue.spare() < most {
            self.reuse();
        }
    }

    /// Reuses the memory of finished entries, unless only `forget` may.
    pub(crate) fn reuse(&mut self)
        ensures same { HasSameEntries self.old self.new }
        ensures whole { self.new.memory.whole ≡ self.old.memory.whole }
        ensures memory { IsTrue self.old.memory.whole → self.new.memory ≡ self.old.memory }
        ensures room { self.old.room ≤ self.new.room }
    {
        if !self.whole {
            self.forget();
        }
    }

    /// From now on only `forget` forgets finished entries.
    pub(crate) fn keep_all(&mut self)
        ensures { self.new ≡ record self.old { memory = record self.old.memory { whole = true } } }
    {
        self.whole = true;
    }

    /// Reuses the memory of finished entries, if there are more than 1 for each 16 unfinished ones. Returns how many were forgotten.
    pub(crate) fn forget(&mut self) -> u64
        ensures same { HasSameEntries self.old self.new }
        ensures whole { self.new.memory.whole ≡ self.old.memory.whole }
        ensures forgotten { (self.new.memory.forgotten ≡ self.old.memory.forgotten) ⊎ (self.new.memory.forgotten ≡ self.old.taken) }
        ensures few { 16 * self.new.memory.remembered ≤ 17 * (length self.new.held + length (drop self.new.taken self.new.queue)) }
        ensures freed { result + self.new.memory.remembered ≡ self.old.memory.remembered }
        ensures room { self.old.room ≤ self.new.room }
    {
        self.queue.forget(self.taken)
    }

    /// Forgets finished entries as `forget` does. If there were any, also frees memory beyond the room for `room` further entries, if that is more than a
    /// sixteenth.
    pub(crate) fn forget_to(&mut self, room: usize) -> u64
        ensures same { HasSameEntries self.old self.new }
        ensures whole { self.new.memory.whole ≡ self.old.memory.whole }
        ensures forgotten { (self.new.memory.forgotten ≡ self.old.memory.forgotten) ⊎ (self.new.memory.forgotten ≡ self.old.taken) }
        ensures few { 16 * self.new.memory.remembered ≤ 17 * (length self.new.held + length (drop self.new.taken self.new.queue)) }
        ensures freed { result + self.new.memory.remembered ≡ self.old.memory.remembered }
        ensures room { min room self.old.room ≤ self.new.room }
    {
        let forgotten = self.forget();
        if forgotten > 0 && self.queue.spare() > room.saturating_add(room / 16) {
            self.queue.shrink(room);
        }
        forgotten
    }

    /// Frees memory, except the room for `most` further entries.
    pub(crate) fn shrink(&mut self, most: usize)
        requires { most ≤ self.old.room }
        ensures same { HasSameEntries self.old self.new }
        ensures whole { self.new.memory.whole ≡ self.old.memory.whole }
        ensures memory { IsTrue self.old.memory.whole → self.new.memory ≡ self.old.memory }
        ensures room { most ≤ self.new.room }
    {
        self.reuse();
        self.list.shrink(most);
        self.queue.shrink(most);
    }

    /// Carries out the pass of this number over a host and the table.
    pub(crate) fn pass<H: Values>(
        &mut self,
        number: u64,
        host: &mut H,
        table: &mut Table,
        short: &mut Links,
        long: &mut Links,
        ephemerons: &mut Ephemerons,
    )
        requires registered { AreRegistered (H.objects host.old) table.old.registrations }
        requires short { AreTargets (H.objects host.old) short.old.links }
        requires long { AreTargets (H.objects host.old) long.old.links }
        requires short_keys { AreTargets (H.objects host.old) ephemerons.old.short }
        requires long_keys { AreTargets (H.objects host.old) ephemerons.old.long }
        requires zero { points (H.objects host.old) 0 ≡ None }
        requires whole { IsWhole H.place H.value (H.objects host.old) (IsOfKey ephemerons.old.ephemerons) (H.marked host.old) }
        requires room { len table.old.registrations ≤ self.old.room }
        requires numbers { length self.old.queue + len table.old.registrations < 2 ^ 64 }
        ensures decided { DecidesKeyed H.is_exact H.place H.value number table.old.late table.new.late
            (parts_of (H.objects host.old) table.old short.old long.old) ephemerons.old.ephemerons (H.marked host.old)
            (parts_left (H.objects host.new) (H.marked host.new) table.new short.new long.new) ephemerons.new.ephemerons
            self.old.queue self.new.queue }
        ensures taken { self.new.taken ≡ self.old.taken }
        ensures held { self.new.held ≡ self.old.held }
        ensures memory { KeepsWindow self.old.memory self.new.memory }
        ensures count { length self.new.queue + len table.new.registrations ≡ length self.old.queue + len table.old.registrations }
        ensures room { self.old.room + len table.new.registrations ≤ self.new.room + len table.old.registrations }
        ensures marks { (a : ℕ) → IsTrue (H.marked host.old a) → IsTrue (H.marked host.new a) }
        ensures closed { IsClosed (H.objects host.new) (H.marked host.new) }
        ensures same { H.is_same host.old host.new }
        ensures table { table.new.registered ≡ record table.old.registered { registrations = table.new.registrations } }
    {
        let list = &mut self.list;
        self.queue
            .pass(number, host, table, short, long, ephemerons, list);
    }

    /// Queues the due cleanups of this moment, with this pass.
    pub(crate) fn clean<H: Host>(
        &mut self,
        pass: u64,
        when: LinkKind,
        host: &H,
        cleanups: &mut Cleanups,
    )
        requires room { len cleanups.old.cleanups ≤ self.old.room }
        requires numbers { length self.old.queue + len cleanups.old.cleanups < 2 ^ 64 }
        ensures cleaned { CleansOut pass (is_due when (H.marked host.now)) cleanups.old.cleanups cleanups.new.cleanups self.old.queue self.new.queue }
        ensures taken { self.new.taken ≡ self.old.taken }
        ensures held { self.new.held ≡ self.old.held }
        ensures memory { KeepsWindow self.old.memory self.new.memory }
        ensures count { length self.new.queue + len cleanups.new.cleanups ≡ length self.old.queue + len cleanups.old.cleanups }
        ensures room { self.old.room + len cleanups.new.cleanups ≤ self.new.room + len cleanups.old.cleanups }
        ensures places { cleanups.old.room ≤ cleanups.new.room }
    {
        rank_due(host, when, cleanups, &mut self.list);
        queue_listed(&mut self.queue, pass, self.list.as_slice(), cleanups);
    }

    /// Queues every registration of the table.
    pub(crate) fn queue_all(&mut self, table: &mut Table)
        requires room { len table.old.registrations ≤ self.old.room }
        requires numbers { length self.old.queue + len table.old.registrations < 2 ^ 64 }
        ensures queued { QueuesTable table.old.content table.new.late self.old.queue self.new.queue }
        ensures taken { self.new.taken ≡ self.old.taken }
        ensures held { self.new.held ≡ self.old.held }
        ensures memory { KeepsWindow self.old.memory self.new.memory }
        ensures count { length self.new.queue ≡ length self.old.queue + len table.old.registrations }
        ensures room { self.old.room ≤ self.new.room + len table.old.registrations }
        ensures table { table.new.registered ≡ record table.old.registered { registrations = empty } }
    {
        self.queue.queue_all(table, &mut self.list);
    }

    /// Appends a pick's entry to the queue, with this pass.
    pub(crate) fn push(&mut self, pass: u64, pick: Pick)
        requires room { 0 < self.old.room }
        requires number { length self.old.queue + 1 < 2 ^ 64 }
        ensures queue { self.new.queue ≡ self.old.queue ++ entry_of pass (length self.old.queue) pick ∷ [] }
        ensures taken { self.new.taken ≡ self.old.taken }
        ensures held { self.new.held ≡ self.old.held }
        ensures memory { KeepsWindow self.old.memory self.new.memory }
        ensures room { self.old.room ≤ self.new.room + 1 }
    {
        self.queue.push(pass, pick);
    }

    /// Takes the next entry of the queue, and holds it.
    #[inline(always)]
    pub(crate) fn take(&mut self) -> Option<Entry>
        ensures takes { Takes result self.old self.new }
        ensures memory { self.new.memory ≡ self.old.memory }
        ensures room { self.old.room ≤ self.new.room }
    {
        if self.taken >= self.queue.queued() {
            return None;
        }
        let entry = self.queue.entry(self.taken)?;
        self.taken += 1;
        Some(entry)
    }

    /// Takes the next entry of the queue, and doesn't hold it.
    #[inline(always)]
    pub(crate) fn take_finished(&mut self) -> Option<Entry>
        ensures takes { TakesFinished result self.old self.new }
        ensures memory { self.new.memory ≡ self.old.memory }
        ensures room { self.old.room ≤ self.new.room }
    {
        if self.taken >= self.queue.queued() {
            return None;
        }
        let entry = self.queue.finish_number(self.taken)?;
        self.taken += 1;
        Some(entry)
    }

    /// Takes all entries that wait, and holds them. Returns their number.
    pub(crate) fn take_all(&mut self) -> u64
        ensures taken { (self.new.queue ≡ self.old.queue) × (self.new.taken ≡ length self.old.queue) }
        ensures held { self.new.held ≡ self.old.held ++ drop self.old.taken self.old.queue }
        ensures count { result ≡ length (drop self.old.taken self.old.queue) }
        ensures memory { self.new.memory ≡ self.old.memory }
        ensures room { self.old.room ≤ self.new.room }
    {
        let waiting = self.waiting();
        self.taken = self.queue.queued();
        waiting
    }

    /// The entries from number `forgotten` on.
    pub(crate) fn window(&self) -> &[Entry]
        ensures { result.now ≡ drop self.now.memory.forgotten self.now.queue }
    {
        self.queue.window()
    }

    /// The entry with a number, if it was queued and isn't both finished and forgotten.
    pub(crate) fn find(&self, number: u64) -> Option<Entry>
        ensures shown { self.now.memory.forgotten ≤ number → result ≡ slice_get self.now.queue number }
        ensures kept { number < self.now.memory.forgotten → IsFoundIn (self.now.held ++ drop self.now.taken self.now.queue) number result }
    {
        self.queue.find(number)
    }

    /// The first unfinished entry whose number is at least `from`.
    #[inline(always)]
    pub(crate) fn next_unfinished(&self, from: u64) -> Option<Entry>
        ensures next { IsFirstHeldFrom (self.now.held ++ drop self.now.taken self.now.queue) from result }
        ensures within { IfSome result (λ e. e.seq < length self.now.queue) }
    {
        self.queue.next_held(from)
    }

    /// The number of the window's first entry.
    pub(crate) fn forgotten(&self) -> u64
        ensures { result ≡ self.now.memory.forgotten }
    {
        self.queue.forgotten()
    }

    /// How many entries are in memory.
    pub(crate) fn remembered(&self) -> u64
        ensures { result ≡ self.now.memory.remembered }
    {
        self.queue.remembered()
    }

    /// Whether a held entry equals this one in all fields.
    pub(crate) fn is_held(&self, entry: &Entry) -> bool
        ensures { result ≡ is_held self.now.held entry.now }
    {
        entry.seq < self.taken && self.queue.is_held(entry)
    }

    /// Finishes an entry, if it is held. Returns whether it was.
    pub(crate) fn finish(&mut self, entry: &Entry) -> bool
        ensures answer { result ≡ is_held self.old.held entry.now }
        ensures queue { (self.new.queue ≡ self.old.queue) × (self.new.taken ≡ self.old.taken) }
        ensures held { self.new.held ≡ filter (λ h. not (same_entry entry.now h)) self.old.held }
        ensures memory { self.new.memory ≡ self.old.memory }
        ensures room { self.old.room ≤ self.new.room }
    {
        if entry.seq >= self.taken {
            return false;
        }
        self.queue.finish(entry)
    }
}
