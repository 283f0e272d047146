//! The queue of finalizers, and which of its entries aren't finished.

ghost use Rattle.std.specs.Prelude.{◌≡◌, ◌≤◌, ◌<◌, ◌+◌, ◌*◌, ◌^◌, ◌⊎◌, [], ◌∷◌, ◌||◌, min, not, ℕ, Bool, None, drop, filter, length, slice_get, vec_len, vec_capacity, IsTrue, OnOk, OnErr, IfOk, IfErr, IfSome, MatchOption};
ghost use Rattle.std.specs.FinSet.{contains};
ghost use Rattle.std.specs.FinMap.{len, empty};
ghost use Rattle.std.specs.List.{list_any};
ghost use Rattle.fz_model.specs.declared.answers.Entry.{Entry};
ghost use Rattle.fz_model.specs.Events.{same_entry};
ghost use Rattle.fz_model.specs.Memory.{points};
ghost use Rattle.fz_pass.specs.Holds.{IsOfKey, IsWhole};
ghost use Rattle.fz_pass.specs.Marks.{IsClosed, AreRegistered, AreTargets};
ghost use Rattle.fz_pass.specs.Decides.{parts_of, parts_left};
ghost use Rattle.fz_finalizers.specs.Ready.{DecidesKeyed, QueuesTable};
ghost use Rattle.fz_finalizers.specs.Queue.{Gains, GainsPicks, AreOpenFrom, IsFoundIn, IsFirstHeldFrom};
ghost use Rattle.fz_finalizers.specs.Walks.{somes};

use crate::past::Past;
use crate::refused::Refused;
use crate::stored::{gather, give_back, hold, is_held_at, place_of};
use crate::unfinished::Entries;
use fz_bits::SparseFlags;
use fz_links::Links;
use fz_model::{Entry, Pick};
use fz_pass::{Ephemerons, ReadyList, Terms, Values, decide_whole, queue_all};
use fz_table::Table;
use std::alloc::Global;
use std::marker::{Model, PhantomData};

/// Every entry ever queued, in order, and which of them aren't finished; these are held.
///
/// Two parts are in memory: the window, which is all entries from some number on, and before it the held entries with smaller numbers. The model is the whole
/// queue.
#[derive(Drop)]
pub(crate) struct Queue {
    past: Past,
    entries: Vec<Entry>,
    /// How many entries precede the window.
    kept: usize,
    /// The number of the window's first entry.
    first: u64,
    /// The indices of the held entries, as a bitmap of two levels: a loop skips 4,096 finished entries in one step.
    held: SparseFlags,
    outstanding: u64,
}

impl Model for Queue {
    ghost use Rattle.std.specs.Prelude.{◌-◌, ◌++◌, drop, take, length, min, vec_len, vec_capacity};
    ghost use Rattle.fz_finalizers.specs.Queue.{Queue, queue_code, placed_in, shown_in, IsReady};

    ghost Value = { Queue };

    ghost coded = { queue_code };

    ghost view = { λ r. record {
      queue = take r.first r.past.entries ++ drop r.kept r.entries.items;
      held = placed_in r.held.members 0 r.entries.items;
      forgotten = r.first;
      remembered = length r.entries.items;
      room = min (vec_capacity r.entries - vec_len r.entries) (r.held.size - vec_len r.entries);
      places = shown_in r.held.members 0 r.entries.items;
    } };

    ghost invariant = { λ r. IsReady (take r.first r.past.entries) r.entries.items r.kept r.first r.held.members r.outstanding };
}

/// Reserves room for `more` entries at the end of a queue. Returns how many the queue may have then.
///
/// If it allocates, the room grows by another eighth of all these entries, and by no more: most of it is empty, so growing it copies little.
fn reserve(queue: &mut Vec<Entry>, more: usize) -> Result<u64, Refused>
    requires { more ≤ 2 ^ 50 }
    ensures refused { IfErr result (λ r. r ≡ Refused.NoMemory) }
    ensures wanting { OnErr result (vec_capacity queue.old < vec_len queue.old + more) }
    ensures items { queue.new.items ≡ queue.old.items }
    ensures len { vec_len queue.new ≡ vec_len queue.old }
    ensures room { IfOk result (λ entries. (entries ≡ vec_len queue.new + more) × (entries ≤ vec_capacity queue.new)) }
    ensures capacity { vec_capacity queue.old ≤ vec_capacity queue.new }
    ensures fits { IfOk result (λ entries. entries + 64 ≤ 2 ^ 64) }
{
    if more > queue.capacity() - queue.len() {
        queue.reserve_exact(more + (queue.len() + more) / 8)?;
    }
    Ok((queue.len() + more) as u64)
}

impl Queue {
    /// An empty queue without reserved room.
    pub(crate) fn new(alloc: Global) -> Result<Queue, Refused>
        ensures refused { IfErr result (λ r. r ≡ Refused.NoMemory) }
        ensures empty { IfOk result (λ ready. (ready.queue ≡ []) × (ready.held ≡ [])) }
        ensures forgotten { IfOk result (λ ready. (ready.forgotten ≡ 0) × (ready.remembered ≡ 0)) }
    {
        let held = SparseFlags::new(alloc, 0).map_err(|_| Refused::NoMemory)?;
        Ok(Queue {
            past: Past::none(),
            entries: Vec::new(alloc),
            kept: 0,
            first: 0,
            held,
            outstanding: 0,
        })
    }

    /// How many entries were ever queued.
    pub(crate) fn queued(&self) -> u64
        ensures { result ≡ length self.now.queue }
    {
        self.first + (self.entries.len() - self.kept) as u64
    }

    /// How many entries aren't finished.
    pub(crate) fn outstanding(&self) -> u64
        ensures { result ≡ length self.now.held }
    {
        self.outstanding
    }

    /// The entry of the window with this number, if there is one.
    pub(crate) fn entry(&self, number: u64) -> Option<Entry>
        ensures { self.now.forgotten ≤ number → result ≡ slice_get self.now.queue number }
    {
        let place = number.checked_sub(self.first)?;
        self.entries[self.kept..].get(place as usize).copied()
    }

    /// The entries of the window: those from number `forgotten` on.
    pub(crate) fn window(&self) -> &[Entry]
        ensures { result.now ≡ drop self.now.forgotten self.now.queue }
    {
        &self.entries[self.kept..]
    }

    /// The number of the window's first entry.
    pub(crate) fn forgotten(&self) -> u64
        ensures { result ≡ self.now.forgotten }
    {
        self.first
    }

    /// How many entries are in memory.
    pub(crate) fn remembered(&self) -> u64
        ensures { result ≡ self.now.remembered }
    {
        self.entries.len() as u64
    }

    /// The first held entry whose number is at least `from`.
    #[inline(always)]
    pub(crate) fn next_held(&self, from: u64) -> Option<Entry>
        ensures next { IsFirstHeldFrom self.now.held from result }
        ensures within { IfSome result (λ e. e.seq < length self.now.queue) }
    {
        let place = place_of(&self.entries, self.kept, self.first, from);
        let place = self.held.next(place as u64)?;
        Some(self.entries[place as usize])
    }

    /// The entry with a number, if it was queued and isn't both finished and forgotten.
    pub(crate) fn find(&self, number: u64) -> Option<Entry>
        ensures shown { self.now.forgotten ≤ number → result ≡ slice_get self.now.queue number }
        ensures kept { number < self.now.forgotten → IsFoundIn self.now.held number result }
    {
        if number >= self.first {
            return self.entry(number);
        }
        let entry = self.next_held(number)?;
        if entry.seq == number {
            Some(entry)
        } else {
            None
        }
    }

    /// The unfinished entries, with their indices.
    pub(crate) fn unfinished(&self) -> Entries<'_>
        ensures places { result ≡ self.now.places }
        ensures all { somes result ≡ self.now.held }
    {
        Entries::of(&self.entries, &self.held)
    }

    /// How many more entries fit without allocating.
    pub(crate) fn spare(&self) -> usize
        ensures { self.now.room ≤ result }
    {
        self.entries.capacity() - self.entries.len()
    }

    /// Reserves room for further entries, and if it allocates, for an eighth more. Fails with `NoMemory` if an allocation fails.
    pub(crate) fn reserve(&mut self, more: usize) -> Result<(), Refused>
        requires { more ≤ 2 ^ 50 }
        ensures refused { IfErr result (λ r. r ≡ Refused.NoMemory) }
        ensures wanting { 0 < more → OnErr result (self.old.room < more) }
        ensures same { (self.new.queue ≡ self.old.queue) × (self.new.held ≡ self.old.held) }
        ensures forgotten { (self.new.forgotten ≡ self.old.forgotten) × (self.new.remembered ≡ self.old.remembered) }
        ensures kept { self.old.room ≤ self.new.room }
        ensures room { OnOk result (more ≤ self.new.room) }
    {
        let entries = reserve(&mut self.entries, more)?;
        self.held
            .extend_to(entries.div_ceil(64))
            .map_err(|_| Refused::NoMemory)
    }

    /// Carries out the pass of this number over a host and the table. Requires room for an entry of each registration.
    pub(crate) fn pass<H: Values>(
        &mut self,
        number: u64,
        host: &mut H,
        table: &mut Table,
        short: &mut Links,
        long: &mut Links,
        ephemerons: &mut Ephemerons,
        list: &mut ReadyList,
    )
        requires registered { AreRegistered (H.objects host.old) table.old.registrations }
        requires short { AreTargets (H.objects host.old) short.old.links }
        requires long { AreTargets (H.objects host.old) long.old.links }
        requires short_keys { AreTargets (H.objects host.old) ephemerons.old.short }
        requires long_keys { AreTargets (H.objects host.old) ephemerons.old.long }
        requires zero { points (H.objects host.old) 0 ≡ None }
        requires whole { IsWhole H.place H.value (H.objects host.old) (IsOfKey ephemerons.old.ephemerons) (H.marked host.old) }
        requires list { len table.old.registrations ≤ list.old.room }
        requires room { len table.old.registrations ≤ self.old.room }
        requires numbers { length self.old.queue + len table.old.registrations < 2 ^ 64 }
        ensures decided { DecidesKeyed H.is_exact H.place H.value number table.old.late table.new.late
            (parts_of (H.objects host.old) table.old short.old long.old) ephemerons.old.ephemerons (H.marked host.old)
            (parts_left (H.objects host.new) (H.marked host.new) table.new short.new long.new) ephemerons.new.ephemerons
            self.old.queue self.new.queue }
        ensures gained { Gains number self.old self.new }
        ensures count { length self.new.queue + len table.new.registrations ≡ length self.old.queue + len table.old.registrations }
        ensures list { list.old.room ≤ list.new.room }
        ensures room { self.old.room + len table.new.registrations ≤ self.new.room + len table.old.registrations }
        ensures fewer { len table.new.registrations ≤ len table.old.registrations }
        ensures marks { (a : ℕ) → IsTrue (H.marked host.old a) → IsTrue (H.marked host.new a) }
        ensures closed { IsClosed (H.objects host.new) (H.marked host.new) }
        ensures same { H.is_same host.old host.new }
        ensures table { table.new.registered ≡ record table.old.registered { registrations = table.new.registrations } }
    {
        let terms = Terms {
            pass: number,
            first: self.queued(),
            tiers: true,
        };
        let first = self.entries.len() as u64;
        let queue = &mut self.entries;
        decide_whole(host, table, short, long, ephemerons, list, queue, terms);
        let end = self.entries.len() as u64;
        hold(&mut self.held, first, end);
        self.outstanding += end - first;
    }

    /// Queues every registration of the table. Requires room for them.
    pub(crate) fn queue_all(&mut self, table: &mut Table, list: &mut ReadyList)
        requires list { len table.old.registrations ≤ list.old.room }
        requires room { len table.old.registrations ≤ self.old.room }
        requires numbers { length self.old.queue + len table.old.registrations < 2 ^ 64 }
        ensures queued { QueuesTable table.old.content table.new.late self.old.queue self.new.queue }
        ensures gained { Gains 0 self.old self.new }
        ensures count { length self.new.queue ≡ length self.old.queue + len table.old.registrations }
        ensures room { self.old.room ≤ self.new.room + len table.old.registrations }
        ensures list { list.old.room ≤ list.new.room }
        ensures table { table.new.registered ≡ record table.old.registered { registrations = empty } }
    {
        let next = self.queued();
        let first = self.entries.len() as u64;
        queue_all(table, list, &mut self.entries, next);
        let end = self.entries.len() as u64;
        hold(&mut self.held, first, end);
        self.outstanding += end - first;
    }

    /// Appends the entry of a pick, with this pass. Requires room for it.
    pub(crate) fn push(&mut self, pass: u64, pick: Pick)
        requires room { 0 < self.old.room }
        requires number { length self.old.queue + 1 < 2 ^ 64 }
        ensures pushed { GainsPicks pass (pick ∷ []) self.old self.new }
        ensures room { self.old.room ≤ self.new.room + 1 }
    {
        let seq = self.queued();
        let first = self.entries.len() as u64;
        let _ = self.entries.push(Entry {
            seq,
            pass,
            reg: pick.reg,
            obj: pick.obj,
            birth: pick.birth,
            proc: pick.proc,
            cd: pick.cd,
        });
        let end = self.entries.len() as u64;
        hold(&mut self.held, first, end);
        self.outstanding += end - first;
    }

    /// Whether a held entry equals this one in all fields.
    pub(crate) fn is_held(&self, entry: &Entry) -> bool
        ensures { result ≡ list_any (same_entry entry.now) self.now.held }
    {
        let place = place_of(&self.entries, self.kept, self.first, entry.seq);
        is_held_at(&self.entries, &self.held, place, entry)
    }

    /// Finishes an entry, if it is held. Returns whether it was.
    pub(crate) fn finish(&mut self, entry: &Entry) -> bool
        ensures answer { result ≡ list_any (same_entry entry.now) self.old.held }
        ensures queue { self.new.queue ≡ self.old.queue }
        ensures held { self.new.held ≡ filter (λ h. not (same_entry entry.now h)) self.old.held }
        ensures forgotten { (self.new.forgotten ≡ self.old.forgotten) × (self.new.remembered ≡ self.old.remembered) }
        ensures room { self.old.room ≤ self.new.room }
    {
        let place = place_of(&self.entries, self.kept, self.first, entry.seq);
        if !is_held_at(&self.entries, &self.held, place, entry) {
            return false;
        }
        self.held.remove(place as u64);
        self.outstanding -= 1;
        true
    }

    /// Finishes the entry of the window with this number, if it is held, and returns it.
    #[inline(always)]
    pub(crate) fn finish_number(&mut self, number: u64) -> Option<Entry>
        requires window { self.old.forgotten ≤ number }
        ensures entry { result ≡ slice_get self.old.queue number }
        ensures queue { self.new.queue ≡ self.old.queue }
        ensures held { MatchOption result (self.new ≡ self.old) (λ e. self.new.held ≡ filter (λ h. not (same_entry e h)) self.old.held) }
        ensures forgotten { (self.new.forgotten ≡ self.old.forgotten) × (self.new.remembered ≡ self.old.remembered) }
        ensures room { self.old.room ≤ self.new.room }
    {
        let entry = self.entry(number)?;
        let place = self.kept as u64 + (number - self.first);
        if self.held.contains(place) {
            self.held.remove(place);
            self.outstanding -= 1;
        }
        Some(entry)
    }

    /// Every entry ever queued, as a value for contracts.
    fn whole(&self) -> Past
        ensures { result.entries ≡ self.now.queue }
    {
        Past { bytes: PhantomData }
    }

    /// Reuses the memory of finished entries, if there are more than 1 for each 16 unfinished ones. Returns how many were forgotten. Afterwards the window
    /// begins at the number `taken`, from which on no entry is finished.
    pub(crate) fn forget(&mut self, taken: u64) -> u64
        requires window { self.old.forgotten ≤ taken }
        requires taken { taken ≤ length self.old.queue }
        requires open { AreOpenFrom taken self.old.queue self.old.held }
        ensures same { self.new ≡ record self.old { forgotten = self.new.forgotten; remembered = self.new.remembered; room = self.new.room; places = self.new.places } }
        ensures forgotten { (self.new.forgotten ≡ self.old.forgotten) ⊎ (self.new.forgotten ≡ taken) }
        ensures few { 16 * self.new.remembered ≤ 17 * length self.new.held }
        ensures freed { result + self.new.remembered ≡ self.old.remembered }
        ensures room { self.old.room ≤ self.new.room }
    {
        let finished = self.entries.len() as u64 - self.outstanding;
        if 16 * finished <= self.outstanding {
            return 0;
        }
        let past = self.whole();
        let waiting = (self.queued() - taken) as usize;
        self.past = past;
        self.first = taken;
        self.kept = gather(&mut self.entries, &mut self.held) - waiting;
        finished
    }

    /// Frees memory, except the room for `room` further entries.
    pub(crate) fn shrink(&mut self, room: usize)
        ensures same { self.new ≡ record self.old { room = self.new.room } }
        ensures room { min room self.old.room ≤ self.new.room }
    {
        give_back(&mut self.entries, &mut self.held, room);
    }
}
