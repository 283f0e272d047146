//! Worker threads.

ghost use Rattle.std.specs.Prelude.{◌≡◌, ◌≢◌, ℕ, ◌<◌, ◌≤◌, [], ◌∷◌, ◌++◌, None, Some, IsSome, IsSomeAnd, IsTrue, length, map, slice_get, slice_index_or, vec_capacity};
ghost use Rattle.fz_service.specs.declared.event.Event.TheVariants.{Told, Listened, FoundEmpty};
ghost use Rattle.fz_service.specs.Workers.{Extends, ExtendEach, KeepSizes, SlotExtends, slots_of, in_slots};
ghost use Rattle.fz_service.specs.Diary.{Gains, RunsEach, EndsWith, EndsWork};
ghost use Rattle.fz_service.specs.Waits.{HasListened, HasLooked, RunsNone};

use crate::bell::{Bell, Sleeper};
use crate::diary::{Diary, Served};
use crate::opening::Opening;
use crate::seat::Seat;
use crate::service::Service;
use crate::turn::{CameTo, Turn};
use crate::workers::{Gate, Proc};
use std::alloc::Global;
use std::sync::Wait;
use std::sync::atomic::AtomicBool;
use std::thread::Threads;
use std::{hint, mem, thread};

/// How many times in a row a worker spins while the line is empty, before it yields: about 10 microseconds in all.
const SPINS_IN_A_ROW: u32 = 16;

/// How many spin hints it executes in each spin.
const HINTS_IN_A_SPIN: u32 = 16;

/// How many times in a row it yields, before it sleeps.
const YIELDS_IN_A_ROW: u32 = 64;

/// What a worker does while the line is empty: first it spins, then it yields, and then it sleeps until it is woken.
struct Pause<'a> {
    bell: &'a Bell,
    spins: u32,
    yields: u32,
    /// The worker as a sleeper, which read the number of rings before it last checked `stop` and the line.
    sleeper: Option<Sleeper>,
}

/// The worker gets up.
impl Drop for Pause<'_> {
    fn drop(self) {
        let Pause {
            bell,
            spins: _,
            yields: _,
            sleeper,
        } = self;
        if let Some(sleeper) = sleeper {
            bell.get_up(sleeper);
        }
    }
}

impl<'a> Pause<'a> {
    fn new(bell: &'a Bell) -> Pause<'a>
        ensures { result.sleeper ≡ None }
    {
        Pause {
            bell,
            spins: 0,
            yields: 0,
            sleeper: None,
        }
    }

    /// Called when the line had an entry, or the worker has to stop: the next pause starts from the beginning.
    fn end(&mut self)
        ensures { self.new.sleeper ≡ None }
    {
        if let Some(sleeper) = mem::replace(&mut self.sleeper, None) {
            self.bell.get_up(sleeper);
        }
        self.spins = 0;
        self.yields = 0;
    }

    fn once<G: Gate, R: Wait>(&mut self, diary: &mut Diary, gate: &G, rt: &R)
        requires { IsSome self.old.sleeper → HasLooked diary.old.events }
        ensures listened { IsSome self.new.sleeper → HasListened diary.new.events }
        ensures none { Gains diary.old.events diary.new.events RunsNone }
    {
        if self.spins < SPINS_IN_A_ROW {
            self.spins += 1;
            spin();
        } else if self.yields < YIELDS_IN_A_ROW {
            self.yields += 1;
            thread::yield_now();
        } else {
            self.sleep(diary, gate, rt);
        }
    }

    /// The first call only counts the worker as a sleeper, so that it checks once more.
    fn sleep<G: Gate, R: Wait>(&mut self, diary: &mut Diary, gate: &G, rt: &R)
        requires { IsSome self.old.sleeper → HasLooked diary.old.events }
        ensures { diary.new.events ≡ diary.old.events ++ Listened ∷ [] }
    {
        if let Some(sleeper) = &mut self.sleeper {
            self.bell.sleep(sleeper, diary, gate, rt);
            self.bell.listen(sleeper, diary);
            return;
        }
        let sleeper = self.bell.lie_down(diary);
        if let Some(other) = mem::replace(&mut self.sleeper, Some(sleeper)) {
            self.bell.get_up(other);
        }
    }
}

fn spin() {
    for _ in 0..HINTS_IN_A_SPIN {
        hint::spin_loop();
    }
}

/// The procedures of one worker.
type List = Vec<Box<dyn Proc + Send>>;

/// A seat that is sent to a thread and back, with its list of procedures, and whether the thread has served it to the end.
struct Worker<O: Opening, L> {
    slot: Option<Seat<O>>,
    procs: L,
    served: Served,
}

impl<O: Opening> Worker<O, List> {
    /// Serves with the seat in the slot until it is told to stop, and puts the seat back.
    fn serve_from_slot<G: Gate, R: Wait>(
        &mut self,
        service: &Service<O>,
        gate: &G,
        stop: &AtomicBool,
        rt: &R,
    )
        ensures slot { SlotExtends self.old.slot self.new.slot }
        ensures served { IsSome self.old.slot → IsTrue self.new.served }
        ensures list { length self.new.procs.items ≡ length self.old.procs.items }
    {
        if let Some(seat) = mem::replace(&mut self.slot, None) {
            let mut diary = Diary::new();
            let procs = self.procs.as_mut_slice();
            let seat = service.serve_until(seat, procs, &mut diary, gate, stop, rt);
            self.served = diary.served();
            if let Some(other) = mem::replace(&mut self.slot, Some(seat)) {
                other.retire();
            }
        }
    }
}

/// Takes the list with this number, or an empty one if there is none.
#[tactic(auto, using(crate::proofs::Slots::set_other))]
fn take_list(procs: &mut [List], number: usize, alloc: Global) -> List
    ensures taken { (list : _) → slice_get procs.old number ≡ Some list → result ≡ list }
    ensures others { (i : ℕ) → i ≢ number → slice_get procs.new i ≡ slice_get procs.old i }
{
    if number < procs.len() {
        mem::replace(&mut procs[number], Vec::new(alloc))
    } else {
        Vec::new(alloc)
    }
}

/// Puts the list with this number back, if there is one.
#[tactic(auto, using(crate::proofs::Slots::set_here, crate::proofs::Slots::set_other))]
fn put_list_back(procs: &mut [List], number: usize, list: List)
    ensures put { number < length procs.old → slice_get procs.new number ≡ Some list }
    ensures others { (i : ℕ) → i ≢ number → slice_get procs.new i ≡ slice_get procs.old i }
{
    if number < procs.len() {
        procs[number] = list;
    }
}

/// Gives each seat the list at its position. The caller provides room for all.
fn with_lists<O: Opening>(
    seats: &mut Vec<Seat<O>>,
    procs: &mut [Vec<Box<dyn Proc + Send>>],
    alloc: Global,
    mut workers: Vec<Worker<O, List>>,
) -> Vec<Worker<O, List>>
    requires room { (workers.items ≡ []) × (length seats.old.items ≤ vec_capacity workers) }
    ensures workers { map (λ worker. worker.slot) result.items ≡ slots_of seats.old.items }
    // The worker at an index has the list that was there.
    ensures lists { (i : ℕ) (list : _) → slice_get procs.old i ≡ Some list → i < length result.items → slice_get (map (λ worker. worker.procs) result.items) i ≡ Some list }
    ensures others { (i : ℕ) → length result.items ≤ i → slice_get procs.new i ≡ slice_get procs.old i }
    ensures seats { (seats.new.items ≡ []) × (vec_capacity seats.new ≡ vec_capacity seats.old) }
{
    while seats.len() > 0 {
        let seat = seats.remove(0);
        let list = take_list(procs, workers.len(), alloc);
        workers.push_reserved(Worker {
            slot: Some(seat),
            procs: list,
            served: Served::not_yet(),
        });
    }
    workers
}

/// Takes the seats out of their slots, and puts each list back at its index. The caller provides room for the seats.
fn without_lists<O: Opening>(
    mut workers: Vec<Worker<O, List>>,
    procs: &mut [Vec<Box<dyn Proc + Send>>],
    mut seats: Vec<Seat<O>>,
) -> Vec<Seat<O>>
    requires room { (seats.items ≡ []) × (length workers.items ≤ vec_capacity seats) }
    ensures seats { result.items ≡ in_slots (map (λ worker. worker.slot) workers.items) }
    ensures lists { (i : ℕ) (list : _) → slice_get (map (λ worker. worker.procs) workers.items) i ≡ Some list → i < length procs.old → slice_get procs.new i ≡ Some list }
    ensures others { (i : ℕ) → length workers.items ≤ i → slice_get procs.new i ≡ slice_get procs.old i }
{
    let mut number = 0;
    while workers.len() > 0 {
        let Worker {
            slot,
            procs: list,
            served: _,
        } = workers.remove(0);
        put_list_back(procs, number, list);
        number += 1;
        if let Some(seat) = slot {
            seats.push_reserved(seat);
        }
    }
    workers.destroy_empty();
    seats
}

impl<O: Opening> Service<O> {
    /// Takes turns until it reads `stop` as true.
    fn serve_until_told<G: Gate, R: Wait>(
        &self,
        seat: Seat<O>,
        procs: &mut [Box<dyn Proc + Send>],
        diary: &mut Diary,
        gate: &G,
        stop: &AtomicBool,
        rt: &R,
    ) -> Seat<O>
        ensures seat { Extends seat result }
        ensures told { Gains diary.old.events diary.new.events (λ events. RunsEach (length procs.old) seat result events × EndsWith Told events) }
    {
        let mut seat = seat;
        let mut pause = Pause::new(&self.bell);
        let mut held = None;
        for _turn in rt.forever() {
            if diary.is_told(stop) {
                pause.end();
                return seat;
            }
            let Turn {
                seat: same,
                came_to,
                held: locked,
            } = self.take_turn(seat, procs, diary, gate, rt, held);
            seat = same;
            held = locked;
            match came_to {
                CameTo::Served(_) => pause.end(),
                CameTo::Busy => hint::spin_loop(),
                CameTo::Empty => pause.once(diary, gate, rt),
            }
        }
        unreachable!()
    }

    /// Takes turns until one finds the line empty.
    fn serve_rest<G: Gate, R: Wait>(
        &self,
        seat: Seat<O>,
        procs: &mut [Box<dyn Proc + Send>],
        diary: &mut Diary,
        gate: &G,
        rt: &R,
    ) -> Seat<O>
        ensures seat { Extends seat result }
        ensures empty { Gains diary.old.events diary.new.events (λ events. RunsEach (length procs.old) seat result events × EndsWith FoundEmpty events) }
    {
        let mut seat = seat;
        let mut held = None;
        for _turn in rt.forever() {
            let Turn {
                seat: same,
                came_to,
                held: locked,
            } = self.take_turn(seat, procs, diary, gate, rt, held);
            seat = same;
            held = locked;
            match came_to {
                CameTo::Served(_) => (),
                CameTo::Busy => hint::spin_loop(),
                CameTo::Empty => return seat,
            }
        }
        unreachable!()
    }

    /// Takes turns until it reads `stop` as true, and then until another turn finds the line empty. So everything published before `stop` was set is taken.
    fn serve_until<G: Gate, R: Wait>(
        &self,
        seat: Seat<O>,
        procs: &mut [Box<dyn Proc + Send>],
        diary: &mut Diary,
        gate: &G,
        stop: &AtomicBool,
        rt: &R,
    ) -> Seat<O>
        ensures seat { Extends seat result }
        ensures ended { Gains diary.old.events diary.new.events (λ events. RunsEach (length procs.old) seat result events × EndsWork events) }
    {
        let seat = self.serve_until_told(seat, procs, diary, gate, stop, rt);
        self.serve_rest(seat, procs, diary, gate, rt)
    }

    /// Serves with each of these seats, on a thread of its own if one can be started.
    fn serve_all<G: Gate + Sync, R: Threads + Wait + Sync>(
        &self,
        workers: &mut Vec<Worker<O, List>>,
        gate: &G,
        stop: &AtomicBool,
        rt: &R,
    )
    where
        O: Send + Sync,
        ensures len { length workers.new.items ≡ length workers.old.items }
        ensures each { (i : ℕ) (d : _) → i < length workers.old.items → SlotExtends (slice_index_or workers.old.items i d).slot (slice_index_or workers.new.items i d).slot }
        ensures served { (i : ℕ) (d : _) → i < length workers.old.items → IsSome (slice_index_or workers.old.items i d).slot → IsTrue (slice_index_or workers.new.items i d).served }
        ensures lists { (i : ℕ) (d : _) → i < length workers.old.items → length (slice_index_or workers.new.items i d).procs.items ≡ length (slice_index_or workers.old.items i d).procs.items }
    {
        let threads = workers.len();
        if threads == 0 {
            return;
        }
        let serve = |_: usize, worker: &mut Worker<O, List>|
            ensures slot { SlotExtends worker.old.slot worker.new.slot }
            ensures served { IsSome worker.old.slot → IsTrue worker.new.served }
            ensures list { length worker.new.procs.items ≡ length worker.old.procs.items }
        { worker.serve_from_slot(self, gate, stop, rt) };
        thread::for_each_mut(rt, workers.as_mut_slice(), threads, &serve);
    }

    /// Runs one worker for each seat, on threads of their own, and returns the seats, in order, when all have ended. May block.
    ///
    /// The worker of the first seat runs the procedures of the first list, and so on; it has none if `procs` is too short. It serves each entry as
    /// `invoke_finalizers` does. It ends when a take that began after it had read `stop` as true finds the line empty, so everything published before `stop`
    /// was set is taken. While the line is empty and `stop` is false, it spins, then yields, and then sleeps until an entry is sent or `wake` is called, but
    /// at most 50 milliseconds at a time. The calling thread is one of the workers, so `stop` has to be set by another.
    ///
    /// If a thread can't be started, another worker also serves its seat. If the threads' slots can't be allocated, all seats are returned unused.
    pub fn run_workers<G: Gate + Sync, R: Threads + Wait + Sync>(
        &self,
        mut seats: Vec<Seat<O>>,
        procs: &mut [Vec<Box<dyn Proc + Send>>],
        gate: &G,
        stop: &AtomicBool,
        rt: &R,
    ) -> Vec<Seat<O>>
    where
        O: Send + Sync,
        ensures seats { ExtendEach seats.items result.items }
        // Each list is where it was, with as many procedures.
        ensures lists { KeepSizes (λ list. length list.items) procs.old procs.new }
    {
        let alloc = *seats.allocator();
        let Ok(room) = Vec::with_capacity(alloc, seats.len()) else {
            return seats;
        };
        let mut workers = with_lists(&mut seats, procs, alloc, room);
        self.serve_all(&mut workers, gate, stop, rt);
        without_lists(workers, procs, seats)
    }
}
