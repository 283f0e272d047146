//! The lock, and opening a service.

ghost use Rattle.std.specs.Prelude.{◌≡◌, ◌≤◌, ◌++◌, ◌∷◌, [], IfOk, IfErr};
ghost use Rattle.std.specs.Sync.Mutex.{mutex_guard_value};
ghost use Rattle.fz_model.specs.Causes.{IsJudgedBy, IsJudgedOrLacks, bad_count};
ghost use Rattle.fz_model.specs.declared.limits.TheConstants.{MAX_BLOCKS, MAX_WORKERS};
ghost use Rattle.fz_line.specs.States.{new_seats};
ghost use Rattle.fz_world.specs.Does.{open_causes};
ghost use Rattle.fz_service.specs.States.{IsInOrder, line_room};
ghost use Rattle.fz_service.specs.Ends.{IsEndOfRun, IsEachOnce, IsRefusedEnd};

use crate::bell::Bell;
use crate::ending::Final;
use crate::locked::Locked;
use crate::opening::Opening;
use crate::prepared::Prepared;
use crate::room::{ServiceError, open_line, open_world, room_for, two_handles};
use crate::seat;
use crate::seat::Seat;
use fz_line::retire_all;
use fz_model::{BLOCK_WORDS, MAX_BLOCKS, MAX_FRAMES, Refusal, TABLE_LIMIT};
use fz_world::Config;
use std::alloc::Global;
use std::hint;
use std::marker::Brand;
use std::sync::ledger::Blank;
use std::sync::{Arc, Mutex, MutexGuard, Wait};

/// How often a thread tries to take the lock before it sleeps. That takes one to three microseconds.
const TRIES: u32 = 64;

/// The lock while it is held: it lends `Locked`.
pub type Guard<'a, O> = MutexGuard<'a, Locked<O>>;

/// A world and the owner's end of its line, under one lock.
pub struct Service<O: Opening> {
    pub(crate) lock: Mutex<Locked<O>>,
    /// The bell that the lock's content has, too.
    pub(crate) bell: Arc<Bell, Global>,
}

// Written by hand, so that the owner drops it by one proved call, not field by field at each exit of a function.
impl<O: Opening> Drop for Service<O> {
    fn drop(self) {
        let Service { lock: _, bell: _ } = self;
    }
}

/// Checks that the size of a world is within its limits.
fn check_config(config: Config) -> Result<(), ServiceError>
    ensures { IsJudgedBy (open_causes config.blocks config.frames) result }
{
    if config.blocks < 1 || config.blocks > MAX_BLOCKS {
        return Err(ServiceError::of(Refusal::BadCount));
    }
    if config.frames < 1 || config.frames > MAX_FRAMES {
        return Err(ServiceError::of(Refusal::BadCount));
    }
    Ok(())
}

/// For how many entries a line has room from the start, given the heap's blocks: as many as one pass can queue.
///
/// A line that grows beyond that needs no bound: at most 64 * blocks entries wait in it. The object of a waiting entry is a root, because the entry isn't
/// finished, so no pass queues it again. So waiting entries have different objects, and each object has a word of the heap.
fn line_room(blocks: u64) -> usize
    requires { blocks ≤ MAX_BLOCKS }
    ensures { result ≡ line_room blocks }
{
    (BLOCK_WORDS * blocks).min(TABLE_LIMIT) as usize
}

impl Service<Brand> {
    /// Allocates what a service needs: a world of this size, and a line with one seat for each worker. Takes time proportional to the heap.
    ///
    /// The line has room for as many entries as one pass can queue, min(65,536, 64 * blocks), so sending these allocates nothing. Each takes about 80 bytes:
    /// 5.2 MB and about 4 ms for a heap of 1,024 blocks or more.
    ///
    /// Fails with, in this order: `BadCount` if blocks or frames are outside the limits of `Config`, or workers aren't from 1 to 8, `NoMemory` if an
    /// allocation fails.
    pub fn prepare(alloc: Global, config: Config, workers: u64) -> Result<Prepared, ServiceError>
        ensures judged { IsJudgedOrLacks (open_causes config.blocks config.frames ++ bad_count MAX_WORKERS workers ∷ []) result }
        ensures prepared { IfOk result (λ made. (made.blocks ≡ config.blocks) × (made.frames ≡ config.frames) × (made.workers ≡ workers)) }
    {
        check_config(config)?;
        let room = line_room(config.blocks);
        let (owner, seats) = open_line(alloc, workers, room)?;
        let blank = Blank::new(workers);
        match open_world(alloc, config) {
            Ok(world) => Ok(Prepared {
                alloc,
                config,
                world,
                owner,
                seats,
                blank,
            }),
            Err(error) => {
                retire_all(seats);
                Err(error)
            }
        }
    }
}

impl<O: Opening> Service<O> {
    /// The service, under a type that names this one opening, and its seats in order of index.
    ///
    /// Fails with `NoMemory` if an allocation fails; then what was prepared is dropped.
    pub fn open(prepared: Prepared) -> Result<(Service<O>, Vec<Seat<O>>), ServiceError>
        requires { prepared ≡ O.origin }
        ensures seats { IfOk result (λ opened. opened.1.items ≡ new_seats O.origin.line O.origin.workers) }
        ensures refused { IfErr result (λ refusal. refusal ≡ Refusal.NoMemory) }
    {
        let (bell, rung) = two_handles(prepared.alloc)?;
        let room = room_for(prepared.alloc, prepared.seats.len())?;
        Ok(prepared.into_service(room, bell, rung))
    }

    /// Takes the lock. Under the lock the world is always in a state reachable in the model, the entries sent are a prefix of its queue, and as many of its
    /// entries are no longer held as duties have finished. May block.
    pub fn enter<'a, R: Wait>(&'a self, rt: &R) -> Guard<'a, O>
        ensures { IsInOrder O.origin (mutex_guard_value result) }
    {
        let mut guard = self.take_lock(rt);
        let locked: &mut Locked<O> = &mut guard;
        locked.holds.add_one();
        guard
    }

    /// Takes the lock. It tries several times before it sleeps: the lock is held for less time than a sleep takes, and one sleeping thread makes the next one
    /// sleep, too.
    fn take_lock<'a, R: Wait>(&'a self, rt: &R) -> Guard<'a, O> {
        for _ in 0..TRIES {
            if let Some(guard) = self.lock.try_lock() {
                return guard;
            }
            hint::spin_loop();
        }
        self.lock.lock(rt)
    }

    /// Wakes all sleeping workers, so that they check `stop` and the line. Call it after setting the `stop` of `run_workers`; without it a sleeping worker
    /// sees `stop` after at most 50 milliseconds. `run_beside` calls it itself.
    pub fn wake(&self) {
        self.bell.ring();
    }

    /// Ends the service, which requires all its seats, as `Locked::end` does. No pass is carried out, and the world is dropped. Takes time proportional to
    /// the heap and to the entries that are left.
    ///
    /// Fails with, in this order: `SeatsMissing` if the seats' indices aren't each index exactly once, `NoMemory` if an allocation fails. Then it returns
    /// everything that it was given.
    pub fn shutdown(
        self,
        seats: Vec<Seat<O>>,
    ) -> Result<Final, (ServiceError, Service<O>, Vec<Seat<O>>)>
        ensures ended { IfOk result (λ end. IsEndOfRun O.origin seats.items end × IsEachOnce O.origin.workers seats.items) }
        ensures refused { IfErr result (λ refused. IsRefusedEnd O.origin.workers seats.items refused.0) }
        ensures same { IfErr result (λ refused. refused.2.items ≡ seats.items) }
    {
        let Service { lock, bell } = self;
        match lock.into_inner().end(seats) {
            Ok(end) => Ok(end),
            Err((error, locked, seats)) => {
                let lock = Mutex::new(locked);
                Err((error, Service { lock, bell }, seats))
            }
        }
    }

    /// Ends the service, which requires all its seats, as `shutdown` does. If that fails, the seats are retired and the service is dropped. Takes time
    /// proportional to the heap and to the entries that are left.
    ///
    /// Fails with, in this order: `SeatsMissing` if the seats' indices aren't each index exactly once, `NoMemory` if an allocation fails.
    pub fn conclude(self, seats: Vec<Seat<O>>) -> Result<Final, ServiceError>
        ensures ended { IfOk result (λ end. IsEndOfRun O.origin seats.items end × IsEachOnce O.origin.workers seats.items) }
        ensures refused { IfErr result (λ refusal. IsRefusedEnd O.origin.workers seats.items refusal) }
    {
        match self.shutdown(seats) {
            Ok(totals) => Ok(totals),
            Err((error, _service, seats)) => {
                seat::retire_all(seats);
                Err(error)
            }
        }
    }
}
