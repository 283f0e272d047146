//! What the lock protects.

ghost use Rattle.std.specs.Prelude.{◌≡◌, ◌+◌, ◌<◌, ◌≤◌, [], ◌++◌, drop, length, take, IfOk, IfErr, OnOk};
ghost use Rattle.fz_model.specs.declared.limits.TheConstants.{COUNT_LIMIT};
ghost use Rattle.fz_model.specs.Events.{Finish};
ghost use Rattle.fz_model.specs.State.{opening};
ghost use Rattle.fz_line.specs.States.{owner_state};
ghost use Rattle.fz_world.specs.Does.{Does, StandsFor};
ghost use Rattle.fz_world.specs.World.{WorldView, KeepsMarks};
ghost use Rattle.fz_service.specs.States.{locked_state, line_room, one_more, LetsGo, RunsCalls, KeepsLine, SendsMore};
ghost use Rattle.std.specs.Fn.{FnOnceReturnsAtMut};
ghost use Rattle.fz_service.specs.Takes.{reply_of};

use crate::bell::{Bell, Rung};
use crate::holds::Holds;
use crate::opening::{Finishes, Opening};
use crate::seat::{Duty, Seat};
use crate::shortages::Shortages;
use fz_line::Owner;
use fz_model::{Entry, Refusal};
use fz_world::World;
use std::alloc::Global;
use std::marker::Model;
use std::sync::Arc;
use std::sync::ledger::{Book, Share};

/// A world, the owner's end of the line to which its entries are sent, and the ledger of finished duties.
///
/// Its model is the world, what the line was sent, how many entries that is, the number of finished duties, and the number of shortages.
#[derive(Drop)]
pub struct Locked<O: Opening> {
    pub(crate) alloc: Global,
    pub(crate) world: World,
    pub(crate) owner: Owner,
    /// How many entries the line was sent, for each of which a sleeper was woken.
    pub(crate) rung: Rung,
    pub(crate) shortages: Shortages,
    pub(crate) book: Book<Finishes<O>>,
    /// The rest of the ledger's shares, after each seat got its own: no part.
    pub(crate) rest: Share<Finishes<O>>,
    pub(crate) holds: Holds,
}

impl<O: Opening> Model for Locked<O> {
    ghost use Rattle.fz_service.specs.States.{LockedState, locked_code, locked_state, IsInOrder, IsReady};

    ghost Value = { LockedState };

    ghost coded = { locked_code };

    ghost view = { λ s. locked_state s.world s.owner.sent s.rung.entries s.book.total s.shortages.count };

    ghost invariant = { λ s. IsInOrder O.origin (locked_state s.world s.owner.sent s.rung.entries s.book.total s.shortages.count) × IsReady O.origin s.owner s.rest.parts s.rest.amount };
}

/// The entries of a queue from a number on. Requires that none of them is forgotten.
pub(crate) fn queue_from(world: &World, number: usize) -> &[Entry]
    requires { (world.now.forgotten ≤ number) × (number ≤ length world.now.queue) }
    ensures queue { result.now ≡ drop number world.now.queue }
    ensures few { length world.now.queue ≤ COUNT_LIMIT }
{
    &world.queue()[number - world.forgotten() as usize..]
}

impl<O: Opening> Locked<O> {
    /// A new world and a new line, after each share of the ledger was distributed.
    pub(crate) fn new(
        alloc: Global,
        world: World,
        owner: Owner,
        book: Book<Finishes<O>>,
        rest: Share<Finishes<O>>,
        bell: Arc<Bell, Global>,
    ) -> Locked<O>
        requires world { StandsFor world (opening O.origin.blocks O.origin.frames) }
        requires forgotten { world.forgotten ≡ 0 }
        requires owner { owner ≡ owner_state O.origin.line O.origin.workers (line_room O.origin.blocks) [] [] }
        requires book { (book.total ≡ 0) × (rest.parts ≡ 0) × (rest.amount ≡ 0) }
    {
        Locked {
            alloc,
            holds: Holds::at_opening::<O>(&world),
            world,
            owner,
            rung: Rung::new(bell),
            shortages: Shortages::none(),
            book,
            rest,
        }
    }

    /// How often the lock was taken since the opening, including this time, modulo 2^64. No contract mentions it: tests use it to show that the lock isn't
    /// taken more often than needed.
    pub fn holds(&self) -> u64 {
        self.holds.count()
    }

    /// The overflow queue: the entries that weren't sent yet.
    pub fn outbox(&self) -> &[Entry]
        ensures { result.now ≡ drop self.now.published self.now.world.queue }
    {
        queue_from(&self.world, self.rung.entries)
    }

    /// How often a push or an end of the service ran out of memory, modulo 2^64. After such a push entries stay in the overflow queue.
    pub fn shortages(&self) -> u64
        ensures { result ≡ self.now.shortages }
    {
        self.shortages.count()
    }

    /// Sends the entries of the overflow queue, oldest first, and wakes one sleeping worker for each; returns how many were sent. Takes time proportional to
    /// the entries that it sends.
    ///
    /// It stops early only if a push runs out of memory, which counts as a shortage. The first min(65,536, 64 * blocks) entries never cause one, since the
    /// line has room for them. Entries that aren't sent stay in the overflow queue.
    pub fn publish(&mut self) -> usize
        ensures sent { self.new ≡ record self.old { sent = self.old.sent ++ take result (drop self.old.published self.old.world.queue); published = self.old.published + result; shortages = self.new.shortages } }
        ensures within { self.new.published ≤ length self.old.world.queue }
        ensures all { self.new.published ≡ length self.old.world.queue → self.new.shortages ≡ self.old.shortages }
        ensures short { self.new.published < length self.old.world.queue → self.new.shortages ≡ one_more self.old.shortages }
        ensures room { self.new.published < length self.old.world.queue → line_room O.origin.blocks ≤ self.new.published }
    {
        let outbox = queue_from(&self.world, self.rung.entries);
        let (count, shortage) = self.owner.publish(outbox);
        self.shortages.note(shortage);
        let sent = self.rung.entries + count;
        self.rung.ring(&self.owner, sent);
        count
    }

    /// Lends the world to `work`, which may read it and make calls, as a procedure's `run` does, and then sends what these queued.
    pub fn with_world<T, F: FnOnce(&mut World) -> T>(&mut self, work: F) -> T
        requires callable { F.IsAlwaysCallable work }
        requires calls { (old : WorldView) (answer : T) (new : WorldView) → FnOnceReturnsAtMut F.FnOnce work old answer new → RunsCalls old new }
        ensures answer { FnOnceReturnsAtMut F.FnOnce work self.old.world result self.new.world }
        ensures calls { RunsCalls self.old.world self.new.world }
        ensures sent { SendsMore O.origin self.old self.new }
    {
        let answer = work(&mut self.world);
        self.publish();
        answer
    }

    /// Finishes the duty's entry, which then no longer retains its object, and returns the seat.
    ///
    /// Fails with `NotHeld`, and returns the duty, if no held entry equals this one in all fields.
    pub fn finish(&mut self, duty: Duty<O>) -> Result<Seat<O>, (Refusal, Duty<O>)>
        ensures step { Does self.old.world (Finish duty.entry) (reply_of result) self.new.world }
        ensures done { IfOk result (λ seat. seat ≡ record duty.seat { finished = duty.seat.finished + 1 }) }
        ensures counted { OnOk result (self.new ≡ record self.old { world = self.new.world; finished = self.old.finished + 1 }) }
        ensures gone { OnOk result (LetsGo self.old.world self.new.world duty.entry) }
        ensures marks { KeepsMarks self.old.world self.new.world }
        ensures refused { IfErr result (λ refused. (refused ≡ (Refusal.NotHeld, duty)) × (self.new ≡ self.old)) }
    {
        match self.world.finish(duty.entry()) {
            Err(refusal) => Err((refusal, duty)),
            Ok(()) => {
                let Duty { duty, mut share } = duty;
                self.book.add(&mut share, 1);
                Ok(Seat {
                    seat: duty.done(),
                    share,
                })
            }
        }
    }
}
