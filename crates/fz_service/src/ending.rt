//! Ending a service.

ghost use Rattle.fz_line.specs.States.{taken_by};
ghost use Rattle.std.specs.Prelude.{◌≡◌, ◌+◌, ◌-◌, ◌≤◌, ◌⊎◌, ◌↔◌, [], ◌++◌, IsTrue, IfOk, IfErr, length, sum_by, All, vec_capacity};
ghost use Rattle.std.specs.FinMap.{len};
ghost use Rattle.fz_service.specs.States.{IsInOrder};
ghost use Rattle.fz_service.specs.Ends.{IsEnd, IsEachOnce, IsOfLine, IsRefusedEnd, left_by, has_index};

use crate::locked::{Locked, queue_from};
use crate::opening::{Finishes, Opening};
use crate::room::{ServiceError, reserve};
use crate::seat::Seat;
use fz_line::retire_all;
use fz_model::{Entry, Refusal};
use std::sync::ledger::Share;

/// The totals of an ended service.
#[derive(Drop)]
pub struct Final {
    /// The number of entries that were ever queued.
    pub enqueued: u64,
    /// How many of them were taken.
    pub taken: u64,
    /// How many of these were finished.
    pub finished: u64,
    /// How many of these were forfeited.
    pub forfeited: u64,
    /// The entries that were not taken, in order.
    pub left: Vec<Entry>,
    /// The number of passes.
    pub passes: u64,
    /// The number of objects reclaimed.
    pub reclaimed: u64,
}

impl<O: Opening> Locked<O> {
    /// Ends the service, which requires all its seats. No pass is carried out. Takes time proportional to the heap and to the entries that are left.
    ///
    /// Fails with, in this order: `SeatsMissing` if the seats' indices aren't each index exactly once, `NoMemory` if an allocation fails, which counts as a
    /// shortage. Then it returns everything that it was given.
    pub fn end(self, seats: Vec<Seat<O>>) -> Result<Final, (ServiceError, Locked<O>, Vec<Seat<O>>)>
        ensures ended { IfOk result (λ end. IsEnd self seats.items end × IsEachOnce O.origin.workers seats.items) }
        ensures order { IsInOrder O.origin self }
        ensures refused { IfErr result (λ refused. IsRefusedEnd O.origin.workers seats.items refused.0) }
        ensures same { IfErr result (λ refused. (refused.1 ≡ left_by refused.0 self) × (refused.2.items ≡ seats.items)) }
    {
        if !is_each_once(seats.as_slice(), self.owner.seats()) {
            return Err((ServiceError::of(Refusal::SeatsMissing), self, seats));
        }
        let entries = self
            .world
            .queued()
            .saturating_sub(count_taken(seats.as_slice()));
        match reserve(self.alloc, entries as usize, seats.len()) {
            Ok((left, plain)) => Ok(self.settle(seats, plain, left)),
            Err(no_room) => {
                let mut locked = self;
                locked.shortages.note_room(&no_room);
                Err((ServiceError::from(no_room), locked, seats))
            }
        }
    }

    /// Ends the service with all its seats. The caller provides room for the entries that are left, and for the seats without their shares.
    fn settle(self, seats: Vec<Seat<O>>, plain: Vec<fz_line::Seat>, mut left: Vec<Entry>) -> Final
        requires all { length seats.items ≡ O.origin.workers }
        requires plain { (plain.items ≡ []) × (length seats.items ≤ vec_capacity plain) }
        requires left { (left.items ≡ []) × (length self.world.queue ≤ vec_capacity left + length (taken_by seats.items)) }
        ensures { IsEnd self seats.items result }
    {
        let enqueued = self.world.queued();
        let outstanding = self.world.outstanding();
        let passes = self.world.passes();
        let reclaimed = self.world.reclaimed();
        let Locked {
            alloc: _,
            world,
            mut owner,
            rung,
            shortages: _,
            mut book,
            rest,
            holds: _,
        } = self;
        let (mut plain, mut all) = without_shares(seats, plain, rest);
        book.audit(&mut all);
        owner.drain(plain.as_mut_slice(), &mut left);
        retire_all(plain);
        let taken = (rung.entries - left.len()) as u64;
        append(&mut left, queue_from(&world, rung.entries));
        drop(world);
        let finished = enqueued - outstanding;
        Final {
            enqueued,
            taken,
            finished,
            forfeited: taken - finished,
            left,
            passes,
            reclaimed,
        }
    }
}

/// How many entries these seats took, unless the sum overflows.
fn count_taken<O: Opening>(seats: &[Seat<O>]) -> u64
    ensures { result ≤ length (taken_by seats.now) }
{
    match seats {
        [] => 0,
        [first, rest @ ..] => first.taken().saturating_add(count_taken(rest)),
    }
}

/// The seats without their shares, and the sum of the shares. The caller provides room for the seats.
fn without_shares<O: Opening>(
    mut seats: Vec<Seat<O>>,
    mut plain: Vec<fz_line::Seat>,
    mut all: Share<Finishes<O>>,
) -> (Vec<fz_line::Seat>, Share<Finishes<O>>)
    requires plain { (plain.items ≡ []) × (length seats.items ≤ vec_capacity plain) }
    requires all { (all.parts ≡ 0) × (all.amount ≡ 0) }
    ensures seats { result.0.items ≡ seats.items }
    ensures lines { All (IsOfLine O.origin.line) seats.items }
    ensures all { (result.1.parts ≡ length seats.items) × (result.1.amount ≡ sum_by (λ seat. seat.finished) seats.items) }
{
    while seats.len() > 0 {
        let Seat { seat, share } = seats.remove(0);
        all.merge(share);
        plain.push_reserved(seat);
    }
    seats.destroy_empty();
    (plain, all)
}

/// Appends these entries. Requires room for them.
fn append(left: &mut Vec<Entry>, outbox: &[Entry])
    requires { length left.old.items + length outbox.now ≤ vec_capacity left.old }
    ensures { left.new.items ≡ left.old.items ++ outbox.now }
{
    for entry in outbox {
        left.push_reserved(*entry);
    }
}

/// Whether there are as many seats as workers, and every index below that number occurs.
fn is_each_once<O: Opening>(seats: &[Seat<O>], workers: usize) -> bool
    ensures { IsTrue result ↔ IsEachOnce workers seats.now }
{
    if seats.len() != workers {
        return false;
    }
    for index in 0..workers {
        if !has_index(seats, index) {
            return false;
        }
    }
    true
}

/// Whether a seat has this index.
fn has_index<O: Opening>(seats: &[Seat<O>], index: usize) -> bool
    ensures { result ≡ has_index index seats.now }
{
    seats.iter().any(|seat| seat.index() == index)
}
