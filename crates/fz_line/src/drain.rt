//! Draining a line.

ghost use Rattle.std.specs.Prelude.{◌≡◌, ◌+◌, ◌≤◌, ℕ, [], length, drop, vec_capacity};
ghost use Rattle.std.specs.List.{AllByRecursion};
ghost use Rattle.crossbeam_deque.specs.Handles.{worker_deque, worker_view};
ghost use Rattle.fz_line.specs.Views.{total};
ghost use Rattle.fz_model.specs.declared.limits.TheConstants.{MAX_WORKERS};
ghost use Rattle.fz_line.specs.Passes.{IsKept, HasPoppedNothing, HasPopped};
ghost use Rattle.fz_line.specs.States.{IsIdle};

use crate::protocol::{Blank, LineWorker, Popping, SeatList};
use crate::seat::Seat;
use fz_model::Entry;
use std::mem;

/// Pops all entries, once the owner's end has the lists of these seats as well as those that it has already.
///
/// Each level of the recursion lends one seat's list to the owner and returns it at the end. So at the bottom the owner has the lists of all seats, and the
/// code needs no array of borrowed lists.
pub(crate) fn gather(worker: &mut LineWorker, seats: &mut [Seat], out: &mut Vec<Entry>)
    requires own { AllByRecursion (λ seat. seat.line ≡ (worker_deque worker.old).0) seats.old }
    requires once { HasPoppedNothing worker.old }
    requires all { length (worker_view worker.old).lists + length seats.old ≡ MAX_WORKERS }
    requires room { (out.old.items ≡ []) × (length (worker_view worker.old).sent ≤ vec_capacity out.old + (total (λ list. length list) (worker_view worker.old).lists + total (λ seat. length seat.took) seats.old)) }
    ensures seats { seats.new ≡ seats.old }
    ensures kept { IsKept worker.old worker.new }
    ensures popped { HasPopped worker.old out.new.items worker.new }
    ensures whole { (weight : Entry → ℕ) → total (total weight) (worker_view worker.old).lists + total (λ seat. total weight seat.took) seats.old + total weight out.new.items ≡ total weight (worker_view worker.old).sent }
    ensures rest { out.new.items ≡ drop (total (λ list. length list) (worker_view worker.old).lists + total (λ seat. length seat.took) seats.old) (worker_view worker.old).sent }
    ensures idle { AllByRecursion IsIdle seats.old }
    ensures capacity { vec_capacity out.new ≡ vec_capacity out.old }
{
    if seats.len() == 0 {
        pop_all(worker, out);
        return;
    }
    let (front, rest) = seats.split_at_mut(1);
    let seat = &mut front[0];
    let blank = worker.another::<Blank>();
    let pass = mem::replace(&mut seat.taker.pass, blank);
    worker.absorb::<SeatList>(pass);
    gather(worker, rest, out);
    let pass = worker.another::<SeatList>();
    let blank = mem::replace(&mut seat.taker.pass, pass);
    drop(blank);
}

/// Pops all entries. Requires that the owner's end has the lists of all seats.
fn pop_all(worker: &mut LineWorker, out: &mut Vec<Entry>)
    requires once { HasPoppedNothing worker.old }
    requires all { length (worker_view worker.old).lists ≡ MAX_WORKERS }
    requires room { (out.old.items ≡ []) × (length (worker_view worker.old).sent ≤ vec_capacity out.old + total (λ list. length list) (worker_view worker.old).lists) }
    ensures kept { IsKept worker.old worker.new }
    ensures popped { HasPopped worker.old out.new.items worker.new }
    ensures whole { (weight : Entry → ℕ) → total (total weight) (worker_view worker.old).lists + total weight out.new.items ≡ total weight (worker_view worker.old).sent }
    ensures rest { out.new.items ≡ drop (total (λ list. length list) (worker_view worker.old).lists) (worker_view worker.old).sent }
    ensures capacity { vec_capacity out.new ≡ vec_capacity out.old }
{
    while let Some(entry) = worker.pop_as::<Popping>() {
        out.push_reserved(entry);
    }
}
