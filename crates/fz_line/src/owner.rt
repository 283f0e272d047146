//! The owner's end of the line.

ghost use Rattle.std.specs.Prelude.{◌≡◌, ◌+◌, ◌<◌, ◌≤◌, ◌↔◌, [], ◌∷◌, ◌++◌, IsSome, OnOk, OnErr, length, take, drop, vec_capacity, All, IsPermutation};
ghost use Rattle.fz_line.specs.Views.{sent_limit};
ghost use Rattle.fz_line.specs.Numbers.{AreNumberedFrom};
ghost use Rattle.fz_line.specs.States.{IsIdle, taken_by};

use crate::drain::gather;
use crate::protocol::{LineWorker, Sending};
use crate::seat::Seat;
use fz_model::Entry;
use std::marker::Model;

/// A push ran out of memory. Only such a push makes one.
#[derive(Drop)]
pub struct Shortage(());

/// The producer's end of a line, at which entries are sent.
///
/// Its model is the identity of the line, its number of seats, for how many entries it has room from the start, everything that was sent, and what `drain`
/// took out. If an owner is dropped, the entries that wait in the line are dropped, too.
pub struct Owner {
    pub(crate) worker: LineWorker,
    pub(crate) seats: usize,
    pub(crate) room: usize,
}

// Written by hand, so that the owner drops it by one proved call, not field by field at each exit of a function.
impl Drop for Owner {
    fn drop(self) {
        let Owner {
            worker: _,
            seats: _,
            room: _,
        } = self;
    }
}

impl Model for Owner {
    ghost use Rattle.std.specs.Prelude.{◌≤◌};
    ghost use Rattle.crossbeam_deque.specs.Handles.{worker_deque, worker_view, worker_capacity};
    ghost use Rattle.fz_line.specs.Passes.{IsOwnerEnd};
    ghost use Rattle.fz_line.specs.States.{OwnerState, owner_state};

    ghost Value = { OwnerState };

    ghost view = { λ o. owner_state (worker_deque o.worker).0 o.seats o.room (worker_view o.worker).sent (worker_view o.worker).popped };

    ghost invariant = { λ o. IsOwnerEnd o.seats o.worker × (o.room ≤ worker_capacity o.worker) };
}

impl Owner {
    /// The number of the line's seats.
    pub fn seats(&self) -> usize
        ensures { result ≡ self.now.seats }
    {
        self.seats
    }

    /// Sends the entries of the overflow queue in order. Returns how many were sent, and evidence of the shortage if these aren't all.
    ///
    /// It stops early only if memory for the next entry can't be allocated; this entry and all later ones are then not sent. The entries for which the line had
    /// room when it was opened can always be sent. Requires that the entries have successive numbers, of which the first is the number of entries sent before,
    /// and that at most 2^62 are sent in all.
    pub fn publish(&mut self, outbox: &[Entry]) -> (usize, Option<Shortage>)
        requires numbers { AreNumberedFrom (length self.old.sent) outbox.now }
        requires limit { length self.old.sent + length outbox.now ≤ sent_limit }
        ensures sent { self.new ≡ record self.old { sent = self.old.sent ++ take result.0 outbox.now } }
        ensures within { result.0 ≤ length outbox.now }
        ensures short { IsSome result.1 ↔ (result.0 < length outbox.now) }
        ensures room { result.0 < length outbox.now → self.old.room ≤ length self.new.sent }
    {
        for (count, &entry) in outbox.iter().enumerate() {
            if let Err(shortage) = self.send(entry) {
                return (count, Some(shortage));
            }
        }
        (outbox.len(), None)
    }

    /// Sends the entry with the next number, if memory for it can be allocated.
    #[tactic(auto, using(crate::proofs::Steps::sends))]
    fn send(&mut self, entry: Entry) -> Result<(), Shortage>
        requires { (entry.seq ≡ length self.old.sent) × (length self.old.sent < sent_limit) }
        ensures sent { OnOk result (self.new ≡ record self.old { sent = self.old.sent ++ entry ∷ [] }) }
        ensures refused { OnErr result ((self.new ≡ self.old) × (self.old.room ≤ length self.old.sent)) }
    {
        match self.worker.push_as::<Sending>(entry) {
            Ok(()) => Ok(()),
            Err(_) => Err(Shortage(())),
        }
    }

    /// Moves all entries that wait in the line into `out`, in order.
    ///
    /// It borrows all seats of the line and leaves each as it was. This proves that the seats' entries and `out` together are exactly what was sent: the
    /// seats took a prefix, each entry once, and `out` is the rest. It needs room only for the rest, allocates nothing and can't fail. A line is drained only
    /// once.
    pub fn drain(&mut self, seats: &mut [Seat], out: &mut Vec<Entry>)
        requires once { self.old.popped ≡ [] }
        requires all { length seats.old ≡ self.old.seats }
        requires own { All (λ seat. seat.line ≡ self.old.line) seats.old }
        requires room { (out.old.items ≡ []) × (length self.old.sent ≤ vec_capacity out.old + length (taken_by seats.old)) }

        ensures first { IsPermutation (taken_by seats.old) (take (length (taken_by seats.old)) self.old.sent) }
        ensures rest { out.new.items ≡ drop (length (taken_by seats.old)) self.old.sent }
        ensures idle { All IsIdle seats.old }

        ensures seats { seats.new ≡ seats.old }
        ensures popped { self.new ≡ record self.old { popped = out.new.items } }
        ensures capacity { vec_capacity out.new ≡ vec_capacity out.old }
    {
        gather(&mut self.worker, seats, out);
    }
}
