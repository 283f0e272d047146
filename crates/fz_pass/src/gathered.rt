//! The entries of one pass, at the end of the queue.

ghost use Rattle.std.specs.Prelude.{◌≡◌, ◌≤◌, ◌<◌, ◌+◌, ◌-◌, ◌^◌, ◌++◌, [], ◌∷◌, length, vec_len, vec_capacity};
ghost use Rattle.fz_model.specs.Pass.{entry_of, entries_of};

use fz_model::{Entry, Pick};
use std::marker::Model;

/// A queue to which the entries of a pass are appended. Its model is its content before the pass, and the picks whose entries were appended.
#[derive(Drop)]
pub(crate) struct Gathered {
    queue: Vec<Entry>,
    pass: u64,
    /// How many entries it had before.
    before: usize,
    /// The number of the pass's first entry.
    first: u64,
}

impl Model for Gathered {
    ghost use Rattle.std.specs.Prelude.{◌≡◌, ◌≤◌, ◌-◌, drop, length, take, vec_capacity};
    ghost use Rattle.fz_model.specs.Pass.{entries_of};
    ghost use Rattle.fz_pass.specs.Gathered.{Gathered, gathered_code, picks_of};

    ghost Value = { Gathered };

    ghost coded = { gathered_code };

    ghost view = { λ g. record { before = take g.before g.queue.items; pass = g.pass; first = g.first; picks = picks_of (drop g.before g.queue.items); capacity = vec_capacity g.queue - g.before } };

    ghost invariant = { λ g. (g.before ≤ length g.queue.items) × (drop g.before g.queue.items ≡ entries_of g.pass g.first (picks_of (drop g.before g.queue.items))) };
}

/// The queue entry of a pick.
fn entry_of(pass: u64, seq: u64, pick: Pick) -> Entry
    ensures { result ≡ entry_of pass seq pick }
{
    Entry {
        seq,
        pass,
        reg: pick.reg,
        obj: pick.obj,
        birth: pick.birth,
        proc: pick.proc,
        cd: pick.cd,
    }
}

impl Gathered {
    /// The queue before the pass's first entry.
    pub(crate) fn new(queue: Vec<Entry>, pass: u64, first: u64) -> Gathered
        ensures { result ≡ record { before = queue.items; pass = pass; first = first; picks = []; capacity = vec_capacity queue - vec_len queue } }
    {
        let before = queue.len();
        Gathered {
            queue,
            pass,
            before,
            first,
        }
    }

    /// Appends the entry of a pick. Requires room for it.
    pub(crate) fn push(&mut self, pick: Pick)
        requires room { length self.old.picks < self.old.capacity }
        requires number { self.old.first + length self.old.picks < 2 ^ 64 }
        ensures pushed { self.new ≡ record self.old { picks = self.old.picks ++ pick ∷ []; capacity = self.new.capacity } }
        ensures capacity { self.old.capacity ≤ self.new.capacity }
    {
        let seq = self.first + (self.queue.len() - self.before) as u64;
        let _ = self.queue.push(entry_of(self.pass, seq, pick));
    }

    /// The queue with all entries.
    pub(crate) fn into_queue(self) -> Vec<Entry>
        ensures items { result.items ≡ self.before ++ entries_of self.pass self.first self.picks }
        ensures capacity { vec_capacity result ≡ length self.before + self.capacity }
    {
        let Gathered {
            queue,
            pass: _,
            before: _,
            first: _,
        } = self;
        queue
    }
}
