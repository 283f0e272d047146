//! Queueing every registration, whatever is marked.

ghost use Rattle.std.specs.Prelude.{◌≡◌, ◌≤◌, ◌+◌, ◌<◌, ◌^◌, [], ℕ, Bool, false, List, None, length, vec_len, vec_capacity, IsTrue, Some, refl};
ghost use Rattle.std.proofs.Common.{◌∙◌};
ghost use Rattle.std.proofs.lemmas.Option.{none-some};
ghost use Rattle.std.specs.FinMap.{get, contains_key, len, empty};
ghost use Rattle.std.specs.FinSet.{contains};
ghost use Rattle.fz_model.specs.State.{Map, Object};
ghost use Rattle.fz_pass.specs.All.{QueuesAll, unknown_objects};
ghost use Rattle.fz_pass.specs.Gathered.{IsSameQueue};
ghost use Rattle.fz_pass.specs.Listing.{AreUnmarked, AreRanked, is_listed};
ghost use Rattle.fz_pass.specs.Picking.{Picks, IsTaken, Takes, without_flags};
ghost use Rattle.fz_pass.specs.Queued.{is_ready};

use crate::gathered::Gathered;
use crate::host::Host;
use crate::listing::{Round, rank_unmarked};
use crate::ready_list::ReadyList;
use fz_model::{Addr, Entry, Pick};
use fz_table::Table;
use std::mem;

/// A host without objects or marks.
pub struct Nothing;

impl Host for Nothing {
    ghost objects = { λ _. empty };

    ghost marked = { λ _ _. false };

    ghost is_exact = { Unit {0} };

    ghost place = { λ _. None };

    ghost is_same = { λ _ _. Unit {0} };

    fn is_marked(&self, _object: Addr) -> bool {
        false
    }

    fn is_holder_marked(&self, _word: Addr) -> bool {
        true
    }

    fn birth(&self, _object: Addr) -> u64 {
        0
    }

    fn mark(&mut self, _object: Addr) {}

    fn mark_alone(&mut self, _object: Addr) {}

    fn mark_children(&mut self, _object: Addr, _but_itself: bool) {}

    fn clear(&mut self, _word: Addr) {}

    ghost reflexive = { λ _. tt };

    ghost transitive = { λ _ _ _ _ _. tt };

    ghost apart = { λ _ _ a stands _. absurd (none-some a stands) };
}

/// Removes the object's registration from the table, and returns its pick, without a birth. Requires a registered object.
fn take_unknown(table: &mut Table, object: Addr) -> Pick
    requires registered { IsTrue (contains_key table.old.registrations object) }
    ensures taken { (objects : Map Object) (o : Object) → get objects object ≡ Some o → o.birth ≡ 0 → IsTaken objects object table.old.content table.new.content result }
    ensures count { len table.new.registrations + 1 ≡ len table.old.registrations }
{
    let registration = table.take(object).unwrap();
    Pick {
        reg: registration.number,
        obj: object,
        birth: 0,
        proc: registration.proc,
        cd: registration.cd,
    }
}

/// Removes the listed objects' registrations from the table, and appends their entries to a queue.
fn take_all(table: &mut Table, ready: &[(u8, Addr)], out: &mut Gathered)
    requires listed { (skip : ℕ → Bool) × AreUnmarked table.old.registrations skip AreRanked ready.now }
    requires room { length out.old.picks + len table.old.registrations ≤ out.old.capacity }
    requires numbers { out.old.first + length out.old.picks + len table.old.registrations < 2 ^ 64 }
    ensures count { length out.new.picks + len table.new.registrations ≡ length out.old.picks + len table.old.registrations }
    ensures capacity { out.old.capacity ≤ out.new.capacity }
    ensures queue { IsSameQueue out.old out.new }
    ensures picks { Picks (unknown_objects table.old.registrations) (is_listed ready.now) table.old.content table.new.content out.old.picks out.new.picks }
{
    for entry in ready {
        let pick = take_unknown(table, entry.1);
        out.push(pick);
    }
}

/// Removes a round's registrations from the table, and appends their entries to a queue.
fn take_round(table: &mut Table, ready: &mut ReadyList, out: &mut Gathered, second: bool)
    requires list { len table.old.registrations ≤ ready.old.room }
    requires room { length out.old.picks + len table.old.registrations ≤ out.old.capacity }
    requires numbers { out.old.first + length out.old.picks + len table.old.registrations < 2 ^ 64 }
    ensures list { ready.old.room ≤ ready.new.room }
    ensures count { length out.new.picks + len table.new.registrations ≡ length out.old.picks + len table.old.registrations }
    ensures capacity { out.old.capacity ≤ out.new.capacity }
    ensures queue { IsSameQueue out.old out.new }
    ensures picks { Picks (unknown_objects table.old.registrations) (is_ready second (contains table.old.late) table.old.registrations (λ _. false)) table.old.content table.new.content out.old.picks out.new.picks }
{
    let round = Round {
        tiers: true,
        second,
    };
    rank_unmarked(&Nothing, table, round, ready);
    take_all(table, ready.as_slice(), out);
}

/// Queues every registration, those of the kind unreachable after the others, by rank, then address, whatever is marked: `GC_finalize_all`. Entries have
/// successive numbers from `first` on; their pass is 0, and so is each birth.
///
/// Takes no memory: both the list and the queue have room for every registration.
pub fn queue_all(table: &mut Table, ready: &mut ReadyList, queue: &mut Vec<Entry>, first: u64)
    requires list { len table.old.registrations ≤ ready.old.room }
    requires room { vec_len queue.old + len table.old.registrations ≤ vec_capacity queue.old }
    requires numbers { first + len table.old.registrations < 2 ^ 64 }
    ensures queued { (q : QueuesAll first table.old.registrations (contains table.old.late) queue.old.items queue.new.items) × (table.new.late ≡ without_flags table.old.late q.picks) }
    ensures table { table.new.registered ≡ record table.old.registered { registrations = empty } }
    ensures count { vec_len queue.new ≡ vec_len queue.old + len table.old.registrations }
    ensures list { ready.old.room ≤ ready.new.room }
    ensures capacity { vec_capacity queue.old ≤ vec_capacity queue.new }
{
    let alloc = *queue.allocator();
    let mut out = Gathered::new(mem::replace(queue, Vec::new(alloc)), 0, first);
    take_round(table, ready, &mut out, false);
    take_round(table, ready, &mut out, true);
    *queue = out.into_queue();
}
