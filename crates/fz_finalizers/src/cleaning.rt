//! Queueing cleanups whose objects are lost.

ghost use Rattle.std.specs.Prelude.{◌≡◌, ◌≤◌, ◌<◌, ◌+◌, ◌^◌, ◌++◌, [], ◌∷◌, ℕ, All, if◌then◌else◌, length, Some, IsTrue};
ghost use Rattle.std.specs.FinMap.{get, remove, len, contains_key};
ghost use Rattle.fz_pass.specs.Listing.{AreApart, AreRanked};
ghost use Rattle.fz_finalizers.specs.declared.cleanups.Attached.{Attached};
ghost use Rattle.fz_finalizers.specs.Cleanups.{AreListed, IsListed, is_due, pick_of};
ghost use Rattle.fz_finalizers.specs.Queue.{TakesListed};

use crate::cleanups::{Attached, Cleanups};
use crate::queue::Queue;
use fz_model::{Addr, LinkKind, Pick};
use fz_pass::{Host, ReadyList};

/// Whether a cleanup is due at this moment.
fn is_due<H: Host>(host: &H, when: LinkKind, attached: Attached) -> bool
    ensures { result ≡ is_due when (H.marked host.now) attached }
{
    attached.cleanup.is_when(when) && !host.is_marked(attached.object)
}

/// Appends a cleanup's number with its rank to the list, which has room for it, if the cleanup is due.
fn list_if_due<H: Host>(
    host: &H,
    when: LinkKind,
    number: u64,
    attached: Attached,
    list: &mut ReadyList,
)
    requires room { length list.old.listed < list.old.room }
    ensures listed { list.new.listed ≡ (if is_due when (H.marked host.now) attached then list.old.listed ++ (attached.cleanup.rank, number) ∷ [] else list.old.listed) }
    ensures room { list.old.room ≤ list.new.room }
{
    if is_due(host, when, attached) {
        list.push(attached.cleanup.rank, number);
    }
}

/// Lists the due cleanups.
fn list_due<H: Host>(host: &H, when: LinkKind, cleanups: &Cleanups, list: &mut ReadyList)
    requires room { len cleanups.now.cleanups ≤ list.old.room }
    ensures listed { AreListed (is_due when (H.marked host.now)) cleanups.now.cleanups AreApart list.new.listed }
    ensures few { length list.new.listed ≤ len cleanups.now.cleanups }
    ensures room { list.old.room ≤ list.new.room }
{
    list.clear();
    for (number, attached) in cleanups.iter() {
        list_if_due(host, when, number, attached, list);
    }
}

/// Lists the due cleanups, sorted by rank, then number.
pub(crate) fn rank_due<H: Host>(host: &H, when: LinkKind, cleanups: &Cleanups, list: &mut ReadyList)
    requires room { len cleanups.now.cleanups ≤ list.old.room }
    ensures listed { AreListed (is_due when (H.marked host.now)) cleanups.now.cleanups AreRanked list.new.listed }
    ensures room { list.old.room ≤ list.new.room }
{
    list_due(host, when, cleanups, list);
    list.sort();
}

/// What the entry of a cleanup has: no object.
pub(crate) fn pick_of(number: u64, attached: Attached) -> Pick
    ensures { result ≡ pick_of (number, attached) }
{
    Pick {
        reg: number,
        obj: 0,
        birth: 0,
        proc: attached.cleanup.procedure,
        cd: attached.cleanup.client_data,
    }
}

/// Removes a cleanup from the table, and returns what its entry has.
fn take(cleanups: &mut Cleanups, number: u64) -> Pick
    requires there { IsTrue (contains_key cleanups.old.cleanups number) }
    ensures taken { (c : Attached) × (get cleanups.old.cleanups number ≡ Some c) × (result ≡ pick_of (number, c)) }
    ensures removed { cleanups.new.cleanups ≡ remove cleanups.old.cleanups number }
    ensures count { len cleanups.new.cleanups + 1 ≡ len cleanups.old.cleanups }
    ensures room { cleanups.old.room ≤ cleanups.new.room }
{
    let attached = cleanups.remove(number).unwrap();
    pick_of(number, attached)
}

/// Removes the listed cleanups from the table, and appends their entries to the queue, with this pass. Requires room for them.
pub(crate) fn queue_listed(
    queue: &mut Queue,
    pass: u64,
    listed: &[(u8, Addr)],
    cleanups: &mut Cleanups,
)
    requires ranked { AreRanked listed.now }
    requires listed { All (IsListed cleanups.old.cleanups) listed.now }
    requires room { len cleanups.old.cleanups ≤ queue.old.room }
    requires numbers { length queue.old.queue + len cleanups.old.cleanups < 2 ^ 64 }
    ensures taken { TakesListed pass listed.now cleanups.old.cleanups cleanups.new.cleanups queue.old queue.new }
    ensures count { length queue.new.queue + len cleanups.new.cleanups ≡ length queue.old.queue + len cleanups.old.cleanups }
    ensures fewer { len cleanups.new.cleanups ≤ len cleanups.old.cleanups }
    ensures room { queue.old.room + len cleanups.new.cleanups ≤ queue.new.room + len cleanups.old.cleanups }
    ensures places { cleanups.old.room ≤ cleanups.new.room }
{
    for entry in listed {
        let pick = take(cleanups, entry.1);
        queue.push(pass, pick);
    }
}
