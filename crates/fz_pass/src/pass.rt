//! One pass over a heap without ephemerons, the table and the links.

ghost use Rattle.std.specs.Prelude.{◌≡◌, ◌≤◌, ◌<◌, ◌+◌, ◌^◌, ℕ, None, vec_len, vec_capacity, IsTrue};
ghost use Rattle.std.specs.FinMap.{len};
ghost use Rattle.fz_model.specs.Memory.{points};
ghost use Rattle.fz_pass.specs.Decides.{parts_of, parts_left};
ghost use Rattle.fz_pass.specs.Flagged.{AreNormal, DecidesFlagged};
ghost use Rattle.fz_pass.specs.Marks.{IsClosed, AreRegistered, AreTargets};
ghost use Rattle.fz_pass.specs.Picking.{without_flags};
ghost use Rattle.fz_pass.specs.Tiers.{tiered};

use crate::ephemerons::Ephemerons;
use crate::host::Host;
use crate::plain::Plain;
use crate::ready_list::ReadyList;
use crate::terms::Terms;
use crate::whole::decide_whole;
use fz_links::Links;
use fz_model::Entry;
use fz_table::Table;

/// Carries out a pass whose found set is the marked objects. Everything marked afterwards is retained, and the host reclaims the rest.
///
/// The order is that of bdwgc's finalize.c. Short links to unmarked objects are cleared and removed. What unmarked registered objects reach, by their kinds,
/// is marked. Those that are still unmarked are queued, by rank, then address: they leave the table, their entries are appended to the queue with
/// successive numbers from `terms.first` on, and they and everything that they reach are marked. Long links to unmarked objects are cleared and removed. So
/// are all links that denote a word (`Host::place`) which doesn't lie in a marked object.
///
/// With `terms.tiers`, objects of the kind unreachable (`GC_register_finalizer_unreachable`), which are registered as normal ones, form a second tier: they are
/// queued after the others, and only if no other unmarked registered object reaches them.
///
/// Takes no memory: both the list and the queue have room for every registration.
pub fn decide<H: Host>(
    host: &mut H,
    table: &mut Table,
    short: &mut Links,
    long: &mut Links,
    ready: &mut ReadyList,
    queue: &mut Vec<Entry>,
    terms: Terms,
)
    requires registered { AreRegistered (H.objects host.old) table.old.registrations }
    requires normal { AreNormal table.old.registrations (tiered terms.tiers table.old.late) }
    requires short { AreTargets (H.objects host.old) short.old.links }
    requires long { AreTargets (H.objects host.old) long.old.links }
    // A cleared word points to nothing.
    requires zero { points (H.objects host.old) 0 ≡ None }
    requires closed { IsClosed (H.objects host.old) (H.marked host.old) }
    requires list { len table.old.registrations ≤ ready.old.room }
    requires room { vec_len queue.old + len table.old.registrations ≤ vec_capacity queue.old }
    requires numbers { terms.first + len table.old.registrations < 2 ^ 64 }
    ensures decided { (d : DecidesFlagged H.is_exact H.place (tiered terms.tiers table.old.late) terms.pass terms.first
        (parts_of (H.objects host.old) table.old short.old long.old) (H.marked host.old)
        (parts_left (H.objects host.new) (H.marked host.new) table.new short.new long.new)
        queue.old.items queue.new.items) × (table.new.late ≡ without_flags table.old.late d.picks) }
    ensures list { ready.old.room ≤ ready.new.room }
    ensures count { vec_len queue.new + len table.new.registrations ≡ vec_len queue.old + len table.old.registrations }
    ensures capacity { vec_capacity queue.old ≤ vec_capacity queue.new }
    // Marked objects stay marked, and everything that they reach is marked.
    ensures marks { (a : ℕ) → IsTrue (H.marked host.old a) → IsTrue (H.marked host.new a) }
    ensures closed { IsClosed (H.objects host.new) (H.marked host.new) }
    // Everything else is unchanged.
    ensures same { H.is_same host.old host.new }
    ensures table { table.new.registered ≡ record table.old.registered { registrations = table.new.registrations } }
{
    let mut none = Ephemerons::new(*queue.allocator());
    let host = &mut Plain::of(host);
    decide_whole(host, table, short, long, &mut none, ready, queue, terms);
}
