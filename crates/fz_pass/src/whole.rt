//! One pass over a heap with ephemerons.

ghost use Rattle.std.specs.Prelude.{◌≡◌, ◌≤◌, ◌<◌, ◌+◌, ◌^◌, ◌&&◌, nat_lt, ℕ, None, vec_len, vec_capacity, IsTrue};
ghost use Rattle.std.specs.FinMap.{len};
ghost use Rattle.std.specs.FinSet as sets;
ghost use Rattle.fz_model.specs.Memory.{points};
ghost use Rattle.fz_pass.specs.Decides.{parts_of, parts_left};
ghost use Rattle.fz_pass.specs.Holds.{IsOfKey, IsWhole};
ghost use Rattle.fz_pass.specs.Leading.{LedAreMarked};
ghost use Rattle.fz_pass.specs.Marks.{IsClosed, AreRegistered, AreTargets};
ghost use Rattle.fz_pass.specs.Picking.{without_flags};
ghost use Rattle.fz_pass.specs.QueuedWhole.{QueuesWhole};
ghost use Rattle.fz_pass.specs.Tiers.{tiered};
ghost use Rattle.fz_pass.specs.Whole.{DecidesWhole};

use crate::clearing::clear_dead;
use crate::dropping::{drop_dead, drop_outside};
use crate::ephemerons::Ephemerons;
use crate::host::Values;
use crate::leading::mark_led;
use crate::picking::queue_unmarked;
use crate::ready_list::ReadyList;
use crate::terms::Terms;
use fz_links::Links;
use fz_model::Entry;
use fz_table::Table;

/// Whether a pass has a second round.
fn has_second(table: &Table, terms: Terms) -> bool
    ensures { result ≡ (terms.tiers && nat_lt 0 (sets.len table.now.late)) }
{
    terms.tiers && table.has_unreachable()
}

/// Queues the unmarked objects of both tiers, those of the second after those of the first, and makes the marks whole after each tier. An object of the second
/// tier is queued only if the objects of the first don't hold it.
fn queue_tiers<H: Values>(
    host: &mut H,
    table: &mut Table,
    ephemerons: &mut Ephemerons,
    ready: &mut ReadyList,
    queue: &mut Vec<Entry>,
    terms: Terms,
)
    requires registered { AreRegistered (H.objects host.old) table.old.registrations }
    requires closed { IsClosed (H.objects host.old) (H.marked host.old) }
    requires led { LedAreMarked (H.objects host.old) table.old.registrations (H.marked host.old) }
    requires list { len table.old.registrations ≤ ready.old.room }
    requires room { vec_len queue.old + len table.old.registrations ≤ vec_capacity queue.old }
    requires numbers { terms.first + len table.old.registrations < 2 ^ 64 }
    ensures list { ready.old.room ≤ ready.new.room }
    ensures count { vec_len queue.new + len table.new.registrations ≡ vec_len queue.old + len table.old.registrations }
    ensures capacity { vec_capacity queue.old ≤ vec_capacity queue.new }
    ensures queued { QueuesWhole H.is_exact H.place H.value (IsOfKey ephemerons.old.ephemerons) (tiered terms.tiers table.old.late) terms.pass terms.first (H.objects host.old) (H.marked host.old) (H.marked host.new) table.old.content table.new.content queue.old.items queue.new.items }
    ensures ephemerons { ephemerons.new.ephemerons ≡ ephemerons.old.ephemerons }
    ensures objects { H.objects host.new ≡ H.objects host.old }
    ensures same { H.is_same host.old host.new }
{
    let is_second = has_second(table, terms);
    let before = queue.len();
    queue_unmarked(host, table, ready, queue, terms, false);
    ephemerons.settle(host); // The second tier waits for what the first one holds.
    if !is_second {
        return;
    }
    let first = terms.first + (queue.len() - before) as u64;
    queue_unmarked(host, table, ready, queue, Terms { first, ..terms }, true);
    ephemerons.settle(host); // What picked objects hold is retained.
}

/// Carries out a pass whose found set is the marked objects, as `decide` does, over a heap with ephemerons: it picks and retains by what sets of objects hold
/// (`specs/Holds.antt`). Requires that marked objects hold nothing that is unmarked: call `Ephemerons::settle` before.
///
/// Short ephemerons whose keys aren't found are cleared and removed with the short links, before anything is picked. Long ones whose keys aren't retained are
/// cleared and removed with the long links. After each step that marks objects, the value of each ephemeron whose key and holder are marked is marked, with
/// everything that the value reaches, until no more values follow. A key alone doesn't lead to the values of its ephemerons.
///
/// Like `decide`, takes no memory. After each of the three steps that mark objects it looks at each ephemeron once, and again only while values are marked.
pub fn decide_whole<H: Values>(
    host: &mut H,
    table: &mut Table,
    short: &mut Links,
    long: &mut Links,
    ephemerons: &mut Ephemerons,
    ready: &mut ReadyList,
    queue: &mut Vec<Entry>,
    terms: Terms,
)
    requires registered { AreRegistered (H.objects host.old) table.old.registrations }
    requires short { AreTargets (H.objects host.old) short.old.links }
    requires long { AreTargets (H.objects host.old) long.old.links }
    // Keys are objects.
    requires short_keys { AreTargets (H.objects host.old) ephemerons.old.short }
    requires long_keys { AreTargets (H.objects host.old) ephemerons.old.long }
    // A cleared word points to nothing.
    requires zero { points (H.objects host.old) 0 ≡ None }
    // What marked objects hold is marked.
    requires whole { IsWhole H.place H.value (H.objects host.old) (IsOfKey ephemerons.old.ephemerons) (H.marked host.old) }
    requires list { len table.old.registrations ≤ ready.old.room }
    requires room { vec_len queue.old + len table.old.registrations ≤ vec_capacity queue.old }
    requires numbers { terms.first + len table.old.registrations < 2 ^ 64 }
    ensures decided { (d : DecidesWhole H.is_exact H.place H.value (tiered terms.tiers table.old.late) terms.pass terms.first
        (parts_of (H.objects host.old) table.old short.old long.old) ephemerons.old.ephemerons (H.marked host.old)
        (parts_left (H.objects host.new) (H.marked host.new) table.new short.new long.new) ephemerons.new.ephemerons
        queue.old.items queue.new.items) × (table.new.late ≡ without_flags table.old.late d.picks) }
    ensures list { ready.old.room ≤ ready.new.room }
    ensures count { vec_len queue.new + len table.new.registrations ≡ vec_len queue.old + len table.old.registrations }
    ensures capacity { vec_capacity queue.old ≤ vec_capacity queue.new }
    // Marked objects stay marked, and everything that they reach is marked.
    ensures marks { (a : ℕ) → IsTrue (H.marked host.old a) → IsTrue (H.marked host.new a) }
    ensures closed { IsClosed (H.objects host.new) (H.marked host.new) }
    // Everything else is unchanged.
    ensures same { H.is_same host.old host.new }
    ensures table { table.new.registered ≡ record table.old.registered { registrations = table.new.registrations } }
{
    clear_dead(host, short);
    drop_dead(host, short);
    ephemerons.clear_short(host);
    mark_led(host, table);
    ephemerons.settle(host); // What first steps hold waits.
    queue_tiers(host, table, ephemerons, ready, queue, terms);
    clear_dead(host, long);
    drop_dead(host, long);
    ephemerons.clear_long(host);
    drop_outside(host, short);
    drop_outside(host, long);
    ephemerons.drop_outside(host);
}
