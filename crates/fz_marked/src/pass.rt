//! A pass over the reference heap, by means of the pass over any heap.

ghost use Rattle.std.specs.Prelude.{◌≡◌, ◌≤◌, ◌<◌, ◌+◌, ◌^◌, ◌||◌, ◌&&◌, not, [], ℕ, vec_len, vec_capacity};
ghost use Rattle.std.specs.FinSet.{contains};
ghost use Rattle.std.specs.FinSet as sets;
ghost use Rattle.std.specs.FinMap.{len, contains_key};
ghost use Rattle.fz_marker.specs.Marking.{IsClosed};
ghost use Rattle.fz_pass.specs.Decides.{parts_of};
ghost use Rattle.fz_pass.specs.Marks.{AreRegistered, AreTargets};
ghost use Rattle.fz_marked.specs.Decides.{DecidesInto};

use crate::marked::Marked;
use fz_links::Links;
use fz_model::Entry;
use fz_pass::{ReadyList, Terms};
use fz_table::Table;

/// Carries out a pass whose found set is the marked objects. Returns the number of objects that it reclaims.
///
/// It is `Marked::trace_found`, then `fz_pass::decide` without tiers, since the model has no kind unreachable, then `Marked::reclaim`. Entries have successive
/// numbers from `first` on. The cells of the objects that aren't retained become dead and wait
/// to be swept.
pub fn decide(
    marked: &mut Marked,
    table: &mut Table,
    short: &mut Links,
    long: &mut Links,
    ready: &mut ReadyList,
    queue: &mut Vec<Entry>,
    pass: u64,
    first: u64,
) -> u64
    requires closed { IsClosed marked.old.heap.objects marked.old.marker.marked }
    requires registered { AreRegistered marked.old.heap.objects table.old.registrations }
    requires short { AreTargets marked.old.heap.objects short.old.links }
    requires long { AreTargets marked.old.heap.objects long.old.links }
    requires list { len table.old.registrations ≤ ready.old.room }
    requires room { vec_len queue.old + len table.old.registrations ≤ vec_capacity queue.old }
    requires numbers { first + len table.old.registrations < 2 ^ 64 }
    ensures decided { DecidesInto pass first (parts_of marked.old.heap.objects table.old short.old long.old) (contains marked.old.marker.marked) (parts_of marked.new.heap.objects table.new short.new long.new) queue.old.items queue.new.items }
    // Exactly the reclaimed objects become dead cells.
    ensures condemned { (a : ℕ) → contains marked.new.heap.condemned a ≡ (contains_key marked.old.heap.objects a && not (contains_key marked.new.heap.objects a) || contains marked.old.heap.condemned a) }
    ensures count { sets.len marked.new.heap.condemned ≡ sets.len marked.old.heap.condemned + result }
    ensures reclaimed { len marked.new.heap.objects + result ≡ len marked.old.heap.objects }
    // There is room for every remaining registration.
    ensures list { ready.old.room ≤ ready.new.room }
    ensures room { vec_len queue.new + len table.new.registrations ≤ vec_capacity queue.new }
    // Everything else is unchanged.
    ensures heap { marked.new.heap ≡ record marked.old.heap { objects = marked.new.heap.objects; condemned = marked.new.heap.condemned } }
    ensures marker { marked.new.marker ≡ record marked.old.marker { traced = marked.new.marker.traced } }
    ensures table { table.new.registered ≡ record table.old.registered { registrations = table.new.registrations } }
{
    marked.trace_found();
    let terms = Terms {
        pass,
        first,
        tiers: false,
    };
    fz_pass::decide(marked, table, short, long, ready, queue, terms);
    marked.reclaim()
}
