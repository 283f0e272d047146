//! Iterating over registrations, links and entries.

ghost use Rattle.std.specs.Prelude.{◌≡◌, ◌≤◌, ◌<◌, ◌+◌, map, length, nat_eq, All};
ghost use Rattle.std.specs.FinMap.{len, from_entries};
ghost use Rattle.std.specs.FinSet.{contains};
ghost use Rattle.std.specs.List.{IsDistinct};
ghost use Rattle.std.specs.Map.{keys_of};
ghost use Rattle.fz_table.specs.Tabled.{plain};
ghost use Rattle.fz_table.specs.declared.limits.TheConstants.{MOST_ENTRIES};
ghost use Rattle.fz_finalizers.specs.States.{links_of, unfinished};
ghost use Rattle.fz_finalizers.specs.Walks.{AreRegistrations, links_in_order, registrations_in_order, somes};

use crate::finalizers::Finalizers;
use crate::unfinished::Entries;
use fz_model::{Addr, LinkKind};
use fz_table::{Pairs, Registrations, Stored};

impl Finalizers {
    /// All registrations with their objects, each once. The order stays the same until the next call that takes `&mut self`, so an iteration can continue
    /// later from an index.
    pub fn iter(&self) -> Registrations<'_>
        ensures all { AreRegistrations self.now.state result }
        ensures count { length result ≡ len self.now.registrations }
        ensures limit { length result ≤ MOST_ENTRIES }
        ensures order { result ≡ registrations_in_order self.now }
    {
        self.table.iter()
    }

    /// All registrations as `iter` yields them, each with the flag of the kind `Unreachable`.
    pub fn iter_stored(&self) -> Pairs<'_, Addr, Stored>
        ensures all { AreRegistrations self.now.state (map plain result) }
        ensures flags { All (λ e. e.1.unreachable ≡ contains self.now.late e.0) result }
        ensures count { length result ≡ len self.now.registrations }
        ensures order { result ≡ self.now.order.registrations }
    {
        self.table.iter_stored()
    }

    /// All links of one kind with their targets, each once. The order stays the same until the next call that takes `&mut self`, so an iteration can continue
    /// later from an index.
    pub fn iter_links(&self, kind: LinkKind) -> Pairs<'_, Addr, Addr>
        ensures all { from_entries result ≡ links_of self.now.state kind }
        ensures once { IsDistinct nat_eq (keys_of result) }
        ensures count { length result ≡ len (links_of self.now.state kind) }
        ensures order { result ≡ links_in_order self.now kind }
    {
        match kind {
            LinkKind::Short => self.short.iter(),
            LinkKind::Long => self.long.iter(),
        }
    }

    /// An iterator over the unfinished entries, in queue order: those that are held, and then those that wait. It stays the same until the next call that
    /// takes `&mut self`, even one that fails, so an iteration can continue later from an index.
    pub fn entries(&self) -> Entries<'_>
        ensures all { somes result ≡ unfinished self.now.state }
        ensures order { result ≡ self.now.order.entries }
    {
        self.ready.unfinished()
    }
}
