//! Listing the unmarked registered objects.

ghost use Rattle.std.specs.Prelude.{◌≡◌, ◌≤◌, ◌<◌, ◌++◌, ◌∷◌, [], ℕ, List, length, if◌then◌else◌, vec_len, vec_capacity};
ghost use Rattle.std.specs.List.{IsDistinct};
ghost use Rattle.std.specs.Map.{keys_of};
ghost use Rattle.std.specs.FinMap.{from_entries, len};
ghost use Rattle.fz_pass.specs.Listing.{AreUnmarked, AreApart, AreRanked};
ghost use Rattle.fz_pass.specs.Tiers.{is_other, skips, tiered};

use crate::host::Host;
use crate::ready_list::ReadyList;
use fz_model::Addr;
use fz_table::Table;

/// A round of a pass.
#[derive(Clone, Copy)]
pub(crate) struct Round {
    /// Whether registrations of the kind unreachable form a second tier.
    pub(crate) tiers: bool,
    /// Whether it is the round of the second tier.
    pub(crate) second: bool,
}

impl Round {
    /// Whether the round passes an object over, because it is marked or belongs to the other round.
    fn skips<H: Host>(self, host: &H, table: &Table, object: Addr) -> bool
        ensures { result ≡ skips self.second (tiered self.tiers table.now.late) (H.marked host.now) object }
    {
        host.is_marked(object) || self.is_of_other(table, object)
    }

    /// Whether an object belongs to the other round.
    fn is_of_other(self, table: &Table, object: Addr) -> bool
        ensures { result ≡ is_other self.second (tiered self.tiers table.now.late object) }
    {
        let flagged = self.tiers && table.is_unreachable(object);
        if self.second { !flagged } else { flagged }
    }
}

/// Appends an object with its rank to the list, which has room for it, if the round doesn't pass it over.
fn list_if_unmarked<H: Host>(
    host: &H,
    table: &Table,
    round: Round,
    object: Addr,
    rank: u8,
    ready: &mut Vec<(u8, Addr)>,
)
    requires room { vec_len ready.old < vec_capacity ready.old }
    ensures listed { ready.new.items ≡ (if skips round.second (tiered round.tiers table.now.late) (H.marked host.now) object then ready.old.items else ready.old.items ++ (rank, object) ∷ []) }
    ensures capacity { vec_capacity ready.old ≤ vec_capacity ready.new }
{
    if !round.skips(host, table, object) {
        let _ = ready.push((rank, object));
    }
}

/// Appends a round's unmarked registered objects to the list, each with its rank.
fn list_unmarked<H: Host>(host: &H, table: &Table, round: Round, ready: &mut Vec<(u8, Addr)>)
    requires empty { ready.old.items ≡ [] }
    requires room { len table.now.registrations ≤ vec_capacity ready.old }
    ensures listed { AreUnmarked table.now.registrations (skips round.second (tiered round.tiers table.now.late) (H.marked host.now)) AreApart ready.new.items }
    ensures few { vec_len ready.new ≤ len table.now.registrations }
    ensures capacity { vec_capacity ready.old ≤ vec_capacity ready.new }
{
    for (object, registration) in table.iter() {
        list_if_unmarked(host, table, round, object, registration.rank, ready);
    }
}

/// Lists a round's unmarked registered objects, sorted by rank, then address.
pub(crate) fn rank_unmarked<H: Host>(host: &H, table: &Table, round: Round, ready: &mut ReadyList)
    requires room { len table.now.registrations ≤ ready.old.room }
    ensures listed { AreUnmarked table.now.registrations (skips round.second (tiered round.tiers table.now.late) (H.marked host.now)) AreRanked ready.new.listed }
    ensures room { ready.old.room ≤ ready.new.room }
{
    ready.listed.clear();
    list_unmarked(host, table, round, &mut ready.listed);
    ready.sort();
}
