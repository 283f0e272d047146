//! Rebuilding a table of links in the memory that it has.

ghost use Rattle.std.specs.Prelude.{◌≡◌, ◌≤◌, ◌<◌, ◌+◌, ◌-◌, ◌++◌, ℕ, None, Some, [], nat_eq, drop, length, slice_get, vec_capacity, IsSome};
ghost use Rattle.std.specs.Ordering.{nat_cmp};
ghost use Rattle.std.specs.FinMap.{get, remove, from_entries};
ghost use Rattle.indexmap.specs.IndexMap.{spare, IsUnique};

use fz_model::Addr;
use fz_table::{AddressHasher, Pairs};
use indexmap::IndexMap;

/// Moves a link after all others.
pub(crate) fn put_last(links: &mut IndexMap<Addr, Addr, AddressHasher>, link: Addr)
    ensures same { from_entries {R = nat_cmp} links.new.entries ≡ from_entries links.old.entries }
    ensures count { length links.new.entries ≡ length links.old.entries }
    ensures last { IsSome (get (from_entries {R = nat_cmp} links.old.entries) link) → (target : ℕ) × (slice_get links.new.entries (length links.new.entries - 1) ≡ Some (link, target)) }
    ensures room { spare links.old ≤ spare links.new }
    ensures unique { IsUnique nat_eq links.new }
{
    let count = links.len();
    if let Some((place, _, _)) = links.get_full(&link) {
        links.swap_indices(place, count - 1);
    }
}

/// Puts the links from an index on, with their targets, into an empty list, which has room for them.
pub(crate) fn list_from(
    links: &IndexMap<Addr, Addr, AddressHasher>,
    place: usize,
    list: &mut Vec<(Addr, Addr)>,
)
    requires empty { list.old.items ≡ [] }
    requires room { length (drop place links.now.entries) ≤ vec_capacity list.old }
    ensures all { list.new.items ≡ drop place links.now.entries }
    ensures capacity { vec_capacity list.old ≤ vec_capacity list.new }
{
    for entry in Pairs::of(links.iter()).from_place(place) {
        let _ = list.push(entry);
    }
}

/// Inserts the listed links except one into a table that has room for them, and doesn't have the excepted one. Afterwards the table has one free place less.
pub(crate) fn insert_but(
    links: &mut IndexMap<Addr, Addr, AddressHasher>,
    list: &mut Vec<(Addr, Addr)>,
    one: Addr,
)
    requires other { get (from_entries {R = nat_cmp} links.old.entries) one ≡ None }
    requires room { length list.old.items ≤ spare links.old }
    ensures all { from_entries {R = nat_cmp} links.new.entries ≡ remove (from_entries (list.old.items ++ links.old.entries)) one }
    ensures room { IsSome (get (from_entries {R = nat_cmp} (list.old.items ++ links.old.entries)) one) → spare links.old + 1 ≤ spare links.new + length list.old.items }
    ensures empty { list.new.items ≡ [] }
    ensures capacity { vec_capacity list.old ≤ vec_capacity list.new }
{
    while let Some((link, target)) = list.pop() {
        if link != one {
            let _ = links.insert(link, target);
        }
    }
}
