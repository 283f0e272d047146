//! The entries of a queue that are in memory, and which of them are held.

ghost use Rattle.std.specs.Prelude.{◌≡◌, ◌≤◌, ◌<◌, ◌+◌, ◌*◌, ◌||◌, ◌&&◌, min, nat_lt, ℕ, length, slice_get, false, vec_len, vec_capacity, IsTrue};
ghost use Rattle.std.specs.FinSet.{contains};
ghost use Rattle.std.specs.Option.{option_map_or};
ghost use Rattle.fz_model.specs.Events.{same_entry};
ghost use Rattle.fz_finalizers.specs.Queue.{AreStored, IsPlaceOf, is_between, placed_in};

use fz_bits::SparseFlags;
use fz_model::Entry;

/// The index of the first entry with a number of at least `number`; if there is none, an index after all entries. `kept` entries precede the window, whose
/// first entry has the number `first`.
pub(crate) fn place_of(entries: &[Entry], kept: usize, first: u64, number: u64) -> usize
    requires { AreStored entries.now kept first }
    ensures { IsPlaceOf entries.now number result }
{
    if number >= first {
        return kept + (number - first) as usize;
    }
    entries[..kept].partition_point(
        |entry: &Entry| -> bool
            ensures { result ≡ nat_lt entry.now.seq number }
        { entry.seq < number },
    )
}

/// Whether the entry at an index is held and equals this one in all fields.
pub(crate) fn is_held_at(entries: &[Entry], held: &SparseFlags, place: usize, entry: &Entry) -> bool
    requires { IsTrue (contains held.now.members place) → place < length entries.now }
    ensures { result ≡ (contains held.now.members place && option_map_or (same_entry entry.now) (slice_get entries.now place) false) }
{
    held.contains(place as u64) && *entry == entries[place]
}

/// Adds the numbers from `first` up to but excluding `end` to a set that has room for them.
pub(crate) fn hold(held: &mut SparseFlags, first: u64, end: u64)
    requires ordered { first ≤ end }
    requires room { first < end → end ≤ held.old.size }
    ensures size { held.new.size ≡ held.old.size }
    ensures held { (n : ℕ) → contains held.new.members n ≡ (is_between first end n || contains held.old.members n) }
{
    for number in first..end {
        held.insert(number);
    }
}

/// Keeps only the entries at the indices in the set. Returns how many these are. Afterwards the set contains their new indices.
pub(crate) fn gather(entries: &mut Vec<Entry>, held: &mut SparseFlags) -> usize
    requires { (n : ℕ) → IsTrue (contains held.old.members n) → n < length entries.old.items }
    ensures kept { entries.new.items ≡ placed_in held.old.members 0 entries.old.items }
    ensures count { result ≡ length entries.new.items }
    ensures capacity { vec_capacity entries.new ≡ vec_capacity entries.old }
    ensures places { (n : ℕ) → contains held.new.members n ≡ nat_lt n result }
    ensures size { held.new.size ≡ held.old.size }
{
    let mut count = 0;
    let mut from = 0;
    while let Some(place) = held.next(from) {
        entries[count] = entries[place as usize];
        held.remove(place);
        held.insert(count as u64);
        count += 1;
        from = place + 1;
    }
    entries.truncate(count);
    count
}

/// Frees memory beyond the room for `room` further entries.
pub(crate) fn give_back(entries: &mut Vec<Entry>, held: &mut SparseFlags, room: usize)
    requires { (n : ℕ) → IsTrue (contains held.old.members n) → n < length entries.old.items }
    ensures items { entries.new.items ≡ entries.old.items }
    ensures capacity { min (vec_len entries.old + room) (vec_capacity entries.old) ≤ vec_capacity entries.new }
    ensures members { held.new.members ≡ held.old.members }
    ensures size { min (vec_len entries.old + room) held.old.size ≤ held.new.size }
{
    let wanted = entries.len().saturating_add(room);
    if wanted < entries.capacity() {
        entries.shrink_to(wanted);
        held.shrink_to(wanted.div_ceil(64) as u64);
    }
}
