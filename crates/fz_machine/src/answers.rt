//! The answers in a word.

ghost use Rattle.std.specs.Prelude.{◌≡◌, ◌≤◌, ◌<◌, ◌+◌, ◌++◌, ◌∷◌, [], if◌then◌else◌, drop, length, take, vec_len, vec_capacity};
ghost use Rattle.fz_model.specs.Bits.{has_bit};
ghost use Rattle.fz_machine.specs.Asks.{bits_of};
ghost use Rattle.fz_machine.specs.Sifts.{AreAll, chosen};

use crate::item::Item;
use crate::listing::put;

/// Whether the bit at this place is set, counted from the lowest bit.
#[inline(always)]
pub(crate) fn has_bit(bits: u64, place: usize) -> bool
    requires { place < 64 }
    ensures { result ≡ has_bit bits place }
{
    bits >> place & 1 == 1
}

/// The word in which all answers are this.
pub(crate) fn word_of(answer: bool) -> u64
    ensures { AreAll answer result }
{
    if answer { !0 } else { 0 }
}

/// Moves those of the items from a place on, as many as this, whose bits are set to the end of the kept ones, which come before them. Returns how many are kept
/// then.
pub(crate) fn choose(
    items: &mut [Item],
    kept: usize,
    place: usize,
    bits: u64,
    count: usize,
) -> usize
    requires order { kept ≤ place }
    requires within { (count ≤ 64) × (place + count ≤ length items.old) }
    ensures kept { take result items.new ≡ take kept items.old ++ chosen (take count (bits_of bits)) (drop place items.old) }
    ensures left { drop (place + count) items.new ≡ drop (place + count) items.old }
    ensures few { result ≤ place + count }
    ensures long { length items.new ≡ length items.old }
{
    let mut end = kept;
    let mut index = 0;
    while index < count {
        let item = items[place + index];
        items[end] = item;
        end += usize::from(has_bit(bits, index));
        index += 1;
    }
    end
}

/// Appends an item, if it is chosen, to a list with room for it.
#[inline(always)]
fn put_chosen(list: &mut Vec<Item>, item: Item, is_chosen: bool)
    requires room { vec_len list.old < vec_capacity list.old }
    ensures listed { list.new.items ≡ list.old.items ++ (if is_chosen then item ∷ [] else []) }
    ensures room { vec_capacity list.old ≤ vec_capacity list.new }
{
    if is_chosen {
        put(list, item);
    }
}

/// Appends those of the items whose bits are set to a list with room for all of them.
pub(crate) fn append_chosen(list: &mut Vec<Item>, items: &[Item], bits: u64)
    requires few { length items.now ≤ 64 }
    requires room { vec_len list.old + length items.now ≤ vec_capacity list.old }
    ensures appended { list.new.items ≡ list.old.items ++ chosen (take (length items.now) (bits_of bits)) items.now }
    ensures room { vec_capacity list.old ≤ vec_capacity list.new }
{
    let mut index = 0;
    while index < items.len() {
        put_chosen(list, items[index], has_bit(bits, index));
        index += 1;
    }
}
