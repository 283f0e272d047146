//! What no clause states: that words at equal distances spread over the groups of a map, as `AddressHasher` chooses them.

ghost use Rattle.std.specs.Prelude.{◌≡◌, ◌<◌, length};

use crate::equal::must_be;
use fz_model::{Addr, HEAP_START};
use fz_table::AddressHasher;
use std::alloc::{AllocError, Global};
use std::hash::BuildHasher;
use std::process::Abort;
use std::test::Fail;

/// How many words a group of a map has room for, and how many each gets on average before the last ones, with which the map is full.
const LANES: u8 = 12;

const BEFORE_LAST: usize = 8;

/// The group that a map of this many groups tries first for a word.
fn own_group(hasher: AddressHasher, word: Addr, count: usize) -> usize
    requires { 0 < count }
    ensures { result < count }
{
    let hash = hasher.hash_one(word);
    ((hash ^ (hash >> 32)) & 0xFFFF_FFFF) as usize % count
}

/// Inserts a word into the first group, from its own on, that isn't full. Returns how many full groups it passed.
fn put(groups: &mut [u8], hasher: AddressHasher, word: Addr) -> usize
    requires { 0 < length groups.old }
    ensures { length groups.new ≡ length groups.old }
{
    let count = groups.len();
    let own = own_group(hasher, word, count);
    for passed in 0..count {
        let place = own.wrapping_add(passed) % count;
        if groups[place] < LANES {
            groups[place] += 1;
            return passed;
        }
    }
    count
}

/// Inserts this many words, each a stride after the one before. Returns how many full groups they passed.
fn put_each(
    groups: &mut [u8],
    hasher: AddressHasher,
    first: Addr,
    stride: u64,
    words: usize,
) -> usize
    requires { 0 < length groups.old }
    ensures { length groups.new ≡ length groups.old }
{
    let mut passed = 0usize;
    let mut word = first;
    for _ in 0..words {
        passed = passed.saturating_add(put(groups, hasher, word));
        word = word.wrapping_add(stride);
    }
    passed
}

/// Fills a map of this many groups. Returns how many full groups the last ninth of the words passed.
fn passed_at_last(
    alloc: Global,
    hasher: AddressHasher,
    stride: u64,
    count: usize,
) -> Result<usize, AllocError>
    requires { 0 < count }
{
    let mut groups = Vec::new(alloc);
    groups.resize(count, 0u8)?;
    let early = BEFORE_LAST.wrapping_mul(count);
    put_each(groups.as_mut_slice(), hasher, HEAP_START, stride, early);
    let next = HEAP_START.wrapping_add(stride.wrapping_mul(early as u64));
    Ok(put_each(groups.as_mut_slice(), hasher, next, stride, count))
}

/// Checks that the words of the last ninth pass at most `most` full groups on average, in maps of up to 36,864 words.
fn must_pass_few(
    rt: &impl Abort,
    alloc: Global,
    hasher: AddressHasher,
    stride: u64,
    most: usize,
) -> Result<(), Fail> {
    for groups in 0..13u32 {
        let count = 1usize << groups;
        let passed = passed_at_last(alloc, hasher, stride, count)?;
        let is_short = passed <= count.wrapping_mul(most);
        must_be(rt, is_short, true, "few full groups a word");
    }
    Ok(())
}

/// At strides that are powers of two, or for a hasher of multiples of 8 eight times these, the words of the last ninth pass at most two full groups on average.
#[test]
fn words_of_a_full_map_find_their_groups(rt: HostRuntime) -> Result<(), Fail> {
    for power in 0..14u32 {
        must_pass_few(&rt, rt.alloc(), AddressHasher::new(), 1u64 << power, 2)?;
        must_pass_few(&rt, rt.alloc(), AddressHasher::of_words(), 8u64 << power, 2)?;
    }
    Ok(())
}

/// Words that are no multiples of 8 pass more groups with a hasher of multiples of 8, but no more in a larger map.
#[test]
fn other_words_are_scattered(rt: HostRuntime) -> Result<(), Fail> {
    for stride in 1..8u64 {
        must_pass_few(&rt, rt.alloc(), AddressHasher::of_words(), stride, 32)?;
    }
    Ok(())
}

/// How many strides of up to 8,192 units have words that pass more than four full groups on average, in a map of this many groups.
fn uneven_strides(
    alloc: Global,
    hasher: AddressHasher,
    unit: u64,
    count: usize,
) -> Result<u64, AllocError>
    requires { 0 < count }
{
    let mut uneven = 0u64;
    for stride in 1..8_193u64 {
        let passed = passed_at_last(alloc, hasher, stride.wrapping_mul(unit), count)?;
        uneven = uneven.saturating_add((count.wrapping_mul(4) < passed) as u64);
    }
    Ok(uneven)
}

/// Of all strides up to 8,192 words, or for a hasher of multiples of 8 eight times these, at most one in a hundred fills groups unevenly.
#[test]
fn few_strides_fill_groups_unevenly(rt: HostRuntime) -> Result<(), Fail> {
    let uneven = uneven_strides(rt.alloc(), AddressHasher::new(), 1, 32)?;
    must_be(&rt, uneven <= 82, true, "few strides pass many groups");
    let uneven = uneven_strides(rt.alloc(), AddressHasher::of_words(), 8, 32)?;
    must_be(&rt, uneven <= 82, true, "few strides of eighths");
    Ok(())
}
