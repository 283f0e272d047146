//! The lives of objects as tables of steps, and the limits of a world. Tests whose names end in `with_ample_memory` make each call once, so that they fail if a
//! call needs memory without reason.

use super::steps::Step::{
    Begin, Close, Collect, Finish, FinishPairs, Forget, Hold, Link, Load, Mark, Move, New, Noted,
    Outstanding, Pause, Register, Registers, Scans, Set, Store, Unlink, Unregister,
};
use super::steps::{Step, entry_at, first_wrong_of, made, opened, passed, registered};
use crate::equal::must_be;
use fz_model::LinkKind::{Long, Short};
use fz_model::ObjKind::{Atomic, Scanned};
use fz_model::Progress::{Done, More};
use fz_model::RegKind::{IgnoreSelf, NoOrder, Normal};
use fz_model::{
    BLOCK_WORDS, HEAP_START, LinkAnswer, LinkKind, MAX_BLOCKS, MAX_OBJECT_WORDS, MoveAnswer, Old,
    Refusal, RegAnswer, RegKind, TABLE_LIMIT,
};
use fz_world::World;
use std::alloc::Global;
use std::process::Abort;

/// An object is allocated, registered, dropped, finalized, stored in a slot again, dropped and reclaimed.
const ONE_OBJECT_LIFE: [Step; 13] = [
    New(0, 2, Scanned, Ok(HEAP_START)),
    Register(0, Normal, 0, 0),
    Set(0, 0),
    Collect(1, 1, 0),
    Outstanding(1),
    Collect(2, 0, 0),
    Hold(3, 0),
    Finish(0, Ok(HEAP_START)),
    Finish(0, Err(Refusal::NotHeld)),
    Outstanding(0),
    Collect(3, 0, 0),
    Set(3, 0),
    Collect(4, 0, 1),
];

/// A finished entry is forgotten; an unfinished one keeps its number, even if it is the first.
const FORGOTTEN_ENTRIES: [Step; 27] = [
    Forget(0, 0),
    New(0, 1, Scanned, Ok(HEAP_START)),
    New(1, 1, Scanned, Ok(HEAP_START + 1)),
    Register(0, Normal, 0, 0),
    Register(1, Normal, 0, 1),
    Set(0, 0),
    Set(1, 0),
    Collect(1, 2, 0),
    Forget(0, 0),
    Finish(1, Ok(HEAP_START + 1)),
    Forget(1, 2),
    Finish(1, Err(Refusal::NotHeld)),
    Outstanding(1),
    Hold(3, 0),
    Finish(0, Ok(HEAP_START)),
    Finish(0, Err(Refusal::NotHeld)),
    Outstanding(0),
    Set(3, 0),
    Collect(2, 0, 2),
    New(0, 1, Scanned, Ok(HEAP_START)),
    Register(0, Normal, 0, 2),
    Set(0, 0),
    Collect(3, 1, 0),
    Finish(2, Ok(HEAP_START)),
    Forget(2, 3),
    Finish(2, Err(Refusal::NotHeld)),
    Forget(0, 3),
];

/// An object that points to another is queued first, whatever their ranks are.
const CHAIN_IN_ORDER: [Step; 12] = [
    New(0, 1, Scanned, Ok(HEAP_START)),
    New(1, 1, Scanned, Ok(HEAP_START + 1)),
    Store(0, 0, 1, Ok(())),
    Register(0, Normal, 1, 0),
    Register(1, Normal, 0, 1),
    Set(0, 0),
    Set(1, 0),
    Collect(1, 1, 0),
    Collect(2, 0, 0),
    Finish(0, Ok(HEAP_START)),
    Collect(3, 1, 1),
    Finish(1, Ok(HEAP_START + 1)),
];

/// One pass queues by rank, and objects of equal rank by address.
const RANKS_IN_ORDER: [Step; 17] = [
    New(0, 1, Scanned, Ok(HEAP_START)),
    New(1, 1, Scanned, Ok(HEAP_START + 1)),
    New(2, 1, Scanned, Ok(HEAP_START + 2)),
    Register(0, Normal, 255, 0),
    Register(1, Normal, 7, 1),
    Register(2, NoOrder, 7, 2),
    New(3, 1, Scanned, Ok(HEAP_START + 3)),
    Register(3, Normal, 0, 3),
    Set(0, 0),
    Set(1, 0),
    Set(2, 0),
    Set(3, 0),
    Collect(1, 4, 0),
    Finish(0, Ok(HEAP_START + 3)),
    Finish(1, Ok(HEAP_START + 1)),
    Finish(2, Ok(HEAP_START + 2)),
    Finish(3, Ok(HEAP_START)),
];

/// The word of a short link is cleared before the order is decided: of two registered objects that point to each other one is queued.
const SHORT_LINK_BREAKS_A_CYCLE: [Step; 13] = [
    New(0, 1, Scanned, Ok(HEAP_START)),
    New(1, 1, Scanned, Ok(HEAP_START + 1)),
    Register(0, Normal, 0, 0),
    Register(1, Normal, 0, 1),
    Store(0, 0, 1, Ok(())),
    Store(1, 0, 0, Ok(())),
    Link(Short, 0, 0, 1, LinkAnswer::Success),
    Set(0, 0),
    Set(1, 0),
    Collect(1, 1, 0),
    Finish(0, Ok(HEAP_START + 1)),
    Collect(2, 1, 1),
    Finish(1, Ok(HEAP_START)),
];

/// Of two links to a queued object, the short one's word is cleared at once, and the long one's when the object is reclaimed.
const LONG_LINK_WAITS_FOR_ITS_TARGET: [Step; 16] = [
    New(0, 2, Atomic, Ok(HEAP_START)),
    New(1, 1, Scanned, Ok(HEAP_START + BLOCK_WORDS)),
    Store(0, 0, 1, Ok(())),
    Store(0, 1, 1, Ok(())),
    Link(Short, 0, 0, 1, LinkAnswer::Success),
    Link(Long, 0, 1, 1, LinkAnswer::Success),
    Register(1, Normal, 0, 0),
    Set(1, 0),
    Collect(1, 1, 0),
    Load(0, 0, 2, Ok(0)),
    Load(0, 1, 2, Ok(HEAP_START + BLOCK_WORDS)),
    Set(2, 0),
    Finish(0, Ok(HEAP_START + BLOCK_WORDS)),
    Collect(2, 0, 1),
    Load(0, 1, 2, Ok(0)),
    Unlink(Long, 0, 1, false),
];

/// A moved link clears the word at its last place.
const MOVED_LINK: [Step; 12] = [
    New(0, 2, Atomic, Ok(HEAP_START)),
    New(1, 1, Scanned, Ok(HEAP_START + BLOCK_WORDS)),
    Store(0, 0, 1, Ok(())),
    Store(0, 1, 1, Ok(())),
    Link(Short, 0, 0, 1, LinkAnswer::Success),
    Link(Short, 0, 0, 1, LinkAnswer::Duplicate),
    Move(Short, 0, 1, 0, MoveAnswer::NotFound),
    Move(Short, 0, 0, 1, MoveAnswer::Success),
    Set(1, 0),
    Collect(1, 0, 1),
    Load(0, 0, 2, Ok(HEAP_START + BLOCK_WORDS)),
    Load(0, 1, 2, Ok(0)),
];

/// A link is removed with the object that contains it: a new object at the same address has none.
const LINK_IN_GARBAGE: [Step; 9] = [
    New(0, 1, Scanned, Ok(HEAP_START)),
    New(1, 1, Scanned, Ok(HEAP_START + 1)),
    Link(Short, 0, 0, 1, LinkAnswer::Success),
    Link(Long, 0, 0, 1, LinkAnswer::Success),
    Set(0, 0),
    Collect(1, 0, 1),
    New(0, 1, Scanned, Ok(HEAP_START)),
    Unlink(Short, 0, 0, false),
    Unlink(Long, 0, 0, false),
];

/// A world that is closed within a cycle queues nothing at its end or later. Unregistered objects are reclaimed.
const CLOSE_IN_A_CYCLE: [Step; 13] = [
    New(0, 1, Scanned, Ok(HEAP_START)),
    Register(0, Normal, 0, 0),
    Set(0, 0),
    Begin(Ok(())),
    Close(Ok(())),
    Close(Err(Refusal::Closed)),
    Pause(1, 0, 0),
    Collect(2, 0, 0),
    Set(0, HEAP_START),
    Unregister(0, Ok(Some(Old { proc: 7, cd: 0 }))),
    Set(0, 0),
    Collect(3, 0, 1),
    Outstanding(0),
];

/// Objects have 1 to 1,024 words.
const LIMITS_OF_AN_OBJECT: [Step; 6] = [
    New(0, 0, Scanned, Err(Refusal::BadSize)),
    New(0, MAX_OBJECT_WORDS + 1, Scanned, Err(Refusal::BadSize)),
    New(0, MAX_OBJECT_WORDS, Scanned, Ok(HEAP_START)),
    Store(0, MAX_OBJECT_WORDS - 1, 0, Ok(())),
    Load(0, MAX_OBJECT_WORDS - 1, 1, Ok(HEAP_START)),
    Store(0, MAX_OBJECT_WORDS, 0, Err(Refusal::OutsideObject)),
];

/// Two objects exchange their references while one of them is scanned and the other isn't: nothing is lost.
const STORE_BEHIND_THE_MARKER: [Step; 24] = [
    New(0, 2, Scanned, Ok(HEAP_START)),
    New(1, 2, Scanned, Ok(HEAP_START + 2)),
    New(2, 1, Scanned, Ok(HEAP_START + BLOCK_WORDS)),
    New(3, 1, Scanned, Ok(HEAP_START + BLOCK_WORDS + 1)),
    Register(2, Normal, 0, 0),
    Register(3, Normal, 0, 1),
    Store(1, 0, 2, Ok(())),
    Store(0, 0, 3, Ok(())),
    Set(2, 0),
    Set(3, 0),
    Begin(Ok(())),
    Mark(1, More),
    Noted(0),
    Load(1, 0, 2, Ok(HEAP_START + BLOCK_WORDS)),
    Store(0, 1, 2, Ok(())),
    Load(0, 0, 3, Ok(HEAP_START + BLOCK_WORDS + 1)),
    Store(1, 1, 3, Ok(())),
    Set(2, 0),
    Set(3, 0),
    Store(1, 0, 2, Ok(())),
    Store(0, 0, 2, Ok(())),
    Noted(1),
    Pause(1, 0, 0),
    Collect(2, 0, 0),
];

/// The same on the second page of large objects.
const STORE_BEHIND_THE_MARKER_ON_A_SECOND_PAGE: [Step; 24] = [
    New(0, BLOCK_WORDS + 2, Scanned, Ok(HEAP_START)),
    New(
        1,
        BLOCK_WORDS + 2,
        Scanned,
        Ok(HEAP_START + 2 * BLOCK_WORDS),
    ),
    New(2, 1, Scanned, Ok(HEAP_START + 4 * BLOCK_WORDS)),
    New(3, 1, Scanned, Ok(HEAP_START + 4 * BLOCK_WORDS + 1)),
    Register(2, Normal, 0, 0),
    Register(3, Normal, 0, 1),
    Store(1, BLOCK_WORDS, 2, Ok(())),
    Store(0, BLOCK_WORDS, 3, Ok(())),
    Set(2, 0),
    Set(3, 0),
    Begin(Ok(())),
    Mark(1, More),
    Noted(0),
    Load(1, BLOCK_WORDS, 2, Ok(HEAP_START + 4 * BLOCK_WORDS)),
    Store(0, BLOCK_WORDS + 1, 2, Ok(())),
    Load(0, BLOCK_WORDS, 3, Ok(HEAP_START + 4 * BLOCK_WORDS + 1)),
    Store(1, BLOCK_WORDS + 1, 3, Ok(())),
    Set(2, 0),
    Set(3, 0),
    Store(1, BLOCK_WORDS, 2, Ok(())),
    Store(0, BLOCK_WORDS, 2, Ok(())),
    Noted(2),
    Pause(1, 0, 0),
    Collect(2, 0, 0),
];

/// Allocates a chain of one-word objects, of which the first slot has the first.
fn make_chain(world: &mut World, count: u64) -> Result<(), Refusal> {
    made(world, 0, 1, Scanned)?;
    world.copy(0, 0, 0, 1)?;
    for _ in 1..count {
        made(world, 2, 1, Scanned)?;
        world.store(0, 1, 0, 0, 2)?;
        world.copy(0, 2, 0, 1)?;
    }
    world.set(0, 1, 0)?;
    world.set(0, 2, 0)
}

/// A world that contains only a chain.
fn chained(alloc: Global, count: u64) -> Result<World, Refusal> {
    let mut world = opened(alloc, 4, 1)?;
    make_chain(&mut world, count)?;
    Ok(world)
}

const SCANS_OF_A_CHAIN: [Step; 15] = [
    Begin(Ok(())),
    Begin(Err(Refusal::CycleOpen)),
    Scans(0),
    Mark(100, Done),
    Scans(100),
    Pause(1, 0, 0),
    Scans(100),
    Begin(Ok(())),
    Mark(99, More),
    Store(0, 0, 1, Ok(())),
    Noted(1),
    Pause(2, 0, 0),
    Scans(99 + BLOCK_WORDS + 1),
    Collect(3, 0, 99),
    Scans(1),
];

/// A chain of two pages is scanned once; a pause scans the objects on a stored page again.
#[test]
fn scans_of_a_chain(rt: HostRuntime) {
    let made = chained(rt.alloc(), 100);
    must_be(
        &rt,
        first_wrong_of(made, &SCANS_OF_A_CHAIN),
        Ok(None),
        "the first wrong step",
    );
}

/// Allocates one-word objects and registers each. Every call is made once.
fn registered_many(world: &mut World, count: u64) -> Result<(), Refusal> {
    for _ in 0..count {
        made(world, 0, 1, Scanned)?;
        world.register(0, 0, Normal, 7, 0, 0)?;
    }
    Ok(())
}

/// A world whose table is full.
fn filled(alloc: Global) -> Result<World, Refusal> {
    let mut world = opened(alloc, MAX_BLOCKS, 1)?;
    registered_many(&mut world, TABLE_LIMIT)?;
    Ok(world)
}

const FULL_TABLE: [Step; 4] = [
    New(0, 1, Scanned, Ok(HEAP_START + TABLE_LIMIT)),
    Registers(0, Err(Refusal::TableFull)),
    Set(0, HEAP_START),
    Registers(
        0,
        Ok(RegAnswer::Number(TABLE_LIMIT, Some(Old { proc: 7, cd: 0 }))),
    ),
];

/// The table has registrations of 65,536 objects. It has no room for another object's, but one of these can be replaced.
#[test]
fn full_table_with_ample_memory(rt: HostRuntime) {
    let made = filled(rt.alloc());
    must_be(
        &rt,
        first_wrong_of(made, &FULL_TABLE),
        Ok(None),
        "the first wrong step",
    );
}

/// A heap of objects of 1,024 words. The first slot has the last of them, which ends in the last block, and the second slot the first.
fn filled_with_large(alloc: Global) -> Result<World, Refusal> {
    let mut world = opened(alloc, MAX_BLOCKS, 1)?;
    for _ in 0..BLOCK_WORDS * MAX_BLOCKS / MAX_OBJECT_WORDS {
        made(&mut world, 0, MAX_OBJECT_WORDS, Scanned)?;
    }
    world.set(0, 1, HEAP_START)?;
    Ok(world)
}

/// The first word of the last object at which a link can't be registered at the first try.
fn first_unlinked(world: &mut World, which: LinkKind) -> Option<u64> {
    for word in 0..MAX_OBJECT_WORDS {
        if world.link(which, 0, 0, word, 0, 1) != Ok(LinkAnswer::Success) {
            return Some(word);
        }
    }
    None
}

/// The first word of the object in a slot whose link can't be moved to the same word of the object in another slot at the first try.
fn first_unmoved(world: &mut World, which: LinkKind, from: u64, to: u64) -> Option<u64> {
    for word in 0..MAX_OBJECT_WORDS {
        if world.move_link(which, 0, from, word, 0, to, word) != Ok(MoveAnswer::Success) {
            return Some(word);
        }
    }
    None
}

/// Whether a link can be registered at each word of the last object, and all links can be moved to the first object and back.
fn are_linked_and_moved(world: &mut World, which: LinkKind) -> bool {
    first_unlinked(world, which).is_none()
        && first_unmoved(world, which, 0, 1).is_none()
        && first_unmoved(world, which, 1, 0).is_none()
}

/// Whether this holds for links of both kinds.
fn all_are_linked_and_moved(alloc: Global) -> Result<bool, Refusal> {
    let mut world = filled_with_large(alloc)?;
    Ok(are_linked_and_moved(&mut world, Short) && are_linked_and_moved(&mut world, Long))
}

/// Links at each word of the largest objects, including the last word of the heap.
#[test]
fn links_of_large_objects_with_ample_memory(rt: HostRuntime) {
    must_be(
        &rt,
        all_are_linked_and_moved(rt.alloc()),
        Ok(true),
        "all links",
    );
}

/// Allocates, registers and drops an object that points to itself.
fn made_and_dropped(world: &mut World, kind: RegKind) -> Result<(), Refusal> {
    made(world, 0, BLOCK_WORDS, Scanned)?;
    world.store(0, 0, 0, 0, 0)?;
    registered(world, 0, kind, 0)?;
    world.set(0, 0, 0)
}

/// Allocates and drops such objects, of each kind in turn.
fn many_of_each_kind(world: &mut World, count: u64) -> Result<(), Refusal> {
    for _ in 0..count {
        made_and_dropped(world, Normal)?;
        made_and_dropped(world, IgnoreSelf)?;
        made_and_dropped(world, NoOrder)?;
    }
    Ok(())
}

/// A world of three thousand such objects.
fn filled_with_garbage(alloc: Global) -> Result<World, Refusal> {
    let mut world = opened(alloc, MAX_BLOCKS, 1)?;
    many_of_each_kind(&mut world, 1_000)?;
    Ok(world)
}

const THOUSANDS_OF_PICKS: [Step; 5] = [
    Collect(1, 2_000, 0),
    Outstanding(2_000),
    FinishPairs(1_000),
    Outstanding(0),
    Collect(2, 0, 2_000),
];

/// Of three thousand objects that point to themselves, of each kind in turn, those of kind normal wait for themselves.
#[test]
fn thousands_of_picks(rt: HostRuntime) {
    let made = filled_with_garbage(rt.alloc());
    must_be(
        &rt,
        first_wrong_of(made, &THOUSANDS_OF_PICKS),
        Ok(None),
        "the first wrong step",
    );
}

/// How many objects each pass of a long life queues.
const PICKS: u64 = 64;

/// Allocates that many objects, registers and drops them, collects, and finishes the entries. The pass reclaims the objects of the one before.
fn lives_through(world: &mut World, pass: u64) -> Result<bool, Refusal> {
    registered_many(world, PICKS)?;
    world.set(0, 0, 0)?;
    let reclaimed = if pass == 1 { 0 } else { PICKS };
    let mut are_right = world.collect() == passed(pass, PICKS, reclaimed);
    let first = PICKS.wrapping_mul(pass.wrapping_sub(1));
    for place in first..first.wrapping_add(PICKS) {
        let entry = entry_at(world, place as usize)?;
        let numbers = (entry.seq, entry.pass, entry.reg, entry.birth);
        are_right = are_right && numbers == (place, pass, place, place);
        world.finish(&entry)?;
    }
    Ok(are_right && world.outstanding() == 0)
}

/// Whether the pass's entries, all finished, are forgotten.
fn forgets(world: &mut World, pass: u64) -> bool {
    let are_gone = world.forget() == PICKS && world.remembered() == 0;
    are_gone && world.forgotten() == PICKS.wrapping_mul(pass) && world.queue().is_empty()
}

/// Makes this number of passes, and forgets after each if asked to. Returns the first pass with a wrong result.
fn first_wrong_pass(
    alloc: Global,
    passes: u64,
    is_to_forget: bool,
) -> Result<Option<u64>, Refusal> {
    let mut world = opened(alloc, 64, 1)?;
    for pass in 1..=passes {
        let are_right = lives_through(&mut world, pass)?;
        if !are_right || is_to_forget && !forgets(&mut world, pass) {
            return Ok(Some(pass));
        }
    }
    Ok(None)
}

/// More than 150,000 entries go through a small world.
#[test]
fn a_long_life_with_ample_memory(rt: HostRuntime) {
    must_be(
        &rt,
        first_wrong_pass(rt.alloc(), 2_400, false),
        Ok(None),
        "the first wrong pass",
    );
}

/// The same number of entries go through a world that forgets them.
#[test]
fn a_long_life_that_forgets_with_ample_memory(rt: HostRuntime) {
    must_be(
        &rt,
        first_wrong_pass(rt.alloc(), 2_400, true),
        Ok(None),
        "the first wrong pass",
    );
}

/// A word just after the heap lies outside it.
const EDGE_OF_THE_HEAP: [Step; 6] = [
    Registers(0, Ok(RegAnswer::Outside)),
    Set(0, HEAP_START + BLOCK_WORDS * MAX_BLOCKS),
    Registers(0, Ok(RegAnswer::Outside)),
    Set(0, HEAP_START + BLOCK_WORDS * MAX_BLOCKS - 1),
    Registers(0, Err(Refusal::NotPointer)),
    Load(0, 0, 1, Err(Refusal::NotPointer)),
];

/// What is shown, the blocks of a new world, and the steps in it.
type Life = (&'static str, u64, &'static [Step]);

const LIVES_OF_ENTRIES: [Life; 4] = [
    ("one object life", 4, &ONE_OBJECT_LIFE),
    ("forgotten entries", 4, &FORGOTTEN_ENTRIES),
    ("chain in order", 4, &CHAIN_IN_ORDER),
    ("ranks in order", 4, &RANKS_IN_ORDER),
];

const LIVES_OF_LINKS: [Life; 4] = [
    ("short link breaks a cycle", 4, &SHORT_LINK_BREAKS_A_CYCLE),
    (
        "long link waits for its target",
        4,
        &LONG_LINK_WAITS_FOR_ITS_TARGET,
    ),
    ("moved link", 4, &MOVED_LINK),
    ("link in garbage", 4, &LINK_IN_GARBAGE),
];

const LIVES_OF_CYCLES: [Life; 5] = [
    ("close in a cycle", 4, &CLOSE_IN_A_CYCLE),
    ("limits of an object", MAX_BLOCKS, &LIMITS_OF_AN_OBJECT),
    ("store behind the marker", 4, &STORE_BEHIND_THE_MARKER),
    (
        "store behind the marker on a second page",
        8,
        &STORE_BEHIND_THE_MARKER_ON_A_SECOND_PAGE,
    ),
    ("edge of the heap", MAX_BLOCKS, &EDGE_OF_THE_HEAP),
];

/// Carries out the steps of each life in a new world.
fn live(rt: &impl Abort, alloc: Global, lives: &[Life]) {
    for (name, blocks, steps) in lives {
        let wrong = first_wrong_of(opened(alloc, *blocks, 1), steps);
        must_be(
            rt,
            (*name, wrong),
            (*name, Ok(None)),
            "the first wrong step",
        );
    }
}

// Each table is read in a function of its own, without a loop: the proof of a function has at each place all that the function reads.

fn live_with_entries(rt: &impl Abort, alloc: Global) {
    live(rt, alloc, &LIVES_OF_ENTRIES);
}

fn live_with_links(rt: &impl Abort, alloc: Global) {
    live(rt, alloc, &LIVES_OF_LINKS);
}

fn live_through_cycles(rt: &impl Abort, alloc: Global) {
    live(rt, alloc, &LIVES_OF_CYCLES);
}

#[test]
fn lives(rt: HostRuntime) {
    live_with_entries(&rt, rt.alloc());
    live_with_links(&rt, rt.alloc());
    live_through_cycles(&rt, rt.alloc());
}
