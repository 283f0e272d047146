//! What no clause states: that calls succeed, and what they return after a failed allocation.

use crate::equal::must_be;
use fz_links::Links;
use fz_model::{Addr, HEAP_START, LinkAnswer, MoveAnswer, Refusal, TABLE_LIMIT};
use std::alloc::{AllocError, Global};
use std::process::Abort;
use std::test::Fail;

/// A call and the expected result.
#[derive(Clone, Copy)]
enum Step {
    /// Reserves room for this many links.
    Reserve(usize),
    Register(Addr, Addr, Result<LinkAnswer, Refusal>),
    Unregister(Addr, bool),
    Move(Addr, Addr, Result<MoveAnswer, Refusal>),
    Get(Addr, Option<Addr>),
    /// How many links there are, and whether there is one.
    Len(usize),
}

use Step::{Get, Len, Move, Register, Reserve, Unregister};

/// Whether a step returns the expected result.
fn is_right(links: &mut Links, step: Step) -> bool {
    match step {
        Reserve(more) => links.reserve(more) == Ok(()),
        Register(link, target, want) => links.register(link, target) == want,
        Unregister(link, want) => links.unregister(link) == want,
        Move(link, new, want) => links.move_link(link, new) == want,
        Get(link, want) => links.get(link) == want,
        Len(want) => links.len() == want && links.is_empty() == (want == 0),
    }
}

/// The index of the first step that returns another result.
fn first_wrong(links: &mut Links, steps: &[Step]) -> Option<usize> {
    for (place, step) in steps.iter().enumerate() {
        if !is_right(links, *step) {
            return Some(place);
        }
    }
    None
}

/// Each of these steps has to return the expected result.
fn must_run(rt: &impl Abort, links: &mut Links, steps: &[Step]) {
    must_be(rt, first_wrong(links, steps), None, "all steps");
}

/// A word above those of all the links.
const FURTHER: Addr = HEAP_START + 2 * TABLE_LIMIT;

#[test]
fn holds_as_many_as_the_limit(rt: HostRuntime) {
    let mut links = Links::new(rt.alloc());
    let success = Ok(LinkAnswer::Success);
    for number in 0..TABLE_LIMIT {
        let answer = links.register(HEAP_START + number, number);
        must_be(&rt, answer, success, "one of all links");
    }
    must_run(
        &rt,
        &mut links,
        &[
            Register(FURTHER, 1, Err(Refusal::TableFull)),
            Len(TABLE_LIMIT as usize),
            Register(HEAP_START + 1, 2, Ok(LinkAnswer::Duplicate)),
            Get(HEAP_START + 1, Some(2)),
            // A move doesn't change the number of links.
            Move(HEAP_START + 2, FURTHER, Ok(MoveAnswer::Success)),
            Get(FURTHER, Some(2)),
            Register(HEAP_START + 2, 1, Err(Refusal::TableFull)),
            Unregister(HEAP_START + 4, true),
            // There is room for one.
            Register(HEAP_START + 2, 1, Ok(LinkAnswer::Success)),
            Reserve(TABLE_LIMIT as usize),
        ],
    );
}

/// Registers a link under a number, which is how many there are, and again if memory ran out.
fn register_soon(rt: &impl Abort, links: &mut Links, link: Addr, number: u64) {
    let mut answer = links.register(link, number);
    if answer == Err(Refusal::NoMemory) {
        must_be(rt, links.len() as u64, number, "as many links as before");
        must_be(rt, links.get(link), None, "a refused link");
        answer = links.register(link, number);
    }
    must_be(rt, answer, Ok(LinkAnswer::Success), "one of 1,000 links");
}

/// Moves the link with this number, and again if memory ran out.
fn move_soon(rt: &impl Abort, links: &mut Links, link: Addr, new: Addr, number: u64) {
    let mut moved = links.move_link(link, new);
    if moved == Err(Refusal::NoMemory) {
        must_be(rt, links.get(link), Some(number), "a link that stayed");
        must_be(rt, links.get(new), None, "a word without a link");
        moved = links.move_link(link, new);
    }
    must_be(rt, moved, Ok(MoveAnswer::Success), "one of 1,000 moves");
}

/// If an allocation fails, the call returns an error and changes nothing, and succeeds when it is repeated.
#[test]
fn survives_a_refused_growth(rt: HostRuntime) {
    let mut links = Links::new(rt.alloc());
    for number in 0..1_000u64 {
        let link = 70_000 + number;
        register_soon(&rt, &mut links, link, number);
        move_soon(&rt, &mut links, link, 90_000 + number, number);
    }
    must_be(&rt, links.len(), 1_000, "all links");
    must_be(&rt, links.get(90_007), Some(7), "one of the moved links");
}

/// How many capacities are tried: 9, and each twice the one before. With 18 of them the lengths go up to 1,179,651.
const POWERS: u32 = 10;

/// Moves a link by a list that has room for all.
fn move_by(
    rt: &impl Abort,
    links: &mut Links,
    list: &mut Vec<(Addr, Addr)>,
    link: Addr,
    new: Addr,
) {
    let has_room = list.is_empty() && links.len() <= list.capacity();
    assert!(rt; has_room, "the list is empty and has room for all links");
    let moved = links.move_within(link, new, list);
    must_be(rt, moved, MoveAnswer::Success, "one of all moves");
}

/// Registers this many links, eight words apart, and moves each once, the last one first. Returns how often their table was rebuilt: a rebuild reverses their
/// order, and nothing else changes which link comes first.
fn builds_of_moves(rt: &impl Abort, alloc: Global, count: u64) -> Result<u64, AllocError> {
    let mut links = Links::new(alloc);
    let mut list = Vec::with_capacity(alloc, count as usize)?;
    for number in 0..count {
        let word = HEAP_START.wrapping_add(number.wrapping_mul(8));
        if !links.lacks_place(word) {
            let _ = links.register_checked(word, word);
        }
    }
    let mut builds = 0u64;
    let mut first = links.iter().next();
    for number in 0..count {
        let word = HEAP_START.wrapping_add((count - 1 - number).wrapping_mul(8));
        move_by(rt, &mut links, &mut list, word, word.wrapping_add(1 << 40));
        let now = links.iter().next();
        builds = builds.saturating_add((now != first) as u64);
        first = now;
    }
    Ok(builds)
}

/// As many moves as there are links build the table anew 17 times at the most, at lengths about each capacity, and about those from which it grows.
#[test]
fn moves_seldom_build_the_table_anew(rt: HostRuntime) -> Result<(), Fail> {
    for power in 0..POWERS {
        let capacity = 9u64 << power;
        for more in 0..7u64 {
            let full = builds_of_moves(&rt, rt.alloc(), capacity + more - 3)?;
            must_be(&rt, full <= 17, true, "few builds at a full table");
            let grown = capacity - capacity.div_ceil(16) + more - 3;
            let early = builds_of_moves(&rt, rt.alloc(), grown)?;
            must_be(&rt, early <= 17, true, "few builds where it grows");
        }
    }
    Ok(())
}
