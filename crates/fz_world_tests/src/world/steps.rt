//! Steps of a world's life: calls with their expected results, and how they are carried out. A call that runs out of memory is repeated at once, and then
//! every result is the same as if there had been enough: `tests/refused-allocations` makes allocations of these calls fail, up to four in a row.

use fz_model::RegKind::Normal;
use fz_model::{
    BLOCK_WORDS, Entry, HEAP_START, LinkAnswer, LinkKind, MoveAnswer, ObjKind, Old, Passed,
    Progress, Refusal, RegAnswer, RegKind,
};
use fz_world::{Config, World};
use std::alloc::Global;

/// A call and its expected result. All slots are in the first frame.
#[derive(Clone, Copy)]
pub(super) enum Step {
    /// Allocates an object of this many words into the slot.
    New(u64, u64, ObjKind, Result<u64, Refusal>),
    /// Stores the second slot's word in a word of the object at the first slot.
    Store(u64, u64, u64, Result<(), Refusal>),
    /// Loads a word of the object at the first slot into the second slot.
    Load(u64, u64, u64, Result<u64, Refusal>),
    Set(u64, u64),
    /// Registers the object at the slot. The number, given last, is the next one, and no registration is replaced.
    Register(u64, RegKind, u8, u64),
    /// The result of registering a finalizer of kind normal and rank 0.
    Registers(u64, Result<RegAnswer, Refusal>),
    Unregister(u64, Result<Option<Old>, Refusal>),
    Link(LinkKind, u64, u64, u64, LinkAnswer),
    Unlink(LinkKind, u64, u64, bool),
    Move(LinkKind, u64, u64, u64, MoveAnswer),
    Begin(Result<(), Refusal>),
    Mark(u64, Progress),
    /// The number of the pass, and how many objects it queues and reclaims.
    Pause(u64, u64, u64),
    Collect(u64, u64, u64),
    /// Stores the object of the entry at an index of the queue in the slot.
    Hold(u64, usize),
    /// Finishes the entry at an index of the queue. It has this object.
    Finish(usize, Result<u64, Refusal>),
    Close(Result<(), Refusal>),
    Outstanding(u64),
    /// This many entries are forgotten, and the queue is shown from this number on.
    Forget(u64, u64),
    Scans(u64),
    Noted(u64),
    /// Finishes this many pairs of entries. Their objects are the second and the third of every three blocks.
    FinishPairs(u32),
}

use Step::{
    Begin, Close, Collect, Finish, FinishPairs, Forget, Hold, Link, Load, Mark, Move, New, Noted,
    Outstanding, Pause, Register, Registers, Scans, Set, Store, Unlink, Unregister,
};

/// The largest number of failures of one call: no more allocations fail in a row.
const MOST_REFUSALS: u64 = 4;

pub(super) fn opened(alloc: Global, blocks: u64, frames: u64) -> Result<World, Refusal> {
    let config = Config { blocks, frames };
    for _ in 0..MOST_REFUSALS {
        match World::open(alloc, config) {
            Err(Refusal::NoMemory) => (),
            answer => return answer,
        }
    }
    World::open(alloc, config)
}

/// Allocates an object into a slot of the first frame. Returns its address.
pub(super) fn made(world: &mut World, slot: u64, size: u64, kind: ObjKind) -> Result<u64, Refusal> {
    Ok(world.alloc(0, slot, size, kind)?.0)
}

/// Registers the object at a slot of the first frame, with procedure 7 and no client data.
pub(super) fn registered(
    world: &mut World,
    slot: u64,
    kind: RegKind,
    rank: u8,
) -> Result<RegAnswer, Refusal> {
    for _ in 0..MOST_REFUSALS {
        match world.register(0, slot, kind, 7, 0, rank) {
            Err(Refusal::NoMemory) => (),
            answer => return answer,
        }
    }
    world.register(0, slot, kind, 7, 0, rank)
}

/// Registers a link at a word of the object at one slot of the first frame, to the object at another slot.
fn linked(
    world: &mut World,
    which: LinkKind,
    slot: u64,
    offset: u64,
    target: u64,
) -> Result<LinkAnswer, Refusal> {
    for _ in 0..MOST_REFUSALS {
        match world.link(which, 0, slot, offset, 0, target) {
            Err(Refusal::NoMemory) => (),
            answer => return answer,
        }
    }
    world.link(which, 0, slot, offset, 0, target)
}

/// Moves a link between two words of the object at a slot of the first frame.
fn moved(
    world: &mut World,
    which: LinkKind,
    slot: u64,
    from: u64,
    to: u64,
) -> Result<MoveAnswer, Refusal> {
    for _ in 0..MOST_REFUSALS {
        match world.move_link(which, 0, slot, from, 0, slot, to) {
            Err(Refusal::NoMemory) => (),
            answer => return answer,
        }
    }
    world.move_link(which, 0, slot, from, 0, slot, to)
}

/// The result of a pass.
pub(super) fn passed(pass: u64, picked: u64, reclaimed: u64) -> Result<Passed, Refusal> {
    Ok(Passed {
        pass,
        picked,
        reclaimed,
    })
}

/// The result of a new registration.
fn number(number: u64) -> Result<RegAnswer, Refusal> {
    Ok(RegAnswer::Number(number, None))
}

/// The entry at an index of the queue.
pub(super) fn entry_at(world: &World, place: usize) -> Result<Entry, Refusal> {
    world.next(place as u64).ok_or(Refusal::NotHeld)
}

/// Finishes the entry at an index of the queue. Returns its object.
fn finished(world: &mut World, place: usize) -> Result<u64, Refusal> {
    let entry = entry_at(world, place)?;
    world.finish(&entry)?;
    Ok(entry.obj)
}

/// Stores the object of the entry at an index of the queue in a slot of the first frame.
fn held(world: &mut World, slot: u64, place: usize) -> Result<(), Refusal> {
    let entry = entry_at(world, place)?;
    world.hold(0, slot, &entry)
}

/// Whether a step that allocates, reads or writes words returns the expected result. None: it is another one.
fn right_on_words(world: &mut World, step: Step) -> Option<bool> {
    Some(match step {
        New(slot, size, kind, want) => made(world, slot, size, kind) == want,
        Store(slot, word, from, want) => world.store(0, slot, word, 0, from) == want,
        Load(slot, word, to, want) => world.load(0, slot, word, 0, to) == want,
        Set(slot, word) => world.set(0, slot, word) == Ok(()),
        _ => return None,
    })
}

/// The same of a step that changes registrations or links.
fn right_on_tables(world: &mut World, step: Step) -> Option<bool> {
    Some(match step {
        Register(slot, kind, rank, want) => registered(world, slot, kind, rank) == number(want),
        Registers(slot, want) => registered(world, slot, Normal, 0) == want,
        Unregister(slot, want) => world.unregister(0, slot) == want,
        Link(which, slot, word, to, want) => linked(world, which, slot, word, to) == Ok(want),
        Unlink(which, slot, word, want) => world.unlink(which, 0, slot, word) == Ok(want),
        Move(which, slot, word, to, want) => moved(world, which, slot, word, to) == Ok(want),
        _ => return None,
    })
}

/// The same of a step of a cycle.
fn right_in_cycle(world: &mut World, step: Step) -> Option<bool> {
    Some(match step {
        Begin(want) => world.begin() == want,
        Mark(budget, want) => world.mark(budget) == Ok(want),
        Pause(pass, picked, reclaimed) => world.pause() == passed(pass, picked, reclaimed),
        Collect(pass, picked, reclaimed) => world.collect() == passed(pass, picked, reclaimed),
        Close(want) => world.close() == want,
        Scans(want) => world.scans() == want,
        Noted(want) => world.noted() == want,
        _ => return None,
    })
}

/// The index of the first of many entries that isn't held or has the wrong object. Of every three objects, one block each, two are queued.
fn first_out_of_turn(world: &mut World, pairs: u32) -> Option<u32> {
    for pair in 0..pairs {
        let first = HEAP_START + 3 * BLOCK_WORDS * pair as u64;
        let place = 2 * pair as usize;
        if finished(world, place) != Ok(first + BLOCK_WORDS) {
            return Some(pair);
        }
        if finished(world, place + 1) != Ok(first + 2 * BLOCK_WORDS) {
            return Some(pair);
        }
    }
    None
}

/// The same of a step with entries.
fn right_on_entries(world: &mut World, step: Step) -> Option<bool> {
    Some(match step {
        Hold(slot, place) => held(world, slot, place) == Ok(()),
        Finish(place, want) => finished(world, place) == want,
        Outstanding(want) => world.outstanding() == want,
        Forget(count, number) => world.forget() == count && world.forgotten() == number,
        FinishPairs(pairs) => first_out_of_turn(world, pairs).is_none(),
        _ => return None,
    })
}

/// Whether a step returns the expected result.
fn is_right(world: &mut World, step: Step) -> bool {
    if let Some(found) = right_on_words(world, step) {
        return found;
    }
    if let Some(found) = right_on_tables(world, step) {
        return found;
    }
    if let Some(found) = right_in_cycle(world, step) {
        return found;
    }
    right_on_entries(world, step).unwrap_or(false)
}

/// The index of the first step that returns another result.
fn first_wrong(world: &mut World, steps: &[Step]) -> Option<usize> {
    for (place, step) in steps.iter().enumerate() {
        if !is_right(world, *step) {
            return Some(place);
        }
    }
    None
}

/// The same for a new world. It is dropped here, in one place.
pub(super) fn first_wrong_of(
    made: Result<World, Refusal>,
    steps: &[Step],
) -> Result<Option<usize>, Refusal> {
    let mut world = made?;
    Ok(first_wrong(&mut world, steps))
}
