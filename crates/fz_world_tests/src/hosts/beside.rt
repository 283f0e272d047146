//! The heap of records, compared with a world: for the same graphs both queue the same objects and retain the same.

use crate::equal::{at, must_be};
use fz_finalizers::{Finalizer, Kind};
use fz_model::LinkKind::{Long, Short};
use fz_model::ObjKind::Scanned;
use fz_model::{Addr, RegKind, Word};
use fz_world::{Config, World};
use own_heap::Field::{Nothing, Reference};
use own_heap::{FIELDS, RecordId, Runtime};
use std::alloc::Global;
use std::process::Abort;
use std::test::*;

/// The number of objects of a graph, which is the number of a frame's slots.
const OBJECTS: u64 = 16;

/// Pseudorandom numbers by Knuth's linear congruential generator.
#[derive(Drop)]
pub(crate) struct Random(pub(crate) u64);

impl Random {
    /// The next number, below a limit.
    pub(crate) fn below(&mut self, limit: u64) -> u64 {
        self.0 = self
            .0
            .wrapping_mul(6_364_136_223_846_793_005)
            .wrapping_add(1_442_695_040_888_963_407);
        (self.0 >> 33) % limit.max(1)
    }
}

/// A world and a heap of records with the same objects. Each object is in the slot of its number, until that slot is cleared.
#[derive(Drop)]
struct All {
    world: World,
    runtime: Runtime,
    starts: Vec<Addr>,
    ids: Vec<RecordId>,
}

/// Objects without edges.
fn objects(rt: &impl Abort, alloc: Global) -> All {
    let config = Config {
        blocks: 8,
        frames: 1,
    };
    let mut all = All {
        world: World::open(alloc, config).expect(rt, "a world"),
        runtime: Runtime::new(alloc, OBJECTS as u32).expect(rt, "a runtime"),
        starts: Vec::new(alloc),
        ids: Vec::new(alloc),
    };
    for slot in 0..OBJECTS {
        let made = all.world.alloc(0, slot, FIELDS as u64, Scanned);
        all.starts
            .push(made.expect(rt, "an object").0)
            .expect(rt, "memory");
        let id = all.runtime.make([Nothing; FIELDS]).expect(rt, "a record");
        all.ids.push(id).expect(rt, "memory");
    }
    all
}

/// A record's name, by the number of its object.
fn id_of(rt: &impl Abort, all: &All, object: u64) -> RecordId {
    at(rt, all.ids.as_slice(), object as usize)
}

/// Stores a reference to an object in a field of another.
fn refer(rt: &impl Abort, all: &mut All, object: u64, field: u64, to: u64) {
    all.world
        .store(0, object, field, 0, to)
        .expect(rt, "a word");
    let id = id_of(rt, all, object);
    let target = id_of(rt, all, to);
    all.runtime
        .set(id, field as usize % FIELDS, Reference(target));
}

/// Registers an object, with a kind that both have, and client data that may refer to another object.
fn register(rt: &impl Abort, all: &mut All, object: u64, random: &mut Random) {
    let (kind, same_kind) = match random.below(3) {
        0 => (RegKind::Normal, Kind::Normal),
        1 => (RegKind::IgnoreSelf, Kind::IgnoreSelf),
        _ => (RegKind::NoOrder, Kind::NoOrder),
    };
    let rank = u8::from(random.below(2) == 0);
    let to = random.below(OBJECTS * 8);
    let word: Word = all.starts.get(to as usize).copied().unwrap_or(0);
    all.world
        .register(0, object, kind, object, word, rank)
        .expect(rt, "a registration");
    let client_data = match all.ids.get(to as usize) {
        Some(id) => id.address(),
        None => 0,
    };
    let finalizer = Finalizer {
        kind: same_kind,
        procedure: object,
        client_data,
        rank,
    };
    let id = id_of(rt, all, object);
    if all.runtime.heap().contains(id) {
        all.runtime.register(id, finalizer).expect(rt, "the same");
    }
}

/// Registers a link at a field of an object, to another object.
fn link(rt: &impl Abort, all: &mut All, object: u64, to: u64, random: &mut Random) {
    let kind = if random.below(2) == 0 { Short } else { Long };
    let field = random.below(FIELDS as u64);
    all.world
        .link(kind, 0, object, field, 0, to)
        .expect(rt, "a link");
    let id = id_of(rt, all, object);
    let target = id_of(rt, all, to);
    if all.runtime.heap().contains(target) {
        all.runtime
            .link(kind, id.word(field as usize % FIELDS), target)
            .expect(rt, "the same");
    }
}

/// Creates edges, a registration and links for an object.
fn furnish(rt: &impl Abort, all: &mut All, object: u64, random: &mut Random) {
    for field in 0..FIELDS as u64 {
        if random.below(5) == 0 {
            refer(rt, all, object, field, random.below(OBJECTS));
        }
    }
    if random.below(2) == 0 {
        register(rt, all, object, random);
    }
    if random.below(3) == 0 {
        link(rt, all, object, random.below(OBJECTS), random);
    }
}

/// Drops an object from its slot, or makes it a root.
fn settle(rt: &impl Abort, all: &mut All, object: u64, random: &mut Random) {
    if random.below(8) == 0 {
        let id = id_of(rt, all, object);
        all.runtime.add_root(id).expect(rt, "memory");
    } else {
        all.world.set(0, object, 0).expect(rt, "a slot");
    }
}

/// Takes what both have queued, in order, and finishes it. Returns how many entries were taken so far.
fn take_same(rt: &impl Abort, all: &mut All, taken: u64) -> u64 {
    for number in taken..u64::MAX {
        let Some(entry) = all.world.next(number) else {
            must_be(rt, all.runtime.take().is_none(), true, "no other pick");
            return number;
        };
        let same = all.runtime.take().expect(rt, "an entry of both");
        let numbers = (same.reg, same.birth, same.proc);
        must_be(rt, numbers, (entry.reg, 0, entry.proc), "a pick");
        all.world.finish(&entry).expect(rt, "the end");
        all.runtime.finish(&same).expect(rt, "the end");
    }
    taken
}

/// Both have the same objects.
fn have_same_objects(rt: &impl Abort, all: &All) {
    for (start, id) in all.starts.iter().zip(all.ids.iter()) {
        let exists = all.world.object(*start).is_some();
        must_be(rt, all.runtime.heap().contains(*id), exists, "an object");
    }
}

/// A random graph, and collections of it. Returns how many objects were queued.
fn collect_same(rt: &impl Abort, alloc: Global, seed: u64) -> u64 {
    let mut random = Random(seed);
    let mut all = objects(rt, alloc);
    for object in 0..OBJECTS {
        furnish(rt, &mut all, object, &mut random);
    }
    for object in 0..OBJECTS {
        settle(rt, &mut all, object, &mut random);
    }
    let mut taken = 0;
    for _ in 0..6 {
        let passed = all.world.collect().expect(rt, "a collection");
        must_be(rt, all.runtime.collect().picked, passed.picked, "as many");
        have_same_objects(rt, &all);
        taken = take_same(rt, &mut all, taken);
    }
    taken
}

#[test]
fn picks_and_keeps_the_same_as_a_world(rt: HostRuntime) {
    let mut picks = 0u64;
    for seed in 0..300 {
        picks = picks.saturating_add(collect_same(&rt, rt.alloc(), seed));
    }
    must_be(&rt, picks > 1_000, true, "many picks");
}
