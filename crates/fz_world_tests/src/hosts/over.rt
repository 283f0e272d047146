//! A machine over the heap of records, whose passes are those of `Machine::pass_over`. Since tests are proved too, these show that a host can meet what that
//! call requires, after any sequence of the calls below.

ghost use Rattle.std.specs.Prelude.{◌≡◌, ◌<◌, None, is_some, IsTrue};
ghost use Rattle.fz_finalizers.specs.Promises.{IsReached, Past};
ghost use Rattle.own_heap.specs.Records.{objects_of, slot};
ghost use Rattle.own_heap.specs.Sound.{IsSound};

use crate::equal::{at, must_be};
use crate::hosts::beside::Random;
use fz_finalizers::{Cleanup, Entry, Finalizer, Kind, LinkAnswer, LinkKind, Old, Passed, Root};
use fz_machine::{By, Machine, Refused};
use fz_model::Addr;
use own_heap::Field::{Hidden, Nothing, Reference};
use own_heap::{FIELDS, Field, Heap, RecordId, Runtime, mark_kept};
use std::alloc::{AllocError, Global};
use std::process::Abort;
use std::test::*;

/// The number of records of a graph.
const RECORDS: u64 = 12;

/// A heap of records, and a machine with their finalizers.
#[derive(Drop)]
struct Asked {
    heap: Heap,
    machine: Machine,
    ghost idle: { machine.phase ≡ None },
    ghost sound: { IsSound (objects_of heap.records.slots.items) machine.finalizers.state },
    ghost reached: { ∥ ((past : Past) × IsReached machine.finalizers.state past) ∥₁ },
}

impl Asked {
    /// An empty heap with room for these records, whose passes ask about regions or not.
    fn new(alloc: Global, size: u32, by: By) -> Result<Asked, AllocError> {
        let heap = Heap::new(alloc, size)?;
        let Ok(machine) = Machine::with_regions(alloc, by) else {
            return Err(AllocError);
        };
        Ok(Asked { heap, machine })
    }

    fn make(&mut self) -> Option<RecordId> {
        self.heap.make([Nothing; FIELDS])
    }

    fn set(&mut self, id: RecordId, field: usize, value: Field)
        requires { field < FIELDS }
    {
        self.heap.set(id, field, value);
    }

    fn register(
        &mut self,
        id: RecordId,
        finalizer: Finalizer,
    ) -> Result<(u64, Option<Old>), Refused>
        requires { IsTrue (is_some (slot self.old.heap.records.slots.items id.place)) }
    {
        self.machine.register(id.address(), finalizer)
    }

    fn link(&mut self, kind: LinkKind, word: Addr, target: RecordId) -> Result<LinkAnswer, Refused>
        requires { IsTrue (is_some (slot self.old.heap.records.slots.items target.place)) }
    {
        self.machine.link(kind, word, target.address())
    }

    fn ephemeron(
        &mut self,
        kind: LinkKind,
        word: Addr,
        key: RecordId,
    ) -> Result<LinkAnswer, Refused>
        requires { IsTrue (is_some (slot self.old.heap.records.slots.items key.place)) }
    {
        self.machine.ephemeron(kind, word, key.address())
    }

    fn add_cleanup(&mut self, id: RecordId, cleanup: Cleanup) -> Result<u64, Refused>
        requires { IsTrue (is_some (slot self.old.heap.records.slots.items id.place)) }
    {
        self.machine.add_cleanup(id.address(), cleanup)
    }

    fn take(&mut self) -> Option<Entry> {
        self.machine.take()
    }

    fn finish(&mut self, entry: &Entry) -> Result<(), Refused> {
        self.machine.finish(entry)
    }

    /// A collection, as that of `Runtime`.
    fn collect(&mut self) -> Result<Passed, Refused> {
        self.heap.mark_roots();
        mark_kept(&mut self.heap, self.machine.finalizers(), Root::HeldObject);
        mark_kept(&mut self.heap, self.machine.finalizers(), Root::HeldData);
        mark_kept(
            &mut self.heap,
            self.machine.finalizers(),
            Root::RegisteredData,
        );
        let passed = self.machine.pass_over(&mut self.heap)?;
        self.heap.sweep();
        Ok(passed)
    }
}

/// The same records in both heaps.
#[derive(Drop)]
struct Both {
    runtime: Runtime,
    asked: Asked,
    ids: Vec<RecordId>,
}

/// Records without references.
fn records(rt: &impl Abort, alloc: Global, by: By) -> Both {
    let mut both = Both {
        runtime: Runtime::new(alloc, RECORDS as u32).expect(rt, "a runtime"),
        asked: Asked::new(alloc, RECORDS as u32, by).expect(rt, "a machine"),
        ids: Vec::new(alloc),
    };
    for _ in 0..RECORDS {
        let id = both.runtime.make([Nothing; FIELDS]).expect(rt, "a record");
        must_be(rt, both.asked.make(), Some(id), "the same record");
        both.ids.push(id).expect(rt, "memory");
    }
    both
}

/// One of the records at random.
fn any(rt: &impl Abort, both: &Both, random: &mut Random) -> RecordId {
    at(rt, both.ids.as_slice(), random.below(RECORDS) as usize)
}

fn kind_of(random: &mut Random) -> LinkKind {
    if random.below(2) == 0 {
        LinkKind::Short
    } else {
        LinkKind::Long
    }
}

/// Writes a field of a record: a reference, or a hidden one.
fn refer(rt: &impl Abort, both: &mut Both, id: RecordId, random: &mut Random) {
    let to = any(rt, both, random);
    let value = if random.below(3) == 0 {
        Hidden(to)
    } else {
        Reference(to)
    };
    let field = random.below(FIELDS as u64) as usize % FIELDS;
    both.runtime.set(id, field, value);
    both.asked.set(id, field, value);
}

fn register(rt: &impl Abort, both: &mut Both, id: RecordId, random: &mut Random) {
    let kind = match random.below(4) {
        0 => Kind::Normal,
        1 => Kind::IgnoreSelf,
        2 => Kind::NoOrder,
        _ => Kind::Unreachable,
    };
    let client_data = if random.below(4) == 0 {
        any(rt, both, random).address()
    } else {
        0
    };
    let finalizer = Finalizer {
        kind,
        procedure: random.below(100),
        client_data,
        rank: u8::from(random.below(2) == 0),
    };
    if both.runtime.heap().contains(id) && both.asked.heap.contains(id) {
        let one = both.runtime.register(id, finalizer).expect(rt, "a number");
        let other = both.asked.register(id, finalizer).expect(rt, "a number");
        must_be(rt, other, one, "the same registration");
    }
}

/// Makes a field of a record a link or an ephemeron.
fn weaken(rt: &impl Abort, both: &mut Both, id: RecordId, random: &mut Random) {
    let to = any(rt, both, random);
    let word = id.word(random.below(FIELDS as u64) as usize % FIELDS);
    let kind = kind_of(random);
    if !both.runtime.heap().contains(to) || !both.asked.heap.contains(to) {
        return;
    }
    if random.below(2) == 0 {
        let one = both.runtime.link(kind, word, to).expect(rt, "a link");
        let other = both.asked.link(kind, word, to).expect(rt, "a link");
        must_be(rt, other, one, "the same link");
    } else {
        let one = both.runtime.ephemeron(kind, word, to).expect(rt, "one");
        let other = both.asked.ephemeron(kind, word, to).expect(rt, "one");
        must_be(rt, other, one, "the same ephemeron");
    }
}

fn clean(rt: &impl Abort, both: &mut Both, id: RecordId, random: &mut Random) {
    let cleanup = Cleanup {
        procedure: random.below(100),
        client_data: 0,
        rank: u8::from(random.below(2) == 0),
        when: kind_of(random),
    };
    if both.runtime.heap().contains(id) && both.asked.heap.contains(id) {
        let one = both.runtime.add_cleanup(id, cleanup).expect(rt, "one");
        let other = both.asked.add_cleanup(id, cleanup).expect(rt, "one");
        must_be(rt, other, one, "the same cleanup");
    }
}

/// Some calls at random.
fn change(rt: &impl Abort, both: &mut Both, random: &mut Random) {
    for _ in 0..RECORDS {
        let id = any(rt, both, random);
        match random.below(6) {
            0 | 1 => refer(rt, both, id, random),
            2 | 3 => register(rt, both, id, random),
            4 => weaken(rt, both, id, random),
            _ => clean(rt, both, id, random),
        }
    }
}

/// Takes the first waiting entries of both, and finishes some of them at once. The others are never finished.
fn take_same(rt: &impl Abort, both: &mut Both, random: &mut Random) -> u64 {
    for count in 0..u64::MAX {
        let Some(entry) = both.runtime.take() else {
            must_be(rt, both.asked.take(), None, "no other entry");
            return count;
        };
        must_be(rt, both.asked.take(), Some(entry), "the same entry");
        if random.below(3) != 0 {
            both.runtime.finish(&entry).expect(rt, "the end");
            both.asked.finish(&entry).expect(rt, "the end");
        }
    }
    u64::MAX
}

/// A random graph, and collections of it. Returns how many entries were taken.
fn collect_same(rt: &impl Abort, alloc: Global, seed: u64, by: By) -> u64 {
    let mut random = Random(seed);
    let mut both = records(rt, alloc, by);
    for _ in 0..2 {
        let id = any(rt, &both, &mut random);
        both.runtime.add_root(id).expect(rt, "memory");
        both.asked.heap.roots.push(id).expect(rt, "memory");
    }
    let mut taken = 0u64;
    for _ in 0..5 {
        change(rt, &mut both, &mut random);
        let passed = both.asked.collect().expect(rt, "a collection");
        must_be(rt, passed, both.runtime.collect(), "the same pass");
        for id in both.ids.iter() {
            let one = both.runtime.heap().get(*id).copied();
            must_be(rt, both.asked.heap.get(*id).copied(), one, "a record");
        }
        taken = taken.saturating_add(take_same(rt, &mut both, &mut random));
    }
    taken
}

fn collect_all(rt: &impl Abort, alloc: Global, by: By) {
    let mut taken = 0u64;
    for seed in 0..200 {
        taken = taken.saturating_add(collect_same(rt, alloc, seed, by));
    }
    must_be(rt, taken > 1_000, true, "many entries");
}

#[test]
fn passes_over_a_heap_by_items_are_those_of_the_finalizers(rt: HostRuntime) {
    let by = By {
        marks: false,
        live: false,
    };
    collect_all(&rt, rt.alloc(), by);
}

#[test]
fn passes_over_a_heap_by_regions_are_those_of_the_finalizers(rt: HostRuntime) {
    let by = By {
        marks: true,
        live: true,
    };
    collect_all(&rt, rt.alloc(), by);
}
