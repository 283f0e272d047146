//! Guardians and weak pairs over a heap of records.

use crate::equal::must_be;
use fz_finalizers::{Entry, Finalizer, Kind, Old};
use own_heap::Field::{Hidden, Nothing, Reference};
use own_heap::{FIELDS, Field, Guardian, RecordId, Runtime, WeakPair};
use std::process::Abort;
use std::test::*;

/// A new record.
fn made(rt: &impl Abort, runtime: &mut Runtime) -> RecordId {
    runtime.make([Nothing; FIELDS]).expect(rt, "a record")
}

/// Guards an existing record, and returns what was registered before.
fn guard(rt: &impl Abort, runtime: &mut Runtime, guardian: Guardian, id: RecordId) -> Option<Old> {
    if runtime.heap().contains(id) {
        return guardian.guard(runtime, id).expect(rt, "memory").1;
    }
    None
}

/// Makes the first field of a record weak.
fn paired(rt: &impl Abort, runtime: &mut Runtime, id: RecordId, first: RecordId) -> WeakPair {
    let mut pair = None;
    if runtime.heap().contains(first) {
        let made = WeakPair::new(runtime, id, first).expect(rt, "memory");
        pair = Some(made);
    }
    pair.expect(rt, "the record is there")
}

/// The next entry, which stays held.
fn taken(rt: &impl Abort, runtime: &mut Runtime) -> Entry {
    runtime.take().expect(rt, "an entry")
}

/// The first field of a record.
fn field(runtime: &Runtime, id: RecordId) -> Option<Field> {
    Some(runtime.heap().get(id)?.fields[0])
}

/// Two records refer to each other. Both come, in the order of the queue, once they are taken; and both are gone when nothing else refers to them.
#[test]
fn a_guardian_has_a_ring(rt: HostRuntime) {
    let mut runtime = Runtime::new(rt.alloc(), 8).expect(&rt, "memory");
    let guardian = Guardian::new(1);
    let one = made(&rt, &mut runtime);
    let two = made(&rt, &mut runtime);
    runtime.set(one, 0, Reference(two));
    runtime.set(two, 0, Reference(one));
    guard(&rt, &mut runtime, guardian, one);
    guard(&rt, &mut runtime, guardian, two);
    must_be(&rt, guardian.next(&mut runtime), None, "both are guarded");
    must_be(&rt, runtime.collect().picked, 2, "nothing else has them");
    must_be(&rt, guardian.next(&mut runtime), None, "none was taken");
    let _ = taken(&rt, &mut runtime);
    let _ = taken(&rt, &mut runtime);
    must_be(&rt, guardian.next(&mut runtime), Some(one), "the first");
    must_be(&rt, guardian.next(&mut runtime), Some(two), "the other");
    must_be(&rt, guardian.next(&mut runtime), None, "each once");
    let _ = runtime.collect();
    must_be(&rt, runtime.heap().contains(one), false, "it is gone");
    must_be(&rt, runtime.heap().contains(two), false, "both are");
}

/// Entries of another guardian, of a finalizer and of a cleanup with the same number are in the queue before that of the guardian.
#[test]
fn a_guardian_has_its_own(rt: HostRuntime) {
    let mut runtime = Runtime::new(rt.alloc(), 8).expect(&rt, "memory");
    let guardian = Guardian::new(2);
    let other = Guardian::new(1);
    let first = made(&rt, &mut runtime);
    let second = made(&rt, &mut runtime);
    let third = made(&rt, &mut runtime);
    let before = guard(&rt, &mut runtime, guardian, third);
    must_be(&rt, before, None, "it wasn't registered");
    let before = guard(&rt, &mut runtime, other, first);
    must_be(&rt, before, None, "nor was this one");
    let finalizer = Finalizer {
        kind: Kind::Normal,
        procedure: 3,
        ..guardian.finalizer()
    };
    if runtime.heap().contains(second) {
        let _ = runtime.register(second, finalizer).expect(&rt, "memory");
    }
    must_be(&rt, runtime.collect().picked, 3, "all are lost");
    let entries = [
        taken(&rt, &mut runtime),
        taken(&rt, &mut runtime),
        taken(&rt, &mut runtime),
    ];
    must_be(&rt, guardian.next(&mut runtime), Some(third), "its own");
    must_be(&rt, guardian.next(&mut runtime), None, "no more");
    must_be(&rt, other.next(&mut runtime), Some(first), "the other's");
    for entry in entries.iter() {
        let of_finalizer = entry.proc == 3;
        must_be(
            &rt,
            runtime.finish(entry).is_ok(),
            of_finalizer,
            "the others are finished",
        );
    }
}

/// A record is lost, saved, and lost again. The pair has it up to then.
#[test]
fn a_guardian_saves_a_record(rt: HostRuntime) {
    let mut runtime = Runtime::new(rt.alloc(), 4).expect(&rt, "memory");
    let guardian = Guardian::new(1);
    let id = made(&rt, &mut runtime);
    let weak = made(&rt, &mut runtime);
    runtime.add_root(weak).expect(&rt, "memory");
    let pair = paired(&rt, &mut runtime, weak, id);
    guard(&rt, &mut runtime, guardian, id);
    must_be(&rt, runtime.collect().picked, 1, "it is lost");
    must_be(&rt, pair.first(&runtime), Some(id), "the pair has it");
    let _ = taken(&rt, &mut runtime);
    must_be(&rt, guardian.next(&mut runtime), Some(id), "it is saved");
    runtime.add_root(id).expect(&rt, "memory");
    must_be(&rt, runtime.collect().picked, 0, "it is in use");
    must_be(&rt, pair.first(&runtime), Some(id), "the pair has it still");
    let hidden = Some(Hidden(id));
    must_be(&rt, field(&runtime, pair.id()), hidden, "hidden");
    let _ = runtime.pop_root();
    let _ = runtime.collect();
    must_be(&rt, runtime.heap().contains(id), false, "it is gone");
    must_be(&rt, pair.first(&runtime), None, "the pair has nothing");
    let cleared = Some(Nothing);
    must_be(&rt, field(&runtime, pair.id()), cleared, "not even hidden");
}

/// A pair that is set to another record no longer has the first one.
#[test]
fn a_pair_changes_its_record(rt: HostRuntime) {
    let mut runtime = Runtime::new(rt.alloc(), 4).expect(&rt, "memory");
    let weak = made(&rt, &mut runtime);
    let one = made(&rt, &mut runtime);
    let two = made(&rt, &mut runtime);
    runtime.add_root(weak).expect(&rt, "memory");
    runtime.add_root(two).expect(&rt, "memory");
    let pair = paired(&rt, &mut runtime, weak, one);
    must_be(&rt, pair.first(&runtime), Some(one), "the first one");
    let pair = paired(&rt, &mut runtime, pair.id(), two);
    let _ = runtime.collect();
    must_be(&rt, runtime.heap().contains(one), false, "it is gone");
    must_be(
        &rt,
        pair.first(&runtime),
        Some(two),
        "the pair has the other",
    );
    must_be(&rt, pair.word(), weak.word(0), "at its first field");
}
