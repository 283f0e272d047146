//! Cleanups of records: worked rows.

use crate::equal::{at, must_be, push};
use fz_finalizers::{Cleanup, Entry, Finalizer, Kind, LinkKind};
use fz_model::LinkKind::{Long, Short};
use own_heap::Field::{Nothing, Reference};
use own_heap::{FIELDS, RecordId, Runtime};
use std::alloc::Global;
use std::process::Abort;
use std::test::*;

/// A step of a row. Records are named by their numbers, in the order in which they were made.
#[derive(Clone, Copy)]
enum Step {
    /// Makes a record.
    Make,
    /// The first field of a record refers to another.
    Refer(usize, usize),
    /// Registers a record with a procedure.
    Register(usize, u64),
    /// Adds a cleanup to a record: when it is due, its procedure, the record that is its client data if any, and its rank.
    Attach(usize, LinkKind, u64, Option<usize>, u8),
    /// Cancels the cleanup with a number, and whether there was one.
    Cancel(u64, bool),
    /// Makes a record a root, and removes the last root.
    Root(usize),
    Unroot,
    /// The program ends: from now on all records that have a finalizer or a cleanup are roots.
    Close,
    /// A collection, and how many entries it queues.
    Collect(u64),
    /// Takes the next entry: its procedure, its number, and its record if it has one.
    Take(u64, u64, Option<usize>),
    /// Finishes the entry that was taken last.
    Finish,
    /// Whether a record exists.
    Exists(usize, bool),
}

/// A heap, its records by number, those that were given a finalizer or a cleanup, and the entries that were taken and not finished.
#[derive(Drop)]
struct Records {
    runtime: Runtime,
    ids: Vec<RecordId>,
    furnished: Vec<RecordId>,
    taken: Vec<Entry>,
}

/// A heap without records.
fn heap_of(rt: &impl Abort, alloc: Global) -> Records {
    Records {
        runtime: Runtime::new(alloc, 16).expect(rt, "a runtime"),
        ids: Vec::new(alloc),
        furnished: Vec::new(alloc),
        taken: Vec::new(alloc),
    }
}

/// Makes a record.
fn make(rt: &impl Abort, records: &mut Records) {
    let id = records.runtime.make([Nothing; FIELDS]);
    push(rt, &mut records.ids, id.expect(rt, "a record"));
}

/// The name of a record.
fn id_of(rt: &impl Abort, records: &Records, record: usize) -> RecordId {
    at(rt, records.ids.as_slice(), record)
}

/// The address of a record, or 0 of none.
fn address_of(rt: &impl Abort, records: &Records, record: Option<usize>) -> u64 {
    match record {
        Some(record) => id_of(rt, records, record).address(),
        None => 0,
    }
}

/// Registers a record.
fn register(rt: &impl Abort, records: &mut Records, record: usize, procedure: u64) {
    let finalizer = Finalizer {
        kind: Kind::Normal,
        procedure,
        client_data: 0,
        rank: 0,
    };
    let id = id_of(rt, records, record);
    if records.runtime.heap().contains(id) {
        records
            .runtime
            .register(id, finalizer)
            .expect(rt, "a finalizer");
        push(rt, &mut records.furnished, id);
    }
}

/// A cleanup: when it is due, its procedure, the record that is its client data if any, and its rank.
fn cleanup_of(
    rt: &impl Abort,
    records: &Records,
    (when, procedure, data, rank): (LinkKind, u64, Option<usize>, u8),
) -> Cleanup {
    Cleanup {
        when,
        procedure,
        client_data: address_of(rt, records, data),
        rank,
    }
}

/// Adds a cleanup to a record.
fn attach(rt: &impl Abort, records: &mut Records, record: usize, cleanup: Cleanup) {
    let id = id_of(rt, records, record);
    if records.runtime.heap().contains(id) {
        records
            .runtime
            .add_cleanup(id, cleanup)
            .expect(rt, "a cleanup");
        push(rt, &mut records.furnished, id);
    }
}

/// Keeps all that was given a finalizer or a cleanup and still exists.
fn close(rt: &impl Abort, records: &mut Records) {
    for id in records.furnished.iter().copied() {
        if records.runtime.heap().contains(id) {
            records.runtime.add_root(id).expect(rt, "memory");
        }
    }
}

/// Takes the next entry.
fn take(rt: &impl Abort, records: &mut Records) -> Entry {
    let entry = records.runtime.take().expect(rt, "an entry");
    push(rt, &mut records.taken, entry);
    entry
}

/// Takes the next entry, which has this procedure, number and record.
fn take_this(
    rt: &impl Abort,
    records: &mut Records,
    (procedure, number, record): (u64, u64, Option<usize>),
) {
    let entry = take(rt, records);
    let object = address_of(rt, records, record);
    let found = (entry.proc, entry.reg, entry.obj);
    must_be(rt, found, (procedure, number, object), "the entry");
}

/// Finishes the entry that was taken last.
fn finish(rt: &impl Abort, records: &mut Records) {
    let entry = records.taken.pop().expect(rt, "an entry");
    records.runtime.finish(&entry).expect(rt, "an end");
}

/// Carries out a step.
fn carry_out(rt: &impl Abort, records: &mut Records, step: Step) {
    match step {
        Step::Make => make(rt, records),
        Step::Refer(record, to) => {
            let (id, target) = (id_of(rt, records, record), id_of(rt, records, to));
            records.runtime.set(id, 0, Reference(target));
        }
        Step::Register(record, procedure) => register(rt, records, record, procedure),
        Step::Attach(record, when, procedure, data, rank) => {
            let cleanup = cleanup_of(rt, records, (when, procedure, data, rank));
            attach(rt, records, record, cleanup);
        }
        Step::Cancel(number, was) => {
            let cancelled = records.runtime.cancel(number).is_some();
            must_be(rt, cancelled, was, "whether it was cancelled");
        }
        Step::Root(record) => {
            let id = id_of(rt, records, record);
            records.runtime.add_root(id).expect(rt, "memory");
        }
        Step::Unroot => {
            let _ = records.runtime.pop_root();
        }
        Step::Close => close(rt, records),
        Step::Collect(picked) => {
            must_be(rt, records.runtime.collect().picked, picked, "picked");
        }
        Step::Take(procedure, number, record) => {
            take_this(rt, records, (procedure, number, record));
        }
        Step::Finish => finish(rt, records),
        Step::Exists(record, exists) => {
            let id = id_of(rt, records, record);
            let found = records.runtime.heap().contains(id);
            must_be(rt, found, exists, "whether it exists");
        }
    }
}

/// An object has two cleanups, and is reclaimed in their pass. A new object at its address has none.
const TWO_OF_ONE_OBJECT: [Step; 13] = [
    Step::Make,
    Step::Attach(0, Long, 1, None, 0),
    Step::Attach(0, Long, 2, None, 0),
    Step::Collect(2),
    Step::Exists(0, false),
    Step::Take(1, 0, None),
    Step::Finish,
    Step::Take(2, 1, None),
    Step::Finish,
    Step::Make,
    Step::Collect(0),
    Step::Exists(1, false),
    Step::Cancel(0, false),
];

/// A short one comes before the finalizer, and a long one once the object is gone.
const SHORT_BEFORE_AND_LONG_AFTER_A_FINALIZER: [Step; 15] = [
    Step::Make,
    Step::Register(0, 7),
    Step::Attach(0, Short, 1, None, 0),
    Step::Attach(0, Long, 2, None, 0),
    Step::Collect(2),
    Step::Exists(0, true),
    Step::Take(1, 1, None),
    Step::Finish,
    Step::Take(7, 0, Some(0)),
    Step::Collect(0),
    Step::Finish,
    Step::Exists(0, true),
    Step::Collect(1),
    Step::Exists(0, false),
    Step::Take(2, 2, None),
];

/// Client data that leads to the object retains it, until the cleanup is cancelled.
const DATA_LEADS_TO_THE_OBJECT: [Step; 12] = [
    Step::Make,
    Step::Make,
    Step::Refer(1, 0),
    Step::Attach(0, Long, 1, Some(1), 0),
    Step::Collect(0),
    Step::Collect(0),
    Step::Exists(0, true),
    Step::Cancel(0, true),
    Step::Cancel(0, false),
    Step::Collect(0),
    Step::Exists(0, false),
    Step::Exists(1, false),
];

/// A finalizer brings the object back: the short one came, and the long one comes at last.
const BROUGHT_BACK: [Step; 16] = [
    Step::Make,
    Step::Register(0, 7),
    Step::Attach(0, Long, 2, None, 0),
    Step::Attach(0, Short, 1, None, 0),
    Step::Collect(2),
    Step::Take(1, 2, None),
    Step::Finish,
    Step::Take(7, 0, Some(0)),
    Step::Root(0),
    Step::Finish,
    Step::Collect(0),
    Step::Exists(0, true),
    Step::Unroot,
    Step::Collect(1),
    Step::Exists(0, false),
    Step::Take(2, 1, None),
];

/// Once the program has ended, nothing is queued, and no record that has a finalizer or a cleanup is reclaimed, so none is made at its address.
const CLOSED: [Step; 15] = [
    Step::Make,
    Step::Make,
    Step::Make,
    Step::Attach(0, Short, 1, None, 0),
    Step::Attach(1, Long, 2, None, 0),
    Step::Register(2, 7),
    Step::Make,
    Step::Close,
    Step::Collect(0),
    Step::Exists(0, true),
    Step::Exists(1, true),
    Step::Exists(2, true),
    Step::Exists(3, false),
    Step::Collect(0),
    Step::Cancel(0, true),
];

/// The order is by rank, then number, whichever the objects.
const NUMBERS_AND_RANKS: [Step; 12] = [
    Step::Make,
    Step::Make,
    Step::Attach(1, Long, 1, None, 0),
    Step::Attach(0, Long, 2, None, 0),
    Step::Attach(0, Long, 4, None, 9),
    Step::Attach(1, Long, 3, None, 0),
    Step::Collect(4),
    Step::Take(1, 0, None),
    Step::Take(2, 1, None),
    Step::Take(3, 3, None),
    Step::Take(4, 2, None),
    Step::Exists(1, false),
];

/// The worked rows.
const ROWS: [&[Step]; 6] = [
    &TWO_OF_ONE_OBJECT,
    &SHORT_BEFORE_AND_LONG_AFTER_A_FINALIZER,
    &DATA_LEADS_TO_THE_OBJECT,
    &BROUGHT_BACK,
    &CLOSED,
    &NUMBERS_AND_RANKS,
];

/// The steps of a row are carried out in a new heap.
fn carry_out_row(rt: &impl Abort, alloc: Global, steps: &[Step]) {
    let mut records = heap_of(rt, alloc);
    for step in steps {
        carry_out(rt, &mut records, *step);
    }
}

fn carry_out_all(rt: &impl Abort, alloc: Global, rows: &[&[Step]]) {
    for steps in rows {
        carry_out_row(rt, alloc, steps);
    }
}

#[test]
fn cleanups_of_worked_rows(rt: HostRuntime) {
    carry_out_all(&rt, rt.alloc(), &ROWS);
}
