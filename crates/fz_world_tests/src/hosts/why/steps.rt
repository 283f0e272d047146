//! Steps on a heap of records. Some ask why a record isn't finalized.

use crate::equal::{at, must_be};
use fz_finalizers::{Cleanup, Finalizer, Kind, LinkKind};
use fz_model::Addr;
use fz_why::{Reason, RootOf};
use own_heap::Field::{Hidden, Nothing, Reference};
use own_heap::{FIELDS, OUTSIDE, RecordId, Runtime};
use std::alloc::Global;
use std::process::Abort;

/// A step of a row. Records are named by their numbers.
#[derive(Clone, Copy)]
pub(crate) enum Step {
    /// The field of a record refers to another.
    Refer(usize, usize, usize),
    /// The field of a record hides another.
    Hide(usize, usize, usize),
    /// The field of a record becomes an ephemeron of a key.
    Keyed(LinkKind, usize, usize, usize),
    /// Registers a record of a kind, with another as its client data if it has any.
    Register(usize, Kind, Option<usize>),
    /// Adds a cleanup to a record, with another record as its client data if it has any. Its number is the next one.
    Attach(usize, LinkKind, Option<usize>),
    /// Cancels the cleanup with a number.
    Cancel(u64),
    /// The field of a record is a short link to another.
    Link(usize, usize, usize),
    /// A word outside of the heap is a short link to a record.
    LinkOutside(usize),
    /// Makes a record a root, and removes the last root.
    Root(usize),
    Unroot,
    /// A collection, and how many entries it queues.
    Collect(u64),
    /// Takes and finishes an entry of a record.
    Finish(usize),
    /// Which records wait for a ring.
    Stuck(&'static [usize]),
    /// What is told of a record, and the records on its path.
    Tells(usize, Told, &'static [usize]),
}

/// What is told of a record, without its path.
#[derive(Clone, Copy, Debug, PartialEq, Eq)]
pub(crate) enum Told {
    Unregistered,
    Queued(u64),
    Found(RootOf),
    Ring,
    Waits,
    Ready,
}

/// A heap, and its records by number.
#[derive(Drop)]
pub(crate) struct Records {
    alloc: Global,
    runtime: Runtime,
    ids: Vec<RecordId>,
}

/// A heap with as many records.
pub(crate) fn heap_of(rt: &impl Abort, alloc: Global, count: usize) -> Records {
    let mut made = Records {
        alloc,
        runtime: Runtime::new(alloc, 16).expect(rt, "a runtime"),
        ids: Vec::new(alloc),
    };
    for _ in 0..count.min(16) {
        let id = made.runtime.make([Nothing; FIELDS]).expect(rt, "a record");
        made.ids.push(id).expect(rt, "memory");
    }
    made
}

/// The name of a record.
fn id_of(rt: &impl Abort, records: &Records, record: usize) -> RecordId {
    at(rt, records.ids.as_slice(), record)
}

/// The address of a record, or 0 of none.
fn address_of(rt: &impl Abort, records: &Records, record: Option<usize>) -> Addr {
    match record {
        Some(record) => id_of(rt, records, record).address(),
        None => 0,
    }
}

/// The number of the record with this address.
fn number_of(records: &Records, address: Addr) -> Option<usize> {
    records.ids.iter().position(|id| id.address() == address)
}

/// Registers a record.
fn register(
    rt: &impl Abort,
    records: &mut Records,
    record: usize,
    kind: Kind,
    data: Option<usize>,
) {
    let finalizer = Finalizer {
        kind,
        procedure: record as u64,
        client_data: address_of(rt, records, data),
        rank: 0,
    };
    let id = id_of(rt, records, record);
    if records.runtime.heap().contains(id) {
        records
            .runtime
            .register(id, finalizer)
            .expect(rt, "a finalizer");
    }
}

/// Adds a cleanup to a record.
fn attach(
    rt: &impl Abort,
    records: &mut Records,
    record: usize,
    when: LinkKind,
    data: Option<usize>,
) {
    let cleanup = Cleanup {
        when,
        procedure: record as u64,
        client_data: address_of(rt, records, data),
        rank: 0,
    };
    let id = id_of(rt, records, record);
    if records.runtime.heap().contains(id) {
        records
            .runtime
            .add_cleanup(id, cleanup)
            .expect(rt, "a cleanup");
    }
}

/// Makes a word a short link to a record.
fn link(rt: &impl Abort, records: &mut Records, word: Addr, to: usize) {
    let target = id_of(rt, records, to);
    if records.runtime.heap().contains(target) {
        records
            .runtime
            .link(LinkKind::Short, word, target)
            .expect(rt, "a link");
    }
}

/// Makes a field of a record an ephemeron of a key.
fn keyed(
    rt: &impl Abort,
    records: &mut Records,
    kind: LinkKind,
    record: usize,
    field: usize,
    key: usize,
) {
    let word = id_of(rt, records, record).word(field % FIELDS);
    let id = id_of(rt, records, key);
    if records.runtime.heap().contains(id) {
        records
            .runtime
            .ephemeron(kind, word, id)
            .expect(rt, "an ephemeron");
    }
}

/// Takes and finishes the next entry, which is of a record.
fn finish(rt: &impl Abort, records: &mut Records, record: usize) {
    let entry = records.runtime.take().expect(rt, "an entry");
    must_be(
        rt,
        number_of(records, entry.obj),
        Some(record),
        "its record",
    );
    records.runtime.finish(&entry).expect(rt, "an end");
}

/// Carries out a step.
pub(crate) fn carry_out(rt: &impl Abort, records: &mut Records, step: Step) {
    match step {
        Step::Refer(record, field, to) => {
            let (id, target) = (id_of(rt, records, record), id_of(rt, records, to));
            records.runtime.set(id, field % FIELDS, Reference(target));
        }
        Step::Hide(record, field, to) => {
            let (id, target) = (id_of(rt, records, record), id_of(rt, records, to));
            records.runtime.set(id, field % FIELDS, Hidden(target));
        }
        Step::Keyed(kind, record, field, key) => keyed(rt, records, kind, record, field, key),
        Step::Register(record, kind, data) => register(rt, records, record, kind, data),
        Step::Attach(record, when, data) => attach(rt, records, record, when, data),
        Step::Cancel(number) => {
            let _ = records.runtime.cancel(number).expect(rt, "a cleanup");
        }
        Step::Link(record, field, to) => {
            let word = id_of(rt, records, record).word(field % FIELDS);
            link(rt, records, word, to);
        }
        Step::LinkOutside(to) => link(rt, records, OUTSIDE.saturating_add(to as u64), to),
        Step::Root(record) => {
            let id = id_of(rt, records, record);
            records.runtime.add_root(id).expect(rt, "memory");
        }
        Step::Unroot => {
            let _ = records.runtime.pop_root();
        }
        Step::Collect(picked) => {
            must_be(rt, records.runtime.collect().picked, picked, "picked");
        }
        Step::Finish(record) => finish(rt, records, record),
        Step::Stuck(want) => must_be_stuck(rt, records, want),
        Step::Tells(record, want, path) => must_tell(rt, records, record, want, path),
    }
}

/// What is told of a record, and the numbers of the records on its path.
fn answer_of(rt: &impl Abort, records: &Records, record: usize) -> (Told, Vec<usize>) {
    let alloc = records.alloc;
    let id = id_of(rt, records, record);
    let reason = records.runtime.why(alloc, id).expect(rt, "memory");
    let (told, path) = match reason {
        Reason::Unregistered => (Told::Unregistered, Vec::new(alloc)),
        Reason::Queued(entry) => (Told::Queued(entry.seq), Vec::new(alloc)),
        Reason::Found(root, path) => (Told::Found(root), path),
        Reason::Ring(path) => (Told::Ring, path),
        Reason::Waits(path) => (Told::Waits, path),
        Reason::Ready => (Told::Ready, Vec::new(alloc)),
    };
    let mut numbers = Vec::new(alloc);
    for address in path.iter() {
        let number = number_of(records, *address).expect(rt, "a record");
        numbers.push(number).expect(rt, "memory");
    }
    (told, numbers)
}

/// Checks which records wait for a ring.
fn must_be_stuck(rt: &impl Abort, records: &Records, want: &[usize]) {
    let stuck = records.runtime.stuck(records.alloc).expect(rt, "memory");
    let mut numbers = Vec::new(records.alloc);
    for address in stuck.iter() {
        let number = number_of(records, *address).expect(rt, "a record");
        numbers.push(number).expect(rt, "memory");
    }
    must_be(
        rt,
        numbers.as_slice() == want,
        true,
        "what waits for a ring",
    );
}

/// Checks what is told of a record.
fn must_tell(rt: &impl Abort, records: &Records, record: usize, want: Told, path: &[usize]) {
    let (found, numbers) = answer_of(rt, records, record);
    must_be(rt, found, want, "the answer");
    must_be(rt, numbers.as_slice() == path, true, "its path");
}
