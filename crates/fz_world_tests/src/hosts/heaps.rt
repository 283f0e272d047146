//! Calls of a heap of records, with what they have to answer. Each is a function of its own without clauses: the proof of a test that makes many calls knows
//! nothing of what the contracts of the calls say, and is short.

use crate::equal::must_be;
use fz_finalizers::{Entry, Finalizer, LinkKind};
use fz_model::Addr;
use own_heap::{FIELDS, Field, RecordId, Runtime};
use std::alloc::Global;
use std::process::Abort;

/// A heap with room for as many records.
pub(crate) fn heap_with(rt: &impl Abort, alloc: Global, size: u32) -> Runtime {
    Runtime::new(alloc, size).expect(rt, "a runtime")
}

/// A new record.
pub(crate) fn made(rt: &impl Abort, runtime: &mut Runtime, fields: [Field; FIELDS]) -> RecordId {
    runtime.make(fields).expect(rt, "a record")
}

/// Writes a field of a record.
pub(crate) fn write(runtime: &mut Runtime, id: RecordId, field: usize, value: Field) {
    runtime.set(id, field % FIELDS, value);
}

/// Makes a record a root.
pub(crate) fn add_root(rt: &impl Abort, runtime: &mut Runtime, id: RecordId) {
    runtime.add_root(id).expect(rt, "a root");
}

/// Removes the last root, which is a record.
pub(crate) fn remove_root(rt: &impl Abort, runtime: &mut Runtime, id: RecordId) {
    must_be(rt, runtime.pop_root(), Some(id), "the root");
}

/// Registers an existing record.
pub(crate) fn register(rt: &impl Abort, runtime: &mut Runtime, id: RecordId, finalizer: Finalizer) {
    if runtime.heap().contains(id) {
        runtime.register(id, finalizer).expect(rt, "a finalizer");
    }
}

/// Makes a word a link to an existing record.
pub(crate) fn link(
    rt: &impl Abort,
    runtime: &mut Runtime,
    kind: LinkKind,
    word: Addr,
    target: RecordId,
) {
    if runtime.heap().contains(target) {
        runtime.link(kind, word, target).expect(rt, "a link");
    }
}

/// The record at which a word is a link has to have this address.
pub(crate) fn leads_to(
    rt: &impl Abort,
    runtime: &Runtime,
    (kind, word): (LinkKind, Addr),
    want: Option<Addr>,
    what: &str,
) {
    must_be(rt, runtime.target(kind, word), want, what);
}

/// A collection has to queue as many entries.
pub(crate) fn picks(rt: &impl Abort, runtime: &mut Runtime, want: u64, what: &str) {
    must_be(rt, runtime.collect().picked, want, what);
}

/// A record has to exist, or not.
pub(crate) fn exists(rt: &impl Abort, runtime: &Runtime, id: RecordId, want: bool, what: &str) {
    must_be(rt, runtime.heap().contains(id), want, what);
}

/// The fields of a record, if it exists.
pub(crate) fn fields(runtime: &Runtime, id: RecordId) -> Option<[Field; FIELDS]> {
    Some(runtime.heap().get(id)?.fields)
}

/// The next entry, which stays held.
pub(crate) fn taken(rt: &impl Abort, runtime: &mut Runtime) -> Entry {
    runtime.take().expect(rt, "an entry")
}

/// Finishes an entry.
pub(crate) fn finish(rt: &impl Abort, runtime: &mut Runtime, entry: &Entry) {
    runtime.finish(entry).expect(rt, "the end");
}
