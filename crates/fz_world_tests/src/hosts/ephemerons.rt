//! Ephemerons of records: worked rows, and a long chain of ephemeron pairs.

use crate::equal::{at, must_be, push};
use fz_finalizers::{Finalizer, Kind, LinkKind, MoveAnswer, Refused};
use fz_model::LinkKind::{Long, Short};
use own_heap::Field::{Hidden, Nothing, Reference};
use own_heap::{EphemeronPair, FIELDS, Field, OUTSIDE, RecordId, Runtime};
use std::alloc::Global;
use std::process::Abort;
use std::test::*;

/// A step of a row. Records are named by their numbers, in the order in which they were made.
#[derive(Clone, Copy)]
enum Step {
    /// Makes a record, to which a slot of the frame refers.
    Make(usize),
    /// A slot of the frame refers to a record, or to none.
    Slot(usize, Option<usize>),
    /// A field of a record refers to another.
    Refer(usize, usize, usize),
    /// A field of a record hides another.
    Hide(usize, usize, usize),
    /// A field of a record becomes an ephemeron of a key.
    Keyed(LinkKind, usize, usize, usize),
    /// Registers a record with a procedure.
    Register(usize, u64),
    /// A collection, and how many entries it queues.
    Collect(u64),
    /// Takes the next entry, which is of this record and has this procedure, and finishes it.
    Run(usize, u64),
    /// Whether a record exists.
    Exists(usize, bool),
    /// The kind and the key of the ephemeron of a field, if it is one.
    Key(usize, usize, Option<(LinkKind, usize)>),
    /// Which record a field hides, if any.
    Hides(usize, usize, Option<usize>),
}

use Step::{Collect, Exists, Hide, Hides, Key, Keyed, Make, Refer, Register, Run, Slot};

/// How many records the frame consists of.
const FRAMES: usize = 3;

/// A heap, its frame, whose fields are slots, and its records by number.
#[derive(Drop)]
struct Stage {
    runtime: Runtime,
    frame: Vec<RecordId>,
    ids: Vec<RecordId>,
}

/// A heap without other records than the frame, which are its roots.
fn open(rt: &impl Abort, alloc: Global) -> Stage {
    let mut stage = Stage {
        runtime: Runtime::new(alloc, 32).expect(rt, "a runtime"),
        frame: Vec::new(alloc),
        ids: Vec::new(alloc),
    };
    for _ in 0..FRAMES {
        let id = made(rt, &mut stage.runtime, [Nothing; FIELDS]);
        stage.runtime.add_root(id).expect(rt, "a root");
        push(rt, &mut stage.frame, id);
    }
    stage
}

/// A new record.
fn made(rt: &impl Abort, runtime: &mut Runtime, fields: [Field; FIELDS]) -> RecordId {
    runtime.make(fields).expect(rt, "a record")
}

/// The name of a record.
fn id_of(rt: &impl Abort, stage: &Stage, record: usize) -> RecordId {
    at(rt, stage.ids.as_slice(), record)
}

/// A slot of the frame refers to a record, or to none.
fn fill(rt: &impl Abort, stage: &mut Stage, slot: usize, record: Option<usize>) {
    let frame = at(rt, stage.frame.as_slice(), slot / FIELDS);
    let field = match record {
        Some(record) => Reference(id_of(rt, stage, record)),
        None => Nothing,
    };
    stage.runtime.set(frame, slot % FIELDS, field);
}

/// Makes a field of a record an ephemeron of a key.
fn key(
    rt: &impl Abort,
    stage: &mut Stage,
    kind: LinkKind,
    (record, field): (usize, usize),
    of: usize,
) {
    let word = id_of(rt, stage, record).word(field % FIELDS);
    let key = id_of(rt, stage, of);
    if stage.runtime.heap().contains(key) {
        stage
            .runtime
            .ephemeron(kind, word, key)
            .expect(rt, "memory");
    }
}

/// Registers a record.
fn register(rt: &impl Abort, stage: &mut Stage, record: usize, procedure: u64) {
    let finalizer = Finalizer {
        kind: Kind::Normal,
        procedure,
        client_data: 0,
        rank: 0,
    };
    let id = id_of(rt, stage, record);
    if stage.runtime.heap().contains(id) {
        stage.runtime.register(id, finalizer).expect(rt, "memory");
    }
}

/// Takes the next entry and finishes it. It is of this record.
fn run(rt: &impl Abort, stage: &mut Stage, record: usize, procedure: u64) {
    let entry = stage.runtime.take().expect(rt, "an entry");
    let want = (id_of(rt, stage, record).address(), procedure);
    must_be(rt, (entry.obj, entry.proc), want, "the entry");
    stage.runtime.finish(&entry).expect(rt, "an end");
}

/// Which record a field hides, if any.
fn hidden(runtime: &Runtime, id: RecordId, field: usize) -> Option<RecordId> {
    match runtime.heap().get(id)?.fields[field % FIELDS] {
        Hidden(other) => Some(other),
        _ => None,
    }
}

/// Looks at a field of a record: the kind and the key of its ephemeron, and which record it hides.
fn look(rt: &impl Abort, stage: &Stage, step: Step) {
    match step {
        Key(record, field, want) => {
            let word = id_of(rt, stage, record).word(field % FIELDS);
            let want = match want {
                Some((kind, of)) => Some((kind, id_of(rt, stage, of).address())),
                None => None,
            };
            must_be(rt, stage.runtime.key(word), want, "the key");
        }
        Hides(record, field, want) => {
            let found = hidden(&stage.runtime, id_of(rt, stage, record), field);
            let want = match want {
                Some(other) => Some(id_of(rt, stage, other)),
                None => None,
            };
            must_be(rt, found, want, "what it hides");
        }
        _ => (),
    }
}

/// Carries out a step.
fn carry_out(rt: &impl Abort, stage: &mut Stage, step: Step) {
    match step {
        Make(slot) => {
            let id = made(rt, &mut stage.runtime, [Nothing; FIELDS]);
            let record = stage.ids.len();
            push(rt, &mut stage.ids, id);
            fill(rt, stage, slot, Some(record));
        }
        Slot(slot, record) => fill(rt, stage, slot, record),
        Refer(record, field, to) => {
            let (id, to) = (id_of(rt, stage, record), id_of(rt, stage, to));
            stage.runtime.set(id, field % FIELDS, Reference(to));
        }
        Hide(record, field, value) => {
            let (id, value) = (id_of(rt, stage, record), id_of(rt, stage, value));
            stage.runtime.set(id, field % FIELDS, Hidden(value));
        }
        Keyed(kind, record, field, of) => key(rt, stage, kind, (record, field), of),
        Register(record, procedure) => register(rt, stage, record, procedure),
        Collect(picked) => must_be(rt, stage.runtime.collect().picked, picked, "picked"),
        Run(record, procedure) => run(rt, stage, record, procedure),
        Exists(record, exists) => {
            let found = stage.runtime.heap().contains(id_of(rt, stage, record));
            must_be(rt, found, exists, "whether it exists");
        }
        Key(_, _, _) | Hides(_, _, _) => look(rt, stage, step),
    }
}

/// Carries out steps, one after the other.
fn carry_out_all(rt: &impl Abort, stage: &mut Stage, steps: &[Step]) {
    for step in steps {
        carry_out(rt, stage, *step);
    }
}

/// The value of a row leads to its key. Once nothing else does, both go, and the row: a new record at the key's address doesn't bring it back.
const A_VALUE_LEADS_TO_ITS_KEY: [Step; 23] = [
    Make(0),
    Make(1),
    Make(2),
    Refer(2, 0, 1),
    Hide(0, 0, 2),
    Keyed(Short, 0, 0, 1),
    Slot(2, None),
    Collect(0),
    Hides(0, 0, Some(2)),
    Key(0, 0, Some((Short, 1))),
    Exists(2, true),
    Slot(1, None),
    Collect(0),
    Exists(1, false),
    Exists(2, false),
    Hides(0, 0, None),
    Key(0, 0, None),
    Make(1),
    Make(2),
    Hide(0, 0, 4),
    Slot(2, None),
    Collect(0),
    Exists(4, false),
];

/// Each value is the key of the row before it in the table. Each round lets one value through.
const A_CHAIN_AGAINST_THE_ORDER_OF_THE_TABLE: [Step; 21] = [
    Make(0),
    Make(1),
    Make(2),
    Make(3),
    Make(4),
    Hide(0, 0, 4),
    Hide(0, 1, 3),
    Hide(0, 2, 2),
    Keyed(Short, 0, 0, 3),
    Keyed(Short, 0, 1, 2),
    Keyed(Short, 0, 2, 1),
    Slot(2, None),
    Slot(3, None),
    Slot(4, None),
    Collect(0),
    Exists(4, true),
    Slot(1, None),
    Collect(0),
    Exists(1, false),
    Exists(4, false),
    Hides(0, 0, None),
];

/// The record with the row goes, and with it the value, though the key is in use.
const A_LOST_TABLE: [Step; 11] = [
    Make(0),
    Make(1),
    Make(2),
    Hide(0, 0, 2),
    Keyed(Long, 0, 0, 1),
    Slot(0, None),
    Slot(2, None),
    Collect(0),
    Exists(1, true),
    Exists(2, false),
    Key(0, 0, None),
];

/// The short row of a registered key goes before its finalizer, the long one after it. The long value leads to the key, which is queued all the same.
const SHORT_AND_LONG_ROWS_OF_A_REGISTERED_KEY: [Step; 23] = [
    Make(0),
    Make(1),
    Make(2),
    Make(3),
    Hide(0, 0, 2),
    Hide(0, 1, 3),
    Refer(3, 0, 1),
    Keyed(Short, 0, 0, 1),
    Keyed(Long, 0, 1, 1),
    Register(1, 7),
    Slot(1, None),
    Slot(2, None),
    Slot(3, None),
    Collect(1),
    Exists(2, false),
    Hides(0, 0, None),
    Hides(0, 1, Some(3)),
    Key(0, 1, Some((Long, 1))),
    Run(1, 7),
    Collect(0),
    Exists(1, false),
    Exists(3, false),
    Hides(0, 1, None),
];

/// A record waits for another one that leads to it by the value of a row.
const LED_TO_BY_A_ROW: [Step; 18] = [
    Make(0),
    Make(1),
    Make(2),
    Make(3),
    Refer(1, 0, 2),
    Hide(0, 0, 3),
    Keyed(Long, 0, 0, 2),
    Register(1, 1),
    Register(3, 2),
    Slot(1, None),
    Slot(2, None),
    Slot(3, None),
    Collect(1),
    Run(1, 1),
    Collect(1),
    Exists(1, false),
    Exists(2, false),
    Run(3, 2),
];

/// The worked rows.
const ROWS: [&[Step]; 5] = [
    &A_VALUE_LEADS_TO_ITS_KEY,
    &A_CHAIN_AGAINST_THE_ORDER_OF_THE_TABLE,
    &A_LOST_TABLE,
    &SHORT_AND_LONG_ROWS_OF_A_REGISTERED_KEY,
    &LED_TO_BY_A_ROW,
];

/// The steps of each row are carried out in a new heap.
#[test]
fn ephemerons_of_worked_rows(rt: HostRuntime) {
    for steps in ROWS {
        let mut stage = open(&rt, rt.alloc());
        carry_out_all(&rt, &mut stage, steps);
    }
}

/// Two fields of a record are ephemerons of one key.
const TWO_EPHEMERONS_OF_A_KEY: [Step; 4] = [
    Make(0),
    Make(1),
    Keyed(Short, 0, 0, 1),
    Keyed(Long, 0, 1, 1),
];

/// An ephemeron moves with its key, and ends.
#[test]
fn an_ephemeron_moves_and_ends(rt: HostRuntime) {
    let mut stage = open(&rt, rt.alloc());
    carry_out_all(&rt, &mut stage, &TWO_EPHEMERONS_OF_A_KEY);
    let (id, key) = (id_of(&rt, &stage, 0), id_of(&rt, &stage, 1));
    let from = id.word(0);
    let runtime = &mut stage.runtime;
    for (word, to, want, what) in [
        (from, 0, Err(Refused::Zero), "0"),
        (id.word(2), OUTSIDE, Ok(MoveAnswer::NotFound), "none"),
        (from, id.word(1), Ok(MoveAnswer::Duplicate), "the other's"),
        (from, OUTSIDE, Ok(MoveAnswer::Success), "out of the heap"),
    ] {
        must_be(&rt, runtime.move_ephemeron(word, to), want, what);
    }
    must_be(&rt, runtime.key(from), None, "it left");
    let kept = Some((Short, key.address()));
    must_be(&rt, runtime.key(OUTSIDE), kept, "the same key");
    must_be(&rt, runtime.end_ephemeron(OUTSIDE), kept, "it ends");
    must_be(&rt, runtime.end_ephemeron(OUTSIDE), None, "once");
}

/// How many pairs the chain has.
const PAIRS: u64 = 1_000;

/// Makes a pair whose value leads to its key. The pair refers to the last pair, and the key to the last key.
fn pair_up(
    rt: &impl Abort,
    runtime: &mut Runtime,
    pair: Field,
    key: Field,
) -> (EphemeronPair, RecordId) {
    let id = made(rt, runtime, [Nothing, pair, Nothing, Nothing]);
    let key = made(rt, runtime, [key, Nothing, Nothing, Nothing]);
    let value = made(rt, runtime, [Reference(key), Nothing, Nothing, Nothing]);
    let mut pair = None;
    if runtime.heap().contains(key) {
        pair = Some(EphemeronPair::new(runtime, id, key, value).expect(rt, "memory"));
    }
    (pair.expect(rt, "the key is there"), key)
}

/// How many of these pairs have a key, and how many a value.
fn rows(pairs: &[EphemeronPair], runtime: &Runtime) -> (u64, u64) {
    let (mut keys, mut values) = (0_u64, 0_u64);
    for pair in pairs {
        if pair.key(runtime).is_some() {
            keys = keys.saturating_add(1);
        }
        if pair.value(runtime).is_some() {
            values = values.saturating_add(1);
        }
    }
    (keys, values)
}

/// Each value leads to its key. All remain as long as a root leads to the keys, and none after that.
#[test]
fn a_table_whose_values_lead_to_their_keys_shrinks(rt: HostRuntime) {
    let mut runtime = Runtime::new(rt.alloc(), 4_000).expect(&rt, "a runtime");
    let mut pairs = Vec::new(rt.alloc());
    let (mut pair, mut key) = (Nothing, Nothing);
    for _ in 0..PAIRS {
        let (next, next_key) = pair_up(&rt, &mut runtime, pair, key);
        push(&rt, &mut pairs, next);
        pair = Reference(next.id());
        key = Reference(next_key);
    }
    let table = made(&rt, &mut runtime, [pair, Nothing, Nothing, Nothing]);
    let keys = made(&rt, &mut runtime, [key, Nothing, Nothing, Nothing]);
    runtime.add_root(table).expect(&rt, "a root");
    runtime.add_root(keys).expect(&rt, "a root");
    let _ = runtime.collect();
    must_be(&rt, rows(pairs.as_slice(), &runtime), (PAIRS, PAIRS), "all");
    let _ = runtime.pop_root();
    let _ = runtime.collect();
    must_be(&rt, rows(pairs.as_slice(), &runtime), (0, 0), "none");
}
