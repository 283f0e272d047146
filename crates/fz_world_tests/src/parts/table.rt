//! What no clause states: that calls succeed, and what they return after a failed allocation.

use crate::equal::must_be;
use fz_model::{Addr, Finalizer, HEAP_START, Old, Refusal, RegKind, TABLE_LIMIT};
use fz_table::Table;
use std::process::Abort;

/// A call and the expected result.
#[derive(Clone, Copy)]
enum Step {
    /// Reserves room for this many registrations.
    Reserve(usize),
    Register(Addr, Finalizer, Result<(u64, Option<Old>), Refusal>),
    Remove(Addr, Option<Old>),
    /// How many objects are registered, and whether there is one.
    Len(usize),
}

use Step::{Len, Register, Remove, Reserve};

/// Whether a step returns the expected result.
fn is_right(table: &mut Table, step: Step) -> bool {
    match step {
        Reserve(more) => table.reserve(more) == Ok(()),
        Register(object, finalizer, want) => table.register(object, finalizer) == want,
        Remove(object, want) => table.remove(object) == want,
        Len(want) => table.len() == want && table.is_empty() == (want == 0),
    }
}

/// The index of the first step that returns another result.
fn first_wrong(table: &mut Table, steps: &[Step]) -> Option<usize> {
    for (place, step) in steps.iter().enumerate() {
        if !is_right(table, *step) {
            return Some(place);
        }
    }
    None
}

/// Each of these steps has to return the expected result.
fn must_run(rt: &impl Abort, table: &mut Table, steps: &[Step]) {
    must_be(rt, first_wrong(table, steps), None, "all steps");
}

fn finalizer(kind: RegKind, procedure: u64, client_data: u64, rank: u8) -> Finalizer {
    Finalizer::new(kind, procedure, client_data, rank)
}

/// An object above all the others.
const FURTHER: Addr = HEAP_START + 2 * TABLE_LIMIT;

#[test]
fn holds_as_many_as_the_limit(rt: HostRuntime) {
    let mut table = Table::new(rt.alloc());
    for number in 0..TABLE_LIMIT {
        let answer = table.register(
            HEAP_START + number,
            Finalizer::new(RegKind::Normal, number, 0, 0),
        );
        must_be(&rt, answer, Ok((number, None)), "one of all objects");
    }
    must_run(
        &rt,
        &mut table,
        &[
            Register(
                FURTHER,
                finalizer(RegKind::Normal, 1, 2, 0),
                Err(Refusal::TableFull),
            ),
            Len(TABLE_LIMIT as usize),
            Register(
                HEAP_START + 1,
                finalizer(RegKind::NoOrder, 3, 4, 0),
                Ok((TABLE_LIMIT, Some(Old { proc: 1, cd: 0 }))),
            ),
            Remove(HEAP_START + 4, Some(Old { proc: 4, cd: 0 })),
            // There is room for one.
            Register(
                FURTHER,
                finalizer(RegKind::Normal, 1, 2, 0),
                Ok((TABLE_LIMIT + 1, None)),
            ),
            Reserve(TABLE_LIMIT as usize),
        ],
    );
}

/// Registers an object under a number, which is how many there are, and again if memory ran out.
fn register_soon(rt: &impl Abort, table: &mut Table, object: Addr, number: u64) {
    let mut answer = table.register(object, Finalizer::new(RegKind::Normal, number, 0, 0));
    if answer == Err(Refusal::NoMemory) {
        must_be(rt, table.len() as u64, number, "as many as before");
        must_be(rt, table.get(object), None, "a refused object");
        if 0 < number {
            let old = table.get(70_000).map(|registration| registration.proc);
            must_be(rt, old, Some(0), "the procedure of the first");
        }
        answer = table.register(object, Finalizer::new(RegKind::Normal, number, 0, 0));
    }
    must_be(rt, answer, Ok((number, None)), "one of 1,000 objects");
}

/// If an allocation fails, the call returns an error and changes nothing, and succeeds when it is repeated.
#[test]
fn survives_a_refused_growth(rt: HostRuntime) {
    let mut table = Table::new(rt.alloc());
    for number in 0..1_000u64 {
        register_soon(&rt, &mut table, 70_000 + number, number);
    }
    must_be(&rt, table.len(), 1_000, "all objects");
}
