//! Finalizers that ask about regions of objects and of words: which regions a question has, and in which order. `c/tests/graphs.c` and
//! `c/tests/finalizers_fuzz.c` compare what their passes do with plain readings.

use crate::equal::must_be;
use fz_finalizers::{Addr, Finalizer, Kind, LinkKind, Passed};
use fz_machine::{Ask, BATCH, By, Machine, Next, Step};
use std::alloc::Global;
use std::process::Abort;
use std::test::*;

/// The word of a link, in no object.
const WORD: u64 = 1 << 40;

/// A finalizer of kind normal.
const NORMAL: Finalizer = Finalizer {
    kind: Kind::Normal,
    procedure: 1,
    client_data: 0,
    rank: 0,
};

/// A pass asks about regions of objects and of words.
const BY: By = By {
    marks: true,
    live: true,
};

/// A machine with regions and these objects, whose pass has just begun.
fn begun(rt: &impl Abort, alloc: Global, objects: &[Addr]) -> Machine {
    let mut machine = Machine::with_regions(alloc, BY).expect(rt, "memory");
    for object in objects {
        machine.register(*object, NORMAL).expect(rt, "memory");
    }
    machine.begin().expect(rt, "no other pass");
    machine
}

/// The next step is a question about `count` regions, of which the first begins at `first`.
fn must_ask(rt: &impl Abort, step: Step, about: &[Addr; BATCH], count: usize, first: Addr) {
    let marks = Step::Asks {
        ask: Ask::Marks,
        count,
    };
    must_be(rt, step, marks, "a question about regions");
    must_be(rt, about[0], first, "the first region comes first");
}

#[test]
fn a_question_is_repeated_until_words_answer_it(rt: HostRuntime) {
    let mut machine = begun(&rt, rt.alloc(), &[4_096, 8_192 + 32]);
    let mut about = [0; BATCH];
    for answers in [0, u64::MAX].iter() {
        let step = machine.next_bits(*answers, &mut about).expect(&rt, "open");
        must_ask(&rt, step, &about, 2, 4_096);
    }
    let step = machine.next(&[false; BATCH]).expect(&rt, "open");
    must_be(&rt, matches!(step, Next::Asks(_)), true, "it is repeated");
    let mut marks = [0; BATCH];
    marks[0] = 1;
    let step = machine.next_marks(&marks, &mut about).expect(&rt, "open");
    let children = Step::Asks {
        ask: Ask::MarkChildren,
        count: 1,
    };
    must_be(&rt, step, children, "one object isn't marked");
    must_be(&rt, about[0], 8_192 + 32, "the other is");
    let again = machine.next_marks(&[0; BATCH], &mut about);
    must_be(&rt, again.expect(&rt, "open"), children, "it is repeated");
}

#[test]
fn a_region_without_registrations_goes(rt: HostRuntime) {
    let mut machine = Machine::with_regions(rt.alloc(), BY).expect(&rt, "memory");
    let mut about = [0; BATCH];
    for object in [1_024, 2_048, 2_048 + 16, 3_072].iter() {
        machine.register(*object, NORMAL).expect(&rt, "memory");
    }
    for object in [3_072, 2_048 + 16].iter() {
        machine.unregister(*object).expect(&rt, "no pass");
    }
    machine.begin().expect(&rt, "no other pass");
    let step = machine.next_bits(0, &mut about).expect(&rt, "open");
    must_ask(&rt, step, &about, 3, 1_024);
    // The others are marked; at these places there is none.
    let step = machine.next_marks(&[1; BATCH], &mut about);
    must_be(&rt, matches!(step, Ok(Step::Ended(_))), true, "it ends");
    machine.begin().expect(&rt, "no other pass");
    let step = machine.next_bits(0, &mut about).expect(&rt, "open");
    must_ask(&rt, step, &about, 2, 1_024);
    machine.abandon().expect(&rt, "open");
    for object in [1_024, 2_048].iter() {
        machine.unregister(*object).expect(&rt, "no pass");
    }
    machine.shrink().expect(&rt, "no pass");
    machine.begin().expect(&rt, "no other pass");
    let ended = machine.next_bits(0, &mut about).expect(&rt, "open");
    let nothing = Passed { pass: 3, picked: 0 };
    must_be(&rt, ended, Step::Ended(nothing), "nothing is asked");
    machine.register(2_048 + 16, NORMAL).expect(&rt, "memory");
    machine.begin().expect(&rt, "no other pass");
    let step = machine.next_bits(0, &mut about).expect(&rt, "open");
    must_ask(&rt, step, &about, 1, 2_048);
}

#[test]
fn links_and_cleanups_ask_about_regions(rt: HostRuntime) {
    let mut machine = Machine::with_regions(rt.alloc(), BY).expect(&rt, "memory");
    let mut about = [0; BATCH];
    machine
        .link(LinkKind::Short, WORD, 1_024)
        .expect(&rt, "memory");
    machine.begin().expect(&rt, "no other pass");
    let step = machine.next_bits(0, &mut about).expect(&rt, "open");
    must_ask(&rt, step, &about, 1, 1_024);
    let step = machine.next_marks(&[1; BATCH], &mut about);
    let live = Step::Asks {
        ask: Ask::Live,
        count: 1,
    };
    must_be(
        &rt,
        step.expect(&rt, "open"),
        live,
        "its word is asked about",
    );
    must_be(&rt, about[0], WORD, "by its region");
    let step = machine.next_marks(&[0; BATCH], &mut about);
    must_be(&rt, matches!(step, Ok(Step::Ended(_))), true, "it ends");
    let links = machine.finalizers().links(LinkKind::Short);
    must_be(&rt, links, 0, "the link is removed");
}

#[test]
fn a_question_has_at_most_64_regions(rt: HostRuntime) {
    let mut objects = [0; 100];
    for (index, object) in objects.iter_mut().enumerate() {
        *object = (index as u64)
            .saturating_add(1)
            .saturating_mul(1_024)
            .saturating_add(7);
    }
    let mut machine = begun(&rt, rt.alloc(), &objects);
    let mut about = [0; BATCH];
    let step = machine.next_bits(0, &mut about).expect(&rt, "open");
    must_ask(&rt, step, &about, 64, 1_031);
    let step = machine.next_marks(&[1; BATCH], &mut about);
    must_ask(&rt, step.expect(&rt, "open"), &about, 36, 66_567);
    let ended = machine.next_marks(&[1; BATCH], &mut about);
    let nothing = Passed { pass: 1, picked: 0 };
    must_be(
        &rt,
        ended.expect(&rt, "open"),
        Step::Ended(nothing),
        "all are marked",
    );
}
