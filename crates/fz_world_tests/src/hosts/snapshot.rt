//! Copies of heaps: which words are listed and which are refused, and what is told by a copy.

use crate::equal::must_be;
use fz_finalizers::{Finalizer, Finalizers, Kind, LinkKind};
use fz_model::Addr;
use fz_why::{Listed, Reason, RootOf, Snapshot, stuck_of, why_of};
use std::alloc::Global;
use std::process::Abort;
use std::test::*;

/// The largest number, which no word has.
const LAST: Addr = 0xFFFF_FFFF_FFFF_FFFF;

/// What is listed, and whether it is.
#[derive(Clone, Copy)]
enum Step {
    /// An object, with the value and the link of its first word.
    Object(Addr, u64, Option<Addr>, bool),
    /// A further word, with its value and its link.
    Word(Addr, u64, Option<Addr>, bool),
    /// The object that has a word, and whether this is an object.
    Holder(Addr, Option<Addr>, bool),
}

/// A word that isn't an ephemeron's.
fn listed(value: u64, link: Option<Addr>) -> Listed {
    Listed {
        value,
        link,
        is_ephemeron: false,
    }
}

/// Carries out a step.
fn carry_out(rt: &impl Abort, snapshot: &mut Snapshot, step: Step) {
    match step {
        Step::Object(object, value, link, want) => {
            let answer = snapshot.object(object, listed(value, link));
            must_be(rt, answer.expect(rt, "memory"), want, "an object");
        }
        Step::Word(word, value, link, want) => {
            let answer = snapshot.word(word, listed(value, link));
            must_be(rt, answer.expect(rt, "memory"), want, "a word");
        }
        Step::Holder(word, holder, is_object) => {
            must_be(rt, snapshot.holder(word), holder, "its object");
            must_be(rt, snapshot.contains(word), is_object, "an object");
        }
    }
}

/// A copy, by steps.
fn copy_of(rt: &impl Abort, alloc: Global, steps: &[Step]) -> Snapshot {
    let mut snapshot = Snapshot::new(alloc);
    for step in steps {
        carry_out(rt, &mut snapshot, *step);
    }
    snapshot
}

const NUMBERS_OF_NO_WORD: [Step; 6] = [
    Step::Object(0, 0, None, false),
    Step::Object(LAST, 0, None, false),
    Step::Object(0xFFFF_FFFF_FFFF_FFFE, 0, None, true),
    Step::Word(LAST, 0, None, false),
    Step::Word(0, 0, None, false),
    Step::Word(1, 0, None, false),
];

/// An object lies where a word of another does, or begins there; and a word has none right before it.
const OVERLAPS: [Step; 13] = [
    Step::Object(16, 0, None, true),
    Step::Object(16, 0, None, false),
    Step::Word(16, 0, None, false),
    Step::Word(17, 0, None, true),
    Step::Word(17, 5, None, false),
    Step::Object(17, 0, None, false),
    Step::Word(19, 0, None, false),
    Step::Object(18, 0, None, true),
    Step::Word(18, 0, None, false),
    Step::Word(19, 0, None, true),
    Step::Holder(17, Some(16), false),
    Step::Holder(19, Some(18), false),
    Step::Holder(20, None, false),
];

/// Two words have one link.
const LINKS: [Step; 6] = [
    Step::Object(16, 0, Some(5), true),
    Step::Word(17, 0, Some(5), false),
    Step::Object(32, 0, Some(5), false),
    Step::Word(17, 0, Some(0), true),
    Step::Holder(32, None, false),
    Step::Holder(16, Some(16), true),
];

#[test]
fn words_are_listed_once(rt: HostRuntime) {
    let _ = copy_of(&rt, rt.alloc(), &NUMBERS_OF_NO_WORD);
    let _ = copy_of(&rt, rt.alloc(), &OVERLAPS);
    let _ = copy_of(&rt, rt.alloc(), &LINKS);
}

/// Two objects of two words: 16 points to 32 with its second word, which is a link's, and 32 into the middle of 16, and behind itself, where nothing is.
const TWO: [Step; 4] = [
    Step::Object(16, 0, None, true),
    Step::Word(17, 32, Some(99), true),
    Step::Object(32, 34, None, true),
    Step::Word(33, 17, None, true),
];

/// Registers an object.
fn register(rt: &impl Abort, finalizers: &mut Finalizers, object: Addr, kind: Kind) {
    let finalizer = Finalizer {
        kind,
        procedure: 1,
        client_data: 0,
        rank: 0,
    };
    finalizers.register(object, finalizer).expect(rt, "memory");
}

/// What is told of an object, as a number, and its path. None: the copy lacks an object.
fn told(
    rt: &impl Abort,
    alloc: Global,
    finalizers: &Finalizers,
    snapshot: &Snapshot,
    object: Addr,
) -> Option<(u8, Vec<Addr>)> {
    let reason = why_of(alloc, finalizers, snapshot, object).expect(rt, "memory")?;
    match reason {
        Reason::Unregistered => Some((0, Vec::new(alloc))),
        Reason::Queued(_) => Some((1, Vec::new(alloc))),
        Reason::Found(root, path) => {
            must_be(rt, root, RootOf::Host(1), "the second root");
            Some((2, path))
        }
        Reason::Waits(path) => Some((3, path)),
        Reason::Ring(path) => Some((4, path)),
        Reason::Ready => Some((5, Vec::new(alloc))),
    }
}

/// Checks what is told of an object, and its path.
fn must_tell(
    rt: &impl Abort,
    alloc: Global,
    finalizers: &Finalizers,
    snapshot: &Snapshot,
    object: Addr,
    want: u8,
    path: &[Addr],
) {
    let (reason, found) = told(rt, alloc, finalizers, snapshot, object).expect(rt, "an answer");
    must_be(rt, reason, want, "the reason");
    must_be(rt, found.as_slice() == path, true, "its path");
}

/// Checks what waits for a ring.
fn must_be_stuck(
    rt: &impl Abort,
    alloc: Global,
    finalizers: &Finalizers,
    snapshot: &Snapshot,
    want: &[Addr],
) {
    let listed = stuck_of(alloc, finalizers, snapshot).expect(rt, "memory");
    let found = listed.expect(rt, "an answer");
    must_be(rt, found.as_slice() == want, true, "what waits for a ring");
}

#[test]
fn a_copy_explains_rings(rt: HostRuntime) {
    let alloc = rt.alloc();
    let mut finalizers = Finalizers::new(alloc).expect(&rt, "memory");
    let mut snapshot = copy_of(&rt, alloc, &TWO);
    must_tell(&rt, alloc, &finalizers, &snapshot, 16, 0, &[]);
    register(&rt, &mut finalizers, 16, Kind::Normal);
    must_tell(&rt, alloc, &finalizers, &snapshot, 16, 4, &[16, 32, 16]);
    must_be_stuck(&rt, alloc, &finalizers, &snapshot, &[16]);
    register(&rt, &mut finalizers, 32, Kind::NoOrder);
    must_tell(&rt, alloc, &finalizers, &snapshot, 32, 3, &[16, 32]);
    must_be_stuck(&rt, alloc, &finalizers, &snapshot, &[16, 32]);
    // A link that denotes the word cuts the ring, and one of another number doesn't.
    let _ = finalizers
        .link(LinkKind::Short, 17, 16)
        .expect(&rt, "memory");
    must_be_stuck(&rt, alloc, &finalizers, &snapshot, &[16, 32]);
    let _ = finalizers
        .link(LinkKind::Short, 99, 16)
        .expect(&rt, "memory");
    must_tell(&rt, alloc, &finalizers, &snapshot, 16, 5, &[]);
    must_be_stuck(&rt, alloc, &finalizers, &snapshot, &[]);
    // A root that points to nothing, and one that points into an object.
    snapshot.add_root(20).expect(&rt, "memory");
    snapshot.add_root(33).expect(&rt, "memory");
    must_tell(&rt, alloc, &finalizers, &snapshot, 16, 2, &[32, 16]);
    must_be_stuck(&rt, alloc, &finalizers, &snapshot, &[]);
}

/// 16 has an ephemeron at its word 17, of the key 32 and with the value 48, which points to its key.
#[test]
fn a_copy_has_values_of_ephemerons(rt: HostRuntime) {
    let alloc = rt.alloc();
    let mut finalizers = Finalizers::new(alloc).expect(&rt, "memory");
    let mut snapshot = copy_of(&rt, alloc, &[Step::Object(16, 0, None, true)]);
    let word = Listed {
        value: 48,
        link: Some(99),
        is_ephemeron: true,
    };
    let done = snapshot.word(17, word).expect(&rt, "memory");
    must_be(&rt, done, true, "a word");
    carry_out(&rt, &mut snapshot, Step::Object(32, 0, None, true));
    carry_out(&rt, &mut snapshot, Step::Object(48, 32, None, true));
    snapshot.add_root(20).expect(&rt, "memory");
    snapshot.add_root(16).expect(&rt, "memory");
    register(&rt, &mut finalizers, 48, Kind::Normal);
    must_tell(&rt, alloc, &finalizers, &snapshot, 48, 5, &[]);
    let _ = finalizers
        .ephemeron(LinkKind::Long, 99, 32)
        .expect(&rt, "memory");
    must_tell(&rt, alloc, &finalizers, &snapshot, 48, 4, &[48, 32, 48]);
    must_be_stuck(&rt, alloc, &finalizers, &snapshot, &[48]);
    // A short link at the word cuts the ring, and so does a short ephemeron.
    let _ = finalizers
        .link(LinkKind::Short, 99, 32)
        .expect(&rt, "memory");
    must_tell(&rt, alloc, &finalizers, &snapshot, 48, 5, &[]);
    let _ = finalizers.unlink(LinkKind::Short, 99);
    let _ = finalizers
        .ephemeron(LinkKind::Short, 99, 32)
        .expect(&rt, "memory");
    must_tell(&rt, alloc, &finalizers, &snapshot, 48, 5, &[]);
    let _ = finalizers
        .ephemeron(LinkKind::Short, 99, 16)
        .expect(&rt, "memory");
    must_tell(&rt, alloc, &finalizers, &snapshot, 48, 2, &[16, 48]);
    let _ = finalizers
        .ephemeron(LinkKind::Short, 98, 64)
        .expect(&rt, "memory");
    let answer = told(&rt, alloc, &finalizers, &snapshot, 48);
    must_be(&rt, answer.is_none(), true, "64 is no object");
}

/// A registered object, or the target of a short link, is an object of no word that was listed.
#[test]
fn a_copy_that_lacks_an_object_explains_nothing(rt: HostRuntime) {
    let alloc = rt.alloc();
    let snapshot = copy_of(&rt, alloc, &TWO);
    let mut finalizers = Finalizers::new(alloc).expect(&rt, "memory");
    must_tell(&rt, alloc, &finalizers, &snapshot, 48, 0, &[]);
    register(&rt, &mut finalizers, 17, Kind::Normal);
    let answer = told(&rt, alloc, &finalizers, &snapshot, 16);
    must_be(&rt, answer.is_none(), true, "17 is no object");
    let _ = finalizers.unregister(17);
    let _ = finalizers
        .link(LinkKind::Long, 99, 48)
        .expect(&rt, "memory");
    must_tell(&rt, alloc, &finalizers, &snapshot, 16, 0, &[]);
    let _ = finalizers
        .link(LinkKind::Short, 99, 48)
        .expect(&rt, "memory");
    let answer = told(&rt, alloc, &finalizers, &snapshot, 16);
    must_be(&rt, answer.is_none(), true, "48 is no object");
    let listed = stuck_of(alloc, &finalizers, &snapshot).expect(&rt, "memory");
    must_be(&rt, listed.is_none(), true, "nor is anything listed");
}
