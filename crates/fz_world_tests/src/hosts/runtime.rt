//! What collections of a heap with finalizers leave.

use crate::equal::must_be;
use crate::hosts::heaps::{
    add_root, exists, fields, finish, heap_with, leads_to, link, made, picks, register,
    remove_root, taken, write,
};
use fz_finalizers::{Entry, Finalizer, Kind, LinkKind};
use own_heap::Field::{Hidden, Nothing, Number, Reference};
use own_heap::{OUTSIDE, RecordId, Runtime};
use std::process::Abort;
use std::test::*;

/// A finalizer of the kind `Normal`, without client data.
fn normal(procedure: u64) -> Finalizer {
    Finalizer {
        kind: Kind::Normal,
        procedure,
        client_data: 0,
        rank: 0,
    }
}

/// Three records, each of which but the leaf refers to the one before. The stem is registered, and the root hides it, too, by a link.
#[derive(Clone, Copy)]
struct Plant {
    leaf: RecordId,
    stem: RecordId,
    root: RecordId,
}

fn planted(rt: &impl Abort, runtime: &mut Runtime) -> Plant {
    let leaf = made(rt, runtime, [Number(7), Nothing, Nothing, Nothing]);
    let stem = made(rt, runtime, [Reference(leaf), Nothing, Nothing, Nothing]);
    let words = [Reference(stem), Hidden(stem), Number(9), Nothing];
    let root = made(rt, runtime, words);
    add_root(rt, runtime, root);
    register(rt, runtime, stem, normal(1));
    link(rt, runtime, LinkKind::Short, root.word(1), stem);
    picks(rt, runtime, 0, "all is reachable");
    Plant { leaf, stem, root }
}

/// The root lets go of the stem, whose entry is taken.
fn stem_is_picked(rt: &impl Abort, runtime: &mut Runtime, plant: Plant) -> Entry {
    write(runtime, plant.root, 0, Nothing);
    picks(rt, runtime, 1, "the stem is picked");
    must_be(
        rt,
        fields(runtime, plant.root),
        Some([Nothing, Nothing, Number(9), Nothing]),
        "the link is cleared, and the number stays",
    );
    let entry = taken(rt, runtime);
    let want = (plant.stem.address(), 1);
    must_be(rt, (entry.obj, entry.proc), want, "the stem's");
    entry
}

#[test]
fn the_record_of_a_taken_entry_stays_until_it_is_finished(rt: HostRuntime) {
    let mut runtime = heap_with(&rt, rt.alloc(), 8);
    let plant = planted(&rt, &mut runtime);
    let entry = stem_is_picked(&rt, &mut runtime, plant);
    picks(&rt, &mut runtime, 0, "once");
    exists(&rt, &runtime, plant.stem, true, "the stem exists");
    exists(&rt, &runtime, plant.leaf, true, "the leaf exists");

    finish(&rt, &mut runtime, &entry);
    picks(&rt, &mut runtime, 0, "nothing is left");
    exists(&rt, &runtime, plant.stem, false, "the stem is gone");
    exists(&rt, &runtime, plant.leaf, false, "the leaf is gone");
}

/// The link of each kind at a word outside of the heap has to lead to this address.
fn outside_leads_to(rt: &impl Abort, runtime: &Runtime, want: Option<u64>, what: &str) {
    for kind in [LinkKind::Short, LinkKind::Long].iter() {
        leads_to(rt, runtime, (*kind, OUTSIDE), want, what);
    }
}

#[test]
fn a_link_outside_of_the_heap_lives_as_long_as_its_record(rt: HostRuntime) {
    let mut runtime = heap_with(&rt, rt.alloc(), 8);
    let leaf = made(&rt, &mut runtime, [Number(7), Nothing, Nothing, Nothing]);
    add_root(&rt, &mut runtime, leaf);
    for kind in [LinkKind::Short, LinkKind::Long].iter() {
        link(&rt, &mut runtime, *kind, OUTSIDE, leaf);
    }
    picks(&rt, &mut runtime, 0, "a link isn't queued");
    picks(&rt, &mut runtime, 0, "a link isn't queued");
    outside_leads_to(&rt, &runtime, Some(leaf.address()), "it stays");
    remove_root(&rt, &mut runtime, leaf);
    picks(&rt, &mut runtime, 0, "a link isn't queued");
    outside_leads_to(&rt, &runtime, None, "it goes, too");
}
