//! The summaries of whole runs.

use super::files::{ALL_ACTORS, MUTATORS_AND_COLLECTOR, ROWS};
use super::wanted::{prints, runs_rows};
use super::{FreeRow, Outcome, joined, run};
use crate::equal::must_be;
use fz_runs::WHOLE;
use std::alloc::AllocError;
use std::process::Abort;
use std::sync::Wait;
use std::test::Fail;
use std::thread::Threads;

#[test]
fn rows_are_summarized(rt: HostRuntime) -> Result<(), Fail> {
    runs_rows(&rt, &ROWS, WHOLE)?;
    Ok(())
}

/// The number between these two parts of the text.
fn number_between(text: &[u8], before: &[u8], after: &[u8]) -> Option<u64> {
    let digits = text.strip_prefix(before)?.strip_suffix(after)?;
    str::from_utf8(digits).ok()?.parse::<u64>().ok()
}

/// Whether the outcome is a possible summary of the row.
fn fits(outcome: &Outcome, row: FreeRow) -> bool {
    match number_between(outcome.text.as_slice(), row.before, row.after) {
        Some(number) => number <= row.most && outcome.result == Ok(()),
        None => false,
    }
}

/// Runs the row's threads file twenty times. Each outcome has to be possible.
fn always_fits<R: AllocGlobal + Abort + Threads + Wait + Sync>(
    rt: &R,
    row: FreeRow,
) -> Result<(), AllocError> {
    for round in 0..20u64 {
        let outcome = run(rt, row.file)?;
        let found = (round, fits(&outcome, row));
        must_be(rt, found, (round, true), "the round, and whether it fits");
    }
    Ok(())
}

#[test]
fn a_collector_runs_beside_mutators(rt: HostRuntime) -> Result<(), Fail> {
    always_fits(&rt, MUTATORS_AND_COLLECTOR)?;
    Ok(())
}

#[test]
fn all_actors_run_side_by_side(rt: HostRuntime) -> Result<(), Fail> {
    always_fits(&rt, ALL_ACTORS)?;
    Ok(())
}

/// Runs a threads file without objects, which makes this number of passes.
fn makes_passes<R: AllocGlobal + Abort + Threads + Wait + Sync>(
    rt: &R,
    collections: u64,
    sections: &str,
    passes: u64,
) -> Result<(), AllocError> {
    let file = format!(in rt.alloc(); "open 4 1 1\nsettle {collections}\n{sections}")?;
    let outcome = run(rt, file.as_str().as_bytes())?;
    let summary = format!(in rt.alloc();
        "enqueued 0\nfinished 0\nforfeited 0\nleft 0\npasses {passes}\nreclaimed 0\nrefused 0\n"
    )?;
    let text = summary.as_str().as_bytes();
    prints(rt, "collections", collections, &outcome, text);
    Ok(())
}

/// A run makes no more passes than the file specifies: its collections, and one if a section left a cycle open.
#[test]
fn each_number_of_collections_is_made(rt: HostRuntime) -> Result<(), Fail> {
    for collections in 0..=10u64 {
        makes_passes(&rt, collections, "", collections)?;
        let one_more = collections.saturating_add(1);
        makes_passes(&rt, collections, "collector\nbegin\n", one_more)?;
        let two_more = collections.saturating_add(2);
        makes_passes(
            &rt,
            collections,
            "collector\ncollect\nbegin\nmark 1\n",
            two_more,
        )?;
    }
    Ok(())
}

/// A mutator's lines before one pass, with how many entries that queues and how many objects it reclaims.
const ONE_PASS: [(&[u8], u64, u64); 12] = [
    // unreachable objects; one of them was overwritten in its slot
    (b"new 0 0 1 scanned\nnew 0 0 1 atomic\nset 0 0 0\n", 0, 2),
    // a word in a frame retains its object, wherever the word came from
    (
        b"new 0 0 2 scanned\nnew 0 1 1 scanned\nstore 0 0 1 0 1\nset 0 1 0\ncopy 0 0 1 0\nset 0 0 0\n",
        0,
        0,
    ),
    (
        b"new 0 0 2 scanned\nnew 0 1 1 scanned\nstore 0 0 1 0 1\nset 0 1 0\nload 0 0 1 1 0\nset 0 0 0\n",
        0,
        1,
    ),
    // registrations: a replaced one counts once, a removed one doesn't
    (
        b"new 0 0 1 scanned\nregister 0 0 normal 0 0\nregister 0 0 normal 1 0 255\nset 0 0 0\n",
        1,
        0,
    ),
    (
        b"new 0 0 1 scanned\nregister 0 0 normal 0 0\nunregister 0 0\nset 0 0 0\n",
        0,
        1,
    ),
    // client data retains the object
    (
        b"new 0 0 1 scanned\nregister 0 0 normal 0 65536\nset 0 0 0\n",
        0,
        0,
    ),
    // an object that points to itself, for each kind
    (
        b"new 0 0 1 scanned\nstore 0 0 0 0 0\nregister 0 0 normal 0 0\nset 0 0 0\n",
        0,
        0,
    ),
    (
        b"new 0 0 1 scanned\nstore 0 0 0 0 0\nregister 0 0 ignore_self 0 0\nset 0 0 0\n",
        1,
        0,
    ),
    (
        b"new 0 0 1 scanned\nstore 0 0 0 0 0\nregister 0 0 no_order 0 0\nset 0 0 0\n",
        1,
        0,
    ),
    // in a chain of two the second object waits
    (
        b"new 0 0 1 scanned\nnew 0 1 1 scanned\nstore 0 0 0 0 1\nregister 0 0 normal 0 0\nregister 0 1 normal 0 0\n\
        set 0 0 0\nset 0 1 0\n",
        1,
        0,
    ),
    // a line that skips nothing and a line that is skipped
    (
        b"\n# new 0 0 1 scanned\nnew 0 0 1 scanned\n\nset 0 0 0",
        0,
        1,
    ),
    (b"mutator\nmutator\nnew 1 0 1 scanned\n", 0, 0),
];

/// Runs a threads file of one pass, which queues and reclaims these numbers. `place` is the file's index in its test.
fn passes_once<R: AllocGlobal + Abort + Threads + Wait + Sync>(
    rt: &R,
    place: usize,
    file: &[u8],
    enqueued: u64,
    reclaimed: u64,
) -> Result<(), AllocError> {
    let outcome = run(rt, file)?;
    let summary = format!(in rt.alloc();
        "enqueued {enqueued}\nfinished {enqueued}\nforfeited 0\nleft 0\npasses 1\nreclaimed {reclaimed}\nrefused 0\n"
    )?;
    let text = summary.as_str().as_bytes();
    prints(rt, "file", place as u64, &outcome, text);
    Ok(())
}

#[test]
fn one_pass_over_what_a_mutator_did(rt: HostRuntime) -> Result<(), Fail> {
    for (place, (steps, enqueued, reclaimed)) in ONE_PASS.iter().enumerate() {
        let file = joined(rt.alloc(), &[b"open 8 2 1\nsettle 1\nmutator\n", *steps])?;
        passes_once(&rt, place, file.as_slice(), *enqueued, *reclaimed)?;
    }
    Ok(())
}

/// Two normal objects that point to each other, and an object for links.
const LOOP: &[u8] = b"open 8 1 1\n\
    settle 1\n\
    mutator\n\
    new 0 0 1 scanned\n\
    new 0 1 1 scanned\n\
    new 0 2 1 atomic\n\
    store 0 0 0 0 1\n\
    store 0 1 0 0 0\n\
    register 0 0 normal 0 0\n\
    register 0 1 normal 0 0\n";

const DROPPED: &[u8] = b"set 0 0 0\nset 0 1 0\n";

/// Links, with how many of the two objects a pass queues: one if the first object's reference to the second is a short link, and else none.
const LINKS: [(&[u8], u64); 7] = [
    (b"", 0),
    (b"link short 0 0 0 0 1\n", 1),
    (b"link long 0 0 0 0 1\n", 0),
    (b"link short 0 0 0 0 1\nunlink short 0 0 0\n", 0),
    (b"link short 0 0 0 0 1\nunlink long 0 0 0\n", 1),
    (b"link short 0 0 0 0 1\nmove short 0 0 0 0 2 0\n", 0),
    (b"link short 0 2 0 0 1\nmove short 0 2 0 0 0 0\n", 1),
];

#[test]
fn links_are_made_moved_and_removed(rt: HostRuntime) -> Result<(), Fail> {
    for (place, (links, enqueued)) in LINKS.iter().enumerate() {
        let file = joined(rt.alloc(), &[LOOP, *links, DROPPED])?;
        passes_once(&rt, place, file.as_slice(), *enqueued, 0)?;
    }
    Ok(())
}
