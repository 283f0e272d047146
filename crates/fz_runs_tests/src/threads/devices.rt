//! Readers and writers that fail, or transfer one byte per call.

use super::files::{FOUR_MUTATORS, KEPT_OBJECT, NO_FRAMES, NO_OPENING};
use super::wanted::{ends, prints_and_ends, runs_row, runs_rows};
use super::{Row, fault, run_within};
use fz_model::Refusal;
use fz_runs::{Limits, WHOLE, bytewise};
use std::test::Fail;

#[test]
fn a_byte_at_a_time(rt: HostRuntime) -> Result<(), Fail> {
    let rows = [FOUR_MUTATORS, KEPT_OBJECT];
    runs_rows(&rt, &rows, bytewise(usize::MAX, usize::MAX))?;
    Ok(())
}

/// Each read fails in turn, including the one at the end of the file: nothing is written.
#[test]
fn each_read_fails(rt: HostRuntime) -> Result<(), Fail> {
    let file = KEPT_OBJECT.file;
    let refused = fault(Refusal::Input, 0);
    for reads in 0..file.len() + 1 {
        let outcome = run_within(&rt, file, bytewise(reads, usize::MAX))?;
        prints_and_ends(&rt, "read", reads as u64, &outcome, b"", refused);
    }
    Ok(())
}

/// No byte is read after the LF of a malformed line.
#[test]
fn reading_stops_at_a_malformed_line(rt: HostRuntime) -> Result<(), Fail> {
    let file = b"open 1 1 1\nsettle 101\nmutator\n";
    for (reads, refused) in [
        (22, fault(Refusal::BadLine, 2)),
        (21, fault(Refusal::Input, 0)),
    ] {
        let outcome = run_within(&rt, file, bytewise(reads, usize::MAX))?;
        ends(&rt, "read", reads as u64, &outcome, refused);
    }
    Ok(())
}

/// A summary, a malformed line and a refused opening.
const WRITTEN: [Row; 3] = [KEPT_OBJECT, NO_OPENING, NO_FRAMES];

/// Each write fails in turn, and what was written is a prefix of the output.
#[test]
fn each_write_fails(rt: HostRuntime) -> Result<(), Fail> {
    let refused = fault(Refusal::Output, 0);
    for Row { file, text, .. } in WRITTEN {
        for writes in 0..text.len() {
            let outcome = run_within(&rt, file, bytewise(usize::MAX, writes))?;
            let begun = &text[..writes];
            prints_and_ends(&rt, "write", writes as u64, &outcome, begun, refused);
        }
    }
    Ok(())
}

/// A writer that accepts everything is called once.
#[test]
fn all_is_one_write(rt: HostRuntime) -> Result<(), Fail> {
    for (place, row) in WRITTEN.iter().enumerate() {
        let outcome = run_within(&rt, row.file, Limits { writes: 0, ..WHOLE })?;
        let refused = fault(Refusal::Output, 0);
        ends(&rt, "row", place as u64, &outcome, refused);
        runs_row(&rt, place, row, Limits { writes: 1, ..WHOLE })?;
    }
    Ok(())
}
