//! Assertions that fail a test and say which result was wrong. An assertion is proved again wherever it occurs, so those that several tests need are here.

use super::{Outcome, Row, run_within};
use crate::equal::must_be;
use fz_model::Refusal;
use fz_runs::{DriveFault, Limits};
use std::alloc::AllocError;
use std::process::Abort;
use std::sync::Wait;
use std::thread::Threads;

/// The call has to succeed.
pub(crate) fn accepted<T: Drop>(rt: &impl Abort, what: &str, answer: Result<T, Refusal>) {
    assert!(rt; answer.is_ok(), "{what} is refused");
}

/// The run has to write this text.
pub(crate) fn prints(rt: &impl Abort, what: &str, number: u64, outcome: &Outcome, text: &[u8]) {
    let found = (number, outcome.text.as_slice());
    must_be(rt, found, (number, text), what);
}

/// The run has to have this result.
pub(crate) fn ends(
    rt: &impl Abort,
    what: &str,
    number: u64,
    outcome: &Outcome,
    end: Result<(), DriveFault>,
) {
    must_be(rt, (number, outcome.result), (number, end), what);
}

/// The run has to write this text and to have this result.
pub(crate) fn prints_and_ends(
    rt: &impl Abort,
    what: &str,
    number: u64,
    outcome: &Outcome,
    text: &[u8],
    end: Result<(), DriveFault>,
) {
    prints(rt, what, number, outcome, text);
    ends(rt, what, number, outcome, end);
}

/// Runs the row's threads file, over devices with these limits. It has to write the row's text and to end with the row's fault. `place` is the row's index in
/// its test.
pub(crate) fn runs_row<R: AllocGlobal + Abort + Threads + Wait + Sync>(
    rt: &R,
    place: usize,
    row: &Row,
    limits: Limits,
) -> Result<(), AllocError> {
    let outcome = run_within(rt, row.file, limits)?;
    prints(rt, "row", place as u64, &outcome, row.text);
    let found = (place, outcome.result.err());
    must_be(rt, found, (place, row.fault), "the row and its fault");
    Ok(())
}

/// The same for each of these rows.
pub(crate) fn runs_rows<R: AllocGlobal + Abort + Threads + Wait + Sync>(
    rt: &R,
    rows: &[Row],
    limits: Limits,
) -> Result<(), AllocError> {
    for (place, row) in rows.iter().enumerate() {
        runs_row(rt, place, row, limits)?;
    }
    Ok(())
}
