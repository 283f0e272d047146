//! Runs of whole scripts.

ghost use Rattle.std.specs.Prelude.{◌≡◌, ◌≤◌, ◌<◌, ◌^◌, length};

use crate::drive::Row;
use crate::drive::scripts::{
    DROPPED_IN_A_CYCLE, DROPPED_IN_A_CYCLE_OTHERWISE, FIRST_SMALL, LARGE, LAST_SMALL, ONE_OBJECT,
    TWO_IN_ORDER,
};
use crate::equal::must_be;
use arrayvec::ArrayVec;
use fz_model::{MAX_BLOCKS, MAX_FRAMES, MAX_WORKERS, Refusal};
use fz_runs::{
    DriveFault, Failures, Limits, MemorySink, MemorySource, Pieces, Summary, WHOLE, bytewise, drive,
};
use std::alloc::{AllocError, Global};
use std::marker::Brand;
use std::process::Abort;
use std::sync::ledger::{Blank, Ledger};
use std::test::Fail;

#[derive(Drop)]
struct Outcome {
    result: Result<Summary, DriveFault>,
    text: ArrayVec<u8, 4096>,
}

/// Runs the script over devices in memory.
fn run(alloc: Global, script: &[u8], limits: Limits) -> Outcome {
    run_counted::<Brand, Brand>(alloc, script, limits, Blank::new(1), Blank::new(1))
}

fn run_counted<I: Ledger, O: Ledger>(
    alloc: Global,
    script: &[u8],
    limits: Limits,
    input: Blank,
    output: Blank,
) -> Outcome
    requires input_name { input.name ≡ I.name }
    requires input_parts { (input.parts ≡ I.parts) × (I.parts ≡ 1) }
    requires output_name { output.name ≡ O.name }
    requires output_parts { (output.parts ≡ O.parts) × (O.parts ≡ 1) }
{
    let mut reader = MemorySource::new(
        script,
        limits.pieces,
        limits.reads,
        Failures::<I>::none(input),
    );
    let mut writer = MemorySink::new(limits.pieces, limits.writes, Failures::<O>::none(output));
    let result = drive(alloc, &mut reader, &mut writer);
    Outcome {
        result,
        text: writer.into_bytes(),
    }
}

fn fault(refusal: Refusal, line: u64) -> Result<Summary, DriveFault> {
    Err(DriveFault { refusal, line })
}

/// The number of lines that end within these bytes.
fn lines_in(bytes: &[u8]) -> usize
    ensures { result ≤ length bytes.now }
{
    bytes.iter().filter(|byte| **byte == b'\n').count()
}

/// The first `count` lines.
fn first_lines(bytes: &[u8], count: usize) -> &[u8] {
    if count == 0 {
        return &[];
    }
    let mut left = count;
    for (place, byte) in bytes.iter().enumerate() {
        if *byte == b'\n' {
            left = left.saturating_sub(1);
        }
        if left == 0 {
            return &bytes[..place + 1];
        }
    }
    bytes
}

/// Fails the test if a run has another report.
fn must_report(rt: &impl Abort, outcome: &Outcome, report: &[u8], row: usize) {
    let found = (row, outcome.text.as_slice());
    must_be(rt, found, (row, report), "the row and its report");
}

/// Fails the test if a run ends in another way.
fn must_end(rt: &impl Abort, outcome: &Outcome, end: Result<Summary, DriveFault>, row: usize) {
    let is_right = outcome.result == end;
    must_be(
        rt,
        (row, is_right),
        (row, true),
        "the row, and whether it ends so",
    );
}

/// Fails the test if a condition doesn't hold.
fn must_hold(rt: &impl Abort, holds: bool, row: usize, place: usize) {
    let found = (row, place, holds);
    must_be(
        rt,
        found,
        (row, place, true),
        "the row, the place, and whether it holds",
    );
}

/// Runs the row's script over devices with these limits.
fn must_run(rt: &impl Abort, alloc: Global, row: Row, limits: Limits, number: usize) {
    let outcome = run(alloc, row.script, limits);
    must_report(rt, &outcome, row.report, number);
    must_hold(rt, outcome.result.err() == row.fault, number, 0);
}

/// The same for each of these rows.
fn must_run_all(rt: &impl Abort, alloc: Global, rows: &[Row], limits: Limits) {
    for (number, row) in rows.iter().enumerate() {
        must_run(rt, alloc, *row, limits, number);
    }
}

#[test]
fn rows_are_reported(rt: HostRuntime) {
    for limits in [WHOLE, bytewise(usize::MAX, usize::MAX)] {
        must_run_all(&rt, rt.alloc(), &FIRST_SMALL, limits);
        must_run_all(&rt, rt.alloc(), &LAST_SMALL, limits);
    }
}

#[test]
fn the_limits_are_reported(rt: HostRuntime) {
    must_run_all(&rt, rt.alloc(), &LARGE, WHOLE);
}

/// An object dropped inside a cycle is found unreachable by one of two passes.
#[test]
fn what_is_dropped_inside_a_cycle_is_found(rt: HostRuntime) {
    let outcome = run(rt.alloc(), DROPPED_IN_A_CYCLE.script, WHOLE);
    let text = outcome.text.as_slice();
    let is_right = text == DROPPED_IN_A_CYCLE.report || text == DROPPED_IN_A_CYCLE_OTHERWISE;
    must_hold(&rt, is_right, 0, 0);
}

#[test]
fn a_summary_has_the_numbers_of_the_end(rt: HostRuntime) {
    let outcome = run(rt.alloc(), TWO_IN_ORDER.script, WHOLE);
    let summary = Summary {
        steps: 14,
        refused: 0,
        enqueued: 2,
        finished: 1,
        forfeited: 0,
        in_hand: 1,
        left: 0,
    };
    must_end(&rt, &outcome, Ok(summary), 0);
}

/// Whether a run of the script ends with this fault, in the line after the given ones, and has written exactly this text.
fn fails(alloc: Global, limits: Limits, refusal: Refusal, lines: usize, text: &[u8]) -> bool
    requires { lines < 2 ^ 32 }
{
    let outcome = run(alloc, ONE_OBJECT.script, limits);
    outcome.result == fault(refusal, lines as u64 + 1) && outcome.text.as_slice() == text
}

/// Each read of the script fails in turn: complete lines before it get their replies, and nothing else is written.
#[test]
fn each_read_fails(rt: HostRuntime) {
    let Row { script, report, .. } = ONE_OBJECT;
    for reads in 0..script.len() + 1 {
        let lines = lines_in(&script[..reads]);
        let replies = first_lines(report, lines);
        let limits = bytewise(reads, usize::MAX);
        let fails = fails(rt.alloc(), limits, Refusal::Input, lines, replies);
        must_hold(&rt, fails, 0, reads);
    }
}

/// Each write of the report fails in turn.
#[test]
fn each_write_fails(rt: HostRuntime) {
    let Row { report, .. } = ONE_OBJECT;
    for writes in 0..report.len() {
        let lines = lines_in(&report[..writes]);
        let limits = bytewise(usize::MAX, writes);
        let written = &report[..writes];
        let fails = fails(rt.alloc(), limits, Refusal::Output, lines, written);
        must_hold(&rt, fails, 0, writes);
    }
}

/// A writer that accepts everything is called once for each line.
#[test]
fn a_reply_is_one_write(rt: HostRuntime) {
    let row = ONE_OBJECT;
    let all = lines_in(row.report);
    for writes in 0..all {
        let limits = Limits {
            writes: writes as u64,
            ..WHOLE
        };
        let replies = first_lines(row.report, writes);
        let fails = fails(rt.alloc(), limits, Refusal::Output, writes, replies);
        must_hold(&rt, fails, 0, writes);
    }
    let limits = Limits {
        writes: all as u64,
        ..WHOLE
    };
    must_run(&rt, rt.alloc(), row, limits, 0);
}

/// Scripts with a malformed line, their reports, and the number of that line.
const MALFORMED: [(&[u8], &[u8], u64); 12] = [
    (b"#\n\n", b"line 3 refused 15 BadLine\n", 3),
    (b"set 0 0 1\n", b"line 1 refused 15 BadLine\n", 1),
    (b"open 1 1 1 \n", b"line 1 refused 15 BadLine\n", 1),
    (b"\nopen 1 1 1\r\n", b"line 2 refused 15 BadLine\n", 2),
    (
        b"open 1 1 1\nopen 1 1 1\n",
        b"ok\nline 2 refused 15 BadLine\n",
        2,
    ),
    (
        b"open 1 1 1\nset 0 0 1\r\n",
        b"ok\nline 2 refused 15 BadLine\n",
        2,
    ),
    (
        b"open 1 1 1\n#\r\nset  0 0 1",
        b"ok\nline 3 refused 15 BadLine\n",
        3,
    ),
    (
        b"open 1 1 1\nset 0 0 18446744073709551616",
        b"ok\nline 2 refused 15 BadLine\n",
        2,
    ),
    (
        b"open 1 1 1\nset 0 0 +1",
        b"ok\nline 2 refused 15 BadLine\n",
        2,
    ),
    (
        b"open 1 1 1\nset 0 0",
        b"ok\nline 2 refused 15 BadLine\n",
        2,
    ),
    (
        b"open 1 1 1\n set 0 0 1",
        b"ok\nline 2 refused 15 BadLine\n",
        2,
    ),
    (
        b"open 1 1 1\nnew 0 0 1 Scanned\n",
        b"ok\nline 2 refused 15 BadLine\n",
        2,
    ),
];

#[test]
fn malformed_lines(rt: HostRuntime) {
    for (number, (script, report, line)) in MALFORMED.iter().enumerate() {
        let outcome = run(rt.alloc(), *script, WHOLE);
        must_report(&rt, &outcome, *report, number);
        must_end(&rt, &outcome, fault(Refusal::BadLine, *line), number);
    }
}

/// A comment of 200 bytes is skipped, and one of 201 is malformed as soon as its last byte is read.
#[test]
fn long_lines(rt: HostRuntime) {
    let mut bytes = [b'#'; 202];
    bytes[201] = b'\n';
    let runs: [(&[u8], usize, Refusal, u64); 5] = [
        (&bytes[1..], usize::MAX, Refusal::BadLine, 2),
        (&bytes[..200], usize::MAX, Refusal::BadLine, 2),
        (&bytes, usize::MAX, Refusal::BadLine, 1),
        (&bytes, 201, Refusal::BadLine, 1),
        (&bytes, 200, Refusal::Input, 1),
    ];
    for (number, (script, reads, refusal, line)) in runs.iter().enumerate() {
        let outcome = run(rt.alloc(), *script, bytewise(*reads, usize::MAX));
        must_end(&rt, &outcome, fault(*refusal, *line), number);
    }
}

/// Blocks, frames and workers, one of which is outside its limits.
const OUTSIDE: [(u64, u64, u64); 6] = [
    (0, 1, 1),
    (MAX_BLOCKS + 1, 1, 1),
    (1, 0, 1),
    (1, MAX_FRAMES + 1, 1),
    (1, 1, 0),
    (1, 1, MAX_WORKERS + 1),
];

/// The same, all within their limits: each number of workers, and several numbers of frames.
const WITHIN: [(u64, u64, u64); 8] = [
    (1, 1, MAX_WORKERS),
    (2, 2, 7),
    (3, 3, 6),
    (64, 4, 5),
    (65, 5, 4),
    (MAX_BLOCKS - 2, 6, 3),
    (MAX_BLOCKS - 1, 7, 2),
    (MAX_BLOCKS, MAX_FRAMES, 1),
];

/// Runs a script that only opens a world.
fn opened(alloc: Global, opening: (u64, u64, u64)) -> Result<Outcome, AllocError> {
    let (blocks, frames, workers) = opening;
    let script = format!(in alloc; "open {blocks} {frames} {workers}\n")?;
    Ok(run(alloc, script.as_str().as_bytes(), WHOLE))
}

#[test]
fn openings_outside_the_limits(rt: HostRuntime) -> Result<(), Fail> {
    for (number, opening) in OUTSIDE.iter().enumerate() {
        let outcome = opened(rt.alloc(), *opening)?;
        must_report(&rt, &outcome, b"refused 7 BadCount\n", number);
        must_end(&rt, &outcome, fault(Refusal::BadCount, 1), number);
    }
    Ok(())
}

#[test]
fn openings_within_the_limits(rt: HostRuntime) -> Result<(), Fail> {
    let report = b"ok\nend enqueued 0 finished 0 forfeited 0 in_hand 0 left 0\n";
    for (number, opening) in WITHIN.iter().enumerate() {
        must_report(&rt, &opened(rt.alloc(), *opening)?, report, number);
    }
    Ok(())
}

/// Which steps of workers are refused, and which entries stay in their hands.
#[test]
fn workers_are_refused(rt: HostRuntime) {
    let script =
        b"open 4 1 1\ntake 1\nfinish 1\nfinish 0\ntake 0\nnew 0 0 2 scanned\nregister 0 0 normal 7 0\n\
        set 0 0 0\ncollect\ntake 0\ntake 0\nfinish 0\nfinish 0\n";
    let report =
        b"ok\nrefused 16 SeatsMissing\nrefused 16 SeatsMissing\nrefused 10 NotHeld\nempty\nnew 65536 0\nreg 0\n\
        ok\npass 1 picked 1 reclaimed 0\nentry 0 1 0 65536 0 7 0\nrefused 16 SeatsMissing\nok\nrefused 10 NotHeld\n\
        end enqueued 1 finished 1 forfeited 0 in_hand 0 left 0\n";
    let outcome = run(rt.alloc(), script, WHOLE);
    must_report(&rt, &outcome, report, 0);
    let summary = Summary {
        steps: 13,
        refused: 5,
        enqueued: 1,
        finished: 1,
        forfeited: 0,
        in_hand: 0,
        left: 0,
    };
    must_end(&rt, &outcome, Ok(summary), 0);
}
