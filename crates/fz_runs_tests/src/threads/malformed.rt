//! Files that aren't carried out: what is written for them, and the line of their fault.

use super::wanted::prints_and_ends;
use super::{fault, joined, run};
use fz_model::{MAX_BLOCKS, MAX_FRAMES, MAX_WORKERS, Refusal};
use std::alloc::AllocError;
use std::process::Abort;
use std::sync::Wait;
use std::test::Fail;
use std::thread::Threads;

/// Runs the threads file. The only output is that this line is malformed, and the fault has this line. `place` is the file's index in its test.
fn stops_at<R: AllocGlobal + Abort + Threads + Wait + Sync>(
    rt: &R,
    place: usize,
    file: &[u8],
    line: u64,
) -> Result<(), AllocError> {
    let outcome = run(rt, file)?;
    let text = format!(in rt.alloc(); "line {line} refused 15 BadLine\n")?;
    let text = text.as_str().as_bytes();
    let refused = fault(Refusal::BadLine, line);
    prints_and_ends(rt, "file", place as u64, &outcome, text, refused);
    Ok(())
}

/// The same for each of these files and lines.
fn each_stops_at<R: AllocGlobal + Abort + Threads + Wait + Sync>(
    rt: &R,
    files: &[(&[u8], u64)],
) -> Result<(), AllocError> {
    for (place, (file, line)) in files.iter().enumerate() {
        stops_at(rt, place, *file, *line)?;
    }
    Ok(())
}

/// The same for each of these lines, which is inserted between two parts of a file.
fn each_line_stops<R: AllocGlobal + Abort + Threads + Wait + Sync>(
    rt: &R,
    lines: &[&[u8]],
    before: &[u8],
    after: &[u8],
    line: u64,
) -> Result<(), AllocError> {
    for (place, malformed) in lines.iter().enumerate() {
        let file = joined(rt.alloc(), &[before, *malformed, after])?;
        stops_at(rt, place, file.as_slice(), line)?;
    }
    Ok(())
}

/// Files with a malformed line, or that end too early, with the line of the fault.
const FILES: [(&[u8], u64); 28] = [
    (b"", 1),
    (b"\n", 2),
    (b"# nothing\n\n", 3),
    // no settle
    (b"open 4 1 1", 2),
    (b"open 4 1 1\n", 2),
    (b"open 4 1 1\n\n# the end", 4),
    (b"open 4 1 1\nmutator\n", 2),
    (b"open 4 1 1\nset 0 0 0\nsettle 1\n", 2),
    // no opening, or not first
    (b"settle 1\n", 1),
    (b"settle 1\nopen 4 1 1\n", 1),
    (b"mutator\nopen 4 1 1\nsettle 1\n", 1),
    (b"collect\n", 1),
    // another opening, another settle
    (b"open 4 1 1\nopen 4 1 1\nsettle 1\n", 2),
    (b"open 4 1 1\nsettle 1\nopen 4 1 1\n", 3),
    (b"open 4 1 1\nsettle 1\nsettle 1\n", 3),
    // a step before the first section
    (b"open 4 1 1\nsettle 1\nset 0 0 0\n", 3),
    (b"open 4 1 1\nsettle 1\n\ncollect\n", 4),
    (b"open 4 1 1\nsettle 1\nchurn 1 0 0 1 scanned normal 0\n", 3),
    // the settle's limits
    (b"open 4 1 1\nsettle 101\n", 2),
    (b"open 4 1 1\nsettle 18446744073709551616\n", 2),
    (b"open 4 1 1\nsettle 01\n", 2),
    (b"open 4 1 1\nsettle -1\n", 2),
    (b"open 4 1 1\nsettle\n", 2),
    // a malformed line is reported even if the opening is outside its limits
    (b"open 0 1 1\nsettle 1\nmutator \n", 3),
    (b"open 0 1 1\n", 2),
    // line ends
    (b"open 4 1 1\r\nsettle 1\n", 1),
    (b"# \r\nopen 4 1 1\nsettle 1\r\n", 3),
    (b"open 4 1 1\nsettle 1\n\r\n", 3),
];

#[test]
fn malformed_files(rt: HostRuntime) -> Result<(), Fail> {
    each_stops_at(&rt, &FILES)?;
    Ok(())
}

/// Lines that are malformed in a mutator's section.
const IN_MUTATOR: [&[u8]; 37] = [
    // a collector's, a worker's, and the first two of a file
    b"begin",
    b"mark 1",
    b"pause",
    b"collect",
    b"take 0",
    b"hold 0 0 0",
    b"finish 0",
    b"forfeit 0",
    b"close",
    b"outstanding",
    b"open 4 1 1",
    b"settle 1",
    // the turns of a churn
    b"churn 0 0 0 1 scanned normal 0",
    b"churn 10001 0 0 1 scanned normal 0",
    b"churn 01 0 0 1 scanned normal 0",
    b"churn 18446744073709551617 0 0 1 scanned normal 0",
    b"churn 1 0 0 1 scanned normal",
    b"churn 1 0 0 1 scanned normal 0 0",
    b"churn 1 0 0 1 scanned 0",
    b"churn 1 0 0 1 normal 0",
    // fields
    b"new 0 0 01 scanned",
    b"new 0 0 +1 scanned",
    b"new 0 0 1 Scanned",
    b"new 0 0 1",
    b"set 0 0 18446744073709551616",
    b"register 0 0 normal 0",
    b"register 0 0 normal 0 0 256",
    b"link weak 0 0 0 0 1",
    // spaces, letters and line ends
    b" set 0 0 0",
    b"set 0 0 0 ",
    b"set  0 0 0",
    b"set\t0 0 0",
    b"SET 0 0 0",
    b"set 0 0 0\r",
    b"mutator 1",
    b"Mutator",
    b"\0",
];

#[test]
fn lines_that_no_mutator_has(rt: HostRuntime) -> Result<(), Fail> {
    let before = b"open 4 1 1\nsettle 1\nmutator\n";
    each_line_stops(&rt, &IN_MUTATOR, before, b"\nset 0 0 0\n", 4)?;
    Ok(())
}

/// Lines that are malformed in the collector's section.
const IN_COLLECTOR: [&[u8]; 15] = [
    b"new 0 0 1 scanned",
    b"set 0 0 0",
    b"copy 0 0 0 1",
    b"load 0 0 0 0 1",
    b"store 0 0 0 0 1",
    b"register 0 0 normal 0 0",
    b"unregister 0 0",
    b"link short 0 0 0 0 1",
    b"unlink short 0 0 0",
    b"move short 0 0 0 0 0 1",
    b"churn 1 0 0 1 scanned normal 0",
    b"collector",
    b"take 0",
    b"mark",
    b"pause 1",
];

#[test]
fn lines_that_no_collector_has(rt: HostRuntime) -> Result<(), Fail> {
    let before = b"open 4 1 1\nsettle 1\ncollector\nbegin\n";
    each_line_stops(&rt, &IN_COLLECTOR, before, b"", 5)?;
    Ok(())
}

/// Eight mutators and one collector are the limit, in any order.
#[test]
fn too_many_sections(rt: HostRuntime) -> Result<(), Fail> {
    let files: [(&[u8], u64); 4] = [
        (
            b"open 4 1 1\nsettle 0\nmutator\nmutator\nmutator\nmutator\nmutator\nmutator\nmutator\nmutator\nmutator\n",
            11,
        ),
        (
            b"open 4 1 1\nsettle 0\ncollector\nmutator\nmutator\nmutator\nmutator\nmutator\nmutator\nmutator\nmutator\nmutator",
            12,
        ),
        (
            b"open 4 1 1\nsettle 0\ncollector\nbegin\nmutator\ncollector\n",
            6,
        ),
        (b"open 4 1 1\nsettle 0\ncollector\ncollector\n", 4),
    ];
    each_stops_at(&rt, &files)?;
    Ok(())
}

/// Openings outside the limits, each with its line number.
const REFUSED: [(&[u8], u64); 6] = [
    (b"open 4 0 1\nsettle 1\n", 1),
    (b"open 4 1 0\nsettle 1\n", 1),
    (b"open 0 1 1\nsettle 0", 1),
    (b"open 18446744073709551615 1 1\nsettle 100", 1),
    (
        b"\n# two comments\n#\nopen 4 0 1\nsettle 1\nmutator\nset 0 0 0\n",
        4,
    ),
    (
        b"\n\n\n\nopen 4 1 9\n#\nsettle 1\ncollector\ncollect\nmutator\nchurn 9 0 0 1 scanned normal 0\n",
        5,
    ),
];

/// Openings with one more than each limit.
const TOO_MANY: [(u64, u64, u64); 4] = [
    (MAX_BLOCKS + 1, 1, 1),
    (4, MAX_FRAMES + 1, 1),
    (4, 1, MAX_WORKERS + 1),
    (MAX_BLOCKS + 1, MAX_FRAMES + 1, MAX_WORKERS + 1),
];

/// Runs the threads file. The only effect is that its opening in this line is refused. `place` is the file's index in its test.
fn is_outside<R: AllocGlobal + Abort + Threads + Wait + Sync>(
    rt: &R,
    place: usize,
    file: &[u8],
    line: u64,
) -> Result<(), AllocError> {
    let outcome = run(rt, file)?;
    let text = b"refused 7 BadCount\n";
    let refused = fault(Refusal::BadCount, line);
    prints_and_ends(rt, "file", place as u64, &outcome, text, refused);
    Ok(())
}

#[test]
fn openings_outside_the_limits(rt: HostRuntime) -> Result<(), Fail> {
    for (place, (file, line)) in REFUSED.iter().enumerate() {
        is_outside(&rt, place, *file, *line)?;
    }
    for (place, (blocks, frames, workers)) in TOO_MANY.iter().enumerate() {
        let file = format!(in rt.alloc(); "open {blocks} {frames} {workers}\nsettle 1\n")?;
        is_outside(&rt, place, file.as_str().as_bytes(), 1)?;
        let file = format!(in rt.alloc();
            "# a comment\nopen {blocks} {frames} {workers}\n\nsettle 1\n"
        )?;
        is_outside(&rt, place, file.as_str().as_bytes(), 2)?;
    }
    Ok(())
}
