//! Files and runs at their limits.

use super::wanted::{ends, prints_and_ends};
use super::{fault, joined, run};
use fz_model::{Refusal, TABLE_LIMIT};
use std::alloc::{AllocError, Global};
use std::test::Fail;

/// Seven mutators together register 70,000 objects.
const SEVEN_CHURNS: &[u8] = b"open 4096 8 8\n\
  settle 1\n\
  mutator\n\
  churn 10000 0 0 1 scanned normal 0\n\
  mutator\n\
  churn 10000 1 0 1 scanned normal 0\n\
  mutator\n\
  churn 10000 2 0 1 scanned normal 0\n\
  mutator\n\
  churn 10000 3 0 1 scanned normal 0\n\
  mutator\n\
  churn 10000 4 0 1 scanned normal 0\n\
  mutator\n\
  churn 10000 5 0 1 scanned normal 0\n\
  mutator\n\
  churn 10000 6 0 1 scanned normal 0\n";

/// Registrations that exceed the table are refused. Their objects are reclaimed by the pass that queues the others.
#[test]
fn a_full_table_refuses_the_others(rt: HostRuntime) -> Result<(), Fail> {
    let outcome = run(&rt, SEVEN_CHURNS)?;
    let queued = TABLE_LIMIT.min(70_000);
    let refused = 70_000 - queued;
    let text = format!(in rt.alloc();
        "enqueued {queued}\nfinished {queued}\nforfeited 0\nleft 0\npasses 1\nreclaimed {refused}\nrefused {refused}\n"
    )?;
    prints_and_ends(
        &rt,
        "objects",
        70_000,
        &outcome,
        text.as_str().as_bytes(),
        Ok(()),
    );
    Ok(())
}

/// A file of 4,096 lines. All but the first three are steps that are refused.
fn longest(alloc: Global) -> Result<Vec<u8>, AllocError> {
    let mut file = joined(alloc, &[b"open 1 1 1\nsettle 0\nmutator\n"])?;
    for _line in 3..4_096 {
        file.extend_from_slice(b"set 1 0 0\n")?;
    }
    Ok(file)
}

#[test]
fn the_longest_file_is_carried_out(rt: HostRuntime) -> Result<(), Fail> {
    let file = longest(rt.alloc())?;
    let outcome = run(&rt, file.as_slice())?;
    let text =
        b"enqueued 0\nfinished 0\nforfeited 0\nleft 0\npasses 0\nreclaimed 0\nrefused 4093\n";
    prints_and_ends(&rt, "line", 4_096, &outcome, text, Ok(()));
    Ok(())
}

/// One more line is malformed, whether it is a step, a comment or empty.
#[test]
fn a_longer_file_is_malformed(rt: HostRuntime) -> Result<(), Fail> {
    let lines: [&[u8]; 4] = [b"set 0 0 0\n", b"set 0 0 0", b"#", b"\n"];
    for (place, line) in lines.iter().enumerate() {
        let mut file = longest(rt.alloc())?;
        file.extend_from_slice(*line)?;
        let outcome = run(&rt, file.as_slice())?;
        let text = b"line 4097 refused 15 BadLine\n";
        let refused = fault(Refusal::BadLine, 4_097);
        prints_and_ends(&rt, "further line", place as u64, &outcome, text, refused);
    }
    Ok(())
}

/// A file whose third line is a comment of this length, in bytes.
fn commented(alloc: Global, bytes: usize) -> Result<Vec<u8>, AllocError> {
    let mut file = joined(alloc, &[b"open 1 1 1\nsettle 1\n"])?;
    for _byte in 0..bytes {
        file.push(b'#')?;
    }
    file.push(b'\n')?;
    Ok(file)
}

/// A comment of 200 bytes is skipped, and one of 201 is malformed.
#[test]
fn long_lines(rt: HostRuntime) -> Result<(), Fail> {
    let file = commented(rt.alloc(), 200)?;
    let outcome = run(&rt, file.as_slice())?;
    ends(&rt, "length", 200, &outcome, Ok(()));
    let file = commented(rt.alloc(), 201)?;
    let outcome = run(&rt, file.as_slice())?;
    let text = b"line 3 refused 15 BadLine\n";
    let refused = fault(Refusal::BadLine, 3);
    prints_and_ends(&rt, "length", 201, &outcome, text, refused);
    Ok(())
}
