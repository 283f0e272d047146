//! Reading a threads file.

ghost use Rattle.std.specs.Prelude.{◌≡◌};
ghost use Rattle.fz_runs.specs.Plans.{unreadable, ReadsJob, Ends, ReadsAll, PlanIsRead, is_empty};

use crate::text::{Chunk, DriveFault, Ending, MAX_LINE, Source, is_kept, next_line};
use crate::threads::draft::Draft;
use crate::threads::limits::MAX_LINES;
use crate::threads::plan::Plan;
use arrayvec::ArrayVec;
use fz_model::Refusal;
use fz_script::job_of;
use std::alloc::Global;

/// The fault of an unreadable file. It has a line number only if the line is malformed.
fn unreadable(refusal: Refusal, number: u64) -> DriveFault
    ensures { result ≡ unreadable refusal number }
{
    let line = match refusal {
        Refusal::BadLine => number,
        _ => 0,
    };
    DriveFault { refusal, line }
}

/// Adds the job of the line with this number; lines are counted from 1.
fn read_job(
    alloc: Global,
    draft: &mut Draft,
    number: u64,
    ending: Ending,
    line: &[u8],
) -> Result<(), Refusal>
    ensures { ReadsJob number ending draft.old line.now result draft.new }
{
    if let Ending::TooLong = ending {
        return Err(Refusal::BadLine);
    }
    if number > MAX_LINES {
        return Err(Refusal::BadLine);
    }
    if !is_kept(line) {
        return Ok(());
    }
    match job_of(line) {
        None => Err(Refusal::BadLine),
        Some(job) => draft.add(alloc, number, job),
    }
}

/// Reads all lines. Returns the number of the line that would come next.
fn read_lines<R: Source>(
    alloc: Global,
    reader: &mut R,
    draft: &mut Draft,
) -> Result<u64, DriveFault>
    requires { is_empty draft.old }
    ensures { ReadsAll (R.feed reader.old) draft.new result (R.feed reader.new) }
{
    let mut chunk = Chunk::new();
    let mut line = ArrayVec::<u8, MAX_LINE>::new();
    let mut number = 1;
    'lines: loop {
        let Ok(ending) = next_line(reader, &mut chunk, &mut line) else {
            return Err(unreadable(Refusal::Input, number));
        };
        if let Ending::Nothing = ending {
            return Ok(number);
        }
        if let Err(refusal) = read_job(alloc, draft, number, ending, line.as_slice()) {
            return Err(unreadable(refusal, number));
        }
        number += 1;
        if let Ending::Last = ending {
            return Ok(number);
        }
    }
}

/// The plan, if the file is complete. The line that would come next has this number.
fn whole(draft: Draft, number: u64) -> Result<Plan, DriveFault>
    ensures { Ends draft number result }
{
    match draft {
        Draft::Settled(plan) => Ok(plan),
        Draft::Empty | Draft::Opened(_) => Err(unreadable(Refusal::BadLine, number)),
    }
}

/// Reads a whole file and checks it.
pub(crate) fn read_plan<R: Source>(alloc: Global, reader: &mut R) -> Result<Plan, DriveFault>
    ensures { PlanIsRead (R.feed reader.old) result (R.feed reader.new) }
{
    let mut draft = Draft::Empty;
    match read_lines(alloc, reader, &mut draft) {
        Ok(number) => whole(draft, number),
        Err(fault) => Err(fault),
    }
}
