//! Carrying out one line of a script.

ghost use Rattle.std.specs.Prelude.{◌≡◌, None, Some, true};
ghost use Rattle.fz_runs.specs.Lines.{is_kept};
ghost use Rattle.fz_runs.specs.Machines.{Gives, Given};

use crate::script::machine::Machine;
use crate::script::reply::StepReply;
use crate::text::{Ending, is_kept};
use fz_model::Refusal;
use fz_script::{Step, step_of};
use std::alloc::Global;

/// A line with a larger number is malformed.
const MAX_LINES: u64 = 4_294_967_296;

/// The outcome of a line.
#[derive(Clone, Copy, Debug, PartialEq, Eq)]
pub(crate) enum Answer {
    /// The line is empty or a comment.
    Skipped,
    /// The world is open.
    Opened,
    /// A step was carried out or refused.
    Replied(Result<StepReply, Refusal>),
    /// The world could not be opened.
    Ended(Refusal),
    /// The line is malformed.
    Malformed,
}

/// Carries out a line. Before the opening there is no machine.
fn answer_to(alloc: Global, machine: &mut Option<Machine>, line: &[u8]) -> Answer
    ensures { Gives machine.old line.now result machine.new }
{
    if !is_kept(line) {
        return Answer::Skipped;
    }
    match machine {
        None => first_answer(alloc, machine, line),
        Some(machine) => later_answer(machine, line),
    }
}

// A function of its own, never inlined: the stack space of an opening is cleared at each call.
/// The outcome of the first step.
#[inline(never)]
fn first_answer(alloc: Global, machine: &mut Option<Machine>, line: &[u8]) -> Answer
    requires closed { machine.old ≡ None }
    requires kept { is_kept line.now ≡ true }
    ensures { Gives machine.old line.now result machine.new }
{
    let Some(step) = step_of(line) else {
        return Answer::Malformed;
    };
    match step {
        Step::Open {
            blocks,
            frames,
            workers,
        } => match Machine::open(alloc, blocks, frames, workers) {
            Ok(opened) => {
                *machine = Some(opened);
                Answer::Opened
            }
            Err(refusal) => Answer::Ended(refusal),
        },
        _ => Answer::Malformed,
    }
}

/// The outcome of a step after the opening.
fn later_answer(machine: &mut Machine, line: &[u8]) -> Answer
    requires { is_kept line.now ≡ true }
    ensures { Gives (Some machine.old) line.now result (Some machine.new) }
{
    let Some(step) = step_of(line) else {
        return Answer::Malformed;
    };
    match machine.take_step(step) {
        Ok(Some(reply)) => Answer::Replied(Ok(reply)),
        Ok(None) => Answer::Malformed,
        Err(refusal) => Answer::Replied(Err(refusal)),
    }
}

/// The outcome of the line with this number; lines are counted from 1.
pub(crate) fn answer_at(
    alloc: Global,
    machine: &mut Option<Machine>,
    number: u64,
    ending: Ending,
    line: &[u8],
) -> Answer
    ensures { Given number ending machine.old line.now result machine.new }
{
    match ending {
        Ending::TooLong => Answer::Malformed,
        _ => if number <= MAX_LINES {
            answer_to(alloc, machine, line)
        } else {
            Answer::Malformed
        },
    }
}
