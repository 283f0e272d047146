//! Running a whole script.

ghost use Rattle.std.specs.Prelude.{None, ◌≡◌, ◌<◌, ◌^◌};
ghost use Rattle.fz_runs.specs.Report.{Drives};
ghost use Rattle.fz_runs.specs.Machines.{counts_after, summary_at, TellsAnswer, Finishes};

use crate::script::answer::{Answer, answer_at};
use crate::script::machine::Machine;
use crate::script::reply::{StepReply, write_done, write_end, write_reply};
use crate::text::{
    Chunk, DriveFault, Ending, Sink, Source, next_line, write_malformed, write_refused,
};
use arrayvec::ArrayVec;
use fz_model::Refusal;
use std::alloc::Global;

/// The totals of a run.
#[derive(Clone, Copy, Debug, PartialEq, Eq)]
pub struct Summary {
    /// The steps, including the opening.
    pub steps: u64,
    /// The steps that were refused.
    pub refused: u64,
    /// The entries that passes queued.
    pub enqueued: u64,
    /// The entries that workers finished.
    pub finished: u64,
    /// The entries that workers abandoned.
    pub forfeited: u64,
    /// The entries in workers' hands.
    pub in_hand: u64,
    /// The entries that no worker took.
    pub left: u64,
}

/// Counts of the steps so far.
#[derive(Clone, Copy)]
pub(crate) struct Counts {
    steps: u64,
    refused: u64,
    finished: u64,
    forfeited: u64,
}

const NO_COUNTS: Counts = Counts {
    steps: 0,
    refused: 0,
    finished: 0,
    forfeited: 0,
};

impl Counts {
    /// The counts after a line with this outcome.
    fn after(self, answer: Answer) -> Counts
        requires steps { self.steps < 2 ^ 32 }
        requires refused { self.refused < 2 ^ 32 }
        requires finished { self.finished < 2 ^ 32 }
        requires forfeited { self.forfeited < 2 ^ 32 }
        ensures { result ≡ counts_after self answer }
    {
        let mut counts = self;
        match answer {
            Answer::Opened => counts.steps += 1,
            Answer::Replied(Ok(StepReply::Finished)) => {
                counts.steps += 1;
                counts.finished += 1;
            }
            Answer::Replied(Ok(StepReply::Forfeited)) => {
                counts.steps += 1;
                counts.forfeited += 1;
            }
            Answer::Replied(Ok(_)) => counts.steps += 1,
            Answer::Replied(Err(_)) => {
                counts.steps += 1;
                counts.refused += 1;
            }
            Answer::Skipped | Answer::Ended(_) | Answer::Malformed => {}
        }
        counts
    }

    /// The totals of the run that led to this machine.
    fn summary(self, machine: &Machine) -> Summary
        ensures { result ≡ summary_at machine.now self }
    {
        Summary {
            steps: self.steps,
            refused: self.refused,
            enqueued: machine.enqueued(),
            finished: self.finished,
            forfeited: self.forfeited,
            in_hand: machine.in_hand(),
            left: machine.left(),
        }
    }
}

fn fault(refusal: Refusal, line: u64) -> DriveFault
    ensures { result ≡ record { refusal = refusal; line = line } }
{
    DriveFault { refusal, line }
}

/// Runs the script that the reader delivers, and writes its report.
///
/// A step that the world refuses is reported, and the run continues.
pub fn drive<R: Source, W: Sink>(
    alloc: Global,
    reader: &mut R,
    writer: &mut W,
) -> Result<Summary, DriveFault>
    ensures { Drives (R.feed reader.old) (W.log writer.old) result (R.feed reader.new) (W.log writer.new) }
{
    let mut chunk = Chunk::new();
    let mut line = ArrayVec::new();
    let mut machine = None;
    let mut counts = NO_COUNTS;
    let mut number = 1;
    'lines: loop {
        let Ok(ending) = next_line(reader, &mut chunk, &mut line) else {
            return Err(fault(Refusal::Input, number));
        };
        if let Ending::Nothing = ending {
            return finish(writer, number, &machine, counts);
        }
        let answer = answer_at(alloc, &mut machine, number, ending, line.as_slice());
        if let Err(fault) = tell(writer, number, answer) {
            return Err(fault);
        }
        counts = counts.after(answer);
        number += 1;
        if let Ending::Last = ending {
            return finish(writer, number, &machine, counts);
        }
    }
}

/// Writes the outcome of a line. The run continues after `Ok`.
fn tell<W: Sink>(writer: &mut W, number: u64, answer: Answer) -> Result<(), DriveFault>
    ensures { TellsAnswer number answer (W.log writer.old) result (W.log writer.new) }
{
    let failed = fault(Refusal::Output, number);
    match answer {
        Answer::Skipped => Ok(()),
        Answer::Opened => write_done(writer).map_err(|_| failed),
        Answer::Replied(reply) => write_reply(writer, reply).map_err(|_| failed),
        Answer::Ended(refusal) => match write_refused(writer, refusal) {
            Ok(()) => Err(fault(refusal, number)),
            Err(_) => Err(failed),
        },
        Answer::Malformed => match write_malformed(writer, number) {
            Ok(()) => Err(fault(Refusal::BadLine, number)),
            Err(_) => Err(failed),
        },
    }
}

/// Ends the report. The next line would have this number.
fn finish<W: Sink>(
    writer: &mut W,
    number: u64,
    machine: &Option<Machine>,
    counts: Counts,
) -> Result<Summary, DriveFault>
    ensures { Finishes number machine.now counts (W.log writer.old) result (W.log writer.new) }
{
    match machine {
        None => match write_malformed(writer, number) {
            Ok(()) => Err(fault(Refusal::BadLine, number)),
            Err(_) => Err(fault(Refusal::Output, number)),
        },
        Some(machine) => {
            let summary = counts.summary(machine);
            match write_end(writer, summary) {
                Ok(()) => Ok(summary),
                Err(_) => Err(fault(Refusal::Output, number)),
            }
        }
    }
}
