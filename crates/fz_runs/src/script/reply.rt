//! The replies of a report.

ghost use Rattle.std.specs.Prelude.{◌≡◌};
ghost use Rattle.fz_runs.specs.Devices.{Emits};
ghost use Rattle.fz_runs.specs.Replies.{called_words, registered_words, unregistered_words, linked_words, unlinked_words, moved_words, marked_words, passed_words, taken_words, end_words};
ghost use Rattle.fz_runs.specs.Written.{text_line, done, refused_words, malformed_words};
ghost use Rattle.fz_runs.specs.Machines.{words_of, result_words};

use crate::script::run::Summary;
use crate::text::{Sink, Word, WriteFailed, write_all, write_line, write_refused};
use fz_model::{Entry, LinkAnswer, MoveAnswer, Old, Passed, Progress, Refusal, RegAnswer, Reply};

/// What an accepted step returns.
#[derive(Clone, Copy, Debug, PartialEq, Eq)]
pub(crate) enum StepReply {
    /// The result of the world's call.
    Called(Reply),
    /// The entry that the worker took, if there was one.
    Taken(Option<Entry>),
    /// The address of the worker's object is in the slot.
    Held,
    /// The worker has finished its entry.
    Finished,
    /// The worker has abandoned its entry.
    Forfeited,
}

fn write_registered<W: Sink>(writer: &mut W, answer: RegAnswer) -> Result<(), WriteFailed>
    ensures { Emits (W.log writer.old) (text_line (registered_words answer)) result (W.log writer.new) }
{
    match answer {
        RegAnswer::Outside => write_line(writer, &[Word::Text("outside")]),
        RegAnswer::Number(number, None) => write_line(
            writer,
            &[Word::Text("reg"), Word::Number(number)],
        ),
        RegAnswer::Number(number, Some(old)) => write_line(
            writer,
            &[
                Word::Text("reg"),
                Word::Number(number),
                Word::Text("old"),
                Word::Number(old.proc),
                Word::Number(old.cd),
            ],
        ),
    }
}

fn write_unregistered<W: Sink>(writer: &mut W, old: Option<Old>) -> Result<(), WriteFailed>
    ensures { Emits (W.log writer.old) (text_line (unregistered_words old)) result (W.log writer.new) }
{
    match old {
        None => write_line(writer, &[Word::Text("none")]),
        Some(old) => write_line(
            writer,
            &[
                Word::Text("old"),
                Word::Number(old.proc),
                Word::Number(old.cd),
            ],
        ),
    }
}

fn write_linked<W: Sink>(writer: &mut W, answer: LinkAnswer) -> Result<(), WriteFailed>
    ensures { Emits (W.log writer.old) (text_line (linked_words answer)) result (W.log writer.new) }
{
    match answer {
        LinkAnswer::Success => write_line(writer, &[Word::Text("success")]),
        LinkAnswer::Duplicate => write_line(writer, &[Word::Text("duplicate")]),
    }
}

fn write_unlinked<W: Sink>(writer: &mut W, there: bool) -> Result<(), WriteFailed>
    ensures { Emits (W.log writer.old) (text_line (unlinked_words there)) result (W.log writer.new) }
{
    match there {
        true => write_line(writer, &[Word::Text("true")]),
        false => write_line(writer, &[Word::Text("false")]),
    }
}

fn write_moved<W: Sink>(writer: &mut W, answer: MoveAnswer) -> Result<(), WriteFailed>
    ensures { Emits (W.log writer.old) (text_line (moved_words answer)) result (W.log writer.new) }
{
    match answer {
        MoveAnswer::Success => write_line(writer, &[Word::Text("success")]),
        MoveAnswer::Duplicate => write_line(writer, &[Word::Text("duplicate")]),
        MoveAnswer::NotFound => write_line(writer, &[Word::Text("notfound")]),
    }
}

fn write_marked<W: Sink>(writer: &mut W, progress: Progress) -> Result<(), WriteFailed>
    ensures { Emits (W.log writer.old) (text_line (marked_words progress)) result (W.log writer.new) }
{
    match progress {
        Progress::More => write_line(writer, &[Word::Text("more")]),
        Progress::Done => write_line(writer, &[Word::Text("done")]),
    }
}

fn write_passed<W: Sink>(writer: &mut W, passed: Passed) -> Result<(), WriteFailed>
    ensures { Emits (W.log writer.old) (text_line (passed_words passed)) result (W.log writer.new) }
{
    write_line(
        writer,
        &[
            Word::Text("pass"),
            Word::Number(passed.pass),
            Word::Text("picked"),
            Word::Number(passed.picked),
            Word::Text("reclaimed"),
            Word::Number(passed.reclaimed),
        ],
    )
}

fn write_taken<W: Sink>(writer: &mut W, entry: Option<Entry>) -> Result<(), WriteFailed>
    ensures { Emits (W.log writer.old) (text_line (taken_words entry)) result (W.log writer.new) }
{
    match entry {
        None => write_line(writer, &[Word::Text("empty")]),
        Some(entry) => write_line(
            writer,
            &[
                Word::Text("entry"),
                Word::Number(entry.seq),
                Word::Number(entry.pass),
                Word::Number(entry.reg),
                Word::Number(entry.obj),
                Word::Number(entry.birth),
                Word::Number(entry.proc),
                Word::Number(entry.cd),
            ],
        ),
    }
}

pub(crate) fn write_done<W: Sink>(writer: &mut W) -> Result<(), WriteFailed>
    ensures { Emits (W.log writer.old) (text_line done) result (W.log writer.new) }
{
    write_all(writer, b"ok\n")
}

pub(crate) fn write_end<W: Sink>(writer: &mut W, summary: Summary) -> Result<(), WriteFailed>
    ensures { Emits (W.log writer.old) (text_line (end_words summary)) result (W.log writer.new) }
{
    write_line(
        writer,
        &[
            Word::Text("end"),
            Word::Text("enqueued"),
            Word::Number(summary.enqueued),
            Word::Text("finished"),
            Word::Number(summary.finished),
            Word::Text("forfeited"),
            Word::Number(summary.forfeited),
            Word::Text("in_hand"),
            Word::Number(summary.in_hand),
            Word::Text("left"),
            Word::Number(summary.left),
        ],
    )
}

fn write_called<W: Sink>(writer: &mut W, reply: Reply) -> Result<(), WriteFailed>
    ensures { Emits (W.log writer.old) (text_line (called_words reply)) result (W.log writer.new) }
{
    match reply {
        Reply::Done => write_done(writer),
        Reply::Allocated { address, birth } => write_line(
            writer,
            &[
                Word::Text("new"),
                Word::Number(address),
                Word::Number(birth),
            ],
        ),
        Reply::Word(word) => write_line(writer, &[Word::Text("word"), Word::Number(word)]),
        Reply::Registered(answer) => write_registered(writer, answer),
        Reply::Unregistered(old) => write_unregistered(writer, old),
        Reply::Linked(answer) => write_linked(writer, answer),
        Reply::Unlinked(there) => write_unlinked(writer, there),
        Reply::Moved(answer) => write_moved(writer, answer),
        Reply::Marked(progress) => write_marked(writer, progress),
        Reply::Passed(passed) => write_passed(writer, passed),
        Reply::Outstanding(count) => write_line(
            writer,
            &[Word::Text("outstanding"), Word::Number(count)],
        ),
    }
}

fn write_accepted<W: Sink>(writer: &mut W, reply: StepReply) -> Result<(), WriteFailed>
    ensures { Emits (W.log writer.old) (text_line (words_of reply)) result (W.log writer.new) }
{
    match reply {
        StepReply::Called(reply) => write_called(writer, reply),
        StepReply::Taken(entry) => write_taken(writer, entry),
        StepReply::Held | StepReply::Finished | StepReply::Forfeited => write_done(writer),
    }
}

pub(crate) fn write_reply<W: Sink>(
    writer: &mut W,
    reply: Result<StepReply, Refusal>,
) -> Result<(), WriteFailed>
    ensures { Emits (W.log writer.old) (text_line (result_words reply)) result (W.log writer.new) }
{
    match reply {
        Ok(reply) => write_accepted(writer, reply),
        Err(refusal) => write_refused(writer, refusal),
    }
}
