//! The output for refused and malformed lines.

ghost use Rattle.fz_runs.specs.Devices.{Emits};
ghost use Rattle.fz_runs.specs.Written.{text_line, refused_words, malformed_words};

use crate::text::device::Sink;
use crate::text::output::{Word, WriteFailed, write_line};
use fz_model::Refusal;

/// Writes `refused`, the refusal's number and its name.
pub fn write_refused<W: Sink>(writer: &mut W, refusal: Refusal) -> Result<(), WriteFailed>
    ensures { Emits (W.log writer.old) (text_line (refused_words refusal)) result (W.log writer.new) }
{
    write_line(
        writer,
        &[
            Word::Text("refused"),
            Word::Number(u64::from(refusal.code())),
            Word::Text(refusal.name()),
        ],
    )
}

/// Writes `line`, its number, and the refusal of a malformed line.
pub fn write_malformed<W: Sink>(writer: &mut W, number: u64) -> Result<(), WriteFailed>
    ensures { Emits (W.log writer.old) (text_line (malformed_words number)) result (W.log writer.new) }
{
    write_line(
        writer,
        &[
            Word::Text("line"),
            Word::Number(number),
            Word::Text("refused"),
            Word::Number(u64::from(Refusal::BadLine.code())),
            Word::Text(Refusal::BadLine.name()),
        ],
    )
}
