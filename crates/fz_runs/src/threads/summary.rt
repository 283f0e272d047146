//! The summary that a run of a threads file writes.

ghost use Rattle.std.specs.Prelude.{◌≡◌, ◌≤◌, ◌+◌, ◌++◌, ◌∷◌, [], length};
ghost use Rattle.arrayvec.specs.ArrayString.{array_string_len};
ghost use Rattle.fz_script.specs.Spelling.{Text, Number};
ghost use Rattle.fz_runs.specs.Devices.{Emits};
ghost use Rattle.fz_runs.specs.Written.{text_line};
ghost use Rattle.fz_runs.specs.Tallies.{summary_text};

use crate::text::{Sink, WriteFailed, write_all};
use crate::threads::tally::Tally;
use arrayvec::ArrayString;
use itoa::Buffer;

/// Room for seven lines of at most 32 bytes.
type Summary = ArrayString<256>;

/// Appends a line with a name and a number.
fn push_line(text: &mut Summary, name: &str, number: u64)
    requires room { array_string_len text.old + 32 ≤ 256 }
    requires short { length name.now ≤ 10 }
    ensures bytes { text.new.bytes ≡ text.old.bytes ++ text_line (Text name.now ∷ Number number ∷ []) }
    ensures len { array_string_len text.new ≤ array_string_len text.old + 32 }
{
    text.push_str(name);
    text.push_str(" ");
    text.push_str(Buffer::new().format(number));
    text.push_str("\n");
}

/// The lines of the summary.
fn summary_of(tally: Tally) -> Summary
    ensures { result.bytes ≡ summary_text tally }
{
    let mut text = Summary::new();
    push_line(&mut text, "enqueued", tally.enqueued);
    push_line(&mut text, "finished", tally.finished);
    push_line(&mut text, "forfeited", tally.forfeited);
    push_line(&mut text, "left", tally.left);
    push_line(&mut text, "passes", tally.passes);
    push_line(&mut text, "reclaimed", tally.reclaimed);
    push_line(&mut text, "refused", tally.refused);
    text
}

/// Writes the summary. This is one write, if the writer takes it whole.
pub(crate) fn write_summary<W: Sink>(writer: &mut W, tally: Tally) -> Result<(), WriteFailed>
    ensures { Emits (W.log writer.old) (summary_text tally) result (W.log writer.new) }
{
    let text = summary_of(tally);
    write_all(writer, text.as_str().as_bytes())
}
