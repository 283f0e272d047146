//! Writing lines of words, each with one write.

ghost use Rattle.std.specs.Prelude.{◌≡◌, ◌≤◌, ◌+◌, ◌++◌, [], IsTrue, map, true};
ghost use Rattle.arrayvec.specs.ArrayString.{array_string_len};
ghost use Rattle.fz_script.specs.Spelling.{text};
ghost use Rattle.fz_runs.specs.Devices.{Emits};
ghost use Rattle.fz_runs.specs.Written.{text_line};
ghost use Rattle.fz_runs.specs.Words.{said, separator, is_short, fits_line};

use crate::text::device::Sink;
use arrayvec::ArrayString;
use itoa::Buffer;

/// A write failed, or took no byte.
#[derive(Clone, Copy, Debug, PartialEq, Eq)]
pub struct WriteFailed;

/// One word of a line.
#[derive(Clone, Copy)]
pub enum Word {
    Text(&'static str),
    Number(u64),
}

/// Room for twelve words of at most 20 bytes, each followed by one byte.
type Line = ArrayString<256>;

/// Writes all these bytes, with as many writes as the writer needs.
pub fn write_all<W: Sink>(writer: &mut W, bytes: &[u8]) -> Result<(), WriteFailed>
    ensures { Emits (W.log writer.old) bytes.now result (W.log writer.new) }
{
    let mut rest = bytes;
    while !rest.is_empty() {
        match writer.write(rest) {
            None => return Err(WriteFailed),
            Some(0) => return Err(WriteFailed),
            Some(count) => rest = &rest[count..],
        }
    }
    Ok(())
}

/// Appends the space before the word with this index, unless it is the first. Words are counted from 0.
fn push_separator(line: &mut Line, place: usize)
    requires room { array_string_len line.old + 1 ≤ 256 }
    ensures bytes { line.new.bytes ≡ line.old.bytes ++ separator place }
    ensures len { array_string_len line.new ≤ array_string_len line.old + 1 }
{
    if place > 0 {
        line.push_str(" ");
    }
}

fn push_word(line: &mut Line, word: Word)
    requires room { array_string_len line.old + 20 ≤ 256 }
    requires short { is_short word ≡ true }
    ensures bytes { line.new.bytes ≡ line.old.bytes ++ text (said word) }
    ensures len { array_string_len line.new ≤ array_string_len line.old + 20 }
{
    match word {
        Word::Text(text) => line.push_str(text),
        Word::Number(number) => line.push_str(Buffer::new().format(number)),
    }
}

/// Puts the words into an empty line, separated by single spaces and ended by an LF.
fn put_words(line: &mut Line, words: &[Word])
    requires empty { line.old.bytes ≡ [] }
    requires fits { fits_line words.now ≡ true }
    ensures { line.new.bytes ≡ text_line (map said words.now) }
{
    for (place, word) in words.iter().enumerate() {
        push_separator(line, place);
        push_word(line, *word);
    }
    line.push_str("\n");
}

/// Writes the words as a line. This is one write, if the writer takes the whole line.
pub fn write_line<W: Sink>(writer: &mut W, words: &[Word]) -> Result<(), WriteFailed>
    requires { fits_line words.now ≡ true }
    ensures { Emits (W.log writer.old) (text_line (map said words.now)) result (W.log writer.new) }
{
    let mut line = Line::new();
    put_words(&mut line, words);
    write_all(writer, line.as_str().as_bytes())
}
