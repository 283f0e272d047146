//! Reading lines.

ghost use Rattle.std.specs.Prelude.{◌≡◌, ◌≢◌, ℕ, ◌<◌, ◌≤◌, ◌+◌, ◌++◌, ◌==◌, length, get_or, position};
ghost use Rattle.fz_runs.specs.Devices.{with_unread};
ghost use Rattle.fz_runs.specs.Lines as lines;
ghost use Rattle.fz_runs.specs.Reading.{unread, Reads, Fills, MovesLine, EndsWithInput};

use crate::text::chunk::Chunk;
use crate::text::device::Source;
use arrayvec::ArrayVec;

/// The largest length of a line in bytes, without its LF.
pub const MAX_LINE: usize = 200;

/// A read failed.
#[derive(Clone, Copy, Debug, PartialEq, Eq)]
pub struct ReadFailed;

/// How the next line ends.
#[derive(Clone, Copy, Debug, PartialEq, Eq)]
pub enum Ending {
    /// With an LF.
    Whole,
    /// With the end of the input, after at least one byte.
    Last,
    /// There is no further line.
    Nothing,
    /// The line is too long.
    TooLong,
}

/// Makes sure that the buffer has an unread byte. Returns `false` at the end of the input.
fn fill<R: Source>(source: &mut R, chunk: &mut Chunk) -> Result<bool, ReadFailed>
    ensures { Fills (with_unread (unread chunk.old) (R.feed source.old)) result (unread chunk.new) (with_unread (unread chunk.new) (R.feed source.new)) }
{
    if chunk.at == chunk.len {
        match source.read(&mut chunk.bytes) {
            None => return Err(ReadFailed),
            Some(0) => return Ok(false),
            Some(count) => {
                chunk.at = 0;
                chunk.len = count;
            }
        }
    }
    Ok(true)
}

/// The index of the first LF.
fn line_feed_in(bytes: &[u8]) -> Option<usize>
    ensures { result ≡ position (λ byte. byte == 10) bytes.now }
{
    bytes.iter().position(|byte| *byte == b'\n')
}

/// The number of bytes before the first LF; without an LF, all of them.
#[tactic(auto, using(crate::proofs::Reading::feed_at, crate::proofs::Reading::no_feed))]
fn line_length(bytes: &[u8]) -> usize
    ensures within { result ≤ length bytes.now }
    ensures before { (i : ℕ) → i < result → get_or bytes.now i 0 ≢ 10 }
    ensures feed { result < length bytes.now → get_or bytes.now result 0 ≡ 10 }
{
    match line_feed_in(bytes) {
        Some(place) => place,
        None => bytes.len(),
    }
}

fn append(line: &mut ArrayVec<u8, MAX_LINE>, bytes: &[u8])
    requires { length line.old.items + length bytes.now ≤ lines.max_line }
    ensures { line.new.items ≡ line.old.items ++ bytes.now }
{
    line.try_extend_from_slice(bytes).unwrap();
}

/// Moves unread bytes of the line from the buffer to `line`. Returns how the line ends, if its end was reached.
fn move_line(chunk: &mut Chunk, line: &mut ArrayVec<u8, MAX_LINE>) -> Option<Ending>
    ensures { MovesLine (unread chunk.old) line.old.items result (unread chunk.new) line.new.items }
{
    let unread = chunk.unread();
    let end = line_length(unread);
    let room = line.remaining_capacity();
    if room < end {
        append(line, &unread[..room]);
        chunk.advance(room + 1);
        return Some(Ending::TooLong);
    }
    append(line, &unread[..end]);
    if end < unread.len() {
        chunk.advance(end + 1);
        return Some(Ending::Whole);
    }
    chunk.advance(end);
    None
}

/// How a line ends that reaches the end of the input.
fn last_ending(line: &ArrayVec<u8, MAX_LINE>) -> Ending
    ensures { EndsWithInput result line.now.items }
{
    if line.is_empty() {
        Ending::Nothing
    } else {
        Ending::Last
    }
}

/// Reads the next line, without its LF. Of a line that is too long it consumes one byte more than the limit.
pub fn next_line<R: Source>(
    source: &mut R,
    chunk: &mut Chunk,
    line: &mut ArrayVec<u8, MAX_LINE>,
) -> Result<Ending, ReadFailed>
    ensures { Reads (with_unread (unread chunk.old) (R.feed source.old)) result line.new.items (unread chunk.new) (with_unread (unread chunk.new) (R.feed source.new)) }
{
    line.clear();
    loop {
        if !fill(source, chunk)? {
            return Ok(last_ending(line));
        }
        if let Some(ending) = move_line(chunk, line) {
            return Ok(ending);
        }
    }
}

/// Whether a line is a step or job: it isn't empty, and isn't a comment, which begins with `#`.
pub fn is_kept(line: &[u8]) -> bool
    ensures { result ≡ lines.is_kept line.now }
{
    match line {
        [] => false,
        [first, ..] => *first != b'#',
    }
}
