//! The words of a line, read one by one.

ghost use Rattle.std.specs.Prelude.{◌≡◌, ◌==◌, option_map, position, [], ◌↔◌, IsTrue, IfSome, Some, None};
ghost use Rattle.fz_script.specs.Reading.{words_left, words_of, word_at, step_at, with_rest, end_at};

use crate::fields::Field;
use std::str;

/// The rest of a line, beginning with the next word.
///
/// Words are separated by single spaces, so a second space makes an empty word, which is no field. A word is consumed even if it isn't what was asked for.
#[derive(Drop)]
pub(crate) struct Words<'a> {
    /// The line from the next word on; `None` after the last word.
    rest: Option<&'a [u8]>,
}

impl<'a> Words<'a> {
    /// All words of this line.
    pub(crate) fn of(line: &'a [u8]) -> Words<'a>
        ensures { words_left result ≡ words_of line.now }
    {
        Words { rest: Some(line) }
    }

    /// The next word.
    pub(crate) fn next(&mut self) -> Option<&'a [u8]>
        ensures { word_at (words_left self.old)
            ≡ with_rest (option_map (λ word. word.now) result) (words_left self.new) }
    {
        let rest = self.rest?;
        match space_in(rest) {
            Some(at) => {
                self.rest = Some(&rest[at + 1..]);
                Some(&rest[..at])
            }
            None => {
                self.rest = None;
                Some(rest)
            }
        }
    }

    /// The next word as UTF-8 text. If it isn't UTF-8, it is no verb.
    pub(crate) fn verb(&mut self) -> Option<&'a str>
        ensures some { IfSome result (λ verb. word_at (words_left self.old) ≡ Some (verb.now, words_left self.new)) }
        ensures none { result ≡ None → step_at (words_left self.old) ≡ None }
    {
        let Ok(verb) = str::from_utf8(self.next()?) else {
            return None;
        };
        Some(verb)
    }

    /// Reads a field from the next words.
    pub(crate) fn read<T: Field>(&mut self) -> Option<T>
        ensures { T.reads (words_left self.old) ≡ with_rest result (words_left self.new) }
    {
        T::read(self)
    }

    /// Whether no words are left.
    pub(crate) fn is_empty(&self) -> bool
        ensures { IsTrue result ↔ (words_left self.now ≡ []) }
    {
        self.rest.is_none()
    }

    /// `Some` if no words are left. It returns `None` otherwise, so that `?` handles an extra word like any other error.
    pub(crate) fn end(&mut self) -> Option<()>
        ensures { end_at (words_left self.old) ≡ option_map (λ _. tt) result }
    {
        match self.next() {
            None => Some(()),
            Some(_) => None,
        }
    }
}

/// The index of the first space.
fn space_in(bytes: &[u8]) -> Option<usize>
    ensures { result ≡ position (λ byte. byte == 32) bytes.now }
{
    bytes.iter().position(|byte| *byte == b' ')
}
