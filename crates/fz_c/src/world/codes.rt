//! The codes that C gets: 0, the number of a refusal, or a code of the C interface itself.

ghost use Rattle.std.specs.Prelude.{◌≡◌};
ghost use Rattle.fz_c.specs.Told.{IsTold};
ghost use Rattle.fz_c.specs.Places.{TellsWord};

use fz_model::{Refusal, Word};

/// The return type of every export. The interface's own codes begin at 64, to leave room for further refusals.
pub type Code = u8;

/// The call was accepted, or the reader found what was asked for.
pub(crate) const OK: Code = 0;

/// The handle has no world.
pub(crate) const NO_WORLD: Code = 64;

/// The handle has a world already.
pub(crate) const HAS_WORLD: Code = 65;

/// Nothing is left.
pub(crate) const EMPTY: Code = 66;

/// The code of a reply without a value.
pub(crate) fn tell(reply: Result<(), Refusal>) -> Code
    ensures { IsTold reply result (λ _. Unit {0}) (Unit {0}) }
{
    match reply {
        Ok(()) => OK,
        Err(refusal) => refusal.code(),
    }
}

/// The code of a reply with a word. An accepted call stores the word.
pub(crate) fn tell_word(reply: Result<Word, Refusal>, word: &mut u64) -> Code
    ensures { IsTold reply result (TellsWord word.new) (word.new ≡ word.old) }
{
    match reply {
        Ok(found) => {
            *word = found;
            OK
        }
        Err(refusal) => refusal.code(),
    }
}
