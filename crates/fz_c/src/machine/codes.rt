//! The codes that C gets.

ghost use Rattle.std.specs.Prelude.{◌≡◌};
ghost use Rattle.fz_c.specs.MachineCodes.{code_of, code_of_refused};

use fz_machine::Refused;

/// The return type of every export.
pub type Code = u8;

/// The call was accepted.
pub(crate) const OK: Code = 0;

/// The handle is empty.
pub(crate) const NOT_OPEN: Code = 8;

/// The handle isn't empty.
pub(crate) const IS_OPEN: Code = 9;

/// Nothing is left.
pub(crate) const EMPTY: Code = 10;

/// Another word has the address or the link of one that is to be listed, or no word comes right before it.
pub(crate) const OVERLAP: Code = 18;

/// Out of memory.
pub(crate) const NO_MEMORY: Code = 4;

fn code_of_refused(refused: fz_finalizers::Refused) -> Code
    ensures { result ≡ code_of_refused refused }
{
    match refused {
        fz_finalizers::Refused::Zero => 1,
        fz_finalizers::Refused::Exhausted => 2,
        fz_finalizers::Refused::Full => 3,
        fz_finalizers::Refused::NoMemory => NO_MEMORY,
        fz_finalizers::Refused::NotHeld => 5,
    }
}

/// The code of a refusal.
pub(crate) fn code_of(refused: Refused) -> Code
    ensures { result ≡ code_of refused }
{
    match refused {
        Refused::PassOpen => 6,
        Refused::NoPass => 7,
        Refused::Finalizers(refused) => code_of_refused(refused),
    }
}
