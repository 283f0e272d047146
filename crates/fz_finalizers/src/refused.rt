//! The errors that calls return.

ghost use Rattle.std.specs.Prelude.{◌≡◌};

use std::alloc::AllocError;
use thiserror::Error;

/// Why a call of `Finalizers` was refused. A refused call changes no registration, link, ephemeron, cleanup or entry. It may have reserved room, or moved
/// entries in memory, which ends an iteration over roots.
#[derive(Clone, Copy, Debug, PartialEq, Eq, Error)]
pub enum Refused {
    /// Zero is neither an object nor a word.
    #[error("zero is no object, and no word")]
    Zero,
    /// All 2^48 registration numbers are used up.
    #[error("2^48 registrations have been numbered")]
    Exhausted,
    /// There are 2^32 of this kind already.
    #[error("there are 2^32 of this kind already")]
    Full,
    /// Out of memory. Returned only if no other cause of refusal applies.
    #[error("out of memory")]
    NoMemory,
    /// The entry isn't held.
    #[error("the entry isn't held")]
    NotHeld,
}

impl From<AllocError> for Refused {
    ghost use Rattle.fz_finalizers.specs.declared.refused.Refused.TheVariants.{NoMemory};

    ghost from_gives = { λ _ refused. refused ≡ NoMemory };

    fn from(_error: AllocError) -> Refused {
        Refused::NoMemory
    }
}
