//! The codes that C gets: 0, the number of a refusal, or a code of the C interface itself.

/// The return type of every export.
pub type Code = u8;

/// The call was accepted.
pub(crate) const OK: Code = 0;

/// The handle is empty.
pub(crate) const NO_WORLD: Code = 64;

/// The handle isn't empty.
pub(crate) const HAS_WORLD: Code = 65;

/// Nothing is left.
pub(crate) const EMPTY: Code = 66;

/// Another thread interfered.
pub(crate) const BUSY: Code = 67;

/// The seat has an entry in flight.
pub(crate) const IN_HAND: Code = 68;

/// The entry doesn't have the next number.
pub(crate) const NOT_NEXT: Code = 69;
