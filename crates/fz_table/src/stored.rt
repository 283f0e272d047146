//! A registration as the table stores it.

ghost use Rattle.std.specs.Prelude.{◌≡◌, true, if◌then◌else◌, ◌≤◌, ◌<◌, ◌+◌, ◌-◌, ◌^◌};
ghost use Rattle.fz_model.specs.Steps.{registration_of};
ghost use Rattle.fz_table.specs.Tabled.{counted, shown};

use fz_model::{Finalizer, RegKind, Registration, Word};

/// A registration, and whether it is of the kind unreachable (gc.h). The flag is a field beside the kind, since the model has only three kinds.
#[derive(Clone, Copy, Debug, PartialEq, Eq)]
pub struct Stored {
    /// The registration's number.
    pub number: u64,
    /// The number of the procedure.
    pub proc: u64,
    /// The client data.
    pub cd: Word,
    /// Which objects the registered object reaches first. For the kind unreachable these are the same as for the kind normal.
    pub kind: RegKind,
    /// Among registrations queued by one pass, lower ranks come first.
    pub rank: u8,
    /// Whether the registration is of the kind unreachable.
    pub unreachable: bool,
}

impl Stored {
    /// The registration of a finalizer under this number. A finalizer without a rank has rank 0.
    pub(crate) fn of(number: u64, finalizer: Finalizer, unreachable: bool) -> Stored
        ensures registration { shown result ≡ registration_of number finalizer }
        ensures flag { result.unreachable ≡ unreachable }
    {
        Stored {
            number,
            proc: finalizer.procedure,
            cd: finalizer.client_data,
            kind: finalizer.kind,
            rank: finalizer.rank.unwrap_or(0),
            unreachable,
        }
    }

    /// The registration without the flag.
    pub fn registration(self) -> Registration
        ensures { result ≡ shown self }
    {
        Registration {
            number: self.number,
            proc: self.proc,
            cd: self.cd,
            kind: self.kind,
            rank: self.rank,
        }
    }
}

/// How many flags there are after an object's flag has changed.
pub(crate) fn counted(flags: u64, was: bool, now: bool) -> u64
    requires few { now ≡ true → flags + 1 < 2 ^ 64 }
    ensures count { result ≡ counted flags was now }
    ensures more { result ≤ flags + (if now then 1 else 0) }
{
    match (was, now) {
        (false, true) => flags + 1,
        (true, false) => flags.saturating_sub(1),
        (false, false) | (true, true) => flags,
    }
}
