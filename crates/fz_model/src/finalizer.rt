//! What a program registers for an object.

ghost use Rattle.std.specs.Prelude.{◌≡◌};

use crate::Word;
use crate::kinds::RegKind;

/// A finalizer, as the program passes it to `register`.
#[derive(Clone, Copy, Debug, PartialEq, Eq)]
pub struct Finalizer {
    /// Which objects the registered object reaches first. This decides the order of finalization.
    pub kind: RegKind,
    /// The number of the procedure to call.
    pub procedure: u64,
    /// The client data, which the procedure gets as its argument.
    pub client_data: Word,
    /// Among registrations queued by one pass, lower ranks come first. `None` means rank 0.
    pub rank: Option<u8>,
}

impl Finalizer {
    ghost use Rattle.fz_model.specs.Places.{finalizer_of};

    /// A finalizer with the given rank.
    pub fn new(kind: RegKind, procedure: u64, client_data: Word, rank: u8) -> Finalizer
        ensures { result ≡ finalizer_of kind procedure client_data rank }
    {
        Finalizer {
            kind,
            procedure,
            client_data,
            rank: Some(rank),
        }
    }
}
