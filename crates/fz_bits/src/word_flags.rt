//! A set of numbers below 64.

ghost use Rattle.std.specs.Prelude.{◌≡◌, ◌≤◌, ◌<◌, ℕ, IsFalse, MatchOption};
ghost use Rattle.std.specs.FinSet.{contains, insert, remove, empty};
ghost use Rattle.fz_bits.specs.Flags.{IsNext};

use std::marker::Model;

/// The number of bits of a word.
const BITS: u64 = 64;

/// A set of numbers below 64, as the bits of one word. It allocates nothing.
#[derive(Drop)]
pub(crate) struct WordFlags {
    bits: u64,
}

impl Model for WordFlags {
    ghost use Rattle.std.specs.Prelude.{◌∷◌, []};
    ghost use Rattle.fz_bits.specs.Flags.{Flagged, flagged_code, flagged};

    ghost Value = { Flagged };

    ghost coded = { flagged_code };

    ghost view = { λ f. record { size = 64; members = flagged 0 (f.bits ∷ []) } };
}

impl WordFlags {
    /// The empty set.
    pub(crate) fn new() -> WordFlags
        ensures { result ≡ record { size = 64; members = empty } }
    {
        WordFlags { bits: 0 }
    }

    /// Adds a number.
    pub(crate) fn insert(&mut self, number: u64)
        requires { number < 64 }
        ensures { self.new ≡ record self.old { members = insert self.old.members number } }
    {
        self.bits |= 1 << number;
    }

    /// Removes a number.
    pub(crate) fn remove(&mut self, number: u64)
        requires { number < 64 }
        ensures { self.new ≡ record self.old { members = remove self.old.members number } }
    {
        self.bits &= !(1 << number);
    }

    /// The lowest member that is at least `from`.
    pub(crate) fn next(&self, from: u64) -> Option<u64>
        ensures { MatchOption result ((n : ℕ) → from ≤ n → IsFalse (contains self.now.members n)) (λ next. IsNext self.now.members from next) }
    {
        let bits = self.bits;
        if from >= BITS {
            return None;
        }
        let rest = bits >> from << from;
        if rest == 0 {
            return None;
        }
        Some(u64::from(rest.trailing_zeros()))
    }
}
