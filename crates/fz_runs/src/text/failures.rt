//! A counter that exists only in proofs.

ghost use Rattle.std.specs.Prelude.{◌≡◌, ℕ, ◌+◌, ◌<◌};

use std::marker::Model;
use std::sync::ledger::{Blank, Book, Ledger, Share};

/// How often a device has failed. It occurs only in contracts: it has no size, and no code can read it.
#[derive(Drop)]
pub struct Failures<L: Ledger> {
    book: Book<L>,
    share: Share<L>,
}

impl<L: Ledger> Model for Failures<L> {
    ghost Value = { ℕ };

    ghost view = { λ f. f.book.total };

    ghost invariant = { λ f. 0 < f.share.parts };
}

impl<L: Ledger> Failures<L> {
    /// A counter at zero, in a ledger of one part.
    pub fn none(blank: Blank) -> Failures<L>
        requires name { blank.name ≡ L.name }
        requires parts { blank.parts ≡ L.parts }
        requires one { L.parts ≡ 1 }
        ensures { result ≡ 0 }
    {
        let (book, share) = blank.open();
        Failures { book, share }
    }

    /// Adds one failure.
    pub fn count(&mut self)
        ensures { self.new ≡ self.old + 1 }
    {
        self.book.add(&mut self.share, 1);
    }
}
