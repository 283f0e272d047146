//! The members of a set, in ascending order.

ghost use Rattle.std.specs.Prelude.{◌≡◌};
ghost use Rattle.std.specs.Iterator.{YieldsFirst, item_count};

use crate::flags::Flags;
use std::marker::Model;

/// An iterator over the members of a set, in ascending order. Its model is the list of the remaining members.
#[derive(Drop)]
pub struct Members<'a, const FIRST: u64> {
    flags: &'a Flags<FIRST>,
    from: Option<u64>,
}

impl<'a, const FIRST: u64> Model for Members<'a, FIRST> {
    ghost use Rattle.std.specs.Prelude.{List, ℕ};
    ghost use Rattle.fz_bits.specs.Flags.{members_left};

    ghost Value = { List ℕ };

    ghost view = { λ m. members_left FIRST m.flags.now m.from };
}

impl<'a, const FIRST: u64> Members<'a, FIRST> {
    ghost use Rattle.fz_bits.specs.Flags.{members_from};

    /// An iterator over all members of a set.
    pub(crate) fn of(flags: &'a Flags<FIRST>) -> Members<'a, FIRST>
        ensures { result ≡ members_from FIRST flags.now FIRST }
    {
        Members {
            flags,
            from: Some(FIRST),
        }
    }
}

impl<const FIRST: u64> Iterator for Members<'_, FIRST> {
    type Item = u64;

    ghost next_gives = { YieldsFirst (λ rest. rest) };

    ghost remaining = { item_count (λ rest. rest) };

    fn next(&mut self) -> Option<u64> {
        let member = self.flags.next(self.from?)?;
        self.from = member.checked_add(1);
        Some(member)
    }
}
