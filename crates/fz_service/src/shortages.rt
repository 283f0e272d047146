//! How often memory ran out.

ghost use Rattle.std.specs.Prelude.{◌≡◌, IsSome};
ghost use Rattle.std.specs.Option.{IsNone};
ghost use Rattle.fz_service.specs.States.{one_more};

use crate::room::NoRoom;
use fz_line::Shortage;

/// A counter of shortages, which only a push or a reservation that ran out of memory increments.
#[derive(Drop)]
pub(crate) struct Shortages {
    count: u64,
}

impl Shortages {
    pub(crate) fn none() -> Shortages
        ensures { result.count ≡ 0 }
    {
        Shortages { count: 0 }
    }

    /// How many shortages there were, modulo 2^64.
    pub(crate) fn count(&self) -> u64
        ensures { result ≡ self.now.count }
    {
        self.count
    }

    fn add_one(&mut self)
        ensures { self.new.count ≡ one_more self.old.count }
    {
        self.count = self.count.wrapping_add(1);
    }

    /// Counts the shortage of a push, if there is one.
    pub(crate) fn note(&mut self, shortage: Option<Shortage>)
        ensures counted { IsSome shortage → self.new.count ≡ one_more self.old.count }
        ensures same { IsNone shortage → self.new.count ≡ self.old.count }
    {
        if let Some(_counted) = shortage {
            self.add_one();
        }
    }

    /// Counts a reservation that failed.
    pub(crate) fn note_room(&mut self, _no_room: &NoRoom)
        ensures { self.new.count ≡ one_more self.old.count }
    {
        self.add_one();
    }
}
