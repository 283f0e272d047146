//! How often the lock was taken.

ghost use Rattle.std.specs.Prelude.{◌≡◌};
ghost use Rattle.fz_model.specs.State.{opening};
ghost use Rattle.fz_world.specs.Does.{StandsFor};
ghost use Rattle.fz_service.specs.States.{one_more};

use crate::opening::Opening;
use fz_world::World;

/// A counter of the times that the lock was taken. Only an opening makes one, so no call can start it again.
#[derive(Drop)]
pub(crate) struct Holds {
    count: u64,
}

impl Holds {
    /// The counter of a service that was never entered. Requires its world, which must be new.
    pub(crate) fn at_opening<O: Opening>(_world: &World) -> Holds
        requires new { StandsFor _world.now (opening O.origin.blocks O.origin.frames) }
        ensures { result.count ≡ 0 }
    {
        Holds { count: 0 }
    }

    /// How often the lock was taken, modulo 2^64.
    pub(crate) fn count(&self) -> u64
        ensures { result ≡ self.now.count }
    {
        self.count
    }

    /// Counts one time more.
    pub(crate) fn add_one(&mut self)
        ensures { self.new.count ≡ one_more self.old.count }
    {
        self.count = self.count.wrapping_add(1);
    }
}
