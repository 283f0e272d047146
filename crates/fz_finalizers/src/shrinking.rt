//! Giving back memory.

ghost use Rattle.std.specs.Prelude.{◌≡◌, ◌≤◌, IsTrue};
ghost use Rattle.fz_finalizers.specs.States.{KeepsTables};

use crate::finalizers::Finalizers;

impl Finalizers {
    /// Frees the memory that registrations, links, ephemerons, cleanups and entries don't need. If a smaller table or list can't be allocated, the old one
    /// stays. An iteration over roots has to begin anew. Takes time proportional to all of these. A pass never calls it.
    pub fn shrink(&mut self)
        ensures state { self.new.state ≡ self.old.state }
        ensures order { KeepsTables self.old.order self.new.order }
        ensures whole { self.new.memory.whole ≡ self.old.memory.whole }
        ensures memory { IsTrue self.old.memory.whole → self.new.memory ≡ self.old.memory }
    {
        self.table.shrink();
        self.short.shrink();
        self.long.shrink();
        let links = self.short.len().max(self.long.len());
        self.moves.shrink_to(links.div_ceil(2));
        self.ephemerons.shrink();
        self.cleanups.shrink();
        self.ready.shrink(self.table.len() + self.cleanups.len());
    }
}
