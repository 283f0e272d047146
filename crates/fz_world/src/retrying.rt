//! Allocations that collect if there is no room.

ghost use Rattle.std.specs.Fn.{FnOnceReturnsAtMut};
ghost use Rattle.fz_model.specs.declared.call.Call.TheVariants as calls;
ghost use Rattle.fz_model.specs.Places.{slot_at};
ghost use Rattle.fz_model.specs.Calls.{result_of};
ghost use Rattle.fz_world.specs.Replies.{Replies};
ghost use Rattle.fz_world.specs.Retried.{TriesTwice};

use crate::world::World;
use fz_model::{Addr, ObjKind, Refusal};

impl World {
    /// Allocates an object as `alloc` does; if there is no room it collects, lets `work` run the queued finalizers, and tries once more. Objects whose
    /// entries `work` finishes are reclaimed by the next collection, not by this one. Takes time proportional to the heap if it collects.
    ///
    /// Fails with, in this order: `BadSlot`, `BadSize`, `Exhausted` after 2^48 births; then, if there is no room, `CycleOpen` in an open cycle and
    /// `Exhausted` at the 2^48th pass. In these cases nothing has changed. After the collection and `work`, the second try fails as `alloc` does, most often
    /// with `NoSpace`; the collection isn't undone.
    pub fn alloc_or_collect<F: FnOnce(&mut World)>(
        &mut self,
        frame: u64,
        slot: u64,
        size: u64,
        kind: ObjKind,
        work: F,
    ) -> Result<(Addr, u64), Refusal>
        requires { F.IsAlwaysCallable work }
        ensures { TriesTwice Replies (λ mid worked. FnOnceReturnsAtMut F.FnOnce work mid tt worked) (calls.Alloc (slot_at frame slot) size kind) self.old (result_of (calls.Alloc (slot_at frame slot) size kind) result) self.new }
    {
        match self.alloc(frame, slot, size, kind) {
            Err(Refusal::NoSpace) => {}
            answer => return answer,
        }
        if let Err(refusal) = self.collect() {
            return Err(refusal);
        }
        work(self);
        self.alloc(frame, slot, size, kind)
    }
}
