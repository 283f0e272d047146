//! Calls by the addresses of objects and of their words, for a host that has an address and no slot for it.

ghost use Rattle.std.specs.Prelude.{◌≡◌, ◌+◌, IfErr, OnErr};
ghost use Rattle.std.specs.FinMap.{get};
ghost use Rattle.std.specs.Option.{IsNone};
ghost use Rattle.fz_model.specs.Events.{links_of};
ghost use Rattle.fz_world.specs.Addresses.{ByAddress, ByAddresses, Unregisters, Links, Unlinks, Moves};
ghost use Rattle.fz_world.specs.Registering.{RegistersFinalizer};
ghost use Rattle.fz_world.specs.World.{KeepsMarks};

use crate::links;
use crate::registrations::{check_start, enroll, is_off_heap, make_first_room};
use crate::world::World;
use fz_model::{Addr, Finalizer, LinkAnswer, LinkKind, MoveAnswer, Old, Refusal, RegAnswer, Word};

#[tactic(auto, using(fz_model::proofs::Judged::judged_more, fz_model::proofs::Judged::judged_err, crate::proofs::Whole::world_registered, crate::proofs::Whole::world_removed))]
impl World {
    /// Registers a finalizer for the object at this address, as `register_finalizer` does for the object at a slot's word. No slot has to hold the address.
    ///
    /// Fails with, in this order: `NotPointer`, `NotStart`, `Exhausted` after 2^48 numbers, `TableFull` for a 65,537th object, `NoMemory`. An address that is
    /// zero or outside the heap has no effect, and the result is `Outside`.
    pub fn register_at(&mut self, address: Word, finalizer: Finalizer) -> Result<RegAnswer, Refusal>
        ensures by { ByAddress self.old address self.new (λ old slot new. RegistersFinalizer old slot finalizer result new) }
        ensures slots { self.new.frames ≡ self.old.frames }
        ensures refused { OnErr result (self.new ≡ self.old) }
        ensures marks { KeepsMarks self.old self.new }
    {
        if is_off_heap(&self.marked.heap, address) {
            return Ok(RegAnswer::Outside);
        }
        check_start(&self.marked.heap, address)?;
        make_first_room(&mut self.finalizers, &self.marked.heap);
        let (number, old) = enroll(&mut self.finalizers, address, finalizer)?;
        Ok(RegAnswer::Number(number, old))
    }

    /// Removes the registration of the object at this address, as `unregister` does for the object at a slot's word.
    ///
    /// Fails with, in this order: `NotPointer`, `NotStart`. An address that is zero or outside the heap has no registration.
    pub fn unregister_at(&mut self, address: Word) -> Result<Option<Old>, Refusal>
        ensures by { ByAddress self.old address self.new (Unregisters result) }
        ensures slots { self.new.frames ≡ self.old.frames }
        ensures refused { OnErr result (self.new ≡ self.old) }
        ensures marks { KeepsMarks self.old self.new }
    {
        if is_off_heap(&self.marked.heap, address) {
            return Ok(None);
        }
        check_start(&self.marked.heap, address)?;
        Ok(self.finalizers.unregister(address))
    }

    /// Registers a disappearing link at `offset` words after this address, whose target is the object at the address `target`, as `link` does for two slots'
    /// words.
    ///
    /// Fails with, in this order: `NotPointer` and `OutsideObject` for the place, `NotPointer` and `NotStart` for the target, `TableFull` for a 65,537th link
    /// of its kind, `NoMemory`.
    pub fn link_at(
        &mut self,
        which: LinkKind,
        address: Word,
        offset: u64,
        target: Word,
    ) -> Result<LinkAnswer, Refusal>
        ensures by { ByAddresses self.old address target self.new (Links which offset result) }
        ensures slots { self.new.frames ≡ self.old.frames }
        ensures refused { OnErr result (self.new ≡ self.old) }
        // Only a new link can run out of memory.
        ensures growth { IfErr result (λ r. r ≡ Refusal.NoMemory → IsNone (get (links_of self.old.core which) (address + offset))) }
        ensures marks { KeepsMarks self.old self.new }
    {
        let link = links::ends(&self.marked.heap, address, offset, target)?;
        links::make_first_room(&mut self.finalizers, which, &self.marked.heap);
        links::enroll(&mut self.finalizers, which, link, target)
    }

    /// Removes the link at `offset` words after this address, as `unlink` does for a slot's word. Returns whether there was one.
    ///
    /// Fails with, in this order: `NotPointer`, `OutsideObject`.
    pub fn unlink_at(
        &mut self,
        which: LinkKind,
        address: Word,
        offset: u64,
    ) -> Result<bool, Refusal>
        ensures by { ByAddress self.old address self.new (Unlinks which offset result) }
        ensures slots { self.new.frames ≡ self.old.frames }
        ensures refused { OnErr result (self.new ≡ self.old) }
        ensures marks { KeepsMarks self.old self.new }
    {
        let link = self.marked.heap.place(address, offset)?;
        Ok(self.finalizers.unlink(which, link))
    }

    /// Moves a link from one place to another, as `move_link` does for two slots' words.
    ///
    /// Fails with, in this order: `NotPointer` and `OutsideObject` for the old place, the same for the new one.
    pub fn move_link_at(
        &mut self,
        which: LinkKind,
        address: Word,
        offset: u64,
        to: Word,
        to_offset: u64,
    ) -> Result<MoveAnswer, Refusal>
        ensures by { ByAddresses self.old address to self.new (Moves which offset to_offset result) }
        ensures slots { self.new.frames ≡ self.old.frames }
        ensures refused { OnErr result (self.new ≡ self.old) }
        ensures marks { KeepsMarks self.old self.new }
    {
        let (old, new) = links::places(&self.marked.heap, address, offset, to, to_offset)?;
        Ok(links::move_within(&mut self.finalizers, which, old, new))
    }
}
