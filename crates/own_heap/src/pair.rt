//! Weak pairs.

ghost use Rattle.std.specs.Prelude.{◌≡◌, is_some, IfErr, IfOk, IfSome, IsTrue, MatchOption, OnErr, OnOk, None, Some};
ghost use Rattle.std.specs.FinMap.{get};
ghost use Rattle.fz_finalizers.specs.Causes.{IsJudgedOrLacks, link_causes};
ghost use Rattle.fz_finalizers.specs.Follows.{Follows, Link};
ghost use Rattle.fz_finalizers.specs.States.{Spends, UsesLink};
ghost use Rattle.own_heap.specs.Records.{address_of, slot, with_field_at};

use crate::record::{Field, RecordId};
use crate::runtime::Runtime;
use fz_finalizers::{LinkKind, Refused};
use fz_model::Addr;

/// A record whose first field is weak: it hides a reference to another record, which retains nothing, and is cleared once that record is lost. Until
/// then it has the record, also while a finalizer or a guardian has that. The other fields are like those of any record.
#[derive(Clone, Copy, Debug, PartialEq, Eq)]
pub struct WeakPair {
    pub(crate) id: RecordId,
}

impl WeakPair {
    /// Makes the first field of a record weak, and has it denote an existing record. It may have denoted another one before. Fails as `Runtime::link` does, and
    /// has no effect then.
    pub fn new(runtime: &mut Runtime, id: RecordId, first: RecordId) -> Result<WeakPair, Refused>
        requires { IsTrue (is_some (slot runtime.old.heap.records.slots.items first.place)) }
        ensures judged { IsJudgedOrLacks (link_causes runtime.old.finalizers.long (address_of id.place) (address_of first.place)) result }
        ensures fresh { IfErr result (λ r. r ≡ Refused.NoMemory → get runtime.old.finalizers.long (address_of id.place) ≡ None) }
        ensures wanting { IfErr result (λ r. r ≡ Refused.NoMemory → runtime.old.finalizers.rooms.long ≡ 0) }
        ensures refused { OnErr result ((runtime.new.finalizers.state ≡ runtime.old.finalizers.state) × (runtime.new.heap ≡ runtime.old.heap)) }
        ensures pair { IfOk result (λ pair. pair.id ≡ id) }
        ensures follows { OnOk result (Follows runtime.old.finalizers.state (Link LinkKind.Long (address_of id.place) (address_of first.place)) runtime.new.finalizers.state) }
        ensures set { OnOk result (runtime.new.heap.records.slots.items ≡ with_field_at id.place 0 (Field.Hidden first) runtime.old.heap.records.slots.items) }
        ensures rest { OnOk result (runtime.new.heap.roots ≡ runtime.old.heap.roots) }
        ensures room { Spends (UsesLink LinkKind.Long) result runtime.old.finalizers.rooms runtime.new.finalizers.rooms }
    {
        runtime.link(LinkKind::Long, id.address(), first)?;
        runtime.set(id, 0, Field::Hidden(first));
        Ok(WeakPair { id })
    }

    /// The pair as a record.
    pub fn id(self) -> RecordId
        ensures { result ≡ self.id }
    {
        self.id
    }

    /// The number of its link, which is the address of its first field.
    pub fn word(self) -> Addr
        ensures { result ≡ address_of self.id.place }
    {
        self.id.address()
    }

    /// The record that its first field denotes, or `None` since that was lost.
    pub fn first(self, runtime: &Runtime) -> Option<RecordId>
        ensures first { MatchOption result (get runtime.now.finalizers.long (address_of self.id.place) ≡ None) (λ id. get runtime.now.finalizers.long (address_of self.id.place) ≡ Some (address_of id.place)) }
        ensures stands { IfSome result (λ id. IsTrue (is_some (slot runtime.now.heap.records.slots.items id.place))) }
    {
        let Some(address) = runtime.target(LinkKind::Long, self.word()) else {
            return None;
        };
        let Some(id) = runtime.heap.find(address) else {
            return None;
        };
        Some(id)
    }
}
