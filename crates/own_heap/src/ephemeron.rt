//! Ephemeron pairs.

ghost use Rattle.std.specs.Prelude.{◌≡◌, ◌⊎◌, is_some, IfOk, IfErr, IfSome, IsTrue, MatchOption, OnErr, OnOk, None, Some};
ghost use Rattle.std.specs.FinMap.{contains_key, get};
ghost use Rattle.fz_finalizers.specs.Causes.{IsJudgedOrLacks, link_causes};
ghost use Rattle.fz_finalizers.specs.Follows.{Follows, Ephemeron};
ghost use Rattle.fz_finalizers.specs.States.{IsRoomier};
ghost use Rattle.own_heap.specs.Keyed.{HasKey};
ghost use Rattle.own_heap.specs.Records.{address_of, objects_of, slot, value_of, with_field_at};

use crate::record::{Field, RecordId};
use crate::runtime::Runtime;
use fz_finalizers::{LinkKind, Refused};
use fz_model::Addr;

/// The address of the key of a word's short ephemeron.
fn short_key(runtime: &Runtime, word: Addr) -> Option<Addr>
    ensures { result ≡ get runtime.now.finalizers.ephemerons.short word }
{
    match runtime.key(word) {
        Some((LinkKind::Short, key)) => Some(key),
        Some((LinkKind::Long, _)) | None => None,
    }
}

/// A record whose first field is an ephemeron: it has two other records, a key and a value, as long as something else has the key. It never retains its key,
/// even if its value leads to that. Once a collection doesn't find the key, the pair has neither. The other fields are like those of any record.
#[derive(Clone, Copy, Debug, PartialEq, Eq)]
pub struct EphemeronPair {
    pub(crate) id: RecordId,
}

impl EphemeronPair {
    /// Makes the first field of a record an ephemeron of an existing record, its key, and has it hide the value. It may have been one before. Fails as
    /// `Runtime::ephemeron` does, and has no effect then.
    pub fn new(
        runtime: &mut Runtime,
        id: RecordId,
        key: RecordId,
        value: RecordId,
    ) -> Result<EphemeronPair, Refused>
        requires { IsTrue (is_some (slot runtime.old.heap.records.slots.items key.place)) }
        ensures judged { IsJudgedOrLacks (link_causes runtime.old.finalizers.ephemerons.short (address_of id.place) (address_of key.place)) result }
        ensures fresh { IfErr result (λ r. r ≡ Refused.NoMemory → get runtime.old.finalizers.ephemerons.short (address_of id.place) ≡ None) }
        ensures refused { OnErr result ((runtime.new.finalizers.state ≡ runtime.old.finalizers.state) × (runtime.new.heap ≡ runtime.old.heap)) }
        ensures pair { IfOk result (λ pair. pair.id ≡ id) }
        ensures follows { OnOk result (Follows runtime.old.finalizers.state (Ephemeron LinkKind.Short (address_of id.place) (address_of key.place)) runtime.new.finalizers.state) }
        ensures set { OnOk result (runtime.new.heap.records.slots.items ≡ with_field_at id.place 0 (Field.Hidden value) runtime.old.heap.records.slots.items) }
        ensures rest { OnOk result (runtime.new.heap.roots ≡ runtime.old.heap.roots) }
        ensures room { IsRoomier runtime.old.finalizers.rooms runtime.new.finalizers.rooms }
    {
        runtime.ephemeron(LinkKind::Short, id.address(), key)?;
        runtime.set(id, 0, Field::Hidden(value));
        Ok(EphemeronPair { id })
    }

    /// The pair as a record.
    pub fn id(self) -> RecordId
        ensures { result ≡ self.id }
    {
        self.id
    }

    /// The number of its ephemeron, which is the address of its first field.
    pub fn word(self) -> Addr
        ensures { result ≡ address_of self.id.place }
    {
        self.id.address()
    }

    /// Its key, or `None` since that was lost.
    pub fn key(self, runtime: &Runtime) -> Option<RecordId>
        ensures key { MatchOption result (get runtime.now.finalizers.ephemerons.short (address_of self.id.place) ≡ None) (HasKey runtime.now.finalizers.state self.id) }
        ensures stands { IfSome result (λ id. IsTrue (is_some (slot runtime.now.heap.records.slots.items id.place))) }
    {
        let Some(address) = short_key(runtime, self.word()) else {
            return None;
        };
        let Some(id) = runtime.heap.find(address) else {
            return None;
        };
        Some(id)
    }

    /// Its value, or `None` since its key was lost.
    pub fn value(self, runtime: &Runtime) -> Option<RecordId>
        ensures none { result ≡ None → (get runtime.now.finalizers.ephemerons.short (address_of self.id.place) ≡ None) ⊎ (value_of (objects_of runtime.now.heap.records.slots.items) (address_of self.id.place) ≡ None) }
        ensures keyed { IfSome result (λ _. IsTrue (contains_key runtime.now.finalizers.ephemerons.short (address_of self.id.place))) }
        ensures value { IfSome result (λ id. value_of (objects_of runtime.now.heap.records.slots.items) (address_of self.id.place) ≡ Some (address_of id.place)) }
    {
        let word = self.word();
        let Some(_key) = short_key(runtime, word) else {
            return None;
        };
        let Some(address) = runtime.heap.records.value(word) else {
            return None;
        };
        let Some(id) = runtime.heap.find(address) else {
            return None;
        };
        Some(id)
    }
}
