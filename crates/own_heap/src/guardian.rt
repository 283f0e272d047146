//! Guardians.

ghost use Rattle.std.specs.Prelude.{◌≡◌, ◌∷◌, [], filter, is_some, List, IfOk, IfErr, IfSome, IsTrue, MatchOption, OnErr, OnOk, None};
ghost use Rattle.std.specs.FinMap.{get};
ghost use Rattle.fz_model.specs.Steps.{old_of};
ghost use Rattle.fz_model.specs.declared.answers.Entry.{Entry};
ghost use Rattle.fz_finalizers.specs.Causes.{IsJudgedOrLacks, register_causes};
ghost use Rattle.fz_finalizers.specs.Follows.{Follows, Register};
ghost use Rattle.fz_finalizers.specs.States.{unfinished, IsRoomier, Spends, UsesEntry};
ghost use Rattle.own_heap.specs.Guarding.{is_guarded, GivesNone, IsGiven};
ghost use Rattle.own_heap.specs.Records.{address_of, slot};

use crate::record::RecordId;
use crate::runtime::Runtime;
use fz_finalizers::{Entry, Finalizer, Finalizers, Kind, Old, Refused};

/// Whether an entry is of a record, and has this procedure. The entry of a cleanup has no record.
fn is_guarded(entry: &Entry, procedure: u64) -> bool
    ensures { result ≡ is_guarded procedure entry.now }
{
    entry.proc == procedure && entry.obj != 0
}

/// The first unfinished entry of a record with this procedure.
fn first_guarded(finalizers: &Finalizers, procedure: u64) -> Option<Entry>
    ensures { MatchOption result (filter (is_guarded procedure) (unfinished finalizers.now.state) ≡ []) (λ e. (rest : List Entry) × (filter (is_guarded procedure) (unfinished finalizers.now.state) ≡ e ∷ rest)) }
{
    for entry in finalizers.entries() {
        if is_guarded(&entry, procedure) {
            return Some(entry);
        }
    }
    None
}

/// Returns the records that it guards once nothing else reaches them, in the order in which collections found that.
///
/// It is the number of a procedure, which no finalizer and no other guardian has. Its entries are queued with all others: the program takes each entry
/// (`Runtime::take`), and leaves those of the guardian to it. Until the guardian returns a record, the held entry retains it.
#[derive(Clone, Copy, Debug, PartialEq, Eq)]
pub struct Guardian {
    pub(crate) procedure: u64,
}

impl Guardian {
    /// The guardian with this procedure.
    pub fn new(procedure: u64) -> Guardian
        ensures { result ≡ record { procedure = procedure } }
    {
        Guardian { procedure }
    }

    /// The procedure of its entries.
    pub fn procedure(self) -> u64
        ensures { result ≡ self.procedure }
    {
        self.procedure
    }

    /// What is registered for a record that it guards. Records come in any order, since they may refer to each other in rings.
    pub fn finalizer(self) -> Finalizer
        ensures { result ≡ record { kind = Kind.NoOrder; procedure = self.procedure; client_data = 0; rank = 0 } }
    {
        Finalizer {
            kind: Kind::NoOrder,
            procedure: self.procedure,
            client_data: 0,
            rank: 0,
        }
    }

    /// Guards an existing record once, in place of the registration that it may have, as `Runtime::register` does with `finalizer`.
    pub fn guard(self, runtime: &mut Runtime, id: RecordId) -> Result<(u64, Option<Old>), Refused>
        requires { IsTrue (is_some (slot runtime.old.heap.records.slots.items id.place)) }
        ensures heap { runtime.new.heap ≡ runtime.old.heap }
        ensures judged { IsJudgedOrLacks (register_causes runtime.old.finalizers.registrations runtime.old.finalizers.next_number (address_of id.place)) result }
        ensures fresh { IfErr result (λ r. r ≡ Refused.NoMemory → get runtime.old.finalizers.registrations (address_of id.place) ≡ None) }
        ensures wanting { IfErr result (λ r. r ≡ Refused.NoMemory → runtime.old.finalizers.rooms.registrations ≡ 0) }
        ensures refused { OnErr result (runtime.new.finalizers.state ≡ runtime.old.finalizers.state) }
        ensures number { IfOk result (λ answer. answer.0 ≡ runtime.old.finalizers.next_number) }
        ensures replaced { IfOk result (λ answer. answer.1 ≡ old_of runtime.old.finalizers.registrations (address_of id.place)) }
        ensures follows { OnOk result (Follows runtime.old.finalizers.state (Register (address_of id.place) (record { kind = Kind.NoOrder; procedure = self.procedure; client_data = 0; rank = 0 })) runtime.new.finalizers.state) }
        ensures room { Spends UsesEntry result runtime.old.finalizers.rooms runtime.new.finalizers.rooms }
    {
        runtime.register(id, self.finalizer())
    }

    /// The next record that it guarded and nothing else reached, of those whose entries were taken. Finishes the entry: from then on the record is
    /// retained only by what refers to it. Takes time proportional to the unfinished entries.
    pub fn next(self, runtime: &mut Runtime) -> Option<RecordId>
        ensures heap { runtime.new.heap ≡ runtime.old.heap }
        ensures given { MatchOption result (GivesNone self.procedure runtime.old.finalizers.state runtime.new.finalizers.state) (IsGiven self.procedure runtime.old.finalizers.state runtime.new.finalizers.state) }
        ensures stands { IfSome result (λ id. IsTrue (is_some (slot runtime.new.heap.records.slots.items id.place))) }
        ensures room { IsRoomier runtime.old.finalizers.rooms runtime.new.finalizers.rooms }
    {
        let Some(entry) = first_guarded(&runtime.finalizers, self.procedure) else {
            return None;
        };
        let Some(id) = runtime.heap.find(entry.obj) else {
            return None;
        };
        match runtime.finish(&entry) {
            Ok(()) => Some(id),
            Err(_) => None,
        }
    }
}
