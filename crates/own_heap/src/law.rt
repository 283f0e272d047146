//! How the model's objects relate to records, what weak pairs and ephemeron pairs have, which cleanups are left, and what collections do without ephemerons.

ghost use Rattle.std.specs.Prelude.{List, Option};
ghost use Rattle.own_heap.specs.Records.{HiddenAreValues, MadeIsInserted, ReferencesAreChildren, ValuesStay};
ghost use Rattle.fz_model.specs.State.{Map, Object};
ghost use Rattle.fz_finalizers.specs.States.{State};
ghost use Rattle.own_heap.specs.Collected.{CleanupsGo, CollectsWithout};
ghost use Rattle.own_heap.specs.Guarding.{PairsAreWeak};
ghost use Rattle.own_heap.specs.Keyed.{KeysAreNotRetained, PairsKeepValues, PairsLoseKeys};
ghost use Rattle.own_heap.specs.declared.record.Record.{Record};
ghost use Rattle.own_heap.specs.declared.record.RecordId.{RecordId};

/// An object's children are the records to which its fields refer, making a record adds exactly one object, and the value of an ephemeron is what its field
/// hides. Clearing a field gives no ephemeron another value, which `fz_machine` requires of a host.
pub fn objects_are_records()
    ensures children { (slots : List (Option Record)) → ReferencesAreChildren slots }
    ensures made { (old new : List (Option Record)) → MadeIsInserted old new }
    ensures hidden { (slots : List (Option Record)) → HiddenAreValues slots }
    ensures cleared { ValuesStay }
{}

/// Does nothing. Its contract says that a weak pair has its record as long as that remains, and no longer.
pub fn pairs_are_weak()
    ensures { (slots : List (Option Record)) (roots : List RecordId) (old : State) (left : Map Object) (new : State) → PairsAreWeak slots roots old left new }
{}

/// Does nothing. Its contract says that without ephemerons a collection finds, queues and retains by what the roots reach alone, as `Finalizers::pass` says.
pub fn collections_without_ephemerons()
    ensures { (slots : List (Option Record)) (roots : List RecordId) (old : State) (left : Map Object) (new : State) → CollectsWithout slots roots old left new }
{}

/// Does nothing. Its contract says that after a collection a short cleanup of a record is left exactly if the record was found, and a long one exactly if the
/// record remains.
pub fn cleanups_go_with_records()
    ensures { (slots : List (Option Record)) (roots : List RecordId) (old : State) (left : Map Object) (new : State) → CleanupsGo slots roots old left new }
{}

/// Does nothing. Its contract says that an ephemeron never retains its own key; and that an ephemeron pair has its key as long as collections find that, and
/// its value as long as its key.
pub fn keys_are_not_retained()
    ensures own { (slots : List (Option Record)) (roots : List RecordId) (old : State) (left : Map Object) (new : State) → KeysAreNotRetained slots roots old left new }
    ensures keys { (slots : List (Option Record)) (roots : List RecordId) (old : State) (left : Map Object) (new : State) → PairsLoseKeys slots roots old left new }
    ensures values { (slots left : List (Option Record)) (roots : List RecordId) (old new : State) → PairsKeepValues slots roots old left new }
{}
