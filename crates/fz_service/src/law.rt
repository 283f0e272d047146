//! What follows of the definitions.

ghost use Rattle.std.specs.Prelude.{ℕ, List};
ghost use Rattle.fz_line.specs.States.{SeatState};
ghost use Rattle.fz_service.specs.declared.ending.Final.{Final};
ghost use Rattle.fz_service.specs.declared.event.Event.{Event};
ghost use Rattle.fz_service.specs.Laws.{OrdersQueue, SendsAll, EndsWithAll, RunsItsEntries};
ghost use Rattle.fz_service.specs.States.{Origin, LockedState};

/// Does nothing. Its contract states in other words what each hold of the lock starts from, when a call has sent all that it queued, what an end accounts for,
/// and which procedures a worker has run.
pub fn every_hold()
    ensures order { (origin : Origin) (s : LockedState) → OrdersQueue origin s }
    ensures sends { (origin : Origin) (old new : LockedState) → SendsAll origin old new }
    ensures ends { (origin : Origin) (s : LockedState) (seats : List SeatState) (end : Final) → EndsWithAll origin s seats end }
    ensures runs { (count : ℕ) (old new : SeatState) (events : List Event) → RunsItsEntries count old new events }
{}
