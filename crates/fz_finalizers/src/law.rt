//! What holds of all sequences of calls.

ghost use Rattle.fz_finalizers.specs.States.{State};
ghost use Rattle.fz_finalizers.specs.Follows.{Event, Follows};
ghost use Rattle.fz_finalizers.specs.Promises.{Past, IsReached, Promises, Records, AreSingle, AreWalked};
ghost use Rattle.std.specs.Prelude.{ℕ, Option};
ghost use Rattle.fz_finalizers.specs.Laws.{ChangesEphemerons, ChangesLinks, NumbersPasses, PassesAlike, YieldAll};

/// Does nothing. Its contract states what holds after every sequence of calls from an opening, whatever the host does. Each number belongs to one registration
/// or cleanup, which is registered, waiting, held or finished. Entries are taken in queue order, each once. An entry is kept until it is finished. The contract
/// also states in other words what each call does to links, to ephemerons and to the numbers of passes, and what iterators yield.
pub fn every_sequence()
    ensures promises { (s : State) (past : Past) → IsReached s past → Promises s past }
    // The host's marker finds it by iterating over the roots.
    ensures walked { (s : State) (past : Past) → IsReached s past → AreWalked s past }
    // An entry has what was registered.
    ensures recorded { (s : State) (past : Past) → IsReached s past → Records s past }
    ensures single { (s : State) (past : Past) → IsReached s past → AreSingle s }
    ensures links { (old new : State) (event : Event) → Follows old event new → ChangesLinks old event new }
    ensures ephemerons { (old new : State) (event : Event) → Follows old event new → ChangesEphemerons old event new }
    ensures passes { (old new : State) (event : Event) → Follows old event new → NumbersPasses old event new }
    ensures walks { (s : State) → YieldAll s }
    // Cleanups change nothing else in a pass, whether the host marks exactly or more than it is asked to.
    ensures cleanups { (place : ℕ → Option ℕ) (old new : State) → PassesAlike (Unit {0}) place old new × PassesAlike ⊥ place old new }
{}
