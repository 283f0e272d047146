//! What the results of `why` say of passes.

ghost use Rattle.std.specs.Prelude.{ℕ, Bool, List, Option};
ghost use Rattle.fz_model.specs.State.{Map, Object};
ghost use Rattle.fz_model.specs.Reachability.{Computes};
ghost use Rattle.fz_finalizers.specs.States.{State};
ghost use Rattle.fz_why.specs.Why.{IsReached};
ghost use Rattle.fz_why.specs.Laws.{IsApart, IsJudgedByPasses, KeepsRings, PassesFindReached, GoesByPaths};

/// Does nothing. Its contract says that no two of these are true of a registered object: found, ring or waits, ready. A pass of the same state queues no
/// registered object that isn't ready, and each object that is ready if its host's marks are exact. What such a pass finds is what the roots reach.
pub fn answers()
    ensures apart { (place : ℕ → Option ℕ) (value : Map Object → ℕ → Option ℕ) (objects : Map Object) (roots : List ℕ) (s : State) (o : ℕ) → IsApart place value objects roots s o }
    ensures passes { (place : ℕ → Option ℕ) (value : Map Object → ℕ → Option ℕ) (objects : Map Object) (roots : List ℕ) (s : State) (found : ℕ → Bool) (o : ℕ)
        → Computes found (IsReached place value objects roots s) → IsJudgedByPasses place value objects roots s found o }
    ensures finds { (place : ℕ → Option ℕ) (value : Map Object → ℕ → Option ℕ) (objects : Map Object) (roots : List ℕ) (s : State) (marked found : ℕ → Bool) → PassesFindReached place value objects roots s marked found }
{}

/// Does nothing. Its contract says that no later pass queues an object on a ring, whatever the pass finds, as long as the object's registration and the words
/// and ephemerons of the ring stay.
pub fn rings()
    ensures { (place : ℕ → Option ℕ) (value : Map Object → ℕ → Option ℕ) (objects later : Map Object) (s t : State) → KeepsRings place value objects later s t }
{}

/// Does nothing. Its contract says that of a state without ephemerons all results are by paths of children alone: what the roots reach, what is on a ring, what
/// is held back, and what is stuck.
pub fn without_ephemerons()
    ensures { (place : ℕ → Option ℕ) (value : Map Object → ℕ → Option ℕ) (objects : Map Object) (roots : List ℕ) (s : State) (found : ℕ → Bool) → GoesByPaths place value objects roots s found }
{}
