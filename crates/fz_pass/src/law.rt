//! How a pass's decision changes a core, and what it leaves unchanged.

ghost use Rattle.std.specs.Prelude.{ℕ, Bool, Option};
ghost use Rattle.fz_model.specs.State.{Core, Map, Object};
ghost use Rattle.fz_pass.specs.Decides.{Parts, DecisionsPass};
ghost use Rattle.fz_pass.specs.Flagged.{LateDecisionsDecide, LateDecisionsPass};
ghost use Rattle.fz_pass.specs.Holds.{Ephemerons};
ghost use Rattle.fz_pass.specs.Safe.{PassesAreSafe};
ghost use Rattle.fz_pass.specs.WholeLaws.{DecidesByPaths, KeysFindNothing, KeysHoldNothing, NothingSettles, WholePassesAreSafe};

/// Carrying out a decision, so that its picks are queued and held, is a pass of the model.
pub fn decisions_pass()
    ensures { (c : Core) → DecisionsPass c }
{}

/// A pass over a table without flags makes the decision of the model, if each link denotes the word of its own number. If marking is exact, it is a pass of
/// the model.
pub fn late_decisions_decide()
    ensures decides { (late : ℕ → Bool) → LateDecisionsDecide (Unit {0}) late }
    ensures passes { (late : ℕ → Bool) (c : Core) → LateDecisionsPass late c }
{}

/// What a pass leaves unchanged, even if a host marks more than it is asked to mark. No object of the found set is queued or reclaimed. A short link to one
/// stays if it denotes no word, or the object that contains its word is retained. A retained object is unchanged if its words have no short link to an
/// object outside of the found set, and no long link to an object that isn't retained.
pub fn passes_are_safe()
    ensures { (place : ℕ → Option ℕ) (old : Parts) → PassesAreSafe place old }
{}

/// An ephemeron never retains its own key: whether a set of objects holds an object doesn't depend on the ephemerons of which it is the key. So whether a pass
/// finds a key doesn't depend on them, if marking is exact.
pub fn keys_hold_nothing()
    ensures hold { (place : ℕ → Option ℕ) (value : Map Object → ℕ → Option ℕ) (objects : Map Object) (ephemerons : Ephemerons) → KeysHoldNothing place value objects ephemerons }
    ensures find { (place : ℕ → Option ℕ) (value : Map Object → ℕ → Option ℕ) (objects : Map Object) (ephemerons : Ephemerons) → KeysFindNothing place value objects ephemerons }
{}

/// Without ephemerons marks are whole as they are, and a pass decides what it decides by paths, whether marking is exact or not.
pub fn passes_without_ephemerons()
    ensures settles { (place : ℕ → Option ℕ) (value : Map Object → ℕ → Option ℕ) (objects : Map Object) → NothingSettles place value objects }
    ensures exactly { (place : ℕ → Option ℕ) (value : Map Object → ℕ → Option ℕ) (late : ℕ → Bool) (old : Parts) → DecidesByPaths (Unit {0}) place value late old }
    ensures at_most { (place : ℕ → Option ℕ) (value : Map Object → ℕ → Option ℕ) (late : ℕ → Bool) (old : Parts) → DecidesByPaths ⊥ place value late old }
{}

/// What a pass with ephemerons leaves unchanged, even if a host marks more than it is asked to mark: what `passes_are_safe` says, and short ephemerons of found
/// keys, as short links to found objects.
pub fn whole_passes_are_safe()
    ensures { (place : ℕ → Option ℕ) (value : Map Object → ℕ → Option ℕ) (old : Parts) (ephemerons : Ephemerons) → WholePassesAreSafe place value old ephemerons }
{}
