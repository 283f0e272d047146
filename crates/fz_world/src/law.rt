//! What follows of the definitions.

ghost use Rattle.std.specs.Prelude.{ℕ, Bool};
ghost use Rattle.fz_model.specs.declared.call.Call.{Call};
ghost use Rattle.fz_world.specs.Laws.{RefusesWithoutEffect, RunsAreSteps, MarksOnlyInCycle, FindsOne, FailsAfterCollection};
ghost use Rattle.fz_world.specs.World.{WorldView};

/// Does nothing. Its contract states in other words that a refused call has no effect, which states calls lead to, which marks an allocation sets, that a
/// reader finds only one address, and when `alloc_or_collect` finds no space.
pub fn every_world()
    ensures refused { (old new : WorldView) → RefusesWithoutEffect old new }
    ensures runs { (old new : WorldView) → RunsAreSteps old new }
    ensures marks { (old : WorldView) (address : ℕ) (new : WorldView) → MarksOnlyInCycle old address new }
    ensures finds { (blocks : ℕ) (has : ℕ → Bool) (from : ℕ) → FindsOne blocks has from }
    ensures retried { (call : Call) (old new : WorldView) → FailsAfterCollection call old new }
{}
