//! The procedures with which threads files finalize objects.

ghost use Rattle.std.specs.Prelude.{◌≡◌};
ghost use Rattle.fz_model.specs.Places.{slot_at};
ghost use Rattle.fz_model.specs.Events.{Hold};
ghost use Rattle.fz_service.specs.States.{RunsCalls};
ghost use Rattle.fz_runs.specs.Holds.{Makes};

use fz_model::Entry;
use fz_service::Proc;
use fz_world::World;

/// A procedure that does nothing.
#[derive(Drop)]
pub struct Nothing;

impl Proc for Nothing {
    fn has_work(&self) -> bool {
        false
    }

    #[tactic(auto, using(fz_service::proofs::Running::runs_calls))]
    fn run(&mut self, _entry: &Entry, _world: &mut World)
        ensures calls { RunsCalls _world.old _world.new }
        ensures nothing { _world.new ≡ _world.old }
    {}
}

/// A procedure that stores the object's address in the last slot of the first frame.
#[derive(Drop)]
pub struct Keep;

impl Proc for Keep {
    fn has_work(&self) -> bool {
        false
    }

    #[tactic(auto, using(fz_service::proofs::Running::runs_calls))]
    fn run(&mut self, entry: &Entry, world: &mut World)
        ensures calls { RunsCalls world.old world.new }
        ensures holds { Makes (Hold (slot_at 0 15) entry.now) world.old world.new }
    {
        let _not_held = world.hold(0, 15, entry);
    }
}
