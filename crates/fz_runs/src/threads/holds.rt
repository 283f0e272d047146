//! Calls that take the lock once each.

ghost use Rattle.fz_model.specs.Events.{Make};
ghost use Rattle.fz_runs.specs.Holds.{Held};

use fz_model::Call;
use fz_service::{Opening, Service};
use std::sync::Wait;

/// Carries out one call under the lock. Returns whether it was refused.
pub(crate) fn hold_for<O: Opening, R: Wait>(service: &Service<O>, call: Call, rt: &R) -> bool
    ensures { Held O.origin (Make call) result }
{
    let mut locked = service.enter(rt);
    locked.make(call).is_err()
}
