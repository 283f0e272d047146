//! Why an object isn't finalized.

ghost use Rattle.std.specs.Prelude.{◌≡◌, ◌≢◌, false, Contains, IfOk, IsFalse, IsTrue, MatchOption, None, Some};
ghost use Rattle.std.specs.FinMap.{get};
ghost use Rattle.fz_model.specs.declared.answers.Entry.{Entry};
ghost use Rattle.fz_model.specs.Memory.{points};
ghost use Rattle.fz_model.specs.Reachability.{Computes};
ghost use Rattle.fz_pass.specs.Marks.{AreRegistered, AreTargets};
ghost use Rattle.fz_finalizers.specs.States.{unfinished};
ghost use Rattle.fz_why.specs.Why.{HasCleanup, IsReached, IsToldOf, IsUnfound};
ghost use Rattle.fz_why.specs.Trail.{has, IsOfRoots, IsOrdered, IsSound, IsTrailPath};

use crate::origin::Origin;
use crate::paths::Paths;
use crate::reaching::path_to;
use crate::reason::{Reason, RootOf};
use crate::room::NoMemory;
use crate::rooting::find;
use crate::trail::Trail;
use crate::waiting::{is_flagged, reach_itself, ring, wait};
use fz_finalizers::{Entry, Finalizers};
use fz_model::{Addr, Registration};
use std::alloc::Global;

/// An unfinished entry of an object.
fn entry_of(finalizers: &Finalizers, object: Addr) -> Option<Entry>
    ensures { MatchOption result ((e : Entry) → Contains (unfinished finalizers.now.state) e → e.obj ≢ object) (λ e. Contains (unfinished finalizers.now.state) e × (e.obj ≡ object)) }
{
    for entry in finalizers.entries() {
        if entry.obj == object {
            return Some(entry);
        }
    }
    None
}

/// The path from a root to an object that was found.
fn root_path(
    alloc: Global,
    found: &Trail,
    object: Addr,
) -> Result<Option<(RootOf, Vec<Addr>)>, NoMemory>
    requires ordered { IsOrdered found.now }
    requires rooted { IsOfRoots found.now }
    ensures path { IfOk result (λ answer. MatchOption answer (has found.now object ≡ false) (λ p. IsTrailPath found.now object (Origin.Root p.0) p.1.items)) }
{
    let told = path_to(alloc, found, object)?;
    let Some((origin, path)) = told else {
        return Ok(None);
    };
    match origin {
        Origin::Root(root) => Ok(Some((root, path))),
        Origin::Itself => unreachable!(),
        Origin::First(_) => unreachable!(),
        Origin::After(_) => unreachable!(),
    }
}

/// Why a registered object that is unreachable isn't finalized.
fn why_unreachable<H: Paths>(
    alloc: Global,
    finalizers: &Finalizers,
    host: &H,
    found: &Trail,
    object: Addr,
    registration: Registration,
) -> Result<Reason, NoMemory>
    requires sound { IsSound (H.objects host.now) finalizers.now.state }
    requires unfound { IsUnfound (H.place host.now) (H.value host.now) (H.objects host.now) finalizers.now.state (has found.now) object registration }
    requires reached { Computes (has found.now) (IsReached (H.place host.now) (H.value host.now) (H.objects host.now) (H.roots host.now) finalizers.now.state) }
    ensures told { IfOk result (λ reason. IsToldOf (H.place host.now) (H.value host.now) (H.objects host.now) (H.roots host.now) finalizers.now.state reason object) }
{
    let kind = registration.kind;
    let own = reach_itself(alloc, finalizers, host, found, object, kind)?;
    let circle = ring(alloc, finalizers, host, found, &own, object, registration)?;
    if let Some(path) = circle {
        return Ok(Reason::Ring(path));
    }
    let late = is_flagged(finalizers, object);
    let waits = wait(
        alloc,
        finalizers,
        host,
        found,
        &own,
        object,
        registration,
        late,
    )?;
    match waits {
        Some(path) => Ok(Reason::Waits(path)),
        None => Ok(Reason::Ready),
    }
}

/// Why a registered object isn't finalized.
fn why_registered<H: Paths>(
    alloc: Global,
    finalizers: &Finalizers,
    host: &H,
    object: Addr,
    registration: Registration,
) -> Result<Reason, NoMemory>
    requires sound { IsSound (H.objects host.now) finalizers.now.state }
    requires registered { get finalizers.now.state.registrations object ≡ Some registration }
    ensures told { IfOk result (λ reason. IsToldOf (H.place host.now) (H.value host.now) (H.objects host.now) (H.roots host.now) finalizers.now.state reason object) }
{
    let found = find(alloc, finalizers, host)?;
    let rooted = root_path(alloc, &found, object)?;
    if let Some((root, path)) = rooted {
        return Ok(Reason::Found(root, path));
    }
    let reason = why_unreachable(alloc, finalizers, host, &found, object, registration)?;
    Ok(reason)
}

/// Whether an object has a cleanup.
fn has_cleanup(finalizers: &Finalizers, object: Addr) -> bool
    ensures some { IsTrue result → HasCleanup finalizers.now.state object }
    ensures none { IsFalse result → HasCleanup finalizers.now.state object → ⊥ }
{
    for each in finalizers.iter_cleanups() {
        if each.1.object == object {
            return true;
        }
    }
    false
}

/// Why an object that isn't registered isn't finalized, or isn't gone if it has cleanups.
fn why_unregistered<H: Paths>(
    alloc: Global,
    finalizers: &Finalizers,
    host: &H,
    object: Addr,
) -> Result<Reason, NoMemory>
    requires { get finalizers.now.state.registrations object ≡ None }
    ensures told { IfOk result (λ reason. IsToldOf (H.place host.now) (H.value host.now) (H.objects host.now) (H.roots host.now) finalizers.now.state reason object) }
{
    if let Some(entry) = entry_of(finalizers, object) {
        return Ok(Reason::Queued(entry));
    }
    if !has_cleanup(finalizers, object) {
        return Ok(Reason::Unregistered);
    }
    let found = find(alloc, finalizers, host)?;
    let rooted = root_path(alloc, &found, object)?;
    match rooted {
        Some((root, path)) => Ok(Reason::Found(root, path)),
        None => Ok(Reason::Unregistered),
    }
}

/// Why an object isn't finalized, or why an object isn't gone that has cleanups alone, with a path as evidence. It may be called at any time outside of a pass,
/// and nothing has to be marked.
///
/// Words are as they are once a pass has cleared those of dead short links and of short ephemerons whose keys aren't found. Values of ephemerons count as they
/// do in a pass. The host has to ensure that registered objects, the targets of links and the keys of ephemerons are its objects.
///
/// Takes time proportional to the words of all objects that roots and registered objects reach, and memory for each of these objects. It looks at the
/// ephemerons in rounds: at each of them once, and again whenever values were added since. A chain of n ephemerons, the value of each of which reaches the key
/// of the next, may take n rounds. Fails with `NoMemory` if an allocation fails. Nothing changes in any case.
pub fn why<H: Paths>(
    alloc: Global,
    finalizers: &Finalizers,
    host: &H,
    object: Addr,
) -> Result<Reason, NoMemory>
    requires registered { AreRegistered (H.objects host.now) finalizers.now.state.registrations }
    requires short { AreTargets (H.objects host.now) finalizers.now.state.short }
    // Keys are objects.
    requires keys { AreTargets (H.objects host.now) finalizers.now.state.ephemerons.short }
    // A cleared word points to nothing.
    requires zero { points (H.objects host.now) 0 ≡ None }
    ensures told { IfOk result (λ reason. IsToldOf (H.place host.now) (H.value host.now) (H.objects host.now) (H.roots host.now) finalizers.now.state reason object) }
{
    match finalizers.registration(object) {
        Some(registration) => {
            let reason = why_registered(alloc, finalizers, host, object, registration)?;
            Ok(reason)
        }
        None => {
            let reason = why_unregistered(alloc, finalizers, host, object)?;
            Ok(reason)
        }
    }
}
