//! Which objects wait for a ring.

ghost use Rattle.std.specs.Prelude.{◌≡◌, ◌++◌, ◌∷◌, [], filter, IfOk, MatchOption, OnOk, None};
ghost use Rattle.std.specs.Map.{keys_of};
ghost use Rattle.fz_model.specs.Memory.{points};
ghost use Rattle.fz_pass.specs.Marks.{AreRegistered, AreTargets};
ghost use Rattle.fz_finalizers.specs.Walks.{registrations_in_order};
ghost use Rattle.fz_why.specs.Snapshot.{HasAll, objects_of};
ghost use Rattle.fz_why.specs.Copies.{AreStuckIn};
ghost use Rattle.fz_why.specs.Why.{IsUnfound, ListsStuck};
ghost use Rattle.fz_why.specs.Trail.{has, is_behind, is_stuck_by, Adds, IsByCircle, IsByCircles, IsFoundOf, IsRingsTrail};

use crate::paths::Paths;
use crate::room::{NoMemory, push};
use crate::rooting::find;
use crate::searching::{add_first_steps, spread};
use crate::snapshot::Snapshot;
use crate::trail::Trail;
use crate::waiting::reach_itself;
use fz_finalizers::Finalizers;
use fz_model::{Addr, Registration};
use std::alloc::Global;

/// Adds the first steps of an unreachable registered object, if it is on a ring.
fn add_circle<H: Paths>(
    alloc: Global,
    finalizers: &Finalizers,
    host: &H,
    found: &Trail,
    from: Addr,
    registration: Registration,
    trail: &mut Trail,
) -> Result<(), NoMemory>
    requires found { IsFoundOf (H.place host.now) (H.value host.now) (H.objects host.now) finalizers.now.state (has found.now) }
    requires unfound { IsUnfound (H.place host.now) (H.value host.now) (H.objects host.now) finalizers.now.state (has found.now) from registration }
    ensures added { OnOk result (Adds (IsByCircle (H.place host.now) (H.value host.now) (H.objects host.now) finalizers.now.state (has found.now) from) trail.old trail.new) }
{
    let circle = reach_itself(alloc, finalizers, host, found, from, registration.kind)?;
    if !circle.contains(from) {
        return Ok(());
    }
    add_first_steps(
        finalizers,
        host,
        Some(found),
        from,
        registration.kind,
        trail,
    )?;
    Ok(())
}

/// Adds the first steps of an object, if it is unreachable, registered and on a ring.
fn add_ring<H: Paths>(
    alloc: Global,
    finalizers: &Finalizers,
    host: &H,
    found: &Trail,
    from: Addr,
    trail: &mut Trail,
) -> Result<(), NoMemory>
    requires { IsFoundOf (H.place host.now) (H.value host.now) (H.objects host.now) finalizers.now.state (has found.now) }
    ensures added { OnOk result (Adds (IsByCircle (H.place host.now) (H.value host.now) (H.objects host.now) finalizers.now.state (has found.now) from) trail.old trail.new) }
{
    if found.contains(from) {
        return Ok(());
    }
    match finalizers.registration(from) {
        Some(registration) => {
            add_circle(alloc, finalizers, host, found, from, registration, trail)?;
            Ok(())
        }
        None => Ok(()),
    }
}

/// Adds the first steps of all objects on rings.
fn add_rings<H: Paths>(
    alloc: Global,
    finalizers: &Finalizers,
    host: &H,
    found: &Trail,
    trail: &mut Trail,
) -> Result<(), NoMemory>
    requires { IsFoundOf (H.place host.now) (H.value host.now) (H.objects host.now) finalizers.now.state (has found.now) }
    ensures added { OnOk result (Adds (IsByCircles (H.place host.now) (H.value host.now) (H.objects host.now) finalizers.now.state (has found.now)) trail.old trail.new) }
{
    for each in finalizers.iter() {
        add_ring(alloc, finalizers, host, found, each.0, trail)?;
    }
    Ok(())
}

/// What the objects on rings reach by their first steps, themselves among it.
fn reach_rings<H: Paths>(
    alloc: Global,
    finalizers: &Finalizers,
    host: &H,
    found: &Trail,
) -> Result<Trail, NoMemory>
    requires { IsFoundOf (H.place host.now) (H.value host.now) (H.objects host.now) finalizers.now.state (has found.now) }
    ensures reached { IfOk result (λ t. IsRingsTrail (H.place host.now) (H.value host.now) (H.objects host.now) finalizers.now.state found.now t) }
{
    let mut trail = Trail::new(alloc);
    add_rings(alloc, finalizers, host, found, &mut trail)?;
    spread(finalizers, host, Some(found), None, &mut trail)?;
    Ok(trail)
}

/// Lists an object, if it is unreachable, and reached by a ring.
fn push_behind(
    objects: &mut Vec<Addr>,
    found: &Trail,
    reached: &Trail,
    object: Addr,
) -> Result<(), NoMemory>
    ensures pushed { OnOk result (objects.new.items ≡ objects.old.items ++ filter (is_behind found.now reached.now) (object ∷ [])) }
{
    if found.contains(object) {
        return Ok(());
    }
    if !reached.contains(object) {
        return Ok(());
    }
    push(objects, object)?;
    Ok(())
}

/// Lists the registered objects that are unreachable, and reached by a ring.
fn list(
    alloc: Global,
    finalizers: &Finalizers,
    found: &Trail,
    reached: &Trail,
) -> Result<Vec<Addr>, NoMemory>
    ensures listed { IfOk result (λ objects. objects.items ≡ filter (is_stuck_by finalizers.now.state found.now reached.now) (keys_of (registrations_in_order finalizers.now))) }
{
    let mut objects = Vec::new(alloc);
    for each in finalizers.iter() {
        push_behind(&mut objects, found, reached, each.0)?;
    }
    Ok(objects)
}

/// Lists the registered objects that wait for a ring: those on a ring, and those to which one leads. No pass queues them as long as their words and
/// registrations stay. Each is listed once, in the order of `Finalizers::iter`.
///
/// Like [`why`](crate::why), it may be called at any time outside of a pass. It takes words and values of ephemerons as `why` does, and requires that
/// registered objects, the targets of links and the keys of ephemerons are the host's objects. A ring that goes through the value of an ephemeron stays as long
/// as the ephemeron stays, and its key and the object that contains its word are retained as they are.
///
/// Takes the time of `why` for each unreachable registered object, and memory for each object that is reached. Fails with `NoMemory` if an allocation fails.
/// Nothing changes in any case.
pub fn stuck<H: Paths>(
    alloc: Global,
    finalizers: &Finalizers,
    host: &H,
) -> Result<Vec<Addr>, NoMemory>
    requires registered { AreRegistered (H.objects host.now) finalizers.now.state.registrations }
    requires short { AreTargets (H.objects host.now) finalizers.now.state.short }
    // Keys are objects.
    requires keys { AreTargets (H.objects host.now) finalizers.now.state.ephemerons.short }
    // A cleared word points to nothing.
    requires zero { points (H.objects host.now) 0 ≡ None }
    ensures listed { IfOk result (λ objects. ListsStuck (H.place host.now) (H.value host.now) (H.objects host.now) (H.roots host.now) finalizers.now.state (registrations_in_order finalizers.now) objects.items) }
{
    let found = find(alloc, finalizers, host)?;
    let reached = reach_rings(alloc, finalizers, host, &found)?;
    let objects = list(alloc, finalizers, &found, &reached)?;
    Ok(objects)
}

/// Lists the registered objects that wait for a ring, by a copy of their host's heap, as [`stuck`] does. The copy has to have what [`why_of`](crate::why_of)
/// needs.
///
/// `None` if a registered object, the target of a short link or the key of a short ephemeron wasn't listed. Fails with `NoMemory` if an allocation fails.
/// Nothing changes in any case.
pub fn stuck_of(
    alloc: Global,
    finalizers: &Finalizers,
    snapshot: &Snapshot,
) -> Result<Option<Vec<Addr>>, NoMemory>
    ensures listed { IfOk result (λ answer. MatchOption answer (HasAll (objects_of snapshot.now.cells) finalizers.now.state → ⊥) (λ listed. AreStuckIn snapshot.now finalizers.now.state (registrations_in_order finalizers.now) listed.items)) }
{
    let _ = &snapshot.cells;
    if !snapshot.is_sound(finalizers) {
        return Ok(None);
    }
    let objects = stuck(alloc, finalizers, snapshot)?;
    Ok(Some(objects))
}
