//! Which unreachable objects hold an object back.

ghost use Rattle.std.specs.Prelude.{◌≡◌, ◌&&◌, not, option_map, IfOk, OnOk, IsTrue, Some};
ghost use Rattle.std.specs.FinMap.{get};
ghost use Rattle.std.specs.FinSet.{contains};
ghost use Rattle.fz_model.specs.declared.answers.Registration.{Registration};
ghost use Rattle.fz_finalizers.specs.Kinds.{is_late};
ghost use Rattle.fz_why.specs.Why.{kind_toward, IsHeldBy, IsUnfound};
ghost use Rattle.fz_why.specs.Trail.{has, is_cut, Adds, IsByOther, IsByUnfound, IsFoundOf, IsOthersTrail, IsOwnTrail, TellsRing, TellsWait};

use crate::origin::Origin;
use crate::paths::Paths;
use crate::reaching::path_to;
use crate::room::NoMemory;
use crate::searching::{add_first_steps, spread};
use crate::trail::Trail;
use fz_finalizers::{Finalizers, Kind};
use fz_model::{Addr, RegKind, Registration};
use std::alloc::Global;

/// Whether this is the kind that is judged after the others.
fn is_late(kind: Kind) -> bool
    ensures { result ≡ is_late kind }
{
    match kind {
        Kind::Unreachable => true,
        Kind::Normal | Kind::IgnoreSelf | Kind::NoOrder => false,
    }
}

/// Whether a registered object is of the kind `Unreachable`.
pub(crate) fn is_flagged(finalizers: &Finalizers, object: Addr) -> bool
    requires { (r : Registration) × (get finalizers.now.state.registrations object ≡ Some r) }
    ensures { result ≡ contains finalizers.now.state.late object }
{
    match finalizers.kind(object) {
        Some(kind) => is_late(kind),
        None => false,
    }
}

/// Whether all steps of a registered object count toward another: the other is of the kind `Unreachable`, and this one isn't.
fn is_early(finalizers: &Finalizers, late: bool, object: Addr) -> bool
    requires { (r : Registration) × (get finalizers.now.state.registrations object ≡ Some r) }
    ensures { result ≡ (late && not (contains finalizers.now.state.late object)) }
{
    late && !is_flagged(finalizers, object)
}

/// The kind by which first steps count: all of them, if all steps do.
fn kind_toward(early: bool, kind: RegKind) -> RegKind
    ensures { result ≡ kind_toward early kind }
{
    if early { RegKind::Normal } else { kind }
}

/// Adds an object as one with which the search begins, if all its steps count.
fn add_early(early: bool, object: Addr, trail: &mut Trail) -> Result<(), NoMemory>
    ensures added { OnOk result (Adds (λ o b. (o ≡ Origin.Itself) × IsTrue early × (b ≡ object)) trail.old trail.new) }
{
    if !early {
        return Ok(());
    }
    trail.add(object, Origin::Itself)?;
    Ok(())
}

/// Adds the first steps of another object, if it is unreachable, and the object itself, if all its steps count.
fn add_other<H: Paths>(
    finalizers: &Finalizers,
    host: &H,
    found: &Trail,
    object: Addr,
    from: Addr,
    early: bool,
    kind: RegKind,
    trail: &mut Trail,
) -> Result<(), NoMemory>
    ensures added { OnOk result (Adds (IsByUnfound (H.objects host.now) (is_cut (H.link host.now) finalizers.now.state (Some found.now)) (H.pointers host.now from) found.now object from early kind) trail.old trail.new) }
{
    if from == object {
        return Ok(());
    }
    if found.contains(from) {
        return Ok(());
    }
    let counted = kind_toward(early, kind);
    add_first_steps(finalizers, host, Some(found), from, counted, trail)?;
    add_early(early, from, trail)?;
    Ok(())
}

/// Adds that with which a search from the unreachable registered objects other than this object begins.
fn add_others<H: Paths>(
    finalizers: &Finalizers,
    host: &H,
    found: &Trail,
    object: Addr,
    late: bool,
    trail: &mut Trail,
) -> Result<(), NoMemory>
    ensures added { OnOk result (Adds (IsByOther (H.link host.now) (H.objects host.now) finalizers.now.state found.now (H.pointers host.now) late object) trail.old trail.new) }
{
    for (from, registration) in finalizers.iter() {
        let early = is_early(finalizers, late, from);
        add_other(
            finalizers,
            host,
            found,
            object,
            from,
            early,
            registration.kind,
            trail,
        )?;
    }
    Ok(())
}

/// What a registered object reaches by its first steps.
pub(crate) fn reach_itself<H: Paths>(
    alloc: Global,
    finalizers: &Finalizers,
    host: &H,
    found: &Trail,
    object: Addr,
    kind: RegKind,
) -> Result<Trail, NoMemory>
    requires { IsFoundOf (H.place host.now) (H.value host.now) (H.objects host.now) finalizers.now.state (has found.now) }
    ensures reached { IfOk result (λ t. IsOwnTrail (H.place host.now) (H.value host.now) (H.objects host.now) finalizers.now.state found.now object kind t) }
{
    let mut trail = Trail::new(alloc);
    add_first_steps(finalizers, host, Some(found), object, kind, &mut trail)?;
    spread(finalizers, host, Some(found), None, &mut trail)?;
    Ok(trail)
}

/// What the other unreachable registered objects reach, with what the object reaches itself.
fn reach_others<H: Paths>(
    alloc: Global,
    finalizers: &Finalizers,
    host: &H,
    found: &Trail,
    own: &Trail,
    object: Addr,
    late: bool,
) -> Result<Trail, NoMemory>
    requires { IsFoundOf (H.place host.now) (H.value host.now) (H.objects host.now) finalizers.now.state (has found.now) }
    ensures reached { IfOk result (λ t. IsOthersTrail (H.place host.now) (H.value host.now) (H.objects host.now) finalizers.now.state found.now own.now late object t) }
{
    let mut trail = Trail::new(alloc);
    add_others(finalizers, host, found, object, late, &mut trail)?;
    spread(finalizers, host, Some(found), Some(own), &mut trail)?;
    Ok(trail)
}

/// The path by which an unreachable registered object reaches itself, if it does so by a first step that its kind counts. The object's own trail is what it
/// reaches.
pub(crate) fn ring<H: Paths>(
    alloc: Global,
    finalizers: &Finalizers,
    host: &H,
    found: &Trail,
    own: &Trail,
    object: Addr,
    registration: Registration,
) -> Result<Option<Vec<Addr>>, NoMemory>
    requires found { IsFoundOf (H.place host.now) (H.value host.now) (H.objects host.now) finalizers.now.state (has found.now) }
    requires unfound { IsUnfound (H.place host.now) (H.value host.now) (H.objects host.now) finalizers.now.state (has found.now) object registration }
    requires own { IsOwnTrail (H.place host.now) (H.value host.now) (H.objects host.now) finalizers.now.state found.now object registration.kind own.now }
    ensures path { IfOk result (λ told. TellsRing (H.place host.now) (H.value host.now) (H.objects host.now) finalizers.now.state (has found.now) object (option_map (λ path. path.items) told)) }
{
    let told = path_to(alloc, own, object)?;
    match told {
        Some((_start, path)) => Ok(Some(path)),
        None => Ok(None),
    }
}

/// A path by which another unreachable registered object reaches the object, by a first step that counts. The object is on no ring, and its own trail is what
/// it reaches.
pub(crate) fn wait<H: Paths>(
    alloc: Global,
    finalizers: &Finalizers,
    host: &H,
    found: &Trail,
    own: &Trail,
    object: Addr,
    registration: Registration,
    late: bool,
) -> Result<Option<Vec<Addr>>, NoMemory>
    requires found { IsFoundOf (H.place host.now) (H.value host.now) (H.objects host.now) finalizers.now.state (has found.now) }
    requires unfound { IsUnfound (H.place host.now) (H.value host.now) (H.objects host.now) finalizers.now.state (has found.now) object registration }
    requires own { IsOwnTrail (H.place host.now) (H.value host.now) (H.objects host.now) finalizers.now.state found.now object registration.kind own.now }
    requires alone { IsHeldBy (H.place host.now) (H.value host.now) (H.objects host.now) finalizers.now.state (has found.now) object object → ⊥ }
    requires late { late ≡ contains finalizers.now.state.late object }
    ensures path { IfOk result (λ told. TellsWait (H.place host.now) (H.value host.now) (H.objects host.now) finalizers.now.state (has found.now) late object (option_map (λ path. path.items) told)) }
{
    let trail = reach_others(alloc, finalizers, host, found, own, object, late)?;
    let told = path_to(alloc, &trail, object)?;
    match told {
        Some((_start, path)) => Ok(Some(path)),
        None => Ok(None),
    }
}
