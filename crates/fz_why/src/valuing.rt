//! The values of ephemerons that a search comes to.

ghost use Rattle.std.specs.Prelude.{◌≡◌, ◌≤◌, length, IfOk, OnOk};
ghost use Rattle.std.specs.Option.{option_copied};
ghost use Rattle.fz_why.specs.Trail.{counts, either, has_in, is_cut, row_holder, AddsRowAt, AddsRowBy, AddsRowOf, AddsRowOne, LooksBy, TellsHeld, TellsWay};

use crate::origin::Origin;
use crate::paths::Paths;
use crate::room::NoMemory;
use crate::searching::is_cut;
use crate::trail::Trail;
use fz_finalizers::{Finalizers, LinkKind};
use fz_model::Addr;

/// Whether an object is on a trail, if there is one.
fn has_in(trail: Option<&Trail>, object: Addr) -> bool
    ensures { result ≡ has_in (option_copied trail.entry) object }
{
    match trail {
        Some(some) => some.contains(object),
        None => false,
    }
}

/// Whether an object was found, or is on the object's own trail.
fn is_behind(found: Option<&Trail>, own: Option<&Trail>, object: Addr) -> bool
    ensures { result ≡ either (option_copied found.entry) (option_copied own.entry) object }
{
    has_in(found, object) || has_in(own, object)
}

/// Whether a pass leaves an ephemeron of this kind and key. Before the search for what is found, each one counts.
fn counts(kind: LinkKind, found: Option<&Trail>, key: Addr) -> bool
    ensures { result ≡ counts kind (option_copied found.entry) key }
{
    match kind {
        LinkKind::Short => match found {
            Some(some) => some.contains(key),
            None => true,
        },
        LinkKind::Long => true,
    }
}

/// The object that contains the word of an ephemeron, or none inside the option if it denotes no word. `None` if the word lies outside every object, or if a
/// pass clears it.
fn holder<H: Paths>(
    finalizers: &Finalizers,
    host: &H,
    found: Option<&Trail>,
    number: Addr,
) -> Option<Option<Addr>>
    ensures { result ≡ row_holder (H.place host.now) (H.objects host.now) (is_cut (H.link host.now) finalizers.now.state (option_copied found.entry)) number }
{
    let Some(word) = host.word_of(number) else {
        return Some(None);
    };
    if is_cut(finalizers, host, found, word) {
        return None;
    }
    match host.target(word) {
        Some(object) => Some(Some(object)),
        None => None,
    }
}

/// The index of an object on the trail, or none inside the option if the object isn't there, but was found or is on the object's own trail. `None` if it isn't
/// held at all.
fn held_at(
    found: Option<&Trail>,
    own: Option<&Trail>,
    trail: &Trail,
    object: Addr,
) -> Option<Option<usize>>
    ensures { TellsHeld (either (option_copied found.entry) (option_copied own.entry)) trail.now object result }
{
    match trail.place_of(object) {
        Some(place) => Some(Some(place)),
        None => {
            if is_behind(found, own, object) {
                Some(None)
            } else {
                None
            }
        }
    }
}

/// The index on the trail of the holder of an ephemeron, or else of its key, if both are held and one of them is on the trail.
fn way(
    found: Option<&Trail>,
    own: Option<&Trail>,
    trail: &Trail,
    key: Addr,
    holder: Option<Addr>,
) -> Option<usize>
    ensures { TellsWay (either (option_copied found.entry) (option_copied own.entry)) trail.now key holder result }
{
    let keyed = held_at(found, own, trail, key)?;
    let Some(object) = holder else {
        return keyed;
    };
    match held_at(found, own, trail, object)? {
        Some(place) => Some(place),
        None => keyed,
    }
}

/// Adds the value of an ephemeron that counts, if its key and its holder are held, and one of them is on the trail.
fn add_value<H: Paths>(
    finalizers: &Finalizers,
    host: &H,
    found: Option<&Trail>,
    own: Option<&Trail>,
    number: Addr,
    key: Addr,
    trail: &mut Trail,
) -> Result<(), NoMemory>
    ensures added { OnOk result (AddsRowAt (H.place host.now) (H.value host.now) (H.link host.now) (H.objects host.now) finalizers.now.state (option_copied found.entry) (option_copied own.entry) number key trail.old trail.new) }
{
    let Some(object) = holder(finalizers, host, found, number) else {
        return Ok(());
    };
    let Some(place) = way(found, own, trail, key, object) else {
        return Ok(());
    };
    match host.value(number) {
        Some(value) => {
            trail.add(value, Origin::After(place))?;
            Ok(())
        }
        None => Ok(()),
    }
}

/// Adds the value of an ephemeron, if it counts, its key and its holder are held, and one of them is on the trail.
fn add_counted<H: Paths>(
    finalizers: &Finalizers,
    host: &H,
    found: Option<&Trail>,
    own: Option<&Trail>,
    kind: LinkKind,
    number: Addr,
    key: Addr,
    trail: &mut Trail,
) -> Result<(), NoMemory>
    ensures added { OnOk result (AddsRowOne (H.place host.now) (H.value host.now) (H.link host.now) (H.objects host.now) finalizers.now.state (option_copied found.entry) (option_copied own.entry) kind number key trail.old trail.new) }
{
    if !counts(kind, found, key) {
        return Ok(());
    }
    add_value(finalizers, host, found, own, number, key, trail)?;
    Ok(())
}

/// Adds the values of the ephemerons of a kind, each looked at once.
fn add_values_of<H: Paths>(
    finalizers: &Finalizers,
    host: &H,
    found: Option<&Trail>,
    own: Option<&Trail>,
    kind: LinkKind,
    trail: &mut Trail,
) -> Result<(), NoMemory>
    ensures added { OnOk result (AddsRowOf (H.place host.now) (H.value host.now) (H.link host.now) (H.objects host.now) finalizers.now.state (option_copied found.entry) (option_copied own.entry) kind trail.old trail.new) }
{
    for each in finalizers.iter_ephemerons(kind) {
        add_counted(finalizers, host, found, own, kind, each.0, each.1, trail)?;
    }
    Ok(())
}

/// Adds the values of ephemerons, each looked at once.
fn add_values<H: Paths>(
    finalizers: &Finalizers,
    host: &H,
    found: Option<&Trail>,
    own: Option<&Trail>,
    trail: &mut Trail,
) -> Result<(), NoMemory>
    ensures added { OnOk result (AddsRowBy (H.place host.now) (H.value host.now) (H.link host.now) (H.objects host.now) finalizers.now.state (option_copied found.entry) (option_copied own.entry) trail.old trail.new) }
{
    add_values_of(finalizers, host, found, own, LinkKind::Short, trail)?;
    add_values_of(finalizers, host, found, own, LinkKind::Long, trail)?;
    Ok(())
}

/// The object at an index of the trail, which isn't past its end. At the end it adds values of ephemerons first.
pub(crate) fn look<H: Paths>(
    finalizers: &Finalizers,
    host: &H,
    found: Option<&Trail>,
    own: Option<&Trail>,
    place: usize,
    trail: &mut Trail,
) -> Result<Option<Addr>, NoMemory>
    requires { place ≤ length trail.old }
    ensures looked { IfOk result (λ next. LooksBy (H.place host.now) (H.value host.now) (H.link host.now) (H.objects host.now) finalizers.now.state (option_copied found.entry) (option_copied own.entry) place trail.old trail.new next) }
{
    if let Some(here) = trail.at(place) {
        return Ok(Some(here.0));
    }
    add_values(finalizers, host, found, own, trail)?;
    match trail.at(place) {
        Some(here) => Ok(Some(here.0)),
        None => Ok(None),
    }
}
