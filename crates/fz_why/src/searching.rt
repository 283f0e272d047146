//! Searching along the words of objects, and along the values of ephemerons.

ghost use Rattle.std.specs.Prelude.{◌≡◌, ◌≢◌, OnOk};
ghost use Rattle.std.specs.Option.{option_copied};
ghost use Rattle.fz_why.specs.Trail.{either, is_cut, is_dead_in, Adds, IsByFirst, IsByPointer, IsBySteps, IsRowBy, IsStepBy, SpreadsAll};

use crate::origin::Origin;
use crate::paths::{Paths, Pointer};
use crate::room::NoMemory;
use crate::trail::Trail;
use crate::valuing::look;
use fz_finalizers::{Finalizers, LinkKind};
use fz_model::{Addr, RegKind};

/// Whether a pass clears the word with this number: that of a short link or a short ephemeron, whose target or key wasn't found.
fn is_dead(finalizers: &Finalizers, found: &Trail, number: Addr) -> bool
    ensures { result ≡ is_dead_in found.now finalizers.now.state number }
{
    if let Some(target) = finalizers.target(LinkKind::Short, number) {
        if !found.contains(target) {
            return true;
        }
    }
    match finalizers.key(number) {
        Some((LinkKind::Short, key)) => !found.contains(key),
        Some((LinkKind::Long, _)) => false,
        None => false,
    }
}

/// Whether a word doesn't count, since a pass clears it. Before the search for what is found, each word counts.
pub(crate) fn is_cut<H: Paths>(
    finalizers: &Finalizers,
    host: &H,
    found: Option<&Trail>,
    word: Addr,
) -> bool
    ensures { result ≡ is_cut (H.link host.now) finalizers.now.state (option_copied found.entry) word }
{
    let Some(found) = found else {
        return false;
    };
    match host.link_at(word) {
        Some(number) => is_dead(finalizers, found, number),
        None => false,
    }
}

/// Adds an object, unless it is another.
fn add_unless(object: Addr, other: Addr, origin: Origin, trail: &mut Trail) -> Result<(), NoMemory>
    ensures added { OnOk result (Adds (λ o b. (o ≡ origin) × (b ≡ object) × (b ≢ other)) trail.old trail.new) }
{
    if object == other {
        return Ok(());
    }
    trail.add(object, origin)?;
    Ok(())
}

/// Adds an object, unless it is the excepted one.
fn add_but(
    object: Addr,
    except: Option<Addr>,
    origin: Origin,
    trail: &mut Trail,
) -> Result<(), NoMemory>
    ensures added { OnOk result (Adds (λ o b. (o ≡ origin) × (b ≡ object) × (except ≢ Some b)) trail.old trail.new) }
{
    match except {
        Some(other) => {
            add_unless(object, other, origin, trail)?;
            Ok(())
        }
        None => {
            trail.add(object, origin)?;
            Ok(())
        }
    }
}

/// Adds the object to which a word points, if the word counts, and the object isn't excepted.
fn add_step<H: Paths>(
    finalizers: &Finalizers,
    host: &H,
    found: Option<&Trail>,
    pointer: Pointer,
    except: Option<Addr>,
    origin: Origin,
    trail: &mut Trail,
) -> Result<(), NoMemory>
    ensures added { OnOk result (Adds (IsByPointer (H.objects host.now) (is_cut (H.link host.now) finalizers.now.state (option_copied found.entry)) pointer except origin) trail.old trail.new) }
{
    if is_cut(finalizers, host, found, pointer.word) {
        return Ok(());
    }
    match host.target(pointer.value) {
        Some(child) => {
            add_but(child, except, origin, trail)?;
            Ok(())
        }
        None => Ok(()),
    }
}

/// Adds the objects to which the words of an object point, but for the excepted one.
fn add_steps<H: Paths>(
    finalizers: &Finalizers,
    host: &H,
    found: Option<&Trail>,
    from: Addr,
    except: Option<Addr>,
    origin: Origin,
    trail: &mut Trail,
) -> Result<(), NoMemory>
    ensures added { OnOk result (Adds (IsBySteps (H.objects host.now) (is_cut (H.link host.now) finalizers.now.state (option_copied found.entry)) (H.pointers host.now from) except origin) trail.old trail.new) }
{
    for index in 0..usize::MAX {
        match host.pointer(from, index) {
            Some(pointer) => add_step(finalizers, host, found, pointer, except, origin, trail)?,
            None => return Ok(()),
        }
    }
    unreachable!()
}

/// Adds the first steps of a registered object, by its kind.
pub(crate) fn add_first_steps<H: Paths>(
    finalizers: &Finalizers,
    host: &H,
    found: Option<&Trail>,
    from: Addr,
    kind: RegKind,
    trail: &mut Trail,
) -> Result<(), NoMemory>
    ensures added { OnOk result (Adds (IsByFirst (H.objects host.now) (is_cut (H.link host.now) finalizers.now.state (option_copied found.entry)) (H.pointers host.now from) from kind) trail.old trail.new) }
{
    let origin = Origin::First(from);
    match kind {
        RegKind::Normal => {
            add_steps(finalizers, host, found, from, None, origin, trail)?;
            Ok(())
        }
        RegKind::IgnoreSelf => {
            add_steps(finalizers, host, found, from, Some(from), origin, trail)?;
            Ok(())
        }
        RegKind::NoOrder => Ok(()),
    }
}

/// Adds what the objects on the trail reach, by their words and by the values of ephemerons. A value is added if its key and the object that contains its word
/// are held, which means that they are on the trail, or were found, or are on the object's own trail; and if at least one of them is on the trail.
///
/// Whenever it comes to the end of the trail it looks at each ephemeron once.
pub(crate) fn spread<H: Paths>(
    finalizers: &Finalizers,
    host: &H,
    found: Option<&Trail>,
    own: Option<&Trail>,
    trail: &mut Trail,
) -> Result<(), NoMemory>
    ensures spread { OnOk result (SpreadsAll (λ a b. IsStepBy (H.objects host.now) (is_cut (H.link host.now) finalizers.now.state (option_copied found.entry)) (H.pointers host.now a) b)
        (IsRowBy (H.place host.now) (H.value host.now) (H.link host.now) (H.objects host.now) finalizers.now.state (option_copied found.entry))
        (either (option_copied found.entry) (option_copied own.entry)) trail.old trail.new) }
{
    for place in 0..usize::MAX {
        let next = look(finalizers, host, found, own, place, trail)?;
        match next {
            Some(object) => {
                let origin = Origin::After(place);
                add_steps(finalizers, host, found, object, None, origin, trail)?;
            }
            None => return Ok(()),
        }
    }
    unreachable!()
}
