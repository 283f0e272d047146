//! What the roots reach.

ghost use Rattle.std.specs.Prelude.{◌≡◌, IfOk, OnOk, Some};
ghost use Rattle.fz_model.specs.Memory.{points};
ghost use Rattle.fz_finalizers.specs.States.{unfinished};
ghost use Rattle.fz_why.specs.Trail.{Adds, IsByHost, IsByRegistration, IsByCleanup, IsByEntry, IsFoundTrail};

use crate::origin::Origin;
use crate::paths::Paths;
use crate::reason::RootOf;
use crate::room::NoMemory;
use crate::searching::spread;
use crate::trail::Trail;
use fz_finalizers::Finalizers;
use fz_model::Word;
use std::alloc::Global;

/// Adds the object to which the word of a root points.
fn add_root<H: Paths>(host: &H, word: Word, root: RootOf, trail: &mut Trail) -> Result<(), NoMemory>
    ensures added { OnOk result (Adds (λ o b. (o ≡ Origin.Root root) × (points (H.objects host.now) word ≡ Some b)) trail.old trail.new) }
{
    match host.target(word) {
        Some(object) => {
            trail.add(object, Origin::Root(root))?;
            Ok(())
        }
        None => Ok(()),
    }
}

/// Adds the objects to which the host's own roots point.
fn add_host<H: Paths>(host: &H, trail: &mut Trail) -> Result<(), NoMemory>
    ensures added { OnOk result (Adds (IsByHost (H.objects host.now) (H.roots host.now)) trail.old trail.new) }
{
    for index in 0..usize::MAX {
        match host.root(index) {
            Some(word) => add_root(host, word, RootOf::Host(index), trail)?,
            None => return Ok(()),
        }
    }
    unreachable!()
}

/// Adds the objects to which client data of registrations points.
fn add_registered<H: Paths>(
    finalizers: &Finalizers,
    host: &H,
    trail: &mut Trail,
) -> Result<(), NoMemory>
    ensures added { OnOk result (Adds (IsByRegistration (H.objects host.now) finalizers.now.state.registrations) trail.old trail.new) }
{
    for each in finalizers.iter() {
        let root = RootOf::RegisteredData(each.1.number);
        add_root(host, each.1.cd, root, trail)?;
    }
    Ok(())
}

/// Adds the objects to which client data of cleanups points.
fn add_attached<H: Paths>(
    finalizers: &Finalizers,
    host: &H,
    trail: &mut Trail,
) -> Result<(), NoMemory>
    ensures added { OnOk result (Adds (IsByCleanup (H.objects host.now) finalizers.now.state.cleanups) trail.old trail.new) }
{
    for each in finalizers.iter_cleanups() {
        let root = RootOf::CleanupData(each.0);
        add_root(host, each.1.cleanup.client_data, root, trail)?;
    }
    Ok(())
}

/// Adds the objects of entries that aren't finished, and those to which their client data points.
fn add_entries<H: Paths>(
    finalizers: &Finalizers,
    host: &H,
    trail: &mut Trail,
) -> Result<(), NoMemory>
    ensures added { OnOk result (Adds (IsByEntry (H.objects host.now) (unfinished finalizers.now.state)) trail.old trail.new) }
{
    for entry in finalizers.entries() {
        add_root(host, entry.obj, RootOf::HeldObject(entry.seq), trail)?;
        add_root(host, entry.cd, RootOf::HeldData(entry.seq), trail)?;
    }
    Ok(())
}

/// What the roots reach, each object with the way to it.
pub(crate) fn find<H: Paths>(
    alloc: Global,
    finalizers: &Finalizers,
    host: &H,
) -> Result<Trail, NoMemory>
    ensures found { IfOk result (λ t. IsFoundTrail (H.place host.now) (H.value host.now) (H.objects host.now) (H.roots host.now) finalizers.now.state t) }
{
    let mut trail = Trail::new(alloc);
    add_host(host, &mut trail)?;
    add_registered(finalizers, host, &mut trail)?;
    add_attached(finalizers, host, &mut trail)?;
    add_entries(finalizers, host, &mut trail)?;
    spread(finalizers, host, None, None, &mut trail)?;
    Ok(trail)
}
