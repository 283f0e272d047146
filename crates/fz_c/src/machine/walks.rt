//! Iterating over registrations, links, ephemerons and cleanups, a buffer at a time. This changes nothing, and works while a pass is open.

ghost use Rattle.std.specs.Prelude.{◌≡◌, ◌<◌, ◌+◌, length, map, min, take};
ghost use Rattle.fz_c.specs.MachineCodes.{Behind};
ghost use Rattle.fz_c.specs.MachineShows.{ShowsCleanups, ShowsEphemerons, ShowsLinks, ShowsRegistrations, cleanup_told, link_told, registration_told};
ghost use Rattle.fz_c.specs.Values.{link_kind_of};

use crate::handle::behind;
use crate::kinds::kind_for;
use crate::machine::codes::{Code, EMPTY, NOT_OPEN, OK};
use crate::machine::handle::MachineHandle;
use crate::machine::shown::{CleanupAt, RegistrationAt};
use fz_finalizers::{Attached, Finalizers};
use fz_table::Pairs;
use std::alloc::Global;

/// The size of the buffers of registrations, links, ephemerons and cleanups, which one call fills.
const PART: usize = 64;

/// The registrations of an iteration, and their number.
#[repr(C)]
#[derive(Clone, Copy)]
pub struct Registrations {
    pub registrations: [RegistrationAt; PART],
    pub count: u64,
}

/// A link; or an ephemeron, whose target is its key.
#[repr(C)]
#[derive(Clone, Copy)]
pub struct Linked {
    pub word: u64,
    pub target: u64,
}

/// The links or ephemerons of an iteration, and their number.
#[repr(C)]
#[derive(Clone, Copy)]
pub struct Links {
    pub links: [Linked; PART],
    pub count: u64,
}

/// The cleanups of an iteration, and their number.
#[repr(C)]
#[derive(Clone, Copy)]
pub struct Cleanups {
    pub cleanups: [CleanupAt; PART],
    pub count: u64,
}

/// The content of the buffer of registrations before it is filled.
const NO_REGISTRATION: RegistrationAt = RegistrationAt {
    object: 0,
    number: 0,
    proc: 0,
    cd: 0,
    kind: 0,
    rank: 0,
};

/// The content of the buffer of links before it is filled.
const NO_LINK: Linked = Linked { word: 0, target: 0 };

/// The content of the buffer of cleanups before it is filled.
const NO_CLEANUP: CleanupAt = CleanupAt {
    number: 0,
    object: 0,
    proc: 0,
    cd: 0,
    is_long: false,
    rank: 0,
};

/// Writes the next registrations into the buffer, as many as fit or remain. Returns their number.
fn fill_registrations(
    shown: &Finalizers,
    walk: fz_finalizers::Registrations<'_>,
    buffer: &mut [RegistrationAt],
) -> usize
    ensures count { result ≡ min (length buffer.old) (length walk.entry) }
    ensures filled { take result buffer.new ≡ take result (map (registration_told shown.now.state) walk.entry) }
{
    let mut left = walk;
    let mut filled = 0;
    for place in buffer.iter_mut() {
        let Some((object, registration)) = left.next() else {
            return filled;
        };
        *place = RegistrationAt::of(object, &registration, shown.kind(object));
        filled += 1;
    }
    filled
}

/// Writes the next links or ephemerons into the buffer, as many as fit or remain. Returns their number.
fn fill_links(walk: Pairs<'_, u64, u64>, buffer: &mut [Linked]) -> usize
    ensures count { result ≡ min (length buffer.old) (length walk.entry) }
    ensures filled { take result buffer.new ≡ take result (map link_told walk.entry) }
{
    let mut left = walk;
    let mut filled = 0;
    for place in buffer.iter_mut() {
        let Some((word, target)) = left.next() else {
            return filled;
        };
        *place = Linked { word, target };
        filled += 1;
    }
    filled
}

/// Writes the next cleanups into the buffer, as many as fit or remain. Returns their number.
fn fill_cleanups(walk: Pairs<'_, u64, Attached>, buffer: &mut [CleanupAt]) -> usize
    ensures count { result ≡ min (length buffer.old) (length walk.entry) }
    ensures filled { take result buffer.new ≡ take result (map cleanup_told walk.entry) }
{
    let mut left = walk;
    let mut filled = 0;
    for place in buffer.iter_mut() {
        let Some((number, attached)) = left.next() else {
            return filled;
        };
        *place = CleanupAt::of(number, attached);
        filled += 1;
    }
    filled
}

/// `Finalizers::iter`: the registrations of the iteration from an index on, as many as fit. Takes the same time at each index.
#[unsafe(no_mangle)]
pub extern "C" fn fz_machine_registrations(
    alloc: Global,
    finalizers: &mut MachineHandle,
    from: u64,
    registrations: &mut Registrations,
) -> Code
    ensures { Behind finalizers.old.value finalizers.new.value result (registrations.new ≡ registrations.old) (λ m n. (n ≡ m) × ShowsRegistrations m.finalizers from result registrations.old registrations.new) }
{
    let mut found = [NO_REGISTRATION; PART];
    let count = behind!(alloc, finalizers, NOT_OPEN, |it| {
        let shown = it.machine.finalizers();
        let left = shown.iter().from_place(from as usize);
        fill_registrations(shown, left, &mut found)
    });
    if count == 0 {
        return EMPTY;
    }
    *registrations = Registrations {
        registrations: found,
        count: count as u64,
    };
    OK
}

/// `Finalizers::iter_links`: the links of the iteration from an index on, as many as fit. Takes the same time at each index.
#[unsafe(no_mangle)]
pub extern "C" fn fz_machine_links(
    alloc: Global,
    finalizers: &mut MachineHandle,
    is_long: bool,
    from: u64,
    links: &mut Links,
) -> Code
    ensures { Behind finalizers.old.value finalizers.new.value result (links.new ≡ links.old) (λ m n. (n ≡ m) × ShowsLinks (link_kind_of is_long) m.finalizers from result links.old links.new) }
{
    let mut found = [NO_LINK; PART];
    let count = behind!(alloc, finalizers, NOT_OPEN, |it| {
        let shown = it.machine.finalizers();
        let left = shown
            .iter_links(kind_for(is_long))
            .from_place(from as usize);
        fill_links(left, &mut found)
    });
    if count == 0 {
        return EMPTY;
    }
    *links = Links {
        links: found,
        count: count as u64,
    };
    OK
}

/// `Finalizers::iter_ephemerons`: the ephemerons of the iteration from an index on, as many as fit. Takes the same time at each index.
#[unsafe(no_mangle)]
pub extern "C" fn fz_machine_ephemerons(
    alloc: Global,
    finalizers: &mut MachineHandle,
    is_long: bool,
    from: u64,
    ephemerons: &mut Links,
) -> Code
    ensures { Behind finalizers.old.value finalizers.new.value result (ephemerons.new ≡ ephemerons.old) (λ m n. (n ≡ m) × ShowsEphemerons (link_kind_of is_long) m.finalizers from result ephemerons.old ephemerons.new) }
{
    let mut found = [NO_LINK; PART];
    let count = behind!(alloc, finalizers, NOT_OPEN, |it| {
        let shown = it.machine.finalizers();
        let all = shown.iter_ephemerons(kind_for(is_long));
        let left = all.from_place(from as usize);
        fill_links(left, &mut found)
    });
    if count == 0 {
        return EMPTY;
    }
    *ephemerons = Links {
        links: found,
        count: count as u64,
    };
    OK
}

/// `Finalizers::iter_cleanups`: the cleanups of the iteration from an index on, as many as fit. Takes the same time at each index.
#[unsafe(no_mangle)]
pub extern "C" fn fz_machine_cleanups(
    alloc: Global,
    finalizers: &mut MachineHandle,
    from: u64,
    cleanups: &mut Cleanups,
) -> Code
    ensures { Behind finalizers.old.value finalizers.new.value result (cleanups.new ≡ cleanups.old) (λ m n. (n ≡ m) × ShowsCleanups m.finalizers from result cleanups.old cleanups.new) }
{
    let mut found = [NO_CLEANUP; PART];
    let count = behind!(alloc, finalizers, NOT_OPEN, |it| {
        let shown = it.machine.finalizers();
        let left = shown.iter_cleanups().from_place(from as usize);
        fill_cleanups(left, &mut found)
    });
    if count == 0 {
        return EMPTY;
    }
    *cleanups = Cleanups {
        cleanups: found,
        count: count as u64,
    };
    OK
}
