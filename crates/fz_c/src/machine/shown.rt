//! Readers. They change nothing, and work while a pass is open.

ghost use Rattle.std.specs.Prelude.{◌≡◌};
ghost use Rattle.fz_finalizers.specs.States.{links_of};
ghost use Rattle.fz_c.specs.MachineCodes.{Behind};
ghost use Rattle.fz_c.specs.MachineShows.{IsCounted, ShowsCleanup, ShowsKey, ShowsRegistration, ShowsRoots, ShowsTarget, cleanup_told, is_long, key_told, kind_number, root_of};
ghost use Rattle.fz_c.specs.Values.{link_kind_of};

use crate::handle::behind;
use crate::kinds::kind_for;
use crate::machine::codes::{Code, EMPTY, NOT_OPEN, OK};
use crate::machine::handle::MachineHandle;
use fz_finalizers::{Attached, Finalizers, Kind, LinkKind, Root};
use std::alloc::Global;

/// The size of the buffer of words, which one call fills.
const WORDS: usize = 512;

/// The words of an iteration over roots, their number, and the place from which it continues.
#[repr(C)]
#[derive(Clone, Copy)]
pub struct Words {
    pub words: [u64; WORDS],
    pub count: u64,
    pub next: u64,
}

/// The number of registrations, links, ephemerons, cleanups and entries.
#[repr(C)]
#[derive(Clone, Copy)]
pub struct Counts {
    pub registrations: u64,
    pub short_links: u64,
    pub long_links: u64,
    pub short_ephemerons: u64,
    pub long_ephemerons: u64,
    pub cleanups: u64,
    pub waiting: u64,
    pub held: u64,
    pub queued: u64,
    pub passes: u64,
}

/// A registration.
#[repr(C)]
#[derive(Clone, Copy)]
pub struct RegistrationAt {
    pub object: u64,
    pub number: u64,
    pub proc: u64,
    pub cd: u64,
    pub kind: u8,
    pub rank: u8,
}

impl RegistrationAt {
    /// An object's registration, as C represents it.
    pub(crate) fn of(
        object: u64,
        registration: &fz_model::Registration,
        kind: Option<Kind>,
    ) -> RegistrationAt
        ensures { result ≡ record { object = object; number = registration.now.number; proc = registration.now.proc; cd = registration.now.cd; kind = kind_number kind; rank = registration.now.rank } }
    {
        RegistrationAt {
            object,
            number: registration.number,
            proc: registration.proc,
            cd: registration.cd,
            kind: kind_number(kind),
            rank: registration.rank,
        }
    }
}

/// A cleanup.
#[repr(C)]
#[derive(Clone, Copy)]
pub struct CleanupAt {
    pub number: u64,
    pub object: u64,
    pub proc: u64,
    pub cd: u64,
    pub is_long: bool,
    pub rank: u8,
}

impl CleanupAt {
    /// A cleanup, as C represents it.
    pub(crate) fn of(number: u64, attached: Attached) -> CleanupAt
        ensures { result ≡ cleanup_told (number, attached) }
    {
        CleanupAt {
            number,
            object: attached.object,
            proc: attached.cleanup.procedure,
            cd: attached.cleanup.client_data,
            is_long: is_long(attached.cleanup.when),
            rank: attached.cleanup.rank,
        }
    }
}

/// The key of a word's ephemeron, and its kind.
#[repr(C)]
#[derive(Clone, Copy)]
pub struct KeyAt {
    pub key: u64,
    pub is_long: bool,
}

impl KeyAt {
    /// An ephemeron's kind and key, as C represents them.
    pub(crate) fn of(kind: LinkKind, key: u64) -> KeyAt
        ensures { result ≡ key_told (kind, key) }
    {
        KeyAt {
            key,
            is_long: is_long(kind),
        }
    }
}

/// Whether the kind is long.
fn is_long(when: LinkKind) -> bool
    ensures { result ≡ is_long when }
{
    match when {
        LinkKind::Short => false,
        LinkKind::Long => true,
    }
}

/// The kind of roots with this number. Every number above 1 is the last kind.
fn root_of(sort: u8) -> Root
    ensures { result ≡ root_of sort }
{
    match sort {
        0 => Root::HeldObject,
        1 => Root::HeldData,
        _ => Root::RegisteredData,
    }
}

/// The number of a kind.
fn kind_number(kind: Option<Kind>) -> u8
    ensures { result ≡ kind_number kind }
{
    match kind {
        Some(Kind::IgnoreSelf) => 1,
        Some(Kind::NoOrder) => 2,
        Some(Kind::Unreachable) => 3,
        Some(Kind::Normal) | None => 0,
    }
}

/// `Finalizers::roots`: the words of the iteration from a place on, as many as are asked for and fit. The iteration continues from the place `next`. Places
/// don't count words, since the place of a finished entry has none. Takes the same time at each place.
#[unsafe(no_mangle)]
pub extern "C" fn fz_machine_roots(
    alloc: Global,
    finalizers: &mut MachineHandle,
    sort: u8,
    from: u64,
    most: u64,
    words: &mut Words,
) -> Code
    ensures { Behind finalizers.old.value finalizers.new.value result (words.new ≡ words.old) (λ m n. (n ≡ m) × ShowsRoots (root_of sort) m.finalizers from most result words.old words.new) }
{
    let mut found = [0; WORDS];
    let (count, next) = behind!(alloc, finalizers, NOT_OPEN, |it| {
        let roots = it.machine.finalizers().roots(root_of(sort));
        let all = roots.places();
        let mut left = roots.from_place(from as usize);
        let count = left.fill(&mut found, most as usize);
        (count, all - left.places())
    });
    if count == 0 {
        return EMPTY;
    }
    *words = Words {
        words: found,
        count: count as u64,
        next: next as u64,
    };
    OK
}

fn counts_of(shown: &Finalizers) -> Counts
    ensures { IsCounted shown.now.state result }
{
    Counts {
        registrations: shown.registrations(),
        short_links: shown.links(LinkKind::Short),
        long_links: shown.links(LinkKind::Long),
        short_ephemerons: shown.iter_ephemerons(LinkKind::Short).len() as u64,
        long_ephemerons: shown.iter_ephemerons(LinkKind::Long).len() as u64,
        cleanups: shown.cleanups(),
        waiting: shown.waiting(),
        held: shown.held(),
        queued: shown.queued(),
        passes: shown.passes(),
    }
}

/// The counts of `Finalizers`.
#[unsafe(no_mangle)]
pub extern "C" fn fz_machine_count(
    alloc: Global,
    finalizers: &mut MachineHandle,
    counts: &mut Counts,
) -> Code
    ensures { Behind finalizers.old.value finalizers.new.value result (counts.new ≡ counts.old) (λ m n. (n ≡ m) × (result ≡ OK) × IsCounted m.finalizers.state counts.new) }
{
    *counts = behind!(
        alloc,
        finalizers,
        NOT_OPEN,
        |it| counts_of(it.machine.finalizers())
    );
    OK
}

/// `Finalizers::registration`, with its kind.
#[unsafe(no_mangle)]
pub extern "C" fn fz_machine_registration(
    alloc: Global,
    finalizers: &mut MachineHandle,
    object: u64,
    registration: &mut RegistrationAt,
) -> Code
    ensures { Behind finalizers.old.value finalizers.new.value result (registration.new ≡ registration.old) (λ m n. (n ≡ m) × ShowsRegistration m.finalizers.state object result registration.old registration.new) }
{
    let (found, kind) = behind!(alloc, finalizers, NOT_OPEN, |it| {
        let shown = it.machine.finalizers();
        (shown.registration(object), shown.kind(object))
    });
    let Some(shown) = found else {
        return EMPTY;
    };
    *registration = RegistrationAt::of(object, &shown, kind);
    OK
}

/// `Finalizers::cleanup`.
#[unsafe(no_mangle)]
pub extern "C" fn fz_machine_cleanup(
    alloc: Global,
    finalizers: &mut MachineHandle,
    number: u64,
    cleanup: &mut CleanupAt,
) -> Code
    ensures { Behind finalizers.old.value finalizers.new.value result (cleanup.new ≡ cleanup.old) (λ m n. (n ≡ m) × ShowsCleanup m.finalizers.state number result cleanup.old cleanup.new) }
{
    let found = behind!(
        alloc,
        finalizers,
        NOT_OPEN,
        |it| it.machine.finalizers().cleanup(number)
    );
    let Some(shown) = found else {
        return EMPTY;
    };
    *cleanup = CleanupAt::of(number, shown);
    OK
}

/// `Finalizers::key`.
#[unsafe(no_mangle)]
pub extern "C" fn fz_machine_key(
    alloc: Global,
    finalizers: &mut MachineHandle,
    word: u64,
    key: &mut KeyAt,
) -> Code
    ensures { Behind finalizers.old.value finalizers.new.value result (key.new ≡ key.old) (λ m n. (n ≡ m) × ShowsKey m.finalizers.state word result key.old key.new) }
{
    let found = behind!(
        alloc,
        finalizers,
        NOT_OPEN,
        |it| it.machine.finalizers().key(word)
    );
    let Some((kind, object)) = found else {
        return EMPTY;
    };
    *key = KeyAt::of(kind, object);
    OK
}

/// `Finalizers::target`.
#[unsafe(no_mangle)]
pub extern "C" fn fz_machine_target(
    alloc: Global,
    finalizers: &mut MachineHandle,
    is_long: bool,
    word: u64,
    target: &mut u64,
) -> Code
    ensures { Behind finalizers.old.value finalizers.new.value result (target.new ≡ target.old) (λ m n. (n ≡ m) × ShowsTarget (links_of m.finalizers.state (link_kind_of is_long)) word result target.old target.new) }
{
    let found = behind!(
        alloc,
        finalizers,
        NOT_OPEN,
        |it| it.machine.finalizers().target(kind_for(is_long), word)
    );
    let Some(object) = found else {
        return EMPTY;
    };
    *target = object;
    OK
}
