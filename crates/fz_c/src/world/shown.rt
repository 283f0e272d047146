//! Readers of a world: objects, registrations and links in address order, entries in queue order, and counters.

ghost use Rattle.std.specs.Prelude.{◌≡◌};
ghost use Rattle.fz_c.specs.declared.world.codes.TheConstants as codes;
ghost use Rattle.fz_c.specs.Told.{IsFound, Looks, Finds};
ghost use Rattle.fz_c.specs.Places.{kind_of, number_of, TellsEntry, TellsObject, TellsRegistration, TellsLinked};
ghost use Rattle.fz_c.specs.Values.{link_kind_of};
ghost use Rattle.fz_c.specs.Shows.{IsNextObject, IsObjectOf, IsNextRegistration, IsNextLink, IsNextHeldEntry, IsQueuedEntry, IsCounted};

use crate::entry::Entry;
use crate::handle::behind;
use crate::kinds::kind_for;
use crate::world::codes::{Code, EMPTY, NO_WORLD, OK};
use crate::world::entries::tell_entry;
use crate::world::handle::WorldHandle;
use fz_model::{Addr, ObjKind, RegKind};
use std::alloc::Global;

/// An object.
#[repr(C)]
#[derive(Clone, Copy)]
pub struct Object {
    pub start: u64,
    /// In words.
    pub size: u64,
    pub birth: u64,
    pub atomic: bool,
}

/// The registration of an object.
#[repr(C)]
#[derive(Clone, Copy)]
pub struct Registration {
    /// The address of the object.
    pub object: u64,
    pub number: u64,
    pub proc: u64,
    pub cd: u64,
    /// 0, 1 or 2, as in `number_for`.
    pub kind: u32,
    pub rank: u8,
}

/// A disappearing link.
#[repr(C)]
#[derive(Clone, Copy)]
pub struct Linked {
    /// The address of its word.
    pub place: u64,
    /// The address of its target.
    pub target: u64,
}

/// The counters of a world.
#[repr(C)]
#[derive(Clone, Copy)]
pub struct Counts {
    pub passes: u64,
    /// Reclaimed objects.
    pub reclaimed: u64,
    /// Entries ever queued.
    pub queued: u64,
    /// Entries that were taken.
    pub taken: u64,
    /// Entries that aren't finished.
    pub outstanding: u64,
    /// Scans of objects in the last cycle.
    pub scans: u64,
    /// Dirty pages in the last cycle.
    pub noted: u64,
}

fn tell_object(found: Option<fz_world::Object>, object: &mut Object) -> Code
    ensures { IsFound found result (TellsObject object.new) (object.new ≡ object.old) }
{
    let Some(next) = found else {
        return EMPTY;
    };
    *object = Object {
        start: next.start,
        size: next.size,
        birth: next.birth,
        atomic: is_atomic(next.kind),
    };
    OK
}

fn is_atomic(kind: ObjKind) -> bool
    ensures { kind_of result ≡ kind }
{
    match kind {
        ObjKind::Scanned => false,
        ObjKind::Atomic => true,
    }
}

/// `World::next_object`.
#[tactic(auto, using(crate::proofs::Looking::not_found, crate::proofs::Looking::finds, crate::proofs::Told::none_taken))]
#[unsafe(no_mangle)]
pub extern "C" fn fz_next_object(
    alloc: Global,
    world: &mut WorldHandle,
    from: u64,
    object: &mut Object,
) -> Code
    ensures { Finds world.old.value world.new.value result (λ session. IsNextObject session.world from) (TellsObject object.new) (object.new ≡ object.old) }
{
    let found = behind!(alloc, world, NO_WORLD, |it| it.world.next_object(from));
    tell_object(found, object)
}

/// `World::object_of`.
#[tactic(auto, using(crate::proofs::Looking::not_found, crate::proofs::Looking::finds, crate::proofs::Told::none_taken))]
#[unsafe(no_mangle)]
pub extern "C" fn fz_base(
    alloc: Global,
    world: &mut WorldHandle,
    word: u64,
    object: &mut Object,
) -> Code
    ensures { Finds world.old.value world.new.value result (λ session. IsObjectOf session.world word) (TellsObject object.new) (object.new ≡ object.old) }
{
    let found = behind!(alloc, world, NO_WORLD, |it| it.world.object_of(word));
    tell_object(found, object)
}

fn number_for(kind: RegKind) -> u32
    ensures { result ≡ number_of kind }
{
    match kind {
        RegKind::Normal => 0,
        RegKind::IgnoreSelf => 1,
        RegKind::NoOrder => 2,
    }
}

fn tell_registration(
    found: Option<(Addr, fz_model::Registration)>,
    registration: &mut Registration,
) -> Code
    ensures { IsFound found result (TellsRegistration registration.new) (registration.new ≡ registration.old) }
{
    let Some((object, next)) = found else {
        return EMPTY;
    };
    *registration = Registration {
        object,
        number: next.number,
        proc: next.proc,
        cd: next.cd,
        kind: number_for(next.kind),
        rank: next.rank,
    };
    OK
}

/// `World::next_registration`.
#[tactic(auto, using(crate::proofs::Looking::not_found, crate::proofs::Looking::finds, crate::proofs::Told::none_taken))]
#[unsafe(no_mangle)]
pub extern "C" fn fz_next_registration(
    alloc: Global,
    world: &mut WorldHandle,
    from: u64,
    registration: &mut Registration,
) -> Code
    ensures { Finds world.old.value world.new.value result (λ session. IsNextRegistration session.world from) (TellsRegistration registration.new) (registration.new ≡ registration.old) }
{
    let found = behind!(
        alloc,
        world,
        NO_WORLD,
        |it| it.world.next_registration(from)
    );
    tell_registration(found, registration)
}

fn tell_linked(found: Option<(Addr, Addr)>, linked: &mut Linked) -> Code
    ensures { IsFound found result (TellsLinked linked.new) (linked.new ≡ linked.old) }
{
    let Some((place, target)) = found else {
        return EMPTY;
    };
    *linked = Linked { place, target };
    OK
}

/// `World::next_link`.
#[tactic(auto, using(crate::proofs::Looking::not_found, crate::proofs::Looking::finds, crate::proofs::Told::none_taken))]
#[unsafe(no_mangle)]
pub extern "C" fn fz_next_link(
    alloc: Global,
    world: &mut WorldHandle,
    is_long: bool,
    from: u64,
    linked: &mut Linked,
) -> Code
    ensures { Finds world.old.value world.new.value result (λ session. IsNextLink session.world (link_kind_of is_long) from) (TellsLinked linked.new) (linked.new ≡ linked.old) }
{
    let found = behind!(
        alloc,
        world,
        NO_WORLD,
        |it| it.world.next_link(kind_for(is_long), from)
    );
    tell_linked(found, linked)
}

/// `World::next_held`.
#[tactic(auto, using(crate::proofs::Looking::not_found, crate::proofs::Looking::finds, crate::proofs::Told::none_taken))]
#[unsafe(no_mangle)]
pub extern "C" fn fz_next_held(
    alloc: Global,
    world: &mut WorldHandle,
    from: u64,
    entry: &mut Entry,
) -> Code
    ensures { Finds world.old.value world.new.value result (λ session. IsNextHeldEntry session.world from) (TellsEntry entry.new) (entry.new ≡ entry.old) }
{
    let found = behind!(alloc, world, NO_WORLD, |it| it.world.next_held(from));
    tell_entry(found, entry)
}

/// The entry of the queue with this number, taken or not, finished or not, unless it is both finished and forgotten.
#[tactic(auto, using(crate::proofs::Looking::not_found, crate::proofs::Looking::finds, crate::proofs::Told::none_taken))]
#[unsafe(no_mangle)]
pub extern "C" fn fz_queued(
    alloc: Global,
    world: &mut WorldHandle,
    seq: u64,
    entry: &mut Entry,
) -> Code
    ensures { Finds world.old.value world.new.value result (λ session. IsQueuedEntry session.world seq) (TellsEntry entry.new) (entry.new ≡ entry.old) }
{
    let found = behind!(alloc, world, NO_WORLD, |it| it.queued(seq));
    tell_entry(found, entry)
}

/// `World::forgotten`.
#[tactic(auto, using(crate::proofs::Looking::not_looked, crate::proofs::Looking::looked, crate::proofs::Told::none_taken))]
#[unsafe(no_mangle)]
pub extern "C" fn fz_forgotten(alloc: Global, world: &mut WorldHandle, number: &mut u64) -> Code
    ensures { Looks world.old.value world.new.value result (λ session. (result ≡ codes.OK) × (number.new ≡ session.world.forgotten)) (number.new ≡ number.old) }
{
    *number = behind!(alloc, world, NO_WORLD, |it| it.world.forgotten());
    OK
}

/// Returns all counters of the world.
#[tactic(auto, using(crate::proofs::Looking::not_looked, crate::proofs::Looking::looked, crate::proofs::Told::none_taken))]
#[unsafe(no_mangle)]
pub extern "C" fn fz_count(alloc: Global, world: &mut WorldHandle, counts: &mut Counts) -> Code
    ensures { Looks world.old.value world.new.value result (λ session. (result ≡ codes.OK) × IsCounted session.world session.taken counts.new) (counts.new ≡ counts.old) }
{
    *counts = behind!(alloc, world, NO_WORLD, |it| it.counts());
    OK
}
