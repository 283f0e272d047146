//! The calls that may allocate: the list of a phase has room for all registrations, for all links of each kind, for all cleanups, and for all ephemerons.

ghost use Rattle.std.specs.Prelude.{◌≡◌, ◌≤◌, ◌<◌, ◌+◌, ◌⊎◌, None, false, if◌then◌else◌, IfOk, IfErr, OnOk, OnErr};
ghost use Rattle.std.specs.FinMap.{get, insert, len, contains_key};
ghost use Rattle.fz_model.specs.declared.answers.Registration.{Registration};
ghost use Rattle.fz_model.specs.Steps.{old_of};
ghost use Rattle.fz_finalizers.specs.Causes.{IsJudgedOrLacks, add_causes, link_causes, register_causes};
ghost use Rattle.fz_finalizers.specs.Follows.{Follows, Register, Link, Ephemeron, AddCleanup};
ghost use Rattle.fz_finalizers.specs.States.{HasRooms, IsRoomier, KeepsTables, limited, links_of, room_of};
ghost use Rattle.fz_machine.specs.Causes.{RefusesOrLacks};
ghost use Rattle.fz_pass.specs.Keyed.{has_ephemeron, of_kind};
ghost use Rattle.fz_machine.specs.Going.{HasRoom, HaveRoom, HasRoomForMore, IsSameBeside, LacksToAdd, LacksToLink, LacksToRegister};

use crate::walk::Walk;
use fz_finalizers::{Addr, Cleanup, Finalizer, Finalizers, LinkAnswer, LinkKind, Old, Refused};
use fz_table::MOST_ENTRIES;

/// Reserves room in the list for one more registration, unless the object has one.
#[tactic(auto, using(fz_finalizers::proofs::Counting::len_grown, fz_finalizers::proofs::Counting::len_known))]
fn room_to_register(finalizers: &Finalizers, walk: &mut Walk, object: Addr) -> Result<(), Refused>
    requires { HasRoom finalizers.now.state walk.old.room }
    ensures refused { IfErr result (λ r. RefusesOrLacks (register_causes finalizers.now.registrations finalizers.now.next_number object) (LacksToRegister finalizers.now.state object walk.old.room) r) }
    ensures kept { walk.old.room ≤ walk.new.room }
    ensures rows { IsSameBeside walk.old walk.new }
    ensures room { OnOk result ((r : Registration) → len (insert finalizers.now.registrations object r) ≤ walk.new.room) }
{
    let room = walk.room();
    let count = finalizers.registrations() as usize;
    if count < room {
        return Ok(());
    }
    let Err(_) = walk.reserve(count + 1) else {
        return Ok(());
    };
    if finalizers.registration(object).is_some() {
        return Ok(());
    }
    finalizers.check(object)?;
    Err(Refused::NoMemory)
}

/// Registers a finalizer for an object, after reserving room in the list.
pub(crate) fn register(
    finalizers: &mut Finalizers,
    walk: &mut Walk,
    object: Addr,
    finalizer: Finalizer,
) -> Result<(u64, Option<Old>), Refused>
    requires { HaveRoom false finalizers.old.state walk.old }
    ensures judged { IsJudgedOrLacks (register_causes finalizers.old.registrations finalizers.old.next_number object) result }
    ensures fresh { IfErr result (λ r. r ≡ Refused.NoMemory → get finalizers.old.registrations object ≡ None) }
    ensures wanting { IfErr result (λ r. r ≡ Refused.NoMemory → (finalizers.old.rooms.registrations ≡ 0) ⊎ (walk.old.room ≤ len finalizers.old.registrations)) }
    ensures refused { OnErr result (finalizers.new.state ≡ finalizers.old.state) }
    ensures number { IfOk result (λ answer. answer.0 ≡ finalizers.old.next_number) }
    ensures replaced { IfOk result (λ answer. answer.1 ≡ old_of finalizers.old.registrations object) }
    ensures follows { OnOk result (Follows finalizers.old.state (Register object finalizer) finalizers.new.state) }
    ensures kept { walk.old.room ≤ walk.new.room }
    ensures room { HaveRoom false finalizers.new.state walk.new }
{
    room_to_register(finalizers, walk, object)?;
    finalizers.register(object, finalizer)
}

/// Reserves room in the list for one more link of a kind, unless the word has one.
#[tactic(auto, using(crate::proofs::Known::grown, crate::proofs::Known::known))]
fn room_to_link(
    finalizers: &Finalizers,
    walk: &mut Walk,
    kind: LinkKind,
    word: Addr,
    target: Addr,
) -> Result<(), Refused>
    requires { HasRoom finalizers.now.state walk.old.room }
    ensures refused { IfErr result (λ r. RefusesOrLacks (link_causes (links_of finalizers.now.state kind) word target) (LacksToLink finalizers.now.state kind word walk.old.room) r) }
    ensures kept { walk.old.room ≤ walk.new.room }
    ensures rows { IsSameBeside walk.old walk.new }
    ensures room { OnOk result (len (insert (links_of finalizers.now.state kind) word target) ≤ walk.new.room) }
{
    let room = walk.room();
    let count = finalizers.links(kind) as usize;
    if count < room {
        return Ok(());
    }
    let Err(_) = walk.reserve(count + 1) else {
        return Ok(());
    };
    if finalizers.target(kind, word).is_some() {
        return Ok(());
    }
    finalizers.check_link(kind, word, target)?;
    Err(Refused::NoMemory)
}

/// Registers a link, after reserving room in the list.
pub(crate) fn link(
    finalizers: &mut Finalizers,
    walk: &mut Walk,
    kind: LinkKind,
    word: Addr,
    target: Addr,
) -> Result<LinkAnswer, Refused>
    requires { HaveRoom false finalizers.old.state walk.old }
    ensures judged { IsJudgedOrLacks (link_causes (links_of finalizers.old.state kind) word target) result }
    ensures fresh { IfErr result (λ r. r ≡ Refused.NoMemory → get (links_of finalizers.old.state kind) word ≡ None) }
    ensures wanting { IfErr result (λ r. r ≡ Refused.NoMemory → (room_of finalizers.old.rooms kind ≡ 0) ⊎ (walk.old.room ≤ len (links_of finalizers.old.state kind))) }
    ensures refused { OnErr result (finalizers.new.state ≡ finalizers.old.state) }
    ensures answer { IfOk result (λ answer. answer ≡ (if contains_key (links_of finalizers.old.state kind) word then LinkAnswer.Duplicate else LinkAnswer.Success)) }
    ensures follows { OnOk result (Follows finalizers.old.state (Link kind word target) finalizers.new.state) }
    ensures kept { walk.old.room ≤ walk.new.room }
    ensures room { HaveRoom false finalizers.new.state walk.new }
{
    room_to_link(finalizers, walk, kind, word, target)?;
    finalizers.link(kind, word, target)
}

/// Makes a word an ephemeron of a key, with room for it in each of the lists. If there isn't memory for that, the ephemeron ends again.
pub(crate) fn ephemeron(
    finalizers: &mut Finalizers,
    walk: &mut Walk,
    kind: LinkKind,
    word: Addr,
    key: Addr,
) -> Result<LinkAnswer, Refused>
    requires { HaveRoom false finalizers.old.state walk.old }
    ensures judged { IsJudgedOrLacks (link_causes (of_kind finalizers.old.ephemerons kind) word key) result }
    ensures fresh { IfErr result (λ r. r ≡ Refused.NoMemory → get (of_kind finalizers.old.ephemerons kind) word ≡ None) }
    ensures refused { OnErr result (finalizers.new.state ≡ finalizers.old.state) }
    ensures answer { IfOk result (λ answer. answer ≡ (if has_ephemeron finalizers.old.ephemerons word then LinkAnswer.Duplicate else LinkAnswer.Success)) }
    ensures follows { OnOk result (Follows finalizers.old.state (Ephemeron kind word key) finalizers.new.state) }
    ensures room { HaveRoom false finalizers.new.state walk.new }
{
    let known = finalizers.key(word).is_some();
    let answer = finalizers.ephemeron(kind, word, key)?;
    if known {
        return Ok(answer);
    }
    let Err(_) = walk.reserve_rows(finalizers.ephemeron_count() as usize) else {
        return Ok(answer);
    };
    finalizers.end_ephemeron(word);
    Err(Refused::NoMemory)
}

/// Reserves room in the list for one more cleanup.
fn room_to_add(finalizers: &Finalizers, walk: &mut Walk, object: Addr) -> Result<(), Refused>
    requires { HasRoom finalizers.now.state walk.old.room }
    ensures refused { IfErr result (λ r. RefusesOrLacks (add_causes finalizers.now.cleanups finalizers.now.next_number object) (LacksToAdd finalizers.now.state walk.old.room) r) }
    ensures kept { walk.old.room ≤ walk.new.room }
    ensures rows { IsSameBeside walk.old walk.new }
    ensures room { OnOk result (len finalizers.now.cleanups < walk.new.room) }
{
    let room = walk.room();
    let count = finalizers.cleanups() as usize;
    if count < room {
        return Ok(());
    }
    let Err(_) = walk.reserve(count + 1) else {
        return Ok(());
    };
    finalizers.check_cleanup(object)?;
    Err(Refused::NoMemory)
}

/// Adds a cleanup to an object, after reserving room in the list.
#[tactic(auto, using(fz_finalizers::proofs::Counting::len_grown))]
pub(crate) fn add_cleanup(
    finalizers: &mut Finalizers,
    walk: &mut Walk,
    object: Addr,
    cleanup: Cleanup,
) -> Result<u64, Refused>
    requires { HaveRoom false finalizers.old.state walk.old }
    ensures judged { IsJudgedOrLacks (add_causes finalizers.old.cleanups finalizers.old.next_number object) result }
    ensures wanting { IfErr result (λ r. r ≡ Refused.NoMemory → (finalizers.old.rooms.cleanups ≡ 0) ⊎ (walk.old.room ≤ len finalizers.old.cleanups)) }
    ensures refused { OnErr result (finalizers.new.state ≡ finalizers.old.state) }
    ensures number { IfOk result (λ number. number ≡ finalizers.old.next_number) }
    ensures follows { OnOk result (Follows finalizers.old.state (AddCleanup object cleanup) finalizers.new.state) }
    ensures kept { walk.old.room ≤ walk.new.room }
    ensures room { HaveRoom false finalizers.new.state walk.new }
{
    room_to_add(finalizers, walk, object)?;
    finalizers.add_cleanup(object, cleanup)
}

/// Reserves room in the list for `more` items in addition to `count`, but at most for as many as a table can have.
fn grow(walk: &mut Walk, count: u64, more: usize) -> Result<(), Refused>
    requires { count ≤ walk.old.room }
    ensures refused { IfErr result (λ r. r ≡ Refused.NoMemory) }
    ensures wanting { OnErr result (walk.old.room < count + limited more) }
    ensures kept { walk.old.room ≤ walk.new.room }
    ensures rows { IsSameBeside walk.old walk.new }
    ensures room { OnOk result (count + limited more ≤ walk.new.room) }
{
    let room = walk.room();
    let most = count as usize + more.min(MOST_ENTRIES as usize);
    if most <= room {
        return Ok(());
    }
    Ok(walk.reserve(most)?)
}

/// Reserves room for further registrations and links.
pub(crate) fn reserve(
    finalizers: &mut Finalizers,
    walk: &mut Walk,
    registrations: usize,
    shorts: usize,
    longs: usize,
) -> Result<(), Refused>
    requires { HaveRoom false finalizers.old.state walk.old }
    ensures refused { IfErr result (λ r. r ≡ Refused.NoMemory) }
    ensures wanting { OnErr result (HasRooms finalizers.old.rooms registrations shorts longs → HasRoomForMore finalizers.old.state registrations shorts longs walk.old.room → ⊥) }
    ensures same { finalizers.new.state ≡ finalizers.old.state }
    ensures kept { IsRoomier finalizers.old.rooms finalizers.new.rooms × (walk.old.room ≤ walk.new.room) }
    ensures room { HaveRoom false finalizers.new.state walk.new }
    ensures rooms { OnOk result (HasRooms finalizers.new.rooms registrations shorts longs) }
    ensures more { OnOk result (HasRoomForMore finalizers.old.state registrations shorts longs walk.new.room) }
{
    finalizers.reserve(registrations, shorts, longs)?;
    grow(walk, finalizers.registrations(), registrations)?;
    grow(walk, finalizers.links(LinkKind::Short), shorts)?;
    grow(walk, finalizers.links(LinkKind::Long), longs)
}

/// Frees the memory that the finalizers and the lists don't need.
pub(crate) fn shrink(finalizers: &mut Finalizers, walk: &mut Walk)
    requires { HaveRoom false finalizers.old.state walk.old }
    ensures state { finalizers.new.state ≡ finalizers.old.state }
    ensures order { KeepsTables finalizers.old.order finalizers.new.order }
    ensures room { HaveRoom false finalizers.new.state walk.new }
{
    finalizers.shrink();
    let links = finalizers
        .links(LinkKind::Short)
        .max(finalizers.links(LinkKind::Long));
    let others = finalizers.registrations().max(finalizers.cleanups());
    let rows = finalizers.ephemeron_count();
    walk.shrink(others.max(links).max(rows) as usize, rows as usize);
}
