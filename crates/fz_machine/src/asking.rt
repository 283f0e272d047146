//! The steps of a pass.

ghost use Rattle.std.specs.Prelude.{◌≡◌, ◌≤◌, ◌<◌, ◌∷◌, [], Bool, drop, take, length, is_some, IsTrue, Some};
ghost use Rattle.fz_machine.specs.Asks.{bits_of};
ghost use Rattle.fz_machine.specs.Off.{put_off};
ghost use Rattle.fz_machine.specs.Phases.{after, asks, settles};
ghost use Rattle.fz_machine.specs.Sifts.{AreAll, idle_answer, keeps_all, keeps_known, keeps_marked, keeps_unmarked};
ghost use Rattle.fz_machine.specs.Steps.{step, steps, skip};
ghost use Rattle.fz_machine.specs.Going.{going, HasRoomOff, IsSameRoom};

use crate::answers::{has_bit, word_of};
use crate::item::Item;
use crate::phase::Phase;
use crate::walk::Walk;
use fz_finalizers::{Finalizers, Kind};
use fz_model::LinkKind;

/// Carries out what an answer about an item implies for the finalizers.
#[inline(always)]
fn act(finalizers: &mut Finalizers, phase: Phase, item: Item, yes: bool)
    ensures { finalizers.new.state ≡ after phase item yes finalizers.old.state }
{
    match phase {
        Phase::ShortWords => {
            finalizers.unlink(LinkKind::Short, item.word);
        }
        Phase::LongWords => {
            finalizers.unlink(LinkKind::Long, item.word);
        }
        Phase::ShortHolders if !yes => {
            finalizers.unlink(LinkKind::Short, item.word);
        }
        Phase::LongHolders if !yes => {
            finalizers.unlink(LinkKind::Long, item.word);
        }
        Phase::ShortKeyWords | Phase::LongKeyWords => {
            finalizers.end_ephemeron(item.word);
        }
        Phase::ShortKeyHolders | Phase::LongKeyHolders if !yes => {
            finalizers.end_ephemeron(item.word);
        }
        Phase::Entries if item.kind != Kind::Unreachable => {
            finalizers.queue(item.object);
        }
        Phase::LatePicks => {
            finalizers.queue(item.object);
        }
        Phase::ShortCleanups | Phase::LongCleanups if !yes => {
            finalizers.queue_cleanup(item.word);
        }
        _ => {}
    }
}

/// Puts an ephemeron off, or notes that its value may have been marked, as the answer implies.
#[inline(always)]
fn put_off(walk: &mut Walk, phase: Phase, item: Item, yes: bool)
    requires room { IsTrue (settles phase) → length walk.old.off.stuck < walk.old.off_room }
    ensures off { walk.new ≡ record walk.old { off = put_off phase item yes walk.old.off; off_room = walk.new.off_room } }
    ensures room { walk.old.off_room ≤ walk.new.off_room }
{
    match phase {
        Phase::Keys(_) | Phase::KeysAgain(_) | Phase::Holders(_) if !yes => walk.put_off(item),
        Phase::Values(_) if yes => walk.value_marked(),
        _ => {}
    }
}

/// Processes the answer about the first remaining item.
#[inline(always)]
fn step(finalizers: &mut Finalizers, walk: &mut Walk, phase: Phase, item: Item, yes: bool)
    requires first { walk.old.left ≡ item ∷ drop 1 walk.old.left }
    requires room { HasRoomOff (settles phase) walk.old }
    ensures stepped { going finalizers.new walk.new [] ≡ step phase yes (going finalizers.old walk.old []) }
    ensures room { HasRoomOff (settles phase) walk.new }
    ensures same { IsSameRoom walk.old walk.new }
{
    act(finalizers, phase, item, yes);
    walk.pass_on(item, phase.keeps(&item, yes));
    put_off(walk, phase, item, yes);
}

/// Processes answers about the first remaining items, one after another.
pub(crate) fn hear(finalizers: &mut Finalizers, walk: &mut Walk, phase: Phase, answers: &[bool])
    requires room { HasRoomOff (settles phase) walk.old }
    ensures heard { going finalizers.new walk.new [] ≡ steps phase answers.now (going finalizers.old walk.old []) }
    ensures room { HasRoomOff (settles phase) walk.new }
    ensures same { IsSameRoom walk.old walk.new }
{
    for yes in answers {
        let Some(item) = walk.first() else {
            return;
        };
        step(finalizers, walk, phase, item, *yes);
    }
}

/// Processes the answers in a word about the first remaining items, as many as this, one after another.
fn hear_each(finalizers: &mut Finalizers, walk: &mut Walk, phase: Phase, bits: u64, count: usize)
    requires few { count ≤ 64 }
    requires room { HasRoomOff (settles phase) walk.old }
    ensures heard { going finalizers.new walk.new [] ≡ steps phase (take count (bits_of bits)) (going finalizers.old walk.old []) }
    ensures room { HasRoomOff (settles phase) walk.new }
    ensures same { IsSameRoom walk.old walk.new }
{
    let mut place = 0;
    while place < count {
        let Some(item) = walk.first() else {
            return;
        };
        step(finalizers, walk, phase, item, has_bit(bits, place));
        place += 1;
    }
}

/// Whether a phase keeps the items whose answers are false, and changes nothing else.
fn keeps_unmarked(phase: Phase) -> bool
    ensures { result ≡ keeps_unmarked phase }
{
    match phase {
        Phase::ShortTargets | Phase::LongTargets | Phase::ShortKeys | Phase::LongKeys => true,
        Phase::Objects | Phase::Again | Phase::LateAgain => true,
        _ => false,
    }
}

/// Whether a phase keeps the ephemerons whose answers are true, and puts off the others.
fn keeps_marked(phase: Phase) -> bool
    ensures { result ≡ keeps_marked phase }
{
    match phase {
        Phase::Keys(_) | Phase::KeysAgain(_) | Phase::Holders(_) => true,
        _ => false,
    }
}

/// Whether a phase keeps all items.
fn keeps_all(phase: Phase) -> bool
    ensures { result ≡ keeps_all phase }
{
    match phase {
        Phase::Children | Phase::Picks => true,
        _ => false,
    }
}

/// The answer, if there is one, that makes a phase drop an item and change nothing else.
fn idle_answer(phase: Phase) -> Option<bool>
    ensures { result ≡ idle_answer phase }
{
    match phase {
        Phase::Values(_) => Some(false),
        Phase::ShortCleanups | Phase::LongCleanups => Some(true),
        Phase::ShortHolders | Phase::LongHolders => Some(true),
        Phase::ShortKeyHolders | Phase::LongKeyHolders => Some(true),
        _ => None,
    }
}

/// Whether a phase drops all items with the answers in a word, and changes nothing else.
fn is_idle(phase: Phase, bits: u64) -> bool
    ensures { IsTrue result → (answer : Bool) × (idle_answer phase ≡ Some answer) × AreAll answer bits }
{
    match idle_answer(phase) {
        Some(answer) => bits == word_of(answer),
        None => false,
    }
}

/// Processes the answers in a word about the first remaining items, as many as this.
// Most phases only choose items, which takes no step for each of them.
pub(crate) fn hear_bits(
    finalizers: &mut Finalizers,
    walk: &mut Walk,
    phase: Phase,
    bits: u64,
    count: usize,
)
    requires few { count ≤ 64 }
    requires room { HasRoomOff (settles phase) walk.old }
    ensures heard { going finalizers.new walk.new [] ≡ steps phase (take count (bits_of bits)) (going finalizers.old walk.old []) }
    ensures room { HasRoomOff (settles phase) walk.new }
    ensures same { IsSameRoom walk.old walk.new }
{
    if keeps_unmarked(phase) {
        walk.sift(!bits, count);
        return;
    }
    if keeps_marked(phase) {
        walk.part(bits, count);
        return;
    }
    if keeps_all(phase) {
        walk.sift(!0, count);
        return;
    }
    if is_idle(phase, bits) {
        walk.drop_first(count);
        return;
    }
    hear_each(finalizers, walk, phase, bits, count);
}

/// Skips items about which nothing is asked, one after another.
fn skip_each(finalizers: &mut Finalizers, walk: &mut Walk, phase: Phase)
    requires room { HasRoomOff (settles phase) walk.old }
    ensures skipped { going finalizers.new walk.new [] ≡ skip phase (going finalizers.old walk.old []) }
    ensures room { HasRoomOff (settles phase) walk.new }
    ensures same { IsSameRoom walk.old walk.new }
{
    while let Some(item) = walk.first() {
        if phase.asks(&item).is_some() {
            return;
        }
        step(finalizers, walk, phase, item, false);
    }
}

/// Whether a phase asks about each item that isn't known, and keeps those that are.
fn keeps_known(phase: Phase) -> bool
    ensures { result ≡ keeps_known phase }
{
    match phase {
        Phase::ShortTargets | Phase::Objects | Phase::LongTargets => true,
        _ => false,
    }
}

/// Skips items about which nothing is asked.
pub(crate) fn skip(finalizers: &mut Finalizers, walk: &mut Walk, phase: Phase)
    requires room { HasRoomOff (settles phase) walk.old }
    ensures skipped { going finalizers.new walk.new [] ≡ skip phase (going finalizers.old walk.old []) }
    ensures room { HasRoomOff (settles phase) walk.new }
    ensures same { IsSameRoom walk.old walk.new }
{
    if keeps_known(phase) {
        walk.keep_known();
        return;
    }
    skip_each(finalizers, walk, phase);
}
