//! From one question to the next.

ghost use Rattle.std.specs.Prelude.{◌≡◌, ◌≤◌, ◌<◌, ◌∷◌, [], ℕ, map, take, length, slice_get, is_some, All, Some, IfSome, IsTrue, IsFalse};
ghost use Rattle.fz_machine.specs.declared.item.Item.{Item};
ghost use Rattle.fz_machine.specs.declared.phase.Sweep.{Sweep};
ghost use Rattle.fz_machine.specs.declared.question.TheConstants.{BATCH};
ghost use Rattle.fz_machine.specs.Phases.{Lists, asks, subject, swept};
ghost use Rattle.fz_machine.specs.Going.{AreNoMore, AreReady, Changes, HasAsk, HasRoom, HasRoomOff, HaveRoom, IsInOrder, IsListed, Lacks, emptied, follows_settling, going, left_in, questions_by, told_for, told_in};
ghost use Rattle.fz_machine.specs.Regions.{IsRenoted, IsTold, begun, table_at};
ghost use Rattle.fz_machine.specs.Steps.{Begins, GoesOn, IsQuestion, skip};

use crate::asking::skip;
use crate::item::Item;
use crate::listing::{begin, walk_swept};
use crate::phase::{Phase, Sweep};
use crate::question::{Ask, BATCH};
use crate::regions::Regions;
use crate::tables;
use crate::tables::has_left;
use crate::walk::Walk;
use fz_finalizers::Finalizers;
use fz_model::Addr;

/// Whether a phase has something to ask: about regions, or about items once those about which nothing is asked are skipped.
fn stays(finalizers: &mut Finalizers, walk: &mut Walk, tables: &[Regions], phase: Phase) -> bool
    requires order { IsInOrder finalizers.old.state walk.old tables.now (Some phase) }
    ensures asks { IsTrue result → (from : ℕ) → GoesOn from phase (going finalizers.old walk.old (told_in tables.now (Some phase))) (Some phase) (going finalizers.new walk.new (told_in tables.now (Some phase))) }
    ensures skipped { IsFalse result → going finalizers.new walk.new (told_in tables.now (Some phase)) ≡ skip phase (going finalizers.old walk.old (told_in tables.now (Some phase))) }
    ensures none { IsFalse result → (walk.new.left ≡ []) × (left_in tables.now (Some phase) ≡ []) }
    ensures some { IsTrue result → HasAsk phase walk.new.left (left_in tables.now (Some phase)) }
    ensures order { IsInOrder finalizers.new.state walk.new tables.now (Some phase) }
    // Behind a sweep in which all was told nothing is asked.
    ensures known { (sweep : Sweep) → phase ≡ swept sweep → All (λ (item : Item). IsTrue item.known) walk.old.left → IsFalse result }
{
    if has_left(tables, phase) {
        return true;
    }
    skip(finalizers, walk, phase);
    walk.first().is_some()
}

/// Opens a sweep. Nothing is listed.
fn begin_sweep(walk: &mut Walk, tables: &mut [Regions], sweep: Sweep)
    requires { length tables.old ≡ 7 }
    ensures walk { walk.new ≡ emptied sweep walk.old }
    ensures changes { Changes sweep tables.old tables.new }
    ensures begun { table_at tables.new sweep ≡ begun (table_at tables.old sweep) }
{
    match sweep {
        Sweep::ShortCleanups | Sweep::LongTargets => walk.resume(),
        _ => {}
    }
    walk.clear();
    tables::begin(tables, sweep);
}

/// Lists what the phase behind a sweep processes, of registrations and cleanups those whose numbers are at least `from`.
fn begin_swept(
    finalizers: &Finalizers,
    walk: &mut Walk,
    tables: &mut [Regions],
    from: u64,
    sweep: Sweep,
)
    requires count { length tables.old ≡ 7 }
    requires told { IsTold sweep finalizers.now.state (table_at tables.old sweep) }
    requires room { HasRoom finalizers.now.state walk.old.room }
    ensures listed { Lists (swept sweep) from (table_at tables.old sweep).told finalizers.now.state [] walk.new.left }
    ensures others { IsListed walk.old walk.new }
    ensures changes { Changes sweep tables.old tables.new }
    ensures renoted { IsRenoted sweep finalizers.now.state (table_at tables.old sweep) (table_at tables.new sweep) }
{
    walk_swept(finalizers, from, sweep, &mut tables[sweep.index()], walk);
}

/// Lists what a phase processes, of registrations and cleanups those whose numbers are at least `from`.
fn begin_by(
    finalizers: &Finalizers,
    walk: &mut Walk,
    tables: &mut [Regions],
    from: u64,
    phase: Phase,
)
    requires ready { AreReady finalizers.now.state tables.old phase }
    requires left { walk.old.left ≡ [] }
    requires room { HaveRoom (follows_settling phase) finalizers.now.state walk.old }
    requires off { HasRoomOff (follows_settling phase) walk.old }
    ensures begins { Begins from phase (going finalizers.now walk.old (told_for tables.old phase)) (going finalizers.now walk.new (told_in tables.new (Some phase))) }
    ensures order { IsInOrder finalizers.now.state walk.new tables.new (Some phase) }
    ensures more { AreNoMore tables.old tables.new }
{
    if let Phase::Regions(sweep) = phase {
        begin_sweep(walk, tables, sweep);
        return;
    }
    let Some(sweep) = phase.sweep() else {
        begin(finalizers, walk, phase);
        return;
    };
    begin_swept(finalizers, walk, tables, from, sweep);
}

/// Proceeds to the first phase with something to ask, and returns it, or to the end of the pass.
pub(crate) fn go_on(
    finalizers: &mut Finalizers,
    walk: &mut Walk,
    tables: &mut [Regions],
    from: u64,
    phase: Phase,
) -> Option<Phase>
    requires order { IsInOrder finalizers.old.state walk.old tables.old (Some phase) }
    requires lacks { Lacks (Some phase) tables.old }
    ensures goes { GoesOn from phase (going finalizers.old walk.old (told_in tables.old (Some phase))) result (going finalizers.new walk.new (told_in tables.new result)) }
    ensures order { IsInOrder finalizers.new.state walk.new tables.new result }
    ensures more { AreNoMore tables.old tables.new }
    ensures fewer { questions_by result tables.new ≤ questions_by (Some phase) tables.old }
    ensures lacks { Lacks result tables.new }
    ensures some { IfSome result (λ phase. HasAsk phase walk.new.left (left_in tables.new (Some phase))) }
{
    let mut phase = phase;
    loop {
        if stays(finalizers, walk, tables, phase) {
            return Some(phase);
        }
        let Some(next) = phase.next(walk.looks_again()) else {
            return None;
        };
        phase = next;
        begin_by(finalizers, walk, tables, from, phase);
    }
}

/// Whether two items are of one kind, and the same is known of them.
#[inline(always)]
fn are_alike(item: &Item, other: &Item) -> bool
    ensures { IsTrue result → (item.now.kind ≡ other.now.kind) × (item.now.known ≡ other.now.known) }
{
    item.kind == other.kind && item.known == other.known
}

/// Whether a phase asks about an item what it asks about another.
#[inline(always)]
#[tactic(auto, using(crate::proofs::Numbered::same_ask))]
fn asks_same(phase: Phase, other: &Item, item: &Item, ask: Ask) -> bool
    requires { asks phase other.now ≡ Some ask }
    ensures same { IsTrue result → asks phase item.now ≡ Some ask }
    ensures other { IsFalse result → asks phase item.now ≡ Some ask → ⊥ }
{
    if are_alike(item, other) {
        return true;
    }
    match phase.asks(item) {
        Some(asked) => asked.number() == ask.number(),
        None => false,
    }
}

/// Writes the objects or words of the first items about which a phase asks the same as about the first one, and returns their number.
fn gather(phase: Phase, first: &Item, left: &[Item], ask: Ask, about: &mut [Addr; BATCH]) -> usize
    requires { asks phase first.now ≡ Some ask }
    ensures few { (result ≤ BATCH) × (result ≤ length left.now) }
    ensures alike { All (λ item. asks phase item ≡ Some ask) (take result left.now) }
    ensures about { take result about.new ≡ map (subject phase) (take result left.now) }
    ensures most { result < BATCH → (item : Item) → slice_get left.now result ≡ Some item → asks phase item ≡ Some ask → ⊥ }
{
    let mut count = 0;
    while count < BATCH {
        let Some(item) = left.get(count) else {
            return count;
        };
        if !asks_same(phase, first, item, ask) {
            return count;
        }
        about[count] = phase.subject(item);
        count += 1;
    }
    count
}

/// What a phase asks about how many of the first remaining items, whose objects or words it writes. Requires that it asks something about the first of them.
pub(crate) fn question(phase: Phase, left: &[Item], about: &mut [Addr; BATCH]) -> (Ask, usize)
    requires { (item : Item) × (slice_get left.now 0 ≡ Some item) × IsTrue (is_some (asks phase item)) }
    ensures { IsQuestion phase left.now (record { ask = result.0; about = about.new; count = result.1 }) }
{
    let first = left.first().unwrap();
    let ask = phase.asks(first).unwrap();
    let count = gather(phase, first, left, ask, about);
    (ask, count)
}
