//! The tables of regions, one for each sweep.

ghost use Rattle.std.specs.Prelude.{◌≡◌, ◌≤◌, ◌<◌, ◌+◌, ◌⊎◌, ◌++◌, [], drop, is_some, length, map, min, slice_get, take, zip, None, Some, All, IfOk, IsFalse, IsTrue};
ghost use Rattle.std.specs.FinMap.{len};
ghost use Rattle.fz_finalizers.specs.States.{State, links_of};
ghost use Rattle.fz_machine.specs.declared.phase.Sweep.{Sweep};
ghost use Rattle.fz_machine.specs.declared.question.TheConstants.{BATCH};
ghost use Rattle.fz_machine.specs.Going.{AreAlike, AreRenewed, AreTables, Changes, IsRenewed, asked_in, is_by, left_in, noted_by, told_in};
ghost use Rattle.fz_machine.specs.Regions.{AreNoted, IsNoted, IsUntold, KeepsTable, attached, begun, holders, link_sweep, most_of, no_regions, place_in, stopped, table_at, targets};

use crate::machine::By;
use crate::phase::{Phase, Sweep};
use crate::question::{Ask, BATCH};
use crate::regions::Regions;
use fz_finalizers::{Finalizers, LinkKind};
use fz_model::Addr;
use std::alloc::{AllocError, Global};

/// The sweeps, in the order of a pass.
const SWEEPS: [Sweep; 7] = [
    Sweep::ShortCleanups,
    Sweep::ShortTargets,
    Sweep::Objects,
    Sweep::LongTargets,
    Sweep::ShortHolders,
    Sweep::LongHolders,
    Sweep::LongCleanups,
];

/// The sweep about the targets of links of a kind.
pub(crate) fn targets(kind: LinkKind) -> Sweep
    ensures { result ≡ targets kind }
{
    match kind {
        LinkKind::Short => Sweep::ShortTargets,
        LinkKind::Long => Sweep::LongTargets,
    }
}

/// The sweep about the words of links of a kind.
pub(crate) fn holders(kind: LinkKind) -> Sweep
    ensures { result ≡ holders kind }
{
    match kind {
        LinkKind::Short => Sweep::ShortHolders,
        LinkKind::Long => Sweep::LongHolders,
    }
}

/// The sweep about the objects of cleanups of a moment.
pub(crate) fn attached(when: LinkKind) -> Sweep
    ensures { result ≡ attached when }
{
    match when {
        LinkKind::Short => Sweep::ShortCleanups,
        LinkKind::Long => Sweep::LongCleanups,
    }
}

/// Whether a sweep asks about regions.
fn is_by(sweep: Sweep, by: By) -> bool
    ensures { result ≡ is_by sweep by }
{
    match sweep.ask() {
        Ask::Live => by.live,
        _ => by.marks,
    }
}

/// A table for each sweep, without regions.
pub(crate) fn tables(alloc: Global, by: By) -> Result<Vec<Regions>, AllocError>
    ensures { IfOk result (λ tables. tables.items ≡ map (λ complete. record no_regions { complete = complete }) (noted_by by)) }
{
    let mut tables = Vec::new(alloc);
    tables.reserve_exact(7)?;
    let _ = tables.push(Regions::new(alloc, by.marks));
    let _ = tables.push(Regions::new(alloc, by.marks));
    let _ = tables.push(Regions::new(alloc, by.marks));
    let _ = tables.push(Regions::new(alloc, by.marks));
    let _ = tables.push(Regions::new(alloc, by.live));
    let _ = tables.push(Regions::new(alloc, by.live));
    let _ = tables.push(Regions::new(alloc, by.marks));
    Ok(tables)
}

/// Notes an object or a word for a sweep.
pub(crate) fn note(tables: &mut [Regions], sweep: Sweep, n: Addr)
    requires { length tables.old ≡ 7 }
    ensures changes { Changes sweep tables.old tables.new }
    ensures keeps { KeepsTable (table_at tables.old sweep) (table_at tables.new sweep) }
    ensures noted { IsTrue (table_at tables.new sweep).complete → IsNoted (table_at tables.new sweep).order n }
    ensures stays { IsNoted (table_at tables.old sweep).order n → (table_at tables.new sweep).complete ≡ (table_at tables.old sweep).complete }
    ensures tabled { length (table_at tables.new sweep).order ≤ length (table_at tables.old sweep).order + 1 }
{
    tables[sweep.index()].note(n);
}

/// Opens a sweep.
pub(crate) fn begin(tables: &mut [Regions], sweep: Sweep)
    requires { length tables.old ≡ 7 }
    ensures changes { Changes sweep tables.old tables.new }
    ensures begun { table_at tables.new sweep ≡ begun (table_at tables.old sweep) }
{
    tables[sweep.index()].begin();
}

/// Ends a phase early, which may be a sweep.
pub(crate) fn stop(tables: &mut [Regions], phase: Phase)
    requires { length tables.old ≡ 7 }
    ensures ended { (s : State) → AreTables s tables.old (Some phase) → AreTables s tables.new None }
    ensures same { AreAlike tables.old tables.new }
{
    let Phase::Regions(sweep) = phase else {
        return;
    };
    tables[sweep.index()].stop();
}

/// Writes the first addresses of the next regions of a sweep, as many as fit, and returns their number.
pub(crate) fn ask(tables: &mut [Regions], sweep: Sweep, about: &mut [Addr; BATCH]) -> usize
    requires { length tables.old ≡ 7 }
    ensures changes { Changes sweep tables.old tables.new }
    ensures count { result ≡ min BATCH (length (table_at tables.old sweep).left) }
    ensures asked { table_at tables.new sweep ≡ record (table_at tables.old sweep) { asked = result } }
    ensures about { take result about.new ≡ take result (table_at tables.old sweep).left }
    ensures begin { All (λ region. place_in region ≡ 0) (take result (table_at tables.old sweep).left) }
{
    tables[sweep.index()].ask(about)
}

/// Notes the words about the regions of the last question of a sweep.
fn hear_in(tables: &mut [Regions], sweep: Sweep, words: &[u64; BATCH])
    requires { length tables.old ≡ 7 }
    ensures changes { Changes sweep tables.old tables.new }
    ensures told { (table_at tables.new sweep).told ≡ (table_at tables.old sweep).told ++ zip (take (table_at tables.old sweep).asked (table_at tables.old sweep).left) words.now }
    ensures left { (table_at tables.new sweep).left ≡ drop (min (table_at tables.old sweep).asked BATCH) (table_at tables.old sweep).left }
    ensures same { table_at tables.new sweep ≡ record (table_at tables.old sweep) { told = (table_at tables.new sweep).told; left = (table_at tables.new sweep).left } }
{
    tables[sweep.index()].hear(words);
}

/// Notes the words about the regions of the last question, if the phase is a sweep.
pub(crate) fn hear(tables: &mut [Regions], phase: Phase, words: &[u64; BATCH])
    requires { length tables.old ≡ 7 }
    ensures told { told_in tables.new (Some phase) ≡ told_in tables.old (Some phase) ++ zip (take (asked_in tables.old (Some phase)) (left_in tables.old (Some phase))) words.now }
    ensures left { left_in tables.new (Some phase) ≡ drop (min (asked_in tables.old (Some phase)) BATCH) (left_in tables.old (Some phase)) }
    ensures heard { (s : State) → AreTables s tables.old (Some phase) → AreTables s tables.new (Some phase) }
    ensures same { AreAlike tables.old tables.new }
{
    let Phase::Regions(sweep) = phase else {
        return;
    };
    hear_in(tables, sweep, words);
}

/// Whether a phase is a sweep, and it isn't told yet of some region.
pub(crate) fn has_left(tables: &[Regions], phase: Phase) -> bool
    requires { length tables.now ≡ 7 }
    ensures { result ≡ is_some (slice_get (left_in tables.now (Some phase)) 0) }
{
    match phase {
        Phase::Regions(sweep) => tables[sweep.index()].has_left(),
        _ => false,
    }
}

/// Whether the last question was about regions, in a sweep.
pub(crate) fn asks(tables: &[Regions], sweep: Sweep) -> bool
    requires { length tables.now ≡ 7 }
    ensures none { IsFalse result → take (table_at tables.now sweep).asked (table_at tables.now sweep).left ≡ [] }
    ensures some { IsTrue result → 0 < length (take (table_at tables.now sweep).asked (table_at tables.now sweep).left) }
{
    let table = &tables[sweep.index()];
    table.asked() > 0 && table.has_left()
}

/// Notes each link's target, or its word.
fn note_links(finalizers: &Finalizers, kind: LinkKind, words: bool, table: &mut Regions)
    requires { (table.old.order ≡ []) × IsUntold table.old }
    ensures untold { IsUntold table.new }
    ensures noted { IsTrue table.new.complete → AreNoted (link_sweep words kind) finalizers.now.state table.new.order }
    ensures few { length table.new.order ≤ len (links_of finalizers.now.state kind) }
{
    for (word, target) in finalizers.iter_links(kind) {
        table.note(if words { word } else { target });
    }
}

/// Notes each registered object.
fn note_objects(finalizers: &Finalizers, table: &mut Regions)
    requires { (table.old.order ≡ []) × IsUntold table.old }
    ensures untold { IsUntold table.new }
    ensures noted { IsTrue table.new.complete → AreNoted Sweep.Objects finalizers.now.state table.new.order }
    ensures few { length table.new.order ≤ len finalizers.now.registrations }
{
    for (object, _) in finalizers.iter_stored() {
        table.note(object);
    }
}

/// Notes the object of each cleanup of a moment.
fn note_cleanups(finalizers: &Finalizers, when: LinkKind, table: &mut Regions)
    requires { (table.old.order ≡ []) × IsUntold table.old }
    ensures untold { IsUntold table.new }
    ensures noted { IsTrue table.new.complete → AreNoted (attached when) finalizers.now.state table.new.order }
    ensures few { length table.new.order ≤ len finalizers.now.cleanups }
{
    for (_, cleanup) in finalizers.iter_cleanups() {
        if cleanup.cleanup.is_when(when) {
            table.note(cleanup.object);
        }
    }
}

/// Notes all that a sweep is about in a new table, as far as there is memory for it.
fn noted_again(finalizers: &Finalizers, alloc: Global, sweep: Sweep) -> Regions
    ensures untold { IsUntold result }
    ensures noted { IsTrue result.complete → AreNoted sweep finalizers.now.state result.order }
    ensures few { length result.order ≤ most_of sweep finalizers.now.state }
{
    let mut table = Regions::new(alloc, true);
    match sweep {
        Sweep::ShortCleanups => note_cleanups(finalizers, LinkKind::Short, &mut table),
        Sweep::ShortTargets => note_links(finalizers, LinkKind::Short, false, &mut table),
        Sweep::Objects => note_objects(finalizers, &mut table),
        Sweep::LongTargets => note_links(finalizers, LinkKind::Long, false, &mut table),
        Sweep::ShortHolders => note_links(finalizers, LinkKind::Short, true, &mut table),
        Sweep::LongHolders => note_links(finalizers, LinkKind::Long, true, &mut table),
        Sweep::LongCleanups => note_cleanups(finalizers, LinkKind::Long, &mut table),
    }
    table
}

/// Replaces a table by one to which all is noted again, if there is memory for it.
fn renew_one(finalizers: &Finalizers, sweep: Sweep, table: &mut Regions)
    ensures { (table.new ≡ table.old) ⊎ IsRenewed sweep finalizers.now.state table.new }
{
    let again = noted_again(finalizers, table.allocator(), sweep);
    if again.is_complete() {
        *table = again;
    }
    table.shrink();
}

/// Replaces tables by those to which all is noted again, as far as there is memory for them.
pub(crate) fn renew(finalizers: &Finalizers, by: By, tables: &mut [Regions])
    requires { length tables.old ≡ 7 }
    ensures { AreRenewed by finalizers.now.state tables.old tables.new }
{
    for sweep in SWEEPS {
        if is_by(sweep, by) {
            renew_one(finalizers, sweep, &mut tables[sweep.index()]);
        }
    }
}
