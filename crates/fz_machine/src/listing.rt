//! The lists that phases process.

ghost use Rattle.std.specs.Prelude.{◌≡◌, ◌≤◌, ◌<◌, ◌+◌, ◌*◌, ◌^◌, ◌++◌, ◌∷◌, ◌&&◌, ◌⊎◌, [], ℕ, List, nat_le, not, true, false, if◌then◌else◌, filter, length, map, All, IsTrue, IsFalse, vec_len, vec_capacity};
ghost use Rattle.fz_machine.specs.declared.item.Item.{Item};
ghost use Rattle.std.specs.FinMap.{len};
ghost use Rattle.fz_finalizers.specs.States.{links_of};
ghost use Rattle.fz_pass.specs.Keyed.{of_kind};
ghost use Rattle.fz_finalizers.specs.declared.cleanups.Attached.{Attached};
ghost use Rattle.fz_finalizers.specs.Cleanups.{is_when};
ghost use Rattle.fz_machine.specs.Items.{AreCleanups, AreEntriesOf, AreEphemerons, AreLinks, AreObjects, is_listed, is_still, is_wanted, link_number, of_cleanup, of_link, of_stored, target_of};
ghost use Rattle.fz_machine.specs.Going.{ephemerons_in, follows_settling, going, HasRoom, HaveRoom, HasRoomOff, IsListed};
ghost use Rattle.fz_machine.specs.Off.{all_off, count_off, none_off};
ghost use Rattle.fz_machine.specs.Phases.{IsOther, Lists, settles, swept};
ghost use Rattle.fz_machine.specs.Regions.{IsLooked, IsRenoted, IsTold, IsWhole, attached, is_marked, is_unmarked, link_sweep};
ghost use Rattle.fz_machine.specs.Steps.{Begins};

use crate::item::Item;
use crate::phase::{Moment, Phase, Sweep};
use crate::regions::Regions;
use crate::walk::Walk;
use fz_finalizers::{Attached, Finalizers, Stored};
use fz_model::{Addr, LinkKind};

/// Appends an item to the list, which has room for it.
pub(crate) fn put(items: &mut Vec<Item>, item: Item)
    requires room { vec_len items.old < vec_capacity items.old }
    ensures listed { items.new.items ≡ items.old.items ++ item ∷ [] }
    ensures capacity { vec_capacity items.old ≤ vec_capacity items.new }
{
    let _ = items.push(item);
}

/// Notes a link's target, or its word, and appends the link to the list, which has room for it, unless that was told marked.
fn put_link(table: &mut Regions, words: bool, word: Addr, target: Addr, items: &mut Vec<Item>)
    requires whole { IsWhole table.old }
    requires room { vec_len items.old < vec_capacity items.old }
    ensures listed { items.new.items ≡ (if is_marked table.old.told (link_number words (word, target)) then items.old.items else items.old.items ++ of_link (is_unmarked table.old.told (link_number words (word, target))) (word, target) ∷ []) }
    ensures looked { IsLooked (link_number words (word, target)) table.old table.new }
    ensures capacity { vec_capacity items.old ≤ vec_capacity items.new }
{
    let (marked, known) = table.look(if words { word } else { target });
    if !marked {
        put(items, Item::of_link(word, target, known));
    }
}

/// Appends all links of one kind whose targets, or words, weren't told marked to the list, which has room for all.
fn list_links(
    finalizers: &Finalizers,
    kind: LinkKind,
    words: bool,
    table: &mut Regions,
    items: &mut Vec<Item>,
)
    requires told { IsTold (link_sweep words kind) finalizers.now.state table.old }
    requires empty { items.old.items ≡ [] }
    requires room { len (links_of finalizers.now.state kind) ≤ vec_capacity items.old }
    ensures listed { AreLinks (link_number words) table.old.told (links_of finalizers.now.state kind) items.new.items }
    ensures renoted { IsRenoted (link_sweep words kind) finalizers.now.state table.old table.new }
    ensures room { vec_capacity items.old ≤ vec_capacity items.new }
{
    let links = finalizers.iter_links(kind);
    if !table.lists() {
        table.end();
        return;
    }
    for (word, target) in links {
        put_link(table, words, word, target, items);
    }
    table.end();
}

/// Notes an object, and appends its registration to the list, which has room for it, if its number is at least `from`, unless it was told marked.
fn put_object(table: &mut Regions, from: u64, object: Addr, stored: Stored, items: &mut Vec<Item>)
    requires whole { IsWhole table.old }
    requires room { vec_len items.old < vec_capacity items.old }
    ensures listed { items.new.items ≡ (if nat_le from stored.number && not (is_marked table.old.told object) then items.old.items ++ of_stored (is_unmarked table.old.told object) (object, stored) ∷ [] else items.old.items) }
    ensures looked { IsLooked object table.old table.new }
    ensures capacity { vec_capacity items.old ≤ vec_capacity items.new }
{
    let (marked, known) = table.look(object);
    if from <= stored.number && !marked {
        put(items, Item::of_stored(object, &stored, known));
    }
}

/// Appends all registrations whose numbers are at least `from`, and whose objects weren't told marked, to the list, which has room for all.
fn list_objects(finalizers: &Finalizers, from: u64, table: &mut Regions, items: &mut Vec<Item>)
    requires told { IsTold Sweep.Objects finalizers.now.state table.old }
    requires empty { items.old.items ≡ [] }
    requires room { len finalizers.now.registrations ≤ vec_capacity items.old }
    ensures listed { AreObjects from table.old.told finalizers.now.registrations finalizers.now.late items.new.items }
    ensures renoted { IsRenoted Sweep.Objects finalizers.now.state table.old table.new }
    ensures room { vec_capacity items.old ≤ vec_capacity items.new }
{
    let registrations = finalizers.iter_stored();
    if !table.lists() {
        table.end();
        return;
    }
    for (object, stored) in registrations {
        put_object(table, from, object, stored, items);
    }
    table.end();
}

/// Appends all ephemerons of one kind to the list, which has room for them.
fn list_ephemerons(finalizers: &Finalizers, kind: LinkKind, items: &mut Vec<Item>)
    requires room { vec_len items.old + len (of_kind finalizers.now.ephemerons kind) ≤ vec_capacity items.old }
    ensures listed { (more : List Item) × AreLinks target_of [] (of_kind finalizers.now.ephemerons kind) more × (items.new.items ≡ items.old.items ++ more) }
    ensures room { vec_capacity items.old ≤ vec_capacity items.new }
{
    for (word, key) in finalizers.iter_ephemerons(kind) {
        put(items, Item::of_link(word, key, false));
    }
}

/// Lists all links of a kind whose targets, or words, weren't told marked.
fn walk_links(
    finalizers: &Finalizers,
    kind: LinkKind,
    words: bool,
    table: &mut Regions,
    walk: &mut Walk,
)
    requires told { IsTold (link_sweep words kind) finalizers.now.state table.old }
    requires room { HasRoom finalizers.now.state walk.old.room }
    ensures listed { AreLinks (link_number words) table.old.told (links_of finalizers.now.state kind) walk.new.left }
    ensures renoted { IsRenoted (link_sweep words kind) finalizers.now.state table.old table.new }
    ensures others { IsListed walk.old walk.new }
{
    let mut items = walk.take_room();
    list_links(finalizers, kind, words, table, &mut items);
    walk.put(items);
}

/// Whether a kind is the one that is wanted, if one is.
fn is_wanted(wanted: Option<LinkKind>, kind: LinkKind) -> bool
    ensures { result ≡ is_wanted wanted kind }
{
    match (wanted, kind) {
        (None, _) => true,
        (Some(LinkKind::Short), LinkKind::Short) | (Some(LinkKind::Long), LinkKind::Long) => true,
        _ => false,
    }
}

/// Whether an item still is an ephemeron, of a kind if one is given: it wasn't ended.
fn is_still(finalizers: &Finalizers, kind: Option<LinkKind>, item: &Item) -> bool
    ensures { result ≡ is_still kind finalizers.now.ephemerons item.now }
{
    match finalizers.key(item.word) {
        Some((of, key)) => is_wanted(kind, of) && item.object == key,
        None => false,
    }
}

/// Keeps the remaining items that still are ephemerons, of a kind if one is given.
fn keep_still(finalizers: &Finalizers, kind: Option<LinkKind>, walk: &mut Walk)
    ensures kept { walk.new.kept ≡ walk.old.kept ++ filter (is_still kind finalizers.now.ephemerons) walk.old.left }
    ensures left { walk.new.left ≡ [] }
    ensures others { walk.new ≡ record walk.old { kept = walk.new.kept; left = walk.new.left } }
{
    while let Some(item) = walk.first() {
        walk.pass_on(item, is_still(finalizers, kind, &item));
    }
}

/// Lists the ephemerons that are put off and weren't ended, of a kind if one is given.
fn walk_off(finalizers: &Finalizers, kind: Option<LinkKind>, walk: &mut Walk)
    requires room { count_off walk.old.off ≤ walk.old.room }
    ensures listed { walk.new.left ≡ filter (is_still kind finalizers.now.ephemerons) (all_off walk.old.off) }
    ensures others { IsListed walk.old walk.new }
{
    walk.list_off();
    keep_still(finalizers, kind, walk);
    walk.again();
}

/// Lists all ephemerons.
fn walk_ephemerons(finalizers: &Finalizers, walk: &mut Walk)
    requires room { ephemerons_in finalizers.now.state ≤ walk.old.room }
    ensures listed { AreEphemerons finalizers.now.ephemerons walk.new.left }
    ensures count { length walk.new.left ≡ ephemerons_in finalizers.now.state }
    ensures others { IsListed walk.old walk.new }
{
    let mut items = walk.take_room();
    list_ephemerons(finalizers, LinkKind::Short, &mut items);
    list_ephemerons(finalizers, LinkKind::Long, &mut items);
    walk.put(items);
}

/// Lists all registrations whose numbers are at least `from`, and whose objects weren't told marked.
fn walk_objects(finalizers: &Finalizers, from: u64, table: &mut Regions, walk: &mut Walk)
    requires told { IsTold Sweep.Objects finalizers.now.state table.old }
    requires room { HasRoom finalizers.now.state walk.old.room }
    ensures listed { AreObjects from table.old.told finalizers.now.registrations finalizers.now.late walk.new.left }
    ensures renoted { IsRenoted Sweep.Objects finalizers.now.state table.old table.new }
    ensures others { IsListed walk.old walk.new }
{
    let mut items = walk.take_room();
    list_objects(finalizers, from, table, &mut items);
    walk.put(items);
}

/// Notes the object of a cleanup of this moment, and appends the cleanup to the list, which has room for it, if its number is at least `from`, unless the
/// object was told marked.
fn put_cleanup(
    table: &mut Regions,
    when: LinkKind,
    from: u64,
    number: u64,
    attached: Attached,
    items: &mut Vec<Item>,
)
    requires whole { IsWhole table.old }
    requires room { vec_len items.old < vec_capacity items.old }
    ensures listed { items.new.items ≡ (if is_listed from table.old.told when (number, attached) then items.old.items ++ of_cleanup (is_unmarked table.old.told attached.object) (number, attached) ∷ [] else items.old.items) }
    ensures looked { (IsTrue (is_when when attached.cleanup.when) × IsLooked attached.object table.old table.new) ⊎ (IsFalse (is_when when attached.cleanup.when) × (table.new ≡ table.old)) }
    // Tells the caller that the number is less than 2^64.
    ensures number { number < 2 ^ 64 }
    ensures capacity { vec_capacity items.old ≤ vec_capacity items.new }
{
    if !attached.cleanup.is_when(when) {
        return;
    }
    let (marked, known) = table.look(attached.object);
    if from <= number && !marked {
        put(items, Item::of_cleanup(number, &attached, known));
    }
}

/// Appends all cleanups of a moment whose numbers are at least `from`, and whose objects weren't told marked, to the list, which has room for all.
fn list_cleanups(
    finalizers: &Finalizers,
    when: LinkKind,
    from: u64,
    table: &mut Regions,
    items: &mut Vec<Item>,
)
    requires told { IsTold (attached when) finalizers.now.state table.old }
    requires empty { items.old.items ≡ [] }
    requires room { len finalizers.now.cleanups ≤ vec_capacity items.old }
    ensures listed { (es : List (ℕ × Attached)) × AreEntriesOf finalizers.now.cleanups es × (items.new.items ≡ map (λ e. of_cleanup (is_unmarked table.old.told e.1.object) e) (filter (is_listed from table.old.told when) es)) }
    ensures numbers { All (λ item. item.word < 2 ^ 64) items.new.items }
    ensures renoted { IsRenoted (attached when) finalizers.now.state table.old table.new }
    ensures room { vec_capacity items.old ≤ vec_capacity items.new }
{
    let cleanups = finalizers.iter_cleanups();
    if !table.lists() {
        table.end();
        return;
    }
    for (number, attached) in cleanups {
        put_cleanup(table, when, from, number, attached, items);
    }
    table.end();
}

/// A cleanup's sort key: its rank, then its number.
fn numbered(item: &Item) -> u128
    ensures { result ≡ item.now.turn * 2 ^ 64 + item.now.word }
{
    u128::from(item.turn) * 0x1_0000_0000_0000_0000 + u128::from(item.word)
}

/// Lists all cleanups of a moment whose numbers are at least `from`, and whose objects weren't told marked, by rank, then number.
fn walk_cleanups(
    finalizers: &Finalizers,
    when: LinkKind,
    from: u64,
    table: &mut Regions,
    walk: &mut Walk,
)
    requires told { IsTold (attached when) finalizers.now.state table.old }
    requires room { HasRoom finalizers.now.state walk.old.room }
    ensures listed { AreCleanups from table.old.told when finalizers.now.cleanups walk.new.left }
    ensures renoted { IsRenoted (attached when) finalizers.now.state table.old table.new }
    ensures others { IsListed walk.old walk.new }
{
    let mut items = walk.take_room();
    list_cleanups(finalizers, when, from, table, &mut items);
    items.sort_unstable_by_key(|item| numbered(item));
    walk.put(items);
}

/// Lists all ephemerons at the first moment, and later those that are put off.
fn list_rows(finalizers: &Finalizers, moment: Moment, walk: &mut Walk)
    requires room { ephemerons_in finalizers.now.state ≤ walk.old.room }
    requires off { count_off walk.old.off ≤ walk.old.room }
    ensures listed { (from : ℕ) → Lists (Phase.Keys moment) from [] finalizers.now.state (all_off walk.old.off) walk.new.left }
    ensures few { (length walk.new.left ≤ ephemerons_in finalizers.now.state) ⊎ (length walk.new.left ≤ count_off walk.old.off) }
    ensures others { IsListed walk.old walk.new }
{
    match moment {
        Moment::First => walk_ephemerons(finalizers, walk),
        Moment::Led | Moment::Picked | Moment::Last => walk_off(finalizers, None, walk),
    }
}

/// Sets the kept items aside, and lists all ephemerons at the first moment, and later those that are put off.
fn walk_rows(finalizers: &Finalizers, moment: Moment, walk: &mut Walk)
    requires room { HaveRoom false finalizers.now.state walk.old }
    requires off { HasRoomOff false walk.old }
    ensures listed { (from : ℕ) → Lists (Phase.Keys moment) from [] finalizers.now.state (all_off walk.old.off) walk.new.left }
    ensures others { walk.new ≡ record walk.new { kept = []; aside = walk.old.kept; off = none_off } }
    ensures room { HaveRoom true finalizers.now.state walk.new }
    ensures off { HasRoomOff true walk.new }
{
    walk.set_aside();
    list_rows(finalizers, moment, walk);
    walk.forget();
}

/// Lists what a phase behind a sweep processes, of registrations and cleanups those whose numbers are at least `from`.
pub(crate) fn walk_swept(
    finalizers: &Finalizers,
    from: u64,
    sweep: Sweep,
    table: &mut Regions,
    walk: &mut Walk,
)
    requires told { IsTold sweep finalizers.now.state table.old }
    requires room { HasRoom finalizers.now.state walk.old.room }
    ensures listed { Lists (swept sweep) from table.old.told finalizers.now.state [] walk.new.left }
    ensures renoted { IsRenoted sweep finalizers.now.state table.old table.new }
    ensures others { IsListed walk.old walk.new }
{
    match sweep {
        Sweep::ShortCleanups => walk_cleanups(finalizers, LinkKind::Short, from, table, walk),
        Sweep::ShortTargets => walk_links(finalizers, LinkKind::Short, false, table, walk),
        Sweep::Objects => walk_objects(finalizers, from, table, walk),
        Sweep::LongTargets => walk_links(finalizers, LinkKind::Long, false, table, walk),
        Sweep::ShortHolders => walk_links(finalizers, LinkKind::Short, true, table, walk),
        Sweep::LongHolders => walk_links(finalizers, LinkKind::Long, true, table, walk),
        Sweep::LongCleanups => walk_cleanups(finalizers, LinkKind::Long, from, table, walk),
    }
}

/// Lists what a phase processes that is neither a sweep nor behind one.
pub(crate) fn begin(finalizers: &Finalizers, walk: &mut Walk, phase: Phase)
    requires other { IsOther phase }
    requires room { HaveRoom (follows_settling phase) finalizers.now.state walk.old }
    requires off { HasRoomOff (follows_settling phase) walk.old }
    requires left { walk.old.left ≡ [] }
    ensures begins { (from : ℕ) → Begins from phase (going finalizers.now walk.old []) (going finalizers.now walk.new []) }
    ensures room { HaveRoom (settles phase) finalizers.now.state walk.new }
    ensures off { HasRoomOff (settles phase) walk.new }
{
    match phase {
        Phase::Keys(moment) => walk_rows(finalizers, moment, walk),
        Phase::KeysAgain(_) => walk.look_again(),
        Phase::Holders(_) | Phase::Values(_) => walk.again(),
        Phase::Again | Phase::LateAgain => walk.resume(),
        Phase::ShortKeys | Phase::ShortKeyHolders => {
            walk_off(finalizers, Some(LinkKind::Short), walk);
        }
        Phase::LongKeys | Phase::LongKeyHolders => walk_off(finalizers, Some(LinkKind::Long), walk),
        Phase::Children => walk.again_grouped(),
        Phase::Entries => walk.again_in_turn(),
        Phase::ShortWords | Phase::ShortKeyWords | Phase::Picks => walk.again(),
        Phase::LatePicks | Phase::LongWords | Phase::LongKeyWords => walk.again(),
        _ => {}
    }
}
