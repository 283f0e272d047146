//! The ephemerons that are put off.

ghost use Rattle.std.specs.Prelude.{◌≡◌, ◌≤◌, ◌<◌, ◌+◌, ◌++◌, ◌∷◌, [], filter, map, min, nat_eq, nat_lt, length, take, slice_get, vec_len, vec_capacity, true, None, IfSome, OnOk};
ghost use Rattle.std.specs.List.Sorted.{IsNonDecreasingBy};
ghost use Rattle.fz_machine.specs.declared.rows.Row.{Row};
ghost use Rattle.fz_machine.specs.Asks.{bits_of};
ghost use Rattle.fz_machine.specs.Off.{IsIndexed, TellsOff, all_off, count_off, fresh, key_of, looked_at, looking, looks_again, none_off, of_row, stuck_with, tell_row, untold};
ghost use Rattle.fz_machine.specs.Sifts.{chosen};

use crate::answers::append_chosen;
use crate::item::Item;
use crate::listing::put;
use fz_model::Addr;
use std::alloc::{AllocError, Global};
use std::marker::Model;
use std::mem;

/// An ephemeron in the index, and whether the host has told that its key is marked.
#[derive(Clone, Copy, Debug, PartialEq, Eq)]
pub struct Row {
    pub item: Item,
    pub told: bool,
}

/// The ephemerons that are put off, since a key or a holder wasn't marked when the marks were made whole. They stay from one time to the next.
#[derive(Drop)]
pub struct Rows {
    /// Those whose keys the host can tell, and those that it has told since: sorted by key.
    index: Vec<Row>,
    /// How many of the index aren't told.
    remaining: usize,
    /// Those that were put off since the index was made.
    stuck: Vec<Item>,
    /// Those whose keys the host has told.
    told: Vec<Item>,
    /// Whether a value may have been marked since all of them were last looked at.
    again: bool,
}

impl Model for Rows {
    ghost use Rattle.std.specs.Prelude.{◌≡◌, length, min, vec_capacity};
    ghost use Rattle.std.specs.List.Sorted.{IsNonDecreasingBy};
    ghost use Rattle.fz_machine.specs.Off.{Rows, key_of, rows_code, untold};

    ghost Value = { Rows };

    ghost coded = { rows_code };

    ghost view = { λ r. record {
      off = record { index = untold r.index.items; stuck = r.stuck.items; told = r.told.items; again = r.again };
      room = min (vec_capacity r.index) (min (vec_capacity r.stuck) (vec_capacity r.told));
    } };

    ghost invariant = { λ r. (r.remaining ≡ length (untold r.index.items)) × IsNonDecreasingBy key_of r.index.items };
}

/// The key by which the index is sorted.
fn key_of(row: &Row) -> Addr
    ensures { result ≡ key_of row.now }
{
    row.item.object
}

/// Makes room for this many items in a list, and if it allocates, for an eighth more. Clears the list.
pub(crate) fn make_room<T: Drop>(items: &mut Vec<T>, most: usize) -> Result<(), AllocError>
    ensures none { items.new.items ≡ [] }
    ensures kept { vec_capacity items.old ≤ vec_capacity items.new }
    ensures room { OnOk result (most ≤ vec_capacity items.new) }
{
    items.clear();
    if most > items.capacity() {
        items.reserve_exact(most.saturating_add(most / 8))?;
    }
    Ok(())
}

/// Appends the ephemeron of a row to a list, which has room for it, unless it is told.
fn put_row(row: Row, items: &mut Vec<Item>)
    requires room { vec_len items.old + length (of_row row) ≤ vec_capacity items.old }
    ensures listed { items.new.items ≡ items.old.items ++ of_row row }
    ensures room { vec_capacity items.old ≤ vec_capacity items.new }
{
    if !row.told {
        put(items, row.item);
    }
}

/// Appends the ephemerons of the index that aren't told to a list, which has room for them.
fn put_untold(index: &[Row], items: &mut Vec<Item>)
    requires room { vec_len items.old + length (untold index.now) ≤ vec_capacity items.old }
    ensures listed { items.new.items ≡ items.old.items ++ untold index.now }
    ensures room { vec_capacity items.old ≤ vec_capacity items.new }
{
    for row in index {
        put_row(*row, items);
    }
}

/// Appends ephemerons to a list, which has room for them.
fn put_items(from: &[Item], items: &mut Vec<Item>)
    requires room { vec_len items.old + length from.now ≤ vec_capacity items.old }
    ensures listed { items.new.items ≡ items.old.items ++ from.now }
    ensures room { vec_capacity items.old ≤ vec_capacity items.new }
{
    for item in from {
        put(items, *item);
    }
}

/// Makes an index of ephemerons, for which it has room. It isn't sorted yet.
fn put_rows(items: &[Item], index: &mut Vec<Row>)
    requires empty { index.old.items ≡ [] }
    requires room { length items.now ≤ vec_capacity index.old }
    ensures listed { index.new.items ≡ map fresh items.now }
    ensures room { vec_capacity index.old ≤ vec_capacity index.new }
{
    for item in items {
        let _ = index.push(Row {
            item: *item,
            told: false,
        });
    }
}

/// The row at an index, if it has this key.
fn row_at(index: &[Row], place: usize, key: Addr) -> Option<Row>
    ensures some { IfSome result (λ (row : Row). (slice_get index.now place ≡ Some row) × (key_of row ≡ key)) }
    ensures none { result ≡ None → (row : Row) → slice_get index.now place ≡ Some row → key_of row ≡ key → ⊥ }
{
    let row = *index.get(place)?;
    if row.item.object != key {
        return None;
    }
    Some(row)
}

/// Tells the ephemerons of the index with this key, and appends them to a list, which has room for them.
fn tell_rows(index: &mut [Row], key: Addr, told: &mut Vec<Item>)
    requires sorted { IsNonDecreasingBy key_of index.old }
    requires room { vec_len told.old + length (untold index.old) ≤ vec_capacity told.old }
    ensures index { index.new ≡ map (tell_row key) index.old }
    ensures told { told.new.items ≡ told.old.items ++ filter (λ (item : Item). nat_eq key item.object) (untold index.old) }
    ensures room { vec_capacity told.old ≤ vec_capacity told.new }
{
    let mut place = index.partition_point(
        |row: &Row| -> bool
            ensures { result ≡ nat_lt (key_of row.now) key }
        { row.item.object < key },
    );
    while let Some(row) = row_at(index, place, key) {
        index[place] = Row {
            item: row.item,
            told: true,
        };
        put_row(row, told);
        place += 1;
    }
}

impl Rows {
    /// No ephemerons, without reserved room.
    pub(crate) fn new(alloc: Global) -> Rows
        ensures { result.off ≡ none_off }
    {
        Rows {
            index: Vec::new(alloc),
            remaining: 0,
            stuck: Vec::new(alloc),
            told: Vec::new(alloc),
            again: false,
        }
    }

    /// Reserves room for this many ephemerons, and if it allocates, for an eighth more. Forgets those that are put off.
    pub(crate) fn reserve(&mut self, most: usize) -> Result<(), AllocError>
        ensures kept { self.old.room ≤ self.new.room }
        ensures room { OnOk result (most ≤ self.new.room) }
    {
        self.clear();
        make_room(&mut self.index, most)?;
        make_room(&mut self.stuck, most)?;
        make_room(&mut self.told, most)
    }

    /// Frees memory, except the room for this many ephemerons. Forgets those that are put off.
    pub(crate) fn shrink(&mut self, most: usize)
        ensures { min most self.old.room ≤ self.new.room }
    {
        self.clear();
        self.index.shrink_to(most);
        self.stuck.shrink_to(most);
        self.told.shrink_to(most);
    }

    /// Forgets those that are put off.
    pub(crate) fn clear(&mut self)
        ensures { self.new ≡ record self.old { off = none_off } }
    {
        self.index.clear();
        self.remaining = 0;
        self.stuck.clear();
        self.told.clear();
        self.again = false;
    }

    /// Puts an ephemeron off. There is room for it.
    pub(crate) fn put_off(&mut self, item: Item)
        requires room { length self.old.off.stuck < self.old.room }
        ensures off { self.new.off ≡ stuck_with self.old.off item }
        ensures room { self.old.room ≤ self.new.room }
    {
        let _ = self.stuck.push(item);
    }

    /// Puts off those of the ephemerons whose bits are set. There is room for all of them.
    pub(crate) fn put_off_those(&mut self, items: &[Item], bits: u64)
        requires few { length items.now ≤ 64 }
        requires room { length self.old.off.stuck + length items.now ≤ self.old.room }
        ensures off { self.new.off ≡ record self.old.off { stuck = self.old.off.stuck ++ chosen (take (length items.now) (bits_of bits)) items.now } }
        ensures room { self.old.room ≤ self.new.room }
    {
        if bits != 0 {
            append_chosen(&mut self.stuck, items, bits);
        }
    }

    /// Notes that a value may have been marked.
    pub(crate) fn value_marked(&mut self)
        ensures { self.new ≡ record self.old { off = record self.old.off { again = true } } }
    {
        self.again = true;
    }

    /// Whether there is another round: keys were told, or a value may have been marked.
    pub(crate) fn looks_again(&self) -> bool
        ensures { result ≡ looks_again self.now.off }
    {
        self.again || !self.told.is_empty()
    }

    /// Lists what the next round looks at in place of other items.
    pub(crate) fn look(&mut self, items: &mut Vec<Item>)
        requires room { count_off self.old.off ≤ self.old.room }
        ensures listed { items.new.items ≡ looked_at self.old.off }
        ensures off { self.new.off ≡ looking self.old.off }
        ensures room { min self.old.room (vec_capacity items.old) ≤ self.new.room }
        ensures list { self.old.room ≤ vec_capacity items.new }
    {
        if !self.told.is_empty() {
            mem::swap(items, &mut self.told);
            self.told.clear();
            return;
        }
        mem::swap(items, &mut self.stuck);
        put_untold(&self.index, items);
        self.clear();
    }

    /// Appends all that are put off to a list, which has room for them.
    pub(crate) fn put_all(&self, items: &mut Vec<Item>)
        requires room { vec_len items.old + count_off self.now.off ≤ vec_capacity items.old }
        ensures listed { items.new.items ≡ items.old.items ++ all_off self.now.off }
        ensures room { vec_capacity items.old ≤ vec_capacity items.new }
    {
        put_items(&self.told, items);
        put_untold(&self.index, items);
        put_items(&self.stuck, items);
    }

    /// If the index is used up, makes one of those that were put off since.
    fn make_index(&mut self)
        requires room { count_off self.old.off ≤ self.old.room }
        ensures indexed { IsIndexed self.old.off.index self.old.off self.new.off }
        ensures room { self.old.room ≤ self.new.room }
    {
        if self.remaining > 0 {
            return;
        }
        self.index.clear();
        put_rows(&self.stuck, &mut self.index);
        self.index.sort_unstable_by_key(|row| key_of(row));
        self.remaining = self.stuck.len();
        self.stuck.clear();
    }

    /// Processes that the host has told a key. Takes time logarithmic in the ephemerons of the index, but for the first key after it was used up, which sorts
    /// it.
    pub(crate) fn tell(&mut self, key: Addr)
        requires room { count_off self.old.off ≤ self.old.room }
        ensures told { TellsOff key self.old.off self.new.off }
        ensures room { self.old.room ≤ self.new.room }
    {
        self.make_index();
        let before = self.told.len();
        tell_rows(&mut self.index, key, &mut self.told);
        self.remaining -= self.told.len() - before;
    }
}
