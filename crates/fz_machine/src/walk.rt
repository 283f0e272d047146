//! The list that a phase processes, and the lists beside it.

ghost use Rattle.std.specs.Prelude.{◌≡◌, ◌≤◌, ◌<◌, ◌+◌, ◌^◌, ◌++◌, ◌∷◌, [], if◌then◌else◌, min, drop, take, length, slice_get, vec_capacity, true, OnOk, OnErr};
ghost use Rattle.std.specs.Int.{bit_not, w64};
ghost use Rattle.std.specs.List.{prefix_len, take_while};
ghost use Rattle.fz_machine.specs.declared.item.Item.{Item};
ghost use Rattle.fz_machine.specs.Asks.{bits_of};
ghost use Rattle.fz_machine.specs.Going.{KeepsBeside};
ghost use Rattle.fz_machine.specs.Items.{AreGrouped, AreInTurn, group_of, place_of};
ghost use Rattle.fz_machine.specs.Off.{TellsOff, all_off, count_off, looked_at, looking, looks_again, none_off, stuck_with};
ghost use Rattle.fz_machine.specs.Phases.{settles};
ghost use Rattle.fz_machine.specs.Sifts.{chosen};

use crate::answers::choose;
use crate::item::Item;
use crate::phase::Phase;
use crate::rows::{Rows, make_room};
use fz_finalizers::Kind;
use fz_model::Addr;
use std::alloc::{AllocError, Global};
use std::marker::Model;
use std::mem;

/// The items that a phase processes: those kept for the next phase, and those that remain. Kept items overwrite processed ones. While the marks are made whole,
/// these are ephemerons, and the list that they interrupt is set aside.
#[derive(Drop)]
pub struct Walk {
    items: Vec<Item>,
    kept: usize,
    place: usize,
    /// What is set aside.
    aside: Vec<Item>,
    /// The ephemerons that are put off.
    rows: Rows,
}

impl Model for Walk {
    ghost use Rattle.std.specs.Prelude.{◌≤◌, drop, length, take, vec_capacity};
    ghost use Rattle.fz_machine.specs.Walks.{Walk, walk_code};

    ghost Value = { Walk };

    ghost coded = { walk_code };

    ghost view = { λ w. record {
      kept = take w.kept w.items.items;
      left = drop w.place w.items.items;
      aside = w.aside.items;
      off = w.rows.off;
      room = vec_capacity w.items;
      other = vec_capacity w.aside;
      off_room = w.rows.room;
    } };

    ghost invariant = { λ w. (w.kept ≤ w.place) × (w.place ≤ length w.items.items) };
}

/// An item's sort key: position in queue order, then address.
fn place_of(item: &Item) -> u128
    ensures { result ≡ place_of item.now }
{
    u128::from(item.turn) * 0x1_0000_0000_0000_0000 + u128::from(item.object)
}

/// A kind's sort key, which puts kinds of which the same is asked beside each other.
fn group_of(kind: Kind) -> u8
    ensures { result ≡ group_of kind }
{
    match kind {
        Kind::Unreachable => 0,
        Kind::Normal => 1,
        Kind::IgnoreSelf => 2,
        Kind::NoOrder => 3,
    }
}

impl Walk {
    /// Empty lists without reserved room.
    pub(crate) fn new(alloc: Global) -> Walk
        ensures kept { result.kept ≡ [] }
        ensures left { result.left ≡ [] }
    {
        Walk {
            items: Vec::new(alloc),
            kept: 0,
            place: 0,
            aside: Vec::new(alloc),
            rows: Rows::new(alloc),
        }
    }

    /// How many items it has room for.
    pub(crate) fn room(&self) -> usize
        ensures room { result ≡ self.now.room }
        ensures few { result < 2 ^ 63 }
    {
        self.items.capacity()
    }

    /// Reserves room for this many items, and if it allocates, for an eighth more. Clears the list.
    pub(crate) fn reserve(&mut self, most: usize) -> Result<(), AllocError>
        ensures kept { self.old.room ≤ self.new.room }
        ensures room { OnOk result (most ≤ self.new.room) }
        ensures full { OnErr result (self.old.room < most) }
        ensures others { (self.new.other ≡ self.old.other) × (self.new.off_room ≡ self.old.off_room) }
    {
        self.items.clear();
        self.kept = 0;
        self.place = 0;
        if most > self.items.capacity() {
            self.items.reserve_exact(most.saturating_add(most / 8))?;
        }
        Ok(())
    }

    /// Reserves room for this many ephemerons, in each of the lists. Clears the list.
    pub(crate) fn reserve_rows(&mut self, most: usize) -> Result<(), AllocError>
        ensures kept { (self.old.room ≤ self.new.room) × (self.old.other ≤ self.new.other) × (self.old.off_room ≤ self.new.off_room) }
        ensures room { OnOk result ((most ≤ self.new.room) × (most ≤ self.new.other) × (most ≤ self.new.off_room)) }
    {
        self.reserve(most)?;
        make_room(&mut self.aside, most)?;
        self.rows.reserve(most)
    }

    /// Frees memory, except the room for this many items, and for this many ephemerons beside them. Clears the list.
    pub(crate) fn shrink(&mut self, most: usize, rows: usize)
        ensures room { min most self.old.room ≤ self.new.room }
        ensures other { min rows self.old.other ≤ self.new.other }
        ensures off { min rows self.old.off_room ≤ self.new.off_room }
    {
        self.items.clear();
        self.kept = 0;
        self.place = 0;
        self.items.shrink_to(most);
        self.aside.clear();
        self.aside.shrink_to(rows);
        self.rows.shrink(rows);
    }

    /// Lists these items, all of which remain to be processed.
    pub(crate) fn put(&mut self, items: Vec<Item>)
        ensures { self.new ≡ record self.old { kept = []; left = items.items; room = vec_capacity items } }
    {
        self.items = items;
        self.kept = 0;
        self.place = 0;
    }

    /// The list's room, without items. The list has none left.
    pub(crate) fn take_room(&mut self) -> Vec<Item>
        ensures none { result.items ≡ [] }
        ensures room { vec_capacity result ≡ self.old.room }
        ensures others { self.new ≡ record self.old { kept = []; left = []; room = self.new.room } }
    {
        let alloc = *self.items.allocator();
        let mut items = mem::replace(&mut self.items, Vec::new(alloc));
        self.kept = 0;
        self.place = 0;
        items.clear();
        items
    }

    /// The first remaining item.
    #[inline(always)]
    pub(crate) fn first(&self) -> Option<Item>
        ensures { result ≡ slice_get self.now.left 0 }
    {
        self.items.get(self.place).copied()
    }

    /// The remaining items.
    pub(crate) fn left(&self) -> &[Item]
        ensures { result.now ≡ self.now.left }
    {
        &self.items[self.place..]
    }

    /// Moves past the first remaining item, and keeps it or not.
    #[inline(always)]
    #[tactic(auto, using(crate::proofs::Kept::passed, crate::proofs::Kept::passed_set))]
    pub(crate) fn pass_on(&mut self, item: Item, keep: bool)
        requires first { self.old.left ≡ item ∷ drop 1 self.old.left }
        ensures kept { self.new.kept ≡ (if keep then self.old.kept ++ item ∷ [] else self.old.kept) }
        ensures left { self.new.left ≡ drop 1 self.old.left }
        ensures others { self.new ≡ record self.old { kept = self.new.kept; left = self.new.left } }
    {
        if !keep {
            self.place += 1;
            return;
        }
        self.items[self.kept] = item;
        self.kept += 1;
        self.place += 1;
    }

    /// Moves past the first remaining items, as many as this, and keeps those whose bits are set.
    pub(crate) fn sift(&mut self, bits: u64, count: usize)
        requires { count ≤ 64 }
        ensures kept { self.new.kept ≡ self.old.kept ++ chosen (take count (bits_of bits)) self.old.left }
        ensures left { self.new.left ≡ drop count self.old.left }
        ensures others { self.new ≡ record self.old { kept = self.new.kept; left = self.new.left } }
    {
        let few = count.min(self.items.len() - self.place);
        if bits == !0 && self.kept == self.place {
            self.kept += few;
            self.place = self.kept;
            return;
        }
        let kept = choose(&mut self.items, self.kept, self.place, bits, few);
        self.kept = kept;
        self.place += few;
    }

    /// Moves past the first remaining items, as many as this, and keeps none of them.
    pub(crate) fn drop_first(&mut self, count: usize)
        ensures { self.new ≡ record self.old { left = drop count self.old.left } }
    {
        self.place += count.min(self.items.len() - self.place);
    }

    /// Moves past the first remaining items that are known, and keeps them.
    pub(crate) fn keep_known(&mut self)
        ensures kept { self.new.kept ≡ self.old.kept ++ take_while (λ (item : Item). item.known) self.old.left }
        ensures left { self.new.left ≡ drop (prefix_len (λ (item : Item). item.known) self.old.left) self.old.left }
        ensures others { self.new ≡ record self.old { kept = self.new.kept; left = self.new.left } }
    {
        while let Some(item) = self.first() {
            if !item.known {
                return;
            }
            self.pass_on(item, true);
        }
    }

    /// Puts off those of the first remaining ephemerons, as many as this, whose bits are set. There is room for all that remain.
    fn put_off_those(&mut self, bits: u64, count: usize)
        requires few { count ≤ 64 }
        requires room { length self.old.left + length self.old.off.stuck ≤ self.old.off_room }
        ensures off { self.new.off ≡ record self.old.off { stuck = self.old.off.stuck ++ chosen (take count (bits_of bits)) self.old.left } }
        ensures others { self.new ≡ record self.old { off = self.new.off; off_room = self.new.off_room } }
        ensures room { self.old.off_room ≤ self.new.off_room }
    {
        let few = count.min(self.items.len() - self.place);
        self.rows
            .put_off_those(&self.items[self.place..self.place + few], bits);
    }

    /// Moves past the first remaining ephemerons, as many as this: keeps those whose bits are set, and puts off the others. There is room for all that remain.
    pub(crate) fn part(&mut self, bits: u64, count: usize)
        requires few { count ≤ 64 }
        requires room { length self.old.left + length self.old.off.stuck ≤ self.old.off_room }
        ensures kept { self.new.kept ≡ self.old.kept ++ chosen (take count (bits_of bits)) self.old.left }
        ensures left { self.new.left ≡ drop count self.old.left }
        ensures off { self.new.off ≡ record self.old.off { stuck = self.old.off.stuck ++ chosen (take count (bits_of (bit_not w64 bits))) self.old.left } }
        ensures others { self.new ≡ record self.old { kept = self.new.kept; left = self.new.left; off = self.new.off; off_room = self.new.off_room } }
        ensures room { self.old.off_room ≤ self.new.off_room }
    {
        self.put_off_those(!bits, count);
        self.sift(bits, count);
    }

    /// Puts an ephemeron off. There is room for it.
    pub(crate) fn put_off(&mut self, item: Item)
        requires room { length self.old.off.stuck < self.old.off_room }
        ensures off { self.new ≡ record self.old { off = stuck_with self.old.off item; off_room = self.new.off_room } }
        ensures room { self.old.off_room ≤ self.new.off_room }
    {
        self.rows.put_off(item);
    }

    /// Notes that a value may have been marked.
    pub(crate) fn value_marked(&mut self)
        ensures { self.new ≡ record self.old { off = record self.old.off { again = true } } }
    {
        self.rows.value_marked();
    }

    /// Whether the ephemerons that are put off are looked at again.
    pub(crate) fn looks_again(&self) -> bool
        ensures { result ≡ looks_again self.now.off }
    {
        self.rows.looks_again()
    }

    /// Processes that the host has told a key.
    pub(crate) fn tell(&mut self, key: Addr)
        requires room { count_off self.old.off ≤ self.old.off_room }
        ensures told { TellsOff key self.old.off self.new.off }
        ensures others { self.new ≡ record self.old { off = self.new.off; off_room = self.new.off_room } }
        ensures room { self.old.off_room ≤ self.new.off_room }
    {
        self.rows.tell(key);
    }

    /// Sets the kept items aside, and lists none.
    pub(crate) fn set_aside(&mut self)
        ensures { self.new ≡ record { kept = []; left = []; aside = self.old.kept; off = self.old.off; room = self.old.other; other = self.old.room; off_room = self.old.off_room } }
    {
        self.items.truncate(self.kept);
        mem::swap(&mut self.items, &mut self.aside);
        self.items.clear();
        self.kept = 0;
        self.place = 0;
    }

    /// Starts again with the items that were set aside.
    pub(crate) fn resume(&mut self)
        ensures { self.new ≡ record { kept = []; left = self.old.aside; aside = []; off = self.old.off; room = self.old.other; other = self.old.room; off_room = self.old.off_room } }
    {
        mem::swap(&mut self.items, &mut self.aside);
        self.aside.clear();
        self.kept = 0;
        self.place = 0;
    }

    /// Ends a pass early in this phase.
    pub(crate) fn stop(&mut self, phase: Phase)
        ensures main { self.new.room ≡ (if settles phase then self.old.other else self.old.room) }
        ensures rows { self.new.other ≡ (if settles phase then self.old.room else self.old.other) }
        ensures off { self.new.off_room ≡ self.old.off_room }
    {
        if phase.settles() {
            self.resume();
        }
    }

    /// Starts again with those of the ephemerons that were put off that the next round looks at.
    pub(crate) fn look_again(&mut self)
        requires room { count_off self.old.off ≤ self.old.off_room }
        ensures off { self.new ≡ record self.old { kept = []; left = looked_at self.old.off; off = looking self.old.off; room = self.new.room; off_room = self.new.off_room } }
        ensures room { self.old.off_room ≤ self.new.room }
        ensures off_room { min self.old.off_room self.old.room ≤ self.new.off_room }
    {
        self.kept = 0;
        self.place = 0;
        self.rows.look(&mut self.items);
    }

    /// Lists all ephemerons that are put off in place of other items. The list has room for them.
    pub(crate) fn list_off(&mut self)
        requires room { count_off self.old.off ≤ self.old.room }
        ensures listed { self.new ≡ record self.old { kept = []; left = all_off self.old.off; room = self.new.room } }
        ensures room { self.old.room ≤ self.new.room }
    {
        self.items.clear();
        self.kept = 0;
        self.place = 0;
        self.rows.put_all(&mut self.items);
    }

    /// Forgets the ephemerons that are put off.
    pub(crate) fn forget(&mut self)
        ensures { self.new ≡ record self.old { off = none_off } }
    {
        self.rows.clear();
    }

    /// Removes all items.
    pub(crate) fn clear(&mut self)
        ensures { self.new ≡ record self.old { kept = []; left = [] } }
    {
        self.items.clear();
        self.kept = 0;
        self.place = 0;
    }

    /// Keeps another item. The list has room for it, and has none left.
    pub(crate) fn keep(&mut self, item: Item)
        requires none { self.old.left ≡ [] }
        requires room { length self.old.kept < self.old.room }
        ensures kept { self.new.kept ≡ self.old.kept ++ item ∷ [] }
        ensures left { self.new.left ≡ [] }
        ensures room { self.old.room ≤ self.new.room }
        ensures beside { KeepsBeside self.old self.new }
    {
        self.items.truncate(self.kept);
        let _ = self.items.push(item);
        self.kept += 1;
        self.place = self.kept;
    }

    /// Starts again with the kept items.
    pub(crate) fn again(&mut self)
        ensures kept { self.new.kept ≡ [] }
        ensures left { self.new.left ≡ self.old.kept }
        ensures others { self.new ≡ record self.old { kept = []; left = self.new.left } }
    {
        self.items.truncate(self.kept);
        self.kept = 0;
        self.place = 0;
    }

    /// Starts again with the kept items, sorted by the groups of their kinds.
    pub(crate) fn again_grouped(&mut self)
        ensures kept { self.new.kept ≡ [] }
        ensures left { AreGrouped self.old.kept self.new.left }
        ensures others { self.new ≡ record self.old { kept = []; left = self.new.left } }
    {
        self.items.truncate(self.kept);
        self.kept = 0;
        self.place = 0;
        self.items.sort_unstable_by_key(|item| group_of(item.kind));
    }

    /// Starts again with the kept items, sorted by position in queue order, then address.
    pub(crate) fn again_in_turn(&mut self)
        ensures kept { self.new.kept ≡ [] }
        ensures left { AreInTurn self.old.kept self.new.left }
        ensures others { self.new ≡ record self.old { kept = []; left = self.new.left } }
    {
        self.items.truncate(self.kept);
        self.kept = 0;
        self.place = 0;
        self.items.sort_unstable_by_key(|item| place_of(item));
    }
}
