//! The ephemerons of a host, with room for a pass to make marks whole.

ghost use Rattle.std.specs.Prelude.{◌≡◌, ◌≤◌, ◌+◌, ◌*◌, [], if◌then◌else◌, length, nat_eq, None, vec_capacity, IsFalse, IfErr, IfOk, OnErr, OnOk};
ghost use Rattle.std.specs.FinMap.{get, insert, remove, len, from_entries};
ghost use Rattle.std.specs.List.{IsDistinct};
ghost use Rattle.std.specs.Map.{keys_of};
ghost use Rattle.fz_model.specs.Pass.{cleared};
ghost use Rattle.fz_table.specs.declared.limits.TheConstants.{MOST_ENTRIES};
ghost use Rattle.fz_table.specs.Places.{lacks_place};
ghost use Rattle.fz_pass.specs.Holds.{IsOfKey, Settles, no_ephemerons};
ghost use Rattle.fz_pass.specs.Keyed.{ephemeron_at, has_ephemeron, move_answer, moved, of_kind, with_ephemeron, without_ephemeron};
ghost use Rattle.fz_pass.specs.Marks.{AreTargets, IsClosed, with_holders, with_targets};
ghost use Rattle.fz_pass.specs.Places.{placed};

use crate::clearing::clear_dead;
use crate::dropping::{drop_dead, drop_outside};
use crate::host::Values;
use crate::settling::{list_ephemerons, settle_waiting};
use fz_links::Links;
use fz_model::{Addr, LinkAnswer, LinkKind, MoveAnswer, Refusal};
use fz_table::{AddressHasher, Pairs};
use std::alloc::Global;
use std::marker::Model;

/// Ephemerons: words whose values are retained only as long as both their keys and the objects in which the words lie are retained.
pub struct Ephemerons {
    /// The short ones: from the word of each to its key.
    short: Links,
    /// The long ones.
    long: Links,
    /// Those whose values a pass may still have to mark. Empty between passes.
    waiting: Vec<(Addr, Addr)>,
    /// Those that a round has put off. Empty between rounds.
    rest: Vec<(Addr, Addr)>,
}

// Written by hand, so that the owner drops it by one proved call, not field by field at each exit of a function.
impl Drop for Ephemerons {
    fn drop(self) {
        let Ephemerons {
            short: _,
            long: _,
            waiting: _,
            rest: _,
        } = self;
    }
}

impl Model for Ephemerons {
    ghost use Rattle.std.specs.Prelude.{vec_capacity};
    ghost use Rattle.fz_pass.specs.Keyed.{HasLists, Keyed, keyed_code};

    ghost Value = { Keyed };

    ghost coded = { keyed_code };

    ghost view = { λ e. record { ephemerons = record { short = e.short.links; long = e.long.links } } };

    ghost invariant = { λ e. HasLists (record { short = e.short.links; long = e.long.links }) e.waiting.items e.rest.items (vec_capacity e.waiting) (vec_capacity e.rest) };
}

impl Ephemerons {
    /// No ephemerons.
    pub fn new(alloc: Global) -> Ephemerons
        ensures { result.ephemerons ≡ no_ephemerons }
    {
        Ephemerons::with_hasher(alloc, AddressHasher::new())
    }

    /// No ephemerons. Their words are hashed by this hasher.
    pub fn with_hasher(alloc: Global, hasher: AddressHasher) -> Ephemerons
        ensures { result.ephemerons ≡ no_ephemerons }
    {
        Ephemerons {
            short: Links::with_hasher(alloc, hasher),
            long: Links::with_hasher(alloc, hasher),
            waiting: Vec::new(alloc),
            rest: Vec::new(alloc),
        }
    }

    /// Makes a word an ephemeron of a key. If it is one already, this replaces it. The host has to ensure that the key is an object. Fails with `NoMemory` if a
    /// new ephemeron, or one that changes its kind, needs room that can't be allocated.
    pub fn register(&mut self, kind: LinkKind, word: Addr, key: Addr) -> Result<LinkAnswer, Refusal>
        requires place { IsFalse (lacks_place (of_kind self.old.ephemerons kind) word) }
        ensures refused { IfErr result (λ r. r ≡ Refusal.NoMemory) }
        ensures fresh { OnErr result (get (of_kind self.old.ephemerons kind) word ≡ None) }
        ensures unchanged { OnErr result (self.new.ephemerons ≡ self.old.ephemerons) }
        ensures answer { IfOk result (λ answer. answer ≡ (if has_ephemeron self.old.ephemerons word then LinkAnswer.Duplicate else LinkAnswer.Success)) }
        ensures registered { OnOk result (self.new.ephemerons ≡ with_ephemeron self.old.ephemerons kind word key) }
    {
        let known = self.contains(word);
        if !known {
            let most = self.short.len() + self.long.len() + 1;
            reserve_lists(&mut self.waiting, &mut self.rest, most)?;
        }
        match kind {
            LinkKind::Short => put(&mut self.short, &mut self.long, word, key)?,
            LinkKind::Long => put(&mut self.long, &mut self.short, word, key)?,
        }
        Ok(answer_of(known))
    }

    /// Removes the ephemeron of a word, and returns its kind and its key.
    pub fn remove(&mut self, word: Addr) -> Option<(LinkKind, Addr)>
        ensures answer { result ≡ ephemeron_at self.old.ephemerons word }
        ensures removed { self.new.ephemerons ≡ without_ephemeron self.old.ephemerons word }
    {
        let was = self.get(word);
        self.short.unregister(word);
        self.long.unregister(word);
        was
    }

    /// Moves an ephemeron to another word; its kind and its key stay the same. Takes no memory.
    ///
    /// The results are tested in this order: `NotFound`, `Success` if the words are the same, `Duplicate`, `Success` after the move.
    pub fn move_word(&mut self, word: Addr, to: Addr) -> MoveAnswer
        ensures answer { result ≡ move_answer self.old.ephemerons word to }
        ensures moved { self.new.ephemerons ≡ moved self.old.ephemerons word to }
    {
        if !self.contains(word) {
            return MoveAnswer::NotFound;
        }
        if word == to {
            return MoveAnswer::Success;
        }
        if self.contains(to) {
            return MoveAnswer::Duplicate;
        }
        self.short.move_within(word, to, &mut self.waiting);
        self.long.move_within(word, to, &mut self.waiting);
        MoveAnswer::Success
    }

    /// The kind and the key of a word's ephemeron.
    pub fn get(&self, word: Addr) -> Option<(LinkKind, Addr)>
        ensures { result ≡ ephemeron_at self.now.ephemerons word }
    {
        if let Some(key) = self.short.get(word) {
            return Some((LinkKind::Short, key));
        }
        if let Some(key) = self.long.get(word) {
            return Some((LinkKind::Long, key));
        }
        None
    }

    /// Whether the word is an ephemeron.
    pub fn contains(&self, word: Addr) -> bool
        ensures { result ≡ has_ephemeron self.now.ephemerons word }
    {
        self.short.get(word).is_some() || self.long.get(word).is_some()
    }

    /// The number of ephemerons.
    pub fn len(&self) -> usize
        ensures count { result ≡ len self.now.short + len self.now.long }
        ensures limit { result ≤ 2 * MOST_ENTRIES }
    {
        self.short.len() + self.long.len()
    }

    /// All ephemerons of one kind with their keys, each once. The order stays the same until the table changes.
    pub fn iter(&self, kind: LinkKind) -> Pairs<'_, Addr, Addr>
        ensures all { from_entries result ≡ of_kind self.now.ephemerons kind }
        ensures once { IsDistinct nat_eq (keys_of result) }
        ensures count { length result ≡ len (of_kind self.now.ephemerons kind) }
    {
        match kind {
            LinkKind::Short => self.short.iter(),
            LinkKind::Long => self.long.iter(),
        }
    }

    /// Frees memory that the ephemerons and a pass over them don't need. If a smaller table or list can't be allocated, the old one stays.
    pub fn shrink(&mut self)
        ensures same { self.new.ephemerons ≡ self.old.ephemerons }
    {
        self.short.shrink();
        self.long.shrink();
        let most = self.short.len() + self.long.len();
        self.waiting.shrink_to(most);
        self.rest.shrink_to(most);
    }

    /// Whether there are 2^32 ephemerons of a kind, and the word isn't one of them.
    pub fn lacks_place(&self, kind: LinkKind, word: Addr) -> bool
        ensures { result ≡ lacks_place (of_kind self.now.ephemerons kind) word }
    {
        match kind {
            LinkKind::Short => self.short.lacks_place(word),
            LinkKind::Long => self.long.lacks_place(word),
        }
    }

    /// Makes the marks whole: marks the value of each ephemeron whose key and holder are marked, with everything that the value reaches, until no more values
    /// follow. Then marked objects hold nothing that is unmarked, as a pass requires. A host that marks in slices may call it after each slice. Takes no
    /// memory.
    pub fn settle<H: Values>(&mut self, host: &mut H)
        requires closed { IsClosed (H.objects host.old) (H.marked host.old) }
        ensures settled { Settles H.place H.value (H.objects host.old) (IsOfKey self.old.ephemerons) H.is_exact (H.marked host.old) (H.marked host.new) }
        ensures table { self.new.ephemerons ≡ self.old.ephemerons }
        ensures objects { H.objects host.new ≡ H.objects host.old }
        ensures same { H.is_same host.old host.new }
    {
        list_ephemerons(&self.short, &mut self.waiting);
        list_ephemerons(&self.long, &mut self.waiting);
        settle_waiting(host, &mut self.waiting, &mut self.rest);
        self.waiting.clear();
    }

    /// Clears the words of the short ephemerons whose keys aren't marked, and removes these.
    pub(crate) fn clear_short<H: Values>(&mut self, host: &mut H)
        requires keys { AreTargets (H.objects host.old) self.old.short }
        ensures objects { H.objects host.new ≡ cleared (placed H.place self.old.short) (H.marked host.old) (H.objects host.old) }
        ensures marked { H.marked host.new ≡ H.marked host.old }
        ensures same { H.is_same host.old host.new }
        ensures table { self.new.ephemerons ≡ record self.old.ephemerons { short = with_targets self.old.short (H.marked host.old) } }
    {
        clear_dead(host, &self.short);
        drop_dead(host, &mut self.short);
    }

    /// Clears the words of the long ephemerons whose keys aren't marked, and removes these.
    pub(crate) fn clear_long<H: Values>(&mut self, host: &mut H)
        requires keys { AreTargets (H.objects host.old) self.old.long }
        ensures objects { H.objects host.new ≡ cleared (placed H.place self.old.long) (H.marked host.old) (H.objects host.old) }
        ensures marked { H.marked host.new ≡ H.marked host.old }
        ensures same { H.is_same host.old host.new }
        ensures table { self.new.ephemerons ≡ record self.old.ephemerons { long = with_targets self.old.long (H.marked host.old) } }
    {
        clear_dead(host, &self.long);
        drop_dead(host, &mut self.long);
    }

    /// Removes the ephemerons whose words don't lie in a marked object. Those that denote no word stay.
    pub(crate) fn drop_outside<H: Values>(&mut self, host: &H)
        ensures table { self.new.ephemerons ≡ record { short = with_holders H.place (H.objects host.now) self.old.short (H.marked host.now); long = with_holders H.place (H.objects host.now) self.old.long (H.marked host.now) } }
    {
        drop_outside(host, &mut self.short);
        drop_outside(host, &mut self.long);
    }
}

/// Reserves room for this many ephemerons in both lists, which are empty.
fn reserve_lists(
    waiting: &mut Vec<(Addr, Addr)>,
    rest: &mut Vec<(Addr, Addr)>,
    most: usize,
) -> Result<(), Refusal>
    requires waiting { waiting.old.items ≡ [] }
    requires rest { rest.old.items ≡ [] }
    ensures refused { IfErr result (λ r. r ≡ Refusal.NoMemory) }
    ensures waiting { waiting.new.items ≡ [] }
    ensures rest { rest.new.items ≡ [] }
    ensures kept { (vec_capacity waiting.old ≤ vec_capacity waiting.new) × (vec_capacity rest.old ≤ vec_capacity rest.new) }
    ensures room { OnOk result ((most ≤ vec_capacity waiting.new) × (most ≤ vec_capacity rest.new)) }
{
    waiting.reserve(most)?;
    rest.reserve(most)?;
    Ok(())
}

/// Registers an ephemeron of one kind, and removes that of the other.
fn put(links: &mut Links, others: &mut Links, word: Addr, key: Addr) -> Result<(), Refusal>
    requires place { IsFalse (lacks_place links.old.links word) }
    ensures refused { IfErr result (λ r. r ≡ Refusal.NoMemory) }
    ensures fresh { OnErr result (get links.old.links word ≡ None) }
    ensures unchanged { OnErr result ((links.new.links ≡ links.old.links) × (others.new.links ≡ others.old.links)) }
    ensures put { OnOk result ((links.new.links ≡ insert links.old.links word key) × (others.new.links ≡ remove others.old.links word)) }
{
    links.register_checked(word, key)?;
    others.unregister(word);
    Ok(())
}

/// The result of registering an ephemeron.
fn answer_of(known: bool) -> LinkAnswer
    ensures { result ≡ (if known then LinkAnswer.Duplicate else LinkAnswer.Success) }
{
    if known {
        LinkAnswer::Duplicate
    } else {
        LinkAnswer::Success
    }
}
