//! A copy of a host's heap: its objects, their words and its roots, as they were listed.

ghost use Rattle.std.specs.Prelude.{◌≡◌, ◌↔◌, ◌-◌, ◌++◌, ◌&&◌, ◌∷◌, [], not, is_some, None, IfOk, IsTrue, MatchOption, OnErr, OnOk};
ghost use Rattle.std.specs.FinMap.{contains_key};
ghost use Rattle.fz_model.specs.Memory.{points};
ghost use Rattle.fz_pass.specs.Marks.{AreRegistered, AreTargets};
ghost use Rattle.fz_why.specs.Paths.{all_pointers};
ghost use Rattle.fz_why.specs.Listing.{links_found, values_stay, words_point};
ghost use Rattle.fz_why.specs.Snapshot.{cell_of, DoesOrNot, HasAll, holder_of, IsNext, is_taken, Keeps, link_of, Lists, ListsNext, objects_of, place_of, value_of};
ghost use Rattle.fz_why.specs.Copies.{IsToldIn};

mod listing;

use crate::asking::why;
use crate::paths::{Paths, Pointer};
use crate::reason::Reason;
use crate::room::{NoMemory, make_room, push, put};
use fz_finalizers::{Finalizers, LinkKind};
use fz_model::{Addr, Word};
use fz_table::AddressHasher;
use indexmap::IndexMap;
use listing::{HIDDEN, add_link, cell_of, has_link};
pub use listing::{Cell, Listed};
use std::alloc::Global;
use std::marker::Model;

/// A copy of a host's heap, which [`why_of`] searches, for a host that can't be called meanwhile. An object with n words has the n addresses from its own on,
/// and at least one. No two objects share an address.
#[derive(Drop)]
pub struct Snapshot {
    pub(crate) cells: IndexMap<Addr, Cell, AddressHasher>,
    pub(crate) links: IndexMap<Addr, Addr, AddressHasher>,
    pub(crate) roots: Vec<Word>,
}

impl Model for Snapshot {
    ghost use Rattle.fz_why.specs.Snapshot.{AreCells, Copy, objects_of};

    ghost Value = { Copy };

    ghost view = { λ s. record { cells = s.cells.entries; links = s.links.entries; roots = s.roots.items } };

    ghost invariant = { λ s. AreCells (objects_of s.cells.entries) s.cells.entries };
}

impl Snapshot {
    /// A copy of an empty heap.
    pub fn new(alloc: Global) -> Snapshot
        ensures cells { result.cells ≡ [] }
        ensures links { result.links ≡ [] }
        ensures roots { result.roots ≡ [] }
    {
        Snapshot {
            cells: IndexMap::with_hasher(alloc, AddressHasher::new()),
            links: IndexMap::with_hasher(alloc, AddressHasher::new()),
            roots: Vec::new(alloc),
        }
    }

    /// Whether a word can't be listed.
    fn is_taken(&self, word: Addr, link: Option<Addr>) -> bool
        ensures { result ≡ is_taken self.now.cells self.now.links word link }
    {
        word == 0
            || word == Addr::MAX
            || self.cells.contains_key(&word)
            || has_link(&self.links, link)
    }

    /// Lists a word that comes right after those of its object.
    fn add(&mut self, word: Addr, cell: Cell) -> Result<(), NoMemory>
        requires { IsNext self.old.cells self.old.links word cell }
        ensures listed { OnOk result (Lists self.old.cells self.new.cells self.old.links self.new.links word cell) }
        ensures kept { OnErr result (Keeps self.old.cells self.new.cells self.old.links self.new.links) }
        ensures roots { self.new.roots ≡ self.old.roots }
    {
        make_room(&mut self.links)?;
        put(&mut self.cells, word, cell)?;
        add_link(&mut self.links, cell.link, word);
        Ok(())
    }

    /// Lists an object with its first word. An object without words is listed with the word 0. Returns false, and lists nothing, if another word has the
    /// address or the link, or if the address is 0 or 2^64 - 1.
    pub fn object(&mut self, object: Addr, first: Listed) -> Result<bool, NoMemory>
        ensures answer { IfOk result (λ done. done ≡ not (is_taken self.old.cells self.old.links object first.link)) }
        ensures listed { DoesOrNot result (Lists self.old.cells self.new.cells self.old.links self.new.links object (cell_of object first)) (Keeps self.old.cells self.new.cells self.old.links self.new.links) }
        ensures roots { self.new.roots ≡ self.old.roots }
    {
        let _ = &self.cells;
        if self.is_taken(object, first.link) {
            return Ok(false);
        }
        self.add(object, cell_of(object, first))?;
        Ok(true)
    }

    /// Lists one more word of an object, at the address right after that of the word before. Returns false, and lists nothing, if no word is right before it,
    /// if another word has the address or the link, or if the address is 0 or 2^64 - 1.
    pub fn word(&mut self, word: Addr, listed: Listed) -> Result<bool, NoMemory>
        ensures answer { IfOk result (λ done. done ≡ (is_some (holder_of self.old.cells (word - 1)) && not (is_taken self.old.cells self.old.links word listed.link))) }
        ensures listed { DoesOrNot result (ListsNext self.old.cells self.new.cells self.old.links self.new.links word listed) (Keeps self.old.cells self.new.cells self.old.links self.new.links) }
        ensures roots { self.new.roots ≡ self.old.roots }
    {
        let _ = &self.cells;
        if self.is_taken(word, listed.link) {
            return Ok(false);
        }
        let Some(object) = self.holder(word - 1) else {
            return Ok(false);
        };
        self.add(word, cell_of(object, listed))?;
        Ok(true)
    }

    /// Lists a root: a word from which the host marks.
    pub fn add_root(&mut self, word: Word) -> Result<(), NoMemory>
        ensures listed { OnOk result (self.new.roots ≡ self.old.roots ++ word ∷ []) }
        ensures kept { OnErr result (self.new.roots ≡ self.old.roots) }
        ensures words { (self.new.cells ≡ self.old.cells) × (self.new.links ≡ self.old.links) }
    {
        push(&mut self.roots, word)
    }

    /// The object to which the word at an address belongs.
    pub fn holder(&self, word: Addr) -> Option<Addr>
        ensures object { result ≡ holder_of self.now.cells word }
        ensures points { result ≡ points (objects_of self.now.cells) word }
    {
        match self.cells.get(&word) {
            Some(cell) => Some(cell.object),
            None => None,
        }
    }

    /// Whether an object was listed.
    pub fn contains(&self, object: Addr) -> bool
        ensures { result ≡ contains_key (objects_of self.now.cells) object }
    {
        match self.cells.get(&object) {
            Some(cell) => cell.object == object,
            None => false,
        }
    }

    /// Whether all registered objects were listed.
    pub(crate) fn has_registered(&self, finalizers: &Finalizers) -> bool
        ensures { IsTrue result ↔ AreRegistered (objects_of self.now.cells) finalizers.now.state.registrations }
    {
        for each in finalizers.iter() {
            if !self.contains(each.0) {
                return false;
            }
        }
        true
    }

    /// Whether the targets of all short links were listed.
    pub(crate) fn has_targets(&self, finalizers: &Finalizers) -> bool
        ensures { IsTrue result ↔ AreTargets (objects_of self.now.cells) finalizers.now.state.short }
    {
        for each in finalizers.iter_links(LinkKind::Short) {
            if !self.contains(each.1) {
                return false;
            }
        }
        true
    }

    /// Whether the keys of all short ephemerons were listed.
    pub(crate) fn has_keys(&self, finalizers: &Finalizers) -> bool
        ensures { IsTrue result ↔ AreTargets (objects_of self.now.cells) finalizers.now.state.ephemerons.short }
    {
        for each in finalizers.iter_ephemerons(LinkKind::Short) {
            if !self.contains(each.1) {
                return false;
            }
        }
        true
    }

    /// Whether all registered objects were listed, the targets of all short links, and the keys of all short ephemerons.
    pub(crate) fn is_sound(&self, finalizers: &Finalizers) -> bool
        ensures { IsTrue result ↔ HasAll (objects_of self.now.cells) finalizers.now.state }
    {
        self.has_registered(finalizers) && self.has_targets(finalizers) && self.has_keys(finalizers)
    }
}

impl Paths for Snapshot {
    ghost objects = { λ s. objects_of s.cells };

    ghost pointers = { λ s a. all_pointers (objects_of s.cells) a };

    ghost roots = { λ s. s.roots };

    ghost place = { λ s. place_of s.cells s.links };

    ghost value = { λ s. value_of s.cells s.links };

    ghost link = { λ s. link_of s.cells s.links };

    fn pointer(&self, object: Addr, index: usize) -> Option<Pointer> {
        let _ = &self.cells;
        let Some(word) = object.checked_add(index as u64) else {
            return None;
        };
        let Some(cell) = self.cells.get(&word) else {
            return None;
        };
        if cell.object == object {
            Some(Pointer {
                word,
                value: cell.value,
            })
        } else {
            None
        }
    }

    fn root(&self, index: usize) -> Option<Word> {
        self.roots.get(index).copied()
    }

    fn link_at(&self, word: Addr) -> Option<Addr> {
        let number = self.cells.get(&word)?.link?;
        let denoted = *self.links.get(&number)?;
        if denoted == word { Some(number) } else { None }
    }

    fn word_of(&self, number: Addr) -> Option<Addr> {
        let word = *self.links.get(&number)?;
        let cell = self.cells.get(&word)?;
        if cell.link == Some(number) {
            Some(word)
        } else {
            None
        }
    }

    fn value(&self, number: Addr) -> Option<Addr> {
        let word = self.word_of(number)?;
        let cell = self.cells.get(&word)?;
        if cell.value == HIDDEN {
            self.holder(cell.hidden)
        } else {
            None
        }
    }

    fn target(&self, word: Word) -> Option<Addr> {
        self.holder(word)
    }

    ghost are_pointers = { λ s a. words_point s.cells a };

    ghost are_links = { λ s. links_found s.cells s.links };

    ghost are_values = { λ s. values_stay s.cells s.links };
}

/// Why an object isn't finalized, by a copy of its host's heap, with a path as evidence. The copy has to have the host's objects as they are: those that roots
/// and registered objects reach, with all their words.
///
/// An ephemeron whose word wasn't listed has no value. `None` if a registered object, the target of a short link or the key of a short ephemeron wasn't listed.
/// Takes time as [`why`] does, and for the registrations, short links and short ephemerons. Fails with `NoMemory` if an allocation fails. Nothing changes in
/// any case.
pub fn why_of(
    alloc: Global,
    finalizers: &Finalizers,
    snapshot: &Snapshot,
    object: Addr,
) -> Result<Option<Reason>, NoMemory>
    ensures told { IfOk result (λ told. MatchOption told (HasAll (objects_of snapshot.now.cells) finalizers.now.state → ⊥) (λ reason. IsToldIn snapshot.now finalizers.now.state reason object)) }
{
    let _ = &snapshot.cells;
    if !snapshot.is_sound(finalizers) {
        return Ok(None);
    }
    let reason = why(alloc, finalizers, snapshot, object)?;
    Ok(Some(reason))
}
