//! The words and links of a copy, and how one more is listed.

ghost use Rattle.std.specs.Prelude.{◌≡◌, ◌<◌, ℕ, false, is_some};
ghost use Rattle.indexmap.specs.IndexMap.{spare};
ghost use Rattle.std.specs.Option.{option_map_or};
ghost use Rattle.fz_why.specs.Snapshot.{cell_of, links_to, word_of};

use fz_model::{Addr, Word};
use fz_table::AddressHasher;
use indexmap::IndexMap;

/// A word that was listed, with its object.
#[derive(Clone, Copy, Debug, PartialEq, Eq)]
pub struct Cell {
    pub(crate) object: Addr,
    /// What its object has there: of the word of an ephemeron `HIDDEN`.
    pub(crate) value: Word,
    pub(crate) link: Option<Addr>,
    /// Of the word of an ephemeron what it contains, and otherwise 0.
    pub(crate) hidden: Word,
}

/// What an object has in place of the word of an ephemeron. No word has this address.
pub(crate) const HIDDEN: Word = Word::MAX;

/// A word of an object, as it is listed.
#[derive(Clone, Copy, Debug, PartialEq, Eq)]
pub struct Listed {
    /// What the word contains.
    pub value: Word,
    /// The number of the link or of the ephemeron that denotes the word, if one does.
    pub link: Option<Addr>,
    /// Whether the word is that of an ephemeron. Then its object doesn't point by it.
    pub is_ephemeron: bool,
}

/// The word of an object, as it is kept.
pub(crate) fn cell_of(object: Addr, listed: Listed) -> Cell
    ensures { result ≡ cell_of object listed }
{
    if listed.is_ephemeron {
        return Cell {
            object,
            value: HIDDEN,
            link: listed.link,
            hidden: listed.value,
        };
    }
    Cell {
        object,
        value: listed.value,
        link: listed.link,
        hidden: 0,
    }
}

/// Adds a link if there is one.
pub(crate) fn add_link(
    links: &mut IndexMap<Addr, Addr, AddressHasher>,
    link: Option<Addr>,
    word: Addr,
)
    requires room { 0 < spare links.old }
    ensures added { (number : ℕ) → word_of links.new.entries number ≡ links_to link word (word_of links.old.entries) number }
{
    let Some(number) = link else {
        return;
    };
    match links.insert(number, word) {
        Ok(_) => {}
        Err(_) => unreachable!(),
    }
}

/// Whether a link was added.
pub(crate) fn has_link(links: &IndexMap<Addr, Addr, AddressHasher>, link: Option<Addr>) -> bool
    ensures { result ≡ option_map_or (λ number. is_some (word_of links.now.entries number)) link false }
{
    match link {
        Some(number) => links.contains_key(&number),
        None => false,
    }
}
