//! Memory for a search and for its paths, and for a copy of a heap.

ghost use Rattle.std.specs.Prelude.{◌≡◌, ◌<◌, ◌++◌, ◌∷◌, [], false, nat_eq, None, OnErr, OnOk};
ghost use Rattle.std.specs.Map.{lookup};
ghost use Rattle.indexmap.specs.IndexMap.{spare};
ghost use Rattle.fz_why.specs.Snapshot.{IsPut};
ghost use Rattle.fz_why.specs.Trail.{has};

use crate::origin::Origin;
use crate::snapshot::Cell;
use fz_model::Addr;
use fz_table::AddressHasher;
use indexmap::IndexMap;
use thiserror::Error;

/// An allocation failed. Only the four functions that allocate, which are private, make one.
#[derive(Debug, Drop, Error)]
#[error("out of memory")]
pub struct NoMemory(());

/// Appends an object to a path.
pub(crate) fn push(path: &mut Vec<Addr>, object: Addr) -> Result<(), NoMemory>
    ensures pushed { OnOk result (path.new.items ≡ path.old.items ++ object ∷ []) }
    ensures kept { OnErr result (path.new.items ≡ path.old.items) }
{
    match path.push(object) {
        Ok(()) => Ok(()),
        Err(_) => Err(NoMemory(())),
    }
}

/// Adds an object that isn't there at the end, with the way in which a search came to it.
pub(crate) fn insert(
    entries: &mut IndexMap<Addr, Origin, AddressHasher>,
    object: Addr,
    origin: Origin,
) -> Result<(), NoMemory>
    requires new { has entries.old.entries object ≡ false }
    ensures added { OnOk result (entries.new.entries ≡ entries.old.entries ++ (object, origin) ∷ []) }
{
    match entries.insert(object, origin) {
        Ok(_) => Ok(()),
        Err(_) => Err(NoMemory(())),
    }
}

/// Makes room for one more link.
pub(crate) fn make_room(links: &mut IndexMap<Addr, Addr, AddressHasher>) -> Result<(), NoMemory>
    ensures same { links.new.entries ≡ links.old.entries }
    ensures room { OnOk result (0 < spare links.new) }
{
    match links.reserve(1) {
        Ok(()) => Ok(()),
        Err(_) => Err(NoMemory(())),
    }
}

/// Adds a word at an address that has none.
pub(crate) fn put(
    cells: &mut IndexMap<Addr, Cell, AddressHasher>,
    word: Addr,
    cell: Cell,
) -> Result<(), NoMemory>
    requires new { lookup (nat_eq word) cells.old.entries ≡ None }
    ensures kept { OnErr result (cells.new.entries ≡ cells.old.entries) }
    ensures put { OnOk result (IsPut cells.old.entries cells.new.entries word cell) }
{
    match cells.insert(word, cell) {
        Ok(_) => Ok(()),
        Err(_) => Err(NoMemory(())),
    }
}
