//! Copies of hosts' heaps, which C makes word by word.

ghost use Rattle.std.specs.Prelude.{◌≡◌, slice_get, None};
ghost use Rattle.fz_why.specs.Snapshot.{holder_of};
ghost use Rattle.fz_c.specs.MachineCodes.{Behind};
ghost use Rattle.fz_c.specs.MachineShows.{ShowsFound};
ghost use Rattle.fz_c.specs.Snapshots.{ListsObject, ListsRoot, ListsWord, Opens, code_for, link_for};

mod handle;
mod session;

use crate::handle::{behind, put, take};
use crate::machine::codes::{Code, EMPTY, IS_OPEN, NO_MEMORY, NOT_OPEN, OK, OVERLAP};
use fz_why::{Listed, NoMemory, Snapshot};
pub use handle::SnapshotHandle;
pub use session::SnapshotSession;
use std::alloc::Global;

/// The code of a reply to a word that was to be listed.
fn code_for(reply: Result<bool, NoMemory>) -> Code
    ensures { result ≡ code_for reply }
{
    match reply {
        Ok(true) => OK,
        Ok(false) => OVERLAP,
        Err(_) => NO_MEMORY,
    }
}

/// The link or ephemeron with this number. The number 0 is that of none.
fn link_for(number: u64) -> Option<u64>
    ensures { result ≡ link_for number }
{
    if number == 0 { None } else { Some(number) }
}

/// Creates a copy of an empty heap in an empty handle.
#[unsafe(no_mangle)]
pub extern "C" fn fz_snapshot_open(alloc: Global, snapshot: &mut SnapshotHandle) -> Code
    ensures { Opens snapshot.old.value snapshot.new.value result }
{
    if let Some(session) = take(snapshot, alloc) {
        put(snapshot, session);
        return IS_OPEN;
    }
    let session = SnapshotSession {
        snapshot: Snapshot::new(alloc),
        path: Vec::new(alloc),
    };
    let Ok(boxed) = Box::new(alloc, session) else {
        return NO_MEMORY;
    };
    put(snapshot, boxed);
    OK
}

/// Frees what the handle has.
#[unsafe(no_mangle)]
pub extern "C" fn fz_snapshot_destroy(alloc: Global, snapshot: &mut SnapshotHandle)
    ensures { snapshot.new.value ≡ None }
{
    drop(take(snapshot, alloc));
}

/// `Snapshot::object`.
#[unsafe(no_mangle)]
pub extern "C" fn fz_snapshot_object(
    alloc: Global,
    snapshot: &mut SnapshotHandle,
    object: u64,
    value: u64,
    link: u64,
    is_ephemeron: bool,
) -> Code
    ensures { Behind snapshot.old.value snapshot.new.value result (Unit {0}) (ListsObject object (record { value = value; link = link_for link; is_ephemeron = is_ephemeron }) result) }
{
    let first = Listed {
        value,
        link: link_for(link),
        is_ephemeron,
    };
    let reply = behind!(
        alloc,
        snapshot,
        NOT_OPEN,
        |it| it.snapshot.object(object, first)
    );
    code_for(reply)
}

/// `Snapshot::word`.
#[unsafe(no_mangle)]
pub extern "C" fn fz_snapshot_word(
    alloc: Global,
    snapshot: &mut SnapshotHandle,
    word: u64,
    value: u64,
    link: u64,
    is_ephemeron: bool,
) -> Code
    ensures { Behind snapshot.old.value snapshot.new.value result (Unit {0}) (ListsWord word (record { value = value; link = link_for link; is_ephemeron = is_ephemeron }) result) }
{
    let listed = Listed {
        value,
        link: link_for(link),
        is_ephemeron,
    };
    let reply = behind!(
        alloc,
        snapshot,
        NOT_OPEN,
        |it| it.snapshot.word(word, listed)
    );
    code_for(reply)
}

/// `Snapshot::add_root`.
#[unsafe(no_mangle)]
pub extern "C" fn fz_snapshot_root(alloc: Global, snapshot: &mut SnapshotHandle, word: u64) -> Code
    ensures { Behind snapshot.old.value snapshot.new.value result (Unit {0}) (ListsRoot word result) }
{
    let reply = behind!(alloc, snapshot, NOT_OPEN, |it| it.snapshot.add_root(word));
    match reply {
        Ok(()) => OK,
        Err(_) => NO_MEMORY,
    }
}

/// `Snapshot::holder`.
#[unsafe(no_mangle)]
pub extern "C" fn fz_snapshot_holder(
    alloc: Global,
    snapshot: &mut SnapshotHandle,
    word: u64,
    object: &mut u64,
) -> Code
    ensures { Behind snapshot.old.value snapshot.new.value result (object.new ≡ object.old) (λ s t. (t ≡ s) × ShowsFound (holder_of s.snapshot.cells word) (λ a. a) result object.old object.new) }
{
    let found = behind!(alloc, snapshot, NOT_OPEN, |it| it.snapshot.holder(word));
    let Some(holder) = found else {
        return EMPTY;
    };
    *object = holder;
    OK
}

/// An object of the last answer's path, by its index.
#[unsafe(no_mangle)]
pub extern "C" fn fz_snapshot_step(
    alloc: Global,
    snapshot: &mut SnapshotHandle,
    index: u64,
    object: &mut u64,
) -> Code
    ensures { Behind snapshot.old.value snapshot.new.value result (object.new ≡ object.old) (λ s t. (t ≡ s) × ShowsFound (slice_get s.path.items index) (λ a. a) result object.old object.new) }
{
    let found = behind!(
        alloc,
        snapshot,
        NOT_OPEN,
        |it| it.path.get(index as usize).copied()
    );
    let Some(step) = found else {
        return EMPTY;
    };
    *object = step;
    OK
}
