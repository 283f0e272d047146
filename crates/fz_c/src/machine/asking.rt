//! Why an object isn't finalized.

ghost use Rattle.std.specs.Prelude.{◌≡◌};
ghost use Rattle.fz_c.specs.MachineWhy.{Asks, AsksBehind, AsksThrough, IsReasoned, Tells, root_index, root_number};

use crate::handle::behind;
use crate::machine::codes::{Code, EMPTY, NOT_OPEN, OK, code_of};
use crate::machine::entries::HostEntry;
use crate::machine::handle::MachineHandle;
use crate::machine::snapshot::{SnapshotHandle, SnapshotSession};
use fz_machine::{Machine, Refused};
use fz_why::{Reason, RootOf, Snapshot, why_of};
use std::alloc::Global;

/// Why an object isn't finalized, without the path.
#[repr(C)]
#[derive(Clone, Copy)]
pub struct Told {
    pub entry: HostEntry,
    pub number: u64,
    pub length: u64,
    pub reason: u8,
    pub root: u8,
}

/// The entry in a result that has none: all fields are 0.
const NO_ENTRY: HostEntry = HostEntry {
    seq: 0,
    pass: 0,
    reg: 0,
    obj: 0,
    proc: 0,
    cd: 0,
};

/// The number of a kind of roots.
fn root_number(root: RootOf) -> u8
    ensures { result ≡ root_number root }
{
    match root {
        RootOf::Host(_) => 0,
        RootOf::RegisteredData(_) => 1,
        RootOf::CleanupData(_) => 2,
        RootOf::HeldObject(_) => 3,
        RootOf::HeldData(_) => 4,
    }
}

/// Which of its kind a root is.
fn root_index(root: RootOf) -> u64
    ensures { result ≡ root_index root }
{
    match root {
        RootOf::Host(index) => index as u64,
        RootOf::RegisteredData(number) | RootOf::CleanupData(number) => number,
        RootOf::HeldObject(seq) | RootOf::HeldData(seq) => seq,
    }
}

/// What C gets of a reason that has no path.
fn plain(reason: u8, entry: HostEntry) -> Told
    ensures { result ≡ record { entry = entry; number = 0; length = 0; reason = reason; root = 0 } }
{
    Told {
        entry,
        number: 0,
        length: 0,
        reason,
        root: 0,
    }
}

/// What C gets of a reason, and its path.
fn told_of(alloc: Global, reason: Reason) -> (Told, Vec<u64>)
    ensures { Tells reason result.0 result.1.items }
{
    match reason {
        Reason::Unregistered => (plain(0, NO_ENTRY), Vec::new(alloc)),
        Reason::Queued(entry) => (plain(1, HostEntry::of(entry)), Vec::new(alloc)),
        Reason::Found(root, path) => {
            let told = Told {
                entry: NO_ENTRY,
                number: root_index(root),
                length: path.len() as u64,
                reason: 2,
                root: root_number(root),
            };
            (told, path)
        }
        Reason::Waits(path) => {
            let told = Told {
                length: path.len() as u64,
                ..plain(3, NO_ENTRY)
            };
            (told, path)
        }
        Reason::Ring(path) => {
            let told = Told {
                length: path.len() as u64,
                ..plain(4, NO_ENTRY)
            };
            (told, path)
        }
        Reason::Ready => (plain(5, NO_ENTRY), Vec::new(alloc)),
    }
}

/// Why an object isn't finalized, unless a pass is open.
fn reason_of(
    alloc: Global,
    machine: &Machine,
    snapshot: &Snapshot,
    object: u64,
) -> Result<Option<Reason>, Refused>
    ensures { IsReasoned object machine.now snapshot.now result }
{
    if machine.is_open() {
        return Err(Refused::PassOpen);
    }
    match why_of(alloc, machine.finalizers(), snapshot, object) {
        Ok(reason) => Ok(reason),
        Err(_) => Err(Refused::Finalizers(fz_finalizers::Refused::NoMemory)),
    }
}

/// Why an object isn't finalized, by a copy of its host's heap.
fn ask(
    alloc: Global,
    finalizers: &mut MachineHandle,
    session: &mut SnapshotSession,
    object: u64,
    told: &mut Told,
) -> Code
    ensures { AsksThrough (Asks object) finalizers.old.value finalizers.new.value session.old session.new result told.old told.new }
{
    let reply = behind!(
        alloc,
        finalizers,
        NOT_OPEN,
        |it| reason_of(alloc, &it.machine, &session.snapshot, object)
    );
    match reply {
        Ok(Some(reason)) => {
            let (found, path) = told_of(alloc, reason);
            *told = found;
            session.path = path;
            OK
        }
        Ok(None) => EMPTY,
        Err(refused) => code_of(refused),
    }
}

/// `why_of`. Its path is then that of the copy.
#[unsafe(no_mangle)]
pub extern "C" fn fz_machine_why(
    alloc: Global,
    finalizers: &mut MachineHandle,
    snapshot: &mut SnapshotHandle,
    object: u64,
    told: &mut Told,
) -> Code
    ensures { AsksBehind (Asks object) finalizers.old.value finalizers.new.value snapshot.old.value snapshot.new.value result told.old told.new }
{
    let code = behind!(
        alloc,
        snapshot,
        NOT_OPEN,
        |it| ask(alloc, finalizers, &mut it, object, told)
    );
    code
}
