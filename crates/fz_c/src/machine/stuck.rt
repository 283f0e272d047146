//! Which objects wait for a ring.

ghost use Rattle.std.specs.Prelude.{◌≡◌, MatchOption, MatchResult, None};
ghost use Rattle.fz_c.specs.MachineWhy.{AreStuckBy, AsksBehind, AsksThrough, IsRefused, Lacks, ListsStuck};

use crate::handle::behind;
use crate::machine::codes::{Code, EMPTY, NOT_OPEN, OK, code_of};
use crate::machine::handle::MachineHandle;
use crate::machine::snapshot::{SnapshotHandle, SnapshotSession};
use fz_machine::{Machine, Refused};
use fz_why::{Snapshot, stuck_of};
use std::alloc::Global;

/// Which objects wait for a ring, unless a pass is open.
fn stuck_by(
    alloc: Global,
    machine: &Machine,
    snapshot: &Snapshot,
) -> Result<Option<Vec<u64>>, Refused>
    ensures { MatchResult result (λ told. (machine.now.phase ≡ None) × MatchOption told (Lacks machine.now snapshot.now) (λ objects. AreStuckBy machine.now snapshot.now objects.items)) (IsRefused machine.now) }
{
    if machine.is_open() {
        return Err(Refused::PassOpen);
    }
    match stuck_of(alloc, machine.finalizers(), snapshot) {
        Ok(objects) => Ok(objects),
        Err(_) => Err(Refused::Finalizers(fz_finalizers::Refused::NoMemory)),
    }
}

/// Which objects wait for a ring, by a copy of their host's heap.
fn list(
    alloc: Global,
    finalizers: &mut MachineHandle,
    session: &mut SnapshotSession,
    count: &mut u64,
) -> Code
    ensures { AsksThrough ListsStuck finalizers.old.value finalizers.new.value session.old session.new result count.old count.new }
{
    let reply = behind!(
        alloc,
        finalizers,
        NOT_OPEN,
        |it| stuck_by(alloc, &it.machine, &session.snapshot)
    );
    match reply {
        Ok(Some(objects)) => {
            *count = objects.len() as u64;
            session.path = objects;
            OK
        }
        Ok(None) => EMPTY,
        Err(refused) => code_of(refused),
    }
}

/// `stuck_of`. The objects are then those of the copy's path.
#[unsafe(no_mangle)]
pub extern "C" fn fz_machine_stuck(
    alloc: Global,
    finalizers: &mut MachineHandle,
    snapshot: &mut SnapshotHandle,
    count: &mut u64,
) -> Code
    ensures { AsksBehind ListsStuck finalizers.old.value finalizers.new.value snapshot.old.value snapshot.new.value result count.old count.new }
{
    let code = behind!(
        alloc,
        snapshot,
        NOT_OPEN,
        |it| list(alloc, finalizers, &mut it, count)
    );
    code
}
