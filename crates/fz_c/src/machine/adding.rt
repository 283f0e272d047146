//! Cleanups.

ghost use Rattle.std.specs.Prelude.{◌≡◌, option_map};
ghost use Rattle.fz_c.specs.MachineChanges.{AddsCleanup, Cancels};
ghost use Rattle.fz_c.specs.MachineCodes.{Behind};
ghost use Rattle.fz_c.specs.MachineTold.{cleanup_of, old_of_cleanup};
ghost use Rattle.fz_c.specs.Values.{TellsOld};

use crate::handle::behind;
use crate::kinds::kind_for;
use crate::machine::codes::{Code, NOT_OPEN, OK, code_of};
use crate::machine::handle::MachineHandle;
use crate::old::Old;
use fz_finalizers::{Attached, Cleanup};
use std::alloc::Global;

/// `Machine::add_cleanup`.
#[unsafe(no_mangle)]
pub extern "C" fn fz_machine_add_cleanup(
    alloc: Global,
    finalizers: &mut MachineHandle,
    object: u64,
    is_long: bool,
    proc: u64,
    cd: u64,
    rank: u8,
    number: &mut u64,
) -> Code
    ensures { Behind finalizers.old.value finalizers.new.value result (number.new ≡ number.old) (AddsCleanup object (cleanup_of is_long proc cd rank) result number.old number.new) }
{
    let cleanup = Cleanup {
        when: kind_for(is_long),
        procedure: proc,
        client_data: cd,
        rank,
    };
    let reply = behind!(
        alloc,
        finalizers,
        NOT_OPEN,
        |it| it.machine.add_cleanup(object, cleanup)
    );
    match reply {
        Ok(added) => {
            *number = added;
            OK
        }
        Err(refused) => code_of(refused),
    }
}

/// What C gets of a cleanup that was cancelled.
fn cancelled(found: Option<Attached>) -> Old
    ensures { TellsOld result (option_map old_of_cleanup found) }
{
    match found {
        Some(attached) => Old {
            proc: attached.cleanup.procedure,
            cd: attached.cleanup.client_data,
            was: true,
        },
        None => Old::of(None),
    }
}

/// `Machine::cancel`.
#[unsafe(no_mangle)]
pub extern "C" fn fz_machine_cancel(
    alloc: Global,
    finalizers: &mut MachineHandle,
    number: u64,
    old: &mut Old,
) -> Code
    ensures { Behind finalizers.old.value finalizers.new.value result (old.new ≡ old.old) (Cancels number result old.old old.new) }
{
    let reply = behind!(alloc, finalizers, NOT_OPEN, |it| it.machine.cancel(number));
    match reply {
        Ok(found) => {
            *old = cancelled(found);
            OK
        }
        Err(refused) => code_of(refused),
    }
}
