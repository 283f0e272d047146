//! Opening and freeing handles.

ghost use Rattle.std.specs.Prelude.{◌≡◌, None};
ghost use Rattle.fz_c.specs.MachineChanges.{Reserves, Shrinks};
ghost use Rattle.fz_c.specs.MachineCodes.{Behind};
ghost use Rattle.fz_c.specs.MachineOpens.{Opens};

use crate::handle::{behind, put, take};
use crate::machine::codes::{Code, IS_OPEN, NO_MEMORY, NOT_OPEN, OK, code_of};
use crate::machine::handle::MachineHandle;
use crate::machine::session::MachineSession;
use fz_machine::{By, Machine};
use std::alloc::Global;

/// Creates finalizers in an empty handle. With `marks` their passes ask about regions of objects, and with `live` about regions of words.
#[unsafe(no_mangle)]
pub extern "C" fn fz_machine_open(
    alloc: Global,
    finalizers: &mut MachineHandle,
    marks: bool,
    live: bool,
) -> Code
    ensures { Opens (record { marks = marks; live = live }) finalizers.old.value finalizers.new.value result }
{
    if let Some(session) = take(finalizers, alloc) {
        put(finalizers, session);
        return IS_OPEN;
    }
    let Ok(machine) = Machine::with_regions(alloc, By { marks, live }) else {
        return NO_MEMORY;
    };
    let Ok(session) = Box::new(alloc, MachineSession { machine }) else {
        return NO_MEMORY;
    };
    put(finalizers, session);
    OK
}

/// Frees what the handle has.
#[unsafe(no_mangle)]
pub extern "C" fn fz_machine_destroy(alloc: Global, finalizers: &mut MachineHandle)
    ensures { finalizers.new.value ≡ None }
{
    drop(take(finalizers, alloc));
}

/// `Machine::shrink`.
#[unsafe(no_mangle)]
pub extern "C" fn fz_machine_shrink(alloc: Global, finalizers: &mut MachineHandle) -> Code
    ensures { Behind finalizers.old.value finalizers.new.value result (Unit {0}) (Shrinks result) }
{
    let reply = behind!(alloc, finalizers, NOT_OPEN, |it| it.machine.shrink());
    match reply {
        Ok(()) => OK,
        Err(refused) => code_of(refused),
    }
}

/// `Machine::reserve`.
#[unsafe(no_mangle)]
pub extern "C" fn fz_machine_reserve(
    alloc: Global,
    finalizers: &mut MachineHandle,
    registrations: u64,
    shorts: u64,
    longs: u64,
) -> Code
    ensures { Behind finalizers.old.value finalizers.new.value result (Unit {0}) (Reserves registrations shorts longs result) }
{
    let reply = behind!(
        alloc,
        finalizers,
        NOT_OPEN,
        |it| it
            .machine
            .reserve(registrations as usize, shorts as usize, longs as usize)
    );
    match reply {
        Ok(()) => OK,
        Err(refused) => code_of(refused),
    }
}
