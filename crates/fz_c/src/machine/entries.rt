//! Entries.

ghost use Rattle.std.specs.Prelude.{◌≡◌};
ghost use Rattle.fz_finalizers.specs.Follows.{Take, TakeFinished};
ghost use Rattle.fz_finalizers.specs.States.{unfinished};
ghost use Rattle.fz_c.specs.MachineChanges.{Finishes};
ghost use Rattle.fz_c.specs.MachineCodes.{Behind};
ghost use Rattle.fz_c.specs.MachineEntries.{ShowsUnfinished, TellsEntry, Takes, entry_of};

use crate::handle::behind;
use crate::machine::codes::{Code, EMPTY, NOT_OPEN, OK, code_of};
use crate::machine::handle::MachineHandle;
use std::alloc::Global;

/// An entry, as C represents it, without a birth.
#[repr(C)]
#[derive(Clone, Copy)]
pub struct HostEntry {
    pub seq: u64,
    pub pass: u64,
    pub reg: u64,
    pub obj: u64,
    pub proc: u64,
    pub cd: u64,
}

impl HostEntry {
    pub(crate) fn of(entry: fz_finalizers::Entry) -> HostEntry
        ensures { TellsEntry entry result }
    {
        HostEntry {
            seq: entry.seq,
            pass: entry.pass,
            reg: entry.reg,
            obj: entry.obj,
            proc: entry.proc,
            cd: entry.cd,
        }
    }

    fn read(&self) -> fz_finalizers::Entry
        ensures { result ≡ entry_of self.now }
    {
        fz_finalizers::Entry {
            seq: self.seq,
            pass: self.pass,
            reg: self.reg,
            obj: self.obj,
            birth: 0,
            proc: self.proc,
            cd: self.cd,
        }
    }
}

/// `Machine::take`.
#[unsafe(no_mangle)]
pub extern "C" fn fz_machine_take(
    alloc: Global,
    finalizers: &mut MachineHandle,
    entry: &mut HostEntry,
) -> Code
    ensures { Behind finalizers.old.value finalizers.new.value result (entry.new ≡ entry.old) (λ m n. Takes Take m n result entry.old entry.new) }
{
    let reply = behind!(alloc, finalizers, NOT_OPEN, |it| it.machine.take());
    match reply {
        Some(taken) => {
            *entry = HostEntry::of(taken);
            OK
        }
        None => EMPTY,
    }
}

/// `Machine::take_finished`.
#[unsafe(no_mangle)]
pub extern "C" fn fz_machine_take_finished(
    alloc: Global,
    finalizers: &mut MachineHandle,
    entry: &mut HostEntry,
) -> Code
    ensures { Behind finalizers.old.value finalizers.new.value result (entry.new ≡ entry.old) (λ m n. Takes TakeFinished m n result entry.old entry.new) }
{
    let reply = behind!(alloc, finalizers, NOT_OPEN, |it| it.machine.take_finished());
    match reply {
        Some(taken) => {
            *entry = HostEntry::of(taken);
            OK
        }
        None => EMPTY,
    }
}

/// `Machine::finish`.
#[unsafe(no_mangle)]
pub extern "C" fn fz_machine_finish(
    alloc: Global,
    finalizers: &mut MachineHandle,
    entry: &HostEntry,
) -> Code
    ensures { Behind finalizers.old.value finalizers.new.value result (Unit {0}) (Finishes (entry_of entry.now) result) }
{
    let reply = behind!(
        alloc,
        finalizers,
        NOT_OPEN,
        |it| it.machine.finish(&entry.read())
    );
    match reply {
        Ok(()) => OK,
        Err(refused) => code_of(refused),
    }
}

/// `Finalizers::next_unfinished`. It changes nothing, and works while a pass is open.
#[unsafe(no_mangle)]
pub extern "C" fn fz_machine_unfinished(
    alloc: Global,
    finalizers: &mut MachineHandle,
    from: u64,
    entry: &mut HostEntry,
) -> Code
    ensures { Behind finalizers.old.value finalizers.new.value result (entry.new ≡ entry.old) (λ m n. (n ≡ m) × ShowsUnfinished (unfinished m.finalizers.state) from result entry.old entry.new) }
{
    let found = behind!(
        alloc,
        finalizers,
        NOT_OPEN,
        |it| it.machine.finalizers().next_unfinished(from)
    );
    let Some(shown) = found else {
        return EMPTY;
    };
    *entry = HostEntry::of(shown);
    OK
}
