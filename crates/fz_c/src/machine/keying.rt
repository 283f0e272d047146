//! Ephemerons.

ghost use Rattle.std.specs.Prelude.{◌≡◌};
ghost use Rattle.fz_c.specs.MachineChanges.{EndsEphemeron, MakesEphemeron, MovesEphemeron, TellsKey};
ghost use Rattle.fz_c.specs.MachineCodes.{Behind};

use crate::handle::behind;
use crate::kinds::kind_for;
use crate::machine::codes::{Code, NOT_OPEN, OK, code_of};
use crate::machine::handle::MachineHandle;
use fz_finalizers::{LinkAnswer, MoveAnswer};
use std::alloc::Global;

/// `Machine::ephemeron`.
#[unsafe(no_mangle)]
pub extern "C" fn fz_machine_ephemeron(
    alloc: Global,
    finalizers: &mut MachineHandle,
    is_long: bool,
    word: u64,
    key: u64,
    answer: &mut u8,
) -> Code
    ensures { Behind finalizers.old.value finalizers.new.value result (answer.new ≡ answer.old) (MakesEphemeron is_long word key result answer.old answer.new) }
{
    let reply = behind!(
        alloc,
        finalizers,
        NOT_OPEN,
        |it| it.machine.ephemeron(kind_for(is_long), word, key)
    );
    match reply {
        Ok(made) => {
            *answer = match made {
                LinkAnswer::Success => 0,
                LinkAnswer::Duplicate => 1,
            };
            OK
        }
        Err(refused) => code_of(refused),
    }
}

/// `Machine::end_ephemeron`.
#[unsafe(no_mangle)]
pub extern "C" fn fz_machine_end_ephemeron(
    alloc: Global,
    finalizers: &mut MachineHandle,
    word: u64,
    was: &mut bool,
) -> Code
    ensures { Behind finalizers.old.value finalizers.new.value result (was.new ≡ was.old) (EndsEphemeron word result was.old was.new) }
{
    let reply = behind!(
        alloc,
        finalizers,
        NOT_OPEN,
        |it| it.machine.end_ephemeron(word)
    );
    match reply {
        Ok(ended) => {
            *was = ended.is_some();
            OK
        }
        Err(refused) => code_of(refused),
    }
}

/// `Machine::move_ephemeron`.
#[unsafe(no_mangle)]
pub extern "C" fn fz_machine_move_ephemeron(
    alloc: Global,
    finalizers: &mut MachineHandle,
    word: u64,
    to: u64,
    answer: &mut u8,
) -> Code
    ensures { Behind finalizers.old.value finalizers.new.value result (answer.new ≡ answer.old) (MovesEphemeron word to result answer.old answer.new) }
{
    let reply = behind!(
        alloc,
        finalizers,
        NOT_OPEN,
        |it| it.machine.move_ephemeron(word, to)
    );
    match reply {
        Ok(moved) => {
            *answer = match moved {
                MoveAnswer::Success => 0,
                MoveAnswer::Duplicate => 1,
                MoveAnswer::NotFound => 4,
            };
            OK
        }
        Err(refused) => code_of(refused),
    }
}

/// `Machine::key_marked`.
#[unsafe(no_mangle)]
pub extern "C" fn fz_machine_key_marked(
    alloc: Global,
    finalizers: &mut MachineHandle,
    key: u64,
) -> Code
    ensures { Behind finalizers.old.value finalizers.new.value result (Unit {0}) (TellsKey key result) }
{
    behind!(alloc, finalizers, NOT_OPEN, |it| it.machine.key_marked(key));
    OK
}
