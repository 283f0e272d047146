//! Disappearing links.

ghost use Rattle.std.specs.Prelude.{◌≡◌};
ghost use Rattle.fz_c.specs.MachineChanges.{Links, MovesLink, Unlinks};
ghost use Rattle.fz_c.specs.MachineCodes.{Behind};

use crate::handle::behind;
use crate::kinds::kind_for;
use crate::machine::codes::{Code, NOT_OPEN, OK, code_of};
use crate::machine::handle::MachineHandle;
use fz_finalizers::{LinkAnswer, MoveAnswer};
use std::alloc::Global;

/// `Machine::link`.
#[unsafe(no_mangle)]
pub extern "C" fn fz_machine_link(
    alloc: Global,
    finalizers: &mut MachineHandle,
    is_long: bool,
    word: u64,
    target: u64,
    answer: &mut u8,
) -> Code
    ensures { Behind finalizers.old.value finalizers.new.value result (answer.new ≡ answer.old) (Links is_long word target result answer.old answer.new) }
{
    let reply = behind!(
        alloc,
        finalizers,
        NOT_OPEN,
        |it| it.machine.link(kind_for(is_long), word, target)
    );
    match reply {
        Ok(linked) => {
            *answer = match linked {
                LinkAnswer::Success => 0,
                LinkAnswer::Duplicate => 1,
            };
            OK
        }
        Err(refused) => code_of(refused),
    }
}

/// `Machine::unlink`.
#[unsafe(no_mangle)]
pub extern "C" fn fz_machine_unlink(
    alloc: Global,
    finalizers: &mut MachineHandle,
    is_long: bool,
    word: u64,
    was: &mut bool,
) -> Code
    ensures { Behind finalizers.old.value finalizers.new.value result (was.new ≡ was.old) (Unlinks is_long word result was.old was.new) }
{
    let reply = behind!(
        alloc,
        finalizers,
        NOT_OPEN,
        |it| it.machine.unlink(kind_for(is_long), word)
    );
    match reply {
        Ok(unlinked) => {
            *was = unlinked;
            OK
        }
        Err(refused) => code_of(refused),
    }
}

/// `Machine::move_link`.
#[unsafe(no_mangle)]
pub extern "C" fn fz_machine_move_link(
    alloc: Global,
    finalizers: &mut MachineHandle,
    is_long: bool,
    word: u64,
    to: u64,
    answer: &mut u8,
) -> Code
    ensures { Behind finalizers.old.value finalizers.new.value result (answer.new ≡ answer.old) (MovesLink is_long word to result answer.old answer.new) }
{
    let reply = behind!(
        alloc,
        finalizers,
        NOT_OPEN,
        |it| it.machine.move_link(kind_for(is_long), word, to)
    );
    match reply {
        Ok(moved) => {
            *answer = match moved {
                MoveAnswer::Success => 0,
                MoveAnswer::Duplicate => 1,
                MoveAnswer::NotFound => 4,
            };
            OK
        }
        Err(refused) => code_of(refused),
    }
}
