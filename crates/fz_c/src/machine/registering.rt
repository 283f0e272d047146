//! Registrations.

ghost use Rattle.std.specs.Prelude.{◌≡◌};
ghost use Rattle.fz_c.specs.MachineChanges.{Registers, Unregisters};
ghost use Rattle.fz_c.specs.MachineCodes.{Behind};
ghost use Rattle.fz_c.specs.MachineTold.{finalizer_of, kind_of};

use crate::handle::behind;
use crate::machine::codes::{Code, NOT_OPEN, OK, code_of};
use crate::machine::handle::MachineHandle;
use crate::old::Old;
use fz_finalizers::{Finalizer, Kind};
use std::alloc::Global;

/// A new registration: its number, and what it replaced.
#[repr(C)]
#[derive(Clone, Copy)]
pub struct Registered {
    pub number: u64,
    pub replaced: Old,
}

/// The kind with this number. Every number above 2 is `Unreachable`.
fn kind_of(kind: u8) -> Kind
    ensures { result ≡ kind_of kind }
{
    match kind {
        0 => Kind::Normal,
        1 => Kind::IgnoreSelf,
        2 => Kind::NoOrder,
        _ => Kind::Unreachable,
    }
}

/// `Machine::register`.
#[unsafe(no_mangle)]
pub extern "C" fn fz_machine_register(
    alloc: Global,
    finalizers: &mut MachineHandle,
    object: u64,
    kind: u8,
    proc: u64,
    cd: u64,
    rank: u8,
    registered: &mut Registered,
) -> Code
    ensures { Behind finalizers.old.value finalizers.new.value result (registered.new ≡ registered.old) (Registers object (finalizer_of kind proc cd rank) result registered.old registered.new) }
{
    let finalizer = Finalizer {
        kind: kind_of(kind),
        procedure: proc,
        client_data: cd,
        rank,
    };
    let reply = behind!(
        alloc,
        finalizers,
        NOT_OPEN,
        |it| it.machine.register(object, finalizer)
    );
    match reply {
        Ok((number, old)) => {
            *registered = Registered {
                number,
                replaced: Old::of(old),
            };
            OK
        }
        Err(refused) => code_of(refused),
    }
}

/// `Machine::unregister`.
#[unsafe(no_mangle)]
pub extern "C" fn fz_machine_unregister(
    alloc: Global,
    finalizers: &mut MachineHandle,
    object: u64,
    old: &mut Old,
) -> Code
    ensures { Behind finalizers.old.value finalizers.new.value result (old.new ≡ old.old) (Unregisters object result old.old old.new) }
{
    let reply = behind!(
        alloc,
        finalizers,
        NOT_OPEN,
        |it| it.machine.unregister(object)
    );
    match reply {
        Ok(found) => {
            *old = Old::of(found);
            OK
        }
        Err(refused) => code_of(refused),
    }
}
