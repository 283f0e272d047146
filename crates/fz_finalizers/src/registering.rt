//! Registering in the table, with room for the entry.

ghost use Rattle.std.specs.Prelude.{◌≡◌, ◌≤◌, ◌<◌, ◌+◌, ◌^◌, ◌⊎◌, None, length, IfOk, IfErr, OnOk, OnErr, IsTrue};
ghost use Rattle.std.specs.FinMap.{get, insert, remove, len};
ghost use Rattle.fz_model.specs.declared.limits.TheConstants.{COUNT_LIMIT};
ghost use Rattle.fz_model.specs.declared.answers.Registration.{Registration};
ghost use Rattle.fz_model.specs.Steps.{old_of, registration_of};
ghost use Rattle.fz_table.specs.Tabled.{with_flag};
ghost use Rattle.fz_finalizers.specs.Causes.{IsJudgedBy, IsJudgedOrLacks, register_causes};
ghost use Rattle.fz_finalizers.specs.Kinds.{is_late, table_finalizer};
ghost use Rattle.fz_finalizers.specs.Ready.{HasSameEntries};

use crate::kinds::Finalizer;
use crate::ready::Ready;
use crate::refused::Refused;
use fz_model::{Addr, COUNT_LIMIT, Old};
use fz_table::Table;

/// Checks that the object can be registered, apart from memory.
pub(crate) fn check(table: &Table, object: Addr) -> Result<(), Refused>
    ensures { IsJudgedBy (register_causes table.now.registrations table.now.next_number object) result }
{
    if object == 0 {
        return Err(Refused::Zero);
    }
    if table.next_number() >= COUNT_LIMIT {
        return Err(Refused::Exhausted);
    }
    if table.lacks_place(object) {
        return Err(Refused::Full);
    }
    Ok(())
}

/// Reserves room for the entry of an object's registration, unless the object is registered.
#[tactic(auto, using(crate::proofs::Counting::len_grown, crate::proofs::Counting::len_known))]
fn make_room(table: &Table, cleanups: usize, ready: &mut Ready, object: Addr) -> Result<(), Refused>
    requires room { len table.now.registrations + cleanups ≤ ready.old.room }
    requires few { len table.now.registrations + cleanups < 2 ^ 50 }
    ensures refused { IfErr result (λ r. r ≡ Refused.NoMemory) }
    ensures fresh { OnErr result (get table.now.registrations object ≡ None) }
    ensures wanting { OnErr result (ready.old.room ≤ len table.now.registrations + cleanups) }
    ensures same { HasSameEntries ready.old ready.new }
    ensures whole { ready.new.memory.whole ≡ ready.old.memory.whole }
    ensures memory { IsTrue ready.old.memory.whole → ready.new.memory ≡ ready.old.memory }
    ensures kept { ready.old.room ≤ ready.new.room }
    ensures room { OnOk result ((r : Registration) → len (insert table.now.registrations object r) + cleanups ≤ ready.new.room) }
{
    let Err(refused) = ready.reserve(table.len() + cleanups + 1) else {
        return Ok(());
    };
    if table.get(object).is_some() {
        return Ok(());
    }
    Err(refused)
}

/// Registers an object's finalizer. `cleanups` is the number of cleanups that there are. Returns the registration number and what was replaced.
pub(crate) fn register(
    table: &mut Table,
    cleanups: usize,
    ready: &mut Ready,
    object: Addr,
    finalizer: Finalizer,
) -> Result<(u64, Option<Old>), Refused>
    requires room { len table.old.registrations + cleanups ≤ ready.old.room }
    requires numbers { length ready.old.queue + len table.old.registrations + cleanups ≤ table.old.next_number }
    requires few { table.old.next_number ≤ COUNT_LIMIT }
    ensures judged { IsJudgedOrLacks (register_causes table.old.registrations table.old.next_number object) result }
    ensures fresh { IfErr result (λ r. r ≡ Refused.NoMemory → get table.old.registrations object ≡ None) }
    ensures wanting { IfErr result (λ r. r ≡ Refused.NoMemory → (table.old.room ≡ 0) ⊎ (ready.old.room ≤ len table.old.registrations + cleanups)) }
    ensures unchanged { OnErr result ((table.new.registered ≡ table.old.registered) × (table.new.late ≡ table.old.late)) }
    ensures number { IfOk result (λ answer. answer.0 ≡ table.old.next_number) }
    ensures replaced { IfOk result (λ answer. answer.1 ≡ old_of table.old.registrations object) }
    ensures registered { OnOk result (table.new.registered ≡ record { registrations = insert table.old.registrations object (registration_of table.old.next_number (table_finalizer finalizer)); next_number = table.old.next_number + 1 }) }
    ensures late { OnOk result (table.new.late ≡ with_flag table.old.late object (is_late finalizer.kind)) }
    ensures same { HasSameEntries ready.old ready.new }
    ensures whole { ready.new.memory.whole ≡ ready.old.memory.whole }
    ensures memory { IsTrue ready.old.memory.whole → ready.new.memory ≡ ready.old.memory }
    ensures kept { ready.old.room ≤ ready.new.room }
    ensures room { len table.new.registrations + cleanups ≤ ready.new.room }
    ensures roomier { table.old.room ≤ table.new.room + 1 }
    ensures spared { OnErr result (table.old.room ≤ table.new.room) }
{
    check(table, object)?;
    make_room(table, cleanups, ready, object)?;
    table
        .register_checked(object, finalizer.in_table(), finalizer.kind.is_late())
        .map_err(|_| Refused::NoMemory)
}
