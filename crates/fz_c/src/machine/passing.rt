//! Passes.

ghost use Rattle.std.specs.Prelude.{◌≡◌, [], None, IfErr, IfOk, OnErr};
ghost use Rattle.fz_machine.specs.Asks.{bits_of};
ghost use Rattle.fz_machine.specs.Causes.{first_of};
ghost use Rattle.fz_machine.specs.Machines.{GoesTo, IsBegunFrom, Writes, next_of};
ghost use Rattle.fz_machine.specs.declared.refused.Refused.TheVariants.{NoPass};
ghost use Rattle.fz_c.specs.MachineChanges.{QueuesAll, QueuesCleanups};
ghost use Rattle.fz_c.specs.MachineCodes.{Answers, Behind};
ghost use Rattle.fz_c.specs.MachinePassing.{Abandons, AsksNext, heard};

use crate::handle::behind;
use crate::machine::codes::{Code, EMPTY, NOT_OPEN, OK, code_of};
use crate::machine::handle::MachineHandle;
use fz_machine::{BATCH, Machine, Refused, Step};
use std::alloc::Global;

/// A question, as C represents it.
#[repr(C)]
#[derive(Clone, Copy)]
pub struct Question {
    pub what: [u64; BATCH],
    pub count: u64,
    pub ask: u32,
    pub marks: [u64; BATCH],
}

/// What a pass has done.
#[repr(C)]
#[derive(Clone, Copy)]
pub struct Passed {
    pub pass: u64,
    pub picked: u64,
}

/// `Machine::begin_from`.
#[unsafe(no_mangle)]
pub extern "C" fn fz_machine_begin(alloc: Global, finalizers: &mut MachineHandle, from: u64) -> Code
    ensures { Behind finalizers.old.value finalizers.new.value result (Unit {0}) (λ m n. Answers (first_of m.phase []) result (IsBegunFrom from m n) (n ≡ m)) }
{
    let reply = behind!(
        alloc,
        finalizers,
        NOT_OPEN,
        |it| it.machine.begin_from(from)
    );
    match reply {
        Ok(_) => OK,
        Err(refused) => code_of(refused),
    }
}

/// `Machine::abandon`.
#[unsafe(no_mangle)]
pub extern "C" fn fz_machine_abandon(alloc: Global, finalizers: &mut MachineHandle) -> Code
    ensures { Behind finalizers.old.value finalizers.new.value result (Unit {0}) (Abandons result) }
{
    let reply = behind!(alloc, finalizers, NOT_OPEN, |it| it.machine.abandon());
    match reply {
        Ok(()) => OK,
        Err(refused) => code_of(refused),
    }
}

/// Has a machine process the answers to its last question, of bits or of words, and proceed.
fn proceed(
    machine: &mut Machine,
    answers: u64,
    marks: &[u64; BATCH],
    about: &mut [u64; BATCH],
) -> Result<Step, Refused>
    ensures refused { OnErr result ((machine.old.phase ≡ None) × (machine.new ≡ machine.old) × (about.new ≡ about.old)) }
    ensures cause { IfErr result (λ r. r ≡ NoPass) }
    ensures goes { IfOk result (λ step. GoesTo machine.old (heard machine.old (bits_of answers) marks.now) machine.new (next_of step about.new)) }
    ensures written { IfOk result (λ step. Writes step about.old about.new) }
{
    if machine.asks_marks() {
        machine.next_marks(marks, about)
    } else {
        machine.next_bits(answers, about)
    }
}

/// `Machine::next_marks` if the last question was about regions, and else `Machine::next_bits`.
#[unsafe(no_mangle)]
pub extern "C" fn fz_machine_next(
    alloc: Global,
    finalizers: &mut MachineHandle,
    answers: u64,
    question: &mut Question,
    passed: &mut Passed,
) -> Code
    ensures { Behind finalizers.old.value finalizers.new.value result ((question.new ≡ question.old) × (passed.new ≡ passed.old)) (λ m n. AsksNext m (bits_of answers) question.old.marks n result question.old question.new passed.old passed.new) }
{
    let reply = behind!(
        alloc,
        finalizers,
        NOT_OPEN,
        |it| proceed(
            &mut it.machine,
            answers,
            &question.marks,
            &mut question.what
        )
    );
    match reply {
        Ok(Step::Asks { ask, count }) => {
            question.count = count as u64;
            question.ask = u32::from(ask.number());
            OK
        }
        Ok(Step::Ended(ended)) => {
            *passed = Passed {
                pass: ended.pass,
                picked: ended.picked,
            };
            EMPTY
        }
        Err(refused) => code_of(refused),
    }
}

/// `Machine::queue_all`.
#[unsafe(no_mangle)]
pub extern "C" fn fz_machine_queue_all(
    alloc: Global,
    finalizers: &mut MachineHandle,
    queued: &mut u64,
) -> Code
    ensures { Behind finalizers.old.value finalizers.new.value result (queued.new ≡ queued.old) (QueuesAll result queued.old queued.new) }
{
    let reply = behind!(alloc, finalizers, NOT_OPEN, |it| it.machine.queue_all());
    match reply {
        Ok(count) => {
            *queued = count;
            OK
        }
        Err(refused) => code_of(refused),
    }
}

/// `Machine::queue_cleanups`.
#[unsafe(no_mangle)]
pub extern "C" fn fz_machine_queue_cleanups(
    alloc: Global,
    finalizers: &mut MachineHandle,
    queued: &mut u64,
) -> Code
    ensures { Behind finalizers.old.value finalizers.new.value result (queued.new ≡ queued.old) (QueuesCleanups result queued.old queued.new) }
{
    let reply = behind!(
        alloc,
        finalizers,
        NOT_OPEN,
        |it| it.machine.queue_cleanups()
    );
    match reply {
        Ok(all) => {
            *queued = all;
            OK
        }
        Err(refused) => code_of(refused),
    }
}
