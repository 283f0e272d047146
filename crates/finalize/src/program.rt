//! The program, given its arguments and two writers.

ghost use Rattle.std.specs.Prelude.{◌≡◌, map};
ghost use Rattle.fz_runs.specs.Devices.{Says};
ghost use Rattle.finalize.specs.Program.{want_line, memory_line, fault_line, Runs, ReadFrom, RunsFile, Executes, AreForWorkers};

use crate::shelf::Shelf;
use crate::stream::Stream;
use fz_model::Refusal;
use fz_runs::{
    DriveFault, Failures, Program, Sink, WordsFault, drive, drive_threads, program_and_file,
    write_all,
};
use fz_service::Proc;
use std::alloc::Global;
use std::convert::AsStr;
use std::io::Read;
use std::marker::Brand;
use std::sync::Wait;
use std::sync::ledger::{Blank, Ledger};
use std::thread::Threads;

/// Writes the line, ignoring failures. Returns the status.
fn say<E: Sink>(err: &mut E, line: &[u8], status: u8) -> u8
    ensures status { result ≡ status }
    ensures line { Says (E.log err.old) line.now (E.log err.new) }
{
    let _ = write_all(err, line);
    status
}

/// Reports wrong arguments. Returns the status.
pub(crate) fn wrong_words<E: Sink>(err: &mut E) -> u8
    ensures status { result ≡ 2 }
    ensures line { Says (E.log err.old) want_line (E.log err.new) }
{
    say(err, b"finalize: want run FILE or threads FILE\n", 2)
}

/// Reports that memory ran out. Returns the status.
pub(crate) fn out_of_memory<E: Sink>(err: &mut E) -> u8
    ensures status { result ≡ 1 }
    ensures line { Says (E.log err.old) memory_line (E.log err.new) }
{
    say(err, b"finalize: out of memory\n", 1)
}

/// Carries out the arguments and returns the exit status: 0 if a script or a threads file was run to its end, 2 if the arguments are wrong, and 1 for every
/// other fault. Each worker has the list of procedures at its index.
pub(crate) fn execute<F: Shelf, R: AllocGlobal + Threads + Wait + Sync, S: AsStr, O: Sink, E: Sink>(
    files: &F,
    rt: &R,
    words: &[S],
    out: &mut O,
    err: &mut E,
    procs: Vec<Vec<Box<dyn Proc + Send>>>,
) -> u8
    requires procs { AreForWorkers procs.items }
    ensures { Executes (F.holds files.now) (map S.text words.now) result (O.log out.old) (O.log out.new) (E.log err.old) (E.log err.new) }
{
    match program_and_file(rt.alloc(), words) {
        Ok((program, file)) => run_file(files, rt, program, file, out, err, procs),
        Err(WordsFault::Wrong) => wrong_words(err),
        Err(WordsFault::NoMemory) => out_of_memory(err),
    }
}

/// Runs the program on this file.
fn run_file<F: Shelf, R: AllocGlobal + Threads + Wait + Sync, O: Sink, E: Sink>(
    files: &F,
    rt: &R,
    program: Program,
    file: &str,
    out: &mut O,
    err: &mut E,
    procs: Vec<Vec<Box<dyn Proc + Send>>>,
) -> u8
    requires procs { AreForWorkers procs.items }
    ensures { RunsFile (F.holds files.now file.now) program result (O.log out.old) (O.log out.new) (E.log err.old) (E.log err.new) }
{
    let Some(opened) = files.open_named(file) else {
        return say(err, b"finalize: cannot open file\n", 1);
    };
    match program {
        Program::Run => run_script::<_, O, E, Brand>(rt.alloc(), opened, out, err, Blank::new(1)),
        Program::Threads => run_threads::<_, O, E, R, Brand>(
            rt,
            opened,
            out,
            err,
            procs,
            Blank::new(1),
        ),
    }
}

/// Runs the script in the input. The ledger counts its failures.
fn run_script<I: Read + Drop, O: Sink, E: Sink, L: Ledger>(
    alloc: Global,
    input: I,
    out: &mut O,
    err: &mut E,
    ledger: Blank,
) -> u8
    requires name { ledger.name ≡ L.name }
    requires parts { (ledger.parts ≡ L.parts) × (L.parts ≡ 1) }
    ensures { ReadFrom (I.remaining input) (λ feed. Runs Program.Run feed result (O.log out.old) (O.log out.new) (E.log err.old) (E.log err.new)) }
{
    let mut reader = Stream::new(input, Failures::<L>::none(ledger));
    match drive(alloc, &mut reader, out) {
        Ok(_) => 0,
        Err(fault) => explain(err, fault),
    }
}

/// Runs the threads file in the input. The ledger counts its failures.
fn run_threads<I: Read + Drop, O: Sink, E: Sink, R: AllocGlobal + Threads + Wait + Sync, L: Ledger>(
    rt: &R,
    input: I,
    out: &mut O,
    err: &mut E,
    procs: Vec<Vec<Box<dyn Proc + Send>>>,
    ledger: Blank,
) -> u8
    requires procs { AreForWorkers procs.items }
    requires name { ledger.name ≡ L.name }
    requires parts { (ledger.parts ≡ L.parts) × (L.parts ≡ 1) }
    ensures { ReadFrom (I.remaining input) (λ feed. Runs Program.Threads feed result (O.log out.old) (O.log out.new) (E.log err.old) (E.log err.new)) }
{
    let mut reader = Stream::new(input, Failures::<L>::none(ledger));
    if let Err(fault) = drive_threads(rt.alloc(), &mut reader, out, procs, rt) {
        return explain(err, fault);
    }
    0
}

/// Reports why a run ended early, unless its output says so already.
fn explain<E: Sink>(err: &mut E, fault: DriveFault) -> u8
    ensures status { result ≡ 1 }
    ensures line { Says (E.log err.old) (fault_line fault.refusal) (E.log err.new) }
{
    match fault.refusal {
        Refusal::Input => say(err, b"finalize: input failed\n", 1),
        Refusal::Output => say(err, b"finalize: output failed\n", 1),
        Refusal::NoMemory => out_of_memory(err),
        _ => 1,
    }
}
