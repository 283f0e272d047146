//! Runs of whole threads files.

mod devices;
mod files;
mod holds;
mod limits;
mod malformed;
mod procedures;
mod summaries;
mod wanted;

ghost use Rattle.std.specs.Prelude.{◌≡◌};

use arrayvec::ArrayVec;
use fz_model::{MAX_WORKERS, Refusal};
use fz_runs::{
    DriveFault, Failures, Keep, Limits, MemorySink, MemorySource, Nothing, WHOLE, drive_threads,
};
use fz_service::{Proc, procedures};
use std::alloc::{AllocError, Global};
use std::marker::Brand;
use std::sync::Wait;
use std::sync::ledger::{Blank, Ledger};
use std::thread::Threads;

/// A threads file, the output of its run, and how the run ends.
#[derive(Clone, Copy)]
struct Row {
    file: &'static [u8],
    text: &'static [u8],
    fault: Option<DriveFault>,
}

/// A threads file whose summary has one number that may vary, from 0 to `most`, between two fixed parts.
#[derive(Clone, Copy)]
struct FreeRow {
    file: &'static [u8],
    before: &'static [u8],
    most: u64,
    after: &'static [u8],
}

#[derive(Drop)]
struct Outcome {
    result: Result<(), DriveFault>,
    text: ArrayVec<u8, 4096>,
}

/// Runs the threads file over devices in memory, with the procedures of the program.
fn run<R: AllocGlobal + Threads + Wait + Sync>(rt: &R, file: &[u8]) -> Result<Outcome, AllocError> {
    run_within(rt, file, WHOLE)
}

fn run_within<R: AllocGlobal + Threads + Wait + Sync>(
    rt: &R,
    file: &[u8],
    limits: Limits,
) -> Result<Outcome, AllocError> {
    let alloc = rt.alloc();
    let procs = procedures!(alloc; MAX_WORKERS; Nothing, Keep);
    Ok(run_with(rt, file, limits, procs))
}

/// The same with these lists of procedures.
fn run_with<R: AllocGlobal + Threads + Wait + Sync>(
    rt: &R,
    file: &[u8],
    limits: Limits,
    procs: Vec<Vec<Box<dyn Proc + Send>>>,
) -> Outcome {
    run_counted::<Brand, Brand, R>(rt, file, limits, procs, Blank::new(1), Blank::new(1))
}

fn run_counted<I: Ledger, O: Ledger, R: AllocGlobal + Threads + Wait + Sync>(
    rt: &R,
    file: &[u8],
    limits: Limits,
    procs: Vec<Vec<Box<dyn Proc + Send>>>,
    input: Blank,
    output: Blank,
) -> Outcome
    requires input_name { input.name ≡ I.name }
    requires input_parts { (input.parts ≡ I.parts) × (I.parts ≡ 1) }
    requires output_name { output.name ≡ O.name }
    requires output_parts { (output.parts ≡ O.parts) × (O.parts ≡ 1) }
{
    let mut reader = MemorySource::new(
        file,
        limits.pieces,
        limits.reads,
        Failures::<I>::none(input),
    );
    let mut writer = MemorySink::new(limits.pieces, limits.writes, Failures::<O>::none(output));
    let result = drive_threads(rt.alloc(), &mut reader, &mut writer, procs, rt);
    Outcome {
        result,
        text: writer.into_bytes(),
    }
}

fn fault(refusal: Refusal, line: u64) -> Result<(), DriveFault> {
    Err(DriveFault { refusal, line })
}

/// The concatenation of all these parts.
fn joined(alloc: Global, parts: &[&[u8]]) -> Result<Vec<u8>, AllocError> {
    let mut bytes = Vec::new(alloc);
    for part in parts {
        bytes.extend_from_slice(*part)?;
    }
    Ok(bytes)
}
