//! finalize: runs a script or a threads file over the finalization service, and writes a report.
#![tactic(auto)]

ghost use Rattle.std.specs.Prelude.{◌≡◌, IfOk, IsErr, map};
ghost use Rattle.finalize.specs.Program.{Executes};

mod program;
mod shelf;
mod stream;

use fz_model::MAX_WORKERS;
use fz_runs::{Failures, Keep, Nothing, Sink};
use fz_service::Proc;
use program::{execute, out_of_memory, wrong_words};
use shelf::Shelf;
use std::alloc::AllocError;
use std::convert::AsStr;
use std::env;
use std::io::{ErrorKind, Write};
use std::marker::Brand;
use std::process::ExitCode;
use std::rt::{Env, Files, Stderr, Stdout};
use std::sync::Wait;
use std::sync::ledger::{Blank, Ledger};
use std::thread::Threads;
use stream::Stream;

fn main(rt: HostRuntime) -> ExitCode {
    with_streams::<Brand, Brand, Stdout, Stderr, HostRuntime>(
        &rt,
        rt.stdout(),
        rt.stderr(),
        Blank::new(1),
        Blank::new(1),
    )
}

/// Passes the arguments and the standard streams to `execute`. The failures of each stream are counted in a ledger of its own.
fn with_streams<
    O: Ledger,
    E: Ledger,
    Out: Write + Drop,
    Err: Write + Drop,
    R: Env + Files + AllocGlobal + Threads + Wait + Sync,
>(rt: &R, stdout: Out, stderr: Err, out: Blank, err: Blank) -> ExitCode
    requires out_name { out.name ≡ O.name }
    requires out_parts { (out.parts ≡ O.parts) × (O.parts ≡ 1) }
    requires err_name { err.name ≡ E.name }
    requires err_parts { (err.parts ≡ E.parts) × (E.parts ≡ 1) }
{
    let mut out = Stream::new(stdout, Failures::<O>::none(out));
    let mut err = Stream::new(stderr, Failures::<E>::none(err));
    let mut words = Vec::new(rt.alloc());
    let args = match env::args(rt) {
        Ok(args) => args,
        Err(error) if error.kind() == ErrorKind::OutOfMemory => return ExitCode::from(out_of_memory(
            &mut err,
        )),
        Err(_) => return ExitCode::from(wrong_words(&mut err)),
    };
    for word in args.skip(1) {
        let Ok(()) = words.push(word) else {
            return ExitCode::from(out_of_memory(&mut err));
        };
    }
    match with_procedures(rt, rt, words.as_slice(), &mut out, &mut err) {
        Ok(status) => ExitCode::from(status),
        Err(_) => ExitCode::from(out_of_memory(&mut err)),
    }
}

/// Makes each worker's list of procedures, and passes arguments, streams and lists to `execute`. Fails if the lists can't be allocated; then nothing was
/// done.
fn with_procedures<F: Shelf, R: AllocGlobal + Threads + Wait + Sync, S: AsStr, O: Sink, E: Sink>(
    files: &F,
    rt: &R,
    words: &[S],
    out: &mut O,
    err: &mut E,
) -> Result<u8, AllocError>
    ensures executed { IfOk result (λ status. Executes (F.holds files.now) (map S.text words.now) status (O.log out.old) (O.log out.new) (E.log err.old) (E.log err.new)) }
    ensures unchanged { IsErr result → (O.log out.new ≡ O.log out.old) × (E.log err.new ≡ E.log err.old) }
{
    let mut procs = Vec::new(rt.alloc());
    for _worker in 0..MAX_WORKERS {
        let mut list: Vec<Box<dyn Proc + Send>> = Vec::new(rt.alloc());
        list.push(Box::new(rt.alloc(), Nothing)?)?;
        list.push(Box::new(rt.alloc(), Keep)?)?;
        procs.push(list)?;
    }
    Ok(execute(files, rt, words, out, err, procs))
}
