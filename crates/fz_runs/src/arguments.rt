//! The command line, parsed by `clap`: which program to run, and on which file.

ghost use Rattle.std.specs.Prelude.{◌≡◌, List, ℕ, Err, IfErr, IfOk, IfSome, IsNone, Some, map, option_map};
ghost use Rattle.clap.specs.Words.{app_of, kind_of};
ghost use Rattle.fz_runs.specs.Commands.{TakesFiles};
ghost use Rattle.fz_runs.specs.Arguments.{Names, NameNothing, AskFor};

use clap::error::ErrorKind;
use clap::{Arg, Command, Error};
use std::alloc::{AllocError, Global};
use std::convert::AsStr;

/// Which program to run.
#[derive(Clone, Copy, Debug, PartialEq, Eq)]
pub enum Program {
    /// Runs a script.
    Run,
    /// Runs a threads file.
    Threads,
}

/// Why the arguments are refused.
#[derive(Clone, Copy, Debug, PartialEq, Eq)]
pub enum WordsFault {
    /// They aren't the name of a program and of a file.
    Wrong,
    /// Parsing them ran out of memory.
    NoMemory,
}

/// The program and the file that the arguments name.
///
/// A file name may begin with a hyphen only if it is `-`: `clap` takes all other such arguments as options.
pub fn program_and_file<'a, S: AsStr>(
    alloc: Global,
    words: &'a [S],
) -> Result<(Program, &'a str), WordsFault>
    ensures wrong { NameNothing (map S.text words.now) → result ≡ Err WordsFault.Wrong }
    ensures names { IfOk result (λ found. Names found.0 (map S.text words.now)) }
    ensures found { (file : List ℕ) → AskFor (map S.text words.now) file → IfOk result (λ found. found.1.now ≡ file) }
    ensures taken { (file : List ℕ) → AskFor (map S.text words.now) file → IfErr result (λ fault. fault ≡ WordsFault.NoMemory) }
{
    let Some(program) = program_of(words) else {
        return Err(WordsFault::Wrong);
    };
    match file_of(alloc, words) {
        Ok(Some(file)) => Ok((program, file)),
        Err(error) if error.kind() == ErrorKind::OutOfMemory => Err(WordsFault::NoMemory),
        _ => Err(WordsFault::Wrong),
    }
}

/// The program that the arguments name. They have to be its name and a file.
fn program_of<S: AsStr>(words: &[S]) -> Option<Program>
    ensures some { IfSome result (λ program. Names program (map S.text words.now)) }
    ensures none { IsNone result → NameNothing (map S.text words.now) }
{
    if words.len() != 2 {
        return None;
    }
    let name = words[0].as_str();
    if name == "run" {
        Some(Program::Run)
    } else if name == "threads" {
        Some(Program::Threads)
    } else {
        None
    }
}

fn command<'a>(alloc: Global) -> Result<Command<'a>, AllocError>
    ensures { IfOk result (λ command. TakesFiles (app_of command)) }
{
    let run = Command::new(alloc, "run").arg(Arg::new(alloc, "FILE").required(true))?;
    let threads = Command::new(alloc, "threads").arg(Arg::new(alloc, "FILE").required(true))?;
    Command::new(alloc, "finalize")
        .no_binary_name(true)
        .subcommand_required(true)
        .subcommand(run)?
        .subcommand(threads)
}

/// The file that the arguments name. Fails if they are wrong or memory runs out.
fn file_of<'a, S: AsStr>(alloc: Global, words: &'a [S]) -> Result<Option<&'a str>, Error>
    ensures found { (file : List ℕ) → AskFor (map S.text words.now) file → IfOk result (λ some. option_map (λ word. word.now) some ≡ Some file) }
    ensures taken { (file : List ℕ) → AskFor (map S.text words.now) file → IfErr result (λ error. kind_of error ≡ ErrorKind.OutOfMemory) }
{
    let command = command(alloc)?;
    let matches = command.try_get_matches_from(words)?;
    Ok(match matches.subcommand() {
        Some((_, program)) => program.get_str("FILE"),
        None => None,
    })
}
