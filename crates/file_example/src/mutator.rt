//! The mutator.

use crate::files::OpenFiles;
use crate::owners;
use crate::owners::CACHE;
use anyhow::{Context, Result};
use fz_service::{Opening, Service};
use std::fs;
use std::fs::{File, OpenFile};
use std::rt::Files;
use std::sync::{Mutex, Wait};

/// Opens the files, drops every second owner, collects, drops the others, and collects again.
pub(crate) fn mutate<O: Opening, R: Files<File = File> + Print + Wait>(
    rt: &R,
    service: &Service<O>,
    files: &Mutex<OpenFiles>,
    names: &[String],
) -> Result<()> {
    service
        .enter(rt)
        .with_world(|world| owners::make_lists(world, names.len() as u64))?;
    for name in names {
        open_file(rt, service, files, name)?;
    }
    for turn in 0..2 {
        for file in 0..names.len() as u64 {
            if file % 2 == turn {
                service
                    .enter(rt)
                    .with_world(|world| owners::let_go(world, file))?;
            }
        }
        let passed = service.enter(rt).collect()?;
        println!(rt;
            "pass {}: {} finalizers are ready",
            passed.pass, passed.picked
        )?;
        show(rt, service, files, names)?;
    }
    Ok(())
}

/// Opens a file, and allocates an object that owns it.
fn open_file<O: Opening, R: Files<File = File> + Print + Wait>(
    rt: &R,
    service: &Service<O>,
    files: &Mutex<OpenFiles>,
    name: &String,
) -> Result<()> {
    let opened = fs::open(rt, name).context(format_args!("opening {name}"))?;
    let file = files.lock(rt).insert(opened)?;
    // If this fails, the file may have no finalizer. Here the program then ends, which closes it; one that goes on has to take it from `files` itself.
    service
        .enter(rt)
        .with_world(|world| owners::make_owner(world, file))?;
    println!(rt; "{name}: opened")?;
    Ok(())
}

/// Prints the cache's content for each file.
fn show<O: Opening, R: Print + Wait>(
    rt: &R,
    service: &Service<O>,
    files: &Mutex<OpenFiles>,
    names: &[String],
) -> Result<()> {
    for (file, name) in names.iter().enumerate() {
        let file = file as u64;
        let cached = service
            .enter(rt)
            .with_world(|world| owners::has(world, CACHE, file));
        if cached? {
            let bytes = size(rt, files, file)?;
            println!(rt; "{name}: cached, {bytes} bytes")?;
        } else {
            println!(rt; "{name}: cleared")?;
        }
    }
    Ok(())
}

/// The size of a file, which has to be open.
fn size<R: Wait>(rt: &R, files: &Mutex<OpenFiles>, file: u64) -> Result<u64> {
    let files = files.lock(rt);
    let opened = files.get(file).context("closed too early")?;
    Ok(opened.metadata()?.len())
}
