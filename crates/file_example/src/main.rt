//! file_example FILE..: objects of a garbage-collected heap own open files, and their finalizers close them.
//!
//! One thread is the mutator: it opens each file, allocates an object that owns it, and stores the object in a list that retains it and in a weak cache. Then
//! it drops objects and collects. Workers run concurrently: each file whose object became unreachable is closed, once, while the files of all other objects
//! stay readable. The program prints what it opened, what the cache contains after each collection, and the totals at the end. The file `stdout` beside `src`
//! has its output.
#![tactic(auto)]

mod close;
mod files;
mod mutator;
mod owners;
mod session;

use anyhow::{Result, bail};
use close::CloseFile;
use files::OpenFiles;
use fz_service::{Proc, Service, procedures};
use fz_world::Config;
use session::run;
use std::env;
use std::marker::Brand;
use std::sync::{Arc, Mutex};

/// The size of the heap: enough for as many files as an object has words.
const CONFIG: Config = Config {
    blocks: 80,
    frames: 1,
};

/// How many workers call finalizers.
const WORKERS: u64 = 4;

fn main(rt: HostRuntime) -> Result<()> {
    let names: Vec<String> = env::args(&rt)?.skip(1).collect(rt.alloc())?;
    if names.is_empty() {
        bail!("want FILE..");
    }
    let files = Arc::new(rt.alloc(), Mutex::new(OpenFiles::new(rt.alloc())))?;
    let procs = procedures!(rt.alloc(); WORKERS; CloseFile {
        files: Arc::try_clone(&files)?,
        rt,
    });
    let prepared = Service::prepare(rt.alloc(), CONFIG, WORKERS)?;
    run::<Brand, HostRuntime>(&rt, prepared, procs, &files, names.as_slice())
}
