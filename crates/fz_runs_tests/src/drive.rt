//! Tests of runs of scripts.

mod scripts;
mod tests;

use fz_runs::DriveFault;

/// A script, its report, and how its run ends.
#[derive(Clone, Copy)]
struct Row {
    script: &'static [u8],
    report: &'static [u8],
    fault: Option<DriveFault>,
}
