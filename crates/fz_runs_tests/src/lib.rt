//! Tests of runs of scripts, and of threads files.
#![tactic(auto)]

#[cfg(test)]
mod drive;
#[cfg(test)]
mod equal;
#[cfg(test)]
mod threads;
