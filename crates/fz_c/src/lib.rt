//! What C calls: a world with its readers (`world`), a ready line with its seats (`line`), and finalizers whose pass asks questions (`machine`).
//!
//! C holds each of them through a handle, whose address it passes to each export. An export returns a code. Unless it returns 0, the variables that C passed
//! for results are unchanged. No export has a `requires`; docs/reference/PROOFS.md states what a C program has to observe beyond its types.
#![tactic(auto)]

mod entry;
mod handle;
mod kinds;
pub mod line;
pub mod machine;
mod old;
pub mod world;
