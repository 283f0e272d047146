//! Tests of finalizers over another heap, one of records. It is compared with a world, and queues the same objects. A world has no cleanups, ephemerons and
//! reasons: these have worked rows. The tests in C compare passes by questions, cleanups, ephemerons and reasons with a plain reading of random graphs: `graphs.c`,
//! `finalizers_fuzz.c` and `finalizers_why.c` of `c/tests`.

mod beside;
mod cleanups;
mod ephemerons;
mod guardians;
mod heaps;
mod over;
mod regions;
mod runtime;
mod snapshot;
mod why;
