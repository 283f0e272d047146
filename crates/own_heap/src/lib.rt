//! A small mark-and-sweep heap of records, as a template for a host of your own, and a runtime that gives its records finalizers.
//!
//! Records have typed fields, and are named by their index. For a pass, a record's address is computed from its index, and a field's address is the record's
//! address plus the field's number. So no two records overlap. In the model a reference is the address of its record, a hidden one is a number that lies in no
//! record, and any other field is 0. A link or an ephemeron lies in a field, and has its address as its number; or it lies outside of the heap, and has a
//! number from `OUTSIDE` on.
#![tactic(auto)]

mod ephemeron;
mod guardian;
mod heap;
mod host;
mod law;
mod marking;
mod marks;
mod pair;
mod paths;
mod record;
mod records;
mod runtime;

pub use ephemeron::EphemeronPair;
pub use guardian::Guardian;
pub use heap::Heap;
pub use law::{
    cleanups_go_with_records, collections_without_ephemerons, keys_are_not_retained,
    objects_are_records, pairs_are_weak,
};
pub use pair::WeakPair;
pub use record::{FIELDS, Field, OUTSIDE, Record, RecordId};
pub use runtime::{Runtime, mark_kept};
