//! One value of each struct, so that a program can check its declarations against the library's.

ghost use Rattle.std.specs.Prelude.{◌≡◌};
ghost use Rattle.fz_c.specs.Samples.{sample};

use crate::entry::Entry;
use crate::old::Old;
use crate::world::collections::Passed;
use crate::world::finalizers::Registered;
use crate::world::objects::Made;
use crate::world::shown::{Counts, Linked, Object, Registration};
use crate::world::slots::CSlot;

/// One value of each struct.
#[repr(C)]
#[derive(Clone, Copy)]
pub struct Samples {
    pub slot: CSlot,
    pub made: Made,
    pub replaced: Old,
    pub registered: Registered,
    pub passed: Passed,
    pub entry: Entry,
    pub object: Object,
    pub registration: Registration,
    pub linked: Linked,
    pub counts: Counts,
}

const SAMPLE_OLD: Old = Old {
    proc: 1,
    cd: 2,
    was: true,
};

const SAMPLE: Samples = Samples {
    slot: CSlot { frame: 1, slot: 2 },
    made: Made {
        address: 1,
        birth: 2,
    },
    replaced: SAMPLE_OLD,
    registered: Registered {
        number: 1,
        replaced: SAMPLE_OLD,
        made: true,
    },
    passed: Passed {
        pass: 1,
        picked: 2,
        reclaimed: 3,
    },
    entry: Entry {
        seq: 1,
        pass: 2,
        reg: 3,
        obj: 4,
        birth: 5,
        proc: 6,
        cd: 7,
    },
    object: Object {
        start: 1,
        size: 2,
        birth: 3,
        atomic: true,
    },
    registration: Registration {
        object: 1,
        number: 2,
        proc: 3,
        cd: 4,
        kind: 5,
        rank: 6,
    },
    linked: Linked {
        place: 1,
        target: 2,
    },
    counts: Counts {
        passes: 1,
        reclaimed: 2,
        queued: 3,
        taken: 4,
        outstanding: 5,
        scans: 6,
        noted: 7,
    },
};

/// Sets the fields of each struct to 1, 2 and so on, in order; a `bool` is set to true.
#[unsafe(no_mangle)]
pub extern "C" fn fz_sample(samples: &mut Samples)
    ensures { samples.new ≡ sample }
{
    *samples = SAMPLE;
}
