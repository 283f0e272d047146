//! The worked threads files with their summaries, as `tests/scripts --write` wrote them from `crates/finalize/data`.

use super::{FreeRow, Row};
use fz_model::Refusal;
use fz_runs::DriveFault;

/// As many actors as there may be: eight mutators with a frame each, a collector and eight workers. The collector
/// makes three passes and leaves a cycle open, which a pause ends; three collections follow.
pub(crate) const ALL_ACTORS: FreeRow = FreeRow {
    file: b"open 256 8 8\nsettle 3\nmutator\nnew 0 0 2 scanned\nnew 0 1 1 scanned\nlink short 0 0 0 0 1\nlink long 0 0 1 0 1\nchurn 40 0 2 1 scanned normal 0\nmove short 0 0 0 0 0 1\nchurn 20 0 2 100 atomic no_order 1\nunlink long 0 0 1\nmutator\nnew 1 0 2 scanned\nnew 1 1 1 scanned\nlink short 1 0 0 1 1\nlink long 1 0 1 1 1\nchurn 40 1 2 1 scanned normal 0\nmove short 1 0 0 1 0 1\nchurn 20 1 2 3 atomic no_order 1\nunlink long 1 0 1\nmutator\nnew 2 0 2 scanned\nnew 2 1 1 scanned\nlink short 2 0 0 2 1\nlink long 2 0 1 2 1\nchurn 40 2 2 1 scanned ignore_self 0\nmove short 2 0 0 2 0 1\nchurn 20 2 2 3 scanned no_order 1\nunlink long 2 0 1\nmutator\nnew 3 0 2 scanned\nnew 3 1 1 scanned\nlink short 3 0 0 3 1\nlink long 3 0 1 3 1\nchurn 40 3 2 1 scanned ignore_self 0\nmove short 3 0 0 3 0 1\nchurn 20 3 2 64 scanned no_order 1\nunlink long 3 0 1\ncollector\ncollect\nbegin\nmark 1\nmark 100\npause\ncollect\nbegin\nmark 10\nmutator\nchurn 60 4 2 1 scanned normal 0\nmutator\nchurn 60 5 2 2 scanned ignore_self 1\nmutator\nchurn 60 6 2 5 atomic normal 2\nmutator\nchurn 60 7 2 1 scanned no_order 1\n",
    before: b"enqueued 480\nfinished 480\nforfeited 0\nleft 0\npasses 7\nreclaimed ",
    most: 480,
    after: b"\nrefused 0\n",
};

/// Four mutators make, register and drop 50 objects each. When they have ended, one pass queues all 200, and two
/// workers finish them.
pub(crate) const FOUR_MUTATORS: Row = Row {
    file: b"open 8 4 2\nsettle 1\nmutator\nchurn 50 0 0 1 scanned normal 0\nmutator\nchurn 50 1 0 1 scanned normal 0\nmutator\nchurn 50 2 0 1 scanned normal 0\nmutator\nchurn 50 3 0 1 scanned normal 0\n",
    text: b"enqueued 200\nfinished 200\nforfeited 0\nleft 0\npasses 1\nreclaimed 0\nrefused 0\n",
    fault: None,
};

/// Objects fill the heap before the first pass. A `new` that is refused leaves out the rest of its turn.
pub(crate) const FULL_HEAP: Row = Row {
    file: b"open 1 1 1\nsettle 1\nmutator\nchurn 100 0 0 1 scanned ignore_self 0\nchurn 10 1 0 1 scanned normal 0\n",
    text: b"enqueued 64\nfinished 64\nforfeited 0\nleft 0\npasses 1\nreclaimed 0\nrefused 46\n",
    fault: None,
};

/// Procedure 1 puts its object into the last slot of the first frame. So neither that object nor the one to which it
/// leads is ever reclaimed.
pub(crate) const KEPT_OBJECT: Row = Row {
    file: b"open 8 1 2\nsettle 100\nmutator\nnew 0 0 1 scanned\nnew 0 1 1 atomic\nstore 0 0 0 0 1\nregister 0 0 normal 1 0\nset 0 1 0\nset 0 0 0\n",
    text: b"enqueued 1\nfinished 1\nforfeited 0\nleft 0\npasses 100\nreclaimed 0\nrefused 0\n",
    fault: None,
};

/// The most turns of one line.
pub(crate) const LONG_CHURN: Row = Row {
    file: b"open 4096 8 8\nsettle 1\nmutator\nchurn 10000 7 15 1 atomic no_order 0\n",
    text: b"enqueued 10000\nfinished 10000\nforfeited 0\nleft 0\npasses 1\nreclaimed 0\nrefused 0\n",
    fault: None,
};

/// Four mutators beside a collector. However the threads take turns, all 200 objects are queued and finished; how many
/// of them a later pass reclaims depends on the turns, so it is any number from 0 to 200.
pub(crate) const MUTATORS_AND_COLLECTOR: FreeRow = FreeRow {
    file: b"open 8 4 2\nsettle 1\nmutator\nchurn 50 0 0 1 scanned normal 0\nmutator\nchurn 50 1 0 1 scanned normal 0\nmutator\nchurn 50 2 0 1 scanned normal 0\nmutator\nchurn 50 3 0 1 scanned normal 0\ncollector\ncollect\ncollect\ncollect\n",
    before: b"enqueued 200\nfinished 200\nforfeited 0\nleft 0\npasses 4\nreclaimed ",
    most: 200,
    after: b"\nrefused 0\n",
};

/// Nothing is collected: what was registered and dropped is never queued.
pub(crate) const NEVER_COLLECTED: Row = Row {
    file: b"open 8 1 2\nsettle 0\nmutator\nchurn 50 0 0 1 scanned normal 0\n",
    text: b"enqueued 0\nfinished 0\nforfeited 0\nleft 0\npasses 0\nreclaimed 0\nrefused 0\n",
    fault: None,
};

/// An opening without frames, after a comment.
pub(crate) const NO_FRAMES: Row = Row {
    file: b"# An opening without frames, after a comment.\nopen 4 0 1\nsettle 1\n",
    text: b"refused 7 BadCount\n",
    fault: Some(DriveFault {
        refusal: Refusal::BadCount,
        line: 2,
    }),
};

/// A file that begins without an opening.
pub(crate) const NO_OPENING: Row = Row {
    file: b"# A file that begins without an opening.\nsettle 1\n",
    text: b"line 2 refused 15 BadLine\n",
    fault: Some(DriveFault {
        refusal: Refusal::BadLine,
        line: 2,
    }),
};

/// A world without sections.
pub(crate) const NO_SECTIONS: Row = Row {
    file: b"open 4096 8 8\nsettle 100\n",
    text: b"enqueued 0\nfinished 0\nforfeited 0\nleft 0\npasses 100\nreclaimed 0\nrefused 0\n",
    fault: None,
};

/// Entries whose number has no procedure are finished like others.
pub(crate) const NO_SUCH_PROCEDURE: Row = Row {
    file: b"open 8 1 2\nsettle 1\nmutator\nchurn 20 0 0 1 scanned normal 2\nchurn 20 0 0 1 scanned no_order 18446744073709551615\n",
    text: b"enqueued 40\nfinished 40\nforfeited 0\nleft 0\npasses 1\nreclaimed 0\nrefused 0\n",
    fault: None,
};

/// The collector makes a pass and leaves a cycle open. A pause ends that, and two collections follow: four passes.
pub(crate) const OPEN_CYCLE: Row = Row {
    file: b"open 8 1 1\nsettle 2\ncollector\ncollect\nbegin\nmark 1\n",
    text: b"enqueued 0\nfinished 0\nforfeited 0\nleft 0\npasses 4\nreclaimed 0\nrefused 0\n",
    fault: None,
};

/// Steps of a collector that are refused: without a cycle, in a cycle, and without a budget.
pub(crate) const REFUSED_CYCLES: Row = Row {
    file: b"open 1 1 1\nsettle 1\ncollector\npause\nmark 1\nmark 0\nbegin\nbegin\ncollect\nmark 0\nmark 1\npause\npause\ncollect\n",
    text: b"enqueued 0\nfinished 0\nforfeited 0\nleft 0\npasses 3\nreclaimed 0\nrefused 7\n",
    fault: None,
};

/// Refused steps change nothing and are counted: 19 in this section. The comments say why each is refused.
pub(crate) const REFUSED_STEPS: Row = Row {
    file: b"open 1 1 1\nsettle 1\nmutator\n# refused: no such slot, no such frame\nset 0 16 1\nset 1 0 1\ncopy 0 0 0 16\n# refused: a size of 0, one over 1,024, and one that finds no room\nnew 0 0 0 scanned\nnew 0 0 1025 scanned\nnew 0 0 65 scanned\n# refused: zero points to no object\nload 0 0 0 0 1\nstore 0 0 0 0 1\n# accepted\nnew 0 0 2 scanned\n# refused: the only block has objects of another kind\nnew 0 1 2 atomic\n# refused: outside the object\nload 0 0 2 0 1\nstore 0 0 2 0 1\n# accepted: the word of slot 1 is zero\nregister 0 1 normal 0 0\nset 0 1 65537\n# refused: not the start of an object\nregister 0 1 normal 0 0\nunregister 0 1\n# accepted\nset 0 1 65599\n# refused: a free cell\nregister 0 1 normal 0 0\nunregister 0 1\n# refused: a place outside the object, a target that is none, and again a place\nlink short 0 0 2 0 0\nlink long 0 0 0 0 1\nunlink short 0 0 2\n# refused: the new place lies in no object\nmove short 0 0 0 0 1 0\n# accepted: no link is found\nunlink long 0 0 0\nmove short 0 0 0 0 0 1\n",
    text: b"enqueued 0\nfinished 0\nforfeited 0\nleft 0\npasses 1\nreclaimed 0\nrefused 19\n",
    fault: None,
};

/// Those whose summaries have no free number.
pub(crate) const ROWS: [Row; 12] = [
    FOUR_MUTATORS,
    FULL_HEAP,
    KEPT_OBJECT,
    LONG_CHURN,
    NEVER_COLLECTED,
    NO_FRAMES,
    NO_OPENING,
    NO_SECTIONS,
    NO_SUCH_PROCEDURE,
    OPEN_CYCLE,
    REFUSED_CYCLES,
    REFUSED_STEPS,
];
