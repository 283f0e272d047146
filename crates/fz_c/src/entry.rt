//! Entries, as C represents them.

ghost use Rattle.std.specs.Prelude.{◌≡◌};
ghost use Rattle.fz_c.specs.Values.{entry_of};

/// An entry of the queue.
#[repr(C)]
#[derive(Clone, Copy)]
pub struct Entry {
    pub seq: u64,
    pub pass: u64,
    pub reg: u64,
    pub obj: u64,
    pub birth: u64,
    pub proc: u64,
    pub cd: u64,
}

impl Entry {
    pub(crate) fn of(entry: &fz_model::Entry) -> Entry
        ensures { entry_of result ≡ entry.now }
    {
        Entry {
            seq: entry.seq,
            pass: entry.pass,
            reg: entry.reg,
            obj: entry.obj,
            birth: entry.birth,
            proc: entry.proc,
            cd: entry.cd,
        }
    }

    pub(crate) fn read(&self) -> fz_model::Entry
        ensures { result ≡ entry_of self.now }
    {
        fz_model::Entry {
            seq: self.seq,
            pass: self.pass,
            reg: self.reg,
            obj: self.obj,
            birth: self.birth,
            proc: self.proc,
            cd: self.cd,
        }
    }
}
