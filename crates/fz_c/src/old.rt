//! A registration that was replaced or removed.

ghost use Rattle.fz_c.specs.Values.{TellsOld};

/// The procedure and the client data of a registration that was replaced or removed, and whether there was one.
#[repr(C)]
#[derive(Clone, Copy)]
pub struct Old {
    pub proc: u64,
    pub cd: u64,
    pub was: bool,
}

impl Old {
    pub(crate) fn of(old: Option<fz_model::Old>) -> Old
        ensures { TellsOld result old }
    {
        match old {
            Some(old) => Old {
                proc: old.proc,
                cd: old.cd,
                was: true,
            },
            None => Old {
                proc: 0,
                cd: 0,
                was: false,
            },
        }
    }
}
