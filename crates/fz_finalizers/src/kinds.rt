//! What a host registers.

ghost use Rattle.std.specs.Prelude.{◌≡◌};
ghost use Rattle.fz_finalizers.specs.Kinds.{table_kind, table_finalizer, is_late, of_table};

use fz_model::RegKind;

/// When the finalizer of an unreachable object is ready (gc.h): if no path leads to it from an unreachable registered object, not even from the object itself.
/// The kind of the object where a path begins decides by which of its pointers the path may begin. All further pointers count.
#[derive(Clone, Copy, Debug, PartialEq, Eq)]
pub enum Kind {
    /// A path may begin by any of its pointers (`GC_register_finalizer`).
    Normal,
    /// A path may begin by any of its pointers but those to itself (`GC_register_finalizer_ignore_self`).
    IgnoreSelf,
    /// No path begins at it, except one to an object of kind `Unreachable`. It still waits for others from which a path leads to it
    /// (`GC_register_finalizer_no_order`).
    NoOrder,
    /// As `Normal`, but a path to it may begin at a `NoOrder` object too (`GC_register_finalizer_unreachable`). It is queued after the other kinds of its
    /// pass.
    Unreachable,
}

/// A finalizer, as the host passes it to `register`.
#[derive(Clone, Copy, Debug, PartialEq, Eq)]
pub struct Finalizer {
    /// When it is ready.
    pub kind: Kind,
    /// The procedure to call: any number, which is returned in the entry.
    pub procedure: u64,
    /// The argument for the procedure: any number, too. If the host marks from it (`Root::RegisteredData`), it must not lead to the object of its registration,
    /// which would then never be queued.
    pub client_data: u64,
    /// Among finalizers queued by one pass, lower ranks come first.
    pub rank: u8,
}

impl Kind {
    /// Whether this is the kind that is judged after the others.
    pub(crate) fn is_late(self) -> bool
        ensures { result ≡ is_late self }
    {
        match self {
            Kind::Unreachable => true,
            Kind::Normal | Kind::IgnoreSelf | Kind::NoOrder => false,
        }
    }

    /// The kind of a registration, which its table has as one of the three kinds of the model and a flag.
    pub fn of_table(unreachable: bool, kind: RegKind) -> Kind
        ensures { result ≡ of_table unreachable kind }
    {
        if unreachable {
            return Kind::Unreachable;
        }
        match kind {
            RegKind::Normal => Kind::Normal,
            RegKind::IgnoreSelf => Kind::IgnoreSelf,
            RegKind::NoOrder => Kind::NoOrder,
        }
    }

    /// The kind as its table has it, without the flag.
    fn in_table(self) -> RegKind
        ensures { result ≡ table_kind self }
    {
        match self {
            Kind::Normal | Kind::Unreachable => RegKind::Normal,
            Kind::IgnoreSelf => RegKind::IgnoreSelf,
            Kind::NoOrder => RegKind::NoOrder,
        }
    }
}

impl Finalizer {
    /// The finalizer as its table has it, without the flag.
    pub(crate) fn in_table(self) -> fz_model::Finalizer
        ensures { result ≡ table_finalizer self }
    {
        fz_model::Finalizer {
            kind: self.kind.in_table(),
            procedure: self.procedure,
            client_data: self.client_data,
            rank: Some(self.rank),
        }
    }
}
