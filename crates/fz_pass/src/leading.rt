//! Marking what unreachable registered objects reach. The kinds differ only in the function `mark_first`.

ghost use Rattle.std.specs.Prelude.{◌≡◌, not, ℕ, IsTrue};
ghost use Rattle.std.specs.FinMap.{contains_key};
ghost use Rattle.fz_pass.specs.Leading.{IsLeading, AreLeading, is_unreachable};
ghost use Rattle.fz_pass.specs.Marks.{IsClosed, Marks, AreRegistered};

use crate::host::Host;
use fz_model::{Addr, RegKind};
use fz_table::Table;

/// Marks what an object with a registration of this kind reaches.
fn mark_first<H: Host>(host: &mut H, object: Addr, kind: RegKind)
    requires object { IsTrue (contains_key (H.objects host.old) object) }
    requires closed { IsClosed (H.objects host.old) (H.marked host.old) }
    ensures objects { H.objects host.new ≡ H.objects host.old }
    ensures marked { Marks H.is_exact (H.objects host.old) (H.marked host.old) (H.marked host.new) (IsLeading (H.objects host.old) object kind) }
    ensures same { H.is_same host.old host.new }
{
    match kind {
        RegKind::Normal => host.mark_children(object, false),
        RegKind::IgnoreSelf => host.mark_children(object, true),
        RegKind::NoOrder => {}
    }
}

/// Marks what a registered object reaches, if the object isn't marked.
fn mark_if_unmarked<H: Host>(host: &mut H, object: Addr, kind: RegKind)
    requires object { IsTrue (contains_key (H.objects host.old) object) }
    requires closed { IsClosed (H.objects host.old) (H.marked host.old) }
    ensures objects { H.objects host.new ≡ H.objects host.old }
    ensures marked { Marks H.is_exact (H.objects host.old) (H.marked host.old) (H.marked host.new) (λ a. IsTrue (not (H.marked host.old object)) × IsLeading (H.objects host.old) object kind a) }
    ensures same { H.is_same host.old host.new }
{
    if !host.is_marked(object) {
        mark_first(host, object, kind);
    }
}

/// Marks what the unmarked registered objects reach.
pub(crate) fn mark_led<H: Host>(host: &mut H, table: &Table)
    requires registered { AreRegistered (H.objects host.old) table.now.registrations }
    requires closed { IsClosed (H.objects host.old) (H.marked host.old) }
    ensures objects { H.objects host.new ≡ H.objects host.old }
    ensures marked { Marks H.is_exact (H.objects host.old) (H.marked host.old) (H.marked host.new) (AreLeading (H.objects host.old) table.now.registrations (is_unreachable (H.objects host.old) table.now.registrations (H.marked host.old))) }
    ensures same { H.is_same host.old host.new }
{
    for (object, registration) in table.iter() {
        mark_if_unmarked(host, object, registration.kind);
    }
}
