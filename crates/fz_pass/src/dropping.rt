//! Removing links.

ghost use Rattle.std.specs.Prelude.{◌≡◌, not};
ghost use Rattle.fz_pass.specs.Marks.{with_targets, with_holders};
ghost use Rattle.fz_pass.specs.Places.{is_held};

use crate::host::Host;
use fz_links::Links;
use fz_model::Addr;

/// Removes the links whose targets aren't marked.
pub(crate) fn drop_dead<H: Host>(host: &H, links: &mut Links)
    ensures { links.new.links ≡ with_targets links.old.links (H.marked host.now) }
{
    links.drop_where(
        |_: Addr, target: Addr| -> bool
            ensures { result ≡ not (H.marked host.entry.now target) }
        { !host.is_marked(target) },
    );
}

/// Removes the links whose words don't lie in a marked object. Those that denote no word stay.
pub(crate) fn drop_outside<H: Host>(host: &H, links: &mut Links)
    ensures { links.new.links ≡ with_holders H.place (H.objects host.now) links.old.links (H.marked host.now) }
{
    links.drop_where(
        |link: Addr, _: Addr| -> bool
            ensures { result ≡ not (is_held H.place (H.objects host.entry.now) (H.marked host.entry.now) link) }
        { !host.is_holder_marked(link) },
    );
}
