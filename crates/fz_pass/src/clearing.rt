//! Clearing the words of links to unmarked objects.

ghost use Rattle.std.specs.Prelude.{◌≡◌, nat_eq, ◌&&◌, IsTrue};
ghost use Rattle.std.specs.Option.{option_map_or};
ghost use Rattle.std.specs.FinMap.{contains_key};
ghost use Rattle.fz_model.specs.Memory.{filled};
ghost use Rattle.fz_model.specs.Pass.{is_outside, cleared};
ghost use Rattle.fz_pass.specs.Marks.{AreTargets};
ghost use Rattle.fz_pass.specs.Places.{placed};

use crate::host::Host;
use fz_links::Links;
use fz_model::Addr;

/// Clears the word of a link, if its target isn't marked.
fn clear_if_dead<H: Host>(host: &mut H, link: Addr, target: Addr)
    requires target { IsTrue (contains_key (H.objects host.old) target) }
    ensures objects { H.objects host.new ≡ option_map_or (λ word. filled (λ a. nat_eq a word && is_outside (H.objects host.old) (H.marked host.old) target) 0 (H.objects host.old)) (H.place link) (H.objects host.old) }
    ensures marked { H.marked host.new ≡ H.marked host.old }
    ensures same { H.is_same host.old host.new }
{
    if !host.is_marked(target) {
        host.clear(link);
    }
}

/// Clears the word of each link whose target isn't marked.
pub(crate) fn clear_dead<H: Host>(host: &mut H, links: &Links)
    requires targets { AreTargets (H.objects host.old) links.now.links }
    ensures objects { H.objects host.new ≡ cleared (placed H.place links.now.links) (H.marked host.old) (H.objects host.old) }
    ensures marked { H.marked host.new ≡ H.marked host.old }
    ensures same { H.is_same host.old host.new }
{
    for (link, target) in links.iter() {
        clear_if_dead(host, link, target);
    }
}
