//! Answers of a host that can be called.

ghost use Rattle.std.specs.Prelude.{◌≡◌, ◌+◌, ◌<◌, ◌^◌};
ghost use Rattle.fz_machine.specs.Graph.{MayAsk, Answers, IsTrueWord, graph_of, is_told, no_value};

use crate::question::Ask;
use crate::regions::{PLACES, address_of, bit};
use fz_model::Addr;
use fz_pass::{Host, Values};

/// Asks a host that can be called about one object or link, or has it carry out a command, whose answer nothing reads. The answer to a question is true of the
/// host: what `runs_make_the_pass` states of answers, the methods of `Host` promise. The words of ephemerons have no values for it.
pub fn respond<H: Host>(host: &mut H, ask: Ask, subject: Addr) -> bool
    requires { MayAsk ask subject (graph_of (H.objects host.old) (H.marked host.old)) }
    ensures honest { Answers H.is_exact H.place no_value ask subject (graph_of (H.objects host.old) (H.marked host.old)) result (graph_of (H.objects host.new) (H.marked host.new)) }
    ensures same { H.is_same host.old host.new }
{
    match ask {
        Ask::IsMarked => host.is_marked(subject),
        Ask::MarkChildren => {
            host.mark_children(subject, false);
            false
        }
        Ask::MarkOthers => {
            host.mark_children(subject, true);
            false
        }
        Ask::Mark => {
            host.mark(subject);
            false
        }
        Ask::MarkAlone => {
            host.mark_alone(subject);
            false
        }
        Ask::Clear => {
            host.clear(subject);
            false
        }
        Ask::IsHolderMarked => host.is_holder_marked(subject),
        Ask::Marks | Ask::Live | Ask::MarkValue => false,
    }
}

/// What a host that can be called says about a place of a region.
fn is_told<H: Host>(host: &H, ask: Ask, n: Addr) -> bool
    ensures { result ≡ is_told H.place ask (graph_of (H.objects host.now) (H.marked host.now)) n }
{
    match ask {
        Ask::Live => host.is_holder_marked(n),
        _ => host.is_marked(n),
    }
}

/// The same for a host with ephemerons: `MarkValue` marks the value of one. `runs_make_the_pass` requires of its `value` that clearing a word gives no
/// ephemeron another one (`KeepsValues`).
pub fn respond_with_values<H: Values>(host: &mut H, ask: Ask, subject: Addr) -> bool
    requires { MayAsk ask subject (graph_of (H.objects host.old) (H.marked host.old)) }
    ensures honest { Answers H.is_exact H.place H.value ask subject (graph_of (H.objects host.old) (H.marked host.old)) result (graph_of (H.objects host.new) (H.marked host.new)) }
    ensures same { H.is_same host.old host.new }
{
    match ask {
        Ask::MarkValue => host.mark_value(subject),
        _ => respond(host, ask, subject),
    }
}

/// Asks a host that can be called `Marks` or `Live` about a region, which is named by its first address. The word is true of each of its places.
/// The last of them has to have an address.
pub fn respond_marks<H: Host>(host: &H, ask: Ask, region: Addr) -> u64
    requires { region + 1_008 < 2 ^ 64 }
    ensures honest { IsTrueWord H.place ask (graph_of (H.objects host.now) (H.marked host.now)) region result }
{
    let mut word = 0;
    for place in 0..PLACES {
        if is_told(host, ask, address_of(region, place)) {
            word |= bit(place);
        }
    }
    word
}
