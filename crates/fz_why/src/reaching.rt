//! The path along a trail.

ghost use Rattle.std.specs.Prelude.{◌≡◌, false, IfOk, MatchOption};
ghost use Rattle.fz_why.specs.Trail.{has, IsOrdered, IsTrailPath};

use crate::origin::Origin;
use crate::room::{NoMemory, push};
use crate::trail::Trail;
use fz_model::Addr;
use std::alloc::Global;

/// The path along the trail to an object, and how it begins. `None` if the search didn't come to the object.
pub(crate) fn path_to(
    alloc: Global,
    trail: &Trail,
    object: Addr,
) -> Result<Option<(Origin, Vec<Addr>)>, NoMemory>
    requires { IsOrdered trail.now }
    ensures path { IfOk result (λ answer. MatchOption answer (has trail.now object ≡ false) (λ p. IsTrailPath trail.now object p.0 p.1.items)) }
{
    let Some(end) = trail.place_of(object) else {
        return Ok(None);
    };
    let mut path = Vec::new(alloc);
    let mut place = end;
    'back: loop {
        let Some(here) = trail.at(place) else {
            unreachable!()
        };
        push(&mut path, here.0)?;
        match here.1 {
            Origin::After(before) => place = before,
            Origin::First(from) => {
                push(&mut path, from)?;
                path.reverse();
                return Ok(Some((here.1, path)));
            }
            Origin::Root(_) | Origin::Itself => {
                path.reverse();
                return Ok(Some((here.1, path)));
            }
        }
    }
}
