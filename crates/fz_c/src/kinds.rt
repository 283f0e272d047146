//! The kinds of links and of finalizers, by their numbers in C.

ghost use Rattle.std.specs.Prelude.{◌≡◌};
ghost use Rattle.fz_c.specs.Values.{link_kind_of, reg_kind_of};

use fz_model::{LinkKind, RegKind};

pub(crate) fn kind_for(is_long: bool) -> LinkKind
    ensures { result ≡ link_kind_of is_long }
{
    if is_long {
        LinkKind::Long
    } else {
        LinkKind::Short
    }
}

pub(crate) fn reg_kind_for(number: u8) -> RegKind
    ensures { result ≡ reg_kind_of number }
{
    match number {
        0 => RegKind::Normal,
        1 => RegKind::IgnoreSelf,
        _ => RegKind::NoOrder,
    }
}
