//! The fields of a line, one reader for each type.

ghost use Rattle.std.specs.Prelude.{◌≡◌, ◌<◌, ◌+◌, length, get_or, List, ℕ, Option, IfSome, None};
ghost use Rattle.std.specs.Int.{IsInRange};
ghost use Rattle.fz_script.specs.Reading.{words_left, with_rest, number, number_at, byte, byte_at, optional_at, slot_at, place_at, obj_kind_at, reg_kind_at, link_kind_at, two_at, three_at};

use crate::words::Words;
use fz_model::{LinkKind, ObjKind, Place, RegKind, Slot};

/// A field of a line, which consists of one or more words.
pub(crate) trait Field: Sized {
    ghost reads: { List (List ℕ) → Option (Self × List (List ℕ)) };

    /// Reads the field from the next words. Words are consumed even if they aren't this field.
    fn read(words: &mut Words<'_>) -> Option<Self>
        ensures { reads (words_left words.old) ≡ with_rest result (words_left words.new) };
}

impl Field for u64 {
    ghost reads = { number_at };

    fn read(words: &mut Words<'_>) -> Option<u64> {
        number_of(words.next()?)
    }
}

impl Field for u8 {
    ghost reads = { byte_at };

    fn read(words: &mut Words<'_>) -> Option<u8> {
        byte_of(words.next()?)
    }
}

impl Field for Slot {
    ghost reads = { slot_at };

    fn read(words: &mut Words<'_>) -> Option<Slot> {
        let (frame, slot) = words.read()?;
        Some(Slot { frame, slot })
    }
}

impl Field for Place {
    ghost reads = { place_at };

    fn read(words: &mut Words<'_>) -> Option<Place> {
        let (slot, offset) = words.read()?;
        Some(Place { slot, offset })
    }
}

/// An optional field at the end of a line.
impl<T: Field> Field for Option<T> {
    ghost reads = { optional_at T.reads };

    fn read(words: &mut Words<'_>) -> Option<Option<T>> {
        if words.is_empty() {
            return Some(None);
        }
        Some(Some(T::read(words)?))
    }
}

impl Field for ObjKind {
    ghost reads = { obj_kind_at };

    fn read(words: &mut Words<'_>) -> Option<ObjKind> {
        match words.next()? {
            b"scanned" => Some(ObjKind::Scanned),
            b"atomic" => Some(ObjKind::Atomic),
            _ => None,
        }
    }
}

impl Field for RegKind {
    ghost reads = { reg_kind_at };

    fn read(words: &mut Words<'_>) -> Option<RegKind> {
        match words.next()? {
            b"normal" => Some(RegKind::Normal),
            b"ignore_self" => Some(RegKind::IgnoreSelf),
            b"no_order" => Some(RegKind::NoOrder),
            _ => None,
        }
    }
}

impl Field for LinkKind {
    ghost reads = { link_kind_at };

    fn read(words: &mut Words<'_>) -> Option<LinkKind> {
        match words.next()? {
            b"short" => Some(LinkKind::Short),
            b"long" => Some(LinkKind::Long),
            _ => None,
        }
    }
}

impl<A: Field + Drop, B: Field> Field for (A, B) {
    ghost reads = { two_at A.reads B.reads };

    fn read(words: &mut Words<'_>) -> Option<(A, B)> {
        Some((A::read(words)?, B::read(words)?))
    }
}

impl<A: Field + Drop, B: Field + Drop, C: Field> Field for (A, B, C) {
    ghost reads = { three_at A.reads B.reads C.reads };

    fn read(words: &mut Words<'_>) -> Option<(A, B, C)> {
        Some((A::read(words)?, B::read(words)?, C::read(words)?))
    }
}

/// The number that the word spells in decimal, without leading zeros. `None` if it isn't one, or if it doesn't fit a `u64`.
#[tactic(auto, using(crate::proofs::Numbers::empty, crate::proofs::Numbers::zero_leads))]
fn number_of(word: &[u8]) -> Option<u64>
    ensures { number word.now ≡ result }
{
    match word {
        [] | [b'0', _, ..] => None,
        _ => value_of(word),
    }
}

/// The same for a number that fits a `u8`.
fn byte_of(word: &[u8]) -> Option<u8>
    ensures { byte word.now ≡ result }
{
    u8::try_from(number_of(word)?).ok()
}

/// The value of decimal digits.
fn value_of(digits: &[u8]) -> Option<u64>
    requires some { 0 < length digits.now }
    requires plain { get_or digits.now 0 0 ≡ 48 → length digits.now ≡ 1 }
    ensures { number digits.now ≡ result }
{
    let mut value: u64 = 0;
    for byte in digits {
        value = value.checked_mul(10)?.checked_add(digit_of(*byte)?)?;
    }
    Some(value)
}

/// The value of a decimal digit.
fn digit_of(byte: u8) -> Option<u64>
    ensures is { IfSome result (λ digit. IsInRange 48 57 byte × (digit + 48 ≡ byte)) }
    ensures none { result ≡ None → IsInRange 48 57 byte → ⊥ }
{
    match byte {
        b'0'..=b'9' => Some(u64::from(byte - b'0')),
        _ => None,
    }
}
