//! A box as a raw pointer, which may be null.

ghost use Rattle.std.specs.Prelude.{◌≡◌, Option, Some, None, MatchOption};
ghost use Rattle.std.specs.Coded.{coded_option};
ghost use Rattle.fz_c.specs.Pointers.{maybe_owns};

use crate::handle::parts::Parts;
use std::alloc::Global;
use std::marker::Model;
use std::ptr::null_mut;

/// A box as a raw pointer. It is null if there is no box.
#[derive(Drop)]
pub struct Pointer<T> {
    pub at: *mut T,
    pub alloc: Global,
    pub ghost value: { Option T } by { coded_option T.code },
}

impl<T> Model for Pointer<T> {
    ghost also_owns = { λ p. maybe_owns T.row p.alloc p.at p.value };
}

// A pointer may be sent to another thread if its value may: `proofs/handle/pointer/Pointer/TheSendSync/Send.antt`.
unsafe impl<T: Send> Send for Pointer<T> {}

impl<T> Pointer<T> {
    /// The null pointer, which owns nothing.
    pub fn null(alloc: Global) -> Pointer<T>
        ensures { result.value ≡ None }
    {
        Pointer {
            at: null_mut(),
            alloc,
        }
    }

    /// The pointer to a box.
    pub fn of(boxed: Box<T, Global>) -> Pointer<T>
    where
        T: Drop,
        ensures { result.value ≡ Some boxed.value }
    {
        Pointer::of_parts(Parts::of(boxed))
    }

    /// The box, unless the pointer is null.
    pub fn into_box(self) -> Option<Box<T, Global>>
        ensures { MatchOption result (self.value ≡ None) (λ boxed. self.value ≡ Some boxed.value) }
    {
        match self.into_parts() {
            Some(parts) => Some(parts.into_box()),
            None => None,
        }
    }

    fn of_parts(parts: Parts<T, Global>) -> Pointer<T>
        ensures { result.value ≡ Some parts.value }
    {
        let Parts { ptr, alloc } = parts;
        Pointer { at: ptr, alloc }
    }

    fn into_parts(self) -> Option<Parts<T, Global>>
        ensures { MatchOption result (self.value ≡ None) (λ parts. self.value ≡ Some parts.value) }
    {
        let Pointer { at, alloc } = self;
        if at.is_null() {
            None
        } else {
            Some(Parts { ptr: at, alloc })
        }
    }
}
