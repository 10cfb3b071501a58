//! Held text: a prepared text behind a pointer that C keeps.
ghost use Rattle.std.specs.Prelude.{◌≡◌, ℕ, List, Option, Some, None, is_some, true};
ghost use Rattle.std.specs.Borrow.{Bor};
ghost use Rattle.zorfelith_c.specs.HeldText.{held, text_coded};

use searcher::{KeptText, Parts};
use std::alloc::Global;
use std::marker::Model;
use std::ptr::null_mut;

/// A prepared text, or none. C keeps it, and writes it only to make an empty one, whose bytes are 0.
#[repr(C)]
#[derive(Drop)]
pub struct HeldText {
    at: *mut u8,
    alloc: Global,
    pub ghost value: { Option (List (Bor (List ℕ))) } by { text_coded },
}

impl Model for HeldText {
    ghost also_owns = { λ h. held h.alloc h.at h.value };
}

impl HeldText {
    pub(crate) fn none(alloc: Global) -> HeldText
        ensures { result.value ≡ None }
    {
        HeldText {
            at: null_mut(),
            alloc,
        }
    }

    pub(crate) fn of_parts(parts: Parts<KeptText, Global>) -> HeldText
        ensures { result.value ≡ Some parts.value }
    {
        let Parts { ptr, alloc } = parts;
        HeldText {
            at: ptr as *mut u8,
            alloc,
        }
    }

    pub(crate) fn into_parts(self) -> Parts<KeptText, Global>
        requires { is_some self.value ≡ true }
        ensures { self.value ≡ Some result.value }
    {
        let HeldText { at, alloc } = self;
        Parts {
            ptr: at as *mut KeptText,
            alloc,
        }
    }
}
