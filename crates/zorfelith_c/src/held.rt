//! Held searcher: a searcher behind a pointer that C keeps.
ghost use Rattle.std.specs.Prelude.{◌≡◌, Option, Some, None, is_some, true};
ghost use Rattle.searcher.specs.Searching.{Searching};
ghost use Rattle.zorfelith_c.specs.Held.{held, searcher_coded};

use searcher::{Parts, Searcher};
use std::alloc::Global;
use std::marker::Model;
use std::ptr::null_mut;

/// A searcher, or none. C keeps it, and writes it only to make an empty one, whose bytes are 0.
#[repr(C)]
#[derive(Drop)]
pub struct Held {
    at: *mut u8,
    alloc: Global,
    pub ghost value: { Option Searching } by { searcher_coded },
}

impl Model for Held {
    ghost also_owns = { λ h. held h.alloc h.at h.value };
}

impl Held {
    pub(crate) fn none(alloc: Global) -> Held
        ensures { result.value ≡ None }
    {
        Held {
            at: null_mut(),
            alloc,
        }
    }

    pub(crate) fn of_parts(parts: Parts<Searcher, Global>) -> Held
        ensures { result.value ≡ Some parts.value }
    {
        let Parts { ptr, alloc } = parts;
        Held {
            at: ptr as *mut u8,
            alloc,
        }
    }

    pub(crate) fn into_parts(self) -> Parts<Searcher, Global>
        requires { is_some self.value ≡ true }
        ensures { self.value ≡ Some result.value }
    {
        let Held { at, alloc } = self;
        Parts {
            ptr: at as *mut Searcher,
            alloc,
        }
    }
}
