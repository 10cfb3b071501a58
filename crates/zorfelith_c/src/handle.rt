//! Handle: the part of a searcher that C keeps.
ghost use Rattle.std.specs.Prelude.{◌≡◌, Option, Some, None, true, false, is_some};

use crate::held::Held;
use searcher::{Searcher, box_of, parts_of};
use std::alloc::Global;
use std::mem::replace;

/// A searcher, or none. C makes an empty handle of bytes that are 0, and writes nothing to a full
/// one.
///
/// Dropping a full handle doesn't free the searcher, so each call takes it out first.
#[repr(C)]
#[derive(Drop)]
pub struct Handle {
    full: bool,
    pub(crate) held: Held,
    ghost tied: { full ≡ is_some held.value },
}

impl Handle {
    pub(crate) fn empty(alloc: Global) -> Handle
        ensures { result.held.value ≡ None }
    {
        Handle {
            full: false,
            held: Held::none(alloc),
        }
    }

    pub(crate) fn of(searcher: Box<Searcher>) -> Handle
        ensures { result.held.value ≡ Some searcher.value }
    {
        Handle {
            full: true,
            held: Held::of_parts(parts_of(searcher)),
        }
    }

    /// Whether it holds a searcher.
    pub(crate) fn is_full(&self) -> bool
        ensures full { result ≡ true → is_some self.now.held.value ≡ true }
        ensures empty { result ≡ false → self.now.held.value ≡ None }
    {
        self.full
    }

    /// Leaves it empty.
    pub(crate) fn take(&mut self, alloc: Global) -> Box<Searcher>
        requires { is_some self.old.held.value ≡ true }
        ensures left { self.new.held.value ≡ None }
        ensures taken { self.old.held.value ≡ Some result.value }
    {
        let Handle { held, .. } = replace(self, Handle::empty(alloc));
        box_of(held.into_parts())
    }
}
