//! Streams and slices: searches that a searcher keeps between calls, of a text that comes in by
//! chunks, and of one that is searched slice by slice.

use super::Searcher;
use crate::shared::SharedFinder;
use std::alloc::{AllocError, Global};
use stream_search::{StepperOf, StreamSearcherOf};

/// A search of a stream that owns all that it needs.
pub type OwnedStream = StreamSearcherOf<SharedFinder>;

/// A search in slices that owns all that it needs.
pub type OwnedStepper = StepperOf<SharedFinder>;

impl Searcher {
    ghost use Rattle.std.specs.Prelude.{◌≡◌, IfOk, None};

    /// Returns a finder of the regex, with a cache of its own. An `Err` means out of memory.
    pub fn finder(&self, alloc: Global) -> Result<SharedFinder, AllocError>
        ensures { IfOk result (λ f. f ≡ self.now.regex) }
    {
        SharedFinder::new(alloc, &self.regex)
    }

    /// Keeps this search of a stream, or none. The one that it kept is freed.
    pub fn keep_stream(&mut self, stream: Option<OwnedStream>)
        ensures { self.new ≡ record self.old { stream = stream } }
    {
        self.stream = stream;
    }

    /// Returns the search of a stream that it kept, and keeps none.
    pub fn take_stream(&mut self) -> Option<OwnedStream>
        ensures taken { result ≡ self.old.stream }
        ensures left { self.new ≡ record self.old { stream = None } }
    {
        self.stream.take()
    }

    /// Keeps this search in slices, or none. The one that it kept is freed.
    pub fn keep_stepper(&mut self, stepper: Option<OwnedStepper>)
        ensures { self.new ≡ record self.old { stepper = stepper } }
    {
        self.stepper = stepper;
    }

    /// Returns the search in slices that it kept, and keeps none.
    pub fn take_stepper(&mut self) -> Option<OwnedStepper>
        ensures taken { result ≡ self.old.stepper }
        ensures left { self.new ≡ record self.old { stepper = None } }
    {
        self.stepper.take()
    }
}
