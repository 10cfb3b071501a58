//! Kept input: what a searcher asks of its input.
ghost use Rattle.std.specs.Prelude.{◌≡◌, ◌+◌, ◌<◌, ◌≤◌, ◌^◌, length};
ghost use Rattle.rc_text.specs.Text.{Keeps, Searched};
ghost use Rattle.rc_iter.specs.Finders.{with_start};

use rc_text::cursor::Cursor;
use rc_text::input::Input;

/// An input that a searcher can keep. Only `Input` implements it.
///
/// The bounds of finders use it in place of `Input<C>`.
pub trait KeptInput {
    /// The input as contracts see it.
    ghost searched: { Self → Searched };

    /// Where the span begins.
    fn span_start(&self) -> usize
        ensures value { result ≡ (searched self.now).span.start }
        ensures small { length (searched self.now).content + 1 < 2 ^ 64 };

    /// Sets where the span begins, at most one above its end.
    fn restart(&mut self, start: usize)
        requires { start ≤ (searched self.old).span.end + 1 }
        ensures { Keeps (with_start (searched self.old) start) (searched self.new) };
}

impl<C: Cursor> KeptInput for Input<C> {
    ghost searched = { λ s. s };

    fn span_start(&self) -> usize {
        let _offset = self.chunk_offset(); // it tells that the content is short
        self.start()
    }

    fn restart(&mut self, start: usize) {
        self.set_start(start);
    }
}
