//! Windows: searches of a text of which a part is at hand.

use super::{Searcher, input_over};
use crate::answers::{Fault, Window, WindowAnswer};
use crate::batch;
use api_meta::partial::Partial;
use stream_search::moved;

/// How many bytes before a position an assertion looks at, at most.
const LOOKS_BEHIND: usize = 4;

/// How many bytes from the end of a range on settle its search.
const LOOKS_AHEAD: usize = 5;

impl Searcher {
    ghost use Rattle.std.specs.Prelude.{◌≡◌, IfErr, IfOk};
    ghost use Rattle.rc_text.specs.Joined.{joined};
    ghost use Rattle.searcher.specs.Windows.{IsTold, IsWindowFault};

    /// Returns what the window, whose bytes are the chunks, tells of a search in the whole text from
    /// `from` to `end`, or to the end of the text if that comes first.
    ///
    /// `Final` is the match that `find` has in each text of which the window is a part, and
    /// `NoMatch` says that it has none. `MoreAfter` says that the window doesn't tell, and gives a
    /// place from which the search may go on; it needs the four bytes before that place, and bytes
    /// after the window. It never comes if the window is the last, or goes on for five bytes after
    /// `end`. `MoreBefore` says that the window lacks some of the four bytes before `from`.
    ///
    /// It fails with `Outside` if `from` is behind `end`, or behind the end of the last window, and
    /// otherwise with `TooLong` if the window ends at the greatest `usize` or behind.
    pub fn find_in_window(
        &mut self,
        chunks: &[&[u8]],
        window: Window,
        from: usize,
        end: usize,
    ) -> Result<WindowAnswer, Fault>
        ensures told { IfOk result (IsTold self.old.regex window (joined chunks.now) from end) }
        ensures fault { IfErr result (IsWindowFault window (joined chunks.now) from end) }
        ensures kept { self.new ≡ self.old }
    {
        let Window { start, is_last } = window;
        if from > end {
            return Err(Fault::Outside);
        }
        if from.saturating_sub(LOOKS_BEHIND) < start {
            return Ok(WindowAnswer::MoreBefore);
        }
        let mut input = match input_over(chunks, from - start, end - start) {
            Ok(input) => input,
            Err(Fault::Outside) if !is_last => return Ok(WindowAnswer::MoreAfter(from)),
            Err(fault) => return Err(fault),
        };
        let len = input.content_len().unwrap();
        if start >= usize::MAX - len {
            return Err(Fault::TooLong);
        }
        if is_last || len.saturating_sub(end - start) >= LOOKS_AHEAD {
            return match batch::search(&self.regex, &mut self.cache, &mut input) {
                Some(found) => Ok(WindowAnswer::Final(moved(found, start))),
                None => Ok(WindowAnswer::NoMatch),
            };
        }
        match self.regex.search_partial_with(&mut self.cache, &mut input) {
            Partial::Final(found) => Ok(WindowAnswer::Final(moved(found, start))),
            Partial::From(place) => Ok(WindowAnswer::MoreAfter(place + start)),
        }
    }
}
