//! Windows: searches of a text of which C has a part at hand.
ghost use Rattle.std.specs.Prelude.{◌≡◌, ◌≢◌, MatchOption};
ghost use Rattle.rc_text.specs.Joined.{joined};
ghost use Rattle.zorfelith_c.specs.Statuses.{empty, more_after};
ghost use Rattle.zorfelith_c.specs.Windows.{TellsWindow, window_of};

use crate::handle::Handle;
use crate::status::{DONE, EMPTY, FOUND, MORE_AFTER, MORE_BEFORE, OUTSIDE, TOO_LONG};
use searcher::{Fault, MatchAt, Window, WindowAnswer};
use std::alloc::Global;

/// A part of a text.
#[repr(C)]
#[derive(Clone, Copy)]
pub struct WindowAt {
    /// Where it begins, in bytes of the text.
    pub start: usize,
    /// Whether the text ends with it: not 0.
    pub is_last: u8,
}

impl WindowAt {
    ghost use Rattle.std.specs.Prelude.{◌≡◌};
    ghost use Rattle.zorfelith_c.specs.Windows.{window_of};

    /// Returns the window as the searcher has it.
    fn window(&self) -> Window
        ensures { result ≡ window_of self.now }
    {
        Window {
            start: self.start,
            is_last: self.is_last != 0,
        }
    }
}

/// Finds the match of the whole text from `from` to `end`, or to the end of the text if that comes
/// first, by a window whose bytes are the chunks: `FOUND`, and the match is written, or `DONE`.
///
/// If it is `MORE_AFTER`, the window doesn't tell, and `from` is raised to a place from which the
/// search may go on. If it is `MORE_BEFORE`, the window lacks some of the four bytes before `from`.
#[unsafe(no_mangle)]
pub extern "C" fn zf_window_find(
    alloc: Global,
    handle: &mut Handle,
    chunks: &[&[u8]],
    window: &WindowAt,
    from: &mut usize,
    end: usize,
    found: &mut MatchAt,
) -> u32
    ensures answered { MatchOption handle.old.held.value (result ≡ empty)
        (λ s. TellsWindow s.regex (window_of window.now) (joined chunks.now) from.old end result
        found.new from.new) }
    ensures unwritten { result ≢ 1 → found.new ≡ found.old }
    ensures unmoved { result ≢ more_after → from.new ≡ from.old }
    ensures kept { handle.new.held.value ≡ handle.old.held.value }
{
    if !handle.is_full() {
        return EMPTY;
    }
    let mut held = handle.take(alloc);
    let answer = held.find_in_window(chunks, window.window(), *from, end);
    *handle = Handle::of(held);
    match answer {
        Ok(told) => match told {
            WindowAnswer::Final(m) => {
                *found = MatchAt::of(m);
                FOUND
            }
            WindowAnswer::NoMatch => DONE,
            WindowAnswer::MoreAfter(place) => {
                *from = place;
                MORE_AFTER
            }
            WindowAnswer::MoreBefore => MORE_BEFORE,
        },
        Err(Fault::TooLong) => TOO_LONG,
        Err(Fault::Outside) => OUTSIDE,
    }
}
