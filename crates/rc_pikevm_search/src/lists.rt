//! Lists of matches: a match that gives way to a later one.
ghost use Rattle.std.specs.Prelude.{◌≡◌, ◌+◌, ◌≤◌, false, true};
ghost use Rattle.rc_text.specs.Text.{high};
ghost use Rattle.rc_program.specs.Matches.{begin_of, end_of, is_again};
ghost use Rattle.rc_pikevm_search.specs.Moved.{IsMoved};

use rc_program::matches::is_again;
use rc_text::cursor::Cursor;
use rc_text::input::{Input, advance_start};
use rc_text::types::Match;

/// Whether the match that a search found gives way in a list whose last match ended at `last`: it
/// is empty, and ends there too. The span then starts a byte later, and the next match is the one
/// that a search finds from there.
#[inline]
pub fn gives_way<C: Cursor>(input: &mut Input<C>, last: Option<usize>, found: Match) -> bool
    requires { input.old.span.start ≤ high input.old }
    ensures again { result ≡ is_again begin_of end_of last found }
    ensures moves { IsMoved input.old input.new }
    ensures later { result ≡ true → input.new.span.start ≡ input.old.span.start + 1 }
    ensures stays { result ≡ false → input.new ≡ input.old }
{
    let is_again = is_again(last, found);
    if is_again {
        advance_start(input);
    }
    is_again
}
