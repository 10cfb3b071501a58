//! Which matches a list passes over.
ghost use Rattle.std.specs.Prelude.{◌≡◌};
ghost use Rattle.rc_program.specs.Matches.{begin_of, end_of, is_again};

use rc_text::types::Match;

/// Whether the match is empty and ends where the last one did. An iteration then takes the match
/// from a byte later instead.
#[inline]
pub fn is_again(last: Option<usize>, found: Match) -> bool
    ensures { result ≡ is_again begin_of end_of last found }
{
    match last {
        Some(last) => found.is_empty() && found.end() == last,
        None => false,
    }
}
