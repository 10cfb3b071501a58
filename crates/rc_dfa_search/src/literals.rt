//! Prefilters: DFA searches by literals, whichever they are. Positions are in bytes of the whole
//! content.
ghost use Rattle.std.specs.Prelude.{ℕ, List, IfOk, IfSome};
ghost use Rattle.rc_text.specs.Bounds.{IsWithinBounds};
ghost use Rattle.rc_text.specs.Text.{Keeps};
ghost use Rattle.rc_pattern.specs.Re.{Re};
ghost use Rattle.rc_program.specs.Program.{program};
ghost use Rattle.rc_program.specs.Kinds.{IsAnswerBy};
ghost use Rattle.rc_literals.specs.Guard.{IsGuard};
ghost use Rattle.rc_dfa_search.specs.Aims.{AreBounds, AreHalvesOf, search_for};

use crate::first::find_by_first;
use crate::guarded::find_early;
use crate::needles::{Left, find_by_needles, goes_by_needles};
use crate::search::{Aim, Bounds, find_between};
use rc_dfa::halves::Halves;
use rc_literals::guard::Guard;
use rc_text::cursor::Cursor;
use rc_text::input::Input;
use rc_text::types::{Match, MatchError};

/// Returns the match that `find` returns, by needles that guard the patterns: each match begins
/// with one of them, or contains one. A leftmost search that isn't anchored and passes no match
/// over goes from needle to needle: if any match is enough, while nothing is under way; else, if
/// each match begins with a needle, after it tried the first. Every other search is that of `find`.
#[inline(always)]
pub fn find_by_guard<H: Halves, C: Cursor>(
    halves: &H,
    cache: &mut H::Cache,
    input: &mut Input<C>,
    aim: Aim,
    guard: Guard,
    bounds: Bounds,
) -> Result<Option<Match>, MatchError>
    requires cache { H.IsCache halves.now cache.old }
    requires bounds { AreBounds input.old bounds }
    ensures cache { H.IsCache halves.now cache.new }
    ensures keeps { Keeps input.old input.new }
    ensures found { (hs : List Re) (terminator : ℕ)
        → AreHalvesOf (H.AreOf halves.now) aim hs terminator
        → IsGuard (program hs) terminator guard.entry
        → IfOk result (IsAnswerBy aim.kind aim.earliest (search_for aim hs terminator input.old)) }
    ensures within { IfOk result (λ found. IfSome found (IsWithinBounds input.old)) }
{
    let late = Aim {
        earliest: false,
        ..aim
    };
    if !goes_by_needles(late, input.get_anchored()) {
        return find_between(halves, cache, input, aim, bounds);
    }
    if aim.earliest {
        return find_early(halves, cache, input, aim, guard, bounds);
    }
    if let Guard::Begins(needles) = guard {
        return find_by_first(halves, cache, input, aim, needles, bounds);
    }
    let left = Left {
        at: bounds.low,
        reach: bounds.low,
        bounds,
    };
    find_by_needles(halves, cache, input, aim, guard, left)
}
