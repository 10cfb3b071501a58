//! Prefilters: DFA searches that go from literal to literal, if each match begins with one or
//! contains one. Positions are in bytes of the whole content.
ghost use Rattle.std.specs.Prelude.{◌≡◌, ◌≤◌, true, false, ℕ, List, IfOk, IfSome};
ghost use Rattle.rc_text.specs.Bounds.{IsWithinBounds};
ghost use Rattle.rc_text.specs.Text.{Keeps, low, high};
ghost use Rattle.rc_pattern.specs.Re.{Re};
ghost use Rattle.rc_program.specs.Kinds.{IsAnswerBy};
ghost use Rattle.rc_program.specs.Program.{program};
ghost use Rattle.rc_needles.specs.Needles.{longest};
ghost use Rattle.rc_literals.specs.Guard.{IsGuard, guard_needles};
ghost use Rattle.rc_dfa_reach.specs.RunReach.{seen_to};
ghost use Rattle.rc_dfa_search.specs.Aims.{AreBounds, AreHalvesOf, search_for};
ghost use Rattle.rc_dfa_search.specs.Halves.{IsForwardHalf};
ghost use Rattle.rc_dfa_search.specs.Legs.{GoesByNeedles};
ghost use Rattle.rc_dfa_search.specs.Reaches.{IsAnswerBelow, TellsReach};

use crate::needles::{Ending, Left, goes_by_needles, seek_by_needles, settle_by_needles};
use crate::reach::{Settled, find_settled, settle_here};
use crate::search::{Aim, Bounds, find_between, find_end_between, id_of};
use rc_dfa::halves::Halves;
use rc_literals::guard::{Guard, next_start};
use rc_text::cursor::Cursor;
use rc_text::input::{Input, content_fits};
use rc_text::types::{HalfMatch, Match, MatchError};

/// Returns some match, from needle to needle.
pub(crate) fn find_early<H: Halves, C: Cursor>(
    halves: &H,
    cache: &mut H::Cache,
    input: &mut Input<C>,
    aim: Aim,
    guard: Guard,
    bounds: Bounds,
) -> Result<Option<Match>, MatchError>
    requires cache { H.IsCache halves.now cache.old }
    requires bounds { AreBounds input.old bounds }
    requires early { aim.earliest ≡ true }
    requires goes { GoesByNeedles (record aim { earliest = false }) input.old.anchored }
    ensures cache { H.IsCache halves.now cache.new }
    ensures keeps { Keeps input.old input.new }
    ensures found { (hs : List Re) (terminator : ℕ)
        → AreHalvesOf (H.AreOf halves.now) aim hs terminator
        → IsGuard (program hs) terminator guard.entry
        → IfOk result (IsAnswerBy aim.kind aim.earliest (search_for aim hs terminator input.old)) }
    ensures within { IfOk result (λ found. IfSome found (IsWithinBounds input.old)) }
{
    let left = Left {
        at: bounds.low,
        reach: bounds.low,
        bounds,
    };
    match seek_by_needles(halves, cache, input, guard, usize::MAX, left, true)? {
        Ending::Ends { from, .. } => {
            let later = Bounds {
                low: from,
                high: bounds.high,
            };
            find_between(halves, cache, input, aim, later)
        }
        Ending::Stuck => find_between(halves, cache, input, aim, bounds),
        Ending::Nowhere => Ok(None),
    }
}

/// Returns the end of the match that `find` returns, and its pattern, by needles that guard the
/// patterns: each match begins with one of them, or contains one. With `MatchKind::All`, that is the
/// number of some pattern with a match that ends there. It only searches forwards. The search goes
/// from needle to needle while nothing is under way, if it isn't anchored, is leftmost, has the
/// earliest flag off, and passes no match over. Every other search is that of `find_end`.
pub fn find_end_guarded<H: Halves, C: Cursor>(
    halves: &H,
    cache: &mut H::Cache,
    input: &mut Input<C>,
    aim: Aim,
    guard: Guard,
    bounds: Bounds,
) -> Result<Option<HalfMatch>, MatchError>
    requires cache { H.IsCache halves.now cache.old }
    requires bounds { AreBounds input.old bounds }
    ensures cache { H.IsCache halves.now cache.new }
    ensures keeps { Keeps input.old input.new }
    ensures found { (hs : List Re) (terminator : ℕ)
        → AreHalvesOf (H.AreOf halves.now) aim hs terminator
        → IsGuard (program hs) terminator guard.entry
        → IfOk result (IsForwardHalf aim.kind aim.earliest
        (search_for aim hs terminator input.old)) }
    ensures within { IfOk result (λ found. IfSome found
        (λ half. (low input.old ≤ half.offset) × (half.offset ≤ high input.old))) }
{
    if !goes_by_needles(aim, input.get_anchored()) {
        return find_end_between(halves, cache, input, aim, bounds);
    }
    let left = Left {
        at: bounds.low,
        reach: bounds.low,
        bounds,
    };
    match seek_by_needles(halves, cache, input, guard, usize::MAX, left, false)? {
        Ending::Ends { met, .. } => {
            let end = met.at.max(bounds.low).min(bounds.high);
            let pattern = id_of(met.pattern, end)?;
            Ok(Some(HalfMatch::new(pattern, end)))
        }
        Ending::Stuck => find_end_between(halves, cache, input, aim, bounds),
        Ending::Nowhere => Ok(None),
    }
}

/// Returns the match that `find` returns, and how many bytes settle it, by needles that guard the
/// patterns: each match begins with one of them, or contains one. The longest has `longest_len`
/// bytes. If each match begins with one, it first tries an anchored run at the first. If no match
/// begins there, it goes on from needle to needle.
///
/// These are the bytes at which the runs forwards looked, and those up to the needle from which the
/// last one began, with the longest needle from there on. Without a match the end of the slice may
/// have been looked at. An `Err` says why the DFA has no answer.
#[inline(never)]
pub fn find_settled_guarded<H: Halves, C: Cursor>(
    halves: &H,
    cache: &mut H::Cache,
    input: &mut Input<C>,
    aim: Aim,
    guard: Guard,
    longest_len: usize,
    bounds: Bounds,
) -> Result<Settled, MatchError>
    requires cache { H.IsCache halves.now cache.old }
    requires bounds { AreBounds input.old bounds }
    requires tells { TellsReach aim }
    requires longest { longest_len ≡ longest (guard_needles guard) }
    ensures cache { H.IsCache halves.now cache.new }
    ensures keeps { Keeps input.old input.new }
    ensures settled { (hs : List Re) (terminator : ℕ)
        (of : AreHalvesOf (H.AreOf halves.now) aim hs terminator)
        → IsGuard (program hs) terminator guard.entry
        → IfOk result (λ o. IsAnswerBelow aim.kind (search_for aim hs terminator input.old)
        (seen_to of.ahead.alphabet o.reach) o.found) }
    ensures within { IfOk result (λ o. IfSome o.found (IsWithinBounds input.old)) }
{
    content_fits(input);
    if input.get_anchored().is_anchored() {
        return find_settled(halves, cache, input, aim, bounds);
    }
    if let Guard::Holds(_) = guard {
        let left = Left {
            at: bounds.low,
            reach: bounds.low,
            bounds,
        };
        return settle_by_needles(halves, cache, input, aim, guard, longest_len, left);
    }
    let Some(start) = next_start(input, guard, bounds.low, bounds.high) else {
        return Ok(Settled {
            found: None,
            reach: usize::MAX,
        });
    };
    let at = start.from;
    let reach = start.needle.saturating_add(longest_len);
    let here = settle_here(halves, cache, input, at, bounds.high)?;
    if here.found.is_some() {
        return Ok(Settled {
            found: here.found,
            reach: reach.max(here.reach),
        });
    }
    let left = Left { at, reach, bounds };
    settle_by_needles(halves, cache, input, aim, guard, longest_len, left)
}
