//! Idle positions: how far a DFA tells that no match begins, whatever follows. Positions are in
//! bytes of the whole content.
ghost use Rattle.std.specs.Prelude.{◌≡◌, ◌≤◌, ℕ, List, IfOk};
ghost use Rattle.rc_text.specs.Text.{Keeps, low, high};
ghost use Rattle.rc_pattern.specs.Re.{Re};
ghost use Rattle.rc_dfa_reach.specs.RunReach.{seen_to};
ghost use Rattle.rc_dfa_search.specs.Aims.{AreBounds, AreHalvesOf, search_for};
ghost use Rattle.rc_dfa_search.specs.Legs.{GoesByNeedles};
ghost use Rattle.rc_dfa_search.specs.Reaches.{NoneBeginBelow};
ghost use Rattle.rc_text.specs.declared.types.MatchKind.TheVariants.{LeftmostFirst};

use crate::needles::{Leg, read_leg};
use crate::search::{Aim, Bounds};
use rc_dfa::halves::Halves;
use rc_text::cursor::Cursor;
use rc_text::input::{Input, content_fits};
use rc_text::types::MatchError;

/// Returns a position at which nothing is under way: no match begins before it, in this content and
/// in each other one that has the same bytes up to the bound, or if symbols are read, up to three
/// bytes after it. It is where the search begins, or a later position at which a run forwards
/// rests.
///
/// If no run rests after where the search begins, one run tells so. Else the runs look for the
/// position in the later half of what is left, and come closer to the end each time. If none rests
/// there, they look in more of it. So where no long match is under way, they read the content about
/// once. An `Err` says why the DFA has no answer.
pub fn last_idle<H: Halves, C: Cursor>(
    halves: &H,
    cache: &mut H::Cache,
    input: &mut Input<C>,
    aim: Aim,
    bounds: Bounds,
) -> Result<usize, MatchError>
    requires cache { H.IsCache halves.now cache.old }
    requires bounds { AreBounds input.old bounds }
    requires goes { GoesByNeedles aim input.old.anchored }
    requires preferred { aim.kind ≡ LeftmostFirst }
    ensures cache { H.IsCache halves.now cache.new }
    ensures keeps { Keeps input.old input.new }
    ensures idle { (hs : List Re) (terminator : ℕ)
        (of : AreHalvesOf (H.AreOf halves.now) aim hs terminator)
        → IfOk result (NoneBeginBelow (search_for aim hs terminator input.old)
        (seen_to of.ahead.alphabet (high input.old))) }
    ensures within { IfOk result (λ k. (low input.old ≤ k) × (k ≤ high input.old)) }
{
    content_fits(input);
    let bound = bounds.high;
    let first = read_leg(halves, cache, input, bounds, false, bounds.low)?;
    let Leg::Rested(next) = first.leg else {
        return Ok(bounds.low);
    };
    let mut at = next;
    let mut stride = (bound - at + 1) / 2;
    'runs: loop {
        let rest_from = at.saturating_add(stride.saturating_sub(1));
        let left = Bounds {
            low: at,
            high: bound,
        };
        let came = read_leg(halves, cache, input, left, false, rest_from)?;
        match came.leg {
            Leg::Rested(i) if at < i => {
                stride = stride.min((bound - i + 1) / 2);
                at = i;
            }
            _ => {
                if stride <= 1 {
                    return Ok(at);
                }
                stride = (stride / 8).max(1);
            }
        }
    }
}
