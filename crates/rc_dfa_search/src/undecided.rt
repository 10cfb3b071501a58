//! Idle positions, from literal to literal: how far a search tells that no match begins, whatever
//! follows. Positions are in bytes of the whole content.
ghost use Rattle.std.specs.Prelude.{◌≡◌, ◌+◌, ◌<◌, ◌≤◌, ℕ, List, IfOk};
ghost use Rattle.rc_text.specs.Text.{Keeps, low, high};
ghost use Rattle.rc_text.specs.declared.types.MatchKind.TheVariants.{LeftmostFirst};
ghost use Rattle.rc_pattern.specs.Re.{Re};
ghost use Rattle.rc_program.specs.Program.{program};
ghost use Rattle.rc_needles.specs.Guards.{Guards};
ghost use Rattle.rc_needles.specs.Needles.{NoneAt, longest};
ghost use Rattle.rc_needles.specs.Prefilters.{needles_of};
ghost use Rattle.rc_dfa.specs.Machine.{bytes};
ghost use Rattle.rc_dfa_reach.specs.RunReach.{seen_to};
ghost use Rattle.rc_dfa_search.specs.Aims.{AreBounds, AreHalvesOf, search_for};
ghost use Rattle.rc_dfa_search.specs.Legs.{GoesByNeedles};
ghost use Rattle.rc_dfa_search.specs.Reaches.{IsAnswerBelow, NoneBeginBelow};

use crate::needles::{Left, Leg, read_leg, read_on, settle_by_needles};
use crate::reach::{Settled, settle_here};
use crate::search::{Aim, Bounds};
use rc_dfa::halves::Halves;
use rc_literals::guard::{Guard, next_start};
use rc_needles::prefilter::Prefilter;
use rc_text::cursor::Cursor;
use rc_text::input::{Input, content_fits};
use rc_text::types::MatchError;

/// Where the next match may begin, whatever follows the bounds.
#[derive(Clone, Copy)]
struct Next {
    at: usize,
    /// Whether a needle occurs there. If not, what follows may complete one.
    is_needle: bool,
}

/// Returns where the next needle begins, or else the first position from which the longest needle
/// would pass the upper bound.
fn next_needle<C: Cursor>(
    input: &mut Input<C>,
    needles: &Prefilter,
    longest_len: usize,
    at: usize,
    bound: usize,
) -> Next
    requires end { bound ≡ high input.old }
    requires ordered { at ≤ bound }
    ensures keeps { Keeps input.old input.new }
    ensures within { (at ≤ result.at) × (result.at ≤ bound) }
    ensures none { (i : ℕ) → at ≤ i → i < result.at
        → NoneAt (needles_of needles.now) input.old.content bound i }
    ensures near { at < result.at → result.at + longest_len ≤ bound + 1 }
{
    content_fits(input);
    let open = (bound + 1).saturating_sub(longest_len).min(bound).max(at);
    let Some(start) = next_start(input, Guard::Begins(needles), at, bound) else {
        return Next {
            at: open,
            is_needle: false,
        };
    };
    Next {
        at: start.needle.min(open),
        is_needle: start.needle < open,
    }
}

/// Returns a position as `last_idle` does, if each match begins with a needle and none before `at`.
/// A run begins at the next needle. Where it rests, the needle after that position is next. So it
/// reads what a search reads that finds nothing. No needle is longer than `longest_len`.
fn last_idle_by_needles<H: Halves, C: Cursor>(
    halves: &H,
    cache: &mut H::Cache,
    input: &mut Input<C>,
    needles: &Prefilter,
    longest_len: usize,
    at: usize,
    bound: usize,
) -> Result<usize, MatchError>
    requires cache { H.IsCache halves.now cache.old }
    requires above { low input.old ≤ at }
    requires ordered { at ≤ bound }
    requires bound { bound ≡ high input.old }
    requires longest { longest_len ≡ longest (needles_of needles.now) }
    ensures cache { H.IsCache halves.now cache.new }
    ensures keeps { Keeps input.old input.new }
    ensures idle { (aim : Aim) (hs : List Re) (terminator : ℕ)
        (of : AreHalvesOf (H.AreOf halves.now) aim hs terminator)
        → GoesByNeedles aim input.old.anchored → aim.kind ≡ LeftmostFirst
        → Guards (program hs) terminator (needles_of needles.now)
        → NoneBeginBelow (search_for aim hs terminator input.old)
        (seen_to of.ahead.alphabet (high input.old)) at
        → IfOk result (NoneBeginBelow (search_for aim hs terminator input.old)
        (seen_to of.ahead.alphabet (high input.old))) }
    ensures within { IfOk result (λ k. (at ≤ k) × (k ≤ high input.old)) }
{
    let mut at = at;
    let mut behind: usize = 0;
    'needles: loop {
        let next = next_needle(input, needles, longest_len, at, bound);
        let from = next.at;
        if !next.is_needle {
            return Ok(from);
        }
        behind = read_on(behind, from - at);
        let rest_from = from + behind.min((bound - from) / 2);
        let left = Bounds {
            low: from,
            high: bound,
        };
        let came = read_leg(halves, cache, input, left, false, rest_from)?;
        match came.leg {
            Leg::Rested(i) if from < i => at = i,
            _ => return Ok(from),
        }
    }
}

/// What a search tells, if more bytes may follow its bounds.
#[derive(Clone, Copy)]
pub struct Told {
    /// The match, and how many bytes settle it.
    pub settled: Settled,
    /// No match begins before this position, whatever follows.
    pub from: usize,
}

/// Returns the match, if each match begins with a needle, and a position before which none begins,
/// whatever follows. It first tries an anchored run at the first needle. If no match begins there,
/// it goes from needle to needle to the last position at which nothing is under way, and searches
/// from there on. So what lies behind the last match is sought through once. No needle is longer
/// than `longest_len`. An `Err` says why the DFA has no answer.
pub fn tell_by_needles<H: Halves, C: Cursor>(
    halves: &H,
    cache: &mut H::Cache,
    input: &mut Input<C>,
    aim: Aim,
    needles: &Prefilter,
    longest_len: usize,
    bounds: Bounds,
) -> Result<Told, MatchError>
    requires cache { H.IsCache halves.now cache.old }
    requires bounds { AreBounds input.old bounds }
    requires goes { GoesByNeedles aim input.old.anchored }
    requires preferred { aim.kind ≡ LeftmostFirst }
    requires longest { longest_len ≡ longest (needles_of needles.now) }
    ensures cache { H.IsCache halves.now cache.new }
    ensures keeps { Keeps input.old input.new }
    ensures settled { (hs : List Re) (terminator : ℕ)
        (of : AreHalvesOf (H.AreOf halves.now) aim hs terminator)
        → Guards (program hs) terminator (needles_of needles.now)
        → of.ahead.alphabet ≡ bytes
        → IfOk result (λ o. IsAnswerBelow aim.kind (search_for aim hs terminator input.old)
        o.settled.reach o.settled.found) }
    ensures idle { (hs : List Re) (terminator : ℕ)
        (of : AreHalvesOf (H.AreOf halves.now) aim hs terminator)
        → Guards (program hs) terminator (needles_of needles.now)
        → IfOk result (λ o. NoneBeginBelow (search_for aim hs terminator input.old)
        (seen_to of.ahead.alphabet (high input.old)) o.from) }
    ensures within { IfOk result (λ o. (low input.old ≤ o.from) × (o.from ≤ high input.old)) }
{
    let high = bounds.high;
    let next = next_needle(input, needles, longest_len, bounds.low, high);
    let at = next.at;
    if next.is_needle {
        let here = settle_here(halves, cache, input, at, high)?;
        if here.found.is_some() {
            let settled = Settled {
                found: here.found,
                reach: high.max(here.reach),
            };
            return Ok(Told { settled, from: at });
        }
    }
    let from = last_idle_by_needles(halves, cache, input, needles, longest_len, at, high)?;
    let left = Left {
        at: from,
        reach: high,
        bounds,
    };
    let guard = Guard::Begins(needles);
    let settled = settle_by_needles(halves, cache, input, aim, guard, longest_len, left)?;
    Ok(Told { settled, from })
}
