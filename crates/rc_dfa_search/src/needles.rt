//! Prefilters: the loop of DFA searches from literal to literal, and the match that it comes to.
//! Positions are in bytes of the whole content.
ghost use Rattle.std.specs.Prelude.{◌≡◌, ◌↔◌, ◌<◌, ◌≤◌, ℕ, Bool, IsTrue, List, IfOk, IfSome, min};
ghost use Rattle.rc_text.specs.Bounds.{IsWithinBounds};
ghost use Rattle.rc_text.specs.Text.{Keeps, low, high};
ghost use Rattle.rc_pattern.specs.Re.{Re};
ghost use Rattle.rc_program.specs.Program.{program};
ghost use Rattle.rc_program.specs.Kinds.{answer_by};
ghost use Rattle.rc_program.specs.Sought.{text_of};
ghost use Rattle.rc_needles.specs.Needles.{longest};
ghost use Rattle.rc_literals.specs.Guard.{IsGuard, guard_needles};
ghost use Rattle.rc_dfa_reach.specs.RunReach.{seen_to};
ghost use Rattle.rc_dfa_search.specs.Aims.{AreBounds, AreHalvesOf, search_for};
ghost use Rattle.rc_dfa_search.specs.Legs.{ComesOn, GoesByNeedles, leg_of};
ghost use Rattle.rc_dfa_search.specs.Reaches.{BeginsWithin, HasRunBelow, IsAnswerBelow, IsGivenBelow, IsEnding, NoneBeginBelow};

use crate::reach::{Settled, find_settled};
use crate::search::{Aim, Bounds, id_of, run_backwards};
use rc_dfa::ended::{Ended, Met};
use rc_dfa::halves::{Halves, Run};
use rc_literals::guard::{Guard, next_start};
use rc_text::cursor::Cursor;
use rc_text::input::{Input, content_fits};
use rc_text::types::{Anchored, Match, MatchError, MatchKind, Span};

/// How far a forward run came.
#[derive(Clone, Copy)]
pub(crate) enum Leg {
    /// To its end, with what it found last, if anything.
    Ended(Option<Met>),
    /// To this position, at which it rests: nothing was found, and nothing is under way there.
    Rested(usize),
}

/// How far a forward run came, and how far it looked.
#[derive(Clone, Copy)]
pub(crate) struct ReadLeg {
    pub(crate) leg: Leg,
    /// It looked at no byte from this position on.
    pub(crate) read: usize,
}

/// What is left to be searched.
#[derive(Clone, Copy)]
pub(crate) struct Left {
    /// No match begins before this position.
    pub(crate) at: usize,
    /// How many bytes of the content tell so.
    pub(crate) reach: usize,
    /// The bounds of the search.
    pub(crate) bounds: Bounds,
}

/// What a search from needle to needle came to.
#[derive(Clone, Copy)]
pub(crate) enum Ending {
    /// There is no match.
    Nowhere,
    /// A run rested where it began, so needles don't help.
    Stuck,
    /// The run from `from` met a match, and none begins before it. Unless it was to end at the first
    /// it met, `met` is the end of the match, and `reach` how many bytes of the content tell it.
    Ends { from: usize, met: Met, reach: usize },
}

/// Whether a search goes from needle to needle. It must not be anchored, its kind must be
/// leftmost-first or leftmost-longest, the earliest flag must be off, and no match may be passed
/// over.
#[inline(always)]
pub(crate) fn goes_by_needles(aim: Aim, anchored: Anchored) -> bool
    ensures { IsTrue result ↔ GoesByNeedles aim anchored }
{
    match (aim.kind, anchored) {
        (MatchKind::LeftmostFirst | MatchKind::LeftmostLongest, Anchored::No) => {
            !aim.earliest && !aim.passes_over
        }
        _ => false,
    }
}

/// Returns how far a forward run came that began at `from`, or why it has no answer. A run rests at
/// a position from `from` to `bound`.
#[inline(always)]
fn leg_of(ended: Ended, from: usize, bound: usize) -> Result<Leg, MatchError>
    ensures { result ≡ leg_of ended from bound }
{
    match ended {
        Ended::Found(met) => Ok(Leg::Ended(met)),
        Ended::Idle(i) => Ok(Leg::Rested(i.max(from).min(bound))),
        Ended::Quit(byte, offset) => Err(MatchError::Quit { byte, offset }),
        Ended::GaveUp(offset, memory) => Err(MatchError::GaveUp { offset, memory }),
    }
}

/// Runs forwards from the lower bound, and returns how far it came and looked. The run may rest,
/// from `rest_from` on. With `earliest`, it ends at the first position at which it meets a match. An
/// `Err` says why the DFA has no answer.
#[inline(always)]
pub(crate) fn read_leg<H: Halves, C: Cursor>(
    halves: &H,
    cache: &mut H::Cache,
    input: &mut Input<C>,
    bounds: Bounds,
    earliest: bool,
    rest_from: usize,
) -> Result<ReadLeg, MatchError>
    requires cache { H.IsCache halves.now cache.old }
    requires low { low input.old ≤ bounds.low }
    requires high { bounds.high ≡ high input.old }
    requires ordered { bounds.low ≤ bounds.high }
    ensures cache { H.IsCache halves.now cache.new }
    ensures keeps { Keeps input.old input.new }
    ensures leg { (aim : Aim) (hs : List Re) (terminator : ℕ)
        (of : AreHalvesOf (H.AreOf halves.now) aim hs terminator)
        → IfOk result (λ run. HasRunBelow of.ahead (text_of terminator input.old) (high input.old)
        bounds.low earliest run.read run.leg) }
    ensures on { IfOk result (λ run. ComesOn bounds.low (high input.old) run.leg) }
{
    let run = Run {
        anchored: Anchored::No,
        low: bounds.low,
        high: bounds.high,
        earliest,
    };
    let reading = halves.run_forwards(cache, input, run, Some(rest_from));
    let leg = leg_of(reading.ended, bounds.low, bounds.high)?;
    Ok(ReadLeg {
        leg,
        read: reading.read,
    })
}

/// Needles stand close if so few bytes lie between where a run rests and the next of them.
const NEAR: usize = 16;

/// How many bytes a run reads on behind its needle, at most.
const FARTHEST: usize = 1024;

/// Returns how many bytes the next run reads on behind its needle, by how far that needle stands
/// from where the last run rested. Where needles stand close, it's twice as many each time: to read
/// a byte takes less than to begin a run.
#[inline(always)]
pub(crate) fn read_on(behind: usize, distance: usize) -> usize {
    if distance > NEAR {
        return 0;
    }
    behind.saturating_mul(2).clamp(NEAR, FARTHEST)
}

/// Goes from needle to needle. A run begins where a match with the next needle may begin. If it
/// rests further on, the needle after that position is next. Returns where a run met a match, and
/// how many bytes tell it: up to the last needle that was sought, `longest_len` from there on, and
/// what the runs looked at. No needle is longer than `longest_len`, which is `usize::MAX` if that
/// count isn't wanted. With `earliest`, runs end at the first position at which they meet a match.
#[inline(always)]
pub(crate) fn seek_by_needles<H: Halves, C: Cursor>(
    halves: &H,
    cache: &mut H::Cache,
    input: &mut Input<C>,
    guard: Guard,
    longest_len: usize,
    left: Left,
    earliest: bool,
) -> Result<Ending, MatchError>
    requires cache { H.IsCache halves.now cache.old }
    requires longest { min (longest (guard_needles guard)) usize.MAX ≤ longest_len }
    requires bounds { AreBounds input.old left.bounds }
    requires low { left.bounds.low ≤ left.at }
    requires ordered { left.at ≤ left.bounds.high }
    requires far { left.at ≤ left.reach }
    ensures cache { H.IsCache halves.now cache.new }
    ensures keeps { Keeps input.old input.new }
    ensures ending { (aim : Aim) (hs : List Re) (terminator : ℕ)
        (of : AreHalvesOf (H.AreOf halves.now) aim hs terminator)
        → IsGuard (program hs) terminator guard.entry → GoesByNeedles aim input.old.anchored
        → NoneBeginBelow (search_for aim hs terminator input.old) left.reach left.at
        → IfOk result (IsEnding aim.kind earliest of.ahead
        (search_for aim hs terminator input.old)) }
    ensures within { IfOk result (BeginsWithin (low input.old) (high input.old)) }
{
    content_fits(input);
    let high = left.bounds.high;
    let mut at = left.at;
    let mut reach = left.reach;
    let mut behind: usize = 0;
    'runs: loop {
        let Some(start) = next_start(input, guard, at, high) else {
            return Ok(Ending::Nowhere);
        };
        let from = start.from;
        behind = read_on(behind, start.needle.saturating_sub(at));
        let rest_from = start.needle.saturating_add(behind);
        let bounds = Bounds { low: from, high };
        let came = read_leg(halves, cache, input, bounds, earliest, rest_from)?;
        let sought = start.needle.saturating_add(longest_len);
        reach = reach.max(sought).max(came.read);
        match came.leg {
            Leg::Ended(ended) => {
                let Some(met) = ended else {
                    return Ok(Ending::Nowhere);
                };
                return Ok(Ending::Ends { from, met, reach });
            }
            Leg::Rested(i) => {
                if i <= from {
                    return Ok(Ending::Stuck);
                }
                at = i;
            }
        }
    }
}

/// Returns the match with this end, if these bytes tell it.
#[inline(always)]
pub(crate) fn settle_back<H: Halves, C: Cursor>(
    halves: &H,
    cache: &mut H::Cache,
    input: &mut Input<C>,
    aim: Aim,
    met: Met,
    reach: usize,
    bounds: Bounds,
) -> Result<Settled, MatchError>
    requires cache { H.IsCache halves.now cache.old }
    requires goes { GoesByNeedles aim input.old.anchored }
    requires bounds { AreBounds input.old bounds }
    ensures cache { H.IsCache halves.now cache.new }
    ensures keeps { Keeps input.old input.new }
    ensures settled { (hs : List Re) (terminator : ℕ)
        (of : AreHalvesOf (H.AreOf halves.now) aim hs terminator)
        → met.at < reach
        → IsGivenBelow aim.kind of.ahead (search_for aim hs terminator input.old)
        (seen_to of.ahead.alphabet reach) met
        → IfOk result (λ o. IsAnswerBelow aim.kind (search_for aim hs terminator input.old)
        (seen_to of.ahead.alphabet o.reach) o.found) }
    ensures within { IfOk result (λ o. IfSome o.found (IsWithinBounds input.old)) }
{
    let low = bounds.low;
    let end = met.at.max(low).min(bounds.high);
    let before = Bounds { low, high: end };
    let Some(first) = run_backwards(halves, cache, input, aim, before)? else {
        return Ok(Settled { found: None, reach });
    };
    let pattern = id_of(met.pattern, end)?;
    let start = first.at.max(low).min(end);
    let found = Some(Match::new(pattern, Span { start, end }));
    Ok(Settled { found, reach })
}

/// Returns the match, and how many bytes settle it, from needle to needle.
#[inline(never)]
pub(crate) fn settle_by_needles<H: Halves, C: Cursor>(
    halves: &H,
    cache: &mut H::Cache,
    input: &mut Input<C>,
    aim: Aim,
    guard: Guard,
    longest_len: usize,
    left: Left,
) -> Result<Settled, MatchError>
    requires cache { H.IsCache halves.now cache.old }
    requires goes { GoesByNeedles aim input.old.anchored }
    requires longest { min (longest (guard_needles guard)) usize.MAX ≤ longest_len }
    requires bounds { AreBounds input.old left.bounds }
    requires low { left.bounds.low ≤ left.at }
    requires ordered { left.at ≤ left.bounds.high }
    requires far { left.at ≤ left.reach }
    ensures cache { H.IsCache halves.now cache.new }
    ensures keeps { Keeps input.old input.new }
    ensures settled { (hs : List Re) (terminator : ℕ)
        (of : AreHalvesOf (H.AreOf halves.now) aim hs terminator)
        → IsGuard (program hs) terminator guard.entry
        → NoneBeginBelow (search_for aim hs terminator input.old) left.reach left.at
        → IfOk result (λ o. IsAnswerBelow aim.kind (search_for aim hs terminator input.old)
        (seen_to of.ahead.alphabet o.reach) o.found) }
    ensures within { IfOk result (λ o. IfSome o.found (IsWithinBounds input.old)) }
{
    content_fits(input);
    match seek_by_needles(halves, cache, input, guard, longest_len, left, false)? {
        Ending::Ends {
            from: _,
            met,
            reach,
        } => { settle_back(halves, cache, input, aim, met, reach, left.bounds) }
        Ending::Stuck => find_settled(halves, cache, input, aim, left.bounds),
        Ending::Nowhere => Ok(Settled {
            found: None,
            reach: usize::MAX,
        }),
    }
}

/// Returns the match, from needle to needle.
#[inline(always)]
pub(crate) fn find_by_needles<H: Halves, C: Cursor>(
    halves: &H,
    cache: &mut H::Cache,
    input: &mut Input<C>,
    aim: Aim,
    guard: Guard,
    left: Left,
) -> Result<Option<Match>, MatchError>
    requires cache { H.IsCache halves.now cache.old }
    requires goes { GoesByNeedles aim input.old.anchored }
    requires bounds { AreBounds input.old left.bounds }
    requires low { left.bounds.low ≤ left.at }
    requires ordered { left.at ≤ left.bounds.high }
    requires far { left.at ≤ left.reach }
    ensures cache { H.IsCache halves.now cache.new }
    ensures keeps { Keeps input.old input.new }
    ensures found { (hs : List Re) (terminator : ℕ)
        → AreHalvesOf (H.AreOf halves.now) aim hs terminator
        → IsGuard (program hs) terminator guard.entry
        → NoneBeginBelow (search_for aim hs terminator input.old) left.reach left.at
        → IfOk result (λ found. found ≡ answer_by aim.kind
        (search_for aim hs terminator input.old)) }
    ensures within { IfOk result (λ found. IfSome found (IsWithinBounds input.old)) }
{
    let settled = settle_by_needles(halves, cache, input, aim, guard, usize::MAX, left)?;
    Ok(settled.found)
}
