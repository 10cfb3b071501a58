//! Reaches: DFA searches that tell how many bytes settle what they find. Positions are in bytes of
//! the whole content.
ghost use Rattle.std.specs.Prelude.{◌≡◌, ◌↔◌, ◌+◌, ◌<◌, ◌≤◌, ℕ, List, Ok, Option, IfOk, IfSome, IsTrue, length};
ghost use Rattle.std.specs.Option.{option_map};
ghost use Rattle.rc_text.specs.Bounds.{IsWithinBounds};
ghost use Rattle.rc_text.specs.Text.{Keeps, Searched, low, high};
ghost use Rattle.rc_pattern.specs.Re.{Re};
ghost use Rattle.rc_program.specs.Sought.{text_of};
ghost use Rattle.rc_dfa.specs.Inside.{IsPieceOf};
ghost use Rattle.rc_dfa.specs.declared.ended.Met.{Met};
ghost use Rattle.rc_dfa_reach.specs.RunReach.{seen_to};
ghost use Rattle.rc_dfa_search.specs.Aims.{AreBounds, AreHalvesOf, search_for};
ghost use Rattle.rc_dfa_search.specs.Ends.{Asks, told_of};
ghost use Rattle.rc_dfa_search.specs.Firsts.{starting_at};
ghost use Rattle.rc_dfa_search.specs.Legs.{GoesByNeedles};
ghost use Rattle.rc_dfa_search.specs.Reaches.{BeginsBy, IsAnswerBelow, TellsReach, found_from};

use crate::search::{Aim, Bounds, asks, id_of, run_backwards, told};
use rc_dfa::ended::Reading;
use rc_dfa::halves::{Halves, Run};
use rc_text::cursor::Cursor;
use rc_text::input::{Input, content_fits};
use rc_text::types::{Anchored, Match, MatchError, MatchKind, Span};

/// The match of a search, if there is one, and how many bytes of the content settle it.
#[derive(Clone, Copy)]
pub struct Settled {
    /// The match.
    pub found: Option<Match>,
    /// The count of bytes up to which a DFA read. If it read symbols, these depend on three bytes
    /// more. `usize::MAX` says that the end of the slice may have been looked at.
    pub reach: usize,
}

/// Whether a search tells its reach: it must be leftmost, any match must not be enough, and none
/// may be passed over.
#[inline(always)]
pub fn tells_reach(aim: Aim) -> bool
    ensures { IsTrue result ↔ TellsReach aim }
{
    match aim.kind {
        MatchKind::All => false,
        MatchKind::LeftmostFirst | MatchKind::LeftmostLongest => {
            !aim.earliest && !aim.passes_over
        }
    }
}

/// Returns where the match begins that ends at the upper bound: at the lower one, if the search is
/// anchored, else where a run backwards leads.
#[inline(always)]
fn start_of<H: Halves, C: Cursor>(
    halves: &H,
    cache: &mut H::Cache,
    input: &mut Input<C>,
    aim: Aim,
    bounds: Bounds,
) -> Result<Option<usize>, MatchError>
    requires cache { H.IsCache halves.now cache.old }
    requires low { low input.old ≤ bounds.low }
    requires ordered { bounds.low ≤ bounds.high }
    requires high { bounds.high ≤ high input.old }
    requires asked { Asks aim.patterns input.old.anchored }
    requires tells { TellsReach aim }
    ensures cache { H.IsCache halves.now cache.new }
    ensures keeps { Keeps input.old input.new }
    ensures start { (hs : List Re) (terminator : ℕ)
        (of : AreHalvesOf (H.AreOf halves.now) aim hs terminator)
        → IfOk result (BeginsBy of.back (text_of terminator input.old) bounds.low bounds.high
        input.old.anchored) }
{
    if input.get_anchored().is_anchored() {
        return Ok(Some(bounds.low));
    }
    let Some(met) = run_backwards(halves, cache, input, aim, bounds)? else {
        return Ok(None);
    };
    Ok(Some(met.at))
}

/// Returns the match that begins at the position `from`, if one does, by what an anchored run read,
/// and how many bytes settle that. An `Err` says why the DFA has no answer.
#[inline(always)]
fn settled_by(reading: Reading, from: usize, bound: usize) -> Result<Settled, MatchError>
    requires { from ≤ bound }
    ensures told { IfOk result (λ o. (o.reach ≡ reading.read) × ((met : Option Met)
        × (told_of reading.ended ≡ Ok met) × (o.found ≡ found_from from bound met))) }
    ensures within { IfOk result (λ o. IfSome o.found
        (λ m. (m.start ≡ from) × (m.start ≤ m.end) × (m.end ≤ bound))) }
{
    let reach = reading.read;
    let Some(met) = told(reading.ended)? else {
        return Ok(Settled { found: None, reach });
    };
    let end = met.at.max(from).min(bound);
    let pattern = id_of(met.pattern, end)?;
    let found = Some(Match::new(pattern, Span { start: from, end }));
    Ok(Settled { found, reach })
}

/// Returns the match that begins at the position `from`, if one does, by an anchored run, and how
/// many bytes settle that. An `Err` says why the DFA has no answer.
#[inline(always)]
pub(crate) fn settle_here<H: Halves, C: Cursor>(
    halves: &H,
    cache: &mut H::Cache,
    input: &mut Input<C>,
    from: usize,
    bound: usize,
) -> Result<Settled, MatchError>
    requires cache { H.IsCache halves.now cache.old }
    requires low { low input.old ≤ from }
    requires bound { bound ≡ high input.old }
    requires within { from ≤ bound }
    ensures cache { H.IsCache halves.now cache.new }
    ensures keeps { Keeps input.old input.new }
    ensures settled { (aim : Aim) (hs : List Re) (terminator : ℕ)
        (of : AreHalvesOf (H.AreOf halves.now) aim hs terminator)
        → GoesByNeedles aim input.old.anchored
        → IfOk result (λ o. IsAnswerBelow aim.kind
        (starting_at from (search_for aim hs terminator input.old))
        (seen_to of.ahead.alphabet o.reach) o.found) }
    ensures within { IfOk result (λ o. IfSome o.found
        (λ m. (m.start ≡ from) × (m.start ≤ m.end) × (m.end ≤ bound))) }
{
    let run = Run {
        anchored: Anchored::Yes,
        low: from,
        high: bound,
        earliest: false,
    };
    let reading = halves.run_forwards(cache, input, run, None);
    settled_by(reading, from, bound)
}

/// Returns what `settle_here` does, by a run over a piece of the text alone, which begins at the
/// position `start`. Returns None if the run begins there too, or doesn't end in the piece.
#[inline(always)]
pub(crate) fn settle_inside<H: Halves>(
    halves: &H,
    cache: &mut H::Cache,
    piece: &[u8],
    start: usize,
    from: usize,
    bound: usize,
) -> Option<Result<Settled, MatchError>>
    requires cache { H.IsCache halves.now cache.old }
    requires begins { (start ≤ from) × (from ≤ start + length piece.now) }
    requires within { from ≤ bound }
    requires fits { start + length piece.now ≤ usize.MAX }
    ensures cache { H.IsCache halves.now cache.new }
    ensures settled { (seen : Searched) (aim : Aim) (hs : List Re) (terminator : ℕ)
        (of : AreHalvesOf (H.AreOf halves.now) aim hs terminator)
        → IsPieceOf seen bound start piece.now → bound ≡ high seen → low seen ≤ from
        → GoesByNeedles aim seen.anchored
        → IfSome result (λ told. IfOk told (λ o. IsAnswerBelow aim.kind
        (starting_at from (search_for aim hs terminator seen))
        (seen_to of.ahead.alphabet o.reach) o.found)) }
    ensures within { IfSome result (λ told. IfOk told (λ o. IfSome o.found
        (λ m. (m.start ≡ from) × (m.start ≤ m.end) × (m.end ≤ bound)))) }
{
    if from == start {
        return None;
    }
    let run = Run {
        anchored: Anchored::Yes,
        low: from,
        high: bound,
        earliest: false,
    };
    let reading = halves.run_inside(cache, piece, start, run)?;
    Some(settled_by(reading, from, bound))
}

/// Returns what `settle_here` does, unless a run over a piece told it.
#[inline(always)]
pub(crate) fn settle_unless<H: Halves, C: Cursor>(
    halves: &H,
    cache: &mut H::Cache,
    input: &mut Input<C>,
    inside: Option<Result<Settled, MatchError>>,
    from: usize,
    bound: usize,
) -> Result<Settled, MatchError>
    ghost seen: { Searched }
    requires cache { H.IsCache halves.now cache.old }
    requires seen { Keeps seen input.old }
    requires low { low seen ≤ from }
    requires bound { bound ≡ high seen }
    requires within { from ≤ bound }
    requires settled { (aim : Aim) (hs : List Re) (terminator : ℕ)
        (of : AreHalvesOf (H.AreOf halves.now) aim hs terminator)
        → GoesByNeedles aim seen.anchored
        → IfSome inside (λ told. IfOk told (λ o. IsAnswerBelow aim.kind
        (starting_at from (search_for aim hs terminator seen))
        (seen_to of.ahead.alphabet o.reach) o.found)) }
    requires there { IfSome inside (λ told. IfOk told (λ o. IfSome o.found
        (λ m. (m.start ≡ from) × (m.start ≤ m.end) × (m.end ≤ bound)))) }
    ensures cache { H.IsCache halves.now cache.new }
    ensures keeps { Keeps input.old input.new }
    ensures settled { (aim : Aim) (hs : List Re) (terminator : ℕ)
        (of : AreHalvesOf (H.AreOf halves.now) aim hs terminator)
        → GoesByNeedles aim seen.anchored
        → IfOk result (λ o. IsAnswerBelow aim.kind
        (starting_at from (search_for aim hs terminator seen))
        (seen_to of.ahead.alphabet o.reach) o.found) }
    ensures within { IfOk result (λ o. IfSome o.found
        (λ m. (m.start ≡ from) × (m.start ≤ m.end) × (m.end ≤ bound))) }
{
    match inside {
        Some(told) => told,
        None => settle_here(halves, cache, input, from, bound),
    }
}

/// Returns the match that `find` returns, and how many bytes settle it: those at which the run
/// forwards looked.
#[inline(never)]
pub fn find_settled<H: Halves, C: Cursor>(
    halves: &H,
    cache: &mut H::Cache,
    input: &mut Input<C>,
    aim: Aim,
    bounds: Bounds,
) -> Result<Settled, MatchError>
    requires cache { H.IsCache halves.now cache.old }
    requires bounds { AreBounds input.old bounds }
    requires tells { TellsReach aim }
    ensures cache { H.IsCache halves.now cache.new }
    ensures keeps { Keeps input.old input.new }
    ensures settled { (hs : List Re) (terminator : ℕ)
        (of : AreHalvesOf (H.AreOf halves.now) aim hs terminator)
        → IfOk result (λ o. IsAnswerBelow aim.kind (search_for aim hs terminator input.old)
        (seen_to of.ahead.alphabet o.reach) o.found) }
    ensures past { (hs : List Re) (terminator : ℕ)
        → AreHalvesOf (H.AreOf halves.now) aim hs terminator
        → IfOk result (λ o. IfSome o.found (λ m. m.end ≤ o.reach)) }
    ensures within { IfOk result (λ o. IfSome o.found (IsWithinBounds input.old)) }
{
    content_fits(input);
    if !asks(input.get_anchored(), aim.patterns) {
        return Ok(Settled {
            found: None,
            reach: usize::MAX,
        });
    }
    let Bounds { low, high } = bounds;
    let run = Run {
        anchored: input.get_anchored(),
        low,
        high,
        earliest: false,
    };
    let reading = halves.run_forwards(cache, input, run, None);
    let reach = reading.read;
    let Some(met) = told(reading.ended)? else {
        return Ok(Settled { found: None, reach });
    };
    let end = met.at.max(low).min(high);
    let Some(least) = start_of(halves, cache, input, aim, Bounds { low, high: end })? else {
        return Ok(Settled { found: None, reach });
    };
    let start = least.max(low).min(end);
    let pattern = id_of(met.pattern, end)?;
    let found = Some(Match::new(pattern, Span { start, end }));
    Ok(Settled { found, reach })
}
