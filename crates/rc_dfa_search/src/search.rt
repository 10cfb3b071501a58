//! DFA search: forwards to the end of a match, then in reverse to its start, by either DFA.
//! Positions are in bytes of the whole content.
ghost use Rattle.std.specs.Prelude.{◌≡◌, ◌⊎◌, ◌↔◌, ◌+◌, ◌-◌, ◌*◌, ◌<◌, ◌≤◌, ◌&&◌, ◌||◌, ℕ, true, not, min, max, List, Option, Some, IsTrue, IfOk, IfErr, IfSome, IfNone};
ghost use Rattle.std.specs.Option.{option_map};
ghost use Rattle.rc_text.specs.Found.{Found};
ghost use Rattle.rc_text.specs.Plain.{is_anchored};
ghost use Rattle.rc_text.specs.Limits.{greatest_pattern};
ghost use Rattle.rc_text.specs.Bounds.{IsWithinBounds};
ghost use Rattle.rc_text.specs.Text.{Keeps, is_boundary, low, high};
ghost use Rattle.rc_pattern.specs.Re.{Re};
ghost use Rattle.rc_program.specs.Answer.{Search};
ghost use Rattle.rc_program.specs.Kinds.{IsAnswerBy};
ghost use Rattle.rc_program.specs.Sought.{text_of};
ghost use Rattle.rc_dfa.specs.Machine.{Machine};
ghost use Rattle.rc_dfa_search.specs.Aims.{AreBounds, AreHalvesOf, is_early, search_for, search_from, cost};
ghost use Rattle.rc_dfa_search.specs.Ends.{Asks, HasMet, HasMetDown, IsEnd, begins_there, cost_forwards, keeps_pattern, match_by, may_end, start_by, told_of};
ghost use Rattle.rc_dfa_search.specs.Faults.{IsFault};
ghost use Rattle.rc_dfa_search.specs.Halves.{IsForwardHalf};
ghost use Rattle.rc_dfa_search.specs.Reverse.{IsMatchToEnd, IsReverseHalf};

use crate::passed::seek_later;
use rc_dfa::ended::{Ended, Met};
use rc_dfa::halves::{Halves, Run};
use rc_text::cursor::Cursor;
use rc_text::input::{Input, high, is_boundary_at, low};
use rc_text::types::{Anchored, HalfMatch, Match, MatchError, MatchKind, PatternID, Span};

/// So many starts are passed over before memos of runs are kept.
const FEW_STARTS: usize = 16;

/// The aim of a search.
#[derive(Clone, Copy)]
pub struct Aim {
    /// The kind of match.
    pub kind: MatchKind,
    /// The number of patterns.
    pub patterns: usize,
    /// Whether matches that end off a character boundary are passed over. With `MatchKind::All`,
    /// none is.
    pub passes_over: bool,
    /// Whether any match is enough. It is ignored if matches are passed over.
    pub earliest: bool,
}

/// The bounds of a search, in bytes. They are computed once, and handed down.
#[derive(Clone, Copy)]
pub struct Bounds {
    pub low: usize,
    pub high: usize,
}

/// The end of a match.
#[derive(Clone, Copy)]
pub(crate) struct End {
    /// The start of the search that found it, after all starts that were passed over.
    pub(crate) from: usize,
    /// The pattern whose match place was reached.
    pub(crate) pattern: usize,
    /// Where the match ends.
    pub(crate) at: usize,
}

/// Whether any match will do.
#[inline(always)]
pub(crate) fn is_early(aim: Aim) -> bool
    ensures { result ≡ is_early aim }
{
    aim.earliest && !aim.passes_over
}

/// Whether the pattern that the search asks for, if any, is one of this many.
#[inline(always)]
pub(crate) fn asks(anchored: Anchored, patterns: usize) -> bool
    ensures { IsTrue result ↔ Asks patterns anchored }
{
    match anchored {
        Anchored::No => true,
        Anchored::Yes => true,
        Anchored::Pattern(pattern) => pattern.as_usize() < patterns,
    }
}

/// Returns the bounds of a search in bytes, or None if no position lies between them.
#[inline(always)]
pub fn bounds_of<C: Cursor>(input: &mut Input<C>) -> Option<Bounds>
    ensures keeps { Keeps input.old input.new }
    ensures some { IfSome result (AreBounds input.old) }
    ensures none { IfNone result (high input.old < low input.old) }
{
    let high = high(input);
    let low = low(input);
    if low > high {
        return None;
    }
    Some(Bounds { low, high })
}

/// Returns what a run found, or why it has no answer.
#[inline(always)]
pub fn told(ended: Ended) -> Result<Option<Met>, MatchError>
    ensures { result ≡ told_of ended }
{
    match ended {
        Ended::Found(met) => Ok(met),
        Ended::Idle(_) => Ok(None),
        Ended::Quit(byte, offset) => Err(MatchError::Quit { byte, offset }),
        Ended::GaveUp(offset, memory) => Err(MatchError::GaveUp { offset, memory }),
    }
}

/// Runs forwards from the lower bound, and returns what it found.
#[inline(always)]
pub(crate) fn run_forwards<H: Halves, C: Cursor>(
    halves: &H,
    cache: &mut H::Cache,
    input: &mut Input<C>,
    aim: Aim,
    bounds: Bounds,
) -> Result<Option<Met>, MatchError>
    requires cache { H.IsCache halves.now cache.old }
    requires low { low input.old ≤ bounds.low }
    requires ordered { bounds.low ≤ bounds.high }
    requires high { bounds.high ≡ high input.old }
    requires asked { Asks aim.patterns input.old.anchored }
    ensures cache { H.IsCache halves.now cache.new }
    ensures keeps { Keeps input.old input.new }
    ensures met { (hs : List Re) (terminator : ℕ)
        (of : AreHalvesOf (H.AreOf halves.now) aim hs terminator)
        → IfOk result (HasMet of.ahead (text_of terminator input.old)
        (high input.old) bounds.low input.old.anchored (is_early aim)) }
    ensures fault { (hs : List Re) (terminator : ℕ)
        → AreHalvesOf (H.AreOf halves.now) aim hs terminator
        → IfErr result (IsFault hs (search_for aim hs terminator input.old)
        (H.GivesUp halves.now cache.old cache.new (high input.old - bounds.low + 2))) }
    ensures spends { H.Spends halves.now cache.old cache.new (high input.old - bounds.low + 2) }
{
    let run = Run {
        anchored: input.get_anchored(),
        low: bounds.low,
        high: bounds.high,
        earliest: is_early(aim),
    };
    told(halves.run_forwards(cache, input, run, None).ended)
}

/// Runs backwards from the upper bound, and returns what it found.
#[inline(always)]
pub(crate) fn run_backwards<H: Halves, C: Cursor>(
    halves: &H,
    cache: &mut H::Cache,
    input: &mut Input<C>,
    aim: Aim,
    bounds: Bounds,
) -> Result<Option<Met>, MatchError>
    requires cache { H.IsCache halves.now cache.old }
    requires low { low input.old ≤ bounds.low }
    requires ordered { bounds.low ≤ bounds.high }
    requires high { bounds.high ≤ high input.old }
    requires asked { Asks aim.patterns input.old.anchored }
    ensures cache { H.IsCache halves.now cache.new }
    ensures keeps { Keeps input.old input.new }
    ensures met { (hs : List Re) (terminator : ℕ)
        (of : AreHalvesOf (H.AreOf halves.now) aim hs terminator)
        → IfOk result (HasMetDown of.back (text_of terminator input.old) bounds.low bounds.high
        input.old.anchored (is_early aim)) }
    ensures fault { (hs : List Re) (terminator : ℕ)
        → AreHalvesOf (H.AreOf halves.now) aim hs terminator
        → IfErr result (IsFault hs (search_for aim hs terminator input.old)
        (H.GivesUp halves.now cache.old cache.new (high input.old - bounds.low + 2))) }
    ensures spends { H.Spends halves.now cache.old cache.new (high input.old - bounds.low + 2) }
{
    let run = Run {
        anchored: input.get_anchored(),
        low: bounds.low,
        high: bounds.high,
        earliest: is_early(aim),
    };
    told(halves.run_backwards(cache, input, run))
}

/// Whether a match may end here: on a boundary, if matches that end off one are passed over.
#[inline(always)]
fn is_allowed<C: Cursor>(input: &mut Input<C>, aim: Aim, at: usize) -> bool
    ensures keeps { Keeps input.old input.new }
    ensures value { result ≡ (not aim.passes_over || is_boundary input.old.content at) }
{
    !aim.passes_over || is_boundary_at(input, at)
}

/// Whether a match of the kind may end here.
#[inline(always)]
pub(crate) fn may_end<C: Cursor>(input: &mut Input<C>, aim: Aim, at: usize) -> bool
    ensures keeps { Keeps input.old input.new }
    ensures value { result ≡ may_end aim.kind aim.passes_over input.old.content at }
{
    match aim.kind {
        MatchKind::All => true,
        MatchKind::LeftmostFirst | MatchKind::LeftmostLongest => is_allowed(input, aim, at),
    }
}

/// Returns the end of the match from the lower bound on: a run from there finds it, or, if matches
/// are passed over, a run from a later start. Once a few were passed over, memos of such runs are
/// kept.
#[inline(always)]
fn seek_end<H: Halves, C: Cursor>(
    halves: &H,
    cache: &mut H::Cache,
    input: &mut Input<C>,
    aim: Aim,
    bounds: Bounds,
) -> Result<Option<End>, MatchError>
    requires cache { H.IsCache halves.now cache.old }
    requires low { low input.old ≤ bounds.low }
    requires ordered { bounds.low ≤ bounds.high }
    requires high { bounds.high ≡ high input.old }
    ensures cache { H.IsCache halves.now cache.new }
    ensures keeps { Keeps input.old input.new }
    ensures none { (hs : List Re) (terminator : ℕ)
        → AreHalvesOf (H.AreOf halves.now) aim hs terminator
        → IfOk result (λ end. IfNone end (IsAnswerBy aim.kind aim.earliest
        (search_from aim hs terminator input.old bounds.low) None)) }
    ensures some { (hs : List Re) (terminator : ℕ)
        (of : AreHalvesOf (H.AreOf halves.now) aim hs terminator)
        → IfOk result (λ end. IfSome end
        (IsEnd hs aim.kind (is_early aim) of.ahead of.back input.old.anchored
        (search_from aim hs terminator input.old bounds.low))) }
    ensures within { IfOk result (λ end. IfSome end
        (λ e. (bounds.low ≤ e.from) × (e.from ≤ e.at) × (e.at ≤ high input.old)
        × Asks aim.patterns input.old.anchored)) }
    ensures fault { (hs : List Re) (terminator : ℕ)
        → AreHalvesOf (H.AreOf halves.now) aim hs terminator
        → IfErr result (IsFault hs (search_for aim hs terminator input.old)
        (H.GivesUp halves.now cache.old cache.new (cost_forwards input.old))) }
    ensures spends { H.Spends halves.now cache.old cache.new (cost_forwards input.old) }
{
    let anchoring = input.get_anchored();
    if !asks(anchoring, aim.patterns) {
        return Ok(None);
    }
    let anchored = anchoring.is_anchored();
    let high = bounds.high;
    let mut from = bounds.low;
    'starts: loop {
        let Some(met) = run_forwards(halves, cache, input, aim, Bounds { low: from, high })? else {
            return Ok(None);
        };
        if may_end(input, aim, met.at) {
            return Ok(Some(End {
                from,
                pattern: met.pattern,
                at: met.at.max(from).min(high),
            }));
        }
        if anchored || from >= high {
            return Ok(None);
        }
        from += 1;
        if from - bounds.low >= FEW_STARTS {
            return seek_later(halves, cache, input, aim, bounds, from);
        }
    }
}

/// Whether the match begins where the forward run did that found its end.
#[inline(always)]
fn begins_there(aim: Aim, anchored: Anchored) -> bool
    ensures { result ≡ begins_there aim.kind (is_early aim) (is_anchored anchored) }
{
    match aim.kind {
        MatchKind::All => is_early(aim) && anchored.is_anchored(),
        MatchKind::LeftmostFirst | MatchKind::LeftmostLongest => anchored.is_anchored(),
    }
}

/// Whether the pattern that was found with the end is the pattern of the match.
#[inline(always)]
fn keeps_pattern(aim: Aim) -> bool
    ensures { result ≡ keeps_pattern aim.kind (is_early aim) }
{
    match aim.kind {
        MatchKind::All => false,
        MatchKind::LeftmostFirst | MatchKind::LeftmostLongest => !is_early(aim),
    }
}

/// Whether the match is empty, since it ends where the forward run began that found its end, and
/// its pattern is known.
#[inline(always)]
fn is_empty(aim: Aim, end: End) -> bool
    ensures { IsTrue result → (keeps_pattern aim.kind (is_early aim) ≡ true) × (end.at ≡ end.from) }
{
    keeps_pattern(aim) && end.at == end.from
}

/// Returns the start and the pattern of the match with this end, by what a reverse run found.
#[inline(always)]
fn start_by(aim: Aim, end: End, met: Met) -> Met
    ensures { result ≡ start_by aim.kind (is_early aim) end met }
{
    let at = met.at.max(end.from).min(end.at);
    if keeps_pattern(aim) {
        return Met {
            pattern: end.pattern,
            at,
        };
    }
    Met {
        pattern: met.pattern,
        at,
    }
}

/// Returns the start and the pattern of the match with this end.
#[inline(always)]
pub(crate) fn seek_start<H: Halves, C: Cursor>(
    halves: &H,
    cache: &mut H::Cache,
    input: &mut Input<C>,
    aim: Aim,
    end: End,
) -> Result<Option<Met>, MatchError>
    requires cache { H.IsCache halves.now cache.old }
    requires low { low input.old ≤ end.from }
    requires ordered { end.from ≤ end.at }
    requires high { end.at ≤ high input.old }
    requires asked { Asks aim.patterns input.old.anchored }
    ensures cache { H.IsCache halves.now cache.new }
    ensures keeps { Keeps input.old input.new }
    ensures found { (hs : List Re) (terminator lo : ℕ)
        (of : AreHalvesOf (H.AreOf halves.now) aim hs terminator)
        → IsEnd hs aim.kind (is_early aim) of.ahead of.back input.old.anchored
        (search_from aim hs terminator input.old lo) end
        → IfOk result (λ start. IsAnswerBy aim.kind aim.earliest
        (search_from aim hs terminator input.old lo) (option_map (match_by end) start)) }
    ensures within { IfOk result (λ start. IfSome start
        (λ m. (end.from ≤ m.at) × (m.at ≤ end.at))) }
    ensures fault { (hs : List Re) (terminator : ℕ)
        → AreHalvesOf (H.AreOf halves.now) aim hs terminator
        → IfErr result (IsFault hs (search_for aim hs terminator input.old)
        (H.GivesUp halves.now cache.old cache.new (high input.old - low input.old + 2))) }
    ensures spends { H.Spends halves.now cache.old cache.new (high input.old - low input.old + 2) }
{
    if begins_there(aim, input.get_anchored()) {
        return Ok(Some(Met {
            pattern: end.pattern,
            at: end.from,
        }));
    }
    if is_empty(aim, end) {
        return Ok(Some(Met {
            pattern: end.pattern,
            at: end.at,
        }));
    }
    let bounds = Bounds {
        low: end.from,
        high: end.at,
    };
    let Some(met) = run_backwards(halves, cache, input, aim, bounds)? else {
        return Ok(None);
    };
    Ok(Some(start_by(aim, end, met)))
}

/// Returns the ID of the pattern that was found at the position `offset`. `Err` means that the
/// number is too large for a `PatternID`, which is no pattern's.
#[inline(always)]
pub fn id_of(pattern: usize, offset: usize) -> Result<PatternID, MatchError>
    ensures id { IfOk result (λ id. id ≡ pattern) }
    ensures refused { IfErr result (λ _. greatest_pattern < pattern) }
{
    match PatternID::new(pattern) {
        Some(id) => Ok(id),
        None => Err(MatchError::GaveUp {
            offset,
            memory: true,
        }),
    }
}

/// Returns the match from its start to its end. `Err` means that the number of its pattern is too
/// large for a `PatternID`, which is no pattern's.
#[inline(always)]
pub(crate) fn match_of(start: Met, end: End) -> Result<Match, MatchError>
    requires { start.at ≤ end.at }
    ensures found { IfOk result (λ m. m ≡ match_by end start) }
    ensures refused { IfErr result (λ _. greatest_pattern < start.pattern) }
{
    let pattern = id_of(start.pattern, end.at)?;
    let span = Span {
        start: start.at,
        end: end.at,
    };
    Ok(Match::new(pattern, span))
}

/// Returns the match that begins at the lower bound or later: a forward run finds its end, and from
/// there a reverse run its start, unless that is known, as that of an empty match is. If any match
/// is enough, it is some match. If a match is passed over that ends off a boundary, another forward
/// run begins at the next start.
///
/// It fails if the patterns depend on Unicode words and a byte above 127 would have to be read, or
/// if the lazy DFA gives up.
pub fn find_between<H: Halves, C: Cursor>(
    halves: &H,
    cache: &mut H::Cache,
    input: &mut Input<C>,
    aim: Aim,
    bounds: Bounds,
) -> Result<Option<Match>, MatchError>
    requires cache { H.IsCache halves.now cache.old }
    requires low { low input.old ≤ bounds.low }
    requires ordered { bounds.low ≤ bounds.high }
    requires high { bounds.high ≡ high input.old }
    ensures cache { H.IsCache halves.now cache.new }
    ensures keeps { Keeps input.old input.new }
    ensures found { (hs : List Re) (terminator : ℕ)
        → AreHalvesOf (H.AreOf halves.now) aim hs terminator
        → IfOk result (IsAnswerBy aim.kind aim.earliest
        (search_from aim hs terminator input.old bounds.low)) }
    ensures within { IfOk result (λ found. IfSome found (IsWithinBounds input.old)) }
    ensures fault { (hs : List Re) (terminator : ℕ)
        → AreHalvesOf (H.AreOf halves.now) aim hs terminator
        → IfErr result (IsFault hs (search_for aim hs terminator input.old)
        (H.GivesUp halves.now cache.old cache.new (cost input.old))) }
    ensures spends { H.Spends halves.now cache.old cache.new (cost input.old) }
{
    let Some(end) = seek_end(halves, cache, input, aim, bounds)? else {
        return Ok(None);
    };
    let Some(start) = seek_start(halves, cache, input, aim, end)? else {
        return Ok(None);
    };
    let found = match_of(start, end)?;
    Ok(Some(found))
}

/// Returns the match of a search. It fails as `find_between` does.
pub fn find<H: Halves, C: Cursor>(
    halves: &H,
    cache: &mut H::Cache,
    input: &mut Input<C>,
    aim: Aim,
) -> Result<Option<Match>, MatchError>
    requires cache { H.IsCache halves.now cache.old }
    ensures cache { H.IsCache halves.now cache.new }
    ensures keeps { Keeps input.old input.new }
    ensures found { (hs : List Re) (terminator : ℕ)
        → AreHalvesOf (H.AreOf halves.now) aim hs terminator
        → IfOk result (IsAnswerBy aim.kind aim.earliest (search_for aim hs terminator input.old)) }
    ensures within { IfOk result (λ found. IfSome found (IsWithinBounds input.old)) }
    ensures fault { (hs : List Re) (terminator : ℕ)
        → AreHalvesOf (H.AreOf halves.now) aim hs terminator
        → IfErr result (IsFault hs (search_for aim hs terminator input.old)
        (H.GivesUp halves.now cache.old cache.new (cost input.old))) }
    ensures spends { H.Spends halves.now cache.old cache.new (cost input.old) }
{
    let Some(bounds) = bounds_of(input) else {
        return Ok(None);
    };
    find_between(halves, cache, input, aim, bounds)
}

/// Returns the end of the match that `find` returns, and its pattern. With `MatchKind::All`, that
/// is the number of some pattern with a match that ends there. It only searches forwards, and fails
/// as `find` does.
pub fn find_end_between<H: Halves, C: Cursor>(
    halves: &H,
    cache: &mut H::Cache,
    input: &mut Input<C>,
    aim: Aim,
    bounds: Bounds,
) -> Result<Option<HalfMatch>, MatchError>
    requires cache { H.IsCache halves.now cache.old }
    requires bounds { AreBounds input.old bounds }
    ensures cache { H.IsCache halves.now cache.new }
    ensures keeps { Keeps input.old input.new }
    ensures found { (hs : List Re) (terminator : ℕ)
        → AreHalvesOf (H.AreOf halves.now) aim hs terminator
        → IfOk result (IsForwardHalf aim.kind aim.earliest
        (search_for aim hs terminator input.old)) }
    ensures within { IfOk result (λ found. IfSome found
        (λ half. (low input.old ≤ half.offset) × (half.offset ≤ high input.old))) }
    ensures fault { (hs : List Re) (terminator : ℕ)
        → AreHalvesOf (H.AreOf halves.now) aim hs terminator
        → IfErr result (IsFault hs (search_for aim hs terminator input.old)
        (H.GivesUp halves.now cache.old cache.new (cost input.old))) }
    ensures spends { H.Spends halves.now cache.old cache.new (cost input.old) }
{
    let Some(end) = seek_end(halves, cache, input, aim, bounds)? else {
        return Ok(None);
    };
    let pattern = id_of(end.pattern, end.at)?;
    Ok(Some(HalfMatch::new(pattern, end.at)))
}

/// Returns what `find_end_between` does, within the bounds of the input.
pub fn find_end<H: Halves, C: Cursor>(
    halves: &H,
    cache: &mut H::Cache,
    input: &mut Input<C>,
    aim: Aim,
) -> Result<Option<HalfMatch>, MatchError>
    requires cache { H.IsCache halves.now cache.old }
    ensures cache { H.IsCache halves.now cache.new }
    ensures keeps { Keeps input.old input.new }
    ensures found { (hs : List Re) (terminator : ℕ)
        → AreHalvesOf (H.AreOf halves.now) aim hs terminator
        → IfOk result (IsForwardHalf aim.kind aim.earliest
        (search_for aim hs terminator input.old)) }
    ensures within { IfOk result (λ found. IfSome found
        (λ half. (low input.old ≤ half.offset) × (half.offset ≤ high input.old))) }
    ensures fault { (hs : List Re) (terminator : ℕ)
        → AreHalvesOf (H.AreOf halves.now) aim hs terminator
        → IfErr result (IsFault hs (search_for aim hs terminator input.old)
        (H.GivesUp halves.now cache.old cache.new (cost input.old))) }
    ensures spends { H.Spends halves.now cache.old cache.new (cost input.old) }
{
    let Some(bounds) = bounds_of(input) else {
        return Ok(None);
    };
    find_end_between(halves, cache, input, aim, bounds)
}

/// Returns the least start from which a match leads to the end of the search, and the first pattern
/// with such a match; with `earliest`, some such start. Returns None if matches that end off a
/// boundary are passed over, and the search ends off one. It only searches backwards, and fails as
/// `find` does.
pub fn find_start_between<H: Halves, C: Cursor>(
    halves: &H,
    cache: &mut H::Cache,
    input: &mut Input<C>,
    aim: Aim,
    bounds: Bounds,
) -> Result<Option<HalfMatch>, MatchError>
    requires cache { H.IsCache halves.now cache.old }
    requires bounds { AreBounds input.old bounds }
    ensures cache { H.IsCache halves.now cache.new }
    ensures keeps { Keeps input.old input.new }
    ensures found { (hs : List Re) (terminator : ℕ)
        → AreHalvesOf (H.AreOf halves.now) aim hs terminator
        → IfOk result (IsReverseHalf aim.earliest (search_for aim hs terminator input.old)) }
    ensures within { IfOk result (λ found. IfSome found
        (λ half. (low input.old ≤ half.offset) × (half.offset ≤ high input.old))) }
    ensures fault { (hs : List Re) (terminator : ℕ)
        → AreHalvesOf (H.AreOf halves.now) aim hs terminator
        → IfErr result (IsFault hs (search_for aim hs terminator input.old)
        (H.GivesUp halves.now cache.old cache.new (cost input.old))) }
    ensures spends { H.Spends halves.now cache.old cache.new (cost input.old) }
{
    if !asks(input.get_anchored(), aim.patterns) {
        return Ok(None);
    }
    if !is_allowed(input, aim, bounds.high) {
        return Ok(None);
    }
    let Some(met) = run_backwards(halves, cache, input, aim, bounds)? else {
        return Ok(None);
    };
    let offset = met.at.max(bounds.low).min(bounds.high);
    let pattern = id_of(met.pattern, offset)?;
    Ok(Some(HalfMatch::new(pattern, offset)))
}

/// Returns what `find_start_between` does, within the bounds of the input.
pub fn find_start<H: Halves, C: Cursor>(
    halves: &H,
    cache: &mut H::Cache,
    input: &mut Input<C>,
    aim: Aim,
) -> Result<Option<HalfMatch>, MatchError>
    requires cache { H.IsCache halves.now cache.old }
    ensures cache { H.IsCache halves.now cache.new }
    ensures keeps { Keeps input.old input.new }
    ensures found { (hs : List Re) (terminator : ℕ)
        → AreHalvesOf (H.AreOf halves.now) aim hs terminator
        → IfOk result (IsReverseHalf aim.earliest (search_for aim hs terminator input.old)) }
    ensures within { IfOk result (λ found. IfSome found
        (λ half. (low input.old ≤ half.offset) × (half.offset ≤ high input.old))) }
    ensures fault { (hs : List Re) (terminator : ℕ)
        → AreHalvesOf (H.AreOf halves.now) aim hs terminator
        → IfErr result (IsFault hs (search_for aim hs terminator input.old)
        (H.GivesUp halves.now cache.old cache.new (cost input.old))) }
    ensures spends { H.Spends halves.now cache.old cache.new (cost input.old) }
{
    let Some(bounds) = bounds_of(input) else {
        return Ok(None);
    };
    find_start_between(halves, cache, input, aim, bounds)
}

/// Returns the match from the start that `find_start` returns to the end of the search, of the
/// pattern that it returns. If each match ends there and the search isn't anchored, that is both
/// the leftmost-first and the leftmost-longest match. It only searches backwards.
pub fn find_to_end<H: Halves, C: Cursor>(
    halves: &H,
    cache: &mut H::Cache,
    input: &mut Input<C>,
    aim: Aim,
    bounds: Bounds,
) -> Result<Option<Match>, MatchError>
    requires cache { H.IsCache halves.now cache.old }
    requires bounds { AreBounds input.old bounds }
    ensures cache { H.IsCache halves.now cache.new }
    ensures keeps { Keeps input.old input.new }
    ensures found { (hs : List Re) (terminator : ℕ)
        → AreHalvesOf (H.AreOf halves.now) aim hs terminator
        → IfOk result (IsMatchToEnd aim.earliest (search_for aim hs terminator input.old)) }
    ensures within { IfOk result (λ found. IfSome found (IsWithinBounds input.old)) }
{
    let Some(half) = find_start_between(halves, cache, input, aim, bounds)? else {
        return Ok(None);
    };
    let span = Span {
        start: half.offset(),
        end: bounds.high,
    };
    Ok(Some(Match::new(half.pattern(), span)))
}
