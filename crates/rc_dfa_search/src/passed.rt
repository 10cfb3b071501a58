//! Passed-over starts: searches from later starts on, where a run ends once it stands where an
//! earlier one stood. Positions are in bytes of the whole content.
ghost use Rattle.std.specs.Prelude.{◌≡◌, ◌+◌, ◌-◌, ◌≤◌, ℕ, false, min, max, List, None, IfOk, IfErr, IfSome, IfNone};
ghost use Rattle.rc_text.specs.Plain.{is_anchored};
ghost use Rattle.rc_text.specs.Text.{Keeps, is_boundary, low, high};
ghost use Rattle.rc_pattern.specs.Re.{Re};
ghost use Rattle.rc_program.specs.Kinds.{IsAnswerBy};
ghost use Rattle.rc_program.specs.Sought.{text_of};
ghost use Rattle.rc_dfa_search.specs.Aims.{AreHalvesOf, is_early, search_for, search_from};
ghost use Rattle.rc_dfa_search.specs.Ends.{Asks, HasMet, IsEnd, Stands, cost_from, may_end};
ghost use Rattle.rc_dfa_search.specs.Faults.{IsFault};

use crate::search::{Aim, Bounds, End, is_early, may_end, told};
use rc_dfa::ended::Met;
use rc_dfa::halves::{Halves, Run};
use rc_dfa::memo::Memo;
use rc_text::cursor::Cursor;
use rc_text::input::Input;
use rc_text::types::MatchError;

/// Runs forwards from the lower bound, with the memo of earlier runs, and returns what it found.
#[inline(always)]
fn run_along<H: Halves, C: Cursor>(
    halves: &H,
    cache: &mut H::Cache,
    input: &mut Input<C>,
    aim: Aim,
    bounds: Bounds,
    memo: &mut Memo,
) -> Result<Option<Met>, MatchError>
    requires cache { H.IsCache halves.now cache.old }
    requires low { low input.old ≤ bounds.low }
    requires ordered { bounds.low ≤ bounds.high }
    requires high { bounds.high ≡ high input.old }
    requires asked { Asks aim.patterns input.old.anchored }
    requires memo { H.IsMemo halves.now cache.old input.old bounds.high (is_early aim) memo.old }
    ensures cache { H.IsCache halves.now cache.new }
    ensures keeps { Keeps input.old input.new }
    ensures met { (hs : List Re) (terminator : ℕ)
        (of : AreHalvesOf (H.AreOf halves.now) aim hs terminator)
        → IfOk result (HasMet of.ahead (text_of terminator input.old)
        (high input.old) bounds.low input.old.anchored (is_early aim)) }
    ensures fault { (hs : List Re) (terminator : ℕ)
        → AreHalvesOf (H.AreOf halves.now) aim hs terminator
        → IfErr result (IsFault hs (search_for aim hs terminator input.old)
        (H.GivesUp halves.now cache.old cache.new (high input.old - bounds.low + 2))) }
    ensures spends { H.Spends halves.now cache.old cache.new (high input.old - bounds.low + 2) }
    ensures memo { H.IsMemo halves.now cache.new input.new bounds.high (is_early aim) memo.new }
{
    let run = Run {
        anchored: input.get_anchored(),
        low: bounds.low,
        high: bounds.high,
        earliest: is_early(aim),
    };
    told(halves.run_again(cache, input, run, memo).ended)
}

/// Whether a match of the kind may end here, if none may at the position `refused`. It looks at no
/// byte if that is the position: many starts lead to the same end, and it may be far.
#[inline(always)]
fn may_end_past<C: Cursor>(
    input: &mut Input<C>,
    aim: Aim,
    at: usize,
    refused: Option<usize>,
) -> bool
    requires refused { IfSome refused
        (λ x. may_end aim.kind aim.passes_over input.old.content x ≡ false) }
    ensures keeps { Keeps input.old input.new }
    ensures value { result ≡ may_end aim.kind aim.passes_over input.old.content at }
{
    if let Some(end) = refused {
        if end == at {
            return false;
        }
    }
    may_end(input, aim, at)
}

/// Returns what `seek_end` does, where all starts before `start` were passed over. Each run ends
/// where it meets a mark of the memo, and leaves marks of its own. The last end that was passed over
/// isn't looked at again.
pub(crate) fn seek_along<H: Halves, C: Cursor>(
    halves: &H,
    cache: &mut H::Cache,
    input: &mut Input<C>,
    aim: Aim,
    bounds: Bounds,
    start: usize,
    memo: &mut Memo,
) -> Result<Option<End>, MatchError>
    requires cache { H.IsCache halves.now cache.old }
    requires low { (low input.old ≤ bounds.low) × (bounds.low ≤ start) }
    requires high { bounds.high ≡ high input.old }
    requires ordered { start ≤ bounds.high }
    requires asked { Asks aim.patterns input.old.anchored }
    requires stands { (hs : List Re) (terminator : ℕ)
        (of : AreHalvesOf (H.AreOf halves.now) aim hs terminator)
        → Stands hs aim.kind (is_early aim) of.ahead of.back input.old.anchored
        (search_from aim hs terminator input.old bounds.low) start }
    requires memo { H.IsMemo halves.now cache.old input.old bounds.high (is_early aim) memo.old }
    ensures cache { H.IsCache halves.now cache.new }
    ensures keeps { Keeps input.old input.new }
    ensures none { (hs : List Re) (terminator : ℕ)
        → AreHalvesOf (H.AreOf halves.now) aim hs terminator
        → IfOk result (λ end. IfNone end (IsAnswerBy aim.kind aim.earliest
        (search_from aim hs terminator input.old bounds.low) None)) }
    ensures some { (hs : List Re) (terminator : ℕ)
        (of : AreHalvesOf (H.AreOf halves.now) aim hs terminator)
        → IfOk result (λ end. IfSome end
        (IsEnd hs aim.kind (is_early aim) of.ahead of.back input.old.anchored
        (search_from aim hs terminator input.old bounds.low))) }
    ensures within { IfOk result (λ end. IfSome end
        (λ e. (bounds.low ≤ e.from) × (e.from ≤ e.at) × (e.at ≤ high input.old)
        × Asks aim.patterns input.old.anchored)) }
    ensures fault { (hs : List Re) (terminator : ℕ)
        → AreHalvesOf (H.AreOf halves.now) aim hs terminator
        → IfErr result (IsFault hs (search_for aim hs terminator input.old)
        (H.GivesUp halves.now cache.old cache.new (cost_from input.old start))) }
    ensures spends { H.Spends halves.now cache.old cache.new (cost_from input.old start) }
    ensures memo { H.IsMemo halves.now cache.new input.new bounds.high (is_early aim) memo.new }
{
    let anchored = input.get_anchored().is_anchored();
    let high = bounds.high;
    let mut from = start;
    let mut refused = None;
    'starts: loop {
        let left = Bounds { low: from, high };
        let Some(met) = run_along(halves, cache, input, aim, left, memo)? else {
            return Ok(None);
        };
        if may_end_past(input, aim, met.at, refused) {
            return Ok(Some(End {
                from,
                pattern: met.pattern,
                at: met.at.max(from).min(high),
            }));
        }
        if anchored || from >= high {
            return Ok(None);
        }
        refused = Some(met.at);
        from += 1;
    }
}

/// Returns what `seek_end` does, where all starts before `start` were passed over. Each run ends
/// where it meets a mark of those before. A memo is large, so this isn't inlined.
#[inline(never)]
pub(crate) fn seek_later<H: Halves, C: Cursor>(
    halves: &H,
    cache: &mut H::Cache,
    input: &mut Input<C>,
    aim: Aim,
    bounds: Bounds,
    start: usize,
) -> Result<Option<End>, MatchError>
    requires cache { H.IsCache halves.now cache.old }
    requires low { (low input.old ≤ bounds.low) × (bounds.low ≤ start) }
    requires high { bounds.high ≡ high input.old }
    requires ordered { start ≤ bounds.high }
    requires asked { Asks aim.patterns input.old.anchored }
    requires stands { (hs : List Re) (terminator : ℕ)
        (of : AreHalvesOf (H.AreOf halves.now) aim hs terminator)
        → Stands hs aim.kind (is_early aim) of.ahead of.back input.old.anchored
        (search_from aim hs terminator input.old bounds.low) start }
    ensures cache { H.IsCache halves.now cache.new }
    ensures keeps { Keeps input.old input.new }
    ensures none { (hs : List Re) (terminator : ℕ)
        → AreHalvesOf (H.AreOf halves.now) aim hs terminator
        → IfOk result (λ end. IfNone end (IsAnswerBy aim.kind aim.earliest
        (search_from aim hs terminator input.old bounds.low) None)) }
    ensures some { (hs : List Re) (terminator : ℕ)
        (of : AreHalvesOf (H.AreOf halves.now) aim hs terminator)
        → IfOk result (λ end. IfSome end
        (IsEnd hs aim.kind (is_early aim) of.ahead of.back input.old.anchored
        (search_from aim hs terminator input.old bounds.low))) }
    ensures within { IfOk result (λ end. IfSome end
        (λ e. (bounds.low ≤ e.from) × (e.from ≤ e.at) × (e.at ≤ high input.old)
        × Asks aim.patterns input.old.anchored)) }
    ensures fault { (hs : List Re) (terminator : ℕ)
        → AreHalvesOf (H.AreOf halves.now) aim hs terminator
        → IfErr result (IsFault hs (search_for aim hs terminator input.old)
        (H.GivesUp halves.now cache.old cache.new (cost_from input.old start))) }
    ensures spends { H.Spends halves.now cache.old cache.new (cost_from input.old start) }
{
    let mut memo = Memo::new(0);
    seek_along(halves, cache, input, aim, bounds, start, &mut memo)
}
