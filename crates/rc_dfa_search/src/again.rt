//! Searches one after another over one text, as those of a list of matches: each run forwards ends
//! once it stands where an earlier one stood. Positions are in bytes of the whole content.
ghost use Rattle.std.specs.Prelude.{◌≡◌, ◌≤◌, ℕ, List, IfOk, IfSome};
ghost use Rattle.rc_text.specs.Bounds.{IsWithinBounds};
ghost use Rattle.rc_text.specs.Text.{Keeps, high, low};
ghost use Rattle.rc_pattern.specs.Re.{Re};
ghost use Rattle.rc_program.specs.Kinds.{IsAnswerBy};
ghost use Rattle.rc_dfa_search.specs.Aims.{AreHalvesOf, is_early, search_from};
ghost use Rattle.rc_dfa_search.specs.Memos.{MemosLast};

use crate::passed::seek_along;
use crate::search::{Aim, Bounds, asks, match_of, seek_start};
use rc_dfa::halves::Halves;
use rc_dfa::memo::Memo;
use rc_text::cursor::Cursor;
use rc_text::input::Input;
use rc_text::types::{Match, MatchError};

/// Returns the match that `find_between` returns. A run forwards that comes to a mark of the memo
/// ends as the run did that left it, and leaves marks of its own. So searches of one text with one
/// memo read much of it only once. An `Err` says why the DFA has no answer.
pub fn find_again<H: Halves, C: Cursor>(
    halves: &H,
    cache: &mut H::Cache,
    input: &mut Input<C>,
    aim: Aim,
    bounds: Bounds,
    memo: &mut Memo,
) -> Result<Option<Match>, MatchError>
    requires cache { H.IsCache halves.now cache.old }
    requires low { low input.old ≤ bounds.low }
    requires ordered { bounds.low ≤ bounds.high }
    requires high { bounds.high ≡ high input.old }
    requires memo { H.IsMemo halves.now cache.old input.old bounds.high (is_early aim) memo.old }
    ensures cache { H.IsCache halves.now cache.new }
    ensures keeps { Keeps input.old input.new }
    ensures found { (hs : List Re) (terminator : ℕ)
        → AreHalvesOf (H.AreOf halves.now) aim hs terminator
        → IfOk result (IsAnswerBy aim.kind aim.earliest
        (search_from aim hs terminator input.old bounds.low)) }
    ensures within { IfOk result (λ found. IfSome found (IsWithinBounds input.old)) }
    ensures memo { MemosLast (H.IsCache halves.now) (H.Spends halves.now) (H.IsMemo halves.now)
        → H.IsMemo halves.now cache.new input.new bounds.high (is_early aim) memo.new }
{
    if !asks(input.get_anchored(), aim.patterns) {
        return Ok(None);
    }
    let start = bounds.low;
    let Some(end) = seek_along(halves, cache, input, aim, bounds, start, memo)? else {
        return Ok(None);
    };
    let Some(start) = seek_start(halves, cache, input, aim, end)? else {
        return Ok(None);
    };
    let found = match_of(start, end)?;
    Ok(Some(found))
}
