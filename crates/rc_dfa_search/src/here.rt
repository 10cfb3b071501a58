//! Search from the start: a DFA search that first looks for a match where it begins. Positions are
//! in bytes of the whole content.
ghost use Rattle.std.specs.Prelude.{◌≡◌, ℕ, List, Some, IfOk, IfSome, IsTrue};
ghost use Rattle.rc_text.specs.Bounds.{IsWithinBounds};
ghost use Rattle.rc_text.specs.Text.{Keeps};
ghost use Rattle.rc_pattern.specs.Re.{Re};
ghost use Rattle.rc_program.specs.Kinds.{IsAnswerBy, answer_by};
ghost use Rattle.rc_dfa_search.specs.Aims.{AreBounds, AreHalvesOf, search_for};
ghost use Rattle.rc_dfa_search.specs.Firsts.{MayBeginThere};

use crate::search::{Aim, Bounds, find_between};
use rc_dfa::halves::Halves;
use rc_text::cursor::Cursor;
use rc_text::input::Input;
use rc_text::types::{Anchored, Match, MatchError, MatchKind};

/// Whether a match that begins where the search does is the one that the search returns: the search
/// must be leftmost, any match must not be enough, and it must not be anchored.
#[inline(always)]
fn may_begin_there(aim: Aim, anchored: Anchored) -> bool
    ensures { IsTrue result → MayBeginThere aim anchored }
{
    match (aim.kind, anchored) {
        (MatchKind::LeftmostFirst | MatchKind::LeftmostLongest, Anchored::No) => !aim.earliest,
        _ => false,
    }
}

/// Returns the match that begins at the lower bound, by an anchored search, unless it is passed
/// over. If there is one, it is the match of the search.
#[inline(always)]
fn find_here<H: Halves, C: Cursor>(
    halves: &H,
    cache: &mut H::Cache,
    input: &mut Input<C>,
    aim: Aim,
    bounds: Bounds,
) -> Result<Option<Match>, MatchError>
    requires cache { H.IsCache halves.now cache.old }
    requires bounds { AreBounds input.old bounds }
    requires may { MayBeginThere aim input.old.anchored }
    ensures cache { H.IsCache halves.now cache.new }
    ensures keeps { Keeps input.old input.new }
    ensures found { (hs : List Re) (terminator : ℕ)
        → AreHalvesOf (H.AreOf halves.now) aim hs terminator
        → IfOk result (λ found. IfSome found
        (λ m. answer_by aim.kind (search_for aim hs terminator input.old) ≡ Some m)) }
    ensures within { IfOk result (λ found. IfSome found (IsWithinBounds input.old)) }
{
    let anchored = input.get_anchored();
    input.set_anchored(Anchored::Yes);
    let found = find_between(halves, cache, input, aim, bounds);
    input.set_anchored(anchored);
    found
}

/// Returns the match that `find_between` returns. It first looks for one that begins at the lower
/// bound, by an anchored run forwards. So nothing is searched backwards where patterns match at
/// each position. If no match begins there, or it is passed over, the search goes along the text.
/// It fails as `find_between` does.
pub fn find_here_first<H: Halves, C: Cursor>(
    halves: &H,
    cache: &mut H::Cache,
    input: &mut Input<C>,
    aim: Aim,
    bounds: Bounds,
) -> Result<Option<Match>, MatchError>
    requires cache { H.IsCache halves.now cache.old }
    requires bounds { AreBounds input.old bounds }
    ensures cache { H.IsCache halves.now cache.new }
    ensures keeps { Keeps input.old input.new }
    ensures found { (hs : List Re) (terminator : ℕ)
        → AreHalvesOf (H.AreOf halves.now) aim hs terminator
        → IfOk result (IsAnswerBy aim.kind aim.earliest (search_for aim hs terminator input.old)) }
    ensures within { IfOk result (λ found. IfSome found (IsWithinBounds input.old)) }
{
    if may_begin_there(aim, input.get_anchored()) {
        let here = find_here(halves, cache, input, aim, bounds)?;
        if here.is_some() {
            return Ok(here);
        }
    }
    find_between(halves, cache, input, aim, bounds)
}
