//! Prefilters: DFA searches that first try an anchored run where the first match may begin.
//! Positions are in bytes of the whole content.
ghost use Rattle.std.specs.Prelude.{◌≡◌, ℕ, List, IfOk, IfSome};
ghost use Rattle.rc_text.specs.Bounds.{IsWithinBounds};
ghost use Rattle.rc_text.specs.Text.{Keeps};
ghost use Rattle.rc_pattern.specs.Re.{Re};
ghost use Rattle.rc_program.specs.Program.{program};
ghost use Rattle.rc_needles.specs.Guards.{Guards};
ghost use Rattle.rc_needles.specs.Prefilters.{needles_of};
ghost use Rattle.rc_program.specs.Kinds.{answer_by};
ghost use Rattle.rc_dfa_search.specs.Aims.{AreBounds, AreHalvesOf, search_for};
ghost use Rattle.rc_dfa_search.specs.Legs.{GoesByNeedles};

use crate::needles::{Left, find_by_needles};
use crate::reach::settle_here;
use crate::search::{Aim, Bounds};
use rc_dfa::halves::Halves;
use rc_literals::guard::{Guard, next_start};
use rc_needles::prefilter::Prefilter;
use rc_text::cursor::Cursor;
use rc_text::input::{Input, content_fits};
use rc_text::types::{Match, MatchError};

/// How many anchored runs are tried after the first, if there are many needles.
const MORE_RUNS: usize = 16;

/// Whether a table of bits rules out most positions before the trie of the needles is asked.
pub fn have_openings(needles: &Prefilter) -> bool {
    match &needles.searcher.table.trie {
        Some(trie) => !trie.openings.is_empty(),
        None => false,
    }
}

/// Returns how many anchored runs are tried after the first. With many needles they reach fewer and
/// smaller states than a run that may begin anywhere.
#[inline(always)]
fn more_runs(needles: &Prefilter) -> usize {
    if have_openings(needles) {
        return MORE_RUNS;
    }
    0
}

/// Returns the leftmost match, if each match begins with a needle. It first tries an anchored run
/// where the first match may begin, and with many needles some more, where the next ones may. If
/// none begins there, it searches on from the last of these positions, from needle to needle.
#[inline(always)]
pub(crate) fn find_by_first<H: Halves, C: Cursor>(
    halves: &H,
    cache: &mut H::Cache,
    input: &mut Input<C>,
    aim: Aim,
    needles: &Prefilter,
    bounds: Bounds,
) -> Result<Option<Match>, MatchError>
    requires cache { H.IsCache halves.now cache.old }
    requires bounds { AreBounds input.old bounds }
    requires goes { GoesByNeedles aim input.old.anchored }
    ensures cache { H.IsCache halves.now cache.new }
    ensures keeps { Keeps input.old input.new }
    ensures found { (hs : List Re) (terminator : ℕ)
        → AreHalvesOf (H.AreOf halves.now) aim hs terminator
        → Guards (program hs) terminator (needles_of needles.now)
        → IfOk result (λ found. found ≡ answer_by aim.kind
        (search_for aim hs terminator input.old)) }
    ensures within { IfOk result (λ found. IfSome found (IsWithinBounds input.old)) }
{
    content_fits(input);
    let high = bounds.high;
    let mut at = bounds.low;
    let mut more = more_runs(needles);
    'runs: loop {
        let Some(start) = next_start(input, Guard::Begins(needles), at, high) else {
            return Ok(None);
        };
        let from = start.from;
        let here = settle_here(halves, cache, input, from, high)?;
        if let Some(found) = here.found {
            return Ok(Some(found));
        }
        if more == 0 || from >= high {
            let (at, reach) = (from, usize::MAX);
            let left = Left { at, reach, bounds };
            return find_by_needles(halves, cache, input, aim, Guard::Begins(needles), left);
        }
        more -= 1;
        at = from + 1;
    }
}
