//! First bytes: DFA searches that first try anchored runs where a match may begin. Positions are in
//! bytes of the whole content.
ghost use Rattle.std.specs.Prelude.{◌≡◌, ◌≤◌, ℕ, List, IfOk, IfSome, length};
ghost use Rattle.rc_text.specs.Bounds.{IsWithinBounds};
ghost use Rattle.rc_text.specs.Text.{Keeps};
ghost use Rattle.rc_needles.specs.ByteSets.{AreInside};
ghost use Rattle.rc_pattern.specs.Re.{Re};
ghost use Rattle.rc_program.specs.Program.{program};
ghost use Rattle.rc_dfa_reach.specs.RunReach.{seen_to};
ghost use Rattle.rc_dfa_search.specs.Aims.{AreBounds, AreHalvesOf, search_for};
ghost use Rattle.rc_dfa_search.specs.Firsts.{TellsOthers};
ghost use Rattle.rc_dfa_search.specs.Reaches.{IsAnswerBelow, TellsReach};

use crate::reach::{Settled, find_settled, settle_inside, settle_unless};
use crate::search::{Aim, Bounds};
use rc_dfa::halves::Halves;
use rc_needles::byte_set::ByteSet;
use rc_text::cursor::Cursor;
use rc_text::input::{Input, content_fits, piece_from};
use rc_text::types::MatchError;

/// Where a search tries anchored runs before it goes along the text.
#[derive(Clone, Copy)]
pub struct Tries {
    /// Bytes over which no match begins.
    pub others: ByteSet,
    /// How many bytes are looked at for one over which a match may begin.
    pub near: usize,
    /// How many runs are tried.
    pub runs: usize,
}

/// Returns the index of the first of the bytes over which a match may begin, or how many they are.
/// Where matches are dense, it's one of the first two, which are looked at without a vector.
#[inline(always)]
fn first_over(others: &ByteSet, bytes: &[u8]) -> usize
    ensures within { result ≤ length bytes.now }
    ensures passed { AreInside others.now.flags bytes.now result }
{
    if bytes.len() > 1 {
        if !others.flags[bytes[0] as usize] {
            return 0;
        }
        if !others.flags[bytes[1] as usize] {
            return 1;
        }
    }
    others.first_outside(bytes)
}

/// Returns the match that `find` returns, and how many bytes settle it. If the search isn't
/// anchored, it first tries anchored runs from the first bytes over which a match may begin, as
/// long as the next one is near. So where matches are dense, nothing is searched backwards. If no
/// match begins there, it goes along the text. An `Err` says why the DFA has no answer.
#[inline(always)]
pub fn find_settled_first<H: Halves, C: Cursor>(
    halves: &H,
    cache: &mut H::Cache,
    input: &mut Input<C>,
    aim: Aim,
    tries: &Tries,
    bounds: Bounds,
) -> Result<Settled, MatchError>
    requires cache { H.IsCache halves.now cache.old }
    requires bounds { AreBounds input.old bounds }
    requires tells { TellsReach aim }
    ensures cache { H.IsCache halves.now cache.new }
    ensures keeps { Keeps input.old input.new }
    ensures settled { (hs : List Re) (terminator : ℕ)
        (of : AreHalvesOf (H.AreOf halves.now) aim hs terminator)
        → TellsOthers (program hs) 0 tries.now.others.flags
        → IfOk result (λ o. IsAnswerBelow aim.kind (search_for aim hs terminator input.old)
        (seen_to of.ahead.alphabet o.reach) o.found) }
    ensures within { IfOk result (λ o. IfSome o.found (IsWithinBounds input.old)) }
{
    if input.get_anchored().is_anchored() {
        return find_settled(halves, cache, input, aim, bounds);
    }
    content_fits(input);
    let Bounds { low, high } = bounds;
    let mut left = tries.runs;
    let mut at = low;
    let mut reach = low;
    while left > 0 && at < high {
        let piece = piece_from(input, at, high);
        let near = piece.len().min(tries.near);
        let passed = first_over(&tries.others, &piece[..near]);
        let from = at + passed;
        if passed == near {
            return find_settled(halves, cache, input, aim, bounds);
        }
        let inside = settle_inside(halves, cache, piece, at, from, high);
        let here = settle_unless(halves, cache, input, inside, from, high)?;
        reach = reach.max(here.reach).max(from);
        if here.found.is_some() {
            return Ok(Settled {
                found: here.found,
                reach,
            });
        }
        left -= 1;
        at = from + 1;
    }
    find_settled(halves, cache, input, aim, bounds)
}
