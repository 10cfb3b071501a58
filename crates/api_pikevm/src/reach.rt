//! Reaches: Pike VM searches that tell how many bytes settle what they find.

ghost use Rattle.std.specs.Prelude.{◌≡◌, ℕ, ◌≤◌, ◌+◌, IfSome, false};
ghost use Rattle.rc_text.specs.Bounds.{IsWithinBounds};
ghost use Rattle.rc_text.specs.Text.{Keeps, high, low, slice_end};
ghost use Rattle.rc_text.specs.declared.types.MatchKind.TheVariants.{LeftmostFirst};
ghost use Rattle.rc_program.specs.Answer.{chosen};
ghost use Rattle.rc_program.specs.Kinds.{answer_by};
ghost use Rattle.rc_program.specs.Sought.{passes_over, search_for};
ghost use Rattle.rc_reach.specs.Reads.{ReadsBelow};
ghost use Rattle.rc_reach.specs.Settled.{IsSettled};
ghost use Rattle.rc_settings.specs.SearchSettings.{match_kind_of};
ghost use Rattle.api_pikevm.specs.Caches.{HasSameRoom, IsCacheFor};
ghost use Rattle.api_pikevm.specs.Views.{sought, vm_settings};

use crate::cache::Cache;
use crate::vm::PikeVM;
use rc_text::cursor::Cursor;
use rc_text::input::Input;
use rc_text::types::Match;

/// A match, if there is one, and how many bytes of the content settle it.
///
/// The result of a search depends on no byte from `reach` on. Any content that begins with the same
/// `reach` bytes has the same result, if the span and the slice have the same bytes there too and
/// begin where they did. If the span or the slice ends before `reach`, it has to end there too.
#[derive(Clone, Copy, Debug, PartialEq, Eq)]
pub struct Reached {
    /// The match.
    pub found: Option<Match>,
    /// A count of bytes from the start of the content: at most one more than where the slice or the
    /// content ends. That one says that the end was looked at.
    pub reach: usize,
}

/// Returns the match that `search` finds, and how many bytes settle it. The cache has to be made for
/// this `PikeVM`, and stays so. What it counts afterwards is not promised.
///
/// Under `MatchKind::LeftmostFirst`, if no match can be rejected, the reach is at most four more than
/// the count of bytes that the walks read which decide the match. Otherwise it goes to the end of
/// the slice, and one further.
pub fn search_reach<C: Cursor>(vm: &PikeVM, cache: &mut Cache, input: &mut Input<C>) -> Reached
    requires made { IsCacheFor (sought vm.now) cache.old }
    ensures cache { IsCacheFor (sought vm.now) cache.new }
    ensures room { HasSameRoom cache.old cache.new }
    ensures keeps { Keeps input.old input.new }
    ensures found { result.found
        ≡ answer_by (match_kind_of (vm_settings vm.now)) (search_for (sought vm.now) input.old) }
    ensures bounds { IfSome result.found (IsWithinBounds input.old) }
    ensures settled { IsSettled (match_kind_of (vm_settings vm.now)) result.reach
        (search_for (sought vm.now) input.old) }
    ensures within { result.reach ≤ slice_end input.old + 1 }
    ensures sharp { match_kind_of (vm_settings vm.now) ≡ LeftmostFirst
        → passes_over (sought vm.now) ≡ false → low input.old ≤ high input.old → (r : ℕ)
        → ReadsBelow (search_for (sought vm.now) input.old) r
        (chosen (search_for (sought vm.now) input.old)) → result.reach ≤ r + 4 }
{
    let told = vm.built.engine.find_reach(&mut cache.inner, input);
    Reached {
        found: told.found,
        reach: told.reach,
    }
}
