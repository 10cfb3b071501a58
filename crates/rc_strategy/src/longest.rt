//! Capture groups: the slots of the longest match, once its span is known.
ghost use Rattle.std.specs.Prelude.{◌≡◌, Some, length};
ghost use Rattle.rc_text.specs.Text.{Keeps};
ghost use Rattle.rc_text.specs.declared.types.MatchKind.TheVariants.{LeftmostLongest};
ghost use Rattle.rc_program.specs.Longest.{longest, longest_groups};
ghost use Rattle.rc_pikevm_search.specs.Engine.{engine_search, IsEngineCache, IsSameCache};

use rc_pikevm::cache::Cache;
use rc_pikevm_search::engine::Engine;
use rc_text::cursor::Cursor;
use rc_text::input::Input;
use rc_text::types::{Anchored, Match};

/// Writes the slots of the leftmost-longest match `found`, by passes over its span for its pattern
/// alone. The input's span and anchoring stay as they are.
pub(crate) fn search_longest_span<C: Cursor>(
    engine: &Engine,
    cache: &mut Cache,
    input: &mut Input<C>,
    found: Match,
    slots: &mut [Option<usize>],
)
    requires made { IsEngineCache engine.now (length slots.old) cache.old }
    requires kind { engine.now.kind ≡ LeftmostLongest }
    requires found { longest (engine_search engine.now input.old) ≡ Some found }
    ensures keeps { Keeps input.old input.new }
    ensures long { length slots.new ≡ length slots.old }
    ensures slots { Some slots.new ≡ longest_groups (engine_search engine.now input.old)
        (length slots.old) }
    ensures cache { IsSameCache cache.old cache.new }
{
    let span = input.get_span();
    let anchored = input.get_anchored();
    input.set_range(found.start(), found.end());
    input.set_anchored(Anchored::Pattern(found.pattern()));
    engine.find_slots(cache, input, slots);
    input.set_anchored(anchored);
    input.set_span(span);
}
