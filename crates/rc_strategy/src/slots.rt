//! Capture groups: the slots of a match whose span is known.
ghost use Rattle.std.specs.Prelude.{◌≡◌, Some, length};
ghost use Rattle.rc_text.specs.Text.{Keeps};
ghost use Rattle.rc_program.specs.Answer.{answer, groups};
ghost use Rattle.rc_program.specs.Places.{places_of};
ghost use Rattle.rc_pikevm.specs.KindSlots.{span_slots};
ghost use Rattle.rc_pikevm_search.specs.Engine.{engine_search, IsEngineCache, IsSameCache};
ghost use Rattle.rc_strategy.specs.Slots.{IsOfPatterns};

use crate::engines::Engines;
use crate::entries::entry_of;
use crate::longest::search_longest_span;
use crate::onepass::tell_slots;
use rc_pikevm::cache::Cache;
use rc_pikevm::rule::Rule;
use rc_pikevm::search::search_slots;
use rc_pikevm_search::engine::Engine;
use rc_text::cursor::Cursor;
use rc_text::input::Input;
use rc_text::types::{Anchored, Match, MatchKind};

/// Writes the whole match to its two slots, as far as these exist, and None to all others.
pub(crate) fn put_span(found: Match, slots: &mut [Option<usize>])
    ensures { slots.new ≡ span_slots (length slots.old) found }
{
    slots.fill(None);
    let first = 2 * found.pattern().as_usize();
    if first < slots.len() {
        slots[first] = Some(found.start());
    }
    if first + 1 < slots.len() {
        slots[first + 1] = Some(found.end());
    }
}

/// Writes the slots of the leftmost-first match `found`, by a pass over its span. It enters at the
/// place of the match's pattern, and so at no other pattern's. The input's span and anchoring stay
/// as they are.
fn search_span<C: Cursor>(
    engine: &Engine,
    cache: &mut Cache,
    input: &mut Input<C>,
    found: Match,
    slots: &mut [Option<usize>],
)
    requires made { IsEngineCache engine.now (length slots.old) cache.old }
    requires program { IsOfPatterns (places_of engine.now.program.places.items) }
    requires found { answer (engine_search engine.now input.old) ≡ Some found }
    ensures keeps { Keeps input.old input.new }
    ensures long { length slots.new ≡ length slots.old }
    ensures slots { Some slots.new ≡ groups (engine_search engine.now input.old)
        (length slots.old) }
    ensures cache { IsSameCache cache.old cache.new }
{
    let span = input.get_span();
    let anchored = input.get_anchored();
    let program = &engine.program;
    let root = entry_of(&program.places, found.pattern().as_usize());
    input.set_range(found.start(), found.end());
    input.set_anchored(Anchored::Pattern(found.pattern()));
    search_slots(cache, input, program, Rule::First(root), None, slots);
    input.set_anchored(anchored);
    input.set_span(span);
}

impl Engines {
    ghost use Rattle.std.specs.Prelude.{◌≡◌, Some, length};
    ghost use Rattle.rc_text.specs.Text.{Keeps};
    ghost use Rattle.rc_program.specs.Kinds.{answer_by};
    ghost use Rattle.rc_pikevm.specs.KindSlots.{slots_by};
    ghost use Rattle.rc_pikevm_search.specs.Engine.{engine_search, IsEngineCache, IsSameCache};

    /// Writes the first slots of the match that a search of the input found, as many as `slots`
    /// has. If these are only slots of whole matches, no pass is made. If the one-pass DFA doesn't
    /// tell the others, the Pike VM does. With `MatchKind::All`, no group has a slot set.
    pub(crate) fn fill_slots<C: Cursor>(
        &self,
        cache: &mut Cache,
        input: &mut Input<C>,
        found: Match,
        slots: &mut [Option<usize>],
    )
        requires made { IsEngineCache self.now.engine (length slots.old) cache.old }
        requires found { answer_by self.now.engine.kind
            (engine_search self.now.engine input.old) ≡ Some found }
        ensures keeps { Keeps input.old input.new }
        ensures long { length slots.new ≡ length slots.old }
        ensures slots { Some slots.new ≡ slots_by self.now.engine.kind
            (engine_search self.now.engine input.old) (length slots.old) }
        ensures cache { IsSameCache cache.old cache.new }
    {
        let engine = &self.engine;
        let asked = slots.len() > self.patterns.saturating_mul(2);
        match engine.kind {
            MatchKind::LeftmostFirst if asked => {
                if !tell_slots(&self.onepass, input, found, slots) {
                    search_span(engine, cache, input, found, slots);
                }
            }
            MatchKind::LeftmostLongest if asked => {
                if !tell_slots(&self.onepass, input, found, slots) {
                    search_longest_span(engine, cache, input, found, slots);
                }
            }
            _ => put_span(found, slots),
        }
    }
}
