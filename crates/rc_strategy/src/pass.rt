//! Searches by the Pike VM, or by literals alone, for each question.
ghost use Rattle.std.specs.Prelude.{◌≡◌, ◌≤◌, true, is_some, IfSome};
ghost use Rattle.rc_text.specs.Bounds.{IsWithinBounds};
ghost use Rattle.rc_text.specs.Text.{Keeps, low, high};
ghost use Rattle.rc_program.specs.Greatest.{IsSpelledIn};
ghost use Rattle.rc_program.specs.Kinds.{IsAnswerBy, answer_by};
ghost use Rattle.rc_pikevm_search.specs.Engine.{engine_search, IsEngineCache, IsSameCache};
ghost use Rattle.rc_dfa_search.specs.Reaches.{IsAnswerBelow};
ghost use Rattle.rc_strategy.specs.Questions.{IsReply};

use crate::question::Question;
use crate::reach::settled_at_end;
use rc_dfa_search::reach::Settled;
use rc_pikevm::cache::Cache;
use rc_pikevm::early::first_end;
use rc_pikevm_search::engine::Engine;
use rc_pikevm_search::literals::{guards_of, literals_of};
use rc_text::cursor::Cursor;
use rc_text::input::{Input, low};
use rc_text::types::{Match, PatternID, Span};

/// Returns the match of a search that ends at `end`, in bytes. The input's span stays as it is.
fn find_up_to<C: Cursor>(
    engine: &Engine,
    cache: &mut Cache,
    input: &mut Input<C>,
    end: usize,
) -> Option<Match>
    requires made { IsEngineCache engine.now 0 cache.old }
    requires within { (low input.old ≤ end) × (end ≤ high input.old) }
    ensures keeps { Keeps input.old input.new }
    ensures spelled { IfSome result (IsSpelledIn (engine_search engine.now input.old)) }
    ensures within { IfSome result (IsWithinBounds input.old) }
    ensures cache { IsSameCache cache.old cache.new }
{
    let span = input.get_span();
    input.set_end(end);
    let found = engine.find(cache, input);
    input.set_span(span);
    found
}

/// Returns some match. A pass ends at the first position at which a match does, and a search up to
/// there finds it. If matches may be passed over, or literals alone decide, that is the match of
/// the kind.
#[inline(never)]
fn find_early<C: Cursor>(engine: &Engine, cache: &mut Cache, input: &mut Input<C>) -> Option<Match>
    requires made { IsEngineCache engine.now 0 cache.old }
    ensures keeps { Keeps input.old input.new }
    ensures may { IsAnswerBy engine.now.kind true (engine_search engine.now input.old) result }
    ensures within { IfSome result (IsWithinBounds input.old) }
    ensures cache { IsSameCache cache.old cache.new }
{
    let program = &engine.program;
    if program.passes_over || literals_of(&engine.literals, engine.kind).is_some() {
        return engine.find(cache, input);
    }
    let needles = guards_of(&engine.literals);
    let Some(end) = first_end(cache, input, program, needles) else {
        return None;
    };
    if let Some(found) = find_up_to(engine, cache, input, end) {
        return Some(found);
    }
    engine.find(cache, input)
}

/// Returns an empty match if there is a match.
#[inline(never)]
fn find_any<C: Cursor>(engine: &Engine, cache: &mut Cache, input: &mut Input<C>) -> Option<Match>
    requires made { IsEngineCache engine.now 0 cache.old }
    ensures keeps { Keeps input.old input.new }
    ensures found { is_some result ≡ is_some
        (answer_by engine.now.kind (engine_search engine.now input.old)) }
    ensures within { IfSome result (IsWithinBounds input.old) }
    ensures cache { IsSameCache cache.old cache.new }
{
    if !engine.is_match(cache, input) {
        return None;
    }
    let start = low(input);
    Some(Match::new(PatternID::ZERO, Span { start, end: start }))
}

/// Replies to a question.
#[inline(always)]
pub(crate) fn ask_pass<C: Cursor>(
    engine: &Engine,
    cache: &mut Cache,
    input: &mut Input<C>,
    question: Question,
) -> Option<Match>
    requires made { IsEngineCache engine.now 0 cache.old }
    ensures keeps { Keeps input.old input.new }
    ensures reply { IsReply question engine.now.kind (engine_search engine.now input.old) result }
    ensures within { IfSome result (IsWithinBounds input.old) }
    ensures cache { IsSameCache cache.old cache.new }
{
    match question {
        Question::Match | Question::End => engine.find(cache, input),
        Question::Any => find_any(engine, cache, input),
        Question::Earliest => find_early(engine, cache, input),
    }
}

/// Returns the match, and how many bytes settle it. If prefix literals guard the search, those are
/// all bytes up to the end of the slice, and one more.
#[inline(always)]
pub(crate) fn settle_by_pass<C: Cursor>(
    engine: &Engine,
    cache: &mut Cache,
    input: &mut Input<C>,
) -> Settled
    requires made { IsEngineCache engine.now 0 cache.old }
    ensures keeps { Keeps input.old input.new }
    ensures settled { IsAnswerBelow engine.now.kind
        (engine_search engine.now input.old) result.reach result.found }
    ensures past { IfSome result.found (λ m. m.end ≤ result.reach) }
    ensures within { IfSome result.found (IsWithinBounds input.old) }
    ensures cache { IsSameCache cache.old cache.new }
{
    if guards_of(&engine.literals).is_none() {
        let told = engine.find_reach(cache, input);
        return Settled {
            found: told.found,
            reach: told.reach,
        };
    }
    let found = engine.find(cache, input);
    settled_at_end(input, found)
}
