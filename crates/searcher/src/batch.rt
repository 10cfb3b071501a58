//! Batches: the next matches of an iteration, written to places that a caller lends.
ghost use Rattle.std.specs.Prelude.{◌≡◌, ◌≤◌, IfSome, None, false};
ghost use Rattle.rc_pikevm_search.specs.Moved.{IsMoved};
ghost use Rattle.api_meta.specs.Caches.{IsCacheFor};
ghost use Rattle.api_meta.specs.Views.{regex_kind, regex_patterns, regex_settings, sought};
ghost use Rattle.rc_program.specs.Kinds.{answer_by, answer_by_from, matches_by_kind};
ghost use Rattle.rc_program.specs.Matches.{begin_of, end_of, next_match};
ghost use Rattle.rc_program.specs.Sought.{search_for};
ghost use Rattle.rc_text.specs.Bounds.{IsWithinBounds};
ghost use Rattle.rc_text.specs.Text.{Keeps, high};
ghost use Rattle.searcher.specs.Last.{last_before};
ghost use Rattle.searcher.specs.Places.{GoesOn, IsFilled};

use crate::answers::MatchAt;
use api_meta::cache::Cache;
use api_meta::regex::Regex;
use rc_program::matches::is_again;
use rc_text::cursor::Cursor;
use rc_text::input::{Input, content_fits};
use rc_text::types::Match;

/// The result of filling a batch, and the state of the iteration after it.
#[derive(Clone, Copy)]
pub(crate) struct Filled {
    /// The number of matches.
    pub(crate) count: usize,
    /// Where the next search begins.
    pub(crate) from: usize,
    /// Where the last match ended.
    pub(crate) last: Option<usize>,
}

/// Returns the match of an input whose earliest flag is off.
pub(crate) fn search<C: Cursor>(
    regex: &Regex,
    cache: &mut Cache,
    input: &mut Input<C>,
) -> Option<Match>
    requires made { IsCacheFor (regex_patterns regex.now) (regex_settings regex.now) cache.old }
    requires off { input.old.earliest ≡ false }
    ensures cache { IsCacheFor (regex_patterns regex.now) (regex_settings regex.now) cache.new }
    ensures keeps { Keeps input.old input.new }
    ensures found { result ≡ answer_by (regex_kind regex.now)
        (search_for (sought regex.now) input.old) }
    ensures within { IfSome result (IsWithinBounds input.old) }
{
    regex.search_with(cache, input)
}

/// Returns the match of an input whose earliest flag is off, as the first item of an iteration. The
/// iteration doesn't read the flag. The span may start elsewhere afterwards.
fn first<C: Cursor>(regex: &Regex, cache: &mut Cache, input: &mut Input<C>) -> Option<Match>
    requires made { IsCacheFor (regex_patterns regex.now) (regex_settings regex.now) cache.old }
    ensures cache { IsCacheFor (regex_patterns regex.now) (regex_settings regex.now) cache.new }
    ensures moves { IsMoved input.old input.new }
    ensures found { result ≡ answer_by (regex_kind regex.now)
        (search_for (sought regex.now) input.old) }
    ensures within { IfSome result (IsWithinBounds input.old) }
{
    let mut matches = regex.find_iter_with(cache, input);
    matches.next()
}

/// Returns the next match of the iteration; the last one ended at `last`. The span may start
/// elsewhere afterwards.
fn next_match<C: Cursor>(
    regex: &Regex,
    cache: &mut Cache,
    input: &mut Input<C>,
    last: Option<usize>,
) -> Option<Match>
    requires made { IsCacheFor (regex_patterns regex.now) (regex_settings regex.now) cache.old }
    requires off { input.old.earliest ≡ false }
    ensures cache { IsCacheFor (regex_patterns regex.now) (regex_settings regex.now) cache.new }
    ensures moves { IsMoved input.old input.new }
    ensures found { result
        ≡ next_match begin_of end_of (answer_by_from (regex_kind regex.now)
        (search_for (sought regex.now) input.old)) input.old.span.start last }
    ensures within { IfSome result (λ m. m.end ≤ high input.new) }
{
    content_fits(input);
    let start = input.start();
    let found = first(regex, cache, input)?;
    if !is_again(last, found) {
        return Some(found);
    }
    input.set_start(start + 1);
    search(regex, cache, input)
}

/// Returns the last match of the input that begins before the place. The span may start elsewhere
/// afterwards.
pub(crate) fn last_before<C: Cursor>(
    regex: &Regex,
    cache: &mut Cache,
    input: &mut Input<C>,
    place: usize,
) -> Option<Match>
    requires made { IsCacheFor (regex_patterns regex.now) (regex_settings regex.now) cache.old }
    ensures cache { IsCacheFor (regex_patterns regex.now) (regex_settings regex.now) cache.new }
    ensures found { result ≡ last_before place
        (matches_by_kind (regex_kind regex.now)
        (search_for (sought regex.now) input.old) input.old.span.start None) }
{
    let mut last = None;
    for found in regex.find_iter_with(cache, input) {
        if found.start() >= place {
            return last;
        }
        last = Some(found);
    }
    last
}

/// Fills the batch with the next matches of the iteration; the last one ended at `before`.
pub(crate) fn fill<C: Cursor>(
    regex: &Regex,
    cache: &mut Cache,
    input: &mut Input<C>,
    before: Option<usize>,
    batch: &mut [MatchAt],
) -> Filled
    requires made { IsCacheFor (regex_patterns regex.now) (regex_settings regex.now) cache.old }
    requires off { input.old.earliest ≡ false }
    ensures cache { IsCacheFor (regex_patterns regex.now) (regex_settings regex.now) cache.new }
    ensures filled { IsFilled
        (matches_by_kind (regex_kind regex.now)
        (search_for (sought regex.now) input.old) input.old.span.start before)
        (matches_by_kind (regex_kind regex.now)
        (search_for (sought regex.now) input.old) result.from result.last)
        batch.new result.count }
    ensures goes_on { GoesOn batch.new result.count input.old.span.start before
        result.from result.last }
{
    let mut last = before;
    for count in 0..batch.len() {
        let from = input.start();
        let Some(found) = next_match(regex, cache, input, last) else {
            return Filled { count, from, last };
        };
        batch[count] = MatchAt::of(found);
        input.set_start(found.end());
        last = Some(found.end());
    }
    Filled {
        count: batch.len(),
        from: input.start(),
        last,
    }
}
