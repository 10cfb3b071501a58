//! Reaches: how many bytes settle what a search finds.

ghost use Rattle.std.specs.Prelude.{◌≡◌, ◌+◌, ◌^◌, ◌<◌, Some, map, max, min};
ghost use Rattle.rc_pattern.specs.Meaning.{meaning};
ghost use Rattle.rc_pattern.specs.Properties.{both};
ghost use Rattle.rc_text.specs.Text.{Keeps, slice_end};
ghost use Rattle.api_meta.specs.Reaching.{anchored_start, longest_after, reach_after};

use crate::cache::Cache;
use crate::regex::Regex;
use rc_captures::captures::Captures;
use rc_pattern::check::properties_of;
use rc_pattern::hir::Hir;
use rc_text::cursor::Cursor;
use rc_text::input::{Input, content_fits, low, move_to, position};
use rc_text::types::{Match, MatchKind};

/// How many bytes after a position an assertion looks at, at most.
pub(crate) const LOOKS_AHEAD: usize = 4;

/// A match, if there is one, and how many bytes of the content settle it.
///
/// The result of a search depends on no byte from `reach` on. Any content that begins with the same
/// `reach` bytes has the same result, if the span and the slice have the same bytes there too and
/// begin where they did. If the span or the slice ends before `reach`, it has to end there too.
#[derive(Clone, Copy, Debug, PartialEq, Eq)]
pub struct Reached {
    /// The match.
    pub found: Option<Match>,
    /// A count of bytes from the start of the content: at least where the match ends, and at most
    /// one more than where the slice or the content does. That one says that the end was looked at.
    pub reach: usize,
}

/// A match with its groups, and how many bytes of the content settle them.
pub struct ReachedCaptures {
    /// The match with its groups. They are empty if there is no match.
    pub captures: Captures,
    /// The count that `Regex::search_captures_reach_with` returns.
    pub reach: usize,
}

impl Regex {
    ghost use Rattle.std.specs.Prelude.{◌≡◌, ◌+◌, ◌≤◌, IfSome, Some, length};
    ghost use Rattle.rc_captures.specs.Captures.{IsCapturesFor, captures_slots, match_of};
    ghost use Rattle.rc_pikevm_search.specs.Tells.{TellsBy};
    ghost use Rattle.rc_program.specs.Kinds.{answer_by};
    ghost use Rattle.rc_program.specs.Sought.{search_for};
    ghost use Rattle.rc_reach.specs.Settled.{IsSettled};
    ghost use Rattle.rc_text.specs.Bounds.{IsWithinBounds};
    ghost use Rattle.rc_text.specs.Text.{Keeps, slice_end};
    ghost use Rattle.api_meta.specs.Caches.{HasSameRoom, IsCacheFor};
    ghost use Rattle.api_meta.specs.Reached.{IsNear, IsNearStart, IsSharp, TellsBelow};
    ghost use Rattle.api_meta.specs.Reaching.{EndsSettled, last_start};
    ghost use Rattle.api_meta.specs.Views.{regex_kind, regex_names, regex_patterns, regex_settings, sought};

    /// Returns the match that `find` finds with the earliest flag off, and how many bytes settle
    /// it, in a cache that was made for this regex. It takes no memory.
    ///
    /// The reach is right, but needn't be the least. If no pattern matches more than n bytes, a
    /// match has a reach of at most n bytes from its start, and as many more as assertions look
    /// ahead, except under `MatchKind::All`. Those are none without assertions that look ahead, at
    /// most one without word boundaries of Unicode, and at most four with them; and one at least if
    /// matches that end inside a character are passed over. An anchored search from its own start
    /// has a reach of at most n + 4 bytes from there, also without a match.
    ///
    /// If a DFA searches forwards for a leftmost match, and none is passed over, the reach ends
    /// where it saw that nothing goes on, or as far as the longest literal would reach from the
    /// last one that it tried. If the Pike VM reads along the text by no literals, for a
    /// leftmost-first match, it ends at most four bytes after those that its walks read. Otherwise
    /// the reach goes to the end of the slice, and one further.
    pub fn search_reach_with<C: Cursor>(&self, cache: &mut Cache, input: &mut Input<C>) -> Reached
        requires made { IsCacheFor (regex_patterns self.now) (regex_settings self.now) cache.old }
        ensures cache { IsCacheFor (regex_patterns self.now) (regex_settings self.now) cache.new }
        ensures room { HasSameRoom cache.old cache.new }
        ensures keeps { Keeps input.old input.new }
        ensures found { result.found
            ≡ answer_by (regex_kind self.now) (search_for (sought self.now) input.old) }
        ensures settled { IsSettled (regex_kind self.now) result.reach
            (search_for (sought self.now) input.old) }
        ensures within { (IfSome result.found (λ m. m.end ≤ result.reach))
            × (result.reach ≤ slice_end input.old + 1) }
        ensures near { IsNear (regex_kind self.now) (regex_patterns self.now)
            result.found result.reach }
        ensures sharp { IsSharp (regex_kind self.now) (sought self.now)
            result.found result.reach }
        ensures anchored { IsNearStart (regex_patterns self.now) input.old
            result.found result.reach }
    {
        let settled = self.engines.find_settled(&mut cache.inner, input);
        let reach = self.reach_of(settled.found, input).min(settled.reach);
        Reached {
            found: settled.found,
            reach,
        }
    }

    /// Writes the match that `captures` finds to captures that were made for this regex, in a cache
    /// that was made for it. Returns how many bytes settle the match and its groups: as many as
    /// `search_reach_with` tells, or those up to the end of the match and after it at which
    /// assertions look, if these are more. It takes no memory.
    pub fn search_captures_reach_with<C: Cursor>(
        &self,
        cache: &mut Cache,
        input: &mut Input<C>,
        caps: &mut Captures,
    ) -> usize
        requires made { IsCacheFor (regex_patterns self.now) (regex_settings self.now) cache.old }
        requires for_regex { IsCapturesFor (regex_names self.now) caps.old }
        ensures cache { IsCacheFor (regex_patterns self.now) (regex_settings self.now) cache.new }
        ensures room { HasSameRoom cache.old cache.new }
        ensures keeps { Keeps input.old input.new }
        ensures still_made { IsCapturesFor (regex_names self.now) caps.new }
        ensures long { length (captures_slots caps.new) ≡ length (captures_slots caps.old) }
        ensures told_by { TellsBy (regex_kind self.now)
            (search_for (sought self.now) input.old) caps.new }
        ensures matched_by { match_of caps.new
            ≡ answer_by (regex_kind self.now) (search_for (sought self.now) input.old) }
        ensures settled { TellsBelow (regex_kind self.now) result
            (search_for (sought self.now) input.old) caps.new }
        ensures within { (IfSome (match_of caps.new) (λ m. m.end ≤ result))
            × (result ≤ slice_end input.old + 1) }
        ensures near { IsNear (regex_kind self.now) (regex_patterns self.now)
            (match_of caps.new) result }
        ensures sharp { IsSharp (regex_kind self.now) (sought self.now)
            (match_of caps.new) result }
    {
        let settled = self.engines.settle_captures(&mut cache.inner, input, caps);
        self.reach_of(settled.found, input).min(settled.reach)
    }

    /// How many bytes settle what a search of the input found, as far as the lengths of the
    /// patterns tell.
    pub(crate) fn reach_of<C: Cursor>(&self, found: Option<Match>, input: &mut Input<C>) -> usize
        requires answer { found
            ≡ answer_by (regex_kind self.now) (search_for (sought self.now) input.old) }
        requires bounds { IfSome found (IsWithinBounds input.old) }
        ensures keeps { Keeps input.old input.new }
        ensures settled { EndsSettled (regex_kind self.now)
            (search_for (sought self.now) input.old) found result }
        ensures within { result ≤ slice_end input.old + 1 }
        ensures near { IsNear (regex_kind self.now) (regex_patterns self.now) found result }
        ensures anchored { IsNearStart (regex_patterns self.now) input.old found result }
    {
        let most = reach_after(self.last_start(found, input), self.longest);
        up_to_slice_end(input, most)
    }

    /// The last start that decides a search of the input that found this.
    fn last_start<C: Cursor>(&self, found: Option<Match>, input: &Input<C>) -> Option<usize>
        ensures { result ≡ last_start (regex_kind self.now) input.now found }
    {
        match (self.get_config().get_match_kind(), found) {
            (MatchKind::LeftmostFirst | MatchKind::LeftmostLongest, Some(found)) => {
                Some(found.start())
            }
            (_, _) => anchored_start(input),
        }
    }
}

/// Where an anchored search begins, and `None` if the search isn't anchored.
fn anchored_start<C: Cursor>(input: &Input<C>) -> Option<usize>
    ensures { result ≡ anchored_start input.now }
{
    if input.get_anchored().is_anchored() {
        Some(low(input))
    } else {
        None
    }
}

/// How many bytes settle a search, if `start` is the last start that decides it, and `longest` the
/// greatest length of the patterns.
fn reach_after(start: Option<usize>, longest: Option<usize>) -> usize
    ensures { result ≡ reach_after start longest }
{
    match (start, longest) {
        (Some(start), Some(longest)) => {
            start.saturating_add(longest).saturating_add(LOOKS_AHEAD)
        }
        (Some(_), None) => usize::MAX,
        (None, _) => usize::MAX,
    }
}

/// The greatest length of these patterns, in bytes, or `None` if one of them has none.
pub(crate) fn greatest_length(hirs: &[Hir]) -> Option<usize>
    ensures { result ≡ longest_after (Some 0) (map meaning hirs.now) }
{
    let mut longest = Some(0);
    for hir in hirs {
        longest = greater(longest, properties_of(hir).maximum_len());
    }
    longest
}

/// The greater of two numbers, if both are known.
fn greater(left: Option<usize>, right: Option<usize>) -> Option<usize>
    ensures { result ≡ both (λ m n. Some (max m n)) left right }
{
    match (left, right) {
        (Some(m), Some(n)) => Some(m.max(n)),
        (Some(_), None) => None,
        (None, _) => None,
    }
}

/// This count of bytes, but at most one more than where the slice ends.
fn up_to_slice_end<C: Cursor>(input: &mut Input<C>, count: usize) -> usize
    ensures keeps { Keeps input.old input.new }
    ensures value { result ≡ min count (slice_end input.old + 1) }
    ensures fits { slice_end input.old + 1 < 2 ^ 64 }
{
    content_fits(input);
    let end = input.get_slice_span().end;
    let len = match input.content_len() {
        Some(len) => len,
        None => {
            move_to(input, end.min(count));
            position(input)
        }
    };
    count.min(end.min(len) + 1)
}
