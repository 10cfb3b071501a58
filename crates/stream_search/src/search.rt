//! Searches of the bytes that a stream keeps.
ghost use Rattle.std.specs.Prelude.{◌≡◌, ◌+◌, ◌<◌, ◌≤◌, ◌^◌, drop, false, length, vec_len};
ghost use Rattle.rc_program.specs.Matches.{begin_of, end_of, is_again};
ghost use Rattle.rc_reach.specs.Edits.{match_further};
ghost use Rattle.rc_text.specs.Text.{Keeps, end_by_total};
ghost use Rattle.api_meta.specs.Partials.{partial_of};
ghost use Rattle.api_meta.specs.Views.{regex_kind};
ghost use Rattle.stream_search.specs.Searches.{IsFrom, IsOver, IsPast, LiesIn, TellsBefore, seeks};
ghost use Rattle.stream_search.specs.Streams.{IsTold};

use crate::finds::PartialFinder;
use rc_text::input::content_fits;
use regex_cursor::engines::meta::Partial;
use regex_cursor::types::{Match, Span};
use regex_cursor::{Cursor, Input};

/// Returns a position before which the content of the input tells all.
pub fn settled_of<F: PartialFinder, C: Cursor>(finder: &F, input: &mut Input<C>) -> usize
    requires over { IsOver input.old }
    ensures keeps { Keeps input.old input.new }
    ensures settled { TellsBefore (F.searched_by finder.now) input.old.content result }
    ensures within { result ≤ length input.old.content }
{
    content_fits(input);
    finder.its_regex().settled_before(input)
}

/// Returns what the kept bytes tell of a search from `at` on. If no more bytes follow, that is all.
#[inline(always)]
pub fn search_kept<F: PartialFinder>(
    finder: &mut F,
    kept: &[u8],
    at: usize,
    is_finished: bool,
) -> Partial
    requires inside { at ≤ length kept.now + 1 }
    ensures regex { F.searched_by finder.new ≡ F.searched_by finder.old }
    ensures told { IsTold (regex_kind (F.searched_by finder.old))
        (seeks (F.searched_by finder.old)) is_finished kept.now at (partial_of result) }
    ensures lies { LiesIn at (length kept.now) result }
    ensures past { IsPast is_finished (length kept.now) result }
{
    let mut input = input_from(kept, at);
    if !is_finished {
        return finder.find_partial(&mut input);
    }
    match finder.find(&mut input) {
        Some(found) => Partial::Final(found),
        None => Partial::From(kept.len() + 1),
    }
}

/// Returns the input over the cursor's content, with a span that begins at `at`.
pub fn input_from<C: Cursor>(cursor: C, at: usize) -> Input<C>
    requires inside { at ≤ end_by_total (C.total cursor) + 1 }
    ensures content { result.content ≡ C.content cursor }
    ensures start { result.span.start ≡ at }
    ensures over { IsOver result }
    ensures search { IsFrom (C.content cursor) at result }
{
    let mut input = Input::new(cursor);
    content_fits(&input);
    input.set_start(at);
    input
}

/// The match, so many bytes further on.
pub fn moved(found: Match, by: usize) -> Match
    requires { found.end + by < 2 ^ 64 }
    ensures { result ≡ match_further by found }
{
    let span = Span {
        start: found.start() + by,
        end: found.end() + by,
    };
    Match::new(found.pattern(), span)
}

/// Whether the match is empty, and ends where the one before ended.
pub fn is_again(last: Option<usize>, found: Match) -> bool
    ensures { result ≡ is_again begin_of end_of last found }
{
    match last {
        Some(last) => found.start() == found.end() && found.end() == last,
        None => false,
    }
}

/// Drops so many bytes from the front.
pub fn remove_front(bytes: &mut Vec<u8>, count: usize)
    requires { count ≤ vec_len bytes.old }
    ensures { bytes.new.items ≡ drop count bytes.old.items }
{
    if count == 0 {
        return;
    }
    let len = bytes.len();
    bytes.as_mut_slice().copy_within(count..len, 0);
    bytes.truncate(len - count);
}
