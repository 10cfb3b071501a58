//! Matches ahead: those of a list that begin before a position, added at one go.

ghost use Rattle.std.specs.Prelude.{◌≡◌, ◌≢◌, ◌+◌, ◌≤◌};
ghost use Rattle.rc_pikevm_search.specs.Moved.{IsMoved};

use crate::cache::Cache;
use crate::regex::Regex;
pub use rc_strategy::list::ListMemo;
use rc_text::cursor::Cursor;
use rc_text::input::Input;
use rc_text::types::Match;
use std::alloc::AllocError;

/// Sets where the span starts, if the last search moved that on.
#[inline(always)]
fn set_back<C: Cursor>(input: &mut Input<C>, start: usize)
    requires { input.old.span.start ≢ start → start ≤ input.old.span.end + 1 }
    ensures moves { IsMoved input.old input.new }
    ensures start { input.new.span.start ≡ start }
{
    if input.start() != start {
        input.set_start(start);
    }
}

impl Regex {
    ghost use Rattle.std.specs.Prelude.{IfOk};
    ghost use Rattle.rc_program.specs.Kinds.{answer_by_from};
    ghost use Rattle.rc_program.specs.Matches.{begin_of, end_of, next_match};
    ghost use Rattle.rc_program.specs.Sought.{search_for};
    ghost use Rattle.api_meta.specs.Ahead.{AddsNext, ComesBehind};
    ghost use Rattle.api_meta.specs.Caches.{HasSameRoom, IsCacheFor};
    ghost use Rattle.api_meta.specs.Views.{regex_kind, regex_patterns, regex_settings, sought};

    /// Adds the next matches of a list to yours, one after another, as long as they begin before the
    /// position `before`, in bytes: those that `find_iter` gives from the span's start on, if the
    /// match before ended at `last`. It uses a cache that was made for this regex.
    ///
    /// The span then starts where the last of them ended, and `last` says so. Returns whether the
    /// list has another match, which begins at `before` or later. An `Err` means that there was no
    /// memory for a match; those before it were added. What the memo held is dropped, so one memo
    /// serves for any number of texts. Nothing but the list takes memory.
    pub fn push_before<C: Cursor>(
        &self,
        cache: &mut Cache,
        input: &mut Input<C>,
        memo: &mut ListMemo,
        last: &mut Option<usize>,
        before: usize,
        matches: &mut Vec<Match>,
    ) -> Result<bool, AllocError>
        requires made { IsCacheFor (regex_patterns self.now) (regex_settings self.now) cache.old }
        ensures cache { IsCacheFor (regex_patterns self.now) (regex_settings self.now) cache.new }
        ensures room { HasSameRoom cache.old cache.new }
        ensures moves { IsMoved input.old input.new }
        ensures adds { AddsNext (answer_by_from (regex_kind self.now)
            (search_for (sought self.now) input.old)) before
            input.old.span.start last.old matches.old.items
            input.new.span.start last.new matches.new.items }
        ensures behind { IfOk result (ComesBehind before (next_match begin_of end_of
            (answer_by_from (regex_kind self.now) (search_for (sought self.now) input.old))
            input.new.span.start last.new)) }
    {
        memo.clear();
        let mut from = input.start();
        let outcome = loop {
            let cache = &mut cache.inner;
            let Some(found) = self.engines.next_along(cache, input, *last, memo) else {
                break Ok(false);
            };
            if found.start() >= before {
                break Ok(true);
            }
            if matches.push(found).is_err() {
                break Err(AllocError);
            }
            from = found.end();
            *last = Some(from);
            input.set_start(from);
        };
        set_back(input, from);
        outcome
    }
}
