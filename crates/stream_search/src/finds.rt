//! What finds: a regex and all that its searches need, owned or borrowed.
ghost use Rattle.std.specs.Prelude.{◌≡◌, IfOk, false};
ghost use Rattle.rc_pikevm_search.specs.Moved.{IsMoved};
ghost use Rattle.rc_program.specs.Kinds.{answer_by, answer_by_from, is_early};
ghost use Rattle.rc_program.specs.Matches.{begin_of, end_of, next_match};
ghost use Rattle.rc_program.specs.Sought.{search_for};
ghost use Rattle.rc_reach.specs.Partial.{IsPartial};
ghost use Rattle.rc_text.specs.Text.{Keeps};
ghost use Rattle.api_meta.specs.Ahead.{AddsNext, ComesBehind};
ghost use Rattle.api_meta.specs.Partials.{IsOnward, partial_of};
ghost use Rattle.api_meta.specs.Views.{regex_kind, sought};
ghost use Rattle.api_meta.specs.declared.regex.Regex.{Regex};

use regex_cursor::engines::meta::{Finder, ListMemo, Partial, Regex};
use regex_cursor::types::Match;
use regex_cursor::{Cursor, Input};
use std::alloc::AllocError;

/// A regex with all that its searches need: what a search of a stream, or of slices, asks. No search
/// takes memory.
///
/// A `Finder` is one, which borrows its regex. One that owns it can be kept for as long as you like.
pub trait PartialFinder {
    /// The regex as contracts see it.
    ghost searched_by: { Self → Regex };

    /// The regex.
    fn its_regex(&self) -> &Regex
        ensures { result.now ≡ searched_by self.now };

    /// Returns the match that a search of the input finds, as `Regex::find` does.
    fn find<C: Cursor>(&mut self, input: &mut Input<C>) -> Option<Match>
        ensures regex { searched_by self.new ≡ searched_by self.old }
        ensures keeps { Keeps input.old input.new }
        ensures found_by { is_early input.old.earliest
            (search_for (sought (searched_by self.old)) input.old) ≡ false
            → result ≡ answer_by (regex_kind (searched_by self.old))
            (search_for (sought (searched_by self.old)) input.old) };

    /// Returns what the content that is here tells of a search, if more bytes may follow it, as
    /// `Regex::search_partial_with` does.
    fn find_partial<C: Cursor>(&mut self, input: &mut Input<C>) -> Partial
        ensures regex { searched_by self.new ≡ searched_by self.old }
        ensures keeps { Keeps input.old input.new }
        ensures told { IsPartial (regex_kind (searched_by self.old))
            (search_for (sought (searched_by self.old)) input.old) (partial_of result) }
        ensures onward { IsOnward input.old result };

    /// Adds the next matches of a list to yours, as long as they begin before the position `before`,
    /// as `Regex::push_before` does. Nothing but the list takes memory.
    fn push_before<C: Cursor>(
        &mut self,
        input: &mut Input<C>,
        memo: &mut ListMemo,
        last: &mut Option<usize>,
        before: usize,
        matches: &mut Vec<Match>,
    ) -> Result<bool, AllocError>
        ensures regex { searched_by self.new ≡ searched_by self.old }
        ensures moves { IsMoved input.old input.new }
        ensures adds { AddsNext (answer_by_from (regex_kind (searched_by self.old))
            (search_for (sought (searched_by self.old)) input.old)) before
            input.old.span.start last.old matches.old.items
            input.new.span.start last.new matches.new.items }
        ensures behind { IfOk result (ComesBehind before (next_match begin_of end_of
            (answer_by_from (regex_kind (searched_by self.old))
            (search_for (sought (searched_by self.old)) input.old))
            input.new.span.start last.new)) };
}

impl PartialFinder for Finder<'_> {
    ghost searched_by = { λ f. f };

    fn its_regex(&self) -> &Regex {
        self.regex()
    }

    fn find<C: Cursor>(&mut self, input: &mut Input<C>) -> Option<Match> {
        Finder::find(self, input)
    }

    #[inline(always)]
    fn find_partial<C: Cursor>(&mut self, input: &mut Input<C>) -> Partial {
        Finder::find_partial(self, input)
    }

    fn push_before<C: Cursor>(
        &mut self,
        input: &mut Input<C>,
        memo: &mut ListMemo,
        last: &mut Option<usize>,
        before: usize,
        matches: &mut Vec<Match>,
    ) -> Result<bool, AllocError> {
        Finder::push_before(self, input, memo, last, before, matches)
    }
}
