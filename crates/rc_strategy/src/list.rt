//! Lists of matches: what their searches keep of their runs over the text.
ghost use Rattle.std.specs.Prelude.{◌≡◌, true, false};
ghost use Rattle.rc_dfa.specs.Memos.{IsBare};

use crate::cache::Cache;
use crate::engines::Engines;
use crate::pass::ask_pass;
use crate::question::Question;
use crate::route::Route;
use rc_dense_dfa::dense::{Dense, NoCache};
use rc_dfa::memo::Memo;
use rc_dfa_search::again::find_again;
use rc_dfa_search::search::Bounds;
use rc_program::matches::is_again;
use rc_text::cursor::Cursor;
use rc_text::input::{Input, advance_start};
use rc_text::types::Match;

/// So many bytes the runs of a list may read past its matches before it keeps a memo, and `FOLD`
/// more for each byte by which the list comes on.
const FREE: usize = 4096;

/// See `FREE`.
const FOLD: usize = 8;

/// What the searches of a list keep of their runs over its text, while these read far past the
/// matches that they find.
#[derive(Drop)]
pub struct ListMemo {
    /// How many bytes runs may still read past matches before a memo is kept.
    pub(crate) spare: usize,
    /// How many bytes more than they might runs read past matches, less `FOLD` for each byte by
    /// which the list came on since then. The memo is kept until this is 0.
    pub(crate) owed: usize,
    /// Whether the memo is kept.
    pub(crate) is_kept: bool,
    /// The memo.
    pub(crate) memo: Memo,
}

impl ListMemo {
    /// One of a list at its start.
    pub fn new() -> ListMemo
        ensures { result.is_kept ≡ false }
    {
        ListMemo {
            spare: FREE,
            owed: 0,
            is_kept: false,
            memo: Memo::new(0),
        }
    }

    /// Drops the memo.
    #[inline(always)]
    pub fn clear(&mut self)
        ensures { self.new.is_kept ≡ false }
    {
        self.owed = 0;
        self.is_kept = false;
    }

    /// Notes that a search from the position `low` found a match that ends at `end`. Once the list
    /// came on as far as its runs read, the memo is dropped.
    #[inline(always)]
    fn come_on(&mut self, low: usize, end: usize)
        ensures { self.new.memo ≡ self.old.memo }
    {
        let earned = end.saturating_sub(low).saturating_mul(FOLD);
        if earned < self.owed {
            self.owed -= earned;
            return;
        }
        self.spare = self.spare.saturating_add(earned - self.owed);
        self.owed = 0;
        self.is_kept = false;
    }

    /// Notes, where no memo is kept, that a search from the position `low` found a match that ends
    /// at `end`, and that its run looked at no byte from `read` on. If runs read too far past
    /// matches, a memo is kept.
    #[inline(always)]
    fn note(&mut self, low: usize, end: usize, read: usize)
        requires { self.old.is_kept ≡ false }
        ensures { self.new.is_kept ≡ true → IsBare self.new.memo }
    {
        let earned = end.saturating_sub(low).saturating_mul(FOLD);
        let spare = self.spare.saturating_add(earned);
        let past = read.saturating_sub(end);
        if past <= spare {
            self.spare = spare - past;
            return;
        }
        self.spare = 0;
        self.owed = past - spare;
        self.is_kept = true;
        self.memo = Memo::new(0);
    }
}

impl Engines {
    ghost use Rattle.std.specs.Prelude.{◌≡◌, IfSome, Some, true, false};
    ghost use Rattle.rc_text.specs.Bounds.{IsWithinBounds};
    ghost use Rattle.rc_text.specs.Text.{Keeps};
    ghost use Rattle.rc_program.specs.Kinds.{answer_by, answer_by_from};
    ghost use Rattle.rc_program.specs.Matches.{begin_of, end_of, next_match};
    ghost use Rattle.rc_pikevm_search.specs.Engine.{engine_search};
    ghost use Rattle.rc_pikevm_search.specs.Moved.{IsMoved};
    ghost use Rattle.rc_pikevm_search.specs.Walks.{next_start};
    ghost use Rattle.rc_dfa_search.specs.Aims.{AreBounds};
    ghost use Rattle.rc_dfa_search.specs.Reaches.{TellsReach};
    ghost use Rattle.rc_strategy.specs.Caches.{IsCacheIn, IsSameCacheIn};
    ghost use Rattle.rc_strategy.specs.Lists.{IsListMemo};
    ghost use Rattle.rc_strategy.specs.Tables.{aim_of};

    /// Returns the DFA, if searches of a list by it note how far their runs read. They do where that
    /// takes no longer than `find`. If it may quit and no literals lead it on, `find` knows sooner
    /// which DFA to ask.
    #[inline(always)]
    fn noting_tables<C: Cursor>(&self, input: &Input<C>) -> Option<&Dense>
        ensures { IfSome result (λ d. (self.now.tables ≡ Some d.now)
            × TellsReach (aim_of self.now.engine self.now.patterns)) }
    {
        let Some(tables) = &self.tables else {
            return None;
        };
        if self.symbols.is_some() && !self.has_literals() {
            return None;
        }
        match self.route(input) {
            Route::Along | Route::Unguarded => {}
            _ => return None,
        }
        if !self.tells_reach(input) {
            return None;
        }
        Some(tables)
    }

    /// Returns the match by the DFA, whose runs end at marks of the memo. Returns None if it has no
    /// answer.
    fn find_kept<C: Cursor>(
        &self,
        tables: &Dense,
        input: &mut Input<C>,
        bounds: Bounds,
        memo: &mut ListMemo,
    ) -> Option<Option<Match>>
        requires tables { self.now.tables ≡ Some tables.now }
        requires bounds { AreBounds input.old bounds }
        requires kept { memo.old.is_kept ≡ true }
        requires memo { IsListMemo self.now input.old memo.old }
        ensures keeps { Keeps input.old input.new }
        ensures found { IfSome result (λ found. found
            ≡ answer_by self.now.engine.kind (engine_search self.now.engine input.old)) }
        ensures within { IfSome result (λ found. IfSome found (IsWithinBounds input.old)) }
        ensures memo { IsListMemo self.now input.new memo.new }
    {
        let aim = self.aim();
        let kept = &mut memo.memo;
        let told = find_again(tables, &mut NoCache, input, aim, bounds, kept);
        let Ok(found) = told else {
            memo.clear();
            return None;
        };
        let Some(found) = found else {
            return Some(None);
        };
        memo.come_on(bounds.low, found.end());
        Some(Some(found))
    }

    /// Returns the match of a search, as `find` does, where the DFA has no answer.
    fn find_past_tables<C: Cursor>(
        &self,
        cache: &mut Cache,
        input: &mut Input<C>,
        bounds: Bounds,
    ) -> Option<Match>
        requires made { IsCacheIn self.now 0 cache.old }
        requires bounds { AreBounds input.old bounds }
        ensures keeps { Keeps input.old input.new }
        ensures found { result
            ≡ answer_by self.now.engine.kind (engine_search self.now.engine input.old) }
        ensures within { IfSome result (IsWithinBounds input.old) }
        ensures cache { IsSameCacheIn self.now cache.old cache.new }
    {
        let states = &mut cache.symbols;
        if let Some(found) = self.ask_symbols(states, input, Question::Match, bounds) {
            return found;
        }
        ask_pass(&self.engine, &mut cache.pass, input, Question::Match)
    }

    /// Returns the match of a search of a list that keeps no memo, as `find` does, and notes how far
    /// its run read.
    #[inline(always)]
    fn find_noting<C: Cursor>(
        &self,
        tables: &Dense,
        cache: &mut Cache,
        input: &mut Input<C>,
        bounds: Bounds,
        memo: &mut ListMemo,
    ) -> Option<Match>
        requires made { IsCacheIn self.now 0 cache.old }
        requires tables { self.now.tables ≡ Some tables.now }
        requires bounds { AreBounds input.old bounds }
        requires tells { TellsReach (aim_of self.now.engine self.now.patterns) }
        requires none { memo.old.is_kept ≡ false }
        ensures keeps { Keeps input.old input.new }
        ensures found { result
            ≡ answer_by self.now.engine.kind (engine_search self.now.engine input.old) }
        ensures within { IfSome result (IsWithinBounds input.old) }
        ensures cache { IsSameCacheIn self.now cache.old cache.new }
        ensures memo { IsListMemo self.now input.new memo.new }
    {
        let told = self.settle_forwards(tables, &mut NoCache, input, bounds);
        let Ok(settled) = told else {
            return self.find_past_tables(cache, input, bounds);
        };
        let found = settled.found?;
        memo.note(bounds.low, found.end(), settled.reach);
        Some(found)
    }

    /// Returns the match of a search of a list, as `find` does, if there is a DFA. While runs read
    /// far past matches, they end where earlier ones of the list stood in the same state.
    fn find_along<C: Cursor>(
        &self,
        tables: &Dense,
        cache: &mut Cache,
        input: &mut Input<C>,
        memo: &mut ListMemo,
    ) -> Option<Match>
        requires made { IsCacheIn self.now 0 cache.old }
        requires tables { self.now.tables ≡ Some tables.now }
        requires tells { TellsReach (aim_of self.now.engine self.now.patterns) }
        requires memo { IsListMemo self.now input.old memo.old }
        ensures keeps { Keeps input.old input.new }
        ensures found { result
            ≡ answer_by self.now.engine.kind (engine_search self.now.engine input.old) }
        ensures within { IfSome result (IsWithinBounds input.old) }
        ensures cache { IsSameCacheIn self.now cache.old cache.new }
        ensures memo { IsListMemo self.now input.new memo.new }
    {
        let Some(bounds) = self.spans.bounds(input) else {
            return None;
        };
        if !memo.is_kept {
            return self.find_noting(tables, cache, input, bounds, memo);
        }
        if let Some(found) = self.find_kept(tables, input, bounds, memo) {
            return found;
        }
        memo.clear();
        self.find_past_tables(cache, input, bounds)
    }

    /// Returns what `next_match` does. The memo is one of the list's text.
    pub fn next_along<C: Cursor>(
        &self,
        cache: &mut Cache,
        input: &mut Input<C>,
        last: Option<usize>,
        memo: &mut ListMemo,
    ) -> Option<Match>
        requires made { IsCacheIn self.now 0 cache.old }
        requires memo { IsListMemo self.now input.old memo.old }
        ensures moves { IsMoved input.old input.new }
        ensures found { result
            ≡ next_match begin_of end_of
            (answer_by_from self.now.engine.kind
            (engine_search self.now.engine input.old)) input.old.span.start last }
        ensures start { input.new.span.start
            ≡ next_start self.now.engine.kind
            (engine_search self.now.engine input.old) input.old.span.start last }
        ensures there { result ≡ answer_by self.now.engine.kind
            (engine_search self.now.engine input.new) }
        ensures within { IfSome result (IsWithinBounds input.new) }
        ensures cache { IsSameCacheIn self.now cache.old cache.new }
        ensures memo { IsListMemo self.now input.new memo.new }
    {
        let Some(tables) = self.noting_tables(input) else {
            memo.clear();
            return self.next_match(cache, input, last);
        };
        let found = self.find_along(tables, cache, input, memo)?;
        if !is_again(last, found) {
            return Some(found);
        }
        advance_start(input);
        self.find_along(tables, cache, input, memo)
    }
}
