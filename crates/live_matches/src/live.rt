//! Live matches: the list, and the edits of its text.
ghost use Rattle.std.specs.Prelude.{◌≡◌};
ghost use Rattle.live_matches.specs.Reading.{begins_before, ends_by};

use crate::entries::Entries;
use crate::entry::{Changed, Edit};
use crate::iter::LiveMatchesIter;
use crate::ranges::{begin_of_range, join, search_to};
use crate::search::{search_all, update};
use crate::stretches::Stretches;
use rc_text::input::{content_fits, high};
use regex_cursor::engines::meta::{Cache, Regex};
use regex_cursor::types::{Match, Span};
use regex_cursor::{Cursor, Input};
use std::alloc::{AllocError, Global};
use std::marker::Model;

/// The list of the matches of a regex in a text, kept under edits of the text.
///
/// It is the list of `Regex::find_iter` over the whole text. Contracts see it as its entries: each
/// match, with how many bytes settle it.
#[derive(Drop)]
pub struct LiveMatches {
    entries: Entries,
    stretches: Stretches,
    is_stale: bool,
}

impl Model for LiveMatches {
    ghost use Rattle.std.specs.Prelude.{◌≡◌, [], true};
    ghost use Rattle.live_matches.specs.Entries.{all_of};
    ghost use Rattle.live_matches.specs.Live.{Listed};

    ghost Value = { Listed };

    ghost view = { λ l. record {
      entries = all_of l.entries;
      quiets = l.stretches.entries;
      len = l.entries.len;
      is_stale = l.is_stale;
    } };

    ghost invariant = { λ l. l.is_stale ≡ true → all_of l.entries ≡ [] };
}

impl LiveMatches {
    ghost use Rattle.std.specs.Prelude.{◌≡◌, ◌<◌, ◌≤◌, ℕ, IfErr, IfOk, IfSome, filter, length, nat_eq, slice_get};
    ghost use Rattle.rc_program.specs.Matches.{AreInOrder, begin_of, end_of};
    ghost use Rattle.live_matches.specs.Reading.{IsAbove, IsCut, IsDownTo, IsLastBefore, IsNextFrom, matches_left, touches};
    ghost use Rattle.rc_text.specs.Text.{Keeps};
    ghost use Rattle.std.specs.List.{list_any};
    ghost use Rattle.live_matches.specs.Drawn.{IsDrawn};
    ghost use Rattle.live_matches.specs.Entries.{is_open};
    ghost use Rattle.live_matches.specs.Lists.{IsChanged};
    ghost use Rattle.live_matches.specs.Live.{IsCacheOf, IsLive, IsStale, IsWhole, WasLive, listed};
    ghost use Rattle.live_matches.specs.Quiet.{IsLongest};
    ghost use Rattle.live_matches.specs.Ranges.{IsRange};

    /// Returns the list of the matches in the content of the input, in a cache that was made for
    /// the regex. The input has to be a new one, over the whole text. An `Err` means out of memory.
    pub fn new<C: Cursor>(
        alloc: Global,
        regex: &Regex,
        cache: &mut Cache,
        input: &mut Input<C>,
    ) -> Result<LiveMatches, AllocError>
        requires made { IsCacheOf regex.now cache.old }
        requires whole { IsWhole input.old }
        ensures cache { IsCacheOf regex.now cache.new }
        ensures keeps { Keeps input.old input.new }
        ensures live { IfOk result (IsLive regex.now input.old.content) }
    {
        let mut live = LiveMatches {
            entries: Entries::new(alloc, 0),
            stretches: Stretches::new(alloc, 0),
            is_stale: true,
        };
        live.rebuild(regex, cache, input)?;
        Ok(live)
    }

    /// Returns the list of the matches in a range of the content, with the whole content to read:
    /// those that a search from the start of the range finds, as if a match had ended there, up to
    /// one that ends at the end of the range or later. So lists of ranges that lie side by side can
    /// be made apart from each other, and `join` makes one list of them. An `Err` means out of
    /// memory.
    pub fn of_range<C: Cursor>(
        alloc: Global,
        regex: &Regex,
        cache: &mut Cache,
        input: &mut Input<C>,
        range: Span,
    ) -> Result<LiveMatches, AllocError>
        requires made { IsCacheOf regex.now cache.old }
        requires whole { IsWhole input.old }
        requires inside { range.start ≤ length input.old.content }
        ensures cache { IsCacheOf regex.now cache.new }
        ensures keeps { Keeps input.old input.new }
        ensures range { IfOk result (IsRange regex.now input.old.content range) }
    {
        content_fits(input);
        let len = high(input);
        let mut entries = Entries::new(alloc, len);
        let start = begin_of_range(range);
        let done = search_to(&mut entries, start, None, range.end, regex, cache, input);
        input.set_start(0);
        done?;
        Ok(LiveMatches {
            entries,
            stretches: Stretches::new(alloc, len),
            is_stale: false,
        })
    }

    /// Adds the list of the next range. This list has to be that of the range from the start of the
    /// text to the start of the next one. It is then that of the range up to the end of the next
    /// one, and the list of the whole text if that is after the text. It searches on to the first
    /// match that ends where one of the next range does. An `Err` means out of memory, and leaves
    /// the list stale.
    pub fn join<C: Cursor>(
        &mut self,
        next: LiveMatches,
        range: Span,
        regex: &Regex,
        cache: &mut Cache,
        input: &mut Input<C>,
    ) -> Result<(), AllocError>
        requires made { IsCacheOf regex.now cache.old }
        requires whole { IsWhole input.old }
        requires behind { 0 < range.start }
        requires first { IsRange regex.now input.old.content
            (record { start = 0; end = range.start }) self.old }
        requires next { IsRange regex.now input.old.content range next }
        ensures cache { IsCacheOf regex.now cache.new }
        ensures keeps { Keeps input.old input.new }
        ensures joined { IfOk result (λ _. IsRange regex.now input.old.content
            (record { start = 0; end = range.end }) self.new) }
        ensures live { IfOk result (λ _. length input.old.content < range.end
            → IsLive regex.now input.old.content self.new) }
        ensures stale { IfErr result (λ _. IsStale self.new) }
    {
        content_fits(input);
        drop(next.stretches);
        let done = join(&mut self.entries, next.entries, range, regex, cache, input);
        input.set_start(0);
        if done.is_err() {
            self.make_stale();
        }
        done
    }

    /// Makes the list anew, as `new` does, also if it is stale. An `Err` means out of memory, and
    /// leaves it stale.
    pub fn rebuild<C: Cursor>(
        &mut self,
        regex: &Regex,
        cache: &mut Cache,
        input: &mut Input<C>,
    ) -> Result<(), AllocError>
        requires made { IsCacheOf regex.now cache.old }
        requires whole { IsWhole input.old }
        ensures cache { IsCacheOf regex.now cache.new }
        ensures keeps { Keeps input.old input.new }
        ensures live { IfOk result (λ _. IsLive regex.now input.old.content self.new) }
        ensures stale { IfErr result (λ _. IsStale self.new) }
    {
        content_fits(input);
        let len = high(input);
        self.entries.clear(len);
        self.stretches.clear(len);
        self.is_stale = false;
        let (entries, stretches) = (&mut self.entries, &mut self.stretches);
        let done = search_all(entries, stretches, regex, cache, input);
        input.set_start(0);
        if done.is_err() {
            self.make_stale();
        }
        done
    }

    /// Keeps the list under an edit of its text: some bytes were replaced by others. The input is
    /// over the whole text after it, and the list has to be that of the text before it. An `Err` means
    /// out of memory: the list is stale then, gives no matches, and `rebuild` mends it.
    pub fn edit<C: Cursor>(
        &mut self,
        regex: &Regex,
        cache: &mut Cache,
        edit: Edit,
        input: &mut Input<C>,
    ) -> Result<Changed, AllocError>
        requires made { IsCacheOf regex.now cache.old }
        requires whole { IsWhole input.old }
        requires was { WasLive regex.now edit input.old.content self.old }
        ensures cache { IsCacheOf regex.now cache.new }
        ensures keeps { Keeps input.old input.new }
        ensures live { IfOk result (λ _. IsLive regex.now input.old.content self.new) }
        ensures changed { IfOk result (IsChanged edit self.old.entries self.new.entries) }
        ensures drawn { IfOk result (λ c.
            IsDrawn edit (listed self.old) (listed self.new) c.span) }
        ensures stale { IfErr result (λ _. IsStale self.new) }
    {
        self.edit_within(regex, cache, edit, input, None)
    }

    /// Keeps the list under an edit, as `edit` does. If `longest` is there, no match has more bytes
    /// than that: `longest_of` tells it of the patterns. Then an edit reads about twice as many
    /// bytes, however far the next match is, unless the kind is `MatchKind::All`.
    pub fn edit_within<C: Cursor>(
        &mut self,
        regex: &Regex,
        cache: &mut Cache,
        edit: Edit,
        input: &mut Input<C>,
        longest: Option<usize>,
    ) -> Result<Changed, AllocError>
        requires made { IsCacheOf regex.now cache.old }
        requires whole { IsWhole input.old }
        requires was { WasLive regex.now edit input.old.content self.old }
        requires longest { IfSome longest (IsLongest regex.now) }
        ensures cache { IsCacheOf regex.now cache.new }
        ensures keeps { Keeps input.old input.new }
        ensures live { IfOk result (λ _. IsLive regex.now input.old.content self.new) }
        ensures changed { IfOk result (IsChanged edit self.old.entries self.new.entries) }
        ensures drawn { IfOk result (λ c.
            IsDrawn edit (listed self.old) (listed self.new) c.span) }
        ensures stale { IfErr result (λ _. IsStale self.new) }
    {
        content_fits(input);
        let (entries, stretches) = (&mut self.entries, &mut self.stretches);
        let changed = update(entries, stretches, longest, regex, cache, edit, input);
        input.set_start(0);
        if changed.is_err() {
            self.make_stale();
        }
        changed
    }

    /// Drops the matches, since they may not be those of the text.
    fn make_stale(&mut self)
        ensures { IsStale self.new }
    {
        self.entries.clear(0);
        self.stretches.clear(0);
        self.is_stale = true;
    }

    /// The number of matches.
    pub fn len(&self) -> usize
        ensures { result ≡ length (listed self.now) }
    {
        self.entries.len()
    }

    /// Whether there is no match.
    pub fn is_empty(&self) -> bool
        ensures { result ≡ nat_eq (length (listed self.now)) 0 }
    {
        self.len() == 0
    }

    /// Returns the match with this index, in order and from 0 on, or `None` if there are no more.
    pub fn get(&self, index: usize) -> Option<Match>
        ensures { result ≡ slice_get (listed self.now) index }
    {
        match self.entries.get(index) {
            Some(entry) => Some(entry.found()),
            None => None,
        }
    }

    /// The number of matches that begin before a place, in bytes of the text. So `get` of it is the
    /// first match that begins there or later, and `get` of one less is the last one before.
    pub fn index_from(&self, place: usize) -> usize
        ensures { (hi : ℕ) → AreInOrder begin_of end_of hi (listed self.now)
            → IsCut place (listed self.now) result }
    {
        let mut low = 0;
        let mut high = self.len();
        'halves: while low < high {
            let middle = low + (high - low) / 2;
            if begins_before(self.get(middle), place) {
                low = middle + 1;
            } else {
                high = middle;
            }
        }
        low
    }

    /// Returns the first match that begins at a place or later.
    pub fn next_from(&self, place: usize) -> Option<Match>
        ensures { (hi : ℕ) → AreInOrder begin_of end_of hi (listed self.now)
            → IsNextFrom place (listed self.now) result }
    {
        let index = self.index_from(place);
        self.get(index)
    }

    /// Returns the last match that begins before a place.
    pub fn previous_from(&self, place: usize) -> Option<Match>
        ensures { (hi : ℕ) → AreInOrder begin_of end_of hi (listed self.now)
            → IsLastBefore place (listed self.now) result }
    {
        let index = self.index_from(place);
        if index == 0 {
            return None;
        }
        self.get(index - 1)
    }

    /// Returns an iterator over the matches, in order.
    pub fn iter(&self) -> LiveMatchesIter<'_>
        ensures { matches_left result ≡ listed self.now }
    {
        LiveMatchesIter::new(self, 0, self.len())
    }

    /// Returns an iterator over the matches that touch a window, in order: those with a byte in it,
    /// also one that begins above the window, and empty ones that lie in it or at one of its ends.
    pub fn matches_in(&self, window: Span) -> LiveMatchesIter<'_>
        ensures { (hi : ℕ) → AreInOrder begin_of end_of hi (listed self.now)
            → matches_left result ≡ filter (touches window) (listed self.now) }
    {
        let first = self.count_above(window.start);
        let end = self.count_down_to(window.end);
        LiveMatchesIter::new(self, first, end)
    }

    /// The number of matches that end before a window that begins at a place.
    fn count_above(&self, place: usize) -> usize
        ensures { (hi : ℕ) → AreInOrder begin_of end_of hi (listed self.now)
            → IsAbove place (listed self.now) result }
    {
        let index = self.index_from(place);
        if index == 0 || ends_by(self.get(index - 1), place) {
            return index;
        }
        index - 1
    }

    /// The number of matches that begin before the end of a window that ends at a place, or are
    /// empty and lie there.
    fn count_down_to(&self, place: usize) -> usize
        ensures { (hi : ℕ) → AreInOrder begin_of end_of hi (listed self.now)
            → IsDownTo place (listed self.now) result }
    {
        let index = self.index_from(place);
        if index < self.len() && ends_by(self.get(index), place) {
            return index + 1;
        }
        index
    }

    /// The number of bytes of the text, and 0 if the list is stale.
    pub fn text_len(&self) -> usize
        ensures { result ≡ self.now.len }
    {
        self.entries.text_len()
    }

    /// Roughly the number of bytes that the list has allocated.
    pub fn memory_usage(&self) -> usize {
        let entries = self.entries.memory_usage();
        entries.saturating_add(self.stretches.memory_usage())
    }

    /// Whether a match depends on where the text ends: more bytes settle it than the text has. Then
    /// each edit behind the start of that match reads on to the end of the text. So it is with
    /// `(?s).*x|a`, and with a last match that ends with the text, as a word of `\w+`. It looks at
    /// the matches up to the first such one.
    pub fn is_open_ended(&self) -> bool
        ensures { result ≡ list_any (is_open self.now.len) self.now.entries }
    {
        self.entries.is_open_ended()
    }

    /// Whether the list is stale: out of memory, an edit left it so. It has no matches then.
    pub fn is_stale(&self) -> bool
        ensures { result ≡ self.now.is_stale }
    {
        self.is_stale // since an edit ran out of memory
    }
}

/// Whether the match is there, and begins before a place.
fn begins_before(found: Option<Match>, place: usize) -> bool
    ensures { result ≡ begins_before place found }
{
    match found {
        Some(found) => found.start() < place,
        None => false,
    }
}

/// Whether the match is there, and ends at a place or before.
fn ends_by(found: Option<Match>, place: usize) -> bool
    ensures { result ≡ ends_by place found }
{
    match found {
        Some(found) => found.end() <= place,
        None => false,
    }
}
