//! Stretches of a text in which no match begins. An edit takes them over, so that no search reads
//! them again.
ghost use Rattle.std.specs.Prelude.{◌≡◌, ◌≢◌, ◌+◌, ◌<◌, ◌≤◌, ◌^◌, ℕ, IfOk, List, false, length, slice_range};
ghost use Rattle.rc_text.specs.declared.types.MatchKind.{MatchKind as a_kind};
ghost use Rattle.rc_text.specs.declared.types.MatchKind.TheVariants.{All as all_matches};
ghost use Rattle.rc_text.specs.Text.{Keeps};
ghost use Rattle.rc_program.specs.Answer.{Search, is_anchored};
ghost use Rattle.api_meta.specs.Views.{regex_kind};
ghost use Rattle.live_matches.specs.Entries.{reach_of};
ghost use Rattle.live_matches.specs.Live.{IsCacheOf, IsOver, seeks};
ghost use Rattle.live_matches.specs.Quiet.{BeginFrom, HasGone};
ghost use Rattle.live_matches.specs.Stretches.{IsQuiet, IsStretch};

use crate::entries::{Entries, begins_before};
use crate::entry::{Edit, Entry, entry_of};
use crate::input::whole_input;
use crate::search::LOOKS_BEHIND;
use rc_text::input::{content_fits, piece_from};
use regex_cursor::engines::meta::{Cache, Partial, Regex};
use regex_cursor::types::{Match, PatternID, Span};
use regex_cursor::{Cursor, Input};
use std::alloc::{AllocError, Global};

/// How many bytes are asked at once whether a match begins in them.
pub const STEP: usize = 4096;

/// How many bytes of the next stretch are asked with those before it, so that the two meet.
const OVER: usize = 64;

/// A stretch of a text: no search from its start finds a match that begins before its end.
#[derive(Clone, Copy)]
pub struct Stretch {
    /// Where it begins, in bytes of the text.
    pub start: usize,
    /// Where it ends.
    pub end: usize,
    /// The bytes before this place tell so.
    pub reach: usize,
}

/// The stretches of a text, in order.
#[derive(Drop)]
pub struct Stretches {
    /// Each stretch in place of a match.
    pub entries: Entries,
    /// The bytes that a search is asked about.
    bytes: Vec<u8>,
}

impl Stretch {
    /// The stretch of no byte at a place.
    pub fn at(place: usize) -> Stretch
        ensures { result ≡ record { start = place; end = place; reach = place } }
    {
        Stretch {
            start: place,
            end: place,
            reach: place,
        }
    }

    /// The stretch as an entry of a list.
    fn entry(&self) -> Entry
        requires order { self.now.start ≤ self.now.end }
        requires within { self.now.end ≤ self.now.reach }
        requires near { self.now.reach < self.now.end + 4294967295 }
        ensures start { result.found.start ≡ self.now.start }
        ensures end { result.found.end ≡ self.now.end }
        ensures reach { reach_of result ≡ self.now.reach }
    {
        let span = Span {
            start: self.start,
            end: self.end,
        };
        entry_of(Match::new(PatternID::ZERO, span), self.reach)
    }

    /// The stretch, longer by one of a list if that begins in it or at its end.
    fn with(&self, entry: Entry) -> Stretch
        ensures start { result.start ≡ self.now.start }
        ensures on { self.now.end ≤ result.end }
        ensures inside { (n : ℕ) → self.now.end ≤ n → entry.found.end ≤ n → result.end ≤ n }
        ensures more { entry.found.start ≤ self.now.end → self.now.end < entry.found.end
            → reach_of entry < usize.MAX → result.end ≡ entry.found.end }
        ensures quiet { (kind : a_kind) (s : Search) (c : List ℕ) → kind ≢ all_matches
            → is_anchored s.anchoring ≡ false → self.now.start ≤ self.now.end
            → IsQuiet kind s c self.now.reach self.now.start self.now.end
            → IsStretch kind s c entry
            → IsQuiet kind s c result.reach result.start result.end }
    {
        let end = entry.end();
        let reach = entry.reach();
        if self.end < entry.start() || end <= self.end || reach == usize::MAX {
            return *self;
        }
        Stretch {
            start: self.start,
            end,
            reach: self.reach.max(reach),
        }
    }
}

impl Stretches {
    ghost use Rattle.std.specs.Prelude.{◌≡◌, ◌≢◌, ◌+◌, ◌<◌, ◌≤◌, ℕ, [], IfOk, IfSome, List, false, length};
    ghost use Rattle.rc_text.specs.declared.types.MatchKind.{MatchKind as a_kind};
    ghost use Rattle.rc_text.specs.declared.types.MatchKind.TheVariants.{All as all_matches};
    ghost use Rattle.rc_program.specs.Answer.{Search, is_anchored};
    ghost use Rattle.live_matches.specs.Entries.{FitsEdit, all_of};
    ghost use Rattle.live_matches.specs.Stretches.{AreRising, AreStretches, IsOverEdit, IsQuiet, IsStretch};

    /// Returns no stretches, for a text of `len` bytes. It takes no memory yet.
    pub fn new(alloc: Global, len: usize) -> Stretches
        ensures { result.entries ≡ record { before = []; after = []; len = len } }
    {
        Stretches {
            entries: Entries::new(alloc, len),
            bytes: Vec::new(alloc),
        }
    }

    /// Drops all stretches, for a text of `len` bytes.
    pub fn clear(&mut self, len: usize)
        ensures { self.new.entries ≡ record { before = []; after = []; len = len } }
    {
        self.entries.clear(len);
    }

    /// Roughly the number of bytes that the stretches have allocated.
    pub fn memory_usage(&self) -> usize {
        let bytes = self.bytes.capacity();
        self.entries.memory_usage().saturating_add(bytes)
    }

    /// Goes over to the text after an edit. Those go that it may change.
    pub fn edit(&mut self, edit: Edit)
        requires fits { FitsEdit self.old.entries.len edit }
        requires room { edit.replaced.start < usize.MAX }
        requires rising { AreRising 0 (all_of self.old.entries) }
        ensures { IsOverEdit edit self.old.entries self.new.entries }
    {
        self.entries.settle_to(edit.replaced.start);
        drop_near(&mut self.entries, edit);
        self.entries.edit(edit);
    }

    /// The longest stretch from a place on that those before the gap make.
    pub fn stretch_from(&self, at: usize) -> Stretch
        ensures start { result.start ≡ at }
        ensures order { at ≤ result.end }
        ensures inside { (kind : a_kind) (s : Search) (c : List ℕ) → at ≤ length c
            → AreStretches kind s c 0 (all_of self.now.entries) → result.end ≤ length c }
        ensures quiet { (kind : a_kind) (s : Search) (c : List ℕ) → kind ≢ all_matches
            → is_anchored s.anchoring ≡ false → AreStretches kind s c 0 (all_of self.now.entries)
            → IsQuiet kind s c result.reach at result.end }
    {
        let mut stretch = Stretch::at(at);
        let mut index = self.index_near(at);
        'each: while index < self.entries.count_before() {
            if let Some(entry) = self.entries.get(index) {
                stretch = stretch.with(entry);
            }
            index += 1;
        }
        stretch
    }

    /// The index of the last stretch before the gap that begins before a place, or 0.
    fn index_near(&self, at: usize) -> usize {
        let mut low = 0;
        let mut high = self.entries.count_before();
        'halves: while low < high {
            let middle = low + (high - low) / 2;
            if begins_before(self.entries.get(middle), at) {
                low = middle + 1;
            } else {
                high = middle;
            }
        }
        low.saturating_sub(1)
    }

    /// Adds a stretch before the gap. Those before it go that begin after its start, and those after
    /// it that begin at its start or before, or end in it. An `Err` means out of memory.
    fn add(&mut self, entry: &Entry) -> Result<(), AllocError>
        requires inside { entry.now.found.end ≤ self.old.entries.len }
        ensures are { (kind : a_kind) (s : Search) (c : List ℕ)
            → AreStretches kind s c 0 (all_of self.old.entries) → IsStretch kind s c entry.now
            → IfOk result (λ _. AreStretches kind s c 0 (all_of self.new.entries)) }
        ensures len { IfOk result (λ _. self.new.entries.len ≡ self.old.entries.len) }
    {
        self.entries.drop_back(entry.start());
        self.entries.drop_by(entry.end());
        self.entries.skip_over(None, entry.start());
        self.entries.push(*entry)
    }

    /// How many bytes from a place on are asked at once: a step, or up to a little after the start
    /// of the next stretch if that is near.
    fn step_from(&self, at: usize) -> usize
        ensures { (1 ≤ result) × (result ≤ 8192) }
    {
        match self.entries.get_after(0) {
            Some(next) => {
                let far = next.start().saturating_sub(at);
                if (STEP / 2..=2 * STEP - OVER).contains(&far) {
                    far + OVER
                } else {
                    STEP
                }
            }
            None => STEP,
        }
    }

    /// Adds the stretch from a place on that a step tells. Returns `None` if a match may begin in
    /// the first KiB. An `Err` means out of memory.
    fn step<C: Cursor>(
        &mut self,
        at: usize,
        regex: &Regex,
        cache: &mut Cache,
        input: &mut Input<C>,
    ) -> Result<Option<Entry>, AllocError>
        requires made { IsCacheOf regex.now cache.old }
        requires len { self.old.entries.len ≡ length input.old.content }
        requires room { at + 8192 ≤ length input.old.content }
        requires are { AreStretches (regex_kind regex.now) (seeks regex.now) input.old.content 0
            (all_of self.old.entries) }
        ensures cache { IsCacheOf regex.now cache.new }
        ensures keeps { Keeps input.old input.new }
        ensures len { IfOk result (λ _. self.new.entries.len ≡ length input.old.content) }
        ensures are { IfOk result (λ _. AreStretches (regex_kind regex.now) (seeks regex.now)
            input.old.content 0 (all_of self.new.entries)) }
        ensures next { IfOk result (λ o. IfSome o (IsStretch (regex_kind regex.now)
            (seeks regex.now) input.old.content)) }
        ensures on { IfOk result (λ o. IfSome o (λ e. (e.found.start ≡ at)
            × (at < e.found.end) × (reach_of e ≤ at + 8192))) }
    {
        content_fits(input);
        let count = self.step_from(at);
        let stretch = ask(&mut self.bytes, regex, cache, input, at, at + count)?;
        if stretch.end - at < STEP / 4 {
            return Ok(None);
        }
        let entry = stretch.entry();
        self.add(&entry)?;
        Ok(Some(entry))
    }

    /// Makes a stretch longer, until it ends at `stop` or later, or `limit` is less than two steps
    /// ahead, or a match may begin in the first KiB of a step. An `Err` means out of memory.
    pub fn go_on<C: Cursor>(
        &mut self,
        stretch: Stretch,
        stop: usize,
        limit: usize,
        regex: &Regex,
        cache: &mut Cache,
        input: &mut Input<C>,
    ) -> Result<Stretch, AllocError>
        requires made { IsCacheOf regex.now cache.old }
        requires over { IsOver input.old }
        requires leftmost { regex_kind regex.now ≢ all_matches }
        requires len { self.old.entries.len ≡ length input.old.content }
        requires limit { limit ≤ length input.old.content }
        requires order { stretch.start ≤ stretch.end }
        requires inside { stretch.end ≤ length input.old.content }
        requires are { AreStretches (regex_kind regex.now) (seeks regex.now) input.old.content 0
            (all_of self.old.entries) }
        requires quiet { IsQuiet (regex_kind regex.now) (seeks regex.now) input.old.content
            stretch.reach stretch.start stretch.end }
        ensures cache { IsCacheOf regex.now cache.new }
        ensures keeps { Keeps input.old input.new }
        ensures len { IfOk result (λ _. self.new.entries.len ≡ length input.old.content) }
        ensures are { IfOk result (λ _. AreStretches (regex_kind regex.now) (seeks regex.now)
            input.old.content 0 (all_of self.new.entries)) }
        ensures start { IfOk result (λ r. r.start ≡ stretch.start) }
        ensures order { IfOk result (λ r. stretch.end ≤ r.end) }
        ensures inside { IfOk result (λ r. r.end ≤ length input.old.content) }
        ensures quiet { IfOk result (λ r. IsQuiet (regex_kind regex.now) (seeks regex.now)
            input.old.content r.reach r.start r.end) }
    {
        content_fits(input);
        let mut stretch = stretch;
        'steps: while stretch.end < stop && 2 * STEP <= limit.saturating_sub(stretch.end) {
            match self.step(stretch.end, regex, cache, input)? {
                Some(entry) => stretch = stretch.with(entry),
                None => return Ok(stretch),
            }
        }
        Ok(stretch)
    }
}

/// Drops the entries after the gap that an edit may change: those that begin before its end, or
/// less than four bytes after it.
fn drop_near(entries: &mut Entries, edit: Edit)
    ensures gone { HasGone entries.old entries.new }
    ensures far { BeginFrom (edit.replaced.end + 4) entries.new.after }
{
    match edit.replaced.end.checked_add(LOOKS_BEHIND - 1) {
        Some(place) => {
            entries.skip_over(None, place);
        }
        None => entries.drop_after(),
    }
}

/// Copies the bytes of the content from a place up to another. An `Err` means out of memory.
fn copy_range<C: Cursor>(
    bytes: &mut Vec<u8>,
    input: &mut Input<C>,
    start: usize,
    end: usize,
) -> Result<(), AllocError>
    requires order { start ≤ end }
    requires inside { end ≤ length input.old.content }
    ensures keeps { Keeps input.old input.new }
    ensures bytes { IfOk result (λ _. bytes.new.items
        ≡ slice_range input.old.content start end) }
{
    bytes.clear();
    'pieces: while bytes.len() < end - start {
        let piece = piece_from(input, start + bytes.len(), end);
        bytes.extend_from_slice(piece)?;
    }
    Ok(())
}

/// Asks up to where no match begins from `at` on, whatever stands behind `end`. An `Err` means out
/// of memory.
fn ask<C: Cursor>(
    bytes: &mut Vec<u8>,
    regex: &Regex,
    cache: &mut Cache,
    input: &mut Input<C>,
    at: usize,
    end: usize,
) -> Result<Stretch, AllocError>
    requires made { IsCacheOf regex.now cache.old }
    requires order { at ≤ end }
    requires inside { end ≤ length input.old.content }
    ensures cache { IsCacheOf regex.now cache.new }
    ensures keeps { Keeps input.old input.new }
    ensures start { IfOk result (λ r. r.start ≡ at) }
    ensures order { IfOk result (λ r. at ≤ r.end) }
    ensures within { IfOk result (λ r. r.end ≤ end) }
    ensures reach { IfOk result (λ r. r.reach ≡ end) }
    ensures quiet { IfOk result (λ r. IsQuiet (regex_kind regex.now) (seeks regex.now)
        input.old.content end at r.end) }
{
    content_fits(input);
    let first = at.saturating_sub(LOOKS_BEHIND);
    copy_range(bytes, input, first, end)?;
    let quiet = quiet_place(bytes, regex, cache, at - first);
    Ok(Stretch {
        start: at,
        end: first + quiet,
        reach: end,
    })
}

/// Returns a place up to which no match begins from `at` on, whatever stands behind these bytes.
fn quiet_place(bytes: &[u8], regex: &Regex, cache: &mut Cache, at: usize) -> usize
    requires made { IsCacheOf regex.now cache.old }
    requires inside { at ≤ length bytes.now }
    ensures cache { IsCacheOf regex.now cache.new }
    ensures order { at ≤ result }
    ensures within { result ≤ length bytes.now }
    ensures quiet { IsQuiet (regex_kind regex.now) (seeks regex.now) bytes.now
        (length bytes.now) at result }
{
    let mut input = whole_input(bytes);
    content_fits(&input);
    input.set_start(at);
    match regex.search_partial_with(cache, &mut input) {
        Partial::Final(found) => found.start(),
        Partial::From(place) => place.min(bytes.len()),
    }
}
