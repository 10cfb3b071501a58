//! Line matching: patterns that select lines.
ghost use Rattle.std.specs.Prelude.{◌≡◌, ◌≢◌, ◌<◌, ◌≤◌, ◌++◌, ℕ, IfErr, IfOk, IfSome, List, None, OnOk, cond, false, length, take};
ghost use Rattle.std.specs.IoError.{error_kind};
ghost use Rattle.grep_lines.specs.Pieces.{BeginsLine};
ghost use Rattle.grep_lines.specs.Selected.{PassesLine};
ghost use Rattle.rc_text.specs.Joined.{joined};
ghost use Rattle.rc_program.specs.Kinds.{answer_by};
ghost use Rattle.rc_program.specs.Sought.{search_for};
ghost use Rattle.api_meta.specs.Caches.{IsCacheFor};
ghost use Rattle.api_meta.specs.Views.{regex_kind, regex_patterns, regex_settings, sought};
ghost use Rattle.regex_cursor.specs.Output.{IsWhole, whole};
ghost use Rattle.rc_needles.specs.Needles.{find_needle};
ghost use Rattle.rc_needles.specs.Prefilters.{needles_of};
ghost use Rattle.rcgrep.specs.Local.{IsLineEnd, IsLineEndOf, start_or};
ghost use Rattle.rcgrep.specs.Needed.{needle_or};
ghost use Rattle.rcgrep.specs.Picked.{IsLine, IsLineFrom, found_from, has_match, is_picked, spans_of, text_matches};

use crate::long_line::LongLine;
use crate::patterns::Patterns;
use grep_lines::{Begun, LinePieces, LineSelector, Passed, Stretch, begin_line, read_pieces};
use grep_output::MatchFinder;
use memchr::memchr;
use rc_needles::literal::find_from;
use rc_needles::prefilter::Prefilter;
use regex_cursor::cursor::{ChunkCursor, TooLong};
use regex_cursor::engines::meta::{Cache, Captures, Regex};
use regex_cursor::types::{Match, Span};
use regex_cursor::{Cursor, Input};
use std::alloc::{AllocError, Global};
use std::io;
use std::io::{BufRead, ErrorKind};
use std::marker::Model;
use std::simd::prelude::*;

/// The least number of bytes of a page that are searched at once.
const LEAST: usize = 512;

/// The greatest number of bytes of a page that are searched at once.
const GREATEST: usize = 1 << 20;

/// The number of bytes of a page that are tested together for one past ASCII.
const BLOCK: usize = 64;

/// The number of bytes from which on a line is long: it isn't held if it isn't printed. It is more
/// than a page has, so a line that goes on in the next page is mostly held.
const LONG: usize = 1 << 17;

/// Selects the lines in which a pattern matches, or the others. It keeps one cache for all lines.
#[derive(Drop)]
pub struct LineRegex<'p> {
    alloc: Global,
    patterns: &'p Patterns,
    cache: Cache,
    /// The groups of the match that was searched for last.
    captures: Captures,
    is_inverted: bool,
    /// The number of bytes of a page that are searched at once next: four times what was skipped
    /// before a match, and twice as many if nothing was found. So the bytes that are read twice are
    /// no more than some times the skipped ones.
    reach: usize,
}

impl<'p> Model for LineRegex<'p> {
    ghost use Rattle.rc_captures.specs.Captures.{IsCapturesFor};
    ghost use Rattle.api_meta.specs.Caches.{IsCacheFor};
    ghost use Rattle.api_meta.specs.Views.{regex_names, regex_patterns, regex_settings};
    ghost use Rattle.api_meta.specs.contracts.regex.Regex as regexes;
    ghost use Rattle.rcgrep.specs.Selecting.{Selecting};
    ghost use Rattle.std.specs.Coded.{codes};

    ghost Value = { Selecting };

    ghost coded = { Prim.hlevel (codes, regexes.the_row.coded) };

    ghost view = { λ s. record { regex = s.patterns.now.regex; is_inverted = s.is_inverted } };

    ghost invariant = { λ s. IsCacheFor (regex_patterns s.patterns.now.regex)
        (regex_settings s.patterns.now.regex) s.cache
        × IsCapturesFor (regex_names s.patterns.now.regex) s.captures };
}

impl<'p> LineRegex<'p> {
    /// Returns a selector by these patterns. An `Err` means out of memory.
    pub fn new(
        alloc: Global,
        patterns: &'p Patterns,
        is_inverted: bool,
    ) -> Result<LineRegex<'p>, AllocError>
        ensures regex { IfOk result (λ s. s.regex ≡ patterns.now.regex) }
        ensures inverted { IfOk result (λ s. s.is_inverted ≡ is_inverted) }
    {
        let captures = patterns.regex.create_captures(alloc)?;
        let cache = patterns.regex.create_cache(alloc)?;
        Ok(LineRegex {
            alloc,
            patterns,
            cache,
            captures,
            is_inverted,
            reach: GREATEST,
        })
    }

    /// The match in the text, as if there were nothing around it.
    fn find(&mut self, text: &[u8]) -> Option<Match>
        ensures value { result ≡ answer_by (regex_kind self.old.regex)
            (search_for (sought self.old.regex) (whole text.now)) }
        ensures regex { self.new.regex ≡ self.old.regex }
        ensures inverted { self.new.is_inverted ≡ self.old.is_inverted }
    {
        let mut input = input_over(text);
        self.patterns.regex.search_with(&mut self.cache, &mut input)
    }

    /// Whether the patterns have a match in the line, as if there were nothing around it.
    fn has_match(&mut self, line: &[u8]) -> bool
        ensures value { result ≡ has_match self.old.regex line.now }
        ensures regex { self.new.regex ≡ self.old.regex }
        ensures inverted { self.new.is_inverted ≡ self.old.is_inverted }
    {
        self.find(line).is_some()
    }

    /// Passes over a long line, of which these are the first bytes, and the reader has the others.
    fn pass_long<R: BufRead>(
        &mut self,
        reader: &mut R,
        terminator: u8,
        begun: &[u8],
    ) -> io::Result<Passed>
        ensures passed { IfOk result (λ passed. (text : List ℕ)
            → BeginsLine terminator text begun.now (R.remaining reader.old) → 0 < length begun.now
            → PassesLine terminator (λ line. is_picked self.old.is_inverted
            (has_match self.old.regex line)) text (R.remaining reader.new) passed) }
        ensures retried { IfErr result (λ e. error_kind e ≢ ErrorKind.Interrupted) }
        ensures regex { self.new.regex ≡ self.old.regex }
        ensures inverted { self.new.is_inverted ≡ self.old.is_inverted }
    {
        let mut line = LongLine::new(self.alloc, &self.patterns.regex)?;
        line.take(begun)?;
        let rest = read_pieces(reader, terminator, &mut line)?;
        let Some(len) = rest.checked_add(begun.len() as u64) else {
            return Err(io::Error::from(ErrorKind::FileTooLarge));
        };
        Ok(Passed {
            len,
            is_selected: picks(self.is_inverted, line.finish()),
        })
    }

    /// What is known of the first lines of a page, of which this is a part, by the first match in it.
    #[inline(always)]
    fn stretch_in(&mut self, text: &[u8]) -> Stretch
        ensures place { result.place ≡ start_or (length text.now)
            (answer_by (regex_kind self.old.regex)
            (search_for (sought self.old.regex) (whole text.now))) }
        ensures selected { result.is_selected ≡ self.old.is_inverted }
        ensures turn { IfSome result.turn (IsLineEnd text.now
            (answer_by (regex_kind self.old.regex)
            (search_for (sought self.old.regex) (whole text.now)))) }
        ensures regex { self.new.regex ≡ self.old.regex }
        ensures inverted { self.new.is_inverted ≡ self.old.is_inverted }
    {
        let Some(found) = self.find(text) else {
            self.reach = self.reach.saturating_mul(2).min(GREATEST);
            return Stretch {
                place: text.len(),
                is_selected: self.is_inverted,
                turn: None,
            };
        };
        let start = found.start();
        let end = found.end();
        self.reach = start.saturating_mul(4).clamp(LEAST, GREATEST);
        Stretch {
            place: start,
            is_selected: self.is_inverted,
            turn: line_end(text, start, end),
        }
    }

    /// The number of bytes of a page that are searched at once. If a search would be slow from the
    /// first byte past ASCII on, it is whole blocks before that byte.
    fn reach_in(&self, page: &[u8]) -> usize
        ensures { result ≤ length page.now }
    {
        let reach = self.reach.min(page.len());
        if self.patterns.is_slow_past_ascii {
            ascii_len(&page[..reach])
        } else {
            reach
        }
    }

    /// The match that a search of the line from a position on finds.
    pub fn find_from(&mut self, line: &[u8], from: usize) -> Option<Match>
        ensures found { from ≤ length line.now → result ≡ found_from self.old.regex line.now from }
        ensures past { length line.now < from → result ≡ None }
        ensures regex { self.new.regex ≡ self.old.regex }
        ensures inverted { self.new.is_inverted ≡ self.old.is_inverted }
    {
        if from > line.len() {
            return None;
        }
        let mut input = input_from(line, from);
        self.patterns.regex.search_with(&mut self.cache, &mut input)
    }
}

/// The number of bytes in whole blocks before the first block with a byte past ASCII.
fn ascii_len(bytes: &[u8]) -> usize
    ensures { result ≤ length bytes.now }
{
    let mut place = 0;
    while bytes.len() - place >= BLOCK {
        if is_past_ascii(&bytes[place..]) {
            return place;
        }
        place += BLOCK;
    }
    place
}

/// Whether one of the first bytes is past ASCII, of as many as a block has.
#[inline(always)]
fn is_past_ascii(bytes: &[u8]) -> bool
    requires { 64 ≤ length bytes.now }
{
    u8x64::from_slice(bytes).simd_ge(u8x64::splat(128)).any()
}

/// Where the line of a match from `start` to `end` ends, if it does so in the text, behind the match.
fn line_end(text: &[u8], start: usize, end: usize) -> Option<usize>
    ensures { IfSome result (IsLineEndOf text.now start end) }
{
    if start > text.len() {
        return None;
    }
    let Some(behind) = memchr(b'\n', &text[start..]) else {
        return None;
    };
    let place = start + behind;
    if place < end {
        return None;
    }
    Some(place)
}

/// Where the first needle in the page begins, or the end of the page.
fn needle_start(needles: &Prefilter, page: &[u8]) -> usize
    ensures start { result ≡ needle_or (length page.now) (find_needle
        (needles_of needles.now) page.now 0 (length page.now)) }
    ensures within { result ≤ length page.now }
{
    let mut input = Input::new(page);
    match find_from(&mut input, needles, 0, page.len()) {
        Some(hit) => hit.start,
        None => page.len(),
    }
}

/// The line, as a text of its own.
fn input_over(line: &[u8]) -> Input<&[u8]>
    ensures line { IsLine line.now result }
    ensures late { result.earliest ≡ false }
{
    Input::new(line)
}

/// The line, to be searched from a place on.
fn input_from(line: &[u8], from: usize) -> Input<&[u8]>
    requires { from ≤ length line.now }
    ensures line { IsLineFrom line.now from result }
    ensures late { result.earliest ≡ false }
{
    Input::new(line).range(from, line.len())
}

/// The chunks, as one text.
fn input_over_chunks<'a>(chunks: &'a [&'a [u8]]) -> Result<Input<ChunkCursor<'a>>, TooLong>
    ensures { IfOk result (IsWhole (joined chunks.now)) }
{
    Ok(Input::new(ChunkCursor::new(chunks)?))
}

/// Whether a line is selected that has a match, or has none.
fn picks(is_inverted: bool, has_match: bool) -> bool
    ensures { result ≡ is_picked is_inverted has_match }
{
    if is_inverted { !has_match } else { has_match }
}

/// Adds the spans of the matches in the input, or that of the first one alone.
fn add_matches<C: Cursor>(
    regex: &Regex,
    cache: &mut Cache,
    input: &mut Input<C>,
    only_first: bool,
    spans: &mut Vec<Span>,
) -> Result<(), AllocError>
    requires made { IsCacheFor (regex_patterns regex.now) (regex_settings regex.now) cache.old }
    ensures cache { IsCacheFor (regex_patterns regex.now) (regex_settings regex.now) cache.new }
    ensures added { OnOk result (spans.new.items ≡ spans.old.items
        ++ cond only_first (take 1 (spans_of regex.now input.old)) (spans_of regex.now input.old)) }
{
    for found in regex.find_iter_with(cache, input) {
        spans.push(found.span())?;
        if only_first {
            return Ok(());
        }
    }
    Ok(())
}

impl LineSelector for LineRegex<'_> {
    ghost selects = { λ s line. is_picked s.is_inverted (has_match s.regex line) };

    fn selects(&mut self, line: &[u8]) -> bool {
        picks(self.is_inverted, self.has_match(line))
    }

    #[inline(always)]
    fn next_stretch(&mut self, terminator: u8, page: &[u8]) -> Stretch {
        if let Some(needles) = &self.patterns.needles {
            return Stretch {
                place: needle_start(needles, page),
                is_selected: self.is_inverted,
                turn: None,
            };
        }
        if terminator != b'\n' || !self.patterns.is_local {
            return Stretch {
                place: 0,
                is_selected: self.is_inverted,
                turn: None,
            };
        }
        let reach = self.reach_in(page);
        self.stretch_in(&page[..reach])
    }

    fn read_next<R: BufRead>(
        &mut self,
        reader: &mut R,
        terminator: u8,
        line: &mut Vec<u8>,
    ) -> io::Result<Option<Passed>> {
        match begin_line(reader, terminator, line, LONG)? {
            Begun::End => Ok(None),
            Begun::Whole => {
                let is_selected = self.selects(line);
                Ok(Some(Passed {
                    len: line.len() as u64,
                    is_selected,
                }))
            }
            Begun::Long => Ok(Some(self.pass_long(reader, terminator, line)?)),
        }
    }
}

impl MatchFinder for LineRegex<'_> {
    ghost spans_in = { λ s. text_matches s.regex };

    fn find_matches(&mut self, line: &[u8], matches: &mut Vec<Span>) -> Result<(), AllocError> {
        matches.clear();
        let mut from = 0;
        let mut last = None;
        for _ in 0..=line.len() {
            let Some(found) = self.find_from(line, from) else {
                break;
            };
            from = found.end();
            if found.is_empty() {
                from = from.saturating_add(1);
            }
            if !found.is_empty() || last != Some(found.end()) {
                matches.push(found.span())?;
            }
            last = Some(found.end());
        }
        Ok(())
    }

    fn find_in_text(
        &mut self,
        chunks: &[&[u8]],
        only_first: bool,
        spans: &mut Vec<Span>,
    ) -> io::Result<()> {
        spans.clear();
        let Ok(mut input) = input_over_chunks(chunks) else {
            return Err(io::Error::from(ErrorKind::FileTooLarge));
        };
        let regex = &self.patterns.regex;
        add_matches(regex, &mut self.cache, &mut input, only_first, spans)?;
        Ok(())
    }

    fn keeps_to_lines(&self) -> bool {
        self.patterns.keeps_to_lines
    }

    fn find_groups(&mut self, line: &[u8], start: usize) {
        let mut input = input_from(line, start.min(line.len()));
        self.patterns
            .regex
            .search_captures_with(&mut self.cache, &mut input, &mut self.captures);
    }

    fn group(&self, number: usize) -> Option<Span> {
        self.captures.get_group(number)
    }

    fn named_group(&self, name: &str) -> Option<Span> {
        self.captures.get_group_by_name(name)
    }
}
