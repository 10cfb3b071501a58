//! Calls of a regex that take an input by value, and make the cache that they need.

ghost use Rattle.std.specs.Iterator.{IsFinite};

use crate::faults::Verdict;
use crate::row::Pair;
use crate::told::Told;
use api_meta::regex::Regex;
use rc_captures::captures::Captures;
use rc_text::cursor::Cursor;
use rc_text::input::Input;
use rc_text::types::{Match, MatchError, Span};
use std::alloc::{AllocError, Global};

/// A call that tells of the first match.
#[derive(Clone, Copy)]
pub enum Call {
    Find,
    Search,
    SearchHalf,
    IsMatch,
    Captures,
}

/// A call that gives spans.
#[derive(Clone, Copy)]
pub enum List {
    /// The matches.
    Matches,
    /// The matches that come with their groups.
    Captures,
    /// The groups of the first match.
    Groups,
    /// The pieces, so many at most if that is said.
    Pieces(Option<usize>),
}

/// Spans of matches, of groups or of pieces.
#[derive(Drop)]
pub struct Spans {
    pub list: Vec<Option<Pair>>,
    /// Memory was refused for none of them.
    pub is_whole: bool,
    /// The error of a search that they end in.
    pub error: Option<MatchError>,
}

impl Spans {
    /// No spans.
    pub fn new(alloc: Global) -> Spans {
        Spans {
            list: Vec::new(alloc),
            is_whole: true,
            error: None,
        }
    }

    /// Adds a span, or a group that took no part.
    pub fn push(&mut self, span: Option<Pair>) {
        if self.list.push(span).is_err() {
            self.is_whole = false;
        }
    }
}

/// What an iterator gives.
pub trait Placed {
    /// Adds where it stands, or notes why there is no more.
    fn put(self, spans: &mut Spans);
}

impl Placed for Span {
    fn put(self, spans: &mut Spans) {
        spans.push(Some((self.start, self.end)));
    }
}

impl Placed for Option<Span> {
    fn put(self, spans: &mut Spans) {
        match self {
            Some(span) => span.put(spans),
            None => spans.push(None),
        }
    }
}

impl Placed for Match {
    fn put(self, spans: &mut Spans) {
        spans.push(Some((self.start(), self.end())));
    }
}

impl Placed for Result<Match, MatchError> {
    fn put(self, spans: &mut Spans) {
        match self {
            Ok(found) => found.put(spans),
            Err(error) => spans.error = Some(error),
        }
    }
}

impl Placed for Result<Captures, AllocError> {
    fn put(self, spans: &mut Spans) {
        match self {
            Ok(captures) => put_match(captures, spans),
            Err(_) => spans.is_whole = false,
        }
    }
}

/// Adds the match of captures.
fn put_match(captures: Captures, spans: &mut Spans) {
    if let Some(found) = captures.get_match() {
        found.put(spans);
    }
}

/// Adds where all items of an iterator stand.
pub fn put_all<T: Placed, I: Iterator<Item = T> + Drop>(items: I, spans: &mut Spans)
    requires can { I.can_next items }
    requires ends { IsFinite (I.remaining items) }
{
    for item in items {
        item.put(spans);
    }
}

/// What a call tells.
pub fn told_by<C: Cursor + Drop>(
    alloc: Global,
    regex: &Regex,
    call: Call,
    input: Input<C>,
    verdict: &mut Verdict,
) -> Told {
    match call {
        Call::Find => Told::Match(verdict.made(regex.find(alloc, input), None)),
        Call::Search => Told::Match(verdict.made(regex.search(alloc, input), None)),
        Call::SearchHalf => Told::Half(verdict.made(regex.search_half(alloc, input), None)),
        Call::IsMatch => Told::IsMatch(verdict.made(regex.is_match(alloc, input), false)),
        Call::Captures => Told::Match(verdict.made(captured(alloc, regex, input), None)),
    }
}

/// The match that `captures` finds.
fn captured<C: Cursor + Drop>(
    alloc: Global,
    regex: &Regex,
    input: Input<C>,
) -> Result<Option<Match>, AllocError> {
    match regex.captures(alloc, input) {
        Ok(captures) => {
            let found = captures.get_match();
            drop(captures);
            Ok(found)
        }
        Err(error) => Err(error),
    }
}

/// The spans that a call gives.
pub fn spans_by<C: Cursor + Drop>(
    alloc: Global,
    regex: &Regex,
    list: List,
    input: Input<C>,
) -> Spans {
    let mut spans = Spans::new(alloc);
    if put_spans(alloc, regex, list, input, &mut spans).is_err() {
        spans.is_whole = false;
    }
    spans
}

/// Adds the spans that a call gives.
fn put_spans<C: Cursor + Drop>(
    alloc: Global,
    regex: &Regex,
    list: List,
    input: Input<C>,
    spans: &mut Spans,
) -> Result<(), AllocError> {
    match list {
        List::Matches => put_all(regex.find_iter(alloc, input)?, spans),
        List::Captures => put_all(regex.captures_iter(alloc, input)?, spans),
        List::Groups => {
            let captures = regex.captures(alloc, input)?;
            put_groups_of(&captures, spans);
            drop(captures);
        }
        List::Pieces(most) => put_pieces(alloc, regex, most, input, spans)?,
    }
    Ok(())
}

/// Adds the groups, none where there is no match.
pub fn put_groups_of(captures: &Captures, spans: &mut Spans) {
    for index in 0..captures.group_len() {
        captures.get_group(index).put(spans);
    }
}

/// Adds the pieces, so many at most if that is said.
pub fn put_pieces<C: Cursor + Drop>(
    alloc: Global,
    regex: &Regex,
    most: Option<usize>,
    input: Input<C>,
    spans: &mut Spans,
) -> Result<(), AllocError> {
    match most {
        Some(most) => put_all(regex.splitn(alloc, input, most)?, spans),
        None => put_all(regex.split(alloc, input)?, spans),
    }
    Ok(())
}
