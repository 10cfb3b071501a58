//! Groups of streams: those of each match of a text that comes in by chunks.

ghost use Rattle.std.specs.Prelude.{ℕ};
ghost use Rattle.rc_captures.specs.Captures.{IsCapturesFor};
ghost use Rattle.api_meta.specs.Caches.{IsCacheFor};
ghost use Rattle.api_meta.specs.Views.{regex_names, regex_patterns, regex_settings};

use crate::calls::{Placed, Spans, put_groups_of};
use crate::cursors::Cut;
use crate::inputs::input;
use crate::row::{Pair, Row, Want};
use crate::slots::Asker;
use api_meta::cache::Cache;
use api_meta::finder::Finder;
use api_meta::regex::Regex;
use rc_captures::captures::Captures;
use rc_text::types::Span;
use std::alloc::{AllocError, Global};
use std::marker::Model;
use stream_search::error::FeedError;
use stream_search::stream::StreamSearcher;

/// Up to so many cuts in two of a text are asked, and one more.
const CUTS: usize = 8;

/// A stream with all that its groups need, and what it told so far.
#[derive(Drop)]
struct Grouped<'r> {
    stream: StreamSearcher<'r>,
    cache: Cache,
    captures: Captures,
    matches: Spans,
    groups: Spans,
}

impl<'r> Model for Grouped<'r> {
    ghost Value = { ℕ };

    ghost view = { λ g. g.stream.from };

    ghost invariant = { λ g. IsCacheFor (regex_patterns g.stream.regex)
        (regex_settings g.stream.regex) g.cache
        × IsCapturesFor (regex_names g.stream.regex) g.captures };
}

impl<'r> Grouped<'r> {
    /// A stream of which nothing has come yet.
    fn new(alloc: Global, regex: &'r Regex) -> Result<Grouped<'r>, AllocError> {
        let finder = Finder::new(alloc, regex)?;
        let cache = regex.create_cache(alloc)?;
        let captures = regex.create_captures(alloc)?;
        Ok(Grouped {
            stream: StreamSearcher::new(alloc, finder),
            cache,
            captures,
            matches: Spans::new(alloc),
            groups: Spans::new(alloc),
        })
    }

    /// Adds the next match and its groups, if one is told.
    fn next(&mut self) -> bool {
        let stream = &mut self.stream;
        match stream.next_captures_with(&mut self.cache, &mut self.captures) {
            Some(found) => {
                found.put(&mut self.matches);
                let by = self.stream.kept_start();
                put_further(&self.captures, by, &mut self.groups);
                true
            }
            None => false,
        }
    }

    /// Feeds a chunk, and adds up to one match.
    fn feed(&mut self, chunk: &[u8]) -> Result<(), FeedError> {
        self.stream.feed(chunk)?;
        let _is_told = self.next();
        Ok(())
    }

    /// Feeds the text byte by byte.
    fn feed_bytes(&mut self, text: &[u8]) -> Result<(), FeedError> {
        for byte in text.chunks(1) {
            self.feed(byte)?;
        }
        Ok(())
    }

    /// Ends the stream, and adds up to so many matches.
    fn finish(&mut self, most: usize) {
        self.stream.finish();
        for _ in 0..most {
            if !self.next() {
                return;
            }
        }
    }
}

/// Adds the groups, so many bytes further on.
fn put_further(captures: &Captures, by: usize, spans: &mut Spans) {
    for index in 0..captures.group_len() {
        spans.push(further(captures.get_group(index), by));
    }
}

/// A group, so many bytes further on.
fn further(group: Option<Span>, by: usize) -> Option<Pair> {
    let Span { start, end } = group?;
    Some((start.saturating_add(by), end.saturating_add(by)))
}

/// Streams of the text tell the matches and the groups that the regex finds in the whole text, and
/// that the row wants: fed byte by byte, and cut in two.
pub fn by_regex(asker: &mut Asker, regex: &Regex, row: &Row) {
    let mut wanted = Spans::new(asker.alloc);
    if put_wanted(asker.alloc, regex, row, &mut wanted).is_err() {
        wanted.is_whole = false;
    }
    asker.verdict.expect(wanted.is_whole, "row", "memory");
    stream(asker, regex, row, &wanted, None);
    let step = row.text.len() / CUTS + 1;
    for part in 0..=CUTS {
        let at = part.saturating_mul(step).min(row.text.len());
        stream(asker, regex, row, &wanted, Some(at));
    }
}

/// Adds the groups of all matches of the whole text.
fn put_wanted(
    alloc: Global,
    regex: &Regex,
    row: &Row,
    spans: &mut Spans,
) -> Result<(), AllocError> {
    let over = input(row, Cut::whole(&row.text));
    for captures in regex.captures_iter(alloc, over)? {
        let captures = captures?;
        put_groups_of(&captures, spans);
        drop(captures);
    }
    Ok(())
}

/// A stream that is cut in two there, or else fed byte by byte, tells these groups.
fn stream(asker: &mut Asker, regex: &Regex, row: &Row, wanted: &Spans, cut: Option<usize>) {
    match Grouped::new(asker.alloc, regex) {
        Ok(mut grouped) => {
            let fed = feed(&mut grouped, &row.text, cut);
            grouped.finish(row.text.len().saturating_add(2));
            let is_whole = grouped.matches.is_whole && grouped.groups.is_whole;
            let has_matches = match row.want {
                Want::All => grouped.matches.list == row.spans,
                _ => grouped.groups.list.starts_with(&row.spans),
            };
            let has_groups = grouped.groups.list == wanted.list;
            drop(grouped);
            asker
                .verdict
                .expect(fed.is_ok() && is_whole, "row", "memory");
            asker
                .verdict
                .expect(has_matches, "stream", "matches with groups");
            asker.verdict.expect(has_groups, "stream", "groups");
        }
        Err(_) => asker.verdict.note("row", "memory"),
    }
}

/// Feeds the text, cut in two there, or else byte by byte.
fn feed(grouped: &mut Grouped, text: &[u8], cut: Option<usize>) -> Result<(), FeedError> {
    match cut {
        Some(at) => {
            let (before, after) = text.split_at(at.min(text.len()));
            grouped.feed(before)?;
            grouped.feed(after)
        }
        None => grouped.feed_bytes(text),
    }
}
