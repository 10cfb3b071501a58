//! Streams: the matches of a text that comes in by chunks.

ghost use Rattle.std.specs.Prelude.{◌<◌};

use crate::calls::{Placed, Spans};
use crate::engines::Engines;
use crate::row::{Row, Want};
use crate::slots::Asker;
use crate::{grouped, steps};
use api_meta::finder::Finder;
use api_meta::regex::Regex;
use rc_text::types::Anchored;
use stream_search::error::FeedError;
use stream_search::stream::StreamSearcher;

/// Streams of the text tell what the row wants, all matches or the groups of the first, by each
/// regex, where it is searched whole.
pub fn all(asker: &mut Asker, engines: &Engines, row: &Row) {
    if row.slice.is_some() || row.span.is_some() || row.anchored != Anchored::No {
        return;
    }
    let regexes = &engines.regexes;
    for regex in [&regexes.plain, &regexes.unfiltered, &regexes.tabled] {
        match row.want {
            Want::All => matches(asker, regex, row),
            Want::Groups => grouped::by_regex(asker, regex, row),
            _ => {}
        }
    }
}

/// Streams give the row's matches, in chunks of one byte and of three, and with their groups. Steps
/// give the first.
fn matches(asker: &mut Asker, regex: &Regex, row: &Row) {
    stream(asker, regex, row, 1);
    stream(asker, regex, row, 3);
    steps::first(asker, regex, row);
    grouped::by_regex(asker, regex, row);
}

/// A stream of chunks of so many bytes gives the row's matches.
fn stream(asker: &mut Asker, regex: &Regex, row: &Row, len: usize)
    requires { 0 < len }
{
    match Finder::new(asker.alloc, regex) {
        Ok(finder) => {
            let mut searcher = StreamSearcher::new(asker.alloc, finder);
            let mut spans = Spans::new(asker.alloc);
            let fed = feed(&mut searcher, row, len, &mut spans);
            let early = spans.list.len();
            finish(&mut searcher, row.spans.len(), &mut spans);
            drop(searcher);
            asker
                .verdict
                .expect(fed.is_ok() && spans.is_whole, "row", "memory");
            asker
                .verdict
                .expect(spans.list == row.spans, "stream", "matches");
            asker
                .verdict
                .expect(early >= row.early, "stream", "early matches");
        }
        Err(_) => asker.verdict.note("row", "memory"),
    }
}

/// Feeds the text in chunks of so many bytes, or of a 32nd of it if that is more, and adds up to
/// one match after each.
fn feed(
    searcher: &mut StreamSearcher,
    row: &Row,
    len: usize,
    spans: &mut Spans,
) -> Result<(), FeedError>
    requires { 0 < len }
{
    for chunk in row.text.chunks(len.max(row.text.len() / 32)) {
        StreamSearcher::feed(searcher, chunk)?;
        if let Some(found) = searcher.next_match() {
            found.put(spans);
        }
    }
    Ok(())
}

/// Ends the stream, and adds the matches that are left: one more than so many are asked for.
fn finish(searcher: &mut StreamSearcher, count: usize, spans: &mut Spans) {
    searcher.finish();
    for _ in 0..count.saturating_add(1) {
        if let Some(found) = searcher.next_match() {
            found.put(spans);
        }
    }
}
