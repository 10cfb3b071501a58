//! Slices: the matches of a stream of chunks, and those of a text that is searched in slices.

use crate::BenchError;
use regex_cursor::cursor::ChunkCursor;
use regex_cursor::engines::meta::{Finder, Regex};
use std::alloc::Global;
use stream_search::{FeedError, ListStepper, StreamSearcher};

/// How many bytes a slice takes.
const SLICE: usize = 65_536;

impl From<FeedError> for BenchError {
    fn from(_: FeedError) -> BenchError {
        BenchError::Memory
    }
}

/// The number of matches that the stream tells now.
fn count_told(stream: &mut StreamSearcher<'_>) -> usize {
    let mut count: usize = 0;
    'told: while stream.next_match().is_some() {
        count = count.saturating_add(1);
    }
    count
}

/// The number of matches in a stream of the chunks.
pub fn count_stream(alloc: Global, regex: &Regex, chunks: &[&[u8]]) -> Result<usize, BenchError> {
    let mut stream = StreamSearcher::new(alloc, Finder::new(alloc, regex)?);
    let mut count: usize = 0;
    for chunk in chunks {
        StreamSearcher::feed(&mut stream, chunk)?;
        count = count.saturating_add(count_told(&mut stream));
    }
    stream.finish();
    Ok(count.saturating_add(count_told(&mut stream)))
}

/// The number of matches in the chunks, listed in slices.
pub fn count_steps(alloc: Global, regex: &Regex, chunks: &[&[u8]]) -> Result<usize, BenchError> {
    let mut text = ChunkCursor::new(chunks)?;
    let len = chunks
        .iter()
        .map(|chunk| chunk.len())
        .fold(0, usize::saturating_add);
    let mut list = ListStepper::new(Finder::new(alloc, regex)?);
    let mut matches = Vec::new(alloc);
    let mut count: usize = 0;
    for _ in 0..=len / SLICE {
        matches.clear();
        let ended = list.resume(&mut text, SLICE, &mut matches)?;
        count = count.saturating_add(matches.len());
        if ended {
            break;
        }
    }
    Ok(count)
}
