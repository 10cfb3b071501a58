//! How far searches go: how often they ask a cursor for another chunk.

use crate::ends::end_of;
use regex_cursor::cursor::ChunkCursor;
use regex_cursor::engines::meta::Regex;
use regex_cursor::types::Match;
use regex_cursor::{Cursor, Input};
use std::alloc::{AllocError, Global};
use std::test::Fail;

/// What the chunks of a long text hold, but for the first and the last.
const CHUNK: &[u8] = &[b'x'; 64];

/// A cursor over a list of chunks, and how often it was asked for another one.
#[derive(Drop)]
struct Counted<'a> {
    chunks: ChunkCursor<'a>,
    moves: u64,
}

impl Cursor for Counted<'_> {
    ghost content = { λ s. ⟦<ChunkCursor<'static> as Cursor>⟧.content s.chunks };

    ghost chunk = { λ s. ⟦<ChunkCursor<'static> as Cursor>⟧.chunk s.chunks };

    ghost offset = { λ s. ⟦<ChunkCursor<'static> as Cursor>⟧.offset s.chunks };

    ghost total = { λ s. ⟦<ChunkCursor<'static> as Cursor>⟧.total s.chunks };

    fn chunk(&self) -> &[u8] {
        self.chunks.chunk()
    }

    fn advance(&mut self) -> bool {
        self.moves = self.moves.saturating_add(1);
        self.chunks.advance()
    }

    fn backtrack(&mut self) -> bool {
        self.moves = self.moves.saturating_add(1);
        self.chunks.backtrack()
    }

    fn total_bytes(&self) -> Option<usize> {
        self.chunks.total_bytes()
    }

    fn offset(&self) -> usize {
        self.chunks.offset()
    }
}

/// `first`, then so many chunks of `x`, then `last`.
fn long_text(
    alloc: Global,
    first: &'static [u8],
    count: usize,
    last: &'static [u8],
) -> Result<Vec<&'static [u8]>, AllocError> {
    let mut chunks = vec![in alloc; CHUNK; count]?;
    chunks.insert(0, first)?;
    chunks.push(last)?;
    Ok(chunks)
}

/// The match that a search from `start` on finds.
fn found<C: Cursor + Drop>(
    alloc: Global,
    regex: &Regex,
    cursor: &mut C,
    start: usize,
) -> Result<Option<Match>, AllocError> {
    regex.find(alloc, Input::new(cursor).range(start, usize::MAX))
}

/// Whether there is a match from `start` on.
fn is_match<C: Cursor + Drop>(
    alloc: Global,
    regex: &Regex,
    cursor: &mut C,
    start: usize,
) -> Result<bool, AllocError> {
    regex.is_match(alloc, Input::new(cursor).range(start, usize::MAX))
}

/// Where a search begins with its cursor, and from where on it seeks.
type Places = (usize, usize);

/// Whether there is a match in the chunks, where it ends, and how often both searches asked for another chunk.
fn told(
    alloc: Global,
    pattern: &str,
    chunks: &[&[u8]],
    places: Places,
) -> Result<(bool, Option<usize>, u64), Fail> {
    let (at, start) = places;
    let chunks = ChunkCursor::at(chunks, at)?;
    let regex = Regex::new(alloc, pattern)?;
    let mut cursor = Counted { chunks, moves: 0 };
    let is_match = is_match(alloc, &regex, &mut cursor, start);
    let found = found(alloc, &regex, &mut cursor, start);
    drop(regex);
    Ok((is_match?, end_of(found?), cursor.moves))
}

/// How many chunks of `x` stand in a text of 16 MiB, and how many bytes these have.
const LONG: usize = 262_144;

const END: usize = 16_777_216;

/// A pattern; the first chunk of a text, how many are between, and the last; the places; and where the match ends.
type Row = (
    &'static str,
    (&'static [u8], usize, &'static [u8]),
    Places,
    Option<usize>,
);

/// A pattern whose matches end where the text does is sought from there. That there is a match is known where the first one ends. Where
/// the bounds leave no match, nothing is read. All of a text is read for the last row alone.
const ROWS: [Row; 7] = [
    ("foo$", (b"", LONG, b"foo"), (END, 0), Some(16_777_219)),
    ("a", (b"a", LONG, b""), (0, 0), Some(1)),
    ("a+", (b"a", LONG, b""), (0, 0), Some(1)),
    ("[a-c]", (b"a", LONG, b""), (0, 0), Some(1)),
    ("^foo$", (b"", LONG, b"foo"), (END, 1), None),
    ("^foo$", (b"", LONG, b"foo"), (END, END), None),
    ("foo", (b"", 1024, b"foo"), (0, 0), Some(65_539)),
];

#[test]
fn moves_of_searches(rt: HostRuntime) -> Result<(), Fail> {
    for (pattern, (first, count, last), places, end) in &ROWS {
        let chunks = long_text(rt.alloc(), first, *count, last)?;
        let (is_match, found, moves) = told(rt.alloc(), pattern, &chunks, *places)?;
        assert!(rt; is_match == end.is_some() && found == *end, "{pattern}");
        let is_little = moves < 8;
        let is_all = moves >= 1024;
        assert!(rt;
            if *count == LONG { is_little } else { is_all },
            "{moves} of {pattern}"
        );
    }
    Ok(())
}
