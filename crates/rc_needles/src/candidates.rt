//! Candidates: where a needle may occur, in a piece of a chunk and in the content.
ghost use Rattle.std.specs.Prelude.{◌≡◌, ◌+◌, ◌<◌, ◌≤◌, ℕ, IfSome, IsTrue, List, None, length, slice_index};
ghost use Rattle.rc_text.specs.Text.{Keeps};
ghost use Rattle.rc_needles.specs.Needles.{needle_at};
ghost use Rattle.rc_needles.specs.Scans.{AreFirstBytesOf, AreFirstBytesOf-is_fact, IsRestOf};
ghost use Rattle.rc_needles.specs.Teddies.{AreSifted};
ghost use Rattle.rc_needles.specs.Tables.{Agrees, IsRuledOut, needles_in};

use crate::pairs::{LANES, are_nowhere, first_place};
use crate::scan::{FirstBytes, LONG_NEEDLE, NeedleSearch, Scan};
use crate::table::Table;
use crate::teddy::{LEAST_PIECE, Teddy};
use memchr::memmem::Finder;
use memchr::{memchr, memchr2, memchr3};
use rc_text::cursor::Cursor;
use rc_text::input::{Input, piece_from, takes_next};

/// In a chunk of fewer bytes, a quick look may show that two bytes of the only needle aren't there.
const SHORT_PIECE: usize = 512;

/// In a piece of fewer bytes, the packed pair is used; in longer ones, `memchr`'s memmem. It is used
/// for long needles in all pieces, since its search is linear.
const LONG_PIECE: usize = 8192;

/// The position up to which chunks were skipped, and whether a needle may occur there.
#[derive(Clone, Copy)]
struct Reached {
    at: usize,
    is_candidate: bool,
}

/// A way to look for needles in a piece of a chunk.
trait Candidates {
    /// The needles.
    ghost needles: { Self → List (List ℕ) };

    /// How many bytes after a needle's start the bytes are that are looked for.
    ghost offset: { Self → ℕ };

    /// Returns the first index of the piece at which a needle may occur, with its start `offset`
    /// bytes earlier; or the piece's length.
    fn candidate(&self, piece: &[u8]) -> usize
        ensures within { result ≤ length piece.now }
        ensures passed { (k : ℕ) → k < result
            → IsRuledOut (needles self.now) (offset self.now) piece.now k };

    /// Returns what `candidate` does, or None if a quick look doesn't decide it.
    fn quick_candidate(&self, piece: &[u8]) -> Option<usize>
        ensures within { IfSome result (λ at. at ≤ length piece.now) }
        ensures passed { IfSome result (λ at. (k : ℕ) → k < at
            → IsRuledOut (needles self.now) (offset self.now) piece.now k) };
}

/// Looks for the only needle, from its bytes at the offset on.
#[derive(Drop)]
struct ByRest<'a> {
    searcher: &'a NeedleSearch,
    rest: &'a Finder<'static>,
    first: u8,
    second: u8,
    ghost is: { IsRestOf
        (needles_in searcher.now.table.needles.items) searcher.now.offset rest.now },
    ghost is_first: { first ≡ slice_index rest.now 0 },
    ghost is_second: { second ≡ slice_index rest.now 1 },
}

impl Candidates for ByRest<'_> {
    ghost needles = { λ s. needles_in s.searcher.now.table.needles.items };

    ghost offset = { λ s. s.searcher.now.offset };

    #[inline(always)]
    fn candidate(&self, piece: &[u8]) -> usize {
        let rest = self.rest.needle();
        if rest.len() <= LONG_NEEDLE && is_between(piece, LANES, LONG_PIECE) {
            return first_place(piece, rest);
        }
        rest_candidate(self.rest, piece)
    }

    #[inline(always)]
    fn quick_candidate(&self, piece: &[u8]) -> Option<usize> {
        if is_between(piece, LANES, SHORT_PIECE) && are_nowhere(piece, self.first, self.second) {
            return Some(piece.len());
        }
        None
    }
}

/// Looks for a byte with which a needle begins.
#[derive(Drop)]
struct ByHead<'a> {
    searcher: &'a NeedleSearch,
    heads: FirstBytes,
    ghost from_start: { searcher.now.offset ≡ 0 },
    ghost are: { AreFirstBytesOf (needles_in searcher.now.table.needles.items) heads } by { AreFirstBytesOf-is_fact (needles_in searcher.now.table.needles.items) heads },
}

impl Candidates for ByHead<'_> {
    ghost needles = { λ s. needles_in s.searcher.now.table.needles.items };

    ghost offset = { λ s. s.searcher.now.offset };

    #[inline(always)]
    fn candidate(&self, piece: &[u8]) -> usize {
        match self.heads {
            FirstBytes::One(one) => memchr(one, piece).unwrap_or(piece.len()),
            FirstBytes::Two(one, two) => memchr2(one, two, piece).unwrap_or(piece.len()),
            FirstBytes::Three(one, two, three) => {
                memchr3(one, two, three, piece).unwrap_or(piece.len())
            }
            FirstBytes::Many => head_candidate(&self.searcher.table, piece),
        }
    }

    #[inline(always)]
    fn quick_candidate(&self, _: &[u8]) -> Option<usize> {
        None
    }
}

/// Looks for the first three bytes of needles, by Teddy.
#[derive(Drop)]
struct ByTeddy<'a> {
    searcher: &'a NeedleSearch,
    teddy: &'a Teddy,
    ghost from_start: { searcher.now.offset ≡ 0 },
    ghost are: { AreSifted teddy.now (needles_in searcher.now.table.needles.items) },
}

impl Candidates for ByTeddy<'_> {
    ghost needles = { λ s. needles_in s.searcher.now.table.needles.items };

    ghost offset = { λ s. s.searcher.now.offset };

    #[inline(always)]
    fn candidate(&self, piece: &[u8]) -> usize {
        teddy_candidate(self.teddy, &self.searcher.table, piece)
    }

    #[inline(always)]
    fn quick_candidate(&self, piece: &[u8]) -> Option<usize> {
        Some(self.candidate(piece))
    }
}

/// Whether the piece has more than `low` bytes and fewer than `high`.
fn is_between(piece: &[u8], low: usize, high: usize) -> bool
    ensures { IsTrue result → low < length piece.now }
{
    low < piece.len() && piece.len() < high
}

/// Returns the index of the finder's bytes in the piece, or else the first index at which they may
/// begin at its end.
#[inline(never)]
fn rest_candidate(finder: &Finder, piece: &[u8]) -> usize
    requires some { 2 ≤ length finder.now }
    ensures within { result ≤ length piece.now }
    ensures passed { (k : ℕ) → k < result → ¬ Agrees piece.now finder.now k }
{
    if let Some(at) = finder.find(piece) {
        return at;
    }
    let rest = finder.needle();
    let from = piece.len().saturating_sub(rest.len() - 1);
    from + begun_in(&piece[from..], rest)
}

/// Returns the first index at which the piece has the first bytes of `rest`, as far as both go, or
/// an earlier candidate near the piece's end. If there is none, it is the piece's length.
#[inline(always)]
fn begun_in(piece: &[u8], rest: &[u8]) -> usize
    requires some { 2 ≤ length rest.now }
    ensures within { result ≤ length piece.now }
    ensures passed { (k : ℕ) → k < result → ¬ Agrees piece.now rest.now k }
{
    if piece.len() > LANES {
        return first_place(piece, &rest[..rest.len().min(LONG_NEEDLE)]);
    }
    memchr(rest[0], piece).unwrap_or(piece.len())
}

/// Returns the index of the first byte with which a needle begins, or the piece's length.
fn head_candidate(table: &Table, piece: &[u8]) -> usize
    ensures within { result ≤ length piece.now }
    ensures passed { (k : ℕ) → k < result → length table.now.needles.items
        ≤ slice_index table.now.heads.items (slice_index piece.now k) }
{
    for (i, byte) in piece.iter().enumerate() {
        if table.heads[*byte as usize] < table.needles.len() {
            return i;
        }
    }
    piece.len()
}

/// Returns the first index at which a bucket takes three bytes. In a piece that is too short for
/// Teddy, and in the last two bytes, it is the index of the first byte with which a needle begins.
fn teddy_candidate(teddy: &Teddy, table: &Table, piece: &[u8]) -> usize
    requires { AreSifted teddy.now (needles_in table.now.needles.items) }
    ensures within { result ≤ length piece.now }
    ensures passed { (k : ℕ) → k < result
        → IsRuledOut (needles_in table.now.needles.items) 0 piece.now k }
{
    if piece.len() < LEAST_PIECE {
        return head_candidate(table, piece);
    }
    let at = teddy.place(piece);
    let last = piece.len() - 2;
    if at < last {
        return at;
    }
    last + head_candidate(table, &piece[last..])
}

/// Returns the first position from `from` on at which a needle may occur, with its start `offset`
/// bytes earlier. If there is none below `end`, it is at least `end`. Positions are in bytes.
#[inline(always)]
fn look_from<C: Cursor, L: Candidates>(
    input: &mut Input<C>,
    look: &L,
    from: usize,
    end: usize,
) -> usize
    requires inside { end ≤ length input.old.content }
    ensures keeps { Keeps input.old input.new }
    ensures low { from ≤ result }
    ensures passed { (i : ℕ) → from ≤ i + L.offset look.now → i + L.offset look.now < result
        → needle_at (L.needles look.now) input.old.content end i ≡ None }
{
    let mut at = from;
    while at < end {
        let piece = piece_from(input, at, end);
        let len = piece.len();
        let passed = look.candidate(piece);
        at += passed;
        if passed < len {
            return at;
        }
        let reached = chunks_passed(input, look, at, end);
        at = reached.at;
        if reached.is_candidate {
            return at;
        }
    }
    at
}

/// Skips chunks from `from` on, as long as quick looks allow it and `end` isn't passed. Returns the
/// position that was reached, in bytes.
#[inline(always)]
fn chunks_passed<C: Cursor, L: Candidates>(
    input: &mut Input<C>,
    look: &L,
    from: usize,
    end: usize,
) -> Reached
    requires inside { end ≤ length input.old.content }
    ensures keeps { Keeps input.old input.new }
    ensures low { from ≤ result.at }
    ensures passed { (i : ℕ) → from ≤ i + L.offset look.now → i + L.offset look.now < result.at
        → needle_at (L.needles look.now) input.old.content end i ≡ None }
{
    let mut at = from;
    while takes_next(input, at, end) {
        let chunk = input.chunk();
        let len = chunk.len();
        let Some(passed) = look.quick_candidate(chunk) else {
            break;
        };
        at += passed;
        if passed < len {
            return Reached {
                at,
                is_candidate: true,
            };
        }
    }
    Reached {
        at,
        is_candidate: false,
    }
}

/// Returns the first position from `from` on at which a needle may occur, with its start `offset`
/// bytes earlier, by the searcher's algorithm. If there is none below `end`, it is at least `end`.
/// Positions are in bytes.
#[inline(never)]
pub fn place_from<C: Cursor>(
    input: &mut Input<C>,
    searcher: &NeedleSearch,
    from: usize,
    end: usize,
) -> usize
    requires inside { end ≤ length input.old.content }
    ensures keeps { Keeps input.old input.new }
    ensures low { from ≤ result }
    ensures passed { (i : ℕ) → from ≤ i + searcher.now.offset → i + searcher.now.offset < result
        → needle_at (needles_in searcher.now.table.needles.items) input.old.content end i ≡ None }
{
    match &searcher.scan {
        Scan::Needle(rest) => look_from(input, &by_rest(searcher, rest), from, end),
        Scan::FirstBytes(heads) => {
            let heads = *heads;
            look_from(input, &ByHead { searcher, heads }, from, end)
        }
        Scan::Teddy(teddy) => look_from(input, &ByTeddy { searcher, teddy }, from, end),
    }
}

/// The way to look for the only needle, from its bytes at the offset on.
#[inline(always)]
fn by_rest<'a>(searcher: &'a NeedleSearch, rest: &'a Finder<'static>) -> ByRest<'a>
    requires { IsRestOf (needles_in searcher.now.table.needles.items) searcher.now.offset rest.now }
    ensures { result.searcher ≡ searcher.entry }
{
    let bytes = rest.needle();
    ByRest {
        searcher,
        rest,
        first: bytes[0],
        second: bytes[1],
    }
}
