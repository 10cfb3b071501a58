//! Searches for words: from literal to literal, with the assertions asked on both sides.
ghost use Rattle.std.specs.Prelude.{◌≡◌, ◌≤◌, ◌<◌, ◌+◌, ℕ, IfSome, IsTrue, MatchOption, length};
ghost use Rattle.rc_text.specs.Bounds.{IsWithinBounds};
ghost use Rattle.rc_text.specs.Text.{Keeps, high, low, slice_end};
ghost use Rattle.rc_program.specs.Text.{holds};
ghost use Rattle.rc_program.specs.Sought.{text_of};
ghost use Rattle.rc_needles.specs.Needles.{StandsWithin};
ghost use Rattle.rc_needles.specs.Prefilters.{needles_of};
ghost use Rattle.rc_needles.specs.Tables.{numbered};
ghost use Rattle.rc_words.specs.Endings.{EndsWhere, MayEndAt};
ghost use Rattle.rc_words.specs.Words.{HasNoWord, IsEnded, IsOnlyWord, between_in};

use crate::words::Words;
use rc_needles::literal::{find_from, stands_by_pieces};
use rc_pattern::hir::Look;
use rc_program::look::holds;
use rc_text::cursor::Cursor;
use rc_text::input::{Input, around, byte_at, high, low};
use rc_text::types::Span;

/// The node of a trie at which each literal begins.
const ROOT: usize = 1;

/// Where literals end that begin at one position and have the second assertion behind them.
#[derive(Clone, Copy)]
pub(crate) enum Ending {
    /// Nowhere.
    Nowhere,
    /// At this position alone.
    Once(usize),
    /// At several, perhaps.
    Several,
}

/// Whether the assertion holds at the position, which is in the slice.
fn holds_at<C: Cursor>(input: &mut Input<C>, look: Look, terminator: u8, position: usize) -> bool
    requires low { input.old.slice.start ≤ position }
    requires high { position ≤ slice_end input.old }
    ensures keeps { Keeps input.old input.new }
    ensures value { result ≡ holds (text_of terminator input.old) look position }
{
    let (bytes, place) = around(input, position);
    holds(look, terminator, &bytes[..place], &bytes[place..])
}

/// Whether the literal of the number occurs from `at` to `to`.
fn stands_to<C: Cursor>(
    input: &mut Input<C>,
    words: &Words,
    number: usize,
    at: usize,
    to: usize,
) -> bool
    requires number { number < length (needles_of words.now.needles) }
    requires ordered { at ≤ to }
    requires within { to ≤ length input.old.content }
    ensures keeps { Keeps input.old input.new }
    ensures stands { IsTrue result → StandsWithin input.old.content to
        (numbered (needles_of words.now.needles) number) at }
    ensures long { IsTrue result → to
        ≡ at + length (numbered (needles_of words.now.needles) number) }
{
    let needle = words.needles.searcher.table.needles[number].as_slice();
    if needle.len() != to - at {
        return false;
    }
    stands_by_pieces(input, needle, at, to)
}

/// Returns where literals end that begin at `at`, end at `end` or earlier, and have the second
/// assertion behind them.
fn ending_from<C: Cursor>(
    input: &mut Input<C>,
    words: &Words,
    terminator: u8,
    at: usize,
    end: usize,
) -> Ending
    requires low { input.old.slice.start ≤ at }
    requires high { end ≤ slice_end input.old }
    ensures keeps { Keeps input.old input.new }
    ensures may { (j : ℕ)
        → IsEnded (between_in words.now) (text_of terminator input.old) end at j
        → MayEndAt result j }
    ensures once { EndsWhere (between_in words.now) (text_of terminator input.old) end at result }
{
    let table = &words.needles.searcher.table;
    let Some(trie) = &table.trie else {
        return Ending::Several;
    };
    let mut best = Ending::Nowhere;
    let mut node = ROOT;
    let mut place = at;
    while place < end {
        let Some(byte) = byte_at(input, place) else {
            return Ending::Several;
        };
        node = trie.step(node, byte);
        if node == 0 {
            return best;
        }
        place += 1;
        let number = trie.number(node);
        if number < table.needles.len() && holds_at(input, words.behind, terminator, place) {
            let Ending::Nowhere = best else {
                return Ending::Several;
            };
            if !stands_to(input, words, number, at, place) {
                return Ending::Several;
            }
            best = Ending::Once(place);
        }
    }
    best
}

/// Returns the word at the least start within the input's bounds at which one begins, if it is the
/// only one there. Returns `Some(None)` if there is no word, and None if it doesn't tell: the
/// literals are few, or several words begin there.
///
/// It reads the uncut bytes, wherever the input was before. It allocates and copies nothing.
pub fn find_word<C: Cursor>(
    input: &mut Input<C>,
    words: &Words,
    terminator: u8,
) -> Option<Option<Span>>
    ensures keeps { Keeps input.old input.new }
    ensures found { IfSome result (λ found. MatchOption found
        (HasNoWord (between_in words.now) (text_of terminator input.old) (low input.old)
        (high input.old))
        (λ span. IsOnlyWord (between_in words.now) (text_of terminator input.old) (low input.old)
        (high input.old) span.start span.end)) }
    ensures within { IfSome result (λ found. IfSome found
        (λ span. (low input.old ≤ span.start) × (span.start ≤ span.end)
        × (span.end ≤ high input.old))) }
{
    let end = high(input);
    let mut at = low(input);
    loop {
        let Some(hit) = find_from(input, &words.needles, at, end) else {
            return Some(None);
        };
        let start = hit.start;
        if holds_at(input, words.before, terminator, start) {
            match ending_from(input, words, terminator, start, end) {
                Ending::Nowhere => {}
                Ending::Once(end) => return Some(Some(Span { start, end })),
                Ending::Several => return None,
            }
        }
        at = start + 1;
    }
}
