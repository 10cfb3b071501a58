//! Symbols: which scalar begins or ends with a byte past ASCII, by the bytes around it.
ghost use Rattle.std.specs.Prelude.{◌≡◌, ◌+◌, ◌^◌, ◌≤◌, ◌<◌, ℕ, IfSome, Some, length, slice_get};
ghost use Rattle.rc_text.specs.Text.{Keeps, bytes_after, bytes_before, slice_end};
ghost use Rattle.rc_program.specs.Scalars.{scalar_at, scalar_before};
ghost use Rattle.rc_program.specs.Sought.{text_of};
ghost use Rattle.rc_symbols.specs.Symbols.{IsSymbolAt};
ghost use Rattle.rc_dfa.specs.Symbols.{IsPast, symbol_of};
ghost use Rattle.rc_table_search.specs.Decodes.{first_of_scalar, last_of_scalar};

use crate::scalars::scalar_here;
use rc_dfa::symbols::{Symbol, Tagged};
use rc_program::look::{is_word_char, scalar_at, scalar_before};
use rc_text::cursor::Cursor;
use rc_text::input::{Input, around, content_fits, piece_before, piece_from};

/// Returns what is known of the first of the bytes, by the scalar that begins there.
#[inline(always)]
fn begun(bytes: &[u8]) -> Tagged
    ensures { result ≡ first_of_scalar (scalar_at bytes.now) }
{
    match scalar_at(bytes) {
        Some((c, _)) => Tagged::First(is_word_char(c)),
        None => Tagged::Neither,
    }
}

/// Returns what is known of the last of the bytes, by the scalar that ends there.
#[inline(always)]
fn ended(bytes: &[u8]) -> Tagged
    ensures { result ≡ last_of_scalar (scalar_before bytes.now) }
{
    match scalar_before(bytes) {
        Some(c) => Tagged::Last(is_word_char(c)),
        None => Tagged::Neither,
    }
}

/// Returns what is known of the byte at the position, by the scalar of the slice that begins there.
fn begun_at<C: Cursor>(input: &mut Input<C>, at: usize) -> Tagged
    requires low { input.old.slice.start ≤ at }
    requires high { at ≤ slice_end input.old }
    ensures keeps { Keeps input.old input.new }
    ensures tagged { result ≡ first_of_scalar (scalar_at (bytes_after input.old at)) }
{
    let end = input.get_slice_span().end.min(at.saturating_add(4));
    let piece = piece_from(input, at, end);
    if piece.len() >= 4 {
        return begun(piece);
    }
    let (bytes, place) = around(input, at);
    begun(&bytes[place..])
}

/// Returns what is known of the byte before the position, by the scalar of the slice that ends
/// there.
fn ended_at<C: Cursor>(input: &mut Input<C>, at: usize) -> Tagged
    requires low { input.old.slice.start ≤ at }
    requires high { at ≤ slice_end input.old }
    ensures keeps { Keeps input.old input.new }
    ensures tagged { result ≡ last_of_scalar (scalar_before (bytes_before input.old at)) }
{
    let start = input.get_slice_span().start.max(at.saturating_sub(4));
    let piece = piece_before(input, start, at);
    if piece.len() >= 4 {
        return ended(piece);
    }
    let (bytes, place) = around(input, at);
    ended(&bytes[..place])
}

/// Returns what is known of the slice's byte at the offset, which goes on with a scalar, if one chunk
/// has this whole.
#[inline(always)]
fn ended_in_piece<C: Cursor>(input: &mut Input<C>, at: usize, byte: u8) -> Option<Tagged>
    requires low { input.old.slice.start ≤ at }
    requires high { at < slice_end input.old }
    requires there { slice_get input.old.content at ≡ Some byte }
    requires past { 128 ≤ byte }
    requires fits { length input.old.content + 1 < 2 ^ 64 }
    ensures keeps { Keeps input.old input.new }
    ensures symbol { IfSome result (λ tagged. (terminator : ℕ)
        → IsSymbolAt (text_of terminator input.old) at
        (symbol_of (record { byte = byte; tagged = tagged }))) }
{
    let start = input.get_slice_span().start.max(at.saturating_sub(3));
    let piece = piece_before(input, start, at + 1);
    let place = piece.len() - 1;
    let scalar = scalar_here(piece, place)?;
    Some(scalar.tag(place))
}

/// Returns the symbol of the slice's byte at the offset, which is past ASCII. If it goes on with a
/// scalar, it begins none, and else it ends none. No byte outside the slice is looked at.
#[inline(always)]
pub fn symbol_at<C: Cursor>(input: &mut Input<C>, at: usize, byte: u8) -> Symbol
    requires low { input.old.slice.start ≤ at }
    requires high { at < slice_end input.old }
    requires there { slice_get input.old.content at ≡ Some byte }
    requires past { 128 ≤ byte }
    ensures keeps { Keeps input.old input.new }
    ensures past { IsPast result }
    ensures symbol { (terminator : ℕ) → IsSymbolAt (text_of terminator input.old) at
        (symbol_of result) }
{
    content_fits(input);
    if byte < 192 {
        if let Some(tagged) = ended_in_piece(input, at, byte) {
            return Symbol { byte, tagged };
        }
        let tagged = ended_at(input, at + 1);
        return Symbol { byte, tagged };
    }
    let tagged = begun_at(input, at);
    Symbol { byte, tagged }
}
