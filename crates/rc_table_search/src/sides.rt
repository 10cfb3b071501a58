//! Sides: the bytes beside a position, and the pieces from a position on, in either direction.
ghost use Rattle.std.specs.Prelude.{◌≡◌, ◌+◌, ◌-◌, ◌≤◌, ◌<◌, Bool, true, false, IfSome, length, slice_range};
ghost use Rattle.std.specs.Borrow.{sem};
ghost use Rattle.std.specs.Io.BufRead.{Rests};
ghost use Rattle.rc_text.specs.contracts.input.Input.{the_row};
ghost use Rattle.rc_text.specs.Text.{Keeps, slice_end};
ghost use Rattle.rc_program.specs.Sought.{text_of};
ghost use Rattle.rc_dfa.specs.Runs.{IsByte};
ghost use Rattle.rc_table_search.specs.Ways.{IsBeside, IsInSlice, beside_at, offset_of, span};
ghost use Rattle.rc_table_search.specs.Walks.{start_of};

use crate::way::Way;
use rc_dfa::sides::{byte_ahead, byte_behind};
use rc_text::cursor::Cursor;
use rc_text::input::{Input, piece_before, piece_from};

/// Returns the byte before the position, or the one at it. Returns None if the slice begins or ends
/// there.
#[inline(always)]
pub fn byte_beside<C: Cursor>(input: &mut Input<C>, at: usize, before: bool) -> Option<u8>
    requires low { input.old.slice.start ≤ at }
    requires high { at ≤ slice_end input.old }
    ensures keeps { Keeps input.old input.new }
    ensures value { result ≡ beside_at before (text_of 0 input.old) at }
    ensures there { IfSome result (IsBeside before input.old.content at) }
    ensures inside { IfSome result (λ _. IsInSlice before input.old at) }
    ensures small { IsByte result }
{
    if before {
        return byte_behind(input, at);
    }
    byte_ahead(input, at)
}

/// Returns the offset of the byte before the position, or of the one at it.
#[inline(always)]
pub fn offset(at: usize, before: bool) -> usize
    requires { before ≡ true → 1 ≤ at }
    ensures { result ≡ offset_of before at }
{
    if before {
        return at - 1;
    }
    at
}

/// Returns a piece of the text from the position on, not beyond the position `end`.
#[inline(always)]
pub fn piece_on<W: Way, C: Cursor>(input: &mut Input<C>, at: usize, end: usize) -> &[u8]
    requires some { 0 < span W.BACKWARDS at end }
    requires within { at ≤ length input.old.content }
    requires fits { end ≤ length input.old.content }
    ensures* after { sem 𝓛 (Rests (the_row C.row C.Cursor) input.entry (Keeps input.old)) }
    ensures bytes { result.now ≡ slice_range input.old.content
        (start_of W.BACKWARDS (length result.now) at)
        (start_of W.BACKWARDS (length result.now) at + length result.now) }
    ensures short { length result.now ≤ span W.BACKWARDS at end }
    ensures some { 0 < length result.now }
{
    if W::BACKWARDS {
        return piece_before(input, end, at);
    }
    piece_from(input, at, end)
}
