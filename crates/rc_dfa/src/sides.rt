//! Look-around: the bytes on the two sides of a position, within the slice.
ghost use Rattle.std.specs.Prelude.{◌≡◌, ◌≤◌, IfSome, slice_get, ◌-◌, ◌+◌};
ghost use Rattle.rc_text.specs.Text.{Keeps, slice_end};
ghost use Rattle.rc_program.specs.Sought.{text_of};
ghost use Rattle.rc_dfa.specs.Runs.{IsByte, ahead_at, behind_at};

use rc_text::cursor::Cursor;
use rc_text::input::{Input, byte_at};

/// The byte before the position, or `None` if the slice begins there.
#[inline(always)]
pub fn byte_behind<C: Cursor>(input: &mut Input<C>, at: usize) -> Option<u8>
    requires low { input.old.slice.start ≤ at }
    requires high { at ≤ slice_end input.old }
    ensures keeps { Keeps input.old input.new }
    ensures value { result ≡ behind_at (text_of 0 input.old) at }
    ensures there { IfSome result (λ byte. (1 ≤ at)
        × (slice_get input.old.content (at - 1) ≡ Some byte)) }
    ensures small { IsByte result }
{
    if input.get_slice_span().start < at {
        return byte_at(input, at - 1);
    }
    None
}

/// The byte at the position, or `None` if the slice or the content ends there.
#[inline(always)]
pub fn byte_ahead<C: Cursor>(input: &mut Input<C>, at: usize) -> Option<u8>
    requires { at ≤ slice_end input.old }
    ensures keeps { Keeps input.old input.new }
    ensures value { result ≡ ahead_at (text_of 0 input.old) at }
    ensures there { IfSome result (λ byte. slice_get input.old.content at ≡ Some byte) }
    ensures small { IsByte result }
{
    if at < input.get_slice_span().end {
        return byte_at(input, at);
    }
    None
}
