//! Look-around window: a copy of the 64 bytes around a pass's position, so that assertions and
//! characters are read without moving the cursor.
ghost use Rattle.std.specs.Prelude.{◌≡◌, ◌+◌, ◌-◌, ◌≤◌, ◌<◌, length, take, slice_range, min, ◌++◌, ℕ};
ghost use Rattle.rc_text.specs.Text.{Searched, Keeps, slice_end};
ghost use Rattle.rc_pikevm.specs.Moves.{IsSetting};
ghost use Rattle.rc_pikevm.specs.Near.{IsHere};
ghost use Rattle.rc_pikevm.specs.Windows.{IsWindow, IsAround, IsBegun};

use crate::spot::{Course, Spot};
use rc_text::cursor::Cursor;
use rc_text::input::{Input, piece_from};

/// A copy of the text around a pass's position: the first `len` of `bytes`, which begin at the
/// text's byte `start`.
#[derive(Clone, Copy)]
pub struct Window {
    /// The bytes.
    pub bytes: [u8; 64],
    /// Where the first of them is in the text, in bytes.
    pub start: usize,
    /// How many there are, at most 64.
    pub len: usize,
}

/// Returns the slice's bytes from four before `at` on, at most 64.
pub fn open<C: Cursor>(input: &mut Input<C>, at: usize) -> Window
    requires inside { (input.old.slice.start ≤ at) × (at ≤ slice_end input.old) }
    ensures keeps { Keeps input.old input.new }
    ensures window { IsWindow input.old result }
    ensures begun { IsBegun input.old at result }
    ensures near { at ≤ result.start + 4 }
{
    let mut bytes = [0; 64];
    let mut len = 0;
    let slice = input.get_slice_span();
    let start = slice.start.max(at.saturating_sub(4));
    let end = slice.end.min(start.saturating_add(64));
    while start + len < end {
        let piece = piece_from(input, start + len, end);
        if piece.is_empty() {
            return Window { bytes, start, len };
        }
        append(&mut bytes, len, piece);
        len += piece.len();
    }
    Window { bytes, start, len }
}

/// Writes a piece after the first `len` bytes.
fn append(bytes: &mut [u8; 64], len: usize, piece: &[u8])
    requires { len + length piece.now ≤ 64 }
    ensures { take (len + length piece.now) bytes.new ≡ take len bytes.old ++ piece.now }
{
    bytes[len..len + piece.len()].copy_from_slice(piece);
}

/// Opens the window anew if it ends within four bytes after `at` and the slice goes on.
pub fn reach<C: Cursor>(window: &mut Window, input: &mut Input<C>, at: usize)
    requires inside { (input.old.slice.start ≤ at) × (at ≤ slice_end input.old) }
    requires window { IsWindow input.old window.old }
    requires begun { IsBegun input.old at window.old }
    ensures keeps { Keeps input.old input.new }
    ensures window { IsWindow input.old window.new }
    ensures begun { IsBegun input.old at window.new }
    ensures around { IsAround input.old at window.new }
{
    if window.len == 64 && at - window.start > 60 {
        *window = open(input, at);
    }
}

/// Returns a position, in bytes: for each position up to it, the window has the four bytes after
/// it, or all that the slice has.
#[inline(always)]
pub fn limit(window: &Window) -> usize
    ghost text: { Searched }
    requires window { IsWindow text window.now }
    ensures { (at : ℕ) → at ≤ result → IsAround text at window.now }
{
    if window.len == 64 {
        return window.start.saturating_add(60);
    }
    window.start.saturating_add(window.len)
}

/// Returns what a pass sees at the byte `at`. The window must show the four bytes on both sides of
/// it, as far as the slice has them.
pub fn spot_at<'a>(course: Course<'a>, window: &'a Window, at: usize) -> Spot<'a>
    ghost text: { Searched }
    requires setting { IsSetting course text }
    requires window { IsWindow text window.now }
    requires begun { IsBegun text at window.now }
    requires around { IsAround text at window.now }
    requires within { at ≤ course.hi }
    ensures course { result.course ≡ course.entry }
    ensures at { result.at ≡ at }
    ensures here { IsHere result text }
{
    let place = at - window.start;
    Spot {
        course,
        at,
        before: &window.bytes[..place],
        after: &window.bytes[place..window.len],
    }
}
