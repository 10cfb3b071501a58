//! Look-around: the bytes of the slice on both sides of a position, across chunks.
ghost use Rattle.std.specs.Prelude.{◌≡◌, ◌+◌, ◌≤◌, ◌++◌, length, take};
ghost use Rattle.rc_text.specs.Text.{Keeps, around_bytes_at, around_place_at};

use crate::cursor::Cursor;
use crate::input::{Input, piece_from};

/// The bytes around a position: the first `len` of `bytes`, and the index of the position among
/// them.
#[derive(Clone, Copy)]
pub(crate) struct Surroundings {
    pub(crate) bytes: [u8; 8],
    pub(crate) len: usize,
    pub(crate) place: usize,
}

/// The bytes of the slice around `p`, read a piece of a chunk at a time.
pub(crate) fn read_around<C: Cursor>(input: &mut Input<C>, p: usize) -> Surroundings
    ensures keeps { Keeps input.old input.new }
    ensures small { result.len ≤ 8 }
    ensures bytes { take result.len result.bytes ≡ around_bytes_at input.old p }
    ensures place { result.place ≡ around_place_at input.old p }
{
    let mut bytes = [0; 8];
    let mut len = 0;
    let slice = input.get_slice_span();
    if p < slice.start || p > slice.end {
        return Surroundings {
            bytes,
            len,
            place: 0,
        };
    }
    let start = slice.start.max(p.saturating_sub(4));
    let end = slice.end.min(p.saturating_add(4));
    let place = p - start;
    while start + len < end {
        let piece = piece_from(input, start + len, end);
        if piece.is_empty() {
            return Surroundings { bytes, len, place };
        }
        append(&mut bytes, len, piece);
        len += piece.len();
    }
    Surroundings { bytes, len, place }
}

/// Writes a piece after the first `len` bytes.
fn append(bytes: &mut [u8; 8], len: usize, piece: &[u8])
    requires { len + length piece.now ≤ 8 }
    ensures { take (len + length piece.now) bytes.new ≡ take len bytes.old ++ piece.now }
{
    bytes[len..len + piece.len()].copy_from_slice(piece);
}
