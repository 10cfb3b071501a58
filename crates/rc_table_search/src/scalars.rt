//! Scalars: those that a piece has whole, and what each tells of its bytes.
ghost use Rattle.std.specs.Prelude.{◌≡◌, ◌+◌, ◌≤◌, ◌<◌, ◌&&◌, IfSome, nat_le, nat_lt, length};
ghost use Rattle.rc_table_search.specs.Decodes.{Has, IsWhole, entry_of, tag_in};
ghost use Rattle.rc_table_search.specs.Walks.{left_of};

use crate::way::Way;
use rc_dfa::symbols::Tagged;
use rc_program::look::{is_word_char, scalar_at};

/// A scalar that a piece has whole.
#[derive(Clone, Copy)]
pub struct Scalar {
    /// The place in the piece at which it begins.
    pub first: usize,
    /// The place at which it ends.
    pub end: usize,
    /// Whether it is a word character.
    pub is_word: bool,
}

impl Scalar {
    ghost use Rattle.std.specs.Prelude.{◌≡◌, ◌<◌, ◌&&◌, nat_le, nat_lt, not};
    ghost use Rattle.rc_table_search.specs.Decodes.{entry_of, exit_of, near_of, rest_of, tag_in};

    /// Whether the byte at the place is one of its own.
    #[inline(always)]
    fn has(self, place: usize) -> bool
        ensures { result ≡ (nat_le self.first place && nat_lt place self.end) }
    {
        self.first <= place && place < self.end
    }

    /// Returns how many of its bytes are left to read at the place.
    #[inline(always)]
    pub fn left<W: Way>(self, place: usize) -> usize
        requires { (self.first ≤ place) × (place ≤ self.end) }
        ensures { result ≡ rest_of W.BACKWARDS self place }
    {
        if W::BACKWARDS {
            return place - self.first;
        }
        self.end - place
    }

    /// Returns the place at which it is read first.
    #[inline(always)]
    pub fn entry<W: Way>(self) -> usize
        ensures { result ≡ entry_of W.BACKWARDS self }
    {
        if W::BACKWARDS {
            return self.end;
        }
        self.first
    }

    /// Returns the place after its byte that is read last.
    #[inline(always)]
    pub fn exit<W: Way>(self) -> usize
        ensures { result ≡ exit_of W.BACKWARDS self }
    {
        if W::BACKWARDS {
            return self.first;
        }
        self.end
    }

    /// Returns what it tells of its byte that is read first, if it has more than one.
    #[inline(always)]
    pub fn near<W: Way>(self) -> Tagged
        ensures { result ≡ near_of W.BACKWARDS self }
    {
        if W::BACKWARDS {
            return Tagged::Last(self.is_word);
        }
        Tagged::First(self.is_word)
    }

    /// Returns what it tells of its byte that is read last, if it has more than one.
    #[inline(always)]
    pub fn far<W: Way>(self) -> Tagged
        ensures { result ≡ near_of (not W.BACKWARDS) self }
    {
        if W::BACKWARDS {
            return Tagged::First(self.is_word);
        }
        Tagged::Last(self.is_word)
    }

    /// Returns what it tells of its byte at the place, if it has more than one.
    #[inline(always)]
    pub fn tag(self, place: usize) -> Tagged
        requires { place < self.end }
        ensures { result ≡ tag_in self place }
    {
        if place == self.first {
            return Tagged::First(self.is_word);
        }
        if place + 1 == self.end {
            return Tagged::Last(self.is_word);
        }
        Tagged::Neither
    }
}

/// Returns the place at which a scalar begins that goes on at the place, if there is one. It begins
/// at most three bytes before.
#[inline(always)]
fn lead(piece: &[u8], place: usize) -> usize
    requires { place < length piece.now }
    ensures { result ≤ place }
{
    let mut first = place;
    while first > 0 && place - first < 3 && piece[first] < 192 {
        first -= 1;
    }
    first
}

/// Returns the scalar that begins at the place, if the piece has it whole.
#[inline(always)]
fn scalar_from(piece: &[u8], first: usize) -> Option<Scalar>
    requires { first ≤ length piece.now }
    ensures whole { IfSome result (IsWhole piece.now) }
    ensures within { IfSome result (λ s. s.end ≤ length piece.now) }
{
    let (c, count) = scalar_at(&piece[first..])?;
    let end = first + count;
    let is_word = is_word_char(c);
    Some(Scalar {
        first,
        end,
        is_word,
    })
}

/// Returns the scalar of the byte at the place, if the piece has it whole.
#[inline(always)]
pub fn scalar_here(piece: &[u8], place: usize) -> Option<Scalar>
    requires place { place < length piece.now }
    ensures whole { IfSome result (IsWhole piece.now) }
    ensures has { IfSome result (λ s. Has s place) }
{
    let scalar = scalar_from(piece, lead(piece, place))?;
    if !scalar.has(place) {
        return None;
    }
    Some(scalar)
}

/// Returns the scalar past ASCII that is read next at the place, if the piece has it whole, and none
/// of its bytes was read yet.
#[inline(always)]
pub fn scalar_next<W: Way>(piece: &[u8], place: usize) -> Option<Scalar>
    requires place { place ≤ length piece.now }
    requires some { 0 < left_of W.BACKWARDS (length piece.now) place }
    ensures whole { IfSome result (IsWhole piece.now) }
    ensures entry { IfSome result (λ s. place ≡ entry_of W.BACKWARDS s) }
    ensures several { IfSome result (λ s. s.first + 2 ≤ s.end) }
    ensures within { IfSome result (λ s. s.end ≤ length piece.now) }
{
    let first = if W::BACKWARDS {
        lead(piece, place - 1)
    } else {
        place
    };
    let scalar = scalar_from(piece, first)?;
    if scalar.entry::<W>() != place || scalar.end - scalar.first < 2 {
        return None;
    }
    Some(scalar)
}
