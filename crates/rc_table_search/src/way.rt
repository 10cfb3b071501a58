//! Direction: which byte of a piece a run reads next. A run stands at a place of the piece, that is
//! the number of bytes before it.
ghost use Rattle.std.specs.Prelude.{◌≡◌, ◌≤◌, ◌<◌, Bool, true, false, length};
ghost use Rattle.rc_table_search.specs.Walks.{byte_at, first_of, left_of, next_of, start_of};

/// The direction in which a run reads.
pub trait Way {
    /// Whether it reads from a piece's end to its beginning.
    const BACKWARDS: bool;

    ghost BACKWARDS: { Bool };
}

/// From a piece's beginning to its end.
pub struct Forwards;

/// From a piece's end to its beginning.
pub struct Backwards;

impl Way for Forwards {
    const BACKWARDS: bool = false;

    ghost BACKWARDS = { false };
}

impl Way for Backwards {
    const BACKWARDS: bool = true;

    ghost BACKWARDS = { true };
}

/// Returns how many bytes are left to read at the place.
#[inline(always)]
pub fn left<W: Way>(piece: &[u8], place: usize) -> usize
    requires { place ≤ length piece.now }
    ensures { result ≡ left_of W.BACKWARDS (length piece.now) place }
{
    if W::BACKWARDS {
        return place;
    }
    piece.len() - place
}

/// Returns the byte that is read next at the place.
#[inline(always)]
pub fn byte<W: Way>(piece: &[u8], place: usize) -> u8
    requires within { place ≤ length piece.now }
    requires some { 0 < left_of W.BACKWARDS (length piece.now) place }
    ensures { result ≡ byte_at W.BACKWARDS piece.now place }
{
    if W::BACKWARDS {
        return piece[place - 1];
    }
    piece[place]
}

/// Returns the place after the byte that is read next.
#[inline(always)]
pub fn next<W: Way>(piece: &[u8], place: usize) -> usize
    requires within { place ≤ length piece.now }
    requires some { 0 < left_of W.BACKWARDS (length piece.now) place }
    ensures { result ≡ next_of W.BACKWARDS place }
{
    if W::BACKWARDS {
        return place - 1;
    }
    place + 1
}

/// Returns the place at which a piece is read first.
#[inline(always)]
pub fn first<W: Way>(piece: &[u8]) -> usize
    ensures { result ≡ first_of W.BACKWARDS (length piece.now) }
{
    if W::BACKWARDS {
        return piece.len();
    }
    0
}

/// Returns the position at which a piece begins that is read from the position on.
#[inline(always)]
pub fn start<W: Way>(piece: &[u8], at: usize) -> usize
    requires { W.BACKWARDS ≡ true → length piece.now ≤ at }
    ensures { result ≡ start_of W.BACKWARDS (length piece.now) at }
{
    if W::BACKWARDS {
        return at - piece.len();
    }
    at
}

/// Returns the position after the byte that is read next from the position on.
#[inline(always)]
pub fn step_on<W: Way>(at: usize) -> usize
    requires low { W.BACKWARDS ≡ true → 0 < at }
    requires high { W.BACKWARDS ≡ false → at < usize.MAX }
    ensures { result ≡ next_of W.BACKWARDS at }
{
    if W::BACKWARDS {
        return at - 1;
    }
    at + 1
}
