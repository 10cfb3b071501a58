//! Symbols: bytes past ASCII, each with what is known of the scalar that begins or ends with it.
ghost use Rattle.std.specs.Prelude.{◌≡◌, ◌≤◌};
ghost use Rattle.rc_dfa.specs.Columns.{told_tagged};
ghost use Rattle.rc_dfa.specs.Symbols.{number_of, sides_given, told_given};

use rc_determinize::sides::{Asked, Seen, Sides, told};

/// What a table reads.
#[derive(Clone, Copy, PartialEq, Eq)]
pub enum Alphabet {
    /// Bytes, each known alone.
    Bytes,
    /// Bytes, each with what is known of the scalars on its two sides.
    Symbols,
}

/// What is known of the scalar that begins or ends with a byte past ASCII. No such byte does both.
/// The flag says whether the scalar is a word character.
#[derive(Clone, Copy, PartialEq, Eq)]
pub enum Tagged {
    /// No scalar begins or ends with it.
    Neither,
    /// A scalar begins with it.
    First(bool),
    /// A scalar ends with it.
    Last(bool),
}

/// A byte past ASCII, with what is known of the scalar that begins or ends with it.
#[derive(Clone, Copy, PartialEq, Eq)]
pub struct Symbol {
    /// The byte, at least 128.
    pub byte: u8,
    pub tagged: Tagged,
}

impl Tagged {
    ghost use Rattle.rc_dfa.specs.Symbols.{opens_of, shuts_of};

    /// Whether the scalar that begins with the byte is a word character. None: no scalar does.
    fn opens(self) -> Option<bool>
        ensures { result ≡ opens_of self }
    {
        match self {
            Tagged::First(word) => Some(word),
            Tagged::Neither | Tagged::Last(_) => None,
        }
    }

    /// Whether the scalar that ends with the byte is a word character. None: no scalar does.
    fn shuts(self) -> Option<bool>
        ensures { result ≡ shuts_of self }
    {
        match self {
            Tagged::Last(word) => Some(word),
            Tagged::Neither | Tagged::First(_) => None,
        }
    }
}

/// Returns the number of a tag, below 5.
#[inline(always)]
pub(crate) fn number_of(tagged: Tagged) -> usize
    ensures value { result ≡ number_of tagged }
    ensures small { result ≤ 4 }
{
    match tagged {
        Tagged::Neither => 0,
        Tagged::First(word) => 1 + usize::from(word),
        Tagged::Last(word) => 3 + usize::from(word),
    }
}

/// Returns the facts for which the program asks about a side on which the byte stands, of a scalar
/// with this tag or of none.
fn told_tagged(needs: Asked, terminator: u8, byte: u8, tag: Option<bool>) -> Seen
    ensures { result ≡ told_tagged needs terminator byte tag }
{
    Seen {
        letter: needs.unicode && tag.unwrap_or(false),
        broken: needs.unicode && tag.is_none(),
        ..told(needs, terminator, Some(byte))
    }
}

/// Returns what a step over the symbol is told, forwards or backwards.
pub(crate) fn sides_over(needs: Asked, terminator: u8, backwards: bool, symbol: Symbol) -> Sides
    ensures { result ≡ sides_given backwards needs terminator symbol }
{
    let byte = symbol.byte;
    let opens = told_tagged(needs, terminator, byte, symbol.tagged.opens());
    let shuts = told_tagged(needs, terminator, byte, symbol.tagged.shuts());
    let (near, far) = if backwards {
        (shuts, opens)
    } else {
        (opens, shuts)
    };
    Sides {
        byte: Some(byte),
        near,
        far,
    }
}

/// Returns what is told of the side on which the symbol stands where a search begins, forwards or
/// backwards.
pub(crate) fn told_beside(needs: Asked, terminator: u8, backwards: bool, symbol: Symbol) -> Seen
    ensures { result ≡ told_given backwards needs terminator symbol }
{
    let tag = if backwards {
        symbol.tagged.opens()
    } else {
        symbol.tagged.shuts()
    };
    told_tagged(needs, terminator, symbol.byte, tag)
}
