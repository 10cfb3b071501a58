//! Look-around: what a step knows of the two sides of a position.
ghost use Rattle.std.specs.Prelude.{◌≡◌, IsTrue};
ghost use Rattle.rc_program.specs.Looks.{is_word_byte};
ghost use Rattle.rc_utf8.specs.Places.{place_of, places_of};
ghost use Rattle.rc_determinize.specs.Sides.{seen_of, holds_by, asked, told, sides_of, asking, guarded, AreAsked};

use rc_pattern::hir::Look;
use rc_utf8::place::BytePlace;

/// The facts about one side of a position.
#[derive(Clone, Copy, PartialEq, Eq)]
pub struct Seen {
    /// There is no byte: what the search sees ends here.
    pub edge: bool,
    /// The byte is the line terminator.
    pub terminator: bool,
    /// The byte is an LF.
    pub line_feed: bool,
    /// The byte is a CR.
    pub carriage_return: bool,
    /// The byte is an ASCII letter, an ASCII digit or `_`.
    pub word: bool,
    /// A word character of Unicode stands there.
    pub letter: bool,
    /// Bytes stand there that are no scalar.
    pub broken: bool,
}

/// The facts about a byte that a program's assertions ask for: each as in `Seen`.
#[derive(Clone, Copy, PartialEq, Eq)]
pub struct Facts {
    pub edge: bool,
    pub terminator: bool,
    pub line_feed: bool,
    pub carriage_return: bool,
    pub word: bool,
}

/// The facts that a program's assertions ask for.
#[derive(Clone, Copy, PartialEq, Eq)]
pub struct Asked {
    /// The facts about a byte that some assertion asks for.
    pub facts: Facts,
    /// Some assertion depends on Unicode words. Then a step that knows bytes alone can't read those
    /// of at least 128.
    pub unicode: bool,
}

/// What a step over a byte is told of the two sides of it.
#[derive(Clone, Copy)]
pub struct Sides {
    /// The byte, or None at an end of what the search sees.
    pub byte: Option<u8>,
    /// The facts about the side of the state's position on which the byte is.
    pub near: Seen,
    /// The facts about the side of the new state's position on which it is: that state keeps them.
    pub far: Seen,
}

/// Whether the byte is an ASCII letter, an ASCII digit or `_`.
fn is_word_byte(byte: u8) -> bool
    ensures { result ≡ is_word_byte byte }
{
    matches!(byte, b'0'..=b'9' | b'A'..=b'Z' | b'_' | b'a'..=b'z')
}

/// Returns all facts about a byte, or about an end. A byte of at least 128 is taken for no scalar.
fn seen_of(terminator: u8, byte: Option<u8>) -> Seen
    ensures { result ≡ seen_of terminator byte }
{
    match byte {
        None => Seen {
            edge: true,
            terminator: false,
            line_feed: false,
            carriage_return: false,
            word: false,
            letter: false,
            broken: false,
        },
        Some(found) => {
            let word = is_word_byte(found);
            Seen {
                edge: false,
                terminator: found == terminator,
                line_feed: found == b'\n',
                carriage_return: found == b'\r',
                word,
                letter: word,
                broken: found >= 128,
            }
        }
    }
}

/// Returns the facts for which the program asks; all others are false.
fn only_asked(needs: Asked, seen: Seen) -> Seen
    ensures { result ≡ asked needs seen }
{
    let facts = needs.facts;
    Seen {
        edge: facts.edge && seen.edge,
        terminator: facts.terminator && seen.terminator,
        line_feed: facts.line_feed && seen.line_feed,
        carriage_return: facts.carriage_return && seen.carriage_return,
        word: facts.word && seen.word,
        letter: needs.unicode && seen.letter,
        broken: needs.unicode && seen.broken,
    }
}

/// Returns the facts about a byte, or about an end, for which the program asks; all others are
/// false. Lines end at the byte `terminator`.
pub fn told(needs: Asked, terminator: u8, byte: Option<u8>) -> Seen
    ensures { result ≡ told needs terminator byte }
{
    only_asked(needs, seen_of(terminator, byte))
}

/// Returns what a step is told that knows this byte alone, or the end: the same of both sides.
pub fn sides_of(needs: Asked, terminator: u8, byte: Option<u8>) -> Sides
    ensures { result ≡ sides_of needs terminator byte }
{
    let seen = told(needs, terminator, byte);
    Sides {
        byte,
        near: seen,
        far: seen,
    }
}

/// Whether the assertion holds, by the facts about the two sides.
pub(crate) fn holds_by(before: Seen, after: Seen, look: Look) -> bool
    ensures { result ≡ holds_by before after look }
{
    match look {
        Look::Start => before.edge,
        Look::End => after.edge,
        Look::StartLF => before.edge || before.terminator,
        Look::EndLF => after.edge || after.terminator,
        Look::StartCRLF => before.edge
            || before.line_feed
            || (before.carriage_return && !after.line_feed),
        Look::EndCRLF => after.edge
            || after.carriage_return
            || (after.line_feed && !before.carriage_return),
        Look::WordAscii => before.word != after.word,
        Look::WordAsciiNegate => before.word == after.word,
        Look::WordUnicode => before.letter != after.letter,
        Look::WordUnicodeNegate => {
            !before.broken && !after.broken && before.letter == after.letter
        }
        Look::WordStartAscii => !before.word && after.word,
        Look::WordEndAscii => before.word && !after.word,
        Look::WordStartUnicode => !before.letter && after.letter,
        Look::WordEndUnicode => before.letter && !after.letter,
        Look::WordStartHalfAscii => !before.word,
        Look::WordEndHalfAscii => !after.word,
        Look::WordStartHalfUnicode => !before.broken && !before.letter,
        Look::WordEndHalfUnicode => !after.broken && !after.letter,
    }
}

/// Adds to `needs` the facts that the assertion asks for.
fn asking(look: Look, needs: Asked) -> Asked
    ensures { result ≡ asking look needs }
{
    let facts = needs.facts;
    match look {
        Look::Start | Look::End => Asked {
            facts: Facts {
                edge: true,
                ..facts
            },
            ..needs
        },
        Look::StartLF | Look::EndLF => Asked {
            facts: Facts {
                edge: true,
                terminator: true,
                ..facts
            },
            ..needs
        },
        Look::StartCRLF | Look::EndCRLF => Asked {
            facts: Facts {
                edge: true,
                line_feed: true,
                carriage_return: true,
                ..facts
            },
            ..needs
        },
        Look::WordUnicode
        | Look::WordUnicodeNegate
        | Look::WordStartUnicode
        | Look::WordEndUnicode
        | Look::WordStartHalfUnicode
        | Look::WordEndHalfUnicode => Asked {
            unicode: true,
            ..needs
        },
        _ => Asked {
            facts: Facts {
                word: true,
                ..facts
            },
            ..needs
        },
    }
}

/// Returns the assertion of the place, if it has one.
fn guarded(place: &BytePlace) -> Option<Look>
    ensures { result ≡ guarded (place_of place.now) }
{
    match place {
        BytePlace::Guard(look, _) => Some(*look),
        _ => None,
    }
}

/// Returns exactly the facts that the assertions of a program ask for.
pub fn needs_of(places: &[BytePlace]) -> Asked
    ensures { AreAsked result (places_of places.now) }
{
    let mut needs = Asked {
        facts: Facts {
            edge: false,
            terminator: false,
            line_feed: false,
            carriage_return: false,
            word: false,
        },
        unicode: false,
    };
    for place in places {
        if let Some(look) = guarded(place) {
            needs = asking(look, needs);
        }
    }
    needs
}
