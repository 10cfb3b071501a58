//! Faults: what may be wrong with the text of a pattern.

ghost use Rattle.std.specs.Prelude.{length, ◌≤◌, IfSome};

use rc_text::types::Span;
use std::fmt;

/// A fault: what is wrong with the text of a pattern, and where.
#[derive(Clone, Copy, Debug, PartialEq, Eq)]
pub struct Fault {
    /// What is wrong.
    pub kind: FaultKind,
    /// The part of the text that is at fault, in bytes: the opening `(`, `[`, `{` or `<` if it
    /// isn't closed, and otherwise what isn't allowed there.
    pub span: Span,
}

/// The kinds of faults. The examples are texts with that fault, by the stated grammar unless the full
/// one is named.
#[derive(Clone, Copy, Debug, PartialEq, Eq)]
pub enum FaultKind {
    /// `(a`: the span is the `(`.
    UnclosedGroup,
    /// `a)`
    UnopenedGroup,
    /// `(?>a)`, `(?#a)`, `(?P>a)`
    UnknownGroup,
    /// `(?=a)`, `(?!a)`, `(?<=a)`, `(?<!a)`
    LookAround,
    /// `(?)`
    MissingFlags,
    /// `(?q)`
    UnknownFlag,
    /// `(?x)`: blanks and comments in a pattern always count.
    VerboseFlag,
    /// `(?ii)`, `(?i-i)`, and in the full grammar `(?xx)`
    RepeatedFlag,
    /// `(?i--s)`
    RepeatedNegation,
    /// `(?i-)`
    DanglingNegation,
    /// `(?<>a)`
    EmptyName,
    /// `(?<1>a)`, `(?<a b>a)`: names are ASCII letters, digits, `_`, `.`, `[` and `]`, and begin
    /// with a letter or `_`. The full grammar takes the letters and numbers of every script.
    NameCharacter,
    /// `(?<a`: the span is the `<`.
    UnclosedName,
    /// `(?<a>)(?<a>)`
    DuplicateName,
    /// `*`, `a|+`, `(?i)?`
    RepetitionOfNothing,
    /// `a{`, `a{,2}`, `a{2x}`: a plain `{` is written `\{`.
    UncountedRepetition,
    /// `a{2`: the span is the `{`.
    UnclosedRepetition,
    /// `a{4294967296}`
    LargeNumber,
    /// `a{3,2}`
    BoundsOutOfOrder,
    /// `[a`: the span is the `[`, and in the full grammar that of the innermost list.
    UnclosedList,
    /// `[]`, `[^]`: a `]` that comes first is a member, and no other closes the list.
    EmptyList,
    /// `[a[b]]`
    NestedList,
    /// `[[:alpha:]]`
    PosixClass,
    /// `[a&&b]`, `[a--b]`, `[a~~b]`
    SetOperation,
    /// `[\b]`, `[\A]`
    AssertionInList,
    /// `[a-\d]`, `[\d-a]`, and in the full grammar `[\pL-z]`
    ClassInRange,
    /// `[z-a]`
    RangeOutOfOrder,
    /// `(?-u)[é]`: among bytes it is written as `\xHH`.
    MemberPastAscii,
    /// `a\`
    DanglingBackslash,
    /// `\y`
    UnknownEscape,
    /// `\pL`, `\p{Greek}`
    UnicodeClass,
    /// In the full grammar, `\p{Nope}`, and `\p{Cs}`, which no character has.
    UnknownProperty,
    /// `\p{sc=Nope}`, in the full grammar
    UnknownPropertyValue,
    /// `(?-u)\pL`, in the full grammar: properties are of characters.
    PropertyOfBytes,
    /// `\1`, `\k<a>`, `(?P=a)`
    Backreference,
    /// `\xZ`, `\u12`, `\x{}`
    HexadecimalDigit,
    /// `\x{D800}`, `\x{110000}`
    NoScalar,
    /// `\x{41`, `\b{start`: the span is the `{`.
    UnclosedBrace,
    /// `\b{word}`
    UnknownBoundary,
    /// `(?-u).`, `(?-u)\xFF`, `(?-u)[^a]`, if a pattern may only match UTF-8.
    NotUtf8,
    /// `.`, if it has to exclude a line terminator that is not ASCII, among characters.
    LineTerminator,
    /// The pattern exceeds the nest limit, whatever follows the span. The span goes from the opener
    /// of the innermost open group, or from the start, to the first token that is too deep.
    NestedTooDeeply,
}

/// The message for a group that doesn't parse.
fn group_line(kind: FaultKind) -> Option<&'static str>
    ensures { IfSome result (λ line. length line.now ≤ 64) }
{
    match kind {
        FaultKind::UnclosedGroup => Some("unclosed group"),
        FaultKind::UnopenedGroup => Some("unopened group"),
        FaultKind::UnknownGroup => Some("unknown kind of group"),
        FaultKind::LookAround => Some("look-around isn't supported"),
        FaultKind::MissingFlags => Some("missing flags"),
        FaultKind::UnknownFlag => Some("unknown flag"),
        FaultKind::VerboseFlag => Some("the flag x isn't supported"),
        FaultKind::RepeatedFlag => Some("repeated flag"),
        FaultKind::RepeatedNegation => Some("flags are cleared twice"),
        FaultKind::DanglingNegation => Some("no flag is cleared"),
        FaultKind::EmptyName => Some("empty group name"),
        FaultKind::NameCharacter => Some("not allowed in a group name"),
        FaultKind::UnclosedName => Some("unclosed group name"),
        FaultKind::DuplicateName => Some("duplicate group name"),
        _ => None,
    }
}

/// The message for a list that doesn't parse.
fn list_line(kind: FaultKind) -> Option<&'static str>
    ensures { IfSome result (λ line. length line.now ≤ 64) }
{
    match kind {
        FaultKind::UnclosedList => Some("unclosed list"),
        FaultKind::EmptyList => Some("empty list"),
        FaultKind::NestedList => Some("nested lists aren't supported"),
        FaultKind::PosixClass => Some("POSIX classes aren't supported"),
        FaultKind::SetOperation => Some("set operations aren't supported"),
        FaultKind::AssertionInList => Some("an assertion in a list"),
        FaultKind::ClassInRange => Some("a class as an end of a range"),
        FaultKind::RangeOutOfOrder => Some("range out of order"),
        FaultKind::MemberPastAscii => Some("a character past ASCII in a list of bytes"),
        _ => None,
    }
}

/// The message for an escape that doesn't parse.
fn escape_line(kind: FaultKind) -> Option<&'static str>
    ensures { IfSome result (λ line. length line.now ≤ 64) }
{
    match kind {
        FaultKind::DanglingBackslash => Some("nothing is escaped"),
        FaultKind::UnknownEscape => Some("unknown escape"),
        FaultKind::UnicodeClass => Some("Unicode classes aren't supported"),
        FaultKind::UnknownProperty => Some("unknown property"),
        FaultKind::UnknownPropertyValue => Some("unknown value of a property"),
        FaultKind::PropertyOfBytes => Some("a property of characters among bytes"),
        FaultKind::Backreference => Some("backreferences aren't supported"),
        FaultKind::HexadecimalDigit => Some("missing hexadecimal digit"),
        FaultKind::NoScalar => Some("no character has this code"),
        FaultKind::UnclosedBrace => Some("unclosed brace"),
        FaultKind::UnknownBoundary => Some("unknown kind of word boundary"),
        _ => None,
    }
}

/// The message for a repetition, or a pattern as a whole.
fn other_line(kind: FaultKind) -> &'static str
    ensures { length result.now ≤ 64 }
{
    match kind {
        FaultKind::RepetitionOfNothing => "repetition of nothing",
        FaultKind::UncountedRepetition => "no counted repetition",
        FaultKind::UnclosedRepetition => "unclosed repetition",
        FaultKind::LargeNumber => "number too large",
        FaultKind::BoundsOutOfOrder => "repetition bounds out of order",
        FaultKind::NotUtf8 => "bytes past ASCII where UTF-8 is asked for",
        FaultKind::LineTerminator => "a line terminator past ASCII is no character",
        _ => "patterns nest too deeply",
    }
}

impl FaultKind {
    /// A one-line message that says what is wrong, of at most 64 bytes.
    pub fn line(self) -> &'static str
        ensures { length result.now ≤ 64 }
    {
        group_line(self)
            .or(list_line(self))
            .or(escape_line(self))
            .unwrap_or(other_line(self))
    }
}

impl fmt::Display for FaultKind {
    fn fmt<W: fmt::Write>(&self, f: &mut fmt::Formatter<W>) -> fmt::Result {
        f.write_str(self.line())
    }
}
