//! Tokens of the text of a pattern.

/// A set of characters that a letter names.
#[derive(Clone, Copy, Debug, PartialEq, Eq)]
pub enum Set {
    /// `0` to `9`.
    Digits,
    /// U+0009 to U+000D, and the space.
    Spaces,
    /// ASCII letters, digits and `_`.
    Words,
}

/// A Perl class: a set, or its complement.
#[derive(Clone, Copy, Debug, PartialEq, Eq)]
pub struct Perl {
    pub set: Set,
    pub negated: bool,
}

/// An assertion as it is written. The flags decide which form is meant.
#[derive(Clone, Copy, Debug, PartialEq, Eq)]
pub enum Assertion {
    /// `^`
    Caret,
    /// `$`
    Dollar,
    /// `\A`
    TextStart,
    /// `\z`
    TextEnd,
    /// `\b`
    Boundary,
    /// `\B`
    NotBoundary,
    /// `\<` or `\b{start}`
    WordStart,
    /// `\>` or `\b{end}`
    WordEnd,
    /// `\b{start-half}`
    WordStartHalf,
    /// `\b{end-half}`
    WordEndHalf,
}

/// The meaning of an escape.
#[derive(Clone, Copy, Debug, PartialEq, Eq)]
pub enum Escape {
    /// A character.
    Character(char),
    /// The number of `\xHH`.
    Byte(u8),
    Perl(Perl),
    Assertion(Assertion),
}

/// A member of a list.
#[derive(Clone, Copy, Debug, PartialEq, Eq)]
pub enum Member {
    /// A character, plain or escaped.
    Character(char),
    /// The number of `\xHH`.
    Byte(u8),
    /// A plain `-`.
    Hyphen,
    Perl(Perl),
}

/// A list: the text after `[` or `[^`, up to the closing `]`.
#[derive(Drop)]
pub struct List {
    /// Whether `^` came first.
    pub negated: bool,
    /// Whether a `]` came before all other members.
    pub bracket: bool,
    pub members: Vec<Member>,
}

/// The flags that a text of flags sets and clears.
#[derive(Clone, Copy, Debug, PartialEq, Eq)]
pub struct Change {
    /// The flag `i`.
    pub case_insensitive: Option<bool>,
    /// The flag `m`.
    pub multi_line: Option<bool>,
    /// The flag `s`.
    pub dot_matches_new_line: Option<bool>,
    /// The flag `R`.
    pub crlf: Option<bool>,
    /// The flag `U`.
    pub swap_greed: Option<bool>,
    /// The flag `u`.
    pub unicode: Option<bool>,
}

/// The bounds of a repetition.
#[derive(Clone, Copy, Debug, PartialEq, Eq)]
pub struct Bounds {
    pub min: u32,
    /// `None`: without bound.
    pub max: Option<u32>,
    /// Whether a `?` follows.
    pub lazy: bool,
}

/// How a group opens.
#[derive(Drop)]
pub enum Opening {
    Capturing,
    Named(String),
    Flagged(Change),
}

/// A token.
#[derive(Drop)]
pub enum Token {
    Character(char),
    /// The number of `\xHH`.
    Byte(u8),
    Dot,
    Perl(Perl),
    Assertion(Assertion),
    List(List),
    /// `|`
    Bar,
    /// Flags from here to the end of the group.
    Setting(Change),
    Opens(Opening),
    /// `)`
    Closes,
    Repeats(Bounds),
}
