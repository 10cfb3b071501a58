//! What searches tell of a match, and whether that is one match.

use crate::row::Pair;
use rc_text::types::{HalfMatch, Match, PatternID};

/// What a search tells of a match.
#[derive(Clone, Copy)]
pub enum Told {
    /// Whether there is one.
    IsMatch(bool),
    /// Its pattern.
    Pattern(Option<PatternID>),
    /// Its pattern and one of its ends.
    Half(Option<HalfMatch>),
    /// All of it.
    Match(Option<Match>),
    /// All of it, and how many bytes settle it, or its groups.
    Reached(Option<Match>, usize),
}

impl Told {
    /// It tells that there is a match.
    pub fn is_match(&self) -> bool {
        match self {
            Told::IsMatch(is_match) => *is_match,
            Told::Pattern(pattern) => pattern.is_some(),
            Told::Half(half) => half.is_some(),
            Told::Match(found) | Told::Reached(found, _) => found.is_some(),
        }
    }

    /// The match, where it tells all of it.
    pub fn found(&self) -> Option<Match> {
        match self {
            Told::Match(found) | Told::Reached(found, _) => *found,
            _ => None,
        }
    }

    /// It tells that so many bytes settle the match, from the first number up to the second.
    pub fn is_settled_by(&self, (least, most): Pair) -> bool {
        match self {
            Told::Reached(_, reach) => least <= *reach && *reach <= most,
            _ => false,
        }
    }

    /// It tells of this match, of a half its end.
    pub fn is_of(&self, found: &Option<Match>) -> bool {
        match self {
            Told::IsMatch(is_match) => *is_match == found.is_some(),
            Told::Pattern(pattern) => *pattern == pattern_of(found),
            Told::Half(half) => *half == end_of(found),
            Told::Match(other) | Told::Reached(other, _) => other == found,
        }
    }
}

/// The pattern of a match.
fn pattern_of(found: &Option<Match>) -> Option<PatternID> {
    match found {
        Some(found) => Some(found.pattern()),
        None => None,
    }
}

/// The pattern and the end of a match.
fn end_of(found: &Option<Match>) -> Option<HalfMatch> {
    match found {
        Some(found) => Some(HalfMatch::new(found.pattern(), found.end())),
        None => None,
    }
}
