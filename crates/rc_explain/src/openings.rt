//! Diagnostics of group openings that don't parse.

ghost use Rattle.std.specs.Prelude.{◌≡◌, ◌<◌, ◌≤◌, ◌-◌, ℕ, List, drop, false, length};
ghost use Rattle.rc_tokens.specs.Marks.{is_name};
ghost use Rattle.rc_tokens.specs.Said.{Named, Opens};
ghost use Rattle.rc_full_tokens.specs.Names.{is_group_name};
ghost use Rattle.rc_parser.specs.declared.config.Grammar.TheVariants.{Stated};
ghost use Rattle.rc_explain.specs.Reading.{IsToken, OpensNamed};
ghost use Rattle.rc_explain.specs.Shown.{HasShape, IsNamed, Stands, begins_name};

use crate::faults::FaultKind;
use crate::places::{Found, is_at};
use rc_parser::Grammar;
use unicode::properties::{GeneralCategory, GeneralCategoryGroup, is_alphabetic};

/// The fault of a group opening that doesn't parse.
pub fn opening_fault(grammar: Grammar, mark: &[char]) -> Found
    requires { Stands mark.now 0 40 }
    ensures { HasShape grammar result.kind mark.now result.start result.end }
{
    match mark {
        ['(', '?', '=', ..] | ['(', '?', '!', ..] => Found {
            kind: FaultKind::LookAround,
            start: 0,
            end: 3,
        },
        ['(', '?', '<', '=', ..] | ['(', '?', '<', '!', ..] => Found {
            kind: FaultKind::LookAround,
            start: 0,
            end: 4,
        },
        ['(', '?', '<', ..] => name_fault(grammar, mark, 3),
        ['(', '?', 'P', '<', ..] => name_fault(grammar, mark, 4),
        ['(', '?', 'P', '=', ..] => Found {
            kind: FaultKind::Backreference,
            start: 0,
            end: 4,
        },
        ['(', '?', 'P'] => Found {
            kind: FaultKind::UnclosedGroup,
            start: 0,
            end: 1,
        },
        ['(', '?', 'P', ..] => Found {
            kind: FaultKind::UnknownGroup,
            start: 0,
            end: 4,
        },
        _ => flags_fault(grammar, mark),
    }
}

/// Whether the character may be in the name of a group.
fn is_in_name(grammar: Grammar, c: char, is_first: bool) -> bool
    ensures { result ≡ false → begins_name c ≡ false }
{
    if c.is_ascii_alphabetic() || c == '_' {
        return true;
    }
    let (is_letter, is_number) = match grammar {
        Grammar::Stated => (false, c.is_ascii_digit()),
        Grammar::Full => (
            is_alphabetic(c),
            GeneralCategoryGroup::Number.contains(GeneralCategory::for_char(c)),
        ),
    };
    is_letter || (!is_first && (is_number || c == '.' || c == '[' || c == ']'))
}

/// The fault of a name that begins there.
fn name_fault(grammar: Grammar, mark: &[char], from: usize) -> Found
    requires above { 0 < from }
    requires opens { Stands mark.now (from - 1) 60 }
    ensures { HasShape grammar result.kind mark.now result.start result.end }
{
    for i in from..mark.len() {
        let c = mark[i];
        if c == '>' && i == from {
            return Found {
                kind: FaultKind::EmptyName,
                start: from.saturating_sub(1),
                end: i + 1,
            };
        }
        if !is_in_name(grammar, c, i == from) {
            return Found {
                kind: FaultKind::NameCharacter,
                start: i,
                end: i + 1,
            };
        }
    }
    Found {
        kind: FaultKind::UnclosedName,
        start: from.saturating_sub(1),
        end: from,
    }
}

/// The name that an opening of `count` characters gives its group: what is between `<` and `>`.
pub fn name_of(text: &[char], count: usize) -> (usize, usize)
    ensures stated { (name : List ℕ) → IsToken (Opens (Named name)) text.now 0 count
        → IsNamed is_name text.now result.0 result.1 }
    ensures full { (name : List ℕ) → count ≤ length text.now
        → OpensNamed name text.now (drop count text.now)
        → IsNamed is_group_name text.now result.0 result.1 }
{
    let end = count.saturating_sub(1);
    if is_at(text, 2, 'P') {
        (4, end)
    } else {
        (3, end)
    }
}

/// The fault of flags that don't parse.
fn flags_fault(grammar: Grammar, mark: &[char]) -> Found
    requires { Stands mark.now 0 40 }
    ensures { HasShape grammar result.kind mark.now result.start result.end }
{
    let mut are_cleared = false;
    for i in 2..mark.len() {
        let c = mark[i];
        match c {
            ')' | ':' if mark[i - 1] == '-' => {
                return Found {
                    kind: FaultKind::DanglingNegation,
                    start: i - 1,
                    end: i,
                };
            }
            ')' | ':' => return Found {
                kind: FaultKind::MissingFlags,
                start: 0,
                end: i + 1,
            },
            '-' if are_cleared => return Found {
                kind: FaultKind::RepeatedNegation,
                start: i,
                end: i + 1,
            },
            '-' => are_cleared = true,
            'x' if grammar == Grammar::Stated => return Found {
                kind: FaultKind::VerboseFlag,
                start: i,
                end: i + 1,
            },
            'i' | 'm' | 's' | 'R' | 'U' | 'u' | 'x' => {
                if mark[2..i].contains(&c) {
                    return Found {
                        kind: FaultKind::RepeatedFlag,
                        start: i,
                        end: i + 1,
                    };
                }
            }
            _ if i == 2 && !c.is_ascii_alphabetic() => {
                return Found {
                    kind: FaultKind::UnknownGroup,
                    start: 0,
                    end: 3,
                };
            }
            _ => return Found {
                kind: FaultKind::UnknownFlag,
                start: i,
                end: i + 1,
            },
        }
    }
    Found {
        kind: FaultKind::UnclosedGroup,
        start: 0,
        end: 1,
    }
}
