//! Diagnostics of counted repetitions that don't parse.

ghost use Rattle.rc_explain.specs.Reading.{IsNumber};
ghost use Rattle.rc_explain.specs.Shown.{HasShape, Stands};

use crate::faults::FaultKind;
use crate::places::{Found, is_at};
use rc_parser::Grammar;
use unicode::properties::is_white_space;

/// The digits from there on, as a number, and where they end.
fn number_at(mark: &[char], from: usize) -> (u64, usize)
    ensures { IsNumber mark.now from result.1 result.0 }
{
    let mut number: u64 = 0;
    for i in from..mark.len() {
        let Some(digit) = mark[i].to_digit(10) else {
            return (number, i);
        };
        number = number.saturating_mul(10).saturating_add(digit as u64);
    }
    (number, mark.len().max(from))
}

/// Where the white space from there on ends, if the grammar allows any.
fn behind_blanks(grammar: Grammar, mark: &[char], from: usize) -> usize {
    if grammar == Grammar::Full {
        for i in from..mark.len() {
            if !is_white_space(mark[i]) {
                return i;
            }
        }
        return mark.len().max(from);
    }
    from
}

/// The fault of a `{` that begins no repetition.
pub fn counted_fault(grammar: Grammar, mark: &[char]) -> Found
    requires { Stands mark.now 0 123 }
    ensures { HasShape grammar result.kind mark.now result.start result.end }
{
    let start = behind_blanks(grammar, mark, 1);
    let (min, end) = number_at(mark, start);
    let has_min = end > start;
    if has_min && min > u32::MAX as u64 {
        return Found {
            kind: FaultKind::LargeNumber,
            start,
            end,
        };
    }
    let end = behind_blanks(grammar, mark, end);
    if has_min && is_at(mark, end, ',') {
        return second_fault(grammar, mark, min, end.saturating_add(1));
    }
    unended_fault(grammar, mark, end)
}

/// The fault of a second number that begins there.
fn second_fault(grammar: Grammar, mark: &[char], min: u64, from: usize) -> Found
    requires { Stands mark.now 0 123 }
    ensures { HasShape grammar result.kind mark.now result.start result.end }
{
    let start = behind_blanks(grammar, mark, from);
    let (max, end) = number_at(mark, start);
    if max > u32::MAX as u64 {
        return Found {
            kind: FaultKind::LargeNumber,
            start,
            end,
        };
    }
    let has_max = end > start;
    let end = behind_blanks(grammar, mark, end);
    if has_max && is_at(mark, end, '}') && max < min {
        return Found {
            kind: FaultKind::BoundsOutOfOrder,
            start: 0,
            end: end.saturating_add(1),
        };
    }
    unended_fault(grammar, mark, end)
}

/// The fault of a repetition that doesn't end there.
fn unended_fault(grammar: Grammar, mark: &[char], end: usize) -> Found
    requires { Stands mark.now 0 123 }
    ensures { HasShape grammar result.kind mark.now result.start result.end }
{
    if end >= mark.len() && end > 1 {
        return Found {
            kind: FaultKind::UnclosedRepetition,
            start: 0,
            end: 1,
        };
    }
    Found {
        kind: FaultKind::UncountedRepetition,
        start: 0,
        end: 1,
    }
}
