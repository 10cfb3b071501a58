//! Counts of a repetition, as `{2,3}`.

ghost use Rattle.std.specs.Prelude.{◌≡◌, ◌↔◌, ℕ, Bool, Option, Some, None};
ghost use Rattle.rc_tokens.specs.Text.{Characters};
ghost use Rattle.rc_full_tokens.specs.Counts.{IsCount};
ghost use Rattle.rc_full_tokens.specs.Counted.{read_number, second, counted_from, read_count, Counts, Numbers};

use crate::text::{after, behind_blanks, digits, number};

/// The number at the front, with white space around it, and the rest.
fn number_at(text: &[char]) -> Option<(u32, &[char])>
    ensures { Numbers result (read_number text.now) }
{
    let (written, rest) = digits(behind_blanks(text));
    let Some(value) = number(written, 10, 0x1_0000_0000) else {
        return None;
    };
    Some((value, behind_blanks(rest)))
}

/// Goes on behind the comma.
fn second(min: u32, text: &[char]) -> Option<((u32, Option<u32>), &[char])>
    ensures { Counts result (second min text.now) }
{
    let Some((max, rest)) = number_at(text) else {
        return None;
    };
    let Some(rest) = after(rest, '}') else {
        return None;
    };
    if max < min {
        return None;
    }
    Some(((min, Some(max)), rest))
}

/// Goes on behind the first number.
fn counted_from(min: u32, text: &[char]) -> Option<((u32, Option<u32>), &[char])>
    ensures { Counts result (counted_from min text.now) }
{
    if let Some(rest) = after(text, '}') {
        return Some(((min, Some(min)), rest));
    }
    let Some(text) = after(text, ',') else {
        return None;
    };
    if let Some(rest) = after(text, '}') {
        return Some(((min, None), rest));
    }
    second(min, text)
}

/// The count of a repetition, behind its `{`: the least and the greatest number of times, `None`
/// without bound, and the rest behind the `}`. White space may stand around a number. `{,n}` is
/// read as `{0,n}` if `empty_min` is set, and isn't read else.
pub fn count(empty_min: bool, text: &[char]) -> Option<((u32, Option<u32>), &[char])>
    ensures { Counts result (read_count empty_min text.now) }
{
    if empty_min {
        if let Some(rest) = after(behind_blanks(text), ',') {
            return second(0, rest);
        }
    }
    let Some((min, rest)) = number_at(text) else {
        return None;
    };
    counted_from(min, rest)
}

/// The reader returns the count with which the text begins, or none if no count begins it.
pub fn gives_the_count()
    ensures { (empty_min : Bool) (t : Characters) (min : ℕ) (max : Option ℕ) (u : Characters)
        → (read_count empty_min t ≡ Some ((min, max), u)) ↔ IsCount empty_min t min max u }
{}
