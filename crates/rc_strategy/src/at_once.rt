//! Matches where a search begins: whether patterns have one wherever that is.
use crate::lengths::Lengths;
use crate::route::MANY_BYTES;
use rc_pattern::hir::{ClassBytesRange, ClassUnicodeRange};
use rc_program::place::Place;
use rc_program::program::Program;

/// Whether some range has more than `MANY_BYTES` bytes.
fn have_many_bytes(ranges: &[ClassBytesRange]) -> bool {
    for range in ranges {
        if usize::from(range.end.saturating_sub(range.start)) >= MANY_BYTES {
            return true;
        }
    }
    false
}

/// Whether some range has more than `MANY_BYTES` characters.
fn have_many_characters(ranges: &[ClassUnicodeRange]) -> bool {
    for range in ranges {
        let more = (range.end as u32).saturating_sub(range.start as u32);
        if more as usize >= MANY_BYTES {
            return true;
        }
    }
    false
}

/// Whether no place has an assertion, and some place reads one of many characters.
fn read_many(places: &[Place]) -> bool {
    let mut many = false;
    for place in places {
        match place {
            Place::Guard(_, _) => return false,
            Place::Bytes(ranges, _) => many = many || have_many_bytes(ranges),
            Place::Scalar(ranges, _) => many = many || have_many_characters(ranges),
            _ => {}
        }
    }
    many
}

/// Whether each search finds a match where it begins, unless that is passed over, and is likely to
/// find one that isn't empty: some pattern matches nothing, there is no assertion, and some class
/// has many characters.
pub(crate) fn begins_at_once(program: &Program, lengths: &Lengths) -> bool {
    lengths.may_be_empty() && read_many(&program.places)
}
