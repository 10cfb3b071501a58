//! Steps: the first match of a text that is searched in slices.

use crate::cursors::{CUTTINGS, Cut, Recut};
use crate::inputs::pair_of;
use crate::row::Row;
use crate::slots::Asker;
use api_meta::finder::Finder;
use api_meta::regex::Regex;
use rc_text::cursor::Cursor;
use rc_text::types::Match;
use stream_search::step::{Progress, Stepper};

/// The match that a search in slices of so many bytes finds, from the first byte on. It is given at
/// most one slice for each byte, and one more.
fn step<C: Cursor + Copy + Drop>(
    stepper: &mut Stepper,
    cursor: C,
    len: usize,
    budget: usize,
) -> Option<Match> {
    stepper.start(0);
    for _ in 0..len.saturating_add(1) {
        if let Progress::Done(found) = stepper.resume(cursor, budget) {
            return found;
        }
    }
    None
}

/// A search in slices finds the row's first match, by this regex, over each cutting of its text, with
/// budgets of one byte and of three.
pub fn first(asker: &mut Asker, regex: &Regex, row: &Row) {
    let Ok(finder) = Finder::new(asker.alloc, regex) else {
        asker.verdict.note("row", "memory");
        return;
    };
    let wanted = row.spans.first().copied().flatten();
    let mut stepper = Stepper::new(finder, 0);
    for cutting in &CUTTINGS {
        for budget in [1, 3] {
            let cut = Cut::Anew(Recut::new(&row.text, *cutting));
            let found = step(&mut stepper, cut, row.text.len(), budget);
            let is_same = pair_of(&found) == wanted;
            asker.verdict.expect(is_same, "steps", "match");
        }
    }
}
