//! Reaches: how many bytes of the text settle what the regexes and the `PikeVM` find.

use crate::engines::Engines;
use crate::inputs::input;
use crate::row::{Pair, Row};
use crate::slots::{Asker, Engine, Question, answer_of};
use api_meta::regex::Regex;
use rc_text::cursor::Cursor;
use rc_text::types::Match;

/// What is wanted of a reach.
#[derive(Clone, Copy)]
struct Wanted<'w, 'a> {
    row: &'w Row<'a>,
    /// The least and the greatest number of bytes.
    bounds: Pair,
    /// The match that they settle.
    found: Option<Match>,
}

/// Where the row tells of a reach, each regex and the `PikeVM` tell one within it, of this match,
/// and each regex one of its groups.
pub fn reaches<C: Cursor + Copy + Drop>(
    asker: &mut Asker,
    engines: &Engines,
    row: &Row,
    found: &Option<Match>,
    cursor: C,
) {
    let Some(bounds) = row.reach else {
        return;
    };
    let wanted = Wanted {
        row,
        bounds,
        found: *found,
    };
    both(asker, &engines.regexes.plain, "regex", &wanted, cursor);
    both(
        asker,
        &engines.regexes.unfiltered,
        "unfiltered",
        &wanted,
        cursor,
    );
    both(asker, &engines.regexes.tabled, "tabled", &wanted, cursor);
    reach(
        asker,
        &engines.vm,
        "PikeVM",
        Question::Reach,
        &wanted,
        cursor,
    );
}

/// The regex tells a reach within the row's, of the match and of its groups.
fn both<C: Cursor + Copy + Drop>(
    asker: &mut Asker,
    regex: &Regex,
    by: &'static str,
    wanted: &Wanted,
    cursor: C,
) {
    reach(asker, regex, by, Question::Reach, wanted, cursor);
    reach(asker, regex, by, Question::GroupsReach, wanted, cursor);
}

/// The engine finds the match, and tells a reach within the row's.
fn reach<E: Engine, C: Cursor + Drop>(
    asker: &mut Asker,
    engine: &E,
    by: &'static str,
    question: Question,
    wanted: &Wanted,
    mut cursor: C,
) {
    let mut input = input(wanted.row, &mut cursor);
    let told = answer_of(asker, engine, question, &mut input).told;
    let is_told = told.is_of(&wanted.found) && told.is_settled_by(wanted.bounds);
    asker.verdict.expect(is_told, by, "reach");
}
