//! Partial answers: what the text tells of all texts that begin with it.

use crate::cursors::{CUTTINGS, Cut, Recut};
use crate::engines::Engines;
use crate::inputs::input;
use crate::row::Row;
use crate::slots::Asker;
use api_meta::finder::Finder;
use api_meta::partial::Partial;
use api_meta::regex::Regex;

/// Where the row tells of a partial answer, each regex gives one such over each cutting of the text.
pub fn answers(asker: &mut Asker, engines: &Engines, row: &Row) {
    if row.settled.is_none() && row.from.is_none() {
        return;
    }
    let regexes = &engines.regexes;
    for regex in [&regexes.plain, &regexes.unfiltered, &regexes.tabled] {
        answer(asker, regex, row);
    }
}

/// This regex gives the row's partial answer over each cutting of the text.
fn answer(asker: &mut Asker, regex: &Regex, row: &Row) {
    let Ok(mut finder) = Finder::new(asker.alloc, regex) else {
        asker.verdict.note("row", "memory");
        return;
    };
    for cutting in &CUTTINGS {
        let mut input = input(row, Cut::Anew(Recut::new(&row.text, *cutting)));
        let told = finder.find_partial(&mut input);
        let is_right = is_wanted(row, told);
        asker.verdict.expect(is_right, "partial", "answer");
    }
}

/// The answer is the match that the row calls final, or a position within the row's bounds.
fn is_wanted(row: &Row, told: Partial) -> bool {
    match told {
        Partial::Final(found) => row.settled == Some((found.start(), found.end())),
        Partial::From(place) => match row.from {
            Some((least, most)) => least <= place && place <= most,
            None => false,
        },
    }
}
