//! What is found over one cursor, and whether it is what the row wants.
ghost use Rattle.rc_captures.specs.Captures.{IsCapturesFor};
ghost use Rattle.api_meta.specs.Views.{regex_names};

use crate::calls::{Call, List, Spans, put_groups_of, put_pieces, spans_by, told_by};
use crate::engines::{Engines, Regexes};
use crate::inputs::{Request, end_at, input, pair_of, start_at};
use crate::reach::reaches;
use crate::row::{Pair, Quits, Row, Want};
use crate::slots::{Asker, Question, answer_of, found};
use crate::tables::{Kind, Seek, Tables};
use crate::told::Told;
use api_meta::regex::Regex;
use rc_captures::captures::Captures;
use rc_text::cursor::Cursor;
use rc_text::input::Input;
use rc_text::types::{HalfMatch, Match, MatchError, MatchKind};

/// What is wanted of the first match.
#[derive(Clone, Copy)]
struct Wanted<'w, 'a> {
    row: &'w Row<'a>,
    found: Option<Match>,
    /// Matches may be passed over.
    passes_over: bool,
}

/// The first match is the one wanted, by each engine: in a cache that is made once, and in one that
/// is made for the call.
pub fn first<C: Cursor + Copy + Drop>(
    asker: &mut Asker,
    engines: &mut Engines,
    row: &Row,
    cursor: C,
) {
    let wanted = Wanted {
        row,
        found: found_over(asker, engines, row, cursor),
        passes_over: engines.known.passes_over,
    };
    let is_wanted = is_wanted(row, &wanted.found);
    asker
        .verdict
        .expect(is_wanted, "regex", "search_captures_with");
    reaches(asker, engines, row, &wanted.found, cursor);
    by_calls(asker, &engines.regexes, &wanted, cursor);
    by_value(asker, &engines.regexes.plain, &wanted, cursor);
    early(asker, &engines.regexes.plain, row, cursor);
    early(asker, &engines.regexes.unfiltered, row, cursor);
    early(asker, &engines.regexes.tabled, row, cursor);
    if let Some(dfa) = &mut engines.tables.dfa {
        by_table(asker, dfa, &wanted, cursor);
    }
    by_table(asker, &mut engines.tables.hybrid, &wanted, cursor);
    by_table(asker, &mut engines.tables.small, &wanted, cursor);
}

/// The match is the one that the row wants.
fn is_wanted(row: &Row, found: &Option<Match>) -> bool {
    match (row.spans.first(), found) {
        (Some(span), Some(found)) => {
            *span == Some((found.start(), found.end()))
                && found.pattern().as_usize() == row.number.unwrap_or(0)
        }
        (None, None) => true,
        _ => false,
    }
}

/// What all engines find that search in a cache that is lent.
fn found_over<C: Cursor + Drop>(
    asker: &mut Asker,
    engines: &Engines,
    row: &Row,
    mut cursor: C,
) -> Option<Match> {
    let mut input = input(row, &mut cursor);
    found(asker, engines, row.settings.walker, &mut input)
}

/// The calls that tell of the first match, and their names.
const CALLS: [(Call, &str); 5] = [
    (Call::Find, "find"),
    (Call::Search, "search"),
    (Call::SearchHalf, "search_half"),
    (Call::IsMatch, "is_match"),
    (Call::Captures, "captures"),
];

/// The calls of the regexes that make a cache of their own tell of the match.
fn by_calls<C: Cursor + Copy + Drop>(
    asker: &mut Asker,
    regexes: &Regexes,
    wanted: &Wanted,
    cursor: C,
) {
    let regex = &regexes.plain;
    for one in &CALLS {
        let (call, what) = *one;
        lent(asker, regex, call, "regex", what, wanted, cursor);
    }
    let (call, what) = CALLS[0];
    lent(
        asker,
        &regexes.unfiltered,
        call,
        "unfiltered",
        what,
        wanted,
        cursor,
    );
    lent(asker, &regexes.tabled, call, "tabled", what, wanted, cursor);
}

/// The call tells of the match over the cursor, which is lent.
fn lent<C: Cursor + Drop>(
    asker: &mut Asker,
    regex: &Regex,
    which: Call,
    by: &'static str,
    what: &'static str,
    wanted: &Wanted,
    mut cursor: C,
) {
    let input = input(wanted.row, &mut cursor);
    let told = told_by(asker.alloc, regex, which, input, &mut asker.verdict);
    asker.verdict.expect(told.is_of(&wanted.found), by, what);
}

/// The regex finds the match over the cursor itself.
fn by_value<C: Cursor + Drop>(asker: &mut Asker, regex: &Regex, wanted: &Wanted, cursor: C) {
    let found = regex.find(asker.alloc, input(wanted.row, cursor));
    let found = asker.verdict.made(found, None);
    let is_same = found == wanted.found;
    asker.verdict.expect(is_same, "regex", "find by value");
}

/// With the earliest flag on the regex finds some match exactly where one is wanted.
fn early<C: Cursor + Drop>(asker: &mut Asker, regex: &Regex, row: &Row, mut cursor: C) {
    let mut input = input(row, &mut cursor);
    input.set_earliest(true);
    let before = Request::of(&input);
    let answer = answer_of(asker, regex, Question::Match, &mut input);
    let stays = Request::of(&input) == before;
    let is_wanted = is_as_wanted(row, &answer.told) && stays;
    asker
        .verdict
        .expect(is_wanted, "regex", "earliest in a cache");
    let told = told_by(asker.alloc, regex, Call::Find, input, &mut asker.verdict);
    asker
        .verdict
        .expect(is_as_wanted(row, &told), "regex", "earliest");
}

/// It tells of a match exactly where the row wants one.
fn is_as_wanted(row: &Row, told: &Told) -> bool {
    told.is_match() != row.spans.is_empty()
}

/// An engine that searches by tables finds the match, its end and its start, or stops where the row
/// says so.
fn by_table<E: Tables, C: Cursor + Copy + Drop>(
    asker: &mut Asker,
    engine: &mut E,
    wanted: &Wanted,
    cursor: C,
) {
    plainly(asker, engine, wanted, cursor);
    early_by_table(asker, engine, wanted, cursor);
    let is_same = wanted.row.settings.clears || engine.keeps_states();
    asker
        .verdict
        .expect(is_same, engine.kind().name(), "clear_count");
}

/// The engine finds the match and its end, and then its start, with the earliest flag off and on.
fn plainly<E: Tables, C: Cursor + Drop>(
    asker: &mut Asker,
    engine: &mut E,
    wanted: &Wanted,
    mut cursor: C,
) {
    let mut input = input(wanted.row, &mut cursor);
    let is_found = tells(asker, engine, Seek::Match, wanted, &mut input);
    tells(asker, engine, Seek::End, wanted, &mut input);
    if let (true, Some(found)) = (is_found, &wanted.found) {
        end_at(&mut input, found.end());
        tells(asker, engine, Seek::Start, wanted, &mut input);
        input.set_earliest(true);
        tells(asker, engine, Seek::Start, wanted, &mut input);
    }
}

/// With the earliest flag on the engine finds some match, and some end, exactly where there is one.
fn early_by_table<E: Tables, C: Cursor + Drop>(
    asker: &mut Asker,
    engine: &mut E,
    wanted: &Wanted,
    mut cursor: C,
) {
    let mut input = input(wanted.row, &mut cursor);
    input.set_earliest(true);
    tells(asker, engine, Seek::Match, wanted, &mut input);
    tells(asker, engine, Seek::End, wanted, &mut input);
}

/// What the engine tells is right, or it stops where the row says so. Tells whether it finds
/// anything.
fn tells<E: Tables, C: Cursor>(
    asker: &mut Asker,
    engine: &mut E,
    seek: Seek,
    wanted: &Wanted,
    input: &mut Input<C>,
) -> bool {
    let before = Request::of(input);
    let is_early = input.get_earliest();
    let told = engine.told(seek, input);
    let stays = Request::of(input) == before;
    let is_right = wanted.is_right(asker, engine.kind(), seek, is_early, &told);
    let what = search_of(seek, is_early);
    asker
        .verdict
        .expect(is_right && stays, engine.kind().name(), what);
    match told {
        Ok(told) => told.is_match(),
        Err(_) => false,
    }
}

/// How such a search is called.
fn search_of(seek: Seek, is_early: bool) -> &'static str {
    match (seek, is_early) {
        (Seek::Match, false) => "find",
        (Seek::Match, true) => "earliest find",
        (Seek::End, false) => "forward search",
        (Seek::End, true) => "earliest forward search",
        (Seek::Start, false) => "backward search",
        (Seek::Start, true) => "earliest backward search",
    }
}

/// An engine may end its searches by this error, which may also be out of memory.
fn may_end_by(asker: &mut Asker, kind: Kind, quits: Quits, error: &MatchError) -> bool {
    match error {
        MatchError::Quit { byte, offset } => match quits {
            Quits::Nowhere => false,
            Quits::At(at) => at == (usize::from(*byte), *offset),
            Quits::Anywhere => true,
        },
        MatchError::GaveUp { memory, .. } => {
            asker.verdict.expect(!*memory, "row", "memory");
            matches!(kind, Kind::SmallHybrid)
        }
    }
}

impl Wanted<'_, '_> {
    /// This is what is sought of the match, or the search stops where the row says so.
    fn is_right(
        &self,
        asker: &mut Asker,
        kind: Kind,
        seek: Seek,
        is_early: bool,
        told: &Result<Told, MatchError>,
    ) -> bool {
        match (seek, told) {
            (_, Err(error)) => may_end_by(asker, kind, self.row.quits, error),
            (Seek::Start, Ok(Told::Half(half))) => self.is_start(is_early, half),
            (_, Ok(told)) if is_early => told.is_match() == self.found.is_some(),
            (Seek::End, Ok(Told::Half(half))) => self.is_end(half) && !self.has_to_quit(),
            (_, Ok(told)) => told.is_of(&self.found) && !self.has_to_quit(),
        }
    }

    /// The match ends here. Of greatest matches any pattern may be told of which one ends there.
    fn is_end(&self, half: &Option<HalfMatch>) -> bool {
        match (half, &self.found) {
            (Some(half), Some(found)) => {
                half.offset() == found.end()
                    && (self.row.settings.kind == MatchKind::All
                        || half.pattern() == found.pattern())
            }
            (None, None) => true,
            _ => false,
        }
    }

    /// The match begins here, or with the earliest flag on another that ends there. Where matches
    /// may be passed over, one that was may begin below it and end where it does, and none may be
    /// told that ends inside a character.
    fn is_start(&self, is_early: bool, half: &Option<HalfMatch>) -> bool {
        match (half, &self.found) {
            (Some(half), Some(found)) => {
                is_early
                    || (half.offset() == found.start() && half.pattern() == found.pattern())
                    || (self.passes_over && half.offset() < found.start())
            }
            _ => self.passes_over,
        }
    }

    /// A search for the first match has to quit at a byte.
    fn has_to_quit(&self) -> bool {
        matches!(self.row.quits, Quits::At(_)) && matches!(self.row.want, Want::First)
    }
}

/// The groups of the first match are those wanted, by each engine.
pub fn groups<C: Cursor + Copy + Drop>(
    asker: &mut Asker,
    engines: &mut Engines,
    row: &Row,
    cursor: C,
) {
    first(asker, engines, row, cursor);
    captured(asker, engines, row, cursor);
}

/// The groups that each call of the regexes gives are those wanted.
pub fn captured<C: Cursor + Copy + Drop>(
    asker: &mut Asker,
    engines: &Engines,
    row: &Row,
    cursor: C,
) {
    let list = List::Groups;
    lists(asker, &engines.regexes, list, "captures", row, cursor);
    again(asker, &engines.regexes.plain, row, cursor);
}

/// The groups that a search fills in where those of the same match stand are those wanted, over the
/// same cursor, wherever the search before left it.
fn again<C: Cursor + Drop>(asker: &mut Asker, regex: &Regex, row: &Row, mut cursor: C) {
    match regex.captures(asker.alloc, input(row, &mut cursor)) {
        Ok(mut captures) => {
            filled_again(asker, regex, row, &mut cursor, &mut captures);
            drop(captures);
        }
        Err(_) => asker.verdict.note("row", "memory"),
    }
}

/// The groups that a search fills into these captures are those wanted.
fn filled_again<C: Cursor + Drop>(
    asker: &mut Asker,
    regex: &Regex,
    row: &Row,
    cursor: C,
    captures: &mut Captures,
)
    requires { IsCapturesFor (regex_names regex.now) captures.old }
{
    let searched = regex.search_captures(asker.alloc, input(row, cursor), captures);
    asker.verdict.made(searched, ());
    let mut spans = Spans::new(asker.alloc);
    put_groups_of(captures, &mut spans);
    are_wanted(asker, row, &spans, "regex", "search_captures");
}

/// All matches are those wanted: those of `find_iter`, with and without prefilters, those of
/// `captures_iter`, and those that each engine finds one after another.
pub fn all<C: Cursor + Copy + Drop>(
    asker: &mut Asker,
    engines: &mut Engines,
    row: &Row,
    cursor: C,
) {
    first(asker, engines, row, cursor);
    lists(
        asker,
        &engines.regexes,
        List::Matches,
        "find_iter",
        row,
        cursor,
    );
    if let Some(dfa) = &engines.tables.dfa {
        list_by_table(asker, dfa, row, cursor);
    }
    list_by_table(asker, &engines.tables.hybrid, row, cursor);
    list_by_table(asker, &engines.tables.small, row, cursor);
    listed(
        asker,
        &engines.regexes.plain,
        List::Captures,
        "regex",
        "captures_iter",
        row,
        cursor,
    );
    in_turn(asker, engines, row, cursor);
}

/// The spans that the regexes give by these calls are those wanted.
fn lists<C: Cursor + Copy + Drop>(
    asker: &mut Asker,
    regexes: &Regexes,
    list: List,
    what: &'static str,
    row: &Row,
    cursor: C,
) {
    listed(asker, &regexes.plain, list, "regex", what, row, cursor);
    listed(
        asker,
        &regexes.unfiltered,
        list,
        "unfiltered",
        what,
        row,
        cursor,
    );
    listed(asker, &regexes.tabled, list, "tabled", what, row, cursor);
}

/// The spans that a regex gives over the cursor, which is lent, are those wanted.
fn listed<C: Cursor + Drop>(
    asker: &mut Asker,
    regex: &Regex,
    list: List,
    by: &'static str,
    what: &'static str,
    row: &Row,
    mut cursor: C,
) {
    let spans = spans_by(asker.alloc, regex, list, input(row, &mut cursor));
    are_wanted(asker, row, &spans, by, what);
}

/// The spans are those wanted.
fn are_wanted(asker: &mut Asker, row: &Row, spans: &Spans, by: &'static str, what: &'static str) {
    asker.verdict.expect(spans.is_whole, "row", "memory");
    asker.verdict.expect(spans.list == row.spans, by, what);
}

/// The matches that the engine finds one after another, up to where it stops, are those wanted.
fn list_by_table<E: Tables, C: Cursor + Drop>(
    asker: &mut Asker,
    engine: &E,
    row: &Row,
    mut cursor: C,
) {
    let mut spans = Spans::new(asker.alloc);
    engine.list(asker.alloc, input(row, &mut cursor), &mut spans);
    let is_same = is_listed(asker, engine.kind(), row, &spans);
    asker.verdict.expect(spans.is_whole, "row", "memory");
    asker
        .verdict
        .expect(is_same, engine.kind().name(), "find_iter");
}

/// The spans are those wanted, or the first of them, if a search stops where the row says so.
fn is_listed(asker: &mut Asker, kind: Kind, row: &Row, spans: &Spans) -> bool {
    match &spans.error {
        None => spans.list == row.spans && !matches!(row.quits, Quits::At(_)),
        Some(error) => {
            may_end_by(asker, kind, row.quits, error) && row.spans.starts_with(&spans.list)
        }
    }
}

/// The matches that each engine finds one after another are those wanted. Each search starts where
/// the match before ended. At most one more than are wanted is looked for.
fn in_turn<C: Cursor + Drop>(asker: &mut Asker, engines: &Engines, row: &Row, mut cursor: C) {
    let mut input = input(row, &mut cursor);
    let walks = row.settings.walker;
    let mut last = None;
    for wanted in &row.spans {
        let span = next_match(asker, engines, walks, &mut input, last);
        asker
            .verdict
            .expect(span == *wanted, "regex", "matches in turn");
        last = go_on(&mut input, span);
    }
    let span = next_match(asker, engines, walks, &mut input, last);
    asker
        .verdict
        .expect(span.is_none(), "regex", "matches in turn");
}

/// Has the next search start where this match ended, and tells where.
fn go_on<C: Cursor>(input: &mut Input<C>, span: Option<Pair>) -> Option<usize> {
    match span {
        Some((_, end)) => {
            start_at(input, end);
            Some(end)
        }
        None => None,
    }
}

/// The next match. One that is empty and stands where the last ended gives way to the answer from a
/// byte later.
fn next_match<C: Cursor>(
    asker: &mut Asker,
    engines: &Engines,
    walks: bool,
    input: &mut Input<C>,
    last: Option<usize>,
) -> Option<Pair> {
    let next = pair_of(&found(asker, engines, walks, input));
    match (last, next) {
        (Some(last), Some((start, end))) if start == last && end == last => {
            start_at(input, last.saturating_add(1));
            pair_of(&found(asker, engines, walks, input))
        }
        _ => next,
    }
}

/// The pieces between matches are those wanted: of the regexes, and over the cursor itself.
pub fn pieces<C: Cursor + Copy + Drop>(asker: &mut Asker, engines: &Engines, row: &Row, cursor: C) {
    let list = List::Pieces(row.number);
    lists(asker, &engines.regexes, list, "pieces", row, cursor);
    pieces_by_value(asker, &engines.regexes.plain, row, cursor);
}

/// The pieces that a regex gives over the cursor itself are those wanted.
fn pieces_by_value<C: Cursor + Drop>(asker: &mut Asker, regex: &Regex, row: &Row, cursor: C) {
    let mut spans = Spans::new(asker.alloc);
    let put = put_pieces(
        asker.alloc,
        regex,
        row.number,
        input(row, cursor),
        &mut spans,
    );
    asker.verdict.made(put, ());
    are_wanted(asker, row, &spans, "regex", "pieces by value");
}
