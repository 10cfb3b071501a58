//! Rows that every engine answers.
ghost use Rattle.rc_text.specs.Limits.{most_patterns};
ghost use Rattle.std.specs.Prelude.{◌≤◌, length};

use crate::calls::{Call, List, spans_by, told_by};
use crate::cursors::{CUTTINGS, Cut, Recut, chunks_of};
use crate::engines::{Engines, MOST_PATTERNS};
use crate::faults::{Fault, Verdict};
use crate::inputs::input;
use crate::row::{Quits, Row, Want, is_refused};
use crate::slots::Asker;
use crate::{parses, partial, searches, streams, which};
use rc_settings::error::BuildError;
use rc_text::chunks::ChunkCursor;
use std::alloc::Global;

/// Where engines are to answer alike, a DFA's tables for a direction are left out where they are
/// larger than this, in bytes.
const TABLES_LIMIT: usize = 65536;

/// The walker goes there through programs of at most so many places.
const WALKER_PLACES: usize = 30;

/// The walker goes there through texts of at most so many bytes.
const WALKER_BYTES: usize = 8;

/// The row is answered as it wants to be. Where it wants that engines answer alike, what is wanted
/// is set to what they find.
pub fn judge(alloc: Global, row: &mut Row) -> Result<(), Fault> {
    if row.patterns.len() > MOST_PATTERNS {
        return Err(Fault {
            by: "unread",
            what: "pattern",
        });
    }
    let mut asker = Asker {
        alloc,
        verdict: Verdict::new(),
    };
    if matches!(row.want, Want::Alike) {
        judge_alike(&mut asker, row);
    } else {
        judge_wanted(&mut asker, row);
    }
    asker.verdict.result()
}

/// The engines answer the row as it wants, or its patterns are refused so.
fn judge_wanted(asker: &mut Asker, row: &mut Row)
    requires { length row.old.patterns.items ≤ most_patterns }
{
    match Engines::build(asker.alloc, &row.patterns, &row.settings) {
        Ok(mut engines) => {
            over_all_cuttings(asker, &mut engines, row);
            drop(engines);
        }
        Err(BuildError::Memory) => asker.verdict.note("row", "memory"),
        Err(error) => {
            let is_refused = is_refused(&error, row.want);
            asker.verdict.expect(is_refused, "row", "refused");
        }
    }
}

/// The engines answer the row alike, or its patterns are refused. Where its tables are too large it
/// is answered without the DFA.
fn judge_alike(asker: &mut Asker, row: &mut Row)
    requires { length row.old.patterns.items ≤ most_patterns }
{
    row.settings.dfa_limit = Some(TABLES_LIMIT);
    if let Some(BuildError::DfaSizeLimit { .. }) = answer_alike(asker, row) {
        row.settings.tables = false;
        let _ = answer_alike(asker, row);
    }
}

/// The engines answer the row alike, or this is why its patterns are refused.
fn answer_alike(asker: &mut Asker, row: &mut Row) -> Option<BuildError>
    requires { length row.old.patterns.items ≤ most_patterns }
    ensures { length row.new.patterns.items ≤ most_patterns }
{
    match Engines::build(asker.alloc, &row.patterns, &row.settings) {
        Ok(mut engines) => {
            agree(asker, &mut engines, row);
            drop(engines);
            None
        }
        Err(error) => {
            let is_refused = !matches!(error, BuildError::Memory);
            asker.verdict.expect(is_refused, "row", "memory");
            Some(error)
        }
    }
}

/// The engines answer the row over every cutting as the pass does over one chunk: all matches, and
/// the groups of the first.
fn agree(asker: &mut Asker, engines: &mut Engines, row: &mut Row)
    requires { length row.old.patterns.items ≤ most_patterns }
    ensures { length row.new.patterns.items ≤ most_patterns }
{
    row.settings.walker = engines.vm.states_len() <= WALKER_PLACES
        && row.text.len() <= WALKER_BYTES;
    if engines.known.has_words {
        row.quits = Quits::Anywhere;
    }
    want_found(asker, engines, row, List::Matches);
    row.want = Want::All;
    over_all_cuttings(asker, engines, row);
    want_found(asker, engines, row, List::Groups);
    row.want = Want::Captured;
    over_each_cutting(asker, engines, row);
}

/// Has the row want what the pass finds in one chunk.
fn want_found(asker: &mut Asker, engines: &Engines, row: &mut Row, list: List)
    requires { length row.old.patterns.items ≤ most_patterns }
    ensures { length row.new.patterns.items ≤ most_patterns }
{
    let regex = &engines.regexes.unfiltered;
    let over = input(row, Cut::whole(&row.text));
    let told = told_by(asker.alloc, regex, Call::Find, over, &mut asker.verdict);
    let over = input(row, Cut::whole(&row.text));
    let spans = spans_by(asker.alloc, regex, list, over);
    asker.verdict.expect(spans.is_whole, "row", "memory");
    row.number = match told.found() {
        Some(found) => Some(found.pattern().as_usize()),
        None => None,
    };
    row.spans = spans.list;
}

/// The engines answer the row as the least parse says, over every cutting of its text, and as
/// streams.
fn over_all_cuttings(asker: &mut Asker, engines: &mut Engines, row: &Row)
    requires { length row.now.patterns.items ≤ most_patterns }
{
    parses::agree(asker, engines, row);
    over_each_cutting(asker, engines, row);
    streams::all(asker, engines, row);
    partial::answers(asker, engines, row);
}

/// The engines answer the row over each cutting of its text: anew at each move, and as a list of
/// chunks, whose cursor begins at its start and in its middle.
fn over_each_cutting(asker: &mut Asker, engines: &mut Engines, row: &Row) {
    for cutting in &CUTTINGS {
        over(
            asker,
            engines,
            row,
            Cut::Anew(Recut::new(&row.text, *cutting)),
        );
    }
    let chunks = chunks_of(asker, &row.text);
    for at in [0, row.text.len() / 2] {
        match ChunkCursor::at(&chunks, at) {
            Ok(cursor) => over(asker, engines, row, Cut::List(cursor)),
            Err(_) => asker.verdict.note("row", "chunks"),
        }
    }
}

/// The engines answer the row over this cut.
fn over(asker: &mut Asker, engines: &mut Engines, row: &Row, cut: Cut) {
    match row.want {
        Want::First => searches::first(asker, engines, row, cut),
        Want::All => searches::all(asker, engines, row, cut),
        Want::Groups => searches::groups(asker, engines, row, cut),
        Want::Captured => searches::captured(asker, engines, row, cut),
        Want::Pieces => searches::pieces(asker, engines, row, cut),
        Want::Which => which::which(asker, engines, row, cut),
        Want::Refused(word) => asker.verdict.expect(word == "no", "row", "refused"),
        Want::Nothing | Want::Alike => asker.verdict.note("unread", "want"),
    }
}
