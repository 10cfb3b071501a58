//! Searches that are begun again and again over one text. Each ends where it stands in the row in
//! which an earlier one stood there.
ghost use Rattle.std.specs.Prelude.{◌≡◌, ◌+◌, ◌^◌, ◌≤◌, ◌<◌, ℕ, Bool, true, false, IfSome, IsTrue, length};
ghost use Rattle.rc_text.specs.Text.{Keeps, Searched, slice_end};
ghost use Rattle.rc_dfa.specs.declared.ended.Ended.TheVariants as ends;
ghost use Rattle.rc_table_search.specs.declared.run.Stand as stands;
ghost use Rattle.rc_table_search.specs.declared.search.Progress.TheVariants as progress;
ghost use Rattle.rc_table_search.specs.Searches.{HasRun, IsAt, IsLeg, IsOver, Origin, Outset};
ghost use Rattle.rc_table_search.specs.Memos.{IsMark, IsMemo, Joins};

use crate::run::Stand;
use crate::search::{Progress, Request, begin, cross, finish, told};
use crate::sides::byte_beside;
use crate::transitions::Transitions;
use crate::way::Forwards;
use rc_dfa::ended::{Ended, Reading};
use rc_dfa::memo::{Mark, Memo, next_mark};
use rc_text::cursor::Cursor;
use rc_text::input::{Input, content_fits};

/// Whether the rows of the memo's marks are still those of their states.
#[inline(always)]
fn is_current<T: Transitions>(table: &T, cache: &T::Cache, memo: &Memo) -> bool
    ensures { IsTrue result → ((T.view table.now false).era cache.now ≡ memo.now.era)
        × (memo.now.era < usize.MAX) }
{
    let era = table.era::<Forwards>(cache);
    era == memo.era && era < usize::MAX
}

/// Drops all marks if the rows are those of other states by now.
fn renew<T: Transitions>(table: &T, cache: &T::Cache, memo: &mut Memo)
    ensures { (seen : Searched) (bound : ℕ) (early : Bool)
        → IsMemo (T.view table.now false) cache.now seen bound early memo.old
        → IsMemo (T.view table.now false) cache.now seen bound early memo.new }
{
    if is_current(table, cache, memo) {
        return;
    }
    *memo = Memo::new(table.era::<Forwards>(cache));
}

/// Returns the mark of the position and the row, if there is one.
#[inline(always)]
fn recall<T: Transitions>(
    table: &T,
    cache: &T::Cache,
    memo: &Memo,
    at: usize,
    row: usize,
) -> Option<Mark>
    ensures { IfSome result (λ k. (k.at ≡ at) × (k.row ≡ row)
        × ((seen : Searched) (bound : ℕ) (early : Bool)
        → IsMemo (T.view table.now false) cache.now seen bound early memo.now
        → IsMark (T.view table.now false) cache.now seen bound early k)) }
{
    if !is_current(table, cache, memo) {
        return None;
    }
    memo.find(at, row)
}

/// Leaves a mark where a run stood in the row, with how it ended. `known` says whether the row was
/// of the memo's era then.
#[inline(always)]
fn leave<T: Transitions>(
    table: &T,
    cache: &T::Cache,
    memo: &mut Memo,
    known: bool,
    at: usize,
    row: usize,
    rest: Reading,
)
    ensures era { memo.new.era ≡ memo.old.era }
    ensures memo { (seen : Searched) (bound : ℕ) (early : Bool)
        → IsMemo (T.view table.now false) cache.now seen bound early memo.old
        → (known ≡ true → (T.view table.now false).era cache.now ≡ memo.old.era
        → memo.old.era < usize.MAX → (k : Mark) → (k.at ≡ at) × (k.row ≡ row)
        × (k.read ≡ rest.read) × (rest.ended ≡ ends.Found k.found)
        → IsMark (T.view table.now false) cache.now seen bound early k)
        → IsMemo (T.view table.now false) cache.now seen bound early memo.new }
{
    if !known || !is_current(table, cache, memo) {
        return;
    }
    let Ended::Found(found) = rest.ended else {
        return;
    };
    let read = rest.read;
    memo.insert(Mark {
        at,
        row,
        found,
        read,
    });
}

/// Returns how a run ended that found this before it came to where the rest began.
#[inline(always)]
fn joined<T: Transitions>(table: &T, noted: Option<(usize, usize)>, rest: Reading) -> Reading
    ensures { Joins (T.view table.now false) noted rest result }
{
    match rest.ended {
        Ended::Found(found) => {
            if found.is_some() {
                return rest;
            }
            let ended = told::<Forwards, T>(table, noted);
            let read = rest.read;
            Reading { ended, read }
        }
        Ended::Idle(_) | Ended::Quit(_, _) | Ended::GaveUp(_, _) => rest,
    }
}

/// Returns the position up to which a run goes before it looks for a mark.
#[inline(always)]
fn stop_after(at: usize, end: usize) -> usize
    requires { at ≤ end }
    ensures low { at ≤ result }
    ensures high { result ≤ end }
    ensures on { at < end → at < result }
{
    next_mark(at).max(at.saturating_add(1)).min(end)
}

/// Runs forwards from where the search begins up to the position `until`, or to where it ends.
#[inline(always)]
fn stretch<T: Transitions, C: Cursor>(
    table: &T,
    cache: &mut T::Cache,
    input: &mut Input<C>,
    request: &Request,
    until: usize,
    begin: Stand,
) -> Progress
    ghost outset: { Outset T.Cache }
    requires at { IsAt (T.view table.now false) false outset request.now cache.old
        request.now.from begin }
    requires seen { Keeps outset.seen input.old }
    requires low { outset.seen.slice.start ≤ request.now.from }
    requires ordered { request.now.from ≤ until }
    requires until { until ≤ request.now.end }
    requires high { request.now.end ≤ slice_end outset.seen }
    requires fits { length outset.seen.content + 1 < 2 ^ 64 }
    requires rests { request.now.extent.may_rest ≡ false }
    ensures keeps { Keeps input.old input.new }
    ensures leg { IsLeg (T.view table.now false) false outset request.now cache.new until result }
    ensures left { (s : stands.Stand) → result ≡ progress.Through s → until < request.now.end }
{
    let last = match cross::<Forwards, T, C>(table, cache, input, request, until, begin) {
        Progress::Through(last) => last,
        Progress::Over(reading) => return Progress::Over(reading),
    };
    if until < request.end {
        return Progress::Through(last);
    }
    let ended = finish::<Forwards, T, C>(table, cache, input, request, last);
    let read = request.end + 1;
    Progress::Over(Reading { ended, read })
}

/// Runs forwards from the row, as `stretch` does.
fn stretch_from<T: Transitions, C: Cursor>(
    table: &T,
    cache: &mut T::Cache,
    input: &mut Input<C>,
    request: &Request,
    until: usize,
    row: usize,
) -> Progress
    requires cache { (T.view table.now false).IsCache cache.old }
    requires row { (T.view table.now false).IsRow cache.old row }
    requires low { input.old.slice.start ≤ request.now.from }
    requires ordered { request.now.from ≤ until }
    requires until { until ≤ request.now.end }
    requires high { request.now.end ≤ slice_end input.old }
    requires fits { length input.old.content + 1 < 2 ^ 64 }
    requires rests { request.now.extent.may_rest ≡ false }
    ensures keeps { Keeps input.old input.new }
    ensures leg { IsLeg (T.view table.now false) false
        (record { seen = input.old; begun = cache.old; row = row }) request.now cache.new until
        result }
    ensures left { (s : stands.Stand) → result ≡ progress.Through s → until < request.now.end }
{
    let begin = Stand { row, noted: None };
    stretch::<T, C>(table, cache, input, request, until, begin)
}

/// Runs forwards from the row, from where the search begins to where it ends, or to a mark of the
/// memo. It leaves marks where it stops.
fn run_on<T: Transitions, C: Cursor>(
    table: &T,
    cache: &mut T::Cache,
    input: &mut Input<C>,
    request: &Request,
    row: usize,
    memo: &mut Memo,
) -> Reading
    requires cache { (T.view table.now false).IsCache cache.old }
    requires row { (T.view table.now false).IsRow cache.old row }
    requires low { input.old.slice.start ≤ request.now.from }
    requires ordered { request.now.from ≤ request.now.end }
    requires high { request.now.end ≤ slice_end input.old }
    requires fits { length input.old.content + 1 < 2 ^ 64 }
    requires rests { request.now.extent.may_rest ≡ false }
    requires memo { IsMemo (T.view table.now false) cache.old input.old request.now.end
        request.now.extent.earliest memo.old }
    ensures keeps { Keeps input.old input.new }
    ensures over { HasRun (T.view table.now false) false
        (record { seen = input.old; begun = cache.old; row = row }) request.now cache.new
        result.read result.ended }
    ensures era { memo.new.era ≡ memo.old.era }
    ensures memo { IsMemo (T.view table.now false) cache.new input.new request.now.end
        request.now.extent.earliest memo.new }
{
    let until = stop_after(request.from, request.end);
    let last = match stretch_from::<T, C>(table, cache, input, request, until, row) {
        Progress::Through(last) => last,
        Progress::Over(reading) => return reading,
    };
    let noted = last.noted;
    if let Some(mark) = recall::<T>(table, cache, memo, until, last.row) {
        let ended = Ended::Found(mark.found);
        let read = mark.read;
        return joined::<T>(table, noted, Reading { ended, read });
    }
    let known = is_current::<T>(table, cache, memo);
    let on = Request {
        anchored: request.anchored,
        from: until,
        end: request.end,
        extent: request.extent,
    };
    let rest = run_on::<T, C>(table, cache, input, &on, last.row, memo);
    leave::<T>(table, cache, memo, known, until, last.row, rest);
    joined::<T>(table, noted, rest)
}

/// Searches forwards as `search` does, and never rests. If it stands at a mark of the memo, it ends
/// as the search did that left the mark. It leaves marks of its own: the farther from its start, the
/// fewer.
pub fn search_again<T: Transitions, C: Cursor>(
    table: &T,
    cache: &mut T::Cache,
    input: &mut Input<C>,
    request: &Request,
    memo: &mut Memo,
) -> Reading
    ghost origin: { Origin T.Cache }
    requires origin { origin ≡ record { seen = input.old; begun = cache.old } }
    requires cache { (T.view table.now false).IsCache cache.old }
    requires low { input.old.slice.start ≤ request.now.from }
    requires ordered { request.now.from ≤ request.now.end }
    requires high { request.now.end ≤ slice_end input.old }
    requires rests { request.now.extent.may_rest ≡ false }
    requires memo { IsMemo (T.view table.now false) cache.old input.old request.now.end
        request.now.extent.earliest memo.old }
    ensures keeps { Keeps input.old input.new }
    ensures over { IsOver (T.view table.now false) false origin request.now cache.new result.read
        result.ended }
    ensures memo { IsMemo (T.view table.now false) cache.new input.new request.now.end
        request.now.extent.earliest memo.new }
{
    content_fits(input);
    let beside = byte_beside(input, request.from, true);
    let stand = match begin::<Forwards, T, C>(table, cache, input, request, beside) {
        Progress::Through(stand) => stand,
        Progress::Over(reading) => return reading,
    };
    renew::<T>(table, cache, memo);
    run_on::<T, C>(table, cache, input, request, stand.row, memo)
}
