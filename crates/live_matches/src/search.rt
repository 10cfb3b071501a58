//! Searches for the entries of a list, one after the other.
ghost use Rattle.std.specs.Prelude.{◌≡◌, ◌+◌, ◌-◌, ◌^◌, ◌<◌, ◌≤◌, [], IfOk, IfSome, IsTrue, MatchOption, None, Some, length};
ghost use Rattle.rc_program.specs.Matches.{begin_of, end_of, is_again};
ghost use Rattle.rc_reach.specs.Fixed.{IsFixed};
ghost use Rattle.rc_reach.specs.Live.{found_by};
ghost use Rattle.api_meta.specs.Views.{regex_kind};
ghost use Rattle.live_matches.specs.Drawn.{IsDrawn};
ghost use Rattle.live_matches.specs.Entries.{AreBelow, all_of};
ghost use Rattle.live_matches.specs.Lists.{AreEntries, AreFirst, IsChanged, IsEntry, IsSearchedOn, Meets, founds, mark_after, next_after, place_of};
ghost use Rattle.live_matches.specs.Live.{Goes, IsCacheOf, IsOver, WereEntries, WereStretches, seeks};
ghost use Rattle.live_matches.specs.Quiet.{IsCarried, IsLongest};
ghost use Rattle.live_matches.specs.Stretches.{AreStretches};

use crate::changes::{Ahead, change_of};
use crate::entries::{Entries, is_before, place_of};
use crate::entry::{Changed, Edit, Entry, entry_of};
use crate::quiet::{carry_near, carry_quiet, is_leftmost, search_quiet, short_length};
use crate::stretches::Stretches;
use rc_text::input::content_fits;
use regex_cursor::engines::meta::{Cache, Reached, Regex};
use regex_cursor::types::Match;
use regex_cursor::{Cursor, Input};
use std::alloc::AllocError;

/// How many bytes before a position an assertion looks at, at most.
pub const LOOKS_BEHIND: usize = 4;

/// What a search of the content from a place on finds, and how many bytes settle it.
pub fn search_from<C: Cursor>(
    regex: &Regex,
    cache: &mut Cache,
    input: &mut Input<C>,
    at: usize,
) -> Reached
    requires made { IsCacheOf regex.now cache.old }
    requires over { IsOver input.old }
    requires inside { at ≤ length input.old.content + 1 }
    ensures cache { IsCacheOf regex.now cache.new }
    ensures over { IsOver input.new }
    ensures goes { Goes input.old input.new }
    ensures found { result.found
        ≡ found_by (regex_kind regex.now) (seeks regex.now) input.old.content at }
    ensures fixed { IsFixed (regex_kind regex.now) (seeks regex.now)
        input.old.content result.reach at }
    ensures within { (IfSome result.found (λ m. m.end ≤ result.reach))
        × (result.reach ≤ length input.old.content + 1) }
{
    content_fits(input);
    input.set_start(at);
    regex.search_reach_with(cache, input)
}

/// Returns the next entry of the list, if the match before it ended at `last`.
pub fn next_entry<C: Cursor>(
    regex: &Regex,
    cache: &mut Cache,
    input: &mut Input<C>,
    last: Option<usize>,
) -> Option<Entry>
    requires made { IsCacheOf regex.now cache.old }
    requires over { IsOver input.old }
    requires inside { place_of last ≤ length input.old.content }
    ensures cache { IsCacheOf regex.now cache.new }
    ensures over { IsOver input.new }
    ensures goes { Goes input.old input.new }
    ensures next { MatchOption result
        (next_after (regex_kind regex.now) (seeks regex.now) input.old.content last ≡ None)
        (IsEntry (regex_kind regex.now) (seeks regex.now) input.old.content last) }
{
    content_fits(input);
    let start = place_of(last);
    let first = search_from(regex, cache, input, start);
    let Some(found) = first.found else {
        return None;
    };
    if !is_again(last, found) {
        return Some(entry_of(found, first.reach));
    }
    let second = search_from(regex, cache, input, start + 1);
    match second.found {
        Some(found) => Some(entry_of(found, first.reach.max(second.reach))),
        None => None,
    }
}

/// Searches on from the last match before the gap, until a match ends where one of the old list
/// does: the entries after the gap are the next ones then. The mark says where the one before them
/// ends. An `Err` means out of memory.
pub fn search_on<C: Cursor>(
    entries: &mut Entries,
    mark: Option<usize>,
    regex: &Regex,
    cache: &mut Cache,
    input: &mut Input<C>,
) -> Result<(), AllocError>
    requires made { IsCacheOf regex.now cache.old }
    requires over { IsOver input.old }
    requires len { entries.old.len ≡ length input.old.content }
    requires first { AreFirst (regex_kind regex.now) (seeks regex.now) input.old.content None
        entries.old.before }
    requires rest { Meets (regex_kind regex.now) (seeks regex.now) input.old.content mark
        entries.old.after }
    ensures cache { IsCacheOf regex.now cache.new }
    ensures goes { Goes input.old input.new }
    ensures over { IsOver input.new }
    ensures on { IfOk result (λ _. IsSearchedOn entries.old entries.new) }
    ensures all { IfOk result (λ _. AreEntries (regex_kind regex.now) (seeks regex.now)
        input.old.content None (all_of entries.new)) }
{
    let mut mark = mark;
    let mut last = entries.last_end();
    'on: while let Some(entry) = next_entry(regex, cache, input, last) {
        let end = entry.end();
        entries.push(entry)?;
        last = Some(end);
        mark = entries.skip_to(mark, end, 0);
        if is_at(mark, end) {
            return Ok(());
        }
    }
    entries.drop_after();
    Ok(())
}

/// Searches for all entries of a text. If leftmost matches count, it lays stretches where they are
/// far apart. There are no entries after the gap. An `Err` means out of memory.
pub fn search_all<C: Cursor>(
    entries: &mut Entries,
    stretches: &mut Stretches,
    regex: &Regex,
    cache: &mut Cache,
    input: &mut Input<C>,
) -> Result<(), AllocError>
    requires made { IsCacheOf regex.now cache.old }
    requires over { IsOver input.old }
    requires len { entries.old.len ≡ length input.old.content }
    requires first { AreFirst (regex_kind regex.now) (seeks regex.now) input.old.content None
        entries.old.before }
    requires rest { entries.old.after ≡ [] }
    requires stretches_len { stretches.old.entries.len ≡ length input.old.content }
    requires are { AreStretches (regex_kind regex.now) (seeks regex.now) input.old.content 0
        (all_of stretches.old.entries) }
    ensures cache { IsCacheOf regex.now cache.new }
    ensures goes { Goes input.old input.new }
    ensures over { IsOver input.new }
    ensures on { IfOk result (λ _. IsSearchedOn entries.old entries.new) }
    ensures all { IfOk result (λ _. AreEntries (regex_kind regex.now) (seeks regex.now)
        input.old.content None (all_of entries.new)) }
    ensures stretches_len { IfOk result (λ _. stretches.new.entries.len
        ≡ length input.old.content) }
    ensures are { IfOk result (λ _. AreStretches (regex_kind regex.now) (seeks regex.now)
        input.old.content 0 (all_of stretches.new.entries)) }
{
    if is_leftmost(regex) {
        return search_quiet(entries, stretches, None, regex, cache, input);
    }
    search_on(entries, None, regex, cache, input)
}

/// Makes the entries and the stretches those of a text after an edit of it. `longest` is the
/// greatest length of a match, if it is known. An `Err` means out of memory.
pub fn update<C: Cursor>(
    entries: &mut Entries,
    stretches: &mut Stretches,
    longest: Option<usize>,
    regex: &Regex,
    cache: &mut Cache,
    edit: Edit,
    input: &mut Input<C>,
) -> Result<Changed, AllocError>
    requires made { IsCacheOf regex.now cache.old }
    requires over { IsOver input.old }
    requires longest { IfSome longest (IsLongest regex.now) }
    requires were { WereEntries regex.now edit input.old.content entries.old }
    requires stretches { WereStretches regex.now edit input.old.content stretches.old.entries }
    ensures cache { IsCacheOf regex.now cache.new }
    ensures goes { Goes input.old input.new }
    ensures over { IsOver input.new }
    ensures are { IfOk result (λ _. AreStretches (regex_kind regex.now) (seeks regex.now)
        input.old.content 0 (all_of stretches.new.entries)) }
    ensures stretches_len { IfOk result (λ _. stretches.new.entries.len
        ≡ length input.old.content) }
    ensures all { IfOk result (λ _. AreEntries (regex_kind regex.now) (seeks regex.now)
        input.old.content None (all_of entries.new)) }
    ensures len { IfOk result (λ _. entries.new.len ≡ length input.old.content) }
    ensures changed { IfOk result (IsChanged edit (all_of entries.old) (all_of entries.new)) }
    ensures drawn { IfOk result (λ c. IsDrawn edit (founds (all_of entries.old))
        (founds (all_of entries.new)) c.span) }
{
    content_fits(input);
    stretches.edit(edit);
    entries.settle_to(edit.replaced.start);
    let ahead = Ahead::of(entries);
    let first = entries.count_before();
    let after = entries.count_after();
    carry(entries, stretches, longest, regex, cache, edit, input)?;
    let dropped = after - entries.count_after();
    Ok(change_of(entries, &ahead, edit, first, dropped))
}

/// Carries the entries over an edit, which the bytes before it settle as far as they are before the
/// gap. With a length it needs no stretches, and drops them. An `Err` means out of memory.
fn carry<C: Cursor>(
    entries: &mut Entries,
    stretches: &mut Stretches,
    longest: Option<usize>,
    regex: &Regex,
    cache: &mut Cache,
    edit: Edit,
    input: &mut Input<C>,
) -> Result<(), AllocError>
    requires made { IsCacheOf regex.now cache.old }
    requires over { IsOver input.old }
    requires longest { IfSome longest (IsLongest regex.now) }
    requires were { WereEntries regex.now edit input.old.content entries.old }
    requires below { AreBelow edit.replaced.start entries.old.before }
    requires stretches_len { stretches.old.entries.len ≡ length input.old.content }
    requires are { AreStretches (regex_kind regex.now) (seeks regex.now) input.old.content 0
        (all_of stretches.old.entries) }
    ensures cache { IsCacheOf regex.now cache.new }
    ensures goes { Goes input.old input.new }
    ensures over { IsOver input.new }
    ensures carried { IfOk result (λ _. IsCarried edit entries.old entries.new) }
    ensures len { IfOk result (λ _. entries.new.len ≡ length input.old.content) }
    ensures all { IfOk result (λ _. AreEntries (regex_kind regex.now) (seeks regex.now)
        input.old.content None (all_of entries.new)) }
    ensures stretches_len { IfOk result (λ _. stretches.new.entries.len
        ≡ length input.old.content) }
    ensures are { IfOk result (λ _. AreStretches (regex_kind regex.now) (seeks regex.now)
        input.old.content 0 (all_of stretches.new.entries)) }
{
    if let Some(longest) = short_length(regex, longest) {
        let len = stretches.entries.text_len();
        stretches.clear(len);
        return carry_near(entries, longest, regex, cache, edit, input);
    }
    if is_leftmost(regex) {
        return carry_quiet(entries, stretches, regex, cache, edit, input);
    }
    carry_over(entries, regex, cache, edit, input)
}

/// Carries the entries over an edit. It searches on until a match ends where one did, behind the
/// edit. An `Err` means out of memory.
fn carry_over<C: Cursor>(
    entries: &mut Entries,
    regex: &Regex,
    cache: &mut Cache,
    edit: Edit,
    input: &mut Input<C>,
) -> Result<(), AllocError>
    requires made { IsCacheOf regex.now cache.old }
    requires over { IsOver input.old }
    requires were { WereEntries regex.now edit input.old.content entries.old }
    requires below { AreBelow edit.replaced.start entries.old.before }
    ensures cache { IsCacheOf regex.now cache.new }
    ensures goes { Goes input.old input.new }
    ensures over { IsOver input.new }
    ensures carried { IfOk result (λ _. IsCarried edit entries.old entries.new) }
    ensures len { IfOk result (λ _. entries.new.len ≡ length input.old.content) }
    ensures all { IfOk result (λ _. AreEntries (regex_kind regex.now) (seeks regex.now)
        input.old.content None (all_of entries.new)) }
{
    content_fits(input);
    let last = entries.last_end();
    let mark = entries.skip_to(last, edit.replaced.end, LOOKS_BEHIND);
    entries.edit(edit);
    search_on(entries, mark_after(mark, edit), regex, cache, input)
}

/// The mark in the text after an edit, if it is behind all that the edit may change.
pub fn mark_after(mark: Option<usize>, edit: Edit) -> Option<usize>
    requires order { edit.replaced.start ≤ edit.replaced.end }
    requires fits { place_of mark - (edit.replaced.end - edit.replaced.start) + edit.inserted
        < 2 ^ 64 }
    ensures { result ≡ mark_after edit mark }
{
    let place = mark?;
    if is_before(mark, edit.replaced.end, LOOKS_BEHIND) {
        return None;
    }
    Some(place - (edit.replaced.end - edit.replaced.start) + edit.inserted)
}

/// Whether the mark is there, and at this place.
pub fn is_at(mark: Option<usize>, end: usize) -> bool
    ensures { IsTrue result → mark ≡ Some end }
{
    match mark {
        Some(mark) => mark == end,
        None => false,
    }
}

/// Whether the match is empty, and ends where the one before ended.
fn is_again(last: Option<usize>, found: Match) -> bool
    ensures { result ≡ is_again begin_of end_of last found }
{
    match last {
        Some(last) => found.start() == found.end() && found.end() == last,
        None => false,
    }
}
