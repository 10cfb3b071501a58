//! Quiet stretches: edits of a text that end where no match begins. Far from all matches they read
//! about twice as many bytes as the greatest length of a match, or else a few steps.
ghost use Rattle.std.specs.Prelude.{◌≡◌, ◌≢◌, ◌+◌, ◌<◌, ◌≤◌, ℕ, IfOk, IfSome, IsTrue, List, MatchOption, None, Some, false, length};
ghost use Rattle.rc_text.specs.declared.types.MatchKind.{MatchKind as a_kind};
ghost use Rattle.rc_text.specs.declared.types.MatchKind.TheVariants.{All as all_matches};
ghost use Rattle.rc_program.specs.Answer.{Search, is_anchored};
ghost use Rattle.rc_reach.specs.Live.{found_by};
ghost use Rattle.api_meta.specs.Views.{regex_kind};
ghost use Rattle.rc_text.specs.Text.{Keeps};
ghost use Rattle.live_matches.specs.Entries.{AreBelow, all_of, last_end, reach_of};
ghost use Rattle.live_matches.specs.Lists.{AreEntries, AreFirst, IsEntry, IsSearchedOn, Meets, next_after, place_of};
ghost use Rattle.live_matches.specs.Live.{Goes, IsCacheOf, IsOver, WereEntries, seeks};
ghost use Rattle.live_matches.specs.Quiet.{BeginFrom, HasGone, IsCarried, IsFrom, IsLeft, IsLongest, IsShort};
ghost use Rattle.live_matches.specs.Stretches.{AreStretches, IsQuiet};

use crate::entries::{Entries, begins_before, place_of};
use crate::entry::{Edit, Entry, entry_of};
use crate::search::{LOOKS_BEHIND, mark_after, next_entry, search_from};
use crate::stretches::{STEP, Stretch, Stretches};
use rc_text::input::content_fits;
use regex_cursor::engines::meta::{Cache, Regex};
use regex_cursor::types::{MatchKind, Span};
use regex_cursor::{Cursor, Input};
use std::alloc::AllocError;

/// How many bytes after a position an assertion looks at, at most.
const LOOKS_AHEAD: usize = 4;

/// The greatest length, if it is known and leftmost matches count.
pub fn short_length(regex: &Regex, longest: Option<usize>) -> Option<usize>
    requires longest { IfSome longest (IsLongest regex.now) }
    ensures { IfSome result (IsShort regex.now) }
{
    match regex.get_config().get_match_kind() {
        MatchKind::All => None,
        MatchKind::LeftmostFirst | MatchKind::LeftmostLongest => longest,
    }
}

/// Where the first match after the gap may begin at the earliest, once the bytes from `at` on
/// change. It is 0 if that isn't known.
fn first_place(entries: &Entries, at: usize, longest: usize) -> usize
    ensures begins { BeginFrom result entries.now.after }
    ensures settled { 0 < result → result + longest + 4 ≤ at }
{
    let reach = longest.saturating_add(LOOKS_AHEAD);
    let place = at.saturating_sub(reach);
    match entries.get_after(0) {
        Some(entry) => place.min(entry.start()),
        None => place,
    }
}

/// Whether leftmost matches count, for which stretches are told.
pub fn is_leftmost(regex: &Regex) -> bool
    ensures { IsTrue result → regex_kind regex.now ≢ all_matches }
{
    match regex.get_config().get_match_kind() {
        MatchKind::LeftmostFirst | MatchKind::LeftmostLongest => true,
        MatchKind::All => false,
    }
}

/// Drops the entries after the gap that an edit may change. Returns where the list of the old text
/// is taken up: four bytes behind the edit, or where the last dropped one ends if that is later.
fn skip_behind(entries: &mut Entries, last: Option<usize>, edit: Edit) -> Option<usize>
    ensures gone { HasGone entries.old entries.new }
    ensures left { (kind : a_kind) (s : Search) (c : List ℕ) → kind ≢ all_matches
        → is_anchored s.anchoring ≡ false → length c ≡ entries.old.len
        → place_of last ≤ length c → AreEntries kind s c last entries.old.after
        → IsLeft kind s c (edit.replaced.end + 4) result entries.new.after }
{
    let room = entries.text_len().saturating_sub(edit.replaced.end);
    if room < LOOKS_BEHIND {
        return entries.skip_to(last, edit.replaced.end, LOOKS_BEHIND);
    }
    Some(entries.skip_over(last, edit.replaced.end + LOOKS_BEHIND))
}

/// Drops the entries after the gap that begin before a new match ends, or there. Returns where the
/// list is taken up: where that match ends, or the last dropped one if that is later.
fn skip_past(entries: &mut Entries, mark: Option<usize>, end: usize) -> Option<usize>
    ensures gone { HasGone entries.old entries.new }
    ensures meets { (kind : a_kind) (s : Search) (c : List ℕ) → kind ≢ all_matches
        → is_anchored s.anchoring ≡ false → Meets kind s c mark entries.old.after
        → Meets kind s c result entries.new.after }
{
    match mark {
        Some(_) => Some(entries.skip_over(mark, end)),
        None => None,
    }
}

/// Whether a search from a place on finds no match that the bytes before `stop` settle.
fn finds_none_by<C: Cursor>(
    regex: &Regex,
    cache: &mut Cache,
    input: &mut Input<C>,
    at: usize,
    stop: usize,
) -> bool
    requires made { IsCacheOf regex.now cache.old }
    requires over { IsOver input.old }
    requires inside { at ≤ length input.old.content }
    requires order { at ≤ stop }
    ensures cache { IsCacheOf regex.now cache.new }
    ensures over { IsOver input.new }
    ensures goes { Goes input.old input.new }
    ensures none { IsTrue result → (n : ℕ) → IsShort regex.now n
        → IfSome (found_by (regex_kind regex.now) (seeks regex.now) input.old.content at)
        (λ m. stop < m.start + n + 4) }
{
    content_fits(input);
    let end = input.get_span().end;
    input.set_span(Span {
        start: at,
        end: stop,
    });
    let reached = regex.search_reach_with(cache, input);
    input.set_span(Span { start: at, end });
    match reached.found {
        Some(_) => stop < reached.reach,
        None => true,
    }
}

/// Whether the entries after the gap come next after the last match before it. So they do if it
/// ends at the mark, or if no match begins before the mark, or so near to it that it could reach
/// there.
fn is_met<C: Cursor>(
    entries: &Entries,
    mark: Option<usize>,
    from: usize,
    longest: usize,
    regex: &Regex,
    cache: &mut Cache,
    input: &mut Input<C>,
) -> bool
    requires made { IsCacheOf regex.now cache.old }
    requires over { IsOver input.old }
    requires short { IsShort regex.now longest }
    requires inside { place_of (last_end None entries.now.before) ≤ length input.old.content }
    requires from { IsFrom (regex_kind regex.now) (seeks regex.now) input.old.content
        (last_end None entries.now.before) longest from }
    requires rest { Meets (regex_kind regex.now) (seeks regex.now) input.old.content mark
        entries.now.after }
    ensures cache { IsCacheOf regex.now cache.new }
    ensures over { IsOver input.new }
    ensures goes { Goes input.old input.new }
    ensures met { IsTrue result → AreEntries (regex_kind regex.now) (seeks regex.now)
        input.old.content (last_end None entries.now.before) entries.now.after }
{
    let Some(place) = mark else {
        return false;
    };
    let last = entries.last_end();
    if last == mark {
        return true;
    }
    let start = place_of(last).max(from);
    let stop = place
        .saturating_add(longest)
        .saturating_add(LOOKS_AHEAD + 1);
    if start >= place || stop == usize::MAX || begins_before(entries.get_after(0), stop) {
        return false;
    }
    finds_none_by(regex, cache, input, start, stop)
}

/// Returns the next entry of the list, if the match before it ended at `last`. The next match has
/// to begin at `from` or later.
fn entry_on<C: Cursor>(
    regex: &Regex,
    cache: &mut Cache,
    input: &mut Input<C>,
    last: Option<usize>,
    from: usize,
    longest: usize,
) -> Option<Entry>
    requires made { IsCacheOf regex.now cache.old }
    requires over { IsOver input.old }
    requires short { IsShort regex.now longest }
    requires inside { place_of last ≤ length input.old.content }
    requires from { IsFrom (regex_kind regex.now) (seeks regex.now) input.old.content last
        longest from }
    ensures cache { IsCacheOf regex.now cache.new }
    ensures over { IsOver input.new }
    ensures goes { Goes input.old input.new }
    ensures next { MatchOption result
        (next_after (regex_kind regex.now) (seeks regex.now) input.old.content last ≡ None)
        (IsEntry (regex_kind regex.now) (seeks regex.now) input.old.content last) }
{
    content_fits(input);
    if from <= place_of(last) {
        return next_entry(regex, cache, input, last);
    }
    let first = search_from(regex, cache, input, from);
    match first.found {
        Some(found) => {
            let least = from + longest + LOOKS_AHEAD;
            Some(entry_of(found, first.reach.max(least)))
        }
        None => None,
    }
}

/// Searches on from the last match before the gap, or from `from`, until a match ends where the
/// list is taken up, or no match begins before that. An `Err` means out of memory.
fn search_near<C: Cursor>(
    entries: &mut Entries,
    mark: Option<usize>,
    from: usize,
    longest: usize,
    regex: &Regex,
    cache: &mut Cache,
    input: &mut Input<C>,
) -> Result<(), AllocError>
    requires made { IsCacheOf regex.now cache.old }
    requires over { IsOver input.old }
    requires short { IsShort regex.now longest }
    requires len { entries.old.len ≡ length input.old.content }
    requires first { AreFirst (regex_kind regex.now) (seeks regex.now) input.old.content None
        entries.old.before }
    requires from { IsFrom (regex_kind regex.now) (seeks regex.now) input.old.content
        (last_end None entries.old.before) longest from }
    requires rest { Meets (regex_kind regex.now) (seeks regex.now) input.old.content mark
        entries.old.after }
    ensures cache { IsCacheOf regex.now cache.new }
    ensures goes { Goes input.old input.new }
    ensures over { IsOver input.new }
    ensures on { IfOk result (λ _. IsSearchedOn entries.old entries.new) }
    ensures all { IfOk result (λ _. AreEntries (regex_kind regex.now) (seeks regex.now)
        input.old.content None (all_of entries.new)) }
{
    let mut mark = mark;
    'near: while !is_met(entries, mark, from, longest, regex, cache, input) {
        let last = entries.last_end();
        let Some(entry) = entry_on(regex, cache, input, last, from, longest) else {
            entries.drop_after();
            return Ok(());
        };
        let end = entry.end();
        entries.push(entry)?;
        mark = skip_past(entries, mark, end);
    }
    Ok(())
}

/// Returns the next entry of the list, if the match before it ended where the stretch begins.
fn entry_behind<C: Cursor>(
    regex: &Regex,
    cache: &mut Cache,
    input: &mut Input<C>,
    last: Option<usize>,
    stretch: Stretch,
) -> Option<Entry>
    requires made { IsCacheOf regex.now cache.old }
    requires over { IsOver input.old }
    requires leftmost { regex_kind regex.now ≢ all_matches }
    requires inside { place_of last ≤ length input.old.content }
    requires start { stretch.start ≡ place_of last }
    requires end { stretch.end ≤ length input.old.content }
    requires quiet { IsQuiet (regex_kind regex.now) (seeks regex.now) input.old.content
        stretch.reach stretch.start stretch.end }
    ensures cache { IsCacheOf regex.now cache.new }
    ensures over { IsOver input.new }
    ensures goes { Goes input.old input.new }
    ensures next { MatchOption result
        (next_after (regex_kind regex.now) (seeks regex.now) input.old.content last ≡ None)
        (IsEntry (regex_kind regex.now) (seeks regex.now) input.old.content last) }
{
    content_fits(input);
    if stretch.end <= place_of(last) {
        return next_entry(regex, cache, input, last);
    }
    let first = search_from(regex, cache, input, stretch.end);
    match first.found {
        Some(found) => Some(entry_of(found, first.reach.max(stretch.reach))),
        None => None,
    }
}

/// Whether the entries after the gap come next after the last match before it, behind which the
/// stretch begins. So they do if that match ends at the mark, or if the stretch goes on behind the
/// mark, and they begin after it.
fn is_taken(entries: &Entries, mark: Option<usize>, stretch: Stretch) -> bool
    ensures { (kind : a_kind) (s : Search) (c : List ℕ) → kind ≢ all_matches
        → is_anchored s.anchoring ≡ false → IsTrue result
        → stretch.start ≡ place_of (last_end None entries.now.before)
        → IsQuiet kind s c stretch.reach stretch.start stretch.end
        → Meets kind s c mark entries.now.after
        → AreEntries kind s c (last_end None entries.now.before) entries.now.after }
{
    let Some(place) = mark else {
        return false;
    };
    if entries.last_end() == mark {
        return true;
    }
    if stretch.end <= place || stretch.end <= stretch.start {
        return false;
    }
    begins_behind(entries.get_after(0), stretch)
}

/// Whether the entry begins at the end of a stretch or later, and its reach is that of the stretch
/// or greater. So it is if there is none.
fn begins_behind(entry: Option<Entry>, stretch: Stretch) -> bool
    ensures { IsTrue result → IfSome entry (λ e. (stretch.end ≤ e.found.start)
        × (stretch.reach ≤ reach_of e)) }
{
    match entry {
        Some(entry) => stretch.end <= entry.start() && stretch.reach <= entry.reach(),
        None => true,
    }
}

/// Makes the stretch behind the last match longer, until the list may be taken up in it and the
/// stretches after the gap go on from it, or as long as the next entry isn't near. An `Err` means
/// out of memory.
fn stretch_on<C: Cursor>(
    entries: &Entries,
    stretches: &mut Stretches,
    mark: Option<usize>,
    stretch: Stretch,
    regex: &Regex,
    cache: &mut Cache,
    input: &mut Input<C>,
) -> Result<Stretch, AllocError>
    requires made { IsCacheOf regex.now cache.old }
    requires over { IsOver input.old }
    requires leftmost { regex_kind regex.now ≢ all_matches }
    requires len { entries.now.len ≡ length input.old.content }
    requires stretches_len { stretches.old.entries.len ≡ length input.old.content }
    requires order { stretch.start ≤ stretch.end }
    requires inside { stretch.end ≤ length input.old.content }
    requires are { AreStretches (regex_kind regex.now) (seeks regex.now) input.old.content 0
        (all_of stretches.old.entries) }
    requires quiet { IsQuiet (regex_kind regex.now) (seeks regex.now) input.old.content
        stretch.reach stretch.start stretch.end }
    ensures cache { IsCacheOf regex.now cache.new }
    ensures keeps { Keeps input.old input.new }
    ensures len { IfOk result (λ _. stretches.new.entries.len ≡ length input.old.content) }
    ensures are { IfOk result (λ _. AreStretches (regex_kind regex.now) (seeks regex.now)
        input.old.content 0 (all_of stretches.new.entries)) }
    ensures start { IfOk result (λ r. r.start ≡ stretch.start) }
    ensures order { IfOk result (λ r. stretch.end ≤ r.end) }
    ensures inside { IfOk result (λ r. r.end ≤ length input.old.content) }
    ensures quiet { IfOk result (λ r. IsQuiet (regex_kind regex.now) (seeks regex.now)
        input.old.content r.reach r.start r.end) }
{
    let len = entries.text_len();
    let limit = match entries.get_after(0) {
        Some(entry) => entry.start().min(len),
        None => len,
    };
    let near = match stretches.entries.get_after(0) {
        Some(entry) => entry.start().min(limit),
        None => 0,
    };
    let stop = match mark {
        Some(place) => place.saturating_add(1).max(near),
        None => len,
    };
    stretches.go_on(stretch, stop, limit, regex, cache, input)
}

/// Makes the stretch behind a new match longer, as `stretch_on` does. It stays as it is if no old
/// list is taken up and the last two matches are near each other: the next one is likely near too.
/// An `Err` means out of memory.
fn stretch_behind<C: Cursor>(
    entries: &Entries,
    stretches: &mut Stretches,
    mark: Option<usize>,
    stretch: Stretch,
    regex: &Regex,
    cache: &mut Cache,
    input: &mut Input<C>,
) -> Result<Stretch, AllocError>
    requires made { IsCacheOf regex.now cache.old }
    requires over { IsOver input.old }
    requires leftmost { regex_kind regex.now ≢ all_matches }
    requires len { entries.now.len ≡ length input.old.content }
    requires stretches_len { stretches.old.entries.len ≡ length input.old.content }
    requires order { stretch.start ≤ stretch.end }
    requires inside { stretch.end ≤ length input.old.content }
    requires are { AreStretches (regex_kind regex.now) (seeks regex.now) input.old.content 0
        (all_of stretches.old.entries) }
    requires quiet { IsQuiet (regex_kind regex.now) (seeks regex.now) input.old.content
        stretch.reach stretch.start stretch.end }
    ensures cache { IsCacheOf regex.now cache.new }
    ensures keeps { Keeps input.old input.new }
    ensures len { IfOk result (λ _. stretches.new.entries.len ≡ length input.old.content) }
    ensures are { IfOk result (λ _. AreStretches (regex_kind regex.now) (seeks regex.now)
        input.old.content 0 (all_of stretches.new.entries)) }
    ensures start { IfOk result (λ r. r.start ≡ stretch.start) }
    ensures order { IfOk result (λ r. stretch.end ≤ r.end) }
    ensures inside { IfOk result (λ r. r.end ≤ length input.old.content) }
    ensures quiet { IfOk result (λ r. IsQuiet (regex_kind regex.now) (seeks regex.now)
        input.old.content r.reach r.start r.end) }
{
    if mark.is_none() && ends_near(entries) {
        return Ok(stretch);
    }
    stretch_on(entries, stretches, mark, stretch, regex, cache, input)
}

/// Whether the last two matches before the gap are less than two steps apart.
fn ends_near(entries: &Entries) -> bool {
    let count = entries.count_before();
    if count < 2 {
        return false;
    }
    let (Some(one), Some(next)) = (entries.get(count - 2), entries.get(count - 1)) else {
        return false;
    };
    next.start().saturating_sub(one.end()) < 2 * STEP
}

/// Searches on from the last match before the gap, by steps, until a match ends where the list is
/// taken up, or no match begins before that. An `Err` means out of memory.
pub fn search_quiet<C: Cursor>(
    entries: &mut Entries,
    stretches: &mut Stretches,
    mark: Option<usize>,
    regex: &Regex,
    cache: &mut Cache,
    input: &mut Input<C>,
) -> Result<(), AllocError>
    requires made { IsCacheOf regex.now cache.old }
    requires over { IsOver input.old }
    requires leftmost { regex_kind regex.now ≢ all_matches }
    requires len { entries.old.len ≡ length input.old.content }
    requires stretches_len { stretches.old.entries.len ≡ length input.old.content }
    requires first { AreFirst (regex_kind regex.now) (seeks regex.now) input.old.content None
        entries.old.before }
    requires rest { Meets (regex_kind regex.now) (seeks regex.now) input.old.content mark
        entries.old.after }
    requires are { AreStretches (regex_kind regex.now) (seeks regex.now) input.old.content 0
        (all_of stretches.old.entries) }
    ensures cache { IsCacheOf regex.now cache.new }
    ensures goes { Goes input.old input.new }
    ensures over { IsOver input.new }
    ensures on { IfOk result (λ _. IsSearchedOn entries.old entries.new) }
    ensures all { IfOk result (λ _. AreEntries (regex_kind regex.now) (seeks regex.now)
        input.old.content None (all_of entries.new)) }
    ensures stretches_len { IfOk result (λ _. stretches.new.entries.len
        ≡ length input.old.content) }
    ensures are { IfOk result (λ _. AreStretches (regex_kind regex.now) (seeks regex.now)
        input.old.content 0 (all_of stretches.new.entries)) }
{
    let mut mark = mark;
    let mut stretch = stretches.stretch_from(place_of(entries.last_end()));
    stretch = stretch_on(entries, stretches, mark, stretch, regex, cache, input)?;
    'quiet: while !is_taken(entries, mark, stretch) {
        let last = entries.last_end();
        let Some(entry) = entry_behind(regex, cache, input, last, stretch) else {
            entries.drop_after();
            return Ok(());
        };
        let end = entry.end();
        entries.push(entry)?;
        mark = skip_past(entries, mark, end);
        stretch = Stretch::at(end);
        stretch = stretch_behind(entries, stretches, mark, stretch, regex, cache, input)?;
    }
    Ok(())
}

/// Carries the entries over an edit, as `carry_over` does. No match is longer than `longest` bytes.
/// An `Err` means out of memory.
pub fn carry_near<C: Cursor>(
    entries: &mut Entries,
    longest: usize,
    regex: &Regex,
    cache: &mut Cache,
    edit: Edit,
    input: &mut Input<C>,
) -> Result<(), AllocError>
    requires made { IsCacheOf regex.now cache.old }
    requires over { IsOver input.old }
    requires short { IsShort regex.now longest }
    requires were { WereEntries regex.now edit input.old.content entries.old }
    requires below { AreBelow edit.replaced.start entries.old.before }
    ensures cache { IsCacheOf regex.now cache.new }
    ensures goes { Goes input.old input.new }
    ensures over { IsOver input.new }
    ensures carried { IfOk result (λ _. IsCarried edit entries.old entries.new) }
    ensures len { IfOk result (λ _. entries.new.len ≡ length input.old.content) }
    ensures all { IfOk result (λ _. AreEntries (regex_kind regex.now) (seeks regex.now)
        input.old.content None (all_of entries.new)) }
{
    content_fits(input);
    let last = entries.last_end();
    let from = first_place(entries, edit.replaced.start, longest);
    let mark = skip_behind(entries, last, edit);
    entries.edit(edit);
    let mark = mark_after(mark, edit);
    search_near(entries, mark, from, longest, regex, cache, input)
}

/// Carries the entries over an edit, as `carry_over` does, by the stretches of the text. An `Err`
/// means out of memory.
pub fn carry_quiet<C: Cursor>(
    entries: &mut Entries,
    stretches: &mut Stretches,
    regex: &Regex,
    cache: &mut Cache,
    edit: Edit,
    input: &mut Input<C>,
) -> Result<(), AllocError>
    requires made { IsCacheOf regex.now cache.old }
    requires over { IsOver input.old }
    requires leftmost { regex_kind regex.now ≢ all_matches }
    requires were { WereEntries regex.now edit input.old.content entries.old }
    requires below { AreBelow edit.replaced.start entries.old.before }
    requires stretches_len { stretches.old.entries.len ≡ length input.old.content }
    requires are { AreStretches (regex_kind regex.now) (seeks regex.now) input.old.content 0
        (all_of stretches.old.entries) }
    ensures cache { IsCacheOf regex.now cache.new }
    ensures goes { Goes input.old input.new }
    ensures over { IsOver input.new }
    ensures carried { IfOk result (λ _. IsCarried edit entries.old entries.new) }
    ensures len { IfOk result (λ _. entries.new.len ≡ length input.old.content) }
    ensures all { IfOk result (λ _. AreEntries (regex_kind regex.now) (seeks regex.now)
        input.old.content None (all_of entries.new)) }
    ensures stretches_len { IfOk result (λ _. stretches.new.entries.len
        ≡ length input.old.content) }
    ensures are { IfOk result (λ _. AreStretches (regex_kind regex.now) (seeks regex.now)
        input.old.content 0 (all_of stretches.new.entries)) }
{
    content_fits(input);
    let last = entries.last_end();
    let mark = skip_behind(entries, last, edit);
    entries.edit(edit);
    let mark = mark_after(mark, edit);
    search_quiet(entries, stretches, mark, regex, cache, input)
}
