//! Changes: what an edit changed in a list, and the span of bytes to draw anew.
ghost use Rattle.std.specs.Prelude.{◌≡◌, ◌+◌, ◌-◌, ◌<◌, ◌≤◌, ◌^◌, ℕ, IfSome, List, length, slice_get};
ghost use Rattle.live_matches.specs.Drawn.{AreAhead, AreLaid, EndBy, IsDrawn, IsSplit, place_before};
ghost use Rattle.live_matches.specs.Entries.{all_of, moved_with};
ghost use Rattle.live_matches.specs.Lists.{IsChanged, founds};
ghost use Rattle.live_matches.specs.Entry.{Entry as an_entry};

use crate::entries::Entries;
use crate::entry::{Changed, Edit, Entry};
use regex_cursor::types::Span;

/// The first entries after the gap, as they were before an edit.
#[derive(Clone, Copy)]
pub struct Ahead {
    first: Option<Entry>,
    second: Option<Entry>,
    third: Option<Entry>,
}

impl Ahead {
    /// The first entries of the list after its gap.
    pub fn of(entries: &Entries) -> Ahead
        ensures { AreAhead (all_of entries.now) (length entries.now.before) result }
    {
        Ahead {
            first: entries.get_after(0),
            second: entries.get_after(1),
            third: entries.get_after(2),
        }
    }

    /// The one with this index, if it is known.
    fn get(&self, index: usize) -> Option<Entry>
        ensures { (es : List an_entry) (first : ℕ) → AreAhead es first self.now
            → IfSome result (λ e. slice_get es (first + index) ≡ Some e) }
    {
        match index {
            0 => self.first,
            1 => self.second,
            2 => self.third,
            _ => None,
        }
    }
}

/// What an edit changed. The list had `ahead` after its gap, of which it dropped so many, and now
/// has others between its first entries and the gap.
pub fn change_of(
    entries: &Entries,
    ahead: &Ahead,
    edit: Edit,
    first: usize,
    dropped: usize,
) -> Changed
    requires first { first ≤ length entries.now.before }
    ensures changed { (old : List an_entry) (was : ℕ) → AreAhead old first ahead.now
        → IsSplit edit old (all_of entries.now) (record {
          first = first;
          dropped = dropped;
          added = length entries.now.before - first;
          span = edit.replaced;
        })
        → AreLaid edit old (all_of entries.now) was entries.now.len
        → IsChanged edit old (all_of entries.now) result }
    ensures drawn { (old : List an_entry) (was : ℕ) → AreAhead old first ahead.now
        → IsSplit edit old (all_of entries.now) (record {
          first = first;
          dropped = dropped;
          added = length entries.now.before - first;
          span = edit.replaced;
        })
        → AreLaid edit old (all_of entries.now) was entries.now.len
        → IsDrawn edit (founds old) (founds (all_of entries.now)) result.span }
{
    let raw = Changed {
        first,
        dropped,
        added: entries.count_before() - first,
        span: edit.replaced,
    };
    let change = trimmed(entries, ahead, edit, raw);
    let start = start_with(edit.replaced.start, ahead.first);
    let came = end_of_new(entries, edit, change);
    let went = end_of_old(entries, ahead, edit, change);
    Changed {
        first,
        dropped: change.dropped,
        added: change.added,
        span: Span {
            start: start_with(start, entries.get(first)),
            end: end_of_edit(edit).max(came).max(went),
        },
    }
}

/// The change without the last entry that went and the last one that came, if the one is the other,
/// moved.
fn trimmed(entries: &Entries, ahead: &Ahead, edit: Edit, raw: Changed) -> Changed
    requires room { raw.first + raw.added < 2 ^ 64 }
    ensures first { result.first ≡ raw.first }
    ensures room { result.first + result.added < 2 ^ 64 }
    ensures split { (old : List an_entry) (was : ℕ) → AreAhead old raw.first ahead.now
        → IsSplit edit old (all_of entries.now) raw
        → AreLaid edit old (all_of entries.now) was entries.now.len
        → IsSplit edit old (all_of entries.now) result }
{
    if raw.dropped == 0 || raw.added == 0 {
        return raw;
    }
    let Some(went) = ahead.get(raw.dropped - 1) else {
        return raw;
    };
    let Some(came) = entries.get(raw.first + (raw.added - 1)) else {
        return raw;
    };
    if went.start() <= edit.replaced.end || !came.is_same(&went.moved(edit)) {
        return raw;
    }
    Changed {
        first: raw.first,
        dropped: raw.dropped - 1,
        added: raw.added - 1,
        span: raw.span,
    }
}

/// The place, or the start of an entry, whichever comes first.
fn start_with(at: usize, entry: Option<Entry>) -> usize
    ensures at { result ≤ at }
    ensures entry { IfSome entry (λ e. result ≤ e.found.start) }
{
    match entry {
        Some(entry) => at.min(entry.start()),
        None => at,
    }
}

/// Where the inserted bytes end.
fn end_of_edit(edit: Edit) -> usize
    ensures { edit.replaced.start + edit.inserted < 2 ^ 64
        → result ≡ edit.replaced.start + edit.inserted }
{
    edit.replaced.start.saturating_add(edit.inserted)
}

/// Where the entries that came end, or before.
fn end_of_new(entries: &Entries, edit: Edit, change: Changed) -> usize
    requires room { change.first + change.added < 2 ^ 64 }
    ensures { (old : List an_entry) (was : ℕ)
        (split : IsSplit edit old (all_of entries.now) change)
        → AreLaid edit old (all_of entries.now) was entries.now.len
        → EndBy result split.changed.anew }
{
    if change.added == 0 {
        return 0;
    }
    match entries.get(change.first + (change.added - 1)) {
        Some(last) => last.end(),
        None => entries.text_len(),
    }
}

/// Where the entries that went ended, or later, moved with the text.
fn end_of_old(entries: &Entries, ahead: &Ahead, edit: Edit, change: Changed) -> usize
    requires room { change.first + change.added < 2 ^ 64 }
    ensures { (old : List an_entry) (was : ℕ) → AreAhead old change.first ahead.now
        → (split : IsSplit edit old (all_of entries.now) change)
        → AreLaid edit old (all_of entries.now) was entries.now.len
        → EndBy (place_before edit result) split.changed.gone }
{
    if change.dropped == 0 {
        return 0;
    }
    if let Some(last) = ahead.get(change.dropped - 1) {
        return last.moved(edit).end();
    }
    match entries.get(change.first + change.added) {
        Some(next) => next.start(),
        None => entries.text_len(),
    }
}
