//! Entries: a list of matches with a gap that follows the edits.
ghost use Rattle.std.specs.Prelude.{◌≡◌, ◌+◌, ◌++◌, ◌∷◌, ◌<◌, ◌≤◌, ℕ, [], IfOk, IfSome, IsTrue, List, MatchOption, false, min};
ghost use Rattle.live_matches.specs.Entries.{AreBelow, Rise, counted_back, entries_of, is_before, is_open, most_of, reach_of};
ghost use Rattle.live_matches.specs.Lists.{place_of};
ghost use Rattle.live_matches.specs.Stretches.{last_start};
ghost use Rattle.live_matches.specs.declared.sides.Kept.{Kept as a_kept};

use crate::entry::{Edit, Entry};
use crate::sides::{Kept, Sides};
use std::alloc::{AllocError, Global};
use std::marker::Model;

/// The entries of a text of `len` bytes, in order. Those before the gap count their places from the
/// start of the text, and those after it from its end. So an edit at the gap moves none of them.
#[derive(Drop)]
pub struct Entries {
    sides: Sides,
    len: usize,
}

impl Model for Entries {
    ghost use Rattle.live_matches.specs.Entries.{Gapped, Rise, counted_back, entries_of};

    ghost Value = { Gapped };

    ghost view = { λ l. record {
      before = entries_of l.sides.before;
      after = counted_back l.len l.sides.after;
      len = l.len;
    } };

    ghost invariant = { λ l. Rise l.len 0 l.sides.before };
}

impl Entries {
    ghost use Rattle.std.specs.Prelude.{◌≡◌, ◌+◌, ◌-◌, ◌++◌, ◌<◌, ◌≤◌, ◌^◌, ◌∷◌, [], All, IfOk, IfSome, IsTrue, MatchOption, length, map, slice_get};
    ghost use Rattle.std.specs.List.{list_any};
    ghost use Rattle.live_matches.specs.Entries.{AreBehind, AreBelow, FitsEdit, IsSettledTo, IsSkipped, all_of, is_open, last_end, len_after, moved_with};
    ghost use Rattle.live_matches.specs.Quiet.{BeginFrom, HasGone, IsSkippedOver};
    ghost use Rattle.live_matches.specs.Stretches.{IsDroppedBack};

    /// Returns an empty list for a text of `len` bytes. It takes no memory yet.
    pub fn new(alloc: Global, len: usize) -> Entries
        ensures { result ≡ record { before = []; after = []; len = len } }
    {
        Entries {
            sides: Sides::new(alloc),
            len,
        }
    }

    /// Drops all entries, for a text of `len` bytes.
    pub fn clear(&mut self, len: usize)
        ensures { self.new ≡ record { before = []; after = []; len = len } }
    {
        self.sides.clear();
        self.len = len;
    }

    /// The number of bytes of the text.
    pub fn text_len(&self) -> usize
        ensures { result ≡ self.now.len }
    {
        self.len // of the text
    }

    /// The number of entries before the gap.
    pub fn count_before(&self) -> usize
        ensures { result ≡ length self.now.before }
    {
        self.sides.count_before()
    }

    /// The number of entries after the gap.
    pub fn count_after(&self) -> usize
        ensures { result ≡ length self.now.after }
    {
        self.sides.count_after()
    }

    /// The number of entries.
    pub fn len(&self) -> usize
        ensures { result ≡ length (all_of self.now) }
    {
        self.sides.len()
    }

    /// Roughly the number of bytes that the list has allocated.
    pub fn memory_usage(&self) -> usize {
        self.sides.memory_usage()
    }

    /// Whether an entry depends on where the text ends: more bytes settle it than the text has. It
    /// looks at the entries up to the first such one.
    pub fn is_open_ended(&self) -> bool
        ensures { result ≡ list_any (is_open self.now.len) (all_of self.now) }
    {
        let len = self.text_len();
        let mut index = 0;
        'each: while index < self.len() {
            if is_open(self.get(index), len) {
                return true;
            }
            index += 1;
        }
        false
    }

    /// The entry with this index, in order, or `None` if there are no more.
    pub fn get(&self, index: usize) -> Option<Entry>
        ensures { result ≡ slice_get (all_of self.now) index }
    {
        let before = self.sides.count_before();
        if index >= before {
            return self.get_after(index - before);
        }
        let kept = self.sides.get_before(index)?;
        Some(kept.entry)
    }

    /// The entry after the gap with this index, in order, or `None` if there are no more.
    pub fn get_after(&self, index: usize) -> Option<Entry>
        ensures { result ≡ slice_get self.now.after index }
    {
        let entry = self.sides.get_after(index)?;
        Some(entry.mirrored(self.len))
    }

    /// Drops the entries after the gap.
    pub fn drop_after(&mut self)
        ensures { self.new ≡ record self.old { after = [] } }
    {
        self.sides.drop_after();
    }

    /// Appends an entry before the gap. An `Err` means out of memory.
    pub fn push(&mut self, entry: Entry) -> Result<(), AllocError>
        requires { entry.found.end ≤ self.old.len }
        ensures { IfOk result (λ _. self.new
            ≡ record self.old { before = self.old.before ++ entry ∷ [] }) }
    {
        let most = most_of(&self.sides);
        self.sides.push(kept_after(most, entry))?;
        Ok(())
    }

    /// Where the last match before the gap ends.
    pub fn last_end(&self) -> Option<usize>
        ensures { result ≡ last_end None self.now.before }
    {
        let kept = self.sides.last()?;
        Some(kept.entry.end())
    }

    /// Drops the last entries before the gap, as long as they begin after a place.
    pub fn drop_back(&mut self, at: usize)
        ensures { IsDroppedBack at self.old self.new }
    {
        drop_back(&mut self.sides, at);
    }

    /// Drops the first entries after the gap, as long as they end at a place or before it.
    pub fn drop_by(&mut self, at: usize)
        ensures { HasGone self.old self.new }
    {
        'by: while self.take_next_ending(at) {}
    }

    /// Takes the first entry after the gap from the list, if it ends at a place or before it.
    /// Returns whether it does.
    fn take_next_ending(&mut self, at: usize) -> bool
        ensures gone { HasGone self.old self.new }
        ensures fewer { IsTrue result → length self.new.after < length self.old.after }
    {
        let Some(entry) = self.get_after(0) else {
            return false;
        };
        if at < entry.end() {
            return false;
        }
        self.take_next().is_some()
    }

    /// Puts the entries after the gap of another list in place of those of this list. Both are of
    /// one text. An `Err` means out of memory.
    pub fn take_after(&mut self, next: Entries) -> Result<(), AllocError>
        requires { next.len ≡ self.old.len }
        ensures { IfOk result (λ _. self.new ≡ record self.old { after = next.after }) }
    {
        self.sides.take_after(next.sides)
    }

    /// Takes the first entry after the gap from the list.
    pub fn take_next(&mut self) -> Option<Entry>
        ensures { MatchOption result ((self.old.after ≡ []) × (self.new ≡ self.old))
            (λ e. (self.old.after ≡ e ∷ self.new.after)
            × (self.new ≡ record self.old { after = self.new.after })) }
    {
        let entry = self.sides.take_next()?;
        Some(entry.mirrored(self.len))
    }

    /// Drops entries after the gap until one is dropped that ends `margin` bytes after `at`, or
    /// later. Returns where the last one that it drops ends, and `mark` if it drops none. It drops
    /// none if `mark` is there or later.
    pub fn skip_to(&mut self, mark: Option<usize>, at: usize, margin: usize) -> Option<usize>
        ensures { IsSkipped mark (at + margin) self.old result self.new }
    {
        let mut mark = mark;
        'skip: while is_before(mark, at, margin) {
            match self.take_next() {
                Some(entry) => mark = Some(entry.end()),
                None => return mark,
            }
        }
        mark
    }

    /// Takes the first entry after the gap from the list, if it begins at a place or before it.
    fn take_next_by(&mut self, at: usize) -> Option<Entry>
        ensures { MatchOption result (BeginFrom (at + 1) self.new.after × (self.new ≡ self.old))
            (λ e. (self.old.after ≡ e ∷ self.new.after)
            × (self.new ≡ record self.old { after = self.new.after })) }
    {
        let first = self.get_after(0)?;
        if at < first.start() {
            return None;
        }
        self.take_next()
    }

    /// Drops the entries after the gap that begin at a place or before it. Returns the place, or
    /// where the last one that it drops ends if that is later. The mark says where the one before
    /// them ends.
    pub fn skip_over(&mut self, mark: Option<usize>, at: usize) -> usize
        ensures { IsSkippedOver mark at self.old result self.new }
    {
        let mut mark = mark;
        'over: while let Some(entry) = self.take_next_by(at) {
            mark = Some(entry.end());
        }
        place_of(mark).max(at)
    }

    /// Goes over to the text after an edit. The places before the gap stay, and those after it move
    /// with the text.
    pub fn edit(&mut self, edit: Edit)
        requires edit { FitsEdit self.old.len edit }
        requires before { AreBelow edit.replaced.start self.old.before }
        requires after { AreBehind edit.replaced.end self.old.after }
        ensures { self.new ≡ record {
          before = self.old.before;
          after = map (moved_with edit) self.old.after;
          len = len_after edit self.old.len;
        } }
    {
        let removed = edit.replaced.end - edit.replaced.start;
        self.len = self.len - removed + edit.inserted;
    }

    /// Moves the gap: before it are then entries that the bytes before `at` settle, together with
    /// all entries before them.
    pub fn settle_to(&mut self, at: usize)
        requires { at < usize.MAX }
        ensures { IsSettledTo at self.old self.new }
    {
        move_back(&mut self.sides, self.len, at);
        move_on(&mut self.sides, self.len, at);
        self.sides.give_back();
    }
}

/// Where the next match is sought, if the one before ended at `last`.
pub fn place_of(last: Option<usize>) -> usize
    ensures { result ≡ place_of last }
{
    match last {
        Some(last) => last,
        None => 0,
    }
}

/// Whether the mark is missing, or less than `margin` bytes after a place.
pub fn is_before(mark: Option<usize>, at: usize, margin: usize) -> bool
    ensures { result ≡ is_before mark (at + margin) }
{
    match mark {
        Some(mark) => mark < at || mark - at < margin,
        None => true,
    }
}

/// Whether the entry is there, and more bytes settle it than a text of `len` bytes has.
fn is_open(entry: Option<Entry>, len: usize) -> bool
    ensures { MatchOption entry (result ≡ false) (λ e. result ≡ is_open len e) }
{
    match entry {
        Some(entry) => entry.is_open(len),
        None => false,
    }
}

/// Whether the entry is there, and begins before a place.
pub fn begins_before(entry: Option<Entry>, place: usize) -> bool
    ensures { result ≡ false → IfSome entry (λ e. place ≤ e.found.start) }
{
    match entry {
        Some(entry) => entry.start() < place,
        None => false,
    }
}

/// The entry, before the gap, if `most` bytes settle those before it.
fn kept_after(most: usize, entry: Entry) -> Kept
    ensures entry { result.entry ≡ entry }
    ensures reach { min (reach_of entry) usize.MAX ≤ result.most }
    ensures most { most ≤ result.most }
{
    Kept {
        entry,
        most: most.max(entry.reach()),
    }
}

/// Moves the gap back, until `at` bytes settle the entries before it.
fn move_back(sides: &mut Sides, len: usize, at: usize)
    requires rise { Rise len 0 sides.old.before }
    requires at { at < usize.MAX }
    ensures rise { Rise len 0 sides.new.before }
    ensures all { entries_of sides.new.before ++ counted_back len sides.new.after
        ≡ entries_of sides.old.before ++ counted_back len sides.old.after }
    ensures below { AreBelow at (entries_of sides.new.before) }
{
    'back: while let Some(kept) = sides.last() {
        if kept.most <= at {
            return;
        }
        sides.move_back(kept.entry.mirrored(len));
    }
}

/// Moves the gap on, as long as `at` bytes settle the entries before it.
fn move_on(sides: &mut Sides, len: usize, at: usize)
    requires rise { Rise len 0 sides.old.before }
    requires at { at < usize.MAX }
    requires below { AreBelow at (entries_of sides.old.before) }
    ensures rise { Rise len 0 sides.new.before }
    ensures all { entries_of sides.new.before ++ counted_back len sides.new.after
        ≡ entries_of sides.old.before ++ counted_back len sides.old.after }
    ensures below { AreBelow at (entries_of sides.new.before) }
{
    'on: while let Some(entry) = sides.get_after(0) {
        let kept = kept_after(most_of(sides), entry.mirrored(len));
        if kept.most > at {
            return;
        }
        sides.move_on(kept);
    }
}

/// Drops the last entries, as long as they begin after a place.
fn drop_back(sides: &mut Sides, at: usize)
    ensures rise { (len : ℕ) → Rise len 0 sides.old.before → Rise len 0 sides.new.before }
    ensures dropped { (dropped : List a_kept) × (sides.old.before ≡ sides.new.before ++ dropped) }
    ensures after { sides.new.after ≡ sides.old.after }
    ensures far { last_start 0 (entries_of sides.new.before) ≤ at }
{
    'back: while let Some(kept) = sides.last() {
        if kept.entry.start() <= at {
            return;
        }
        sides.drop_last();
    }
}

/// How many bytes settle all entries before the gap.
fn most_of(sides: &Sides) -> usize
    ensures { result ≡ most_of 0 sides.now.before }
{
    match sides.last() {
        Some(kept) => kept.most,
        None => 0,
    }
}
