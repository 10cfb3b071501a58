//! Text: its chunks on both sides of a gap, which is where the last edit was.
ghost use Rattle.std.specs.Prelude.{◌≡◌, ◌+◌, ◌-◌, ◌*◌, ◌<◌, ◌≤◌, ◌^◌, ◌++◌, MatchResult, OnOk, length, reverse, take};
ghost use Rattle.rc_text.specs.Joined.{joined};
ghost use Rattle.text_chunks.specs.Piles.{Moves};

use crate::pile::Pile;
use std::alloc::{AllocError, Global};
use std::marker::Model;
use thiserror::Error;

/// Why there is no text, or no edit of it.
#[derive(Clone, Copy, Debug, PartialEq, Eq, Error)]
pub enum EditFault {
    /// The edit ends before it begins, or behind the last chunk.
    #[error("the edit is outside of the text")]
    Outside,
    /// The number of bytes would reach the greatest `usize`.
    #[error("the text is too long")]
    TooLong,
    /// Out of memory.
    #[error("out of memory")]
    Memory,
}

impl From<AllocError> for EditFault {
    ghost use Rattle.std.specs.Prelude.{◌≡◌};
    ghost use Rattle.text_chunks.specs.declared.text.EditFault.TheVariants.{Memory};

    ghost from_gives = { λ _ r. r ≡ Memory };

    fn from(_: AllocError) -> EditFault {
        EditFault::Memory
    }
}

/// The chunks of a text, with the positions where they begin. They are borrowed, and none of
/// their bytes is copied.
///
/// A position is found in steps that grow with the logarithm of the number of chunks. An edit takes
/// steps for the chunks that it replaces and puts in, and for those between it and the edit before.
#[derive(Drop)]
pub struct TextChunks<'a> {
    /// The chunks before the gap.
    before: Pile<'a>,
    /// The chunks behind the gap, with the last one lowest.
    after: Pile<'a>,
}

impl<'a> Model for TextChunks<'a> {
    ghost use Rattle.std.specs.Prelude.{ℕ, List, ◌+◌, ◌++◌, ◌<◌, ◌^◌, length, reverse};
    ghost use Rattle.std.specs.Borrow.{Bor};
    ghost use Rattle.rc_text.specs.Joined.{joined};

    ghost Value = { List (Bor (List ℕ)) };

    ghost view = { λ t. t.before ++ reverse t.after };

    ghost invariant = { λ t. length (joined (t.before ++ reverse t.after)) + 1 < 2 ^ 64 };
}

impl<'a> TextChunks<'a> {
    ghost use Rattle.std.specs.Prelude.{◌≡◌, ◌+◌, ◌<◌, ◌≤◌, ◌^◌, IfErr, MatchResult, OnErr, OnOk, length, nat_le, take};
    ghost use Rattle.rc_text.specs.Joined.{chunk_at, joined};
    ghost use Rattle.text_chunks.specs.Edits.{IsEditFault, IsEdited, IsNewFault};
    ghost use Rattle.text_chunks.specs.Piles.{IsAt};

    /// Returns the text of these chunks.
    ///
    /// It fails with `TooLong` if the number of bytes reaches the greatest `usize`.
    pub fn new(alloc: Global, chunks: &[&'a [u8]]) -> Result<TextChunks<'a>, EditFault>
        ensures { MatchResult result (λ t. t ≡ chunks.now) (IsNewFault chunks.now) }
    {
        if bytes_in(chunks) >= usize::MAX as u128 {
            return Err(EditFault::TooLong);
        }
        let mut before = Pile::new(alloc);
        push_all(&mut before, chunks)?;
        Ok(TextChunks {
            before,
            after: Pile::new(alloc),
        })
    }

    /// The number of bytes.
    pub fn len(&self) -> usize
        ensures value { result ≡ length (joined self.now) }
        ensures small { result + 1 < 2 ^ 64 }
        ensures few { length self.now + 1 < 2 ^ 64 }
    {
        self.before.len() + self.after.len()
    }

    /// Replaces the chunks from the index `start` on and before the index `end` by others. An `Err`
    /// leaves the text as it was.
    ///
    /// It fails with `Outside` if `start` is above `end`, or `end` above the number of chunks, and
    /// otherwise with `TooLong` if the number of bytes would reach the greatest `usize`.
    pub fn edit(&mut self, start: usize, end: usize, chunks: &[&'a [u8]]) -> Result<(), EditFault>
        ensures edited { OnOk result (IsEdited self.old start end chunks.now self.new) }
        ensures fault { IfErr result (IsEditFault self.old start end chunks.now) }
        ensures unedited { OnErr result (self.new ≡ self.old) }
    {
        if start > end || !self.has(end) {
            return Err(EditFault::Outside);
        }
        let kept = self.begin_of(start) + (self.len() - self.begin_of(end));
        if kept as u128 + bytes_in(chunks) >= usize::MAX as u128 {
            return Err(EditFault::TooLong);
        }
        move_gap(&mut self.before, &mut self.after, start)?;
        replace_next(&mut self.before, &mut self.after, end - start, chunks)?;
        Ok(())
    }

    /// Whether there are so many chunks, or more.
    fn has(&self, count: usize) -> bool
        ensures { result ≡ nat_le count (length self.now) }
    {
        let front = self.before.count();
        count <= front || count - front <= self.after.count()
    }

    /// The chunk at an index.
    pub(crate) fn get(&self, index: usize) -> &'a [u8]
        requires { index < length self.now }
        ensures bytes { result.now ≡ chunk_at self.now index }
        ensures few { index + 1 < 2 ^ 64 }
    {
        let front = self.before.count();
        if index < front {
            return self.before.get(index);
        }
        self.after.get(self.after.count() - 1 - (index - front))
    }

    /// Where the chunk at an index begins, or the text ends.
    fn begin_of(&self, index: usize) -> usize
        requires { index ≤ length self.now }
        ensures value { result ≡ length (joined (take index self.now)) }
        ensures within { result ≤ length (joined self.now) }
    {
        let front = self.before.count();
        if index <= front {
            return self.before.bytes_in(index);
        }
        let behind = self.after.count() - (index - front);
        self.len() - self.after.bytes_in(behind)
    }

    /// The index of the chunk with the byte `at`.
    fn index_of(&self, at: usize) -> usize
        requires { at < length (joined self.now) }
        ensures { IsAt self.now at result }
    {
        if at < self.before.len() {
            return self.before.index_of(at);
        }
        let above = self.after.index_of(self.len() - 1 - at);
        self.before.count() + (self.after.count() - 1 - above)
    }

    /// The index of the chunk with the byte `at`, and where that chunk begins.
    pub(crate) fn place_of(&self, at: usize) -> (usize, usize)
        requires { at < length (joined self.now) }
        ensures at { IsAt self.now at result.0 }
        ensures begin { result.1 ≡ length (joined (take result.0 self.now)) }
    {
        let index = self.index_of(at);
        (index, self.begin_of(index))
    }
}

/// The number of bytes that the chunks have. No such sum can overflow.
fn bytes_in(chunks: &[&[u8]]) -> u128
    ensures sum { result ≡ length (joined chunks.now) }
    ensures bound { result ≤ length chunks.now * 18446744073709551615 }
{
    let mut sum: u128 = 0;
    for chunk in chunks {
        sum += chunk.len() as u128;
    }
    sum
}

/// Puts chunks on a pile, one after another. An `Err` means out of memory, and leaves some of them
/// on it.
fn push_all<'a>(pile: &mut Pile<'a>, chunks: &[&'a [u8]]) -> Result<(), AllocError>
    requires { length (joined pile.old) + length (joined chunks.now) < 2 ^ 64 }
    ensures { MatchResult result (λ _. pile.new ≡ pile.old ++ chunks.now)
        (λ _. take (length pile.old) pile.new ≡ pile.old) }
{
    for chunk in chunks {
        pile.push(chunk)?;
    }
    Ok(())
}

/// Moves chunks from the top of a pile to that of another, until the first one has `count`. An
/// `Err` means out of memory, and leaves the piles such that it may go on.
fn pour<'a>(from: &mut Pile<'a>, to: &mut Pile<'a>, count: usize) -> Result<(), AllocError>
    requires count { count ≤ length from.old }
    requires fits { length (joined from.old) + length (joined to.old) < 2 ^ 64 }
    ensures moved { Moves from.old to.old from.new to.new }
    ensures left { OnOk result (length from.new ≡ count) }
{
    while from.count() > count {
        let top = from.count() - 1;
        to.push(from.get(top))?;
        from.truncate(top);
    }
    Ok(())
}

/// Moves the gap to an index. An `Err` means out of memory, and leaves it somewhere.
fn move_gap<'a>(before: &mut Pile<'a>, after: &mut Pile<'a>, index: usize) -> Result<(), AllocError>
    requires index { index ≤ length before.old + length after.old }
    requires fits { length (joined before.old) + length (joined after.old) < 2 ^ 64 }
    ensures same { before.new ++ reverse after.new ≡ before.old ++ reverse after.old }
    ensures there { OnOk result (length before.new ≡ index) }
{
    let front = before.count();
    if index < front {
        pour(before, after, index)
    } else {
        let left = after.count() - (index - front);
        pour(after, before, left)
    }
}

/// Replaces the next chunks behind the gap, as many as `count`, by others. An `Err` means out of
/// memory, and leaves everything as it was.
fn replace_next<'a>(
    before: &mut Pile<'a>,
    after: &mut Pile<'a>,
    count: usize,
    chunks: &[&'a [u8]],
) -> Result<(), AllocError>
    requires count { count ≤ length after.old }
    requires fits { length (joined before.old) + length (joined chunks.now) < 2 ^ 64 }
    ensures before { MatchResult result (λ _. before.new ≡ before.old ++ chunks.now)
        (λ _. before.new ≡ before.old) }
    ensures after { MatchResult result
        (λ _. after.new ≡ take (length after.old - count) after.old)
        (λ _. after.new ≡ after.old) }
{
    let front = before.count();
    if push_all(before, chunks).is_err() {
        before.truncate(front);
        return Err(AllocError);
    }
    after.truncate(after.count() - count);
    Ok(())
}
