//! Gap buffer: a text that is edited at its caret.

ghost use Rattle.std.specs.Prelude.{◌≡◌, ◌+◌, ◌++◌, ◌≤◌, IfOk, drop, length, take, vec_len};

use crate::cursor::GapCursor;
use regex_cursor::Cursor;
use std::alloc::{AllocError, Global};
use std::marker::Model;

/// The minimum size of a new gap, in bytes.
const LEAST_ROOM: usize = 64;

/// A text that is edited at its caret. The bytes before the caret are before a gap, and the bytes
/// after it are behind the gap, so an edit at the caret moves nothing.
///
/// Positions are in bytes of the text, as if there were no gap.
#[derive(Drop)]
pub struct GapBuffer {
    alloc: Global,
    bytes: Vec<u8>,
    /// Where the gap begins: the caret.
    gap: usize,
    /// Where the bytes behind the gap begin.
    rest: usize,
}

impl Model for GapBuffer {
    ghost use Rattle.std.specs.Prelude.{◌≤◌, ◌++◌, drop, take, vec_len};
    ghost use Rattle.gap_buffer.specs.Edits.{Edited};

    ghost Value = { Edited };

    ghost view = { λ b. record {
      content = take b.gap b.bytes.items ++ drop b.rest b.bytes.items;
      caret = b.gap;
    } };

    ghost invariant = { λ b. (b.gap ≤ b.rest) × (b.rest ≤ vec_len b.bytes) };
}

impl GapBuffer {
    ghost use Rattle.std.specs.Prelude.{◌≡◌, ◌≤◌, Some, [], length, min, nat_eq, MatchResult};
    ghost use Rattle.gap_buffer.specs.Edits.{cut_after, cut_before, inserted};

    /// Returns an empty text. It takes no memory yet.
    pub fn new(alloc: Global) -> GapBuffer
        ensures { result ≡ record { content = []; caret = 0 } }
    {
        GapBuffer {
            alloc,
            bytes: Vec::new(alloc),
            gap: 0,
            rest: 0,
        }
    }

    /// The number of bytes.
    pub fn len(&self) -> usize
        ensures { result ≡ length self.now.content }
    {
        self.bytes.len() - (self.rest - self.gap)
    }

    /// Whether there is no byte.
    pub fn is_empty(&self) -> bool
        ensures { result ≡ nat_eq (length self.now.content) 0 }
    {
        self.len() == 0
    }

    /// Where the next edit is, from 0 to `len`.
    pub fn caret(&self) -> usize
        ensures value { result ≡ self.now.caret }
        ensures within { result ≤ length self.now.content }
    {
        self.gap // the gap begins there
    }

    /// Moves the caret to a position, or to the end if the position is past it. It moves the bytes
    /// between, and takes no memory.
    pub fn move_to(&mut self, at: usize)
        ensures content { self.new.content ≡ self.old.content }
        ensures caret { self.new.caret ≡ min at (length self.old.content) }
    {
        let at = at.min(self.len());
        if at < self.gap {
            let moved = self.gap - at;
            self.bytes.copy_within(at..self.gap, self.rest - moved);
            self.gap = at;
            self.rest -= moved;
        } else {
            let moved = at - self.gap;
            self.bytes
                .copy_within(self.rest..self.rest + moved, self.gap);
            self.gap = at;
            self.rest += moved;
        }
    }

    /// Inserts bytes at the caret, which is behind them then. An `Err` means out of memory, and
    /// leaves the text unchanged.
    pub fn insert(&mut self, bytes: &[u8]) -> Result<(), AllocError>
        ensures { MatchResult result (λ _. self.new ≡ inserted self.old bytes.now)
            (λ _. self.new ≡ self.old) }
    {
        let end = self.gap.saturating_add(bytes.len());
        if end <= self.rest {
            write_at(&mut self.bytes, self.gap, bytes);
            self.gap = end;
            return Ok(());
        }
        let front = &self.bytes[..self.gap];
        let back = &self.bytes[self.rest..];
        let (spread, rest) = spread(self.alloc, front, bytes, back)?;
        self.bytes = spread;
        self.gap = end;
        self.rest = rest;
        Ok(())
    }

    /// Deletes `count` bytes before the caret, or all of them if there are fewer.
    pub fn delete_before(&mut self, count: usize)
        ensures { self.new ≡ cut_before self.old count }
    {
        self.gap = self.gap.saturating_sub(count);
    }

    /// Deletes `count` bytes after the caret, or all of them if there are fewer.
    pub fn delete_after(&mut self, count: usize)
        ensures { self.new ≡ cut_after self.old count }
    {
        self.rest = self.rest.saturating_add(count).min(self.bytes.len());
    }

    /// Returns a cursor over the text, at its start. It shows the bytes in place, on both sides of
    /// the gap.
    pub fn cursor(&self) -> GapCursor<'_>
        ensures content { ⟦<GapCursor<'static> as Cursor>⟧.content result ≡ self.now.content }
        ensures start { ⟦<GapCursor<'static> as Cursor>⟧.offset result ≡ 0 }
        ensures total { ⟦<GapCursor<'static> as Cursor>⟧.total result
            ≡ Some (length self.now.content) }
    {
        GapCursor::new(&self.bytes[..self.gap], &self.bytes[self.rest..])
    }
}

/// Overwrites the bytes from a position on with the text.
fn write_at(bytes: &mut Vec<u8>, at: usize, text: &[u8])
    requires { at + length text.now ≤ vec_len bytes.old }
    ensures items { bytes.new.items ≡ take at bytes.old.items ++ text.now
        ++ drop (at + length text.now) bytes.old.items }
    ensures len { vec_len bytes.new ≡ vec_len bytes.old }
{
    bytes[at..at + text.len()].copy_from_slice(text);
}

/// A new buffer: the front, the inserted bytes, a gap that is no shorter than all of these, and the
/// back. With it comes the position at which the back begins.
fn spread(
    alloc: Global,
    front: &[u8],
    inserted: &[u8],
    back: &[u8],
) -> Result<(Vec<u8>, usize), AllocError>
    ensures front { IfOk result (λ r. take (length front.now + length inserted.now) r.0.items
        ≡ front.now ++ inserted.now) }
    ensures back { IfOk result (λ r. drop r.1 r.0.items ≡ back.now) }
    ensures ordered { IfOk result (λ r. length front.now + length inserted.now ≤ r.1) }
    ensures within { IfOk result (λ r. r.1 ≤ vec_len r.0) }
{
    let mut bytes = Vec::new(alloc);
    bytes.extend_from_slice(front)?;
    bytes.extend_from_slice(inserted)?;
    let room = bytes.len().saturating_add(back.len()).max(LEAST_ROOM);
    bytes.resize(bytes.len().saturating_add(room), 0)?;
    let rest = bytes.len();
    bytes.extend_from_slice(back)?;
    Ok((bytes, rest))
}
