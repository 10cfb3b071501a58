//! Pile: chunks one above another, each with the number of bytes below it.

use std::alloc::{AllocError, Global};
use std::marker::Model;

/// Chunks one above another. The number of bytes below each is known.
#[derive(Drop)]
pub(crate) struct Pile<'a> {
    chunks: Vec<&'a [u8]>,
    /// For each chunk the number of bytes in the chunks below it.
    below: Vec<usize>,
    /// The number of bytes in all chunks.
    len: usize,
}

impl<'a> Model for Pile<'a> {
    ghost use Rattle.std.specs.Prelude.{ℕ, List};
    ghost use Rattle.std.specs.Borrow.{Bor};
    ghost use Rattle.text_chunks.specs.Piles.{IsPile};

    ghost Value = { List (Bor (List ℕ)) };

    ghost view = { λ p. p.chunks.items };

    ghost invariant = { λ p. IsPile p.chunks.items p.below.items p.len };
}

impl<'a> Pile<'a> {
    ghost use Rattle.std.specs.Prelude.{◌≡◌, ◌+◌, ◌<◌, ◌≤◌, ◌^◌, ◌++◌, ◌∷◌, [], length, slice_index_or, take, MatchResult};
    ghost use Rattle.rc_text.specs.Joined.{chunk_at, joined};
    ghost use Rattle.text_chunks.specs.Piles.{IsAt};

    /// Returns a pile of no chunk. It takes no memory yet.
    pub(crate) fn new(alloc: Global) -> Pile<'a>
        ensures { result ≡ [] }
    {
        Pile {
            chunks: Vec::new(alloc),
            below: Vec::new(alloc),
            len: 0,
        }
    }

    /// The number of chunks.
    pub(crate) fn count(&self) -> usize
        ensures value { result ≡ length self.now }
        ensures small { result < 2 ^ 63 }
    {
        self.chunks.len()
    }

    /// The number of bytes.
    pub(crate) fn len(&self) -> usize
        ensures value { result ≡ length (joined self.now) }
        ensures few { length self.now < 2 ^ 63 }
    {
        self.len
    }

    /// The chunk at an index, from the lowest on.
    pub(crate) fn get(&self, index: usize) -> &'a [u8]
        requires { index < length self.now }
        ensures same { result ≡ slice_index_or self.now index result }
        ensures bytes { result.now ≡ chunk_at self.now index }
    {
        self.chunks[index]
    }

    /// The number of bytes in the first chunks, as many as `count`.
    pub(crate) fn bytes_in(&self, count: usize) -> usize
        requires { count ≤ length self.now }
        ensures { result ≡ length (joined (take count self.now)) }
    {
        if count == self.below.len() {
            return self.len;
        }
        self.below[count]
    }

    /// Puts a chunk on top. An `Err` means out of memory, and leaves the pile as it was.
    pub(crate) fn push(&mut self, chunk: &'a [u8]) -> Result<(), AllocError>
        requires { length (joined self.old) + length chunk.now < 2 ^ 64 }
        ensures { MatchResult result (λ _. self.new ≡ self.old ++ chunk.entry ∷ [])
            (λ _. self.new ≡ self.old) }
    {
        self.below.push(self.len)?;
        if self.chunks.push(chunk).is_err() {
            self.below.pop();
            return Err(AllocError);
        }
        self.len += chunk.len();
        Ok(())
    }

    /// Takes chunks from the top until there are `count`, or fewer.
    pub(crate) fn truncate(&mut self, count: usize)
        ensures { self.new ≡ take count self.old }
    {
        if count >= self.chunks.len() {
            return;
        }
        self.len = self.below[count];
        self.chunks.truncate(count);
        self.below.truncate(count);
    }

    /// The index of the chunk with the byte `at`, from the lowest on.
    pub(crate) fn index_of(&self, at: usize) -> usize
        requires { at < length (joined self.now) }
        ensures { IsAt self.now at result }
    {
        let mut low = 0;
        let mut high = self.below.len();
        while high - low > 1 {
            let middle = low + (high - low) / 2;
            if self.below[middle] <= at {
                low = middle;
            } else {
                high = middle;
            }
        }
        low
    }
}
