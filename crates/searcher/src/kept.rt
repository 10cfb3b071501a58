//! Kept text: a prepared text that its owner keeps between calls.
ghost use Rattle.std.specs.Prelude.{◌≡◌};

use crate::parts::Parts;
use std::alloc::Global;
use std::marker::Model;
use text_chunks::{EditFault, TextChunks};

/// A prepared text whose chunks are there for as long as it is. Contracts see it as its chunks.
#[derive(Drop)]
pub struct KeptText {
    text: TextChunks<'static>,
}

impl Model for KeptText {
    ghost use Rattle.std.specs.Prelude.{ℕ, List};
    ghost use Rattle.std.specs.Borrow.{Bor};

    ghost Value = { List (Bor (List ℕ)) };

    ghost view = { λ t. t.text };
}

impl KeptText {
    ghost use Rattle.std.specs.Prelude.{◌≡◌, IfErr, MatchResult, OnErr, OnOk};
    ghost use Rattle.text_chunks.specs.Edits.{IsEditFault, IsEdited, IsNewFault};

    /// Returns the text of these chunks, on the heap.
    ///
    /// It fails with `TooLong` if the number of bytes reaches the greatest `usize`.
    pub fn boxed(alloc: Global, chunks: &[&'static [u8]]) -> Result<Box<KeptText>, EditFault>
        ensures { MatchResult result (λ t. t.value ≡ chunks.now) (IsNewFault chunks.now) }
    {
        let text = TextChunks::new(alloc, chunks)?;
        match Box::new(alloc, KeptText { text }) {
            Ok(kept) => Ok(kept),
            Err(_) => Err(EditFault::Memory),
        }
    }

    /// Replaces the chunks from the index `start` on and before the index `end` by others. An `Err`
    /// leaves the text unchanged.
    pub fn edit(
        &mut self,
        start: usize,
        end: usize,
        chunks: &[&'static [u8]],
    ) -> Result<(), EditFault>
        ensures edited { OnOk result (IsEdited self.old start end chunks.now self.new) }
        ensures fault { IfErr result (IsEditFault self.old start end chunks.now) }
        ensures unedited { OnErr result (self.new ≡ self.old) }
    {
        self.text.edit(start, end, chunks)
    }

    /// The text.
    pub fn text(&self) -> &TextChunks<'static>
        ensures { result.now ≡ self.now }
    {
        &self.text
    }
}

/// Frees a text.
pub fn free_text(text: Box<KeptText>) {
    drop(text);
}

/// Takes apart the box of a text.
pub fn parts_of_text(text: Box<KeptText>) -> Parts<KeptText, Global>
    ensures { result.value ≡ text.value }
{
    Parts::of(text)
}

/// Puts the box of a text together again.
pub fn box_of_text(parts: Parts<KeptText, Global>) -> Box<KeptText>
    ensures { result.value ≡ parts.value }
{
    parts.into_box()
}
