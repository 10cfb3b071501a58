//! Pages in memory, and which of them is read anew next.
ghost use Rattle.std.specs.Prelude.{◌≡◌, ◌+◌, ◌<◌, ◌≤◌, ◌^◌, ◌⊎◌, IfNone, IfOk, IfSome, MatchOption, MatchResult, drop, length, take, true, slice_get, Some, vec_capacity, vec_len};
ghost use Rattle.paged_file.specs.Kept.{AreHeld, Fetched, IsHeld, IsOldest, IsRead, NoneAt, room_of};
ghost use Rattle.paged_file.specs.Stored.{Fails, fault_of};

use crate::pages::{Pages, ReadFault};
use std::alloc::{AllocError, Global};

/// Room for a page.
#[derive(Drop)]
pub(crate) struct Page {
    /// Where the held page begins, in bytes of the file.
    pub(crate) offset: usize,
    /// The number of bytes that it holds.
    pub(crate) len: usize,
    pub(crate) bytes: Vec<u8>,
    /// The number of its read, by which pages are ordered.
    pub(crate) number: u64,
}

impl Page {
    /// Room for a page of `page_len` bytes, which holds none yet.
    pub(crate) fn new(alloc: Global, page_len: usize) -> Result<Page, AllocError>
        ensures len { IfOk result (λ p. p.len ≡ 0) }
        ensures offset { IfOk result (λ p. p.offset ≡ 0) }
        ensures room { IfOk result (λ p. length p.bytes.items ≡ page_len) }
    {
        let mut bytes = Vec::new(alloc);
        bytes.resize(page_len, 0)?;
        Ok(Page {
            offset: 0,
            len: 0,
            bytes,
            number: 0,
        })
    }

    /// Reads the page at a position, in place of the held one. It holds nothing if no byte can be
    /// read there.
    pub(crate) fn read<P: Pages>(&mut self, file: &mut P, at: usize) -> Result<(), ReadFault>
        requires room { 0 < length self.old.bytes.items }
        ensures stored { P.stored file.new ≡ P.stored file.old }
        ensures small { length (P.stored file.old).bytes + 1 < 2 ^ 64 }
        ensures offset { self.new.offset ≡ at }
        ensures room { length self.new.bytes.items ≡ length self.old.bytes.items }
        ensures capacity { vec_capacity self.new.bytes ≡ vec_capacity self.old.bytes }
        ensures number { self.new.number ≡ self.old.number }
        ensures within { self.new.len ≤ length self.old.bytes.items }
        ensures bytes { take self.new.len self.new.bytes.items
            ≡ take (length self.old.bytes.items) (drop at (P.stored file.old).bytes) }
        ensures gives { MatchResult result
            (λ _. self.new.len ≡ 0 → (P.stored file.old).is_whole ≡ true)
            (Fails (P.stored file.old) at) }
    {
        self.offset = at;
        self.len = 0;
        self.len = file.read(at, &mut self.bytes)?;
        Ok(())
    }
}

/// The pages in memory that aren't shown.
#[derive(Drop)]
pub(crate) struct Spares {
    pub(crate) pages: Vec<Page>,
    /// The number of the last read.
    pub(crate) reads: u64,
}

impl Spares {
    /// Room for `count` pages.
    pub(crate) fn new(alloc: Global, count: usize, page_len: usize) -> Result<Spares, AllocError>
        requires some { 0 < count }
        ensures count { IfOk result (λ s. vec_len s.pages ≡ count) }
        ensures held { (bytes : _) → IfOk result (λ s. AreHeld bytes page_len s.pages.items) }
    {
        let mut pages = Vec::new(alloc);
        for _ in 0..count {
            pages.push(Page::new(alloc, page_len)?)?;
        }
        Ok(Spares { pages, reads: 0 })
    }

    /// The index in memory of the page at a position.
    fn find(&self, at: usize) -> Option<usize>
        ensures page { IfSome result (λ slot. IfSome (slice_get self.now.pages.items slot)
            (λ p. (p.offset ≡ at) × (0 < p.len))) }
        ensures none { IfNone result (NoneAt at self.now.pages.items) }
        ensures within { IfSome result (λ slot. slot < vec_len self.now.pages) }
    {
        for (slot, page) in self.pages.iter().enumerate() {
            if page.offset == at && page.len > 0 {
                return Some(slot);
            }
        }
        None
    }

    /// Which page was read longest ago.
    fn oldest(&self) -> usize
        requires some { 0 < vec_len self.now.pages }
        ensures within { result < vec_len self.now.pages }
        ensures least { IsOldest self.now.pages.items result }
    {
        let mut oldest = 0;
        for slot in 1..self.pages.len() {
            if self.pages[slot].number < self.pages[oldest].number {
                oldest = slot;
            }
        }
        oldest
    }

    /// The index in memory of the page at a position; the page is read if it isn't there. `None`
    /// means the end of the file: there is no byte.
    pub(crate) fn fetch<P: Pages>(
        &mut self,
        file: &mut P,
        at: usize,
        page_len: usize,
    ) -> Result<Option<usize>, ReadFault>
        requires some { 0 < page_len }
        requires held { AreHeld (P.stored file.old).bytes page_len self.old.pages.items }
        ensures stored { P.stored file.new ≡ P.stored file.old }
        ensures count { vec_len self.new.pages ≡ vec_len self.old.pages }
        ensures held { AreHeld (P.stored file.old).bytes page_len self.new.pages.items }
        ensures gives { MatchResult result
            (λ o. Fetched (P.stored file.old) at o self.new.pages.items)
            (Fails (P.stored file.old) at) }
        ensures goes { IfOk result (λ o. IfSome o
            (λ slot. (self.new ≡ self.old) ⊎ IsRead at self.old self.new slot)) }
        ensures room { room_of self.new.pages.items ≡ room_of self.old.pages.items }
        ensures entries { vec_capacity self.new.pages ≡ vec_capacity self.old.pages }
    {
        if let Some(slot) = self.find(at) {
            return Ok(Some(slot));
        }
        let slot = self.oldest();
        let page = &mut self.pages[slot];
        page.read(file, at)?;
        if page.len == 0 {
            return Ok(None);
        }
        self.reads = self.reads.saturating_add(1);
        self.pages[slot].number = self.reads;
        Ok(Some(slot))
    }

    /// Reads from a position on to the end of the file, or to what can't be read.
    pub(crate) fn read_on<P: Pages>(
        &mut self,
        file: &mut P,
        from: usize,
        page_len: usize,
    ) -> Result<(), ReadFault>
        requires some { 0 < page_len }
        requires small { length (P.stored file.old).bytes + 1 < 2 ^ 64 }
        requires held { AreHeld (P.stored file.old).bytes page_len self.old.pages.items }
        ensures stored { P.stored file.new ≡ P.stored file.old }
        ensures count { vec_len self.new.pages ≡ vec_len self.old.pages }
        ensures held { AreHeld (P.stored file.old).bytes page_len self.new.pages.items }
        ensures room { room_of self.new.pages.items ≡ room_of self.old.pages.items }
        ensures entries { vec_capacity self.new.pages ≡ vec_capacity self.old.pages }
        ensures end { MatchResult result
            (λ _. (P.stored file.old).is_whole ≡ true)
            (λ f. fault_of (P.stored file.old) ≡ Some f) }
    {
        let mut at = from;
        while let Some(slot) = self.fetch(file, at, page_len)? {
            at += self.pages[slot].len;
        }
        Ok(())
    }
}
