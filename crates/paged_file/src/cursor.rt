//! Paged cursor: a cursor over a file that is read a page at a time.
ghost use Rattle.std.specs.Prelude.{◌≡◌, ◌+◌, ◌<◌, ◌≤◌, IfOk, IfSome, MatchBool, None, Some, drop, false, length, max, take, true};
ghost use Rattle.paged_file.specs.Kept.{IsEnd, IsMet, IsStart, Paged, Same, Shown};
ghost use Rattle.paged_file.specs.Stored.{fault_of};
ghost use Rattle.rc_text.specs.Piece.{GoesBack, GoesOn, Shows};

use crate::page::{Page, Spares};
use crate::pages::{Pages, ReadFault};
use rc_text::cursor::Cursor;
use std::alloc::{AllocError, Global};
use std::marker::Model;
use std::mem;

/// A cursor over the readable bytes of a file: all of them, or those before the first position that
/// can't be read.
///
/// It shows a page at a time, and keeps a fixed number of pages in memory. If you go to a page that
/// isn't in memory, it is read, and replaces the page that was read longest ago. That is never the
/// shown page.
///
/// If a read fails, the content ends, so a search returns what it finds in the text before that
/// position, and `failure` returns the fault. A move takes no memory.
#[derive(Drop)]
pub struct PagedCursor<P: Pages> {
    file: P,
    page_len: usize,
    shown: Page,
    spares: Spares,
    failure: Option<ReadFault>,
}

impl<P: Pages> Model for PagedCursor<P> {
    ghost use Rattle.std.specs.Prelude.{◌+◌, take, vec_capacity, vec_len};
    ghost use Rattle.paged_file.specs.Kept.{AreHeld, IsMet, IsShown, Paged, room_of};

    ghost Value = { Paged };

    ghost view = { λ c. record {
      stored = P.stored c.file;
      page_len = c.page_len;
      pages = vec_len c.spares.pages + 1;
      chunk = take c.shown.len c.shown.bytes.items;
      offset = c.shown.offset;
      failure = c.failure;
      room = record { bytes = vec_capacity c.shown.bytes + room_of c.spares.pages.items; entries = vec_capacity c.spares.pages };
    } };

    ghost invariant = { λ c. IsShown (P.stored c.file) c.page_len c.shown
        × AreHeld (P.stored c.file).bytes c.page_len c.spares.pages.items
        × IsMet (P.stored c.file) c.failure };
}

impl<P: Pages> PagedCursor<P> {
    /// Returns a cursor that shows the first page of the file. It keeps `pages` pages of `page_len`
    /// bytes in memory: at least two, of at least one byte.
    ///
    /// An `Err` means out of memory. Moves take no memory.
    pub fn new(
        alloc: Global,
        mut file: P,
        page_len: usize,
        pages: usize,
    ) -> Result<PagedCursor<P>, AllocError>
    where
        P: Drop,
        ensures stored { IfOk result (λ c. c.stored ≡ P.stored file) }
        ensures page_len { IfOk result (λ c. c.page_len ≡ max page_len 1) }
        ensures pages { IfOk result (λ c. c.pages ≡ max pages 2) }
        ensures start { IfOk result (λ c. c.offset ≡ 0) }
        ensures failure { IfOk result (λ c. length c.stored.bytes ≡ 0
            → c.failure ≡ fault_of c.stored) }
    {
        let page_len = page_len.max(1);
        let mut shown = Page::new(alloc, page_len)?;
        let spares = Spares::new(alloc, pages.max(2) - 1, page_len)?;
        let failure = shown.read(&mut file, 0).err();
        Ok(PagedCursor {
            file,
            page_len,
            shown,
            spares,
            failure,
        })
    }

    /// The number of pages that it keeps in memory, the shown one among them.
    pub fn pages(&self) -> usize
        ensures { result ≡ self.now.pages }
    {
        self.spares.pages.len() + 1
    }

    /// The number of bytes of a page in memory.
    pub fn page_len(&self) -> usize
        ensures len { result ≡ self.now.page_len }
        ensures chunk { length self.now.chunk ≤ result }
    {
        self.page_len // that it was made with
    }

    /// The fault at which the content ends, or `None` if none was found so far. Once `advance` has
    /// returned false, `None` means that the content is the whole file.
    pub fn failure(&self) -> Option<ReadFault>
        ensures value { result ≡ self.now.failure }
        ensures met { IsMet self.now.stored result }
    {
        self.failure // the one that a move met
    }

    /// Reads on to the end, and returns the fault there, or `None` if the whole file can be read.
    /// The cursor shows the same page afterwards.
    pub fn check(&mut self) -> Option<ReadFault>
        ensures fault { result ≡ fault_of self.old.stored }
        ensures same { self.new ≡ record self.old { failure = fault_of self.old.stored } }
    {
        let end = self.shown.offset + self.shown.len;
        let read = self.spares.read_on(&mut self.file, end, self.page_len);
        self.failure = read.err();
        self.failure
    }

    /// Shows the page at a position, if there is a byte.
    fn show(&mut self, at: usize) -> bool
        requires start { at < length self.old.stored.bytes → IsStart self.old.page_len at }
        ensures same { Same self.old self.new }
        ensures shown { MatchBool result (Shown self.old at self.new) (IsEnd self.old at self.new) }
    {
        match self.spares.fetch(&mut self.file, at, self.page_len) {
            Ok(Some(slot)) => {
                mem::swap(&mut self.shown, &mut self.spares.pages[slot]);
                true
            }
            Ok(None) => false,
            Err(fault) => {
                self.failure = Some(fault);
                false
            }
        }
    }
}

impl<P: Pages> Cursor for PagedCursor<P> {
    ghost content = { λ s. s.stored.bytes };

    ghost chunk = { λ s. s.chunk };

    ghost offset = { λ s. s.offset };

    ghost total = { λ _. None };

    fn chunk(&self) -> &[u8] {
        &self.shown.bytes[..self.shown.len]
    }

    fn advance(&mut self) -> bool
        ensures content { self.new.stored.bytes ≡ self.old.stored.bytes }
        ensures moved { GoesOn result self.old.stored.bytes self.old.offset self.old.chunk
            self.new.offset self.new.chunk }
        ensures was { Shows self.old.stored.bytes self.old.offset self.old.chunk }
        ensures shows { Shows self.old.stored.bytes self.new.offset self.new.chunk }
        ensures same { Same self.old self.new }
        ensures failure { result ≡ false → self.new.failure ≡ fault_of self.old.stored }
        ensures kept { result ≡ true → self.new.failure ≡ self.old.failure }
    {
        self.show(self.shown.offset + self.shown.len)
    }

    fn backtrack(&mut self) -> bool
        ensures content { self.new.stored.bytes ≡ self.old.stored.bytes }
        ensures moved { GoesBack result self.old.offset self.old.chunk self.new.offset
            self.new.chunk }
        ensures was { Shows self.old.stored.bytes self.old.offset self.old.chunk }
        ensures shows { Shows self.old.stored.bytes self.new.offset self.new.chunk }
        ensures same { Same self.old self.new }
        ensures kept { self.new.failure ≡ self.old.failure }
    {
        if self.shown.offset == 0 {
            return false;
        }
        self.show(self.shown.offset - self.page_len)
    }

    fn total_bytes(&self) -> Option<usize> {
        None // it is found by going there
    }

    fn offset(&self) -> usize {
        self.shown.offset // in the file
    }
}
