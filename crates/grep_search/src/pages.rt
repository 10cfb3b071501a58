//! Pages: a text that is read as a whole.

use std::alloc::{AllocFailed, Global};
use std::io;
use std::io::{BufRead, ErrorKind, Read};

/// The length of the pages in which a file is read, in bytes.
const PAGE: usize = 65_536;

/// The least length of such a page.
const LEAST_PAGE: usize = 4_096;

/// The length of the pages of a file that has so many bytes, if that is known: a short file is one
/// page, and no more memory is taken. A file that tells no bytes may have some.
pub fn page_len(size: Option<u64>) -> usize {
    match size {
        Some(size) if 0 < size && size < PAGE as u64 => (size as usize).max(LEAST_PAGE),
        _ => PAGE,
    }
}

/// Reads what is left of a reader. No page is empty.
pub fn read_pages<R: Read>(alloc: Global, reader: &mut R) -> io::Result<Vec<Vec<u8>>> {
    let mut pages = Vec::new(alloc);
    for _ in 0..u64::MAX {
        // with a byte more it needn't grow when it is full
        let mut page = Vec::with_capacity(alloc, PAGE + 1)?;
        if Read::take(&mut *reader, PAGE as u64).read_to_end(&mut page)? == 0 {
            return Ok(pages);
        }
        pages.push(page)?;
    }
    Err(io::Error::from(ErrorKind::Other))
}

/// The bytes of the pages.
pub fn bytes_of(alloc: Global, pages: &[Vec<u8>]) -> io::Result<Vec<&[u8]>> {
    let mut chunks = Vec::new(alloc);
    for page in pages {
        chunks.push(page.as_slice())?;
    }
    Ok(chunks)
}

/// A reader of pages, one after another. None of them is empty.
#[derive(Drop)]
pub struct PageReader<'p> {
    pages: &'p [&'p [u8]],
    /// The number of the page that is read.
    index: usize,
    /// How many bytes of it were read.
    from: usize,
}

impl<'p> PageReader<'p> {
    /// Returns a reader of these pages.
    pub fn new(pages: &'p [&'p [u8]]) -> PageReader<'p> {
        PageReader {
            pages,
            index: 0,
            from: 0,
        }
    }

    /// What is left of the page that is read. It is empty at the end alone.
    fn left(&self) -> &[u8] {
        match self.pages.get(self.index) {
            Some(page) => page.get(self.from..).unwrap_or(&[]),
            None => &[],
        }
    }
}

impl Read for PageReader<'_> {
    fn read(&mut self, bytes: &mut [u8]) -> io::Result<usize> {
        let mut left = self.left();
        let count = left.read(bytes)?;
        self.consume(count);
        Ok(count)
    }
}

impl BufRead for PageReader<'_> {
    fn fill_buf(&mut self) -> io::Result<&[u8]> {
        Ok(self.left())
    }

    fn consume(&mut self, amount: usize) {
        if amount < self.left().len() {
            self.from = self.from.saturating_add(amount);
        } else {
            self.index = self.index.saturating_add(1);
            self.from = 0;
        }
    }
}
