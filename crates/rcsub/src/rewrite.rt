//! Replacement: the texts in which each match of a pattern is replaced by a template.
ghost use Rattle.std.specs.Prelude.{◌≡◌, ℕ, List, IfOk, IfSome, IsTrue, IsUtf8, OnOk, ◌↔◌, ◌++◌, ◌<◌, ◌≤◌, false, length, take};
ghost use Rattle.std.specs.Io.BufRead.{strip_last};
ghost use Rattle.std.specs.Io.KnownBytes.{Appends, Consumes, IsAtEnd};
ghost use Rattle.rcsub.specs.Replaced.{IsReplaced, Rewrites, RewritesLines, RewritesBy, newline_of};

use crate::replacer::Replacer;
use crate::streamed::Streamed;
use buffered_sink::BufferedSink;
use chunk_replace::{ReplaceError, replace_all};
use regex_cursor::run::{Sink, put_all};
use std::alloc::{AllocError, Global};
use std::io;
use std::io::{BufRead, BufReader, ErrorKind, Read, Write};

/// The length of the pages in which a text is read, in bytes.
const PAGE: usize = 65_536;

/// Why a text wasn't replaced to its end.
#[derive(Drop)]
pub enum Fault {
    /// The input failed, or there was no memory for it.
    Read(io::Error),
    /// The text has as many bytes as the greatest `usize`.
    TooLong,
    /// Out of memory.
    Memory,
    /// The output failed.
    Write(io::Error),
}

impl From<io::Error> for Fault {
    fn from(fault: io::Error) -> Fault {
        Fault::Read(fault)
    }
}

impl From<ReplaceError> for Fault {
    fn from(fault: ReplaceError) -> Fault {
        match fault {
            ReplaceError::TooLong => Fault::TooLong,
            ReplaceError::Memory => Fault::Memory,
            ReplaceError::Write => Fault::Write(io::Error::from(ErrorKind::Other)),
        }
    }
}

impl From<AllocError> for Fault {
    fn from(_: AllocError) -> Fault {
        Fault::Memory
    }
}

/// Reads some bytes into the page, and returns how many. There are none only at the end. A read that
/// is interrupted is made again.
fn read_page<R: Read>(input: &mut R, page: &mut [u8]) -> io::Result<usize>
    requires { 0 < length page.old }
    ensures bound { IfOk result (λ n. n ≤ length page.new) }
    ensures long { length page.new ≡ length page.old }
    ensures read { IfOk result (λ n. Consumes (R.remaining input.old) (R.remaining input.new)
        (take n page.new) × (n ≡ 0 → IsAtEnd (R.remaining input.new))) }
{
    for _turn in 0..u64::MAX {
        match input.read(page) {
            Err(fault) if fault.kind() == ErrorKind::Interrupted => {}
            done => return done,
        }
    }
    Err(io::Error::from(ErrorKind::Other))
}

/// Whether the bytes are UTF-8.
fn is_utf8(bytes: &[u8]) -> bool
    ensures { IsTrue result ↔ IsUtf8 bytes.now }
{
    std::str::from_utf8(bytes).is_ok()
}

/// A line, without its newline, and the newline, or nothing if the line has none.
fn split_ending(line: &[u8]) -> (&[u8], &[u8])
    ensures body { result.0.now ≡ strip_last 10 line.now }
    ensures ending { result.1.now ≡ newline_of line.now }
{
    match line.strip_suffix(b"\n") {
        Some(body) => (body, b"\n"),
        None => (line, &[]),
    }
}

impl Replacer<'_> {
    /// Writes the text with each match replaced, and returns the number of matches. After an `Err`
    /// a part of it was written, from its start on.
    fn replace<W: Sink>(
        &self,
        alloc: Global,
        text: &[u8],
        out: &mut W,
    ) -> Result<usize, ReplaceError>
        requires { W.has_failed out.old ≡ false }
        ensures put { IfOk result (λ n. (put : List ℕ) × IsReplaced self.now text.now put n
            × Appends (W.taken out.old) (W.taken out.new) put) }
        ensures sound { OnOk result (W.has_failed out.new ≡ false) }
    {
        let chunks = std::slice::from_ref(&text);
        if is_utf8(text) {
            replace_all(alloc, &self.over_utf8, chunks, &self.template, out)
        } else {
            replace_all(alloc, &self.over_bytes, chunks, &self.template, out)
        }
    }

    /// Writes a line with each match replaced, and its newline if it has one. Returns the number of
    /// matches.
    fn replace_line<W: Sink>(
        &self,
        alloc: Global,
        line: &[u8],
        out: &mut W,
    ) -> Result<usize, ReplaceError>
        requires { W.has_failed out.old ≡ false }
        ensures put { IfOk result (λ n. (put : List ℕ) × IsReplaced self.now (strip_last 10 line.now) put n
            × Appends (W.taken out.old) (W.taken out.new)
            (put ++ newline_of line.now)) }
        ensures sound { OnOk result (W.has_failed out.new ≡ false) }
    {
        let (body, ending) = split_ending(line);
        let count = self.replace(alloc, body, out)?;
        match put_all(out, ending) {
            Ok(()) => Ok(count),
            Err(_) => Err(ReplaceError::Write),
        }
    }

    /// Writes what is left of a reader, as a text with each match replaced, and returns whether
    /// there was one. The text is in memory as a whole.
    fn rewrite<R: Read, W: Sink>(
        &self,
        alloc: Global,
        input: &mut R,
        out: &mut W,
    ) -> Result<bool, Fault>
        requires { W.has_failed out.old ≡ false }
        ensures put { IfOk result (λ any. IfSome (R.remaining input.old) (λ text.
            Rewrites self.now text
            (W.taken out.old) (W.taken out.new) any)) }
        ensures sound { OnOk result (W.has_failed out.new ≡ false) }
    {
        let mut text = Vec::new(alloc);
        input.read_to_end(&mut text)?;
        let count = self.replace(alloc, &text, out)?;
        Ok(count > 0)
    }

    /// Writes what is left of a reader as it comes in, as a text with each match replaced, and
    /// returns whether there was one. What is in memory is a page, and the bytes of the match that
    /// is under way, or up to twice as many.
    fn rewrite_stream<R: Read, W: Sink>(
        &self,
        alloc: Global,
        input: &mut R,
        out: &mut W,
    ) -> Result<bool, Fault>
        requires sound { W.has_failed out.old ≡ false }
        requires filled { self.now.may_be_empty ≡ false }
        ensures put { IfOk result (λ any. IfSome (R.remaining input.old) (λ text.
            Rewrites self.now text
            (W.taken out.old) (W.taken out.new) any)) }
        ensures sound { OnOk result (W.has_failed out.new ≡ false) }
    {
        let mut streamed = Streamed::new(alloc, &self.over_bytes)?;
        let mut page = vec![in alloc; 0; PAGE]?;
        for _page in 0..u64::MAX {
            let count = read_page(input, &mut page)?;
            if count == 0 {
                return streamed.put_last(&self.template, out);
            }
            streamed.feed(&page[..count])?;
            streamed.put_due(&self.template, out)?;
        }
        Err(Fault::Read(io::Error::from(ErrorKind::Other)))
    }

    /// Writes what is left of a reader, as a text with each match replaced, and returns whether
    /// there was one. A text is in memory as a whole only if the pattern may match nothing.
    fn rewrite_text<R: Read, W: Sink>(
        &self,
        alloc: Global,
        input: &mut R,
        out: &mut W,
    ) -> Result<bool, Fault>
        requires { W.has_failed out.old ≡ false }
        ensures put { IfOk result (λ any. IfSome (R.remaining input.old) (λ text.
            Rewrites self.now text
            (W.taken out.old) (W.taken out.new) any)) }
        ensures sound { OnOk result (W.has_failed out.new ≡ false) }
    {
        if self.may_be_empty {
            return self.rewrite(alloc, input, out);
        }
        self.rewrite_stream(alloc, input, out)
    }

    /// Writes the lines that are left of a reader, each as a text of its own with each match
    /// replaced, and returns whether there was one. One line is in memory at a time.
    fn rewrite_lines<R: BufRead, W: Sink>(
        &self,
        alloc: Global,
        input: &mut R,
        out: &mut W,
    ) -> Result<bool, Fault>
        requires { W.has_failed out.old ≡ false }
        ensures put { IfOk result (λ any. IfSome (R.remaining input.old) (λ text.
            RewritesLines self.now text
            (W.taken out.old) (W.taken out.new) any)) }
        ensures sound { OnOk result (W.has_failed out.new ≡ false) }
    {
        let mut line = Vec::new(alloc);
        let mut any = false;
        for _read in 0..u64::MAX {
            line.clear();
            if input.read_until(b'\n', &mut line)? == 0 {
                return Ok(any);
            }
            let count = self.replace_line(alloc, &line, out)?;
            any |= count > 0;
        }
        Err(Fault::Read(io::Error::from(ErrorKind::Other)))
    }

    /// Writes what is left of a reader with each match replaced, by line or as a whole, and returns
    /// whether there was one.
    fn rewrite_by<R: Read + Drop, W: Sink>(
        &self,
        alloc: Global,
        by_line: bool,
        mut input: R,
        out: &mut W,
    ) -> Result<bool, Fault>
        requires { W.has_failed out.old ≡ false }
        ensures put { IfOk result (λ any. IfSome (R.remaining input) (λ text.
            RewritesBy by_line self.now text
            (W.taken out.old) (W.taken out.new) any)) }
    {
        if !by_line {
            return self.rewrite_text(alloc, &mut input, out);
        }
        let mut reader = BufReader::with_capacity(alloc, PAGE, input)?;
        self.rewrite_lines(alloc, &mut reader, out)
    }

    /// Writes what is left of a reader with each match replaced, and returns whether there was one,
    /// and the writer, once all was written. By line each line is a text of its own, and one is in
    /// memory at a time. Else all is one text: it is in memory as a whole if the pattern may match
    /// nothing, and otherwise it is written as it comes in. After an `Err` a part of it was written,
    /// from its start on.
    pub fn rewrite_over<R: Read + Drop, W: Write + Drop>(
        &self,
        alloc: Global,
        by_line: bool,
        input: R,
        out: W,
    ) -> Result<(bool, W), Fault>
        ensures { IfOk result (λ r. IfSome (R.remaining input) (λ text.
            RewritesBy by_line self.now text
            (W.contents out) (W.contents r.1) r.0)) }
    {
        let mut sink = BufferedSink::new(alloc, out)?;
        let done = self.rewrite_by(alloc, by_line, input, &mut sink);
        match sink.into_inner() {
            Ok(out) => Ok((done?, out)),
            Err(fault) => Err(Fault::Write(fault)),
        }
    }
}
