//! Records of JSON: a file's beginning, its lines with their matches, and its end.
ghost use Rattle.std.specs.Prelude.{◌≡◌, IfErr, None, OnOk, [], ◌∷◌, ⊤};
ghost use Rattle.grep_lines.specs.Context.{Prints};
ghost use Rattle.grep_lines.specs.Context.Part.{separator};

use crate::finder::MatchFinder;
use crate::json::{put_data, put_head};
use crate::output::Output;
use grep_lines::LinePrinter;
use rc_text::types::Span;
use std::alloc::Global;
use std::io;
use std::io::Write;

/// A line whose record isn't written yet: it isn't known whether a terminator stands behind it.
#[derive(Drop)]
pub struct Pending {
    number: u64,
    place: u128,
    is_selected: bool,
    /// The line, with a terminator behind it.
    line: Vec<u8>,
    /// Where its matches are.
    matches: Vec<Span>,
}

impl Pending {
    /// Writes a match in the line as an object.
    fn put_match<W: Write>(&self, alloc: Global, out: &mut W, found: Span) -> io::Result<()> {
        let start = found.start;
        let end = found.end;
        out.write_all(b"{\"match\":")?;
        put_data(alloc, out, self.line.get(start..end).unwrap_or(&[]))?;
        write!(out, ",\"start\":{start},\"end\":{end}}}")
    }

    /// Writes the record of the line.
    fn put<W: Write>(&self, alloc: Global, out: &mut W, name: &str) -> io::Result<()> {
        let kind = if self.is_selected { "match" } else { "context" };
        put_head(out, kind, name)?;
        out.write_all(b",\"lines\":")?;
        put_data(alloc, out, &self.line)?;
        let number = self.number;
        let place = self.place;
        write!(
            out,
            ",\"line_number\":{number},\"absolute_offset\":{place},\"submatches\":["
        )?;
        let mut mark: &str = "";
        for found in &self.matches {
            out.write_all(mark.as_bytes())?;
            self.put_match(alloc, out, *found)?;
            mark = ",";
        }
        out.write_all(b"]}}\n")
    }
}

/// The records of files, as far as they were written.
#[derive(Drop)]
pub struct Records {
    alloc: Global,
    /// Whether the first record of a file was written, and not its last one.
    has_begun: bool,
    /// The line that was printed last.
    pending: Option<Pending>,
}

impl Records {
    /// No record was written.
    pub fn new(alloc: Global) -> Records {
        Records {
            alloc,
            has_begun: false,
            pending: None,
        }
    }

    /// Writes the record of the last line, and before the first one that of the file.
    fn put_pending<W: Write>(&mut self, out: &mut W, name: &str) -> io::Result<()> {
        let Some(pending) = self.pending.take() else {
            return Ok(());
        };
        if !self.has_begun {
            self.has_begun = true;
            put_head(out, "begin", name)?;
            out.write_all(b"}}\n")?;
        }
        let written = pending.put(self.alloc, out, name);
        drop(pending);
        written
    }

    /// Takes a line, whose record is written later, behind that of the line before it.
    pub fn take<W: Write>(&mut self, out: &mut W, name: &str, line: Pending) -> io::Result<()> {
        let written = self.put_pending(out, name);
        self.pending = Some(line);
        written
    }

    /// Writes the record of the last line, of a file with so many bytes. Returns whether there was
    /// one.
    pub fn finish<W: Write>(&mut self, out: &mut W, name: &str, size: u64) -> io::Result<bool> {
        if let Some(last) = &mut self.pending {
            let end = last.place.saturating_add(last.line.len() as u128);
            if end > u128::from(size) {
                last.line.pop();
            }
        }
        self.put_pending(out, name)?;
        let has_begun = self.has_begun;
        self.has_begun = false;
        Ok(has_begun)
    }
}

/// Prints the lines of a file as records.
#[derive(Drop)]
pub struct Recorder<'o, W: Write + Drop> {
    pub alloc: Global,
    pub out: &'o mut Output<W>,
    /// The name of the file.
    pub name: &'o str,
    /// The byte in which lines end.
    pub terminator: u8,
    /// Whether the lines are those in which no pattern matches.
    pub is_inverted: bool,
}

impl<'o, F: MatchFinder, W: Write + Drop> LinePrinter<F> for Recorder<'o, W> {
    ghost printed = { λ _. None };

    fn print_line(
        &mut self,
        selector: &mut F,
        number: u64,
        place: u128,
        is_selected: bool,
        line: &[u8],
    ) -> io::Result<()> {
        let mut matches = Vec::new(self.alloc);
        if is_selected {
            self.out
                .count_line(selector, self.is_inverted, line, &mut matches)?;
        }
        let mut ended = Vec::from_slice(self.alloc, line)?;
        ended.push(self.terminator)?;
        let line = Pending {
            number,
            place,
            is_selected,
            line: ended,
            matches,
        };
        self.out.put_record(self.name, line)
    }

    fn print_separator(&mut self) -> io::Result<()>
        ensures ok { OnOk result (Prints None None (separator ∷ [])) }
        ensures failed { IfErr result (λ _. ⊤) }
    {
        Ok(())
    }
}
