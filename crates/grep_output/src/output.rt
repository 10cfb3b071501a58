//! Line output: where lines are printed, and what was counted of them.
ghost use Rattle.std.specs.Prelude.{◌≡◌, IfErr, None, OnOk, [], ◌∷◌, ⊤};
ghost use Rattle.grep_lines.specs.Context.{Prints};
ghost use Rattle.grep_lines.specs.Context.Part.{separator};

use crate::counter::Counter;
use crate::finder::MatchFinder;
use crate::json::{put_end, put_summary};
use crate::records::{Pending, Records};
use crate::stats::Stats;
use crate::style::{Line, Style};
use grep_lines::{LinePrinter, spans_from};
use rc_text::types::Span;
use std::alloc::{AllocError, Global};
use std::io;
use std::io::Write;
use std::time::Duration;

/// What stands between lines that don't touch.
const SEPARATOR: &[u8] = b"--\n";

/// Where lines are printed.
#[derive(Drop)]
pub struct Output<W: Write + Drop> {
    pub writer: Counter<W>,
    /// Whether a line with those around it was printed. Then a separator stands before the next file's.
    has_groups: bool,
    /// Whether a line with a NUL byte was to be printed of this file. Then no more of it is printed.
    pub is_binary: bool,
    /// What was searched and found in the files so far, if that is counted.
    total: Option<Stats>,
    /// What was searched and found so far in this file.
    file: Stats,
    /// The records, if they are printed.
    records: Option<Records>,
}

impl<W: Write + Drop> Output<W> {
    /// Returns an output to the writer, to which nothing was printed. `counts` says whether statistics
    /// are kept, and `records` whether lines are printed as records.
    pub fn new(alloc: Global, inner: W, counts: bool, records: bool) -> Output<W> {
        Output {
            writer: Counter { inner, count: 0 },
            has_groups: false,
            is_binary: false,
            total: if counts { Some(Stats::new()) } else { None },
            file: Stats::new(),
            records: if records {
                Some(Records::new(alloc))
            } else {
                None
            },
        }
    }

    /// Counts a selected line, and finds its matches: there are none if `is_inverted`, and `matches` is
    /// left as it is. An `Err` means out of memory.
    pub fn count_line<F: MatchFinder>(
        &mut self,
        finder: &mut F,
        is_inverted: bool,
        line: &[u8],
        matches: &mut Vec<Span>,
    ) -> Result<(), AllocError>
        ensures same { F.selects finder.new ≡ F.selects finder.old }
    {
        if !is_inverted {
            finder.find_matches(line, matches)?;
        }
        self.file.count_line(matches.len());
        Ok(())
    }

    /// Prints the record of the line before this one, which is printed later.
    pub fn put_record(&mut self, name: &str, line: Pending) -> io::Result<()> {
        match &mut self.records {
            Some(records) => records.take(&mut self.writer, name, line),
            None => Ok(()),
        }
    }

    /// Begins to count for a file.
    pub fn begin_file(&mut self) {
        self.file = Stats::new();
        self.is_binary = false;
        self.writer.count = 0;
    }

    /// Ends what is printed and counted of a file of so many bytes, if that is asked for. A file
    /// without records isn't counted, if records are printed.
    pub fn end_file(
        &mut self,
        name: &str,
        size: u64,
        is_any: bool,
        elapsed: Duration,
    ) -> io::Result<()> {
        let Some(total) = &mut self.total else {
            return Ok(());
        };
        let file = &mut self.file;
        file.searches = 1;
        file.searches_with_match = u64::from(is_any);
        file.bytes_searched = size;
        file.elapsed = elapsed;
        if let Some(records) = &mut self.records {
            if !records.finish(&mut self.writer, name, size)? {
                return Ok(());
            }
            file.bytes_printed = self.writer.count;
            put_end(&mut self.writer.inner, name, file)?;
        }
        file.bytes_printed = self.writer.count;
        total.add(file);
        Ok(())
    }

    /// Prints what was counted of all files, if that is asked for. `elapsed` is how long the program
    /// took.
    pub fn put_total(&mut self, elapsed: Duration) -> io::Result<()> {
        let out = &mut self.writer.inner;
        match &self.total {
            Some(total) if self.records.is_some() => put_summary(out, total, elapsed),
            Some(total) => total.put(out, elapsed),
            None => Ok(()),
        }
    }
}

/// Prints the lines of a file.
#[derive(Drop)]
pub struct Printer<'o, W: Write + Drop> {
    out: &'o mut Output<W>,
    style: Style<'o>,
    /// Whether a separator stands before the next line.
    is_apart: bool,
    /// The matches in the line.
    matches: Vec<Span>,
    /// The matches in the text, in order, if they are known. Those that end before the line may lack.
    spans: Option<&'o [Span]>,
}

/// Where a place of a text is in a line of so many bytes that begins at `start`. It is the line's
/// beginning or end if the place is before the line or behind it.
fn offset_in(at: usize, start: u128, len: usize) -> usize {
    let offset = (at as u128).saturating_sub(start);
    usize::try_from(offset).unwrap_or(len).min(len)
}

/// Adds the parts of spans of a text in the line that begins at a place. The spans are in order.
fn add_parts(
    spans: &[Span],
    place: u128,
    line: &[u8],
    parts: &mut Vec<Span>,
) -> Result<(), AllocError> {
    let end = place.saturating_add(line.len() as u128);
    for span in spans {
        if span.start as u128 > end {
            break;
        }
        parts.push(Span {
            start: offset_in(span.start, place, line.len()),
            end: offset_in(span.end, place, line.len()),
        })?;
    }
    Ok(())
}

impl<'o, W: Write + Drop> Printer<'o, W> {
    /// Prints lines behind what was printed of other files.
    pub fn new(alloc: Global, out: &'o mut Output<W>, style: Style<'o>) -> Printer<'o, W> {
        let is_apart = out.has_groups;
        Printer {
            out,
            style,
            is_apart,
            matches: Vec::new(alloc),
            spans: None,
        }
    }

    /// Sets that the matches in a line are the parts in it of these spans of the text. They are in
    /// order.
    pub fn with_spans(mut self, spans: &'o [Span]) -> Printer<'o, W> {
        self.spans = Some(spans);
        self
    }

    /// Whether selected lines are printed as they are, or none of them is.
    #[inline(always)]
    fn takes_text(&self, text: &[u8]) -> bool {
        let style = self.style;
        style.is_quiet || self.out.is_binary || (style.is_plain() && !style.finds_binary(text))
    }

    /// Writes a separator.
    fn put_separator(&mut self) -> io::Result<()> {
        self.is_apart = false;
        self.out.writer.write_all(SEPARATOR)
    }

    /// Writes a separator, if one stands before the next line.
    #[inline(always)]
    fn begin_line(&mut self) -> io::Result<()> {
        if self.is_apart {
            self.put_separator()?;
        }
        self.out.has_groups = self.style.separates;
        Ok(())
    }

    /// Finds the matches in a selected line, and counts it, if that is asked for.
    fn find_matches<F: MatchFinder>(
        &mut self,
        finder: &mut F,
        place: u128,
        line: &[u8],
    ) -> Result<(), AllocError>
        ensures same { F.selects finder.new ≡ F.selects finder.old }
    {
        let style = self.style;
        if let Some(spans) = self.spans {
            if style.needs_matches() {
                let left = spans_from(spans, place);
                self.spans = Some(left);
                add_parts(left, place, line, &mut self.matches)?;
            }
        } else if self.out.total.is_some() || style.needs_matches() {
            self.out
                .count_line(finder, style.is_inverted, line, &mut self.matches)?;
        }
        Ok(())
    }
}

impl<'o, F: MatchFinder, W: Write + Drop> LinePrinter<F> for Printer<'o, W> {
    ghost printed = { λ _. None };

    #[inline(always)]
    fn print_lines(
        &mut self,
        _selector: &mut F,
        _number: u64,
        _place: u128,
        _terminator: u8,
        text: &[u8],
    ) -> io::Result<bool> {
        let style = self.style;
        if self.out.total.is_some() || !self.takes_text(text) {
            return Ok(false);
        }
        if style.is_quiet || self.out.is_binary {
            return Ok(true);
        }
        self.begin_line()?;
        self.out.writer.write_all(text)?;
        if style.line_buffered {
            self.out.writer.flush()?;
        }
        Ok(true)
    }

    fn print_line(
        &mut self,
        selector: &mut F,
        number: u64,
        place: u128,
        is_selected: bool,
        line: &[u8],
    ) -> io::Result<()> {
        let style = self.style;
        self.matches.clear();
        if is_selected {
            self.find_matches(selector, place, line)?;
        }
        self.out.is_binary |= style.finds_binary(line);
        if style.is_quiet || self.out.is_binary {
            return Ok(());
        }
        self.begin_line()?;
        let line = Line {
            number,
            place,
            is_selected,
            bytes: line,
        };
        style.put_line(&mut self.out.writer, selector, line, &self.matches)?;
        if style.line_buffered {
            self.out.writer.flush()?;
        }
        Ok(())
    }

    fn print_separator(&mut self) -> io::Result<()>
        ensures ok { OnOk result (Prints None None (separator ∷ [])) }
        ensures failed { IfErr result (λ _. ⊤) }
    {
        self.is_apart = self.style.separates;
        Ok(())
    }

    fn shows_lines(&self) -> bool {
        !self.style.is_quiet || self.out.total.is_some()
    }
}
