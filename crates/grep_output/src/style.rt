//! Lines as they are printed.
ghost use Rattle.std.specs.Prelude.{◌≡◌};

use crate::finder::MatchFinder;
use crate::template::Template;
use memchr::memchr;
use rc_text::types::Span;
use std::io;
use std::io::Write;

/// The text before a highlighted match, and the text after it.
const MARK: (&str, &str) = ("\x1b[01;31m", "\x1b[0m");

/// The greatest number of digits of a number.
const DIGITS: usize = 20;

/// A line of a file.
#[derive(Clone, Copy)]
pub struct Line<'l> {
    /// Its number, from 1 on.
    pub number: u64,
    /// Where it begins in the file.
    pub place: u128,
    /// Whether it is selected, or context.
    pub is_selected: bool,
    pub bytes: &'l [u8],
}

impl<'l> Line<'l> {
    /// Its bytes from `start` to `end`.
    fn part(self, start: usize, end: usize) -> &'l [u8] {
        self.bytes.get(start..end).unwrap_or(&[])
    }
}

/// How the lines of a file are printed.
#[derive(Clone, Copy)]
pub struct Style<'o> {
    /// The name of the file, if it stands before its lines.
    pub name: Option<&'o str>,
    /// Whether the number of each line stands before it.
    pub numbers: bool,
    /// Whether the place of each line, or match, stands before it.
    pub places: bool,
    /// Whether the column of a match stands before it, or before its line that of the first one.
    pub columns: bool,
    /// Whether a NUL byte stands behind the name, and no mark.
    pub null: bool,
    /// Whether only matches are printed.
    pub only_matching: bool,
    /// What matches are replaced by, if they are.
    pub template: Option<&'o Template<'o>>,
    /// Whether the lines are those in which no pattern matches.
    pub is_inverted: bool,
    /// Whether matches are highlighted.
    pub is_colored: bool,
    /// Whether each line is written at once.
    pub line_buffered: bool,
    /// Whether a separator stands between lines that don't touch.
    pub separates: bool,
    /// Whether no line is printed. They may be counted.
    pub is_quiet: bool,
    /// Whether lines with NUL bytes are printed.
    pub is_text: bool,
    /// The byte in which lines end.
    pub terminator: u8,
}

/// Writes a number, and a mark behind it.
fn put_number<W: Write>(out: &mut W, number: u64, mark: u8) -> io::Result<()> {
    let mut text = [mark; DIGITS + 1];
    let mut left = number;
    for place in (0..DIGITS).rev() {
        text[place] = b'0' + (left % 10) as u8;
        left /= 10;
        if left == 0 {
            return out.write_all(&text[place..]);
        }
    }
    out.write_all(&text)
}

impl<'o> Style<'o> {
    /// Whether the matches in a selected line are asked for.
    pub fn needs_matches(&self) -> bool {
        !self.is_quiet
            && !self.is_inverted
            && (self.only_matching || self.is_colored || self.columns || self.template.is_some())
    }

    /// Whether a selected line is printed as it is, with nothing before it.
    pub fn is_plain(&self) -> bool {
        self.name.is_none()
            && !self.numbers
            && !self.places
            && !self.only_matching
            && !self.needs_matches()
    }

    /// Whether this line shows that a file is binary, so that it isn't printed.
    pub fn finds_binary(&self, line: &[u8]) -> bool {
        !self.is_quiet && !self.is_text && memchr(0, line).is_some()
    }

    /// Writes what comes before a line, or before a match at `start` in it: the name of its file, its
    /// number, the column of the first match, and its place, each with a mark behind it, `:` for a
    /// selected line and `-` for one of context. Where no match is known there is no column.
    fn put_prefix<W: Write>(
        &self,
        out: &mut W,
        line: Line<'_>,
        start: usize,
        first: Option<Span>,
    ) -> io::Result<()> {
        let mark = if line.is_selected { b':' } else { b'-' };
        if let Some(name) = self.name {
            out.write_all(name.as_bytes())?;
            out.write_all(&[if self.null { 0 } else { mark }])?;
        }
        if self.numbers {
            put_number(out, line.number, mark)?;
        }
        if let (true, Some(found)) = (self.columns, first) {
            put_number(out, (found.start as u64).saturating_add(1), mark)?;
        }
        if self.places {
            let place = line.place.saturating_add(start as u128);
            write!(out, "{place}")?;
            out.write_all(&[mark])?;
        }
        Ok(())
    }

    /// Writes a match, replaced or highlighted if that is asked for.
    fn put_match<W: Write, F: MatchFinder>(
        &self,
        out: &mut W,
        finder: &mut F,
        line: Line<'_>,
        found: Span,
    ) -> io::Result<()>
        ensures same { F.selects finder.new ≡ F.selects finder.old }
    {
        if let Some(template) = self.template {
            finder.find_groups(line.bytes, found.start);
            return template.put(out, line.bytes, finder);
        }
        let bytes = line.part(found.start, found.end);
        if !self.is_colored {
            return out.write_all(bytes);
        }
        let (before, after) = MARK;
        out.write_all(before.as_bytes())?;
        out.write_all(bytes)?;
        out.write_all(after.as_bytes())
    }

    /// Writes each match that isn't empty as a line of its own.
    fn put_matches<W: Write, F: MatchFinder>(
        &self,
        out: &mut W,
        finder: &mut F,
        line: Line<'_>,
        matches: &[Span],
    ) -> io::Result<()>
        ensures same { F.selects finder.new ≡ F.selects finder.old }
    {
        for found in matches {
            if !found.is_empty() {
                self.put_prefix(out, line, found.start, Some(*found))?;
                self.put_match(out, finder, line, *found)?;
                out.write_all(&[self.terminator])?;
            }
        }
        Ok(())
    }

    /// Writes the line, with its matches replaced or highlighted. An empty match is only replaced.
    fn put_whole<W: Write, F: MatchFinder>(
        &self,
        out: &mut W,
        finder: &mut F,
        line: Line<'_>,
        matches: &[Span],
    ) -> io::Result<()>
        ensures same { F.selects finder.new ≡ F.selects finder.old }
    {
        self.put_prefix(out, line, 0, matches.first().copied())?;
        let mut end = 0;
        for found in matches {
            if self.template.is_some() || !found.is_empty() {
                out.write_all(line.part(end, found.start))?;
                self.put_match(out, finder, line, *found)?;
                end = found.end;
            }
        }
        out.write_all(line.part(end, line.bytes.len()))?;
        out.write_all(&[self.terminator])
    }

    /// Writes a line, selected or of context, or the matches in it. There are some only in a selected
    /// line, if `needs_matches` says so.
    pub fn put_line<W: Write, F: MatchFinder>(
        &self,
        out: &mut W,
        finder: &mut F,
        line: Line<'_>,
        matches: &[Span],
    ) -> io::Result<()>
        ensures same { F.selects finder.new ≡ F.selects finder.old }
    {
        if self.only_matching {
            self.put_matches(out, finder, line, matches)
        } else {
            self.put_whole(out, finder, line, matches)
        }
    }
}
