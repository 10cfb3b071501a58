//! Statistics: how much was searched and found.

use std::io;
use std::io::Write;
use std::time::Duration;

/// How much was searched and found.
#[derive(Clone, Copy)]
pub struct Stats {
    /// The number of files that were searched.
    pub searches: u64,
    /// The number of those with a selected line.
    pub searches_with_match: u64,
    /// The number of bytes that were read.
    pub bytes_searched: u64,
    /// The number of bytes that were printed of lines.
    pub bytes_printed: u64,
    /// The number of selected lines.
    pub matched_lines: u64,
    /// The number of matches in them.
    pub matches: u64,
    /// How long the searches took.
    pub elapsed: Duration,
}

impl Stats {
    /// Nothing was searched.
    pub fn new() -> Stats {
        Stats {
            searches: 0,
            searches_with_match: 0,
            bytes_searched: 0,
            bytes_printed: 0,
            matched_lines: 0,
            matches: 0,
            elapsed: Duration::ZERO,
        }
    }

    /// Counts a selected line, with so many matches.
    pub fn count_line(&mut self, matches: usize) {
        self.matched_lines = self.matched_lines.saturating_add(1);
        self.matches = self.matches.saturating_add(matches as u64);
    }

    /// Adds what was counted of another file.
    pub fn add(&mut self, other: &Stats) {
        self.searches = self.searches.saturating_add(other.searches);
        self.searches_with_match = self
            .searches_with_match
            .saturating_add(other.searches_with_match);
        self.bytes_searched = self.bytes_searched.saturating_add(other.bytes_searched);
        self.bytes_printed = self.bytes_printed.saturating_add(other.bytes_printed);
        self.matched_lines = self.matched_lines.saturating_add(other.matched_lines);
        self.matches = self.matches.saturating_add(other.matches);
        self.elapsed = self.elapsed.saturating_add(other.elapsed);
    }

    /// Writes the statistics behind the lines. `total` is how long the program took.
    pub fn put<W: Write>(&self, out: &mut W, total: Duration) -> io::Result<()> {
        writeln!(
            out,
            "\n{} matches\n{} matched lines\n{} files contained matches\n{} files searched\n\
{} bytes printed\n{} bytes searched",
            self.matches,
            self.matched_lines,
            self.searches_with_match,
            self.searches,
            self.bytes_printed,
            self.bytes_searched
        )?;
        put_seconds(out, self.elapsed, " seconds spent searching\n")?;
        put_seconds(out, total, " seconds\n")
    }
}

/// Writes a duration in seconds, with six digits behind the point, and then a text.
pub fn put_seconds<W: Write>(out: &mut W, time: Duration, behind: &str) -> io::Result<()> {
    let seconds = time.as_secs();
    let micros = time.subsec_micros();
    write!(out, "{seconds}.{micros:06}{behind}")
}
