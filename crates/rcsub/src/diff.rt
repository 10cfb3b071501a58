//! Diffs: the lines in which two texts differ.

use std::alloc::{AllocError, Global};
use std::io;
use std::io::Write;

/// Lines of two texts that differ, by the numbers of lines before them and behind them.
#[derive(Clone, Copy)]
struct Hunk {
    old_start: usize,
    old_end: usize,
    new_start: usize,
    new_end: usize,
}

/// The lines of a text, each with its newline if it has one.
fn lines_of(alloc: Global, text: &[u8]) -> Result<Vec<&[u8]>, AllocError> {
    let mut lines = Vec::new(alloc);
    for line in text.split_inclusive(|byte| *byte == b'\n') {
        lines.push(line)?;
    }
    Ok(lines)
}

/// The hunks of two lists of lines of the same length: runs of lines that differ.
fn hunks_in_pairs(alloc: Global, old: &[&[u8]], new: &[&[u8]]) -> Result<Vec<Hunk>, AllocError> {
    let mut hunks: Vec<Hunk> = Vec::new(alloc);
    let mut first = None;
    for (number, (before, behind)) in old.iter().zip(new.iter()).enumerate() {
        match first {
            None if before != behind => first = Some(number),
            Some(start) if before == behind => {
                hunks.push(Hunk {
                    old_start: start,
                    old_end: number,
                    new_start: start,
                    new_end: number,
                })?;
                first = None;
            }
            _ => {}
        }
    }
    if let Some(start) = first {
        hunks.push(Hunk {
            old_start: start,
            old_end: old.len(),
            new_start: start,
            new_end: new.len(),
        })?;
    }
    Ok(hunks)
}

/// The number of lines at the start of both lists that are equal.
fn common_start(old: &[&[u8]], new: &[&[u8]]) -> usize {
    for (number, (before, behind)) in old.iter().zip(new.iter()).enumerate() {
        if before != behind {
            return number;
        }
    }
    old.len().min(new.len())
}

/// The number of lines at the end of both lists that are equal.
fn common_end(old: &[&[u8]], new: &[&[u8]]) -> usize {
    for (number, (before, behind)) in old.iter().rev().zip(new.iter().rev()).enumerate() {
        if before != behind {
            return number;
        }
    }
    old.len().min(new.len())
}

/// One hunk: all lines from the first to the last that differ.
fn hunk_between(old: &[&[u8]], new: &[&[u8]]) -> Hunk {
    let start = common_start(old, new);
    let least = old.len().min(new.len());
    let end = common_end(old, new).min(least.saturating_sub(start));
    Hunk {
        old_start: start,
        old_end: old.len().saturating_sub(end),
        new_start: start,
        new_end: new.len().saturating_sub(end),
    }
}

/// Writes a range of lines as the head of a hunk has it: the number of the first, and how many there
/// are. An empty range has the number of the line before it.
fn put_range<W: Write>(out: &mut W, start: usize, end: usize) -> io::Result<()> {
    let count = end.saturating_sub(start);
    let first = if count == 0 {
        start
    } else {
        start.saturating_add(1)
    };
    write!(out, "{first},{count}")
}

/// Writes lines, each behind a mark.
fn put_lines<W: Write>(out: &mut W, mark: &[u8], lines: &[&[u8]]) -> io::Result<()> {
    for line in lines {
        out.write_all(mark)?;
        out.write_all(line)?;
        if !line.ends_with(b"\n") {
            out.write_all(b"\n\\ No newline at end of file\n")?;
        }
    }
    Ok(())
}

/// Writes a hunk: the lines of the old text, and those of the new one.
fn put_hunk<W: Write>(out: &mut W, hunk: Hunk, old: &[&[u8]], new: &[&[u8]]) -> io::Result<()> {
    out.write_all(b"@@ -")?;
    put_range(out, hunk.old_start, hunk.old_end)?;
    out.write_all(b" +")?;
    put_range(out, hunk.new_start, hunk.new_end)?;
    out.write_all(b" @@\n")?;
    put_lines(
        out,
        b"-",
        old.get(hunk.old_start..hunk.old_end).unwrap_or(&[]),
    )?;
    put_lines(
        out,
        b"+",
        new.get(hunk.new_start..hunk.new_end).unwrap_or(&[]),
    )
}

/// Writes how two texts differ, as a unified diff with no lines around the changed ones. If they
/// have equally many lines, lines with the same number are compared; else it has one hunk, from the
/// first line that differs to the last one. Nothing is written if they are equal.
pub fn put_diff<W: Write>(
    alloc: Global,
    out: &mut W,
    name: &str,
    old: &[u8],
    new: &[u8],
) -> io::Result<()> {
    let old = lines_of(alloc, old)?;
    let new = lines_of(alloc, new)?;
    let mut hunks = Vec::new(alloc);
    if old.len() == new.len() {
        hunks = hunks_in_pairs(alloc, &old, &new)?;
    } else {
        hunks.push(hunk_between(&old, &new))?;
    }
    if hunks.is_empty() {
        return Ok(());
    }
    writeln!(out, "--- {name}\n+++ {name}")?;
    for hunk in &hunks {
        put_hunk(out, *hunk, &old, &new)?;
    }
    Ok(())
}
