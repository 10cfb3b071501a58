//! Rendering of a fault: the text, and a line that marks the part at fault.

use crate::faults::Fault;
use std::fmt;

/// A text and its fault, for display. It shows a message, the line of the text in which the fault
/// begins, and a line with carets below the part at fault.
#[derive(Clone, Copy, Debug)]
pub struct Explained<'t> {
    pub text: &'t str,
    pub fault: Fault,
}

/// The line of the text that contains this byte: where it begins, how many lines are before it, and
/// the line itself.
fn line_at(text: &str, at: usize) -> (usize, usize, &str) {
    let mut start: usize = 0;
    let mut number: usize = 0;
    for line in text.split('\n') {
        let end = start.saturating_add(line.len());
        if at <= end {
            return (start, number, line);
        }
        start = end.saturating_add(1);
        number = number.saturating_add(1);
    }
    (start, number, "")
}

/// Writes what is below a line: blanks up to the span, and a caret below each of its characters, at
/// least one.
fn put_carets<W: fmt::Write>(
    f: &mut fmt::Formatter<W>,
    line: &str,
    start: usize,
    end: usize,
) -> fmt::Result {
    let mut is_marked = false;
    for (at, c) in line.char_indices() {
        if at >= start && at < end {
            f.write_str("^")?;
            is_marked = true;
        } else if at < start {
            f.write_str(if c == '\t' { "\t" } else { " " })?;
        }
    }
    if !is_marked {
        f.write_str("^")?;
    }
    Ok(())
}

impl fmt::Display for Explained<'_> {
    fn fmt<W: fmt::Write>(&self, f: &mut fmt::Formatter<W>) -> fmt::Result {
        let span = self.fault.span;
        let (begin, before, line) = line_at(self.text, span.start);
        let kind = self.fault.kind;
        write!(f, "{kind}")?;
        if self.text.contains('\n') {
            let number = before.saturating_add(1);
            write!(f, " in line {number}")?;
        }
        write!(f, ":\n    {line}\n    ")?;
        put_carets(
            f,
            line,
            span.start.saturating_sub(begin),
            span.end.saturating_sub(begin),
        )
    }
}
