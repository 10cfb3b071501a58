//! Debug output of patterns: the upper nodes of a tree.

use super::{Class, Hir, HirKind, Repetition};
use std::fmt;

/// The greatest number of a node's parts that are written.
const MOST_PARTS: usize = 8;

/// The greatest number of a literal's bytes that are written.
const MOST_BYTES: usize = 32;

/// Writes bytes as text: printable ASCII as it is, and other bytes, `"` and `\` as `\xHH`.
fn put_bytes<W: fmt::Write>(f: &mut fmt::Formatter<W>, bytes: &[u8]) -> fmt::Result {
    for (number, byte) in bytes.iter().enumerate() {
        if number == MOST_BYTES {
            return f.write_str("..");
        }
        match *byte {
            b'"' | b'\\' | 0..=31 | 127..=255 => write!(f, "\\x{byte:02X}")?,
            byte => f.write_char(byte as char)?,
        }
    }
    Ok(())
}

/// Writes a node, with `..` in place of its parts.
fn put_node<W: fmt::Write>(f: &mut fmt::Formatter<W>, hir: &Hir) -> fmt::Result {
    match &hir.kind {
        HirKind::Empty => f.write_str("Empty"),
        HirKind::Literal(bytes) => {
            f.write_str("Literal(\"")?;
            put_bytes(f, bytes)?;
            f.write_str("\")")
        }
        HirKind::Class(Class::Unicode(ranges)) => {
            let count = ranges.len();
            write!(f, "Class({count} ranges of characters)")
        }
        HirKind::Class(Class::Bytes(ranges)) => {
            let count = ranges.len();
            write!(f, "Class({count} ranges of bytes)")
        }
        HirKind::Look(look) => write!(f, "Look({look:?})"),
        HirKind::Repetition(_) => f.write_str("Repetition(..)"),
        HirKind::Capture(_) => f.write_str("Capture(..)"),
        HirKind::Concat(_) => f.write_str("Concat(..)"),
        HirKind::Alternation(_) => f.write_str("Alternation(..)"),
    }
}

/// Writes the parts of a node, of which each is a node.
fn put_parts<W: fmt::Write>(f: &mut fmt::Formatter<W>, parts: &[Hir]) -> fmt::Result {
    for (number, part) in parts.iter().enumerate() {
        if number > 0 {
            f.write_str(", ")?;
        }
        if number == MOST_PARTS {
            return f.write_str("..");
        }
        put_node(f, part)?;
    }
    Ok(())
}

/// Writes a repetition: its bounds, whether it is lazy, and its part.
fn put_repetition<W: fmt::Write>(
    f: &mut fmt::Formatter<W>,
    repetition: &Repetition,
) -> fmt::Result {
    let min = repetition.min;
    match repetition.max {
        Some(max) => write!(f, "Repetition({min}..={max}, ")?,
        None => write!(f, "Repetition({min}.., ")?,
    }
    if !repetition.greedy {
        f.write_str("lazy, ")?;
    }
    put_node(f, &repetition.sub)?;
    f.write_str(")")
}

/// Writes the node and its parts. Each is written with `..` in place of its own parts, so a pattern
/// of any depth is written on constant stack.
impl fmt::Debug for Hir {
    fn fmt<W: fmt::Write>(&self, f: &mut fmt::Formatter<W>) -> fmt::Result {
        match &self.kind {
            HirKind::Repetition(repetition) => put_repetition(f, repetition),
            HirKind::Capture(capture) => {
                let index = capture.index;
                write!(f, "Capture({index}, ")?;
                put_node(f, &capture.sub)?;
                f.write_str(")")
            }
            HirKind::Concat(parts) => {
                f.write_str("Concat(")?;
                put_parts(f, parts)?;
                f.write_str(")")
            }
            HirKind::Alternation(parts) => {
                f.write_str("Alternation(")?;
                put_parts(f, parts)?;
                f.write_str(")")
            }
            _ => put_node(f, self),
        }
    }
}
