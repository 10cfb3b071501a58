//! JSON output: strings, bytes, durations and statistics.

use crate::stats::{Stats, put_seconds};
use base64::engine::general_purpose::STANDARD;
use std::alloc::Global;
use std::io;
use std::io::Write;
use std::time::Duration;

/// Writes a character of a JSON string.
fn put_letter<W: Write>(out: &mut W, letter: char) -> io::Result<()> {
    match letter {
        '"' => out.write_all(b"\\\""),
        '\\' => out.write_all(b"\\\\"),
        '\n' => out.write_all(b"\\n"),
        '\r' => out.write_all(b"\\r"),
        '\t' => out.write_all(b"\\t"),
        '\u{8}' => out.write_all(b"\\b"),
        '\u{c}' => out.write_all(b"\\f"),
        _ if letter < ' ' => write!(out, "\\u{:04x}", letter as u32),
        _ => write!(out, "{letter}"),
    }
}

/// Writes a text as a JSON string.
fn put_string<W: Write>(out: &mut W, text: &str) -> io::Result<()> {
    out.write_all(b"\"")?;
    for letter in text.chars() {
        put_letter(out, letter)?;
    }
    out.write_all(b"\"")
}

/// Writes bytes as an object: its `text` if they are UTF-8, else its `bytes` in Base64.
pub fn put_data<W: Write>(alloc: Global, out: &mut W, bytes: &[u8]) -> io::Result<()> {
    if let Ok(text) = std::str::from_utf8(bytes) {
        out.write_all(b"{\"text\":")?;
        put_string(out, text)?;
        return out.write_all(b"}");
    }
    let coded = STANDARD.encode(alloc, bytes)?;
    write!(out, "{{\"bytes\":\"{coded}\"}}")
}

/// Writes a duration as an object.
fn put_time<W: Write>(out: &mut W, time: Duration) -> io::Result<()> {
    let seconds = time.as_secs();
    let nanos = time.subsec_nanos();
    write!(out, "{{\"secs\":{seconds},\"nanos\":{nanos},\"human\":\"")?;
    put_seconds(out, time, "s\"}")
}

/// Writes statistics as an object.
fn put_stats<W: Write>(out: &mut W, stats: &Stats) -> io::Result<()> {
    out.write_all(b"{\"elapsed\":")?;
    put_time(out, stats.elapsed)?;
    write!(
        out,
        ",\"searches\":{},\"searches_with_match\":{},\"bytes_searched\":{},\
\"bytes_printed\":{},\"matched_lines\":{},\"matches\":{}}}",
        stats.searches,
        stats.searches_with_match,
        stats.bytes_searched,
        stats.bytes_printed,
        stats.matched_lines,
        stats.matches
    )
}

/// Writes the type of a record, and the name of its file.
pub fn put_head<W: Write>(out: &mut W, kind: &str, name: &str) -> io::Result<()> {
    write!(out, "{{\"type\":\"{kind}\",\"data\":{{\"path\":{{\"text\":")?;
    put_string(out, name)?;
    out.write_all(b"}")
}

/// Writes the record of the end of a file.
pub fn put_end<W: Write>(out: &mut W, name: &str, stats: &Stats) -> io::Result<()> {
    put_head(out, "end", name)?;
    out.write_all(b",\"binary_offset\":null,\"stats\":")?;
    put_stats(out, stats)?;
    out.write_all(b"}}\n")
}

/// Writes the last record: what was searched in all files, and how long the program took.
pub fn put_summary<W: Write>(out: &mut W, stats: &Stats, total: Duration) -> io::Result<()> {
    out.write_all(b"{\"type\":\"summary\",\"data\":{\"elapsed_total\":")?;
    put_time(out, total)?;
    out.write_all(b",\"stats\":")?;
    put_stats(out, stats)?;
    out.write_all(b"}}\n")
}
