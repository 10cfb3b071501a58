//! Command line of the program `rcfind`.
ghost use Rattle.std.specs.Prelude.{◌≡◌, ◌≢◌, ◌≤◌, false, true, nat_eq, IfOk, IfSome, List, ℕ, MatchOption, SomeIff};
ghost use Rattle.std.specs.Str.Parse.{digits_value};
ghost use Rattle.std.specs.Io.KnownBytes.{Keeps};
ghost use Rattle.rc_text.specs.Joined.{joined};
ghost use Rattle.regex_cursor.specs.Output.{IsRun};
ghost use Rattle.regex_cursor.specs.Words.{AreWords, IsLength};

use crate::run::{Sink, run};
use std::alloc::{AllocError, Global};
use std::io;
use std::io::{Read, Write};

/// The status if there is a match.
const MATCHED: u8 = 0;

/// The status if there is none.
const UNMATCHED: u8 = 1;

/// The status of an error.
const FAULT: u8 = 2;

/// The greatest length of a chunk, in bytes.
const LONGEST_CHUNK: usize = 1_048_576;

const USAGE: &str = "usage: rcfind PATTERN CHUNK";

const OUT_OF_MEMORY: &str = "out of memory";

/// The length of chunks that the argument gives: digits alone, and a number from 1 to 1,048,576.
fn chunk_len(word: &str) -> Option<usize>
    ensures { SomeIff result (IsLength word.now) (digits_value 10 word.now) }
{
    if word.as_bytes().first() == Some(&b'+') {
        return None;
    }
    let n = word.parse::<usize>().ok()?;
    if n == 0 || n > LONGEST_CHUNK {
        return None;
    }
    Some(n)
}

/// The pattern and the length of chunks, or `None` if the arguments are not these two.
fn arguments<'a>(words: &[&'a str]) -> Option<(&'a str, usize)>
    ensures { MatchOption result
        (¬ ((text : List ℕ) × AreWords words.now text))
        (λ r. AreWords words.now r.0.now × (1 ≤ r.1)) }
{
    let [pattern, chunk] = words else {
        return None;
    };
    let n = chunk_len(chunk)?;
    Some((pattern, n))
}

/// Cuts the bytes into chunks of `n` bytes, of which the last may be shorter.
fn cut(alloc: Global, bytes: &[u8], n: usize) -> Result<Vec<&[u8]>, AllocError>
    requires { 1 ≤ n }
    ensures { IfOk result (λ chunks. joined chunks.items ≡ bytes.now) }
{
    let mut chunks = Vec::new(alloc);
    for chunk in bytes.chunks(n) {
        chunks.push(chunk)?;
    }
    Ok(chunks)
}

/// Writes the line of an error. An error of the writer is ignored.
fn report<E: Write>(err: &mut E, line: &str) -> u8
    ensures { result ≡ FAULT }
{
    let _ = writeln!(err, "{line}");
    FAULT
}

/// The line of a read error.
fn read_fault(fault: &io::Error) -> &'static str {
    if fault.kind() == io::ErrorKind::OutOfMemory {
        return OUT_OF_MEMORY;
    }
    "read failed"
}

/// Runs `rcfind`: finds a pattern in an input that is cut into chunks, and writes a line for each
/// match. The arguments are the pattern and the length of a chunk in bytes.
///
/// It returns 0 if there is a match, 1 if there is none, and 2 after an error, of which it writes
/// one line to `err`. An error of `err` is ignored. The arguments are checked before anything is
/// read.
pub fn program<R: Read, W: Sink, E: Write>(
    alloc: Global,
    words: &[&str],
    input: &mut R,
    out: &mut W,
    err: &mut E,
) -> u8
    requires { W.has_failed out.old ≡ false }
    ensures status { result ≤ FAULT }
    ensures done { result ≢ FAULT → (text : List ℕ) × AreWords words.now text
        × IfSome (R.remaining input.old)
        (λ bytes. IsRun text bytes (W.taken out.old) (W.taken out.new) (nat_eq result MATCHED)) }
    ensures unread { ¬ ((text : List ℕ) × AreWords words.now text)
        → Keeps (R.remaining input.old) (R.remaining input.new) }
    ensures nothing_put { result ≡ FAULT → W.has_failed out.new ≡ false
        → Keeps (W.taken out.old) (W.taken out.new) }
{
    let Some((pattern, n)) = arguments(words) else {
        return report(err, USAGE);
    };
    let mut bytes = Vec::new(alloc);
    if let Err(fault) = input.read_to_end(&mut bytes) {
        return report(err, read_fault(&fault));
    }
    let Ok(chunks) = cut(alloc, &bytes, n) else {
        return report(err, OUT_OF_MEMORY);
    };
    match run(alloc, pattern, &chunks, out) {
        Ok(true) => MATCHED,
        Ok(false) => UNMATCHED,
        Err(fault) => {
            let _ = writeln!(err, "{fault}");
            FAULT
        }
    }
}
