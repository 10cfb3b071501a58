//! Command line of the program `rcsub`.
ghost use Rattle.std.specs.Prelude.{◌≡◌, ◌≢◌, ◌≤◌, ◌∷◌, ◌↔◌, [], false, nat_eq, nat_lt, IfOk, IfSome, IsTrue, IsUtf8, List, ℕ, MatchOption, SomeIff};
ghost use Rattle.std.specs.Str.Parse.{digits_value};
ghost use Rattle.std.specs.Io.KnownBytes.{Keeps};
ghost use Rattle.rc_text.specs.Joined.{joined};
ghost use Rattle.rc_parser.specs.Settings.{default_settings};
ghost use Rattle.rc_build.specs.TextRefusals.{AllRead};
ghost use Rattle.api_meta.specs.Views.{regex_patterns, regex_settings};
ghost use Rattle.regex_cursor.specs.Words.{IsLength};
ghost use Rattle.chunk_replace.specs.Words.{AreWords, HasTemplate, HasWords, IsDone, IsSubstituted, settings_in};
ghost use Rattle.chunk_replace.specs.Template.{template_items};

use crate::error::ReplaceError;
use crate::marks::number_of;
use crate::replace::replace_all;
use crate::template::Template;
use regex_cursor::engines::meta::{BuildError, Regex};
use regex_cursor::run::{RunError, Sink};
use std::alloc::{AllocError, Global};
use std::io;
use std::io::{Read, Write};

/// The status if something was replaced.
const REPLACED: u8 = 0;

/// The status if nothing was.
const UNREPLACED: u8 = 1;

/// The status of an error.
const FAULT: u8 = 2;

/// The greatest length of a chunk, in bytes.
const LONGEST_CHUNK: usize = 1_048_576;

const USAGE: &str = "usage: rcsub PATTERN TEMPLATE CHUNK";

const OUT_OF_MEMORY: &str = "out of memory";

/// The length of chunks that the argument gives: digits alone, and a number from 1 to 1,048,576.
fn chunk_len(word: &str) -> Option<usize>
    ensures { SomeIff result (IsLength word.now) (digits_value 10 word.now) }
{
    let n = number_of(word)?;
    if n == 0 || n > LONGEST_CHUNK {
        return None;
    }
    Some(n)
}

/// The pattern, the template and the length of chunks, or `None` if the arguments are not these
/// three.
fn arguments<'a>(words: &[&'a str]) -> Option<(&'a str, &'a str, usize)>
    ensures { MatchOption result
        (¬ HasWords words.now)
        (λ r. AreWords words.now r.0.now r.1.now × (1 ≤ r.2)) }
{
    let [pattern, template, chunk] = words else {
        return None;
    };
    let n = chunk_len(chunk)?;
    Some((pattern, template, n))
}

/// Cuts the bytes into chunks of `n` bytes, of which the last may be shorter.
fn cut(alloc: Global, bytes: &[u8], n: usize) -> Result<Vec<&[u8]>, AllocError>
    requires { 1 ≤ n }
    ensures { IfOk result (λ chunks. joined chunks.items ≡ bytes.now) }
{
    let mut chunks = Vec::new(alloc);
    for chunk in bytes.chunks(n) {
        chunks.push(chunk)?;
    }
    Ok(chunks)
}

/// Writes the line of an error. An error of the writer is ignored.
fn report<E: Write>(err: &mut E, line: &str) -> u8
    ensures { result ≡ FAULT }
{
    let _ = writeln!(err, "{line}");
    FAULT
}

/// The line of a read error.
fn read_fault(fault: &io::Error) -> &'static str {
    if fault.kind() == io::ErrorKind::OutOfMemory {
        return OUT_OF_MEMORY;
    }
    "read failed"
}

/// Whether there was a match.
fn any_replaced(replaced: Result<usize, ReplaceError>) -> Result<bool, RunError>
    ensures { IfOk result (λ any. (n : ℕ) × (replaced ≡ Ok n) × (any ≡ nat_lt 0 n)) }
{
    match replaced {
        Ok(count) => Ok(count > 0),
        Err(ReplaceError::TooLong) => Err(RunError::TooLong),
        Err(ReplaceError::Memory) => Err(RunError::Memory),
        Err(ReplaceError::Write) => Err(RunError::Write),
    }
}

/// Whether the bytes are UTF-8.
fn is_utf8(bytes: &[u8]) -> bool
    ensures { IsTrue result ↔ IsUtf8 bytes.now }
{
    std::str::from_utf8(bytes).is_ok()
}

/// Builds a regex of the pattern. Its matches may end inside a character if the text isn't UTF-8.
fn build(alloc: Global, pattern: &str, is_utf8: bool) -> Result<Regex, BuildError>
    ensures read { IfOk result (λ r. AllRead default_settings (pattern.now ∷ [])
        (regex_patterns r)) }
    ensures settings { IfOk result (λ r. regex_settings r ≡ settings_in is_utf8) }
{
    let mut builder = Regex::builder();
    builder
        .configure(Regex::config().utf8_empty(is_utf8))
        .build(alloc, pattern)
}

/// Writes the bytes of the chunks, with each match of the pattern replaced. It returns whether
/// there was a match.
fn substitute<W: Sink>(
    alloc: Global,
    pattern: &str,
    is_utf8: bool,
    template: &Template<'_>,
    chunks: &[&[u8]],
    out: &mut W,
) -> Result<bool, RunError>
    requires sound { W.has_failed out.old ≡ false }
    requires utf8 { IsTrue is_utf8 ↔ IsUtf8 (joined chunks.now) }
    ensures { IfOk result (λ any. IsSubstituted pattern.now (template_items template.now)
        (joined chunks.now) (W.taken out.old) (W.taken out.new) any) }
{
    let regex = build(alloc, pattern, is_utf8)?;
    let replaced = replace_all(alloc, &regex, chunks, template, out);
    drop(regex);
    any_replaced(replaced)
}

/// Runs `rcsub`: replaces each match of a pattern in an input that is cut into chunks. The
/// arguments are the pattern, the template and the length of a chunk in bytes.
///
/// If the input isn't UTF-8, `utf8_empty` is off: a match may end at any byte, and none is passed
/// over.
///
/// It returns 0 if something was replaced, 1 if nothing was and the bytes were written unchanged,
/// and 2 after an error, of which it writes one line to `err`. An error of `err` is ignored. The
/// arguments and the template are checked before anything is read.
pub fn program<R: Read, W: Sink, E: Write>(
    alloc: Global,
    words: &[&str],
    input: &mut R,
    out: &mut W,
    err: &mut E,
) -> u8
    requires { W.has_failed out.old ≡ false }
    ensures status { result ≤ FAULT }
    ensures done { result ≢ FAULT → IsDone words.now (R.remaining input.old) (W.taken out.old)
        (W.taken out.new) (nat_eq result REPLACED) }
    ensures unread { ¬ HasTemplate words.now → Keeps (R.remaining input.old) (R.remaining input.new) }
    ensures nothing_put { ¬ HasTemplate words.now → Keeps (W.taken out.old) (W.taken out.new) }
{
    let Some((pattern, template, n)) = arguments(words) else {
        return report(err, USAGE);
    };
    let template = match Template::parse(alloc, template) {
        Ok(template) => template,
        Err(fault) => {
            let _ = writeln!(err, "{fault}");
            return FAULT;
        }
    };
    let mut bytes = Vec::new(alloc);
    if let Err(fault) = input.read_to_end(&mut bytes) {
        return report(err, read_fault(&fault));
    }
    let Ok(chunks) = cut(alloc, &bytes, n) else {
        return report(err, OUT_OF_MEMORY);
    };
    match substitute(alloc, pattern, is_utf8(&bytes), &template, &chunks, out) {
        Ok(true) => REPLACED,
        Ok(false) => UNREPLACED,
        Err(fault) => {
            let _ = writeln!(err, "{fault}");
            FAULT
        }
    }
}
