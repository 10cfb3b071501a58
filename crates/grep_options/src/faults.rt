//! Command-line faults: what is told of words that give nothing.

use crate::help::put_all;
use crate::read::{WordsError, nearest};
use crate::table::{Entry, Program};
use std::alloc::Global;
use std::io;
use std::io::Write;

/// Writes a fault of the command line, the word at fault if it isn't empty, and the usage.
pub fn put_usage<W: Write>(
    err: &mut W,
    program: &Program,
    fault: &str,
    word: &str,
) -> io::Result<()> {
    put_all(err, &[program.name, ": "])?;
    err.write_all(fault.as_bytes())?;
    if !word.is_empty() {
        err.write_all(b" ")?;
        err.write_all(word.as_bytes())?;
    }
    put_all(err, &["\nUsage: ", program.usage, "\n"])
}

/// The long name in a word, without its value, or nothing if the word has letters.
fn name_in(word: &str) -> Option<&str> {
    let text = word.strip_prefix("--")?;
    match text.split_once('=') {
        Some((name, _)) => Some(name),
        None => Some(text),
    }
}

/// The option that is nearest to a word, if one is near and there is memory to find it.
fn nearest_to(alloc: Global, options: &[Entry], word: &str) -> Option<&'static str> {
    nearest(alloc, options, name_in(word)?).ok()?
}

/// Writes that a word is no option, and the option that is nearest to it.
fn put_unknown<W: Write>(
    alloc: Global,
    err: &mut W,
    program: &Program,
    options: &[Entry],
    word: &str,
) -> io::Result<()> {
    if let Some(option) = nearest_to(alloc, options, word) {
        put_all(
            err,
            &[program.name, ": the nearest option is --", option, "\n"],
        )?;
    }
    put_usage(err, program, "no option", word)
}

/// Writes why words give nothing.
pub fn put_words_fault<W: Write>(
    alloc: Global,
    err: &mut W,
    program: &Program,
    options: &[Entry],
    fault: WordsError<'_>,
) -> io::Result<()> {
    match fault {
        WordsError::Unknown(word) => put_unknown(alloc, err, program, options, word),
        WordsError::NoValue(word) => put_usage(err, program, "a value is missing behind", word),
        WordsError::Unneeded(word) => put_usage(err, program, "no value belongs to", word),
        WordsError::Memory => put_all(err, &[program.name, ": out of memory\n"]),
    }
}
