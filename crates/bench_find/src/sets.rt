//! Benchmark of many patterns: the lines of a file, as patterns or as one alternation.

use crate::{BenchError, FAULT, report};
use regex_cursor::Input;
use regex_cursor::engines::meta::{BuildError, Finder, Regex};
use regex_cursor::types::PatternSet;
use std::alloc::{AllocError, Global};
use std::io::{Read, Write};
use std::time::Instant;
use std::{fs, io};

/// The word before the arguments of this benchmark.
pub const WORD: &str = "set";

/// The most patterns of a regex.
const MOST_PATTERNS: usize = 2_147_483_647;

const USAGE: &str = "usage: bench_find set FILE each|one matches|which";

/// The regex of the lines: each line a pattern, as far as a regex has room for them, or all lines
/// one alternation.
fn built(alloc: Global, text: &str, are_patterns: bool) -> Result<Regex, BuildError> {
    let lines: Vec<&str> = text.lines().collect(alloc)?;
    if are_patterns {
        let most = lines.len().min(MOST_PATTERNS);
        return Regex::new_many(alloc, &lines[..most]);
    }
    let mut alternation = String::new(alloc);
    for (number, line) in lines.iter().enumerate() {
        if number > 0 {
            alternation.push('|')?;
        }
        alternation.push_str(line)?;
    }
    Regex::new(alloc, &alternation)
}

/// The number of matches in the text.
fn count_matches(alloc: Global, regex: &Regex, bytes: &[u8]) -> Result<usize, BenchError> {
    let mut count: usize = 0;
    for _ in regex.find_iter(alloc, Input::new(bytes))? {
        count = count.saturating_add(1);
    }
    Ok(count)
}

/// The number of patterns that have a match in the text.
fn count_which(alloc: Global, regex: &Regex, bytes: &[u8]) -> Result<usize, BenchError> {
    let mut set = PatternSet::new(alloc, regex.pattern_len())?;
    let mut finder = Finder::new(alloc, regex)?;
    finder.which_patterns(&mut Input::new(bytes), &mut set);
    drop(finder);
    Ok(set.len())
}

/// The number of bytes that a cache of the regex takes.
fn cache_len(alloc: Global, regex: &Regex) -> Result<usize, AllocError> {
    let cache = regex.create_cache(alloc)?;
    let len = cache.memory_usage();
    drop(cache);
    Ok(len)
}

/// Writes how long the build of the regex took that began at this time, and how many bytes the
/// regex and a cache of it take.
fn put_build(rt: &HostRuntime, regex: &Regex, start: Instant) -> Result<(), BenchError> {
    let micros = start.elapsed(rt)?.as_micros();
    let patterns = regex.pattern_len();
    let own = regex.memory_usage();
    let kept = cache_len(rt.alloc(), regex)?;
    writeln!(
        rt.stdout(),
        "{patterns} patterns built, {micros} us, {own} + {kept} bytes"
    )?;
    Ok(())
}

/// Counts once in the standard input, and writes how long that took.
fn put_count(rt: &HostRuntime, regex: &Regex, what: &str) -> Result<(), BenchError> {
    let mut bytes = Vec::new(rt.alloc());
    rt.stdin().read_to_end(&mut bytes)?;
    let start = Instant::now(rt)?;
    let count = match what {
        "which" => count_which(rt.alloc(), regex, &bytes)?,
        _ => count_matches(rt.alloc(), regex, &bytes)?,
    };
    let micros = start.elapsed(rt)?.as_micros();
    writeln!(rt.stdout(), "{count} found, {micros} us")?;
    Ok(())
}

/// Writes what the build took that began at this time, and what one count takes.
fn put_both(rt: &HostRuntime, regex: &Regex, start: Instant, what: &str) -> Result<(), BenchError> {
    put_build(rt, regex, start)?;
    put_count(rt, regex, what)
}

/// Builds the regex of a file's lines and counts once.
fn bench(rt: &HostRuntime, file: &str, how: &str, what: &str) -> Result<u8, BenchError> {
    let text = fs::read_to_string(rt, file)?;
    let start = Instant::now(rt)?;
    match built(rt.alloc(), &text, how == "each") {
        Ok(regex) => {
            let put = put_both(rt, &regex, start, what);
            drop(regex);
            put?;
            Ok(0)
        }
        Err(error) => {
            writeln!(rt.stderr(), "{error}")?;
            Ok(FAULT)
        }
    }
}

/// Does what the arguments ask for.
pub fn run_with(rt: &HostRuntime, words: &[&str]) -> u8 {
    if words.len() != 3 {
        let _ = writeln!(rt.stderr(), "{USAGE}");
        return FAULT;
    }
    match bench(rt, words[0], words[1], words[2]) {
        Ok(status) => status,
        Err(error) => report(rt, &error),
    }
}
