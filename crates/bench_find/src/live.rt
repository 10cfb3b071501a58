//! Benchmark of live matches: edits a text at random, keeps the list of its matches, and times what
//! the list takes.

ghost use Rattle.std.specs.Prelude.{IfOk, IfSome};
ghost use Rattle.live_matches.specs.Live.{IsCacheOf};
ghost use Rattle.live_matches.specs.Quiet.{IsLongest};

use crate::FAULT;
use crate::random::Random;
use crate::typing::{MOST, change_of, differences, keep, whole_of};
use gap_buffer::GapBuffer;
use live_matches::{LiveMatches, longest_of};
use regex_cursor::engines::meta::{BuildError, Cache, Regex};
use regex_cursor::syntax;
use regex_cursor::types::MatchKind;
use std::alloc::{AllocError, AllocFailed, Global};
use std::io::Write;
use std::{fs, io};

/// The word before the arguments of this benchmark.
pub const WORD: &str = "live";

const USAGE: &str =
    "usage: bench_find live PATTERN FILE EDITS SEED near|anywhere [check [first|longest|all]]";

/// What the arguments ask for.
#[derive(Drop)]
struct Job<'a> {
    pattern: &'a str,
    file: &'a str,
    edits: u32,
    seed: u64,
    is_near: bool,
    is_checked: bool,
    kind: MatchKind,
}

/// A regex, and the greatest length of its matches if that is known.
#[derive(Drop)]
pub(crate) struct Pattern {
    pub(crate) regex: Regex,
    pub(crate) longest: Option<usize>,
}

/// What the edits took.
#[derive(Drop)]
struct Tally {
    /// The time of each edit of the list, in nanoseconds.
    times: Vec<u128>,
    /// The number of matches that differed from those of a new search.
    differences: usize,
    /// The number of matches after the last edit.
    matches: usize,
    /// The number of bytes of the list then.
    bytes: usize,
}

/// Why the benchmark failed.
#[derive(Drop)]
pub(crate) enum LiveError {
    /// The pattern doesn't parse.
    Syntax(syntax::Error),
    /// The pattern couldn't be built.
    Build(BuildError),
    /// Out of memory.
    Memory,
    /// The file couldn't be read, the clock failed, or a line couldn't be written.
    Io(io::Error),
}

impl From<AllocError> for LiveError {
    fn from(_: AllocError) -> LiveError {
        LiveError::Memory
    }
}

impl<T: Drop> From<AllocFailed<T>> for LiveError {
    fn from(_: AllocFailed<T>) -> LiveError {
        LiveError::Memory
    }
}

impl From<syntax::Error> for LiveError {
    fn from(error: syntax::Error) -> LiveError {
        LiveError::Syntax(error)
    }
}

impl From<BuildError> for LiveError {
    fn from(error: BuildError) -> LiveError {
        LiveError::Build(error)
    }
}

impl From<io::Error> for LiveError {
    fn from(error: io::Error) -> LiveError {
        LiveError::Io(error)
    }
}

/// What these arguments ask for.
fn job_of<'a>(words: &[&'a str]) -> Option<Job<'a>> {
    if words.len() < 5 || words.len() > 7 {
        return None;
    }
    let is_near = match words[4] {
        "near" => true,
        "anywhere" => false,
        _ => return None,
    };
    let is_checked = match words.get(5) {
        Some(word) if *word == "check" => true,
        Some(_) => return None,
        None => false,
    };
    Some(Job {
        pattern: words[0],
        file: words[1],
        edits: words[2].parse::<u32>().ok()?,
        seed: words[3].parse::<u64>().ok()?,
        is_near,
        is_checked,
        kind: kind_of(words.get(6))?,
    })
}

/// The kind of match that this word names. Without one it is the leftmost-first match.
fn kind_of(word: Option<&&str>) -> Option<MatchKind> {
    let Some(word) = word else {
        return Some(MatchKind::LeftmostFirst);
    };
    match *word {
        "first" => Some(MatchKind::LeftmostFirst),
        "longest" => Some(MatchKind::LeftmostLongest),
        "all" => Some(MatchKind::All),
        _ => None,
    }
}

/// Builds the pattern.
fn pattern_of(alloc: Global, text: &str, kind: MatchKind) -> Result<Pattern, LiveError>
    ensures { IfOk result (λ p. IfSome p.longest (IsLongest p.regex)) }
{
    let hir = syntax::parse(alloc, text, &syntax::Config::new())?;
    let longest = longest_of(std::slice::from_ref(&hir));
    let mut builder = Regex::builder();
    builder.configure(Regex::config().match_kind(kind));
    let built = builder.build_from_hir(alloc, &hir);
    drop(builder);
    drop(hir);
    let regex = built?;
    Ok(Pattern { regex, longest })
}

/// Edits the text as often as the job asks, and keeps the list.
fn run_edits(
    rt: &HostRuntime,
    pattern: &Pattern,
    cache: &mut Cache,
    job: &Job<'_>,
    source: &[u8],
) -> Result<Tally, LiveError>
    requires made { IsCacheOf pattern.now.regex cache.old }
    requires longest { IfSome pattern.now.longest (IsLongest pattern.now.regex) }
{
    let regex = &pattern.regex;
    let mut text = GapBuffer::new(rt.alloc());
    text.insert(source)?;
    text.move_to(source.len() / 2);
    let mut live = LiveMatches::new(rt.alloc(), regex, cache, &mut whole_of(&text))?;
    let mut random = Random::new(job.seed);
    let mut times = Vec::new(rt.alloc());
    let mut differ: usize = 0;
    'edits: for _ in 0..job.edits {
        let most = if job.is_checked {
            random.below(MOST + 1)
        } else {
            MOST
        };
        let change = change_of(&mut random, &text, job.is_near, most, source);
        let time = keep(rt, pattern, cache, &mut text, &mut live, &change)?;
        times.push(time.as_nanos())?;
        if job.is_checked {
            let found = differences(rt.alloc(), regex, &text, &live)?;
            differ = differ.saturating_add(found);
        }
    }
    Ok(Tally {
        times,
        differences: differ,
        matches: live.len(),
        bytes: live.memory_usage(),
    })
}

/// The time with this index, in nanoseconds, or 0 if there is none.
fn time_at(times: &[u128], index: usize) -> u128 {
    match times.get(index) {
        Some(time) => *time,
        None => 0,
    }
}

/// Writes what the edits took.
fn put(rt: &HostRuntime, job: &Job<'_>, tally: &mut Tally) -> Result<(), LiveError> {
    let matches = tally.matches;
    writeln!(rt.stdout(), "{matches} matches")?;
    if job.is_checked {
        let differences = tally.differences;
        writeln!(rt.stdout(), "{differences} differences")?;
        return Ok(());
    }
    tally.times.sort()?;
    let count = tally.times.len();
    let median = time_at(&tally.times, count / 2);
    let late = time_at(&tally.times, (count - count / 100).saturating_sub(1));
    let bytes = tally.bytes;
    writeln!(
        rt.stdout(),
        "median {median} ns, 99th percentile {late} ns, {bytes} bytes"
    )?;
    Ok(())
}

/// Reads the text, edits it, and writes what that took.
fn bench(rt: &HostRuntime, pattern: &Pattern, job: &Job<'_>) -> Result<(), LiveError>
    requires longest { IfSome pattern.now.longest (IsLongest pattern.now.regex) }
{
    let source = fs::read(rt, job.file)?;
    let regex = &pattern.regex;
    let mut cache = regex.create_cache(rt.alloc())?;
    let done = run_edits(rt, pattern, &mut cache, job, &source);
    drop(cache);
    let mut tally = done?;
    put(rt, job, &mut tally)
}

/// Does what the arguments ask for.
pub fn run_with(rt: &HostRuntime, words: &[&str]) -> u8 {
    let Some(job) = job_of(words) else {
        let _ = writeln!(rt.stderr(), "{USAGE}");
        return FAULT;
    };
    match pattern_of(rt.alloc(), job.pattern, job.kind) {
        Ok(pattern) => {
            let done = bench(rt, &pattern, &job);
            drop(pattern);
            match done {
                Ok(()) => 0,
                Err(error) => report(rt, &error),
            }
        }
        Err(error) => report(rt, &error),
    }
}

/// Writes the line of an error. An error of the standard error is ignored.
fn report(rt: &HostRuntime, error: &LiveError) -> u8 {
    let _ = match error {
        LiveError::Syntax(error) => writeln!(rt.stderr(), "{error}"),
        LiveError::Build(error) => writeln!(rt.stderr(), "{error}"),
        LiveError::Memory => writeln!(rt.stderr(), "out of memory"),
        LiveError::Io(error) => writeln!(rt.stderr(), "{error}"),
    };
    FAULT
}
