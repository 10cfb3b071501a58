//! Benchmark: counts the matches of a pattern in the standard input, cut into chunks, and times
//! rounds of it.
//!
//! The arguments are the pattern, the length of a chunk in bytes (0 for one chunk), the number of
//! rounds (3 by default), what is timed, and which engines search.
//!
//! What is timed:
//! - `matches`: the matches (the default)
//! - `captures`: the matches with their groups
//! - `searches`: the matches, by one search after another. Each begins where the last match ended
//! - `reaches`: the same, by searches that tell how many bytes settle a match
//! - `stream`: the matches of a stream that is fed the chunks
//! - `steps`: the matches, listed in slices of 65,536 bytes
//! - `texts`: each chunk is a text of its own, searched in one cache, and those with a match count
//! - `finds`: as `texts`, but with a cache for each text
//! - `build`: the build of the pattern
//! - `tree`: the matches of a tree as deep as a build takes. The letters of the pattern name its
//!   nodes in turn, from the outermost on: `r` a repetition, `g` a group, `c` a concatenation, `a`
//!   an alternation
//!
//! Which engines search:
//! - `all`: any (the default)
//! - `plain`: no prefilter
//! - `met`: no fully built DFA
//! - `lazy`: neither a prefilter nor a fully built DFA
//! - `pass`: the Pike VM alone, with no prefilter
//!
//! If the first argument is `set`, the next ones are a file with a pattern on each line; `each`
//! (a pattern for each line) or `one` (one alternation of all); and `matches` or `which` (the
//! patterns that have a match). It prints the times and sizes of one build and one search.
//!
//! If the first argument is `live`, the next ones are the pattern, a file with the text, the number
//! of edits, a seed, where the edits are (`near` a caret that moves, or `anywhere`), and maybe
//! `check` and a kind of match: `first`, `longest` or `all`. An edit deletes up to 40 bytes, and
//! inserts up to 40 of the file. It prints the number of matches after the edits, the median and
//! the 99th percentile of the time that an edit of the list takes, and the number of bytes of the
//! list. With `check` it prints, in place of times and bytes, how many matches differ: after each
//! edit, the list is compared with that of `Regex::find_iter`. The edits are then smaller, most of
//! them.
//!
//! Without arguments it prints nothing.
#![tactic(auto)]

mod live;
mod random;
mod sets;
mod slices;
mod typing;

use regex_cursor::Input;
use regex_cursor::cursor::{ChunkCursor, TooLong};
use regex_cursor::engines::meta::{BuildError, Builder, Config, Finder, Regex};
use regex_cursor::hir::{Capture, Hir, Repetition};
use std::alloc::{AllocError, Global};
use std::io;
use std::io::{Read, Write};
use std::process::ExitCode;
use std::time::{Duration, Instant};

/// The status of an error.
const FAULT: u8 = 2;

/// The default number of rounds.
const ROUNDS: u32 = 3;

/// How deep a tree a build takes.
const LEVELS: usize = 1024;

const USAGE: &str =
    "usage: bench_find PATTERN CHUNK [ROUNDS [matches|captures|searches|reaches|stream|steps|texts|finds|build|tree [all|plain|met|lazy|pass]]]";

/// What is timed.
#[derive(Clone, Copy)]
enum What {
    /// All matches.
    Matches,
    /// All matches with their groups.
    Captures,
    /// All matches, by one search after another.
    Searches,
    /// The same, by searches that tell how many bytes settle a match.
    Reaches,
    /// All matches of a stream of the chunks.
    Stream,
    /// All matches, each found in slices.
    Steps,
    /// A search of each chunk as a text of its own.
    Texts,
    /// A search of each chunk as a text of its own, without a cache.
    Finds,
    /// A build of the pattern.
    Build,
    /// All matches of a tree.
    Tree,
}

/// Which engines search.
#[derive(Clone, Copy)]
enum By {
    /// Those that are chosen by default.
    All,
    /// Without a prefilter.
    Plain,
    /// Without a full DFA.
    Met,
    /// Without a prefilter and without a full DFA.
    Lazy,
    /// Without a prefilter and without DFAs.
    Pass,
}

/// What the arguments ask for.
#[derive(Drop)]
struct Job<'a> {
    pattern: &'a str,
    chunk_len: usize,
    rounds: u32,
    what: What,
    by: By,
}

/// Why the benchmark failed, once the pattern was built.
#[derive(Drop)]
enum BenchError {
    /// The number of bytes in the text reaches the greatest `usize`.
    TooLong,
    /// Out of memory.
    Memory,
    /// The text couldn't be read, the clock failed, or a line couldn't be written.
    Io(io::Error),
}

impl From<TooLong> for BenchError {
    fn from(_: TooLong) -> BenchError {
        BenchError::TooLong
    }
}

impl From<AllocError> for BenchError {
    fn from(_: AllocError) -> BenchError {
        BenchError::Memory
    }
}

impl From<io::Error> for BenchError {
    fn from(error: io::Error) -> BenchError {
        BenchError::Io(error)
    }
}

/// The arguments of the program. An error means out of memory, or an argument that isn't text.
fn words_of(rt: &HostRuntime) -> io::Result<Vec<String>> {
    let words = std::env::args(rt)?.skip(1).collect(rt.alloc())?;
    Ok(words)
}

/// The arguments, borrowed.
fn lent(alloc: Global, words: &[String]) -> Result<Vec<&str>, AllocError> {
    words.iter().map(|word| word.as_str()).collect(alloc)
}

/// What the argument says is timed.
fn what_of(word: &str) -> Option<What> {
    match word {
        "matches" => Some(What::Matches),
        "captures" => Some(What::Captures),
        "searches" => Some(What::Searches),
        "reaches" => Some(What::Reaches),
        "stream" => Some(What::Stream),
        "steps" => Some(What::Steps),
        "texts" => Some(What::Texts),
        "finds" => Some(What::Finds),
        "build" => Some(What::Build),
        "tree" => Some(What::Tree),
        _ => None,
    }
}

/// Which engines the argument names.
fn by_of(word: &str) -> Option<By> {
    match word {
        "all" => Some(By::All),
        "plain" => Some(By::Plain),
        "met" => Some(By::Met),
        "lazy" => Some(By::Lazy),
        "pass" => Some(By::Pass),
        _ => None,
    }
}

/// What these arguments ask for, if they ask for at least one round.
fn job_of<'a>(words: &[&'a str]) -> Option<Job<'a>> {
    if words.len() < 2 || words.len() > 5 {
        return None;
    }
    let rounds = match words.get(2) {
        Some(word) => word.parse::<u32>().ok()?,
        None => ROUNDS,
    };
    let what = match words.get(3) {
        Some(word) => what_of(word)?,
        None => What::Matches,
    };
    let by = match words.get(4) {
        Some(word) => by_of(word)?,
        None => By::All,
    };
    if rounds == 0 {
        return None;
    }
    Some(Job {
        pattern: words[0],
        chunk_len: words[1].parse::<usize>().ok()?,
        rounds,
        what,
        by,
    })
}

/// The settings under which these engines search.
fn config_of(by: By) -> Config {
    let config = Config::new();
    match by {
        By::All => config,
        By::Plain => config.auto_prefilter(false),
        By::Met => config.dfa(false),
        By::Lazy => config.auto_prefilter(false).dfa(false),
        By::Pass => config.auto_prefilter(false).dfa(false).hybrid(false),
    }
}

/// A tree in a node of the kind that the letter names. A group has the number.
fn within(alloc: Global, letter: u8, number: usize, tree: Hir) -> Result<Hir, AllocError> {
    match letter {
        b'g' => Ok(Hir::capture(Capture {
            index: number,
            name: None,
            sub: Box::new(alloc, tree)?,
        })),
        b'c' => {
            let subs = vec![in alloc; Hir::literal(alloc, b"c")?, tree]?;
            Hir::concat(alloc, subs)
        }
        b'a' => {
            let subs = vec![in alloc; Hir::literal(alloc, b"a")?, tree]?;
            Hir::alternation(alloc, subs)
        }
        _ => Ok(Hir::repetition(Repetition {
            min: 0,
            max: None,
            greedy: true,
            sub: Box::new(alloc, tree)?,
        })),
    }
}

/// The kind of node at a level.
fn letter_at(letters: &[u8], level: usize) -> u8 {
    match letters.len() {
        0 => b'r',
        count => letters[level % count],
    }
}

/// The number of levels that are groups.
fn groups_in(letters: &[u8]) -> usize {
    let mut count: usize = 0;
    for level in 1..LEVELS {
        count = count.saturating_add(usize::from(letter_at(letters, level) == b'g'));
    }
    count
}

/// A tree whose levels are nodes of these kinds in turn.
fn tree_of(alloc: Global, letters: &[u8]) -> Result<Hir, AllocError> {
    let mut number = groups_in(letters);
    let mut tree = Hir::literal(alloc, b"x")?;
    for level in (1..LEVELS).rev() {
        let letter = letter_at(letters, level);
        tree = within(alloc, letter, number, tree)?;
        if letter == b'g' {
            number = number.saturating_sub(1);
        }
    }
    Ok(tree)
}

/// A tree of these letters, built.
fn built_of_tree(alloc: Global, builder: &Builder, letters: &[u8]) -> Result<Regex, BuildError> {
    let tree = tree_of(alloc, letters)?;
    let built = builder.build_from_hir(alloc, &tree);
    drop(tree);
    built
}

/// What is searched for, built so that these engines search.
fn built(alloc: Global, job: &Job<'_>) -> Result<Regex, BuildError> {
    let mut builder = Regex::builder();
    builder.configure(config_of(job.by));
    let built = match job.what {
        What::Tree => built_of_tree(alloc, &builder, job.pattern.as_bytes()),
        What::Matches
        | What::Captures
        | What::Searches
        | What::Reaches
        | What::Stream
        | What::Steps
        | What::Texts
        | What::Finds
        | What::Build => builder.build(alloc, job.pattern),
    };
    drop(builder);
    built
}

/// Cuts the bytes into chunks of `n` bytes, of which the last may be shorter, or into one chunk if
/// `n` is 0.
fn cut(alloc: Global, bytes: &[u8], n: usize) -> Result<Vec<&[u8]>, AllocError> {
    let mut chunks = Vec::new(alloc);
    if n == 0 {
        chunks.push(bytes)?;
        return Ok(chunks);
    }
    for chunk in bytes.chunks(n) {
        chunks.push(chunk)?;
    }
    Ok(chunks)
}

/// The number of matches in the chunks.
fn count_in(alloc: Global, regex: &Regex, chunks: &[&[u8]]) -> Result<usize, BenchError> {
    let input = Input::new(ChunkCursor::new(chunks)?);
    let mut count: usize = 0;
    for _ in regex.find_iter(alloc, input)? {
        count = count.saturating_add(1);
    }
    Ok(count)
}

/// The number of matches in the chunks, each with its groups.
fn count_captures(alloc: Global, regex: &Regex, chunks: &[&[u8]]) -> Result<usize, BenchError> {
    let input = Input::new(ChunkCursor::new(chunks)?);
    let mut count: usize = 0;
    for captures in regex.captures_iter(alloc, input)? {
        captures?;
        count = count.saturating_add(1);
    }
    Ok(count)
}

/// Where the first match in the input ends. Each match is settled by the bytes before its reach, so
/// with `told` it has to end there at most.
fn end_of(
    finder: &mut Finder<'_>,
    input: &mut Input<ChunkCursor<'_>>,
    told: bool,
) -> Option<usize> {
    if !told {
        return Some(finder.find(input)?.end());
    }
    let reached = finder.find_reach(input);
    let end = reached.found?.end();
    Some(end.min(reached.reach))
}

/// The number of matches in the chunks, by one search after another, which tell how many bytes
/// settle a match if `told` is set.
fn count_searches(
    alloc: Global,
    regex: &Regex,
    chunks: &[&[u8]],
    told: bool,
) -> Result<usize, BenchError> {
    let mut finder = Finder::new(alloc, regex)?;
    let mut input = Input::new(ChunkCursor::new(chunks)?);
    let len = input.end();
    let mut count: usize = 0;
    let mut at = 0;
    'searches: while at < len {
        input.set_range(at, len);
        let Some(end) = end_of(&mut finder, &mut input, told) else {
            break;
        };
        count = count.saturating_add(1);
        at = end.max(at + 1);
    }
    drop(finder);
    Ok(count)
}

/// The number of chunks that have a match as texts of their own.
fn count_texts(alloc: Global, regex: &Regex, chunks: &[&[u8]]) -> Result<usize, BenchError> {
    let mut cache = regex.create_cache(alloc)?;
    let mut count: usize = 0;
    for chunk in chunks {
        let found = regex.search_with(&mut cache, &mut Input::new(*chunk));
        count = count.saturating_add(usize::from(found.is_some()));
    }
    drop(cache);
    Ok(count)
}

/// The number of chunks that have a match as texts of their own, each searched without a given
/// cache.
fn count_finds(alloc: Global, regex: &Regex, chunks: &[&[u8]]) -> Result<usize, BenchError> {
    let mut count: usize = 0;
    for chunk in chunks {
        let found = regex.find(alloc, Input::new(*chunk))?;
        count = count.saturating_add(usize::from(found.is_some()));
    }
    Ok(count)
}

/// The number of patterns that are built, which is one unless memory runs out.
fn count_built(alloc: Global, job: &Job<'_>) -> usize {
    let built = built(alloc, job);
    let count = usize::from(built.is_ok());
    drop(built);
    count
}

/// Does what is timed, and returns its count.
fn count(
    alloc: Global,
    regex: &Regex,
    chunks: &[&[u8]],
    job: &Job<'_>,
) -> Result<usize, BenchError> {
    match job.what {
        What::Matches | What::Tree => count_in(alloc, regex, chunks),
        What::Captures => count_captures(alloc, regex, chunks),
        What::Searches => count_searches(alloc, regex, chunks, false),
        What::Reaches => count_searches(alloc, regex, chunks, true),
        What::Stream => slices::count_stream(alloc, regex, chunks),
        What::Steps => slices::count_steps(alloc, regex, chunks),
        What::Texts => count_texts(alloc, regex, chunks),
        What::Finds => count_finds(alloc, regex, chunks),
        What::Build => Ok(count_built(alloc, job)),
    }
}

/// Counts once, writes the count and the time, and returns the time.
fn round(
    rt: &HostRuntime,
    regex: &Regex,
    chunks: &[&[u8]],
    job: &Job<'_>,
) -> Result<Duration, BenchError> {
    let start = Instant::now(rt)?;
    let count = count(rt.alloc(), regex, chunks, job)?;
    let time = start.elapsed(rt)?;
    let micros = time.as_micros();
    writeln!(rt.stdout(), "{count} matches, {micros} us")?;
    Ok(time)
}

/// Counts in this many rounds, and writes the least time at the end.
fn rounds(
    rt: &HostRuntime,
    regex: &Regex,
    chunks: &[&[u8]],
    job: &Job<'_>,
) -> Result<(), BenchError> {
    let mut least = Duration::MAX;
    for _ in 0..job.rounds {
        let time = round(rt, regex, chunks, job)?;
        least = least.min(time);
    }
    let micros = least.as_micros();
    writeln!(rt.stdout(), "least: {micros} us")?;
    Ok(())
}

/// Reads the text, cuts it, and counts in rounds.
fn bench(rt: &HostRuntime, regex: &Regex, job: &Job<'_>) -> Result<(), BenchError> {
    let mut bytes = Vec::new(rt.alloc());
    rt.stdin().read_to_end(&mut bytes)?;
    let chunks = cut(rt.alloc(), &bytes, job.chunk_len)?;
    rounds(rt, regex, &chunks, job)
}

/// Writes the line of an error. An error of the standard error is ignored.
fn report(rt: &HostRuntime, error: &BenchError) -> u8 {
    let _ = match error {
        BenchError::TooLong => writeln!(rt.stderr(), "input too long"),
        BenchError::Memory => writeln!(rt.stderr(), "out of memory"),
        BenchError::Io(error) => writeln!(rt.stderr(), "{error}"),
    };
    FAULT
}

/// Does what the arguments ask for, which is nothing if there are none.
fn run_with(rt: &HostRuntime, words: &[&str]) -> u8 {
    if words.is_empty() {
        return 0;
    }
    if words[0] == sets::WORD {
        return sets::run_with(rt, &words[1..]);
    }
    if words[0] == live::WORD {
        return live::run_with(rt, &words[1..]);
    }
    let Some(job) = job_of(words) else {
        let _ = writeln!(rt.stderr(), "{USAGE}");
        return FAULT;
    };
    match built(rt.alloc(), &job) {
        Ok(regex) => {
            let done = bench(rt, &regex, &job);
            drop(regex);
            match done {
                Ok(()) => 0,
                Err(error) => report(rt, &error),
            }
        }
        Err(error) => {
            let _ = writeln!(rt.stderr(), "{error}");
            FAULT
        }
    }
}

/// Reads the arguments, and does what they ask for.
fn run(rt: &HostRuntime) -> Result<u8, BenchError> {
    let words = words_of(rt)?;
    let words = lent(rt.alloc(), &words)?;
    Ok(run_with(rt, &words))
}

fn main(rt: HostRuntime) -> ExitCode {
    ExitCode::from(match run(&rt) {
        Ok(status) => status,
        Err(error) => report(&rt, &error),
    })
}
