//! Patterns built for every engine.

ghost use Rattle.rc_text.specs.Limits.{most_patterns};
ghost use Rattle.std.specs.Prelude.{◌≤◌, length};
ghost use Rattle.rc_program.specs.Columns.{AreColumns, OwnSlots};
ghost use Rattle.rc_program.specs.Heads.{AreHeads, flags_in};
ghost use Rattle.rc_program.specs.Sought.{IsRunnable};
ghost use Rattle.rc_program.specs.Places.{places_of};

use crate::settings::{Asked, Settings};
use crate::tables::Hybrid;
use api_meta::regex::Regex;
use api_pikevm::vm::PikeVM;
use rc_build::compile::compile_all;
use rc_build::texts::parse_all;
use rc_pattern::hir::{Hir, Look, LookSet};
use rc_program::columns::{Columns, columns_of};
use rc_program::heads::heads_of;
use rc_program::place::Place;
use rc_program::program::Program;
use rc_settings::error::BuildError;
use rc_text::types::MatchKind;
use std::alloc::Global;

/// More patterns than this are refused by the condition of a build.
pub const MOST_PATTERNS: usize = 2147483647;

/// The assertions that are decided by characters: searches by tables can't decide them beside a
/// byte above 127.
const WORDS: [Look; 6] = [
    Look::WordUnicode,
    Look::WordUnicodeNegate,
    Look::WordStartUnicode,
    Look::WordEndUnicode,
    Look::WordStartHalfUnicode,
    Look::WordEndHalfUnicode,
];

/// A list of patterns, built for every engine.
#[derive(Drop)]
pub struct Engines {
    /// The regexes.
    pub regexes: Regexes,
    /// The engines that search by tables.
    pub tables: TableEngines,
    /// The `PikeVM`.
    pub vm: PikeVM,
    /// The program that the walker may go through.
    pub program: Option<Program>,
    /// What is known of the patterns.
    pub known: Known,
}

/// The regexes of a list of patterns.
#[derive(Drop)]
pub struct Regexes {
    /// The one that the row's settings ask for.
    pub plain: Regex,
    /// The one that looks for no needles of its own, and has no tables.
    pub unfiltered: Regex,
    /// The one that looks for no needles of its own, and has tables however large.
    pub tabled: Regex,
}

/// The engines of a list of patterns that search by tables.
#[derive(Drop)]
pub struct TableEngines {
    /// The DFA, unless the row wants none.
    pub dfa: Option<api_dfa::regex::Regex>,
    /// A hybrid with the cache that it has by default.
    pub hybrid: Hybrid,
    /// A hybrid with the least cache.
    pub small: Hybrid,
}

impl Regexes {
    /// The three regexes, where hybrids have this least capacity of a cache.
    fn build(
        alloc: Global,
        patterns: &[&str],
        settings: &Settings,
        least: usize,
    ) -> Result<Regexes, BuildError>
        requires { length patterns.now ≤ most_patterns }
    {
        let capacity = match settings.capacity {
            Some(capacity) => Some(capacity.bytes(least)),
            None => None,
        };
        let plain = settings.regex(alloc, patterns, Asked::Capacity(capacity))?;
        let built = both(plain, settings.regex(alloc, patterns, Asked::Unfiltered))?;
        let (built, tabled) = both(built, settings.regex(alloc, patterns, Asked::Tabled))?;
        let (plain, unfiltered) = built;
        Ok(Regexes {
            plain,
            unfiltered,
            tabled,
        })
    }
}

impl TableEngines {
    /// The engines that search by tables: the DFA, unless the row wants none, a hybrid, and one with
    /// the least capacity.
    fn build(
        alloc: Global,
        patterns: &[&str],
        settings: &Settings,
    ) -> Result<TableEngines, BuildError>
        requires { length patterns.now ≤ most_patterns }
    {
        let dfa = dfa_of(alloc, patterns, settings)?;
        let (dfa, hybrid) = both(dfa, hybrid_of(alloc, patterns, settings, None))?;
        let least = Some(hybrid.least());
        let built = both((dfa, hybrid), hybrid_of(alloc, patterns, settings, least))?;
        let ((dfa, hybrid), small) = built;
        Ok(TableEngines { dfa, hybrid, small })
    }
}

/// What is known of patterns.
#[derive(Clone, Copy)]
pub struct Known {
    /// Whether an assertion of theirs is decided by the characters around it.
    pub has_words: bool,
    /// Whether matches may be passed over: empty ones stand on boundaries of characters alone, and
    /// some pattern may be empty.
    pub passes_over: bool,
}

impl Engines {
    /// The patterns that these texts are read as.
    pub fn build(
        alloc: Global,
        patterns: &[&str],
        settings: &Settings,
    ) -> Result<Engines, BuildError>
        requires { length patterns.now ≤ most_patterns }
    {
        let built = both(
            read(alloc, patterns, settings)?,
            TableEngines::build(alloc, patterns, settings),
        )?;
        let built = both(built, settings.vm(alloc, patterns))?;
        let least = built.0.1.small.least();
        let regexes = Regexes::build(alloc, patterns, settings, least);
        let (built, regexes) = both(built, regexes)?;
        let (((known, program), tables), vm) = built;
        Ok(Engines {
            regexes,
            tables,
            vm,
            program,
            known,
        })
    }
}

/// Both things, or the error in place of the second. The first is dropped then.
fn both<A: Drop, B: Drop>(first: A, second: Result<B, BuildError>) -> Result<(A, B), BuildError> {
    match second {
        Ok(second) => Ok((first, second)),
        Err(error) => Err(error),
    }
}

/// The DFA, unless the row wants none.
fn dfa_of(
    alloc: Global,
    patterns: &[&str],
    settings: &Settings,
) -> Result<Option<api_dfa::regex::Regex>, BuildError>
    requires { length patterns.now ≤ most_patterns }
{
    if !settings.tables {
        return Ok(None);
    }
    match settings.dfa(alloc, patterns) {
        Ok(dfa) => Ok(Some(dfa)),
        Err(error) => Err(error),
    }
}

/// A hybrid with this capacity of a cache, or with the one that it has by default.
fn hybrid_of(
    alloc: Global,
    patterns: &[&str],
    settings: &Settings,
    capacity: Option<usize>,
) -> Result<Hybrid, BuildError>
    requires { length patterns.now ≤ most_patterns }
{
    match settings.hybrid(alloc, patterns, capacity) {
        Ok(regex) => Hybrid::new(alloc, regex, capacity.is_some()),
        Err(error) => Err(error),
    }
}

/// What is known of the patterns, and their program where the walker goes through it.
fn read(
    alloc: Global,
    patterns: &[&str],
    settings: &Settings,
) -> Result<(Known, Option<Program>), BuildError>
    requires { length patterns.now ≤ most_patterns }
{
    let hirs = parse_all(alloc, patterns, &settings.syntax)?;
    let known = Known {
        has_words: have_words(&hirs),
        passes_over: settings.utf8_empty && may_be_empty(&hirs),
    };
    let program = program(alloc, &hirs, settings, known.passes_over);
    drop(hirs);
    both(known, program)
}

/// Whether an assertion of these patterns is decided by the characters around it.
fn have_words(hirs: &[Hir]) -> bool {
    for hir in hirs {
        if has_words(hir.properties().look_set()) {
            return true;
        }
    }
    false
}

/// Whether one of these assertions is decided by the characters around it.
fn has_words(looks: LookSet) -> bool {
    for look in &WORDS {
        if looks.contains(*look) {
            return true;
        }
    }
    false
}

/// Whether the least length of some pattern is 0.
pub fn may_be_empty(hirs: &[Hir]) -> bool {
    for hir in hirs {
        if hir.properties().minimum_len() == Some(0) {
            return true;
        }
    }
    false
}

/// The program of these patterns, where the walker goes through it: it finds preferred matches
/// alone.
fn program(
    alloc: Global,
    hirs: &[Hir],
    settings: &Settings,
    passes_over: bool,
) -> Result<Option<Program>, BuildError> {
    if !settings.walker || settings.kind != MatchKind::LeftmostFirst || hirs.len() > MOST_PATTERNS {
        return Ok(None);
    }
    let made = compile_all(alloc, hirs, settings.size_limit(), settings.which)?;
    let heads = heads_of(alloc, &made.places)?;
    let columns = columns_of(alloc, &made.places)?;
    let program = program_of(
        made.places,
        heads,
        columns,
        settings.terminator,
        passes_over,
    );
    Ok(Some(program))
}

/// These places with their heads and columns, under settings.
fn program_of(
    places: Vec<Place>,
    heads: Vec<Vec<bool>>,
    columns: Columns,
    terminator: u8,
    passes_over: bool,
) -> Program
    requires runnable { IsRunnable (places_of places.items) }
    requires closed_over { AreHeads (places_of places.items) (flags_in heads.items) }
    requires lined_up { AreColumns (places_of places.items) columns }
    requires own { OwnSlots (places_of places.items) }
{
    Program {
        places,
        terminator,
        passes_over,
        heads,
        columns,
    }
}
