//! The settings of a row, under which its patterns are built.

ghost use Rattle.rc_text.specs.Limits.{most_patterns};
ghost use Rattle.std.specs.Prelude.{◌≤◌, length};

use crate::faults::Verdict;
use crate::row::number;
use api_meta::regex::Regex;
use api_pikevm::vm::PikeVM;
use rc_build::limit::Limit;
use rc_needles::prefilter::Prefilter;
use rc_parser::{Config as Syntax, Grammar};
use rc_settings::error::BuildError;
use rc_settings::meta::Config;
use rc_settings::pikevm::Config as Searches;
use rc_settings::states::Config as States;
use rc_settings::thompson;
use rc_settings::which::WhichCaptures;
use rc_text::types::MatchKind;
use std::alloc::{AllocError, Global};

/// Settings.
#[derive(Clone, Copy)]
pub struct Settings<'a> {
    /// How the patterns are read.
    pub syntax: Syntax,
    /// Which matches are found.
    pub kind: MatchKind,
    /// Whether empty matches stand on boundaries of characters alone.
    pub utf8_empty: bool,
    /// Which groups are kept.
    pub which: WhichCaptures,
    /// The limit on the patterns' size.
    pub limit: Option<usize>,
    /// The byte that ends a line.
    pub terminator: u8,
    /// A needle of the caller's prefilter.
    pub needle: Option<&'a str>,
    /// Whether the walker searches too.
    pub walker: bool,
    /// The limit on the tables of a DFA.
    pub dfa_limit: Option<usize>,
    /// Whether a DFA searches too, by tables that are made at the build.
    pub tables: bool,
    /// The capacity of the regex's cache of states. Where it is set the regex has no tables.
    pub capacity: Option<Capacity>,
    /// Whether a cache of the capacity that it has by default may be cleared.
    pub clears: bool,
    /// Whether tables of states have one column for all bytes that no pattern tells apart.
    pub byte_classes: bool,
}

/// The capacity of a cache of states.
#[derive(Clone, Copy)]
pub enum Capacity {
    /// The least that serves, plus the first number and less the second.
    Least(usize, usize),
    /// So many bytes.
    Bytes(usize),
}

impl Capacity {
    /// What a word says: a number of bytes, or `least`, perhaps with `+` or `-` and a number.
    fn read(word: &str, verdict: &mut Verdict) -> Capacity {
        let Some(rest) = word.strip_prefix("least") else {
            return Capacity::Bytes(number(word, verdict));
        };
        if let Some(more) = rest.strip_prefix('+') {
            return Capacity::Least(number(more, verdict), 0);
        }
        if let Some(less) = rest.strip_prefix('-') {
            return Capacity::Least(0, number(less, verdict));
        }
        verdict.expect(rest.is_empty(), "unread", "setting");
        Capacity::Least(0, 0)
    }

    /// The bytes, where this is the least that serves.
    pub fn bytes(self, least: usize) -> usize {
        match self {
            Capacity::Least(more, less) => least.saturating_add(more).saturating_sub(less),
            Capacity::Bytes(bytes) => bytes,
        }
    }
}

/// The limit on the tables of a DFA where a row sets none.
const DFA_LIMIT: usize = 1048576;

/// What a word says of a limit: `none`, or a number.
fn limit(word: &str, verdict: &mut Verdict) -> Option<usize> {
    if word == "none" {
        None
    } else {
        Some(number(word, verdict))
    }
}

/// The byte that a word says as a number.
fn byte(word: &str, verdict: &mut Verdict) -> u8 {
    match word.parse::<u8>() {
        Ok(byte) => byte,
        Err(_) => {
            verdict.note("unread", "setting");
            0
        }
    }
}

/// What a regex is asked of beside the settings.
#[derive(Clone, Copy)]
pub enum Asked {
    /// This capacity, and no tables; or nothing.
    Capacity(Option<usize>),
    /// No needles of its own, and no tables.
    Unfiltered,
    /// No needles of its own, and tables.
    Tabled,
}

impl<'a> Settings<'a> {
    /// What holds where a row sets nothing.
    pub fn new() -> Settings<'a> {
        Settings {
            syntax: Syntax::new(),
            kind: MatchKind::LeftmostFirst,
            utf8_empty: true,
            which: WhichCaptures::All,
            limit: Some(10485760),
            terminator: b'\n',
            needle: None,
            walker: true,
            dfa_limit: Some(DFA_LIMIT),
            tables: true,
            capacity: None,
            clears: false,
            byte_classes: true,
        }
    }

    /// Sets what has this name.
    pub fn set(&mut self, name: &str, value: &'a str, verdict: &mut Verdict) {
        match name {
            "limit" => self.limit = limit(value, verdict),
            "terminator" => self.terminator = byte(value, verdict),
            "needle" => self.needle = Some(value),
            "capacity" => self.capacity = Some(Capacity::read(value, verdict)),
            "dfa_limit" => self.dfa_limit = Some(number(value, verdict)),
            "nest" => self.syntax = self.syntax.nest_limit(u32::from(byte(value, verdict))),
            _ => verdict.note("unread", "setting"),
        }
    }

    /// Sets what a whole field says, where it is one of these. Answers whether it is.
    pub fn set_to(&mut self, field: &str) -> bool {
        match field {
            "utf8=no" => self.syntax = self.syntax.utf8(false),
            "unicode=no" => self.syntax = self.syntax.unicode(false),
            "nocase=yes" => self.syntax = self.syntax.case_insensitive(true),
            "grammar=full" => self.syntax = self.syntax.grammar(Grammar::Full),
            "verbose=yes" => self.syntax = self.syntax.ignore_whitespace(true),
            "octal=yes" => self.syntax = self.syntax.octal(true),
            "empty_min=yes" => self.syntax = self.syntax.empty_min(true),
            "lines=yes" => self.syntax = self.syntax.multi_line(true),
            "kind=all" => self.kind = MatchKind::All,
            "kind=longest" => self.kind = MatchKind::LeftmostLongest,
            "utf8_empty=no" => self.utf8_empty = false,
            "captures=implicit" => self.which = WhichCaptures::Implicit,
            "captures=none" => self.which = WhichCaptures::None,
            "walker=no" => self.walker = false,
            "tables=no" => self.tables = false,
            "clears=may" => self.clears = true,
            "byte_classes=no" => self.byte_classes = false,
            _ => return false,
        }
        true
    }

    /// A regex of these patterns, of which this is asked too.
    pub fn regex(&self, alloc: Global, patterns: &[&str], asked: Asked) -> Result<Regex, BuildError>
        requires { length patterns.now ≤ most_patterns }
    {
        let needle = self.needle(alloc)?;
        let mut builder = Regex::builder();
        builder
            .syntax(self.syntax)
            .configure(self.config(asked, needle));
        let built = builder.build_many(alloc, patterns);
        drop(builder);
        built
    }

    /// The settings of a regex with this prefilter, where there is one.
    fn config(&self, asked: Asked, needle: Option<Prefilter>) -> Config {
        let config = Config::new()
            .prefilter(needle)
            .match_kind(self.kind)
            .utf8_empty(self.utf8_empty)
            .which_captures(self.which)
            .nfa_size_limit(self.limit)
            .line_terminator(self.terminator)
            .byte_classes(self.byte_classes);
        match asked {
            Asked::Capacity(None) => config,
            Asked::Capacity(Some(bytes)) => config.dfa(false).hybrid_cache_capacity(bytes),
            Asked::Unfiltered => config.auto_prefilter(false).dfa(false),
            Asked::Tabled => config
                .auto_prefilter(false)
                .dfa(true)
                .dfa_state_limit(None)
                .dfa_size_limit(self.regex_dfa_limit()),
        }
    }

    /// The prefilter of the needle, where there is one.
    fn needle(&self, alloc: Global) -> Result<Option<Prefilter>, AllocError> {
        match self.needle {
            Some(needle) => {
                Prefilter::new(alloc, MatchKind::LeftmostFirst, &[needle.as_bytes()])
            }
            None => Ok(None),
        }
    }

    /// The settings of a program.
    fn program(&self) -> thompson::Config {
        thompson::Config::new()
            .utf8(self.utf8_empty)
            .nfa_size_limit(self.limit)
            .which_captures(self.which)
            .line_terminator(self.terminator)
    }

    /// The limit on the patterns' size, by the grammar that reads them.
    pub fn size_limit(&self) -> Limit {
        Limit {
            bytes: self.limit,
            grammar: self.syntax.get_grammar(),
        }
    }

    /// The limit on all tables of a regex: four times that of each direction.
    fn regex_dfa_limit(&self) -> Option<usize> {
        match self.dfa_limit {
            Some(limit) => Some(limit.saturating_mul(4)),
            None => None,
        }
    }

    /// The DFA of these patterns.
    pub fn dfa(&self, alloc: Global, patterns: &[&str]) -> Result<api_dfa::regex::Regex, BuildError>
        requires { length patterns.now ≤ most_patterns }
    {
        let tables = States::new()
            .match_kind(self.kind)
            .byte_classes(self.byte_classes)
            .dfa_size_limit(self.dfa_limit);
        let mut builder = api_dfa::regex::Regex::builder();
        builder
            .thompson(self.program())
            .dense(tables)
            .syntax(self.syntax);
        let built = builder.build_many(alloc, patterns);
        drop(builder);
        built
    }

    /// The hybrid of these patterns, with this capacity of a cache, or with the one that it has by
    /// default.
    pub fn hybrid(
        &self,
        alloc: Global,
        patterns: &[&str],
        capacity: Option<usize>,
    ) -> Result<api_hybrid::regex::Regex, BuildError>
        requires { length patterns.now ≤ most_patterns }
    {
        let mut tables = States::new()
            .match_kind(self.kind)
            .byte_classes(self.byte_classes);
        if let Some(bytes) = capacity {
            tables = tables.cache_capacity(bytes);
        }
        let mut builder = api_hybrid::regex::Regex::builder();
        builder
            .thompson(self.program())
            .dfa(tables)
            .syntax(self.syntax);
        let built = builder.build_many(alloc, patterns);
        drop(builder);
        built
    }

    /// The `PikeVM` of these patterns.
    pub fn vm(&self, alloc: Global, patterns: &[&str]) -> Result<PikeVM, BuildError>
        requires { length patterns.now ≤ most_patterns }
    {
        let mut builder = PikeVM::builder();
        builder
            .thompson(self.program())
            .configure(Searches::new().match_kind(self.kind))
            .syntax(self.syntax);
        let built = builder.build_many(alloc, patterns);
        drop(builder);
        built
    }
}
