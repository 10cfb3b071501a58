//! Pattern setup: the patterns by which lines are selected.
ghost use Rattle.std.specs.Prelude.{◌≡◌, ◌≤◌, All, IfErr, IfOk, IfSome, IsTrue, length, map, true};
ghost use Rattle.std.proofs.Props.{props};
ghost use Rattle.rc_text.specs.Limits.{most_patterns};
ghost use Rattle.rc_pattern.specs.Meaning.{meaning};
ghost use Rattle.rc_parser.specs.Settings.{settings_of};
ghost use Rattle.rcgrep.specs.Syntax.{syntax_settings};
ghost use Rattle.rc_settings.specs.Settings.{nfa_size_limit_of};
ghost use Rattle.rc_build.specs.Refusals.{IsBuildable, IsRefusal, limit_by};
ghost use Rattle.rc_build.specs.TextRefusals.{AllRead, texts_of};
ghost use Rattle.rc_program.specs.Text.{Text};
ghost use Rattle.rc_needles.specs.Prefilters.{needles_of};
ghost use Rattle.rc_literals.specs.Needs.{Holds};
ghost use Rattle.api_meta.specs.Views.{regex_patterns, regex_settings};
ghost use Rattle.rcgrep.specs.Fitted.{fitted_of};
ghost use Rattle.rcgrep.specs.Local.{HasLineLooks, IsLocalPattern, IsLocalRegex};
ghost use Rattle.rcgrep.specs.Kept.{KeepsToLines, SpellNoNewline};
ghost use Rattle.rcgrep.specs.Needed.{HoldsNeedle};
ghost use Rattle.rcgrep.specs.Picked.{line_settings};
ghost use Rattle.rcgrep.specs.Unread.{IsUnread};

use grep_options::filter::Fit;
use rc_literals::needs::needs_of;
use rc_literals::stops::stops_of;
use rc_needles::prefilter::Prefilter;
use rc_pattern::check::properties_of;
use regex_cursor::engines::meta::{BuildError, Regex};
use regex_cursor::hir::{Hir, Look};
use regex_cursor::syntax::{Config, Error, Grammar, parse};
use std::alloc::{AllocError, AllocFailed, Global};

/// The greatest number of patterns.
pub const MAX_PATTERNS: usize = 2_147_483_647;

/// The greatest size of the patterns, in bytes.
const SIZE_LIMIT: usize = 134_217_728;

/// Why texts don't parse as patterns.
#[derive(Clone, Copy)]
pub enum Unread {
    /// The text with this number doesn't parse.
    Text(usize),
    /// Out of memory.
    Memory,
}

impl<T: Drop> From<AllocFailed<T>> for Unread {
    ghost use Rattle.std.specs.Prelude.{◌≡◌};
    ghost use Rattle.rcgrep.specs.declared.patterns.Unread.TheVariants.{Memory};

    ghost from_gives = { λ _ r. r ≡ Memory };

    fn from(_: AllocFailed<T>) -> Unread {
        Unread::Memory
    }
}

/// The syntax of the patterns: that of the full grammar, unless the stated one is asked for. `^` and
/// `$` stand for the ends of each line if `by_line` is true, else for those of the text.
pub fn syntax_of(is_stated: bool, folds_case: bool, by_line: bool) -> Config
    ensures { settings_of result ≡ syntax_settings is_stated folds_case by_line }
{
    let grammar = if is_stated {
        Grammar::Stated
    } else {
        Grammar::Full
    };
    Config::new()
        .grammar(grammar)
        .case_insensitive(folds_case)
        .multi_line(by_line)
}

/// Parses the texts as patterns, in their order. An `Err` is the first text that isn't a pattern, or
/// out of memory.
pub fn read_patterns(alloc: Global, texts: &[&str], config: &Config) -> Result<Vec<Hir>, Unread>
    ensures read { IfOk result (λ hirs. AllRead (settings_of config.now) (texts_of texts.now)
        (map meaning hirs.items)) }
    ensures unread { IfErr result (IsUnread (settings_of config.now) (texts_of texts.now)) }
{
    let mut hirs = Vec::new(alloc);
    for (number, text) in texts.iter().enumerate() {
        match parse(alloc, text, config) {
            Ok(hir) => hirs.push(hir)?,
            Err(Error::Syntax { .. }) => return Err(Unread::Text(number)),
            Err(Error::Memory) => return Err(Unread::Memory),
        }
    }
    Ok(hirs)
}

/// The pattern whose matches are those of this one that are a part of a line of this kind: whole
/// words, or the whole line.
fn fitted(alloc: Global, hir: Hir, fit: Fit) -> Result<Hir, AllocError>
    ensures { IfOk result (λ h. meaning h ≡ fitted_of fit (meaning hir)) }
{
    let (before, behind) = match fit {
        Fit::Any => return Ok(hir),
        Fit::Words => (Look::WordStartHalfUnicode, Look::WordEndHalfUnicode),
        Fit::Line => (Look::StartLF, Look::EndLF),
        Fit::Text => (Look::Start, Look::End),
    };
    let mut members = Vec::new(alloc);
    members.push(Hir::look(before))?;
    members.push(hir)?;
    members.push(Hir::look(behind))?;
    Hir::concat(alloc, members)
}

/// The patterns, each fitted.
pub fn all_fitted(alloc: Global, hirs: Vec<Hir>, fit: Fit) -> Result<Vec<Hir>, AllocError>
    ensures { IfOk result (λ v. map meaning v.items
        ≡ map (fitted_of fit) (map meaning hirs.items)) }
{
    let mut all = Vec::new(alloc);
    for hir in hirs {
        all.push(fitted(alloc, hir, fit)?)?;
    }
    Ok(all)
}

/// Patterns, built.
#[derive(Drop)]
pub struct Patterns {
    pub regex: Regex,
    /// Needles, if lines are best passed over by them: each match contains one.
    pub needles: Option<Prefilter>,
    /// Each assertion of the patterns holds at a newline if and only if it holds at the end of a
    /// text, and no pattern matches an empty text. So a line that has a match has one between other
    /// lines too.
    pub is_local: bool,
    /// `is_local` is true, and no match contains a newline. So a line has a match if and only if a
    /// match in the text touches it.
    pub keeps_to_lines: bool,
    /// A search is slow from the first byte past ASCII on: an assertion asks for Unicode words, so
    /// DFAs quit there, and no literal is found behind it. This only affects speed.
    pub is_slow_past_ascii: bool,
    ghost local: { is_local ≡ true → ∥ IsLocalRegex regex ∥₁ },
    ghost kept: { keeps_to_lines ≡ true → ∥ KeepsToLines regex ∥₁ },
    ghost held: { IfSome needles (λ p. ∥ HoldsNeedle regex (needles_of p) ∥₁) } by { Prim.hlevel props },
}

/// Builds a regex whose matches may end inside a character. So none is passed over, and a line that
/// isn't UTF-8 keeps all its matches. The grammar of the syntax settings weighs the patterns.
fn build_regex(alloc: Global, hirs: &[Hir], config: &Config) -> Result<Regex, BuildError>
    requires { length hirs.now ≤ most_patterns }
    ensures patterns { IfOk result (λ r. regex_patterns r ≡ map meaning hirs.now) }
    ensures settings { IfOk result (λ r. regex_settings r ≡ line_settings) }
    ensures buildable { IfOk result (λ _. IsBuildable
        (limit_by (nfa_size_limit_of line_settings) (settings_of config.now))
        (map meaning hirs.now)) }
    ensures refused { IfErr result (λ e. IsRefusal
        (limit_by (nfa_size_limit_of line_settings) (settings_of config.now))
        (map meaning hirs.now) e) }
{
    let mut builder = Regex::builder();
    builder
        .configure(
            Regex::config()
                .utf8_empty(false)
                .nfa_size_limit(Some(SIZE_LIMIT)),
        )
        .syntax(*config)
        .build_many_from_hir(alloc, hirs)
}

/// Whether no match of the patterns contains a newline, and `is_local` is true.
fn keep_to_lines(hirs: &[Hir], is_local: bool) -> bool
    ensures { IsTrue result → (t : Text) → SpellNoNewline t (map meaning hirs.now) }
{
    if !is_local {
        return false;
    }
    stops_of(hirs).table[b'\n' as usize]
}

/// Needles of which each match of the patterns contains one, if lines are best passed over by them:
/// if the regex may not pass over lines, or if a match may contain newlines. A search by the regex
/// would read on across lines then, and the needles are in one line. This only affects speed.
fn line_needles(
    alloc: Global,
    hirs: &[Hir],
    keeps_to_lines: bool,
) -> Result<Option<Prefilter>, AllocError>
    ensures { IfOk result (λ found. IfSome found
        (λ p. (t : Text) → Holds t (map meaning hirs.now) (needles_of p))) }
{
    if keeps_to_lines {
        return Ok(None);
    }
    match needs_of(alloc, hirs)? {
        Some(needs) => Ok(Some(needs.needles)),
        None => Ok(None),
    }
}

/// Builds the patterns, whose matches may end inside a character. The grammar of the syntax settings
/// weighs them. An `Err` is the first refusal that applies to them, or out of memory.
pub fn build(alloc: Global, hirs: &[Hir], config: &Config) -> Result<Patterns, BuildError>
    requires { length hirs.now ≤ most_patterns }
    ensures patterns { IfOk result (λ p. regex_patterns p.regex ≡ map meaning hirs.now) }
    ensures settings { IfOk result (λ p. regex_settings p.regex ≡ line_settings) }
    ensures refused { IfErr result (λ e. IsRefusal
        (limit_by (nfa_size_limit_of line_settings) (settings_of config.now))
        (map meaning hirs.now) e) }
{
    let regex = build_regex(alloc, hirs, config)?;
    let is_local = are_local(hirs);
    let keeps_to_lines = keep_to_lines(hirs, is_local);
    let needles = line_needles(alloc, hirs, keeps_to_lines)?;
    let is_slow_past_ascii = has_scalar_looks(hirs) && !regex.is_accelerated();
    Ok(Patterns {
        regex,
        needles,
        is_local,
        keeps_to_lines,
        is_slow_past_ascii,
    })
}

/// Whether each assertion in the pattern holds at a newline if and only if it holds at the end of a
/// text. `\b` and `(?m)$` do, `$` doesn't.
fn has_line_looks(hir: &Hir) -> bool
    ensures { IsTrue result → HasLineLooks (meaning hir.now) }
{
    let looks = properties_of(hir).look_set();
    !looks.contains(Look::Start)
        && !looks.contains(Look::End)
        && !looks.contains(Look::StartCRLF)
        && !looks.contains(Look::EndCRLF)
}

/// Whether each assertion in the pattern is one that `has_line_looks` allows, and the pattern
/// matches no empty text.
fn is_local(hir: &Hir) -> bool
    ensures { IsTrue result → IsLocalPattern (meaning hir.now) }
{
    has_line_looks(hir) && properties_of(hir).minimum_len() != Some(0)
}

/// Whether `is_local` is true of each pattern.
fn are_local(hirs: &[Hir]) -> bool
    ensures { IsTrue result → All IsLocalPattern (map meaning hirs.now) }
{
    for hir in hirs {
        if !is_local(hir) {
            return false;
        }
    }
    true
}

/// Whether a pattern contains an assertion on Unicode words.
fn has_scalar_looks(hirs: &[Hir]) -> bool {
    for hir in hirs {
        let looks = properties_of(hir).look_set();
        if looks.contains(Look::WordUnicode)
            || looks.contains(Look::WordUnicodeNegate)
            || looks.contains(Look::WordStartUnicode)
            || looks.contains(Look::WordEndUnicode)
            || looks.contains(Look::WordStartHalfUnicode)
            || looks.contains(Look::WordEndHalfUnicode)
        {
            return true;
        }
    }
    false
}
