//! What `{:?}` prints of inputs, searchers, captures, sets, patterns, regexes, caches and iterators.

use crate::words::is_text;
use regex_cursor::Input;
use regex_cursor::engines::meta::Finder;
use regex_cursor::engines::{dfa, hybrid, meta, pikevm};
use regex_cursor::syntax::{Config, parse};
use regex_cursor::types::{PatternID, PatternSet};
use regex_cursor::util::iter::Searcher;
use std::alloc::{AllocError, Global};
use std::fmt;
use std::test::Fail;

/// The text of a value, which is dropped.
fn text_of<T: fmt::Debug + Drop>(alloc: Global, value: T) -> Result<String, AllocError> {
    let text = format!(in alloc; "{value:?}");
    drop(value);
    text
}

#[test]
fn inputs_and_searchers(rt: HostRuntime) {
    let alloc = rt.alloc();
    let input = "Input { chunk_offset: 0, chunk_end: 3, span: Span { start: 0, end: 3 }, \
        slice: Span { start: 0, end: 18446744073709551615 }, anchored: No, earliest: false }";
    assert!(rt; is_text(text_of(alloc, Input::new("abc")), input));
    let searcher = text_of(alloc, Searcher::new(Input::new("abc")));
    let wanted = format!(in alloc; "Searcher {{ input: {input}, last: None }}");
    assert!(rt; searcher == wanted);
}

/// A set of patterns with one member.
fn set(alloc: Global) -> Result<PatternSet, AllocError> {
    let mut set = PatternSet::new(alloc, 3)?;
    set.insert(PatternID::must(2));
    Ok(set)
}

/// What is searched.
const TEXT: &[u8] = b"ab";

/// The groups of a regex, and its captures of a match.
fn groups(alloc: Global) -> Result<String, meta::BuildError> {
    let regex = meta::Regex::new(alloc, "(?P<y>a)|(b)")?;
    let info = format!(in alloc; "{:?}", regex.group_info());
    let captures = meta::Regex::captures(&regex, alloc, Input::new(TEXT));
    drop(regex);
    let captures = text_of(alloc, captures?)?;
    Ok(format!(in alloc; "{} {captures}", info?)?)
}

#[test]
fn sets_and_groups(rt: HostRuntime) {
    let alloc = rt.alloc();
    let wanted = "PatternSet { capacity: 3, members: {PatternID { index: 2 }} }";
    let made = match set(alloc) {
        Ok(set) => text_of(alloc, set),
        Err(error) => Err(error),
    };
    assert!(rt; is_text(made, wanted));
    let wanted =
        "GroupInfo { names: [[Some(\"y\"), None]] } Captures { pattern: Some(PatternID { index: 0 }), \
        slots: [Some(0), Some(1), Some(0), Some(1), None, None] }";
    assert!(rt; is_text(groups(alloc), wanted));
}

/// Texts of patterns, each with what is printed of its tree.
const PATTERNS: [(&str, &str); 4] = [
    ("", "Empty"),
    ("é ", r#"Literal("\xC3\xA9 ")"#),
    (
        "a(b|[cd])*?$",
        r#"Concat(Literal("a"), Repetition(..), Look(End))"#,
    ),
    ("x{2,5}?", r#"Repetition(2..=5, lazy, Literal("x"))"#),
];

#[test]
fn patterns(rt: HostRuntime) -> Result<(), Fail> {
    let alloc = rt.alloc();
    for (text, wanted) in &PATTERNS {
        let tree = parse(alloc, text, &Config::new())?;
        assert!(rt; is_text(text_of(alloc, tree), wanted), "{text}");
    }
    Ok(())
}

/// The lists of a regex, none of which has found anything yet.
fn lists(alloc: Global, regex: &meta::Regex) -> Result<String, AllocError> {
    let input = Input::new(TEXT);
    let matches = text_of(alloc, meta::Regex::find_iter(regex, alloc, input)?)?;
    let input = Input::new(TEXT);
    let captures = text_of(alloc, meta::Regex::captures_iter(regex, alloc, input)?)?;
    let input = Input::new(TEXT);
    let pieces = text_of(alloc, meta::Regex::split(regex, alloc, input)?)?;
    let input = Input::new(TEXT);
    let limited = text_of(alloc, meta::Regex::splitn(regex, alloc, input, 2)?)?;
    format!(in alloc; "{matches}\n{captures}\n{pieces}\n{limited}")
}

const LISTS: &str = "FindMatches { span: Span { start: 0, end: 2 }, last: None, is_done: false, .. }
CapturesMatches { span: Span { start: 0, end: 2 }, last: None, is_done: false, .. }
Split { span: Span { start: 0, end: 2 }, start: 0, is_done: false, .. }
SplitN { span: Span { start: 0, end: 2 }, start: 0, is_done: false, limit: 2, .. }";

/// The regexes, each with a setting and of two patterns.
fn regexes(alloc: Global) -> Result<String, meta::BuildError> {
    let texts = ["a", "b"];
    let regex = text_of(alloc, meta::Regex::new_many(alloc, &texts)?)?;
    let vm = text_of(alloc, pikevm::PikeVM::new_many(alloc, &texts)?)?;
    let full = text_of(alloc, dfa::Regex::new_many(alloc, &texts)?)?;
    let lazy = text_of(alloc, hybrid::Regex::new_many(alloc, &texts)?)?;
    Ok(format!(in alloc; "{regex}\n{vm}\n{full}\n{lazy}")?)
}

const REGEXES: &str =
    "Regex { pattern_len: 2, config: Config { match_kind: None, utf8_empty: None, auto_prefilter: None, \
    prefilter: None, which_captures: None, nfa_size_limit: None, onepass_size_limit: None, hybrid_cache_capacity: None, \
    hybrid: None, dfa: None, dfa_size_limit: None, dfa_state_limit: None, byte_classes: None, unicode_words: None, \
    backtrack: None, line_terminator: None }, .. }
PikeVM { pattern_len: 2, config: Config { match_kind: None, prefilter: None }, thompson: Config { utf8: None, \
    nfa_size_limit: None, which_captures: None, line_terminator: None }, .. }
Regex { dfa: DFA { pattern_len: 2, config: Config { match_kind: None, prefilter: None }, thompson: Config { utf8: None, \
    nfa_size_limit: None, which_captures: None, line_terminator: None }, .. } }
Regex { pattern_len: 2, config: Config { match_kind: None, prefilter: None }, thompson: Config { utf8: None, \
    nfa_size_limit: None, which_captures: None, line_terminator: None }, .. }";

/// Caches and a finder, by what their texts begin with.
fn begin_as_caches(alloc: Global, regex: &meta::Regex) -> Result<bool, AllocError> {
    let cache = text_of(alloc, meta::Cache::new(alloc, regex)?)?;
    let finder = text_of(alloc, Finder::new(alloc, regex)?)?;
    Ok(
        cache.as_str().starts_with("Cache { memory_usage: ")
            && finder
                .as_str()
                .starts_with("Finder { regex: Regex { pattern_len: 1, config: Config {"),
    )
}

#[test]
fn regexes_and_lists(rt: HostRuntime) -> Result<(), Fail> {
    let alloc = rt.alloc();
    assert!(rt; is_text(regexes(alloc), REGEXES));
    let regex = meta::Regex::new(alloc, "a")?;
    let lists = lists(alloc, &regex);
    let begins = begin_as_caches(alloc, &regex);
    drop(regex);
    assert!(rt; is_text(lists, LISTS) && begins == Ok(true));
    Ok(())
}
