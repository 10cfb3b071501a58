//! Each call that may be refused memory and builds no engine, once.

use regex_cursor::Input;
use regex_cursor::engines::{meta, pikevm};
use regex_cursor::prefilter::Prefilter;
use regex_cursor::syntax::{Config, Error, Grammar, explain_size, parse};
use regex_cursor::types::MatchKind;
use std::alloc::{AllocError, Global};
use std::slice::from_ref;

/// Whether a search for the needles is fast, and whether they take more memory than their bytes.
fn needles(alloc: Global, words: &[&[u8]]) -> Result<(bool, bool), AllocError> {
    let Some(needles) = Prefilter::new(alloc, MatchKind::LeftmostFirst, words)? else {
        return Ok((false, false));
    };
    let is_fast = needles.is_fast();
    let bytes = needles.memory_usage();
    drop(needles);
    Ok((is_fast, bytes > 8))
}

/// Needles that begin with up to three bytes are sought fast, others of two bytes are not.
#[test]
fn memory_of_needles(rt: HostRuntime) {
    let words: [&[u8]; 4] = [b"qa", b"rb", b"sc", b"td"];
    for count in 1..5 {
        assert!(rt; needles(rt.alloc(), &words[..count]) == Ok((count < 4, true)));
    }
}

/// Whether a copy of a regex's settings has needles.
fn has_needles(alloc: Global) -> Result<bool, AllocError> {
    let word: [&[u8]; 1] = [b"ab"];
    let needles = Prefilter::new(alloc, MatchKind::LeftmostFirst, &word)?;
    let config = meta::Config::new().prefilter(needles);
    let copy = meta::Config::try_clone(&config, alloc);
    drop(config);
    let copy = copy?;
    let has_needles = copy.get_prefilter().is_some();
    drop(copy);
    Ok(has_needles)
}

/// The kind of match of a copy of a `PikeVM`'s settings.
fn kind_of_copy(alloc: Global) -> Result<MatchKind, AllocError> {
    let config = pikevm::Config::new().match_kind(MatchKind::All);
    let copy = pikevm::Config::try_clone(&config, alloc);
    drop(config);
    let copy = copy?;
    let kind = copy.get_match_kind();
    drop(copy);
    Ok(kind)
}

/// How heavy the pattern is, if that is above the limit.
fn weight_above(alloc: Global, text: &str, limit: usize) -> Result<Option<u128>, Error> {
    let tree = parse(alloc, text, &Config::new())?;
    let oversize = explain_size(alloc, from_ref(&tree), Some(limit), Grammar::Stated);
    drop(tree);
    let Some(oversize) = oversize? else {
        return Ok(None);
    };
    Ok(Some(oversize.weight))
}

/// Where a copy of an input ends.
fn end_of_copy() -> Result<usize, AllocError> {
    let copy = Input::clone(&Input::new("a"))?;
    Ok(copy.end())
}

/// `a{46}` alone weighs 145, which is 4640 bytes.
#[test]
fn copies_and_sizes(rt: HostRuntime) {
    assert!(rt; has_needles(rt.alloc()) == Ok(true));
    assert!(rt; kind_of_copy(rt.alloc()) == Ok(MatchKind::All));
    assert!(rt; weight_above(rt.alloc(), "a{46}", 4639) == Ok(Some(145)));
    assert!(rt; end_of_copy() == Ok(1));
}
