//! Thousands of patterns: the groups of the last one, and caches that grow as the patterns do.

use regex_cursor::Input;
use regex_cursor::engines::pikevm;
use regex_cursor::engines::pikevm::{BuildError, PikeVM};
use regex_cursor::types::{PatternID, Span};
use std::alloc::{AllocError, Global};
use std::test::Fail;

/// The most patterns that are built.
const MOST: usize = 4000;

/// So many patterns: `w0z(x)`, `w1z(x)` and so on.
fn texts(alloc: Global, count: usize) -> Result<Vec<String>, AllocError> {
    let mut texts = Vec::with_capacity(alloc, count)?;
    for number in 0..count {
        texts.push(format!(in alloc; "w{number}z(x)")?)?;
    }
    Ok(texts)
}

/// The `PikeVM` of so many patterns.
fn built(alloc: Global, count: usize) -> Result<PikeVM, BuildError> {
    let texts = texts(alloc, count)?;
    let mut patterns = Vec::with_capacity(alloc, count)?;
    for text in &texts {
        patterns.push(text.as_str())?;
    }
    let len = patterns.len().min(MOST);
    PikeVM::new_many(alloc, &patterns[..len])
}

/// The pattern that is found, its group 1, and how many bytes the cache takes.
type Told = (Option<PatternID>, Option<Span>, usize);

/// What a search of the text tells.
fn told_by(alloc: Global, vm: &PikeVM, text: &[u8]) -> Result<Told, AllocError> {
    let mut captures = PikeVM::create_captures(vm, alloc)?;
    let mut cache = PikeVM::create_cache(vm, alloc)?;
    pikevm::search(vm, &mut cache, &mut Input::new(text), &mut captures);
    let len = cache.memory_usage();
    drop(cache);
    let told = (captures.pattern(), captures.get_group(1), len);
    drop(captures);
    Ok(told)
}

/// What a search by so many patterns tells.
fn told(alloc: Global, count: usize, text: &[u8]) -> Result<Told, BuildError> {
    let vm = built(alloc, count)?;
    let told = told_by(alloc, &vm, text);
    drop(vm);
    Ok(told?)
}

#[test]
fn last_of_four_thousand(rt: HostRuntime) -> Result<(), Fail> {
    let (pattern, group, half) = told(rt.alloc(), 2000, b"w3999zx")?;
    assert!(rt; pattern.is_none() && group.is_none());
    let (pattern, group, whole) = told(rt.alloc(), 4000, b" w3999zx")?;
    assert!(rt; pattern == Some(PatternID::must(3999)));
    assert!(rt; group == Some(Span { start: 7, end: 8 }));
    assert!(rt; half > 0 && whole < (half / 10).saturating_mul(22));
    Ok(())
}
