//! Caches of states: what they keep, and how small they may be.

use regex_cursor::Input;
use regex_cursor::engines::hybrid::{BuildError, Cache, Config, Regex, find};
use std::alloc::{AllocError, Global};

/// What is searched.
const TEXT: &[u8] = b"aba";

/// Whether a search meets states that the same search again finds in the cache, and a reset lets them go.
fn keeps_states(alloc: Global, states: &Regex) -> Result<bool, AllocError> {
    let mut cache = Regex::create_cache(states, alloc)?;
    let fresh = cache.memory_usage();
    let first = find(states, &mut cache, &mut Input::new(TEXT));
    let met = cache.memory_usage();
    let second = find(states, &mut cache, &mut Input::new(TEXT));
    let again = cache.memory_usage();
    let reset = Cache::reset(&mut cache, states);
    let after = cache.memory_usage();
    drop(cache);
    reset?;
    Ok(first == second && fresh < met && again == met && after == fresh)
}

/// The least capacity of a cache for the pattern, and whether it keeps states.
fn told(alloc: Global, pattern: &str) -> Result<(usize, bool), BuildError> {
    let states = Regex::new(alloc, pattern)?;
    let least = states.minimum_cache_capacity();
    let keeps = keeps_states(alloc, &states);
    drop(states);
    Ok((least, keeps?))
}

/// Why no hybrid is built of the pattern with this capacity.
fn refusal_of(alloc: Global, pattern: &str, capacity: usize) -> Option<BuildError> {
    let mut builder = Regex::builder();
    builder.dfa(Config::new().cache_capacity(capacity));
    let built = builder.build(alloc, pattern);
    drop(builder);
    built.err()
}

/// The rows of `[ab]*a` have 5 cells, for 4 classes of bytes and the end, and its program has 8 places: 8 · 5 · 5 bytes for the rows of
/// five states, 8 · 3 · 5 for the starts, and 5 · (32 + 8 · 8) for the states. The rows of `x*` have 4 cells, and its program has 6 places.
#[test]
fn caches_of_states(rt: HostRuntime) {
    assert!(rt; told(rt.alloc(), "[ab]*a") == Ok((800, true)));
    for (pattern, capacity, minimum) in [("[ab]*a", 799, 800), ("x*", 0, 656)] {
        let given = capacity;
        let refusal = BuildError::CacheTooSmall { minimum, given };
        assert!(rt; refusal_of(rt.alloc(), pattern, capacity) == Some(refusal));
    }
    assert!(rt; refusal_of(rt.alloc(), "[ab]*a", 800).is_none());
}
