//! A cache that is lent.
ghost use Rattle.api_meta.specs.Caches.{IsCacheFor};
ghost use Rattle.api_meta.specs.Views.{regex_patterns, regex_settings};

use regex_cursor::Input;
use regex_cursor::engines::meta::{Cache, Regex};
use std::alloc::{AllocError, Global};

/// How many matches a document has, in a cache that was made for the regex.
pub fn count_of_matches(regex: &Regex, cache: &mut Cache, document: &[u8]) -> usize
    requires made { IsCacheFor (regex_patterns regex.now) (regex_settings regex.now) cache.old }
    ensures cache { IsCacheFor (regex_patterns regex.now) (regex_settings regex.now) cache.new }
{
    let mut input = Input::new(document);
    let mut count: usize = 0;
    for _found in regex.find_iter_with(cache, &mut input) {
        count = count.saturating_add(1);
    }
    count
}

/// How many matches two documents have, counted in one cache.
pub fn count_in_both(
    alloc: Global,
    regex: &Regex,
    first: &[u8],
    second: &[u8],
) -> Result<usize, AllocError> {
    let mut cache = regex.create_cache(alloc)?;
    let count = count_of_matches(regex, &mut cache, first);
    let more = count_of_matches(regex, &mut cache, second);
    drop(cache);
    Ok(count.saturating_add(more))
}
