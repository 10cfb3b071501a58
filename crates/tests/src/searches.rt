//! Each search of a regex that may be refused memory, once.
ghost use Rattle.std.specs.Prelude.{IfOk};
ghost use Rattle.rc_captures.specs.Captures.{IsCapturesFor};
ghost use Rattle.api_meta.specs.Views.{regex_names};

use crate::ends::{end_of, end_of_group};
use regex_cursor::Input;
use regex_cursor::engines::meta::{Cache, Captures, Finder, ListMemo, ReachedCaptures, Regex};
use regex_cursor::types::{PatternID, PatternSet};
use std::alloc::{AllocError, Global};
use std::test::Fail;

/// Two matches, from 0 to 6 and from 7 to 10.
const TEXT: &[u8] = b"12-345 6-7";

/// Where the match ends, by each search that tells it or tells of one.
fn ends(alloc: Global, regex: &Regex) -> Result<[Option<usize>; 3], AllocError> {
    let found = Regex::find(regex, alloc, Input::new(TEXT))?;
    let searched = Regex::search(regex, alloc, Input::new(TEXT))?;
    let half = Regex::search_half(regex, alloc, Input::new(TEXT))?;
    let is_match = Regex::is_match(regex, alloc, Input::new(TEXT))?;
    Ok(match (found, searched, half) {
        (Some(found), Some(searched), Some(half)) if is_match => {
            [Some(found.end()), Some(searched.end()), Some(half.offset())]
        }
        _ => [None; 3],
    })
}

/// Where the match and its group `y` end, after a search into these captures.
fn ends_in(
    alloc: Global,
    regex: &Regex,
    made: Result<Captures, AllocError>,
) -> Result<(Option<usize>, Option<usize>), AllocError>
    requires { IfOk made (IsCapturesFor (regex_names regex.now)) }
{
    let mut captures = made?;
    let filled = Regex::search_captures(regex, alloc, Input::new(TEXT), &mut captures);
    let found = captures.get_match();
    let group = captures.get_group_by_name("y");
    drop(captures);
    filled?;
    Ok((end_of(found), end_of_group(group)))
}

/// The last slot of the match.
fn last_slot(alloc: Global, regex: &Regex) -> Result<Option<usize>, AllocError> {
    let mut slots = vec![in alloc; None; regex.group_info().slot_len()]?;
    Regex::search_slots(regex, alloc, Input::new(TEXT), slots.as_mut_slice())?;
    Ok(slots.last().copied().flatten())
}

#[test]
fn a_match_and_its_groups(rt: HostRuntime) -> Result<(), Fail> {
    let alloc = rt.alloc();
    let regex = Regex::new(alloc, r"(?P<y>\d+)-(\d+)")?;
    let ends = ends(alloc, &regex);
    let made = ends_in(alloc, &regex, Regex::create_captures(&regex, alloc));
    let told = ends_in(
        alloc,
        &regex,
        Regex::captures(&regex, alloc, Input::new(TEXT)),
    );
    let all = ends_in(alloc, &regex, Captures::all(alloc, regex.group_info()));
    let whole = ends_in(alloc, &regex, Captures::matches(alloc, regex.group_info()));
    let slot = last_slot(alloc, &regex);
    drop(regex);
    assert!(rt; ends == Ok([Some(6); 3]) && slot == Ok(Some(6)));
    assert!(rt; made == Ok((Some(6), Some(2))) && told == made);
    assert!(rt; all == made && whole == Ok((Some(6), None)));
    Ok(())
}

/// How many matches there are, how many with groups, and how many pieces, without a limit and with 2.
fn counts(alloc: Global, regex: &Regex) -> Result<[usize; 4], AllocError> {
    let matches = Regex::find_iter(regex, alloc, Input::new(TEXT))?.count();
    let captures = Regex::captures_iter(regex, alloc, Input::new(TEXT))?.count();
    let pieces = Regex::split(regex, alloc, Input::new(TEXT))?.count();
    let limited = Regex::splitn(regex, alloc, Input::new(TEXT), 2)?.count();
    Ok([matches, captures, pieces, limited])
}

/// How many matches there are, with groups, in a cache that is lent.
fn count_in_a_cache(alloc: Global, regex: &Regex) -> Result<usize, AllocError> {
    let mut cache = Regex::create_cache(regex, alloc)?;
    let mut input = Input::new(TEXT);
    let count = Regex::captures_iter_with(regex, alloc, &mut cache, &mut input).count();
    drop(cache);
    Ok(count)
}

/// Whether the pattern has a match, as a set tells, in a cache that was reset and takes memory.
fn is_in_a_set(alloc: Global, regex: &Regex) -> Result<bool, AllocError> {
    let mut set = PatternSet::new(alloc, 1)?;
    let mut cache = Cache::new(alloc, regex)?;
    let reset = Cache::reset(&mut cache, regex);
    regex.which_patterns_with(&mut cache, &mut Input::new(TEXT), &mut set);
    let takes_memory = regex.memory_usage() > 0 && cache.memory_usage() > 0;
    drop(cache);
    reset?;
    Ok(takes_memory && set.contains(PatternID::ZERO))
}

/// Where the first group of the match ends, by what keeps its cache.
fn end_by_finder(alloc: Global, regex: &Regex) -> Result<Option<usize>, AllocError> {
    let mut finder = Finder::new(alloc, regex)?;
    let captures = Finder::captures(&mut finder, alloc, &mut Input::new(TEXT));
    drop(finder);
    let group = captures?.get_group(1);
    Ok(end_of_group(group))
}

/// Where the first group of the match ends, and how many bytes settle it, by what keeps its cache.
fn settled_by_finder(alloc: Global, regex: &Regex) -> Result<(Option<usize>, usize), AllocError> {
    let mut finder = Finder::new(alloc, regex)?;
    let reached = Finder::captures_reach(&mut finder, alloc, &mut Input::new(TEXT));
    drop(finder);
    let ReachedCaptures { captures, reach } = reached?;
    let group = captures.get_group(1);
    drop(captures);
    Ok((end_of_group(group), reach))
}

/// Whether another match comes behind those that begin before the byte 7, once each way, and how
/// many were added in all.
fn pushed(alloc: Global, regex: &Regex) -> Result<(bool, bool, usize), AllocError> {
    let mut memo = ListMemo::new();
    let mut last = None;
    let mut matches = Vec::new(alloc);
    let mut input = Input::new(TEXT);
    let mut finder = Finder::new(alloc, regex)?;
    let first = Finder::push_before(
        &mut finder,
        &mut input,
        &mut memo,
        &mut last,
        7,
        &mut matches,
    );
    drop(finder);
    let mut cache = Regex::create_cache(regex, alloc)?;
    let rest = Regex::push_before(
        regex,
        &mut cache,
        &mut input,
        &mut memo,
        &mut last,
        usize::MAX,
        &mut matches,
    );
    drop(cache);
    Ok((first?, rest?, matches.len()))
}

#[test]
fn lists_and_caches(rt: HostRuntime) -> Result<(), Fail> {
    let alloc = rt.alloc();
    let regex = Regex::new(alloc, r"(\d+)-\d+")?;
    let counts = counts(alloc, &regex);
    let count = count_in_a_cache(alloc, &regex);
    let is_in_a_set = is_in_a_set(alloc, &regex);
    let end = end_by_finder(alloc, &regex);
    let settled = settled_by_finder(alloc, &regex);
    let pushed = pushed(alloc, &regex);
    drop(regex);
    assert!(rt; counts == Ok([2, 2, 3, 2]) && count == Ok(2));
    assert!(rt; is_in_a_set == Ok(true) && end == Ok(Some(2)));
    assert!(rt; settled == Ok((Some(2), 7)) && pushed == Ok((true, false, 2)));
    Ok(())
}
