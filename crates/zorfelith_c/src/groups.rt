//! Numbers and names of patterns and groups.
ghost use Rattle.std.specs.Prelude.{◌≡◌, ◌≢◌, MatchOption, length};
ghost use Rattle.api_meta.specs.Views.{regex_patterns};
ghost use Rattle.zorfelith_c.specs.Names.{TellsCount, TellsName, TellsNumber};
ghost use Rattle.zorfelith_c.specs.Statuses.{done, empty, short};

use crate::handle::Handle;
use crate::status::{ABSENT, DONE, EMPTY, NOT_UTF8, SHORT};
use api_meta::regex::Regex;
use rc_text::types::PatternID;
use std::alloc::Global;

/// Writes the number of patterns.
#[unsafe(no_mangle)]
pub extern "C" fn zf_pattern_count(alloc: Global, handle: &mut Handle, count: &mut usize) -> u32
    ensures answered { MatchOption handle.old.held.value (result ≡ empty)
        (λ s. (result ≡ done) × (count.new ≡ length (regex_patterns s.regex))) }
    ensures unwritten { result ≢ done → count.new ≡ count.old }
    ensures kept { handle.new.held.value ≡ handle.old.held.value }
{
    if !handle.is_full() {
        return EMPTY;
    }
    let held = handle.take(alloc);
    *count = held.regex().pattern_len();
    *handle = Handle::of(held);
    DONE
}

/// Writes the number of groups of a pattern, the whole match among them: `DONE`, and 0 if there is
/// no such pattern; or `ABSENT`, if its number is above 2,147,483,646.
#[unsafe(no_mangle)]
pub extern "C" fn zf_group_count(
    alloc: Global,
    handle: &mut Handle,
    pattern: usize,
    count: &mut usize,
) -> u32
    ensures answered { MatchOption handle.old.held.value (result ≡ empty)
        (λ s. TellsCount s.regex pattern result count.new) }
    ensures unwritten { result ≢ done → count.new ≡ count.old }
    ensures kept { handle.new.held.value ≡ handle.old.held.value }
{
    if !handle.is_full() {
        return EMPTY;
    }
    let held = handle.take(alloc);
    let answer = group_count(held.regex(), pattern);
    *handle = Handle::of(held);
    match answer {
        Some(groups) => {
            *count = groups;
            DONE
        }
        None => ABSENT,
    }
}

/// Writes the name of a group. The status is `DONE`, and `length` is its number of bytes; `SHORT`,
/// if `name` has fewer, and `length` is how many are needed; or `ABSENT`, if it has no name, or
/// there is no such pattern or group.
#[unsafe(no_mangle)]
pub extern "C" fn zf_group_name(
    alloc: Global,
    handle: &mut Handle,
    pattern: usize,
    group: usize,
    name: &mut [u8],
    length: &mut usize,
) -> u32
    ensures answered { MatchOption handle.old.held.value (result ≡ empty)
        (λ s. TellsName s.regex pattern group result name.new length.new) }
    ensures unwritten { result ≢ done → name.new ≡ name.old }
    ensures unmeasured { result ≢ done → result ≢ short → length.new ≡ length.old }
    ensures kept { handle.new.held.value ≡ handle.old.held.value }
{
    if !handle.is_full() {
        return EMPTY;
    }
    let held = handle.take(alloc);
    let status = put_name(held.regex(), pattern, group, name, length);
    *handle = Handle::of(held);
    status
}

/// Writes the number of the group with a name, from 1 on: the first one if several have it. The
/// status is `ABSENT` if none has it, or there is no such pattern, and `NOT_UTF8` if the name isn't
/// UTF-8.
#[unsafe(no_mangle)]
pub extern "C" fn zf_group_number(
    alloc: Global,
    handle: &mut Handle,
    pattern: usize,
    name: &[u8],
    number: &mut usize,
) -> u32
    ensures answered { MatchOption handle.old.held.value (result ≡ empty)
        (λ s. TellsNumber s.regex pattern name.now result number.new) }
    ensures unwritten { result ≢ done → number.new ≡ number.old }
    ensures kept { handle.new.held.value ≡ handle.old.held.value }
{
    if !handle.is_full() {
        return EMPTY;
    }
    let held = handle.take(alloc);
    let status = put_number(held.regex(), pattern, name, number);
    *handle = Handle::of(held);
    status
}

/// The number of groups of a pattern; `None` if no pattern can have that number.
fn group_count(regex: &Regex, pattern: usize) -> Option<usize>
    ensures { MatchOption result (TellsCount regex.now pattern 5 0)
        (TellsCount regex.now pattern 0) }
{
    let pattern = PatternID::new(pattern)?;
    Some(regex.group_info().group_len(pattern))
}

/// Writes the name of a group, and returns the status.
fn put_name(regex: &Regex, pattern: usize, group: usize, name: &mut [u8], length: &mut usize) -> u32
    ensures answered { TellsName regex.now pattern group result name.new length.new }
    ensures unwritten { result ≢ done → name.new ≡ name.old }
    ensures unmeasured { result ≢ done → result ≢ short → length.new ≡ length.old }
{
    let Some(pattern) = PatternID::new(pattern) else {
        return ABSENT;
    };
    let Some(text) = regex.group_info().to_name(pattern, group) else {
        return ABSENT;
    };
    let bytes = text.as_bytes();
    *length = bytes.len();
    if bytes.len() > name.len() {
        return SHORT;
    }
    name[..bytes.len()].copy_from_slice(bytes);
    DONE
}

/// Writes the number of a group, and returns the status.
fn put_number(regex: &Regex, pattern: usize, name: &[u8], number: &mut usize) -> u32
    ensures answered { TellsNumber regex.now pattern name.now result number.new }
    ensures unwritten { result ≢ done → number.new ≡ number.old }
{
    let Some(pattern) = PatternID::new(pattern) else {
        return ABSENT;
    };
    let Ok(name) = str::from_utf8(name) else {
        return NOT_UTF8;
    };
    match regex.group_info().to_index(pattern, name) {
        Some(group) => {
            *number = group;
            DONE
        }
        None => ABSENT,
    }
}
