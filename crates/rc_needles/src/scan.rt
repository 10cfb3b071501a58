//! Choice of algorithm: how pieces of chunks are searched for some needles.
ghost use Rattle.std.specs.Prelude.{◌≡◌, ◌+◌, ◌<◌, ◌≤◌, IfOk, length, slice_index};
ghost use Rattle.memchr.specs.Find.{IsFirst};
ghost use Rattle.rc_needles.specs.Tables.{AreSome, needles_in, numbered};
ghost use Rattle.rc_needles.specs.Scans.{AreFirstBytesOf, HasFailures, IsScanOf, IsScanOf-is_fact};

use crate::failure::failure_function_of;
use crate::table::{Table, table_of};
use crate::teddy::{Teddy, teddy_of};
use memchr::arch::all::packedpair::{DefaultFrequencyRank, HeuristicFrequencyRank};
use memchr::memmem::Finder;
use std::alloc::{AllocError, Global};

/// A byte is common in texts if `memchr`'s table ranks it at least this high.
const LEAST_COMMON: u8 = 210;

/// A longer needle is searched for in linear time wherever chunks are cut. It is compared no
/// further than this at a candidate.
pub const LONG_NEEDLE: usize = 32;

/// The first bytes of needles.
#[derive(Clone, Copy, Drop)]
pub enum FirstBytes {
    /// All needles begin with this byte.
    One(u8),
    /// Each needle begins with one of these bytes.
    Two(u8, u8),
    /// Each needle begins with one of these bytes.
    Three(u8, u8, u8),
    /// Those of the first-byte table.
    Many,
}

/// The search within a piece.
#[derive(Drop)]
pub enum Scan {
    /// The only needle, from its bytes at the offset on.
    Needle(Finder<'static>),
    /// The first bytes of needles.
    FirstBytes(FirstBytes),
    /// The first three bytes of needles, by Teddy.
    Teddy(Teddy),
}

/// The needles, how a piece is searched for them, and how many bytes after a needle's start the
/// bytes are that are searched for. A single long needle has its failure function too; for others
/// that list is empty.
#[derive(Drop)]
pub struct NeedleSearch {
    pub table: Table,
    pub scan: Scan,
    pub offset: usize,
    pub failures: Vec<usize>,
    ghost is_scan: { IsScanOf (needles_in table.needles.items) offset scan } by { IsScanOf-is_fact (needles_in table.needles.items) offset scan },
    ghost has_failures: { HasFailures failures.items (needles_in table.needles.items) offset },
}

/// A searcher for these needles. `Err` means out of memory.
pub fn needle_search_of(alloc: Global, needles: Vec<Vec<u8>>) -> Result<NeedleSearch, AllocError>
    requires { AreSome (needles_in needles.items) }
    ensures { IfOk result (λ s. s.table.needles ≡ needles) }
{
    let table = table_of(alloc, needles)?;
    if table.needles.len() == 1 && table.needles[0].len() > 1 {
        return one_needle_search_of(alloc, table);
    }
    let scan = scan_of(&table);
    Ok(NeedleSearch {
        table,
        scan,
        offset: 0,
        failures: Vec::new(alloc),
    })
}

/// A searcher for the only needle. `Err` means out of memory.
fn one_needle_search_of(alloc: Global, table: Table) -> Result<NeedleSearch, AllocError>
    requires one { length table.needles.items ≡ 1 }
    requires long { 2 ≤ length (numbered (needles_in table.needles.items) 0) }
    ensures { IfOk result (λ s. s.table ≡ table) }
{
    let needle = table.needles[0].as_slice();
    if needle.len() > LONG_NEEDLE {
        let failures = failure_function_of(alloc, needle)?;
        let finder = Finder::new(needle).into_owned(alloc)?;
        return Ok(NeedleSearch {
            table,
            scan: Scan::Needle(finder),
            offset: 0,
            failures,
        });
    }
    let offset = rare_offset(needle);
    let rest = Finder::new(&needle[offset..]).into_owned(alloc)?;
    Ok(NeedleSearch {
        table,
        scan: Scan::Needle(rest),
        offset,
        failures: Vec::new(alloc),
    })
}

/// Returns what a piece is searched for, if there are several needles, or one of a single byte.
fn scan_of(table: &Table) -> Scan
    ensures { IsScanOf (needles_in table.now.needles.items) 0 result }
{
    let heads = first_bytes_of(table);
    if matches!(heads, FirstBytes::Many) || suits_teddy(&table.needles) {
        if let Some(teddy) = teddy_of(&table.needles) {
            return Scan::Teddy(teddy);
        }
    }
    Scan::FirstBytes(heads)
}

/// Whether Teddy is faster for several needles than a search for few first bytes: each needle has
/// the three bytes that Teddy reads, or each has two and one begins with a common byte.
fn suits_teddy(needles: &[Vec<u8>]) -> bool {
    if needles.len() < 2 {
        return false;
    }
    let have_two = needles.iter().all(|needle| needle.len() >= 2);
    are_long(needles) || (have_two && needles.iter().any(|needle| begins_common(needle)))
}

/// Whether each of the needles has at least the three bytes that Teddy reads.
pub fn are_long(needles: &[Vec<u8>]) -> bool {
    needles.iter().all(|needle| needle.len() >= 3)
}

/// Whether the needles begin with at most three different bytes.
pub fn have_few_heads(table: &Table) -> bool {
    !matches!(first_bytes_of(table), FirstBytes::Many)
}

/// Whether the needle begins with a byte that is common in texts.
fn begins_common(needle: &[u8]) -> bool {
    match needle.first() {
        Some(byte) => is_common_by_rank(*byte),
        None => false,
    }
}

/// Whether the byte is common in most texts. `memchr` ranks most bytes past ASCII as common, which
/// they are in few texts; here none is.
fn is_common_by_rank(byte: u8) -> bool {
    let ranks = DefaultFrequencyRank;
    byte < 128 && ranks.rank(byte) >= LEAST_COMMON
}

/// Returns the offset of the needle's two neighbouring bytes that are rarest in texts.
fn rare_offset(needle: &[u8]) -> usize
    requires { 2 ≤ length needle.now }
    ensures { result + 2 ≤ length needle.now }
{
    let mut rarest = 0;
    for at in 1..needle.len() - 1 {
        if rank(needle, at) < rank(needle, rarest) {
            rarest = at;
        }
    }
    rarest
}

/// Returns how common the byte at an index and the next are, by `memchr`'s ranks.
fn rank(needle: &[u8], at: usize) -> usize
    requires { at + 2 ≤ length needle.now }
{
    let ranks = DefaultFrequencyRank;
    ranks.rank(needle[at]) as usize + ranks.rank(needle[at + 1]) as usize
}

/// Returns the first bytes of the needles.
fn first_bytes_of(table: &Table) -> FirstBytes
    ensures { AreFirstBytesOf (needles_in table.now.needles.items) result }
{
    let Some(one) = first_byte_from(table, 0) else {
        return FirstBytes::Many;
    };
    let Some(two) = first_byte_from(table, one as usize + 1) else {
        return FirstBytes::One(one);
    };
    let Some(three) = first_byte_from(table, two as usize + 1) else {
        return FirstBytes::Two(one, two);
    };
    match first_byte_from(table, three as usize + 1) {
        Some(_) => FirstBytes::Many,
        None => FirstBytes::Three(one, two, three),
    }
}

/// Returns the least byte from `from` on with which a needle begins.
fn first_byte_from(table: &Table, from: usize) -> Option<u8>
    ensures { IsFirst (λ b. slice_index table.now.heads.items b
        < length table.now.needles.items) from 256 result }
{
    for byte in from..256 {
        if table.heads[byte] < table.needles.len() {
            return Some(byte as u8);
        }
    }
    None
}
