//! Prefilters: lists of needles, made ready for searches.
ghost use Rattle.std.specs.Prelude.{◌≡◌, IfOk, MatchOption, length, map};
ghost use Rattle.rc_needles.specs.Needles.{longest};
ghost use Rattle.rc_needles.specs.Tables.{IsUsable, needles_in};
ghost use Rattle.std.specs.Bool.{Decides};
ghost use Rattle.rc_needles.specs.Prefilters.{needles_of};

use crate::scan::{FirstBytes, NeedleSearch, Scan, are_long, have_few_heads, needle_search_of};
use rc_text::types::MatchKind;
use std::alloc::{AllocError, Global};
use std::fmt;

/// A list of needles, none of them empty, made ready for searches.
///
/// How it searches depends on the needles; the first row that fits is taken:
///
/// - One needle of more than 32 bytes: by memmem in a chunk, and by its failure function across
///   borders. So the work is linear in the text, wherever chunks are cut.
/// - Another one of two bytes or more: by its two rarest neighbouring bytes, and those after them.
/// - Several needles of at least three bytes, or of at least two if one begins with a byte that is
///   common in texts: by Teddy, if there are at most 64.
/// - Needles that begin with at most three different bytes: by these.
/// - Up to 64 others: by Teddy.
/// - More: by a trie. So the work at an index depends on the bytes that are read there, and not on
///   how many needles there are. If each needle has two bytes, a table of bits for the first three
///   is asked before the trie.
///
/// Candidates are compared with the needles by the trie too. Fewer than 16 needles have no trie:
/// those that begin with the byte there are compared one by one.
#[derive(Drop)]
pub struct Prefilter {
    pub searcher: NeedleSearch,
}

impl Prefilter {
    /// A prefilter for these needles, in order. Returns None if there is no needle, or one is
    /// empty. `Err` means out of memory.
    ///
    /// It is the same for each kind of match.
    pub fn new(
        alloc: Global,
        _kind: MatchKind,
        needles: &[&[u8]],
    ) -> Result<Option<Prefilter>, AllocError>
        ensures { IfOk result (λ found. MatchOption found
            (¬ IsUsable (map (λ w. w.now) needles.now))
            (λ p. IsUsable (map (λ w. w.now) needles.now)
            × (needles_of p ≡ map (λ w. w.now) needles.now))) }
    {
        let mut copies = Vec::with_capacity(alloc, needles.len())?;
        for needle in needles {
            copies.push(needle.to_vec(alloc)?)?;
        }
        from_needles(alloc, copies)
    }

    /// Returns how many bytes the longest needle has.
    pub fn max_needle_len(&self) -> usize
        ensures { result ≡ longest (needles_of self.now) }
    {
        let mut most = 0;
        for needle in &self.searcher.table.needles {
            most = most.max(needle.as_slice().len());
        }
        most
    }

    /// Whether Teddy searches for the needles.
    pub fn goes_by_teddy(&self) -> bool {
        matches!(&self.searcher.scan, Scan::Teddy(_))
    }

    /// Whether the search is fast: by one needle, by at most three first bytes, or by Teddy if the
    /// needles begin with at most three bytes or have all three that it reads.
    pub fn is_fast(&self) -> bool {
        let table = &self.searcher.table;
        match &self.searcher.scan {
            Scan::FirstBytes(FirstBytes::Many) => false,
            Scan::Teddy(_) => are_long(&table.needles) || have_few_heads(table),
            _ => true,
        }
    }

    /// Returns about how many bytes of memory it takes, beyond its own.
    pub fn memory_usage(&self) -> usize {
        let mut bytes: usize = 8 * 256;
        for needle in &self.searcher.table.needles {
            bytes = bytes.saturating_add(needle.len()).saturating_add(32);
        }
        bytes = bytes.saturating_add(self.searcher.failures.len().saturating_mul(8));
        match &self.searcher.table.trie {
            Some(trie) => bytes
                .saturating_add(trie.nodes.len().saturating_mul(12))
                .saturating_add(trie.openings.len().saturating_mul(4)),
            None => bytes,
        }
    }
}

impl fmt::Debug for Prefilter {
    fn fmt<W: fmt::Write>(&self, f: &mut fmt::Formatter<W>) -> fmt::Result {
        f.debug_struct("Prefilter")
            .field("needles", &self.searcher.table.needles)
            .finish()
    }
}

/// A prefilter for these needles, in order. Returns None if there is no needle, or one is empty.
/// `Err` means out of memory.
pub fn from_needles(alloc: Global, needles: Vec<Vec<u8>>) -> Result<Option<Prefilter>, AllocError>
    ensures { IfOk result (λ found. MatchOption found (¬ IsUsable (needles_in needles.items))
        (λ p. IsUsable (needles_in needles.items) × (needles_of p ≡ needles_in needles.items))) }
{
    if !is_usable(&needles) {
        return Ok(None);
    }
    let searcher = needle_search_of(alloc, needles)?;
    Ok(Some(Prefilter { searcher }))
}

/// Whether there is a needle, and none is empty.
pub fn is_usable(needles: &Vec<Vec<u8>>) -> bool
    ensures { Decides result (IsUsable (needles_in needles.now.items)) }
{
    for needle in needles {
        if needle.as_slice().is_empty() {
            return false;
        }
    }
    !needles.is_empty()
}

/// Returns a copy. `Err` means out of memory.
pub fn copy_of(alloc: Global, prefilter: &Prefilter) -> Result<Prefilter, AllocError>
    ensures { IfOk result (λ p. needles_of p ≡ needles_of prefilter.now) }
{
    let mut needles = Vec::with_capacity(alloc, prefilter.searcher.table.needles.len())?;
    for needle in &prefilter.searcher.table.needles {
        needles.push(needle.as_slice().to_vec(alloc)?)?;
    }
    let searcher = needle_search_of(alloc, needles)?;
    Ok(Prefilter { searcher })
}
