//! Required literals: those of which each match contains one, if a search for them pays.
ghost use Rattle.std.specs.Prelude.{◌≡◌, IfOk, IfSome, map};
ghost use Rattle.rc_pattern.specs.Meaning.{meaning};
ghost use Rattle.rc_program.specs.Text.{Text};
ghost use Rattle.rc_needles.specs.Prefilters.{needles_of};
ghost use Rattle.rc_needles.specs.Tables.{needles_in};
ghost use Rattle.rc_literals.specs.Needs.{Holds, LeavesOut};

use crate::guard::Needs;
use crate::required::required;
use crate::stops::stops_of;
use rc_needles::prefilter::{Prefilter, from_needles};
use rc_pattern::hir::Hir;
use rc_text::frequency::{is_common, per_thousand};
use std::alloc::{AllocError, Global};

/// How many of a thousand bytes of most texts may be needles that are single common bytes.
const RARE: usize = 5;

/// Whether the needles that are single common bytes, as `z` or `7`, are few in most texts.
fn are_rare(needles: &[Vec<u8>]) -> bool {
    let mut sum: usize = 0;
    for needle in needles {
        match needle.as_slice() {
            [] => return false,
            [byte] if is_common(*byte) => sum = sum.saturating_add(per_thousand(*byte)),
            _ => {}
        }
    }
    sum <= RARE
}

/// Whether some needle is a single byte.
fn has_single(needles: &[Vec<u8>]) -> bool {
    needles.iter().any(|needle| needle.len() < 2)
}

/// Returns a prefilter for the needles, or None if its search isn't fast. `Err` means out of
/// memory.
fn fast_prefilter(alloc: Global, needles: Vec<Vec<u8>>) -> Result<Option<Prefilter>, AllocError>
    ensures { IfOk result (λ found. IfSome found (λ p. needles_of p ≡ needles_in needles.items)) }
{
    let Some(prefilter) = from_needles(alloc, needles)? else {
        return Ok(None);
    };
    if !prefilter.is_fast() {
        return Ok(None);
    }
    Ok(Some(prefilter))
}

/// Returns a prefilter for the required literals, each single byte lengthened by what is read after
/// it. Returns None if there are none, or if Teddy doesn't search for them, or not fast. A search
/// by few first bytes is no faster than one for single bytes, and has to compare what follows.
/// `Err` means out of memory.
fn longer_prefilter(alloc: Global, hirs: &[Hir]) -> Result<Option<Prefilter>, AllocError>
    ensures { IfOk result (λ found. IfSome found
        (λ p. (t : Text) → Holds t (map meaning hirs.now) (needles_of p))) }
{
    let Some(list) = required(alloc, hirs, true)? else {
        return Ok(None);
    };
    let longer = fast_prefilter(alloc, list)?;
    if let Some(needles) = &longer {
        if !needles.goes_by_teddy() {
            return Ok(None);
        }
    }
    Ok(longer)
}

/// Returns a prefilter for the required literals, if a search for them pays. `Err` means out of
/// memory.
fn needed_prefilter(alloc: Global, hirs: &[Hir]) -> Result<Option<Prefilter>, AllocError>
    ensures { IfOk result (λ found. IfSome found
        (λ p. (t : Text) → Holds t (map meaning hirs.now) (needles_of p))) }
{
    let Some(list) = required(alloc, hirs, false)? else {
        return Ok(None);
    };
    if !are_rare(&list) {
        return Ok(None);
    }
    if has_single(&list) {
        let longer = longer_prefilter(alloc, hirs)?;
        if longer.is_some() {
            return Ok(longer);
        }
    }
    fast_prefilter(alloc, list)
}

/// Returns the required literals of the patterns, and the bytes that no match contains. Returns
/// None if there are no such literals, or if a search for them isn't likely to skip much: one of
/// them is a single common byte, or they are so many that the search isn't fast. If one is a single
/// byte, it is lengthened by what is read after it, if the search stays fast then. All this affects
/// speed only. `Err` means out of memory.
pub fn needs_of(alloc: Global, hirs: &[Hir]) -> Result<Option<Needs>, AllocError>
    ensures holds { IfOk result (λ found. IfSome found
        (λ n. (t : Text) → Holds t (map meaning hirs.now) (needles_of n.needles))) }
    ensures leaves { IfOk result (λ found. IfSome found
        (λ n. (t : Text) → LeavesOut t (map meaning hirs.now) n.stops.table)) }
{
    let Some(needles) = needed_prefilter(alloc, hirs)? else {
        return Ok(None);
    };
    let stops = stops_of(hirs);
    Ok(Some(Needs { needles, stops }))
}
