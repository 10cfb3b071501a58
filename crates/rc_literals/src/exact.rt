//! Exact literals: patterns that are a literal, or an alternation of literals.
ghost use Rattle.std.specs.Prelude.{◌≡◌, ◌++◌, ◌≤◌, IfOk, length, map, option_map, replicate};
ghost use Rattle.rc_text.specs.Limits.{most_patterns};
ghost use Rattle.rc_pattern.specs.Re.{literal};
ghost use Rattle.rc_pattern.specs.Meaning.{alt_all, meaning};
ghost use Rattle.rc_literals.specs.Answers.{owned_of};
ghost use Rattle.rc_literals.specs.Exact.{literals_in};
ghost use Rattle.rc_literals.specs.Literals.{exact_needles, literal_bytes, literals_of, owned_from};
ghost use Rattle.rc_needles.specs.Tables.{needles_in};

use crate::owned::OwnedNeedles;
use rc_needles::prefilter::from_needles;
use rc_pattern::hir::{Hir, HirKind};
use rc_text::types::PatternID;
use std::alloc::{AllocError, Global};

/// Literals of patterns, each with the pattern to which it belongs.
#[derive(Drop)]
struct PatternLiterals {
    needles: Vec<Vec<u8>>,
    owners: Vec<PatternID>,
}

/// Returns the literals of patterns each of which is a literal or an alternation of literals, none
/// of them empty, and however many there are. Returns None for other patterns, and for no pattern.
/// `Err` means out of memory.
///
/// They decide searches: the first of them at the least start is the match, of the pattern to which
/// it belongs.
pub fn exact_needles(alloc: Global, hirs: &[Hir]) -> Result<Option<OwnedNeedles>, AllocError>
    requires { length hirs.now ≤ most_patterns }
    ensures { IfOk result (λ found. option_map owned_of found
        ≡ exact_needles (map meaning hirs.now)) }
{
    let Some(literals) = literals_of_each(alloc, hirs)? else {
        return Ok(None);
    };
    let Some(prefilter) = from_needles(alloc, literals.needles)? else {
        return Ok(None);
    };
    Ok(Some(OwnedNeedles {
        prefilter,
        owners: literals.owners,
    }))
}

/// Returns the literals of each pattern, or None if one isn't a literal or an alternation of
/// literals.
fn literals_of_each(alloc: Global, hirs: &[Hir]) -> Result<Option<PatternLiterals>, AllocError>
    requires { length hirs.now ≤ most_patterns }
    ensures { IfOk result (λ found. option_map literals_in found
        ≡ owned_from 0 (map meaning hirs.now)) }
{
    let mut list = PatternLiterals {
        needles: Vec::new(alloc),
        owners: Vec::new(alloc),
    };
    for (i, hir) in hirs.iter().enumerate() {
        let Some(literals) = exact_literals(alloc, hir)? else {
            return Ok(None);
        };
        add_literals(literals, PatternID::must(i), &mut list)?;
    }
    Ok(Some(list))
}

/// Adds the literals of a pattern.
fn add_literals(
    literals: Vec<Vec<u8>>,
    pattern: PatternID,
    list: &mut PatternLiterals,
) -> Result<(), AllocError>
    ensures needles { IfOk result (λ _. needles_in list.new.needles.items
        ≡ needles_in list.old.needles.items ++ needles_in literals.items) }
    ensures owners { IfOk result (λ _. list.new.owners.items ≡ list.old.owners.items
        ++ replicate (length literals.items) pattern) }
{
    let mut literals = literals;
    for _ in 0..literals.len() {
        list.owners.push(pattern)?;
    }
    list.needles.append(&mut literals)
}

/// Returns the bytes of a literal that isn't empty, or of the members of an alternation of such
/// literals, however many there are. Returns None for other patterns. `Err` means out of memory.
fn exact_literals(alloc: Global, hir: &Hir) -> Result<Option<Vec<Vec<u8>>>, AllocError>
    ensures { IfOk result (λ found. option_map (λ v. needles_in v.items) found
        ≡ literals_of (meaning hir.now)) }
{
    match hir.kind() {
        HirKind::Literal(bytes) => one_literal(alloc, bytes),
        HirKind::Alternation(subs) => members(alloc, subs),
        HirKind::Empty
        | HirKind::Class(_)
        | HirKind::Look(_)
        | HirKind::Repetition(_)
        | HirKind::Capture(_)
        | HirKind::Concat(_) => Ok(None),
    }
}

/// Returns the bytes of a literal alone, or None if it is empty.
fn one_literal(alloc: Global, bytes: &Vec<u8>) -> Result<Option<Vec<Vec<u8>>>, AllocError>
    ensures { IfOk result (λ found. option_map (λ v. needles_in v.items) found
        ≡ literals_of (literal bytes.now.items)) }
{
    if bytes.as_slice().is_empty() {
        return Ok(None);
    }
    let mut literals = Vec::with_capacity(alloc, 1)?;
    literals.push(bytes.as_slice().to_vec(alloc)?)?;
    Ok(Some(literals))
}

/// Returns the bytes of the members. Returns None if there is no member, or one is no literal or an
/// empty one.
fn members(alloc: Global, subs: &Vec<Hir>) -> Result<Option<Vec<Vec<u8>>>, AllocError>
    ensures { IfOk result (λ found. option_map (λ v. needles_in v.items) found
        ≡ literals_of (alt_all (map meaning subs.now.items))) }
{
    if subs.as_slice().is_empty() {
        return Ok(None);
    }
    let mut literals = Vec::with_capacity(alloc, subs.len())?;
    for sub in subs {
        match literal_bytes(sub) {
            Some(bytes) => literals.push(bytes.to_vec(alloc)?)?,
            None => return Ok(None),
        }
    }
    Ok(Some(literals))
}

/// Returns the bytes of a literal that isn't empty, or None for other patterns.
fn literal_bytes(hir: &Hir) -> Option<&[u8]>
    ensures { option_map (λ b. b.now) result ≡ literal_bytes (meaning hir.now) }
{
    match hir.kind() {
        HirKind::Literal(bytes) => {
            if bytes.as_slice().is_empty() {
                return None;
            }
            Some(bytes.as_slice())
        }
        HirKind::Empty
        | HirKind::Class(_)
        | HirKind::Look(_)
        | HirKind::Repetition(_)
        | HirKind::Capture(_)
        | HirKind::Concat(_)
        | HirKind::Alternation(_) => None,
    }
}
