//! Required literals: each text that one of the patterns spells contains one of them.
ghost use Rattle.std.specs.Prelude.{◌≡◌, ℕ, List, ◌∷◌, Some, IfOk, IfSome, MatchOption, OnOk, map, option_map};
ghost use Rattle.rc_pattern.specs.Meaning.{alt_all, cat_all, meaning};
ghost use Rattle.rc_program.specs.Text.{Text};
ghost use Rattle.rc_literals.specs.Literals.{literal_bytes};
ghost use Rattle.rc_needles.specs.Tables.{IsUsable, needles_in};
ghost use Rattle.rc_literals.specs.Needs.{Holds};
ghost use Rattle.rc_literals.specs.Required.{AreNeeded, better, copies_of, joined, literal_needle, needed, next_bytes, only_byte, short_bytes, shortest, with_copies, with_rest};

use crate::prefixes::prefixes;
use rc_needles::prefilter::is_usable;
use rc_pattern::hir::{Hir, HirKind};
use std::alloc::{AllocError, Global};

/// Needles, or None if there are none to search for.
type Needles = Option<Vec<Vec<u8>>>;

/// The most needles that are kept.
const GREATEST_COUNT: usize = 64;

/// The most bytes of a literal that are kept.
const GREATEST_LENGTH: usize = 32;

/// The most copies of a literal that are read after the first.
const GREATEST_COPIES: u32 = 31;

/// The most needles that a byte may become with what is read after it.
const GREATEST_REST: usize = 16;

/// Returns required literals: each text that one of the patterns spells contains one of them,
/// somewhere, and none is empty.
///
/// They are literals that must be read, of each at most its first 32 bytes. A literal that must be
/// read several times is as many copies of it. Of a concatenation,
/// they are those of the member whose shortest literal is the longest; of an alternation, those of
/// each member. An alternation has none if a member has none, or if there would be more than 64.
/// The patterns are taken as an alternation: the result is None if that has none.
///
/// With `longer`, a literal of one byte in a concatenation is followed by each prefix of the next
/// member, as `rc_literals::prefixes` extracts them, if these are at most 16. So those of `:[0-9]`
/// are `:0` to `:9`.
///
/// `Err` means out of memory. It takes time linear in the patterns' size, with at most 64 needles
/// moved for each node, and recurses as deep as a pattern is nested.
pub fn required(
    alloc: Global,
    hirs: &[Hir],
    longer: bool,
) -> Result<Option<Vec<Vec<u8>>>, AllocError>
    ensures usable { IfOk result (λ found. IfSome found (λ v. IsUsable (needles_in v.items))) }
    ensures exact { IfOk result (λ found. MatchOption found
        ((ws : List (List ℕ)) → ¬ AreNeeded longer (map meaning hirs.now) ws)
        (λ v. AreNeeded longer (map meaning hirs.now) (needles_in v.items))) }
    ensures holds { IfOk result (λ found. IfSome found
        (λ v. (t : Text) → Holds t (map meaning hirs.now) (needles_in v.items))) }
{
    let mut found = None;
    put_needed_by_each(alloc, hirs, longer, &mut found)?;
    let Some(needles) = found else {
        return Ok(None);
    };
    if !is_usable(&needles) {
        return Ok(None);
    }
    Ok(Some(needles))
}

/// Puts the needles of a pattern into `found`, or None if it needs no literal, or there are too
/// many.
///
/// The needles stand where the caller keeps them, and what it calls isn't inlined. So a level of
/// nesting takes little stack.
#[cycle(needed)]
fn put_needed(alloc: Global, hir: &Hir, longer: bool, found: &mut Needles) -> Result<(), AllocError>
    ensures { OnOk result (option_map (λ v. needles_in v.items) found.new
        ≡ needed longer (meaning hir.now)) }
{
    match hir.kind() {
        HirKind::Empty | HirKind::Look(_) | HirKind::Class(_) => {
            *found = None;
            Ok(())
        }
        HirKind::Literal(bytes) => put_literal(alloc, bytes, found),
        HirKind::Repetition(repetition) => {
            if repetition.min == 0 {
                *found = None;
                return Ok(());
            }
            put_needed(alloc, &repetition.sub, longer, found)?;
            put_copies(alloc, &repetition.sub, repetition.min - 1, found)
        }
        HirKind::Capture(capture) => put_needed(alloc, &capture.sub, longer, found),
        HirKind::Concat(subs) => put_needed_by_one(alloc, subs, longer, found),
        HirKind::Alternation(subs) => put_needed_by_each(alloc, subs, longer, found),
    }
}

/// Puts the needles of the member of a concatenation whose shortest is the longest, or None if no
/// member has any.
#[cycle(needed)]
#[inline(never)]
fn put_needed_by_one(
    alloc: Global,
    subs: &[Hir],
    longer: bool,
    found: &mut Needles,
) -> Result<(), AllocError>
    ensures { OnOk result (option_map (λ v. needles_in v.items) found.new
        ≡ needed longer (cat_all (map meaning subs.now))) }
{
    *found = None;
    let mut first = None;
    for i in (0..subs.len()).rev() {
        put_needed(alloc, &subs[i], longer, &mut first)?;
        if longer {
            lengthen(alloc, &subs[i], &subs[i + 1..], &mut first)?;
        }
        prefer(&mut first, found);
    }
    Ok(())
}

/// Puts the needles of each member of an alternation, or None if one has none, or there are too
/// many.
#[cycle(needed)]
#[inline(never)]
fn put_needed_by_each(
    alloc: Global,
    subs: &[Hir],
    longer: bool,
    found: &mut Needles,
) -> Result<(), AllocError>
    ensures { OnOk result (option_map (λ v. needles_in v.items) found.new
        ≡ needed longer (alt_all (map meaning subs.now))) }
{
    *found = Some(Vec::new(alloc));
    let mut first = None;
    for i in (0..subs.len()).rev() {
        put_needed(alloc, &subs[i], longer, &mut first)?;
        join(&mut first, found)?;
        if found.is_none() {
            return Ok(());
        }
    }
    Ok(())
}

/// Puts the first bytes of a literal, or None if it is empty.
#[inline(never)]
fn put_literal(alloc: Global, bytes: &[u8], found: &mut Needles) -> Result<(), AllocError>
    ensures { OnOk result (option_map (λ v. needles_in v.items) found.new
        ≡ literal_needle bytes.now) }
{
    *found = literal_needle(alloc, bytes)?;
    Ok(())
}

/// Puts the first bytes of a literal that is read once and `more` times again, if the pattern is one
/// that isn't long.
#[inline(never)]
fn put_copies(alloc: Global, hir: &Hir, more: u32, found: &mut Needles) -> Result<(), AllocError>
    ensures { OnOk result (option_map (λ v. needles_in v.items) found.new
        ≡ with_copies (literal_bytes (meaning hir.now)) more
        (option_map (λ v. needles_in v.items) found.old)) }
{
    let Some(bytes) = short_literal(hir) else {
        return Ok(());
    };
    let mut needle = copies_of(alloc, bytes, more.min(GREATEST_COPIES) + 1)?;
    needle.truncate(GREATEST_LENGTH);
    let mut list = Vec::with_capacity(alloc, 1)?;
    list.push(needle)?;
    *found = Some(list);
    Ok(())
}

/// Returns the bytes of a literal that is neither empty nor long.
fn short_literal(hir: &Hir) -> Option<&[u8]>
    ensures { option_map (λ bytes. bytes.now) result
        ≡ short_bytes (literal_bytes (meaning hir.now)) }
{
    match hir.kind() {
        HirKind::Literal(bytes) => {
            if bytes.is_empty() || bytes.len() > GREATEST_LENGTH {
                return None;
            }
            Some(bytes)
        }
        HirKind::Empty
        | HirKind::Class(_)
        | HirKind::Look(_)
        | HirKind::Repetition(_)
        | HirKind::Capture(_)
        | HirKind::Concat(_)
        | HirKind::Alternation(_) => None,
    }
}

/// Returns so many copies of the bytes, one after another.
fn copies_of(alloc: Global, bytes: &[u8], count: u32) -> Result<Vec<u8>, AllocError>
    ensures { IfOk result (λ v. v.items ≡ copies_of count bytes.now) }
{
    let mut copies = Vec::new(alloc);
    for _ in 0..count {
        copies.extend_from_slice(bytes)?;
    }
    Ok(copies)
}

/// Returns the first bytes of a literal, or None if it is empty.
fn literal_needle(alloc: Global, bytes: &[u8]) -> Result<Needles, AllocError>
    ensures { IfOk result (λ found. option_map (λ v. needles_in v.items) found
        ≡ literal_needle bytes.now) }
{
    if bytes.is_empty() {
        return Ok(None);
    }
    let mut list = Vec::with_capacity(alloc, 1)?;
    list.push(bytes[..bytes.len().min(GREATEST_LENGTH)].to_vec(alloc)?)?;
    Ok(Some(list))
}

/// Lengthens the needles of a member of a concatenation by what is read after it, if it is a literal
/// of one byte, and that begins with few prefixes.
#[inline(never)]
fn lengthen(
    alloc: Global,
    member: &Hir,
    rest: &[Hir],
    needles: &mut Needles,
) -> Result<(), AllocError>
    ensures { OnOk result (option_map (λ v. needles_in v.items) needles.new
        ≡ with_rest (meaning member.now) (cat_all (map meaning rest.now))
        (option_map (λ v. needles_in v.items) needles.old)) }
{
    let Some(byte) = only_byte(member) else {
        return Ok(());
    };
    let Some(behind) = next_bytes(alloc, rest)? else {
        return Ok(());
    };
    *needles = Some(with_each(alloc, byte, &behind)?);
    Ok(())
}

/// Returns the byte of a literal that has no other.
fn only_byte(hir: &Hir) -> Option<u8>
    ensures { result ≡ only_byte (literal_bytes (meaning hir.now)) }
{
    match hir.kind() {
        HirKind::Literal(bytes) => {
            if bytes.len() != 1 {
                return None;
            }
            Some(bytes[0])
        }
        HirKind::Empty
        | HirKind::Class(_)
        | HirKind::Look(_)
        | HirKind::Repetition(_)
        | HirKind::Capture(_)
        | HirKind::Concat(_)
        | HirKind::Alternation(_) => None,
    }
}

/// Returns the prefixes of a concatenation's first member. Returns None if there is no member, or
/// it has none or many.
fn next_bytes(alloc: Global, subs: &[Hir]) -> Result<Needles, AllocError>
    ensures { IfOk result (λ found. option_map (λ v. needles_in v.items) found
        ≡ next_bytes (cat_all (map meaning subs.now))) }
{
    if subs.is_empty() {
        return Ok(None);
    }
    let Some(list) = prefixes(alloc, &subs[..1])? else {
        return Ok(None);
    };
    if list.len() > GREATEST_REST {
        return Ok(None);
    }
    Ok(Some(list))
}

/// Returns the byte with each of the others after it.
fn with_each(alloc: Global, byte: u8, behind: &[Vec<u8>]) -> Result<Vec<Vec<u8>>, AllocError>
    ensures { IfOk result (λ list. needles_in list.items
        ≡ map (λ w. byte ∷ w) (needles_in behind.now)) }
{
    let mut list = Vec::with_capacity(alloc, behind.len())?;
    for rest in behind {
        let mut needle = Vec::new(alloc);
        needle.push(byte)?;
        needle.extend_from_slice(rest)?;
        list.push(needle)?;
    }
    Ok(list)
}

/// Takes those of two members' needles whose shortest is longer, and the first member's if both are
/// as long.
#[inline(never)]
fn prefer(first: &mut Needles, best: &mut Needles)
    ensures { option_map (λ v. needles_in v.items) best.new
        ≡ better (option_map (λ v. needles_in v.items) first.old)
        (option_map (λ v. needles_in v.items) best.old) }
{
    *best = better(first.take(), best.take());
}

/// Returns those of two members' needles whose shortest is longer, and the first member's if both
/// are as long.
fn better(first: Needles, rest: Needles) -> Needles
    ensures { option_map (λ v. needles_in v.items) result
        ≡ better (option_map (λ v. needles_in v.items) first)
        (option_map (λ v. needles_in v.items) rest) }
{
    let Some(ours) = first else {
        return rest;
    };
    let Some(theirs) = rest else {
        return Some(ours);
    };
    if shortest(&ours) < shortest(&theirs) {
        return Some(theirs);
    }
    Some(ours)
}

/// Returns how many bytes the shortest needle has, or 32 if there is none.
fn shortest(needles: &[Vec<u8>]) -> usize
    ensures { result ≡ shortest (needles_in needles.now) }
{
    let mut least = GREATEST_LENGTH;
    for i in (0..needles.len()).rev() {
        least = needles[i].len().min(least);
    }
    least
}

/// Joins the needles of a member to those of the others: None if either are None, or there are too
/// many.
#[inline(never)]
fn join(first: &mut Needles, others: &mut Needles) -> Result<(), AllocError>
    ensures { OnOk result (option_map (λ v. needles_in v.items) others.new
        ≡ joined (option_map (λ v. needles_in v.items) first.old)
        (option_map (λ v. needles_in v.items) others.old)) }
{
    let (Some(ours), Some(theirs)) = (first.take(), others.take()) else {
        return Ok(());
    };
    *others = joined(ours, theirs)?;
    Ok(())
}

/// Returns the needles of both, or None if there are too many.
fn joined(first: Vec<Vec<u8>>, rest: Vec<Vec<u8>>) -> Result<Needles, AllocError>
    ensures { IfOk result (λ found. option_map (λ v. needles_in v.items) found
        ≡ joined (Some (needles_in first.items)) (Some (needles_in rest.items))) }
{
    if first.len() + rest.len() > GREATEST_COUNT {
        return Ok(None);
    }
    let mut list = first;
    let mut others = rest;
    list.append(&mut others)?;
    Ok(Some(list))
}
