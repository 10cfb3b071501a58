//! Prefix literals: each text that one of the patterns spells begins with one of them.
ghost use Rattle.std.specs.Prelude.{◌≡◌, ◌+◌, ℕ, ◌∷◌, ◌++◌, [], List, Some, None, true, false, IfOk, IfSome, IfNone, MatchOption, drop, map, option_map, slice_get, unwrap_or};
ghost use Rattle.std.specs.Bool.{Decides};
ghost use Rattle.rc_pattern.specs.Meaning.{alt_all, byte_range, cat_all, char_range, class_meaning, meaning};
ghost use Rattle.rc_pattern.specs.Re.{byte_in, char_in, literal};
ghost use Rattle.rc_program.specs.Text.{Text};
ghost use Rattle.rc_literals.specs.Extraction.{Extends, are_too_many, begun_again, begun_by, copied, crossed, first_bytes, greatest_count, greatest_whole, has_short, is_still, lengthened, may_copy, may_cross, range_bytes, range_chars, spelled_bytes, whole_bytes};
ghost use Rattle.rc_literals.specs.Literals.{Covers};
ghost use Rattle.rc_needles.specs.Prefilters.{needles_of};
ghost use Rattle.rc_literals.specs.Prefixes.{ArePrefixes, BeginsWithOne, EachBegins};
ghost use Rattle.rc_needles.specs.Tables.{IsUsable, needles_in};

use rc_needles::prefilter::{Prefilter, is_usable};
use rc_pattern::hir::{Class, ClassBytesRange, ClassUnicodeRange, Hir, HirKind};
use std::alloc::{AllocError, Global};

/// The most prefixes that are kept.
const GREATEST_COUNT: usize = 16_384;

/// The most prefixes that are kept if one of them is short.
const GREATEST_FEW: usize = 64;

/// The most texts of a pattern that are kept whole.
const GREATEST_WHOLE: usize = 64;

/// The most bytes of a literal that are kept.
const GREATEST_LENGTH: usize = 32;

/// A shorter needle is lengthened by what is read after it.
const SHORT_LENGTH: usize = 3;

/// The most needles that lengthening may make.
const GREATEST_VARIANTS: usize = 32;

/// The most copies that are read after the first of what is repeated.
const GREATEST_COPIES: u32 = 31;

/// Returns prefix literals: each text that one of the patterns spells begins with one of them, and
/// none is empty.
///
/// They are what may be read first: a literal, of which at most 32 bytes are kept, or each byte or
/// character of a class. If one has fewer than 3 bytes, all are lengthened by the literals and
/// classes that follow, also in groups and alternations, as long as that makes at most 32. So
/// `[ab]cd` has `acd` and `bcd`. What must be read several times lengthens itself: `[ab]{2}` has
/// `aa`, `ab`, `ba` and `bb`, and one text has up to 32 copies, as `aaaa` for `a{4,9}`.
///
/// Returns None if there is no prefix, if there are more than 16,384, or more than 64 and one of
/// them has fewer than 3 bytes, or if in some pattern an optional body, a class of more than 64
/// members or nothing but assertions may come first. `Err` means out of memory. It takes time
/// linear in the patterns' size, and recurses as deep as a pattern is nested.
pub fn prefixes(alloc: Global, hirs: &[Hir]) -> Result<Option<Vec<Vec<u8>>>, AllocError>
    ensures usable { IfOk result (λ found. IfSome found (λ v. IsUsable (needles_in v.items))) }
    ensures exact { IfOk result (λ found. MatchOption found
        ((ws : List (List ℕ)) → ¬ ArePrefixes (map meaning hirs.now) ws)
        (λ v. ArePrefixes (map meaning hirs.now) (needles_in v.items))) }
    ensures covers { IfOk result (λ found. IfSome found
        (λ v. (t : Text) → Covers t (map meaning hirs.now) (needles_in v.items))) }
{
    let mut list = Vec::new(alloc);
    if !add_alternation(alloc, hirs, &mut list)? || !is_usable(&list) {
        return Ok(None);
    }
    if are_too_many(&list) {
        return Ok(None);
    }
    Ok(Some(list))
}

/// Whether the prefixes are many, and one of them is short.
fn are_too_many(prefixes: &[Vec<u8>]) -> bool
    ensures { result ≡ are_too_many (needles_in prefixes.now) }
{
    prefixes.len() > GREATEST_FEW && has_short(prefixes)
}

/// Adds the prefixes of a pattern. Returns false if it has none of use.
#[cycle(add)]
fn add(alloc: Global, hir: &Hir, list: &mut Vec<Vec<u8>>) -> Result<bool, AllocError>
    ensures { IfOk result (λ done. Extends greatest_count done (needles_in list.old.items)
        (needles_in list.new.items) (first_bytes (meaning hir.now))) }
{
    match hir.kind() {
        HirKind::Empty | HirKind::Look(_) => Ok(false),
        HirKind::Literal(bytes) => add_literal(alloc, bytes, list),
        HirKind::Class(class) => add_members(alloc, class, list),
        HirKind::Repetition(repetition) => {
            if repetition.min == 0 {
                return Ok(false);
            }
            add_repeated(alloc, &repetition.sub, repetition.min - 1, list)
        }
        HirKind::Capture(capture) => add(alloc, &capture.sub, list),
        HirKind::Concat(subs) => {
            let count = still_count(subs);
            match subs.get(count) {
                Some(first) => add_begun(alloc, first, &subs[count + 1..], list),
                None => Ok(false),
            }
        }
        HirKind::Alternation(subs) => add_alternation(alloc, subs, list),
    }
}

/// Adds the prefixes of each pattern. Returns false if one has none of use.
#[cycle(add)]
fn add_alternation(alloc: Global, subs: &[Hir], list: &mut Vec<Vec<u8>>) -> Result<bool, AllocError>
    ensures { IfOk result (λ done. Extends greatest_count done (needles_in list.old.items)
        (needles_in list.new.items) (first_bytes (alt_all (map meaning subs.now)))) }
{
    for sub in subs {
        if !add(alloc, sub, list)? {
            return Ok(false);
        }
    }
    Ok(true)
}

/// Adds the prefixes of what may be read first. If each text of it is known and one is short, they
/// are lengthened by what is read after it. Returns false if it has none of use.
#[cycle(add)]
fn add_begun(
    alloc: Global,
    first: &Hir,
    rest: &[Hir],
    list: &mut Vec<Vec<u8>>,
) -> Result<bool, AllocError>
    ensures { IfOk result (λ done. Extends greatest_count done (needles_in list.old.items)
        (needles_in list.new.items)
        (begun_by (whole_bytes (meaning first.now)) (first_bytes (meaning first.now))
        (cat_all (map meaning rest.now)))) }
{
    match whole_bytes(alloc, first)? {
        Some(needles) => {
            let longer = lengthened(alloc, needles, rest)?;
            add_needles(alloc, &longer, list)
        }
        None => add(alloc, first, list),
    }
}

/// Adds the prefixes of what is read once and `more` times again. If each text of it is known, they
/// are lengthened by copies. Returns false if it has none of use.
#[cycle(add)]
fn add_repeated(
    alloc: Global,
    hir: &Hir,
    more: u32,
    list: &mut Vec<Vec<u8>>,
) -> Result<bool, AllocError>
    ensures { IfOk result (λ done. Extends greatest_count done (needles_in list.old.items)
        (needles_in list.new.items)
        (begun_again (whole_bytes (meaning hir.now)) (first_bytes (meaning hir.now)) more)) }
{
    match whole_bytes(alloc, hir)? {
        Some(texts) => {
            let longer = copied(alloc, &texts, more.min(GREATEST_COPIES))?;
            add_needles(alloc, &longer, list)
        }
        None => add(alloc, hir, list),
    }
}

/// Returns the texts, lengthened by copies of them.
fn copied(alloc: Global, texts: &[Vec<u8>], copies: u32) -> Result<Vec<Vec<u8>>, AllocError>
    ensures { IfOk result (λ longer. needles_in longer.items
        ≡ copied (needles_in texts.now) (needles_in texts.now) copies) }
{
    let mut longer = Vec::new(alloc);
    add_joined(alloc, &[], texts, &mut longer)?;
    for _ in 0..copies {
        if !may_copy(&longer, texts) {
            return Ok(longer);
        }
        longer = crossed(alloc, &longer, texts)?;
    }
    Ok(longer)
}

/// Whether each of the needles may have each of the texts after it: one needle is short or the texts
/// are one, and there are few enough.
fn may_copy(needles: &[Vec<u8>], texts: &[Vec<u8>]) -> bool
    ensures { result ≡ may_copy (needles_in needles.now) (needles_in texts.now) }
{
    let is_of_use = has_short(needles) || texts.len() <= 1;
    is_of_use && needles.len().saturating_mul(texts.len()) <= GREATEST_VARIANTS
}

/// Returns each text that a pattern spells, if that is a literal, a class, or a group or an
/// alternation of these. Returns None for other patterns, and if the texts are too many or too long
/// to be kept.
fn whole_bytes(alloc: Global, hir: &Hir) -> Result<Option<Vec<Vec<u8>>>, AllocError>
    ensures { IfOk result (λ found. option_map (λ v. needles_in v.items) found
        ≡ whole_bytes (meaning hir.now)) }
{
    let mut list = Vec::new(alloc);
    if add_whole(alloc, hir, &mut list)? {
        return Ok(Some(list));
    }
    Ok(None)
}

/// Adds each text that a pattern spells. Returns false if these aren't known, or there is no room.
#[cycle(add_whole)]
fn add_whole(alloc: Global, hir: &Hir, list: &mut Vec<Vec<u8>>) -> Result<bool, AllocError>
    ensures { IfOk result (λ done. Extends greatest_whole done (needles_in list.old.items)
        (needles_in list.new.items) (spelled_bytes (meaning hir.now))) }
{
    match hir.kind() {
        HirKind::Literal(bytes) => add_whole_literal(alloc, bytes, list),
        HirKind::Class(class) => add_class(alloc, class, list),
        HirKind::Capture(capture) => add_whole(alloc, &capture.sub, list),
        HirKind::Alternation(subs) => add_whole_alternation(alloc, subs, list),
        HirKind::Empty | HirKind::Look(_) | HirKind::Repetition(_) | HirKind::Concat(_) => Ok(
            false,
        ),
    }
}

/// Adds each text that one of the patterns spells. Returns false if those of one aren't known, or
/// there is no room.
#[cycle(add_whole)]
fn add_whole_alternation(
    alloc: Global,
    subs: &[Hir],
    list: &mut Vec<Vec<u8>>,
) -> Result<bool, AllocError>
    ensures { IfOk result (λ done. Extends greatest_whole done (needles_in list.old.items)
        (needles_in list.new.items) (spelled_bytes (alt_all (map meaning subs.now)))) }
{
    for sub in subs {
        if !add_whole(alloc, sub, list)? {
            return Ok(false);
        }
    }
    Ok(true)
}

/// Adds the bytes of a literal. Returns false if they are too many.
fn add_whole_literal(
    alloc: Global,
    bytes: &[u8],
    list: &mut Vec<Vec<u8>>,
) -> Result<bool, AllocError>
    ensures { IfOk result (λ done. Extends greatest_whole done (needles_in list.old.items)
        (needles_in list.new.items) (spelled_bytes (literal bytes.now))) }
{
    if bytes.len() > GREATEST_LENGTH {
        return Ok(false);
    }
    add_needle(alloc, bytes, GREATEST_WHOLE, list)
}

/// Returns the needles, lengthened by what is read after them.
fn lengthened(
    alloc: Global,
    needles: Vec<Vec<u8>>,
    rest: &[Hir],
) -> Result<Vec<Vec<u8>>, AllocError>
    ensures { IfOk result (λ longer. needles_in longer.items
        ≡ lengthened (needles_in needles.items) (cat_all (map meaning rest.now))) }
{
    let mut longer = needles;
    for sub in rest {
        match crossed_with(alloc, &longer, sub)? {
            Some(next) => longer = next,
            None => return Ok(longer),
        }
    }
    Ok(longer)
}

/// Returns each needle with each text of the pattern after it. Returns None if no needle is short,
/// the texts aren't known, or there would be too many.
fn crossed_with(
    alloc: Global,
    needles: &[Vec<u8>],
    hir: &Hir,
) -> Result<Option<Vec<Vec<u8>>>, AllocError>
    ensures { IfOk result (λ found. MatchOption found
        (may_cross (needles_in needles.now) (whole_bytes (meaning hir.now)) ≡ false)
        (λ v. (may_cross (needles_in needles.now) (whole_bytes (meaning hir.now)) ≡ true)
        × (needles_in v.items ≡ crossed (needles_in needles.now)
        (unwrap_or (whole_bytes (meaning hir.now)) [])))) }
{
    if !has_short(needles) {
        return Ok(None);
    }
    let Some(behind) = whole_bytes(alloc, hir)? else {
        return Ok(None);
    };
    if needles.len().saturating_mul(behind.len()) > GREATEST_VARIANTS {
        return Ok(None);
    }
    Ok(Some(crossed(alloc, needles, &behind)?))
}

/// Whether one of the needles is short.
fn has_short(needles: &[Vec<u8>]) -> bool
    ensures { result ≡ has_short (needles_in needles.now) }
{
    for needle in needles {
        if needle.len() < SHORT_LENGTH {
            return true;
        }
    }
    false
}

/// Returns each needle with each of the others after it.
fn crossed(
    alloc: Global,
    needles: &[Vec<u8>],
    behind: &[Vec<u8>],
) -> Result<Vec<Vec<u8>>, AllocError>
    ensures { IfOk result (λ list. needles_in list.items
        ≡ crossed (needles_in needles.now) (needles_in behind.now)) }
{
    let mut list = Vec::new(alloc);
    for needle in needles {
        add_joined(alloc, needle, behind, &mut list)?;
    }
    Ok(list)
}

/// Adds the needle followed by each of the others.
fn add_joined(
    alloc: Global,
    needle: &[u8],
    behind: &[Vec<u8>],
    list: &mut Vec<Vec<u8>>,
) -> Result<(), AllocError>
    ensures { IfOk result (λ _. needles_in list.new.items ≡ needles_in list.old.items
        ++ map (λ v. needle.now ++ v) (needles_in behind.now)) }
{
    for rest in behind {
        let mut joined = needle.to_vec(alloc)?;
        joined.extend_from_slice(rest)?;
        list.push(joined)?;
    }
    Ok(())
}

/// Adds each of the needles. Returns false if there is no room for one.
fn add_needles(
    alloc: Global,
    needles: &[Vec<u8>],
    list: &mut Vec<Vec<u8>>,
) -> Result<bool, AllocError>
    ensures { IfOk result (λ done. Extends greatest_count done (needles_in list.old.items)
        (needles_in list.new.items) (Some (needles_in needles.now))) }
{
    for needle in needles {
        if !add_needle(alloc, needle, GREATEST_COUNT, list)? {
            return Ok(false);
        }
    }
    Ok(true)
}

/// Returns how many members come before the first that may read.
fn still_count(subs: &[Hir]) -> usize
    ensures first { IfSome (slice_get subs.now result)
        (λ first. first_bytes (cat_all (map meaning subs.now))
        ≡ begun_by (whole_bytes (meaning first)) (first_bytes (meaning first))
        (cat_all (map meaning (drop (result + 1) subs.now)))) }
    ensures none { IfNone (slice_get subs.now result)
        (first_bytes (cat_all (map meaning subs.now)) ≡ None) }
{
    for (i, sub) in subs.iter().enumerate() {
        if !is_still(sub) {
            return i;
        }
    }
    subs.len()
}

/// Whether the pattern is an assertion or empty.
fn is_still(hir: &Hir) -> bool
    ensures { result ≡ is_still (meaning hir.now) }
{
    match hir.kind() {
        HirKind::Empty | HirKind::Look(_) => true,
        HirKind::Concat(subs) => subs.as_slice().is_empty(),
        HirKind::Literal(_)
        | HirKind::Class(_)
        | HirKind::Repetition(_)
        | HirKind::Capture(_)
        | HirKind::Alternation(_) => false,
    }
}

/// Adds the first bytes of a literal. Returns false if there is no room.
fn add_literal(alloc: Global, bytes: &[u8], list: &mut Vec<Vec<u8>>) -> Result<bool, AllocError>
    ensures { IfOk result (λ done. Extends greatest_count done (needles_in list.old.items)
        (needles_in list.new.items) (first_bytes (literal bytes.now))) }
{
    let first = &bytes[..bytes.len().min(GREATEST_LENGTH)];
    add_needle(alloc, first, GREATEST_COUNT, list)
}

/// Adds each member of a class. Returns false if there are too many, or there is no room.
fn add_members(alloc: Global, class: &Class, list: &mut Vec<Vec<u8>>) -> Result<bool, AllocError>
    ensures { IfOk result (λ done. Extends greatest_count done (needles_in list.old.items)
        (needles_in list.new.items) (first_bytes (class_meaning class.now))) }
{
    let mut members = Vec::new(alloc);
    if !add_class(alloc, class, &mut members)? {
        return Ok(false);
    }
    add_needles(alloc, &members, list)
}

/// Adds each member of a class. Returns false if there are too many.
fn add_class(alloc: Global, class: &Class, list: &mut Vec<Vec<u8>>) -> Result<bool, AllocError>
    ensures { IfOk result (λ done. Extends greatest_whole done (needles_in list.old.items)
        (needles_in list.new.items) (spelled_bytes (class_meaning class.now))) }
{
    match class {
        Class::Bytes(ranges) => add_byte_ranges(alloc, ranges, list),
        Class::Unicode(ranges) => add_char_ranges(alloc, ranges, list),
    }
}

/// Adds each byte of the ranges. Returns false if there is no room for one.
fn add_byte_ranges(
    alloc: Global,
    ranges: &[ClassBytesRange],
    list: &mut Vec<Vec<u8>>,
) -> Result<bool, AllocError>
    ensures { IfOk result (λ done. Extends greatest_whole done (needles_in list.old.items)
        (needles_in list.new.items) (spelled_bytes (byte_in (map byte_range ranges.now)))) }
{
    for range in ranges {
        if !add_bytes(alloc, *range, list)? {
            return Ok(false);
        }
    }
    Ok(true)
}

/// Adds each character of the ranges. Returns false if there is no room for one.
fn add_char_ranges(
    alloc: Global,
    ranges: &[ClassUnicodeRange],
    list: &mut Vec<Vec<u8>>,
) -> Result<bool, AllocError>
    ensures { IfOk result (λ done. Extends greatest_whole done (needles_in list.old.items)
        (needles_in list.new.items) (spelled_bytes (char_in (map char_range ranges.now)))) }
{
    for range in ranges {
        if !add_chars(alloc, *range, list)? {
            return Ok(false);
        }
    }
    Ok(true)
}

/// Adds each byte of a range. Returns false if there is no room for one.
fn add_bytes(
    alloc: Global,
    range: ClassBytesRange,
    list: &mut Vec<Vec<u8>>,
) -> Result<bool, AllocError>
    ensures { IfOk result (λ done. Extends greatest_whole done (needles_in list.old.items)
        (needles_in list.new.items) (Some (range_bytes (byte_range range)))) }
{
    for byte in range.start as usize..range.end as usize + 1 {
        if !add_needle(alloc, &[byte as u8], GREATEST_WHOLE, list)? {
            return Ok(false);
        }
    }
    Ok(true)
}

/// Adds the UTF-8 bytes of each character of a range. Returns false if there is no room for one.
fn add_chars(
    alloc: Global,
    range: ClassUnicodeRange,
    list: &mut Vec<Vec<u8>>,
) -> Result<bool, AllocError>
    ensures { IfOk result (λ done. Extends greatest_whole done (needles_in list.old.items)
        (needles_in list.new.items) (Some (range_chars (char_range range)))) }
{
    for code in range.start as u32..range.end as u32 + 1 {
        if let Some(scalar) = char::from_u32(code) {
            let mut buffer = [0; 4];
            let bytes = scalar.encode_utf8(&mut buffer).as_bytes();
            if !add_needle(alloc, bytes, GREATEST_WHOLE, list)? {
                return Ok(false);
            }
        }
    }
    Ok(true)
}

/// Adds these bytes. Returns false if the list is full: it takes `most`.
fn add_needle(
    alloc: Global,
    needle: &[u8],
    most: usize,
    list: &mut Vec<Vec<u8>>,
) -> Result<bool, AllocError>
    ensures { IfOk result (λ done. Extends most done (needles_in list.old.items)
        (needles_in list.new.items) (Some (needle.now ∷ []))) }
{
    if list.len() >= most {
        return Ok(false);
    }
    list.push(needle.to_vec(alloc)?)?;
    Ok(true)
}

/// Whether each of the prefixes begins with one of the needles of the prefilter.
///
/// If so, and if the prefixes cover patterns, the needles cover them too.
pub fn begins_with_one_of(prefixes: &[Vec<u8>], prefilter: &Prefilter) -> bool
    ensures { Decides result (EachBegins (needles_in prefixes.now) (needles_of prefilter.now)) }
{
    for prefix in prefixes {
        if !begins_with_needle(prefix.as_slice(), prefilter) {
            return false;
        }
    }
    true
}

/// Whether the bytes begin with one of the needles of the prefilter.
fn begins_with_needle(bytes: &[u8], prefilter: &Prefilter) -> bool
    ensures { Decides result (BeginsWithOne (needles_of prefilter.now) bytes.now) }
{
    for needle in &prefilter.searcher.table.needles {
        if bytes.starts_with(needle.as_slice()) {
            return true;
        }
    }
    false
}
