//! List ranges: the ranges of a bracketed list.

ghost use Rattle.std.specs.Prelude.{◌≡◌, ◌+◌, ◌-◌, ◌<◌, ◌≤◌, ◌++◌, ◌∷◌, [], List, ℕ, Some, None, true, false, IfOk, OnOk, MatchOption, drop, length};
ghost use Rattle.rc_pattern.specs.Re.{Range};
ghost use Rattle.rc_tokens.specs.ClassView.{pair, pairs};
ghost use Rattle.rc_tokens.specs.Classes.{set_ranges, perl_ranges, code_of, items, led_items, list_ranges};
ghost use Rattle.rc_tokens.specs.Laws.{ClassLaw, ListLaw};
ghost use Rattle.rc_tokens.specs.Members.{MembersLaw};
ghost use Rattle.rc_tokens.specs.Items.{Taken, is_hyphen, range_end, may_be_itself, ranged, item, more, led_more};
ghost use Rattle.rc_tokens.specs.View.{IsResultOf};

use crate::classes::{CodeRange, append, class_of, push};
use crate::refusal::Refusal;
use crate::tokens::{List, Member, Perl, Set};
use std::alloc::{AllocError, Global};

/// The first member, and the rest.
fn first(members: &[Member]) -> Option<(Member, &[Member])>
    ensures { MatchOption result (members.now ≡ []) (λ r. members.now ≡ r.0 ∷ r.1.now) }
{
    if members.is_empty() {
        return None;
    }
    Some((members[0], &members[1..]))
}

/// The code of a character of a list. Without `unicode`, a character past ASCII has none.
fn code_of(unicode: bool, member: Member) -> Option<u32>
    ensures { result ≡ code_of unicode member }
{
    match member {
        Member::Character(c) => {
            if unicode || c < '\u{80}' {
                return Some(c as u32);
            }
            None
        }
        Member::Byte(byte) => Some(byte as u32),
        Member::Hyphen => None,
        Member::Perl(_) => None,
    }
}

fn set_ranges(alloc: Global, set: Set) -> Result<Vec<CodeRange>, AllocError>
    ensures { IfOk result (λ v. pairs v.items ≡ set_ranges set) }
{
    let mut ranges = Vec::new(alloc);
    match set {
        Set::Digits => {
            push(&mut ranges, 48, 57)?;
        }
        Set::Spaces => {
            push(&mut ranges, 9, 13)?;
            push(&mut ranges, 32, 32)?;
        }
        Set::Words => {
            push(&mut ranges, 48, 57)?;
            push(&mut ranges, 65, 90)?;
            push(&mut ranges, 95, 95)?;
            push(&mut ranges, 97, 122)?;
        }
    }
    Ok(ranges)
}

/// The ranges of a Perl class.
#[tactic(auto, using(crate::proofs::ClassLemmas::set_codes))]
pub fn perl_ranges(alloc: Global, unicode: bool, perl: Perl) -> Result<Vec<CodeRange>, AllocError>
    ensures { IfOk result (λ v. pairs v.items ≡ perl_ranges unicode perl) }
{
    let ranges = set_ranges(alloc, perl.set)?;
    class_of(alloc, unicode, false, perl.negated, &ranges)
}

fn may_be_itself(after: bool, rest: &[Member]) -> bool
    ensures { result ≡ may_be_itself after rest.now }
{
    if rest.is_empty() {
        return true;
    }
    match rest[0] {
        Member::Hyphen => false,
        Member::Character(_) => after,
        Member::Byte(_) => after,
        Member::Perl(_) => after,
    }
}

fn is_hyphen(member: Member) -> bool
    ensures { result ≡ is_hyphen member }
{
    match member {
        Member::Hyphen => true,
        Member::Character(_) => false,
        Member::Byte(_) => false,
        Member::Perl(_) => false,
    }
}

/// The member that may end a range, and what follows it.
fn range_end(rest: &[Member]) -> Option<(Member, &[Member])>
    ensures { MatchOption result (range_end rest.now ≡ None)
        (λ p. range_end rest.now ≡ Some (p.0, p.1.now)) }
{
    if rest.len() < 2 {
        return None;
    }
    if is_hyphen(rest[0]) {
        return Some((rest[1], &rest[2..]));
    }
    None
}

/// The item `code`, or a range that begins with it.
fn ranged<'m>(
    unicode: bool,
    code: u32,
    rest: &'m [Member],
    ranges: &mut Vec<CodeRange>,
) -> Result<(bool, &'m [Member]), Refusal>
    ensures { IsResultOf result (ranged unicode code rest.now (pairs ranges.old.items))
        (λ r. (pairs ranges.new.items, (r.0, r.1.now))) }
{
    if let Some((end, left)) = range_end(rest) {
        let Some(high) = code_of(unicode, end) else {
            return Err(Refusal::Syntax);
        };
        if high < code {
            return Err(Refusal::Syntax);
        }
        push(ranges, code, high)?;
        return Ok((true, left));
    }
    push(ranges, code, code)?;
    Ok((false, rest))
}

/// The item at the front.
fn item<'m>(
    alloc: Global,
    unicode: bool,
    after: bool,
    member: Member,
    rest: &'m [Member],
    ranges: &mut Vec<CodeRange>,
) -> Result<(bool, &'m [Member]), Refusal>
    ensures { IsResultOf result (item unicode after member rest.now (pairs ranges.old.items))
        (λ r. (pairs ranges.new.items, (r.0, r.1.now))) }
{
    match member {
        Member::Hyphen => {
            if !may_be_itself(after, rest) {
                return Err(Refusal::Syntax);
            }
            push(ranges, 45, 45)?;
            Ok((false, rest))
        }
        Member::Perl(perl) => {
            let set = perl_ranges(alloc, unicode, perl)?;
            append(ranges, &set)?;
            Ok((false, rest))
        }
        Member::Character(_) => {
            let Some(code) = code_of(unicode, member) else {
                return Err(Refusal::Syntax);
            };
            ranged(unicode, code, rest, ranges)
        }
        Member::Byte(_) => {
            let Some(code) = code_of(unicode, member) else {
                return Err(Refusal::Syntax);
            };
            ranged(unicode, code, rest, ranges)
        }
    }
}

/// Adds the ranges of the members.
#[tactic(auto, using(crate::proofs::ItemLemmas::more_end, crate::proofs::ItemLemmas::more_step, crate::proofs::ItemLemmas::more_none, crate::proofs::ItemLemmas::item_shorter))]
fn items(
    alloc: Global,
    unicode: bool,
    after: bool,
    members: &[Member],
    ranges: &mut Vec<CodeRange>,
) -> Result<(), Refusal>
    ensures { IsResultOf result (more unicode after members.now (pairs ranges.old.items))
        (λ _. pairs ranges.new.items) }
{
    let mut after = after;
    let mut rest = members;
    while let Some((member, tail)) = first(rest) {
        match item(alloc, unicode, after, member, tail, ranges) {
            Ok((now_after, left)) => {
                after = now_after;
                rest = left;
            }
            Err(refusal) => return Err(refusal),
        }
    }
    Ok(())
}

/// Adds the hyphens at the front, and returns what follows.
#[tactic(auto, using(crate::proofs::LeadLemmas::led_hyphen, crate::proofs::LeadLemmas::led_other, crate::proofs::LeadLemmas::led_end))]
fn lead<'m>(
    unicode: bool,
    members: &'m [Member],
    ranges: &mut Vec<CodeRange>,
) -> Result<&'m [Member], AllocError>
    ensures { IfOk result (λ rest. led_more unicode members.now (pairs ranges.old.items)
        ≡ more unicode false rest.now (pairs ranges.new.items)) }
{
    let mut rest = members;
    while let Some((member, tail)) = first(rest) {
        if !is_hyphen(member) {
            return Ok(rest);
        }
        push(ranges, 45, 45)?;
        rest = tail;
    }
    Ok(rest)
}

/// The ranges of a list, as they are written.
pub fn list_ranges(alloc: Global, unicode: bool, list: &List) -> Result<Vec<CodeRange>, Refusal>
    ensures { IsResultOf result (list_ranges unicode list.now.bracket list.now.members.items)
        (λ v. pairs v.items) }
{
    let mut ranges = Vec::new(alloc);
    if list.bracket {
        push(&mut ranges, 93, 93)?;
        items(alloc, unicode, true, &list.members, &mut ranges)?;
        return Ok(ranges);
    }
    let rest = lead(unicode, &list.members, &mut ranges)?;
    items(alloc, unicode, false, rest, &mut ranges)?;
    Ok(ranges)
}

/// The ends of the ranges of a class are codes, and its ranges ascend.
pub fn classes_ascend()
    ensures classes { ClassLaw }
    ensures lists { ListLaw }
{}

/// A code is in the class of a list if and only if one of the list's items has it, or has its other
/// case if letters are folded. In a negated class it is if and only if no item has it. The ranges
/// ascend, and no two of them touch.
pub fn classes_have_members()
    ensures { MembersLaw }
{}
