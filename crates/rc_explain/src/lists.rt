//! Diagnostics of bracketed lists that don't parse.

ghost use Rattle.std.specs.Prelude.{◌≡◌, ◌⊎◌, ◌∷◌, ◌≤◌, ℕ, [], true, length, IfOk, IfErr, IfSome, MatchOption};
ghost use Rattle.rc_tokens.specs.Text.{Characters};
ghost use Rattle.rc_parser.specs.declared.config.Grammar.{Grammar};
ghost use Rattle.rc_parser.specs.declared.config.Grammar.TheVariants.{Stated};
ghost use Rattle.rc_tokens.specs.declared.tokens.Member.TheVariants.{Hyphen};
ghost use Rattle.rc_explain.specs.Reading.{AreInLine, IsClassBefore, IsItem, IsMember, IsNext};
ghost use Rattle.rc_explain.specs.Shown.{AreAt, HasCode, HasShape, IsPerl, IsUncoded, Stands};

use crate::escapes::escape_fault;
use crate::faults::FaultKind;
use crate::marks::{first_mark, from};
use crate::places::Found;
use rc_tokens::tokens::{Member, Token};
use std::alloc::{AllocError, Global};

/// Where the members of a list begin, and whether a `]` is the first.
fn front(mark: &[char]) -> (usize, bool)
    ensures { result.1 ≡ true → ((result.0 ≡ 2) × AreAt mark.now 0 (91 ∷ 93 ∷ []))
        ⊎ ((result.0 ≡ 3) × AreAt mark.now 0 (91 ∷ 94 ∷ 93 ∷ [])) }
{
    match mark {
        ['[', '^', ']', ..] => (3, true),
        ['[', '^', ..] => (2, false),
        ['[', ']', ..] => (2, true),
        _ => (1, false),
    }
}

/// Whether two adjacent characters are a set operation.
fn is_operation(before: char, c: char) -> bool
    ensures { result ≡ true → (before ≡ c) × ((c ≡ 38) ⊎ (c ≡ 126)) }
{
    before == c && (c == '&' || c == '~')
}

/// The fault of a list that is no token. Its first fault counts.
pub fn list_fault(alloc: Global, mark: &[char]) -> Result<Found, AllocError>
    requires { Stands mark.now 0 91 }
    ensures { IfOk result (λ found. HasShape Stated found.kind mark.now found.start found.end) }
{
    let (start, _) = front(mark);
    let mut at = start;
    for i in start..mark.len() {
        let c = mark[i];
        if i > start && is_operation(mark[i - 1], c) {
            return Ok(Found {
                kind: FaultKind::SetOperation,
                start: i - 1,
                end: i + 1,
            });
        }
        if i < at {
            continue;
        }
        if c == '[' {
            return Ok(nested_fault(mark, i));
        }
        at = i + 1;
        if c == '\\' {
            match escape_in_list(alloc, from(mark, i))? {
                Ok(count) => at = i.saturating_add(count),
                Err(fault) => return Ok(fault.after(i)),
            }
        }
    }
    Ok(unclosed_list(mark))
}

/// The fault of a list that isn't closed.
pub fn unclosed_list(mark: &[char]) -> Found
    requires { Stands mark.now 0 91 }
    ensures { (grammar : Grammar)
        → HasShape grammar result.kind mark.now result.start result.end }
{
    let (end, has_bracket) = front(mark);
    if has_bracket {
        return Found {
            kind: FaultKind::EmptyList,
            start: 0,
            end,
        };
    }
    Found {
        kind: FaultKind::UnclosedList,
        start: 0,
        end: 1,
    }
}

/// A `[` in a list.
fn nested_fault(mark: &[char], at: usize) -> Found
    requires { Stands mark.now at 91 }
    ensures { HasShape Stated result.kind mark.now result.start result.end }
{
    if mark.get(at + 1).copied() == Some(':') {
        return Found {
            kind: FaultKind::PosixClass,
            start: at,
            end: at + 2,
        };
    }
    Found {
        kind: FaultKind::NestedList,
        start: at,
        end: at + 1,
    }
}

/// The number of characters of an escape in a list, or its fault.
fn escape_in_list(alloc: Global, mark: &[char]) -> Result<Result<usize, Found>, AllocError>
    requires { Stands mark.now 0 92 }
    ensures { IfOk result (λ told. IfErr told (λ found.
        HasShape Stated found.kind mark.now found.start found.end)) }
{
    match first_mark(alloc, mark)? {
        Some((Token::Assertion(_), count)) => {
            Ok(Err(Found {
                kind: FaultKind::AssertionInList,
                start: 0,
                end: count,
            }))
        }
        Some((_, count)) => Ok(Ok(count)),
        None => Ok(Err(escape_fault(mark))),
    }
}

/// A member of a list, and the characters that write it.
#[derive(Clone, Copy)]
pub struct Placed {
    member: Member,
    start: usize,
    end: usize,
}

/// A member of a list, with the two that follow it.
#[derive(Clone, Copy)]
pub struct Item {
    first: Placed,
    second: Option<Placed>,
    third: Option<Placed>,
}

/// The member that an escape is, and its number of characters; `None` if it is none.
fn escaped_member(alloc: Global, mark: &[char]) -> Result<Option<(Member, usize)>, AllocError>
    requires { Stands mark.now 0 92 }
    ensures { IfOk result (λ told. IfSome told (λ r. IsMember mark.now r.0 r.1)) }
{
    match first_mark(alloc, mark)? {
        Some((Token::Character(c), count)) => Ok(Some((Member::Character(c), count))),
        Some((Token::Byte(byte), count)) => Ok(Some((Member::Byte(byte), count))),
        Some((Token::Perl(perl), count)) => Ok(Some((Member::Perl(perl), count))),
        _ => Ok(None),
    }
}

/// The first member, and its number of characters; `None` at the end of the list.
fn first_member(alloc: Global, mark: &[char]) -> Result<Option<(Member, usize)>, AllocError>
    ensures { IfOk result (λ told. IfSome told (λ r. IsMember mark.now r.0 r.1)) }
{
    let Some(c) = mark.first().copied() else {
        return Ok(None);
    };
    match c {
        '[' | ']' => Ok(None),
        '-' => Ok(Some((Member::Hyphen, 1))),
        '\\' => escaped_member(alloc, mark),
        _ => Ok(Some((Member::Character(c), 1))),
    }
}

/// The member of a list that begins there; `None` at the end of the list.
fn member_at(alloc: Global, mark: &[char], at: usize) -> Result<Option<Placed>, AllocError>
    requires { length mark.now ≤ usize.MAX }
    ensures { IfOk result (IsNext mark.now at) }
{
    let Some((member, count)) = first_member(alloc, from(mark, at))? else {
        return Ok(None);
    };
    Ok(Some(Placed {
        member,
        start: at,
        end: at.saturating_add(count),
    }))
}

/// The member that begins there, with the two that follow it; `None` at the end of the list.
fn item_at(alloc: Global, mark: &[char], at: usize) -> Result<Option<Item>, AllocError>
    requires { length mark.now ≤ usize.MAX }
    ensures { IfOk result (λ told. IfSome told (IsItem mark.now at)) }
{
    let Some(first) = member_at(alloc, mark, at)? else {
        return Ok(None);
    };
    let Some(second) = member_at(alloc, mark, first.end)? else {
        return Ok(Some(Item {
            first,
            second: None,
            third: None,
        }));
    };
    let third = member_at(alloc, mark, second.end)?;
    Ok(Some(Item {
        first,
        second: Some(second),
        third,
    }))
}

/// The code of a character of a list; `None` for a member that has none there.
fn code_of(is_unicode: bool, member: Member) -> Option<u32>
    ensures { MatchOption result (IsUncoded member) (HasCode member) }
{
    match member {
        Member::Character(c) if is_unicode || c.is_ascii() => Some(c as u32),
        Member::Byte(byte) => Some(byte as u32),
        _ => None,
    }
}

/// The fault from one member to another.
fn between(kind: FaultKind, first: Placed, last: Placed) -> Found
    ensures kind { result.kind ≡ kind }
    ensures start { result.start ≡ first.start }
    ensures end { result.end ≡ last.end }
{
    Found {
        kind,
        start: first.start,
        end: last.end,
    }
}

/// The fault of a range: of the member `first`, the hyphen, and the member `last`.
fn range_fault(is_unicode: bool, first: Placed, hyphen: Placed, last: Placed) -> Option<Found>
    ensures { (text : Characters) → AreInLine text first hyphen last
        → IfSome result (λ found. HasShape Stated found.kind text found.start found.end) }
{
    match last.member {
        Member::Hyphen => Some(between(FaultKind::SetOperation, hyphen, last)),
        Member::Perl(_) => Some(between(FaultKind::ClassInRange, first, last)),
        _ => match (
            code_of(is_unicode, first.member),
            code_of(is_unicode, last.member),
        ) {
            (_, None) => Some(between(FaultKind::MemberPastAscii, last, last)),
            (Some(low), Some(high)) if high < low => {
                Some(between(FaultKind::RangeOutOfOrder, first, last))
            }
            _ => None,
        },
    }
}

impl Item {
    /// The hyphen and the last member, if it is a range.
    fn range(self) -> Option<(Placed, Placed)>
        ensures line { (text : Characters) → (at : ℕ) → IsItem text at self
            → IfSome result (λ r. AreInLine text self.first r.0 r.1) }
        ensures plain { IfSome result (λ _. ¬ IsPerl self.first.member) }
    {
        match (self.first.member, self.second, self.third) {
            (Member::Character(_) | Member::Byte(_), Some(hyphen), Some(last))
                if matches!(hyphen.member, Member::Hyphen) => Some((hyphen, last)),
            _ => None,
        }
    }

    /// Where the next item begins.
    fn end(self) -> usize
        ensures { IsPerl self.first.member → result ≡ self.first.end }
    {
        match self.range() {
            Some((_, last)) => last.end,
            None => self.first.end,
        }
    }

    /// The fault of a hyphen that stands for itself. `class` is the Perl class before it.
    fn hyphen_fault(self, class: Option<Placed>) -> Option<Found>
        ensures { (text : Characters) → (at : ℕ) → IsItem text at self
            → self.first.member ≡ Hyphen → IsClassBefore text at class
            → IfSome result (λ found. HasShape Stated found.kind text found.start found.end) }
    {
        let next = self.second?;
        if matches!(next.member, Member::Hyphen) {
            return Some(between(FaultKind::SetOperation, self.first, next));
        }
        Some(between(FaultKind::ClassInRange, class?, next))
    }

    /// The fault of an item. `class` is the Perl class before it.
    fn fault(self, is_unicode: bool, class: Option<Placed>) -> Option<Found>
        ensures { (text : Characters) → (at : ℕ) → IsItem text at self
            → IsClassBefore text at class
            → IfSome result (λ found. HasShape Stated found.kind text found.start found.end) }
    {
        let first = self.first;
        match first.member {
            Member::Hyphen => return self.hyphen_fault(class),
            Member::Perl(_) => return None,
            _ => {}
        }
        if code_of(is_unicode, first.member).is_none() {
            return Some(between(FaultKind::MemberPastAscii, first, first));
        }
        let (hyphen, last) = self.range()?;
        range_fault(is_unicode, first, hyphen, last)
    }
}

/// The fault of the members of a list that is a token; `None` if they are its items.
pub fn members_fault(
    alloc: Global,
    is_unicode: bool,
    mark: &[char],
) -> Result<Option<Found>, AllocError>
    requires { length mark.now ≤ usize.MAX }
    ensures { IfOk result (λ told. IfSome told (λ found.
        HasShape Stated found.kind mark.now found.start found.end)) }
{
    let (mut at, has_bracket) = front(mark);
    let mut is_leading = !has_bracket;
    let mut class = None;
    for _ in 0..mark.len() {
        let Some(item) = item_at(alloc, mark, at)? else {
            break;
        };
        is_leading = is_leading && matches!(item.first.member, Member::Hyphen);
        if !is_leading {
            let fault = item.fault(is_unicode, class);
            if fault.is_some() {
                return Ok(fault);
            }
        }
        class = if let Member::Perl(_) = item.first.member {
            Some(item.first)
        } else {
            None
        };
        at = item.end();
    }
    Ok(None)
}
