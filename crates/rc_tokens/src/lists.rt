//! Bracketed lists: what is inside the brackets.

ghost use Rattle.std.specs.Prelude.{◌≡◌, ◌+◌, ◌<◌, ◌≤◌, ◌-◌, ◌∷◌, ◌++◌, [], None, Some, true, false, not, ◌&&◌, ◌||◌, ◌==◌, drop, take, length};
ghost use Rattle.rc_tokens.specs.Text.{is_at, has_twice};
ghost use Rattle.rc_tokens.specs.Lexer.{inner, after_inner, member_at, lex_member, lex_members, past, list_then, list_inside, list};
ghost use Rattle.rc_tokens.specs.Marks.{is_list, plain_member, escaped_member};
ghost use Rattle.rc_tokens.specs.View.{Lexes, IsResultOf, LexesToken};

use crate::escapes::escape;
use crate::refusal::Refusal;
use crate::text::{after, first, has_twice};
use crate::tokens::{Escape, List, Member, Token};
use std::alloc::Global;

/// The member that an escape is in a list.
fn escaped_member(escape: Escape) -> Option<Member>
    ensures { result ≡ escaped_member escape }
{
    match escape {
        Escape::Character(c) => Some(Member::Character(c)),
        Escape::Byte(byte) => Some(Member::Byte(byte)),
        Escape::Perl(perl) => Some(Member::Perl(perl)),
        Escape::Assertion(_) => None,
    }
}

fn plain_member(c: char) -> Option<Member>
    ensures { result ≡ plain_member c }
{
    if c == '-' {
        return Some(Member::Hyphen);
    }
    if c == '[' || c == '\\' || c == ']' {
        return None;
    }
    Some(Member::Character(c))
}

fn member_at(c: char, rest: &[char]) -> Option<(Member, &[char])>
    ensures { Lexes result (member_at c rest.now) }
{
    if c == '\\' {
        let Some((escape, rest)) = escape(rest) else {
            return None;
        };
        let Some(member) = escaped_member(escape) else {
            return None;
        };
        return Some((member, rest));
    }
    let Some(member) = plain_member(c) else {
        return None;
    };
    Some((member, rest))
}

/// The first member of the text of a list, and the rest.
#[tactic(auto, using(crate::proofs::OrderLemmas::member_is, crate::proofs::OrderLemmas::member_none))]
fn first_member(text: &[char]) -> Option<(Member, &[char])>
    ensures { Lexes result (lex_member text.now) }
{
    let Some((c, rest)) = first(text) else {
        return None;
    };
    member_at(c, rest)
}

/// Whether `c` is the character `d`, and no backslash is before it.
fn is_free(past_slash: bool, c: char, d: char) -> bool
    ensures { result ≡ (not past_slash && c == d) }
{
    !past_slash && c == d
}

/// The text up to the closing `]`, and the rest.
#[tactic(auto, using(crate::proofs::InnerLemmas::within_none, crate::proofs::InnerLemmas::within_more, crate::proofs::InnerLemmas::within_until, crate::proofs::InnerLemmas::within_all))]
fn inside(text: &[char]) -> (&[char], &[char])
    ensures front { result.0.now ≡ inner false text.now }
    ensures rest { result.1.now ≡ after_inner false text.now }
{
    let mut past_slash = false;
    for i in 0..text.len() {
        if is_free(past_slash, text[i], ']') {
            return (&text[..i], &text[i..]);
        }
        past_slash = is_free(past_slash, text[i], '\\');
    }
    (text, &text[text.len()..])
}

fn is_list(negated: bool, bracket: bool, text: &[char]) -> bool
    ensures { result ≡ is_list negated bracket text.now }
{
    if !bracket {
        let Some((c, _)) = first(text) else {
            return false;
        };
        if !negated && c == '^' {
            return false;
        }
    }
    !has_twice(text, '&') && !has_twice(text, '~')
}

/// All members of the text of a list.
#[tactic(auto, using(crate::proofs::MemberLemmas::members_start, crate::proofs::MemberLemmas::members_end, crate::proofs::MemberLemmas::members_stuck, crate::proofs::MemberLemmas::members_step, crate::proofs::MemberLemmas::member_shorter))]
fn members(alloc: Global, text: &[char]) -> Result<Vec<Member>, Refusal>
    ensures { IsResultOf result (lex_members (length text.now) text.now) (λ v. v.items) }
{
    let mut all = Vec::new(alloc);
    let mut rest = text;
    while !rest.is_empty() {
        let Some((member, after)) = first_member(rest) else {
            return Err(Refusal::Syntax);
        };
        all.push(member)?;
        rest = after;
    }
    Ok(all)
}

fn list_then<'t>(
    alloc: Global,
    negated: bool,
    bracket: bool,
    text: &[char],
    rest: &'t [char],
) -> Result<(Token, &'t [char]), Refusal>
    ensures { LexesToken result (list_then negated bracket text.now rest.now) }
{
    let Some(rest) = after(rest, ']') else {
        return Err(Refusal::Syntax);
    };
    if !is_list(negated, bracket, text) {
        return Err(Refusal::Syntax);
    }
    let members = members(alloc, text)?;
    let list = List {
        negated,
        bracket,
        members,
    };
    Ok((Token::List(list), rest))
}

/// The token of a list, after its `[`.
pub fn list(alloc: Global, text: &[char]) -> Result<(Token, &[char]), Refusal>
    ensures { LexesToken result (list text.now) }
{
    let (negated, text) = match after(text, '^') {
        Some(rest) => (true, rest),
        None => (false, text),
    };
    let (bracket, text) = match after(text, ']') {
        Some(rest) => (true, rest),
        None => (false, text),
    };
    let (within, rest) = inside(text);
    list_then(alloc, negated, bracket, within, rest)
}
