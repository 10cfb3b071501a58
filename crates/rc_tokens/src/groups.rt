//! Group openings: what follows an opening parenthesis.

ghost use Rattle.std.specs.Prelude.{◌≡◌, ◌+◌, ◌<◌, ◌≤◌, ◌-◌, ◌∷◌, ◌++◌, [], None, Some, true, false, not, ◌&&◌, ◌||◌, ◌==◌, drop, take, length, IfOk, string_bytes, encode_utf8_all};
ghost use Rattle.rc_tokens.specs.Text.{is_at, is_empty, each};
ghost use Rattle.rc_tokens.specs.Lexer.{run, after_run, is_before, flag, name_then, flags_then, group, opening};
ghost use Rattle.rc_tokens.specs.Marks.{unchanged, once, letter_change, change_of, flags_of, begins_name, goes_on_name, is_name};
ghost use Rattle.rc_tokens.specs.View.{Lexes, IsResultOf, LexesToken};

use crate::refusal::Refusal;
use crate::text::{after, first, is_digit, is_letter, until};
use crate::tokens::{Change, Opening, Token};
use std::alloc::{AllocError, Global};

/// A flag that is set or cleared for the first time.
fn once(on: bool, before: Option<bool>) -> Option<bool>
    ensures { result ≡ once on before }
{
    match before {
        None => Some(on),
        Some(_) => None,
    }
}

/// The change that one letter makes.
fn letter_change(c: char, on: bool, mut to: Change) -> Option<Change>
    ensures { result ≡ letter_change c on to }
{
    if c == 'i' {
        let Some(set) = once(on, to.case_insensitive) else {
            return None;
        };
        to.case_insensitive = Some(set);
        return Some(to);
    }
    if c == 'm' {
        let Some(set) = once(on, to.multi_line) else {
            return None;
        };
        to.multi_line = Some(set);
        return Some(to);
    }
    if c == 's' {
        let Some(set) = once(on, to.dot_matches_new_line) else {
            return None;
        };
        to.dot_matches_new_line = Some(set);
        return Some(to);
    }
    if c == 'R' {
        let Some(set) = once(on, to.crlf) else {
            return None;
        };
        to.crlf = Some(set);
        return Some(to);
    }
    if c == 'U' {
        let Some(set) = once(on, to.swap_greed) else {
            return None;
        };
        to.swap_greed = Some(set);
        return Some(to);
    }
    if c == 'u' {
        let Some(set) = once(on, to.unicode) else {
            return None;
        };
        to.unicode = Some(set);
        return Some(to);
    }
    None
}

/// The change that one character of a text of flags makes, and whether flags are set after it.
fn flag(c: char, is_last: bool, on: bool, to: Change) -> Option<(bool, Change)>
    ensures { result ≡ flag c is_last on to }
{
    if c == '-' {
        if on && !is_last {
            return Some((false, to));
        }
        return None;
    }
    let Some(next) = letter_change(c, on, to) else {
        return None;
    };
    Some((on, next))
}

/// The change that the flags make.
#[tactic(auto, using(crate::proofs::FlagLemmas::flags_end))]
fn changes(flags: &[char]) -> Option<Change>
    ensures { result ≡ change_of true unchanged flags.now }
{
    let mut on = true;
    let mut to = Change {
        case_insensitive: None,
        multi_line: None,
        dot_matches_new_line: None,
        crlf: None,
        swap_greed: None,
        unicode: None,
    };
    for i in 0..flags.len() {
        let is_last = flags.len() - (i + 1) == 0;
        let Some((now_on, changed)) = flag(flags[i], is_last, on, to) else {
            return None;
        };
        on = now_on;
        to = changed;
    }
    Some(to)
}

/// Goes on after a text of flags: returns the token, and the rest.
#[tactic(auto, using(crate::proofs::FlagLemmas::flags_of_full, crate::proofs::FlagLemmas::flags_of_none))]
fn flags_then<'t>(flags: &[char], rest: &'t [char]) -> Result<(Token, &'t [char]), Refusal>
    ensures { LexesToken result (flags_then flags.now rest.now) }
{
    if let Some(rest) = after(rest, ')') {
        if flags.is_empty() {
            return Err(Refusal::Syntax);
        }
        let Some(to) = changes(flags) else {
            return Err(Refusal::Syntax);
        };
        return Ok((Token::Setting(to), rest));
    }
    let Some(rest) = after(rest, ':') else {
        return Err(Refusal::Syntax);
    };
    let Some(to) = changes(flags) else {
        return Err(Refusal::Syntax);
    };
    Ok((Token::Opens(Opening::Flagged(to)), rest))
}

fn begins_name(c: char) -> bool
    ensures { result ≡ begins_name c }
{
    is_letter(c) || c == '_'
}

fn goes_on_name(c: char) -> bool
    ensures { result ≡ goes_on_name c }
{
    is_letter(c) || is_digit(c) || c == '_' || c == '.' || c == '[' || c == ']'
}

fn all_go_on(text: &[char]) -> bool
    ensures { result ≡ each goes_on_name text.now }
{
    for c in text {
        if !goes_on_name(*c) {
            return false;
        }
    }
    true
}

#[tactic(auto, using(crate::proofs::FlagLemmas::name_is, crate::proofs::FlagLemmas::name_none))]
fn is_name(text: &[char]) -> bool
    ensures { result ≡ is_name text.now }
{
    let Some((c, rest)) = first(text) else {
        return false;
    };
    begins_name(c) && all_go_on(rest)
}

/// The characters as text.
#[tactic(auto, using(crate::proofs::FlagLemmas::name_none))]
fn string_of(alloc: Global, text: &[char]) -> Result<String, AllocError>
    ensures { IfOk result (λ s. string_bytes s ≡ encode_utf8_all text.now) }
{
    let mut all = String::new(alloc);
    for c in text {
        all.push(*c)?;
    }
    Ok(all)
}

/// Goes on after the name of a group: returns the token, and the rest.
fn name_then<'t>(
    alloc: Global,
    name: &[char],
    rest: &'t [char],
) -> Result<(Token, &'t [char]), Refusal>
    ensures { LexesToken result (name_then name.now rest.now) }
{
    let Some(rest) = after(rest, '>') else {
        return Err(Refusal::Syntax);
    };
    if !is_name(name) {
        return Err(Refusal::Syntax);
    }
    let name = string_of(alloc, name)?;
    Ok((Token::Opens(Opening::Named(name)), rest))
}

/// Goes on after `(?`: returns the token, and the rest.
fn group(alloc: Global, text: &[char]) -> Result<(Token, &[char]), Refusal>
    ensures { LexesToken result (group text.now) }
{
    if let Some(text) = after(text, 'P') {
        let Some(text) = after(text, '<') else {
            return Err(Refusal::Syntax);
        };
        let (name, rest) = until(text, '>', '>');
        return name_then(alloc, name, rest);
    }
    if let Some(text) = after(text, '<') {
        let (name, rest) = until(text, '>', '>');
        return name_then(alloc, name, rest);
    }
    let (flags, rest) = until(text, ')', ':');
    flags_then(flags, rest)
}

/// Goes on after `(`: returns the token, and the rest.
pub fn opening(alloc: Global, text: &[char]) -> Result<(Token, &[char]), Refusal>
    ensures { LexesToken result (opening text.now) }
{
    let Some(rest) = after(text, '?') else {
        return Ok((Token::Opens(Opening::Capturing), text));
    };
    group(alloc, rest)
}
