//! Escapes: what follows a backslash.

ghost use Rattle.std.specs.Prelude.{◌≡◌, ◌+◌, ◌<◌, ◌≤◌, ◌-◌, ◌∷◌, [], None, Some, true, false, drop, take, length};
ghost use Rattle.rc_tokens.specs.Text.{is_at, is_scalar};
ghost use Rattle.rc_tokens.specs.Lexer.{escape_at, lex_escape, brace_then, fixed_then, in_brace, opens_brace};
ghost use Rattle.rc_tokens.specs.Marks.{is_brace_name, takes_scalar, is_punctuation, perl, short_says, scalar_says, fixed_says, boundary_says};
ghost use Rattle.rc_tokens.specs.View.{Lexes};

use crate::text::{after, first, is_digit, is_letter, is_same, number, until};
use crate::tokens::{Assertion, Escape, Perl, Set};

fn perl(set: Set, negated: bool) -> Option<Escape>
    ensures { result ≡ Some (perl set negated) }
{
    Some(Escape::Perl(Perl { set, negated }))
}

fn is_punctuation(c: char) -> bool
    ensures { result ≡ is_punctuation c }
{
    c < '\u{80}' && !(is_letter(c) || is_digit(c) || c == '<' || c == '>')
}

/// An escape of one character.
fn short(c: char) -> Option<Escape>
    ensures { result ≡ short_says c }
{
    match c {
        'a' => Some(Escape::Character('\x07')),
        'f' => Some(Escape::Character('\x0C')),
        't' => Some(Escape::Character('\t')),
        'n' => Some(Escape::Character('\n')),
        'r' => Some(Escape::Character('\r')),
        'v' => Some(Escape::Character('\x0B')),
        'd' => perl(Set::Digits, false),
        's' => perl(Set::Spaces, false),
        'w' => perl(Set::Words, false),
        'D' => perl(Set::Digits, true),
        'S' => perl(Set::Spaces, true),
        'W' => perl(Set::Words, true),
        'A' => Some(Escape::Assertion(Assertion::TextStart)),
        'z' => Some(Escape::Assertion(Assertion::TextEnd)),
        'b' => Some(Escape::Assertion(Assertion::Boundary)),
        'B' => Some(Escape::Assertion(Assertion::NotBoundary)),
        '<' => Some(Escape::Assertion(Assertion::WordStart)),
        '>' => Some(Escape::Assertion(Assertion::WordEnd)),
        _ => {
            if is_punctuation(c) {
                return Some(Escape::Character(c));
            }
            None
        }
    }
}

/// The character with the code that the digits write.
fn scalar(digits: &[char]) -> Option<Escape>
    ensures { result ≡ scalar_says digits.now }
{
    let Some(code) = number(digits, 16, 0x11_0000) else {
        return None;
    };
    let Some(c) = char::from_u32(code) else {
        return None;
    };
    Some(Escape::Character(c))
}

/// The assertion of `\b{name}`.
fn boundary(name: &[char]) -> Option<Escape>
    ensures { result ≡ boundary_says name.now }
{
    if is_same(name, &['s', 't', 'a', 'r', 't']) {
        return Some(Escape::Assertion(Assertion::WordStart));
    }
    if is_same(name, &['e', 'n', 'd']) {
        return Some(Escape::Assertion(Assertion::WordEnd));
    }
    if is_same(name, &['s', 't', 'a', 'r', 't', '-', 'h', 'a', 'l', 'f']) {
        return Some(Escape::Assertion(Assertion::WordStartHalf));
    }
    if is_same(name, &['e', 'n', 'd', '-', 'h', 'a', 'l', 'f']) {
        return Some(Escape::Assertion(Assertion::WordEndHalf));
    }
    None
}

/// Whether the text begins with a `{` that no digit follows.
fn is_brace_name(text: &[char]) -> bool
    ensures { result ≡ is_brace_name text.now }
{
    let Some((c, rest)) = first(text) else {
        return false;
    };
    let Some((d, _)) = first(rest) else {
        return c == '{';
    };
    c == '{' && !is_digit(d)
}

fn takes_scalar(c: char) -> bool
    ensures { result ≡ takes_scalar c }
{
    c == 'x' || c == 'u' || c == 'U'
}

fn opens_brace(c: char, rest: &[char]) -> bool
    ensures { result ≡ opens_brace c rest.now }
{
    if takes_scalar(c) {
        return after(rest, '{').is_some();
    }
    c == 'b' && is_brace_name(rest)
}

/// The escape with `c` and the text in braces.
fn in_brace(c: char, inside: &[char]) -> Option<Escape>
    ensures { result ≡ in_brace c inside.now }
{
    if c == 'b' {
        return boundary(inside);
    }
    scalar(inside)
}

/// Goes on after the text in braces: returns the escape, and the rest.
fn braced<'t>(c: char, inside: &[char], rest: &'t [char]) -> Option<(Escape, &'t [char])>
    ensures { Lexes result (brace_then c inside.now rest.now) }
{
    let Some(rest) = after(rest, '}') else {
        return None;
    };
    let Some(escape) = in_brace(c, inside) else {
        return None;
    };
    Some((escape, rest))
}

/// The escape with digits and no braces: `x`, `u` and `U` take two, four and eight digits.
fn fixed(c: char, digits: &[char]) -> Option<Escape>
    ensures { result ≡ fixed_says c digits.now }
{
    if c == 'x' {
        if digits.len() != 2 {
            return None;
        }
        let Some(byte) = number(digits, 16, 256) else {
            return None;
        };
        return Some(Escape::Byte(byte as u8));
    }
    if c == 'u' {
        if digits.len() != 4 {
            return None;
        }
        return scalar(digits);
    }
    if c == 'U' && digits.len() == 8 {
        return scalar(digits);
    }
    None
}

#[tactic(auto, using(crate::proofs::OrderLemmas::fixed_few, crate::proofs::OrderLemmas::fixed_many))]
fn fixed_at(c: char, rest: &[char], count: usize) -> Option<(Escape, &[char])>
    ensures { Lexes result (fixed_then c count rest.now) }
{
    if rest.len() <= count {
        let Some(escape) = fixed(c, rest) else {
            return None;
        };
        return Some((escape, &rest[rest.len()..]));
    }
    let Some(escape) = fixed(c, &rest[..count]) else {
        return None;
    };
    Some((escape, &rest[count..]))
}

fn escape_at(c: char, rest: &[char]) -> Option<(Escape, &[char])>
    ensures { Lexes result (escape_at c rest.now) }
{
    if opens_brace(c, rest) {
        let (inside, rest) = until(&rest[1..], '}', '}');
        return braced(c, inside, rest);
    }
    if c == 'x' {
        return fixed_at(c, rest, 2);
    }
    if c == 'u' {
        return fixed_at(c, rest, 4);
    }
    if c == 'U' {
        return fixed_at(c, rest, 8);
    }
    let Some(escape) = short(c) else {
        return None;
    };
    Some((escape, rest))
}

/// The escape that follows a backslash, and the rest.
#[tactic(auto, using(crate::proofs::OrderLemmas::escape_is, crate::proofs::OrderLemmas::escape_none))]
pub fn escape(text: &[char]) -> Option<(Escape, &[char])>
    ensures { Lexes result (lex_escape text.now) }
{
    let Some((c, rest)) = first(text) else {
        return None;
    };
    escape_at(c, rest)
}
