//! Lexer: the first token of a text.

ghost use Rattle.std.specs.Prelude.{◌≡◌, ◌+◌, ◌<◌, ◌≤◌, ◌-◌, ◌∷◌, ◌++◌, [], None, Some, true, false, not, ◌&&◌, ◌||◌, ◌==◌, ◌↔◌, ℕ, List, drop, take, length, MatchResult};
ghost use Rattle.rc_tokens.specs.Text.{Characters, is_at, is_digit};
ghost use Rattle.rc_tokens.specs.Said.{Said, Repeats};
ghost use Rattle.rc_tokens.specs.Lexer.{run, after_run, past, repeats_then, second, counts, piece_then, lex_escape, lex_at, lex};
ghost use Rattle.rc_tokens.specs.Marks.{bounds, count, BeginsWithMark};
ghost use Rattle.rc_tokens.specs.View.{said_of, Lexes, IsResultOf, LexesToken};

use crate::escapes::escape;
use crate::groups::opening;
use crate::lists::list;
use crate::refusal::Refusal;
use crate::text::{after, digits, first, number};
use crate::tokens::{Assertion, Bounds, Escape, Token};
use std::alloc::Global;

/// A repetition with these bounds, lazy if a `?` follows.
fn repeats(text: &[char], min: u32, max: Option<u32>) -> (Token, &[char])
    ensures token { said_of result.0 ≡ Repeats (bounds (is_at 63 text.now) min max) }
    ensures rest { result.1.now ≡ past 63 text.now }
{
    if let Some(rest) = after(text, '?') {
        let lazy = true;
        return (Token::Repeats(Bounds { min, max, lazy }), rest);
    }
    let lazy = false;
    (Token::Repeats(Bounds { min, max, lazy }), text)
}

/// The number of repetitions that the digits write.
fn count(digits: &[char]) -> Option<u32>
    ensures { result ≡ count digits.now }
{
    number(digits, 10, 0x1_0000_0000)
}

/// Goes on after the digits of the second number: returns the token, and the rest.
fn second<'t>(min: u32, digits: &[char], text: &'t [char]) -> Result<(Token, &'t [char]), Refusal>
    ensures { LexesToken result (second min digits.now text.now) }
{
    let Some(max) = count(digits) else {
        return Err(Refusal::Syntax);
    };
    let Some(rest) = after(text, '}') else {
        return Err(Refusal::Syntax);
    };
    if max < min {
        return Err(Refusal::Syntax);
    }
    Ok(repeats(rest, min, Some(max)))
}

/// Goes on after the digits of the first number of a counted repetition: returns the token, and the
/// rest.
fn counted<'t>(number: &[char], text: &'t [char]) -> Result<(Token, &'t [char]), Refusal>
    ensures { LexesToken result (counts number.now text.now) }
{
    let Some(min) = count(number) else {
        return Err(Refusal::Syntax);
    };
    if let Some(rest) = after(text, '}') {
        return Ok(repeats(rest, min, Some(min)));
    }
    let Some(text) = after(text, ',') else {
        return Err(Refusal::Syntax);
    };
    if let Some(rest) = after(text, '}') {
        return Ok(repeats(rest, min, None));
    }
    let (most, rest) = digits(text);
    second(min, most, rest)
}

/// The token of an escape outside lists, after its backslash.
fn escaped(text: &[char]) -> Result<(Token, &[char]), Refusal>
    ensures { LexesToken result (piece_then (lex_escape text.now)) }
{
    let Some((escape, rest)) = escape(text) else {
        return Err(Refusal::Syntax);
    };
    let token = match escape {
        Escape::Character(c) => Token::Character(c),
        Escape::Byte(byte) => Token::Byte(byte),
        Escape::Perl(perl) => Token::Perl(perl),
        Escape::Assertion(assertion) => Token::Assertion(assertion),
    };
    Ok((token, rest))
}

fn token_at(alloc: Global, c: char, rest: &[char]) -> Result<(Token, &[char]), Refusal>
    ensures { LexesToken result (lex_at c rest.now) }
{
    match c {
        '|' => Ok((Token::Bar, rest)),
        ')' => Ok((Token::Closes, rest)),
        '(' => opening(alloc, rest),
        '*' => Ok(repeats(rest, 0, None)),
        '+' => Ok(repeats(rest, 1, None)),
        '?' => Ok(repeats(rest, 0, Some(1))),
        '{' => {
            let (number, rest) = digits(rest);
            counted(number, rest)
        }
        '[' => list(alloc, rest),
        '\\' => escaped(rest),
        '.' => Ok((Token::Dot, rest)),
        '^' => Ok((Token::Assertion(Assertion::Caret), rest)),
        '$' => Ok((Token::Assertion(Assertion::Dollar), rest)),
        _ => Ok((Token::Character(c), rest)),
    }
}

/// Returns the first token of a text, and the rest. It fails with `Refusal::Syntax` only if no
/// token begins the text, and with `Refusal::Memory` if it runs out of memory.
#[tactic(auto, using(crate::proofs::OrderLemmas::lex_is, crate::proofs::OrderLemmas::lex_none))]
pub fn first_token(alloc: Global, text: &[char]) -> Result<(Token, &[char]), Refusal>
    ensures { LexesToken result (lex text.now) }
{
    let Some((c, rest)) = first(text) else {
        return Err(Refusal::Syntax);
    };
    token_at(alloc, c, rest)
}

/// The lexer returns the token with which the text begins, or none if no token begins it.
pub fn gives_the_mark()
    ensures { (t : Characters) (k : Said) (u : Characters)
        → (lex t ≡ Some (k, u)) ↔ BeginsWithMark t k u }
{}
