//! Escapes: what begins with a backslash.

ghost use Rattle.std.specs.Prelude.{◌≡◌, ◌↔◌, ℕ, Bool, Some, ◌∷◌, ◌≤◌, length};
ghost use Rattle.rc_tokens.specs.Text.{Characters, is_at};
ghost use Rattle.rc_tokens.specs.Lexer.{run};
ghost use Rattle.rc_tokens.specs.View.{IsResultOf};
ghost use Rattle.rc_full_escapes.specs.declared.escapes.FullEscape.{FullEscape};
ghost use Rattle.rc_full_escapes.specs.Escapes.{is_octal, opens_name, property_says, IsEscape};
ghost use Rattle.rc_full_escapes.specs.Escaped.{read_stated, read_octal, named_then, read_property, property_at, escape_at, escape_behind, read_escape};

use rc_class_names::properties::{NameError, Property, property_named};
use rc_full_tokens::text::{after, first, number, until};
use rc_tokens::lexer::first_token;
use rc_tokens::refusal::Refusal;
use rc_tokens::tokens::{Assertion, Escape, Token};
use std::alloc::Global;

/// The meaning of an escape.
#[derive(Clone, Copy, Debug, PartialEq, Eq)]
pub enum FullEscape {
    /// One that the stated grammar has, too.
    Stated(Escape),
    /// The characters with a property.
    Property(Property),
}

/// Whether the text begins with a `{` that a letter or a hyphen follows.
fn opens_name(text: &[char]) -> bool
    ensures { result ≡ opens_name text.now }
{
    let Some((c, rest)) = first(text) else {
        return false;
    };
    let Some((d, _)) = first(rest) else {
        return false;
    };
    c == '{' && (('A' <= d && d <= 'Z') || ('a' <= d && d <= 'z') || d == '-')
}

/// An escape as the stated grammar has it.
fn stated(alloc: Global, text: &[char]) -> Result<(FullEscape, &[char]), Refusal>
    ensures { IsResultOf result (read_stated text.now) (λ p. (p.0, p.1.now)) }
{
    let (token, rest) = first_token(alloc, text)?;
    let escape = match token {
        Token::Character(c) => Escape::Character(c),
        Token::Byte(byte) => Escape::Byte(byte),
        Token::Perl(perl) => Escape::Perl(perl),
        Token::Assertion(assertion) => Escape::Assertion(assertion),
        _ => return Err(Refusal::Syntax),
    };
    Ok((FullEscape::Stated(escape), rest))
}

/// The octal digits at the front.
#[tactic(auto, using(rc_tokens::proofs::RunLemmas::passed_none, rc_tokens::proofs::RunLemmas::passed_more, rc_tokens::proofs::RunLemmas::passed_until))]
fn octal_digits(text: &[char]) -> &[char]
    ensures front { result.now ≡ run is_octal text.now }
    ensures shorter { length result.now ≤ length text.now }
{
    for i in 0..text.len() {
        let c = text[i];
        if !('0' <= c && c <= '7') {
            return &text[..i];
        }
    }
    text
}

/// The character that one to three octal digits write.
#[tactic(auto, using(rc_tokens::proofs::TextLemmas::take_few, crate::proofs::OctalLemmas::run_few))]
fn octal(text: &[char]) -> Result<(FullEscape, &[char]), Refusal>
    ensures { IsResultOf result (read_octal text.now) (λ p. (p.0, p.1.now)) }
{
    let few = if text.len() <= 3 { text } else { &text[..3] };
    let digits = octal_digits(few);
    let Some(code) = number(digits, 8, 512) else {
        return Err(Refusal::Syntax);
    };
    let Some(c) = char::from_u32(code) else {
        return Err(Refusal::Syntax);
    };
    Ok((
        FullEscape::Stated(Escape::Character(c)),
        &text[digits.len()..],
    ))
}

/// The characters with the property, or if `negated` is set those without it.
fn property(alloc: Global, negated: bool, name: &[char]) -> Result<FullEscape, Refusal>
    ensures { IsResultOf result (property_says negated name.now) (λ e. e) }
{
    match property_named(alloc, name) {
        Ok(found) => Ok(FullEscape::Property(Property {
            set: found.set,
            negated: if negated {
                !found.negated
            } else {
                found.negated
            },
        })),
        Err(NameError::Memory) => Err(Refusal::Memory),
        Err(_) => Err(Refusal::Syntax),
    }
}

/// Goes on behind the name in braces.
fn named_then<'t>(
    alloc: Global,
    negated: bool,
    name: &[char],
    text: &'t [char],
) -> Result<(FullEscape, &'t [char]), Refusal>
    ensures { IsResultOf result (named_then negated name.now text.now) (λ p. (p.0, p.1.now)) }
{
    let Some(rest) = after(text, '}') else {
        return Err(Refusal::Syntax);
    };
    let escape = property(alloc, negated, name)?;
    Ok((escape, rest))
}

fn property_at(
    alloc: Global,
    negated: bool,
    c: char,
    text: &[char],
) -> Result<(FullEscape, &[char]), Refusal>
    ensures { IsResultOf result (property_at negated c text.now) (λ p. (p.0, p.1.now)) }
{
    if c == '{' {
        let (name, rest) = until(text, '}');
        return named_then(alloc, negated, name, rest);
    }
    let escape = property(alloc, negated, &[c])?;
    Ok((escape, text))
}

/// The property behind `\p`, or if `negated` is set behind `\P`.
#[tactic(auto, using(crate::proofs::OctalLemmas::property_is, crate::proofs::OctalLemmas::property_none))]
fn property_behind(
    alloc: Global,
    negated: bool,
    text: &[char],
) -> Result<(FullEscape, &[char]), Refusal>
    ensures { IsResultOf result (read_property negated text.now) (λ p. (p.0, p.1.now)) }
{
    let Some((c, rest)) = first(text) else {
        return Err(Refusal::Syntax);
    };
    property_at(alloc, negated, c, rest)
}

/// Goes on behind `c`, where `text` begins with the backslash, and `behind` with `c`.
fn escape_at<'t>(
    alloc: Global,
    octal_allowed: bool,
    text: &'t [char],
    behind: &'t [char],
    c: char,
    rest: &'t [char],
) -> Result<(FullEscape, &'t [char]), Refusal>
    requires whole { text.now ≡ 92 ∷ c ∷ rest.now }
    requires tail { behind.now ≡ c ∷ rest.now }
    ensures { IsResultOf result (escape_at octal_allowed c rest.now) (λ p. (p.0, p.1.now)) }
{
    if c == 'p' {
        return property_behind(alloc, false, rest);
    }
    if c == 'P' {
        return property_behind(alloc, true, rest);
    }
    if octal_allowed && '0' <= c && c <= '7' {
        return octal(behind);
    }
    if c == 'b' && !opens_name(rest) {
        return Ok((
            FullEscape::Stated(Escape::Assertion(Assertion::Boundary)),
            rest,
        ));
    }
    stated(alloc, text)
}

/// The escape with which the text begins, and the rest. It fails with `Refusal::Syntax` only if no
/// escape begins the text, and with `Refusal::Memory` if it runs out of memory. One to three octal
/// digits are an escape only if `octal_allowed` is set.
#[tactic(auto, using(crate::proofs::OctalLemmas::escape_is, crate::proofs::OctalLemmas::escape_none, crate::proofs::OctalLemmas::escape_other, crate::proofs::OctalLemmas::escape_end))]
pub fn escape(
    alloc: Global,
    octal_allowed: bool,
    text: &[char],
) -> Result<(FullEscape, &[char]), Refusal>
    ensures { IsResultOf result (read_escape octal_allowed text.now) (λ p. (p.0, p.1.now)) }
{
    let Some((slash, behind)) = first(text) else {
        return Err(Refusal::Syntax);
    };
    if slash != '\\' {
        return Err(Refusal::Syntax);
    }
    let Some((c, rest)) = first(behind) else {
        return Err(Refusal::Syntax);
    };
    escape_at(alloc, octal_allowed, text, behind, c, rest)
}

/// The reader returns the escape with which the text begins, or none if no escape begins it.
pub fn gives_the_escape()
    ensures { (octal : Bool) (t : Characters) (e : FullEscape) (u : Characters)
        → (read_escape octal t ≡ Some (e, u)) ↔ IsEscape octal t e u }
{}
