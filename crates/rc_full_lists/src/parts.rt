//! The parts of the text between brackets, from left to right.

ghost use Rattle.std.specs.Prelude.{◌≡◌, ◌↔◌, ◌∷◌, ℕ, Some, None, MatchOption};
ghost use Rattle.rc_tokens.specs.Text.{Characters};
ghost use Rattle.rc_tokens.specs.Classes.{code_of};
ghost use Rattle.rc_tokens.specs.View.{IsResultOf};
ghost use Rattle.rc_tokens.specs.declared.tokens.Member.TheVariants.{Character};
ghost use Rattle.rc_full_lists.specs.declared.parts.Settings.{Settings};
ghost use Rattle.rc_full_lists.specs.declared.parts.Part.{Part};
ghost use Rattle.rc_full_lists.specs.Laws.{ItemsHaveCodes};
ghost use Rattle.rc_full_lists.specs.Parts.{twice, operator_at, atom_of, IsPart};
ghost use Rattle.rc_full_lists.specs.Read.{passed, posix_then, posix_name, read_posix, atom_at, read_atom, high_at, goes_on, codes, ranged, atom_then, plain_at, read_part, Reads};

use crate::items::Item;
use rc_class_names::posix::Posix;
use rc_full_escapes::escapes::{FullEscape, escape};
use rc_full_tokens::gaps::skip_gaps;
use rc_full_tokens::text::{after, first, until};
use rc_tokens::classes::CodeRange;
use rc_tokens::refusal::Refusal;
use rc_tokens::tokens::Escape;
use std::alloc::Global;

/// What decides how a list is read.
#[derive(Clone, Copy, Debug, PartialEq, Eq)]
pub struct Settings {
    /// The flag `u`: lists are of characters, else of bytes.
    pub unicode: bool,
    /// The flag `x`: white space and comments are passed over.
    pub verbose: bool,
    /// Whether octal numbers are escapes.
    pub octal: bool,
}

/// An operator between the sides of a list.
#[derive(Clone, Copy, Debug, PartialEq, Eq)]
pub enum Operation {
    /// `&&`
    Intersection,
    /// `--`
    Difference,
    /// `~~`
    SymmetricDifference,
}

/// What may begin an item: a code, which may begin a range, too, or a set.
#[derive(Clone, Copy, Debug, PartialEq, Eq)]
pub enum Atom {
    Code(u32),
    Set(Item),
}

/// A part of the text between brackets.
#[derive(Clone, Copy, Debug, PartialEq, Eq)]
pub enum Part {
    /// `]`
    Closes,
    /// `[`
    Opens,
    Operates(Operation),
    Has(Item),
}

/// The text behind the gaps at its front, if `verbose` is set.
#[tactic(auto, using(rc_full_tokens::proofs::GapLemmas::ends_there))]
pub fn passed(verbose: bool, text: &[char]) -> &[char]
    ensures { result.now ≡ passed verbose text.now }
{
    if verbose {
        return skip_gaps(text);
    }
    text
}

fn twice(text: &[char], c: char) -> bool
    ensures { result ≡ twice c text.now }
{
    let Some(rest) = after(text, c) else {
        return false;
    };
    after(rest, c).is_some()
}

fn operator_at(text: &[char]) -> Option<Operation>
    ensures { result ≡ operator_at text.now }
{
    if twice(text, '&') {
        return Some(Operation::Intersection);
    }
    if twice(text, '-') {
        return Some(Operation::Difference);
    }
    if twice(text, '~') {
        return Some(Operation::SymmetricDifference);
    }
    None
}

/// The item `[:name:]`, or `[:^name:]` if `negated` is set, and the rest behind it.
fn posix_then<'t>(negated: bool, name: &[char], text: &'t [char]) -> Option<(Item, &'t [char])>
    ensures { Reads result (posix_then negated name.now text.now) }
{
    let Some(behind) = after(text, ':') else {
        return None;
    };
    let Some(rest) = after(behind, ']') else {
        return None;
    };
    let Some(class) = Posix::named(name) else {
        return None;
    };
    if negated {
        return Some((Item::NotPosix(class), rest));
    }
    Some((Item::Posix(class), rest))
}

fn posix_name(negated: bool, text: &[char]) -> Option<(Item, &[char])>
    ensures { Reads result (posix_name negated text.now) }
{
    let (name, rest) = until(text, ':');
    posix_then(negated, name, rest)
}

/// The POSIX class in brackets that begins the text, and the rest.
fn posix(text: &[char]) -> Option<(Item, &[char])>
    ensures { Reads result (read_posix text.now) }
{
    let Some(behind) = after(text, '[') else {
        return None;
    };
    let Some(name) = after(behind, ':') else {
        return None;
    };
    if let Some(name) = after(name, '^') {
        return posix_name(true, name);
    }
    posix_name(false, name)
}

/// The code of a character in a list; with `unicode` off only those of ASCII have one.
fn character(unicode: bool, c: char) -> Option<u32>
    ensures { result ≡ code_of unicode (Character c) }
{
    if unicode || c < '\u{80}' {
        return Some(c as u32);
    }
    None
}

fn atom_of(unicode: bool, escape: FullEscape) -> Option<Atom>
    ensures { result ≡ atom_of unicode escape }
{
    match escape {
        FullEscape::Stated(Escape::Perl(perl)) => Some(Atom::Set(Item::Perl(perl))),
        FullEscape::Stated(Escape::Character(c)) => {
            let Some(code) = character(unicode, c) else {
                return None;
            };
            Some(Atom::Code(code))
        }
        FullEscape::Stated(Escape::Byte(byte)) => Some(Atom::Code(byte as u32)),
        FullEscape::Stated(Escape::Assertion(_)) => None,
        FullEscape::Property(property) => {
            if unicode {
                return Some(Atom::Set(Item::Property(property)));
            }
            None
        }
    }
}

fn atom_at<'t>(
    alloc: Global,
    settings: Settings,
    text: &'t [char],
    c: char,
    rest: &'t [char],
) -> Result<(Atom, &'t [char]), Refusal>
    requires { text.now ≡ c ∷ rest.now }
    ensures { IsResultOf result (atom_at settings c rest.now) (λ p. (p.0, p.1.now)) }
{
    if c == '\\' {
        let (said, rest) = escape(alloc, settings.octal, text)?;
        let Some(atom) = atom_of(settings.unicode, said) else {
            return Err(Refusal::Syntax);
        };
        return Ok((atom, rest));
    }
    let Some(code) = character(settings.unicode, c) else {
        return Err(Refusal::Syntax);
    };
    Ok((Atom::Code(code), rest))
}

/// The code or the set with which the text begins, and the rest.
#[tactic(auto, using(crate::proofs::ShapeLemmas::atom_is, crate::proofs::ShapeLemmas::atom_none))]
fn first_atom(alloc: Global, settings: Settings, text: &[char]) -> Result<(Atom, &[char]), Refusal>
    ensures { IsResultOf result (read_atom settings text.now) (λ p. (p.0, p.1.now)) }
{
    let Some((c, rest)) = first(text) else {
        return Err(Refusal::Syntax);
    };
    atom_at(alloc, settings, text, c, rest)
}

/// The text from the upper end on, if a hyphen goes on with a range.
fn goes_on(verbose: bool, text: &[char]) -> Option<&[char]>
    ensures { MatchOption result (goes_on verbose text.now ≡ None)
        (λ v. goes_on verbose text.now ≡ Some v.now) }
{
    let Some(behind) = after(passed(verbose, text), '-') else {
        return None;
    };
    let high = passed(verbose, behind);
    if after(high, ']').is_some() || after(high, '-').is_some() {
        return None;
    }
    Some(high)
}

fn codes(start: u32, end: u32) -> Part
    ensures { result ≡ codes start end }
{
    Part::Has(Item::Codes(CodeRange { start, end }))
}

/// The code, or the range that it begins.
fn ranged<'t>(
    alloc: Global,
    settings: Settings,
    low: u32,
    text: &'t [char],
) -> Result<(Part, &'t [char]), Refusal>
    ensures { IsResultOf result (ranged settings low text.now (goes_on settings.verbose text.now))
        (λ p. (p.0, p.1.now)) }
{
    let Some(behind) = goes_on(settings.verbose, text) else {
        return Ok((codes(low, low), text));
    };
    let (atom, rest) = first_atom(alloc, settings, behind)?;
    let Atom::Code(high) = atom else {
        return Err(Refusal::Syntax);
    };
    if high < low {
        return Err(Refusal::Syntax);
    }
    Ok((codes(low, high), rest))
}

fn atom_then<'t>(
    alloc: Global,
    settings: Settings,
    atom: Atom,
    text: &'t [char],
) -> Result<(Part, &'t [char]), Refusal>
    ensures { IsResultOf result (atom_then settings (atom, text.now)) (λ p. (p.0, p.1.now)) }
{
    match atom {
        Atom::Code(code) => ranged(alloc, settings, code, text),
        Atom::Set(item) => {
            if goes_on(settings.verbose, text).is_some() {
                return Err(Refusal::Syntax);
            }
            Ok((Part::Has(item), text))
        }
    }
}

/// The part at a text that no bracket begins.
fn plain_at(alloc: Global, settings: Settings, text: &[char]) -> Result<(Part, &[char]), Refusal>
    ensures { IsResultOf result (plain_at settings text.now (operator_at text.now))
        (λ p. (p.0, p.1.now)) }
{
    if let Some(operation) = operator_at(text) {
        return Ok((Part::Operates(operation), &text[2..]));
    }
    let (found, rest) = first_atom(alloc, settings, text)?;
    atom_then(alloc, settings, found, rest)
}

/// The first part of the text between brackets, and the rest. No gap begins the text, if the
/// settings pass over gaps. It fails with `Refusal::Syntax` only if no part begins the text, and
/// with `Refusal::Memory` if it runs out of memory.
pub fn first_part(
    alloc: Global,
    settings: Settings,
    text: &[char],
) -> Result<(Part, &[char]), Refusal>
    ensures { IsResultOf result (read_part settings text.now) (λ p. (p.0, p.1.now)) }
{
    if let Some(rest) = after(text, ']') {
        return Ok((Part::Closes, rest));
    }
    if let Some(rest) = after(text, '[') {
        if let Some((item, behind)) = posix(text) {
            return Ok((Part::Has(item), behind));
        }
        return Ok((Part::Opens, rest));
    }
    plain_at(alloc, settings, text)
}

/// The reader returns the part with which the text begins, or none if no part begins it.
pub fn gives_the_part()
    ensures { (s : Settings) (t : Characters) (p : Part) (u : Characters)
        → (read_part s t ≡ Some (p, u)) ↔ IsPart s t p u }
{}

/// An item that is read is one of characters, or without the flag `u` of bytes.
pub fn items_have_codes()
    ensures { ItemsHaveCodes }
{}
