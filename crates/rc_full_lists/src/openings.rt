//! The opening of a list: what comes first behind its `[`.

ghost use Rattle.std.specs.Prelude.{◌≡◌, Some};
ghost use Rattle.rc_full_lists.specs.Openings.{Hyphens, Sign, Lead, IsOpening, OpensInOneWay};

use crate::parts::passed;
use rc_full_tokens::text::after;

/// The text behind the hyphens at its front, and behind the gaps that follow each of them.
fn behind_hyphens(verbose: bool, text: &[char]) -> &[char]
    ensures { Hyphens verbose text.now result.now }
{
    let mut rest = text;
    while let Some(behind) = after(rest, '-') {
        rest = passed(verbose, behind);
    }
    rest
}

/// Whether `^` comes first, and the rest.
#[tactic(auto, using(crate::proofs::OpeningLemmas::sign_caret, crate::proofs::OpeningLemmas::sign_none))]
fn sign(verbose: bool, text: &[char]) -> (bool, &[char])
    ensures { Sign verbose text.now result.0 result.1.now }
{
    if let Some(behind) = after(text, '^') {
        return (true, passed(verbose, behind));
    }
    (false, text)
}

/// The code of the hyphens or of the `]` that come first, and the rest.
#[tactic(auto, using(crate::proofs::OpeningLemmas::lead_hyphens, crate::proofs::OpeningLemmas::lead_bracket, crate::proofs::OpeningLemmas::lead_none))]
fn lead(verbose: bool, text: &[char]) -> (Option<u32>, &[char])
    ensures { Lead verbose text.now result.0 result.1.now }
{
    if let Some(behind) = after(text, '-') {
        return (Some(45), behind_hyphens(verbose, passed(verbose, behind)));
    }
    if let Some(behind) = after(text, ']') {
        return (Some(93), passed(verbose, behind));
    }
    (None, text)
}

/// Behind the `[` of a list: whether `^` negates it, the code of what leads, which is a hyphen or a
/// `]`, and the rest. Any text opens a list.
#[tactic(auto, using(crate::proofs::OpeningLemmas::opens_so))]
pub fn opening(verbose: bool, text: &[char]) -> (bool, Option<u32>, &[char])
    ensures { IsOpening verbose text.now result.0 result.1 result.2.now }
{
    let (negated, behind) = sign(verbose, passed(verbose, text));
    let (first, rest) = lead(verbose, behind);
    (negated, first, rest)
}

/// A text opens a list in one way.
pub fn opens_in_one_way()
    ensures { OpensInOneWay }
{}
