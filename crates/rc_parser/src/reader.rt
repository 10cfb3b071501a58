//! Parser: reads the text of a pattern as a `Hir`.

ghost use Rattle.std.specs.Prelude.{◌≡◌, ℕ, ◌≤◌, ◌<◌, ◌+◌, None, [], MatchResult, IfOk, IsTrue, length, chars};
ghost use Rattle.rc_pattern.specs.Re.{Re};
ghost use Rattle.rc_pattern.specs.Meaning.{meaning};
ghost use Rattle.rc_pattern.specs.Kinds.{has_plain_nodes};
ghost use Rattle.rc_pattern.specs.declared.hir.Hir.{out-Hir};
ghost use Rattle.rc_pattern.specs.declared.hir.HirKind.TheVariants as HirKind;
ghost use Rattle.rc_pattern.specs.WellFormed.{IsWellFormed};
ghost use Rattle.rc_tokens.specs.Text.{Characters};
ghost use Rattle.rc_parser.specs.Settings.{Settings, settings_of};
ghost use Rattle.rc_parser.specs.Pieces.{Subpattern};
ghost use Rattle.rc_parser.specs.Grammar.{Reads};
ghost use Rattle.rc_parser.specs.Machine.{Has, fresh};
ghost use Rattle.rc_parser.specs.View.{part};
ghost use Rattle.rc_parser.specs.Laws.{OneLaw, WellFormedLaw, PlainLaw};
ghost use Rattle.rc_parser.specs.Outcome.{OnSyntax, OnFault};

use crate::builder::Work;
use crate::config::Config;
use crate::error::Error;
use crate::nested::Nested;
use rc_pattern::hir::Hir;
use rc_tokens::lexer::first_token;
use rc_tokens::refusal::Refusal;
use std::alloc::{AllocError, Global};

/// Why the characters don't parse.
#[derive(Drop)]
pub enum Fault {
    /// The number of characters that are left.
    Syntax(usize),
    Memory,
}

#[tactic(auto, using(crate::proofs::ReadLemmas::same_start, crate::proofs::ReadLemmas::same_step, crate::proofs::ReadLemmas::same_stuck, crate::proofs::ReadLemmas::same_refused, crate::proofs::ReadLemmas::same_end, crate::proofs::ReadLemmas::same_none, rc_tokens::proofs::SoundLemmas::lex_shorter))]
fn read(alloc: Global, chars: &[char], config: Config) -> Result<Nested, Fault>
    ensures terminator { (settings_of config).line_terminator < 256 }
    ensures reads { MatchResult result (λ n. Has (settings_of config)
        (fresh (settings_of config)) chars.now (part n))
        (λ e. OnFault e ((p : Subpattern)
        → Has (settings_of config) (fresh (settings_of config)) chars.now p → ⊥)) }
{
    let mut work = Work::new(alloc, config);
    let mut rest = chars;
    while !rest.is_empty() {
        let (token, after) = match first_token(alloc, rest) {
            Ok(found) => found,
            Err(Refusal::Memory) => return Err(Fault::Memory),
            Err(Refusal::Syntax) => return Err(Fault::Syntax(rest.len())),
        };
        match work.accept(alloc, token) {
            Ok(()) => {}
            Err(Refusal::Memory) => return Err(Fault::Memory),
            Err(Refusal::Syntax) => return Err(Fault::Syntax(rest.len())),
        }
        if work.is_too_deep() {
            return Err(Fault::Syntax(rest.len()));
        }
        rest = after;
    }
    match work.finish(alloc) {
        Ok(whole) => Ok(whole),
        Err(Refusal::Memory) => Err(Fault::Memory),
        Err(Refusal::Syntax) => Err(Fault::Syntax(0)),
    }
}

/// The byte of the text at which the character after the first `count` begins, or the length of the
/// text if it has no more than `count`.
pub fn byte_before(text: &str, count: usize) -> usize
    ensures { result ≤ length text.now }
{
    let mut seen: usize = 0;
    for (at, _) in text.char_indices() {
        if seen == count {
            return at;
        }
        seen = seen.saturating_add(1);
    }
    text.len()
}

/// The characters of the text.
#[tactic(auto, using(std::proofs::lemmas::Str::chars_from_encodes))]
pub fn characters(alloc: Global, text: &str) -> Result<Vec<char>, AllocError>
    ensures { IfOk result (λ v. v.items ≡ chars text.now) }
{
    text.chars().collect(alloc)
}

/// Parses the text of a pattern.
///
/// It returns the pattern that the grammar gives the text. That pattern is well-formed. None of its
/// nodes is a concatenation of nothing, and the empty text is the node `Empty`. It fails with
/// `Syntax` only if the grammar gives no pattern, and with `Memory` if it runs out of memory.
pub fn parse(alloc: Global, text: &str, config: &Config) -> Result<Hir, Error>
    ensures reads { MatchResult result
        (λ h. Reads (settings_of config.now) (chars text.now) (meaning h))
        (λ e. OnSyntax e (λ at. (at ≤ length text.now)
        × ((re : Re) → Reads (settings_of config.now) (chars text.now) re → ⊥))) }
    ensures well_formed { IfOk result (λ h. IsWellFormed (meaning h)) }
    ensures kind { IfOk result (λ h. IsTrue (has_plain_nodes h)) }
    ensures empty { text.now ≡ [] → IfOk result (λ h. (out-Hir h).kind ≡ HirKind.Empty) }
{
    let Ok(all) = characters(alloc, text) else {
        return Err(Error::Memory);
    };
    match read(alloc, &all, *config) {
        Ok(whole) => {
            let Nested { hir, depth: _ } = whole;
            Ok(hir)
        }
        Err(Fault::Memory) => Err(Error::Memory),
        Err(Fault::Syntax(left)) => {
            let at = byte_before(text, all.len().saturating_sub(left));
            Err(Error::Syntax { at })
        }
    }
}

/// No text parses as two patterns.
pub fn reads_as_one()
    ensures { OneLaw }
{}

/// A parsed pattern is well-formed.
pub fn reads_well_formed()
    ensures { WellFormedLaw }
{}

/// Under the default settings a text without special characters parses as its UTF-8 bytes.
pub fn reads_plain()
    ensures { PlainLaw }
{}
