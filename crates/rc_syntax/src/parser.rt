//! Parser: reads the text of a pattern as a `Hir`, by either grammar.

ghost use Rattle.std.specs.Prelude.{◌≡◌, ◌≤◌, [], MatchResult, IfOk, IsTrue, length, chars};
ghost use Rattle.rc_pattern.specs.Re.{Re};
ghost use Rattle.rc_pattern.specs.Meaning.{meaning};
ghost use Rattle.rc_pattern.specs.Kinds.{has_plain_nodes};
ghost use Rattle.rc_pattern.specs.WellFormed.{IsWellFormed};
ghost use Rattle.rc_pattern.specs.declared.hir.Hir.{out-Hir};
ghost use Rattle.rc_pattern.specs.declared.hir.HirKind.TheVariants as HirKind;
ghost use Rattle.rc_parser.specs.Settings.{settings_of};
ghost use Rattle.rc_parser.specs.Outcome.{OnSyntax};
ghost use Rattle.rc_syntax.specs.Reads.{Reads};

use rc_parser::{Config, Error, Grammar};
use rc_pattern::hir::Hir;
use std::alloc::Global;

/// Parses the text of a pattern by the grammar that is set.
///
/// It returns the pattern that the grammar gives the text. That pattern is well-formed. None of its
/// nodes is a concatenation of nothing, and the empty text is the node `Empty`. It fails with
/// `Syntax` only if the grammar gives no pattern, and with `Memory` if it runs out of memory.
pub fn parse(alloc: Global, text: &str, config: &Config) -> Result<Hir, Error>
    ensures reads { MatchResult result
        (λ h. Reads (settings_of config.now) (chars text.now) (meaning h))
        (λ e. OnSyntax e (λ at. (at ≤ length text.now)
        × ((re : Re) → Reads (settings_of config.now) (chars text.now) re → ⊥))) }
    ensures well_formed { IfOk result (λ h. IsWellFormed (meaning h)) }
    ensures kind { IfOk result (λ h. IsTrue (has_plain_nodes h)) }
    ensures empty { text.now ≡ [] → IfOk result (λ h. (out-Hir h).kind ≡ HirKind.Empty) }
{
    match config.get_grammar() {
        Grammar::Stated => rc_parser::parse(alloc, text, config),
        Grammar::Full => rc_full_parser::parse(alloc, text, config),
    }
}
