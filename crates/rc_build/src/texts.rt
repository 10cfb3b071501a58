//! Parsing of pattern texts before a build.
ghost use Rattle.std.specs.Prelude.{◌≡◌, ◌≤◌, ◌<◌, ℕ, length, map, IfErr, IfOk};
ghost use Rattle.rc_text.specs.Limits.{most_patterns};
ghost use Rattle.rc_pattern.specs.Meaning.{meaning};
ghost use Rattle.rc_parser.specs.Settings.{settings_of};
ghost use Rattle.rc_build.specs.TextRefusals.{AllRead, IsReadingRefusal, texts_of};

use rc_parser::Config;
use rc_pattern::hir::Hir;
use rc_pattern::syntax;
use rc_settings::error::BuildError;
use rc_syntax::parse;
use rc_text::types::PatternID;
use std::alloc::Global;

/// Parses the texts, at most 2,147,483,647 of them, and returns the pattern of each text at its
/// index.
///
/// The error is `Syntax`, with the first text that doesn't parse, or `Memory`, which means out of
/// memory.
pub fn parse_all(alloc: Global, texts: &[&str], config: &Config) -> Result<Vec<Hir>, BuildError>
    requires { length texts.now ≤ most_patterns }
    ensures read { IfOk result (λ hirs. AllRead (settings_of config.now) (texts_of texts.now)
        (map meaning hirs.items)) }
    ensures refused { IfErr result (λ e. IsReadingRefusal (settings_of config.now)
        (texts_of texts.now) e) }
{
    let mut hirs = Vec::new(alloc);
    for (i, text) in texts.iter().enumerate() {
        match parse(alloc, text, config) {
            Ok(hir) => hirs.push(hir)?,
            Err(syntax::Error::Memory) => return Err(BuildError::Memory),
            Err(syntax::Error::Syntax { at }) => {
                let pattern = PatternID::new(i).unwrap();
                let error = syntax::Error::Syntax { at };
                return Err(BuildError::Syntax { pattern, error });
            }
        }
    }
    Ok(hirs)
}
