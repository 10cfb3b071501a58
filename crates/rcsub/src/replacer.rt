//! Replacer: a pattern, built, and a template.
ghost use Rattle.std.specs.Prelude.{◌≡◌, ◌∷◌, [], IfOk, false, true};
ghost use Rattle.rc_pattern.specs.Meaning.{meaning};
ghost use Rattle.api_meta.specs.Views.{regex_patterns, regex_settings};
ghost use Rattle.rc_program.specs.Sought.{may_be_empty as is_ever_empty};
ghost use Rattle.chunk_replace.specs.Template.{template_items};
ghost use Rattle.chunk_replace.specs.Words.{settings_in};
ghost use Rattle.rcsub.specs.Alike.{ReplaceAlike};

use chunk_replace::Template;
use regex_cursor::engines::meta::{BuildError, Regex};
use regex_cursor::hir::Hir;
use std::alloc::Global;

/// A pattern, built, and a template.
#[derive(Drop)]
pub struct Replacer<'t> {
    pub(crate) template: Template<'t>,
    /// For a text that is UTF-8: no match ends inside a character.
    pub(crate) over_utf8: Regex,
    /// For any other text.
    pub(crate) over_bytes: Regex,
    ghost utf8_settings: { regex_settings over_utf8 ≡ settings_in true },
    ghost bytes_settings: { regex_settings over_bytes ≡ settings_in false },
    /// Whether the pattern may match nothing. If it can't, both find the same.
    pub(crate) may_be_empty: bool,
    ghost alike: { may_be_empty ≡ false → ReplaceAlike over_bytes over_utf8 },
}

/// Whether the pattern may match nothing. Of one that is too deep to be built it isn't said.
fn may_be_empty(hir: &Hir) -> bool
    ensures { result ≡ false → is_ever_empty (meaning hir.now ∷ []) ≡ false }
{
    hir.properties().minimum_len() == Some(0)
}

/// Builds a regex of the pattern.
fn build(alloc: Global, hir: &Hir, is_utf8: bool) -> Result<Regex, BuildError>
    ensures patterns { IfOk result (λ r. regex_patterns r ≡ meaning hir.now ∷ []) }
    ensures settings { IfOk result (λ r. regex_settings r ≡ settings_in is_utf8) }
{
    let mut builder = Regex::builder();
    builder.configure(Regex::config().utf8_empty(is_utf8));
    let built = builder.build_from_hir(alloc, hir);
    drop(builder);
    built
}

impl<'t> Replacer<'t> {
    /// Builds the pattern, twice: for texts that are UTF-8, and for others.
    pub fn new(alloc: Global, hir: &Hir, template: Template<'t>) -> Result<Replacer<'t>, BuildError>
        ensures over_utf8 { IfOk result (λ r. regex_patterns r.over_utf8 ≡ meaning hir.now ∷ []) }
        ensures over_bytes { IfOk result (λ r. regex_patterns r.over_bytes ≡ meaning hir.now ∷ []) }
        ensures template { IfOk result (λ r. template_items r.template ≡ template_items template.entry) }
    {
        let may_be_empty = may_be_empty(hir);
        let over_utf8 = build(alloc, hir, true)?;
        match build(alloc, hir, false) {
            Ok(over_bytes) => Ok(Replacer {
                template,
                over_utf8,
                over_bytes,
                may_be_empty,
            }),
            Err(refusal) => {
                drop(over_utf8);
                Err(refusal)
            }
        }
    }
}
